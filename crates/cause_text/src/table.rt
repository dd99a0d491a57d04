// The lines that people read: that of one cause, and the table of all.
ghost use Rattle.std.specs.Prelude.{◌≡◌, ◌∷◌, ◌≤◌, ◌<◌};
ghost use Rattle.emit.specs.Texts.{pushed};
ghost use Rattle.cause_text.specs.Text.{three, answer_text, column, columns, line_end, table_line, table};
ghost use Rattle.cause_text.specs.Columns.{leading};

use causes::StatusAnswer;
use emit::Text;

// 14 bytes for each of the 128 causes: nothing that is printed is longer.
pub(crate) type Lines = Text<1792>;

// The line of one cause.
pub(crate) fn push_answer(text: &mut Lines, cause: u64)
    ensures { text.new ≡ pushed 1792 text.old (answer_text cause) }
{
    let answer = StatusAnswer::from(causes::status_of_cause(cause));
    push_three(text, answer.status, answer.row, answer.refusal);
}

// A line of three numbers.
fn push_three(text: &mut Lines, a: u64, b: u64, c: u64)
    ensures { text.new ≡ pushed 1792 text.old (three a b c) }
{
    text.push_number(a);
    text.push_spaced(b);
    text.push_spaced(c);
    text.push(b"\n");
}

// The last digit of what stands before a place, a blank where nothing does.
fn leading(n: u64) -> u8
    ensures { result ≡ leading n }
{
    if n == 0 { b' ' } else { emit::digit(n) }
}

// A number, right-aligned in three places: by hand, since no clause of `write!` says that it succeeds where there is room.
fn push_column(text: &mut Lines, n: u64)
    requires { n < 1000 }
    ensures { text.new ≡ pushed 1792 text.old (column n) }
{
    let tens = n / 10;
    let places = [leading(tens / 10), leading(tens), emit::digit(n)];
    text.push(&places);
}

// Three columns, with a space between them.
fn push_columns(text: &mut Lines, a: u64, b: u64, c: u64)
    requires { (a < 1000) × (b < 1000) × (c < 1000) }
    ensures { text.new ≡ pushed 1792 text.old (columns a b c) }
{
    push_column(text, a);
    text.push(b" ");
    push_column(text, b);
    text.push(b" ");
    push_column(text, c);
}

// The end of a line.
fn push_end(text: &mut Lines, starred: bool)
    ensures { text.new ≡ pushed 1792 text.old (line_end starred) }
{
    if starred {
        text.push(b" *\n");
    } else {
        text.push(b"\n");
    }
}

// The line of a cause in the table.
fn push_line(text: &mut Lines, cause: u64)
    requires { cause ≤ 127 }
    ensures { text.new ≡ pushed 1792 text.old (table_line cause) }
{
    let answer = StatusAnswer::from(causes::status_of_cause(cause));
    push_columns(text, cause, answer.status, answer.row);
    push_end(text, answer.row == cause);
}

// The table of the causes of 0 to 127.
pub(crate) fn push_table(text: &mut Lines)
    ensures { text.new ≡ pushed 1792 text.old table }
{
    for cause in 0..128 {
        push_line(text, cause);
    }
}
