// What people read of the cause map.
#![tactic(auto)]

ghost use Rattle.std.specs.Prelude.{◌≡◌, [], unwrap_or};
ghost use Rattle.emit.specs.Put.{Wrote};
ghost use Rattle.emit.specs.Texts.{pushed};
ghost use Rattle.cause_text.specs.Text.{printed};
ghost use Rattle.cause_text.specs.Input.{Answers};

use std::io::Read;
use table::Lines;

mod number;
mod table;

// What is printed for an input.
fn push_lines(text: &mut Lines, input: &[u8])
    ensures { text.new ≡ pushed 1792 text.old (printed input.now) }
{
    if input.is_empty() {
        table::push_table(text);
        return;
    }
    match number::number_of(number::without_lf(input)) {
        Some(cause) => table::push_answer(text, cause),
        None => text.push(b"not a number of 1 to 19 digits\n"),
    }
}

// Writes a text to the front of the buffer, and returns its length. Where there is no text, or no room for it, the buffer stays, and 0 is
// returned. One clause says both: that of `Text::put` goes by cases, and `search` applies no law to it.
fn put_front(out: &mut [u8], text: &Lines) -> usize
    ensures { Wrote out.old 0 (unwrap_or text.now []) result out.new }
{
    text.put(out, 0)
}

// Writes what is printed for an input to the front of the buffer, and returns its length. Where there is no room the buffer stays, and 0
// is returned.
pub fn put_lines(out: &mut [u8], input: &[u8]) -> usize
    ensures { Wrote out.old 0 (printed input.now) result out.new }
{
    let mut text = Lines::new();
    push_lines(&mut text, input);
    put_front(out, &text)
}

// Reads the input, and writes what is printed for it. More bytes are read than a line of 19 digits has, so that a longer one is seen
// to be longer.
pub fn answer<R: Read>(from: &mut R, out: &mut [u8]) -> usize
    ensures { Answers out.old result out.new }
{
    let mut input = [0u8; 32];
    let n = streams::read_full(from, &mut input);
    put_lines(out, octets::first(&input, n))
}
