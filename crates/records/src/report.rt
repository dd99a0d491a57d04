// The text of the report.
ghost use Rattle.std.specs.Prelude.{◌≡◌, ◌++◌, ◌+◌, ◌≤◌, ◌<◌, sum, length};
ghost use Rattle.sip.specs.Output.{spaced};
ghost use Rattle.emit.specs.Texts.{pushed};
ghost use Rattle.records.specs.Report.{pair, pairs, rate, line_text, end_text, printed};
ghost use Rattle.records.specs.Running.{row_line, shares_text, counts_report};

use super::group::Group;
use emit::Text;

// No report is longer.
pub(crate) type Report = Text<4096>;

// `reason=count` where the count is above 0.
fn push_pair(text: &mut Report, reason: u64, n: u64)
    ensures { text.new ≡ pushed 4096 text.old (pair reason n) }
{
    if n != 0 {
        text.push_spaced(reason);
        text.push(b"=");
        text.push_number(n);
    }
}

// The pairs of the reasons from 1 on.
fn push_pairs(text: &mut Report, refused: &[u32])
    requires { length refused.now ≤ 19 }
    ensures { text.new ≡ pushed 4096 text.old (pairs 1 refused.now) }
{
    for (i, n) in refused.iter().enumerate() {
        push_pair(text, 1 + i as u64, u64::from(*n));
    }
}

// The sum of the counts of a group.
fn total(row: &[u32]) -> u64
    requires { length row.now ≤ 20 }
    ensures { result ≡ sum row.now }
{
    row.iter().map(|n| u64::from(*n)).sum()
}

// The refusals per 10,000.
fn rate(refused: u64, all: u64) -> u64
    requires { refused < 100000000000 }
    ensures { result ≡ rate refused all }
{
    if all == 0 { 0 } else { 10000 * refused / all }
}

// How many came, how many were accepted, and the refusals per 10,000.
fn push_shares(text: &mut Report, came: u64, accepted: u64)
    requires { (accepted ≤ came) × (came < 100000000000) }
    ensures { text.new ≡ pushed 4096 text.old (shares_text came accepted) }
{
    text.push_spaced(came);
    text.push_spaced(accepted);
    text.push_spaced(rate(came - accepted, came));
}

// What follows the name of a line.
fn push_row(text: &mut Report, row: &[u32])
    requires { length row.now ≡ 20 }
    ensures { text.new ≡ pushed 4096 text.old (line_text (row_line row.now)) }
{
    push_shares(text, total(row), u64::from(row[0]));
    push_pairs(text, &row[1..]);
    text.push(b"\n");
}

// A line, by its name and its counts.
fn push_line(text: &mut Report, name: &[u8], row: &[u32])
    requires { length row.now ≡ 20 }
    ensures { text.new ≡ pushed 4096 text.old (name.now ++ line_text (row_line row.now)) }
{
    text.push(name);
    push_row(text, row);
}

// The last line.
fn push_end(text: &mut Report, read: u64, end: u64)
    ensures { text.new ≡ pushed 4096 text.old (end_text read end) }
{
    text.push(b"end");
    text.push_spaced(read);
    text.push_spaced(end);
    text.push(b"\n");
}

// The whole report.
pub(crate) fn push_all(text: &mut Report, counts: &[u32; 60], read: u64, end: u64)
    ensures { text.new ≡ pushed 4096 text.old (printed (counts_report counts.now read end)) }
{
    push_line(text, b"relay", Group::Relay.row(counts));
    push_line(text, b"other", Group::Other.row(counts));
    push_line(text, b"unread", Group::Unread.row(counts));
    push_end(text, read, end);
}
