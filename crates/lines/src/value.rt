// A field's value, without the spaces, tabs and line breaks at both ends.
ghost use Rattle.std.specs.Prelude.{◌≡◌, cond, ◌+◌, ◌-◌, ◌*◌, ◌≤◌, length};
ghost use Rattle.octets.specs.Classes.{bit, is_gap};
ghost use Rattle.sip.specs.Lines.{trim_end};
ghost use Rattle.lines.specs.Sizes.{value_part};

use sip::Span;

// How many bytes are left without the gap at the end.
fn end_of(s: &[u8]) -> usize
    ensures { (result ≡ length (trim_end is_gap s.now)) × (result ≤ length s.now) }
{
    match s.iter().rposition(|&b| !octets::is_gap(b)) {
        Some(last) => last + 1,
        None => 0,
    }
}

// The part from the first byte that is no gap to the last. It is empty and starts at 0 where there is none, as `value_part` says it.
pub(crate) fn trimmed(s: &[u8]) -> Span
    ensures { (result ≡ value_part s.now) × (result.start + result.len ≤ length s.now) }
{
    let start = octets::gap_end(s, 0);
    let len = end_of(&s[start..]);
    if len < 1 {
        return Span { start: 0, len: 0 };
    }
    Span { start, len }
}

// One space stands before the value, and no gap at its ends. A control character at an end is left to the search for gaps.
pub(crate) fn is_plain(s: &[u8]) -> bool
    ensures { (value_part s.now ≡ cond result (record { start = 1; len = length s.now - 1 }) (value_part s.now)) × (2 * bit result ≤ length s.now) }
{
    if s.len() < 2 {
        return false;
    }
    if s[0] != b' ' {
        return false;
    }
    if s[1] <= b' ' {
        return false;
    }
    b' ' < s[s.len() - 1]
}
