// The start line of a response: SIP version, space, three digits, space, phrase, CRLF.
ghost use Rattle.std.specs.Prelude.{◌≡◌, take};
ghost use Rattle.sip.specs.Lines.{is_version_first};
ghost use Rattle.lines.specs.Passes.{status_at};

use crate::{StartLine, field, words};
use octets::Class;

// The SIP version and one space stand at the front: in capitals, as it is mostly written, or in any letter case. It is no one function with
// `start::is_version`: that would take the text, the place and the room as well, and be no shorter than the two calls.
fn is_version(s: &[u8]) -> bool
    ensures { result ≡ is_version_first (take 8 s.now) }
{
    if s.len() < 8 {
        return false;
    }
    words::stand(s, 0, b"SIP/2.0 ") || octets::same_text(b"SIP/2.0 ", &s[0..8])
}

// The status line at the front of a text.
pub(crate) fn read(s: &[u8]) -> Option<StartLine>
    ensures { result ≡ status_at s.now }
{
    if !is_version(s) {
        return None;
    }
    if Class::Digit.end(s, 8) != 11 {
        return None;
    }
    if s.len() <= 11 {
        return None;
    }
    if s[11] != b' ' {
        return None;
    }
    let end = Class::Value.end(s, 12);
    if !field::is_empty_line(s, end) {
        return None;
    }
    Some(StartLine::Status { phrase: end - 12 })
}
