// A field: name, spaces or tabs, colon, value, CRLF. Its parts are places of the one text, so that no slice is made for each of them.
// A struct of text and place would be taken apart and made anew at each call.
ghost use Rattle.std.specs.Prelude.{◌≡◌, ◌&&◌, not, cond, ◌+◌, ◌-◌, ◌<◌, ◌≤◌, eqb, length, drop, unwrap_or, IfSome};
ghost use Rattle.octets.specs.Classes.{bit, is_value};
ghost use Rattle.octets.specs.Scans.{run};
ghost use Rattle.sip.specs.Lines.{starts_crlf, starts_blank};
ghost use Rattle.lines.specs.Places.{field_at};
ghost use Rattle.lines.specs.Sizes.{colon_size, value_end};
ghost use Rattle.lines.specs.Passes.{ValueStands};

use crate::{FieldAt, scan};
use octets::Class;

// A CRLF stands at a place: the fields end there, and so may a value. Tried as the pattern `[b'\r', b'\n', ..]` of the rest: 3 instructions more
// for each line of a folded value, which is 12% of a message of them.
pub(crate) fn is_empty_line(s: &[u8], at: usize) -> bool
    ensures { result ≡ starts_crlf (drop at s.now) }
{
    if s.len() <= at {
        return false;
    }
    if s[at] != b'\r' {
        return false;
    }
    let lf = at + 1;
    if s.len() <= lf {
        return false;
    }
    s[lf] == b'\n'
}

// A CRLF stands at a place that a space or tab follows: the value goes on there.
fn goes_on(s: &[u8], at: usize) -> bool
    requires { at ≤ length s.now }
    ensures { result ≡ (starts_crlf (drop at s.now) && starts_blank (drop (at + 2) s.now)) }
{
    if s.len() - at < 3 {
        return false;
    }
    if u16::from_le_bytes([s[at], s[at + 1]]) != u16::from_le_bytes(*b"\r\n") {
        return false;
    }
    let next = s[at + 2];
    if next == b' ' {
        return true;
    }
    next == b'\t'
}

// A CRLF stands there that no space or tab follows, so that the value ends. A control character behind it is left to a closer look. Beside
// `goes_on` it is a first look with one test of the third byte, which most lines pass.
fn is_last_line(s: &[u8], line: usize) -> bool
    requires { line ≤ length s.now }
    ensures { (value_end s.now line ≡ cond result line (value_end s.now line)) × (bit result ≤ length s.now - line) }
{
    if s.len() - line < 3 {
        return false;
    }
    if u16::from_le_bytes([s[line], s[line + 1]]) != u16::from_le_bytes(*b"\r\n") {
        return false;
    }
    b' ' < s[line + 2]
}

// Where the value ends whose first line ends at `line`, line by line: a turn passes over a whole one, so that no range fits. None where its
// shape is bad.
#[inline(always)]
fn last_line(s: &[u8], line: usize) -> Option<usize>
    requires { (line ≤ length s.now) × (run is_value (drop line s.now) ≡ 0) }
    ensures { (unwrap_or result (length s.now) ≡ value_end s.now line) × IfSome result (λ e. e < length s.now) }
{
    let mut end = line;
    while goes_on(s, end) {
        end = Class::Value.end(s, end + 3);
    }
    if !is_empty_line(s, end) {
        return None;
    }
    Some(end)
}

// The same, with a look first: most values have one line.
#[inline(always)]
fn value_end(s: &[u8], line: usize) -> Option<usize>
    requires { (line ≤ length s.now) × (run is_value (drop line s.now) ≡ 0) }
    ensures { (unwrap_or result (length s.now) ≡ value_end s.now line) × IfSome result (λ e. e < length s.now) }
{
    if is_last_line(s, line) {
        return Some(line);
    }
    last_line(s, line)
}

// Where the spaces or tabs and the colon end that stand at a place. None where there is no colon.
fn blanks_and_colon(s: &[u8], at: usize) -> Option<usize>
    requires { at ≤ length s.now }
    ensures { (unwrap_or result at ≡ at + colon_size (drop at s.now)) × IfSome result (λ v. (at < v) × (v ≤ length s.now)) }
{
    let colon = Class::Blank.end(s, at);
    if s.len() <= colon {
        return None;
    }
    if s[colon] != b':' {
        return None;
    }
    Some(colon + 1)
}

// The same, with a look first at the place itself: most names have their colon right behind them.
pub(crate) fn colon_end(s: &[u8], at: usize) -> Option<usize>
    requires { at ≤ length s.now }
    ensures { (unwrap_or result at ≡ at + colon_size (drop at s.now)) × IfSome result (λ v. (at < v) × (v ≤ length s.now)) }
{
    if s.len() <= at {
        return None;
    }
    if s[at] == b':' {
        return Some(at + 1);
    }
    blanks_and_colon(s, at)
}

// Where a value ends, and whether it goes over several lines.
#[derive(Clone, Copy)]
pub(crate) struct ValueAt {
    pub end: usize,
    pub folded: bool,
}

// The value at a place. None where its shape is bad.
#[inline(always)]
pub(crate) fn value_at(s: &[u8], at: usize) -> Option<ValueAt>
    requires { at ≤ length s.now }
    ensures { ValueStands s.now at result }
{
    let line = scan::line(s, at);
    let end = value_end(s, line)?;
    Some(ValueAt {
        end,
        folded: end != line,
    })
}

// The field at a place of a text. Past the end nothing is named, so that no place needs a test.
pub(crate) fn read(s: &[u8], at: usize) -> Option<FieldAt>
    ensures { result ≡ field_at s.now at }
{
    let name = Class::Token.end(s, at);
    if name <= at {
        return None;
    }
    let value = blanks_and_colon(s, name)?;
    let found = value_at(s, value)?;
    Some(FieldAt {
        name,
        value,
        end: found.end,
        folded: found.folded,
    })
}
