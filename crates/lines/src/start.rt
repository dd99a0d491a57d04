// The start line. That of a request: method, space, Request-URI, space, SIP version, CRLF. Its parts are places of the one text.
ghost use Rattle.std.specs.Prelude.{◌≡◌, ◌+◌, ◌^◌, ◌<◌, ◌≤◌, length, take, drop, unwrap_or, IfSome};
ghost use Rattle.sip.specs.Lines.{is_version};
ghost use Rattle.lines.specs.Places.{start_at};
ghost use Rattle.lines.specs.Sizes.{uri_size};
ghost use Rattle.lines.specs.Passes.{request_at, line_size};

use crate::{StartLine, status, words};
use octets::Class;

impl StartLine {
    // The bytes of the line, with its CRLF. A request line has 11 beside its method and Request-URI, a status line 14 beside its phrase.
    pub(crate) fn size(self) -> usize
        requires { line_size self < 2 ^ 64 }
        ensures { result ≡ line_size self }
    {
        match self {
            StartLine::Request { method, uri } => method + uri + 11,
            StartLine::Status { phrase } => phrase + 14,
        }
    }
}

// One space, the SIP version and CRLF stand at a place: in capitals, as it is mostly written, or in any letter case.
fn is_version(s: &[u8], at: usize) -> bool
    requires { at ≤ length s.now }
    ensures { result ≡ is_version (take 10 (drop at s.now)) }
{
    if s.len() - at < 10 {
        return false;
    }
    words::stand(s, at, b" SIP/2.0\r\n") || octets::same_text(b" SIP/2.0\r\n", &s[at..at + 10])
}

// The bytes of the Request-URI at a place. None where it is too short or long, or no SIP version ends the line after it.
fn uri_size(s: &[u8], at: usize) -> Option<usize>
    requires { at ≤ length s.now }
    ensures { (unwrap_or result 0 ≡ uri_size (drop at s.now)) × IfSome result (λ n. (1 ≤ n) × (n ≤ 256)) }
{
    let end = Class::Visible.end(s, at);
    let uri = end - at;
    if uri < 1 {
        return None;
    }
    if 256 < uri {
        return None;
    }
    if !is_version(s, end) {
        return None;
    }
    Some(uri)
}

// The request line at the front of a text.
fn request(s: &[u8]) -> Option<StartLine>
    ensures { result ≡ request_at s.now }
{
    let method = Class::Token.end(s, 0);
    if method < 1 {
        return None;
    }
    if 32 < method {
        return None;
    }
    if s.len() <= method {
        return None;
    }
    if s[method] != b' ' {
        return None;
    }
    let uri = uri_size(s, method + 1)?;
    Some(StartLine::Request { method, uri })
}

// The start line at the front of a text. A status line is looked for only where no request line stands.
pub(crate) fn read(s: &[u8]) -> Option<StartLine>
    ensures { (result ≡ start_at s.now) × IfSome result (λ l. line_size l ≤ length s.now) }
{
    if let Some(found) = request(s) {
        return Some(found);
    }
    status::read(s)
}
