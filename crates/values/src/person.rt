// The number that a URI holds: what an identity asserts and a Request-URI calls.
ghost use Rattle.std.specs.Prelude.{◌≡◌, ◌+◌, ◌≤◌};
ghost use Rattle.sip.specs.Values.{is_global, person_size, is_short, is_called};
ghost use Rattle.sip.specs.Refusals.{other_scheme};
ghost use Rattle.values.specs.Answers.{request_uri};

use super::RequestUri;
use super::scan::{past, until};
use super::uri::uri_at;
use octets::Class;
use sip::UriAt;

// `+`, a digit 1 to 9, then 6 to 14 digits, and nothing after them.
#[tactic(auto, unfolding(sip::specs::Values::is_global), using(crate::proofs::Firsts::has_first))]
pub fn is_global(s: &[u8]) -> bool
    ensures { result ≡ is_global s.now }
{
    if !octets::starts_with(s, b'+') {
        return false;
    }
    let number = past(s, 1);
    if octets::starts_with(number, b'0') {
        return false;
    }
    match Class::Digit.run(number) {
        count @ 7..=15 => count + 1 == s.len(),
        _ => false,
    }
}

// How many bytes behind `sip:` or `tel:` are the user, or the tel URI's number and tail.
pub(crate) fn person_size(u: UriAt) -> usize
    requires { u.user + 4 ≤ u.size }
    ensures { (result ≡ person_size u) × (result + 4 ≤ u.size) }
{
    if u.tel { u.size - 4 } else { u.user }
}

// 2 to 6 digits, and nothing after them.
#[tactic(auto, unfolding(sip::specs::Values::is_short), using(crate::proofs::Runs::all_run))]
fn short(s: &[u8]) -> bool
    ensures { result ≡ is_short s.now }
{
    match s.len() {
        2..=6 => Class::Digit.run(s) == s.len(),
        _ => false,
    }
}

// A number alone, or a number, `;` and any bytes.
#[tactic(auto, unfolding(sip::specs::Values::is_called), using(crate::proofs::Uris::global_called))]
fn called(s: &[u8]) -> bool
    ensures { result ≡ is_called s.now }
{
    // Most often it is a global number alone, in which no `;` stands.
    if is_global(s) {
        return true;
    }
    let number = octets::first(s, until(s, b';'));
    is_global(number) || short(number)
}

// A token and a colon stand there, and the token is neither sip nor tel.
#[tactic(auto, unfolding(sip::specs::Refusals::other_scheme, octets::specs::Classes::text), using(crate::proofs::Runs::all_run, octets::proofs::Runs::run_le, crate::proofs::Lists::has_bytes, crate::proofs::Lists::no_bytes))]
fn other_scheme(u: &[u8]) -> bool
    ensures { result ≡ other_scheme u.now }
{
    let size = until(u, b':');
    if u.len() <= size {
        return false;
    }
    if size < 1 {
        return false;
    }
    let scheme = octets::first(u, size);
    if Class::Token.run(scheme) < size {
        return false;
    }
    !octets::same_text(b"sip", scheme) && !octets::same_text(b"tel", scheme)
}

// A URI's scheme is sip or tel, so that only what is no URI can have another.
#[tactic(auto, unfolding(crate::specs::Answers::request_uri, sip::specs::Refusals::is_uri, sip::specs::Values::person), using(crate::proofs::Schemes::known, crate::proofs::Uris::not_called))]
pub fn request_uri(u: &[u8]) -> RequestUri
    ensures { result ≡ request_uri u.now }
{
    let Some(found) = uri_at(u) else {
        return RequestUri {
            other: other_scheme(u),
            good: false,
            called: false,
        };
    };
    let person = octets::part(u, 4, person_size(found));
    RequestUri {
        other: false,
        good: found.size == u.len(),
        called: called(person),
    }
}
