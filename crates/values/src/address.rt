// Addresses, and the values that hold them: From, To and P-Asserted-Identity.
ghost use Rattle.std.specs.Prelude.{◌≡◌, ◌+◌, ◌^◌, ◌≤◌, ◌<◌, length, unwrap_or, IfSome};
ghost use Rattle.sip.specs.Values.{display, bracketed, address, party, identity, after, no_address, no_identity};
ghost use Rattle.values.specs.Answers.{alone, paired, asserted_at, no_asserted, party_of, AddressFits};

use super::AssertedAt;
use super::param::params;
use super::person::{is_global, person_size};
use super::scan::{blanks, past, sign};
use super::uri::uri_at;
use octets::Class;
use sip::{AddressAt, IdentityAt, Span, UriAt};

// How many bytes of display name and of blanks after it stand there. A count that is added on, to which no name adds nothing.
#[tactic(auto, unfolding(sip::specs::Values::display), using(crate::proofs::Uris::no_name))]
fn display(s: &[u8]) -> usize
    ensures { (result ≡ display s.now) × (result ≤ length s.now) }
{
    // Most addresses have none.
    if octets::starts_with(s, b'<') {
        return 0;
    }
    if let Some(quote) = octets::quoted(s) {
        return quote + blanks(past(s, quote));
    }
    if Class::Token.run(s) < 1 {
        return 0;
    }
    Class::Name.run(s)
}

// A URI and `>`, after the display name and `<`. Both are parts of one slice, so that no sum wraps.
#[tactic(auto, unfolding(sip::specs::Values::bracketed), using(crate::proofs::Firsts::has_next))]
fn bracketed(name: usize, s: &[u8]) -> Option<AddressAt>
    requires { name + length s.now < 2 ^ 63 }
    ensures { (unwrap_or result no_address ≡ bracketed name s.now) × IfSome result (λ a. AddressFits a (name + length s.now + 1)) }
{
    let uri = uri_at(s)?;
    if !octets::starts_with(past(s, uri.size), b'>') {
        return None;
    }
    Some(AddressAt {
        size: name + uri.size + 2,
        at: name + 1,
        uri,
    })
}

// Either form of address.
#[tactic(auto, unfolding(sip::specs::Values::address), using(crate::proofs::Firsts::has_next))]
fn address(s: &[u8]) -> Option<AddressAt>
    ensures { (unwrap_or result no_address ≡ address s.now) × IfSome result (λ a. AddressFits a (length s.now)) }
{
    let name = display(s);
    if octets::starts_with(past(s, name), b'<') {
        let next = name + 1;
        return bracketed(name, past(s, next));
    }
    let uri = uri_at(s)?;
    // A bare URI ends before its tail: those bytes are the field's parameters.
    Some(AddressAt {
        size: uri.tail,
        at: 0,
        uri: UriAt {
            size: uri.tail,
            ..uri
        },
    })
}

// From or To: an address and parameters, and nothing after them; and where the tag stands. An empty span, and no `None`, where there is no
// tag: the definition `party` tells also then where the parameters begin.
#[tactic(auto, unfolding(sip::specs::Values::party))]
pub fn party(v: &[u8]) -> Option<Span>
    ensures { (party_of result ≡ party v.now) × IfSome result (λ t. t.start + t.len ≤ length v.now) }
{
    let a = address(v)?;
    let p = params(past(v, a.size));
    if a.size + p.size != v.len() {
        return None;
    }
    Some(Span {
        start: a.size + p.tag,
        len: p.len,
    })
}

// An identity at the front of a text: an address whose user, or tel URI, is a number. The number stands behind the four bytes of the scheme.
#[tactic(auto, unfolding(sip::specs::Values::identity), using(crate::proofs::Uris::person_at))]
fn identity(s: &[u8]) -> Option<IdentityAt>
    ensures { (unwrap_or result no_identity ≡ identity s.now) × IfSome result (λ i. (1 ≤ i.size) × (i.size ≤ length s.now) × (i.start + i.len ≤ i.size)) }
{
    let a = address(s)?;
    let start = a.at + 4;
    let len = person_size(a.uri);
    if !is_global(octets::part(s, start, len)) {
        return None;
    }
    Some(IdentityAt {
        size: a.size,
        tel: a.uri.tel,
        start,
        len,
    })
}

// An identity that is alone in its value.
fn alone(i: IdentityAt) -> AssertedAt
    ensures { (result ≡ alone i) × (1 ≤ result.schemes) × (result.start ≡ i.start) × (result.len ≡ i.len) }
{
    AssertedAt {
        schemes: if i.tel { 2 } else { 1 },
        start: i.start,
        len: i.len,
    }
}

// Two identities that fill a value, the second after n bytes of it: one has to be a sip URI and one a tel URI.
#[tactic(auto, unfolding(crate::specs::Answers::paired, sip::specs::Values::allowed))]
fn pair(i: IdentityAt, n: usize, j: IdentityAt) -> Option<AssertedAt>
    requires { (i.start + i.len ≤ n) × (n + j.start + j.len < 2 ^ 64) }
    ensures { (unwrap_or result no_asserted ≡ paired i (after n j)) × IfSome result (λ a. (1 ≤ a.schemes) × (a.start + a.len ≤ n + j.start + j.len)) }
{
    if i.tel {
        if j.tel {
            return None;
        }
        let start = n + j.start;
        return Some(AssertedAt {
            schemes: 3,
            start,
            len: j.len,
        });
    }
    if !j.tel {
        return None;
    }
    Some(AssertedAt {
        schemes: 3,
        start: i.start,
        len: i.len,
    })
}

// P-Asserted-Identity: an identity, or two that a comma parts, and nothing after them.
#[tactic(auto, unfolding(sip::specs::Values::identities), using(crate::proofs::Addresses::no_identities, crate::proofs::Addresses::one_identity, crate::proofs::Addresses::two_identities))]
pub fn asserted(v: &[u8]) -> Option<AssertedAt>
    ensures { (unwrap_or result no_asserted ≡ asserted_at v.now) × IfSome result (λ a. (1 ≤ a.schemes) × (a.start + a.len ≤ length v.now)) }
{
    let i = identity(v)?;
    if i.size == v.len() {
        return Some(alone(i));
    }
    let comma = sign(b',', past(v, i.size))?;
    let next = i.size + comma;
    let j = identity(past(v, next))?;
    if next + j.size != v.len() {
        return None;
    }
    pair(i, next, j)
}
