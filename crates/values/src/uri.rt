// URIs at the front of a text: sip and tel, with host, port and tail.
ghost use Rattle.std.specs.Prelude.{◌≡◌, ◌+◌, ◌≤◌, ◌<◌, ◌^◌, length, unwrap_or, option_map, IfSome};
ghost use Rattle.sip.specs.Values.{host, port, host_port, tail, sip_from, sip, tel, uri, no_uri};
ghost use Rattle.values.specs.Answers.{userinfo, IsSize, UriFits};

use super::scan::past;
use octets::Class;
use sip::UriAt;

// 1 to 253 letters, digits, `-` and `.`.
#[tactic(auto, unfolding(sip::specs::Values::host))]
fn host(s: &[u8]) -> Option<usize>
    ensures { IsSize result (host s.now) s.now }
{
    match Class::Host.run(s) {
        size @ 1..=253 => Some(size),
        _ => None,
    }
}

// With its colon. Port 0 is none.
#[tactic(auto, unfolding(sip::specs::Values::port), using(crate::proofs::Firsts::has_first))]
fn port(s: &[u8]) -> Option<usize>
    ensures { IsSize result (port s.now) s.now }
{
    if !octets::starts_with(s, b':') {
        return None;
    }
    let number = octets::number(past(s, 1), 5, 65535)?;
    if number.value < 1 {
        return None;
    }
    Some(number.size + 1)
}

// Where a colon follows the host, so must a port.
#[tactic(auto, unfolding(sip::specs::Values::host_port))]
fn host_port(s: &[u8]) -> Option<usize>
    ensures { IsSize result (host_port s.now) s.now }
{
    let name = host(s)?;
    let after = past(s, name);
    if !octets::starts_with(after, b':') {
        return Some(name);
    }
    let number = port(after)?;
    Some(name + number)
}

// How many bytes of tail stand there: `;` and any parameter bytes after it. A count that is added on, to which no tail adds nothing.
#[tactic(auto, unfolding(sip::specs::Values::tail), using(crate::proofs::Firsts::has_first))]
fn tail(s: &[u8]) -> usize
    ensures { (result ≡ tail s.now) × (result ≤ length s.now) }
{
    if !octets::starts_with(s, b';') {
        return 0;
    }
    let size = Class::Parameter.run_escaped(past(s, 1));
    size + 1
}

// Host, port and tail. The n bytes of the URI before them hold `sip:` and the user.
#[tactic(auto, unfolding(sip::specs::Values::sip_from))]
fn sip_from(n: usize, user: usize, s: &[u8]) -> Option<UriAt>
    requires { (user + 4 ≤ n) × (n + length s.now < 2 ^ 64) }
    ensures { (unwrap_or result no_uri ≡ sip_from n user s.now) × IfSome result (λ u. UriFits u (n + length s.now)) }
{
    let place = host_port(s)?;
    let before = n + place;
    let after = tail(past(s, place));
    Some(UriAt {
        size: before + after,
        tel: false,
        user,
        tail: before,
    })
}

// The user before an `@`, which may have no bytes.
#[tactic(auto, unfolding(crate::specs::Answers::userinfo), using(crate::proofs::Firsts::has_next))]
fn user(s: &[u8]) -> Option<usize>
    ensures { (unwrap_or (option_map (λ n. n + 1) result) 0 ≡ userinfo s.now) × IfSome result (λ n. n < length s.now) }
{
    let size = Class::User.run_escaped(s);
    if !octets::starts_with(past(s, size), b'@') {
        return None;
    }
    Some(size)
}

// What stands after `sip:`. The user has 1 to 64 bytes.
#[tactic(auto, unfolding(sip::specs::Values::sip, crate::specs::Answers::userinfo))]
fn sip(s: &[u8]) -> Option<UriAt>
    ensures { (unwrap_or result no_uri ≡ sip s.now) × IfSome result (λ u. UriFits u (length s.now + 4)) }
{
    match user(s) {
        None => sip_from(4, 0, s),
        Some(user @ 1..=64) => sip_from(user + 5, user, past(s, user + 1)),
        Some(_) => None,
    }
}

// What stands after `tel:`.
#[tactic(auto, unfolding(sip::specs::Values::tel), using(crate::proofs::Firsts::has_first))]
fn tel(s: &[u8]) -> Option<UriAt>
    ensures { (unwrap_or result no_uri ≡ tel s.now) × IfSome result (λ u. UriFits u (length s.now + 4)) }
{
    let plus = usize::from(octets::starts_with(s, b'+'));
    let count @ 1..=15 = Class::Digit.run(past(s, plus)) else {
        return None;
    };
    let number = plus + count;
    let after = tail(past(s, number));
    let before = 4 + number;
    Some(UriAt {
        size: before + after,
        tel: true,
        user: 0,
        tail: before,
    })
}

// The URI at the front of a text.
#[tactic(auto, unfolding(sip::specs::Values::uri, octets::specs::Classes::text), using(octets::proofs::Texts::same_text_length))]
pub fn uri_at(s: &[u8]) -> Option<UriAt>
    ensures { (unwrap_or result no_uri ≡ uri s.now) × IfSome result (λ u. UriFits u (length s.now)) }
{
    let scheme = octets::first(s, 4);
    if octets::same_text(b"sip:", scheme) {
        return sip(past(s, 4));
    }
    if octets::same_text(b"tel:", scheme) {
        return tel(past(s, 4));
    }
    None
}
