// The octets of a parameter as a number with its `+`.
ghost use Rattle.std.specs.Prelude.{◌≡◌, true, false, cond, [], ◌∷◌, ◌++◌, ◌+◌, ◌-◌, ◌*◌, ◌%◌, ◌/◌, ◌≤◌, ◌<◌, eqb, length, get_or, is_ok, IfOk, IfErr};
ghost use Rattle.std.specs.List.{list_all};
ghost use Rattle.isup.specs.Fields.{signal_count, fields_of, filler_is_zero};
ghost use Rattle.isup.specs.Forward.{is_code};
ghost use Rattle.isup.specs.Backward.{is_cut, is_named, number_from, caller_for, decoded};
ghost use Rattle.isup.specs.Held.{held};
ghost use Rattle.isup.specs.Steps.{is_pair, digits, digit_at};
ghost use Rattle.isup.specs.Views.{nature_number, is_national_nature, presentation_octet, caller_in};

use super::fields::{Nature, Presentation};
use super::{Caller, NoCaller, Number, code};

// Under two octets, or odd with no address octet.
fn is_cut(s: &[u8]) -> bool
    ensures { result ≡ is_cut s.now }
{
    match s {
        [] | [_] => true,
        [first, _] => 128 <= *first,
        _ => false,
    }
}

// Nature of address and presentation, where every field is as it is named. That two octets are there is asked by each step after the first test: the
// steps look at all octets again, so that a slice pattern would only be put together again.
fn fields_in(s: &[u8]) -> Result<(Nature, Presentation), NoCaller>
    requires { 2 ≤ length s.now }
    ensures variant { is_ok result ≡ is_named (fields_of s.now) }
    ensures refused { IfErr result (λ e. e ≡ NoCaller.Field) }
    ensures fields { IfOk result (λ f. (nature_number f.0 ≡ (fields_of s.now).nature_of_address) × (presentation_octet f.1 ≡ get_or s.now 1 0)) }
{
    let nature = Nature::try_from(s[0] % 128)?;
    let presentation = Presentation::try_from(s[1])?;
    Ok((nature, presentation))
}

// Where the number of signals is odd, the high half of the last octet is zero.
fn is_filler_zero(s: &[u8]) -> bool
    requires { 2 ≤ length s.now }
    ensures { result ≡ filler_is_zero s.now }
{
    if s[0] < 128 {
        return true;
    }
    s[s.len() - 1] < 16
}

fn is_pair(b: u8) -> bool
    ensures { result ≡ is_pair b }
{
    b % 16 <= 9 && b / 16 <= 9
}

// Every half is a digit code; so is the filler, since it is zero.
fn are_pairs(s: &[u8]) -> bool
    ensures { result ≡ list_all is_pair s.now }
{
    s.iter().all(|b| is_pair(*b))
}

// The i-th digit of address octets.
fn digit_at(s: &[u8], i: usize) -> u8
    requires { i < 2 * length s.now }
    ensures { result ≡ digit_at s.now i }
{
    let b = s[i / 2];
    if i % 2 == 0 {
        b'0' + b % 16
    } else {
        b'0' + b / 16
    }
}

// The number: `+`, the country code or nothing, and the first n digits of the address octets.
fn number_of(prefix: &[u8], s: &[u8], n: usize) -> Number
    requires { (1 + length prefix.now + n ≤ 16) × (n ≤ 2 * length s.now) }
    ensures { held result ≡ 43 ∷ (prefix.now ++ digits n s.now) }
{
    let mut number = Number::new();
    number.push(b'+');
    number.append(prefix);
    for i in 0..n {
        number.push(digit_at(s, i));
    }
    number
}

fn signal_count(s: &[u8]) -> usize
    requires { (length s.now ≤ 10) × (is_cut s.now ≡ false) }
    ensures { (result ≡ signal_count s.now) × (result ≤ 2 * (length s.now - 2)) }
{
    let n = 2 * (s.len() - 2);
    if s[0] < 128 { n } else { n - 1 }
}

// The caller of a number, if it is one of the profile.
fn caller_with(id: bool, number: Number) -> Result<Caller, NoCaller>
    ensures { caller_in result ≡ caller_for id (held number) }
{
    if !values::is_global(number.as_slice()) {
        return Err(NoCaller::Number);
    }
    Ok(Caller { id, number })
}

// The country code goes in front of a national number.
fn prefix_of(code: &[u8], nature: Nature) -> &[u8]
    ensures { (result.now ≡ cond (is_national_nature nature) code.now []) × (length result.now ≤ length code.now) }
{
    match nature {
        Nature::National => code,
        Nature::International => &[],
    }
}

// The caller of octets that are well formed. Of more than ten the number is too long.
fn caller_from(code: &[u8], nature: Nature, id: bool, s: &[u8]) -> Result<Caller, NoCaller>
    requires good { is_code code.now ≡ true }
    requires whole { is_cut s.now ≡ false }
    requires same { nature_number nature ≡ (fields_of s.now).nature_of_address }
    ensures { caller_in result ≡ caller_for id (number_from code.now (fields_of s.now)) }
{
    if 10 < s.len() {
        return Err(NoCaller::Number);
    }
    let prefix = prefix_of(code, nature);
    let n = signal_count(s);
    if 16 < 1 + prefix.len() + n {
        return Err(NoCaller::Number);
    }
    caller_with(id, number_of(prefix, octets::rest(s, 2), n))
}

// First that applies: 41, 43, 44, 45, 46, and then 47 or the caller.
pub(crate) fn decode(code: &[u8], s: &[u8]) -> Result<Caller, NoCaller>
    ensures { caller_in result ≡ decoded code.now s.now }
{
    if !code::is_code(code) {
        return Err(NoCaller::BadCode);
    }
    if is_cut(s) {
        return Err(NoCaller::CutShort);
    }
    let (nature, presentation) = fields_in(s)?;
    if !is_filler_zero(s) {
        return Err(NoCaller::Filler);
    }
    if !are_pairs(octets::rest(s, 2)) {
        return Err(NoCaller::Digit);
    }
    caller_from(code, nature, presentation.is_restricted(), s)
}
