// A number with its `+` as the octets of the parameter.
ghost use Rattle.std.specs.Prelude.{◌≡◌, true, [], ◌∷◌, ◌++◌, map, ◌+◌, ◌-◌, ◌*◌, ◌%◌, ◌≤◌, ◌<◌, length};
ghost use Rattle.octets.specs.Classes.{is_digit};
ghost use Rattle.octets.specs.Scans.{all};
ghost use Rattle.sip.specs.Values.{is_global};
ghost use Rattle.isup.specs.Fields.{packed};
ghost use Rattle.isup.specs.Forward.{is_national, sent, signal, encoded};
ghost use Rattle.isup.specs.Held.{held};
ghost use Rattle.isup.specs.Steps.{second_for};
ghost use Rattle.isup.specs.Views.{nature_number, is_national_nature};

use super::Parameter;
use super::fields::{Nature, Presentation};

// The next node is at home, and the number starts with the code.
fn is_national(code: &[u8], home: bool, digits: &[u8]) -> bool
    ensures { result ≡ is_national code.now home digits.now }
{
    home && octets::same(code, octets::first(digits, code.len()))
}

fn nature_of(code: &[u8], home: bool, digits: &[u8]) -> Nature
    ensures { is_national_nature result ≡ is_national code.now home digits.now }
{
    if is_national(code, home, digits) {
        Nature::National
    } else {
        Nature::International
    }
}

// The digits that are sent: a national number goes without the code.
fn sent_part<'a>(code: &[u8], nature: Nature, digits: &'a [u8]) -> &'a [u8]
    ensures { result.now ≡ sent code.now (is_national_nature nature) digits.now }
{
    match nature {
        Nature::National => octets::rest(digits, code.len()),
        Nature::International => digits,
    }
}

// Odd/even and nature of address.
fn first_octet(nature: Nature, count: usize) -> u8
    ensures { result ≡ 128 * (count % 2) + nature_number nature }
{
    let odd = if count % 2 == 0 { 0 } else { 128 };
    odd + u8::from(nature)
}

// Number complete, numbering plan 1, presentation, screening 3.
fn second_octet(withheld: bool) -> u8
    ensures { result ≡ second_for withheld }
{
    let presentation = if withheld {
        Presentation::Restricted
    } else {
        Presentation::Allowed
    };
    u8::from(presentation)
}

// One or two digits in an octet, the first in the low half.
fn octet_of(pair: &[u8]) -> u8
    requires { (all is_digit pair.now ≡ true) × (0 < length pair.now) × (length pair.now ≤ 2) }
    ensures { packed (map signal pair.now) ≡ result ∷ [] }
{
    match pair {
        [low, high] => (low - b'0') + 16 * (high - b'0'),
        [low] => low - b'0',
        _ => 0,
    }
}

// The address signals of the digits, two to an octet.
fn push_pairs(octets: &mut Parameter, digits: &[u8])
    requires { (all is_digit digits.now ≡ true) × (length digits.now ≤ 15) × (length (held octets.old) ≡ 2) }
    ensures { held octets.new ≡ held octets.old ++ packed (map signal digits.now) }
{
    for pair in digits.chunks(2) {
        octets.push(octet_of(pair));
    }
}

// The parameter of a number.
pub(crate) fn encode(code: &[u8], home: bool, withheld: bool, number: &[u8]) -> Parameter
    requires { is_global number.now ≡ true }
    ensures { held result ≡ encoded code.now home withheld number.now }
{
    let digits = octets::rest(number, 1);
    let nature = nature_of(code, home, digits);
    let sent = sent_part(code, nature, digits);
    let mut octets = Parameter::new();
    octets.push(first_octet(nature, sent.len()));
    octets.push(second_octet(withheld));
    push_pairs(&mut octets, sent);
    octets
}
