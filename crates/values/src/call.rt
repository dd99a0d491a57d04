// Max-Forwards, Content-Length, CSeq and Call-ID.
ghost use Rattle.std.specs.Prelude.{◌≡◌, ◌≤◌, length, IfSome, fold, ◌&&◌, true};
ghost use Rattle.octets.specs.Classes.{is_visible};
ghost use Rattle.octets.specs.Scans.{all};
ghost use Rattle.sip.specs.Values.{is_cseq, is_call_id};
ghost use Rattle.values.specs.Answers.{number_of, whole_number};

use super::scan::{blanks, past};

// Max-Forwards and Content-Length: a number of 1 to `most` digits, at most `bound`.
#[tactic(auto, unfolding(crate::specs::Answers::whole_number, sip::specs::Values::is_number, octets::specs::Scans::number))]
pub fn whole_number(v: &[u8], most: usize, bound: u32) -> Option<u64>
    ensures { (number_of (length v.now) result ≡ whole_number most bound v.now) × IfSome result (λ n. (n ≤ bound) × (1 ≤ length v.now)) }
{
    let number = octets::number(v, most, bound)?;
    if number.size != v.len() {
        return None;
    }
    Some(number.value)
}

// A number, blanks, and the method of the start line.
#[tactic(auto, unfolding(sip::specs::Values::is_cseq))]
pub fn is_cseq(method: &[u8], v: &[u8]) -> bool
    ensures { result ≡ is_cseq method.now v.now }
{
    let Some(number) = octets::number(v, 10, 2147483647) else {
        return false;
    };
    let gap = blanks(past(v, number.size));
    if gap < 1 {
        return false;
    }
    let next = number.size + gap;
    octets::same(method, past(v, next))
}

#[tactic(auto, unfolding(octets::specs::Classes::is_visible))]
fn is_visible(b: u8) -> bool
    ensures { result ≡ is_visible b }
{
    b.is_ascii_graphic()
}

// Looks at every byte, also past one that is not visible, so that many are looked at at once.
fn all_visible(v: &[u8]) -> bool
    ensures { result ≡ fold (λ seen b. seen && is_visible b) true v.now }
{
    v.iter().fold(true, |seen, b| seen & is_visible(*b))
}

// 1 to 128 visible bytes.
#[tactic(auto, unfolding(sip::specs::Values::is_call_id), using(crate::proofs::Runs::all_seen))]
pub fn is_call_id(v: &[u8]) -> bool
    ensures { result ≡ is_call_id v.now }
{
    match v.len() {
        1..=128 => all_visible(v),
        _ => false,
    }
}
