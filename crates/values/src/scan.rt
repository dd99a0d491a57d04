// Blanks, a byte with blanks around it, and what stands before a byte.
ghost use Rattle.std.specs.Prelude.{◌≡◌, not, ℕ, ◌-◌, ◌≤◌, eqb, length, drop};
ghost use Rattle.octets.specs.Classes.{is_blank};
ghost use Rattle.octets.specs.Scans.{run};
ghost use Rattle.sip.specs.Values.{sign};
ghost use Rattle.values.specs.Answers.{IsSize};

// What stands past the first n bytes, which are there. A function, since in clauses `&s[n..]` is a part of a part of s, and each caller's
// proof would have to say that it is `drop n s`. `octets::rest` asks for no place, and so tests it.
pub(crate) fn past(s: &[u8], n: usize) -> &[u8]
    requires { n ≤ length s.now }
    ensures { (result.now ≡ drop n s.now) × (length result.now ≡ length s.now - n) }
{
    &s[n..]
}

#[tactic(auto, unfolding(octets::specs::Classes::is_blank))]
fn is_blank(b: u8) -> bool
    ensures { result ≡ is_blank b }
{
    b == b' ' || b == b'\t'
}

// By comparison, since one blank or none is what mostly stands there.
pub(crate) fn blanks(s: &[u8]) -> usize
    ensures { (result ≡ run is_blank s.now) × (result ≤ length s.now) }
{
    s.iter().position(|b| !is_blank(*b)).unwrap_or(s.len())
}

// The byte b with any blanks around it.
#[tactic(auto, unfolding(sip::specs::Values::sign), using(crate::proofs::Firsts::has_next))]
pub(crate) fn sign(b: u8, s: &[u8]) -> Option<usize>
    ensures { IsSize result (sign b s.now) s.now }
{
    let before = blanks(s);
    if !octets::starts_with(past(s, before), b) {
        return None;
    }
    let next = before + 1;
    let after = blanks(past(s, next));
    Some(next + after)
}

// How many bytes stand before the first b; all where there is none.
pub(crate) fn until(s: &[u8], b: u8) -> usize
    ensures { (result ≡ run (λ (c : ℕ). not (eqb c b)) s.now) × (result ≤ length s.now) }
{
    s.iter().position(|c| *c == b).unwrap_or(s.len())
}
