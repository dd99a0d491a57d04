// Lists of tokens: Privacy and Require.
ghost use Rattle.std.specs.Prelude.{◌≡◌, Bool, List, ℕ, IfSome};
ghost use Rattle.sip.specs.Values.{is_restricting, is_lacking};
ghost use Rattle.values.specs.Answers.{Tests, TokensFit, list_at, list_of, privacy_at, require_at};

use super::Tokens;
use super::scan::{past, sign};
use octets::Class;

// Neither of the two option tags that we have.
#[tactic(auto, unfolding(sip::specs::Values::is_lacking, octets::specs::Classes::text))]
fn is_lacking(t: &[u8]) -> bool
    ensures { result ≡ is_lacking t.now }
{
    !octets::same_text(b"100rel", t) && !octets::same_text(b"timer", t)
}

// One of the three tokens by which a caller is withheld. The one that most callers send is tried first.
#[tactic(auto, unfolding(sip::specs::Values::is_restricting, octets::specs::Classes::text))]
fn is_restricting(t: &[u8]) -> bool
    ensures { result ≡ is_restricting t.now }
{
    octets::same_text(b"id", t) || octets::same_text(b"header", t) || octets::same_text(b"user", t)
}

// One loop for both lists: `sep` parts the tokens, `wanted` says which are looked for.
fn list<F: Fn(&[u8]) -> bool>(sep: u8, wanted: F, v: &[u8]) -> Option<Tokens>
    requires { F.IsAlwaysCallable wanted }
    ensures counts { IfSome result (TokensFit v.now) }
    ensures reads { (p : List ℕ → Bool) → Tests F.Fn wanted p → list_of result ≡ list_at sep p v.now }
{
    let mut left = v;
    let mut count = 0;
    let mut first = None;
    'tokens: loop {
        let size = Class::Token.run(left);
        if size < 1 {
            return None;
        }
        count += 1;
        // After the first that is looked for no token is tested.
        if first.is_none() && wanted(octets::first(left, size)) {
            first = Some(count);
        }
        let after = past(left, size);
        if after.len() < 1 {
            return Some(Tokens { count, first });
        }
        let gap = sign(sep, after)?;
        left = past(after, gap);
    }
}

// Privacy: the first token by which the caller is withheld.
pub fn privacy(v: &[u8]) -> Option<Tokens>
    ensures { (list_of result ≡ privacy_at v.now) × IfSome result (TokensFit v.now) }
{
    list(b';', is_restricting, v)
}

// Require: the first tag that we lack.
pub fn require(v: &[u8]) -> Option<Tokens>
    ensures { (list_of result ≡ require_at v.now) × IfSome result (TokensFit v.now) }
{
    list(b',', is_lacking, v)
}
