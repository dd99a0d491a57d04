// Texts that are put together piece by piece, in a fixed buffer.
ghost use Rattle.std.specs.Prelude.{◌≡◌, Option, List, [], ℕ, ◌≤◌, IfSome, MatchOption, option_map, take};
ghost use Rattle.sip.specs.Output.{whole_numeral, spaced};
ghost use Rattle.emit.specs.Put.{Wrote};
ghost use Rattle.emit.specs.Texts.{pushed};

use std::marker::Model;

// A text of at most `N` bytes. Once a piece has no room there is no text, and whatever is pushed then changes nothing.
#[derive(Drop)]
pub struct Text<const N: usize> {
    bytes: [u8; N],
    len: Option<usize>,
}

// Clauses see the text, and `None` once a piece had no room.
impl<const N: usize> Model for Text<N> {
    ghost Value = { Option (List ℕ) };

    ghost view = { λ t. option_map (λ (n : ℕ). take n t.bytes) t.len };

    ghost invariant = { λ t. IfSome t.len (λ n. n ≤ N) };
}

impl<const N: usize> Text<N> {
    pub fn new() -> Self
        ensures { result ≡ Some [] }
    {
        Text {
            bytes: [0; N],
            len: Some(0),
        }
    }

    pub fn push(&mut self, s: &[u8])
        ensures { self.new ≡ pushed N self.old s.now }
    {
        if let Some(at) = self.len {
            if crate::has_room(N, at, s.len()) {
                self.len = Some(crate::copy(&mut self.bytes, at, s));
            } else {
                self.len = None;
            }
        }
    }

    pub fn push_number(&mut self, n: u64)
        ensures { self.new ≡ pushed N self.old (whole_numeral n) }
    {
        // At its place at once: by way of an array of its own a report takes up to twice the work. A number has a digit, so that the place stays only
        // where there is no room.
        if let Some(at) = self.len {
            let next = crate::put_whole_number(&mut self.bytes, at, n);
            self.len = (at < next).then_some(next);
        }
    }

    // A space, and a number.
    pub fn push_spaced(&mut self, n: u64)
        ensures { self.new ≡ pushed N self.old (spaced n) }
    {
        self.push(b" ");
        self.push_number(n);
    }

    // Writes the text at the place, and returns the place after it. Where there is no text, or no room for it, the buffer and the place stay.
    pub fn put(&self, out: &mut [u8], at: usize) -> usize
        ensures { MatchOption self.now ((result ≡ at) × (out.new ≡ out.old)) (λ t. Wrote out.old at t result out.new) }
    {
        match self.len {
            Some(n) => crate::put(out, at, octets::first(&self.bytes, n)),
            None => at,
        }
    }
}
