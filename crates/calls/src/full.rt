// A table without a place that starts with 0: the first place that is free in another way or holds the pair of an earlier place. Places are
// compared in three parts, and with those alone that agree with them in the parts before, so that no table takes long: each place whole with
// all those before it would be 496 pairs of places, compared to the end where they differ late.
ghost use Rattle.std.specs.Prelude.{◌≡◌, [], suc, ◌*◌, ◌-◌, ◌≤◌, ◌<◌, take, drop, unwrap_or, IfSome};
ghost use Rattle.octets.specs.Scans.{same};
ghost use Rattle.sip.specs.Calls.{places, first_spare};
ghost use Rattle.calls.specs.Places.{is_taken};
ghost use Rattle.calls.specs.Parts.{number_of, start_of, size_of, first_like, firsts_of, keeping};

use crate::pairs::{Pair, Place};
use crate::place_at;

// The parts of a place: a length with the 64 bytes behind it, twice, and between them the rest of a long Call-ID.
#[derive(Clone, Copy)]
enum Part {
    CallId,
    Rest,
    Tag,
}

impl Part {
    // Where it starts in a place.
    #[tactic(auto, unfolding(crate::specs::Parts::start_of))]
    fn start(self) -> usize
        ensures { (result ≡ start_of (number_of self)) × (result ≤ 129) }
    {
        match self {
            Part::CallId => 0,
            Part::Rest => 65,
            Part::Tag => 129,
        }
    }

    // How many of its bytes are to be compared: the length and the text that it counts. The bound is told here and asked for by the three
    // functions that it goes through: a type would say no more than that.
    #[tactic(auto, unfolding(crate::specs::Parts::size_of))]
    fn size(self, place: &Place) -> usize
        ensures { (result ≡ size_of (number_of self) place.now) × (result ≤ 65) }
    {
        let size = usize::from(place[0]);
        match self {
            Part::CallId => 1 + size.min(64),
            Part::Rest => size.saturating_sub(64).min(64),
            Part::Tag => 1 + usize::from(place[129]).min(64),
        }
    }

    // Its bytes, those that count and those behind them.
    fn bytes(self, place: &Place) -> &[u8; 65]
        ensures { result.now ≡ take 65 (drop (start_of (number_of self)) place.now) }
    {
        place[self.start()..].first_chunk().unwrap()
    }
}

// Ones before zeros.
static ONES_FIRST: [[u8; 65]; 2] = [[255; 65], [0; 65]];

// The 65 bytes of them that keep the first n bytes of a part.
#[tactic(auto, unfolding(crate::specs::Parts::keeping))]
fn kept(n: usize) -> &'static [u8; 65]
    requires { n ≤ 65 }
    ensures { result.now ≡ take 65 (drop (65 - n) keeping) }
{
    ONES_FIRST.as_flattened()[65 - n..].first_chunk().unwrap()
}

// The first n bytes of two parts are the same. All 65 are looked at, so that they are compared at once. With `&=` in place of the
// `if` a table full of the longest pairs took 48,768 instructions in place of 36,616.
fn alike(a: &[u8; 65], b: &[u8; 65], n: usize) -> bool
    requires { n ≤ 65 }
    ensures { result ≡ same (take n a.now) (take n b.now) }
{
    let kept = kept(n);
    let mut found = false;
    for i in 0..65 {
        if a[i] & kept[i] != b[i] & kept[i] {
            found = true;
        }
    }
    !found
}

// The same. One byte is looked at first, the one after the length: most places differ there.
fn joins(a: &[u8; 65], b: &[u8; 65], n: usize) -> bool
    requires { (1 ≤ n) × (n ≤ 65) }
    ensures { result ≡ same (take n a.now) (take n b.now) }
{
    let one = 1.min(n - 1);
    a[one] == b[one] && alike(a, b, n)
}

// The first place that agrees with place k in this part too: it has the same first in the parts before. Where no byte is left, all that
// agreed before still do. By a loop: with `find` over the places' numbers the proof of the clause did not close.
fn first_alike(table: &[u8; 6208], firsts: &[usize; 32], k: usize, part: Part) -> usize
    requires { (firsts.now ≡ firsts_of (number_of part) (places 32 table.now)) × (k < 32) }
    ensures { result ≡ first_like (suc (number_of part)) (places 32 table.now) (take 194 (drop (k * 194) table.now)) }
{
    let place = place_at(table, k);
    let first = firsts[k];
    let n = part.size(place);
    if n < 1 {
        return first;
    }
    let own = part.bytes(place);
    for j in first..k {
        if firsts[j] == first && joins(part.bytes(place_at(table, j)), own, n) {
            return j;
        }
    }
    k
}

// For each place the first that agrees with it in this part too.
fn refined(table: &[u8; 6208], firsts: &[usize; 32], part: Part) -> [usize; 32]
    requires { firsts.now ≡ firsts_of (number_of part) (places 32 table.now) }
    ensures { result ≡ firsts_of (suc (number_of part)) (places 32 table.now) }
{
    let mut next = [0; 32];
    for k in 0..32 {
        next[k] = first_alike(table, firsts, k, part);
    }
    next
}

// For each place the first that says the same: indices are what is found, so that they stay an array of numbers.
fn firsts(table: &[u8; 6208]) -> [usize; 32]
    ensures { result ≡ firsts_of 3 (places 32 table.now) }
{
    let first = refined(table, &[0; 32], Part::CallId);
    let second = refined(table, &first, Part::Rest);
    refined(table, &second, Part::Tag)
}

// The place holds a pair.
#[tactic(auto, unfolding(crate::specs::Places::is_taken))]
fn is_taken(place: &Place) -> bool
    ensures { result ≡ is_taken place.now }
{
    place[129] <= 64 && Pair::stored(place).is_formed()
}

// The first place that is free or holds the pair of an earlier one. By a loop: with `find` the proof of the clause did not close.
pub(crate) fn first_spare(table: &[u8; 6208]) -> Option<usize>
    ensures { (unwrap_or result 32 ≡ first_spare [] (places 32 table.now)) × IfSome result (λ k. k < 32) }
{
    let firsts = firsts(table);
    for k in 0..32 {
        if firsts[k] < k || !is_taken(place_at(table, k)) {
            return Some(k);
        }
    }
    None
}
