// Count and reading of the fields of a number, out of the slots of a message.
ghost use Rattle.std.specs.Prelude.{◌≡◌, ◌+◌, ◌≤◌, ◌<◌};
ghost use Rattle.lines.specs.Index.{slot_at};
ghost use Rattle.lines.specs.Passes.{first_slots, spans_in, counted_in, counting};

use crate::Slot;
use sip::Span;

// The i-th slot, from 0.
pub(crate) fn slot_at(slots: &[u16; 384], i: usize) -> Slot
    ensures { (result ≡ slot_at slots.now i) × (result.number < 65536) × (result.start < 65536) × (result.len < 65536) }
{
    if 96 <= i {
        return Slot {
            number: 0,
            start: 0,
            len: 0,
            folded: false,
        };
    }
    let at = 4 * i;
    Slot {
        number: usize::from(slots[at]),
        start: usize::from(slots[at + 1]),
        len: usize::from(slots[at + 2]),
        folded: slots[at + 3] != 0,
    }
}

// How many fields there are of a number, and where the value of the k-th of them stands. An empty place is that of none,
// as sip's `place` says it and C gets it.
#[derive(Clone, Copy)]
pub(crate) struct Counted {
    pub count: usize,
    pub span: Span,
}

pub(crate) const NONE: Counted = Counted {
    count: 0,
    span: Span { start: 0, len: 0 },
};

// Counts a slot in where it has number n.
fn with_slot(found: Counted, s: Slot, n: u64, k: u64) -> Counted
    requires { found.count < 65536 }
    ensures { (result ≡ counting n k found s) × (result.count ≤ found.count + 1) }
{
    if s.number as u64 != n {
        return found;
    }
    let count = found.count + 1;
    if count as u64 != k {
        return Counted { count, ..found };
    }
    Counted {
        count,
        span: Span {
            start: s.start,
            len: s.len,
        },
    }
}

// Counts the slots of number n among the first ones.
pub(crate) fn find(slots: &[u16; 384], listed: usize, n: u64, k: u64) -> Counted
    requires { listed ≤ 96 }
    ensures { result ≡ counted_in k (spans_in n (first_slots listed slots.now)) }
{
    let mut found = NONE;
    for i in 0..listed {
        found = with_slot(found, slot_at(slots, i), n, k);
    }
    found
}
