// The pass over the kept fields: what one field adds to the tally.
ghost use Rattle.std.specs.Prelude.{◌≡◌, false, not, cond, ◌&&◌, ◌+◌, ◌≤◌, ◌<◌, ◌^◌, eqb, length, take, drop};
ghost use Rattle.sip.specs.Lines.{folded};
ghost use Rattle.sip.specs.Profile.{once};
ghost use Rattle.sip.specs.Values.{is_cseq};
ghost use Rattle.judgement.specs.Sets.{has};
ghost use Rattle.judgement.specs.Entries.{unfolded_by, entries_from};
ghost use Rattle.judgement.specs.Tallies.{finding, or_else, fitting, noted, counted, required, identified, said, no_tally, tallied};
ghost use Rattle.judgement.specs.Judged.{taken_up};

use super::{Finding, Tally, findings, sets};
use crate::read::Read;
use lines::Slot;
use sip::{CallerAt, Span};

// The number of the first field that came again.
fn again_of(again: usize, seen: u32, n: usize) -> usize
    ensures { result ≡ or_else again (cond (once n && has seen n) n 0) }
{
    if again != 0 {
        return again;
    }
    // Not by `&&`, for which the compiler works out both: 80 empty fields took 0.9% more instructions.
    if !sets::is_once(n) {
        return 0;
    }
    if sets::in_set(seen, n) {
        return n;
    }
    0
}

// A P-Asserted-Identity that is well formed, and none of whose identities has a scheme that another had before.
fn fits(schemes: u32, f: Finding) -> bool
    ensures { result ≡ fitting schemes f }
{
    f.good && schemes & f.schemes == 0
}

// The number of the first malformed field.
fn malformed_of(malformed: usize, n: usize, good: bool) -> usize
    ensures { result ≡ or_else malformed (cond good 0 n) }
{
    if good || malformed != 0 { malformed } else { n }
}

// Of every field it is noted that it is there, whether it came before, and whether it is malformed. The first of its number did not come
// before.
fn count<const FIRST: bool>(t: Tally, n: usize, good: bool) -> Tally
    requires low { n < 32 }
    requires new { (FIRST && has t.seen n) ≡ false }
    ensures { result ≡ counted t n good }
{
    let again = if FIRST {
        t.again
    } else {
        again_of(t.again, t.seen, n)
    };
    Tally {
        seen: sets::with_number(t.seen, n),
        again,
        malformed: malformed_of(t.malformed, n, good),
        ..t
    }
}

// The place of the first tag that we lack.
fn lacking_of(lacking: usize, tags: usize, place: usize) -> usize
    requires { tags + place < 2 ^ 32 }
    ensures { result ≡ or_else lacking (cond (eqb place 0) 0 (tags + place)) }
{
    if lacking != 0 || place == 0 {
        lacking
    } else {
        tags + place
    }
}

// What each Require says.
fn require(t: Tally, f: Finding) -> Tally
    requires tags { t.tags + f.len < 2 ^ 32 }
    requires place { t.tags + f.start < 2 ^ 32 }
    ensures { result ≡ required t f }
{
    Tally {
        tags: t.tags + f.len,
        lacking: lacking_of(t.lacking, t.tags, f.start),
        ..t
    }
}

// Where the caller's number stands, in the first or the second of the P-Asserted-Identity fields.
fn caller_in(field: usize, f: Finding) -> CallerAt
    ensures { result ≡ record { field = field; start = f.start; len = f.len } }
{
    CallerAt {
        field,
        start: f.start,
        len: f.len,
    }
}

// What each P-Asserted-Identity says. A sip identity's number takes the place of a tel one's that came before.
fn identify(t: Tally, f: Finding) -> Tally
    ensures { result ≡ identified t f }
{
    let mut r = t;
    r.schemes = t.schemes | f.schemes;
    if t.schemes == 0 {
        r.caller = Some(caller_in(1, f));
    } else if f.schemes == 1 {
        r.caller = Some(caller_in(2, f));
    }
    r
}

// What the first Max-Forwards, From, To, Content-Length and Privacy say.
fn say(t: Tally, n: usize, f: Finding) -> Tally
    ensures { result ≡ said t n f }
{
    let mut r = t;
    match n {
        2 => r.hops = f.len,
        3 => {
            r.tag = Span {
                start: f.start,
                len: f.len,
            };
        }
        4 => r.tagged = f.len,
        8 => r.length = f.len,
        16 => r.withheld = f.start,
        _ => {}
    }
    r
}

// The tally with one field more: with the first of its number, or with any.
fn note<const FIRST: bool>(t: Tally, n: usize, f: Finding) -> Tally
    requires low { n < 32 }
    requires new { (FIRST && has t.seen n) ≡ false }
    requires tags { t.tags + f.len < 2 ^ 32 }
    requires place { t.tags + f.start < 2 ^ 32 }
    ensures { result ≡ noted t n f }
{
    if n == 15 {
        return identify(count::<FIRST>(t, n, fits(t.schemes, f)), f);
    }
    let there = count::<FIRST>(t, n, f.good);
    if n == 14 {
        return require(there, f);
    }
    if !FIRST && sets::in_set(t.seen, n) {
        return there;
    }
    say(there, n, f)
}

// Takes up the first field of its number. In each arm the number is known, so that only what its field says is changed: with one `note`
// over `findings::finding`, which has the same arms, a call took 8.3% more instructions. That a value has 8192 bytes at most is asked here and by
// those that make a canonical one: it is the message's bound, and a type would say no more than it.
fn take_first(method: &[u8], t: Tally, n: usize, v: &[u8]) -> Tally
    requires low { n < 32 }
    requires new { has t.seen n ≡ false }
    requires short { length v.now ≤ 8192 }
    requires tags { t.tags < 2 ^ 31 }
    ensures { result ≡ noted t n (finding method.now n v.now) }
{
    match n {
        2 => note::<true>(t, 2, findings::whole(v, 3, 255)),
        3 => note::<true>(t, 3, findings::from(v)),
        4 => note::<true>(t, 4, findings::to(v)),
        5 => note::<true>(t, 5, findings::call_id(v)),
        6 => note::<true>(t, 6, findings::cseq(method, v)),
        8 => note::<true>(t, 8, findings::whole(v, 5, 99999)),
        14 => note::<true>(t, 14, findings::require(v)),
        15 => note::<true>(t, 15, findings::identity(v)),
        16 => note::<true>(t, 16, findings::privacy(v)),
        _ => count::<true>(t, n, findings::other(n, v).good),
    }
}

// What is found in the canonical form of a value of at most N bytes with a line break in it, which is written to a scratch of that size: fixed
// memory. The bounds, told here and handed on by two functions, leave room to add up what 96 values say.
fn finding_within<const N: usize>(method: &[u8], n: usize, v: &[u8]) -> Finding
    requires fits { length v.now ≤ N }
    requires size { N ≤ 8192 }
    ensures found { result ≡ finding method.now n (folded 0 v.now) }
    ensures start { result.start ≤ 108191 }
    ensures len { result.len ≤ 108191 }
{
    let mut scratch = [0u8; N];
    let len = emit::put_folded(&mut scratch, 0, v);
    findings::finding(method, n, octets::first(&scratch, len))
}

// What is found in the canonical form of a value with a line break in it. It is made only where it is read: a value is empty exactly
// where its canonical form is.
pub(crate) fn finding_folded(method: &[u8], n: usize, v: &[u8]) -> Finding
    requires { length v.now ≤ 8192 }
    ensures { (result ≡ finding method.now n (folded 0 v.now)) × (result.start ≤ 108191) × (result.len ≤ 108191) }
{
    if !sets::is_read(n) {
        return findings::other(n, v);
    }
    // A scratch costs as many writes as it has bytes, and most values are short.
    if v.len() <= 256 {
        return finding_within::<256>(method, n, v);
    }
    finding_within::<8192>(method, n, v)
}

// What is found in the canonical form of a value, folded or not.
fn finding_of(method: &[u8], n: usize, v: &[u8], fold: bool) -> Finding
    requires { length v.now ≤ 8192 }
    ensures { (result ≡ finding method.now n (unfolded_by fold v.now)) × (result.start ≤ 108191) × (result.len ≤ 108191) }
{
    if fold {
        return finding_folded(method, n, v);
    }
    findings::finding(method, n, v)
}

// A value, folded or not, is a CSeq with this method. A value goes with the flag of its slot, which `Slot` holds beside its place.
pub(crate) fn is_cseq(method: &[u8], v: &[u8], fold: bool) -> bool
    requires { length v.now ≤ 8192 }
    ensures { result ≡ is_cseq method.now (unfolded_by fold v.now) }
{
    if fold {
        let f = finding_folded(method, 6, v);
        return f.good;
    }
    values::is_cseq(method, v)
}

// The value that a slot speaks of, where it stands. Also in gateway (`raw`): it asks that the slot lies within the message, and what asks may not
// be public; one that looks at the bounds took a call 0.9% more instructions.
pub(crate) fn value_of(message: &[u8], s: Slot) -> &[u8]
    requires { s.start + s.len ≤ length message.now }
    ensures { (result.now ≡ take s.len (drop s.start message.now)) × (length result.now ≤ length message.now) }
{
    let start = s.start;
    let end = start + s.len;
    &message[start..end]
}

// Takes up one field, where it is kept. All but the first of a number, with its canonical value in place, are noted at one place, so that
// the tally is changed where it stands. The bound leaves room to add up the tags of all fields.
fn take_up(read: &Read, method: &[u8], kept: u32, t: Tally, s: Slot) -> Tally
    requires within { s.start + s.len ≤ length read.now.message.now }
    requires tags { t.tags < 2 ^ 31 }
    ensures tally { result ≡ taken_up method.now kept read.now.message.now t s }
    ensures tags { result.tags ≤ t.tags + 8192 }
{
    let n = s.number;
    if !sets::in_set(kept, n) {
        return t;
    }
    let v = value_of(read.message, s);
    if !s.folded && !sets::in_set(t.seen, n) {
        return take_first(method, t, n, v);
    }
    note::<false>(t, n, finding_of(method, n, v, s.folded))
}

// What the kept fields say.
pub(crate) fn tally(read: &Read, method: &[u8], kept: u32) -> Tally
    ensures { result ≡ tallied method.now no_tally (entries_from kept read.now.message.now read.now.slots.now read.now.head.count 0) }
{
    let mut t = Tally {
        seen: 0,
        schemes: 0,
        again: 0,
        malformed: 0,
        hops: 0,
        tagged: 0,
        withheld: 0,
        length: 0,
        tags: 0,
        lacking: 0,
        tag: Span { start: 0, len: 0 },
        caller: None,
    };
    // That there are at most 96 is said for the compiler, which then drops the test for a slot past the 96 in each turn.
    let end = usize::min(read.head.count, 96);
    let slots = read.slots;
    for i in 0..end {
        t = take_up(read, method, kept, t, lines::slot_at(slots, i));
    }
    t
}
