// What is found in one kept value. Each value is read once.
ghost use Rattle.std.specs.Prelude.{◌≡◌, true, not, cond, [], ◌+◌, ◌≤◌, length};
ghost use Rattle.sip.specs.Values.{is_empty};
ghost use Rattle.values.specs.Answers.{whole_number};
ghost use Rattle.judgement.specs.Tallies.{found, found_whole, only_filled, finding};

use super::Finding;

// Found in a value that asserts no identity.
fn found(good: bool, start: usize, len: usize) -> Finding
    ensures { result ≡ found good start len }
{
    Finding {
        good,
        schemes: 0,
        start,
        len,
    }
}

// In a value of which only this is asked.
fn plain(good: bool) -> Finding
    ensures { (result ≡ found good 0 0) × (result.start ≡ 0) × (result.len ≡ 0) }
{
    found(good, 0, 0)
}

// A number of at most so many digits, which is at most the bound: a Max-Forwards or a Content-Length.
pub(crate) fn whole(v: &[u8], most: usize, bound: u32) -> Finding
    ensures found { result ≡ found_whole (whole_number most bound v.now) }
    ensures start { result.start ≡ 0 }
    ensures len { result.len ≤ bound }
{
    match values::whole_number(v, most, bound) {
        Some(n) => found(true, 0, n as usize),
        None => plain(false),
    }
}

pub(crate) fn from(v: &[u8]) -> Finding
    ensures { (result ≡ finding [] 3 v.now) × (result.start + result.len ≤ length v.now) }
{
    match values::party(v) {
        Some(tag) => found(tag.len != 0, tag.start, tag.len),
        None => plain(false),
    }
}

pub(crate) fn to(v: &[u8]) -> Finding
    ensures { (result ≡ finding [] 4 v.now) × (result.start ≡ 0) × (result.len ≤ length v.now) }
{
    match values::party(v) {
        Some(tag) => found(true, 0, tag.len),
        None => plain(false),
    }
}

// Inlined, as `identity` and `privacy`: what a call leaves its answer in is cleared for each field of a message, which takes 1% of a call.
#[inline(always)]
pub(crate) fn require(v: &[u8]) -> Finding
    ensures { (result ≡ finding [] 14 v.now) × (result.start ≤ length v.now) × (result.len ≤ length v.now) }
{
    match values::require(v) {
        Some(tags) => found(true, tags.first.unwrap_or(0), tags.count),
        None => plain(false),
    }
}

#[inline(always)]
pub(crate) fn identity(v: &[u8]) -> Finding
    ensures { (result ≡ finding [] 15 v.now) × (result.start + result.len ≤ length v.now) }
{
    match values::asserted(v) {
        Some(a) => Finding {
            good: true,
            schemes: a.schemes,
            start: a.start,
            len: a.len,
        },
        None => plain(false),
    }
}

#[inline(always)]
pub(crate) fn privacy(v: &[u8]) -> Finding
    ensures { (result ≡ finding [] 16 v.now) × (result.start ≤ length v.now) × (result.len ≡ 0) }
{
    match values::privacy(v) {
        Some(tokens) => found(true, tokens.first.unwrap_or(0), 0),
        None => plain(false),
    }
}

pub(crate) fn call_id(v: &[u8]) -> Finding
    ensures { (result ≡ finding [] 5 v.now) × (result.start ≡ 0) × (result.len ≡ 0) }
{
    plain(values::is_call_id(v))
}

pub(crate) fn cseq(method: &[u8], v: &[u8]) -> Finding
    ensures { (result ≡ finding method.now 6 v.now) × (result.start ≡ 0) × (result.len ≡ 0) }
{
    plain(values::is_cseq(method, v))
}

// Of Via, Contact, Content-Type, Route, Reason and Record-Route it is asked that the value is not empty, of the others nothing.
pub(crate) fn other(n: usize, v: &[u8]) -> Finding
    ensures { (result ≡ found (cond (only_filled n) (not (is_empty v.now)) true) 0 0) × (result.start ≡ 0) × (result.len ≡ 0) }
{
    // `matches!` is no part of the jump of `finding`: 80 empty fields took 1.1% more instructions with it.
    if n == 1 || n == 7 || n == 9 || n == 10 || n == 11 || n == 18 {
        return plain(v.len() != 0);
    }
    plain(true)
}

// The bounds leave room to add up what many values say.
pub(crate) fn finding(method: &[u8], n: usize, v: &[u8]) -> Finding
    ensures { (result ≡ finding method.now n v.now) × (result.start ≤ length v.now + 99999) × (result.len ≤ length v.now + 99999) }
{
    match n {
        2 => whole(v, 3, 255),
        3 => from(v),
        4 => to(v),
        5 => call_id(v),
        6 => cseq(method, v),
        8 => whole(v, 5, 99999),
        14 => require(v),
        15 => identity(v),
        16 => privacy(v),
        _ => other(n, v),
    }
}
