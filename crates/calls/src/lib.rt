// The calls that are remembered: a table of 32 places, which the caller lends. Any content is a table; a place without a well-formed pair is
// free. It is an array of bytes, since C lends it (mishkolar_screen, mishkolar_end_call).
#![tactic(auto)]

ghost use Rattle.std.specs.Prelude.{◌≡◌, true, cond, ◌++◌, ◌+◌, ◌*◌, ◌≤◌, ◌<◌, ◌&&◌, position, length, take, drop, unwrap_or, IfSome};
ghost use Rattle.sip.specs.Calls.{is_pair, places, free_place, is_held, first_where, starts_with0, new_place, placed, removed, ending};
ghost use Rattle.calls.specs.Places.{said, answer_of, fits, says, starts_with, holder};

mod full;
mod pairs;
mod text;

pub use pairs::Pair;
use pairs::Place;

// The pair is not held.
#[derive(Clone, Copy, Debug, PartialEq, Eq)]
pub struct NotHeld;

impl NotHeld {
    // The number of this refusal.
    pub fn refusal(self) -> u64
        ensures { result ≡ 19 }
    {
        19
    }
}

// The length of a table. Rattle knows it by the type; the function stands because docs/changes/CR-8.md names it among the public ones.
pub fn sized(table: &[u8; 6208]) -> usize
    ensures { (result ≡ 6208) × (length table.now ≡ 6208) }
{
    table.len()
}

// The places of a table.
fn places(table: &[u8; 6208]) -> &[Place; 32]
    ensures { result.now ≡ places 32 table.now }
{
    table.as_chunks::<194>().0.as_array().unwrap()
}

// One of them. A place is a bare number, and each function that looks at one asks that it is below 32: a type for that would be made where a
// place is found and taken apart again here, and `place` takes any number, since `new_place` may have found none.
pub(crate) fn place_at(table: &[u8; 6208], k: usize) -> &Place
    requires { k < 32 }
    ensures { result.now ≡ take 194 (drop (k * 194) table.now) }
{
    &places(table)[k]
}

// The place says this length of a Call-ID and this first byte of it.
#[tactic(auto, unfolding(crate::specs::Places::starts_with))]
fn starts_with(place: &Place, size: usize, first: u8) -> bool
    ensures { result ≡ starts_with size first place.now }
{
    usize::from(place[0]) == size && place[1] == first
}

// The first place that says this length of a Call-ID and this first byte of it.
fn likely(table: &[u8; 6208], size: usize, first: u8) -> Option<usize>
    ensures { (result ≡ position (starts_with size first) (places 32 table.now)) × IfSome result (λ k. k < 32) }
{
    places(table)
        .iter()
        .position(|place| starts_with(place, size, first))
}

// The first of these places that says the pair.
fn first_of(places: &[Place], pair: Pair, first: u8) -> Option<usize>
    ensures { result ≡ position (λ c. starts_with (length pair.entry.call_id.now) first c && says (said pair.entry) c) places.now }
{
    let size = pair.call_id.len();
    places.iter().position(|place| starts_with(place, size, first) && pair.is_at(place))
}

// The first place that says the pair. Most places differ in the length or the first byte of the Call-ID: the places before the first that does
// not are passed in a loop of their own, so short that the compiler unrolls it.
fn place_of(table: &[u8; 6208], pair: Pair, first: u8) -> Option<usize>
    ensures { result ≡ position (λ c. starts_with (length pair.entry.call_id.now) first c && says (said pair.entry) c) (places 32 table.now) }
{
    let start = likely(table, pair.call_id.len(), first)?;
    let more = first_of(&places(table)[start..], pair, first)?;
    Some(start + more)
}

// The first place that holds the pair. Its form is looked at only where its bytes are found.
fn formed_place(table: &[u8; 6208], pair: Pair) -> Option<usize>
    requires { 1 ≤ length pair.call_id.now }
    ensures { (unwrap_or result 32 ≡ holder (said pair.entry) table.now) × IfSome result (λ k. k < 32) }
{
    let k = place_of(table, pair, pair.call_id[0])?;
    if pair.is_formed() { Some(k) } else { None }
}

// The same for any pair. Where no place has room for the texts, none is looked at; inline, so that this costs no call.
#[inline(always)]
fn holder(table: &[u8; 6208], pair: Pair) -> Option<usize>
    ensures { (unwrap_or result 32 ≡ holder (said pair.entry) table.now) × IfSome result (λ k. k < 32) }
{
    if pair.call_id.is_empty() || pair.call_id.len() > 128 || pair.tag.len() > 64 {
        return None;
    }
    formed_place(table, pair)
}

// The pair is held.
pub fn is_held(table: &[u8; 6208], pair: Pair) -> bool
    ensures { result ≡ is_held (said pair.entry) table.now }
{
    holder(table, pair).is_some()
}

#[tactic(auto, unfolding(sip::specs::Calls::starts_with0))]
fn is_empty(place: &Place) -> bool
    ensures { result ≡ starts_with0 place.now }
{
    place[0] == 0
}

// The first place whose first byte is 0.
fn first_empty(table: &[u8; 6208]) -> Option<usize>
    ensures { result ≡ position starts_with0 (places 32 table.now) }
{
    places(table).iter().position(|place| is_empty(place))
}

// Where a new pair is entered; none where 32 are held. A place that starts with 0 is found at once; the others are read only where there is
// none.
pub fn new_place(table: &[u8; 6208]) -> Option<usize>
    ensures { (unwrap_or result 32 ≡ new_place table.now) × IfSome result (λ k. k < 32) }
{
    match first_empty(table) {
        Some(k) => Some(k),
        None => full::first_spare(table),
    }
}

// Writes the pair into a place. Where there is no such place, or the pair is too long for any, nothing changes: so its clause says of every k
// (`placed`), and no type may narrow it.
pub fn place(table: &mut [u8; 6208], k: usize, pair: Pair)
    ensures { table.new ≡ cond (fits (said pair.entry)) (placed k (said pair.entry) table.old) table.old }
{
    if k < 32 && pair.call_id.len() <= 128 && pair.tag.len() <= 64 {
        table[k * 194..k * 194 + 194].copy_from_slice(&pair.place());
    }
}

// Leaves a place free.
fn free(table: &mut [u8; 6208], k: usize)
    requires { k < 32 }
    ensures { table.new ≡ take (k * 194) table.old ++ (free_place ++ drop (k * 194 + 194) table.old) }
{
    table[k * 194..k * 194 + 194].fill(0);
}

// Leaves every place free that holds the pair, from the first on. Not inline: within `end` it made an end that finds nothing longer.
#[inline(never)]
fn clear(table: &mut [u8; 6208], first: usize, pair: Pair)
    requires { (is_pair (said pair) ≡ true) × (first ≡ first_where (says (said pair)) (places 32 table.old)) × (first < 32) }
    ensures { table.new ≡ removed (said pair.entry) table.old }
{
    free(table, first);
    for k in first + 1..32 {
        if pair.is_at(place_at(table, k)) {
            free(table, k);
        }
    }
}

// Removes the pair, with every copy of it. Where it is not held nothing changes.
pub fn remove(table: &mut [u8; 6208], pair: Pair)
    ensures { table.new ≡ removed (said pair.entry) table.old }
{
    let _ = end(table, pair);
}

// An explicit end of the call: it removes the pair too, and says where it is not held.
pub fn end(table: &mut [u8; 6208], pair: Pair) -> Result<(), NotHeld>
    ensures { (answer_of result ≡ ending (said pair.entry) table.old) × (table.new ≡ removed (said pair.entry) table.old) }
{
    match holder(table, pair) {
        Some(first) => {
            clear(table, first, pair);
            Ok(())
        }
        None => Err(NotHeld),
    }
}
