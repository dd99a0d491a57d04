// Reads the lines of a message: start line, fields, names, canonical values.
#![tactic(auto)]

ghost use Rattle.std.specs.Prelude.{◌≡◌, ◌+◌, ◌-◌, ◌≤◌, ◌<◌, min, length, take, drop, unwrap_or, IfSome, IfOk};
ghost use Rattle.sip.specs.Profile.{number_of};
ghost use Rattle.sip.specs.Readings.{spans, count, place, reading_at, reading};
ghost use Rattle.lines.specs.Places.{start_at, field_at};
ghost use Rattle.lines.specs.Finds.{field_named};
ghost use Rattle.lines.specs.Index.{index, slot_at, reason_of, head_of, HasMethod};
ghost use Rattle.lines.specs.Passes.{at_most96, first_slots, spans_in, counted_in};

use octets::Class;
use slots::Counted;

mod field;
mod find;
mod header;
mod known;
mod named;
mod names;
mod scan;
mod slots;
mod start;
mod status;
mod value;
mod words;

// A start line by its lengths: a request line by those of its method and its Request-URI, a status line by that of its phrase.
#[derive(Clone, Copy, Debug, PartialEq, Eq)]
pub enum StartLine {
    Request { method: usize, uri: usize },
    Status { phrase: usize },
}

// A field of a text by places: where its name ends, where its value starts and ends, and whether the value goes over several lines.
// The CRLF that ends the field stands at `end`.
#[derive(Clone, Copy)]
pub struct FieldAt {
    pub name: usize,
    pub value: usize,
    pub end: usize,
    pub folded: bool,
}

// A listed field of a message: its number, where its value stands without the spaces, tabs and line breaks at both ends, and whether
// there is a line break in it. The number is that of the profile's table (`number_of` of sip), by which C names a field. Number 0 is no
// field: the lent numbers have it past the last one (`slot_at`, `no_slot` of specs/Index), so that this is no `Option`.
#[derive(Clone, Copy)]
pub struct Slot {
    pub number: usize,
    pub start: usize,
    pub len: usize,
    pub folded: bool,
}

// A message by its lines: its start line and how long that is, where the rest starts, after the empty line, and how many listed fields have
// a slot.
#[derive(Clone, Copy)]
pub struct Message {
    pub start: StartLine,
    pub line: usize,
    pub rest: usize,
    pub count: usize,
}

// Why a message is not read, by the number of the reason.
#[derive(Clone, Copy, Debug, PartialEq, Eq)]
pub enum Unread {
    TooLong = 2,
    NoStartLine = 3,
    BadFields = 4,
    TooManyFields = 5,
}

impl From<Unread> for u64 {
    ghost from_gives = { λ why n. n ≡ reason_of why };

    fn from(why: Unread) -> u64 {
        why as u64
    }
}

// The start line at the front of a text.
pub fn start_line(s: &[u8]) -> Option<StartLine>
    ensures { result ≡ start_at s.now }
{
    start::read(s)
}

// The field at a place of a text.
pub fn field_at(s: &[u8], at: usize) -> Option<FieldAt>
    ensures { result ≡ field_at s.now at }
{
    field::read(s, at)
}

// The number of a field's name, in long or compact form and any letter case. None where it is not listed.
// The length comes first: it leaves four spellings at most.
pub fn number_of(name: &[u8]) -> Option<usize>
    ensures { (unwrap_or result 0 ≡ number_of name.now) × IfSome result (λ n. (1 ≤ n) × (n ≤ 18)) }
{
    match name.len() {
        1 => names::compact(name[0]),
        2 => names::among(name, &names::TWO),
        3 => names::among(name, &names::THREE),
        4 => names::among(name, &names::FOUR),
        5 => names::among(name, &names::FIVE),
        6 => names::among(name, &names::SIX),
        7 => names::among(name, &names::SEVEN),
        9 => names::among(name, &names::NINE),
        12 => names::among(name, &names::TWELVE),
        14 => names::among(name, &names::FOURTEEN),
        19 => names::among(name, &names::NINETEEN),
        _ => None,
    }
}

// The lines of a message. In the lent slots it leaves four numbers for each listed field, as a slot has them, and none where the message
// is not read. They are numbers, and no array of `Slot`, since `reading_of` takes any such numbers.
pub fn read(message: &[u8], slots: &mut [u16; 384]) -> Result<Message, Unread>
    ensures { (head_of result ≡ (index message.now).head) × (slots.new ≡ (index message.now).slots) × IfOk result (λ m. HasMethod m.start) }
{
    // The slots are cleared before any byte is looked at: after a loop the compiler would not see that all of them are, and would let the
    // caller clear them too.
    header::clear(slots);
    if 8192 < message.len() {
        return Err(Unread::TooLong);
    }
    header::lines(message, slots)
}

// The i-th slot, from 0, of those that `read` leaves.
pub fn slot_at(slots: &[u16; 384], i: usize) -> Slot
    ensures { (result ≡ slot_at slots.now i) × (result.number < 65536) × (result.start < 65536) × (result.len < 65536) }
{
    slots::slot_at(slots, i)
}

// How often the field of number n occurs.
pub fn count(message: &[u8], n: u64) -> usize
    ensures { result ≡ count message.now n }
{
    let found = found_in(message, n, 0);
    found.count
}

// Where the value of the k-th field of number n stands, k from 1. It lies within the message.
pub fn reading_at(message: &[u8], n: u64, k: u64) -> sip::Span
    ensures { (result ≡ reading_at message.now n k) × (result.start + result.len ≤ length message.now) }
{
    let found = found_in(message, n, k);
    found.span
}

// As `reading_at`, of a message that was read: by the first `count` slots of those that `read` leaves.
pub fn reading_of(slots: &[u16; 384], count: usize, n: u64, k: u64) -> sip::Span
    ensures { result ≡ place k (spans_in n (first_slots (at_most96 count) slots.now)) }
{
    let found = slots::find(slots, count.min(96), n, k);
    found.span
}

// The value of the k-th field of number n, as a part of the message.
pub fn reading(message: &[u8], n: u64, k: u64) -> &[u8]
    ensures { result.now ≡ reading message.now n k }
{
    let p = reading_at(message, n, k);
    octets::first(octets::rest(message, p.start), p.len)
}

// One of the well-shaped fields after the first line has that name, whole, as it is written (`f` is not `From`) and in any letter case. Of a
// message that is read these are its fields.
pub fn has_field(message: &[u8], name: &[u8]) -> bool
    ensures { result ≡ field_named message.now name.now }
{
    let line = Class::Value.end(message, 0);
    find::after_line(message, line, name)
}

// The fields of number n: how many there are, and where the value of the k-th stands. No field of a message that is read has number 0.
fn found_in(message: &[u8], n: u64, k: u64) -> Counted
    ensures { result ≡ counted_in k (spans message.now n) }
{
    if n < 1 {
        return slots::NONE;
    }
    let mut slots = [0u16; 384];
    match read(message, &mut slots) {
        Ok(m) => slots::find(&slots, m.count, n, k),
        Err(_) => slots::NONE,
    }
}
