// All lines of a message in one pass: reasons 3 to 5, or the listed fields.
ghost use Rattle.std.specs.Prelude.{◌≡◌, cond, [], ◌+◌, ◌-◌, ◌≤◌, ◌<◌, length, take, drop, IfSome, IfOk};
ghost use Rattle.octets.specs.Classes.{is_break};
ghost use Rattle.octets.specs.Scans.{any};
ghost use Rattle.sip.specs.Lines.{starts_crlf};
ghost use Rattle.lines.specs.Places.{start_at};
ghost use Rattle.lines.specs.Index.{zeros, padded, index, head_of, HasMethod};
ghost use Rattle.lines.specs.Passes.{slot_for, listed_slot, Small, stored, more, kept, closed_end, settled, line_size};

use crate::field::ValueAt;
use crate::named::Named;
use crate::{Message, Slot, StartLine, Unread, field, named, start, value};

// How the fields end: where the rest starts, and how many listed fields have a slot.
#[derive(Clone, Copy)]
pub(crate) struct Ended {
    pub rest: usize,
    pub count: usize,
}

// Leaves no slots, whatever they held.
pub(crate) fn clear(slots: &mut [u16; 384])
    ensures { slots.new ≡ zeros 384 }
{
    *slots = [0u16; 384];
}

// The slot of a field of that number whose value v stands at the place at, by the part of v without gaps at both ends. A value of one line
// is not looked at again for a line break.
fn trimmed_slot(number: usize, at: usize, v: &[u8], folded: bool) -> Slot
    requires { (folded ≡ any is_break v.now) × (at + length v.now ≤ 8192) }
    ensures { (result ≡ slot_for number at v.now) × (result.number ≡ number) × (result.start + result.len ≤ 8192) }
{
    let p = value::trimmed(v);
    if p.len < 1 {
        return Slot {
            number,
            start: 0,
            len: 0,
            folded: false,
        };
    }
    Slot {
        number,
        start: at + p.start,
        len: p.len,
        folded: folded && octets::has_break(&v[p.start..p.start + p.len]),
    }
}

// The same, with a look first: most values stand on one line, after one space.
fn slot(number: usize, at: usize, v: &[u8], folded: bool) -> Slot
    requires { (folded ≡ any is_break v.now) × (at + length v.now ≤ 8192) }
    ensures { (result ≡ slot_for number at v.now) × (result.number ≡ number) × (result.start + result.len ≤ 8192) }
{
    if !folded {
        if value::is_plain(v) {
            return Slot {
                number,
                start: at + 1,
                len: v.len() - 1,
                folded: false,
            };
        }
    }
    trimmed_slot(number, at, v, folded)
}

// The slot of a field, if it is listed.
fn slot_of(s: &[u8], n: Named, v: ValueAt) -> Option<Slot>
    requires { (n.value ≤ v.end) × (v.end ≤ length s.now) × (length s.now ≤ 8192) × (n.number ≤ 18) × (v.folded ≡ any is_break (take (v.end - n.value) (drop n.value s.now))) }
    ensures { (result ≡ listed_slot n.number n.value (take (v.end - n.value) (drop n.value s.now))) × IfSome result (λ r. (1 ≤ r.number) × Small r) }
{
    if n.number < 1 {
        return None;
    }
    Some(slot(n.number, n.value, &s[n.value..v.end], v.folded))
}

// The four numbers of the i-th listed field.
fn store(slots: &mut [u16; 384], i: usize, s: Slot)
    requires { (i < 96) × Small s }
    ensures { slots.new ≡ stored slots.old i s }
{
    let at = 4 * i;
    slots[at] = s.number as u16;
    slots[at + 1] = s.start as u16;
    slots[at + 2] = s.len as u16;
    slots[at + 3] = s.folded as u16;
}

// Takes up a field: a listed one has a slot, as long as there are any. How many have one then.
fn add(slots: &mut [u16; 384], count: usize, s: Option<Slot>) -> usize
    requires { IfSome s Small }
    ensures { (result ≡ more count s) × (slots.new ≡ kept slots.old count s) }
{
    let Some(s) = s else {
        return count;
    };
    if 96 <= count {
        return count;
    }
    store(slots, count, s);
    count + 1
}

// No name stands at a place: an empty line ends the fields there, after number of them, or their shape is bad.
fn unnamed(s: &[u8], at: usize, number: usize, count: usize) -> Result<Ended, Unread>
    requires { at ≤ 8192 }
    ensures { result ≡ cond (starts_crlf (drop at s.now)) (closed_end number (at + 2) count) (Err Unread.BadFields) }
{
    if !field::is_empty_line(s, at) {
        return Err(Unread::BadFields);
    }
    if number <= 96 {
        return Ok(Ended {
            rest: at + 2,
            count,
        });
    }
    Err(Unread::TooManyFields)
}

// Reads the fields after a start line. Past 96 of them it goes on without slots, since a bad shape comes first. A turn
// passes over a whole field, so that no range fits.
fn fields(s: &[u8], slots: &mut [u16; 384], start: StartLine) -> Result<Ended, Unread>
    requires { (length s.now ≤ 8192) × (Some start ≡ start_at s.now) × (line_size start ≤ length s.now) × (slots.old ≡ padded []) }
    ensures { settled s.now result slots.new ≡ index s.now }
{
    let mut count = 0;
    let mut number: usize = 0;
    let mut at = start.size();
    while let Some(n) = named::read(s, at) {
        let Some(v) = field::value_at(s, n.value) else {
            return Err(Unread::BadFields);
        };
        count = add(slots, count, slot_of(s, n, v));
        number += 1;
        at = v.end + 2;
    }
    unnamed(s, at, number, count)
}

// All lines of a message, into slots that are clear. The functions of this pass each ask that the message has 8192 bytes at most: it is a bound on one
// length, and a struct that holds the text and the bound would say no more and be taken apart in each.
pub(crate) fn lines(s: &[u8], slots: &mut [u16; 384]) -> Result<Message, Unread>
    requires { (length s.now ≤ 8192) × (slots.old ≡ zeros 384) }
    ensures { (head_of result ≡ (index s.now).head) × (slots.new ≡ (index s.now).slots) × IfOk result (λ m. HasMethod m.start) }
{
    let Some(start) = start::read(s) else {
        return Err(Unread::NoStartLine);
    };
    match fields(s, slots, start) {
        Ok(end) => Ok(Message {
            start,
            line: start.size(),
            rest: end.rest,
            count: end.count,
        }),
        Err(why) => {
            clear(slots);
            Err(why)
        }
    }
}
