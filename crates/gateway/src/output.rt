// The outgoing message: its length, and its writing. Fields go by their numbers, which are those of the profile (`rows` of sip's definitions).
// A writer is handed the place and answers the place after its text, as emit's public writers do: their clause `Wrote` is what is said of it.
ghost use Rattle.std.specs.Prelude.{◌≡◌, false, cond, ◌&&◌, ◌++◌, eqb, ◌+◌, ◌-◌, ◌%◌, ◌≤◌, ◌<◌, ◌^◌, leb, length, take, drop};
ghost use Rattle.octets.specs.Classes.{is_gap};
ghost use Rattle.octets.specs.Scans.{any};
ghost use Rattle.sip.specs.Lines.{crlf, folded, unfolded_at};
ghost use Rattle.sip.specs.Output.{numeral, anonymous};
ghost use Rattle.sip.specs.Readings.{part};
ghost use Rattle.emit.specs.Put.{Wrote};
ghost use Rattle.gateway.specs.Sent.{Goes};
ghost use Rattle.gateway.specs.Accepted.{GoesOut, sent_by, start_by, lines_by, body_by, value_by, line_by};

use crate::message::Outgoing;
use crate::{copy, names};
use lines::Slot;
use sip::Span;

// The set of the fields that go out: P-Asserted-Identity does not where the caller is masked.
pub(crate) fn sent_set(kept: u32, masked: bool) -> u32
    ensures { Goes masked kept result }
{
    if masked {
        return kept & !0b1000_0000_0000_0000;
    }
    kept
}

// The tag of a From as it came. Nothing in a tag is folded, so it stands there as it is.
pub(crate) fn tag_of(v: &[u8], broken: bool, tag: Span) -> &[u8]
    ensures { result.now ≡ take tag.len (drop (cond broken (unfolded_at tag.start 0 v.now) tag.start) v.now) }
{
    if broken {
        return octets::part(v, emit::unfolded_at(v, tag.start), tag.len);
    }
    octets::part(v, tag.start, tag.len)
}

// From without the caller. It keeps its tag.
fn put_masked_from(out: &mut [u8], at: usize, v: &[u8], broken: bool, tag: Span) -> usize
    requires { (any is_gap (part tag (cond broken (folded 0 v.now) v.now)) ≡ false)
        × (at + (50 + length (part tag (cond broken (folded 0 v.now) v.now))) ≤ length out.old) }
    ensures { Wrote out.old at
        (anonymous ++ part tag (cond broken (folded 0 v.now) v.now))
        result out.new }
{
    let next = copy::put(
        out,
        at,
        b"\"Anonymous\" <sip:anonymous@anonymous.invalid>;tag=",
    );
    copy::value(out, next, tag_of(v, broken, tag))
}

// The last digit of a number, as a byte.
fn digit(n: usize) -> u8
    ensures { result ≡ 48 + n % 10 }
{
    (48 + n % 10) as u8
}

// A number that goes out. Most have one or two digits, which are written at once.
fn put_number(out: &mut [u8], at: usize, n: usize) -> usize
    requires { at + length (numeral n) ≤ length out.old }
    ensures { Wrote out.old at (numeral n) result out.new }
{
    if n < 10 {
        let text = [digit(n)];
        return copy::put(out, at, &text);
    }
    if n < 100 {
        let text = [digit(n / 10), digit(n)];
        return copy::put(out, at, &text);
    }
    emit::put_five_digits(out, at, n)
}

impl Outgoing<'_, '_> {
    // A value as it stands in the message, between its ends. Also in judgement (`value_of`), since what asks something may not be public; `octets::part`
    // asks nothing and cuts at the message's end, which takes a screening 2% more instructions.
    fn raw(&self, s: Slot) -> &[u8]
        requires { s.start + s.len ≤ length self.now.of.now.message.now }
        ensures { (result.now ≡ take s.len (drop s.start self.now.of.now.message.now))
            × (length result.now ≤ length self.now.of.now.message.now) }
    {
        let start = s.start;
        let end = start + s.len;
        &self.of.message[start..end]
    }

    // Max-Forwards as it goes out: 0 stays.
    fn hops(&self) -> usize
        ensures { result ≡ self.now.of.now.judged.hops - 1 }
    {
        self.of.judged.hops.saturating_sub(1)
    }

    // From goes without the caller where the caller is masked.
    fn masks(&self, s: Slot) -> bool
        ensures { result ≡ (self.now.masked && eqb s.number 3) }
    {
        self.masked && s.number == 3
    }

    // The length of a value as it goes out. That the slot is one of the message's is asked by the four functions that take one: it is made in two
    // loops, and a type for it would be taken apart in each function.
    fn value_len(&self, s: Slot) -> usize
        requires { GoesOut self.now s }
        ensures { (result ≡ length (value_by self.now s)) × (result ≤ 8242) }
    {
        if s.number == 2 {
            return emit::five_digits_len(self.hops());
        }
        if s.number == 8 {
            return emit::five_digits_len(self.of.judged.body);
        }
        if self.masks(s) {
            let tag = self.of.judged.tag;
            return 50 + tag.len;
        }
        let v = self.raw(s);
        if s.folded {
            return emit::folded_len(v);
        }
        v.len()
    }

    // The length of a field's line.
    fn line_len(&self, s: Slot) -> usize
        requires { GoesOut self.now s }
        ensures { (result ≡ length (line_by self.now s)) × (result ≤ 8265) }
    {
        let name = names::name_len(s.number);
        let value = self.value_len(s);
        let text = name + value;
        text + 4
    }

    // The length of the lines of the fields that go out.
    fn lines_len(&self) -> usize
        ensures { (result ≡ length (lines_by self.now)) × (result < 2 ^ 32) }
    {
        let mut sum = 0;
        for i in 0..self.of.judged.count {
            let s = lines::slot_at(self.of.slots, i);
            if judgement::in_set(self.sent, s.number) {
                sum += self.line_len(s);
            }
        }
        sum
    }

    // The length of the outgoing message.
    fn len(&self) -> usize
        ensures { result ≡ length (sent_by self.now) }
    {
        self.of.judged.line + self.lines_len() + 2 + self.of.judged.body
    }

    // The length of the outgoing message where the room is too small for it. It is less than 1,024 bytes longer than the message, so that it
    // is measured only where the room is tight.
    pub fn lack(&self, room: usize) -> Option<usize>
        ensures { result ≡ cond (leb (length (sent_by self.now)) room) None (Some (length (sent_by self.now))) }
    {
        if self.of.message.len() + 1024 <= room {
            return None;
        }
        let len = self.len();
        if len <= room {
            return None;
        }
        Some(len)
    }

    // A value as it goes out.
    fn put_value(&self, out: &mut [u8], at: usize, s: Slot) -> usize
        requires { GoesOut self.now s × (at + length (value_by self.now s) ≤ length out.old) }
        ensures { Wrote out.old at (value_by self.now s) result out.new }
    {
        if s.number == 2 {
            return put_number(out, at, self.hops());
        }
        if s.number == 8 {
            return put_number(out, at, self.of.judged.body);
        }
        let v = self.raw(s);
        if self.masks(s) {
            return put_masked_from(out, at, v, s.folded, self.of.judged.tag);
        }
        if s.folded {
            return emit::put_folded(out, at, v);
        }
        copy::value(out, at, v)
    }

    // A field's line: its front, its value, CRLF.
    fn put_line(&self, out: &mut [u8], at: usize, s: Slot) -> usize
        requires { GoesOut self.now s × (at + length (line_by self.now s) ≤ length out.old) }
        ensures { Wrote out.old at (line_by self.now s) result out.new }
    {
        let front = names::put_front(out, at, s.number);
        let value = self.put_value(out, front, s);
        copy::put(out, value, b"\r\n")
    }

    // The lines of the fields that go out. That there are at most 96 slots is said for the compiler, which then drops the test for a slot past
    // them in each turn.
    fn put_lines(&self, out: &mut [u8], from: usize) -> usize
        requires { from + length (lines_by self.now) ≤ length out.old }
        ensures { Wrote out.old from (lines_by self.now) result out.new }
    {
        let mut at = from;
        for i in 0..self.of.judged.count.min(96) {
            let s = lines::slot_at(self.of.slots, i);
            if judgement::in_set(self.sent, s.number) {
                at = self.put_line(out, at, s);
            }
        }
        at
    }

    // The start line: as it came, and then the version in capitals.
    fn put_start(&self, out: &mut [u8]) -> usize
        requires { length (start_by self.now) ≤ length out.old }
        ensures { Wrote out.old 0 (start_by self.now) result out.new }
    {
        let end = copy::value(out, 0, octets::first(self.of.message, self.of.judged.line));
        copy::put(out, self.of.judged.before, b"SIP/2.0");
        end
    }

    // The empty line and the body.
    fn put_body(&self, out: &mut [u8], at: usize) -> usize
        requires { at + length (body_by self.now) ≤ length out.old }
        ensures { Wrote out.old at (body_by self.now) result out.new }
    {
        let next = copy::put(out, at, b"\r\n");
        copy::value(
            out,
            next,
            octets::part(self.of.message, self.of.judged.rest, self.of.judged.body),
        )
    }

    // The outgoing message at the front of the buffer, which has room for it.
    pub(crate) fn write(&self, out: &mut [u8]) -> usize
        requires { length (sent_by self.now) ≤ length out.old }
        ensures { Wrote out.old 0 (sent_by self.now) result out.new }
    {
        let fields = self.put_start(out);
        let end = self.put_lines(out, fields);
        self.put_body(out, end)
    }
}
