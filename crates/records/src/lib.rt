// The records of what was screened: replays them and counts what came in each group, and with which reasons.
#![tactic(auto)]

ghost use Rattle.std.specs.Prelude.{◌≡◌, [], ◌+◌, ◌<◌, get_or, set};
ghost use Rattle.emit.specs.Put.{Wrote};
ghost use Rattle.lines.specs.Finds.{field_named};
ghost use Rattle.octets.specs.Classes.{text, within};
ghost use Rattle.records.specs.Records.{recording};
ghost use Rattle.sip.specs.Calls.{none_held};
ghost use Rattle.records.specs.History.{outcome_of, calls_left};
ghost use Rattle.records.specs.Report.{printed};
ghost use Rattle.records.specs.Running.{state_of, numbers_in, place_of, after, finished, one_more, taken, stepped, counts_report};
ghost use Rattle.records.specs.Pieces.{wanted};
ghost use Rattle.records.specs.Kinds.{group_number, group_by, end_number};

use group::Group;
use record::End;
use report::Report;

mod group;
mod record;
mod report;

// What is carried from record to record: 20 counts for each group, by the reason, 0 for accepted; how many records were read; and how the text
// ended, 0 while it goes on. Plain numbers, as C keeps them and hands them back, `end` with any value (mishkolar_take_record, mishkolar_report); the
// table of calls, which C lends, stays beside it.
#[derive(Drop)]
pub struct Replay {
    pub counts: [u32; 60],
    pub read: u64,
    pub end: u64,
}

// Nothing was read yet. The table of calls that goes with it is all zeros: none is held.
pub fn start() -> Replay
    ensures { state_of result none_held ≡ after [] }
{
    Replay {
        counts: [0; 60],
        read: 0,
        end: 0,
    }
}

// The text ends so.
fn end_with(st: Replay, end: End) -> Replay
    ensures { (result.counts ≡ st.counts) × (result.read ≡ st.read) × (result.end ≡ end_number end) }
{
    Replay {
        end: end.number(),
        ..st
    }
}

// Reasons 1 to 5: the message was not read.
fn is_unread(reason: usize) -> bool
    ensures { result ≡ within 1 5 reason }
{
    (1..=5).contains(&reason)
}

// The group of a message, by its reason.
fn group_of(message: &[u8], reason: usize) -> Group
    ensures { group_number result ≡ group_by reason (field_named message.now (text "X-Relay-Mode")) }
{
    if is_unread(reason) {
        return Group::Unread;
    }
    if lines::has_field(message, b"X-Relay-Mode") {
        return Group::Relay;
    }
    Group::Other
}

// Which count a message adds to, and the table of calls after it. With room enough nothing that is judged good is refused for room, so that
// nothing needs to be written.
fn place_of(message: &[u8], side: u64, calls: &mut [u8; 6208]) -> usize
    ensures { (result ≡ place_of (outcome_of message.now side calls.old)) × (result < 60)
        × (calls.new ≡ calls_left message.now side calls.old) }
{
    let reason = gateway::reason_with_room(message, side, calls) as usize;
    group_of(message, reason).first() + reason
}

// One record more, counted at a place. A count that is full stays.
#[tactic(auto, unfolding(crate::specs::Running::one_more))]
fn count(mut st: Replay, at: usize) -> Replay
    requires { (at < 60) × (st.read < 1000000) }
    ensures { (result.counts ≡ set st.counts at (one_more (get_or st.counts at 0))) × (result.read ≡ st.read + 1) × (result.end ≡ st.end) }
{
    st.counts[at] = st.counts[at].saturating_add(1);
    st.read += 1;
    st
}

// Screens the message of a whole record with the table of calls that the records before it left, and counts it. Refusal 33 where a million
// were read before it; after the end nothing changes.
pub fn take_record(st: Replay, calls: &mut [u8; 6208], side: u64, message: &[u8]) -> Replay
    ensures { state_of result calls.new ≡ taken (state_of st calls.old) side message.now }
{
    if st.end != 0 {
        return st;
    }
    if 1000000 <= st.read {
        return end_with(st, End::TooMany);
    }
    let at = place_of(message, side, calls);
    count(st, at)
}

// How many bytes are to be read after the first five of a record, or after as many of them as there are.
pub fn wanted(s: &[u8]) -> usize
    ensures { (result ≡ wanted s.now) × (result < 65536) }
{
    if s.len() < 5 {
        return 0;
    }
    if !record::is_marked(s) {
        return 0;
    }
    record::message_len(s)
}

// The text goes on with these bytes: takes the whole record at their front, or tells how the text ends. What follows that record is not
// looked at: one record at a time is handed over. No bytes change nothing, nor do any after the end.
pub fn step(st: Replay, calls: &mut [u8; 6208], s: &[u8]) -> Replay
    ensures { state_of result calls.new ≡ stepped (state_of st calls.old) s.now }
{
    if st.end != 0 {
        return st;
    }
    if s.is_empty() {
        return st;
    }
    match record::read(s) {
        Ok(r) => take_record(st, calls, r.side, r.message),
        Err(end) => end_with(st, end),
    }
}

// Replays a text whole, with none held before it.
pub fn replay_text(text: &[u8]) -> Replay
    ensures { result ≡ numbers_in (finished (recording text.now)) }
{
    let mut calls = [0u8; 6208];
    let mut st = start();
    let mut left = text;
    while !left.is_empty() {
        st = step(st, &mut calls, left);
        if st.end != 0 {
            return st;
        }
        left = octets::rest(left, record::len(left));
    }
    st
}

// Writes the report's text to the front of the buffer and returns its length. 4,096 bytes are enough; where there is too little room
// nothing is written, and 0 is returned.
pub fn put_report(out: &mut [u8], st: Replay) -> usize
    ensures { Wrote out.old 0 (printed (counts_report st.counts st.read st.end)) result out.new }
{
    let mut text = Report::new();
    report::push_all(&mut text, &st.counts, st.read, st.end);
    text.put(out, 0)
}
