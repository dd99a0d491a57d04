// What a gateway in C or Rust calls: numbers and byte slices only. A slice is a pointer and a length on the C side.
#![tactic(auto)]

ghost use Rattle.std.specs.Prelude.{◌≡◌, ◌+◌, ◌≤◌, length};
ghost use Rattle.causes.specs.Causes.{status, cause};
ghost use Rattle.sip.specs.Readings.{count, reading_at};
ghost use Rattle.sip.specs.Calls.{removed, ending};
ghost use Rattle.sip.specs.Screen.{screened};
ghost use Rattle.calls.specs.Places.{pair};
ghost use Rattle.emit.specs.Put.{Wrote};
ghost use Rattle.records.specs.Records.{recording};
ghost use Rattle.records.specs.Report.{printed};
ghost use Rattle.records.specs.Running.{finished, taken, counts_report};
ghost use Rattle.mishkolar.specs.Numbers.{Screens, Calls, replay_of, Counted};

use calls::Pair;
use causes::{CauseAnswer, StatusAnswer};
use gateway::{CallingAt, Verdict};
use records::Replay;

#[unsafe(no_mangle)]
pub extern "C" fn mishkolar_screen(
    message: &[u8],
    side: u64,
    calls: &mut [u8; 6208],
    out: &mut [u8],
    reason: &mut u64,
    reply: &mut u64,
    detail: &mut u64,
    missing: &mut u64,
) -> usize
    ensures { Screens (screened message.now side calls.old out.old) reason.new reply.new detail.new missing.new result out.new calls.new }
{
    match gateway::screen(message, side, calls, out) {
        Verdict::Accepted(len) => {
            *reason = 0;
            *reply = 0;
            *detail = 0;
            *missing = 0;
            len
        }
        Verdict::Refused(r) => {
            *reason = r.reason;
            *reply = r.reply;
            *detail = r.detail;
            *missing = r.missing;
            0
        }
    }
}

#[unsafe(no_mangle)]
pub extern "C" fn mishkolar_end_call(calls: &mut [u8; 6208], call_id: &[u8], tag: &[u8]) -> u64
    ensures { (result ≡ ending (pair call_id.now tag.now) calls.old) × (calls.new ≡ removed (pair call_id.now tag.now) calls.old) }
{
    match calls::end(calls, Pair { call_id, tag }) {
        Ok(()) => 0,
        Err(e) => e.refusal(),
    }
}

#[unsafe(no_mangle)]
pub extern "C" fn mishkolar_count(message: &[u8], field: u64) -> usize
    ensures { result ≡ count message.now field }
{
    lines::count(message, field)
}

#[unsafe(no_mangle)]
pub extern "C" fn mishkolar_reading(
    message: &[u8],
    field: u64,
    place: u64,
    start: &mut usize,
) -> usize
    ensures { (result ≡ (reading_at message.now field place).len) × (start.new ≡ (reading_at message.now field place).start) × (start.new + result ≤ length message.now) }
{
    let p = lines::reading_at(message, field, place);
    *start = p.start;
    p.len
}

#[unsafe(no_mangle)]
pub extern "C" fn mishkolar_status_of_cause(value: u64, row: &mut u64, refusal: &mut u64) -> u64
    ensures { (result ≡ (status value).status) × (row.new ≡ (status value).row) × (refusal.new ≡ (status value).refusal) }
{
    let answer = StatusAnswer::from(causes::status_of_cause(value));
    *row = answer.row;
    *refusal = answer.refusal;
    answer.status
}

#[unsafe(no_mangle)]
pub extern "C" fn mishkolar_cause_of_status(code: u64, refusal: &mut u64) -> u64
    ensures { (result ≡ (cause code).cause) × (refusal.new ≡ (cause code).refusal) }
{
    let answer = CauseAnswer::from(causes::cause_of_status(code));
    *refusal = answer.refusal;
    answer.cause
}

#[unsafe(no_mangle)]
pub extern "C" fn mishkolar_calling_number(
    message: &[u8],
    trunk: &[u8],
    start: &mut usize,
    from_trunk: &mut u64,
) -> usize
    ensures { Calls message.now trunk.now result start.new from_trunk.new }
{
    match gateway::calling_at(message, trunk) {
        None => {
            (*start, *from_trunk) = (0, 0);
            0
        }
        Some(CallingAt::Trunk(p)) => {
            (*start, *from_trunk) = (p.start, 1);
            p.len
        }
        Some(CallingAt::Message(p)) => {
            (*start, *from_trunk) = (p.start, 0);
            p.len
        }
    }
}

#[unsafe(no_mangle)]
pub extern "C" fn mishkolar_take_record(
    counts: &mut [u32; 60],
    read: &mut u64,
    end: &mut u64,
    calls: &mut [u8; 6208],
    side: u64,
    message: &[u8],
)
    ensures { replay_of counts.new read.new end.new calls.new ≡ taken (replay_of counts.old read.old end.old calls.old) side message.now }
{
    // C holds the three numbers of a replay apart.
    let before = Replay {
        counts: *counts,
        read: *read,
        end: *end,
    };
    let after = records::take_record(before, calls, side, message);
    let counted = after.counts;
    *counts = counted;
    *read = after.read;
    *end = after.end;
}

#[unsafe(no_mangle)]
pub extern "C" fn mishkolar_replay(
    text: &[u8],
    counts: &mut [u32; 60],
    read: &mut u64,
    end: &mut u64,
)
    ensures { Counted counts.new read.new end.new (finished (recording text.now)) }
{
    let whole = records::replay_text(text);
    let counted = whole.counts;
    *counts = counted;
    *read = whole.read;
    *end = whole.end;
}

#[unsafe(no_mangle)]
pub extern "C" fn mishkolar_report(counts: &[u32; 60], read: u64, end: u64, out: &mut [u8]) -> usize
    ensures { Wrote out.old 0 (printed (counts_report counts.now read end)) result out.new }
{
    let st = Replay {
        counts: *counts,
        read,
        end,
    };
    records::put_report(out, st)
}
