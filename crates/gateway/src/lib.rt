// The screen: judges a request or a response, and writes the outgoing message into the lent buffer.
#![tactic(auto)]

ghost use Rattle.std.specs.Prelude.{◌≡◌, true, ◌≤◌, cond};
ghost use Rattle.sip.specs.Readings.{calling_part, calling_number};
ghost use Rattle.sip.specs.Screen.{answer_of, calls_of, verdict, screened};
ghost use Rattle.sip.specs.Values.{is_global};
ghost use Rattle.gateway.specs.Accepted.{delivered_by};
ghost use Rattle.gateway.specs.Callers.{Calling};
ghost use Rattle.gateway.specs.CallStates.{Sides};
ghost use Rattle.gateway.specs.Verdicts.{numbers_of, numbers_by, reason_by};

use judgement::Refusal;
use message::Accepted;
use remembered::CallState;
use sip::Span;

mod copy;
mod message;
mod names;
mod output;
mod remembered;

// The verdict is a choice: accepted with its length, or refused with those numbers. The form is a rule of the project
// (docs/DECISIONS.md, the forms that are named): an enum of these two; inside, a screening is a `Result`.
#[derive(Clone, Copy)]
pub enum Verdict {
    Accepted(usize),
    Refused(Refusal),
}

impl From<Result<usize, Refusal>> for Verdict {
    ghost from_gives = { λ r v. numbers_of v ≡ numbers_by r };

    fn from(r: Result<usize, Refusal>) -> Verdict {
        match r {
            Ok(len) => Verdict::Accepted(len),
            Err(refusal) => Verdict::Refused(refusal),
        }
    }
}

// The side that a message goes to: 0 is the trusted one, and 1 the untrusted one.
#[derive(Clone, Copy)]
pub(crate) enum Side {
    Trusted,
    Untrusted,
}

// Reason 1: there is no such side.
const NO_SIDE: Refusal = Refusal {
    reason: 1,
    reply: 0,
    detail: 0,
    missing: 0,
};

impl TryFrom<u64> for Side {
    type Error = Refusal;

    ghost try_from_gives = { Sides };

    fn try_from(number: u64) -> Result<Side, Refusal> {
        match number {
            0 => Ok(Side::Trusted),
            1 => Ok(Side::Untrusted),
            _ => Err(NO_SIDE),
        }
    }
}

// Reason 16: the outgoing message needs so many bytes. To an ACK and to a response nothing is replied.
fn too_long(silent: bool, needed: usize) -> Refusal
    ensures { (result.reason ≡ 16) × (result.reply ≡ cond silent 0 500) × (result.detail ≡ needed) × (result.missing ≡ 0) }
{
    Refusal {
        reason: 16,
        reply: if silent { 0 } else { 500 },
        detail: needed as u64,
        missing: 0,
    }
}

impl Accepted<'_> {
    // Reason 16, or the outgoing message, where no other reason refuses, and the table after it. Not inline: in a smaller `screening` the compiler
    // sees that judging clears the slots, and does not clear them before too (63 instructions).
    #[inline(never)]
    fn deliver(
        &self,
        state: CallState,
        table: &mut [u8; 6208],
        out: &mut [u8],
    ) -> Result<usize, Refusal>
        ensures { (numbers_by result ≡ (delivered_by state self.now out.old table.old).answer)
            × (out.new ≡ (delivered_by state self.now out.old table.old).buffer)
            × (table.new ≡ (delivered_by state self.now out.old table.old).table) }
    {
        let outgoing = self.outgoing(state.is_masked());
        if let Some(len) = outgoing.lack(out.len()) {
            return Err(too_long(self.judged.silent, len));
        }
        // There is room, so that nothing refuses any more. The table comes first: its pair need not be kept while the message is written.
        self.change(state, table);
        Ok(outgoing.write(out))
    }
}

// Screens a request or a response: its length where it is accepted.
fn screening(
    message: &[u8],
    side: u64,
    table: &mut [u8; 6208],
    out: &mut [u8],
) -> Result<usize, Refusal>
    ensures { (numbers_by result ≡ (screened message.now side table.old out.old).answer)
        × (out.new ≡ (screened message.now side table.old out.old).buffer)
        × (table.new ≡ (screened message.now side table.old out.old).table) }
{
    let mut slots = [0u16; 384];
    let to = Side::try_from(side)?;
    let judged = judgement::judge(message, &mut slots)?;
    let accepted = Accepted {
        message,
        slots: &slots,
        judged,
    };
    let state = accepted.state_for(to, table)?;
    accepted.deliver(state, table, out)
}

// Screens a request or a response that goes to a peer on a side, with the table of the calls that are remembered: accepts it, writes the
// outgoing message and leaves the table as it is after it; or refuses it and leaves buffer and table as they were.
pub fn screen(message: &[u8], side: u64, table: &mut [u8; 6208], out: &mut [u8]) -> Verdict
    ensures { (numbers_of result ≡ (screened message.now side table.old out.old).answer)
        × (out.new ≡ (screened message.now side table.old out.old).buffer)
        × (table.new ≡ (screened message.now side table.old out.old).table) }
{
    Verdict::from(screening(message, side, table, out))
}

// Screens with room enough, and leaves the table as it is after it. No outgoing message is written. The steps up to the state are those of
// `screening`: what they make borrows the slots, so that a function for both would be lent them and hand all of it on.
fn remembering(message: &[u8], side: u64, table: &mut [u8; 6208]) -> Result<(), Refusal>
    ensures { (reason_by result ≡ (answer_of (verdict message.now side table.old)).reason) × (reason_by result ≤ 18)
        × (table.new ≡ calls_of table.old (verdict message.now side table.old)) }
{
    let mut slots = [0u16; 384];
    let to = Side::try_from(side)?;
    let judged = judgement::judge(message, &mut slots)?;
    let accepted = Accepted {
        message,
        slots: &slots,
        judged,
    };
    let state = accepted.state_for(to, table)?;
    accepted.change(state, table);
    Ok(())
}

// The reason of a screening with room enough, 0 where it accepts, and the table after it. A number, since a replay counts by it.
pub fn reason_with_room(message: &[u8], side: u64, table: &mut [u8; 6208]) -> u64
    ensures { (result ≡ (answer_of (verdict message.now side table.old)).reason) × (result ≤ 18)
        × (table.new ≡ calls_of table.old (verdict message.now side table.old)) }
{
    match remembering(message, side, table) {
        Ok(()) => 0,
        Err(refusal) => refusal.reason,
    }
}

// Where a calling number stands: a part of the trunk number, or of the message.
#[derive(Clone, Copy)]
pub enum CallingAt {
    Trunk(Span),
    Message(Span),
}

impl Accepted<'_> {
    // The calling number, where the trunk number is good: the trunk number where no identity is asserted. The judge says in which
    // P-Asserted-Identity the identity stands that it comes from, and where its number stands in the canonical value; nothing in a number is
    // folded, so it stands in the message as it is.
    fn calling(&self, trunk: &[u8]) -> CallingAt
        requires { is_global trunk.now ≡ true }
        ensures { Calling self.now.message.now trunk.now (Some result) }
    {
        let Some(caller) = self.judged.caller else {
            return CallingAt::Trunk(Span {
                start: 0,
                len: trunk.len(),
            });
        };
        let p = lines::reading_of(self.slots, self.judged.count, 15, caller.field as u64);
        let value = octets::part(self.message, p.start, p.len);
        let start = p.start + emit::unfolded_at(value, caller.start);
        CallingAt::Message(Span {
            start,
            len: caller.len,
        })
    }
}

// Where the calling number stands; nowhere where the trunk number is bad or judging refuses the message.
pub fn calling_at(message: &[u8], trunk: &[u8]) -> Option<CallingAt>
    ensures { Calling message.now trunk.now result }
{
    if !values::is_global(trunk) {
        return None;
    }
    let mut slots = [0u16; 384];
    let judged = judgement::judge(message, &mut slots).ok()?;
    let accepted = Accepted {
        message,
        slots: &slots,
        judged,
    };
    Some(accepted.calling(trunk))
}

// The calling number itself: that part.
pub fn calling_number<'a>(message: &'a [u8], trunk: &'a [u8]) -> &'a [u8]
    ensures { (result.now ≡ calling_part message.now trunk.now) × (result.now ≡ calling_number message.now trunk.now) }
{
    match calling_at(message, trunk) {
        None => b"",
        Some(CallingAt::Trunk(p)) => octets::part(trunk, p.start, p.len),
        Some(CallingAt::Message(p)) => octets::part(message, p.start, p.len),
    }
}
