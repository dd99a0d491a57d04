// What the reasons of both kinds of message share: the numbers of a refusal, the reasons 9 to 12, and the answer.
ghost use Rattle.std.specs.Prelude.{◌≡◌, ◌-◌, length};
ghost use Rattle.sip.specs.Refusals.{first_of};
ghost use Rattle.lines.specs.Index.{read_head};
ghost use Rattle.judgement.specs.Sets.{has};
ghost use Rattle.judgement.specs.Judged.{body_length, is_too_long, shared, bare, bare_refused, checked, silenced, found_by, judged_from};

use crate::read::Read;
use crate::{Judged, Refusal, Refused, Tally, sets};
use sip::{Column, Span};

impl Refusal {
    // A refusal that says no more than its reason and its reply.
    pub(crate) fn bare(reason: u64, reply: u64) -> Refusal
        ensures { result ≡ bare reason reply }
    {
        Refusal {
            reason,
            reply,
            detail: 0,
            missing: 0,
        }
    }

    // And which field or which tag it is about.
    pub(crate) fn about(reason: u64, reply: u64, detail: usize) -> Refusal
        ensures { result ≡ record { reason = reason; reply = reply; detail = detail; missing = 0 } }
    {
        Refusal {
            reason,
            reply,
            detail: detail as u64,
            missing: 0,
        }
    }

    // To an ACK and to a response nothing is replied.
    pub(crate) fn silenced(self, silent: bool) -> Refusal
        ensures { result ≡ silenced silent self }
    {
        if silent {
            Refusal { reply: 0, ..self }
        } else {
            self
        }
    }
}

// Before the kept fields of a message are looked at.
const NOTHING_FOUND: Judged = Judged {
    silent: false,
    before: 0,
    line: 0,
    rest: 0,
    count: 0,
    kept: 0,
    hops: 0,
    body: 0,
    withheld: false,
    tag: Span { start: 0, len: 0 },
    caller: None,
};

impl Refused {
    // Refused before that, for this reason and with this reply.
    pub(crate) fn bare(reason: u64, reply: u64) -> Refused
        ensures { result ≡ bare_refused reason reply }
    {
        Refused {
            refusal: Refusal::bare(reason, reply),
            found: NOTHING_FOUND,
        }
    }
}

// The length of the body after cutting.
fn body_of(t: Tally, rest: usize) -> usize
    ensures { result ≡ body_length t rest }
{
    if sets::in_set(t.seen, 8) {
        t.length
    } else {
        rest
    }
}

fn exceeds(t: Tally, rest: usize) -> bool
    ensures { result ≡ is_too_long t rest }
{
    sets::in_set(t.seen, 8) && rest < t.length
}

// Reasons 9 to 12.
pub(crate) fn shared(c: Column, t: Tally, rest: usize) -> Result<(), Refusal>
    ensures { result ≡ checked (first_of (shared c t rest)) }
{
    if t.again != 0 {
        return Err(Refusal::about(9, 400, t.again));
    }
    if t.malformed != 0 {
        return Err(Refusal::about(10, 400, t.malformed));
    }
    if exceeds(t, rest) {
        return Err(Refusal::bare(11, 400));
    }
    match sets::lack_of(c, body_of(t, rest) == 0, t.seen) {
        Some(lack) => Err(Refusal {
            reason: 12,
            reply: 400,
            detail: lack.lowest,
            missing: lack.count,
        }),
        None => Ok(()),
    }
}

// What is found of a message, by what its kept fields say. Inline, so that it is put where the answer goes: the call takes 1% less.
#[inline(always)]
fn found(read: &Read, silent: bool, before: usize, kept: u32, t: Tally) -> Judged
    ensures { result ≡ found_by (read_head read.now.head) silent before kept t (length read.now.message.now - read.now.head.rest) }
{
    Judged {
        silent,
        before,
        line: read.head.line,
        rest: read.head.rest,
        count: read.head.count,
        kept,
        hops: t.hops,
        body: body_of(t, read.rest()),
        withheld: t.withheld != 0,
        tag: t.tag,
        caller: t.caller,
    }
}

// The answer, by whether a reason applies and by what the kept fields say.
pub(crate) fn judged(
    read: &Read,
    silent: bool,
    before: usize,
    kept: u32,
    reasons: Result<(), Refusal>,
    t: Tally,
) -> Result<Judged, Refused>
    ensures { result ≡ judged_from (read_head read.now.head) silent before kept reasons t (length read.now.message.now - read.now.head.rest) }
{
    match reasons {
        Ok(()) => Ok(found(read, silent, before, kept, t)),
        Err(r) => Err(Refused {
            refusal: r.silenced(silent),
            found: found(read, silent, before, kept, t),
        }),
    }
}
