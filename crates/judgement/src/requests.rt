// The reasons of a request, first that applies: 6 to 15.
ghost use Rattle.std.specs.Prelude.{◌≡◌, ◌+◌, ◌-◌, ◌^◌, ◌<◌, length, take, drop};
ghost use Rattle.octets.specs.Classes.{text};
ghost use Rattle.octets.specs.Scans.{same};
ghost use Rattle.sip.specs.Refusals.{first_of};
ghost use Rattle.values.specs.Answers.{request_uri};
ghost use Rattle.lines.specs.Index.{read_head, method_of};
ghost use Rattle.lines.specs.declared.StartLine.{StartLine};
ghost use Rattle.judgement.specs.Judged.{hopless, column_tagged, early, late, decided, checked, request_by, request_lines};

use crate::read::Read;
use crate::{Judged, Refusal, Refused, Tally, columns, refusals, sets};
use lines::StartLine;
use sip::Column;
use values::RequestUri;

// Max-Forwards is there, and is 0.
fn is_hopless(t: Tally) -> bool
    ensures { result ≡ hopless t }
{
    sets::in_set(t.seen, 2) && t.hops == 0
}

// Reasons 7 and 8.
fn early(u: RequestUri) -> Result<(), Refusal>
    ensures { result ≡ checked (first_of (early u)) }
{
    if u.other {
        return Err(Refusal::bare(7, 416));
    }
    if !u.good {
        return Err(Refusal::bare(8, 400));
    }
    Ok(())
}

// The column of a request whose To has a tag or not.
fn tagged_column(c: Column, tagged: bool) -> Column
    ensures { result ≡ column_tagged c tagged }
{
    match c {
        Column::Invite => if tagged {
            Column::Reinvite
        } else {
            Column::Invite
        },
        _ => c,
    }
}

// Reasons 13 to 15.
fn late(c: Column, t: Tally, u: RequestUri) -> Result<(), Refusal>
    ensures { result ≡ checked (first_of (late c t u)) }
{
    if is_hopless(t) {
        return Err(Refusal::bare(13, 483));
    }
    if t.lacking != 0 {
        return Err(Refusal::about(14, 420, t.lacking));
    }
    if matches!(c, Column::Invite) && !u.called {
        return Err(Refusal::bare(15, 484));
    }
    Ok(())
}

// Beside `is_method` it says the name as the definitions do.
fn is_ack(method: &[u8]) -> bool
    ensures { result ≡ same (text "ACK") method.now }
{
    octets::same(b"ACK", method)
}

fn decide(c: Column, t: Tally, u: RequestUri, rest: usize) -> Result<(), Refusal>
    ensures { result ≡ checked (first_of (decided c t u rest)) }
{
    early(u)?;
    let column = tagged_column(c, t.tagged != 0);
    refusals::shared(column, t, rest)?;
    late(column, t, u)
}

// What the Request-URI of the start line is, by the lengths of its method and its Request-URI.
fn request_uri(read: &Read, size: usize, uri: usize) -> RequestUri
    requires { size < 2 ^ 32 }
    ensures { result ≡ request_uri (take uri (drop (size + 1) read.now.message.now)) }
{
    values::request_uri(octets::part(read.message, size + 1, uri))
}

// A request of that column, by what its kept fields say and by the lengths of its method and its Request-URI.
pub(crate) fn answer(
    read: &Read,
    method: &[u8],
    size: usize,
    uri: usize,
    c: Column,
    t: Tally,
) -> Result<Judged, Refused>
    requires { read.now.head.start ≡ StartLine.Request size uri }
    ensures { result
        ≡ request_by (read_head read.now.head) c method.now (request_uri (take uri (drop (size + 1) read.now.message.now))) t
        (length read.now.message.now - read.now.head.rest) }
{
    let reasons = decide(c, t, request_uri(read, size, uri), read.rest());
    let before = size + 1 + uri + 1;
    refusals::judged(read, is_ack(method), before, sets::kept_set(c), reasons, t)
}

// A request by its lines and slots and the length of its method.
pub(crate) fn judge_request(read: &Read, size: usize) -> Result<Judged, Refused>
    requires { size ≡ method_of read.now.head.start }
    ensures { result ≡ request_lines read.now.message.now read.now.slots.now (read_head read.now.head) }
{
    let method = octets::first(read.message, size);
    match sets::column_of(method) {
        None => Err(Refused::bare(6, 405)),
        Some(c) => columns::judge(read, method, c),
    }
}
