// The reasons of a response, first that applies: 17, 6, and 9 to 12. Nothing is ever replied to one.
ghost use Rattle.std.specs.Prelude.{◌≡◌, cond, ◌-◌, ◌≤◌, length};
ghost use Rattle.octets.specs.Classes.{within};
ghost use Rattle.sip.specs.declared.Column.TheVariants.{InviteSuccess, OtherResponse};
ghost use Rattle.sip.specs.Values.{cseq_method};
ghost use Rattle.lines.specs.Index.{read_head};
ghost use Rattle.judgement.specs.Entries.{unfolded_by};
ghost use Rattle.judgement.specs.Judged.{response_by, known_status, status_at, response_to, response_lines};

use crate::read::Read;
use crate::{Judged, Refused, Tally, columns, refusals, sets, tallies};
use sip::Column;

// The three digits after the version, where they are a status.
fn status_of(message: &[u8]) -> Option<u64>
    ensures { result ≡ known_status (status_at message.now) }
{
    let digits = octets::number(octets::part(message, 8, 3), 3, 999)?;
    let status = digits.value;
    if 100 <= status && status <= 699 {
        Some(status)
    } else {
        None
    }
}

// The column of a response to an INVITE.
fn invite_column(status: u64) -> Column
    ensures { result ≡ cond (within 200 299 status) InviteSuccess OtherResponse }
{
    if 200 <= status && status <= 299 {
        Column::InviteSuccess
    } else {
        Column::OtherResponse
    }
}

// A response of that column, by what its kept fields say.
pub(crate) fn answer(read: &Read, c: Column, t: Tally) -> Result<Judged, Refused>
    ensures { result ≡ response_by (read_head read.now.head) c t (length read.now.message.now - read.now.head.rest) }
{
    let reasons = refusals::shared(c, t, read.rest());
    refusals::judged(read, true, 0, sets::kept_set(c), reasons, t)
}

// A response of that status whose first CSeq has this value, folded or not.
fn judge_status(read: &Read, status: u64, v: &[u8], fold: bool) -> Result<Judged, Refused>
    requires { length v.now ≤ 8192 }
    ensures { result ≡ response_to read.now.message.now read.now.slots.now (read_head read.now.head) status (cseq_method (unfolded_by fold v.now)) }
{
    if tallies::is_cseq(b"INVITE", v, fold) {
        return columns::judge(read, b"INVITE", invite_column(status));
    }
    if tallies::is_cseq(b"BYE", v, fold) {
        return columns::judge(read, b"BYE", Column::OtherResponse);
    }
    if tallies::is_cseq(b"CANCEL", v, fold) {
        return columns::judge(read, b"CANCEL", Column::CancelResponse);
    }
    if tallies::is_cseq(b"OPTIONS", v, fold) {
        return columns::judge(read, b"OPTIONS", Column::OtherResponse);
    }
    Err(Refused::bare(6, 0))
}

// A response by its lines and slots.
pub(crate) fn judge_response(read: &Read) -> Result<Judged, Refused>
    ensures { result ≡ response_lines read.now.message.now read.now.slots.now (read_head read.now.head) }
{
    let Some(status) = status_of(read.message) else {
        return Err(Refused::bare(17, 0));
    };
    let Some(s) = crate::first_slot(read.slots, read.head.count, 6) else {
        return Err(Refused::bare(6, 0));
    };
    judge_status(read, status, tallies::value_of(read.message, s), s.folded)
}
