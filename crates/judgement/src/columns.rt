// A message whose column and method are known. Its fields are tallied at this one place, whatever its kind.
ghost use Rattle.std.specs.Prelude.{◌≡◌};
ghost use Rattle.lines.specs.Index.{read_head};
ghost use Rattle.judgement.specs.Judged.{judged_by};

use crate::read::Read;
use crate::{Judged, Refused, requests, responses, sets, tallies};
use lines::StartLine;
use sip::Column;

// By the kind, as in `judge_read`.
pub(crate) fn judge(read: &Read, method: &[u8], c: Column) -> Result<Judged, Refused>
    ensures { result ≡ judged_by read.now.message.now read.now.slots.now (read_head read.now.head) c method.now }
{
    let t = tallies::tally(read, method, sets::kept_set(c));
    match read.head.start {
        StartLine::Status { .. } => responses::answer(read, c, t),
        StartLine::Request { method: size, uri } => requests::answer(read, method, size, uri, c, t),
    }
}
