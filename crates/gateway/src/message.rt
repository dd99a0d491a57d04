// An accepted message, and what of it goes out.
ghost use Rattle.std.specs.Prelude.{◌≡◌, Some};
ghost use Rattle.std.specs.Coded.{Coded-set, coded_option};
ghost use Rattle.std.specs.Result.{result_ok};
ghost use Rattle.lines.specs.Index.{index};
ghost use Rattle.judgement.specs.Judged.{judged_message};
ghost use Rattle.gateway.specs.Sent.{Goes};

use crate::output;
use judgement::Judged;

// A message that no reason but 1, 16 and 18 refuses: the message, the slots that reading it left, and what judging it told.
#[derive(Clone, Copy)]
pub(crate) struct Accepted<'a> {
    pub message: &'a [u8],
    pub slots: &'a [u16; 384],
    pub judged: Judged,
    ghost judging: { Some judged ≡ result_ok (judged_message message.now) } by { Coded-set (coded_option judged-code) (Some judged) (result_ok (judged_message message.now)) },
    ghost reading: { slots.now ≡ (index message.now).slots },
}

impl<'a> Accepted<'a> {
    // The message as it goes out. P-Asserted-Identity does not go where the caller is masked.
    pub fn outgoing<'m>(&'m self, masked: bool) -> Outgoing<'m, 'a>
        ensures { (result.of.now ≡ self.now) × (result.masked ≡ masked) }
    {
        let sent = output::sent_set(self.judged.kept, masked);
        Outgoing {
            of: self,
            masked,
            sent,
        }
    }
}

// An accepted message as it goes out, with its caller masked or not, and the set of the fields that go.
#[derive(Clone, Copy)]
pub(crate) struct Outgoing<'m, 'a> {
    pub of: &'m Accepted<'a>,
    pub masked: bool,
    pub sent: u32,
    ghost goes: { Goes masked of.now.judged.kept sent },
}
