// The box for the old exchange: the calling party number parameter of ITU-T Q.763 from an initial INVITE, and back.
#![tactic(auto)]

ghost use Rattle.std.specs.Prelude.{◌≡◌};
ghost use Rattle.isup.specs.Forward.{produced};
ghost use Rattle.isup.specs.Backward.{decoded, status_for};
ghost use Rattle.isup.specs.declared.NoParameter.TheVariants.{Screen};
ghost use Rattle.isup.specs.Views.{refusal_number, screens_refusal, parameter_in, caller_in, status_in};

pub use bytes::ShortBytes;
use judgement::{Refusal, Refused};

mod backward;
mod bytes;
mod code;
mod encode;
mod fields;
mod forward;

// The octets of a parameter, those of its name and length left out.
pub type Parameter = ShortBytes<10>;

// A number with its `+`.
pub type Number = ShortBytes<16>;

// Why a message gives no parameter.
#[derive(Clone, Copy)]
pub enum NoParameter {
    // The screen's own refusal.
    Screen(Refusal),
    NoInitialInvite,
    BadCode,
}

impl NoParameter {
    // The numbers of the refusal; those of the box itself say no more than which it is.
    pub fn refusal(self) -> Refusal
        ensures { result ≡ screens_refusal self }
    {
        let reason = match self {
            NoParameter::Screen(own) => return own,
            NoParameter::NoInitialInvite => 42,
            NoParameter::BadCode => 41,
        };
        Refusal {
            reason,
            reply: 0,
            detail: 0,
            missing: 0,
        }
    }
}

impl From<Refusal> for NoParameter {
    ghost from_gives = { λ refusal why. why ≡ Screen refusal };

    fn from(refusal: Refusal) -> NoParameter {
        NoParameter::Screen(refusal)
    }
}

// What a refused message says otherwise is not asked for.
impl From<Refused> for NoParameter {
    ghost from_gives = { λ refused why. why ≡ Screen refused.refusal };

    fn from(refused: Refused) -> NoParameter {
        NoParameter::from(refused.refusal)
    }
}

// What a parameter gives: whether a Privacy `id` goes with the number, and the number.
#[derive(Clone, Copy)]
pub struct Caller {
    pub id: bool,
    pub number: Number,
}

// Why a parameter gives no caller: a bad country code, octets cut short, a field outside those that are named, a filler that is not zero, a digit
// code over 9, no number of the profile.
#[derive(Clone, Copy, Debug, PartialEq, Eq)]
pub enum NoCaller {
    BadCode,
    CutShort,
    Field,
    Filler,
    Digit,
    Number,
}

impl NoCaller {
    // Its number, by a method as in the other crates whose errors have one.
    pub fn refusal(self) -> u64
        ensures { result ≡ refusal_number self }
    {
        match self {
            NoCaller::BadCode => 41,
            NoCaller::CutShort => 43,
            NoCaller::Field => 44,
            NoCaller::Filler => 45,
            NoCaller::Digit => 46,
            NoCaller::Number => 47,
        }
    }
}

// The parameter of an initial INVITE that the screen accepts, with a country code and whether the next node is at home.
pub fn parameter_of(message: &[u8], code: &[u8], home: bool) -> Result<Parameter, NoParameter>
    ensures { parameter_in result ≡ produced message.now code.now home }
{
    forward::produce(message, code, home)
}

// The number that a parameter gives, with the same country code.
pub fn caller_of(bytes: &[u8], code: &[u8]) -> Result<Caller, NoCaller>
    ensures { caller_in result ≡ decoded code.now bytes.now }
{
    backward::decode(code, bytes)
}

// The status of a reply for a cause from the trunk.
#[tactic(auto, unfolding(crate::specs::Backward::status_for))]
pub fn status_of(cause: u64) -> Result<u64, causes::Refusal>
    ensures { status_in result ≡ status_for cause }
{
    let answer = causes::status_of_cause(cause)?;
    Ok(answer.status)
}
