// The parameter of a message: the screen's own refusals, 42 and 41, or the octets of its calling number.
ghost use Rattle.std.specs.Prelude.{◌≡◌};
ghost use Rattle.lines.specs.Index.{index};
ghost use Rattle.judgement.specs.Judges.{Passes};
ghost use Rattle.isup.specs.Forward.{produced};
ghost use Rattle.isup.specs.Steps.{initial_in};
ghost use Rattle.isup.specs.Views.{parameter_in};

use super::{NoParameter, Parameter, code, encode};
use judgement::Judged;

// An INVITE, which alone keeps P-Asserted-Identity, whose To has no tag.
fn is_initial(message: &[u8], slots: &[u16; 384], j: Judged) -> bool
    requires { Passes message.now slots.now j × (slots.now ≡ (index message.now).slots) × (j.count ≡ (index message.now).head.count) }
    ensures { result ≡ initial_in message.now }
{
    if !judgement::in_set(j.kept, 15) {
        return false;
    }
    let to = lines::reading_of(slots, j.count, 4, 1);
    !judgement::is_tagged(octets::part(message, to.start, to.len))
}

// Any good trunk number serves: an initial INVITE has an identity, which its calling number comes from.
pub(crate) fn produce(message: &[u8], code: &[u8], home: bool) -> Result<Parameter, NoParameter>
    ensures { parameter_in result ≡ produced message.now code.now home }
{
    let mut slots = [0u16; 384];
    let j = judgement::judge(message, &mut slots)?;
    let withheld = j.withheld;
    if !is_initial(message, &slots, j) {
        return Err(NoParameter::NoInitialInvite);
    }
    if !code::is_code(code) {
        return Err(NoParameter::BadCode);
    }
    Ok(encode::encode(
        code,
        home,
        withheld,
        gateway::calling_number(message, b"+1000000"),
    ))
}
