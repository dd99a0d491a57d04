// What the table of calls says of an accepted message, and what the message leaves in it.
ghost use Rattle.std.specs.Prelude.{◌≡◌};
ghost use Rattle.calls.specs.Places.{said};
ghost use Rattle.gateway.specs.CallStates.{masked_by};

use crate::message::Accepted;
use crate::{Side, output};
use calls::Pair;
use judgement::Refusal;

// What the table of calls says of an accepted message. Shown: nothing, and it goes out as it is. Hidden: its pair is held. Ending: its pair is
// held, and it is a BYE. New: its caller is withheld and its pair is not held; it is entered at this place.
#[derive(Clone, Copy)]
pub(crate) enum CallState {
    Shown,
    Hidden,
    Ending,
    New(usize),
}

impl CallState {
    // The caller is masked.
    pub fn is_masked(self) -> bool
        ensures { result ≡ masked_by self }
    {
        !matches!(self, CallState::Shown)
    }
}

// Reason 18: there is no place for a withheld caller.
const TOO_MANY: Refusal = Refusal {
    reason: 18,
    reply: 503,
    detail: 0,
    missing: 0,
};

impl<'a> Accepted<'a> {
    ghost use Rattle.gateway.specs.Accepted.{pair_of, known_of, state_of, state_to, changed};

    // The Call-ID. Nothing in it is folded, so that it stands in the message as it is.
    fn call_id(&self) -> &'a [u8]
        ensures { result.now ≡ (pair_of self.now).call_id }
    {
        match judgement::first_slot(self.slots, self.judged.count, 5) {
            Some(s) => octets::part(self.message, s.start, s.len),
            None => b"",
        }
    }

    // The tag of From, which is a part of its canonical value. Nothing in it is folded either.
    fn from_tag(&self) -> &'a [u8]
        ensures { result.now ≡ (pair_of self.now).tag }
    {
        match judgement::first_slot(self.slots, self.judged.count, 3) {
            Some(s) => {
                let v = octets::part(self.message, s.start, s.len);
                output::tag_of(v, s.folded, self.judged.tag)
            }
            None => b"",
        }
    }

    // The pair that names its call.
    fn pair(&self) -> Pair<'a>
        ensures { said result ≡ pair_of self.now }
    {
        Pair {
            call_id: self.call_id(),
            tag: self.from_tag(),
        }
    }

    // Of a request whose pair is held: a BYE ends it. A method is followed by a space.
    fn known(&self) -> CallState
        ensures { result ≡ known_of self.now }
    {
        if octets::same(b"BYE ", octets::first(self.message, 4)) {
            return CallState::Ending;
        }
        CallState::Hidden
    }

    // Of a request for which the table is asked.
    #[tactic(auto, unfolding(crate::specs::CallStates::state_in, crate::specs::CallStates::new_state))]
    fn state_in(&self, table: &[u8; 6208]) -> Result<CallState, Refusal>
        ensures { result ≡ state_of self.now table.now }
    {
        if calls::is_held(table, self.pair()) {
            return Ok(self.known());
        }
        if !self.judged.withheld {
            return Ok(CallState::Shown);
        }
        match calls::new_place(table) {
            Some(place) => Ok(CallState::New(place)),
            None => Err(TOO_MANY),
        }
    }

    // Of any accepted message. The table is asked for a request to the untrusted side; of a response no byte stands before the version.
    pub fn state_for(&self, side: Side, table: &[u8; 6208]) -> Result<CallState, Refusal>
        ensures { result ≡ state_to side self.now table.now }
    {
        match side {
            Side::Untrusted if 0 < self.judged.before => self.state_in(table),
            _ => Ok(CallState::Shown),
        }
    }

    // Enters or removes the pair.
    pub fn change(&self, state: CallState, table: &mut [u8; 6208])
        ensures { table.new ≡ changed state self.now table.old }
    {
        match state {
            CallState::Shown | CallState::Hidden => {}
            CallState::Ending => calls::remove(table, self.pair()),
            CallState::New(place) => calls::place(table, place, self.pair()),
        }
    }
}
