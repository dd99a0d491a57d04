// A pair, and a place of the table that says one. A place has 194 bytes: the length of the Call-ID, 128 bytes for it, the length of the tag,
// 64 bytes for it.
ghost use Rattle.std.specs.Prelude.{◌≡◌, ◌≤◌, length};
ghost use Rattle.sip.specs.Calls.{is_tag_value, is_pair, same_pair, stored, place_with};
ghost use Rattle.sip.specs.Values.{is_call_id};
ghost use Rattle.calls.specs.Places.{said, says};

use crate::text;

pub(crate) type Place = [u8; 194];

// A Call-ID and a From tag, well formed or not.
#[derive(Clone, Copy)]
pub struct Pair<'a> {
    pub call_id: &'a [u8],
    pub tag: &'a [u8],
}

// Of its own, since the table of calls does not stand on the readers of values: by blocks, where theirs goes by bytes.
#[tactic(auto, unfolding(sip::specs::Values::is_call_id))]
fn is_call_id(s: &[u8]) -> bool
    ensures { result ≡ is_call_id s.now }
{
    1 <= s.len() && s.len() <= 128 && text::is_visible(s)
}

#[tactic(auto, unfolding(sip::specs::Calls::is_tag_value))]
fn is_tag(s: &[u8]) -> bool
    ensures { result ≡ is_tag_value s.now }
{
    1 <= s.len() && s.len() <= 64 && text::is_all(octets::Class::Token, s)
}

impl<'a> Pair<'a> {
    // What a place says.
    #[tactic(auto, unfolding(sip::specs::Calls::stored))]
    pub(crate) fn stored(place: &'a Place) -> Pair<'a>
        ensures { said result ≡ stored place.now }
    {
        Pair {
            call_id: octets::part(place, 1, usize::from(place[0])),
            tag: octets::part(place, 130, usize::from(place[129])),
        }
    }

    // The bytes of both are the same.
    #[inline(always)]
    #[tactic(auto, using(crate::proofs::Texts::texts_same), unfolding(sip::specs::Calls::same_pair))]
    fn is_same(self, other: Pair) -> bool
        ensures { result ≡ same_pair (said self.entry) (said other.entry) }
    {
        self.call_id == other.call_id && self.tag == other.tag
    }

    // The place says the pair.
    #[inline(always)]
    #[tactic(auto, unfolding(crate::specs::Places::says))]
    pub(crate) fn is_at(self, place: &Place) -> bool
        ensures { result ≡ says (said self.entry) place.now }
    {
        usize::from(place[0]) == self.call_id.len()
            && usize::from(place[129]) == self.tag.len()
            && self.is_same(Pair::stored(place))
    }

    // Both have the form of the message's.
    #[tactic(auto, unfolding(sip::specs::Calls::is_pair))]
    pub(crate) fn is_formed(self) -> bool
        ensures { result ≡ is_pair (said self.entry) }
    {
        is_call_id(self.call_id) && is_tag(self.tag)
    }

    // The bytes of a place that holds the pair. By `put`: `copy_from_slice` into parts of the array is no shorter, and its proof did not close.
    pub(crate) fn place(self) -> Place
        requires call_id { length self.call_id.now ≤ 128 }
        requires tag { length self.tag.now ≤ 64 }
        ensures { result ≡ place_with (said self.entry) }
    {
        let mut place = [0; 194];
        place[0] = self.call_id.len() as u8;
        emit::put(&mut place, 1, self.call_id);
        place[129] = self.tag.len() as u8;
        emit::put(&mut place, 130, self.tag);
        place
    }
}
