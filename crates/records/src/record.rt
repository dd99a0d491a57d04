// The record at the front of a text: mark, side, length and message.
ghost use Rattle.std.specs.Prelude.{◌≡◌, ◌<◌, IfOk};
ghost use Rattle.records.specs.Records.{marked, message_size, record_size, record_at, refusal_at};
ghost use Rattle.records.specs.Kinds.{end_number, refusal_in};

// How a text ends where it does not just end.
#[derive(Clone, Copy)]
pub(crate) enum End {
    BadMark,
    CutShort,
    TooMany,
}

impl End {
    // As the report has it.
    pub(crate) fn number(self) -> u64
        ensures { result ≡ end_number self }
    {
        match self {
            End::BadMark => 31,
            End::CutShort => 32,
            End::TooMany => 33,
        }
    }
}

#[derive(Clone, Copy)]
pub(crate) struct Record<'a> {
    pub side: u64,
    pub message: &'a [u8],
}

// The mark 53 4E stands at the front, as far as the text goes.
pub(crate) fn is_marked(s: &[u8]) -> bool
    ensures { result ≡ marked s.now }
{
    octets::same(octets::first(b"SN", s.len()), octets::first(s, 2))
}

// How many bytes the message has: the high byte of its length stands first. A byte past the end is 0.
pub(crate) fn message_len(s: &[u8]) -> usize
    ensures { (result ≡ message_size s.now) × (result < 65536) }
{
    let high = s.get(3).copied().unwrap_or(0);
    let low = s.get(4).copied().unwrap_or(0);
    usize::from(u16::from_be_bytes([high, low]))
}

// How many bytes the record has.
pub(crate) fn len(s: &[u8]) -> usize
    ensures { (result ≡ record_size s.now) × (result < 65541) }
{
    5 + message_len(s)
}

// The record at the front of a text that is not empty.
#[tactic(auto, unfolding(crate::specs::Records::refusal_at))]
pub(crate) fn read(s: &[u8]) -> Result<Record<'_>, End>
    ensures refused { refusal_in result ≡ refusal_at s.now }
    ensures whole { IfOk result (λ r. (r.side ≡ (record_at s.now).side) × (r.message.now ≡ (record_at s.now).message)) }
{
    if !is_marked(s) {
        return Err(End::BadMark);
    }
    if s.len() < len(s) {
        return Err(End::CutShort);
    }
    Ok(Record {
        side: u64::from(s[2]),
        message: octets::part(s, 5, message_len(s)),
    })
}
