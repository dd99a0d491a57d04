// The listed names, by their length.
ghost use Rattle.std.specs.Prelude.{◌≡◌, ◌≤◌, [], ◌∷◌, unwrap_or, IfSome};
ghost use Rattle.sip.specs.Profile.{number_of};
ghost use Rattle.lines.specs.Passes.{among};

// The long names of each length, with their numbers.
pub(crate) static TWO: [([u8; 2], usize); 1] = [(*b"To", 4)];

pub(crate) static THREE: [([u8; 3], usize); 1] = [(*b"Via", 1)];

pub(crate) static FOUR: [([u8; 4], usize); 2] = [(*b"From", 3), (*b"CSeq", 6)];

pub(crate) static FIVE: [([u8; 5], usize); 2] = [(*b"Route", 10), (*b"Allow", 12)];

pub(crate) static SIX: [([u8; 6], usize); 2] = [(*b"Reason", 11), (*b"Accept", 17)];

pub(crate) static SEVEN: [([u8; 7], usize); 4] = [
    (*b"Call-ID", 5),
    (*b"Contact", 7),
    (*b"Require", 14),
    (*b"Privacy", 16),
];

pub(crate) static NINE: [([u8; 9], usize); 1] = [(*b"Supported", 13)];

pub(crate) static TWELVE: [([u8; 12], usize); 3] = [
    (*b"Max-Forwards", 2),
    (*b"Content-Type", 9),
    (*b"Record-Route", 18),
];

pub(crate) static FOURTEEN: [([u8; 14], usize); 1] = [(*b"Content-Length", 8)];

pub(crate) static NINETEEN: [([u8; 19], usize); 1] = [(*b"P-Asserted-Identity", 15)];

// The number of the first of these spellings that the name is, in any letter case.
#[inline(always)]
pub(crate) fn among<const N: usize>(name: &[u8], spellings: &[([u8; N], usize)]) -> Option<usize>
    ensures { result ≡ among name.now spellings.now }
{
    for (spelling, number) in spellings {
        if octets::same_text(spelling, name) {
            return Some(*number);
        }
    }
    None
}

// A name of one byte is compact or not listed. One key for a letter leaves few enough that it costs no call where it is asked twice.
pub(crate) fn compact(b: u8) -> Option<usize>
    ensures { (unwrap_or result 0 ≡ number_of (b ∷ [])) × IfSome result (λ n. (1 ≤ n) × (n ≤ 18)) }
{
    match b.to_ascii_lowercase() {
        b'v' => Some(1),
        b'f' => Some(3),
        b't' => Some(4),
        b'i' => Some(5),
        b'm' => Some(7),
        b'l' => Some(8),
        b'c' => Some(9),
        b'k' => Some(13),
        _ => None,
    }
}
