// The listed names as they are mostly written, with the colon right behind them: told at their place, the long ones four bytes at a time.
ghost use Rattle.std.specs.Prelude.{◌≡◌, true, ◌≤◌, length};
ghost use Rattle.lines.specs.Passes.{FoundName, FoundIn, spells};

use crate::named::Named;
use crate::{names, words};

// The name of a number and how long it is, if those bytes start with it as it is spelt here, with its colon.
#[inline(always)]
fn told(name: &[u8; 20], number: usize, spelling: &[u8]) -> Option<Named>
    requires { spells number spelling.now ≡ true }
    ensures { FoundIn name.now result }
{
    if !words::stand(name, 0, spelling) {
        return None;
    }
    Some(Named {
        number,
        value: spelling.len(),
    })
}

// A name of two bytes: the space after its colon makes a word of it, so that `told`, which takes a name and its colon, does not fit.
fn to(name: &[u8; 20]) -> Option<Named>
    ensures { FoundIn name.now result }
{
    if !words::stand(name, 0, b"To: ") {
        return None;
    }
    Some(Named {
        number: 4,
        value: 3,
    })
}

#[tactic(auto, unfolding(crate::specs::Passes::spells, sip::specs::Profile::name_of, sip::specs::Profile::find, sip::specs::Profile::rows, octets::specs::Classes::text, octets::specs::Scans::same))]
fn with_a(name: &[u8; 20]) -> Option<Named>
    ensures { FoundIn name.now result }
{
    told(name, 12, b"Allow:").or_else(|| told(name, 17, b"Accept:"))
}

#[tactic(auto, unfolding(crate::specs::Passes::spells, sip::specs::Profile::name_of, sip::specs::Profile::find, sip::specs::Profile::rows, octets::specs::Classes::text, octets::specs::Scans::same))]
fn with_c(name: &[u8; 20]) -> Option<Named>
    ensures { FoundIn name.now result }
{
    told(name, 6, b"CSeq:")
        .or_else(|| told(name, 5, b"Call-ID:"))
        .or_else(|| told(name, 7, b"Contact:"))
        .or_else(|| told(name, 8, b"Content-Length:"))
        .or_else(|| told(name, 9, b"Content-Type:"))
}

#[tactic(auto, unfolding(crate::specs::Passes::spells, sip::specs::Profile::name_of, sip::specs::Profile::find, sip::specs::Profile::rows, octets::specs::Classes::text, octets::specs::Scans::same))]
fn with_r(name: &[u8; 20]) -> Option<Named>
    ensures { FoundIn name.now result }
{
    told(name, 10, b"Route:")
        .or_else(|| told(name, 14, b"Require:"))
        .or_else(|| told(name, 11, b"Reason:"))
        .or_else(|| told(name, 18, b"Record-Route:"))
}

// A long name at the front of twenty bytes, by its first letter.
#[tactic(auto, unfolding(crate::specs::Passes::spells, sip::specs::Profile::name_of, sip::specs::Profile::find, sip::specs::Profile::rows, octets::specs::Classes::text, octets::specs::Scans::same))]
fn long(name: &[u8; 20]) -> Option<Named>
    ensures { FoundIn name.now result }
{
    match name[0] {
        b'V' => told(name, 1, b"Via:"),
        b'M' => told(name, 2, b"Max-Forwards:"),
        b'F' => told(name, 3, b"From:"),
        b'T' => to(name),
        b'C' => with_c(name),
        b'R' => with_r(name),
        b'A' => with_a(name),
        b'S' => told(name, 13, b"Supported:"),
        b'P' => told(name, 16, b"Privacy:").or_else(|| told(name, 15, b"P-Asserted-Identity:")),
        _ => None,
    }
}

// The name at a place. The longest has 20 bytes with its colon, so that most fields have room for the look.
pub(crate) fn read(s: &[u8], at: usize) -> Option<Named>
    requires { at ≤ length s.now }
    ensures { FoundName s.now at result }
{
    let left = s.len() - at;
    if left < 2 {
        return None;
    }
    if s[at + 1] == b':' {
        let number = names::compact(s[at])?;
        return Some(Named {
            number,
            value: at + 2,
        });
    }
    let name = s[at..].first_chunk::<20>()?;
    let found = long(name)?;
    Some(Named {
        number: found.number,
        value: at + found.value,
    })
}
