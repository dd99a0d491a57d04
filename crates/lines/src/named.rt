// What stands before the value of a field: its name, spaces or tabs, and the colon.
ghost use Rattle.std.specs.Prelude.{◌≡◌, ◌≤◌, length, IfSome};
ghost use Rattle.lines.specs.Places.{named_at};
ghost use Rattle.lines.specs.Passes.{NameFits};

use crate::{field, known};
use octets::Class;

// The number of the name, 0 where it is not listed, and where the value starts. Tried as an `Option`: it stands in a second register over the
// whole loop of fields, 3% more instructions of a count.
#[derive(Clone, Copy)]
pub(crate) struct Named {
    pub number: usize,
    pub value: usize,
}

// The name at a place, however it is written. None where its shape is bad.
fn any(s: &[u8], at: usize) -> Option<Named>
    requires { at ≤ length s.now }
    ensures { (result ≡ named_at s.now at) × IfSome result (NameFits s.now) }
{
    let name = Class::Token.end(s, at);
    if name <= at {
        return None;
    }
    let value = field::colon_end(s, name)?;
    let number = crate::number_of(&s[at..name]).unwrap_or(0);
    Some(Named { number, value })
}

// The same, with a look first for the names as they are mostly written.
pub(crate) fn read(s: &[u8], at: usize) -> Option<Named>
    requires { at ≤ length s.now }
    ensures { (result ≡ named_at s.now at) × IfSome result (NameFits s.now) }
{
    if let Some(told) = known::read(s, at) {
        return Some(told);
    }
    any(s, at)
}
