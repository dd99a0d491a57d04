// The long names of the listed fields.
ghost use Rattle.std.specs.Prelude.{◌≡◌, [], ◌∷◌, ◌++◌, ◌+◌, ◌≤◌, length};
ghost use Rattle.emit.specs.Put.{Wrote};
ghost use Rattle.sip.specs.Profile.{name_of};

use crate::copy;

// The lengths of the long names, by number. Beside the texts in `put_front`: of one table of texts each name is read from memory, which takes a
// screening up to 8% more instructions. There a text that stands in the code is written as numbers.
const LENGTHS: [u8; 19] = [0, 3, 12, 4, 2, 7, 4, 7, 14, 12, 5, 6, 5, 9, 7, 19, 7, 6, 12];

// The length of a field's long name; that of a number that is not listed is empty, as in the definition `name_of` of sip.
pub(crate) fn name_len(n: usize) -> usize
    ensures { (result ≡ length (name_of n)) × (result ≤ 19) }
{
    if 18 < n {
        return 0;
    }
    usize::from(LENGTHS[n])
}

// Writes the front of a field's line, the long name, colon and one space, and returns the place after it.
pub(crate) fn put_front(out: &mut [u8], at: usize, n: usize) -> usize
    requires { at + (length (name_of n) + 2) ≤ length out.old }
    ensures { Wrote out.old at (name_of n ++ 58 ∷ 32 ∷ []) result out.new }
{
    match n {
        1 => copy::put(out, at, b"Via: "),
        2 => copy::put(out, at, b"Max-Forwards: "),
        3 => copy::put(out, at, b"From: "),
        4 => copy::put(out, at, b"To: "),
        5 => copy::put(out, at, b"Call-ID: "),
        6 => copy::put(out, at, b"CSeq: "),
        7 => copy::put(out, at, b"Contact: "),
        8 => copy::put(out, at, b"Content-Length: "),
        9 => copy::put(out, at, b"Content-Type: "),
        10 => copy::put(out, at, b"Route: "),
        11 => copy::put(out, at, b"Reason: "),
        12 => copy::put(out, at, b"Allow: "),
        13 => copy::put(out, at, b"Supported: "),
        14 => copy::put(out, at, b"Require: "),
        15 => copy::put(out, at, b"P-Asserted-Identity: "),
        16 => copy::put(out, at, b"Privacy: "),
        17 => copy::put(out, at, b"Accept: "),
        18 => copy::put(out, at, b"Record-Route: "),
        _ => copy::put(out, at, b": "),
    }
}
