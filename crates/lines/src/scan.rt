// Where the run of value bytes of a line ends, in blocks.
ghost use Rattle.std.specs.Prelude.{◌≡◌, cond, ◌||◌, ◌+◌, ◌-◌, ◌≤◌, eqb, ltb, length, drop};
ghost use Rattle.octets.specs.Classes.{is_value};
ghost use Rattle.octets.specs.Scans.{run};

use octets::Class;

// A control character, or DEL. All other bytes are value bytes; a tab is one too, and is left to the table.
fn is_control(b: u8) -> bool
    ensures { result ≡ (ltb b 32 || eqb b 127) }
{
    b < 32 || b == 127
}

// The sixteen bytes from a place on have no control character. It looks at all of them and keeps a flag, so that they
// are compared at once: a search would stop at the first.
fn sixteen(s: &[u8], at: usize) -> bool
    requires { at + 16 ≤ length s.now }
    ensures { run is_value (drop at s.now) ≡ cond result (16 + run is_value (drop (at + 16) s.now)) (run is_value (drop at s.now)) }
{
    let mut found = false;
    for j in 0..16 {
        if is_control(s[at + j]) {
            found = true;
        }
    }
    !found
}

// Past the blocks of sixteen value bytes at a place. The place outlives the loop, so that a `for` would need a second one. Tried as
// `as_chunks::<16>()` with `take_while(..).count()`: 10% more instructions of a count of an INVITE.
#[inline(always)]
fn blocks(s: &[u8], at: usize) -> usize
    ensures { (at + run is_value (drop at s.now) ≡ result + run is_value (drop result s.now)) × (result ≤ at + (length s.now - at)) }
{
    if s.len() < 16 {
        return at;
    }
    let last = s.len() - 16;
    let mut i = at;
    while i <= last {
        if !sixteen(s, i) {
            return i;
        }
        i += 16;
    }
    i
}

// The run of value bytes that goes on at a place, in blocks first.
#[inline(always)]
pub(crate) fn line(s: &[u8], at: usize) -> usize
    ensures { (result ≡ at + run is_value (drop at s.now)) × (result ≤ at + (length s.now - at)) }
{
    Class::Value.end(s, blocks(s, at))
}
