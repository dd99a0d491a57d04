// Neighbouring bytes as one number, of which the compiler makes one load.
ghost use Rattle.std.specs.Prelude.{◌≡◌, ◌+◌, ◌<◌, ◌≤◌, length, take, drop};
ghost use Rattle.octets.specs.Scans.{same};
ghost use Rattle.lines.specs.Passes.{quad, Bytes};

// The four bytes from a place on.
fn word(s: &[u8], at: usize) -> u32
    requires { at + 4 ≤ length s.now }
    ensures { (result ≡ quad s.now at) × Bytes s.now at }
{
    u32::from_le_bytes([s[at], s[at + 1], s[at + 2], s[at + 3]])
}

// A text of four bytes or more stands at a place. Four bytes a turn: the last four may share bytes with those before, so that no chunks fit.
#[inline(always)]
pub(crate) fn stand(s: &[u8], at: usize, text: &[u8]) -> bool
    requires { (4 ≤ length text.now) × (at + length text.now ≤ length s.now) }
    ensures { result ≡ same (take (length text.now) (drop at s.now)) text.now }
{
    let last = text.len() - 4;
    for i in (0..last).step_by(4) {
        if word(s, at + i) != word(text, i) {
            return false;
        }
    }
    word(s, at + last) == word(text, last)
}
