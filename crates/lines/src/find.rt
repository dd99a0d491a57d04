// Whether a field of a name, listed or not, stands after the first line.
ghost use Rattle.std.specs.Prelude.{◌≡◌, ◌+◌, ◌≤◌, length, drop};
ghost use Rattle.lines.specs.Finds.{named_from};

use crate::field;

// Looks through the fields after a first line that ends at `line`, before its CRLF. A turn passes over a whole field, so that no range fits.
pub(crate) fn after_line(s: &[u8], line: usize, name: &[u8]) -> bool
    requires { line ≤ length s.now }
    ensures { result ≡ named_from 0 name.now (drop (line + 2) s.now) }
{
    let mut at = line + 2;
    while let Some(f) = field::read(s, at) {
        if octets::same_text(name, &s[at..f.name]) {
            return true;
        }
        at = f.end + 2;
    }
    false
}
