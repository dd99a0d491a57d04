// The cause on a line of standard input.
ghost use Rattle.std.specs.Prelude.{◌≡◌};
ghost use Rattle.cause_text.specs.Number.{without_lf, number_of};

// At most 19 digits, so that the number fits. `octets::number` has bounds of 32 bits, and the library's `parse` takes a `+` too.
pub(crate) fn number_of(s: &[u8]) -> Option<u64>
    ensures { result ≡ number_of s.now }
{
    if s.is_empty() {
        return None;
    }
    if 19 < s.len() {
        return None;
    }
    let mut v: u64 = 0;
    for b in s {
        if !b.is_ascii_digit() {
            return None;
        }
        v = v * 10 + (b - b'0') as u64;
    }
    Some(v)
}

// The bytes before the LF that ends them, if one does.
pub(crate) fn without_lf(s: &[u8]) -> &[u8]
    ensures { result.now ≡ without_lf s.now }
{
    s.strip_suffix(b"\n").unwrap_or(s)
}
