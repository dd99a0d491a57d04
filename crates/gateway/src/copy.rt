// Copies into a buffer that has room: before the first byte goes out it is known that all of them fit. Buffer and place go along by hand: C lends
// the buffer, and a text of its own (`emit::Text`) would be copied into it once more.
ghost use Rattle.std.specs.Prelude.{◌≡◌, ◌+◌, ◌≤◌, length, take};
ghost use Rattle.emit.specs.Put.{Wrote};

// Copies s byte by byte to the place, and returns the place after it. A text that stands in the code is written as numbers. No `copy_from_slice`:
// it looks first whether the two overlap, and a screening takes up to 10% more instructions (18% where words are copied so).
pub(crate) fn put(out: &mut [u8], at: usize, s: &[u8]) -> usize
    requires { at + length s.now ≤ length out.old }
    ensures { Wrote out.old at s.now result out.new }
{
    for (j, b) in s.iter().enumerate() {
        out[at + j] = *b;
    }
    at + s.len()
}

// The N bytes at the front of a text.
fn word<const N: usize>(s: &[u8]) -> [u8; N]
    requires { N ≤ length s.now }
    ensures { result ≡ take N s.now }
{
    *s.first_chunk::<N>().unwrap()
}

// As `put`, N bytes at once: read before they are written, they move as one word. The last N may overlap those before them.
fn words<const N: usize>(out: &mut [u8], at: usize, s: &[u8]) -> usize
    requires { (1 ≤ N) × (N ≤ length s.now) × (at + length s.now ≤ length out.old) }
    ensures { Wrote out.old at s.now result out.new }
{
    let last = s.len() - N;
    for j in (0..last).step_by(N) {
        put(out, at + j, &word::<N>(&s[j..]));
    }
    put(out, at + last, &word::<N>(&s[last..]))
}

// As `put`, of a text whose length the code does not say, mostly a field's value.
pub(crate) fn value(out: &mut [u8], at: usize, s: &[u8]) -> usize
    requires { at + length s.now ≤ length out.old }
    ensures { Wrote out.old at s.now result out.new }
{
    if 16 <= s.len() {
        return words::<16>(out, at, s);
    }
    if 8 <= s.len() {
        return words::<8>(out, at, s);
    }
    put(out, at, s)
}
