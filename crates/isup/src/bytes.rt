// Octets by value. Without an `impl Model`: `Caller` would hold it, and a function that passes such a struct on twice gets no proof today.
ghost use Rattle.std.specs.Prelude.{◌≡◌, [], ◌∷◌, ◌++◌, ◌+◌, ◌-◌, ◌≤◌, ◌<◌, length, drop, replicate};

// At most `N` octets in the value itself, and zeros past them, so that `==` compares the octets. Clauses see them by `held`.
#[derive(Clone, Copy, Debug, PartialEq, Eq)]
pub struct ShortBytes<const N: usize> {
    bytes: [u8; N],
    len: usize,
    ghost fits: { len ≤ N },
    ghost zeros: { drop len bytes ≡ replicate (N - len) 0 },
}

impl<const N: usize> ShortBytes<N> {
    ghost use Rattle.isup.specs.Held.{held};

    pub(crate) fn new() -> Self
        ensures { held result ≡ [] }
    {
        ShortBytes {
            bytes: [0; N],
            len: 0,
        }
    }

    pub fn len(&self) -> usize
        ensures value { result ≡ length (held self.now) }
        ensures fits { result ≤ N }
    {
        self.as_slice().len()
    }

    pub fn as_slice(&self) -> &[u8]
        ensures value { result.now ≡ held self.now }
        ensures fits { length result.now ≤ N }
    {
        &self.bytes[..self.len]
    }

    pub(crate) fn push(&mut self, b: u8)
        requires { length (held self.old) < N }
        ensures { held self.new ≡ held self.old ++ b ∷ [] }
    {
        // Read once: to the compiler the store could change the length, and with a second reading a caller takes 77 instructions more.
        let at = self.len;
        self.bytes[at] = b;
        self.len = at + 1;
    }

    pub(crate) fn append(&mut self, s: &[u8])
        requires { length (held self.old) + length s.now ≤ N }
        ensures { held self.new ≡ held self.old ++ s.now }
    {
        self.len = emit::put(&mut self.bytes, self.len, s);
    }
}
