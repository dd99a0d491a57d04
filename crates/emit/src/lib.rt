// Writes into a lent buffer. A writer that is handed too little room writes nothing. The place goes along with the buffer in no struct:
// the buffer is the one that C lends, and `put` and `put_whole_number` are named in docs/changes. The place that stays says that there was no
// room: that is what `Wrote` and the clauses of all callers speak of.
#![tactic(auto)]

ghost use Rattle.std.specs.Prelude.{◌≡◌, [], ◌∷◌, ◌+◌, ◌≤◌, ◌<◌, leb, length};
ghost use Rattle.sip.specs.Lines.{joined, folded, unfolded_at};
ghost use Rattle.sip.specs.Output.{numeral, whole_numeral};
ghost use Rattle.emit.specs.Put.{Wrote};
ghost use Rattle.emit.specs.Digits.{last, lowest};

pub use texts::Text;

mod texts;

// A buffer of len bytes has room for size more at the place. No sum is made that could overflow. The size, mostly a constant, goes first.
fn has_room(len: usize, at: usize, size: usize) -> bool
    ensures { result ≡ leb (at + size) len }
{
    if len < size {
        return false;
    }
    at <= len - size
}

// Copies s to the place, which has room for it, and returns the place after it.
fn copy(out: &mut [u8], at: usize, s: &[u8]) -> usize
    requires { at + length s.now ≤ length out.old }
    ensures { Wrote out.old at s.now result out.new }
{
    // Mostly it is one space: `copy_from_slice` takes 2.8% more on a value of many folds.
    for j in 0..s.len() {
        out[at + j] = s[j];
    }
    at + s.len()
}

// Writes s at the place, and returns the place after it. Where there is no room the buffer and the place stay.
pub fn put(out: &mut [u8], at: usize, s: &[u8]) -> usize
    ensures { Wrote out.old at s.now result out.new }
{
    if has_room(out.len(), at, s.len()) {
        return copy(out, at, s);
    }
    at
}

// The last digit of a number, as a byte.
pub fn digit(n: u64) -> u8
    ensures { result ≡ last n }
{
    (48 + n % 10) as u8
}

// Writes the lowest digits of a number, size of them, at the place, which has room for them. The last digit is the first to be known.
fn put_digits(out: &mut [u8], at: usize, n: u64, size: usize) -> usize
    requires { at + size ≤ length out.old }
    ensures { Wrote out.old at (lowest size n) result out.new }
{
    let mut left = n;
    for i in (0..size).rev() {
        out[at + i] = digit(left);
        left /= 10;
    }
    at + size
}

// Writes the lowest digits of a number, size of them. Where there is no room the buffer and the place stay.
fn put_lowest(out: &mut [u8], at: usize, n: u64, size: usize) -> usize
    ensures { Wrote out.old at (lowest size n) result out.new }
{
    if has_room(out.len(), at, size) {
        return put_digits(out, at, n, size);
    }
    at
}

// How many bytes `put_five_digits` writes. By `checked_ilog10` a call's BYE takes 1.5% more.
pub fn five_digits_len(n: usize) -> usize
    ensures { result ≡ length (numeral n) }
{
    match n {
        0..=9 => 1,
        10..=99 => 2,
        100..=999 => 3,
        1000..=9999 => 4,
        _ => 5,
    }
}

// Writes the digits of a number of at most five, without leading zeros; of a longer number the last five, zeros too. Where there is no
// room the buffer and the place stay.
pub fn put_five_digits(out: &mut [u8], at: usize, n: usize) -> usize
    ensures { Wrote out.old at (numeral n) result out.new }
{
    put_lowest(out, at, n as u64, five_digits_len(n))
}

// How many digits a number has: no number of 64 bits has more than twenty.
fn whole_number_len(n: u64) -> usize
    ensures { result ≡ length (whole_numeral n) }
{
    n.checked_ilog10().unwrap_or(0) as usize + 1
}

// Writes all digits of a number, without leading zeros. Where there is no room the buffer and the place stay. It is not `write!`: that
// tells what stands only where it succeeds, and no clause of `fmt::Write` says that it does where there is room.
pub fn put_whole_number(out: &mut [u8], at: usize, n: u64) -> usize
    ensures { Wrote out.old at (whole_numeral n) result out.new }
{
    put_lowest(out, at, n, whole_number_len(n))
}

// How many bytes a run of gap bytes has once it is joined.
fn joined_len(g: &[u8]) -> usize
    ensures { (result ≡ length (joined g.now)) × (result ≤ length g.now) }
{
    if octets::has_break(g) {
        return 1;
    }
    g.len()
}

// How many bytes `put_folded` writes. This, `unfolded_at` and `put_pieces` share `octets::gap_end` and `joined_len`; what is left of each
// loop is its own, and as a fold over pieces it is no plainer: one stops early, one writes, one counts.
pub fn folded_len(v: &[u8]) -> usize
    ensures { (result ≡ length (folded 0 v.now)) × (result ≤ length v.now) }
{
    let mut size = 0;
    let mut i = 0;
    while i < v.len() {
        if octets::is_gap(v[i]) {
            let next = i + 1;
            let end = octets::gap_end(v, next);
            size += joined_len(&v[i..end]);
            i = end;
        } else {
            size += 1;
            i += 1;
        }
    }
    size
}

// Where the k-th byte, from 0, of v folded stands in v; the end of v where there are not so many. A turn passes a byte or a run, as in
// `folded_len`.
pub fn unfolded_at(v: &[u8], k: usize) -> usize
    ensures { (result ≡ unfolded_at k 0 v.now) × (result ≤ length v.now) }
{
    let mut ahead = k;
    let mut i = 0;
    while i < v.len() {
        if octets::is_gap(v[i]) {
            let next = i + 1;
            let end = octets::gap_end(v, next);
            let size = joined_len(&v[i..end]);
            if ahead < size {
                return i + ahead;
            }
            ahead -= size;
            i = end;
        } else {
            if ahead < 1 {
                return i;
            }
            ahead -= 1;
            i += 1;
        }
    }
    i
}

// Writes a byte at the place, which is in the buffer.
fn put_byte(out: &mut [u8], at: usize, b: u8) -> usize
    requires { at < length out.old }
    ensures { Wrote out.old at (b ∷ []) result out.new }
{
    out[at] = b;
    at + 1
}

// Writes a run of gap bytes, joined, where there is room for it: one space where it holds a line break.
fn put_joined(out: &mut [u8], at: usize, g: &[u8]) -> usize
    requires { at + length (joined g.now) ≤ length out.old }
    ensures { Wrote out.old at (joined g.now) result out.new }
{
    if octets::has_break(g) {
        return put_byte(out, at, b' ');
    }
    copy(out, at, g)
}

// Writes v folded where there is room for the whole: a byte that is no gap by itself, and a run of gap bytes at once, as in `folded_len`.
fn put_pieces(out: &mut [u8], at: usize, v: &[u8]) -> usize
    requires { at + length (folded 0 v.now) ≤ length out.old }
    ensures { Wrote out.old at (folded 0 v.now) result out.new }
{
    let mut o = at;
    let mut i = 0;
    while i < v.len() {
        if octets::is_gap(v[i]) {
            let next = i + 1;
            let end = octets::gap_end(v, next);
            o = put_joined(out, o, &v[i..end]);
            i = end;
        } else {
            o = put_byte(out, o, v[i]);
            i += 1;
        }
    }
    o
}

// There is room for v folded. It is never longer than v, so that it is measured only where the room is tight.
fn has_folded_room(len: usize, at: usize, v: &[u8]) -> bool
    ensures { result ≡ leb (at + length (folded 0 v.now)) len }
{
    if has_room(len, at, v.len()) {
        return true;
    }
    has_room(len, at, folded_len(v))
}

// Writes v with each maximal run of spaces, tabs and line breaks that holds a break as one space, and returns the place after it. Where
// there is no room the buffer and the place stay.
pub fn put_folded(out: &mut [u8], at: usize, v: &[u8]) -> usize
    ensures { Wrote out.old at (folded 0 v.now) result out.new }
{
    if has_folded_room(out.len(), at, v) {
        return put_pieces(out, at, v);
    }
    at
}
