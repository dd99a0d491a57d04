// Byte classes and the scanners that every other reader calls.
#![tactic(auto)]

ghost use Rattle.std.specs.Prelude.{◌≡◌, ◌+◌, ◌-◌, ◌≤◌, min, eqb, ltb, cond, length, take, drop, unwrap_or, IfSome};
ghost use Rattle.octets.specs.Classes.{within, class_table, in_table, is_hex, is_gap, is_break};
ghost use Rattle.octets.specs.Members.{members};
ghost use Rattle.octets.specs.Scans.{run, any, starts, escape, run_escaped, quoted, no_number, number, lower, same, same_text};

mod table;

// A run of digits: how many there are, and the number that they write.
#[derive(Clone, Copy)]
pub struct NumberAt {
    pub size: usize,
    pub value: u64,
}

// The classes of the table, by their bits.
const TOKEN: u8 = 1;

const BLANK: u8 = 2;

const DIGIT: u8 = 4;

const VISIBLE: u8 = 8;

const USER: u8 = 16;

const PARAMETER: u8 = 32;

const HOST: u8 = 64;

const VALUE: u8 = 128;

// The classes of bytes that texts are read by.
#[derive(Clone, Copy, PartialEq, Eq)]
pub enum Class {
    Token,
    Blank,
    Digit,
    Visible,
    User,
    Parameter,
    Host,
    Value,
    // A token's bytes, and blanks between tokens: what a display name without quotes is made of.
    Name,
}

impl Class {
    // The bits of the class in the table.
    fn mask(self) -> u8
        ensures { in_table class_table result ≡ members self }
    {
        match self {
            Class::Token => TOKEN,
            Class::Blank => BLANK,
            Class::Digit => DIGIT,
            Class::Visible => VISIBLE,
            Class::User => USER,
            Class::Parameter => PARAMETER,
            Class::Host => HOST,
            Class::Value => VALUE,
            Class::Name => TOKEN | BLANK,
        }
    }

    // How many of the leading bytes are in the class.
    pub fn run(self, s: &[u8]) -> usize
        ensures { (result ≡ run (members self) s.now) × (result ≤ length s.now) }
    {
        run(masks(), s, self.mask())
    }

    // Where the run of the class ends that goes on at a place. Past the end it is empty.
    pub fn end(self, s: &[u8], at: usize) -> usize
        ensures { (result ≡ at + run (members self) (drop at s.now)) × (result ≤ at + (length s.now - at)) }
    {
        run_at(masks(), s, at, self.mask())
    }

    // How many of the leading bytes are in the class, or in an escape.
    pub fn run_escaped(self, s: &[u8]) -> usize
        ensures { (result ≡ run_escaped (members self) 0 s.now) × (result ≤ length s.now) }
    {
        run_escaped(masks(), s, self.mask())
    }
}

// The table, once in memory: indexing the constant would copy it for each byte.
static MASKS: [u8; 256] = table::CLASSES;

// The table holds the mask of each byte.
pub fn masks() -> &'static [u8; 256]
    ensures { result.now ≡ class_table }
{
    &MASKS
}

// The byte is in a class of the mask, by the table that is lent.
fn in_class(table: &[u8; 256], b: u8, mask: u8) -> bool
    ensures { result ≡ in_table table.now mask b }
{
    table[b as usize] & mask != 0
}

// How many of the four bytes from a place on are in a class of the mask, before the first that is not.
fn four(table: &[u8; 256], s: &[u8], at: usize, mask: u8) -> usize
    requires { at + 4 ≤ length s.now }
    ensures { (run (in_table table.now mask) (drop at s.now) ≡ result + cond (ltb result 4) 0 (run (in_table table.now mask) (drop (at + 4) s.now))) × (result ≤ 4) }
{
    if !in_class(table, s[at], mask) {
        return 0;
    }
    let second = at + 1;
    if !in_class(table, s[second], mask) {
        return 1;
    }
    let third = at + 2;
    if !in_class(table, s[third], mask) {
        return 2;
    }
    let fourth = at + 3;
    if !in_class(table, s[fourth], mask) {
        return 3;
    }
    4
}

// Where the run ends that goes on at a place, byte by byte.
fn run_from(table: &[u8; 256], s: &[u8], at: usize, mask: u8) -> usize
    ensures { (result ≡ at + run (in_table table.now mask) (drop at s.now)) × (result ≤ at + (length s.now - at)) }
{
    for i in at..s.len() {
        if !in_class(table, s[i], mask) {
            return i;
        }
    }
    at.max(s.len())
}

// Where the run of bytes ends that goes on at a place, in a class of the mask by the table that is lent. Past the end it is empty.
// Four bytes a turn: one test of the place for four bytes. The place outlives the loop, so that a `for` over the turns is no plainer.
pub fn run_at(table: &[u8; 256], s: &[u8], at: usize, mask: u8) -> usize
    ensures { (result ≡ at + run (in_table table.now mask) (drop at s.now)) × (result ≤ at + (length s.now - at)) }
{
    if s.len() < 4 {
        return run_from(table, s, at, mask);
    }
    let last = s.len() - 3;
    let mut i = at;
    while i < last {
        let more = four(table, s, i, mask);
        if more < 4 {
            return i + more;
        }
        i += 4;
    }
    run_from(table, s, i, mask)
}

// How many of the leading bytes are in a class of the mask, by any table: docs/PERFORMANCE.md names this function, which takes any table and any
// mask, and so do those that it and `run_escaped` call. `Class` names the masks, over the one table.
pub fn run(table: &[u8; 256], s: &[u8], mask: u8) -> usize
    ensures { (result ≡ run (in_table table.now mask) s.now) × (result ≤ length s.now) }
{
    run_at(table, s, 0, mask)
}

// What is left after n bytes.
pub fn rest(s: &[u8], n: usize) -> &[u8]
    ensures { (result.now ≡ drop n s.now) × (length result.now ≡ length s.now - n) }
{
    &s[n.min(s.len())..]
}

// The first n bytes, or all where there are fewer.
pub fn first(s: &[u8], n: usize) -> &[u8]
    ensures { (result.now ≡ take n s.now) × (length result.now ≡ min n (length s.now)) }
{
    &s[..n.min(s.len())]
}

// The `len` bytes from `start` on, or as many as there are. Most parts lie within the text, and are one slice.
pub fn part(s: &[u8], start: usize, len: usize) -> &[u8]
    ensures { (result.now ≡ take len (drop start s.now)) × (length result.now ≡ min len (length s.now - start)) }
{
    if start <= s.len() {
        if len <= s.len() - start {
            let end = start + len;
            return &s[start..end];
        }
    }
    first(rest(s, start), len)
}

// The first byte is b.
#[tactic(auto, unfolding(crate::specs::Scans::starts))]
pub fn starts_with(s: &[u8], b: u8) -> bool
    ensures { result ≡ starts b s.now }
{
    !s.is_empty() && s[0] == b
}

// A space, tab, CR or LF. By comparison: it is asked of single bytes mostly. A `match` becomes a test of bits, and folds take 11 of 100 more.
pub fn is_gap(b: u8) -> bool
    ensures { result ≡ is_gap b }
{
    if b == b' ' {
        return true;
    }
    if b == b'\t' {
        return true;
    }
    if b == b'\r' {
        return true;
    }
    b == b'\n'
}

// Where the run of gap bytes ends that goes on at a place. Past the end it is empty. Gap bytes are no class of the table, whose eight bits are
// taken, so that this is no `run_at`.
pub fn gap_end(s: &[u8], at: usize) -> usize
    ensures { (result ≡ at + run is_gap (drop at s.now)) × (result ≤ at + (length s.now - at)) }
{
    for i in at..s.len() {
        if !is_gap(s[i]) {
            return i;
        }
    }
    at.max(s.len())
}

#[tactic(auto, unfolding(crate::specs::Classes::is_break))]
fn is_break(b: u8) -> bool
    ensures { result ≡ is_break b }
{
    b == b'\r' || b == b'\n'
}

// A byte of a line break stands in the text.
pub fn has_break(s: &[u8]) -> bool
    ensures { result ≡ any is_break s.now }
{
    s.iter().any(|b| is_break(*b))
}

// The two texts have the same bytes.
#[tactic(auto, using(crate::proofs::Texts::same_pointwise))]
pub fn same(a: &[u8], b: &[u8]) -> bool
    ensures { result ≡ same a.now b.now }
{
    a == b
}

// The same byte, or the same letter in the other case. Most names and tokens are written as they are listed: the library's comparison of
// slices makes small forms of all bytes, and required tags take 10 of 100 more.
fn alike(x: u8, y: u8) -> bool
    ensures { result ≡ eqb (lower x) (lower y) }
{
    x == y || x.eq_ignore_ascii_case(&y)
}

// The two texts have the same bytes in any letter case.
pub fn same_text(a: &[u8], b: &[u8]) -> bool
    ensures { result ≡ same_text a.now b.now }
{
    if a.len() != b.len() {
        return false;
    }
    for i in 0..a.len() {
        if !alike(a[i], b[i]) {
            return false;
        }
    }
    true
}

// The number of a run of digits, where there are 1 to `most` of them.
fn counted(size: usize, value: u64, most: usize) -> Option<NumberAt>
    ensures { (unwrap_or result no_number ≡ cond (within 1 most size) (record { size = size; value = value }) no_number) × IfSome result (λ n. 1 ≤ n.size) }
{
    if size < 1 || most < size {
        return None;
    }
    Some(NumberAt { size, value })
}

// The run of digits at the front, of 1 to `most` digits, with the number that they write, at most `bound`. The library's `parse` takes a whole
// text, and a `+` before it.
pub fn number(s: &[u8], most: usize, bound: u32) -> Option<NumberAt>
    ensures { (unwrap_or result no_number ≡ number most bound s.now)
        × IfSome result (λ n. (1 ≤ n.size) × (n.size ≤ length s.now) × (n.value ≤ bound)) }
{
    let mut value: u64 = 0;
    for (i, b) in s.iter().enumerate() {
        if !b.is_ascii_digit() {
            return counted(i, value, most);
        }
        value = value * 10 + u64::from(*b - b'0');
        // More digits only make it larger, so that it never outgrows a u64.
        if u64::from(bound) < value {
            return None;
        }
    }
    counted(s.len(), value, most)
}

// `%` and two hex digits stand at place i.
fn escape_at(s: &[u8], i: usize) -> bool
    ensures { result ≡ escape (drop i s.now) }
{
    match rest(s, i) {
        [b'%', high, low, ..] => high.is_ascii_hexdigit() && low.is_ascii_hexdigit(),
        _ => false,
    }
}

// How many of the leading bytes are in a class of the mask, by the table that is lent, or in an escape. Most texts have no escape, and are one run.
// A turn passes one byte or three, so that a `for` is no plainer.
pub fn run_escaped(table: &[u8; 256], s: &[u8], mask: u8) -> usize
    ensures { (result ≡ run_escaped (in_table table.now mask) 0 s.now) × (result ≤ length s.now) }
{
    let mut i = run(table, s, mask);
    while i < s.len() {
        if in_class(table, s[i], mask) {
            i += 1;
        } else if escape_at(s, i) {
            i += 3;
        } else {
            return i;
        }
    }
    i
}

const BACKSLASH: u8 = b'\\';

// The size of the quoted string at the front, with both quotes. A turn passes one byte, or a backslash and the byte that it escapes: a `for`
// with a flag for the backslash takes 12 instructions a byte in place of 8.
pub fn quoted(s: &[u8]) -> Option<usize>
    ensures { (unwrap_or result 0 ≡ quoted s.now) × IfSome result (λ n. (2 ≤ n) × (n ≤ length s.now)) }
{
    if !starts_with(s, b'"') {
        return None;
    }
    let mut i = 1;
    while i < s.len() {
        let b = s[i];
        if b == b'"' {
            return Some(i + 1);
        }
        i += if b == BACKSLASH { 2 } else { 1 };
    }
    None
}
