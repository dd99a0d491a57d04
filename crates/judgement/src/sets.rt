// What the profile says of each column: sets of field numbers, as masks with bit n for field n.
//
// A set stays a u32: a type of its own that contracts see as this number (`impl Model`) was tried, but the check does not cover a struct that
// holds one, as `Tally`, where it is passed on by value twice (`tallies::note`).
ghost use Rattle.std.specs.Prelude.{◌≡◌, ◌+◌, ◌-◌, ◌^◌, ◌<◌, ◌≤◌, eqb, false, bit_and, bit_or, unwrap_or, IfSome};
ghost use Rattle.octets.specs.Scans.{same};
ghost use Rattle.sip.specs.Profile.{once};
ghost use Rattle.judgement.specs.Sets.{column_at, has, kept_set, lack_at, mandatory_set, no_lack};

use super::Lack;
use sip::Column;

// What may not repeat.
const ONCE: u32 = 0b1_0000_0011_1111_1100;

// The fields whose values are read.
const READ: u32 = 0b1_1100_0001_0111_1100;

// No number past 31 is in a set.
pub(crate) fn in_set(set: u32, n: usize) -> bool
    ensures { result ≡ has set n }
{
    if 32 <= n {
        return false;
    }
    set & (1u32 << n) != 0
}

// The set with the number. That a number is below 32 is asked by the functions that it goes through: a type for it would be taken apart here.
pub(crate) fn with_number(set: u32, n: usize) -> u32
    requires { n < 32 }
    ensures { result ≡ bit_or set (2 ^ n) }
{
    set | (1u32 << n)
}

// Methods match exactly, in their letter case too.
fn is_method(name: &[u8], method: &[u8]) -> bool
    ensures { result ≡ same name.now method.now }
{
    octets::same(name, method)
}

// The column of a method, the initial one for an INVITE.
pub(crate) fn column_of(method: &[u8]) -> Option<Column>
    ensures { result ≡ column_at method.now }
{
    if is_method(b"INVITE", method) {
        return Some(Column::Invite);
    }
    if is_method(b"ACK", method) {
        return Some(Column::Ack);
    }
    if is_method(b"BYE", method) {
        return Some(Column::Bye);
    }
    if is_method(b"CANCEL", method) {
        return Some(Column::Cancel);
    }
    if is_method(b"OPTIONS", method) {
        return Some(Column::Options);
    }
    None
}

// What a column keeps, from field 18 down to 0.
pub(crate) fn kept_set(c: Column) -> u32
    ensures { result ≡ kept_set c }
{
    match c {
        Column::Invite | Column::Reinvite => 0b111_1111_0111_1111_1110,
        Column::Ack => 0b000_0000_0111_1111_1110,
        Column::Bye => 0b000_0111_1111_0111_1110,
        Column::Cancel => 0b000_0000_1101_0111_1110,
        Column::Options => 0b010_0111_0111_1111_1110,
        Column::InviteSuccess | Column::OtherResponse => 0b110_0111_1011_1111_1010,
        Column::CancelResponse => 0b000_0000_0001_0111_1010,
    }
}

// What a column asks for where there is a body.
fn asked_set(c: Column) -> u32
    ensures { result ≡ mandatory_set c false }
{
    match c {
        Column::Invite => 0b1001_0010_1111_1110,
        Column::Reinvite => 0b0000_0010_1111_1110,
        Column::Ack | Column::Bye | Column::Options => 0b0000_0010_0111_1110,
        Column::Cancel => 0b0000_0000_0111_1110,
        Column::InviteSuccess => 0b0000_0010_1111_1010,
        Column::CancelResponse => 0b0000_0000_0111_1010,
        Column::OtherResponse => 0b0000_0010_0111_1010,
    }
}

// What a column asks for, by whether the body after cutting is empty: nothing asks for the type of no content.
pub(crate) fn mandatory_set(c: Column, empty: bool) -> u32
    ensures { result ≡ mandatory_set c empty }
{
    let asked = asked_set(c);
    if empty {
        asked & !0b10_0000_0000
    } else {
        asked
    }
}

pub(crate) fn is_once(n: usize) -> bool
    ensures { result ≡ once n }
{
    in_set(ONCE, n)
}

pub(crate) fn is_read(n: usize) -> bool
    ensures { result ≡ has 0b1_1100_0001_0111_1100 n }
{
    in_set(READ, n)
}

// Of the mandatory fields those that were not seen: how many, and the lowest.
pub(crate) fn lack_of(c: Column, empty: bool, seen: u32) -> Option<Lack>
    ensures { (unwrap_or result no_lack ≡ lack_at c empty seen) × IfSome result (λ l. 1 ≤ l.count) }
{
    let asked = mandatory_set(c, empty);
    let left = asked & !seen;
    if left == 0 {
        return None;
    }
    let count = u32::count_ones(left) as u64;
    let lowest = u32::trailing_zeros(left) as u64;
    Some(Lack { count, lowest })
}
