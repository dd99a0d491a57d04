// Replays recorded messages from standard input through the screen, and prints the report.
#![tactic(auto)]

ghost use Rattle.std.specs.Prelude.{◌+◌, ◌≤◌, length, take};
ghost use Rattle.records.specs.Pieces.{IsPiece, Replayed, Filled, Prints};

use records::Replay;
use std::io;
use std::io::{Read, Write};

// Reads mark, side and length, or what is there of them.
fn read_head<R: Read>(input: &mut R, space: &mut [u8]) -> usize
    requires { 5 ≤ length space.old }
    ensures { result ≤ 5 }
{
    streams::read_full(input, &mut space[..5])
}

// Reads a message of that length after them, or what is there of it.
fn read_message<R: Read>(input: &mut R, space: &mut [u8], len: usize) -> usize
    requires { 5 + len ≤ length space.old }
    ensures { Filled space.old space.new len result }
{
    let end = 5 + len;
    streams::read_full(input, &mut space[5..end])
}

// Reads one record, or what is there of it, to the front of the space, and returns how many bytes that are.
fn read_record<R: Read>(input: &mut R, space: &mut [u8]) -> usize
    requires { 65540 ≤ length space.old }
    ensures { IsPiece (take result space.new) }
{
    let n = read_head(input, space);
    let len = records::wanted(octets::first(space, n));
    let got = read_message(input, space, len);
    n + got
}

// Reads the records one after the other into one space, since memory is fixed: n tells what is new of it. There are a million at most, and one more to be refused.
fn replay<R: Read>(input: &mut R) -> Replay
    ensures { Replayed result }
{
    let mut space = [0u8; 65540];
    let mut calls = [0u8; 6208];
    let mut st = records::start();
    for _ in 0..1000001u64 {
        let n = read_record(input, &mut space);
        if n == 0 {
            return st;
        }
        st = records::step(st, &mut calls, octets::first(&space, n));
        if st.end != 0 {
            return st;
        }
    }
    st
}

// The report of what stands on standard input, at the front of the buffer.
fn report<R: Read>(input: &mut R, out: &mut [u8]) -> usize
    requires { 4096 ≤ length out.old }
    ensures { Prints result out.new }
{
    let st = replay(input);
    records::put_report(out, st)
}

fn main(rt: HostRuntime) -> io::Result<()> {
    // Fixed memory.
    let mut out = [0u8; 4096];
    let n = report(&mut rt.stdin(), &mut out);
    rt.stdout().write_all(octets::first(&out, n))
}
