// Reads a cause value from standard input and prints its status, row and refusal; where the input is empty, the table of all causes.
#![tactic(auto)]

use std::io;
use std::io::Write;

fn main(rt: HostRuntime) -> io::Result<()> {
    // Nothing that is printed is longer. Fixed memory.
    let mut out = [0u8; 1792];
    let n = cause_text::answer(&mut rt.stdin(), &mut out);
    rt.stdout().write_all(octets::first(&out, n))
}
