// The program `cause_map` once more, with no input beside it: the table that it then prints is held to a stored one too.
#![tactic(auto)]

use std::io;
use std::io::Write;

fn main(rt: HostRuntime) -> io::Result<()> {
    // Nothing that is printed is longer. Fixed memory.
    let mut out = [0u8; 1792];
    let n = cause_text::answer(&mut rt.stdin(), &mut out);
    rt.stdout().write_all(octets::first(&out, n))
}
