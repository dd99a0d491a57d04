// Screens one message from standard input as side 1, and prints the answer's numbers and the output.
#![tactic(auto)]

use gateway::Verdict;
use std::io;
use std::io::Write;

fn main(rt: HostRuntime) -> io::Result<()> {
    // One byte more than a message may have, so that a longer one is seen to be longer. Fixed memory, as in all programs.
    let mut message = [0u8; 8193];
    let n = streams::read_full(&mut rt.stdin(), &mut message);
    // One message is screened, so that no call is remembered before it.
    let mut calls = [0u8; 6208];
    let mut out = [0u8; 9216];
    let mut to = rt.stdout();
    match gateway::screen(&message[..n], 1, &mut calls, &mut out) {
        Verdict::Accepted(len) => {
            writeln!(to, "0 0 0 0")?;
            to.write_all(octets::first(&out, len))
        }
        Verdict::Refused(r) => writeln!(to, "{} {} {} {}", r.reason, r.reply, r.detail, r.missing),
    }
}
