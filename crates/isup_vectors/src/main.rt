// Runs recorded cases of the box for the old exchange from standard input, and prints the numbers and bytes of each answer.
// A case is its kind (0 forward, 1 backward, 2 a cause), home, the length of the code and the code, two bytes of length, high byte first,
// and the bytes: a message, a parameter, or the eight bytes of a cause, high byte first.
#![tactic(auto)]

use std::io;
use std::io::{Read, Write};

// What a case asks for.
enum Kind {
    Forward,
    Backward,
    Cause,
}

impl From<u8> for Kind {
    fn from(kind: u8) -> Kind {
        match kind {
            0 => Kind::Forward,
            1 => Kind::Backward,
            _ => Kind::Cause,
        }
    }
}

// Each byte, with a space before it.
fn print_bytes<W: Write>(to: &mut W, s: &[u8]) -> io::Result<()> {
    for b in s {
        write!(to, " {b}")?;
    }
    Ok(())
}

fn forward<W: Write>(to: &mut W, message: &[u8], code: &[u8], home: bool) -> io::Result<()> {
    match isup::parameter_of(message, code, home) {
        Ok(octets) => {
            let len = octets.len();
            write!(to, "0 0 0 0 {len}")?;
            print_bytes(to, octets.as_slice())
        }
        Err(why) => {
            let r = why.refusal();
            let reason = r.reason;
            let reply = r.reply;
            let detail = r.detail;
            let missing = r.missing;
            write!(to, "{reason} {reply} {detail} {missing} 0")
        }
    }
}

fn backward<W: Write>(to: &mut W, bytes: &[u8], code: &[u8]) -> io::Result<()> {
    match isup::caller_of(bytes, code) {
        Ok(caller) => {
            let id = u64::from(caller.id);
            let len = caller.number.len();
            write!(to, "0 {id} {len} ")?;
            to.write_all(caller.number.as_slice())
        }
        Err(why) => {
            let refusal = why.refusal();
            write!(to, "{refusal} 0 0")
        }
    }
}

// Bytes as a number, the high one first; of more than eight the last eight.
fn cause_of(s: &[u8]) -> u64 {
    s.iter().fold(0, |cause, b| (cause << 8) | u64::from(*b))
}

fn status<W: Write>(to: &mut W, bytes: &[u8]) -> io::Result<()> {
    match isup::status_of(cause_of(bytes)) {
        Ok(status) => write!(to, "{status} 0"),
        Err(why) => {
            let refusal = why.number();
            write!(to, "0 {refusal}")
        }
    }
}

fn show<W: Write>(to: &mut W, kind: Kind, home: bool, code: &[u8], bytes: &[u8]) -> io::Result<()> {
    match kind {
        Kind::Forward => forward(to, bytes, code, home)?,
        Kind::Backward => backward(to, bytes, code)?,
        Kind::Cause => status(to, bytes)?,
    }
    to.write_all(b"\n")
}

// One case; whether there was one that is whole. Memory is fixed: both spaces are read into again for each case.
fn case<R: Read, W: Write>(
    input: &mut R,
    to: &mut W,
    code: &mut [u8],
    bytes: &mut [u8],
) -> io::Result<bool> {
    let mut head = [0u8; 3];
    if streams::read_full(input, &mut head) != 3 {
        return Ok(false);
    }
    let [kind, home, size] = head;
    let size = usize::from(size);
    if code.len() < size {
        return Ok(false);
    }
    if streams::read_full(input, &mut code[..size]) != size {
        return Ok(false);
    }
    let mut measure = [0u8; 2];
    if streams::read_full(input, &mut measure) != 2 {
        return Ok(false);
    }
    let len = usize::from(u16::from_be_bytes(measure));
    if bytes.len() < len {
        return Ok(false);
    }
    if streams::read_full(input, &mut bytes[..len]) != len {
        return Ok(false);
    }
    show(
        to,
        Kind::from(kind),
        home != 0,
        octets::first(code, size),
        octets::first(bytes, len),
    )?;
    Ok(true)
}

fn main(rt: HostRuntime) -> io::Result<()> {
    let mut input = rt.stdin();
    let mut to = rt.stdout();
    let mut code = [0u8; 255];
    let mut bytes = [0u8; 9000];
    for _ in 0..65536usize {
        if !case(&mut input, &mut to, &mut code, &mut bytes)? {
            return Ok(());
        }
    }
    Ok(())
}
