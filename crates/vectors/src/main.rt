// Runs recorded cases from standard input, and prints what each answers, and checksums of the whole buffer and the whole table of calls
// afterwards. A case is a kind byte, a side byte, two bytes of room and two of length, each high byte first, and as many bytes as the length
// says. Kind 0: they are a message, screened with none held. 1: a message, screened with the table that the case before left. 2: they are the
// front of the table, and the rest of it is zeros. 3: a Call-ID, as long as the room says, and a tag, whose call is ended.
#![tactic(auto)]

use calls::Pair;
use gateway::Verdict;
use std::io;
use std::io::{Read, Write};

// Kinds 0 to 3. Any other number is as 1.
#[derive(Clone, Copy)]
enum Kind {
    Alone,
    After,
    Table,
    End,
}

impl From<u8> for Kind {
    fn from(number: u8) -> Kind {
        match number {
            0 => Kind::Alone,
            2 => Kind::Table,
            3 => Kind::End,
            _ => Kind::After,
        }
    }
}

#[derive(Clone, Copy)]
struct Case<'a> {
    kind: Kind,
    side: u64,
    room: u16,
    bytes: &'a [u8],
}

impl<'a> Case<'a> {
    // The next case, where there is one that is whole. Its bytes go into the lent place.
    fn read<R: Read>(input: &mut R, place: &'a mut [u8; 65535]) -> Option<Case<'a>> {
        let mut head = [0u8; 6];
        if streams::read_full(input, &mut head) != 6 {
            return None;
        }
        let len = usize::from(u16::from_be_bytes([head[4], head[5]]));
        if streams::read_full(input, &mut place[..len]) != len {
            return None;
        }
        Some(Case {
            kind: Kind::from(head[0]),
            side: u64::from(head[1]),
            room: u16::from_be_bytes([head[2], head[3]]),
            bytes: octets::first(place, len),
        })
    }
}

// Adler-32, as RFC 1950 has it.
fn checksum(s: &[u8]) -> u64 {
    let mut low: u64 = 1;
    let mut high: u64 = 0;
    for b in s {
        low = (low + u64::from(*b)) % 65521;
        high = (high + low) % 65521;
    }
    high * 65536 + low
}

// Where the answers go, and the table from case to case.
#[derive(Drop)]
struct Session<W: Write + Drop> {
    to: W,
    table: [u8; 6208],
}

impl<W: Write + Drop> Session<W> {
    fn screen(&mut self, case: Case, out: &mut [u8]) -> io::Result<()> {
        match gateway::screen(case.bytes, case.side, &mut self.table, out) {
            Verdict::Accepted(len) => write!(self.to, "0 0 0 0 {len} ")?,
            Verdict::Refused(r) => write!(
                self.to,
                "{} {} {} {} 0 ",
                r.reason, r.reply, r.detail, r.missing
            )?,
        }
        let sum = checksum(out);
        write!(self.to, "{sum} ")
    }

    // Puts the bytes to the front of the table, and zeros behind them.
    fn fill(&mut self, s: &[u8]) {
        self.table = [0u8; 6208];
        emit::put(&mut self.table, 0, s);
    }

    fn end(&mut self, case: Case) -> io::Result<()> {
        let id_len = usize::from(case.room);
        let pair = Pair {
            call_id: octets::first(case.bytes, id_len),
            tag: octets::rest(case.bytes, id_len),
        };
        match calls::end(&mut self.table, pair) {
            Ok(()) => write!(self.to, "0 "),
            Err(e) => write!(self.to, "{} ", e.refusal()),
        }
    }

    // One case, whose buffer is the front of the lent one, as long as its room.
    fn run(&mut self, case: Case, out: &mut [u8; 65535]) -> io::Result<()> {
        let room = usize::from(case.room);
        match case.kind {
            Kind::Alone => {
                self.fill(b"");
                self.screen(case, &mut out[..room])?
            }
            Kind::After => self.screen(case, &mut out[..room])?,
            Kind::Table => self.fill(case.bytes),
            Kind::End => self.end(case)?,
        }
        let sum = checksum(&self.table);
        writeln!(self.to, "{sum}")
    }
}

fn main(rt: HostRuntime) -> io::Result<()> {
    let mut input = rt.stdin();
    let mut session = Session {
        to: rt.stdout(),
        table: [0u8; 6208],
    };
    let mut place = [0u8; 65535];
    for _ in 0..65536usize {
        let mut out = [165u8; 65535];
        let Some(case) = Case::read(&mut input, &mut place) else {
            return Ok(());
        };
        session.run(case, &mut out)?;
    }
    Ok(())
}
