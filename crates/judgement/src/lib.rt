// Judges a message: the reasons 2 to 15 and 17, and what the writer needs to know of a message that none of them refuses.
#![tactic(auto)]

ghost use Rattle.std.specs.Prelude.{◌≡◌, ◌&&◌, leb, length, unwrap_or, IfSome};
ghost use Rattle.sip.specs.Lines.{folded};
ghost use Rattle.sip.specs.Values.{is_tagged};
ghost use Rattle.lines.specs.Index.{index, no_slot, read_head};
ghost use Rattle.judgement.specs.Sets.{has};
ghost use Rattle.judgement.specs.Entries.{first_slot};
ghost use Rattle.judgement.specs.Judged.{judged_lines, judged_message};
ghost use Rattle.judgement.specs.Judges.{Judges};

mod columns;
mod findings;
mod read;
mod refusals;
mod requests;
mod responses;
mod sets;
mod tallies;

use lines::StartLine;
use read::Read;
// Why a message is refused: the pages' reason, reply, detail and missing count. Plain numbers, by the form that is a rule of the project
// (docs/DECISIONS.md): C hands them out as they are.
#[derive(Clone, Copy)]
pub struct Refusal {
    pub reason: u64,
    pub reply: u64,
    pub detail: u64,
    pub missing: u64,
}

// Which mandatory fields are missing: how many, one at least, and the lowest number.
#[derive(Clone, Copy)]
pub(crate) struct Lack {
    pub count: u64,
    pub lowest: u64,
}

// What is found in one kept value: whether it is well formed, and what later reasons ask of it.
// Max-Forwards and Content-Length: len is what it says. From: where its tag stands. To: len is the length of its tag (0: none).
// Require: start is the place of the first tag that we lack (0: none), len the number of tags. P-Asserted-Identity: the set of the schemes
// of its identities, 1 for sip and 2 for tel (0 of other fields), and where the number stands that it tells. Privacy: start is the place
// of the first token that withholds the caller (0: none).
// It is no Option: `finding` says of a malformed value too what is noted of it, as where the tag of a From would stand.
#[derive(Clone, Copy)]
pub(crate) struct Finding {
    pub good: bool,
    pub schemes: u32,
    pub start: usize,
    pub len: usize,
}

// What the kept fields say so far: the set of numbers seen, and of the schemes of asserted identities; the first that came again, the
// first malformed one; what the first Max-Forwards, To (the length of its tag), Privacy (the place of its first token that withholds the
// caller), Content-Length and From say; the required tags counted, and the place of the first that we lack; where the caller's number
// stands. 0 is none: with Options for what came again, what is malformed and what we lack, 80 empty fields took 2.7% more instructions. The tag
// of To and the place in Privacy are numbers as the definition `noted` has them, of which only 0 is told from the rest.
#[derive(Clone, Copy)]
pub(crate) struct Tally {
    pub seen: u32,
    pub schemes: u32,
    pub again: usize,
    pub malformed: usize,
    pub hops: usize,
    pub tagged: usize,
    pub withheld: usize,
    pub length: usize,
    pub tags: usize,
    pub lacking: usize,
    pub tag: sip::Span,
    pub caller: Option<sip::CallerAt>,
}

// What is found of a message, whole where no reason but 1, 16 and 18 refuses it: whether nothing is ever replied to it, how many bytes of its start line stand before
// the version, the length of its start line, where the bytes after the empty line start, how many slots there are; the set of fields that
// it keeps, what its Max-Forwards says, the length of its body, whether its caller is withheld, where the tag stands in its From (no part
// where it has none), and where the caller's number stands in its P-Asserted-Identity fields, both in the canonical value. That of a response no
// byte stands before the version, and where a tag is an empty part, is what the definitions `asked` and `Passes` say. Fields go by the numbers
// of the profile's table, which the definitions and C use.
#[derive(Clone, Copy)]
pub struct Judged {
    pub silent: bool,
    pub before: usize,
    pub line: usize,
    pub rest: usize,
    pub count: usize,
    pub kept: u32,
    pub hops: usize,
    pub body: usize,
    pub withheld: bool,
    pub tag: sip::Span,
    pub caller: Option<sip::CallerAt>,
}

// A message that is refused: why, and what it says otherwise. Where it is refused before its kept fields are looked at (2 to 6, 17), nothing
// is found of it.
#[derive(Clone, Copy)]
pub struct Refused {
    pub refusal: Refusal,
    pub found: Judged,
}

// Whoever asks for the reason alone goes on by `?`.
impl From<Refused> for Refusal {
    ghost from_gives = { λ refused refusal. refusal ≡ refused.refusal };

    #[inline(always)]
    fn from(refused: Refused) -> Refusal {
        refused.refusal
    }
}

// The set has the number.
pub fn in_set(set: u32, n: usize) -> bool
    ensures { result ≡ has set n }
{
    sets::in_set(set, n)
}

// The canonical form of a value of To has a tag. No value of more than 8,192 bytes is looked at.
pub fn is_tagged(v: &[u8]) -> bool
    ensures { result ≡ (leb (length v.now) 8192 && is_tagged (folded 0 v.now)) }
{
    if 8192 < v.len() {
        return false;
    }
    let to = tallies::finding_folded(b"", 4, v);
    to.len != 0
}

// The first slot of a number.
pub fn first_slot(slots: &[u16; 384], count: usize, n: usize) -> Option<lines::Slot>
    ensures { (unwrap_or result no_slot ≡ first_slot n slots.now count 0) × IfSome result (λ s. s.number ≡ n) }
{
    for i in 0..count {
        let s = lines::slot_at(slots, i);
        if s.number == n {
            return Some(s);
        }
    }
    None
}

// By the kind.
fn judge_read(read: &Read) -> Result<Judged, Refused>
    ensures { result ≡ judged_lines read.now.message.now read.now.slots.now (read_head read.now.head) }
{
    match read.head.start {
        StartLine::Status { .. } => responses::judge_response(read),
        StartLine::Request { method, .. } => requests::judge_request(read, method),
    }
}

// Reads and judges a message; the slots are what `lines::read` leaves. The answer is `judged_message`: what the pass over the slots comes to,
// by masks and tallies. And it `Judges` the message in the pages' words: it refuses with just their numbers, or no reason but 1, 16 and 18
// applies, and then it and the slots say what the accepted message is.
// Inline, so that the compiler sees at each caller that the slots are cleared here, and does not clear them there too.
#[inline(always)]
pub fn judge(message: &[u8], slots: &mut [u16; 384]) -> Result<Judged, Refused>
    ensures answer { result ≡ judged_message message.now }
    ensures index { slots.new ≡ (index message.now).slots }
    ensures judges { Judges message.now slots.new result }
{
    match lines::read(message, slots) {
        Ok(head) => judge_read(&Read {
            message,
            head,
            slots,
        }),
        Err(why) => Err(Refused::bare(u64::from(why), 0)),
    }
}
