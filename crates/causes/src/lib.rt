#![tactic(auto)]

ghost use Rattle.std.specs.Prelude.{◌≡◌};
ghost use Rattle.causes.specs.Causes.{class_ends, next_above, status_of, status, cause_of, cause};
ghost use Rattle.causes.specs.Answers.{above_zero, listed_row, end_row, refusal_number, status_answer, cause_answer};

// The map has no answer: for a cause value over 127, or for a status outside 400 to 699.
#[derive(Clone, Copy, Debug, PartialEq, Eq)]
pub enum Refusal {
    Cause,
    Status,
}

impl Refusal {
    // The refusal's number, as the exports hand it out.
    #[inline(always)]
    pub fn number(self) -> u64
        ensures { result ≡ refusal_number self }
    {
        match self {
            Refusal::Cause => 21,
            Refusal::Status => 22,
        }
    }
}

// The status for a cause value and the cause whose row gave it.
#[derive(Clone, Copy, Debug, PartialEq, Eq)]
pub struct StatusRow {
    pub status: u64,
    pub row: u64,
}

// The C interface and the printed lines have three numbers: status, row and refusal 0, or status 0, row 0 and the refusal.
#[derive(Clone, Copy)]
pub struct StatusAnswer {
    pub status: u64,
    pub row: u64,
    pub refusal: u64,
}

impl From<Result<StatusRow, Refusal>> for StatusAnswer {
    ghost from_gives = { λ r a. a ≡ status_answer r };

    #[inline(always)]
    fn from(answer: Result<StatusRow, Refusal>) -> StatusAnswer {
        match answer {
            Ok(found) => StatusAnswer {
                status: found.status,
                row: found.row,
                refusal: 0,
            },
            Err(refusal) => StatusAnswer {
                status: 0,
                row: 0,
                refusal: refusal.number(),
            },
        }
    }
}

// The C interface has two numbers: cause and refusal 0, or cause 0 and the refusal.
#[derive(Clone, Copy)]
pub struct CauseAnswer {
    pub cause: u64,
    pub refusal: u64,
}

impl From<Result<u64, Refusal>> for CauseAnswer {
    ghost from_gives = { λ r a. a ≡ cause_answer r };

    fn from(answer: Result<u64, Refusal>) -> CauseAnswer {
        match answer {
            Ok(cause) => CauseAnswer { cause, refusal: 0 },
            Err(refusal) => CauseAnswer {
                cause: 0,
                refusal: refusal.number(),
            },
        }
    }
}

// The status of a listed cause; no other has a row of its own. No table is searched: these matches are the lists as the page writes them.
fn status_of_row(row: u64) -> Option<u64>
    ensures { result ≡ above_zero (status_of row) }
{
    match row {
        5 | 91 => Some(404),
        17 => Some(486),
        18..=21 | 25 | 31 | 34 | 102 => Some(480),
        22 => Some(410),
        27 => Some(502),
        28 => Some(484),
        2..=4 | 29 | 38 | 41..=44 | 47 | 50 | 57 | 58 | 63 | 65 | 70 | 79 | 88 | 95 | 97 | 99 =>
            Some(503),
        1 => Some(404),
        111 | 127 => Some(500),
        _ => None,
    }
}

// The class end next above a cause.
fn class_end(cause: u64) -> Option<u64>
    ensures { result ≡ above_zero (next_above class_ends cause) }
{
    match cause {
        0..=30 => Some(31),
        31..=46 => Some(47),
        47..=62 => Some(63),
        63..=78 => Some(79),
        79..=94 => Some(95),
        95..=110 => Some(111),
        111..=126 => Some(127),
        _ => None,
    }
}

// The row of a listed cause.
#[inline(always)]
fn listed_row(cause: u64) -> Option<StatusRow>
    ensures { result ≡ listed_row cause }
{
    status_of_row(cause).map(|status| StatusRow { status, row: cause })
}

// The row of the class end next above a cause.
#[inline(always)]
fn end_row(cause: u64) -> Option<StatusRow>
    ensures { result ≡ end_row cause }
{
    listed_row(class_end(cause)?)
}

// Cause (Q.850) to status (SIP). Over 127 no cause is listed and no class ends, so that none is looked for: both searches would be twice the work.
#[tactic(auto, unfolding(crate::specs::Causes::status))]
pub fn status_of_cause(cause: u64) -> Result<StatusRow, Refusal>
    ensures { status_answer result ≡ status cause }
{
    if 127 < cause {
        return Err(Refusal::Cause);
    }
    listed_row(cause)
        .or_else(|| end_row(cause))
        .ok_or(Refusal::Cause)
}

// The cause for a status of 400 to 699; what RFC 3398 does not list is 127, interworking.
fn cause_within(status: u64) -> u64
    ensures { result ≡ cause_of status }
{
    match status {
        404 | 485 | 604 => 1,
        486 | 600 => 17,
        480 => 18,
        401..=403 | 407 | 603 => 21,
        410 => 22,
        482..=483 => 25,
        484 => 28,
        502 => 38,
        400 | 481 | 500 | 503 => 41,
        405 => 63,
        406 | 415 | 501 => 79,
        408 | 504 => 102,
        _ => 127,
    }
}

// Status (SIP) to cause (Q.850), by RFC 3398.
pub fn cause_of_status(status: u64) -> Result<u64, Refusal>
    ensures { cause_answer result ≡ cause status }
{
    match status {
        400..=699 => Ok(cause_within(status)),
        _ => Err(Refusal::Status),
    }
}
