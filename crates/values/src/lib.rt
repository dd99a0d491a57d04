// Judges values: each reader takes a canonical value, or the Request-URI, as a slice of its own.
#![tactic(auto)]

mod address;
mod call;
mod list;
mod param;
mod person;
mod scan;
mod uri;

pub use address::{asserted, party};
pub use call::{is_call_id, is_cseq, whole_number};
pub use list::{privacy, require};
pub use person::{is_global, request_uri};
pub use uri::uri_at;

// The Request-URI: its scheme is a token but neither sip nor tel; it is a URI from end to end; what it calls is a number. Three flags, and no
// enum: the clause of `request_uri` tells of a URI with bytes after it too whether what it calls is a number.
#[derive(Clone, Copy)]
pub struct RequestUri {
    pub other: bool,
    pub good: bool,
    pub called: bool,
}

// A list of tokens: how many it has, and the place, from 1, of the first that is looked for.
#[derive(Clone, Copy)]
pub struct Tokens {
    pub count: usize,
    pub first: Option<usize>,
}

// P-Asserted-Identity: the set of the schemes of its identities, 1 for sip and 2 for tel, and where the number of its sip identity stands,
// or of the only one. Bits, and no enum: `judgement` joins the sets of two fields by `|`, so that an enum would only be turned into them.
#[derive(Clone, Copy)]
pub struct AssertedAt {
    pub schemes: u32,
    pub start: usize,
    pub len: usize,
}
