// The vocabulary of documents 01 and 02: the types that their definitions (specs/) and the code of the other crates share.
// Where nothing stands, the definitions (`uri`, `address`, `param`, `params`, `party`, `identity`, `caller_at`, `calling_part` of specs/) say so by a
// size, a length or a field of 0, and the theorems are stated over them: these types keep that form, and `PartyAt` and `CallingAt` stand for the
// definitions alone. The functions that read or find such a thing answer an Option, and their contracts say which 0 its None is.
#![tactic(auto)]

// The columns of the profile. Six are of requests. Three are of responses: to an INVITE with a status from 200 to 299, to a CANCEL, and all
// others.
#[derive(Clone, Copy)]
pub enum Column {
    Invite,
    Reinvite,
    Ack,
    Bye,
    Cancel,
    Options,
    InviteSuccess,
    CancelResponse,
    OtherResponse,
}

// A URI at the front of a text: its size with the tail, whether it is a tel URI, how many bytes after `sip:` are the user (0: there is
// none), and where the tail starts. Size 0: no URI stands there.
#[derive(Clone, Copy)]
pub struct UriAt {
    pub size: usize,
    pub tel: bool,
    pub user: usize,
    pub tail: usize,
}

// An address at the front of a text: its size, and where its URI starts. Size 0: no address stands there.
#[derive(Clone, Copy)]
pub struct AddressAt {
    pub size: usize,
    pub at: usize,
    pub uri: UriAt,
}

// A parameter at the front of a text: its size, whether it is the tag, and where its value stands. Size 0: no parameter stands there.
#[derive(Clone, Copy)]
pub struct ParamAt {
    pub size: usize,
    pub tag: bool,
    pub value: usize,
    pub len: usize,
}

// Parameters at the front of a text: their size, and where the tag stands (len 0: there is no tag).
#[derive(Clone, Copy)]
pub struct ParamsAt {
    pub size: usize,
    pub tag: usize,
    pub len: usize,
}

// A whole value of From or To: whether it is well formed, and where its tag stands (len 0: there is no tag).
#[derive(Clone, Copy)]
pub struct PartyAt {
    pub good: bool,
    pub tag: usize,
    pub len: usize,
}

// An asserted identity in a text: its size, whether it is a tel URI, and where its number stands. Size 0: no identity stands there.
#[derive(Clone, Copy)]
pub struct IdentityAt {
    pub size: usize,
    pub tel: bool,
    pub start: usize,
    pub len: usize,
}

// Where the number of an asserted identity stands: in which of the P-Asserted-Identity fields, from 1, and where in the canonical value of
// that field. Field 0: there is none.
#[derive(Clone, Copy)]
pub struct CallerAt {
    pub field: usize,
    pub start: usize,
    pub len: usize,
}

// A part of a text. An empty part starts at 0.
#[derive(Clone, Copy)]
pub struct Span {
    pub start: usize,
    pub len: usize,
}

// The calling number as a part: whether it is a part of the trunk number or of the message, and where it stands. An empty part starts
// at 0, and is said to be of the message.
#[derive(Clone, Copy)]
pub struct CallingAt {
    pub from_trunk: bool,
    pub start: usize,
    pub len: usize,
}
