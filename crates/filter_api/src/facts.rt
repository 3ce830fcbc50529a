// What a filter is told of a body, and what it keeps of it.
use byte_text::ByteText;

/// What decides which filters act on a body, and how: whether `ssi` is on and the type is one of `ssi_types`; whether
/// there are `add_before_body` and `add_after_body` and the type is one of `addition_types`; the status; and whether it is
/// a main request's body.
#[derive(Clone, Copy, Debug, PartialEq, Eq)]
pub struct Facts {
    pub ssi: bool,
    pub ssi_type: bool,
    pub before: bool,
    pub after: bool,
    pub addition_type: bool,
    pub status: u16,
    pub main: bool,
}

/// What a filter keeps of a body between its parts: bytes, and a number, by a use of its own.
#[derive(Clone, Debug, Drop)]
pub struct FilterState {
    pub undecided: ByteText,
    pub count: u64,
}
