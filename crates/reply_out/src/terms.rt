// A request within its phases, and what its response is made with.
use http_types::Version;
use request_opening::blank as blank_phases;
use request_reply::request_phases::Phases;
use site_model::ngx_variables::VarTable;
use std::alloc::Global;

/// What a response is made with, beside what is answered: the moment at which the request started,
/// in seconds since 1970, its version, whether no body is sent (HEAD), how many requests came
/// before on the connection, and whether its head lets the connection stay open (RFC 9112, 9.3).
#[derive(Clone, Copy, Debug, PartialEq, Eq)]
pub struct Terms {
    pub moment: u64,
    pub version: Version,
    pub no_body: bool,
    pub before: u64,
    pub head_keeps: bool,
}

/// A request within its phases.
#[derive(Drop)]
pub struct InPhases {
    pub phases: Phases,
    /// The variables that its rewrite programs set.
    pub vars: VarTable,
    pub terms: Terms,
    /// The number of the server that answers, and the length in bytes that the head states of the
    /// request's own body: what the request is served over is found by them again.
    pub server: u32,
    pub length: u64,
    /// No more questions to the files than these may follow: far more than a configuration can make
    /// a request ask.
    pub questions: u32,
    /// How many subrequests were asked whether it is let in.
    pub opened: u8,
}

/// Room for a request within its phases.
pub(crate) fn blank(alloc: Global) -> InPhases {
    InPhases {
        phases: blank_phases(alloc),
        vars: VarTable::new(alloc),
        terms: Terms {
            moment: 0,
            version: Version::V11,
            no_body: false,
            before: 0,
            head_keeps: false,
        },
        server: 0,
        length: 0,
        questions: 0,
        opened: 0,
    }
}
