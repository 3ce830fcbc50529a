// Where a request is within its rewrite programs.
use byte_text::ByteText;
use ngx_variables::{Main, Request};
use site_whole::site_model::Site;
use std::alloc::Global;

/// What stays while a program runs: the allocator, the site, and the main request.
#[derive(Clone, Copy)]
pub struct Setting<'a> {
    pub alloc: Global,
    pub site: &'a Site,
    pub main: &'a Main,
}

/// Where a request is as its programs run.
#[derive(Drop)]
pub struct Progress {
    /// The request as it is now.
    pub request: Request,
    /// The number of the level that holds now: a true `if` of a location takes the request into its own.
    pub level: u32,
    /// Whether the request comes from inside: a `rewrite` makes it so.
    pub inside: bool,
    /// Whether a location is to be sought after this program.
    pub seeks: bool,
}

/// What a program came to.
#[derive(Drop)]
pub enum Ending {
    /// It came to its end: the request goes on where it is now, or a location is sought where it `seeks` one.
    End,
    /// `return`: this status, with a text or without one.
    Status { code: u16, text: Option<ByteText> },
    /// A redirect, to an address or (of `return 301;`) without one.
    Redirect { code: u16, to: Option<ByteText> },
    /// `return 444`: the connection is closed.
    Close,
    /// An evaluated text has more than 16384 bytes, or a `rewrite` gave a path that doesn't begin with `/`: the request
    /// fails with 500. `leading` where the text is of a `set` of the run that begins the program.
    Failed { leading: bool },
}

/// As far as a program came.
#[derive(Drop)]
pub enum RunStep {
    Ended(Ending),
    /// A file test wants to know what is at a path. `at` is its place in the program, from which `resume` goes on.
    Test { path: ByteText, at: usize },
}
