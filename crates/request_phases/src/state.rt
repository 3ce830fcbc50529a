// A request in its phases.
use byte_text::ByteText;
use file_tree::Node;
use ngx_variables::{Main, Role};
use rewrite_code::{Progress, RunStep};
use site_model::Shown;
use try_index::{IndexState, TryState};

/// The error that was handled last, and the status that its page is shown with
/// (<https://nginx.org/en/docs/http/ngx_http_core_module.html#error_page>).
#[derive(Clone, Copy)]
pub struct Handled {
    pub code: u16,
    pub shown: Shown,
}

/// A request in its phases.
#[derive(Drop)]
pub struct Phases {
    /// The main request as it is now.
    pub main: Main,
    /// The request as it is now, and the level that holds for it.
    pub at: Progress,
    /// How many changes are left; one more after these is an error.
    pub changes: u8,
    pub error: Option<Handled>,
    /// Whether an error was met that closes the connection after the response.
    pub closes: bool,
    /// What the request was to its main request as this round of phases began.
    pub role: Role,
}

/// What a request waits for that asked the files for what is at a path.
#[derive(Drop)]
pub enum Wait {
    /// A file test of a rewrite program: that of the level with this number, at this place in it; of the server's own
    /// program or of a location's.
    Test {
        level: u32,
        place: usize,
        at_server: bool,
    },
    /// A name of `try_files`, and of `index`.
    Try(TryState),
    Index(IndexState),
    /// Whether the folder is there of which no index was found.
    Folder,
    /// The request's own file.
    File,
}

/// How far the program of the level with this number came.
#[derive(Drop)]
pub(crate) struct Ran {
    pub level: u32,
    pub step: RunStep,
}

/// A search of the names of `try_files`, and what is at the path that it asked for last, where that was told.
#[derive(Drop)]
pub(crate) struct Search {
    pub state: TryState,
    pub answer: Option<Node>,
}

/// Where the phases begin: at the server's program, at the search of a location, or at a location `@name`.
#[derive(Drop)]
pub(crate) enum From {
    Start,
    Find,
    Named(ByteText),
}

/// What phases decide for a request.
#[derive(Drop)]
pub(crate) enum Decision {
    /// A text with a status.
    Text { code: u16, text: ByteText },
    /// The file at the path that was asked for last, of this length in bytes and this date in seconds since 1970.
    File { len: u64, date: u64 },
    /// An error, which goes by `error_page`; and one that is answered by the built-in page at once.
    Error(u16),
    Page(u16),
    /// A redirect of the client.
    Redirect { code: u16, to: Option<ByteText> },
    /// The connection is closed.
    Close,
    /// A location is sought again for the path as it was rewritten.
    Seek,
    /// A redirect inside, to a path with its arguments, and to a location `@name`.
    Inside { path: ByteText, args: ByteText },
    Named(ByteText),
}

/// As far as phases came.
#[derive(Drop)]
pub(crate) enum Reached {
    /// The files are asked what is at this path.
    Waits { wait: Wait, path: ByteText },
    /// A subrequest to this path is asked whether the request is let in.
    Calls(ByteText),
    Decides(Decision),
}

/// What a request is answered.
#[derive(Drop)]
pub enum Conclusion {
    /// A text with a status.
    Text { code: u16, text: ByteText },
    /// The file at the path that was asked for last, of this length in bytes and this date in seconds since 1970.
    File { len: u64, date: u64 },
    /// The built-in page of a code.
    Page(u16),
    /// A redirect of the client.
    Redirect { code: u16, to: Option<ByteText> },
    /// The connection is closed without an answer.
    Close,
}

/// What a request does next.
#[derive(Drop)]
pub enum Step {
    /// The files are asked what is at this path; `resume` goes on with what they tell.
    Asks { wait: Wait, path: ByteText },
    /// A subrequest to this path is asked whether the request is let in.
    Calls(ByteText),
    /// The phases are over.
    Answers(Conclusion),
}
