// A node of a family.
ghost use Rattle.std.specs.Prelude.{◌≤◌, length};

use crate::answered::Answered;
use byte_text::ByteText;
use file_tree::{Ask, Found};
use page_body::Page;
use page_body::ssi_values::Table;
use request_reply::request_phases::{Phases, Wait};
use withheld_text::Withheld;

/// What a body comes from: a text, and then this many bytes of a file, which is read at least once,
/// an empty one too: it is unread where no block of it came yet.
#[derive(Drop)]
pub struct Source {
    pub text: ByteText,
    pub left: u64,
    pub unread: bool,
}

/// The body of a node: what is answered beside it; bytes that are placed next, from `from` on; what
/// comes after them; and the page that filters make of that, where some act on it.
#[derive(Drop)]
pub struct Body {
    pub answered: Answered,
    pub bytes: ByteText,
    pub from: usize,
    pub source: Source,
    pub page: Option<Page>,
    ghost within: { from ≤ length bytes },
}

/// A body whose page has a variable of this name for the body of a subrequest, which is this text
/// once the node doesn't wait for it any more.
#[derive(Drop)]
pub struct Capture {
    pub body: Box<Body>,
    pub name: ByteText,
    pub text: Withheld,
}

/// How far a node is. Until its body begins it has the variables with which its document begins.
#[derive(Drop)]
pub enum Stage {
    /// Its phases haven't begun.
    Begins(Table),
    /// The files are asked what is at a path.
    Asks { wait: Wait, ssi: Table },
    /// They told it.
    Told { wait: Wait, file: Found, ssi: Table },
    /// Bytes of its body are placed next.
    Places(Box<Body>),
    /// The next part of its page is taken up, or the next block of its file is asked.
    Serves(Box<Body>),
    /// A block of its file is asked.
    Reads(Box<Body>),
    /// The body of a subrequest goes into a variable of its page.
    Captures(Capture),
    /// It has come to its answer, with nothing left of its body.
    Ends(Box<Body>),
}

/// Where the bytes of a node go.
#[derive(Drop)]
pub enum Place {
    /// To the order, at its place there.
    Row,
    /// It isn't known yet whether its stub is at its place or its body: these bytes of its body
    /// came so far.
    Stub {
        stub: ByteText,
        text: Withheld,
    },
    /// It isn't known yet either, and bytes of its subrequests come to it: these bytes of its body came
    /// after theirs.
    Gathers {
        stub: ByteText,
        text: Withheld,
    },
    /// To its parent: these bytes of its body came so far. It may have a stub that takes the place
    /// of an empty body, or of one with a status of 400 or above.
    Captured {
        stub: Option<ByteText>,
        text: Withheld,
    },
}

/// A node of a family.
#[derive(Drop)]
pub struct Node {
    /// Its parent's number; the main request has its own.
    pub parent: u32,
    /// How many levels of subrequests it may still open.
    pub left: u32,
    /// How many of its subrequests aren't over, and the number of the one for whose end it waits,
    /// if there is one.
    pub children: u32,
    pub waits: Option<u32>,
    /// The number of the subrequest for whose body it waits, if there is one.
    pub asks: Option<u32>,
    pub place: Place,
    /// The bytes of its parent that come right before its own, where its own come to its parent,
    /// which doesn't wait for them.
    pub before: Withheld,
    /// Its phases, in which the main request's method alone counts.
    pub phases: Phases,
    /// Its job, or its last one, and from which byte on its file is read next.
    pub ask: Ask,
    pub start: u64,
    pub stage: Stage,
    /// It has come to its answer, and so have all its subrequests.
    pub over: bool,
}
