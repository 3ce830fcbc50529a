// The values of a level beside those of its files: each is as its directive's page of nginx's reference says.
ghost use Rattle.std.specs.Prelude.{◌≡◌, List, []};

use byte_text::{ByteText, ByteTexts};
use ngx_variables::Value;

/// A name of `index` (nginx's index module). One that begins with a slash is a path of the site.
#[derive(Drop)]
pub struct IndexName {
    pub text: Value,
    pub is_path: bool,
}

/// What `try_files` comes to where it finds none of its names: a path, a location `@name`, or a code.
#[derive(Drop)]
pub enum LastTry {
    Path(Value),
    Location(ByteText),
    Code(u16),
}

/// The names of `try_files`, and what comes after them. No level inherits them.
#[derive(Drop)]
pub struct Tries {
    pub names: Vec<Value>,
    pub last: LastTry,
}

/// The status that the page of an error is shown with: the error's own, that of `=N`, or for `=` the answer's.
#[derive(Clone, Copy)]
pub enum Shown {
    OwnCode,
    Fixed(u16),
    ByAnswer,
}

/// Where the page of an error is: at a path, in a location `@name`, or at another address.
#[derive(Drop)]
pub enum PageTarget {
    Path(Value),
    Location(ByteText),
    Url(Value),
}

/// A rule of `error_page`: the codes that it is for, the status that is shown, and its page.
#[derive(Drop)]
pub struct PageRule {
    pub codes: Vec<u16>,
    pub shown: Shown,
    pub target: PageTarget,
}

/// The types of `ssi_types` or `addition_types` beside text/html; `every` is for `*`.
#[derive(Drop)]
pub struct MediaTypes {
    pub every: bool,
    pub types: ByteTexts,
}

/// An `auth_request_set`: the variable's name, and its text.
#[derive(Drop)]
pub struct AuthSet {
    pub name: ByteText,
    pub text: Value,
}

/// The names of `index` that levels share.
#[derive(Drop)]
pub struct IndexNames {
    pub names: Vec<IndexName>,
}

/// The rules of `error_page` that levels share, in the order of the text.
#[derive(Drop)]
pub struct PageRules {
    pub rules: Vec<PageRule>,
}

/// The `auth_request_set`s that levels share.
#[derive(Drop)]
pub struct AuthSets {
    pub sets: Vec<AuthSet>,
}
