// The data of a request of which variables speak.
ghost use Rattle.std.specs.Prelude.{◌≡◌, ℕ, ◌+◌, ◌-◌, ◌<◌, ◌≤◌, List, [], ◌∷◌, ◌++◌, length, replicate, OnOk, OnErr};
ghost use Rattle.ngx_variables.specs.Words.{method_name};

use crate::value::Value;
use byte_text::{ByteText, OutOfMemory};
use http_moment::LocalDate;
use http_types::{Addr, Method, Version};
use req_head::HeadFields;
use std::alloc::Global;
use std::marker::Model;

/// What a request is to its main request.
#[derive(Clone, Copy, Debug, PartialEq, Eq)]
pub enum Role {
    /// The main request itself.
    Main,
    /// A subrequest whose body is in its parent's.
    Content,
    /// A subrequest that is asked whether the main request is allowed.
    Auth,
}

/// Where the files of a level are
/// (<https://nginx.org/en/docs/http/ngx_http_core_module.html#root>, `#alias`).
#[derive(Drop)]
pub enum FileRoot {
    /// `root`: the request's path follows the text.
    Root(Value),
    /// `alias` of a location with a prefix: what follows the prefix follows the text.
    Rest { text: Value, prefix: ByteText },
    /// `alias` of a location with a regular expression: the text is the whole path.
    Whole(Value),
}

/// The texts of the groups of a request's last match, the first group first. Contracts see them as a list; a group that
/// isn't there is empty.
///
/// Empty texts at the end are counted alone, since few patterns have nine groups.
#[derive(Drop)]
pub struct Groups {
    alloc: Global,
    texts: Vec<ByteText>,
    empty: usize,
}

impl Model for Groups {
    ghost use Rattle.std.specs.Prelude.{List, ℕ, [], ◌++◌, replicate};

    ghost Value = { List (List ℕ) };

    ghost view = { λ g. g.texts.items ++ replicate g.empty [] };
}

impl Groups {
    ghost use Rattle.ngx_variables.specs.Words.{group_text};

    /// No groups, as before a match. It takes no memory.
    pub fn new(alloc: Global) -> Self
        ensures { result ≡ [] }
    {
        Groups {
            alloc,
            texts: Vec::new(alloc),
            empty: 0,
        }
    }

    /// The text of a group, whose numbers begin at 1.
    #[tactic(auto, unfolding(crate::specs::Words::group_text))]
    pub fn get(&self, number: u8) -> &[u8]
        ensures { result.now ≡ group_text self.now number }
    {
        match self
            .texts
            .as_slice()
            .get((number as usize).saturating_sub(1))
        {
            Some(text) => text.as_slice(),
            None => &[],
        }
    }

    /// Drops all groups, before those of another match are pushed.
    pub fn clear(&mut self)
        ensures { self.new ≡ [] }
    {
        self.texts.clear();
        self.empty = 0;
    }

    /// The text of the next group.
    pub fn push(&mut self, text: &[u8]) -> Result<(), OutOfMemory>
        ensures ok { OnOk result (self.new ≡ self.old ++ text.now ∷ []) }
        ensures err { OnErr result (self.new ≡ self.old) }
    {
        if text.is_empty() {
            self.empty = self.empty.checked_add(1).ok_or(OutOfMemory)?;
            return Ok(());
        }
        write_empty(self.alloc, &mut self.texts, &mut self.empty)?;
        let text = ByteText::from_slice(self.alloc, text)?;
        self.texts.push(text)?;
        Ok(())
    }
}

/// Writes the empty texts that were counted alone, before another text is pushed.
fn write_empty(
    alloc: Global,
    texts: &mut Vec<ByteText>,
    empty: &mut usize,
) -> Result<(), OutOfMemory>
    ensures kept { texts.new.items ++ replicate empty.new []
        ≡ texts.old.items ++ replicate empty.old [] }
    ensures none { OnOk result (empty.new ≡ 0) }
{
    while *empty > 0 {
        texts.push(ByteText::new(alloc))?;
        *empty -= 1;
    }
    Ok(())
}

/// What a main request and all its subrequests share. It is there once, beside the requests that refer to it.
#[derive(Drop)]
pub struct Main {
    /// The method of the request line.
    pub asked: Method,
    /// The main request's method now.
    pub method: Method,
    pub version: Version,
    /// The target as received.
    pub target: ByteText,
    /// The host that is asked for, without a port, in lower case; empty where none is.
    pub host: ByteText,
    /// The server's first name, without a leading dot; empty where it has none.
    pub server_name: ByteText,
    pub local: Addr,
    pub peer: Addr,
    /// The request's moment, in seconds since 1970.
    pub moment: u64,
    /// The number of the tree of files from which the request is answered.
    pub tree: u64,
    /// The moment as a text of the default format.
    pub date: LocalDate,
    pub fields: HeadFields,
    /// The folder at which relative paths start.
    pub folder: ByteText,
}

/// What each request has for itself, a main request or a subrequest.
#[derive(Drop)]
pub struct Request {
    pub method: Method,
    /// The path now, decoded and normal, or as it was rewritten.
    pub path: ByteText,
    /// The arguments now, without the `?`.
    pub args: ByteText,
    /// The groups of the last match.
    pub groups: Groups,
    /// Where the files of the request's level are; `None` before the request has a level.
    pub place: Option<FileRoot>,
    pub role: Role,
}

/// A method's name (RFC 9110, section 9.3).
#[tactic(auto, unfolding(crate::specs::Words::method_name))]
pub fn method_name(method: &Method) -> &[u8]
    ensures { result.now ≡ method_name method.now }
{
    match method {
        Method::Get => b"GET",
        Method::Head => b"HEAD",
        Method::Post => b"POST",
        Method::Other(name) => name.as_slice(),
    }
}
