// Which of the servers at an address answers a host.
ghost use Rattle.std.specs.Prelude.{◌≡◌, ℕ, true, List, [], ◌∷◌, ◌++◌, None, Some, OnOk, OnErr};
ghost use Rattle.site_views.specs.Choice.{or_else};
ghost use Rattle.server_choice.specs.Names.{number_of, begins_with_dot, ends_with_dot, AreAll, GetsNumber, HasSameNumbers};

use crate::NameMap;
use crate::longest::{longest_beginning, longest_ending};
use byte_text::OutOfMemory;
use ngx_pattern::{PatternSet, Spans};
use pattern_search::find_spans;
use std::alloc::Global;

/// A name `~pattern`, by the number of its pattern, and its server.
#[derive(Clone, Copy, Debug)]
pub struct Like {
    pub pattern: u32,
    pub server: u32,
}

/// The servers that listen at one address, by their names in lower case. Where several have a name it leads to the first.
#[derive(Drop)]
pub struct ServerNames {
    /// Names of hosts.
    pub exact: NameMap,
    /// Names `*.x`, by `.x`.
    pub endings: NameMap,
    /// Names `x.*`, by `x.`.
    pub beginnings: NameMap,
    /// Names `~pattern`, in the order of the text.
    pub likes: Vec<Like>,
    /// The one marked `default_server`.
    pub default: Option<u32>,
    pub first: u32,
    /// Whether each `.x` begins with its dot, and each `x.` ends with one, as those do that are read from a text.
    pub endings_dotted: bool,
    pub beginnings_dotted: bool,
    pub ghost endings_are: { endings_dotted ≡ true → AreAll begins_with_dot (number_of endings) },
    pub ghost beginnings_are: { beginnings_dotted ≡ true
        → AreAll ends_with_dot (number_of beginnings) },
}

impl ServerNames {
    ghost use Rattle.server_choice.specs.Choice.{first_like as like_of, IsChosen, IsByBeginning, HasSameButHosts, HasSameButEndings, HasSameButBeginnings, HasSameButLikes};

    /// No names; the first server at the address is this one.
    pub fn new(alloc: Global, first: u32) -> Self
        ensures exact { (text : List ℕ) → number_of result.exact text ≡ None }
        ensures endings { (text : List ℕ) → number_of result.endings text ≡ None }
        ensures beginnings { (text : List ℕ) → number_of result.beginnings text ≡ None }
        ensures likes { result.likes.items ≡ [] }
        ensures default { result.default ≡ None }
        ensures first { result.first ≡ first }
    {
        ServerNames {
            exact: NameMap::new(alloc),
            endings: NameMap::new(alloc),
            beginnings: NameMap::new(alloc),
            likes: Vec::new(alloc),
            default: None,
            first,
            endings_dotted: true,
            beginnings_dotted: true,
        }
    }

    /// Names a server by a whole host. A name that another server has stays that one's.
    pub fn add_host(&mut self, name: &[u8], server: u32) -> Result<(), OutOfMemory>
        ensures ok { OnOk result (GetsNumber self.old.exact self.new.exact name.now server) }
        ensures err { OnErr result (HasSameNumbers self.old.exact self.new.exact) }
        ensures others { HasSameButHosts self.old self.new }
    {
        self.exact.add(name, server)
    }

    /// Names a server `*.x`, by `.x`.
    pub fn add_ending(&mut self, text: &[u8], server: u32) -> Result<(), OutOfMemory>
        ensures ok { OnOk result (GetsNumber self.old.endings self.new.endings text.now server) }
        ensures err { OnErr result (HasSameNumbers self.old.endings self.new.endings) }
        ensures others { HasSameButEndings self.old self.new }
    {
        self.endings_dotted = self.endings_dotted && text.starts_with(b".");
        self.endings.add(text, server)
    }

    /// Names a server `x.*`, by `x.`.
    pub fn add_beginning(&mut self, text: &[u8], server: u32) -> Result<(), OutOfMemory>
        ensures ok { OnOk result
            (GetsNumber self.old.beginnings self.new.beginnings text.now server) }
        ensures err { OnErr result (HasSameNumbers self.old.beginnings self.new.beginnings) }
        ensures others { HasSameButBeginnings self.old self.new }
    {
        self.beginnings_dotted = self.beginnings_dotted && text.ends_with(b".");
        self.beginnings.add(text, server)
    }

    /// Names a server by a pattern, after those that are there.
    pub fn add_like(&mut self, pattern: u32, server: u32) -> Result<(), OutOfMemory>
        ensures ok { OnOk result (self.new.likes.items
            ≡ self.old.likes.items ++ record { pattern = pattern; server = server } ∷ []) }
        ensures err { OnErr result (self.new.likes.items ≡ self.old.likes.items) }
        ensures others { HasSameButLikes self.old self.new }
    {
        self.likes.push(Like { pattern, server })?;
        Ok(())
    }

    /// Makes a server the default, unless there is one.
    pub fn add_default(&mut self, server: u32)
        ensures { self.new ≡ record self.old { default = or_else self.old.default (Some server) } }
    {
        if self.default.is_none() {
            self.default = Some(server);
        }
    }

    /// The server that answers a host, which is in lower case and without its port: by its name, the longest name `*.x`, the
    /// longest name `x.*`, the first pattern that matches; else the default server, else the first.
    pub fn choose(&self, host: &[u8], patterns: &mut PatternSet) -> u32
        ensures chosen { IsChosen self.now patterns.old host.now result }
        ensures kept { patterns.new ≡ patterns.old }
    {
        if let Some(server) = self.exact.get(host) {
            return server;
        }
        if let Some(server) = longest_ending(&self.endings, self.endings_dotted, host) {
            return server;
        }
        self.choose_later(host, patterns)
    }

    // The same, where no name ends the search before those that begin a host.
    fn choose_later(&self, host: &[u8], patterns: &mut PatternSet) -> u32
        ensures chosen { IsByBeginning self.now patterns.old host.now result }
        ensures kept { patterns.new ≡ patterns.old }
    {
        if let Some(server) = longest_beginning(&self.beginnings, self.beginnings_dotted, host) {
            return server;
        }
        match self.first_like(host, patterns) {
            Some(server) => server,
            None => self.default.unwrap_or(self.first),
        }
    }

    // The server of the first pattern that matches the host.
    fn first_like(&self, host: &[u8], patterns: &mut PatternSet) -> Option<u32>
        ensures server { result ≡ like_of patterns.old self.now.likes.items host.now }
        ensures kept { patterns.new ≡ patterns.old }
    {
        for like in &self.likes {
            let mut spans = Spans::new();
            if find_spans(patterns, like.pattern, host, &mut spans) {
                return Some(like.server);
            }
        }
        None
    }
}
