// What a script says.
ghost use Rattle.std.specs.Prelude.{◌≡◌, List, [], ◌∷◌, ◌++◌, OnOk, OnErr};
ghost use Rattle.replay_text.specs.declared.parts.Conf.{Conf};
ghost use Rattle.replay_text.specs.declared.parts.TreeLine.{TreeLine};
ghost use Rattle.replay_text.specs.declared.parts.EventLine.{EventLine};

use byte_text::{ByteText, OutOfMemory};
use http_types::Addr;
use std::alloc::Global;
use std::marker::Model;

/// A configuration text, and the path under which it is known.
#[derive(Drop)]
pub struct Conf {
    pub path: ByteText,
    pub bytes: ByteText,
}

/// A line about the tree of files. A later line about a path replaces an earlier one.
#[derive(Drop)]
pub enum TreeLine {
    /// A file, its date in seconds since 1970, and its bytes.
    File {
        path: ByteText,
        date: u64,
        bytes: ByteText,
    },
    Folder {
        path: ByteText,
    },
    /// Something at the path that may not be read.
    Locked {
        path: ByteText,
    },
}

/// An event of the run. Connections and the nodes of their requests go by number.
#[derive(Drop)]
pub enum EventLine {
    /// A connection is opened between these ends.
    Open { conn: u32, local: Addr, peer: Addr },
    /// These bytes, at least one, come on the connection.
    Bytes { conn: u32, bytes: ByteText },
    /// No more bytes come.
    End { conn: u32 },
    /// Up to `count` bytes can be sent.
    Room { conn: u32, count: u64 },
    /// The node's job is answered from the tree.
    File { conn: u32, node: u32 },
    /// The node's job fails.
    FileFails { conn: u32, node: u32 },
    /// The node goes on.
    Run { conn: u32, node: u32 },
    /// The moment is now `now` seconds since 1970.
    Tick { now: u64 },
    /// The tree changes by this line.
    Tree { line: TreeLine },
    /// Nothing is at the path any more.
    TreeGone { path: ByteText },
    /// What can be served is served, until nothing can.
    Drain,
}

/// Configuration texts in order, the main one first. Contracts see their list.
#[derive(Drop)]
pub struct Confs {
    confs: Vec<Conf>,
}

impl Model for Confs {
    ghost Value = { List Conf };

    ghost view = { λ c. c.confs.items };
}

impl Confs {
    /// The empty list, which takes no memory.
    pub fn new(alloc: Global) -> Self
        ensures { result ≡ [] }
    {
        Confs {
            confs: Vec::new(alloc),
        }
    }

    /// Takes this list over, with no copy.
    pub fn from_vec(confs: Vec<Conf>) -> Self
        ensures { result ≡ confs.items }
    {
        Confs { confs }
    }

    /// Gives the list back, with no copy.
    pub fn into_vec(self) -> Vec<Conf>
        ensures { result.items ≡ self }
    {
        self.confs
    }

    pub fn as_slice(&self) -> &[Conf]
        ensures { result.now ≡ self.now }
    {
        self.confs.as_slice()
    }

    pub fn push(&mut self, conf: Conf) -> Result<(), OutOfMemory>
        ensures ok { OnOk result (self.new ≡ self.old ++ conf ∷ []) }
        ensures err { OnErr result (self.new ≡ self.old) }
    {
        self.confs.push(conf)?;
        Ok(())
    }
}

/// Lines about the tree in order. Contracts see their list.
#[derive(Drop)]
pub struct TreeLines {
    lines: Vec<TreeLine>,
}

impl Model for TreeLines {
    ghost Value = { List TreeLine };

    ghost view = { λ t. t.lines.items };
}

impl TreeLines {
    /// The empty list, which takes no memory.
    pub fn new(alloc: Global) -> Self
        ensures { result ≡ [] }
    {
        TreeLines {
            lines: Vec::new(alloc),
        }
    }

    /// Takes this list over, with no copy.
    pub fn from_vec(lines: Vec<TreeLine>) -> Self
        ensures { result ≡ lines.items }
    {
        TreeLines { lines }
    }

    /// Gives the list back, with no copy.
    pub fn into_vec(self) -> Vec<TreeLine>
        ensures { result.items ≡ self }
    {
        self.lines
    }

    pub fn as_slice(&self) -> &[TreeLine]
        ensures { result.now ≡ self.now }
    {
        self.lines.as_slice()
    }

    pub fn push(&mut self, line: TreeLine) -> Result<(), OutOfMemory>
        ensures ok { OnOk result (self.new ≡ self.old ++ line ∷ []) }
        ensures err { OnErr result (self.new ≡ self.old) }
    {
        self.lines.push(line)?;
        Ok(())
    }
}

/// Events in order. Contracts see their list.
#[derive(Drop)]
pub struct EventLines {
    lines: Vec<EventLine>,
}

impl Model for EventLines {
    ghost Value = { List EventLine };

    ghost view = { λ e. e.lines.items };
}

impl EventLines {
    /// The empty list, which takes no memory.
    pub fn new(alloc: Global) -> Self
        ensures { result ≡ [] }
    {
        EventLines {
            lines: Vec::new(alloc),
        }
    }

    /// Takes this list over, with no copy.
    pub fn from_vec(lines: Vec<EventLine>) -> Self
        ensures { result ≡ lines.items }
    {
        EventLines { lines }
    }

    /// Gives the list back, with no copy.
    pub fn into_vec(self) -> Vec<EventLine>
        ensures { result.items ≡ self }
    {
        self.lines
    }

    pub fn as_slice(&self) -> &[EventLine]
        ensures { result.now ≡ self.now }
    {
        self.lines.as_slice()
    }

    pub fn push(&mut self, line: EventLine) -> Result<(), OutOfMemory>
        ensures ok { OnOk result (self.new ≡ self.old ++ line ∷ []) }
        ensures err { OnErr result (self.new ≡ self.old) }
    {
        self.lines.push(line)?;
        Ok(())
    }
}

/// A script: its configuration texts, its tree and its events.
#[derive(Drop)]
pub struct Script {
    pub confs: Confs,
    pub tree: TreeLines,
    pub events: EventLines,
}
