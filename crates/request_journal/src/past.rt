// The requests of a connection, as the proofs know them.
ghost use Rattle.std.specs.Prelude.{◌≡◌, [], List};
ghost use base.Fml.{ftrue};
ghost use Rattle.ngx_outside.specs.declared.event.Entry.{Entry as Logged};
ghost use Rattle.request_journal.specs.Entries.{entries_code};

use ngx_outside::Entry;
use std::marker::Model;

/// The requests that were started on a connection, each with what was logged of it. They exist in the proofs alone: a value has
/// no bytes.
#[derive(Drop)]
pub struct Past {
    pub ghost entries: { List Logged } by { entries_code },
}

impl Model for Past {
    ghost also_owns = { λ _. ftrue };
}

/// What becomes of the requests.
#[derive(Clone, Copy, Drop)]
pub enum Note {
    /// One is started.
    Started(Entry),
    /// The last one goes on, or is over, and this is logged of it.
    Over(Option<(u16, u64)>),
}

impl Past {
    ghost use Rattle.request_journal.specs.Noted.{noted};

    /// None was started.
    pub fn new() -> Past
        ensures { result.entries ≡ [] }
    {
        Past {}
    }

    /// The requests after a note.
    #[inline(always)]
    pub fn then(&self, _note: &Note) -> Past
        ensures { result.entries ≡ noted self.now.entries _note.now }
    {
        Past {}
    }
}
