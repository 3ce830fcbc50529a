// The journal of a connection.
ghost use Rattle.std.specs.Prelude.{◌≡◌, ◌++◌, ◌∷◌, true, [], length};
ghost use Rattle.request_journal.specs.Noted.{logged_if};

use crate::past::{Note, Past};
use byte_text::OutOfMemory;
use ngx_outside::Entry;
use std::alloc::Global;

/// The journal of a connection: `past` has its requests, of which only their number takes room, unless the journal keeps them.
#[derive(Drop)]
pub struct Journal {
    pub past: Past,
    pub keeps: bool,
    count: u64,
    kept: Vec<Entry>,
    ghost counted: { count ≡ length past.entries },
    ghost whole: { keeps ≡ true → kept.items ≡ past.entries },
}

impl Journal {
    ghost use Rattle.std.specs.Prelude.{OnOk, IfSome, is_some, nat_eq};
    ghost use Rattle.ngx_outside.specs.Views.{start_of, log_of};
    ghost use Rattle.ngx_outside.specs.declared.event.Entry.{Entry as Logged};
    ghost use Rattle.request_journal.specs.Journals.{HasRoom};

    /// A journal without requests. Those that come are kept, or only counted.
    pub fn new(alloc: Global, keeps: bool) -> Self
        ensures past { result.past.entries ≡ [] }
        ensures keeps { result.keeps ≡ keeps }
    {
        Journal {
            past: Past::new(),
            keeps,
            count: 0,
            kept: Vec::new(alloc),
        }
    }

    /// How many requests were started.
    pub fn len(&self) -> u64
        ensures { result ≡ length self.now.past.entries }
    {
        self.count
    }

    /// Whether none was started.
    pub fn is_empty(&self) -> bool
        ensures { result ≡ nat_eq (length self.now.past.entries) 0 }
    {
        self.count == 0
    }

    /// The requests, where they are kept.
    pub fn entries(&self) -> Option<&[Entry]>
        ensures entries { IfSome result (λ entries. entries.now ≡ self.now.past.entries) }
        ensures told { is_some result ≡ self.now.keeps }
    {
        if self.keeps {
            Some(self.kept.as_slice())
        } else {
            None
        }
    }

    /// Makes room for one request more.
    pub fn make_room(&mut self) -> Result<(), OutOfMemory>
        ensures past { self.new.past.entries ≡ self.old.past.entries }
        ensures keeps { self.new.keeps ≡ self.old.keeps }
        ensures room { OnOk result (HasRoom self.new) }
    {
        if self.count == u64::MAX {
            return Err(OutOfMemory);
        }
        if self.keeps {
            self.kept.reserve(1)?;
        }
        Ok(())
    }

    /// A request is started.
    pub fn enter(&mut self, entry: Entry)
        requires { HasRoom self.old }
        ensures past { self.new.past.entries ≡ self.old.past.entries ++ entry ∷ [] }
        ensures keeps { self.new.keeps ≡ self.old.keeps }
    {
        self.count += 1;
        self.past = self.past.then(&Note::Started(entry));
        if self.keeps {
            match self.kept.push(entry) {
                Ok(()) => {}
                Err(_) => unreachable!(),
            }
        }
    }

    /// The last request goes on, or is over.
    pub fn finish(&mut self, log: Option<(u16, u64)>)
        ensures past { self.new.past.entries ≡ logged_if self.old.past.entries log }
        ensures keeps { self.new.keeps ≡ self.old.keeps }
    {
        self.past = self.past.then(&Note::Over(log));
        if self.keeps {
            log_last(&mut self.kept, log);
        }
    }
}

// The last request of those that are kept is logged, where it is over.
fn log_last(kept: &mut Vec<Entry>, log: Option<(u16, u64)>)
    ensures { kept.new.items ≡ logged_if kept.old.items log }
{
    if log.is_none() || kept.is_empty() {
        return;
    }
    let last = kept.len() - 1;
    let entry = kept[last];
    kept[last] = Entry {
        moment: entry.moment,
        tree: entry.tree,
        log,
    };
}
