// The journal of the requests of a connection.
ghost use Rattle.std.specs.Prelude.{◌≡◌, ◌++◌, ◌∷◌, true, not, [], length, is_some, map};
ghost use Rattle.ngx_outside.specs.Views.{start_of, log_of};
ghost use Rattle.ngx_outside.specs.declared.event.Entry.{Entry as Logged};
ghost use Rattle.response_flow.specs.request_flow.Rests.{logged_by};
ghost use Rattle.request_journal.specs.Journals.{HasRoom};
ghost use Rattle.http_connection.specs.Steps.{logged_in, IsLogged};

use ngx_outside::Entry;
use request_journal::Journal;

// A request is written into the journal, which has room for it.
pub(crate) fn enter(journal: &mut Journal, moment: u64, tree: u64, log: Option<(u16, u64)>)
    requires { HasRoom journal.old }
    ensures entry { (entry : Logged) × (start_of entry ≡ record { moment = moment; tree = tree }) ×
        (log_of entry ≡ log) ×
        (journal.new.past.entries ≡ journal.old.past.entries ++ entry ∷ []) }
    ensures keeps { journal.new.keeps ≡ journal.old.keeps }
{
    journal.enter(Entry { moment, tree, log });
}

// The last request that was started, which is in flight, is logged where it is over.
pub(crate) fn finish(journal: &mut Journal, log: Option<(u16, u64)>)
    requires { IsLogged true journal.old.past.entries }
    ensures starts { map start_of journal.new.past.entries ≡
        map start_of journal.old.past.entries }
    ensures count { length journal.new.past.entries ≡ length journal.old.past.entries }
    ensures logged { IsLogged (not (is_some log)) journal.new.past.entries }
    ensures log { logged_in journal.new.past.entries ≡
        logged_in journal.old.past.entries ++ logged_by log }
    ensures keeps { journal.new.keeps ≡ journal.old.keeps }
{
    journal.finish(log);
}
