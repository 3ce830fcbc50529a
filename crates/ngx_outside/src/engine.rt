// A core, by what its events do.
ghost use Rattle.std.specs.Prelude.{◌≡◌, ◌≤◌, ◌↔◌, ℕ, List, true, length, Contains, IfSome, IfOk, IsErrOf, OnErr, Some, option_copied};
ghost use Rattle.file_tree.specs.Tree.{tree_of};
ghost use Rattle.std.specs.List.Sorted.{IsStrictlyIncreasing};
ghost use Rattle.ngx_outside.specs.Views.{Steps, OpensIf, LeftBy, CountsRefused, CountsHeld, TakesNone, IsSound, now_after, ended_after, ask_in};
ghost use Rattle.ngx_outside.specs.Causes.{HasCause};
ghost use Rattle.ngx_outside.specs.Outside.{Grow};
ghost use Rattle.ngx_outside.specs.Records.{Adds, Failed as NotRead, given_of};
ghost use Rattle.ngx_outside.specs.Stepped.{Brought, IsReading};
ghost use Rattle.ngx_outside.specs.declared.files.FileFault.TheVariants.{Failed as ReadFailed};
ghost use Rattle.file_tree.specs.declared.job.Ask.TheVariants.{Read as AskRead};
ghost use Rattle.ngx_outside.specs.Seen.{CoreSeen, opens_at};
ghost use Rattle.ngx_outside.specs.Wants.{wants_at, first_doable};

use crate::{Event, FileFault, Files, StepAnswer, Want};
use file_tree::{Ask, JobAnswer};

/// A core of connections. It does no input and output of its own: it is given events, one after another, and shows what
/// it wants next. Contracts see a connection, by its number, as what it shows (`ConnView`): what is pending on it and
/// what is still to come.
pub trait EventCore {
    /// What the core shows.
    ghost seen: { Self → CoreSeen };

    /// Gives the core one event. The events Ended, Wrote, LinkFailed, JobFailed, Tick, Tree and Gone take no memory.
    fn step(&mut self, event: Event) -> StepAnswer
        ensures steps { Steps (seen self.old).terms.fresh (seen self.old).now event.entry result
            (seen self.old).view (seen self.new).view }
        ensures opens { OpensIf (opens_at (seen self.old)) event.entry result }
        ensures held { CountsHeld event.entry result (length (seen self.old).conns)
            (length (seen self.new).conns) }
        ensures ended { (c : ℕ) → ((seen self.new).view c).ended ≡ ended_after event.entry result c
            ((seen self.old).view c).ended }
        ensures taken { TakesNone event.entry result }
        ensures now { (seen self.new).now ≡ now_after (seen self.old).now event.entry result }
        ensures left { LeftBy (seen self.old).terms.price event.entry result (seen self.old).left
            (seen self.new).left }
        ensures refused { CountsRefused event.entry result (seen self.old).refused
            (seen self.new).refused }
        ensures events { Adds (given_of event.entry) (seen self.old).events (seen self.new).events }
        ensures steady { (seen self.new).terms ≡ (seen self.old).terms };

    /// The bytes that are to be written next on a connection; none where it isn't held.
    fn pending(&self, conn: u32) -> &[u8]
        ensures { result.now ≡ ((seen self.now).view conn).pending };

    /// The numbers of the connections that are held, in their order.
    fn conns(&self) -> &[u32]
        ensures conns { result.now ≡ (seen self.now).conns }
        ensures order { IsStrictlyIncreasing (seen self.now).conns }
        ensures held { (c : ℕ) → Contains (seen self.now).conns c ↔
            (((seen self.now).view c).held ≡ true) };

    /// What is to be done next on a connection: the first of its wants that can be served at once, where its link is due
    /// to be read or not, and full or not.
    fn next_want(&self, conn: u32, due: bool, full: bool) -> Option<Want>
        ensures want { result ≡ first_doable due full (wants_at conn ((seen self.now).view conn)) }
        ensures sound { IsSound ((seen self.now).view conn) };

    /// The job of a node; none where it has no job that waits. No job asks of a tree that is newer than the core's.
    fn ask(&self, conn: u32, node: u32) -> Option<&Ask>
        ensures job { option_copied result ≡ ask_in ((seen self.now).view conn).jobs node }
        ensures known { IfSome result (λ ask. tree_of ask.now ≤ (seen self.now).now.tree) };

    /// Answers the job of a node that asks for a block of a file, which the files add to what the core keeps of it: so its bytes
    /// needn't be copied. Where the files fail nothing changes, and neither where the node has no such job, which is skipped.
    fn read_done<F: Files>(
        &mut self,
        conn: u32,
        node: u32,
        files: &mut F,
    ) -> Result<StepAnswer, FileFault>
        requires known { (seen self.old).now.tree ≤ (F.seen files.old).newest }
        ensures done { (path : List ℕ) (start count of : ℕ) →
            ask_in ((seen self.old).view conn).jobs node ≡ Some (AskRead path start count of) →
            IfOk result (Brought (F.seen files.old).tells ((F.seen files.old).trees of) path start
            count conn node (F.seen files.old).answers (F.seen files.new).answers (seen self.old)
            (seen self.new)) }
        ensures same { OnErr result (seen self.new ≡ seen self.old) }
        ensures skips { (IsReading (ask_in ((seen self.old).view conn).jobs node) → ⊥) →
            seen self.new ≡ seen self.old }
        ensures failed { IsErrOf result ReadFailed → Adds NotRead (F.seen files.old).answers
            (F.seen files.new).answers }
        ensures tells { (F.seen files.new).tells ≡ (F.seen files.old).tells }
        ensures versions { (F.seen files.new).versions ≡ (F.seen files.old).versions }
        ensures grow { Grow (F.seen files.old).newest (F.seen files.new).newest
            (F.seen files.old).trees (F.seen files.new).trees }
        ensures cause { HasCause (F.seen files.old).faults (F.seen files.new).faults result
            ReadFailed }
    {
        match self.ask(conn, node) {
            Some(
                Ask::Read {
                    path,
                    start,
                    count,
                    of,
                },
            ) => files.read_block(path.as_slice(), *start, *count, *of)?,
            Some(Ask::Stat { path: _, of: _ }) => return Ok(StepAnswer::Skipped),
            None => return Ok(StepAnswer::Skipped),
        }
        let answer = JobAnswer::Read(files.block());
        Ok(self.step(Event::FileDone { conn, node, answer }))
    }

    /// How many events were refused for want of memory. The count stays at its type's end.
    fn refused(&self) -> u64
        ensures { result ≡ (seen self.now).refused };
}
