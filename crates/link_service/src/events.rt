// Gives a core one event, and says what became of its connection.
ghost use Rattle.std.specs.Prelude.{◌≡◌, ◌≢◌, ◌⊎◌, ◌+◌, ◌*◌, ◌<◌, ◌≤◌, ℕ, [], true, false, length, take, Some, None, List, Contains, OnOk, OnErr, IsErrOf};
ghost use Rattle.file_tree.specs.Tree.{is_fitting};
ghost use Rattle.file_tree.specs.declared.job.Ask.{Ask};
ghost use Rattle.file_tree.specs.declared.job.Ask.TheVariants.{Read as AskRead};
ghost use Rattle.ngx_outside.specs.Causes.{Rose};
ghost use Rattle.ngx_outside.specs.Views.{Always, Answers, Raceless, Fresh, Ticked, is_live, ask_in, kept_moment, nobody};
ghost use Rattle.ngx_outside.specs.Seen.{opens_at};
ghost use Rattle.ngx_outside.specs.Stepped.{IsReading};
ghost use Rattle.ngx_outside.specs.declared.files.FileFault.TheVariants.{Failed as ReadFailed};
ghost use Rattle.link_service.specs.Seen.{Elsewhere, Grown};
ghost use Rattle.link_service.specs.Blocks.{BlockGiven};
ghost use Rattle.link_service.specs.Passing.{Passed, Counts};
ghost use Rattle.ngx_outside.specs.Records.{Adds, Opened as OpenedGiven, Arrived as ArrivedGiven, Ended as EndedGiven, Wrote as WroteGiven, LinkFailed as LinkFailedGiven, Answered as AnsweredGiven, Run as RunGiven, Tick as TickGiven, Tree as TreeGiven, Gone as GoneGiven, Failed as FailedFile, answer_of};

use file_tree::JobAnswer;
use http_types::Addr;
use ngx_outside::{Event, EventCore, FileFault, Files, StepAnswer};

/// Bytes arrive for which there is room: all are taken, where there is memory for them.
pub fn arrived<E: EventCore>(core: &mut E, conn: u32, room: usize, bytes: &[u8])
    requires room { ((E.seen core.old).view conn).room ≡ Some room }
    requires within { length bytes.now ≤ room }
    requires some { 0 < length bytes.now }
    ensures passed { Passed (E.seen core.old).now Always ⊥ ⊥
        (Rose (E.seen core.old).refused (E.seen core.new).refused) ((E.seen core.old).view conn)
        ((E.seen core.new).view conn) bytes.now [] }
    ensures ended { ((E.seen core.new).view conn).ended ≡ ((E.seen core.old).view conn).ended }
    ensures others { Elsewhere conn (E.seen core.old).view (E.seen core.new).view }
    ensures left { (E.seen core.new).left < (E.seen core.old).left +
        (E.seen core.old).terms.price * length bytes.now + 1 }
    ensures given { Adds (ArrivedGiven conn bytes.now) (E.seen core.old).events
        (E.seen core.new).events }
    ensures steady { ((E.seen core.new).terms ≡ (E.seen core.old).terms) ×
        ((E.seen core.new).now ≡ (E.seen core.old).now) ×
        (length (E.seen core.new).conns ≡ length (E.seen core.old).conns) }
    ensures counts { Counts (E.seen core.old).refused (E.seen core.new).refused }
{
    core.step(Event::Arrived { conn, bytes });
}

/// The peer sends no more.
pub fn ended<E: EventCore>(core: &mut E, conn: u32)
    requires reads { ((E.seen core.old).view conn).room ≢ None }
    ensures passed { Passed (E.seen core.old).now Always ⊥ ⊥ ⊥ ((E.seen core.old).view conn)
        ((E.seen core.new).view conn) [] [] }
    ensures others { Elsewhere conn (E.seen core.old).view (E.seen core.new).view }
    ensures left { (E.seen core.new).left < (E.seen core.old).left + 1 }
    ensures unread { ((E.seen core.new).view conn).room ≡ None }
    ensures given { Adds (EndedGiven conn) (E.seen core.old).events (E.seen core.new).events }
    ensures steady { ((E.seen core.new).terms ≡ (E.seen core.old).terms) ×
        ((E.seen core.new).now ≡ (E.seen core.old).now) ×
        (length (E.seen core.new).conns ≡ length (E.seen core.old).conns) }
    ensures counts { Counts (E.seen core.old).refused (E.seen core.new).refused }
{
    core.step(Event::Ended { conn });
}

/// The first pending bytes were written.
pub fn wrote<E: EventCore>(core: &mut E, conn: u32, count: usize)
    requires some { 0 < count }
    requires within { count ≤ length ((E.seen core.old).view conn).pending }
    ensures passed { Passed (E.seen core.old).now Always ⊥ ⊥ ⊥ ((E.seen core.old).view conn)
        ((E.seen core.new).view conn) [] (take count ((E.seen core.old).view conn).pending) }
    ensures ended { ((E.seen core.new).view conn).ended ≡ ((E.seen core.old).view conn).ended }
    ensures others { Elsewhere conn (E.seen core.old).view (E.seen core.new).view }
    ensures left { (E.seen core.new).left < (E.seen core.old).left }
    ensures given { Adds (WroteGiven conn count) (E.seen core.old).events (E.seen core.new).events }
    ensures steady { ((E.seen core.new).terms ≡ (E.seen core.old).terms) ×
        ((E.seen core.new).now ≡ (E.seen core.old).now) ×
        (length (E.seen core.new).conns ≡ length (E.seen core.old).conns) }
    ensures counts { Counts (E.seen core.old).refused (E.seen core.new).refused }
{
    core.step(Event::Wrote { conn, count });
}

/// Reading or writing its link failed.
pub fn link_failed<E: EventCore>(core: &mut E, conn: u32)
    requires live { is_live ((E.seen core.old).view conn) ≡ true }
    ensures passed { Passed (E.seen core.old).now Always (Unit {0}) ⊥ ⊥
        ((E.seen core.old).view conn) ((E.seen core.new).view conn) [] [] }
    ensures ended { ((E.seen core.new).view conn).ended ≡ ((E.seen core.old).view conn).ended }
    ensures others { Elsewhere conn (E.seen core.old).view (E.seen core.new).view }
    ensures left { (E.seen core.new).left < (E.seen core.old).left }
    ensures stopped { is_live ((E.seen core.new).view conn) ≡ false }
    ensures given { Adds (LinkFailedGiven conn) (E.seen core.old).events (E.seen core.new).events }
    ensures steady { ((E.seen core.new).terms ≡ (E.seen core.old).terms) ×
        ((E.seen core.new).now ≡ (E.seen core.old).now) ×
        (length (E.seen core.new).conns ≡ length (E.seen core.old).conns) }
    ensures counts { Counts (E.seen core.old).refused (E.seen core.new).refused }
{
    core.step(Event::LinkFailed { conn });
}

/// A node's job is answered, by what fits it.
#[inline(always)]
pub fn file_done<E: EventCore>(core: &mut E, conn: u32, node: u32, answer: JobAnswer)
    requires waits { ask_in ((E.seen core.old).view conn).jobs node ≢ None }
    requires fits { (ask : Ask) → ask_in ((E.seen core.old).view conn).jobs node ≡ Some ask →
        is_fitting ask answer ≡ true }
    ensures passed { (ask : Ask) → ask_in ((E.seen core.old).view conn).jobs node ≡ Some ask →
        Passed (E.seen core.old).now (Answers ask answer.entry) ⊥ ⊥
        (Rose (E.seen core.old).refused (E.seen core.new).refused) ((E.seen core.old).view conn)
        ((E.seen core.new).view conn) [] [] }
    ensures ended { ((E.seen core.new).view conn).ended ≡ ((E.seen core.old).view conn).ended }
    ensures others { Elsewhere conn (E.seen core.old).view (E.seen core.new).view }
    ensures left { (E.seen core.new).left < (E.seen core.old).left }
    ensures given { Adds (AnsweredGiven conn node (answer_of answer.entry)) (E.seen core.old).events
        (E.seen core.new).events }
    ensures steady { ((E.seen core.new).terms ≡ (E.seen core.old).terms) ×
        ((E.seen core.new).now ≡ (E.seen core.old).now) ×
        (length (E.seen core.new).conns ≡ length (E.seen core.old).conns) }
    ensures counts { Counts (E.seen core.old).refused (E.seen core.new).refused }
{
    core.step(Event::FileDone { conn, node, answer });
}

/// A node's job that asks for a block of a file is answered by the files, which add the block to where the core keeps it. Where they fail
/// nothing changes in the core.
#[inline(always)]
pub fn block_done<E: EventCore, F: Files>(
    core: &mut E,
    files: &mut F,
    conn: u32,
    node: u32,
) -> Result<(), FileFault>
    requires reads { IsReading (ask_in ((E.seen core.old).view conn).jobs node) }
    requires known { (E.seen core.old).now.tree ≤ (F.seen files.old).newest }
    ensures done { (path : List ℕ) (start count of : ℕ) →
        ask_in ((E.seen core.old).view conn).jobs node ≡ Some (AskRead path start count of) →
        OnOk result (BlockGiven (F.seen files.old).tells ((F.seen files.old).trees of) path start
        count of conn node (F.seen files.old).answers (F.seen files.new).answers (E.seen core.old)
        (E.seen core.new)) }
    ensures ended { OnOk result
        (((E.seen core.new).view conn).ended ≡ ((E.seen core.old).view conn).ended) }
    ensures others { OnOk result (Elsewhere conn (E.seen core.old).view (E.seen core.new).view) }
    ensures left { OnOk result ((E.seen core.new).left < (E.seen core.old).left) }
    ensures steady { OnOk result (((E.seen core.new).terms ≡ (E.seen core.old).terms) ×
        ((E.seen core.new).now ≡ (E.seen core.old).now) ×
        (length (E.seen core.new).conns ≡ length (E.seen core.old).conns)) }
    ensures counts { OnOk result (Counts (E.seen core.old).refused (E.seen core.new).refused) }
    ensures same { OnErr result (E.seen core.new ≡ E.seen core.old) }
    ensures failed { IsErrOf result ReadFailed → Adds FailedFile (F.seen files.old).answers
        (F.seen files.new).answers }
    ensures cause { IsErrOf result ReadFailed →
        Rose (F.seen files.old).faults (F.seen files.new).faults }
    ensures grown { Grown (F.seen files.old) (F.seen files.new) }
    ensures versions { (F.seen files.new).versions ≡ (F.seen files.old).versions }
    ensures tells { (F.seen files.new).tells ≡ (F.seen files.old).tells }
{
    core.read_done(conn, node, files)?;
    Ok(())
}

/// A node's job failed.
pub fn job_failed<E: EventCore>(core: &mut E, conn: u32, node: u32)
    requires waits { ask_in ((E.seen core.old).view conn).jobs node ≢ None }
    ensures passed { Passed (E.seen core.old).now Always ⊥ (Unit {0}) ⊥
        ((E.seen core.old).view conn) ((E.seen core.new).view conn) [] [] }
    ensures ended { ((E.seen core.new).view conn).ended ≡ ((E.seen core.old).view conn).ended }
    ensures others { Elsewhere conn (E.seen core.old).view (E.seen core.new).view }
    ensures left { (E.seen core.new).left < (E.seen core.old).left }
    ensures given { Adds (AnsweredGiven conn node FailedFile) (E.seen core.old).events
        (E.seen core.new).events }
    ensures steady { ((E.seen core.new).terms ≡ (E.seen core.old).terms) ×
        ((E.seen core.new).now ≡ (E.seen core.old).now) ×
        (length (E.seen core.new).conns ≡ length (E.seen core.old).conns) }
    ensures counts { Counts (E.seen core.old).refused (E.seen core.new).refused }
{
    core.step(Event::JobFailed { conn, node });
}

/// A node runs where it can; where it can't, nothing changes.
#[inline(always)]
pub fn ran_if<E: EventCore>(core: &mut E, conn: u32, node: u32)
    ensures passed { Passed (E.seen core.old).now
        (Raceless ((E.seen core.old).view conn).raceless) ⊥ ⊥
        (Rose (E.seen core.old).refused (E.seen core.new).refused) ((E.seen core.old).view conn)
        ((E.seen core.new).view conn) [] []
        ⊎ ((E.seen core.new).view conn ≡ (E.seen core.old).view conn) }
    ensures ended { ((E.seen core.new).view conn).ended ≡ ((E.seen core.old).view conn).ended }
    ensures others { Elsewhere conn (E.seen core.old).view (E.seen core.new).view }
    ensures left { (E.seen core.new).left ≤ (E.seen core.old).left }
    ensures ready { Contains ((E.seen core.old).view conn).ready node →
        (E.seen core.new).left < (E.seen core.old).left }
    ensures given { Adds (RunGiven conn node) (E.seen core.old).events (E.seen core.new).events }
    ensures steady { ((E.seen core.new).terms ≡ (E.seen core.old).terms) ×
        ((E.seen core.new).now ≡ (E.seen core.old).now) ×
        (length (E.seen core.new).conns ≡ length (E.seen core.old).conns) }
    ensures counts { Counts (E.seen core.old).refused (E.seen core.new).refused }
{
    core.step(Event::Run { conn, node });
}

/// The link was closed, as was wanted.
pub fn gone<E: EventCore>(core: &mut E, conn: u32)
    requires shut { ((E.seen core.old).view conn).shut ≡ true }
    ensures passed { ((E.seen core.new).view conn) ≡ nobody }
    ensures others { Elsewhere conn (E.seen core.old).view (E.seen core.new).view }
    ensures left { (E.seen core.new).left < (E.seen core.old).left }
    ensures given { Adds (GoneGiven conn) (E.seen core.old).events (E.seen core.new).events }
    ensures steady { ((E.seen core.new).terms ≡ (E.seen core.old).terms) ×
        ((E.seen core.new).now ≡ (E.seen core.old).now) }
    ensures fewer { length (E.seen core.old).conns ≡ length (E.seen core.new).conns + 1 }
    ensures counts { Counts (E.seen core.old).refused (E.seen core.new).refused }
{
    core.step(Event::Gone { conn });
}

/// A connection opens. Whether the core holds it now.
pub fn opened<E: EventCore>(core: &mut E, conn: u32, local: Addr, peer: Addr) -> bool
    ensures fresh { result ≡ true → Fresh ((E.seen core.old).terms.fresh local peer)
        ((E.seen core.new).view conn) }
    ensures same { result ≡ false → (E.seen core.new).view conn ≡ (E.seen core.old).view conn }
    ensures more { result ≡ true → length (E.seen core.new).conns ≡ length
        (E.seen core.old).conns + 1 }
    ensures as_many { result ≡ false → length (E.seen core.new).conns ≡ length
        (E.seen core.old).conns }
    ensures why { result ≡ false → (opens_at (E.seen core.old) conn local ≡ false) ⊎ Rose
        (E.seen core.old).refused (E.seen core.new).refused }
    ensures others { Elsewhere conn (E.seen core.old).view (E.seen core.new).view }
    ensures given { Adds (OpenedGiven conn local peer) (E.seen core.old).events
        (E.seen core.new).events }
    ensures steady { ((E.seen core.new).terms ≡ (E.seen core.old).terms) ×
        ((E.seen core.new).now ≡ (E.seen core.old).now) }
    ensures counts { Counts (E.seen core.old).refused (E.seen core.new).refused }
{
    let answer = core.step(Event::Opened { conn, local, peer });
    match answer {
        StepAnswer::Done { taken: _ } => true,
        StepAnswer::Skipped => false,
        StepAnswer::OutOfMemory => false,
    }
}

/// The clock tells a moment.
pub fn ticked<E: EventCore>(core: &mut E, moment: u64)
    ensures ticked { (c : ℕ) → Ticked (kept_moment moment) ((E.seen core.old).view c)
        ((E.seen core.new).view c) }
    ensures ended { (c : ℕ) → ((E.seen core.new).view c).ended ≡ ((E.seen core.old).view c).ended }
    ensures moment { (E.seen core.new).now.moment ≡ kept_moment moment }
    ensures tree { (E.seen core.new).now.tree ≡ (E.seen core.old).now.tree }
    ensures given { Adds (TickGiven moment) (E.seen core.old).events (E.seen core.new).events }
    ensures steady { ((E.seen core.new).terms ≡ (E.seen core.old).terms) ×
        (length (E.seen core.new).conns ≡ length (E.seen core.old).conns) }
    ensures refused { (E.seen core.new).refused ≡ (E.seen core.old).refused }
{
    let answer = core.step(Event::Tick { now: moment });
    match answer {
        StepAnswer::Done { taken: _ } => {}
        StepAnswer::Skipped => {}
        StepAnswer::OutOfMemory => {}
    }
}

/// The tree of the files has this number, which is no smaller than the core's.
pub fn tree_told<E: EventCore>(core: &mut E, to: u64)
    requires later { (E.seen core.old).now.tree ≤ to }
    ensures views { (c : ℕ) → (E.seen core.new).view c ≡ (E.seen core.old).view c }
    ensures moment { (E.seen core.new).now.moment ≡ (E.seen core.old).now.moment }
    ensures tree { (E.seen core.new).now.tree ≡ to }
    ensures given { Adds (TreeGiven to) (E.seen core.old).events (E.seen core.new).events }
    ensures steady { ((E.seen core.new).terms ≡ (E.seen core.old).terms) ×
        (length (E.seen core.new).conns ≡ length (E.seen core.old).conns) }
    ensures refused { (E.seen core.new).refused ≡ (E.seen core.old).refused }
{
    let answer = core.step(Event::Tree { to });
    match answer {
        StepAnswer::Done { taken: _ } => {}
        StepAnswer::Skipped => {}
        StepAnswer::OutOfMemory => {}
    }
}
