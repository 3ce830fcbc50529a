// Runs nodes, and answers their jobs from the files.
ghost use Rattle.std.specs.Prelude.{◌≡◌, ◌≢◌, ◌+◌, ◌*◌, ◌<◌, ◌≤◌, ℕ, [], true, false, length, take, Some, None, List, Contains, OnOk, IfOk, Option, is_some};
ghost use Rattle.ngx_outside.specs.Views.{ask_in};
ghost use Rattle.ngx_outside.specs.Seen.{FilesSeen};
ghost use Rattle.link_service.specs.Nodes.{Served, Spares};

use crate::events::{block_done, file_done, job_failed, ran_if};
use byte_text::OutOfMemory;
use file_tree::{Ask, JobAnswer};
use ngx_outside::{EventCore, Failed, FileFault, Files};

/// Where this many bytes are pending, they are written before more is asked of the files: so the room in which they wait runs empty,
/// and none of them is moved in it.
pub const MUCH: usize = 65536;

// A block of this many bytes is a whole one of a file of which more may come.
const LARGE: u64 = 16384;

// Whether what comes next waits until what is pending is written: where a large block came last, and much is pending.
#[inline(always)]
fn has_much<E: EventCore>(core: &E, conn: u32, large: bool) -> bool {
    large && core.pending(conn).len() >= MUCH
}

// Lets a node run where it can.
#[inline(always)]
fn runs_if<E: EventCore>(core: &mut E, conn: u32, node: u32)
    requires held { ((E.seen core.old).view conn).held ≡ true }
    ensures served { (files : FilesSeen) →
        Served (E.seen core.old) (E.seen core.new) files files }
    ensures held { ((E.seen core.new).view conn).held ≡ true }
    ensures left { (E.seen core.new).left ≤ (E.seen core.old).left }
    ensures ready { Contains ((E.seen core.old).view conn).ready node →
        (E.seen core.new).left < (E.seen core.old).left }
    ensures spares { (files : FilesSeen) →
        Spares conn (E.seen core.old) (E.seen core.new) files files }
{
    ran_if(core, conn, node);
}

// The bytes that came with a look: those that are lent, where it found all of a file.
#[inline(always)]
fn bytes_of<F: Files>(files: &F, whole: bool) -> &[u8]
    ensures { result.now ≢ [] → (whole ≡ true) × ((F.seen files.now).block ≡ result.now) }
{
    if whole { files.block() } else { b"" }
}

// Answers the job of a node from the files, or tells the core that it failed: whether a large block came. None where the node has no
// job.
#[inline(always)]
fn job_if<E: EventCore, F: Files>(
    core: &mut E,
    files: &mut F,
    conn: u32,
    node: u32,
) -> Result<Option<bool>, OutOfMemory>
    requires known { (E.seen core.old).now.tree ≤ (F.seen files.old).newest }
    ensures served { OnOk result (Served (E.seen core.old) (E.seen core.new) (F.seen files.old)
        (F.seen files.new)) }
    ensures held { IfOk result (λ large. is_some large ≡ true →
        ((E.seen core.new).view conn).held ≡ true) }
    ensures same { IfOk result (λ large. large ≡ None → E.seen core.new ≡ E.seen core.old) }
    ensures falls { IfOk result (λ large. is_some large ≡ true →
        (E.seen core.new).left < (E.seen core.old).left) }
    ensures waits { ask_in ((E.seen core.old).view conn).jobs node ≢ None →
        IfOk result (λ large. is_some large ≡ true) }
    ensures spares { Spares conn (E.seen core.old) (E.seen core.new) (F.seen files.old)
        (F.seen files.new) }
{
    let Some(ask) = core.ask(conn, node) else {
        return Ok(None);
    };
    match ask {
        Ask::Stat { path, of } => {
            match files.look(path.as_slice(), *of) {
                Ok(look) => {
                    let text = bytes_of(files, look.whole);
                    file_done(core, conn, node, JobAnswer::Stat(look.node, text));
                }
                Err(Failed) => job_failed(core, conn, node),
            }
            Ok(Some(false))
        }
        Ask::Read { count, .. } => {
            let large = *count >= LARGE;
            match block_done(core, files, conn, node) {
                Ok(()) => Ok(Some(large)),
                Err(FileFault::Failed) => {
                    job_failed(core, conn, node);
                    Ok(Some(false))
                }
                Err(FileFault::OutOfMemory) => Err(OutOfMemory),
            }
        }
    }
}

/// Answers the job of a node from the files, or tells the core that it failed. Whether a large block came.
#[inline(always)]
pub fn job_one<E: EventCore, F: Files>(
    core: &mut E,
    files: &mut F,
    conn: u32,
    node: u32,
) -> Result<bool, OutOfMemory>
    requires waits { ask_in ((E.seen core.old).view conn).jobs node ≢ None }
    requires known { (E.seen core.old).now.tree ≤ (F.seen files.old).newest }
    ensures served { OnOk result (Served (E.seen core.old) (E.seen core.new) (F.seen files.old)
        (F.seen files.new)) }
    ensures held { OnOk result (((E.seen core.new).view conn).held ≡ true) }
    ensures falls { OnOk result ((E.seen core.new).left < (E.seen core.old).left) }
    ensures spares { Spares conn (E.seen core.old) (E.seen core.new) (F.seen files.old)
        (F.seen files.new) }
{
    match job_if(core, files, conn, node)? {
        Some(large) => Ok(large),
        None => Ok(false),
    }
}

// Lets a node run where it can, and answers its job then, if it has one that is answered at once: not where a large block came last and
// much is pending. Whether a large block came; none where no job was answered.
#[inline(always)]
fn goes_one<E: EventCore, F: Files>(
    core: &mut E,
    files: &mut F,
    conn: u32,
    node: u32,
    large: bool,
) -> Result<Option<bool>, OutOfMemory>
    requires held { ((E.seen core.old).view conn).held ≡ true }
    requires known { (E.seen core.old).now.tree ≤ (F.seen files.old).newest }
    ensures served { OnOk result (Served (E.seen core.old) (E.seen core.new) (F.seen files.old)
        (F.seen files.new)) }
    ensures held { OnOk result (((E.seen core.new).view conn).held ≡ true) }
    ensures left { OnOk result ((E.seen core.new).left ≤ (E.seen core.old).left) }
    ensures falls { IfOk result (λ large. is_some large ≡ true →
        (E.seen core.new).left < (E.seen core.old).left) }
    ensures ready { OnOk result (Contains ((E.seen core.old).view conn).ready node →
        (E.seen core.new).left < (E.seen core.old).left) }
    ensures spares { Spares conn (E.seen core.old) (E.seen core.new) (F.seen files.old)
        (F.seen files.new) }
{
    runs_if(core, conn, node);
    if has_much(core, conn, large) {
        return Ok(None);
    }
    Ok(job_if(core, files, conn, node)?)
}

/// Lets a node run where it can, and answers its job from the files, until it has none: what it asks for next it is asked at once,
/// with no look at what else is to be done on its connection, until much is pending. `large` says whether a large block came last.
#[inline(always)]
pub fn work_off<E: EventCore, F: Files>(
    core: &mut E,
    files: &mut F,
    conn: u32,
    node: u32,
    large: bool,
) -> Result<(), OutOfMemory>
    requires held { ((E.seen core.old).view conn).held ≡ true }
    requires known { (E.seen core.old).now.tree ≤ (F.seen files.old).newest }
    ensures served { OnOk result (Served (E.seen core.old) (E.seen core.new) (F.seen files.old)
        (F.seen files.new)) }
    ensures held { OnOk result (((E.seen core.new).view conn).held ≡ true) }
    ensures left { OnOk result ((E.seen core.new).left ≤ (E.seen core.old).left) }
    ensures ready { OnOk result (Contains ((E.seen core.old).view conn).ready node →
        (E.seen core.new).left < (E.seen core.old).left) }
    ensures spares { Spares conn (E.seen core.old) (E.seen core.new) (F.seen files.old)
        (F.seen files.new) }
{
    let mut large = large;
    while let Some(now_large) = goes_one(core, files, conn, node, large)? {
        large = now_large;
    }
    Ok(())
}
