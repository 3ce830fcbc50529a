// The jobs of nodes, which the files answer.
ghost use Rattle.std.specs.Prelude.{◌≡◌, ◌≢◌, ◌≤◌, ◌<◌, ℕ, [], Some, None, OnOk, IfOk};
ghost use Rattle.file_tree.specs.Tree.{tree_of};
ghost use Rattle.file_tree.specs.declared.job.Ask.{Ask as AskOf};
ghost use Rattle.ngx_outside.specs.Views.{ask_in};
ghost use Rattle.memory_outside.specs.Stored.{trees_of, newest_of, block_of, failing_of};
ghost use Rattle.replay_run.specs.Told.{Told, told_of};
ghost use Rattle.replay_run.specs.Scene.{IsFound, AnswersJob};

use byte_text::OutOfMemory;
use file_tree::{Ask, JobAnswer, Node};
use memory_outside::MemoryFiles;
use ngx_outside::{Event, EventCore, FileFault, Files, StepAnswer};

/// What the files found for a job.
#[derive(Clone, Copy, Debug)]
pub(crate) enum JobResult {
    /// What is at a path.
    Node(Node),
    /// The bytes of a file, which are the files' block.
    Block,
    /// No such bytes.
    Nothing,
}

// Looks a job up in the tree that it asks of. The bytes of a file are lent as the files' block.
fn find(files: &mut MemoryFiles, ask: &Ask) -> Result<JobResult, OutOfMemory>
    requires known { tree_of ask.now ≤ newest_of files.old }
    requires sure { failing_of files.old ≡ [] }
    ensures found { IfOk result (λ found. IsFound (trees_of files.old) ask.now found
        (block_of files.new)) }
    ensures told { told_of files.new ≡ told_of files.old }
    ensures sure { failing_of files.new ≡ [] }
{
    match ask {
        Ask::Stat { path, of } => match files.stat(path.as_slice(), *of) {
            Ok(node) => Ok(JobResult::Node(node)),
            Err(_) => Ok(JobResult::Nothing),
        },
        Ask::Read {
            path,
            start,
            count,
            of,
        } => match files.read_block(path.as_slice(), *start, *count, *of) {
            Ok(()) => Ok(JobResult::Block),
            Err(FileFault::Failed) => Ok(JobResult::Nothing),
            Err(FileFault::OutOfMemory) => Err(OutOfMemory),
        },
    }
}

// Gives the core what was found for a node's job.
fn give_found<E: EventCore>(
    core: &mut E,
    conn: u32,
    node: u32,
    found: JobResult,
    block: &[u8],
) -> StepAnswer
    ensures answers { (told : Told) (ask : AskOf) →
        ask_in ((E.seen core.old).view conn).jobs node ≡ Some ask → tree_of ask ≤ told.newest →
        IsFound told.trees ask found block.now →
        AnswersJob (E.seen core.old).terms.fresh told conn node result (E.seen core.old).view
        (E.seen core.old).now (E.seen core.new).view (E.seen core.new).now }
    ensures falls { (told : Told) (ask : AskOf) →
        ask_in ((E.seen core.old).view conn).jobs node ≡ Some ask →
        IsFound told.trees ask found block.now → (E.seen core.new).left < (E.seen core.old).left }
    ensures steady { (E.seen core.new).terms ≡ (E.seen core.old).terms }
{
    match found {
        JobResult::Node(node_there) => core.step(Event::FileDone {
            conn,
            node,
            answer: JobAnswer::Stat(node_there, b""),
        }),
        JobResult::Block => core.step(Event::FileDone {
            conn,
            node,
            answer: JobAnswer::Read(block),
        }),
        JobResult::Nothing => core.step(Event::JobFailed { conn, node }),
    }
}

/// Answers a node's job from the tree that it asks of; it fails where that tree has no answer to it. Nothing happens where
/// the node has no job.
pub(crate) fn answer_job<E: EventCore>(
    core: &mut E,
    files: &mut MemoryFiles,
    conn: u32,
    node: u32,
) -> Result<StepAnswer, OutOfMemory>
    requires newest { newest_of files.old ≡ (E.seen core.old).now.tree }
    requires sure { failing_of files.old ≡ [] }
    ensures answers { IfOk result (λ a. AnswersJob (E.seen core.old).terms.fresh
        (told_of files.old) conn node a (E.seen core.old).view (E.seen core.old).now
        (E.seen core.new).view (E.seen core.new).now) }
    ensures told { told_of files.new ≡ told_of files.old }
    ensures sure { failing_of files.new ≡ [] }
    ensures falls { OnOk result (ask_in ((E.seen core.old).view conn).jobs node ≢ None →
        (E.seen core.new).left < (E.seen core.old).left) }
    ensures steady { OnOk result ((E.seen core.new).terms ≡ (E.seen core.old).terms) }
{
    let Some(ask) = core.ask(conn, node) else {
        return Ok(StepAnswer::Skipped);
    };
    let found = find(files, ask)?;
    Ok(give_found(core, conn, node, found, files.block()))
}
