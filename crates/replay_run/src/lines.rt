// Runs the lines of a script on a core.
ghost use Rattle.std.specs.Prelude.{◌≡◌, ◌++◌, ℕ, List, [], OnOk, IfOk};
ghost use Rattle.memory_outside.specs.Stored.{newest_of, failing_of, item_of as stored_item};
ghost use Rattle.replay_run.specs.Told.{told_of, told_after, told_in, told_next, next_number};
ghost use Rattle.replay_run.specs.Scene.{stage, lane_in};
ghost use Rattle.replay_run.specs.Standing.{AllStanding};
ghost use Rattle.replay_run.specs.Plays.{LineDoes, ChangesTree, Plays, skipped_after, refused_after, sent_in, AreOpenedBy};

use crate::tree::{change, item_in, path_in};
use crate::{LinkEnds, Player};
use byte_text::OutOfMemory;
use memory_outside::{MemoryFiles, StoredItem};
use ngx_outside::{Event, EventCore, Files, StepAnswer};
use replay_text::EventLine;

// The number after this one.
#[tactic(auto, unfolding(crate::specs::Told::next_number))]
fn next_of(number: u64) -> u64
    ensures { result ≡ next_number number }
{
    number.saturating_add(1)
}

// The newest tree of the files is the next one, with this item at this path, where the core takes its number.
fn change_tree<E: EventCore>(
    player: &Player,
    core: &mut E,
    files: &mut MemoryFiles,
    path: &[u8],
    item: StoredItem,
) -> Result<StepAnswer, OutOfMemory>
    requires { newest_of files.old ≡ (E.seen core.old).now.tree }
    ensures plain { IfOk result (λ a. ChangesTree (E.seen core.old).terms.fresh
        (told_of files.old) a
        (stage (E.seen core.old).view (E.seen core.old).now player.now.lanes.items)
        (stage (E.seen core.new).view (E.seen core.new).now player.now.lanes.items)) }
    ensures told { OnOk result (told_of files.new ≡ told_next path.now (stored_item item)
        (told_of files.old)) }
    ensures sure { failing_of files.new ≡ failing_of files.old }
    ensures newest { OnOk result (newest_of files.new ≡ (E.seen core.new).now.tree) }
    ensures steady { (E.seen core.new).terms ≡ (E.seen core.old).terms }
{
    let to = next_of(files.version());
    let answer = player.give(core, Event::Tree { to });
    match answer {
        StepAnswer::Done { taken: _ } => {
            change(player.alloc, files, path, item)?;
            Ok(answer)
        }
        StepAnswer::Skipped => Ok(answer),
        StepAnswer::OutOfMemory => Ok(answer),
    }
}

// Runs one line.
fn run_line<E: EventCore>(
    player: &mut Player,
    core: &mut E,
    files: &mut MemoryFiles,
    line: &EventLine,
) -> Result<StepAnswer, OutOfMemory>
    requires newest { newest_of files.old ≡ (E.seen core.old).now.tree }
    requires sure { failing_of files.old ≡ [] }
    ensures does { IfOk result (λ a. LineDoes (E.seen core.old).terms (told_of files.old) line.now a
        (stage (E.seen core.old).view (E.seen core.old).now player.old.lanes.items)
        (stage (E.seen core.new).view (E.seen core.new).now player.new.lanes.items)) }
    ensures told { OnOk result (told_of files.new ≡ told_after line.now (told_of files.old)) }
    ensures sure { OnOk result (failing_of files.new ≡ []) }
    ensures newest { OnOk result (newest_of files.new ≡ (E.seen core.new).now.tree) }
    ensures steady { OnOk result ((E.seen core.new).terms ≡ (E.seen core.old).terms) }
{
    match line {
        EventLine::Open { conn, local, peer } => player.open(
            core,
            *conn,
            LinkEnds {
                local: *local,
                peer: *peer,
            },
        ),
        EventLine::Bytes { conn, bytes } => player.send(core, *conn, bytes.as_slice()),
        EventLine::End { conn } => player.close(core, *conn),
        EventLine::Room { conn, count } => player.write(core, *conn, *count),
        EventLine::File { conn, node } => player.answer(core, files, *conn, *node),
        EventLine::FileFails { conn, node } => Ok(player.give(
            core,
            Event::JobFailed {
                conn: *conn,
                node: *node,
            },
        )),
        EventLine::Run { conn, node } => Ok(player.give(
            core,
            Event::Run {
                conn: *conn,
                node: *node,
            },
        )),
        EventLine::Tick { now } => Ok(player.give(core, Event::Tick { now: *now })),
        EventLine::Tree { line } => {
            let item = item_in(player.alloc, line)?;
            change_tree(player, core, files, path_in(line).as_slice(), item)
        }
        EventLine::TreeGone { path } => {
            change_tree(player, core, files, path.as_slice(), StoredItem::Missing)
        }
        EventLine::Drain => {
            player.drain(core, files)?;
            Ok(StepAnswer::Done { taken: 0 })
        }
    }
}

/// How many lines made no step, and how many were refused for want of memory.
#[derive(Clone, Copy, Debug, PartialEq, Eq)]
pub struct Counts {
    pub skipped: u64,
    pub refused: u64,
}

fn count(counts: Counts, answer: StepAnswer) -> Counts
    ensures skipped { result.skipped ≡ skipped_after answer counts.skipped }
    ensures refused { result.refused ≡ refused_after answer counts.refused }
{
    match answer {
        StepAnswer::Done { taken: _ } => counts,
        StepAnswer::Skipped => Counts {
            skipped: next_of(counts.skipped),
            refused: counts.refused,
        },
        StepAnswer::OutOfMemory => Counts {
            skipped: counts.skipped,
            refused: next_of(counts.refused),
        },
    }
}

/// Runs the lines of a script on a core, one after another. The files are those of the script, at the version that is the
/// number of the core's tree: jobs are answered from them, and the lines that change the tree change them.
///
/// What came and went on each connection stays accounted for: of the bytes that the lines send on it some have come and the
/// others wait, and for all trees that agree with what the files tell what was emitted since its opening is the beginning of
/// what was to come, by the ends of its last opening that was done; these are the ends of a line that opens it.
pub fn run_lines<E: EventCore>(
    player: &mut Player,
    core: &mut E,
    files: &mut MemoryFiles,
    lines: &[EventLine],
) -> Result<Counts, OutOfMemory>
    requires newest { newest_of files.old ≡ (E.seen core.old).now.tree }
    requires sure { failing_of files.old ≡ [] }
    ensures plays { IfOk result (λ counts.
        Plays (E.seen core.old).terms lines.now (told_of files.old)
        (stage (E.seen core.old).view (E.seen core.old).now player.old.lanes.items) 0 0
        (stage (E.seen core.new).view (E.seen core.new).now player.new.lanes.items) counts.skipped
        counts.refused) }
    ensures told { OnOk result (told_of files.new ≡ told_in lines.now (told_of files.old)) }
    ensures opened { OnOk result (AreOpenedBy lines.now (lane_in player.old.lanes.items)
        (lane_in player.new.lanes.items)) }
    ensures stands { OnOk result ((sent : ℕ → List ℕ) →
        AllStanding (E.seen core.old).terms.fresh (told_of files.old)
        (stage (E.seen core.old).view (E.seen core.old).now player.old.lanes.items) sent →
        AllStanding (E.seen core.old).terms.fresh (told_in lines.now (told_of files.old))
        (stage (E.seen core.new).view (E.seen core.new).now player.new.lanes.items)
        (λ c. sent c ++ sent_in lines.now c)) }
    ensures steady { OnOk result ((E.seen core.new).terms ≡ (E.seen core.old).terms) }
{
    let mut counts = Counts {
        skipped: 0,
        refused: 0,
    };
    for line in lines {
        let answer = run_line(player, core, files, line)?;
        counts = count(counts, answer);
    }
    Ok(counts)
}
