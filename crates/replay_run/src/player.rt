// Runs lines on a core.
ghost use Rattle.std.specs.Prelude.{◌≡◌, ◌<◌, ◌≤◌, ◌+◌, ◌*◌, ◌∷◌, ◌++◌, ◌≢◌, ℕ, [], Some, None, true, false, min, length, take, MatchOption, OnOk, IfOk, IfSome, IfNone, sum_by, Contains};
ghost use Rattle.ngx_outside.specs.Views.{no_bytes, ask_in};
ghost use Rattle.memory_outside.specs.Stored.{newest_of, failing_of};
ghost use Rattle.replay_run.specs.Told.{told_of};
ghost use Rattle.ngx_outside.specs.declared.event.Event.TheVariants.{JobFailed, Run, Tick, Tree};
ghost use Rattle.replay_run.specs.Scene.{Stage, stage, lane_in, has_lane, LaneAt, SameLanes, OnLane, Plain, Gives, Openable, OpensLine, Sends, EndsIfDue, Writes, Reads, shown_lane, due_lane, empty_lane, either as either_of, is_read, is_served, first_served, unless_close, RestsAt, Serves, Drains, DrainsOne, SendsLine, EndsLine, WritesLine, JobLine, IsWanted, work, work_of};
ghost use Rattle.ngx_outside.specs.Wants.{wants_at};

use crate::jobs::answer_job;
use crate::serve::{end_if_due, offer, open as open_on, write as write_on};
use crate::{InputEnd, Lane, LinkEnds};
use byte_text::OutOfMemory;
use http_types::Addr;
use memory_outside::MemoryFiles;
use ngx_outside::{Event, EventCore, StepAnswer, Want};
use std::alloc::Global;

// The place of a connection's lane.
fn place(lanes: &[Lane], conn: u32) -> Option<usize>
    ensures { MatchOption result (has_lane conn lanes.now ≡ false) (λ i. LaneAt conn lanes.now i) }
{
    for (i, lane) in lanes.iter().enumerate() {
        if lane.conn == conn {
            return Some(i);
        }
    }
    None
}

// The place of a connection's lane, which is made where it has none.
fn place_or_add(alloc: Global, lanes: &mut Vec<Lane>, conn: u32) -> Result<usize, OutOfMemory>
    ensures place { IfOk result (λ i. LaneAt conn lanes.new.items i) }
    ensures same { OnOk result (SameLanes (lane_in lanes.old.items) (lane_in lanes.new.items)) }
    ensures work { OnOk result ((price : ℕ) →
        sum_by (work_of price) lanes.new.items ≡ sum_by (work_of price) lanes.old.items) }
{
    match place(lanes, conn) {
        Some(at) => Ok(at),
        None => {
            let at = lanes.len();
            lanes.push(Lane::new(alloc, conn))?;
            Ok(at)
        }
    }
}

fn either(first: StepAnswer, second: StepAnswer) -> StepAnswer
    ensures { result ≡ either_of first second }
{
    match first {
        StepAnswer::Skipped => second,
        StepAnswer::Done { taken: _ } => first,
        StepAnswer::OutOfMemory => first,
    }
}

// Bytes are put after those that wait, and all are offered; then the input ends where it is due.
fn send_on<E: EventCore>(
    core: &mut E,
    lane: &mut Lane,
    bytes: &[u8],
) -> Result<StepAnswer, OutOfMemory>
    ensures sends { IfOk result (λ a. Sends (E.seen core.old).terms.fresh lane.old.conn bytes.now a
        (E.seen core.old).view (E.seen core.old).now (E.seen core.new).view (E.seen core.new).now
        (shown_lane lane.old) (shown_lane lane.new)) }
    ensures conn { lane.new.conn ≡ lane.old.conn }
    ensures steady { OnOk result ((E.seen core.new).terms ≡ (E.seen core.old).terms) }
{
    lane.queue.append(bytes)?;
    let first = offer(core, lane);
    let second = end_if_due(core, lane);
    Ok(either(first, second))
}

// The input ends as soon as nothing waits.
fn close_on<E: EventCore>(core: &mut E, lane: &mut Lane) -> StepAnswer
    ensures ends { EndsIfDue (E.seen core.old).terms.fresh lane.old.conn
        (due_lane (shown_lane lane.old)) (shown_lane lane.new) result (E.seen core.old).view
        (E.seen core.old).now (E.seen core.new).view (E.seen core.new).now }
    ensures conn { lane.new.conn ≡ lane.old.conn }
    ensures steady { (E.seen core.new).terms ≡ (E.seen core.old).terms }
{
    match lane.tail {
        InputEnd::Open => lane.tail = InputEnd::Due,
        InputEnd::Due => {}
        InputEnd::Given => {}
    }
    end_if_due(core, lane)
}

// What waits is offered, or where nothing waits its end is told.
fn read_on<E: EventCore>(core: &mut E, lane: &mut Lane) -> StepAnswer
    ensures reads { Reads (E.seen core.old).terms.fresh lane.old.conn result (E.seen core.old).view
        (E.seen core.old).now (E.seen core.new).view (E.seen core.new).now (shown_lane lane.old)
        (shown_lane lane.new) }
    ensures conn { lane.new.conn ≡ lane.old.conn }
    ensures falls { (room : ℕ) → is_read (shown_lane lane.old) ≡ true →
        ((E.seen core.old).view lane.old.conn).room ≡ Some room →
        (E.seen core.new).left + work_of (E.seen core.old).terms.price lane.new <
        (E.seen core.old).left + work_of (E.seen core.old).terms.price lane.old }
    ensures steady { (E.seen core.new).terms ≡ (E.seen core.old).terms }
{
    if lane.queue.is_empty() {
        end_if_due(core, lane)
    } else {
        offer(core, lane)
    }
}

// Whether bytes wait to arrive, or their end is due.
fn is_waiting(lane: &Lane) -> bool
    ensures { result ≡ is_read (shown_lane lane.now) }
{
    match lane.tail {
        InputEnd::Open => !lane.queue.is_empty(),
        InputEnd::Due => true,
        InputEnd::Given => !lane.queue.is_empty(),
    }
}

fn waits(lanes: &[Lane], conn: u32) -> bool
    ensures { result ≡ is_read (lane_in lanes.now conn) }
{
    for lane in lanes {
        if lane.conn == conn {
            return is_waiting(lane);
        }
    }
    false
}

// A want that a script serves: it closes no link.
fn unless_close(want: Option<Want>) -> Option<Want>
    ensures { result ≡ unless_close want }
{
    match want {
        Some(Want::Close { conn: _ }) => None,
        Some(Want::Read { conn: _, room: _ }) => want,
        Some(Want::Run { conn: _, node: _ }) => want,
        Some(Want::Job { conn: _, node: _ }) => want,
        Some(Want::Write { conn: _ }) => want,
        None => None,
    }
}

// The first want of a connection that can be served.
fn next_served<E: EventCore>(core: &E, lanes: &[Lane], conn: u32) -> Option<Want>
    ensures { result ≡ first_served (lane_in lanes.now)
        (wants_at conn ((E.seen core.now).view conn)) }
{
    unless_close(core.next_want(conn, waits(lanes, conn), false))
}

// Lists these connections.
fn list(alloc: Global, held: &[u32]) -> Result<Vec<u32>, OutOfMemory>
    ensures { IfOk result (λ conns. conns.items ≡ held.now) }
{
    let mut conns = Vec::new(alloc);
    conns.extend_from_slice(held)?;
    Ok(conns)
}

fn run<E: EventCore>(core: &mut E, conn: u32, node: u32) -> StepAnswer
    requires { Contains ((E.seen core.old).view conn).ready node }
    ensures gives { Gives (E.seen core.old).terms.fresh (Run conn node) result
        (E.seen core.old).view (E.seen core.old).now (E.seen core.new).view (E.seen core.new).now }
    ensures falls { (E.seen core.new).left < (E.seen core.old).left }
    ensures steady { (E.seen core.new).terms ≡ (E.seen core.old).terms }
{
    let answer = core.step(Event::Run { conn, node });
    match answer {
        StepAnswer::Done { taken: _ } => answer,
        StepAnswer::Skipped => answer,
        StepAnswer::OutOfMemory => answer,
    }
}

/// Runs the lines of a script on a core, and keeps for each connection what waits to arrive and what was emitted. It
/// counts nothing: each call answers what became of its line's step.
#[derive(Drop)]
pub struct Player {
    pub(crate) alloc: Global,
    pub lanes: Vec<Lane>,
}

impl Player {
    /// Nothing waits and nothing was emitted.
    pub fn new(alloc: Global) -> Self
        ensures { (conn : ℕ) → lane_in result.lanes.items conn ≡ empty_lane }
    {
        Player {
            alloc,
            lanes: Vec::new(alloc),
        }
    }

    /// What was emitted on a connection.
    pub fn emitted(&self, conn: u32) -> &[u8]
        ensures { result.now ≡ (lane_in self.now.lanes.items conn).went }
    {
        for lane in &self.lanes {
            if lane.conn == conn {
                return lane.emitted.as_slice();
            }
        }
        &[]
    }

    /// Gives an event that needs nothing of what waits.
    pub fn give<E: EventCore>(&self, core: &mut E, event: Event) -> StepAnswer
        ensures plain { Plain (E.seen core.old).terms.fresh event.entry result
            (stage (E.seen core.old).view (E.seen core.old).now self.now.lanes.items)
            (stage (E.seen core.new).view (E.seen core.new).now self.now.lanes.items) }
        ensures steady { (E.seen core.new).terms ≡ (E.seen core.old).terms }
    {
        core.step(event)
    }

    /// Opens a connection at these ends, which are kept where that is done. It is skipped only where the core opens none there.
    pub fn open<E: EventCore>(
        &mut self,
        core: &mut E,
        conn: u32,
        ends: LinkEnds,
    ) -> Result<StepAnswer, OutOfMemory>
        ensures opens { IfOk result (λ a. OpensLine (E.seen core.old).terms.fresh conn ends a
            (stage (E.seen core.old).view (E.seen core.old).now self.old.lanes.items)
            (stage (E.seen core.new).view (E.seen core.new).now self.new.lanes.items)) }
        ensures why { IfOk result (λ a. Openable (E.seen core.old).terms conn ends a
            (E.seen core.old).view) }
        ensures steady { OnOk result ((E.seen core.new).terms ≡ (E.seen core.old).terms) }
    {
        core.conns();
        let at = place_or_add(self.alloc, &mut self.lanes, conn)?;
        let lane = &mut self.lanes[at];
        let answer = open_on(core, lane, ends);
        Ok(answer)
    }

    /// Puts bytes after those that wait on a connection, and offers it all; its input ends then where that is due.
    pub fn send<E: EventCore>(
        &mut self,
        core: &mut E,
        conn: u32,
        bytes: &[u8],
    ) -> Result<StepAnswer, OutOfMemory>
        ensures sends { IfOk result (λ a. SendsLine (E.seen core.old).terms.fresh conn bytes.now a
            (stage (E.seen core.old).view (E.seen core.old).now self.old.lanes.items)
            (stage (E.seen core.new).view (E.seen core.new).now self.new.lanes.items)) }
        ensures steady { OnOk result ((E.seen core.new).terms ≡ (E.seen core.old).terms) }
    {
        let at = place_or_add(self.alloc, &mut self.lanes, conn)?;
        let lane = &mut self.lanes[at];
        let answer = send_on(core, lane, bytes)?;
        Ok(answer)
    }

    /// The input of a connection ends as soon as nothing waits.
    pub fn close<E: EventCore>(
        &mut self,
        core: &mut E,
        conn: u32,
    ) -> Result<StepAnswer, OutOfMemory>
        ensures ends { IfOk result (λ a. EndsLine (E.seen core.old).terms.fresh conn a
            (stage (E.seen core.old).view (E.seen core.old).now self.old.lanes.items)
            (stage (E.seen core.new).view (E.seen core.new).now self.new.lanes.items)) }
        ensures steady { OnOk result ((E.seen core.new).terms ≡ (E.seen core.old).terms) }
    {
        let at = place_or_add(self.alloc, &mut self.lanes, conn)?;
        let lane = &mut self.lanes[at];
        let answer = close_on(core, lane);
        Ok(answer)
    }

    /// Writes at most this many of the pending bytes of a connection.
    pub fn write<E: EventCore>(
        &mut self,
        core: &mut E,
        conn: u32,
        most: u64,
    ) -> Result<StepAnswer, OutOfMemory>
        ensures writes { IfOk result (λ a. WritesLine (E.seen core.old).terms.fresh conn most a
            (stage (E.seen core.old).view (E.seen core.old).now self.old.lanes.items)
            (stage (E.seen core.new).view (E.seen core.new).now self.new.lanes.items)) }
        ensures steady { OnOk result ((E.seen core.new).terms ≡ (E.seen core.old).terms) }
        ensures falls { OnOk result (length ((E.seen core.old).view conn).pending ≤ most →
            no_bytes ((E.seen core.old).view conn).pending ≡ false →
            work (E.seen core.old).terms.price (E.seen core.new).left self.new.lanes.items < work
            (E.seen core.old).terms.price (E.seen core.old).left self.old.lanes.items) }
    {
        let at = place_or_add(self.alloc, &mut self.lanes, conn)?;
        let lane = &mut self.lanes[at];
        let answer = write_on(core, lane, most)?;
        Ok(answer)
    }

    // Offers what waits on a connection, or tells its end where nothing does.
    fn read<E: EventCore>(&mut self, core: &mut E, conn: u32) -> Result<StepAnswer, OutOfMemory>
        requires { is_read (lane_in self.old.lanes.items conn) ≡ true }
        ensures reads { IfOk result (λ a. OnLane conn
            (Reads (E.seen core.old).terms.fresh conn a (E.seen core.old).view
            (E.seen core.old).now (E.seen core.new).view (E.seen core.new).now)
            (lane_in self.old.lanes.items) (lane_in self.new.lanes.items)) }
        ensures steady { OnOk result ((E.seen core.new).terms ≡ (E.seen core.old).terms) }
        ensures falls { (room : ℕ) → ((E.seen core.old).view conn).room ≡ Some room →
            OnOk result (work (E.seen core.old).terms.price
            (E.seen core.new).left self.new.lanes.items < work (E.seen core.old).terms.price
            (E.seen core.old).left self.old.lanes.items) }
    {
        let at = place_or_add(self.alloc, &mut self.lanes, conn)?;
        let lane = &mut self.lanes[at];
        let answer = read_on(core, lane);
        Ok(answer)
    }

    /// Answers a node's job from the tree that it asks of; it fails where that tree has no answer to it.
    pub fn answer<E: EventCore>(
        &mut self,
        core: &mut E,
        files: &mut MemoryFiles,
        conn: u32,
        node: u32,
    ) -> Result<StepAnswer, OutOfMemory>
        requires newest { newest_of files.old ≡ (E.seen core.old).now.tree }
        requires sure { failing_of files.old ≡ [] }
        ensures answers { IfOk result (λ a. JobLine (E.seen core.old).terms.fresh
            (told_of files.old) conn node a
            (stage (E.seen core.old).view (E.seen core.old).now self.old.lanes.items)
            (stage (E.seen core.new).view (E.seen core.new).now self.new.lanes.items)) }
        ensures told { told_of files.new ≡ told_of files.old }
        ensures sure { failing_of files.new ≡ [] }
        ensures steady { OnOk result ((E.seen core.new).terms ≡ (E.seen core.old).terms) }
        ensures falls { OnOk result (ask_in ((E.seen core.old).view conn).jobs node ≢ None →
            work (E.seen core.old).terms.price (E.seen core.new).left self.new.lanes.items < work
            (E.seen core.old).terms.price (E.seen core.old).left self.old.lanes.items) }
    {
        let answer = answer_job(core, files, conn, node)?;
        Ok(answer)
    }

    fn serve<E: EventCore>(
        &mut self,
        core: &mut E,
        files: &mut MemoryFiles,
        want: Want,
    ) -> Result<(), OutOfMemory>
        requires newest { newest_of files.old ≡ (E.seen core.old).now.tree }
        requires sure { failing_of files.old ≡ [] }
        requires wanted { IsWanted (E.seen core.old).view want }
        requires served { is_served (lane_in self.old.lanes.items) want ≡ true }
        ensures serves { OnOk result (Serves (E.seen core.old).terms.fresh (told_of files.old) want
            (stage (E.seen core.old).view (E.seen core.old).now self.old.lanes.items)
            (stage (E.seen core.new).view (E.seen core.new).now self.new.lanes.items)) }
        ensures told { told_of files.new ≡ told_of files.old }
        ensures sure { failing_of files.new ≡ [] }
        ensures steady { OnOk result ((E.seen core.new).terms ≡ (E.seen core.old).terms) }
        ensures falls { OnOk result (work (E.seen core.old).terms.price
            (E.seen core.new).left self.new.lanes.items < work (E.seen core.old).terms.price
            (E.seen core.old).left self.old.lanes.items) }
    {
        match want {
            Want::Read { conn, room: _ } => {
                self.read(core, conn)?;
                Ok(())
            }
            Want::Run { conn, node } => {
                run(core, conn, node);
                Ok(())
            }
            Want::Job { conn, node } => {
                self.answer(core, files, conn, node)?;
                Ok(())
            }
            Want::Write { conn } => {
                let most = core.pending(conn).len() as u64;
                self.write(core, conn, most)?;
                Ok(())
            }
            Want::Close { conn: _ } => Ok(()),
        }
    }

    // Serves the wants of a connection as long as one can be, each the first.
    fn drain_one<E: EventCore>(
        &mut self,
        core: &mut E,
        files: &mut MemoryFiles,
        conn: u32,
    ) -> Result<(), OutOfMemory>
        requires newest { newest_of files.old ≡ (E.seen core.old).now.tree }
        requires sure { failing_of files.old ≡ [] }
        ensures drains { OnOk result (DrainsOne (E.seen core.old).terms.fresh
            (told_of files.old) conn
            (stage (E.seen core.old).view (E.seen core.old).now self.old.lanes.items)
            (stage (E.seen core.new).view (E.seen core.new).now self.new.lanes.items)) }
        ensures rests { OnOk result (RestsAt
            (stage (E.seen core.new).view (E.seen core.new).now self.new.lanes.items) conn) }
        ensures told { OnOk result (told_of files.new ≡ told_of files.old) }
        ensures sure { OnOk result (failing_of files.new ≡ []) }
        ensures newest { OnOk result (newest_of files.new ≡ (E.seen core.new).now.tree) }
        ensures steady { OnOk result ((E.seen core.new).terms ≡ (E.seen core.old).terms) }
    {
        while let Some(want) = next_served(core, &self.lanes, conn) {
            self.serve(core, files, want)?;
        }
        Ok(())
    }

    /// Serves wants as long as one can be, each the first: those of one connection after another, by their numbers.
    pub fn drain<E: EventCore>(
        &mut self,
        core: &mut E,
        files: &mut MemoryFiles,
    ) -> Result<(), OutOfMemory>
        requires newest { newest_of files.old ≡ (E.seen core.old).now.tree }
        requires sure { failing_of files.old ≡ [] }
        ensures drains { OnOk result (Drains (E.seen core.old).terms.fresh (told_of files.old)
            (stage (E.seen core.old).view (E.seen core.old).now self.old.lanes.items)
            (stage (E.seen core.new).view (E.seen core.new).now self.new.lanes.items)) }
        ensures told { OnOk result (told_of files.new ≡ told_of files.old) }
        ensures sure { OnOk result (failing_of files.new ≡ []) }
        ensures newest { OnOk result (newest_of files.new ≡ (E.seen core.new).now.tree) }
        ensures steady { OnOk result ((E.seen core.new).terms ≡ (E.seen core.old).terms) }
    {
        let conns = list(self.alloc, core.conns())?;
        for conn in conns.as_slice() {
            self.drain_one(core, files, *conn)?;
        }
        Ok(())
    }
}
