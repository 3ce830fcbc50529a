// The connection under its number, the clock and the tree.
ghost use Rattle.std.specs.Prelude.{◌≡◌, ◌≤◌, ◌<◌, ◌&&◌, not, ℕ, Bool, true, false, [], List};
ghost use Rattle.ngx_outside.specs.Views.{Steps, OpensIf, CountsHeld, LeftBy, CountsRefused, OneSteps, Ticked, TakesNone, now_after, kept_moment, ended_after};
ghost use Rattle.ngx_outside.specs.declared.event.StepAnswer.TheVariants.{Skipped};
ghost use Rattle.plain_core.specs.Lines.{course_of};
ghost use Rattle.plain_core.specs.Shown.{Arrives, Ends, Writes, Fails, Runs, Goes, LeftTaken, LeftLower, LeftKept, TakesNo, Joins, Leaves, crowd_of, is_absent_at};
ghost use Rattle.plain_core.specs.Held.{view_of, now_of, fresh_of, opens_of, left_of, price_at, refused_of, Begins, LeftBegun, RefusedBy, KeepsEnds, Ending, conns_of, wants_of_state, first_of};
ghost use Rattle.ngx_outside.specs.Wants.{first_doable};

use crate::conn::{Conn, ROOM};
use ngx_outside::{Event, StepAnswer, Want};

/// The last second of the year 9999.
const LAST_MOMENT: u64 = 253402300799;

#[derive(Drop)]
pub(crate) struct State {
    pub(crate) number: u32,
    pub(crate) conn: Conn,
    pub(crate) moment: u64,
    pub(crate) tree: u64,
    pub(crate) refused: u64,
}

// Counts an event that was refused.
fn count(refused: &mut u64, answer: StepAnswer)
    ensures { RefusedBy answer refused.old refused.new }
{
    match answer {
        StepAnswer::Done { taken: _ } => {}
        StepAnswer::Skipped => {}
        StepAnswer::OutOfMemory => *refused = refused.saturating_add(1),
    }
}

// What may be done on a connection: it reads, a request can start, bytes are pending, its link is to be closed.
#[derive(Clone, Copy)]
struct Doings {
    reads: bool,
    runs: bool,
    writes: bool,
    shut: bool,
}

// The first want that can be served, where its link is due to be read or not, and full or not.
fn first_want(conn: u32, due: bool, full: bool, may: Doings) -> Option<Want>
    ensures { result ≡ first_of conn (due && may.reads) may.runs (not full && may.writes) may.shut }
{
    if due && may.reads {
        Some(Want::Read { conn, room: ROOM })
    } else if may.runs {
        Some(Want::Run { conn, node: 0 })
    } else if !full && may.writes {
        Some(Want::Write { conn })
    } else if may.shut {
        Some(Want::Close { conn })
    } else {
        None
    }
}

impl State {
    fn opened(&mut self, conn: u32) -> StepAnswer
        ensures steps { OneSteps conn (Begins (course_of self.old.conn.reply [] [] []) result)
            (view_of self.old) (view_of self.new) }
        ensures ended { KeepsEnds (view_of self.old) (view_of self.new) }
        ensures taken { TakesNo result }
        ensures opens { result ≡ Skipped → is_absent_at self.old.conn.life ≡ false }
        ensures done { (result ≡ Skipped → ⊥) → is_absent_at self.old.conn.life ≡ true }
        ensures left { LeftBegun (price_at self.old) result (left_of self.old) (left_of self.new) }
        ensures now { now_of self.new ≡ now_of self.old }
        ensures held { Joins result (crowd_of self.old.conn.life) (crowd_of self.new.conn.life) }
        ensures reply { self.new.conn.reply ≡ self.old.conn.reply }
        ensures refused { RefusedBy result self.old.refused self.new.refused }
    {
        if !self.conn.is_absent() {
            return StepAnswer::Skipped;
        }
        self.number = conn;
        self.conn.open(self.moment);
        StepAnswer::Done { taken: 0 }
    }

    fn arrived(&mut self, conn: u32, bytes: &[u8]) -> StepAnswer
        ensures steps { OneSteps conn (Arrives (now_of self.old) bytes.now result)
            (view_of self.old) (view_of self.new) }
        ensures ended { KeepsEnds (view_of self.old) (view_of self.new) }
        ensures left { LeftTaken (price_at self.old) result (left_of self.old) (left_of self.new) }
        ensures now { now_of self.new ≡ now_of self.old }
        ensures held { crowd_of self.new.conn.life ≡ crowd_of self.old.conn.life }
        ensures reply { self.new.conn.reply ≡ self.old.conn.reply }
        ensures refused { RefusedBy result self.old.refused self.new.refused }
    {
        if conn != self.number {
            return StepAnswer::Skipped;
        }
        let answer = self.conn.arrive(bytes, self.moment);
        count(&mut self.refused, answer);
        answer
    }

    fn ended(&mut self, conn: u32) -> StepAnswer
        ensures steps { OneSteps conn (Ends result) (view_of self.old) (view_of self.new) }
        ensures ended { Ending conn true result (view_of self.old) (view_of self.new) }
        ensures taken { TakesNo result }
        ensures left { LeftKept result (left_of self.old) (left_of self.new) }
        ensures now { now_of self.new ≡ now_of self.old }
        ensures held { crowd_of self.new.conn.life ≡ crowd_of self.old.conn.life }
        ensures reply { self.new.conn.reply ≡ self.old.conn.reply }
        ensures refused { self.new.refused ≡ self.old.refused }
    {
        if conn != self.number {
            return StepAnswer::Skipped;
        }
        self.conn.end()
    }

    fn wrote(&mut self, conn: u32, count: usize) -> StepAnswer
        ensures steps { OneSteps conn (Writes count result) (view_of self.old) (view_of self.new) }
        ensures ended { KeepsEnds (view_of self.old) (view_of self.new) }
        ensures taken { TakesNo result }
        ensures left { LeftLower result (left_of self.old) (left_of self.new) }
        ensures now { now_of self.new ≡ now_of self.old }
        ensures held { crowd_of self.new.conn.life ≡ crowd_of self.old.conn.life }
        ensures reply { self.new.conn.reply ≡ self.old.conn.reply }
        ensures refused { self.new.refused ≡ self.old.refused }
    {
        if conn != self.number {
            return StepAnswer::Skipped;
        }
        self.conn.wrote(count, self.moment)
    }

    fn failed(&mut self, conn: u32) -> StepAnswer
        ensures steps { OneSteps conn (Fails result) (view_of self.old) (view_of self.new) }
        ensures ended { KeepsEnds (view_of self.old) (view_of self.new) }
        ensures taken { TakesNo result }
        ensures left { LeftLower result (left_of self.old) (left_of self.new) }
        ensures now { now_of self.new ≡ now_of self.old }
        ensures held { crowd_of self.new.conn.life ≡ crowd_of self.old.conn.life }
        ensures reply { self.new.conn.reply ≡ self.old.conn.reply }
        ensures refused { self.new.refused ≡ self.old.refused }
    {
        if conn != self.number {
            return StepAnswer::Skipped;
        }
        self.conn.fail()
    }

    fn runs(&mut self, conn: u32, node: u32) -> StepAnswer
        ensures steps { OneSteps conn (Runs (now_of self.old) node result) (view_of self.old)
            (view_of self.new) }
        ensures ended { KeepsEnds (view_of self.old) (view_of self.new) }
        ensures taken { TakesNo result }
        ensures left { LeftLower result (left_of self.old) (left_of self.new) }
        ensures now { now_of self.new ≡ now_of self.old }
        ensures held { crowd_of self.new.conn.life ≡ crowd_of self.old.conn.life }
        ensures reply { self.new.conn.reply ≡ self.old.conn.reply }
        ensures refused { RefusedBy result self.old.refused self.new.refused }
    {
        if conn != self.number {
            return StepAnswer::Skipped;
        }
        let answer = self.conn.run(node, self.moment, self.tree);
        count(&mut self.refused, answer);
        answer
    }

    fn gone(&mut self, conn: u32) -> StepAnswer
        ensures steps { OneSteps conn (Goes result) (view_of self.old) (view_of self.new) }
        ensures ended { Ending conn false result (view_of self.old) (view_of self.new) }
        ensures taken { TakesNo result }
        ensures left { LeftLower result (left_of self.old) (left_of self.new) }
        ensures now { now_of self.new ≡ now_of self.old }
        ensures held { Leaves result (crowd_of self.old.conn.life) (crowd_of self.new.conn.life) }
        ensures reply { self.new.conn.reply ≡ self.old.conn.reply }
        ensures refused { self.new.refused ≡ self.old.refused }
    {
        if conn != self.number {
            return StepAnswer::Skipped;
        }
        self.conn.go()
    }

    fn ticked(&mut self, now: u64)
        ensures steps { (c : ℕ) → Ticked (kept_moment now) (view_of self.old c)
            (view_of self.new c) }
        ensures ended { KeepsEnds (view_of self.old) (view_of self.new) }
        ensures left { left_of self.new ≤ left_of self.old }
        ensures now { (self.new.moment ≡ kept_moment now) × (self.new.tree ≡ self.old.tree) }
        ensures held { crowd_of self.new.conn.life ≡ crowd_of self.old.conn.life }
        ensures reply { self.new.conn.reply ≡ self.old.conn.reply }
        ensures refused { self.new.refused ≡ self.old.refused }
    {
        let kept = now.min(LAST_MOMENT);
        self.moment = kept;
        self.conn.tick(kept);
    }

    /// The number of the connection, where one is held.
    pub(crate) fn conns(&self) -> &[u32]
        ensures { result.now ≡ conns_of self.now }
    {
        if self.conn.is_absent() {
            &[]
        } else {
            std::slice::from_ref(&self.number)
        }
    }

    /// The first want of the connection that can be served, where its link is due to be read or not, and full or not.
    pub(crate) fn next_want(&self, due: bool, full: bool) -> Option<Want>
        ensures { result ≡ first_doable due full (wants_of_state self.now) }
    {
        let may = Doings {
            reads: self.conn.reads(),
            runs: self.conn.can_run(),
            writes: !self.conn.pending().is_empty(),
            shut: self.conn.is_shut(),
        };
        first_want(self.number, due, full, may)
    }

    /// Gives it one event.
    pub(crate) fn happen(&mut self, event: Event) -> StepAnswer
        ensures steps { Steps (fresh_of self.old) (now_of self.old) event.entry result
            (view_of self.old) (view_of self.new) }
        ensures opens { OpensIf (opens_of self.old) event.entry result }
        ensures ended { (c : ℕ) → (view_of self.new c).ended ≡ ended_after event.entry result c
            (view_of self.old c).ended }
        ensures taken { TakesNone event.entry result }
        ensures now { now_of self.new ≡ now_after (now_of self.old) event.entry result }
        ensures left { LeftBy (price_at self.old) event.entry result (left_of self.old)
            (left_of self.new) }
        ensures refused { CountsRefused event.entry result (refused_of self.old)
            (refused_of self.new) }
        ensures held { CountsHeld event.entry result (crowd_of self.old.conn.life)
            (crowd_of self.new.conn.life) }
        ensures reply { self.new.conn.reply ≡ self.old.conn.reply }
    {
        match event {
            Event::Opened {
                conn,
                local: _,
                peer: _,
            } => self.opened(conn),
            Event::Arrived { conn, bytes } => self.arrived(conn, bytes),
            Event::Ended { conn } => self.ended(conn),
            Event::Wrote { conn, count } => self.wrote(conn, count),
            Event::LinkFailed { conn } => self.failed(conn),
            Event::FileDone {
                conn: _,
                node: _,
                answer: _,
            } => StepAnswer::Skipped,
            Event::JobFailed { conn: _, node: _ } => StepAnswer::Skipped,
            Event::Run { conn, node } => self.runs(conn, node),
            Event::Tick { now } => {
                self.ticked(now);
                StepAnswer::Done { taken: 0 }
            }
            Event::Tree { to } => {
                if to <= self.tree {
                    return StepAnswer::Skipped;
                }
                self.tree = to;
                StepAnswer::Done { taken: 0 }
            }
            Event::Gone { conn } => self.gone(conn),
        }
    }
}
