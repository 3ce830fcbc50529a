// The one connection.
ghost use Rattle.std.specs.Prelude.{◌≡◌, ◌≤◌, ◌<◌, ◌+◌, ◌*◌, ◌++◌, ◌∷◌, ℕ, List, [], true, false, length, drop, Some, OnOk, OnErr};
ghost use Rattle.ngx_outside.specs.Views.{Start, Fresh, Ticked, Stopped};
ghost use Rattle.plain_core.specs.Lines.{has_line, course_of};
ghost use Rattle.plain_core.specs.Shown.{shown, starts_in, logs_in, work_of, price_of, is_live_at, is_absent_at, is_quiet_at, reads_at, can_run_at, is_shut_at, Arrives, Ends, Writes, Fails, Runs, Goes, LeftTaken, LeftLower, LeftKept, KeepsEnd, EndsBy, TakesNo, Leaves, crowd_of};

use crate::lines::line_size;
use byte_text::{ByteQueue, ByteText, OutOfMemory};
use ngx_outside::{StepAnswer, StopCause};
use std::alloc::Global;

/// The most bytes that are taken at once.
pub(crate) const ROOM: usize = 4096;

/// For how many seconds nothing may come or go.
pub(crate) const PATIENCE: u64 = 60;

#[derive(Clone, Copy)]
pub(crate) enum Life {
    Absent,
    Live,
    Stopped(StopCause),
}

/// A request that was answered: when it started, by the clock and by the number of the tree, and what is logged of it, the
/// status of its response and the length of its body in bytes.
#[derive(Clone, Copy)]
pub(crate) struct Request {
    pub(crate) moment: u64,
    pub(crate) tree: u64,
    pub(crate) log: (u16, u64),
}

/// The status of each response.
const STATUS: u16 = 200;

#[derive(Drop)]
pub(crate) struct Conn {
    pub(crate) reply: ByteText,
    pub(crate) life: Life,
    pub(crate) input: ByteQueue,
    pub(crate) output: ByteQueue,
    pub(crate) journal: Vec<Request>,
    pub(crate) ended: bool,
    pub(crate) due: u64,
}

impl Conn {
    pub(crate) fn new(alloc: Global, reply: ByteText) -> Self
        ensures life { is_absent_at result.life ≡ true }
        ensures reply { result.reply ≡ reply }
    {
        Conn {
            reply,
            life: Life::Absent,
            input: ByteQueue::new(alloc),
            output: ByteQueue::new(alloc),
            journal: Vec::new(alloc),
            ended: false,
            due: 0,
        }
    }

    pub(crate) fn is_absent(&self) -> bool
        ensures { result ≡ is_absent_at self.now.life }
    {
        match self.life {
            Life::Absent => true,
            Life::Live => false,
            Life::Stopped(_) => false,
        }
    }

    pub(crate) fn is_live(&self) -> bool
        ensures { result ≡ is_live_at self.now.life }
    {
        match self.life {
            Life::Absent => false,
            Life::Live => true,
            Life::Stopped(_) => false,
        }
    }

    fn has_line(&self) -> bool
        ensures { result ≡ has_line self.now.input }
    {
        match line_size(self.input.front()) {
            Some(_) => true,
            None => false,
        }
    }

    // Whether all that was asked is answered, and the answers have gone.
    fn is_quiet(&self) -> bool
        ensures { result ≡ is_quiet_at self.now.input self.now.output }
    {
        self.output.is_empty() && !self.has_line()
    }

    pub(crate) fn reads(&self) -> bool
        ensures { result ≡ reads_at self.now.life self.now.ended }
    {
        self.is_live() && !self.ended
    }

    pub(crate) fn can_run(&self) -> bool
        ensures { result ≡ can_run_at self.now.life self.now.input self.now.output }
    {
        self.is_live() && self.output.is_empty() && self.has_line()
    }

    pub(crate) fn is_shut(&self) -> bool
        ensures { result ≡ is_shut_at self.now.life self.now.input self.now.output self.now.ended }
    {
        match self.life {
            Life::Absent => false,
            Life::Live => self.ended && self.is_quiet(),
            Life::Stopped(_) => true,
        }
    }

    /// The bytes that are to be written.
    pub(crate) fn pending(&self) -> &[u8]
        ensures { result.now ≡ (shown self.now).pending }
    {
        match self.life {
            Life::Absent => &[],
            Life::Live => self.output.front(),
            Life::Stopped(_) => &[],
        }
    }

    fn stop(&mut self, cause: StopCause)
        requires { is_live_at self.old.life ≡ true }
        ensures stopped { Stopped cause (shown self.old) (shown self.new) [] }
        ensures ended { KeepsEnd (shown self.old) (shown self.new) }
        ensures left { work_of self.new ≡ 1 }
        ensures held { crowd_of self.new.life ≡ crowd_of self.old.life }
        ensures reply { self.new.reply ≡ self.old.reply }
    {
        self.life = Life::Stopped(cause);
        self.input.clear();
        self.output.clear();
    }

    /// It opens, with nothing come and nothing gone.
    pub(crate) fn open(&mut self, moment: u64)
        ensures fresh { Fresh (course_of self.old.reply [] [] []) (shown self.new) }
        ensures left { work_of self.new ≡ 2 }
        ensures held { crowd_of self.new.life ≡ 1 }
        ensures reply { self.new.reply ≡ self.old.reply }
    {
        self.life = Life::Live;
        self.input.clear();
        self.output.clear();
        self.journal.clear();
        self.ended = false;
        self.due = moment.saturating_add(PATIENCE);
    }

    pub(crate) fn arrive(&mut self, bytes: &[u8], moment: u64) -> StepAnswer
        ensures steps { (now : Start) → Arrives now bytes.now result (shown self.old)
            (shown self.new) }
        ensures ended { KeepsEnd (shown self.old) (shown self.new) }
        ensures left { LeftTaken (price_of self.old.reply) result (work_of self.old)
            (work_of self.new) }
        ensures held { crowd_of self.new.life ≡ crowd_of self.old.life }
        ensures reply { self.new.reply ≡ self.old.reply }
    {
        if !self.reads() {
            return StepAnswer::Skipped;
        }
        if bytes.is_empty() {
            return StepAnswer::Skipped;
        }
        let taken = bytes.len().min(ROOM);
        match self.input.append(&bytes[..taken]) {
            Ok(()) => {
                self.due = moment.saturating_add(PATIENCE);
                StepAnswer::Done { taken }
            }
            Err(OutOfMemory) => {
                self.stop(StopCause::Memory);
                StepAnswer::OutOfMemory
            }
        }
    }

    pub(crate) fn end(&mut self) -> StepAnswer
        ensures steps { Ends result (shown self.old) (shown self.new) }
        ensures ended { EndsBy result (shown self.old) (shown self.new) }
        ensures taken { TakesNo result }
        ensures left { LeftKept result (work_of self.old) (work_of self.new) }
        ensures held { crowd_of self.new.life ≡ crowd_of self.old.life }
        ensures reply { self.new.reply ≡ self.old.reply }
    {
        if !self.reads() {
            return StepAnswer::Skipped;
        }
        self.ended = true;
        StepAnswer::Done { taken: 0 }
    }

    pub(crate) fn wrote(&mut self, count: usize, moment: u64) -> StepAnswer
        ensures steps { Writes count result (shown self.old) (shown self.new) }
        ensures ended { KeepsEnd (shown self.old) (shown self.new) }
        ensures taken { TakesNo result }
        ensures left { LeftLower result (work_of self.old) (work_of self.new) }
        ensures held { crowd_of self.new.life ≡ crowd_of self.old.life }
        ensures reply { self.new.reply ≡ self.old.reply }
    {
        if count == 0 {
            return StepAnswer::Skipped;
        }
        if self.pending().len() < count {
            return StepAnswer::Skipped;
        }
        self.output.used(count);
        self.due = moment.saturating_add(PATIENCE);
        StepAnswer::Done { taken: 0 }
    }

    pub(crate) fn fail(&mut self) -> StepAnswer
        ensures steps { Fails result (shown self.old) (shown self.new) }
        ensures ended { KeepsEnd (shown self.old) (shown self.new) }
        ensures taken { TakesNo result }
        ensures left { LeftLower result (work_of self.old) (work_of self.new) }
        ensures held { crowd_of self.new.life ≡ crowd_of self.old.life }
        ensures reply { self.new.reply ≡ self.old.reply }
    {
        if !self.is_live() {
            return StepAnswer::Skipped;
        }
        self.stop(StopCause::LinkFault);
        StepAnswer::Done { taken: 0 }
    }

    // Starts the next request, answers it and logs that.
    fn start(&mut self, size: usize, moment: u64, tree: u64) -> Result<(), OutOfMemory>
        requires size { size ≤ length self.old.input }
        requires some { 0 < size }
        ensures life { self.new.life ≡ self.old.life }
        ensures ended { self.new.ended ≡ self.old.ended }
        ensures starts { OnOk result (starts_in self.new.journal.items ≡ starts_in
            self.old.journal.items ++ record { moment = moment; tree = tree } ∷ []) }
        ensures logs { OnOk result (logs_in self.new.journal.items ≡ logs_in self.old.journal.items
            ++ (200, length self.old.reply) ∷ []) }
        ensures input { OnOk result (self.new.input ≡ drop size self.old.input) }
        ensures output { OnOk result (self.new.output ≡ self.old.output ++ self.old.reply) }
        ensures same { OnErr result (self.new.journal.items ≡ self.old.journal.items) }
        ensures reply { self.new.reply ≡ self.old.reply }
    {
        self.output.append(self.reply.as_slice())?;
        let log = (STATUS, self.reply.len() as u64);
        self.journal.push(Request { moment, tree, log })?;
        self.input.used(size);
        Ok(())
    }

    pub(crate) fn run(&mut self, node: u32, moment: u64, tree: u64) -> StepAnswer
        ensures steps { Runs (record { moment = moment; tree = tree }) node result (shown self.old)
            (shown self.new) }
        ensures ended { KeepsEnd (shown self.old) (shown self.new) }
        ensures taken { TakesNo result }
        ensures left { LeftLower result (work_of self.old) (work_of self.new) }
        ensures held { crowd_of self.new.life ≡ crowd_of self.old.life }
        ensures reply { self.new.reply ≡ self.old.reply }
    {
        if node != 0 {
            return StepAnswer::Skipped;
        }
        if !self.is_live() || !self.output.is_empty() {
            return StepAnswer::Skipped;
        }
        let Some(size) = line_size(self.input.front()) else {
            return StepAnswer::Skipped;
        };
        match self.start(size, moment, tree) {
            Ok(()) => StepAnswer::Done { taken: 0 },
            Err(OutOfMemory) => {
                self.stop(StopCause::Memory);
                StepAnswer::OutOfMemory
            }
        }
    }

    pub(crate) fn go(&mut self) -> StepAnswer
        ensures steps { Goes result (shown self.old) (shown self.new) }
        ensures taken { TakesNo result }
        ensures left { LeftLower result (work_of self.old) (work_of self.new) }
        ensures held { Leaves result (crowd_of self.old.life) (crowd_of self.new.life) }
        ensures reply { self.new.reply ≡ self.old.reply }
    {
        if !self.is_shut() {
            return StepAnswer::Skipped;
        }
        self.life = Life::Absent;
        StepAnswer::Done { taken: 0 }
    }

    /// The moment at which it is given up, the type's last one where it never is.
    pub(crate) fn quiet_until(&self) -> u64
        ensures { (due : ℕ) → (shown self.now).deadline ≡ Some due → result ≤ due }
    {
        match self.life {
            Life::Absent => u64::MAX,
            Life::Live => self.due,
            Life::Stopped(_) => u64::MAX,
        }
    }

    /// The clock tells a moment.
    pub(crate) fn tick(&mut self, now: u64)
        ensures ticked { Ticked now (shown self.old) (shown self.new) }
        ensures ended { KeepsEnd (shown self.old) (shown self.new) }
        ensures left { work_of self.new ≤ work_of self.old }
        ensures held { crowd_of self.new.life ≡ crowd_of self.old.life }
        ensures reply { self.new.reply ≡ self.old.reply }
    {
        if self.is_live() && self.due <= now {
            let due = self.due;
            self.stop(StopCause::Deadline { due, now });
        }
    }
}
