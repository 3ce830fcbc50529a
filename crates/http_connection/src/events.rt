// What happens to a connection.
ghost use Rattle.std.specs.Prelude.{◌≡◌, ◌-◌, ◌||◌, true, false, [], ℕ, take, is_some, Some, None};
ghost use Rattle.ngx_outside.specs.Views.{Start};
ghost use Rattle.http_connection.specs.Rests.{Serves};

use crate::body::drop_rest;
use crate::conn::Conn;
use crate::input::{first_bytes, last_bytes, take_in};
use crate::journal::finish;
use crate::open::Meeting;
use crate::reading::{add_block, count_asked, lend_block};
use crate::sending::{filled, mark_after_write, sending_if};
use crate::slot::{put, take};
use crate::start::{Setting, run_one};
use crate::times::{AT_REST, Sending, marked, paced_on};
use byte_text::OutOfMemory;
use file_tree::{JobAnswer, is_fitting};
use ngx_outside::{FileFault, Files, StepAnswer, StopCause};
use req_head::{HeadRoom, head_stays, refusal_stays, size_fits};
use response_flow::reply_out::{OutRoom, Workspace};
use response_flow::{
    Passed, Ran, answered, ask, came, length_of, reads_alone, run_in_place, server_of, written,
};
use served_site::ServedSite;
use std::alloc::Global;

/// No more subrequests than these are opened for one response.
const MOST_SUBREQUESTS: u64 = 1000;

impl Conn {
    ghost use Rattle.std.specs.Prelude.{◌≡◌, ℕ, true, false, [], is_some, Some, None};
    ghost use Rattle.ngx_outside.specs.Views.{Start};
    ghost use Rattle.ngx_outside.specs.declared.event.Event.TheVariants.{Arrived, Ended, Wrote, LinkFailed, FileDone, JobFailed, Run};
    ghost use Rattle.http_connection.specs.Conn.{starts_at, ready_at, StepsConn};
    ghost use Rattle.response_flow.specs.subrequests.Wants.{is_among};
    ghost use Rattle.http_connection.specs.Rests.{Serves};
    ghost use Rattle.http_connection.specs.Times.{mark_by};
    ghost use Rattle.http_connection.specs.Conn.{TimesConn};
    ghost use Rattle.std.specs.Prelude.{◌≤◌, List, IfOk, OnErr, IsErrOf};
    ghost use Rattle.file_tree.specs.declared.job.Ask.TheVariants.{Read as AskRead};
    ghost use Rattle.ngx_outside.specs.Causes.{HasCause};
    ghost use Rattle.ngx_outside.specs.Outside.{Grow};
    ghost use Rattle.ngx_outside.specs.Records.{Adds, Failed as NotRead};
    ghost use Rattle.ngx_outside.specs.Stepped.{IsReading};
    ghost use Rattle.ngx_outside.specs.Views.{ask_in};
    ghost use Rattle.ngx_outside.specs.declared.files.FileFault.TheVariants.{Failed as ReadFailed};
    ghost use Rattle.response_flow.specs.Flights.{jobs_of, reads_alone_in};
    ghost use Rattle.http_connection.specs.Reads.{AsksWithin, BroughtConn};

    /// Bytes arrived: it takes as many as there is room for. A head that is whole then is read into the room of one that is over.
    #[inline(always)]
    pub fn arrived(&mut self, heads: &mut HeadRoom, moment: u64, bytes: &[u8]) -> StepAnswer
        ensures steps { (x : Serves) (now : Start) (conn : ℕ) →
            StepsConn x now (Arrived conn bytes.entry) result self.old self.new }
        ensures times { (x : Serves) (now : Start) (conn : ℕ) → now.moment ≡ moment →
            TimesConn x now (Arrived conn bytes.entry) result self.old self.new }
    {
        let Some(room) = self.room() else {
            return StepAnswer::Skipped;
        };
        if bytes.is_empty() {
            return StepAnswer::Skipped;
        }
        let taken = bytes.len().min(room);
        let bytes = first_bytes(bytes, taken);
        let dropped = drop_rest(self.body, bytes);
        let was_empty = self.buffered.is_empty();
        match take_in(
            heads,
            &mut self.buffered,
            &mut self.next,
            last_bytes(bytes, dropped.used),
        ) {
            Ok(()) => {
                self.body = dropped.body;
                self.closing = dropped.broken;
                self.times.filled = filled(self.times.filled, moment, was_empty, &self.buffered);
                StepAnswer::Done { taken }
            }
            Err(OutOfMemory) => {
                self.body = None;
                put(&mut self.flight, None);
                self.out.clear();
                self.buffered.clear();
                self.cause = Some(StopCause::Memory);
                StepAnswer::OutOfMemory
            }
        }
    }

    /// The peer sends no more.
    pub fn input_ended(&mut self) -> StepAnswer
        ensures steps { (x : Serves) (now : Start) (conn : ℕ) →
            StepsConn x now (Ended conn) result self.old self.new }
        ensures times { (x : Serves) (now : Start) (conn : ℕ) →
            TimesConn x now (Ended conn) result self.old self.new }
    {
        match self.room() {
            None => StepAnswer::Skipped,
            Some(_) => {
                self.ended = true;
                StepAnswer::Done { taken: 0 }
            }
        }
    }

    /// The first pending bytes were written. `room` is where the room of a large response is kept that went out whole.
    #[inline(always)]
    pub fn wrote(&mut self, room: &mut OutRoom, moment: u64, count: usize) -> StepAnswer
        ensures steps { (x : Serves) (now : Start) (conn : ℕ) →
            StepsConn x now (Wrote conn count) result self.old self.new }
        ensures times { (x : Serves) (now : Start) (conn : ℕ) → now.moment ≡ moment →
            TimesConn x now (Wrote conn count) result self.old self.new }
    {
        if count == 0 || count > self.pending().len() {
            return StepAnswer::Skipped;
        }
        written(&mut self.flight, &mut self.out, count, room);
        self.times.wrote = moment;
        self.times.mark = mark_after_write(self.times.mark, moment, &self.flight, &self.out);
        StepAnswer::Done { taken: 0 }
    }

    /// A node's job is answered.
    pub fn file_done(
        &mut self,
        alloc: Global,
        moment: u64,
        node: u32,
        answer: JobAnswer,
    ) -> StepAnswer
        ensures steps { (x : Serves) (now : Start) (conn : ℕ) →
            StepsConn x now (FileDone conn node answer.entry) result self.old self.new }
        ensures times { (x : Serves) (now : Start) (conn : ℕ) → now.moment ≡ moment →
            TimesConn x now (FileDone conn node answer.entry) result self.old self.new }
        ensures keeps { self.new.journal.keeps ≡ self.old.journal.keeps }
    {
        match self.ask(node) {
            Some(ask) => {
                if !is_fitting(ask, answer) {
                    return StepAnswer::Skipped;
                }
            }
            None => return StepAnswer::Skipped,
        }
        // By a mark that is this moment already nothing changes.
        let matters = self.times.mark != moment;
        let before = sending_if(matters, &self.flight, &self.out, self.tail);
        match answered(alloc, &mut self.flight, node, &mut self.out, answer) {
            Ok(()) => {
                let after = sending_if(matters, &self.flight, &self.out, self.tail);
                self.times.mark = marked(self.times.mark, moment, before, after);
                StepAnswer::Done { taken: 0 }
            }
            Err(OutOfMemory) => {
                put(&mut self.flight, None);
                self.out.clear();
                self.cause = Some(StopCause::Memory);
                StepAnswer::OutOfMemory
            }
        }
    }

    // Whether the block that a job asks for may be added to the bytes for the peer, for which there is room then.
    fn makes_room(&mut self, node: u32) -> bool
        ensures same { self.new ≡ self.old }
        ensures alone { result ≡ true → reads_alone_in self.old.flight ≡ true }
    {
        let count = count_asked(self.ask(node));
        reads_alone(&self.flight) && self.out.reserve(count).is_ok()
    }

    /// The job of a node, which asks for a block of a file, is answered by the files. The block of a request that has no subrequest is
    /// added to the bytes for the peer as it is read; any other is lent by the files, and copied.
    ///
    /// # Errors
    /// What the files failed by; nothing has changed then.
    pub fn read_done<F: Files>(
        &mut self,
        alloc: Global,
        moment: u64,
        node: u32,
        files: &mut F,
    ) -> Result<StepAnswer, FileFault>
        requires reads { IsReading (ask_in (jobs_of self.old.flight) node) }
        requires known { AsksWithin (F.seen files.old).newest
            (ask_in (jobs_of self.old.flight) node) }
        ensures done { (path : List ℕ) (start count of : ℕ) →
            ask_in (jobs_of self.old.flight) node ≡ Some (AskRead path start count of) →
            IfOk result (BroughtConn (F.seen files.old).tells ((F.seen files.old).trees of) path
            start count node (F.seen files.old).answers (F.seen files.new).answers moment self.old
            self.new) }
        ensures keeps { self.new.journal.keeps ≡ self.old.journal.keeps }
        ensures same { OnErr result (self.new ≡ self.old) }
        ensures failed { IsErrOf result ReadFailed → Adds NotRead (F.seen files.old).answers
            (F.seen files.new).answers }
        ensures tells { (F.seen files.new).tells ≡ (F.seen files.old).tells }
        ensures versions { (F.seen files.new).versions ≡ (F.seen files.old).versions }
        ensures grow { Grow (F.seen files.old).newest (F.seen files.new).newest
            (F.seen files.old).trees (F.seen files.new).trees }
        ensures cause { HasCause (F.seen files.old).faults (F.seen files.new).faults result
            ReadFailed }
    {
        if !self.makes_room(node) {
            lend_block(self.ask(node), files)?;
            let answer = JobAnswer::Read(files.block());
            return Ok(self.file_done(alloc, moment, node, answer));
        }
        let matters = self.times.mark != moment;
        let before = sending_if(matters, &self.flight, &self.out, self.tail);
        let placed = self.out.len();
        add_block(ask(&self.flight, node), files, &mut self.out)?;
        came(&mut self.flight, node, placed);
        let after = sending_if(matters, &self.flight, &self.out, self.tail);
        self.times.mark = marked(self.times.mark, moment, before, after);
        Ok(StepAnswer::Done { taken: 0 })
    }

    /// A node's job failed.
    pub fn job_failed(&mut self, node: u32) -> StepAnswer
        ensures steps { (x : Serves) (now : Start) (conn : ℕ) →
            StepsConn x now (JobFailed conn node) result self.old self.new }
        ensures times { (x : Serves) (now : Start) (conn : ℕ) →
            TimesConn x now (JobFailed conn node) result self.old self.new }
    {
        if self.ask(node).is_none() {
            return StepAnswer::Skipped;
        }
        self.stop(StopCause::FileFault);
        StepAnswer::Done { taken: 0 }
    }

    /// Its link failed.
    pub fn link_failed(&mut self) -> StepAnswer
        ensures steps { (x : Serves) (now : Start) (conn : ℕ) →
            StepsConn x now (LinkFailed conn) result self.old self.new }
        ensures times { (x : Serves) (now : Start) (conn : ℕ) →
            TimesConn x now (LinkFailed conn) result self.old self.new }
    {
        if self.is_stopped() {
            return StepAnswer::Skipped;
        }
        self.stop(StopCause::LinkFault);
        StepAnswer::Done { taken: 0 }
    }

    // A node of the request in flight runs on.
    fn goes_on(
        &mut self,
        space: &mut Workspace,
        served: &ServedSite,
        moment: u64,
        node: u32,
    ) -> StepAnswer
        requires some { is_some self.old.flight ≡ true }
        requires ready { is_among node (ready_at (is_some self.old.cause) self.old.flight
            self.old.closing self.old.out self.old.body self.old.next) ≡ true }
        ensures steps { (now : Start) (conn : ℕ) →
            StepsConn (record { patterns = space.old.patterns; served = served.now }) now
            (Run conn node) result self.old self.new }
        ensures times { (now : Start) (conn : ℕ) → now.moment ≡ moment →
            TimesConn (record { patterns = space.old.patterns; served = served.now }) now
            (Run conn node) result self.old self.new }
        ensures patterns { space.new.patterns ≡ space.old.patterns }
    {
        let matters = self.times.mark != moment;
        let before = sending_if(matters, &self.flight, &self.out, self.tail);
        let ground = match &self.flight {
            Some(flight) => served.ground(server_of(flight), length_of(flight)),
            None => unreachable!(),
        };
        match run_in_place(
            space,
            &ground,
            &mut self.flight,
            node,
            &mut self.out,
            self.closing,
        ) {
            Ok(Passed::TooMany) => {
                put(&mut self.flight, None);
                self.out.clear();
                self.cause = Some(StopCause::SubLimit {
                    started: MOST_SUBREQUESTS,
                });
                self.times.mark = marked(self.times.mark, moment, before, AT_REST);
                StepAnswer::Done { taken: 0 }
            }
            Ok(
                Passed::On {
                    closing,
                    log,
                    level,
                    tail,
                },
            ) => {
                finish(&mut self.journal, log);
                self.closing = closing;
                self.tail = tail;
                let after = sending_if(matters, &self.flight, &self.out, self.tail);
                self.times.mark = marked(self.times.mark, moment, before, after);
                paced_on(
                    &mut self.times.pace,
                    &mut self.least,
                    self.times.head,
                    served,
                    level,
                );
                StepAnswer::Done { taken: 0 }
            }
            Err(OutOfMemory) => {
                put(&mut self.flight, None);
                self.out.clear();
                self.cause = Some(StopCause::Memory);
                StepAnswer::OutOfMemory
            }
        }
    }

    // A request starts.
    fn starts_one(
        &mut self,
        space: &mut Workspace,
        served: &ServedSite,
        moment: u64,
        tree: u64,
    ) -> StepAnswer
        requires none { self.old.flight ≡ None }
        requires ready { starts_at (is_some self.old.cause) self.old.closing self.old.out
            self.old.body self.old.next ≡ true }
        ensures steps { (conn : ℕ) →
            StepsConn (record { patterns = space.old.patterns; served = served.now })
            (record { moment = moment; tree = tree }) (Run conn 0) result self.old self.new }
        ensures times { (conn : ℕ) →
            TimesConn (record { patterns = space.old.patterns; served = served.now })
            (record { moment = moment; tree = tree }) (Run conn 0) result self.old self.new }
        ensures patterns { space.new.patterns ≡ space.old.patterns }
    {
        head_stays();
        refusal_stays();
        size_fits();
        let matters = self.times.mark != moment;
        let meeting = Meeting {
            local: self.local,
            peer: self.peer,
            moment,
            tree,
        };
        match run_one(
            space,
            Setting { served, meeting },
            &mut self.buffered,
            &mut self.next,
            &mut self.body,
            &mut self.out,
            &mut self.journal,
        ) {
            Ok(Ran::TooMany) => {
                self.body = None;
                put(&mut self.flight, None);
                self.out.clear();
                self.buffered.clear();
                self.cause = Some(StopCause::SubLimit {
                    started: MOST_SUBREQUESTS,
                });
                StepAnswer::Done { taken: 0 }
            }
            Ok(Ran::On(onward)) => {
                put(&mut self.flight, onward.flight);
                self.closing = onward.closing;
                self.tail = onward.tail;
                let after = sending_if(matters, &self.flight, &self.out, self.tail);
                self.times.mark = marked(self.times.mark, moment, AT_REST, after);
                paced_on(
                    &mut self.times.pace,
                    &mut self.least,
                    self.times.head,
                    served,
                    onward.level,
                );
                StepAnswer::Done { taken: 0 }
            }
            Err(OutOfMemory) => {
                self.body = None;
                put(&mut self.flight, None);
                self.out.clear();
                self.buffered.clear();
                self.cause = Some(StopCause::Memory);
                StepAnswer::OutOfMemory
            }
        }
    }

    /// A node runs: one of the request in flight, or that with which a further one starts.
    pub fn runs(
        &mut self,
        space: &mut Workspace,
        served: &ServedSite,
        moment: u64,
        tree: u64,
        node: u32,
    ) -> StepAnswer
        ensures steps { (conn : ℕ) →
            StepsConn (record { patterns = space.old.patterns; served = served.now })
            (record { moment = moment; tree = tree }) (Run conn node) result self.old self.new }
        ensures times { (conn : ℕ) →
            TimesConn (record { patterns = space.old.patterns; served = served.now })
            (record { moment = moment; tree = tree }) (Run conn node) result self.old self.new }
        ensures patterns { space.new.patterns ≡ space.old.patterns }
    {
        if !self.is_ready(node) {
            return StepAnswer::Skipped;
        }
        if self.flight.is_some() {
            self.goes_on(space, served, moment, node)
        } else {
            self.starts_one(space, served, moment, tree)
        }
    }
}
