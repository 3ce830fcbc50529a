// One connection.
ghost use Rattle.std.specs.Prelude.{◌≡◌, ◌≤◌, ◌<◌, ◌+◌, ◌-◌, ◌^◌, ◌⊎◌, ◌||◌, true, false, [], length, is_some, IfOk, Some, None};
ghost use Rattle.req_head.specs.Step.{head_step};
ghost use Rattle.response_flow.specs.Flights.{FlightFits};
ghost use Rattle.http_connection.specs.Facts.{fits_prop, tail_prop};
ghost use Rattle.http_connection.specs.Rests.{Serves};
ghost use Rattle.http_connection.specs.Steps.{starts, rest_of, logged_in, IsLogged};
ghost use Rattle.http_connection.specs.Tails.{KeepsTail};
ghost use Rattle.http_connection.specs.Times.{NoneShorter};
ghost use Rattle.body_frame.specs.Outcome.{Short};

use crate::input::begins;
use crate::sending::{is_fresh, is_pending};
use crate::slot::put;
use crate::times::{Awaited, NO_PACE, Times, awaited_of, due, head_wait_at};
use body_frame::BodyState;
use byte_text::{ByteQueue, OutOfMemory};
use file_tree::Ask;
use http_types::Addr;
use ngx_outside::{Entry, StopCause};
use req_head::{HeadStep, read_head};
use request_journal::Journal;
use response_flow::{Flight, ask, first_job, first_ready, is_ready, pending};
use served_site::ServedSite;
use std::alloc::Global;

/// One connection: the bytes that are buffered and what they begin, the request in flight, the bytes that are kept for the
/// peer, and how many of them are the tail of a body in chunks once a page is over, the journal of its requests, how long it
/// waits, and how long it waits at least.
#[derive(Drop)]
pub struct Conn {
    pub(crate) local: Addr,
    pub(crate) peer: Addr,
    pub(crate) buffered: ByteQueue,
    pub(crate) flight: Option<Flight>,
    pub(crate) out: ByteQueue,
    pub(crate) tail: usize,
    pub(crate) journal: Journal,
    pub(crate) next: HeadStep,
    pub(crate) body: Option<BodyState>,
    pub(crate) closing: bool,
    pub(crate) ended: bool,
    pub(crate) cause: Option<StopCause>,
    pub(crate) times: Times,
    pub(crate) least: u64,
    ghost looked: { is_some cause ≡ false → next ≡ head_step buffered },
    ghost dropped: { is_some cause ≡ true → out ≡ [] },
    ghost quit: { is_some cause ≡ true → flight ≡ None },
    ghost flying: { FlightFits flight (length out) } by { fits_prop flight (length out) },
    ghost tailed: { KeepsTail flight tail out } by { tail_prop flight tail out },
    ghost few: { length buffered ≤ 8192 },
    ghost drained: { is_some body ≡ true → buffered ≡ [] },
    ghost unended: { is_some body ≡ true → rest_of body [] ≡ Short },
    ghost logged: { is_some cause ≡ false → IsLogged (is_some flight) journal.past.entries },
    ghost brief: { NoneShorter times.head times.pace least },
}

impl Conn {
    ghost use Rattle.std.specs.Prelude.{◌≡◌, ◌⊎◌, List, true, false, [], length, is_some, IfOk, IfSome, Option, Some, None, option_copied};
    ghost use Rattle.ngx_outside.specs.Views.{Fresh, ask_in, is_idle as idle_in};
    ghost use Rattle.http_connection.specs.Conn.{view_of, left_of, fresh_course, room_at, starts_at, ready_at, idle_at, shut_at, pending_at, weight, asked_of};
    ghost use Rattle.response_flow.specs.Flights.{jobs_of};
    ghost use Rattle.response_flow.specs.subrequests.Wants.{first_job as job_first, first_of as number_first, is_among};
    ghost use Rattle.http_connection.specs.Rests.{Serves};
    ghost use Rattle.http_connection.specs.Times.{own_values, head_wait_in, soonest};
    ghost use Rattle.http_connection.specs.Conn.{awaited_at, due_at};
    ghost use Rattle.ngx_outside.specs.Views.{Ticked};
    ghost use Rattle.site_views.specs.Choice.{default_server};
    ghost use Rattle.ngx_pattern.specs.Pattern.{Pattern as SetPattern};
    ghost use Rattle.pattern_search.specs.Found.{patterns_seen};
    ghost use Rattle.site_whole.specs.Whole.{whole};

    /// A connection with these two ends, on which nothing has come and gone. Its waiting begins now. Its requests are kept, to be
    /// told, or only counted.
    #[tactic(auto, unfolding(crate::specs::Steps::logged_in))]
    pub fn new(
        alloc: Global,
        served: &ServedSite,
        local: Addr,
        peer: Addr,
        moment: u64,
        keeps: bool,
    ) -> Result<Self, OutOfMemory>
        ensures fresh { IfOk result (λ c. (x : Serves) →
            Fresh (fresh_course x.served.raceless x.patterns x.served.site local peer)
            (view_of x c)) }
        ensures mark { IfOk result (λ c. (c.times.mark ≡ moment) × (c.times.wrote ≡ moment)
            × (c.times.filled ≡ moment)) }
        ensures head { (patterns : List SetPattern) → IfOk result (λ c. c.times.head
            ≡ head_wait_in (own_values (default_server
            (whole (patterns_seen patterns) served.now.site).servers local))) }
        ensures left { IfOk result (λ c. left_of c ≡ 1 + weight) }
        ensures asked { IfOk result (λ c. asked_of c ≡ 0) }
        ensures flight { IfOk result (λ c. c.flight ≡ None) }
        ensures keeps { IfOk result (λ c. c.journal.keeps ≡ keeps) }
    {
        let buffered = ByteQueue::new(alloc);
        let next = read_head(alloc, buffered.front())?;
        Ok(Conn {
            local,
            peer,
            buffered,
            flight: None,
            out: ByteQueue::new(alloc),
            tail: 0,
            journal: Journal::new(alloc, keeps),
            next,
            body: None,
            closing: false,
            ended: false,
            cause: None,
            times: Times {
                mark: moment,
                wrote: moment,
                filled: moment,
                head: head_wait_at(served, local),
                pace: NO_PACE,
            },
            least: 0,
        })
    }

    /// The bytes that are to be written next.
    pub fn pending(&self) -> &[u8]
        ensures { result.now ≡ pending_at self.now.flight self.now.out self.now.tail }
    {
        pending(&self.flight, &self.out, self.tail)
    }

    /// The job of a node; none where it has no job that waits.
    pub fn ask(&self, node: u32) -> Option<&Ask>
        ensures { option_copied result ≡ ask_in (jobs_of self.now.flight) node }
    {
        ask(&self.flight, node)
    }

    /// The first node whose job waits for an answer.
    #[inline(always)]
    pub fn first_job(&self) -> Option<u32>
        ensures { result ≡ job_first (jobs_of self.now.flight) }
    {
        first_job(&self.flight)
    }

    /// The requests that were started, each with what was logged of it, where they are kept.
    pub fn journal(&self) -> Option<&[Entry]>
        ensures entries { IfSome result
            (λ entries. entries.now ≡ self.now.journal.past.entries) }
        ensures told { is_some result ≡ self.now.journal.keeps }
    {
        self.journal.entries()
    }

    /// Why it was stopped, if it was.
    pub fn cause(&self) -> Option<StopCause>
        ensures { result ≡ self.now.cause }
    {
        self.cause
    }

    pub(crate) fn is_stopped(&self) -> bool
        ensures { result ≡ is_some self.now.cause }
    {
        self.cause.is_some()
    }

    /// How many more bytes it takes now, where it takes any: what is left of 8192.
    pub fn room(&self) -> Option<usize>
        ensures { result ≡ room_at (is_some self.now.cause) self.now.closing self.now.ended
            self.now.buffered }
    {
        if self.is_stopped() || self.closing || self.ended || 8192 <= self.buffered.len() {
            None
        } else {
            Some(8192 - self.buffered.len())
        }
    }

    // Whether the bytes that are buffered begin a request, once nothing of a body is to be dropped.
    pub(crate) fn starts(&self) -> bool
        ensures { result ≡ starts self.now.body self.now.next }
    {
        match self.body {
            Some(_) => false,
            None => begins(&self.next),
        }
    }

    // Whether a further request may start, where none is in flight that seeks a file.
    pub(crate) fn may_start(&self) -> bool
        ensures { result ≡ starts_at (is_some self.now.cause) self.now.closing self.now.out
            self.now.body self.now.next }
    {
        !self.is_stopped() && !self.closing && self.out.is_empty() && self.starts()
    }

    /// The first node that can run: one of the request in flight, or that with which a further one starts.
    #[inline(always)]
    pub fn first_ready(&self) -> Option<u32>
        ensures { result ≡ number_first (ready_at (is_some self.now.cause) self.now.flight
            self.now.closing self.now.out self.now.body self.now.next) }
    {
        if self.flight.is_some() {
            return first_ready(&self.flight);
        }
        if self.may_start() {
            return Some(0);
        }
        None
    }

    /// Whether a node can run.
    pub fn is_ready(&self, node: u32) -> bool
        ensures { result ≡ is_among node (ready_at (is_some self.now.cause) self.now.flight
            self.now.closing self.now.out self.now.body self.now.next) }
    {
        if self.flight.is_some() {
            return is_ready(&self.flight, node);
        }
        0 == node && self.may_start()
    }

    // Whether nothing is to be done until more arrives, by its parts.
    fn rests(&self) -> bool
        ensures { result ≡ idle_at (is_some self.now.cause) self.now.flight self.now.closing
            self.now.out self.now.body self.now.next }
    {
        match &self.flight {
            Some(_) => false,
            None => !self.is_stopped() && self.out.is_empty() && (self.closing || !self.starts()),
        }
    }

    /// Whether nothing is to be done until more arrives.
    pub fn is_idle(&self) -> bool
        ensures { (x : Serves) → result ≡ idle_in (view_of x self.now) }
    {
        self.rests()
    }

    /// Whether its link is to be closed.
    pub fn is_shut(&self) -> bool
        ensures { result ≡ shut_at (is_some self.now.cause) self.now.flight self.now.closing
            self.now.ended self.now.out self.now.body self.now.next }
    {
        self.is_stopped() || ((self.closing || self.ended) && self.rests())
    }

    // What is awaited of the peer.
    fn awaited(&self) -> Awaited
        ensures { result ≡ awaited_at self.now }
    {
        awaited_of(
            self.is_shut(),
            is_pending(&self.flight, &self.out, self.tail),
            self.flight.is_some() || self.starts(),
            is_fresh(&self.journal),
            !self.buffered.is_empty(),
        )
    }

    /// The moment at which it is given up, the type's last one where there is none.
    pub fn due(&self) -> u64
        ensures { result ≡ soonest (due_at self.now) }
    {
        due(self.awaited(), self.times)
    }

    /// A moment before which it isn't given up. It costs less than its own.
    pub fn least_due(&self) -> u64
        ensures { result ≤ soonest (due_at self.now) }
    {
        self.times.mark.saturating_add(self.least)
    }

    /// The clock tells a moment: it is given up where its own has come.
    pub fn ticks(&mut self, now: u64)
        requires { now < 2 ^ 64 - 1 }
        ensures ticked { (x : Serves) → Ticked now (view_of x self.old) (view_of x self.new) }
        ensures left { left_of self.new ≤ left_of self.old }
        ensures asked { asked_of self.new ≤ asked_of self.old }
        ensures ended { self.new.ended ≡ self.old.ended }
        ensures times { self.new.times ≡ self.old.times }
        ensures flight { (self.new.flight ≡ self.old.flight) ⊎ (self.new.flight ≡ None) }
        ensures keeps { self.new.journal.keeps ≡ self.old.journal.keeps }
    {
        let due = self.due();
        if due > now {
            return;
        }
        self.stop(StopCause::Deadline { due, now });
    }

    // It is stopped: what is unsent is dropped.
    pub(crate) fn stop(&mut self, cause: StopCause)
        ensures cause { self.new.cause ≡ Some cause }
        ensures flight { self.new.flight ≡ None }
        ensures out { self.new.out ≡ [] }
        ensures journal { self.new.journal.past.entries ≡ self.old.journal.past.entries }
        ensures keeps { self.new.journal.keeps ≡ self.old.journal.keeps }
        ensures ended { self.new.ended ≡ self.old.ended }
        ensures times { self.new.times ≡ self.old.times }
        ensures tail { self.new.tail ≡ self.old.tail }
    {
        put(&mut self.flight, None);
        self.out.clear();
        self.cause = Some(cause);
    }
}
