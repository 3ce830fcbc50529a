// A core that tells the events that it is given.
ghost use Rattle.std.specs.Prelude.{◌≡◌, [], None, Some, MatchOption, map};
ghost use Rattle.ngx_outside.specs.Records.{Adds, given_of};
ghost use Rattle.telling_core.specs.Events.{given_event, events_told};

use crate::event::{GivenEvent, copy_event};
use byte_text::OutOfMemory;
use file_tree::Ask;
use memory_outside::Answers;
use ngx_outside::{Event, EventCore, StepAnswer, Want};
use ready_loop::TimedCore;
use std::alloc::Global;

/// A core that does as the core within does, and keeps each event that it is given, with its bytes, so that a run over it
/// can be told. Once there is no memory for an event, none is told from then on, and the core within goes on.
#[derive(Drop)]
pub struct TellingCore<E: Drop> {
    alloc: Global,
    core: E,
    given: Answers<GivenEvent>,
}

// Keeps an event.
#[tactic(auto, using(crate::proofs::Kept::event_added, crate::proofs::Kept::events_stopped))]
fn tell_event(alloc: Global, given: &mut Answers<GivenEvent>, event: Event)
    ensures { Adds (given_of event.entry) (events_told given.old) (events_told given.new) }
{
    match copy_event(alloc, event) {
        Ok(copy) => given.add(copy),
        Err(OutOfMemory) => given.stop(),
    }
}

impl<E: Drop> TellingCore<E> {
    ghost use Rattle.telling_core.specs.Core.{core_of, events_of};

    /// A core that has been given nothing yet, over this one.
    pub fn new(alloc: Global, core: E) -> Self
        ensures core { core_of result ≡ core }
        ensures events { events_of result ≡ Some [] }
    {
        TellingCore {
            alloc,
            core,
            given: Answers::new(alloc),
        }
    }

    /// The events that were given, one after another; nothing where one could not be kept.
    pub fn given(&self) -> Option<&[GivenEvent]>
        ensures { MatchOption result (events_of self.now ≡ None)
            (λ given. events_of self.now ≡ Some (map given_event given.now)) }
    {
        if self.given.whole {
            Some(self.given.kept.as_slice())
        } else {
            None
        }
    }
}

impl<E: EventCore + Drop> EventCore for TellingCore<E> {
    ghost use Rattle.telling_core.specs.Core.{core_of, events_of, seen_of};

    ghost seen = { λ t. seen_of (E.seen (core_of t)) (events_of t) };

    fn step(&mut self, event: Event) -> StepAnswer {
        tell_event(self.alloc, &mut self.given, event);
        self.core.step(event)
    }

    fn pending(&self, conn: u32) -> &[u8] {
        self.core.pending(conn)
    }

    fn conns(&self) -> &[u32] {
        self.core.conns()
    }

    fn next_want(&self, conn: u32, due: bool, full: bool) -> Option<Want> {
        self.core.next_want(conn, due, full)
    }

    fn ask(&self, conn: u32, node: u32) -> Option<&Ask> {
        self.core.ask(conn, node)
    }

    fn refused(&self) -> u64 {
        self.core.refused()
    }
}

impl<E: TimedCore + Drop> TimedCore for TellingCore<E> {
    fn quiet_until(&self) -> u64 {
        self.core.quiet_until()
    }
}
