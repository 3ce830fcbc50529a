// The core.
ghost use Rattle.std.specs.Prelude.{◌≡◌};
ghost use Rattle.std.proofs.Props.{props};
ghost use Rattle.http_connection.specs.Rests.{TellsRaceless};
ghost use Rattle.connection_core.specs.Table.{AllKnown, AllReached, Counted, serves_with};

use crate::law::cores_are_sound;
use crate::table::Table;
use file_tree::Ask;
use http_connection::reply_out::Workspace;
use http_connection::served_site::ServedSite;
use http_connection::{Conn, connections_are_sound, next_want};
use http_types::Addr;
use ngx_outside::{Entry, Event, EventCore, FileFault, Files, StepAnswer, StopCause, Want};
use ngx_pattern::PatternSet;
use ready_loop::TimedCore;
use std::alloc::Global;

/// No moment is later than the last second of the year 9999.
const LAST_MOMENT: u64 = 253402300799;

// Counts an event that was refused.
fn count(refused: &mut u64, answer: StepAnswer)
    ensures { Counted answer refused.old refused.new }
{
    match answer {
        StepAnswer::Done { taken: _ } => {}
        StepAnswer::Skipped => {}
        StepAnswer::OutOfMemory => *refused = refused.saturating_add(1),
    }
}

/// The core of a site: all connections that are held, at most 512, each under its number. The requests of all start by one
/// clock and by one number of the tree. Steps have led to each response in flight, and where the site says that the race check
/// named no variable of it, none is named.
#[derive(Drop)]
pub struct Hub {
    pub(crate) space: Workspace,
    pub(crate) table: Table,
    pub(crate) moment: u64,
    pub(crate) tree: u64,
    pub(crate) refused: u64,
    ghost known: { AllKnown tree table.conns.items } by { Prim.hlevel props },
    ghost told: { TellsRaceless (serves_with space.patterns table.served) } by { Prim.hlevel props },
    ghost reached: { AllReached (serves_with space.patterns table.served) table.conns.items } by { Prim.hlevel props },
}

impl Hub {
    ghost use Rattle.std.specs.Prelude.{◌≡◌, ◌↔◌, ◌≤◌, ℕ, Bool, [], true, is_some, IfSome, MatchOption, Contains};
    ghost use Rattle.std.specs.List.Sorted.{IsStrictlyIncreasing};
    ghost use Rattle.http_types.specs.declared.words.Addr.{Addr as End};
    ghost use Rattle.ngx_outside.specs.Views.{Steps, OpensIf, LeftBy, CountsRefused, TakesNone, Course, now_after, ended_after, nobody, is_idle as idle_in};
    ghost use Rattle.connection_core.specs.Table.{is_own, event_conn, price_each};
    ghost use Rattle.http_connection.specs.Conn.{view_of, asked_of};
    ghost use Rattle.connection_core.specs.Core.{serves_at, view_at, journal_at, conns_held, terms_at, site_terms, now_at, left_at, refused_at, IsRacelessSite};

    /// A core that holds no connection, at moment 0 and tree 0, of a site with these patterns. The site says that the race check
    /// named no variable of it only where none is named. Where `keeps` is true the requests of each connection are kept, to be told;
    /// else they are only counted, so that they take no room.
    pub fn new(alloc: Global, served: ServedSite, patterns: PatternSet, keeps: bool) -> Self
        requires quiet { served.raceless ≡ true → IsRacelessSite patterns served.site }
        ensures empty { (c : ℕ) → view_at result c ≡ nobody }
        ensures none { conns_held result ≡ [] }
        ensures terms { terms_at result ≡ site_terms served.raceless keeps patterns served.site }
        ensures now { now_at result ≡ record { moment = 0; tree = 0 } }
        ensures left { left_at result ≡ 0 }
        ensures refused { refused_at result ≡ 0 }
    {
        Hub {
            space: Workspace::new(alloc, patterns),
            table: Table::new(alloc, served, keeps),
            moment: 0,
            tree: 0,
            refused: 0,
        }
    }

    // The connection under a number.
    #[inline(always)]
    fn get(&self, conn: u32) -> Option<&Conn>
        ensures view { MatchOption result (view_at self.now conn ≡ nobody)
            (λ c. view_at self.now conn ≡ view_of (serves_at self.now) c.now) }
        ensures known { IfSome result (λ c. asked_of c.now ≤ self.now.tree) }
        ensures journal { MatchOption result (journal_at self.now conn ≡ [])
            (λ c. journal_at self.now conn ≡ c.now.journal.past.entries) }
        ensures keeps { IfSome result (λ c. c.now.journal.keeps ≡ self.now.table.keeps) }
    {
        self.table.get(conn)
    }

    /// Whether nothing is to be done on a connection until more arrives; false where it isn't held.
    pub fn is_idle(&self, conn: u32) -> bool
        ensures { result ≡ idle_in (view_at self.now conn) }
    {
        match self.get(conn) {
            Some(held) => held.is_idle(),
            None => false,
        }
    }

    /// Whether the link of a connection is to be closed.
    pub fn is_shut(&self, conn: u32) -> bool
        ensures { result ≡ (view_at self.now conn).shut }
    {
        match self.get(conn) {
            Some(held) => held.is_shut(),
            None => false,
        }
    }

    /// Why a connection was stopped, if it was.
    pub fn cause(&self, conn: u32) -> Option<StopCause>
        ensures { result ≡ (view_at self.now conn).cause }
    {
        match self.get(conn) {
            Some(held) => held.cause(),
            None => None,
        }
    }

    /// The requests that were started on a connection, each with what was logged of it, where they are kept; none where it isn't
    /// held.
    pub fn journal(&self, conn: u32) -> Option<&[Entry]>
        ensures entries { IfSome result (λ entries. entries.now ≡ journal_at self.now conn) }
        ensures told { (terms_at self.now).keeps ≡ true → is_some result ≡ true }
    {
        match self.get(conn) {
            Some(held) => held.journal(),
            None => Some(&[]),
        }
    }

    /// The numbers of the connections that are held, in their order.
    pub fn ids(&self) -> &[u32]
        ensures ids { result.now ≡ conns_held self.now }
        ensures order { IsStrictlyIncreasing (conns_held self.now) }
        ensures held { (c : ℕ) → Contains (conns_held self.now) c ↔
            ((view_at self.now c).held ≡ true) }
    {
        self.table.ids.as_slice()
    }

    // An event of one connection.
    #[inline(always)]
    fn own(&mut self, conn: u32, event: &Event) -> StepAnswer
        requires own { is_own event.now ≡ true }
        requires conn { event_conn event.now ≡ conn }
        ensures steps { (fresh : End → End → Course) →
            Steps fresh (now_at self.old) event.now result (view_at self.old) (view_at self.new) }
        ensures opens { (opens : ℕ → End → Bool) → OpensIf opens event.now result }
        ensures ended { (c : ℕ) → (view_at self.new c).ended ≡ ended_after event.now result c
            (view_at self.old c).ended }
        ensures taken { TakesNone event.now result }
        ensures now { now_at self.new ≡ now_after (now_at self.old) event.now result }
        ensures left { LeftBy price_each event.now result (left_at self.old) (left_at self.new) }
        ensures refused { CountsRefused event.now result (refused_at self.old)
            (refused_at self.new) }
        ensures served { self.new.table.served ≡ self.old.table.served }
        ensures keeps { self.new.table.keeps ≡ self.old.table.keeps }
        ensures patterns { self.new.space.patterns ≡ self.old.space.patterns }
        ensures ids { self.new.table.ids.items ≡ self.old.table.ids.items }
    {
        let answer = self
            .table
            .own(&mut self.space, self.moment, self.tree, conn, event);
        count(&mut self.refused, answer);
        answer
    }
}

impl EventCore for Hub {
    ghost use Rattle.connection_core.specs.Core.{seen_at};

    ghost seen = { seen_at };

    #[inline(always)]
    fn step(&mut self, event: Event) -> StepAnswer {
        cores_are_sound();
        match event {
            Event::Opened { conn, local, peer } => {
                let answer = self
                    .table
                    .open(self.space.alloc, conn, local, peer, self.moment);
                count(&mut self.refused, answer);
                answer
            }
            Event::Arrived { conn, bytes: _ }
            | Event::Ended { conn }
            | Event::Wrote { conn, count: _ }
            | Event::LinkFailed { conn }
            | Event::FileDone {
                conn,
                node: _,
                answer: _,
            }
            | Event::JobFailed { conn, node: _ }
            | Event::Run { conn, node: _ } => self.own(conn, &event),
            Event::Tick { now } => {
                let moment = now.min(LAST_MOMENT);
                self.moment = moment;
                self.table.tick(moment);
                StepAnswer::Done { taken: 0 }
            }
            Event::Tree { to } => {
                if to <= self.tree {
                    return StepAnswer::Skipped;
                }
                self.tree = to;
                StepAnswer::Done { taken: 0 }
            }
            Event::Gone { conn } => self.table.close(conn),
        }
    }

    #[inline(always)]
    fn pending(&self, conn: u32) -> &[u8] {
        match self.get(conn) {
            Some(held) => held.pending(),
            None => &[],
        }
    }

    fn conns(&self) -> &[u32] {
        self.table.ids.as_slice()
    }

    #[inline(always)]
    fn next_want(&self, conn: u32, due: bool, full: bool) -> Option<Want> {
        connections_are_sound();
        match self.get(conn) {
            Some(held) => next_want(held, conn, due, full),
            None => None,
        }
    }

    #[inline(always)]
    fn ask(&self, conn: u32, node: u32) -> Option<&Ask> {
        match self.get(conn) {
            Some(held) => held.ask(node),
            None => None,
        }
    }

    #[inline(always)]
    fn read_done<F: Files>(
        &mut self,
        conn: u32,
        node: u32,
        files: &mut F,
    ) -> Result<StepAnswer, FileFault> {
        let answer = self
            .table
            .read(&self.space, self.moment, conn, node, files)?;
        count(&mut self.refused, answer);
        Ok(answer)
    }

    fn refused(&self) -> u64 {
        self.refused
    }
}

impl TimedCore for Hub {
    fn quiet_until(&self) -> u64 {
        self.table.quiet_until()
    }
}
