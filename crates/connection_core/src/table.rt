// All connections that are held, each under its number.
ghost use Rattle.std.specs.Prelude.{◌≡◌, vec_len};
ghost use Rattle.std.specs.List.Sorted.{IsStrictlyIncreasing};
ghost use Rattle.std.proofs.Props.{props};
ghost use Rattle.connection_core.specs.Table.{AllKeep, AllLater};

use crate::place::{earlier, happen_at, place, place_near, put_at, read_at, take_out, tick_all};
use byte_text::OutOfMemory;
use http_connection::Conn;
use http_connection::reply_out::Workspace;
use http_connection::served_site::ServedSite;
use http_types::Addr;
use ngx_outside::{Event, FileFault, Files, StepAnswer};
use std::alloc::Global;

/// How many connections are held at most (nginx's `worker_connections`).
const MOST: usize = 512;

/// The connections that are held for a site, each under its number, the place of the one that had the last event, a moment before
/// which none of them is given up, and whether their requests are kept, to be told.
#[derive(Drop)]
pub(crate) struct Table {
    pub(crate) served: ServedSite,
    pub(crate) ids: Vec<u32>,
    pub(crate) conns: Vec<Conn>,
    near: usize,
    soon: u64,
    pub(crate) keeps: bool,
    ghost rising: { IsStrictlyIncreasing ids.items },
    ghost paired: { vec_len conns ≡ vec_len ids },
    ghost later: { AllLater soon conns.items } by { Prim.hlevel props },
    ghost keeping: { AllKeep keeps conns.items } by { Prim.hlevel props },
}

impl Table {
    ghost use Rattle.std.specs.Prelude.{◌≡◌, ◌≢◌, ◌+◌, ◌-◌, ◌^◌, ◌*◌, ◌<◌, ◌≤◌, ℕ, List, [], true, false, IfOk, IfSome, OnOk, MatchOption, None, Some, length, insert, vec_len, vec_capacity};
    ghost use Rattle.http_types.specs.declared.words.Addr.{Addr as End};
    ghost use Rattle.ngx_outside.specs.Views.{Start, Steps, StepsOwn, OneSteps, LeftBy, OpensIf, TakesNone, CountsHeld, Course, Fresh, nobody};
    ghost use Rattle.ngx_outside.specs.declared.event.Event.TheVariants.{Opened, Gone};
    ghost use Rattle.http_connection.specs.Conn.{view_of, fresh_course, left_of, weight, asked_of, ended_by};
    ghost use Rattle.http_connection.specs.Rests.{Serves, TellsRaceless};
    ghost use Rattle.ngx_pattern.specs.Pattern.{Pattern as SetPattern};
    ghost use Rattle.std.specs.Prelude.{OnErr, IsErrOf};
    ghost use Rattle.file_tree.specs.declared.job.Ask.TheVariants.{Read as AskRead};
    ghost use Rattle.ngx_outside.specs.Causes.{HasCause};
    ghost use Rattle.ngx_outside.specs.Outside.{Grow};
    ghost use Rattle.ngx_outside.specs.Records.{Adds, Failed as NotRead};
    ghost use Rattle.ngx_outside.specs.Stepped.{IsReading};
    ghost use Rattle.ngx_outside.specs.Views.{ask_in};
    ghost use Rattle.ngx_outside.specs.declared.files.FileFault.TheVariants.{Failed as ReadFailed};
    ghost use Rattle.connection_core.specs.Brought.{BroughtIn};
    ghost use Rattle.connection_core.specs.Table.{is_own, serves_with, listens_there, view_in, journal_in, left_in, price_each, opens_in, AllKnown, AllReached, AllTicked, BelongsAt};

    /// No connection is held. The requests of those that will be are kept, or only counted.
    pub(crate) fn new(alloc: Global, served: ServedSite, keeps: bool) -> Self
        ensures { (result.served ≡ served) × (result.ids.items ≡ []) × (result.conns.items ≡ [])
            × (result.keeps ≡ keeps) }
    {
        Table {
            served,
            ids: Vec::new(alloc),
            conns: Vec::new(alloc),
            near: 0,
            soon: u64::MAX,
            keeps,
        }
    }

    /// The connection under a number.
    #[inline(always)]
    pub(crate) fn get(&self, conn: u32) -> Option<&Conn>
        ensures view { (x : Serves) → MatchOption result
            (view_in x self.now.ids.items self.now.conns.items conn ≡ nobody)
            (λ c. view_in x self.now.ids.items self.now.conns.items conn ≡ view_of x c.now) }
        ensures known { (tree : ℕ) → AllKnown tree self.now.conns.items →
            IfSome result (λ c. asked_of c.now ≤ tree) }
        ensures journal { MatchOption result (journal_in self.now.ids.items self.now.conns.items
            conn ≡ []) (λ c. journal_in self.now.ids.items self.now.conns.items
            conn ≡ c.now.journal.past.entries) }
        ensures keeps { IfSome result (λ c. c.now.journal.keeps ≡ self.now.keeps) }
    {
        match place_near(self.ids.as_slice(), self.near, conn) {
            Ok(at) => Some(&self.conns[at]),
            Err(_) => None,
        }
    }

    // Whether a server of the site listens at a local end.
    fn is_listening(&self, local: Addr) -> bool
        ensures { (patterns : List SetPattern) → result ≡ listens_there patterns
            self.now.served.site local }
    {
        match self.served.default_at(local) {
            Some(_) => true,
            None => false,
        }
    }

    // Room for one connection more, and the connection.
    fn make(
        &mut self,
        alloc: Global,
        local: Addr,
        peer: Addr,
        moment: u64,
    ) -> Result<Conn, OutOfMemory>
        requires { vec_len self.old.ids < 512 }
        ensures served { self.new.served ≡ self.old.served }
        ensures keeps { self.new.keeps ≡ self.old.keeps }
        ensures ids { self.new.ids.items ≡ self.old.ids.items }
        ensures conns { self.new.conns.items ≡ self.old.conns.items }
        ensures ids_room { OnOk result (vec_len self.new.ids < vec_capacity self.new.ids) }
        ensures conns_room { OnOk result (vec_len self.new.conns < vec_capacity self.new.conns) }
        ensures fresh { IfOk result (λ c. (x : Serves) →
            Fresh (fresh_course x.served.raceless x.patterns x.served.site local peer)
            (view_of x c)) }
        ensures left { IfOk result (λ c. left_of c ≡ 1 + weight) }
        ensures asked { IfOk result (λ c. asked_of c ≡ 0) }
        ensures flight { IfOk result (λ c. c.flight ≡ None) }
        ensures fresh_keeps { IfOk result (λ c. c.journal.keeps ≡ self.old.keeps) }
    {
        self.ids.reserve(1)?;
        self.conns.reserve(1)?;
        let conn = Conn::new(alloc, &self.served, local, peer, moment, self.keeps)?;
        Ok(conn)
    }

    // Holds one connection more, for which there is room.
    fn put(&mut self, at: usize, conn: u32, fresh: Conn)
        requires belongs { BelongsAt conn self.old.ids.items at }
        requires ids_room { vec_len self.old.ids < vec_capacity self.old.ids }
        requires conns_room { vec_len self.old.conns < vec_capacity self.old.conns }
        requires keeps { fresh.journal.keeps ≡ self.old.keeps }
        ensures ids { self.new.ids.items ≡ insert self.old.ids.items at conn }
        ensures conns { self.new.conns.items ≡ insert self.old.conns.items at fresh }
        ensures served { self.new.served ≡ self.old.served }
        ensures keeps { self.new.keeps ≡ self.old.keeps }
    {
        self.near = at;
        self.soon = earlier(self.soon, &fresh);
        put_at(&mut self.ids, at, conn);
        put_at(&mut self.conns, at, fresh);
    }

    /// Opens a connection under a number.
    pub(crate) fn open(
        &mut self,
        alloc: Global,
        conn: u32,
        local: Addr,
        peer: Addr,
        moment: u64,
    ) -> StepAnswer
        ensures steps { (patterns : List SetPattern) (now : Start) → OneSteps conn
            (StepsOwn (fresh_course self.old.served.raceless patterns self.old.served.site local
            peer) now (Opened conn local peer) result)
            (view_in (serves_with patterns self.old.served) self.old.ids.items
            self.old.conns.items)
            (view_in (serves_with patterns self.new.served) self.new.ids.items
            self.new.conns.items) }
        ensures opens { (patterns : List SetPattern) →
            OpensIf (opens_in patterns self.old.served.site self.old.ids.items)
            (Opened conn local peer) result }
        ensures held { CountsHeld (Opened conn local peer) result (length self.old.ids.items)
            (length self.new.ids.items) }
        ensures taken { TakesNone (Opened conn local peer) result }
        ensures known { (tree : ℕ) → AllKnown tree self.old.conns.items →
            AllKnown tree self.new.conns.items }
        ensures reached { (x : Serves) → AllReached x self.old.conns.items →
            AllReached x self.new.conns.items }
        ensures left { LeftBy price_each (Opened conn local peer) result
            (left_in self.old.conns.items) (left_in self.new.conns.items) }
        ensures served { self.new.served ≡ self.old.served }
        ensures keeps { self.new.keeps ≡ self.old.keeps }
    {
        if self.ids.len() >= MOST || !self.is_listening(local) {
            return StepAnswer::Skipped;
        }
        match place(self.ids.as_slice(), conn) {
            Ok(_) => StepAnswer::Skipped,
            Err(at) => match self.make(alloc, local, peer, moment) {
                Ok(fresh) => {
                    self.put(at, conn, fresh);
                    StepAnswer::Done { taken: 0 }
                }
                Err(OutOfMemory) => StepAnswer::OutOfMemory,
            },
        }
    }

    /// Gives a connection one event of its own.
    #[inline(always)]
    pub(crate) fn own(
        &mut self,
        space: &mut Workspace,
        moment: u64,
        tree: u64,
        conn: u32,
        event: &Event,
    ) -> StepAnswer
        requires own { is_own event.now ≡ true }
        ensures steps { TellsRaceless (serves_with space.old.patterns self.old.served) →
            AllReached (serves_with space.old.patterns self.old.served) self.old.conns.items →
            OneSteps conn (StepsOwn nobody.course
            (record { moment = moment; tree = tree }) event.now result)
            (view_in (serves_with space.old.patterns self.old.served) self.old.ids.items
            self.old.conns.items)
            (view_in (serves_with space.new.patterns self.new.served) self.new.ids.items
            self.new.conns.items) }
        ensures left { LeftBy price_each event.now result (left_in self.old.conns.items)
            (left_in self.new.conns.items) }
        ensures ended { (view_in (serves_with space.new.patterns self.new.served)
            self.new.ids.items self.new.conns.items conn).ended ≡
            ended_by event.now result
            (view_in (serves_with space.old.patterns self.old.served) self.old.ids.items
            self.old.conns.items conn).ended }
        ensures taken { TakesNone event.now result }
        ensures known { AllKnown tree self.old.conns.items → AllKnown tree self.new.conns.items }
        ensures reached { AllReached (serves_with space.old.patterns self.old.served)
            self.old.conns.items → AllReached (serves_with space.old.patterns self.old.served)
            self.new.conns.items }
        ensures ids { self.new.ids.items ≡ self.old.ids.items }
        ensures served { self.new.served ≡ self.old.served }
        ensures keeps { self.new.keeps ≡ self.old.keeps }
        ensures patterns { space.new.patterns ≡ space.old.patterns }
    {
        match place_near(self.ids.as_slice(), self.near, conn) {
            Ok(at) => {
                self.near = at;
                let answer = happen_at(
                    &mut self.conns,
                    at,
                    space,
                    &self.served,
                    moment,
                    tree,
                    event,
                );
                self.soon = earlier(self.soon, &self.conns[at]);
                answer
            }
            Err(_) => StepAnswer::Skipped,
        }
    }

    /// Has the files answer the job of a node of a connection, where it asks for a block of a file. Where they fail nothing changes, and
    /// neither where there is no such job.
    #[inline(always)]
    pub(crate) fn read<F: Files>(
        &mut self,
        space: &Workspace,
        moment: u64,
        conn: u32,
        node: u32,
        files: &mut F,
    ) -> Result<StepAnswer, FileFault>
        requires known { AllKnown (F.seen files.old).newest self.old.conns.items }
        ensures done { (path : List ℕ) (start count of : ℕ) →
            ask_in (view_in (serves_with space.now.patterns self.old.served) self.old.ids.items
            self.old.conns.items conn).jobs node ≡ Some (AskRead path start count of) →
            IfOk result (BroughtIn (F.seen files.old).tells ((F.seen files.old).trees of) path
            start count conn node (F.seen files.old).answers (F.seen files.new).answers
            (serves_with space.now.patterns self.old.served)
            (serves_with space.now.patterns self.new.served)
            self.old.ids.items self.new.ids.items self.old.conns.items self.new.conns.items) }
        ensures same { OnErr result (self.new.conns.items ≡ self.old.conns.items) }
        ensures skips { (IsReading (ask_in (view_in (serves_with space.now.patterns
            self.old.served) self.old.ids.items self.old.conns.items conn).jobs node) → ⊥) →
            self.new.conns.items ≡ self.old.conns.items }
        ensures skipped { (IsReading (ask_in (view_in (serves_with space.now.patterns
            self.old.served) self.old.ids.items self.old.conns.items conn).jobs node) → ⊥) →
            IfOk result (λ answer. answer ≡ StepAnswer.Skipped) }
        ensures known { (tree : ℕ) → AllKnown tree self.old.conns.items →
            AllKnown tree self.new.conns.items }
        ensures reached { AllReached (serves_with space.now.patterns self.old.served)
            self.old.conns.items → AllReached (serves_with space.now.patterns self.old.served)
            self.new.conns.items }
        ensures ids { self.new.ids.items ≡ self.old.ids.items }
        ensures served { self.new.served ≡ self.old.served }
        ensures keeps { self.new.keeps ≡ self.old.keeps }
        ensures failed { IsErrOf result ReadFailed → Adds NotRead (F.seen files.old).answers
            (F.seen files.new).answers }
        ensures tells { (F.seen files.new).tells ≡ (F.seen files.old).tells }
        ensures versions { (F.seen files.new).versions ≡ (F.seen files.old).versions }
        ensures grow { Grow (F.seen files.old).newest (F.seen files.new).newest
            (F.seen files.old).trees (F.seen files.new).trees }
        ensures cause { HasCause (F.seen files.old).faults (F.seen files.new).faults result
            ReadFailed }
    {
        match place_near(self.ids.as_slice(), self.near, conn) {
            Ok(at) => {
                self.near = at;
                let answer = read_at(&mut self.conns, at, space.alloc, moment, node, files)?;
                self.soon = earlier(self.soon, &self.conns[at]);
                Ok(answer)
            }
            Err(_) => Ok(StepAnswer::Skipped),
        }
    }

    /// The clock tells a moment: the connections whose own has come are given up.
    pub(crate) fn tick(&mut self, now: u64)
        requires { now < 2 ^ 64 - 1 }
        ensures ticked { AllTicked now self.old.conns.items self.new.conns.items }
        ensures ids { self.new.ids.items ≡ self.old.ids.items }
        ensures served { self.new.served ≡ self.old.served }
        ensures keeps { self.new.keeps ≡ self.old.keeps }
    {
        if self.soon <= now {
            self.soon = tick_all(self.conns.as_mut_slice(), now);
        }
    }

    /// A moment before which no connection is given up.
    pub(crate) fn quiet_until(&self) -> u64
        ensures { (x : Serves) (c due : ℕ) →
            (view_in x self.now.ids.items self.now.conns.items c).deadline ≡ Some due →
            result ≤ due }
    {
        self.soon
    }

    /// Lets a connection go, whose link is to be closed.
    pub(crate) fn close(&mut self, conn: u32) -> StepAnswer
        ensures steps { (patterns : List SetPattern) (now : Start) → OneSteps conn
            (StepsOwn nobody.course now (Gone conn) result)
            (view_in (serves_with patterns self.old.served) self.old.ids.items
            self.old.conns.items)
            (view_in (serves_with patterns self.new.served) self.new.ids.items
            self.new.conns.items) }
        ensures held { CountsHeld (Gone conn) result (length self.old.ids.items)
            (length self.new.ids.items) }
        ensures taken { TakesNone (Gone conn) result }
        ensures known { (tree : ℕ) → AllKnown tree self.old.conns.items →
            AllKnown tree self.new.conns.items }
        ensures reached { (x : Serves) → AllReached x self.old.conns.items →
            AllReached x self.new.conns.items }
        ensures left { LeftBy price_each (Gone conn) result (left_in self.old.conns.items)
            (left_in self.new.conns.items) }
        ensures served { self.new.served ≡ self.old.served }
        ensures keeps { self.new.keeps ≡ self.old.keeps }
    {
        match place(self.ids.as_slice(), conn) {
            Ok(at) => {
                if !self.conns[at].is_shut() {
                    return StepAnswer::Skipped;
                }
                take_out(&mut self.ids, at);
                take_out(&mut self.conns, at);
                StepAnswer::Done { taken: 0 }
            }
            Err(_) => StepAnswer::Skipped,
        }
    }
}
