// One connection among those that are held.
ghost use Rattle.std.specs.Prelude.{◌≡◌, ℕ, ◌+◌, ◌-◌, ◌^◌, ◌≤◌, ◌<◌, true, false, List, ◌++◌, ◌∷◌, length, vec_len, vec_capacity, insert, remove, Some, MatchResult, IfOk, OnErr, IsErrOf, get_or};
ghost use Rattle.std.specs.List.Sorted.{IsStrictlyIncreasing};
ghost use Rattle.http_connection.specs.Conn.{StepsConn, TimesConn, due_at};
ghost use Rattle.http_connection.specs.Times.{soonest};
ghost use Rattle.file_tree.specs.declared.job.Ask.TheVariants.{Read as AskRead};
ghost use Rattle.ngx_outside.specs.Causes.{HasCause};
ghost use Rattle.ngx_outside.specs.Outside.{Grow};
ghost use Rattle.ngx_outside.specs.Records.{Adds, Failed as NotRead};
ghost use Rattle.ngx_outside.specs.Stepped.{IsReading};
ghost use Rattle.ngx_outside.specs.Views.{ask_in};
ghost use Rattle.ngx_outside.specs.declared.files.FileFault.TheVariants.{Failed as ReadFailed};
ghost use Rattle.http_connection.specs.response_flow.Flights.{jobs_of};
ghost use Rattle.http_connection.specs.Reads.{AsksWithin, BroughtConn};
ghost use Rattle.http_connection.specs.declared.conn.Conn.{Conn as ConnView};
ghost use Rattle.connection_core.specs.Table.{serves_with, is_own, StandsAt, BelongsAt, Placed, Replaced, AllTicked, AllLater};

use file_tree::Ask;
use http_connection::Conn;
use http_connection::reply_out::Workspace;
use http_connection::served_site::ServedSite;
use ngx_outside::{Event, FileFault, Files, StepAnswer};
use std::alloc::Global;

/// The place of a number, or the place where it belongs.
pub(crate) fn place(ids: &[u32], conn: u32) -> Result<usize, usize>
    requires { IsStrictlyIncreasing ids.now }
    ensures { MatchResult result (λ i. StandsAt conn ids.now i) (λ i. BelongsAt conn ids.now i) }
{
    ids.binary_search(&conn)
}

// Whether a number is at a place.
fn is_there(ids: &[u32], at: usize, conn: u32) -> bool
    ensures { result ≡ true → (at < length ids.now) × (get_or ids.now at 0 ≡ conn) }
{
    if at < ids.len() {
        ids[at] == conn
    } else {
        false
    }
}

/// The same, looked for first where one was found before.
#[inline(always)]
pub(crate) fn place_near(ids: &[u32], near: usize, conn: u32) -> Result<usize, usize>
    requires { IsStrictlyIncreasing ids.now }
    ensures { MatchResult result (λ i. StandsAt conn ids.now i) (λ i. BelongsAt conn ids.now i) }
{
    if is_there(ids, near, conn) {
        return Ok(near);
    }
    place(ids, conn)
}

/// Puts an item at a place, where there is room for it.
pub(crate) fn put_at<T: Drop>(items: &mut Vec<T>, at: usize, item: T)
    requires at { at ≤ vec_len items.old }
    requires room { vec_len items.old < vec_capacity items.old }
    ensures items { items.new.items ≡ insert items.old.items at item }
    ensures len { vec_len items.new ≡ vec_len items.old + 1 }
{
    match items.insert(at, item) {
        Ok(()) => {}
        Err(_) => unreachable!(),
    }
}

/// Takes the item at a place out. Where few are left in much room, room is given back.
pub(crate) fn take_out<T: Drop>(items: &mut Vec<T>, at: usize)
    requires { at < vec_len items.old }
    ensures items { items.new.items ≡ remove items.old.items at }
    ensures len { vec_len items.new + 1 ≡ vec_len items.old }
{
    let _item = items.remove(at);
    if items.len() < items.capacity() / 4 {
        items.shrink_to(2 * items.len());
    }
}

/// The earlier one of a moment and that at which a connection is given up.
pub(crate) fn earlier(soon: u64, conn: &Conn) -> u64
    ensures { (result ≤ soon) × (result ≤ soonest (due_at conn.now)) }
{
    if soon <= conn.least_due() {
        return soon;
    }
    soon.min(conn.due())
}

/// The clock tells all connections a moment. The first moment at which one of them is given up is answered, or an earlier one.
pub(crate) fn tick_all(conns: &mut [Conn], now: u64) -> u64
    requires { now < 2 ^ 64 - 1 }
    ensures ticked { AllTicked now conns.old conns.new }
    ensures later { AllLater result conns.new }
{
    let mut soon = u64::MAX;
    for conn in conns.iter_mut() {
        conn.ticks(now);
        soon = earlier(soon, conn);
    }
    soon
}

/// Gives a connection one event of its own; any other event is skipped.
#[inline(always)]
pub(crate) fn happen(
    conn: &mut Conn,
    space: &mut Workspace,
    served: &ServedSite,
    moment: u64,
    tree: u64,
    event: &Event,
) -> StepAnswer
    ensures steps { is_own event.now ≡ true →
        StepsConn (serves_with space.old.patterns served.now)
        (record { moment = moment; tree = tree }) event.now result conn.old conn.new }
    ensures times { is_own event.now ≡ true →
        TimesConn (serves_with space.old.patterns served.now)
        (record { moment = moment; tree = tree }) event.now result conn.old conn.new }
    ensures patterns { space.new.patterns ≡ space.old.patterns }
{
    match *event {
        Event::Opened {
            conn: _,
            local: _,
            peer: _,
        } => StepAnswer::Skipped,
        Event::Arrived { conn: _, bytes } => conn.arrived(&mut space.head_room, moment, bytes),
        Event::Ended { conn: _ } => conn.input_ended(),
        Event::Wrote { conn: _, count } => conn.wrote(&mut space.out_room, moment, count),
        Event::LinkFailed { conn: _ } => conn.link_failed(),
        Event::FileDone {
            conn: _,
            node,
            answer,
        } => conn.file_done(space.alloc, moment, node, answer),
        Event::JobFailed { conn: _, node } => conn.job_failed(node),
        Event::Run { conn: _, node } => conn.runs(space, served, moment, tree, node),
        Event::Tick { now: _ } => StepAnswer::Skipped,
        Event::Tree { to: _ } => StepAnswer::Skipped,
        Event::Gone { conn: _ } => StepAnswer::Skipped,
    }
}

/// Gives the connection at a place one event of its own.
#[inline(always)]
pub(crate) fn happen_at(
    conns: &mut Vec<Conn>,
    at: usize,
    space: &mut Workspace,
    served: &ServedSite,
    moment: u64,
    tree: u64,
    event: &Event,
) -> StepAnswer
    requires placed { Placed at conns.old.items }
    ensures replaced { is_own event.now ≡ true → (p : Placed at conns.old.items) →
        Replaced at conns.old.items
        (λ old new. StepsConn (serves_with space.old.patterns served.now)
        (record { moment = moment; tree = tree }) event.now result old new) p conns.new.items }
    ensures len { vec_len conns.new ≡ vec_len conns.old }
    ensures patterns { space.new.patterns ≡ space.old.patterns }
{
    happen(&mut conns[at], space, served, moment, tree, event)
}

/// Whether the job of a node of a connection asks for a block of a file.
#[inline(always)]
fn is_reading(conn: &Conn, node: u32) -> bool
    ensures reads { result ≡ true → IsReading (ask_in (jobs_of conn.now.flight) node) }
    ensures others { result ≡ false → IsReading (ask_in (jobs_of conn.now.flight) node) → ⊥ }
{
    match conn.ask(node) {
        Some(
            Ask::Read {
                path: _,
                start: _,
                count: _,
                of: _,
            },
        ) => true,
        Some(Ask::Stat { path: _, of: _ }) => false,
        None => false,
    }
}

/// Has the files answer the job of a node of the connection at a place, where it asks for a block of a file.
#[inline(always)]
pub(crate) fn read_at<F: Files>(
    conns: &mut Vec<Conn>,
    at: usize,
    alloc: Global,
    moment: u64,
    node: u32,
    files: &mut F,
) -> Result<StepAnswer, FileFault>
    requires placed { Placed at conns.old.items }
    requires known { (p : Placed at conns.old.items) →
        AsksWithin (F.seen files.old).newest (ask_in (jobs_of p.here.flight) node) }
    ensures done { (p : Placed at conns.old.items) (path : List ℕ) (start count of : ℕ) →
        ask_in (jobs_of p.here.flight) node ≡ Some (AskRead path start count of) →
        IfOk result (λ answer. Replaced at conns.old.items
        (λ old new. BroughtConn (F.seen files.old).tells ((F.seen files.old).trees of) path start
        count node (F.seen files.old).answers (F.seen files.new).answers moment old new answer)
        p conns.new.items) }
    ensures stays { (p : Placed at conns.old.items) →
        (there : ConnView) × (conns.new.items ≡ p.front ++ there ∷ p.back) ×
        (there.journal.keeps ≡ p.here.journal.keeps) }
    ensures same { OnErr result (conns.new.items ≡ conns.old.items) }
    ensures skips { (p : Placed at conns.old.items) →
        (IsReading (ask_in (jobs_of p.here.flight) node) → ⊥) →
        conns.new.items ≡ conns.old.items }
    ensures skipped { (p : Placed at conns.old.items) →
        (IsReading (ask_in (jobs_of p.here.flight) node) → ⊥) →
        IfOk result (λ answer. answer ≡ StepAnswer.Skipped) }
    ensures len { vec_len conns.new ≡ vec_len conns.old }
    ensures failed { IsErrOf result ReadFailed → Adds NotRead (F.seen files.old).answers
        (F.seen files.new).answers }
    ensures tells { (F.seen files.new).tells ≡ (F.seen files.old).tells }
    ensures versions { (F.seen files.new).versions ≡ (F.seen files.old).versions }
    ensures grow { Grow (F.seen files.old).newest (F.seen files.new).newest
        (F.seen files.old).trees (F.seen files.new).trees }
    ensures cause { HasCause (F.seen files.old).faults (F.seen files.new).faults result ReadFailed }
{
    let conn = &mut conns[at];
    if !is_reading(conn, node) {
        return Ok(StepAnswer::Skipped);
    }
    conn.read_done(alloc, moment, node, files)
}
