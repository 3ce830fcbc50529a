// Serves the wants of a connection.
ghost use Rattle.std.specs.Prelude.{◌≡◌, ◌≢◌, ◌+◌, ◌*◌, ◌<◌, ◌≤◌, ℕ, [], Bool, true, List, OnOk, IfOk, vec_len, Option};
ghost use Rattle.ngx_outside.specs.Views.{IsSound};
ghost use Rattle.link_service.specs.Seen.{Elsewhere};
ghost use Rattle.link_service.specs.Standing.{Keeps};
ghost use Rattle.ngx_outside.specs.Wants.{doable};
ghost use Rattle.link_service.specs.Rests.{IsRested, IsWanted, work};
ghost use Rattle.link_service.specs.Tellings.{StandBeside};

use crate::jobs::{MUCH, job_one, work_off};
use crate::links::{close_one, read_one, write_one};
use byte_text::OutOfMemory;
use ngx_outside::{EventCore, Files, Input, Links, Want};

/// What is remembered of a link: whether it was reported readable and not read since, and whether its last write found
/// no room.
#[derive(Clone, Copy, Debug, PartialEq, Eq)]
pub struct Readiness {
    pub due: bool,
    pub full: bool,
}

// The node of a main request: its run starts the request whose head was read.
const MAIN: u32 = 0;

// Whether a read brought bytes.
fn has_bytes(read: Input) -> bool {
    match read {
        Input::Got(_) => true,
        Input::NotYet => false,
        Input::End => false,
        Input::Failed => false,
    }
}

// What is served first of what a connection wants: where its next want is a job and much is pending, the write of that.
#[inline(always)]
fn served_first<E: EventCore>(core: &E, conn: u32, full: bool, want: Want) -> Want
    requires wanted { IsWanted ((E.seen core.now).view conn) conn want }
    ensures wanted { IsWanted ((E.seen core.now).view conn) conn result }
    ensures doable { (due : Bool) → doable due full want ≡ true → doable due full result ≡ true }
{
    match want {
        Want::Job { conn: _, node: _ } => {
            if !full && core.pending(conn).len() >= MUCH {
                return Want::Write { conn };
            }
            want
        }
        Want::Read { conn: _, room: _ } => want,
        Want::Run { conn: _, node: _ } => want,
        Want::Write { conn: _ } => want,
        Want::Close { conn: _ } => want,
    }
}

// Serves a want that can be served. What is read of a link is read into `input`.
fn serve_want<E: EventCore, F: Files, L: Links>(
    core: &mut E,
    files: &mut F,
    links: &mut L,
    input: &mut Vec<u8>,
    conn: u32,
    want: Want,
    ready: Readiness,
) -> Result<Readiness, OutOfMemory>
    requires wanted { IsWanted ((E.seen core.old).view conn) conn want }
    requires doable { doable ready.due ready.full want ≡ true }
    requires sound { IsSound ((E.seen core.old).view conn) }
    requires matched { ((E.seen core.old).view conn).held ≡ (L.seen links.old).is_open conn }
    requires known { (E.seen core.old).now.tree ≤ (F.seen files.old).newest }
    ensures kept { OnOk result (Keeps (E.seen core.old) (E.seen core.new) (L.seen links.old)
        (L.seen links.new) (F.seen files.old) (F.seen files.new)) }
    ensures views { Elsewhere conn (E.seen core.old).view (E.seen core.new).view }
    ensures links { (L.seen links.old).tells ≡ true →
        Elsewhere conn (L.seen links.old).link (L.seen links.new).link }
    ensures opens { Elsewhere conn (L.seen links.old).is_open (L.seen links.new).is_open }
    ensures matched { OnOk result (((E.seen core.new).view conn).held ≡ (L.seen links.new).is_open
        conn) }
    ensures due { (L.seen links.old).tells ≡ true →
        ((L.seen links.old).is_open conn ≡ true → ((L.seen links.old).link conn).due ≡ true →
        ready.due ≡ true) → IfOk result
        (λ r. (L.seen links.new).is_open conn ≡ true → ((L.seen links.new).link conn).due ≡ true →
        r.due ≡ true) }
    ensures full { (L.seen links.old).tells ≡ true →
        (ready.full ≡ true → ((L.seen links.old).link conn).full ≡ true) →
        IfOk result (λ r. r.full ≡ true → ((L.seen links.new).link conn).full ≡ true) }
    ensures falls { IfOk result (λ r. work (E.seen core.old).terms.price
        (vec_len input.old) r.due r.full (E.seen core.new).left < work
        (E.seen core.old).terms.price (vec_len input.old) ready.due ready.full
        (E.seen core.old).left) }
    ensures beside { OnOk result ((clock : Option (List ℕ)) →
        StandBeside (E.seen core.old).events (E.seen core.new).events (L.seen links.old).answers
        (L.seen links.new).answers (F.seen files.old).answers
        (F.seen files.new).answers clock clock) }
    ensures steady { ((E.seen core.new).terms ≡ (E.seen core.old).terms) ×
        ((E.seen core.new).now ≡ (E.seen core.old).now) }
    ensures later { (L.seen links.old).faults ≤ (L.seen links.new).faults }
    ensures stays_over { (L.seen links.old).over ≡ true → (L.seen links.new).over ≡ true }
    ensures notices { (L.seen links.old).tells ≡ true →
        (L.seen links.new).notices ≡ (L.seen links.old).notices }
    ensures versions { (F.seen files.new).versions ≡ (F.seen files.old).versions }
    ensures tells { ((L.seen links.new).tells ≡ (L.seen links.old).tells) ×
        ((L.seen links.new).listening ≡ (L.seen links.old).listening) ×
        ((F.seen files.new).tells ≡ (F.seen files.old).tells) }
    ensures grown { (F.seen files.old).newest ≤ (F.seen files.new).newest }
    ensures size { vec_len input.new ≡ vec_len input.old }
{
    match want {
        Want::Read { conn: _, room } => {
            let after = Readiness {
                due: false,
                full: ready.full,
            };
            let read = read_one(core, links, input.as_mut_slice(), conn, room);
            if !has_bytes(read) {
                return Ok(after);
            }
            work_off(core, files, conn, MAIN, false)?;
            Ok(after)
        }
        Want::Run { conn: _, node } => {
            work_off(core, files, conn, node, false)?;
            Ok(ready)
        }
        Want::Job { conn: _, node } => {
            let large = job_one(core, files, conn, node)?;
            work_off(core, files, conn, node, large)?;
            Ok(ready)
        }
        Want::Write { conn: _ } => {
            let full = write_one(core, links, conn);
            Ok(Readiness {
                due: ready.due,
                full,
            })
        }
        Want::Close { conn: _ } => {
            close_one(core, links, conn);
            Ok(ready)
        }
    }
}

/// Serves the wants of a connection, and those that come of it, until none can be served. What is read of its link is read
/// into `input`. `due` says whether its link is to be read; whether it still is to be is answered.
pub fn drain<E: EventCore, F: Files, L: Links>(
    core: &mut E,
    files: &mut F,
    links: &mut L,
    input: &mut Vec<u8>,
    conn: u32,
    due: bool,
) -> Result<bool, OutOfMemory>
    requires matched { ((E.seen core.old).view conn).held ≡ (L.seen links.old).is_open conn }
    requires known { (E.seen core.old).now.tree ≤ (F.seen files.old).newest }
    ensures kept { OnOk result (Keeps (E.seen core.old) (E.seen core.new) (L.seen links.old)
        (L.seen links.new) (F.seen files.old) (F.seen files.new)) }
    ensures views { Elsewhere conn (E.seen core.old).view (E.seen core.new).view }
    ensures links { (L.seen links.old).tells ≡ true →
        Elsewhere conn (L.seen links.old).link (L.seen links.new).link }
    ensures opens { Elsewhere conn (L.seen links.old).is_open (L.seen links.new).is_open }
    ensures matched { OnOk result (((E.seen core.new).view conn).held ≡ (L.seen links.new).is_open
        conn) }
    ensures rests { IfOk result (λ due'.
        IsRested ((L.seen links.old).tells ≡ true) due' conn ((E.seen core.new).view conn)
        ((L.seen links.new).link conn)) }
    ensures due { (L.seen links.old).tells ≡ true →
        ((L.seen links.old).is_open conn ≡ true → ((L.seen links.old).link conn).due ≡ true →
        due ≡ true) → IfOk result
        (λ due'. (L.seen links.new).is_open conn ≡ true →
        ((L.seen links.new).link conn).due ≡ true → due' ≡ true) }
    ensures beside { OnOk result ((clock : Option (List ℕ)) →
        StandBeside (E.seen core.old).events (E.seen core.new).events (L.seen links.old).answers
        (L.seen links.new).answers (F.seen files.old).answers
        (F.seen files.new).answers clock clock) }
    ensures steady { ((E.seen core.new).terms ≡ (E.seen core.old).terms) ×
        ((E.seen core.new).now ≡ (E.seen core.old).now) }
    ensures later { (L.seen links.old).faults ≤ (L.seen links.new).faults }
    ensures stays_over { (L.seen links.old).over ≡ true → (L.seen links.new).over ≡ true }
    ensures notices { (L.seen links.old).tells ≡ true →
        (L.seen links.new).notices ≡ (L.seen links.old).notices }
    ensures versions { (F.seen files.new).versions ≡ (F.seen files.old).versions }
    ensures tells { ((L.seen links.new).tells ≡ (L.seen links.old).tells) ×
        ((L.seen links.new).listening ≡ (L.seen links.old).listening) ×
        ((F.seen files.new).tells ≡ (F.seen files.old).tells) }
    ensures grown { (F.seen files.old).newest ≤ (F.seen files.new).newest }
{
    let mut ready = Readiness { due, full: false };
    while let Some(want) = core.next_want(conn, ready.due, ready.full) {
        let first = served_first(core, conn, ready.full, want);
        ready = serve_want(core, files, links, input, conn, first, ready)?;
    }
    Ok(ready.due)
}
