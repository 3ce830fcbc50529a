// Takes a turn.
ghost use Rattle.std.specs.Prelude.{◌≡◌, ◌≤◌, ◌∷◌, ◌++◌, ℕ, [], true, false, Bool, List, OnOk, IfOk, IfSome, Some, Option};
ghost use Rattle.ngx_outside.specs.Records.{Adds};
ghost use Rattle.http_types.specs.declared.words.Addr.{Addr as End};
ghost use Rattle.ngx_outside.specs.Causes.{Rose};
ghost use Rattle.ngx_outside.specs.Views.{Course};
ghost use Rattle.link_service.specs.Seen.{Tick};
ghost use Rattle.link_service.specs.Standing.{IsMatched, Keeps, Kept, Marks};
ghost use Rattle.ready_loop.specs.Turns.{AllRest, HeardAs, HeardCounts, IsHeard, RestsBut, tick_at};
ghost use Rattle.link_service.specs.Tellings.{StandBeside, moments_told};

use crate::conns::{Memory, serve_all, serve_one};
use crate::hear::{Heard, hear};
use crate::ticks::{Told, tick};
use crate::timed::TimedCore;
use byte_text::OutOfMemory;
use ngx_outside::{Clock, EventCore, Files, Links};

// Serves all connections where a deadline may have been due: some may have been given up.
fn serve_due<E: EventCore, F: Files, L: Links>(
    core: &mut E,
    files: &mut F,
    links: &mut L,
    memory: &mut Memory,
    conns: &mut Vec<u32>,
    is_due: bool,
) -> Result<(), OutOfMemory>
    requires matched { IsMatched (E.seen core.old).view (L.seen links.old).is_open }
    requires known { (E.seen core.old).now.tree ≤ (F.seen files.old).newest }
    ensures kept { OnOk result (Keeps (E.seen core.old) (E.seen core.new) (L.seen links.old)
        (L.seen links.new) (F.seen files.old) (F.seen files.new)) }
    ensures matched { OnOk result (IsMatched (E.seen core.new).view (L.seen links.new).is_open) }
    ensures heard { (L.seen links.old).tells ≡ true →
        IsHeard (L.seen links.old).is_open (L.seen links.old).link memory.old.unread →
        OnOk result (IsHeard (L.seen links.new).is_open (L.seen links.new).link memory.new.unread) }
    ensures rests { (h : Bool) → (h ≡ true → ((L.seen links.old).tells ≡ true) ×
        IsHeard (L.seen links.old).is_open (L.seen links.old).link memory.old.unread) →
        (is_due ≡ false → AllRest (h ≡ true) ((L.seen links.old).tells ≡ true)
        (E.seen core.old).view (L.seen links.old).link) →
        OnOk result (AllRest (h ≡ true) ((L.seen links.old).tells ≡ true)
        (E.seen core.new).view (L.seen links.new).link) }
    ensures beside { OnOk result ((clock : Option (List ℕ)) →
        StandBeside (E.seen core.old).events (E.seen core.new).events (L.seen links.old).answers
        (L.seen links.new).answers (F.seen files.old).answers
        (F.seen files.new).answers clock clock) }
    ensures steady { OnOk result (((E.seen core.new).terms ≡ (E.seen core.old).terms) ×
        ((E.seen core.new).now ≡ (E.seen core.old).now)) }
    ensures later { OnOk result ((L.seen links.old).faults ≤ (L.seen links.new).faults) }
    ensures stays_over { OnOk result ((L.seen links.old).over ≡ true →
        (L.seen links.new).over ≡ true) }
    ensures notices { OnOk result ((L.seen links.old).tells ≡ true →
        (L.seen links.new).notices ≡ (L.seen links.old).notices) }
    ensures versions { OnOk result ((F.seen files.new).versions ≡ (F.seen files.old).versions) }
    ensures tells { OnOk result (((L.seen links.new).tells ≡ (L.seen links.old).tells) ×
        ((L.seen links.new).listening ≡ (L.seen links.old).listening) ×
        ((F.seen files.new).tells ≡ (F.seen files.old).tells)) }
    ensures grown { OnOk result ((F.seen files.old).newest ≤ (F.seen files.new).newest) }
{
    if is_due {
        serve_all(core, files, links, memory, conns)?;
    }
    Ok(())
}

// Serves the connection of which something was heard.
fn serve_heard<E: EventCore, F: Files, L: Links>(
    core: &mut E,
    files: &mut F,
    links: &mut L,
    memory: &mut Memory,
    heard: Heard,
) -> Result<(), OutOfMemory>
    requires matched { IsMatched (E.seen core.old).view (L.seen links.old).is_open }
    requires known { (E.seen core.old).now.tree ≤ (F.seen files.old).newest }
    ensures kept { OnOk result (Keeps (E.seen core.old) (E.seen core.new) (L.seen links.old)
        (L.seen links.new) (F.seen files.old) (F.seen files.new)) }
    ensures matched { OnOk result (IsMatched (E.seen core.new).view (L.seen links.new).is_open) }
    ensures heard { (L.seen links.old).tells ≡ true →
        HeardAs heard (L.seen links.old).is_open (L.seen links.old).link memory.old.unread →
        OnOk result (IsHeard (L.seen links.new).is_open (L.seen links.new).link memory.new.unread) }
    ensures rests { (h : Bool) → (h ≡ true → ((L.seen links.old).tells ≡ true) ×
        HeardAs heard (L.seen links.old).is_open (L.seen links.old).link memory.old.unread) →
        RestsBut heard (h ≡ true) ((L.seen links.old).tells ≡ true)
        (E.seen core.old).view (L.seen links.old).link →
        OnOk result (AllRest (h ≡ true) ((L.seen links.old).tells ≡ true)
        (E.seen core.new).view (L.seen links.new).link) }
    ensures beside { OnOk result ((clock : Option (List ℕ)) →
        StandBeside (E.seen core.old).events (E.seen core.new).events (L.seen links.old).answers
        (L.seen links.new).answers (F.seen files.old).answers
        (F.seen files.new).answers clock clock) }
    ensures steady { OnOk result (((E.seen core.new).terms ≡ (E.seen core.old).terms) ×
        ((E.seen core.new).now ≡ (E.seen core.old).now)) }
    ensures later { OnOk result ((L.seen links.old).faults ≤ (L.seen links.new).faults) }
    ensures stays_over { OnOk result ((L.seen links.old).over ≡ true →
        (L.seen links.new).over ≡ true) }
    ensures notices { OnOk result ((L.seen links.old).tells ≡ true →
        (L.seen links.new).notices ≡ (L.seen links.old).notices) }
    ensures versions { OnOk result ((F.seen files.new).versions ≡ (F.seen files.old).versions) }
    ensures tells { OnOk result (((L.seen links.new).tells ≡ (L.seen links.old).tells) ×
        ((L.seen links.new).listening ≡ (L.seen links.old).listening) ×
        ((F.seen files.new).tells ≡ (F.seen files.old).tells)) }
    ensures grown { OnOk result ((F.seen files.old).newest ≤ (F.seen files.new).newest) }
{
    match heard {
        Heard::At { conn, due } => serve_one(core, files, links, memory, conn, due)?,
        Heard::Nothing => {}
        Heard::Ended => {}
        Heard::Failed => {}
    }
    Ok(())
}

/// What a turn heard, and what the core was told in it.
#[derive(Clone, Copy, Debug)]
pub struct Taken {
    pub heard: Heard,
    pub told: Told,
}

/// Takes a turn: the clock's moment is told, and one notice is handled with all that it makes possible.
pub fn take_turn<E: TimedCore, F: Files, L: Links, C: Clock>(
    core: &mut E,
    files: &mut F,
    links: &mut L,
    clock: &mut C,
    memory: &mut Memory,
    conns: &mut Vec<u32>,
    last: Option<Told>,
) -> Result<Taken, OutOfMemory>
    requires matched { IsMatched (E.seen core.old).view (L.seen links.old).is_open }
    requires known { (E.seen core.old).now.tree ≤ (F.seen files.old).newest }
    requires told { IfSome last (λ to. (E.seen core.old).now.tree ≡ to.tree) }
    ensures kept { IfOk result (λ t. (L.seen links.old).tells ≡ true →
        (F.seen files.old).tells ≡ true →
        (marks : Marks) (whole : ℕ → End → End → Course) (ticks : List Tick) →
        Kept marks whole (E.seen core.old) (L.seen links.old) (F.seen files.old) ticks →
        Kept marks whole (E.seen core.new) (L.seen links.new) (F.seen files.new)
        (ticks ++ tick_at t.told ∷ [])) }
    ensures versions { IfOk result (λ t. Adds t.told.tree (F.seen files.old).versions
        (F.seen files.new).versions) }
    ensures notices { IfOk result (λ t. (L.seen links.old).tells ≡ true →
        HeardCounts t.heard (L.seen links.old).notices (L.seen links.new).notices) }
    ensures matched { OnOk result (IsMatched (E.seen core.new).view (L.seen links.new).is_open) }
    ensures heard { (L.seen links.old).tells ≡ true →
        IsHeard (L.seen links.old).is_open (L.seen links.old).link memory.old.unread →
        OnOk result (IsHeard (L.seen links.new).is_open (L.seen links.new).link memory.new.unread) }
    ensures rests { (h : Bool) → (h ≡ true → ((L.seen links.old).tells ≡ true) ×
        IsHeard (L.seen links.old).is_open (L.seen links.old).link memory.old.unread) →
        AllRest (h ≡ true) ((L.seen links.old).tells ≡ true) (E.seen core.old).view
        (L.seen links.old).link →
        OnOk result (AllRest (h ≡ true) ((L.seen links.old).tells ≡ true)
        (E.seen core.new).view (L.seen links.new).link) }
    ensures known { IfOk result (λ t. ((E.seen core.new).now.tree ≡ t.told.tree) ×
        ((E.seen core.new).now.tree ≤ (F.seen files.new).newest)) }
    ensures ended { IfOk result (λ t. t.heard ≡ Heard.Ended → (L.seen links.new).over ≡ true) }
    ensures failed { IfOk result (λ t. t.heard ≡ Heard.Failed →
        Rose (L.seen links.old).faults (L.seen links.new).faults) }
    ensures moments { IfOk result (λ t. (C.seen clock.old).tells ≡ true →
        (C.seen clock.new).told ≡ (C.seen clock.old).told ++ t.told.moment ∷ []) }
    ensures beside { OnOk result (StandBeside (E.seen core.old).events (E.seen core.new).events
        (L.seen links.old).answers (L.seen links.new).answers (F.seen files.old).answers
        (F.seen files.new).answers (moments_told (C.seen clock.old).tells (C.seen clock.old).told)
        (moments_told (C.seen clock.new).tells (C.seen clock.new).told)) }
    ensures steady { OnOk result ((E.seen core.new).terms ≡ (E.seen core.old).terms) }
    ensures grown { OnOk result ((F.seen files.old).newest ≤ (F.seen files.new).newest) }
    ensures later { OnOk result ((L.seen links.old).faults ≤ (L.seen links.new).faults) }
    ensures stays_over { OnOk result ((L.seen links.old).over ≡ true →
        (L.seen links.new).over ≡ true) }
    ensures tells { OnOk result ((((L.seen links.new).tells ≡ (L.seen links.old).tells) ×
        ((L.seen links.new).listening ≡ (L.seen links.old).listening) ×
        ((F.seen files.new).tells ≡ (F.seen files.old).tells)) ×
        ((C.seen clock.new).tells ≡ (C.seen clock.old).tells)) }
{
    let until = core.quiet_until();
    let told = tick(core, files, clock, last);
    serve_due(core, files, links, memory, conns, until <= told.moment)?;
    let heard = hear(core, links);
    serve_heard(core, files, links, memory, heard)?;
    Ok(Taken { heard, told })
}
