// Serves links, turn by turn.
ghost use Rattle.std.specs.Prelude.{◌≡◌, ◌≢◌, ◌<◌, ◌≤◌, ◌+◌, ◌-◌, ◌^◌, ◌++◌, ◌∷◌, ℕ, [], true, false, Bool, List, length, OnOk, IfOk, Ok};
ghost use Rattle.ngx_outside.specs.Causes.{Rose};
ghost use Rattle.ngx_outside.specs.Linked.{Same, Unchanged};
ghost use Rattle.link_service.specs.Standing.{KeptThrough, IsMatched};
ghost use Rattle.ready_loop.specs.Turns.{AtRest, IsHeard, TurnsTaken, ending_of};
ghost use Rattle.link_service.specs.Tellings.{StandBeside, moments_told};

use crate::conns::{Memory, remember_all, serve_all};
use crate::hear::Heard;
use crate::ids::Ids;
use crate::timed::TimedCore;
use crate::turn::take_turn;
use byte_text::OutOfMemory;
use http_types::Addr;
use ngx_outside::{Clock, Failed, Files, Links};
use std::alloc::Global;

/// How serving ended.
#[derive(Clone, Copy, Debug, PartialEq, Eq)]
pub enum Ending {
    /// No notice will come any more.
    Ended,
    /// All turns were used.
    TurnsUsed,
    /// An address couldn't be listened on.
    ListenFault,
    /// The call for the next notice failed.
    NextFault,
}

// How many bytes are read of a link at once: as many as a connection has room for.
const INPUT: usize = 8192;

// Listens on each address, until one fails. Whether none did.
fn listen_all<L: Links>(links: &mut L, addrs: &[Addr]) -> bool
    ensures told { (L.seen links.old).tells ≡ true →
        Unchanged (L.seen links.old).link (L.seen links.new).link }
    ensures ids { Same (L.seen links.old).used (L.seen links.new).used ×
        Same (L.seen links.old).is_open (L.seen links.new).is_open }
    ensures listens { result ≡ true → (L.seen links.new).listening ≡ (L.seen links.old).listening
        ++ addrs.now }
    ensures counts { (L.seen links.old).tells ≡ true →
        ((L.seen links.new).crowd ≡ (L.seen links.old).crowd) ×
        ((L.seen links.new).notices ≡ (L.seen links.old).notices) }
    ensures tells { (L.seen links.new).tells ≡ (L.seen links.old).tells }
    ensures answers { (L.seen links.new).answers ≡ (L.seen links.old).answers }
    ensures link_faults { (id : ℕ) → (L.seen links.old).link_faults id ≤
        (L.seen links.new).link_faults id }
    ensures later { (L.seen links.old).faults ≤ (L.seen links.new).faults }
    ensures stays_over { (L.seen links.old).over ≡ true → (L.seen links.new).over ≡ true }
    ensures cause { result ≡ false → Rose (L.seen links.old).faults (L.seen links.new).faults }
{
    for addr in addrs {
        match links.listen(*addr) {
            Ok(()) => {}
            Err(Failed) => return false,
        }
    }
    true
}

// How serving ends where this was heard, if it does.
fn ending_by(heard: Heard) -> Option<Ending>
    ensures { result ≡ ending_of heard }
{
    match heard {
        Heard::At { conn: _, due: _ } => None,
        Heard::Nothing => None,
        Heard::Ended => Some(Ending::Ended),
        Heard::Failed => Some(Ending::NextFault),
    }
}

// Takes this many turns, or until no notice will come any more or the call for one failed.
fn take_turns<E: TimedCore, F: Files, L: Links, C: Clock>(
    core: &mut E,
    files: &mut F,
    links: &mut L,
    clock: &mut C,
    memory: &mut Memory,
    conns: &mut Vec<u32>,
    turns: u64,
) -> Result<Ending, OutOfMemory>
    requires matched { IsMatched (E.seen core.old).view (L.seen links.old).is_open }
    requires known { (E.seen core.old).now.tree ≤ (F.seen files.old).newest }
    ensures kept { OnOk result (KeptThrough (E.seen core.old) (E.seen core.new) (L.seen links.old)
        (L.seen links.new) (F.seen files.old) (F.seen files.new) (C.seen clock.old)
        (C.seen clock.new)) }
    ensures matched { OnOk result (IsMatched (E.seen core.new).view (L.seen links.new).is_open) }
    ensures heard { (L.seen links.old).tells ≡ true →
        IsHeard (L.seen links.old).is_open (L.seen links.old).link memory.old.unread →
        OnOk result (IsHeard (L.seen links.new).is_open (L.seen links.new).link memory.new.unread) }
    ensures known { OnOk result ((E.seen core.new).now.tree ≤ (F.seen files.new).newest) }
    ensures turns { IfOk result (λ e. (L.seen links.old).tells ≡ true →
        (L.seen links.old).notices ≤ 2 ^ 64 - 1 →
        TurnsTaken e turns (L.seen links.old).notices (L.seen links.new).notices) }
    ensures listened { IfOk result (λ e. e ≢ Ending.ListenFault) }
    ensures ended { result ≡ Ok Ending.Ended → (L.seen links.new).over ≡ true }
    ensures failed { result ≡ Ok Ending.NextFault →
        Rose (L.seen links.old).faults (L.seen links.new).faults }
    ensures beside { OnOk result (StandBeside (E.seen core.old).events (E.seen core.new).events
        (L.seen links.old).answers (L.seen links.new).answers (F.seen files.old).answers
        (F.seen files.new).answers (moments_told (C.seen clock.old).tells (C.seen clock.old).told)
        (moments_told (C.seen clock.new).tells (C.seen clock.new).told)) }
    ensures steady { OnOk result ((E.seen core.new).terms ≡ (E.seen core.old).terms) }
    ensures grown { OnOk result ((F.seen files.old).newest ≤ (F.seen files.new).newest) }
    ensures later { OnOk result ((L.seen links.old).faults ≤ (L.seen links.new).faults) }
    ensures stays_over { OnOk result ((L.seen links.old).over ≡ true →
        (L.seen links.new).over ≡ true) }
    ensures tells { OnOk result ((((L.seen links.new).tells ≡ (L.seen links.old).tells) ×
        ((L.seen links.new).listening ≡ (L.seen links.old).listening) ×
        ((F.seen files.new).tells ≡ (F.seen files.old).tells)) ×
        ((C.seen clock.new).tells ≡ (C.seen clock.old).tells)) }
{
    let mut last = None;
    for _turn in 0..turns {
        let taken = take_turn(core, files, links, clock, memory, conns, last)?;
        last = Some(taken.told);
        if let Some(ending) = ending_by(taken.heard) {
            return Ok(ending);
        }
    }
    Ok(Ending::TurnsUsed)
}

// Serves what there is to do, then this many turns, and what a last tick left.
fn serve_turns<E: TimedCore, F: Files, L: Links, C: Clock>(
    alloc: Global,
    core: &mut E,
    files: &mut F,
    links: &mut L,
    clock: &mut C,
    turns: u64,
) -> Result<Ending, OutOfMemory>
    requires matched { IsMatched (E.seen core.old).view (L.seen links.old).is_open }
    requires known { (E.seen core.old).now.tree ≤ (F.seen files.old).newest }
    ensures kept { OnOk result (KeptThrough (E.seen core.old) (E.seen core.new) (L.seen links.old)
        (L.seen links.new) (F.seen files.old) (F.seen files.new) (C.seen clock.old)
        (C.seen clock.new)) }
    ensures matched { OnOk result (IsMatched (E.seen core.new).view (L.seen links.new).is_open) }
    ensures rests { OnOk result ((c : ℕ) → ((E.seen core.new).view c).held ≡ true →
        AtRest ((L.seen links.old).tells ≡ true) ((L.seen links.old).tells ≡ true)
        ((E.seen core.new).view c) ((L.seen links.new).link c)) }
    ensures known { OnOk result ((E.seen core.new).now.tree ≤ (F.seen files.new).newest) }
    ensures turns { IfOk result (λ e. (L.seen links.old).tells ≡ true →
        (L.seen links.old).notices ≤ 2 ^ 64 - 1 →
        TurnsTaken e turns (L.seen links.old).notices (L.seen links.new).notices) }
    ensures listened { IfOk result (λ e. e ≢ Ending.ListenFault) }
    ensures ended { result ≡ Ok Ending.Ended → (L.seen links.new).over ≡ true }
    ensures failed { result ≡ Ok Ending.NextFault →
        Rose (L.seen links.old).faults (L.seen links.new).faults }
    ensures beside { OnOk result (StandBeside (E.seen core.old).events (E.seen core.new).events
        (L.seen links.old).answers (L.seen links.new).answers (F.seen files.old).answers
        (F.seen files.new).answers (moments_told (C.seen clock.old).tells (C.seen clock.old).told)
        (moments_told (C.seen clock.new).tells (C.seen clock.new).told)) }
    ensures steady { OnOk result ((E.seen core.new).terms ≡ (E.seen core.old).terms) }
    ensures grown { OnOk result ((F.seen files.old).newest ≤ (F.seen files.new).newest) }
    ensures later { OnOk result ((L.seen links.old).faults ≤ (L.seen links.new).faults) }
    ensures stays_over { OnOk result ((L.seen links.old).over ≡ true →
        (L.seen links.new).over ≡ true) }
    ensures tells { OnOk result ((((L.seen links.new).tells ≡ (L.seen links.old).tells) ×
        ((L.seen links.new).listening ≡ (L.seen links.old).listening) ×
        ((F.seen files.new).tells ≡ (F.seen files.old).tells)) ×
        ((C.seen clock.new).tells ≡ (C.seen clock.old).tells)) }
{
    let mut memory = Memory {
        input: Vec::from_elem(alloc, 0u8, INPUT)?,
        unread: Ids::new(alloc),
    };
    let mut conns = Vec::new(alloc);
    remember_all(&mut memory.unread, core.conns())?;
    serve_all(core, files, links, &mut memory, &mut conns)?;
    let ending = take_turns(core, files, links, clock, &mut memory, &mut conns, turns)?;
    serve_all(core, files, links, &mut memory, &mut conns)?;
    Ok(ending)
}

/// Serves a core's connections over links, for this many turns. It listens on each address first. A turn is one notice,
/// handled with all runs, file jobs, reads and writes that it makes possible; before it the core is told the clock's
/// moment, and the number of the newest tree of the files where it rose. A link is read once for each report that it is
/// readable, and one that was open at the call's start once besides; a turn looks at the connection of its notice alone.
/// All connections are looked at only at the start, at the end, and where a deadline may have been due at a turn's tick, which
/// may have given some up.
///
/// At the end the links are told how many events the core has refused for want of memory.
///
/// The connections that the core holds are to be those whose links are open, and are so at the end: a link whose
/// connection is refused is closed at once.
pub fn serve<E: TimedCore, F: Files, L: Links, C: Clock>(
    alloc: Global,
    core: &mut E,
    files: &mut F,
    links: &mut L,
    clock: &mut C,
    addrs: &[Addr],
    turns: u64,
) -> Result<Ending, OutOfMemory>
    requires matched { IsMatched (E.seen core.old).view (L.seen links.old).is_open }
    requires known { (E.seen core.old).now.tree ≤ (F.seen files.old).newest }

    // Where links and files tell what they do, what came and went on each connection stays accounted for.
    ensures kept { OnOk result (KeptThrough (E.seen core.old) (E.seen core.new) (L.seen links.old)
        (L.seen links.new) (F.seen files.old) (F.seen files.new) (C.seen clock.old)
        (C.seen clock.new)) }
    ensures matched { OnOk result (IsMatched (E.seen core.new).view (L.seen links.new).is_open) }

    // What links and files answered and what the clock told, the core was given, each in its order: as far as it is told.
    ensures beside { OnOk result (StandBeside (E.seen core.old).events (E.seen core.new).events
        (L.seen links.old).answers (L.seen links.new).answers (F.seen files.old).answers
        (F.seen files.new).answers (moments_told (C.seen clock.old).tells (C.seen clock.old).told)
        (moments_told (C.seen clock.new).tells (C.seen clock.new).told)) }

    // Nothing is left to do.
    ensures rests { IfOk result (λ e. e ≢ Ending.ListenFault → (c : ℕ) →
        ((E.seen core.new).view c).held ≡ true →
        AtRest ((L.seen links.old).tells ≡ true) ((L.seen links.old).tells ≡ true)
        ((E.seen core.new).view c) ((L.seen links.new).link c)) }

    // How it ends. Each turn handles one notice.
    ensures turns { IfOk result (λ e. (L.seen links.old).tells ≡ true →
        (L.seen links.old).notices ≤ 2 ^ 64 - 1 →
        TurnsTaken e turns (L.seen links.old).notices (L.seen links.new).notices) }
    ensures listens { IfOk result (λ e. e ≢ Ending.ListenFault →
        (L.seen links.new).listening ≡ (L.seen links.old).listening ++ addrs.now) }
    ensures ended { result ≡ Ok Ending.Ended → (L.seen links.new).over ≡ true }
    ensures refused { OnOk result ((L.seen links.new).refused ≡ (E.seen core.new).refused) }
    ensures listen_fault { result ≡ Ok Ending.ListenFault →
        Rose (L.seen links.old).faults (L.seen links.new).faults }
    ensures next_fault { result ≡ Ok Ending.NextFault →
        Rose (L.seen links.old).faults (L.seen links.new).faults }

    // What stays, so that it can be served on.
    ensures known { OnOk result ((E.seen core.new).now.tree ≤ (F.seen files.new).newest) }
    ensures grown { OnOk result ((F.seen files.old).newest ≤ (F.seen files.new).newest) }
    ensures terms { OnOk result ((E.seen core.new).terms ≡ (E.seen core.old).terms) }
    ensures links_tell { OnOk result ((L.seen links.new).tells ≡ (L.seen links.old).tells) }
    ensures files_tell { OnOk result ((F.seen files.new).tells ≡ (F.seen files.old).tells) }
    ensures clock_tells { OnOk result ((C.seen clock.new).tells ≡ (C.seen clock.old).tells) }
{
    if !listen_all(links, addrs) {
        links.tell_refused(core.refused());
        return Ok(Ending::ListenFault);
    }
    let ending = serve_turns(alloc, core, files, links, clock, turns)?;
    links.tell_refused(core.refused());
    Ok(ending)
}
