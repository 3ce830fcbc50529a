// Serves connections one after another, and remembers which links are still to be read.
ghost use Rattle.std.specs.Prelude.{◌≡◌, ◌≢◌, ◌≤◌, ◌⊎◌, ◌||◌, ℕ, [], true, List, All, OnOk, Option};
ghost use Rattle.ready_loop.specs.Ids.{has};
ghost use Rattle.link_service.specs.Seen.{Elsewhere};
ghost use Rattle.link_service.specs.Standing.{Keeps, IsMatched};
ghost use Rattle.ready_loop.specs.Turns.{AtRest, IsHeard, IsHeardBut};
ghost use Rattle.link_service.specs.Tellings.{StandBeside};

use crate::ids::Ids;
use byte_text::OutOfMemory;
use link_service::drain;
use ngx_outside::{EventCore, Files, Links};

/// What lives as long as the loop: room for what is read of a link, and which links may be due though their connections don't
/// read yet.
#[derive(Drop)]
pub struct Memory {
    pub input: Vec<u8>,
    pub unread: Ids,
}

fn either(a: bool, b: bool) -> bool
    ensures { result ≡ (a || b) }
{
    a || b
}

// Remembers whether a link is still to be read.
fn remember(unread: &mut Ids, conn: u32, due: bool) -> Result<(), OutOfMemory>
    ensures own { OnOk result (due ≡ true → has unread.new conn ≡ true) }
    ensures others { OnOk result ((d : ℕ) → d ≢ conn → has unread.new d ≡ has unread.old d) }
{
    if due {
        unread.add(conn)?;
    } else {
        unread.cut(conn);
    }
    Ok(())
}

/// Serves a connection. `due` says whether its link was reported readable now.
pub fn serve_one<E: EventCore, F: Files, L: Links>(
    core: &mut E,
    files: &mut F,
    links: &mut L,
    memory: &mut Memory,
    conn: u32,
    due: bool,
) -> Result<(), OutOfMemory>
    requires matched { IsMatched (E.seen core.old).view (L.seen links.old).is_open }
    requires known { (E.seen core.old).now.tree ≤ (F.seen files.old).newest }
    ensures kept { OnOk result (Keeps (E.seen core.old) (E.seen core.new) (L.seen links.old)
        (L.seen links.new) (F.seen files.old) (F.seen files.new)) }
    ensures views { Elsewhere conn (E.seen core.old).view (E.seen core.new).view }
    ensures links { (L.seen links.old).tells ≡ true →
        Elsewhere conn (L.seen links.old).link (L.seen links.new).link }
    ensures matched { OnOk result (IsMatched (E.seen core.new).view (L.seen links.new).is_open) }
    ensures heard { (L.seen links.old).tells ≡ true →
        IsHeardBut conn due (L.seen links.old).is_open (L.seen links.old).link memory.old.unread →
        OnOk result (IsHeard (L.seen links.new).is_open (L.seen links.new).link memory.new.unread) }
    ensures rests { OnOk result (((E.seen core.new).view conn).held ≡ true →
        AtRest (((L.seen links.old).tells ≡ true) ×
        IsHeardBut conn due (L.seen links.old).is_open (L.seen links.old).link memory.old.unread)
        ((L.seen links.old).tells ≡ true) ((E.seen core.new).view conn)
        ((L.seen links.new).link conn)) }
    ensures beside { OnOk result ((clock : Option (List ℕ)) →
        StandBeside (E.seen core.old).events (E.seen core.new).events (L.seen links.old).answers
        (L.seen links.new).answers (F.seen files.old).answers
        (F.seen files.new).answers clock clock) }
    ensures steady { ((E.seen core.new).terms ≡ (E.seen core.old).terms) ×
        ((E.seen core.new).now ≡ (E.seen core.old).now) }
    ensures later { (L.seen links.old).faults ≤ (L.seen links.new).faults }
    ensures stays_over { (L.seen links.old).over ≡ true → (L.seen links.new).over ≡ true }
    ensures notices { (L.seen links.old).tells ≡ true →
        (L.seen links.new).notices ≡ (L.seen links.old).notices }
    ensures versions { (F.seen files.new).versions ≡ (F.seen files.old).versions }
    ensures tells { ((L.seen links.new).tells ≡ (L.seen links.old).tells) ×
        ((L.seen links.new).listening ≡ (L.seen links.old).listening) ×
        ((F.seen files.new).tells ≡ (F.seen files.old).tells) }
    ensures grown { (F.seen files.old).newest ≤ (F.seen files.new).newest }
{
    let due = either(due, memory.unread.has(conn));
    let still_due = drain(core, files, links, &mut memory.input, conn, due)?;
    remember(&mut memory.unread, conn, still_due)?;
    Ok(())
}

/// Remembers the links of these connections as unread.
pub fn remember_all(unread: &mut Ids, conns: &[u32]) -> Result<(), OutOfMemory>
    ensures { OnOk result (All (λ c. has unread.new c ≡ true) conns.now) }
{
    for conn in conns {
        unread.add(*conn)?;
    }
    Ok(())
}

// Lists these connections.
fn list(conns: &mut Vec<u32>, held: &[u32]) -> Result<(), OutOfMemory>
    ensures { OnOk result (conns.new.items ≡ held.now) }
{
    conns.clear();
    conns.extend_from_slice(held)?;
    Ok(())
}

/// Serves all connections that are held, each once. `conns` is room for their list.
pub fn serve_all<E: EventCore, F: Files, L: Links>(
    core: &mut E,
    files: &mut F,
    links: &mut L,
    memory: &mut Memory,
    conns: &mut Vec<u32>,
) -> Result<(), OutOfMemory>
    requires matched { IsMatched (E.seen core.old).view (L.seen links.old).is_open }
    requires known { (E.seen core.old).now.tree ≤ (F.seen files.old).newest }
    ensures kept { OnOk result (Keeps (E.seen core.old) (E.seen core.new) (L.seen links.old)
        (L.seen links.new) (F.seen files.old) (F.seen files.new)) }
    ensures matched { OnOk result (IsMatched (E.seen core.new).view (L.seen links.new).is_open) }
    ensures heard { (L.seen links.old).tells ≡ true →
        IsHeard (L.seen links.old).is_open (L.seen links.old).link memory.old.unread →
        OnOk result (IsHeard (L.seen links.new).is_open (L.seen links.new).link memory.new.unread) }
    ensures rests { OnOk result ((c : ℕ) → ((E.seen core.new).view c).held ≡ true →
        AtRest (((L.seen links.old).tells ≡ true) ×
        IsHeard (L.seen links.old).is_open (L.seen links.old).link memory.old.unread)
        ((L.seen links.old).tells ≡ true) ((E.seen core.new).view c) ((L.seen links.new).link c)) }
    ensures beside { OnOk result ((clock : Option (List ℕ)) →
        StandBeside (E.seen core.old).events (E.seen core.new).events (L.seen links.old).answers
        (L.seen links.new).answers (F.seen files.old).answers
        (F.seen files.new).answers clock clock) }
    ensures steady { OnOk result (((E.seen core.new).terms ≡ (E.seen core.old).terms) ×
        ((E.seen core.new).now ≡ (E.seen core.old).now)) }
    ensures later { OnOk result ((L.seen links.old).faults ≤ (L.seen links.new).faults) }
    ensures stays_over { OnOk result ((L.seen links.old).over ≡ true →
        (L.seen links.new).over ≡ true) }
    ensures notices { OnOk result ((L.seen links.old).tells ≡ true →
        (L.seen links.new).notices ≡ (L.seen links.old).notices) }
    ensures versions { OnOk result ((F.seen files.new).versions ≡ (F.seen files.old).versions) }
    ensures tells { OnOk result (((L.seen links.new).tells ≡ (L.seen links.old).tells) ×
        ((L.seen links.new).listening ≡ (L.seen links.old).listening) ×
        ((F.seen files.new).tells ≡ (F.seen files.old).tells)) }
    ensures grown { OnOk result ((F.seen files.old).newest ≤ (F.seen files.new).newest) }
{
    list(conns, core.conns())?;
    for conn in conns.as_slice() {
        serve_one(core, files, links, memory, *conn, false)?;
    }
    Ok(())
}
