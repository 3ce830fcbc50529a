// Takes a notice of the links.
ghost use Rattle.std.specs.Prelude.{◌≡◌, ◌≢◌, ◌≤◌, ℕ, [], true, false, List, Option};
ghost use Rattle.http_types.specs.declared.words.Addr.{Addr as End};
ghost use Rattle.ngx_outside.specs.Causes.{Rose};
ghost use Rattle.ngx_outside.specs.Linked.{Unchanged};
ghost use Rattle.ngx_outside.specs.Views.{Course};
ghost use Rattle.ready_loop.specs.declared.ids.Ids.{Ids};
ghost use Rattle.ngx_outside.specs.Seen.{LinksSeen, FilesSeen};
ghost use Rattle.link_service.specs.Seen.{Elsewhere, Tick, HasTicked, OpenedAt};
ghost use Rattle.link_service.specs.Standing.{Marks, Kept, KeepsTicked, IsMatched};
ghost use Rattle.ready_loop.specs.Turns.{ChangedAs, HeardAs, HeardCounts, IsHeard};
ghost use Rattle.ngx_outside.specs.Records.{Adds, FileAnswer, Opened as OpenedGiven};
ghost use Rattle.link_service.specs.Tellings.{StandBeside};

use http_types::Addr;
use link_service::opened;
use ngx_outside::{EventCore, Links, Notice};

/// What was heard: something of a connection, and whether its link is to be read; or nothing; or that no notice will come
/// any more; or that the call failed.
#[derive(Clone, Copy, Debug, PartialEq, Eq)]
pub enum Heard {
    At { conn: u32, due: bool },
    Nothing,
    Ended,
    Failed,
}

// A link was opened: the core gets its connection, or it is closed.
fn open_link<E: EventCore, L: Links>(core: &mut E, links: &mut L, id: u32, local: Addr, peer: Addr)
    requires unheld { ((E.seen core.old).view id).held ≡ false }
    requires open { (L.seen links.old).is_open id ≡ true }
    ensures kept { (L.seen links.old).tells ≡ true →
        (marks : Marks) (whole : ℕ → End → End → Course) (before : LinksSeen) (files : FilesSeen)
        (ticks : List Tick) → HasTicked ticks → OpenedAt id local peer before (L.seen links.old) →
        Kept marks whole (E.seen core.old) before files ticks →
        Kept marks whole (E.seen core.new) (L.seen links.new) files ticks }
    ensures views { Elsewhere id (E.seen core.old).view (E.seen core.new).view }
    ensures links { (L.seen links.old).tells ≡ true →
        Unchanged (L.seen links.old).link (L.seen links.new).link }
    ensures opens { Elsewhere id (L.seen links.old).is_open (L.seen links.new).is_open }
    ensures matched { ((E.seen core.new).view id).held ≡ (L.seen links.new).is_open id }
    ensures given { Adds (OpenedGiven id local peer) (E.seen core.old).events
        (E.seen core.new).events }
    ensures answers { (L.seen links.new).answers ≡ (L.seen links.old).answers }
    ensures steady { ((E.seen core.new).terms ≡ (E.seen core.old).terms) ×
        ((E.seen core.new).now ≡ (E.seen core.old).now) }
    ensures notices { (L.seen links.old).tells ≡ true →
        (L.seen links.new).notices ≡ (L.seen links.old).notices }
    ensures later { (L.seen links.old).faults ≤ (L.seen links.new).faults }
    ensures stays_over { (L.seen links.old).over ≡ true → (L.seen links.new).over ≡ true }
    ensures tells { ((L.seen links.new).tells ≡ (L.seen links.old).tells) ×
        ((L.seen links.new).listening ≡ (L.seen links.old).listening) }
{
    if !opened(core, id, local, peer) {
        links.close(id);
    }
}

/// Takes the next notice: a link that was opened gets its connection, or is closed.
pub fn hear<E: EventCore, L: Links>(core: &mut E, links: &mut L) -> Heard
    requires matched { IsMatched (E.seen core.old).view (L.seen links.old).is_open }
    ensures kept { (files : FilesSeen) →
        KeepsTicked (E.seen core.old) (E.seen core.new) (L.seen links.old)
        (L.seen links.new) files }
    ensures matched { IsMatched (E.seen core.new).view (L.seen links.new).is_open }
    ensures heard { (L.seen links.old).tells ≡ true → (unread : Ids) →
        IsHeard (L.seen links.old).is_open (L.seen links.old).link unread →
        HeardAs result (L.seen links.new).is_open (L.seen links.new).link unread }
    ensures views { ChangedAs result (E.seen core.old).view (E.seen core.new).view }
    ensures links { (L.seen links.old).tells ≡ true →
        ChangedAs result (L.seen links.old).link (L.seen links.new).link }
    ensures ended { result ≡ Heard.Ended → (L.seen links.new).over ≡ true }
    ensures failed { result ≡ Heard.Failed →
        Rose (L.seen links.old).faults (L.seen links.new).faults }
    ensures beside { (files : Option (List FileAnswer)) (clock : Option (List ℕ)) →
        StandBeside (E.seen core.old).events (E.seen core.new).events (L.seen links.old).answers
        (L.seen links.new).answers files files clock clock }
    ensures steady { ((E.seen core.new).terms ≡ (E.seen core.old).terms) ×
        ((E.seen core.new).now ≡ (E.seen core.old).now) }
    ensures notices { (L.seen links.old).tells ≡ true →
        HeardCounts result (L.seen links.old).notices (L.seen links.new).notices }
    ensures later { (L.seen links.old).faults ≤ (L.seen links.new).faults }
    ensures stays_over { (L.seen links.old).over ≡ true → (L.seen links.new).over ≡ true }
    ensures tells { ((L.seen links.new).tells ≡ (L.seen links.old).tells) ×
        ((L.seen links.new).listening ≡ (L.seen links.old).listening) }
{
    let notice = links.next();
    match notice {
        Notice::Opened { id, local, peer } => {
            open_link(core, links, id, local, peer);
            Heard::At {
                conn: id,
                due: false,
            }
        }
        Notice::Readable { id } => Heard::At {
            conn: id,
            due: true,
        },
        Notice::Writable { id } => Heard::At {
            conn: id,
            due: false,
        },
        Notice::Nothing => Heard::Nothing,
        Notice::Ended => Heard::Ended,
        Notice::Failed => Heard::Failed,
    }
}
