// Reads, writes and closes a link, and gives the core what came of it.
ghost use Rattle.std.specs.Prelude.{◌≡◌, ◌≢◌, ◌+◌, ◌*◌, ◌<◌, ◌≤◌, ℕ, [], true, false, length, take, Some, None, List, if◌then◌else◌, Option, ◌==◌};
ghost use Rattle.ngx_outside.specs.Causes.{Rose};
ghost use Rattle.ngx_outside.specs.Linked.{GotWithin, HasRead, Same};
ghost use Rattle.ngx_outside.specs.Views.{Always, is_live, no_bytes, IsSound};
ghost use Rattle.ngx_outside.specs.declared.links.Input.TheVariants.{Failed as ReadFails};
ghost use Rattle.ngx_outside.specs.Seen.{FilesSeen};
ghost use Rattle.link_service.specs.Seen.{Elsewhere};
ghost use Rattle.link_service.specs.Passing.{Passed, Counts, IsInput};
ghost use Rattle.link_service.specs.Standing.{Keeps};
ghost use Rattle.ngx_outside.specs.Records.{Adds, FileAnswer, LinkFailed as LinkFailedGiven, Read as ReadGiven, Wrote as WroteGiven, got_of};
ghost use Rattle.link_service.specs.Tellings.{StandBeside};

use crate::events::{arrived, ended, gone, link_failed, wrote};
use ngx_outside::{EventCore, Input, Links, Output};

fn smaller(a: usize, b: usize) -> usize
    ensures left { result ≤ a }
    ensures right { result ≤ b }
{
    if a < b { a } else { b }
}

// Reads a link into a front of the buffer.
fn read_link<L: Links>(links: &mut L, conn: u32, buf: &mut [u8], most: usize) -> Input
    requires open { (L.seen links.old).is_open conn ≡ true }
    requires most { most ≤ length buf.old }
    ensures count { GotWithin result most }
    ensures told { (L.seen links.old).tells ≡ true →
        HasRead conn result buf.new (L.seen links.old).link (L.seen links.new).link }
    ensures answers { Adds (ReadGiven conn result (got_of result buf.new))
        (L.seen links.old).answers (L.seen links.new).answers }
    ensures ids { Same (L.seen links.old).used (L.seen links.new).used ×
        Same (L.seen links.old).is_open (L.seen links.new).is_open }
    ensures later { (L.seen links.old).faults ≤ (L.seen links.new).faults }
    ensures stays_over { (L.seen links.old).over ≡ true → (L.seen links.new).over ≡ true }
    ensures tells { ((L.seen links.new).tells ≡ (L.seen links.old).tells) ×
        ((L.seen links.new).listening ≡ (L.seen links.old).listening) }
    ensures counts { (L.seen links.old).tells ≡ true →
        ((L.seen links.new).crowd ≡ (L.seen links.old).crowd) ×
        ((L.seen links.new).notices ≡ (L.seen links.old).notices) }
    ensures link_faults { (c : ℕ) → (L.seen links.old).link_faults c ≤
        (L.seen links.new).link_faults c }
    ensures cause { result ≡ ReadFails →
        Rose ((L.seen links.old).link_faults conn) ((L.seen links.new).link_faults conn) }
    ensures len { length buf.new ≡ length buf.old }
{
    links.read(conn, &mut buf[..most])
}

/// Reads a link that is due, once, as far as its connection has room, and tells the core what came.
pub fn read_one<E: EventCore, L: Links>(
    core: &mut E,
    links: &mut L,
    buf: &mut [u8],
    conn: u32,
    room: usize,
) -> Input
    requires open { (L.seen links.old).is_open conn ≡ true }
    requires live { is_live ((E.seen core.old).view conn) ≡ true }
    requires room { ((E.seen core.old).view conn).room ≡ Some room }
    ensures kept { (files : FilesSeen) →
        Keeps (E.seen core.old) (E.seen core.new) (L.seen links.old)
        (L.seen links.new) files files }
    ensures beside { (files : Option (List FileAnswer)) (clock : Option (List ℕ)) →
        StandBeside (E.seen core.old).events (E.seen core.new).events (L.seen links.old).answers
        (L.seen links.new).answers files files clock clock }
    ensures views { Elsewhere conn (E.seen core.old).view (E.seen core.new).view }
    ensures links { (L.seen links.old).tells ≡ true →
        Elsewhere conn (L.seen links.old).link (L.seen links.new).link }
    ensures input { IsInput result ((E.seen core.old).view conn) ((E.seen core.new).view conn) }
    ensures read { (L.seen links.old).tells ≡ true → (((L.seen links.new).link conn).due ≡ false) ×
        (((L.seen links.new).link conn).full ≡ ((L.seen links.old).link conn).full) }
    ensures opens { Same (L.seen links.old).is_open (L.seen links.new).is_open }
    ensures held { ((E.seen core.new).view conn).held ≡ true }
    ensures falls { (E.seen core.new).left < (E.seen core.old).left +
        (E.seen core.old).terms.price * length buf.old + 1 }
    ensures steady { ((E.seen core.new).terms ≡ (E.seen core.old).terms) ×
        ((E.seen core.new).now ≡ (E.seen core.old).now) }
    ensures notices { (L.seen links.old).tells ≡ true →
        (L.seen links.new).notices ≡ (L.seen links.old).notices }
    ensures later { (L.seen links.old).faults ≤ (L.seen links.new).faults }
    ensures stays_over { (L.seen links.old).over ≡ true → (L.seen links.new).over ≡ true }
    ensures tells { ((L.seen links.new).tells ≡ (L.seen links.old).tells) ×
        ((L.seen links.new).listening ≡ (L.seen links.old).listening) }
    ensures len { length buf.new ≡ length buf.old }
{
    let most = smaller(room, buf.len());
    let input = read_link(links, conn, buf, most);
    match input {
        Input::Got(count) => {
            arrived(core, conn, room, &buf[..count]);
            Input::Got(count)
        }
        Input::NotYet => Input::NotYet,
        Input::End => {
            ended(core, conn);
            Input::End
        }
        Input::Failed => {
            link_failed(core, conn);
            Input::Failed
        }
    }
}

// What was put is written; that nothing was put is a fault.
fn after_put<E: EventCore>(core: &mut E, conn: u32, count: usize)
    requires live { is_live ((E.seen core.old).view conn) ≡ true }
    requires within { count ≤ length ((E.seen core.old).view conn).pending }
    ensures passed { Passed (E.seen core.old).now Always (count ≡ 0) ⊥ ⊥
        ((E.seen core.old).view conn) ((E.seen core.new).view conn) []
        (take count ((E.seen core.old).view conn).pending) }
    ensures ended { ((E.seen core.new).view conn).ended ≡ ((E.seen core.old).view conn).ended }
    ensures others { Elsewhere conn (E.seen core.old).view (E.seen core.new).view }
    ensures left { (E.seen core.new).left < (E.seen core.old).left }
    ensures given { Adds (if count == 0 then LinkFailedGiven conn else WroteGiven conn count)
        (E.seen core.old).events (E.seen core.new).events }
    ensures steady { ((E.seen core.new).terms ≡ (E.seen core.old).terms) ×
        ((E.seen core.new).now ≡ (E.seen core.old).now) ×
        (length (E.seen core.new).conns ≡ length (E.seen core.old).conns) }
    ensures counts { Counts (E.seen core.old).refused (E.seen core.new).refused }
{
    if count > 0 {
        wrote(core, conn, count);
    } else {
        link_failed(core, conn);
    }
}

/// Writes what is pending to a link that isn't full. Whether it is full now.
pub fn write_one<E: EventCore, L: Links>(core: &mut E, links: &mut L, conn: u32) -> bool
    requires open { (L.seen links.old).is_open conn ≡ true }
    requires live { is_live ((E.seen core.old).view conn) ≡ true }
    requires some { no_bytes ((E.seen core.old).view conn).pending ≡ false }
    ensures kept { (files : FilesSeen) →
        Keeps (E.seen core.old) (E.seen core.new) (L.seen links.old)
        (L.seen links.new) files files }
    ensures beside { (files : Option (List FileAnswer)) (clock : Option (List ℕ)) →
        StandBeside (E.seen core.old).events (E.seen core.new).events (L.seen links.old).answers
        (L.seen links.new).answers files files clock clock }
    ensures views { Elsewhere conn (E.seen core.old).view (E.seen core.new).view }
    ensures links { (L.seen links.old).tells ≡ true →
        Elsewhere conn (L.seen links.old).link (L.seen links.new).link }
    ensures full { (L.seen links.old).tells ≡ true → result ≡ true →
        ((L.seen links.new).link conn).full ≡ true }
    ensures due { (L.seen links.old).tells ≡ true →
        ((L.seen links.new).link conn).due ≡ ((L.seen links.old).link conn).due }
    ensures opens { Same (L.seen links.old).is_open (L.seen links.new).is_open }
    ensures held { ((E.seen core.new).view conn).held ≡ true }
    ensures falls { (E.seen core.new).left + (if result then 0 else 1) <
        (E.seen core.old).left + 1 }
    ensures steady { ((E.seen core.new).terms ≡ (E.seen core.old).terms) ×
        ((E.seen core.new).now ≡ (E.seen core.old).now) }
    ensures notices { (L.seen links.old).tells ≡ true →
        (L.seen links.new).notices ≡ (L.seen links.old).notices }
    ensures later { (L.seen links.old).faults ≤ (L.seen links.new).faults }
    ensures stays_over { (L.seen links.old).over ≡ true → (L.seen links.new).over ≡ true }
    ensures tells { ((L.seen links.new).tells ≡ (L.seen links.old).tells) ×
        ((L.seen links.new).listening ≡ (L.seen links.old).listening) }
{
    let output = links.write(conn, core.pending(conn));
    match output {
        Output::Put(count) => {
            after_put(core, conn, count);
            false
        }
        Output::NotYet => true,
        Output::Failed => {
            link_failed(core, conn);
            false
        }
    }
}

/// Closes a link, as its connection wants.
pub fn close_one<E: EventCore, L: Links>(core: &mut E, links: &mut L, conn: u32)
    requires open { (L.seen links.old).is_open conn ≡ true }
    requires shut { ((E.seen core.old).view conn).shut ≡ true }
    requires sound { IsSound ((E.seen core.old).view conn) }
    ensures kept { (files : FilesSeen) →
        Keeps (E.seen core.old) (E.seen core.new) (L.seen links.old)
        (L.seen links.new) files files }
    ensures beside { (files : Option (List FileAnswer)) (clock : Option (List ℕ)) →
        StandBeside (E.seen core.old).events (E.seen core.new).events (L.seen links.old).answers
        (L.seen links.new).answers files files clock clock }
    ensures views { Elsewhere conn (E.seen core.old).view (E.seen core.new).view }
    ensures links { (L.seen links.old).tells ≡ true →
        Elsewhere conn (L.seen links.old).link (L.seen links.new).link }
    ensures opens { Elsewhere conn (L.seen links.old).is_open (L.seen links.new).is_open }
    ensures closed { (((E.seen core.new).view conn).held ≡ false) ×
        ((L.seen links.new).is_open conn ≡ false) }
    ensures same { (L.seen links.old).tells ≡ true →
        (L.seen links.new).link conn ≡ (L.seen links.old).link conn }
    ensures falls { (E.seen core.new).left < (E.seen core.old).left }
    ensures steady { ((E.seen core.new).terms ≡ (E.seen core.old).terms) ×
        ((E.seen core.new).now ≡ (E.seen core.old).now) }
    ensures notices { (L.seen links.old).tells ≡ true →
        (L.seen links.new).notices ≡ (L.seen links.old).notices }
    ensures later { (L.seen links.old).faults ≤ (L.seen links.new).faults }
    ensures stays_over { (L.seen links.old).over ≡ true → (L.seen links.new).over ≡ true }
    ensures tells { ((L.seen links.new).tells ≡ (L.seen links.old).tells) ×
        ((L.seen links.new).listening ≡ (L.seen links.old).listening) }
{
    links.close(conn);
    gone(core, conn);
}
