// What a response waits for, and what is written of it.
ghost use Rattle.std.specs.Prelude.{◌≡◌, ◌≤◌, ◌<◌, ◌+◌, ◌-◌, ◌*◌, ◌/◌, ℕ, List, take, drop, length, option_copied, is_some, Some, None};
ghost use Rattle.file_tree.specs.Tree.{Trees};
ghost use Rattle.ngx_outside.specs.Views.{ask_in};
ghost use Rattle.ngx_pattern.specs.Pattern.{Pattern as SetPattern};
ghost use Rattle.request_meaning.specs.Serving.{World};
ghost use Rattle.site_model.specs.declared.site.Site.{Site as SiteRow};
ghost use Rattle.subrequests.specs.Moved.{IsWhole};
ghost use Rattle.subrequests.specs.Wants.{first_job as job_first, first_of, is_among};
ghost use Rattle.request_flow.specs.Flows.{shown_most};
ghost use Rattle.response_flow.specs.Flights.{FlightFits, FlightReached, FlightServedBy, flight_left, flight_rest, flight_tree, ends_first as ends_first_page, is_stuck as is_stuck_page, jobs_of, next_of, pending_of, ready_of, shown_kept, unsent_of};
ghost use Rattle.response_flow.specs.Flights.{page_left};
ghost use Rattle.response_flow.specs.Writes.{Writes, with_bytes};
ghost use Rattle.outgoing.specs.Leaving.{most};
ghost use Rattle.page_response.specs.Pages.{IsReached, pages_left};

use crate::flight::{Flight, PageFlow};
use access_flow::{AccessFlow, is_inner, may_run as access_may_run, waits as access_waits};
use byte_text::ByteQueue;
use file_tree::Ask;
use page_response::Pages;
use request_flow::reply_out::OutRoom;
use request_flow::{may_run, shown_by, waits, wrote};

/// No more bytes than these are shown as pending.
const SHOWN: usize = 65536;

/// How many bytes the chunk of a whole block has.
const CHUNK: usize = 4104;

/// The room that the tail of a body in chunks is given.
const TAIL_ROOM: usize = 4107;

/// How many of the bytes before a tail are shown, up to the end of a whole chunk, where the tail isn't shown.
fn whole_chunks(before: usize) -> usize
    requires { 61429 < before }
    ensures { result ≡ before - 4104 * ((before - 65536 + 4103) / 4104) }
{
    let over = before.saturating_sub(SHOWN) + (CHUNK - 1);
    before - over / CHUNK * CHUNK
}

/// How many bytes are shown of the `size` that are kept once a response is over, of which the last `tail` are the tail of a body in
/// chunks.
fn shown_in(tail: usize, size: usize) -> usize
    ensures { result ≡ shown_kept tail size }
{
    if tail == 0 {
        return size.min(SHOWN);
    }
    let before = size.saturating_sub(tail);
    if before <= SHOWN - TAIL_ROOM {
        return size.min(SHOWN);
    }
    whole_chunks(before)
}

fn first_bytes(out: &ByteQueue, most: usize) -> &[u8]
    ensures { result.now ≡ take most out.now }
{
    let bytes = out.front();
    &bytes[..most.min(bytes.len())]
}

/// How many bytes are shown at most.
#[tactic(auto, unfolding(request_flow::specs::Flows::shown_most))]
fn most_shown() -> usize
    ensures { result ≡ shown_most }
{
    SHOWN
}

/// The bytes that are written next, where these are kept for the peer, of which the last `tail` are the tail of a
/// body in chunks once a page is over.
pub fn pending<'a>(flight: &'a Option<Flight>, out: &'a ByteQueue, tail: usize) -> &'a [u8]
    ensures { result.now ≡ pending_of flight.now out.now tail }
{
    match flight {
        None => first_bytes(out, shown_in(tail, out.len())),
        Some(Flight::Alone(flow)) => first_bytes(out, shown_by(&flow.stage)),
        Some(Flight::Asking(_)) => first_bytes(out, most_shown()),
        Some(Flight::Page(page)) => page.pages.outgoing.pending(),
    }
}

/// Which of a main request and the subrequest that it asked goes on next.
fn access_next(flow: &AccessFlow) -> u32
    ensures { result ≡ next_of flow.now.stage flow.now.request.value.opened }
{
    if is_inner(&flow.stage) {
        return flow.request.opened as u32;
    }
    0
}

/// The job of a node; none where it has no job that waits.
pub fn ask(flight: &Option<Flight>, at: u32) -> Option<&Ask>
    ensures { option_copied result ≡ ask_in (jobs_of flight.now) at }
{
    match flight {
        None => None,
        Some(Flight::Alone(flow)) => {
            if at == 0 && waits(&flow.stage) {
                return Some(&flow.ask);
            }
            None
        }
        Some(Flight::Asking(flow)) => {
            if flow.request.opened as u32 == at && access_waits(&flow.stage) {
                return Some(&flow.ask);
            }
            None
        }
        Some(Flight::Page(page)) => page.pages.family.ask(at),
    }
}

/// The first node whose job waits for an answer.
#[inline(always)]
pub fn first_job(flight: &Option<Flight>) -> Option<u32>
    requires { (size : ℕ) × FlightFits flight.now size }
    ensures { result ≡ job_first (jobs_of flight.now) }
{
    match flight {
        None => None,
        Some(Flight::Alone(flow)) => {
            if waits(&flow.stage) {
                return Some(0);
            }
            None
        }
        Some(Flight::Asking(flow)) => {
            if access_waits(&flow.stage) {
                return Some(flow.request.opened as u32);
            }
            None
        }
        Some(Flight::Page(page)) => page.pages.family.first_job(),
    }
}

/// Whether nothing of a page can go on that isn't over: that never comes about.
fn is_stuck(pages: &Pages) -> bool
    requires { IsWhole pages.now.family }
    ensures { result ≡ is_stuck_page pages.now }
{
    pages.outgoing.pending().is_empty()
        && (pages.family.first_job().is_none() && pages.family.first_ready().is_none())
}

/// Whether the first node of a page is the one that can run.
#[inline(always)]
fn ends_first(pages: &Pages) -> bool
    requires { IsWhole pages.now.family }
    ensures { result ≡ ends_first_page pages.now }
{
    pages.family.is_done() || is_stuck(pages)
}

/// The first node that can run.
#[inline(always)]
pub fn first_ready(flight: &Option<Flight>) -> Option<u32>
    requires { (size : ℕ) × FlightFits flight.now size }
    ensures { result ≡ first_of (ready_of flight.now) }
{
    match flight {
        None => None,
        Some(Flight::Alone(flow)) => {
            if may_run(&flow.stage) {
                return Some(0);
            }
            None
        }
        Some(Flight::Asking(flow)) => {
            if access_may_run(&flow.stage) {
                return Some(access_next(&**flow));
            }
            None
        }
        Some(Flight::Page(page)) => {
            if ends_first(&*page.pages) {
                return Some(0);
            }
            page.pages.family.first_ready()
        }
    }
}

/// Whether a node can run.
#[tactic(auto, unfolding(subrequests::specs::Wants::is_among))]
pub fn is_ready(flight: &Option<Flight>, at: u32) -> bool
    requires { (size : ℕ) × FlightFits flight.now size }
    ensures { result ≡ is_among at (ready_of flight.now) }
{
    match flight {
        None => false,
        Some(Flight::Alone(flow)) => 0 == at && may_run(&flow.stage),
        Some(Flight::Asking(flow)) => access_next(&**flow) == at && access_may_run(&flow.stage),
        Some(Flight::Page(page)) => {
            if ends_first(&*page.pages) {
                return 0 == at;
            }
            page.pages.family.is_ready(at)
        }
    }
}

/// The first of the pending bytes of a page were written. It takes no memory.
fn page_written(page: &mut PageFlow, count: usize)
    requires some { 0 < count }
    requires count { count ≤ length page.old.pages.value.outgoing.pending }
    requires bounded { length page.old.pages.value.outgoing.pending ≤ most }
    ensures rest { (w : World) (patterns : List SetPattern) (site : SiteRow) (trees : Trees) →
        page_left w patterns site trees page.old.pages.value ≡ with_bytes
        (take count page.old.pages.value.outgoing.pending)
        (page_left w patterns site trees page.new.pages.value) }
    ensures reached { (w : World) (patterns : List SetPattern) (site : SiteRow) →
        IsReached w patterns site page.old.pages.value
        → IsReached w patterns site page.new.pages.value }
    ensures whole { IsWhole page.old.pages.value.family → IsWhole page.new.pages.value.family }
    ensures bounded { length page.new.pages.value.outgoing.pending ≤ most }
    ensures lowers { pages_left page.new.pages.value < pages_left page.old.pages.value }
    ensures by { (page.new.server ≡ page.old.server) × (page.new.length ≡ page.old.length) }
    ensures tree { page.new.pages.value.family.tree ≡ page.old.pages.value.family.tree }
{
    let inside = &mut *page.pages;
    inside.written(count);
}

/// The first of the pending bytes were written, with the flight in its place. It takes no memory. `room` is where the room of a
/// large response is kept that went out whole.
#[inline(always)]
pub fn written(flight: &mut Option<Flight>, out: &mut ByteQueue, count: usize, room: &mut OutRoom)
    requires some { 0 < count }
    requires count { count ≤ length (unsent_of flight.old out.old) }
    requires fits { FlightFits flight.old (length out.old) }
    ensures writes { (w : World) (patterns : List SetPattern) (site : SiteRow) (trees : Trees) →
        Writes (flight_rest w patterns site flight.old trees)
        (flight_rest w patterns site flight.new trees)
        out.old out.new (take count (unsent_of flight.old out.old)) }
    ensures reached { (w : World) (patterns : List SetPattern) (site : SiteRow) →
        FlightReached w patterns site flight.old → FlightReached w patterns site flight.new }
    ensures fits { FlightFits flight.new (length out.new) }
    ensures lowers { length out.new + flight_left flight.new (length out.new)
        < length out.old + flight_left flight.old (length out.old) }
    ensures by { (server length : ℕ) → FlightServedBy server length flight.old
        → FlightServedBy server length flight.new }
    ensures tree { flight_tree flight.new ≡ flight_tree flight.old }
    ensures kind { is_some flight.new ≡ is_some flight.old }
    ensures used { flight.old ≡ None → out.new ≡ drop count out.old }
{
    match flight {
        None => room.used(out, count),
        Some(Flight::Alone(flow)) => {
            room.used(out, count);
            wrote(flow, count);
        }
        Some(Flight::Asking(_)) => unreachable!(),
        Some(Flight::Page(page)) => page_written(page, count),
    }
}
