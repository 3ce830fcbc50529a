// The job of a node is answered.
ghost use Rattle.std.specs.Prelude.{◌≡◌, ◌<◌, ◌+◌, ◌++◌, ℕ, Bool, List, true, length, is_some, IfOk, OnOk, None, Some};
ghost use Rattle.std.specs.Borrow.{Bor};
ghost use Rattle.file_tree.specs.Tree.{IsFrom, Trees, is_fitting};
ghost use Rattle.file_tree.specs.declared.job.JobAnswer.TheVariants.{Read as BlockRead};
ghost use Rattle.request_flow.specs.Flows.{count_asked};
ghost use Rattle.file_tree.specs.declared.job.Ask.{Ask as AskView};
ghost use Rattle.ngx_outside.specs.Views.{ask_in};
ghost use Rattle.ngx_pattern.specs.Pattern.{Pattern as SetPattern};
ghost use Rattle.request_meaning.specs.Serving.{World};
ghost use Rattle.site_model.specs.declared.site.Site.{Site as SiteRow};
ghost use Rattle.response_flow.specs.Continues.{Continues};
ghost use Rattle.response_flow.specs.declared.flight.Flight.{Flight as FlightView};
ghost use Rattle.response_flow.specs.Flights.{FlightFits, FlightReached, FlightServedBy, flight_left, flight_length, flight_rest, flight_server, flight_tree, jobs_of, reads_alone_in};

use crate::flight::Flight;
use access_flow::answered as access_answered;
use byte_text::{ByteQueue, OutOfMemory};
use file_tree::{Ask, JobAnswer};
use request_flow::{answered as flow_answered, came as flow_came};
use std::alloc::Global;

/// The job of a node of the request in flight is answered, in its place.
///
/// # Errors
/// `OutOfMemory`; the request is then not to be answered.
pub fn answered(
    alloc: Global,
    flight: &mut Option<Flight>,
    at: u32,
    out: &mut ByteQueue,
    answer: JobAnswer<'_>,
) -> Result<(), OutOfMemory>
    requires some { is_some flight.old ≡ true }
    requires fits { FlightFits flight.old (length out.old) }
    requires asked { (ask : AskView) × (ask_in (jobs_of flight.old) at ≡ Some ask)
        × (is_fitting ask answer ≡ true) }
    ensures goes { (w : World) (patterns : List SetPattern) (site : SiteRow) (trees : Trees)
        (closing : Bool) (ask : AskView) → ask_in (jobs_of flight.old) at ≡ Some ask
        → IsFrom trees ask answer.entry → FlightReached w patterns site flight.old
        → OnOk result (Continues site (flight_rest w patterns site flight.old trees)
        (flight_rest w patterns site flight.new trees) out.old out.new closing closing None None) }
    ensures reached { (w : World) (patterns : List SetPattern) (site : SiteRow) →
        FlightReached w patterns site flight.old
        → OnOk result (FlightReached w patterns site flight.new) }
    ensures fits { OnOk result (FlightFits flight.new (length out.new)) }
    ensures lowers { OnOk result (length out.new + flight_left flight.new (length out.new)
        < length out.old + flight_left flight.old (length out.old)) }
    ensures by { (f : FlightView) → flight.old ≡ Some f → OnOk result
        (FlightServedBy (flight_server f) (flight_length f) flight.new) }
    ensures asked { OnOk result (flight_tree flight.new ≡ flight_tree flight.old) }
    ensures flies { OnOk result (is_some flight.new ≡ true) }
{
    match flight {
        Some(Flight::Page(page)) => {
            page.pages.hear(alloc, at, answer)?;
            Ok(())
        }
        Some(Flight::Alone(flow)) => {
            flow_answered(alloc, flow, out, answer)?;
            Ok(())
        }
        Some(Flight::Asking(flow)) => {
            access_answered(&mut **flow, answer);
            Ok(())
        }
        None => unreachable!(),
    }
}

/// Whether the request in flight has no subrequest, and its job asks for a block of its file: that block may be added to the bytes for
/// the peer at once (`came`).
pub fn reads_alone(flight: &Option<Flight>) -> bool
    ensures { result ≡ reads_alone_in flight.now }
{
    match flight {
        Some(Flight::Alone(flow)) => match &flow.ask {
            Ask::Read {
                path: _,
                start: _,
                count: _,
                of: _,
            } => true,
            Ask::Stat { path: _, of: _ } => false,
        },
        Some(Flight::Asking(_)) => false,
        Some(Flight::Page(_)) => false,
        None => false,
    }
}

/// The block that the job of a request alone asks for was added to the bytes for the peer, of which there were `placed`.
pub fn came(flight: &mut Option<Flight>, at: u32, placed: usize)
    requires alone { reads_alone_in flight.old ≡ true }
    requires fits { FlightFits flight.old placed }
    requires asked { (ask : AskView) × (ask_in (jobs_of flight.old) at ≡ Some ask) }
    ensures goes { (w : World) (patterns : List SetPattern) (site : SiteRow) (trees : Trees)
        (closing : Bool) (ask : AskView) (block : Bor (List ℕ)) (from to : List ℕ) →
        ask_in (jobs_of flight.old) at ≡ Some ask → length from ≡ placed →
        to ≡ from ++ block.now → length block.now ≡ count_asked ask →
        IsFrom trees ask (BlockRead block) →
        Continues site (flight_rest w patterns site flight.old trees)
        (flight_rest w patterns site flight.new trees) from to closing closing None None }
    ensures reached { (w : World) (patterns : List SetPattern) (site : SiteRow) →
        FlightReached w patterns site flight.old → FlightReached w patterns site flight.new }
    ensures fits { (ask : AskView) → ask_in (jobs_of flight.old) at ≡ Some ask →
        FlightFits flight.new (placed + count_asked ask) }
    ensures lowers { (ask : AskView) → ask_in (jobs_of flight.old) at ≡ Some ask →
        placed + count_asked ask + flight_left flight.new (placed + count_asked ask)
        < placed + flight_left flight.old placed }
    ensures by { (f : FlightView) → flight.old ≡ Some f →
        FlightServedBy (flight_server f) (flight_length f) flight.new }
    ensures asked { flight_tree flight.new ≡ flight_tree flight.old }
    ensures flies { is_some flight.new ≡ true }
{
    match flight {
        Some(Flight::Alone(flow)) => flow_came(flow, placed),
        Some(Flight::Asking(_)) => unreachable!(),
        Some(Flight::Page(_)) => unreachable!(),
        None => unreachable!(),
    }
}
