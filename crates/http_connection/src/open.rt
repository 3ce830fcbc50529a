// A request is opened: its server is chosen, and it starts.
ghost use Rattle.std.specs.Prelude.{◌≡◌, ◌≤◌, ◌<◌, ◌+◌, not, true, [], length, is_some, IfOk, None};
ghost use Rattle.ngx_outside.specs.Views.{Start};
ghost use Rattle.answers_meaning.specs.Asking.{stated_length as length_stated};
ghost use Rattle.request_meaning.specs.Serving.{is_head as is_head_method};
ghost use Rattle.response_flow.specs.request_flow.Flows.{asking_most};
ghost use Rattle.response_flow.specs.Continues.{IfOn};
ghost use Rattle.response_flow.specs.Flights.{FlightFits, TailFits, flight_left, flight_tree, page_most};
ghost use Rattle.http_connection.specs.Rests.{ReachedIn, Serves};
ghost use Rattle.http_connection.specs.Steps.{OpenedTo, Refuses};

use crate::slot::forget;
use byte_text::{ByteQueue, OutOfMemory};
use http_types::{Addr, BodyKind, Method};
use req_head::Head;
use response_flow::reply_out::{Workspace, put_refusal};
use response_flow::request_opening::Opening;
use response_flow::{Onward, Ran, start};
use served_site::ServedSite;

/// The two ends of a connection, the moment at which a request starts in seconds since 1970, and the number of its tree.
#[derive(Clone, Copy)]
pub struct Meeting {
    pub local: Addr,
    pub peer: Addr,
    pub moment: u64,
    pub tree: u64,
}

/// The length that a head states of its body; a chunked body has none.
fn stated_length(kind: BodyKind) -> u64
    ensures { result ≡ length_stated kind }
{
    match kind {
        BodyKind::Empty => 0,
        BodyKind::Length(count) => count,
        BodyKind::Chunked => 0,
    }
}

fn is_head(method: &Method) -> bool
    ensures { result ≡ is_head_method method.now }
{
    match method {
        Method::Head => true,
        Method::Get => false,
        Method::Post => false,
        Method::Other(_) => false,
    }
}

/// What is no request, or has no server, is refused with a code, and the connection closes. `level` is the number of the level
/// that paces the response.
pub(crate) fn refuse(
    space: &mut Workspace,
    out: &mut ByteQueue,
    code: u16,
    moment: u64,
    no_body: bool,
    level: Option<u32>,
) -> Result<Onward, OutOfMemory>
    requires { out.old ≡ [] }
    ensures refuses { (start : Start) → start.moment ≡ moment →
        IfOk result (λ o. Refuses code start no_body o.flight out.old out.new o.closing o.log) }
    ensures level { IfOk result (λ o. o.level ≡ level) }
    ensures fits { IfOk result (λ o. FlightFits o.flight (length out.new)) }
    ensures lowers { IfOk result (λ o. length out.new + flight_left o.flight
        (length out.new) < page_most + asking_most) }
    ensures tail { IfOk result (λ o. TailFits None o.flight o.tail out.new) }
    ensures kept { space.new.patterns ≡ space.old.patterns }
{
    let size = put_refusal(space, out, code, moment, no_body)?;
    Ok(Onward {
        flight: None,
        closing: true,
        log: Some((code, size)),
        level,
        tail: 0,
    })
}

/// Starts a request that this many others came before: by the server that answers its host, and where no server is, with the
/// built-in page of 404.
pub(crate) fn open(
    space: &mut Workspace,
    served: &ServedSite,
    out: &mut ByteQueue,
    head: Head,
    before: u64,
    meeting: Meeting,
) -> Result<Ran, OutOfMemory>
    requires { out.old ≡ [] }
    ensures opens { let x : Serves = record {
      patterns = space.old.patterns;
      served = served.now;
    } in
        IfOk result (λ ran. OpenedTo x meeting before head out.old out.new ran) }
    ensures reached { let x : Serves = record {
      patterns = space.old.patterns;
      served = served.now;
    } in
        IfOk result (λ ran. IfOn ran (λ o. ReachedIn x o.flight)) }
    ensures over { IfOk result (λ ran. IfOn ran (λ o. is_some o.log ≡ not (is_some o.flight))) }
    ensures fits { IfOk result (λ ran. IfOn ran (λ o. FlightFits o.flight (length out.new))) }
    ensures lowers { IfOk result (λ ran. IfOn ran (λ o. length out.new + flight_left o.flight
        (length out.new) < page_most + asking_most)) }
    ensures asked { IfOk result (λ ran. IfOn ran (λ o. flight_tree o.flight ≤ meeting.tree)) }
    ensures tail { IfOk result (λ ran. IfOn ran (λ o. TailFits None o.flight o.tail out.new)) }
    ensures kept { space.new.patterns ≡ space.old.patterns }
{
    match served.choose(meeting.local, head.host.as_slice(), &mut space.patterns) {
        Some(number) => {
            let ground = served.ground(number, stated_length(head.body));
            let opening = Opening {
                head,
                local: meeting.local,
                peer: meeting.peer,
                moment: meeting.moment,
                tree: meeting.tree,
                before,
            };
            Ok(start(space, &ground, number, opening, out)?)
        }
        None => {
            let no_body = is_head(&head.method);
            forget(head);
            Ok(Ran::On(refuse(space, out, 404, meeting.moment, no_body, None)?))
        }
    }
}
