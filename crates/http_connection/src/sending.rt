// What a connection has to send, and whether a request is in flight.
ghost use Rattle.std.specs.Prelude.{◌≡◌, not, true};
ghost use Rattle.ngx_outside.specs.Views.{no_bytes};
ghost use Rattle.http_connection.specs.Conn.{pending_at, in_flight, filled_by, mark_written, no_entries};

use crate::times::{AT_REST, Sending};
use byte_text::ByteQueue;
use request_journal::Journal;
use response_flow::{Flight, pending};

// The moment since which bytes are buffered: this one where none was before.
pub(crate) fn filled(filled: u64, moment: u64, was_empty: bool, buffered: &ByteQueue) -> u64
    ensures { result ≡ filled_by filled moment was_empty buffered.now }
{
    if was_empty && !buffered.is_empty() {
        moment
    } else {
        filled
    }
}

// Whether bytes are to be written next.
pub(crate) fn is_pending(flight: &Option<Flight>, out: &ByteQueue, tail: usize) -> bool
    ensures { result ≡ not (no_bytes (pending_at flight.now out.now tail)) }
{
    !pending(flight, out, tail).is_empty()
}

// Whether no request was started.
pub(crate) fn is_fresh(journal: &Journal) -> bool
    ensures { result ≡ no_entries journal.now.past.entries }
{
    journal.is_empty()
}

// Whether a request is in flight: it isn't over, or some of its response is unsent.
pub(crate) fn is_in_flight(flight: &Option<Flight>, out: &ByteQueue) -> bool
    ensures { result ≡ in_flight flight.now out.now }
{
    match flight {
        Some(_) => true,
        None => !out.is_empty(),
    }
}

// The mark where bytes were written: this moment where they were the last of a response.
pub(crate) fn mark_after_write(
    mark: u64,
    moment: u64,
    flight: &Option<Flight>,
    out: &ByteQueue,
) -> u64
    ensures { result ≡ mark_written mark moment flight.now out.now }
{
    if is_in_flight(flight, out) {
        mark
    } else {
        moment
    }
}

#[inline(always)]
fn sending(flight: &Option<Flight>, out: &ByteQueue, tail: usize) -> Sending
    ensures pending { result.pending ≡ not (no_bytes (pending_at flight.now out.now tail)) }
    ensures in_flight { result.in_flight ≡ in_flight flight.now out.now }
{
    Sending {
        pending: is_pending(flight, out, tail),
        in_flight: is_in_flight(flight, out),
    }
}

// What is being sent, where it matters; where it doesn't, it isn't looked at.
#[inline(always)]
pub(crate) fn sending_if(
    matters: bool,
    flight: &Option<Flight>,
    out: &ByteQueue,
    tail: usize,
) -> Sending
    ensures pending { matters ≡ true →
        result.pending ≡ not (no_bytes (pending_at flight.now out.now tail)) }
    ensures in_flight { matters ≡ true → result.in_flight ≡ in_flight flight.now out.now }
{
    if matters {
        return sending(flight, out, tail);
    }
    AT_REST
}
