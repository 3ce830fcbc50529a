// Laws of connections, which those that hold many rest on.
ghost use Rattle.http_connection.specs.Conn.{AllSound, AllExact, AllBounded, AllPendWhole};

use req_head::full_decides;
use response_flow::shown_end_whole;

/// What a connection shows is sound: one that isn't live has nothing to do; one that is idle, or live and to be closed, has
/// nothing more to come; one that is idle and isn't to be closed reads; and one is closed before its input's end only where
/// nothing would come whatever arrived.
pub fn connections_are_sound()
    ensures { AllSound }
{
    full_decides();
}

/// What a live connection shows is no more and no less than what is left of it: it is idle only where nothing is, and isn't
/// only where bytes are still to come or a request isn't logged yet; and after the end of its input an idle one is to be closed.
pub fn connections_are_exact()
    ensures { AllExact }
{}

/// Whatever is served, and however slowly a peer reads: a connection holds no more than 8192 bytes of its input, and keeps no
/// more than 2^26 bytes for its peer.
pub fn connections_are_bounded()
    ensures { AllBounded }
{}

/// What is pending of a response that is over and whose body is in chunks is all that is kept of it, or ends where a chunk ends,
/// by the lengths: after it come as many bytes as some chunks of whole blocks and the tail in which the body ends have.
pub fn connections_pend_whole()
    ensures { AllPendWhole }
{
    shown_end_whole();
}
