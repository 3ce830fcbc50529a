// What a node does next.
ghost use Rattle.std.specs.Prelude.{◌≡◌, Some, true, false, slice_get, if◌then◌else◌};
ghost use Rattle.node_line.specs.node_turn.Stages.{is_in_row as in_row};
ghost use Rattle.node_seats.specs.Seats.{is_captured};
ghost use Rattle.subrequests.specs.Families.{has_stub};
ghost use Rattle.subrequests.specs.Wants.{StandsAt};
ghost use Rattle.subrequests.specs.declared.next_step.Next.TheVariants.{Ends as EndsNext, Decides as DecidesNext, Frees as FreesNext, Returns as ReturnsNext};

use node_line::node_turn::{Node, Place, Stage, needs_block};

/// What a node does next.
#[derive(Clone, Copy)]
pub(crate) enum Next {
    /// Its phases go on.
    Turns,
    /// A block of its file is asked.
    Fetches,
    /// Bytes of its body are placed.
    Places,
    /// Bytes of its body are placed or withheld: it has a stub.
    Comes,
    /// The next part of its page is taken up.
    Takes,
    /// It is at its page and has a stub: the bytes of its subrequests come to it from now on.
    Gathers,
    /// It is over.
    Ends,
    /// It is over, and its stub is at its place.
    Decides,
    /// It is over, and its parent has its body.
    Returns,
    /// No subrequest is left whose bytes come to it, and it has a stub.
    Frees,
    /// Nothing: it waits, or is over.
    Waits,
}

/// Whether the bytes of a node go to the order.
pub(crate) fn is_in_row(place: &Place) -> bool
    ensures { result ≡ in_row place.now }
{
    match place {
        Place::Row => true,
        Place::Stub { stub: _, text: _ } => false,
        Place::Gathers { stub: _, text: _ } => false,
        Place::Captured { stub: _, text: _ } => false,
    }
}

/// Whether a node has a stub, and no bytes of subrequests come to it.
fn is_stub(place: &Place) -> bool
    ensures { result ≡ has_stub place.now }
{
    match place {
        Place::Row => false,
        Place::Stub { stub: _, text: _ } => true,
        Place::Gathers { stub: _, text: _ } => false,
        Place::Captured { stub: _, text: _ } => false,
    }
}

/// How a node is over whose bytes go there.
fn ends_by(place: &Place) -> Next
    ensures { result ≡ (if in_row place.now then EndsNext
        else (if is_captured place.now then ReturnsNext
        else (if has_stub place.now then DecidesNext else FreesNext))) }
{
    match place {
        Place::Row => Next::Ends,
        Place::Stub { stub: _, text: _ } => Next::Decides,
        Place::Gathers { stub: _, text: _ } => Next::Frees,
        Place::Captured { stub: _, text: _ } => Next::Returns,
    }
}

/// What a node with this number does next.
pub(crate) fn next_of(nodes: &[Node], at: u32) -> Next
    ensures { StandsAt (slice_get nodes.now at) at result }
{
    let Some(node) = nodes.get(at as usize) else {
        return Next::Waits;
    };
    if node.over || node.asks.is_some() {
        return Next::Waits;
    }
    match &node.stage {
        Stage::Begins(_) => Next::Turns,
        Stage::Asks { wait: _, ssi: _ } => Next::Waits,
        Stage::Told {
            wait: _,
            file: _,
            ssi: _,
        } => Next::Turns,
        Stage::Places(_) => {
            if !is_in_row(&node.place) {
                return Next::Comes;
            }
            if needs_block(&node.stage) {
                return Next::Fetches;
            }
            Next::Places
        }
        Stage::Serves(_) => {
            if node.waits.is_some() {
                return Next::Waits;
            }
            if is_stub(&node.place) {
                return Next::Gathers;
            }
            if needs_block(&node.stage) {
                return Next::Fetches;
            }
            Next::Takes
        }
        Stage::Captures(_) => {
            if node.waits.is_none() {
                return Next::Takes;
            }
            Next::Waits
        }
        Stage::Reads(_) => Next::Waits,
        Stage::Ends(_) => {
            if node.children == 0 && at != 0 {
                return ends_by(&node.place);
            }
            Next::Waits
        }
    }
}
