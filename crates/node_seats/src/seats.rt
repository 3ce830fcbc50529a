// Whether a node is where its steps are seen.
ghost use Rattle.std.specs.Prelude.{◌≡◌, slice_get};
ghost use Rattle.node_seats.specs.Seats.{IsNextInner, hears as hearing, inner_in, inner_of_its, is_asked as asked_for, is_captured, is_heard as heard, is_inner as inner_of, is_seated as has_seat, takes_up as takes_in};

use node_line::node_turn::{Node, Place};

/// Whether the bytes of a node come to its parent.
pub fn is_withheld(place: &Place) -> bool
    ensures { result ≡ is_captured place.now }
{
    match place {
        Place::Row => false,
        Place::Stub { stub: _, text: _ } => false,
        Place::Gathers { stub: _, text: _ } => false,
        Place::Captured { stub: _, text: _ } => true,
    }
}

/// Whether a node takes up the bytes of subrequests for which it doesn't wait.
fn takes_up(place: &Place) -> bool
    ensures { result ≡ takes_in place.now }
{
    match place {
        Place::Row => false,
        Place::Stub { stub: _, text: _ } => false,
        Place::Gathers { stub: _, text: _ } => true,
        Place::Captured { stub: _, text: _ } => true,
    }
}

/// Whether the subrequest with this number is the one for whose body a node waits.
fn is_asked(child: u32, asks: Option<u32>) -> bool
    ensures { result ≡ asked_for child asks }
{
    match asks {
        Some(asked) => asked == child,
        None => false,
    }
}

/// No node has this number or a higher one.
pub(crate) const MOST_NODES: u32 = 1001;

/// Whether the bytes of the second of these nodes, with their numbers, come to the first, which has opened it and doesn't wait
/// for them; it isn't over.
fn is_inner(at: u32, node: &Node, child: u32, inner: &Node) -> bool
    ensures { result ≡ inner_of at node.now child inner.now }
{
    is_withheld(&inner.place)
        && inner.parent == at
        && at < child
        && !inner.over
        && !is_asked(child, node.asks)
}

/// Whether the bytes of the second of the nodes with these numbers come so to the first.
pub(crate) fn is_inner_in(nodes: &[Node], at: u32, child: u32) -> bool
    ensures { result ≡ inner_in at (slice_get nodes.now at) child (slice_get nodes.now child) }
{
    let Some(node) = nodes.get(at as usize) else {
        return false;
    };
    let Some(inner) = nodes.get(child as usize) else {
        return false;
    };
    is_inner(at, node, child, inner)
}

/// The first node, with this number or a higher one, whose bytes come to the node with the number `at`, which has opened it and
/// doesn't wait for them; it isn't over.
pub fn next_inner(nodes: &[Node], at: u32, from: u32) -> Option<u32>
    ensures { IsNextInner nodes.now at from result }
{
    for child in from..MOST_NODES {
        if child as usize >= nodes.len() {
            return None;
        }
        if is_inner_in(nodes, at, child) {
            return Some(child);
        }
    }
    None
}

/// Whether the bytes of the node with this number come to its parent, which doesn't wait for them.
pub fn comes_beside(nodes: &[Node], at: u32) -> bool
    ensures { result ≡ inner_of_its nodes.now at (slice_get nodes.now at) }
{
    match nodes.get(at as usize) {
        Some(node) => is_inner_in(nodes, node.parent, at),
        None => false,
    }
}

/// Whether a node with this number goes on, and takes up the bytes of the subrequest with that number.
#[tactic(auto, unfolding(crate::specs::Seats::most_nodes))]
fn hears(at: u32, node: &Node, child: u32) -> bool
    ensures { result ≡ hearing at child node.now }
{
    !node.over
        && (is_asked(child, node.asks)
            || (takes_up(&node.place) && at < child && child < MOST_NODES))
}

/// Whether the bytes of a node with this number, which is at most `levels` levels below the main request, are seen: the
/// node is in the row or in a line of its own, or its bytes come to a node that waits for them and whose own are seen.
fn is_heard(nodes: &[Node], at: u32, node: &Node, levels: u32) -> bool
    ensures { result ≡ heard levels nodes.now at node.now }
{
    if is_withheld(&node.place) {
        if levels == 0 {
            return false;
        }
        return match nodes.get(node.parent as usize) {
            None => false,
            Some(above) => hears(node.parent, above, at)
                && is_heard(nodes, node.parent, above, levels - 1),
        };
    }
    true
}

/// No subrequest is more levels below the main request: the numbers of nodes rise from level to level.
pub(crate) const MOST_LEVELS: u32 = 1001;

/// Whether a node goes on by itself: it waits for no body of a subrequest; and where its own bytes come to its parent, that waits
/// for them, and so on.
#[tactic(auto, unfolding(crate::specs::Seats::most_levels))]
pub fn is_seated(nodes: &[Node], at: u32) -> bool
    ensures { result ≡ has_seat nodes.now at (slice_get nodes.now at) }
{
    match nodes.get(at as usize) {
        Some(node) => node.asks.is_none() && is_heard(nodes, at, node, MOST_LEVELS),
        None => false,
    }
}
