// Nodes whose bytes come to one that has a stub, once its body is shown.
ghost use Rattle.std.specs.Prelude.{◌≡◌, ◌≢◌, ◌≤◌, ◌+◌, ◌++◌, ℕ, List, IfOk, IfSome, OnOk, is_none, true, Some, slice_get};
ghost use Rattle.node_line.specs.node_turn.declared.node.Node.{Node as NodeView};
ghost use Rattle.node_seats.specs.Joining.{AreClear, AreInner, IsCertain, IsComing, IsShownAt, ends_well as well_ended, gives_at, has_some, waits_well as well_waits, is_answered as answered, number_with, numbers_from, IsClearBy};
ghost use Rattle.node_seats.specs.Seats.{most_levels, stub_in, takes_up, withheld_text};

use crate::seats::{MOST_LEVELS, MOST_NODES, comes_beside, is_inner_in, is_withheld};
use byte_text::OutOfMemory;
use node_line::node_turn::{Node, Place, Stage};
use node_line::{has_bytes, is_good};
use std::alloc::Global;

/// Whether each node that a node waits for is there, and its bytes come to that one.
fn is_answered(nodes: &[Node], at: u32, node: &Node, levels: u32) -> bool
    ensures { result ≡ answered levels nodes.now at node.now }
{
    if levels == 0 {
        return false;
    }
    let Some(asked) = node.asks else {
        return true;
    };
    match nodes.get(asked as usize) {
        Some(child) => {
            is_withheld(&child.place)
                && child.parent == at
                && is_answered(nodes, asked, child, levels - 1)
        }
        None => false,
    }
}

/// Whether a node waits for no body but one that goes into a variable.
fn waits_well(node: &Node) -> bool
    ensures { result ≡ well_waits node.now }
{
    match &node.stage {
        Stage::Captures(_) => true,
        _ => node.asks.is_none(),
    }
}

/// Whether the answer of a node has a status below 400, however it goes on.
#[tactic(auto, unfolding(crate::specs::Seats::most_levels))]
fn ends_well(nodes: &[Node], at: u32, node: &Node) -> bool
    ensures { result ≡ well_ended nodes.now at node.now }
{
    is_good(&node.stage) && is_answered(nodes, at, node, MOST_LEVELS)
}

/// Whether a body comes to the parent of a node that has come to its answer, or a stub in its place.
fn gives(node: &Node) -> bool
    ensures { result ≡ gives_at node.now.stage node.now.place }
{
    let Stage::Ends(body) = &node.stage else {
        return false;
    };
    match &node.place {
        Place::Row => false,
        Place::Stub { stub: _, text: _ } => false,
        Place::Gathers { stub: _, text: _ } => false,
        Place::Captured { stub: None, text } => !text.is_empty(),
        Place::Captured {
            stub: Some(stub),
            text,
        } => !stub.is_empty() || (!text.is_empty() && body.answered.status < 400),
    }
}

/// The node with a stub that is shown where some bytes of the node with this number are certain, which is at most `levels` levels
/// below it, or is it; none where they aren't shown, or it isn't known.
#[cycle(shown)]
fn shown_from(nodes: &[Node], at: u32, levels: u32) -> Option<u32>
    ensures { IfSome result (λ root. (n : NodeView) (depth : ℕ) → slice_get nodes.now at ≡ Some n
        → depth + levels ≤ most_levels
        → (takes_up n.place ≡ true → IsCertain nodes.now depth at n) → IsShownAt nodes.now root) }
{
    let node = nodes.get(at as usize)?;
    match &node.place {
        Place::Row => None,
        Place::Stub { stub: _, text: _ } => None,
        Place::Gathers { stub: _, text } => {
            if text.is_empty() && waits_well(node) && ends_well(nodes, at, node) {
                return Some(at);
            }
            None
        }
        Place::Captured { stub, text: _ } => {
            if stub.is_some() && !ends_well(nodes, at, node) {
                return None;
            }
            shown_above(nodes, at, node.parent, levels)
        }
    }
}

/// The node with a stub that is shown where some bytes are certain that come from the node with this number to its parent.
#[cycle(shown)]
fn shown_above(nodes: &[Node], at: u32, parent: u32, levels: u32) -> Option<u32>
    ensures { IfSome result (λ root. (n : NodeView) (depth : ℕ) → slice_get nodes.now at ≡ Some n
        → n.parent ≡ parent → depth + levels ≤ most_levels → IsComing nodes.now depth at n
        → IsShownAt nodes.now root) }
{
    if levels == 0 || at >= MOST_NODES || !comes_beside(nodes, at) {
        return None;
    }
    shown_from(nodes, parent, levels - 1)
}

/// The node with a stub that is shown because of what the node with this number does next: it places bytes, or is over, and its
/// body or its stub comes to its parent.
pub fn shown_by(nodes: &[Node], at: u32) -> Option<u32>
    ensures { IfSome result (λ root. IsShownAt nodes.now root) }
{
    let node = nodes.get(at as usize)?;
    if node.asks.is_some() {
        return None;
    }
    if has_bytes(&node.stage) {
        return shown_from(nodes, at, MOST_LEVELS);
    }
    if gives(node) {
        return shown_above(nodes, at, node.parent, MOST_LEVELS);
    }
    None
}

/// Whether no stub may yet come in the place of the body of a node.
fn is_bare(place: &Place) -> bool
    ensures { result ≡ is_none (stub_in place.now) }
{
    match place {
        Place::Row => true,
        Place::Stub { stub: _, text: _ } => false,
        Place::Gathers { stub: _, text: _ } => false,
        Place::Captured { stub, text: _ } => stub.is_none(),
    }
}

/// Whether bytes of a node are withheld.
fn has_text(place: &Place) -> bool
    ensures { result ≡ has_some (withheld_text place.now) }
{
    match place {
        Place::Row => false,
        Place::Stub { stub: _, text } => !text.is_empty(),
        Place::Gathers { stub: _, text } => !text.is_empty(),
        Place::Captured { stub: _, text } => !text.is_empty(),
    }
}

/// Puts the numbers of the nodes that come to the row with a node in a list, from at most `levels` levels below it, in the order
/// of their bytes.
///
/// # Errors
/// `OutOfMemory`, also where bytes of them wait.
#[cycle(inner)]
fn put_inner_nodes(
    nodes: &[Node],
    at: u32,
    levels: u32,
    list: &mut Vec<u32>,
) -> Result<(), OutOfMemory>
    ensures numbers { OnOk result ((n : NodeView) → slice_get nodes.now at ≡ Some n
        → list.new.items ≡ list.old.items ++ numbers_from nodes.now levels at n) }
    ensures clear { OnOk result ((n : NodeView) → slice_get nodes.now at ≡ Some n
        → AreClear nodes.now levels at n) }
{
    if levels == 0 || nodes.len() > MOST_NODES as usize {
        return Err(OutOfMemory);
    }
    for child in at..nodes.len() as u32 {
        if is_inner_in(nodes, at, child) {
            put_inner_node(nodes, child, levels - 1, list)?;
        }
    }
    Ok(())
}

/// Puts the number of one of them in the list, after those that come with it.
#[cycle(inner)]
fn put_inner_node(
    nodes: &[Node],
    at: u32,
    levels: u32,
    list: &mut Vec<u32>,
) -> Result<(), OutOfMemory>
    ensures numbers { OnOk result ((n : NodeView) → slice_get nodes.now at ≡ Some n
        → list.new.items ≡ list.old.items
        ++ number_with (numbers_from nodes.now levels) at n (stub_in n.place)) }
    ensures clear { OnOk result ((n : NodeView) → slice_get nodes.now at ≡ Some n
        → IsClearBy (AreClear nodes.now levels) at n (stub_in n.place)) }
{
    let Some(node) = nodes.get(at as usize) else {
        return Err(OutOfMemory);
    };
    if !node.before.is_empty() {
        return Err(OutOfMemory);
    }
    if is_bare(&node.place) {
        if has_text(&node.place) || !waits_well(node) {
            return Err(OutOfMemory);
        }
        put_inner_nodes(nodes, at, levels, list)?;
    }
    list.push(at)?;
    Ok(())
}

/// The numbers of the nodes that come to the row with a node, in the order of their bytes.
///
/// # Errors
/// `OutOfMemory`, also where bytes of them wait.
#[tactic(auto, unfolding(crate::specs::Seats::most_levels))]
pub fn inner_nodes(alloc: Global, nodes: &[Node], at: u32) -> Result<Vec<u32>, OutOfMemory>
    ensures { IfOk result (λ list. AreInner nodes.now at list.items) }
{
    let mut list = Vec::new(alloc);
    put_inner_nodes(nodes, at, MOST_LEVELS + 1, &mut list)?;
    Ok(list)
}
