// Which nodes can run, and whose jobs wait for an answer.
ghost use Rattle.std.specs.Prelude.{◌≡◌, ◌==◌};
ghost use Rattle.file_tree.specs.Tree.{tree_of};
ghost use Rattle.family_nodes.specs.Runs.{can_go, is_waiting as waits_for};

use crate::hear::waits;
use file_tree::Ask;
use node_line::node_turn::{Node, Stage};
use postpone_filter::Order;

/// Whether a job asks the tree with this number.
fn is_of(ask: &Ask, tree: u64) -> bool
    ensures { result ≡ (tree_of ask.now == tree) }
{
    match ask {
        Ask::Stat { path: _, of } => *of == tree,
        Ask::Read {
            path: _,
            start: _,
            count: _,
            of,
        } => *of == tree,
    }
}

/// Whether the job of a node, which asks this tree, waits for an answer.
pub fn is_waiting(node: &Node, tree: u64) -> bool
    ensures { result ≡ waits_for tree node.now }
{
    waits(&node.stage) && !node.over && is_of(&node.ask, tree)
}

/// Whether a node with this number can run, if only to be over.
pub fn can_run(order: &Order, at: u32, node: &Node) -> bool
    ensures { result ≡ can_go order.now at node.now }
{
    if node.over || node.asks.is_some() {
        return false;
    }
    match &node.stage {
        Stage::Begins(_) => true,
        Stage::Asks { wait: _, ssi: _ } => false,
        Stage::Told {
            wait: _,
            file: _,
            ssi: _,
        } => true,
        Stage::Places(body) => body.from == body.bytes.len() || 0 < order.room(at),
        Stage::Serves(_) => node.waits.is_none(),
        Stage::Reads(_) => false,
        Stage::Captures(_) => node.waits.is_none(),
        Stage::Ends(_) => node.children == 0 && at != 0,
    }
}
