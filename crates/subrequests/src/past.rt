// Subrequests of a main request that are over before its body begins.
ghost use Rattle.std.specs.Prelude.{◌≡◌, ◌+◌, OnOk, true};
ghost use Rattle.postpone_filter.specs.Row.{begun, ended, is_open, with_child};
ghost use Rattle.subrequests.specs.Families.{ArePast, first_row, is_past};

use crate::child::child_phases;
use byte_text::{ByteText, OutOfMemory};
use family_nodes::Nodes;
use file_tree::Ask;
use http_types::Method;
use node_line::node_turn::{Node, Place, Stage, Withheld};
use node_line::ssi_values::Table;
use postpone_filter::Order;
use std::alloc::Global;

/// The node of a subrequest of the main request that is over: nothing of it is looked at any more
/// but that.
fn past_node(alloc: Global) -> Node
    ensures { is_past result ≡ true }
{
    let path = ByteText::new(alloc);
    let args = ByteText::new(alloc);
    Node {
        parent: 0,
        left: 0,
        children: 0,
        waits: None,
        asks: None,
        place: Place::Row,
        before: Withheld::new(alloc),
        phases: child_phases(alloc, 0, Method::Get, path, args),
        ask: Ask::Stat {
            path: ByteText::new(alloc),
            of: 0,
        },
        start: 0,
        stage: Stage::Begins(Table::new(alloc)),
        over: true,
    }
}

/// Puts a subrequest of the main request that is over after all other nodes: it has its number in
/// the order, and its node.
fn put_past(alloc: Global, order: &mut Order, nodes: &mut Nodes) -> Result<(), OutOfMemory>
    requires { is_open 0 order.old.pieces ≡ true }
    ensures order { OnOk result
        (order.new ≡ ended order.old.nodes (with_child 0 order.old)) }
    ensures nodes { OnOk result (ArePast nodes.old nodes.new 1) }
{
    let id = order.add_child(alloc, 0)?;
    order.end(id);
    nodes.push(past_node(alloc))?;
    nodes.mark(id);
    Ok(())
}

/// Puts as many such subrequests after the main request, which has placed nothing.
pub(crate) fn put_all_past(
    alloc: Global,
    order: &mut Order,
    nodes: &mut Nodes,
    count: u8,
) -> Result<(), OutOfMemory>
    requires { order.old ≡ begun }
    ensures order { OnOk result (order.new ≡ first_row (1 + count)) }
    ensures nodes { OnOk result (ArePast nodes.old nodes.new count) }
{
    for _past in 0..count {
        put_past(alloc, order, nodes)?;
    }
    Ok(())
}
