// Subrequests that open: beside their parent, in its body, or because it waits for theirs.
ghost use Rattle.std.specs.Prelude.{◌≡◌, ◌≢◌, ◌<◌, ◌+◌, List, length, OnOk, None, true, slice_get};
ghost use Rattle.ngx_pattern.specs.Pattern.{Pattern as SetPattern};
ghost use Rattle.node_line.specs.node_turn.Stages.{is_in_row as in_row};
ghost use Rattle.subrequests.specs.Families.{goes_on_at};
ghost use Rattle.subrequests.specs.Moved.{AsksAt, InnerAt, IsWhole, OpensAt, SameFiles};

use crate::child::{push_child, put_asks, put_child, put_inner};
use crate::family::{Family, MOST_NODES};
use crate::next_step::is_in_row;
use byte_text::OutOfMemory;
use family_order::shows_the_same;
use node_line::node_turn::{Node, Withheld};
use node_line::request_phases::Ground;
use node_line::ssi_exec::Child;
use std::alloc::Global;

/// Whether a node may have one more subrequest, where there are `count` nodes.
fn may_ask(node: &Node, count: usize) -> bool
    ensures free { result ≡ true → node.now.asks ≡ None }
    ensures deep { result ≡ true → node.now.left ≢ 0 }
    ensures few { result ≡ true → count < 1001 }
{
    node.asks.is_none() && node.left > 0 && count < MOST_NODES
}

/// Whether a node whose bytes go to the row may open a subrequest beside it, where there are `count` nodes.
fn may_open(node: &Node, count: usize) -> bool
    ensures row { result ≡ true → in_row node.now.place ≡ true }
    ensures free { result ≡ true → node.now.asks ≡ None }
    ensures deep { result ≡ true → node.now.left ≢ 0 }
    ensures few { result ≡ true → count < 1001 }
{
    is_in_row(&node.place) && may_ask(node, count)
}

impl Family {
    /// A subrequest of a node opens, where the node has come to.
    pub(crate) fn open_at(
        &mut self,
        alloc: Global,
        ground: &Ground<'_>,
        at: u32,
        child: Child,
    ) -> Result<(), OutOfMemory>
        requires whole { IsWhole self.old }
        requires there { goes_on_at (slice_get self.old.nodes at) ≡ true }
        ensures opens { (patterns : List SetPattern) → OnOk result
            (OpensAt patterns ground.now at child self.old self.new) }
        ensures files { OnOk result (SameFiles self.old self.new) }
        ensures grows { OnOk result
            (length self.new.nodes ≡ length self.old.nodes + 1) }
        ensures whole { OnOk result (IsWhole self.new) }
        ensures tree { OnOk result (self.new.tree ≡ self.old.tree) }
        ensures main { OnOk result (self.new.main ≡ self.old.main) }
    {
        shows_the_same();
        if !may_open(self.nodes.node_at(at as usize), self.nodes.len()) {
            return Err(OutOfMemory);
        }
        let id = self.order.add_child(alloc, at)?;
        put_child(self.nodes.node_mut(at as usize), id, child.waited);
        push_child(alloc, ground.server.level, &mut self.nodes, at, child, None)?;
        Ok(())
    }

    /// A subrequest opens of a node whose bytes come to its parent: those of the subrequest come where
    /// the node has come to, and it goes on. The subrequest has a place in the order at which nothing is
    /// placed.
    #[inline(never)]
    pub(crate) fn inner_at(
        &mut self,
        alloc: Global,
        ground: &Ground<'_>,
        at: u32,
        child: Child,
    ) -> Result<(), OutOfMemory>
        requires whole { IsWhole self.old }
        requires there { goes_on_at (slice_get self.old.nodes at) ≡ true }
        ensures opens { OnOk result (InnerAt at child self.old self.new) }
        ensures whole { OnOk result (IsWhole self.new) }
        ensures tree { OnOk result (self.new.tree ≡ self.old.tree) }
        ensures same { OnOk result
            ((self.new.main ≡ self.old.main) × (self.new.vars ≡ self.old.vars)) }
    {
        if !may_ask(self.nodes.node_at(at as usize), self.nodes.len()) {
            return Err(OutOfMemory);
        }
        let id = self.order.add_child(alloc, at)?;
        let before = put_inner(alloc, self.nodes.node_mut(at as usize), id, child.waited)?;
        push_child(
            alloc,
            ground.server.level,
            &mut self.nodes,
            at,
            child,
            Some(before),
        )?;
        Ok(())
    }

    /// A subrequest of a node opens for whose body it waits, where the node has come to. It has a
    /// place in the order at which nothing is placed.
    #[inline(never)]
    pub(crate) fn ask_at(
        &mut self,
        alloc: Global,
        ground: &Ground<'_>,
        at: u32,
        child: Child,
    ) -> Result<(), OutOfMemory>
        requires whole { IsWhole self.old }
        requires there { goes_on_at (slice_get self.old.nodes at) ≡ true }
        ensures asks { OnOk result (AsksAt at child self.old self.new) }
        ensures whole { OnOk result (IsWhole self.new) }
        ensures tree { OnOk result (self.new.tree ≡ self.old.tree) }
        ensures same { OnOk result
            ((self.new.main ≡ self.old.main) × (self.new.vars ≡ self.old.vars)) }
    {
        if !may_ask(self.nodes.node_at(at as usize), self.nodes.len()) {
            return Err(OutOfMemory);
        }
        let id = self.order.add_child(alloc, at)?;
        put_asks(self.nodes.node_mut(at as usize), id);
        push_child(
            alloc,
            ground.server.level,
            &mut self.nodes,
            at,
            child,
            Some(Withheld::new(alloc)),
        )?;
        Ok(())
    }
}
