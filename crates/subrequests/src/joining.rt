// Nodes with a stub, to which bytes of their subrequests come: until it is known whether their body is shown, and then.
ghost use Rattle.std.specs.Prelude.{◌≡◌, List, IfOk, OnOk, true, false, slice_get};
ghost use Rattle.ngx_pattern.specs.Pattern.{Pattern as SetPattern};
ghost use Rattle.node_line.specs.request_phases.declared.ground.Ground.{Ground as GroundView};
ghost use Rattle.node_line.specs.node_turn.Stages.{is_ending, is_serving};
ghost use Rattle.subrequests.specs.Families.{goes_on_at, gathers_at, stub_at};
ghost use Rattle.node_seats.specs.Seats.{is_seated as has_seat};
ghost use Rattle.node_seats.specs.Joining.{IsShownAt, Joins, JoinsOne};
ghost use Rattle.subrequests.specs.Moved.{IsWhole, Steps, stands};

use crate::family::Family;
use crate::returning::{put_freed, put_gathering, put_joined, put_row};
use byte_text::OutOfMemory;
use family_order::shows_the_same;
use node_seats::{inner_nodes, is_withheld, shown_by};
use std::alloc::Global;

impl Family {
    /// A node that has a stub is at its page: bytes of its subrequests come to it from now on.
    pub(crate) fn gather_at(&mut self, at: u32) -> Result<(), OutOfMemory>
        requires whole { IsWhole self.old }
        requires there { stands is_serving self.old at }
        requires seated { has_seat self.old.nodes at (slice_get self.old.nodes at)
            ≡ true }
        requires stub { stub_at (slice_get self.old.nodes at) ≡ true }
        ensures steps { OnOk result ((patterns : List SetPattern) (g : GroundView) →
            Steps patterns g self.old self.new) }
        ensures whole { OnOk result (IsWhole self.new) }
        ensures tree { OnOk result (self.new.tree ≡ self.old.tree) }
    {
        shows_the_same();
        if self.next_inner_of(at, 0).is_some() {
            return Err(OutOfMemory);
        }
        put_gathering(self.nodes.node_mut(at as usize));
        Ok(())
    }

    /// A node that has a stub has come to its answer, and no subrequest is left whose bytes come to it.
    pub(crate) fn free_at(&mut self, at: u32) -> Result<(), OutOfMemory>
        requires whole { IsWhole self.old }
        requires there { stands is_ending self.old at }
        requires seated { has_seat self.old.nodes at (slice_get self.old.nodes at)
            ≡ true }
        requires gathers { gathers_at (slice_get self.old.nodes at) ≡ true }
        ensures steps { OnOk result ((patterns : List SetPattern) (g : GroundView) →
            Steps patterns g self.old self.new) }
        ensures whole { OnOk result (IsWhole self.new) }
        ensures tree { OnOk result (self.new.tree ≡ self.old.tree) }
    {
        shows_the_same();
        if self.next_inner_of(at, 0).is_some() {
            return Err(OutOfMemory);
        }
        put_freed(self.nodes.node_mut(at as usize));
        Ok(())
    }

    /// A node is shown that has a stub: it goes on in the row, and before it the subrequests whose bytes
    /// come to it, each at its place.
    #[inline(never)]
    fn join_at(&mut self, alloc: Global, at: u32) -> Result<(), OutOfMemory>
        requires whole { IsWhole self.old }
        requires shown { IsShownAt self.old.nodes at }
        requires there { goes_on_at (slice_get self.old.nodes at) ≡ true }
        ensures steps { OnOk result ((patterns : List SetPattern) (g : GroundView) →
            Steps patterns g self.old self.new) }
        ensures whole { OnOk result (IsWhole self.new) }
        ensures tree { OnOk result (self.new.tree ≡ self.old.tree) }
    {
        shows_the_same();
        let inner = inner_nodes(alloc, self.nodes.as_slice(), at)?;
        self.join_all(at, inner.as_slice())?;
        put_row(self.nodes.node_mut(at as usize));
        Ok(())
    }

    /// Nodes whose bytes came to their parents go on in the row, one after another, each right before the
    /// place of the node with the number `at`.
    fn join_all(&mut self, at: u32, numbers: &[u32]) -> Result<(), OutOfMemory>
        ensures joins { OnOk result (Joins at numbers.now self.old.order self.old.nodes
            self.new.order self.new.nodes) }
        ensures whole { OnOk result (IsWhole self.old → IsWhole self.new) }
        ensures others { OnOk result ((self.new.main ≡ self.old.main)
            × (self.new.vars ≡ self.old.vars) × (self.new.tree ≡ self.old.tree)) }
    {
        for &id in numbers {
            self.join_inner(at, id)?;
        }
        Ok(())
    }

    /// A node whose bytes came to its parent goes on in the row, right before the place of the node with
    /// the number `at`.
    fn join_inner(&mut self, at: u32, id: u32) -> Result<(), OutOfMemory>
        ensures joins { OnOk result
            (JoinsOne at id self.old.order self.old.nodes self.new.order self.new.nodes) }
        ensures whole { OnOk result (IsWhole self.old → IsWhole self.new) }
        ensures others { OnOk result ((self.new.main ≡ self.old.main)
            × (self.new.vars ≡ self.old.vars) × (self.new.tree ≡ self.old.tree)) }
    {
        let Some(node) = self.nodes.as_slice().get(id as usize) else {
            return Err(OutOfMemory);
        };
        if !is_withheld(&node.place) || node.over {
            return Err(OutOfMemory);
        }
        self.order.end(id);
        self.order.reopen(at, id)?;
        put_joined(self.nodes.node_mut(id as usize));
        Ok(())
    }

    /// Whether a node with a stub is shown because of what a node does next: it and those whose bytes come
    /// to it are then in the row.
    pub(crate) fn joins_by(&mut self, alloc: Global, at: u32) -> Result<bool, OutOfMemory>
        requires whole { IsWhole self.old }
        ensures steps { IfOk result (λ joins. joins ≡ true → (patterns : List SetPattern)
            (g : GroundView) → Steps patterns g self.old self.new) }
        ensures whole { IfOk result (λ joins. joins ≡ true → IsWhole self.new) }
        ensures same { IfOk result (λ joins. joins ≡ false → self.new ≡ self.old) }
        ensures tree { OnOk result (self.new.tree ≡ self.old.tree) }
    {
        let Some(root) = shown_by(self.nodes.as_slice(), at) else {
            return Ok(false);
        };
        match self.nodes.as_slice().get(root as usize) {
            Some(node) if !node.over => {
                self.join_at(alloc, root)?;
                Ok(true)
            }
            _ => Err(OutOfMemory),
        }
    }
}
