// Subrequests that are over, and where their bytes come.
ghost use Rattle.std.specs.Prelude.{◌≡◌, ◌≢◌, List, OnOk, true, false, slice_get};
ghost use Rattle.ngx_pattern.specs.Pattern.{Pattern as SetPattern};
ghost use Rattle.node_line.specs.request_phases.declared.ground.Ground.{Ground as GroundView};
ghost use Rattle.node_line.specs.node_turn.Stages.{is_ending};
ghost use Rattle.subrequests.specs.Families.{captured_at, goes_on_at, in_row_at};
ghost use Rattle.node_seats.specs.Seats.{IsNextInner, NoInner, inner_of_its, is_seated as has_seat, most_nodes};
ghost use Rattle.subrequests.specs.Moved.{IsWhole, Steps, stands};

use crate::family::Family;
use crate::returning::{both, put_before, put_first, put_reply, take_before, taken};
use byte_text::OutOfMemory;
use family_order::shows_the_same;
use node_line::decides;
use node_line::node_turn::{Stage, put};
use node_line::ssi_values::Table;
use node_seats::{comes_beside, next_inner};
use std::alloc::Global;

impl Family {
    /// A node that has come to its answer is over: the number of its parent. What its body kept goes, so that the next
    /// subrequest takes its room.
    pub(crate) fn close_at(&mut self, alloc: Global, at: u32) -> u32
        requires whole { IsWhole self.old }
        requires there { stands is_ending self.old at }
        requires seated { has_seat self.old.nodes at (slice_get self.old.nodes at)
            ≡ true }
        requires row { in_row_at (slice_get self.old.nodes at) ≡ true }
        requires child { at ≢ 0 }
        ensures steps { (patterns : List SetPattern) (g : GroundView) →
            Steps patterns g self.old self.new }
        ensures whole { IsWhole self.new }
        ensures ended { goes_on_at (slice_get self.new.nodes at) ≡ false }
        ensures tree { self.new.tree ≡ self.old.tree }
    {
        shows_the_same();
        self.order.end(at);
        let node = self.nodes.node_mut(at as usize);
        node.over = true;
        put(&mut node.stage, Stage::Begins(Table::new(alloc)));
        node.parent
    }

    /// A node with a stub that has come to its answer is over: the number of its parent.
    #[inline(never)]
    pub(crate) fn decide_at(&mut self, at: u32) -> Result<u32, OutOfMemory>
        requires whole { IsWhole self.old }
        requires there { stands is_ending self.old at }
        requires seated { has_seat self.old.nodes at (slice_get self.old.nodes at)
            ≡ true }
        requires apart { in_row_at (slice_get self.old.nodes at) ≡ false }
        requires child { at ≢ 0 }
        ensures steps { OnOk result ((patterns : List SetPattern) (g : GroundView) →
            Steps patterns g self.old self.new) }
        ensures whole { OnOk result (IsWhole self.new) }
        ensures ended { OnOk result
            (goes_on_at (slice_get self.new.nodes at) ≡ false) }
        ensures tree { OnOk result (self.new.tree ≡ self.old.tree) }
    {
        shows_the_same();
        let node = self.nodes.node_mut(at as usize);
        decides(&mut self.order, at, node)?;
        Ok(node.parent)
    }

    /// A node for whose body its parent waits has come to its answer: it is over, and its parent,
    /// whose number this is, has its bytes, or its stub in their place.
    #[inline(never)]
    pub(crate) fn return_at(&mut self, alloc: Global, at: u32) -> Result<u32, OutOfMemory>
        requires whole { IsWhole self.old }
        requires there { stands is_ending self.old at }
        requires withheld { captured_at (slice_get self.old.nodes at) ≡ true }
        requires seated { has_seat self.old.nodes at (slice_get self.old.nodes at)
            ≡ true }
        requires child { at ≢ 0 }
        ensures steps { OnOk result ((patterns : List SetPattern) (g : GroundView) →
            Steps patterns g self.old self.new) }
        ensures whole { OnOk result (IsWhole self.new) }
        ensures ended { OnOk result
            (goes_on_at (slice_get self.new.nodes at) ≡ false) }
        ensures tree { OnOk result (self.new.tree ≡ self.old.tree) }
    {
        shows_the_same();
        if self.next_inner_of(at, 0).is_some() {
            return Err(OutOfMemory);
        }
        if self.is_inner_at(at) {
            return Ok(self.include_at(alloc, at)?);
        }
        self.order.end(at);
        let node = self.nodes.node_mut(at as usize);
        let text = taken(alloc, &node.stage, &mut node.place)?;
        node.over = true;
        let parent = node.parent;
        if parent as usize >= self.nodes.len() {
            return Err(OutOfMemory);
        }
        put_reply(alloc, self.nodes.node_mut(parent as usize), text)?;
        Ok(parent)
    }

    /// The first subrequest of a node, with this number or above, whose bytes come to it and for which
    /// it doesn't wait.
    pub(crate) fn next_inner_of(&self, at: u32, from: u32) -> Option<u32>
        ensures { IsNextInner self.now.nodes at from result }
    {
        next_inner(self.nodes.as_slice(), at, from)
    }

    /// Whether the bytes of a node come to its parent, which doesn't wait for them.
    fn is_inner_at(&self, at: u32) -> bool
        ensures { result ≡ inner_of_its self.now.nodes at (slice_get self.now.nodes at) }
    {
        comes_beside(self.nodes.as_slice(), at)
    }

    /// A node whose bytes come to its parent, which doesn't wait for them, has come to its answer: it is
    /// over, and its bytes, or its stub in their place, come before those of the next subrequest of its
    /// parent, whose number this is, or the parent's own.
    #[inline(never)]
    fn include_at(&mut self, alloc: Global, at: u32) -> Result<u32, OutOfMemory>
        requires whole { IsWhole self.old }
        requires there { stands is_ending self.old at }
        requires inner { inner_of_its self.old.nodes at (slice_get self.old.nodes at) ≡ true }
        requires bare { NoInner self.old.nodes at 0 most_nodes }
        requires seated { has_seat self.old.nodes at (slice_get self.old.nodes at)
            ≡ true }
        requires child { at ≢ 0 }
        ensures steps { OnOk result ((patterns : List SetPattern) (g : GroundView) →
            Steps patterns g self.old self.new) }
        ensures whole { OnOk result (IsWhole self.new) }
        ensures ended { OnOk result
            (goes_on_at (slice_get self.new.nodes at) ≡ false) }
        ensures tree { OnOk result (self.new.tree ≡ self.old.tree) }
    {
        shows_the_same();
        self.order.end(at);
        let node = self.nodes.node_mut(at as usize);
        let text = taken(alloc, &node.stage, &mut node.place)?;
        let parent = node.parent;
        let before = take_before(alloc, node);
        let text = both(before, text)?;
        match self.next_inner_of(parent, at) {
            Some(next) => {
                if next as usize >= self.nodes.len() {
                    return Err(OutOfMemory);
                }
                put_before(alloc, self.nodes.node_mut(next as usize), text)?;
                Ok(parent)
            }
            None => {
                if parent as usize >= self.nodes.len() {
                    return Err(OutOfMemory);
                }
                put_first(alloc, self.nodes.node_mut(parent as usize), text)?;
                Ok(parent)
            }
        }
    }
}
