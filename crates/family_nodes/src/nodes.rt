// The nodes of a family, each with a mark that says where there is nothing to look for.
ghost use Rattle.std.specs.Prelude.{◌≡◌, ◌<◌, ◌≤◌, ◌++◌, ◌∷◌, ℕ, [], false, length, OnOk, Some, slice_get, slice_index_or, slice_set};
ghost use Rattle.std.specs.Borrow.{sem};
ghost use Rattle.postpone_filter.specs.Row.{Row};
ghost use Rattle.family_nodes.specs.Runs.{may_go, runs_at, waits_at};
ghost use Rattle.family_nodes.specs.Marks.{IsMarked};

use crate::hear::waits;
use byte_text::OutOfMemory;
use memchr::{memchr, memchr2};
use node_line::node_turn::{Node, Stage};
use std::alloc::Global;
use std::marker::Model;

/// Nothing is known of a node.
const UNKNOWN: u8 = 0;

/// A node can't run as it is, whatever room there is for its bytes.
const RESTS: u8 = 1;

/// It can't run, and has no job that waits.
const RESTS_WITHOUT_JOB: u8 = 2;

/// The nodes of a family by their numbers. Contracts see the list of them. Each has a mark, which says what isn't
/// to be looked for at it: so the first node that can run, or that has a job, is found by a search of bytes.
/// A node that may change has no mark until it rests.
#[derive(Drop)]
pub struct Nodes {
    all: Vec<Node>,
    marks: Vec<u8>,
}

impl Model for Nodes {
    ghost use Rattle.std.specs.Prelude.{List};
    ghost use Rattle.node_line.specs.node_turn.declared.node.Node.{Node};

    ghost Value = { List Node };

    ghost use Rattle.family_nodes.specs.Marks.{AreMarked};

    ghost view = { λ nodes. nodes.all.items };

    ghost invariant = { λ nodes. AreMarked nodes.marks.items nodes.all.items };
}

/// Whether a node with this number can run where there is room for its bytes.
fn may_go(at: u32, node: &Node) -> bool
    ensures { result ≡ may_go at node.now }
{
    if node.over || node.asks.is_some() {
        return false;
    }
    match &node.stage {
        Stage::Begins(_) => true,
        Stage::Asks { wait: _, ssi: _ } => false,
        Stage::Told {
            wait: _,
            file: _,
            ssi: _,
        } => true,
        Stage::Places(_) => true,
        Stage::Serves(_) => node.waits.is_none(),
        Stage::Reads(_) => false,
        Stage::Captures(_) => node.waits.is_none(),
        Stage::Ends(_) => node.children == 0 && at != 0,
    }
}

/// What is known of a node with this number as it is.
fn mark_of(at: u32, node: &Node) -> u8
    ensures { IsMarked result at (Some node.now) }
{
    if may_go(at, node) {
        return UNKNOWN;
    }
    if waits(&node.stage) && !node.over {
        return RESTS;
    }
    RESTS_WITHOUT_JOB
}

/// Puts a mark at a number, where there is one already.
fn set_mark(marks: &mut Vec<u8>, at: usize, mark: u8)
    ensures { marks.new.items ≡ slice_set marks.old.items at mark }
{
    if at < marks.len() {
        marks[at] = mark;
    }
}

impl Nodes {
    ghost use Rattle.family_nodes.specs.Lending.{LendsNode};

    /// No nodes.
    pub fn new(alloc: Global) -> Nodes
        ensures { result ≡ [] }
    {
        Nodes {
            all: Vec::new(alloc),
            marks: Vec::new(alloc),
        }
    }

    /// Makes room for this many more nodes, so that one growth serves them all.
    pub fn reserve(&mut self, additional: usize) -> Result<(), OutOfMemory>
        ensures { self.new ≡ self.old }
    {
        self.all.reserve(additional)?;
        self.marks.reserve(additional)?;
        Ok(())
    }

    pub fn len(&self) -> usize
        ensures { result ≡ length self.now }
    {
        self.all.len()
    }

    pub fn as_slice(&self) -> &[Node]
        ensures value { result.now ≡ self.now }
    {
        self.all.as_slice()
    }

    /// The node with this number.
    pub fn node_at(&self, at: usize) -> &Node
        requires { at < length self.now }
        ensures { result.now ≡ slice_index_or self.now at result.now }
    {
        &self.all[at]
    }

    /// The node with this number, of which nothing is known from now on.
    pub fn node_mut(&mut self, at: usize) -> &mut Node
        requires { at < length self.old }
        ensures* writes_back { sem 𝓛 (LendsNode self.entry at result) }
        ensures value { result.now ≡ slice_index_or self.old at result.now }
    {
        set_mark(&mut self.marks, at, UNKNOWN);
        &mut self.all[at]
    }

    /// Puts a node after all others. It is moved once, to room that is there.
    #[inline(always)]
    pub fn push(&mut self, node: Node) -> Result<(), OutOfMemory>
        ensures items { OnOk result (self.new ≡ self.old ++ node ∷ []) }
    {
        self.all.reserve(1)?;
        self.marks.push(UNKNOWN)?;
        self.all.push_reserved(node);
        Ok(())
    }

    /// Marks the node with this number by what is known of it as it is.
    pub fn mark(&mut self, at: u32)
        ensures { self.new ≡ self.old }
    {
        if (at as usize) < self.all.len() {
            let mark = mark_of(at, &self.all[at as usize]);
            set_mark(&mut self.marks, at as usize, mark);
        }
    }

    /// The first number from this one on whose node may run, for all that is known; a number after all nodes, where
    /// there is none.
    #[inline(always)]
    pub fn next_awake(&self, from: usize) -> usize
        ensures from { from ≤ result }
        ensures rest { (row : Row) (at : ℕ) → from ≤ at → at < result
            → runs_at row at (slice_get self.now at) ≡ false }
    {
        let marks = self.marks.as_slice();
        if marks.len() <= from {
            return from;
        }
        match memchr(UNKNOWN, &marks[from..]) {
            Some(further) => from + further,
            None => marks.len(),
        }
    }

    /// The first number from this one on whose node may have a job, for all that is known; a number after all nodes,
    /// where there is none.
    #[inline(always)]
    pub fn next_asking(&self, from: usize) -> usize
        ensures from { from ≤ result }
        ensures rest { (tree at : ℕ) → from ≤ at → at < result
            → waits_at tree (slice_get self.now at) ≡ false }
    {
        let marks = self.marks.as_slice();
        if marks.len() <= from {
            return from;
        }
        match memchr2(UNKNOWN, RESTS, &marks[from..]) {
            Some(further) => from + further,
            None => marks.len(),
        }
    }
}
