// The order of a response.
ghost use Rattle.std.specs.Prelude.{◌≡◌, ℕ, ◌+◌, ◌-◌, ◌<◌, ◌≤◌, true, false, List, [], ◌∷◌, ◌++◌, ◌==◌, length, min, take, if◌then◌else◌, IfOk, IfSome, None, OnOk, OnErr};
ghost use Rattle.postpone_filter.specs.Row.{Row, begun, room, is_open, appended, with_child, reopened, ended, used, front_of, is_first, FirstGives, bytes_of, most};
ghost use Rattle.postpone_filter.specs.Runs.{filled, giving};
ghost use Rattle.postpone_filter.specs.Buffers.{IsLawful, is_kept};

use crate::node::Node;
use crate::part::{
    Part, clean_front, close, first_is, front_bytes, is_named_from, place_of, put_again, put_bytes,
    put_child, put_text, use_front,
};
use byte_text::{ByteText, OutOfMemory};
use std::alloc::Global;
use std::collections::VecDeque;
use std::marker::Model;

/// From the beginning there is room for this many nodes, and for two pieces and a place of each.
const FEW_NODES: usize = 12;

const FEW_PARTS: usize = 32;

/// The order of a response: which node's bytes leave next, and what waits after them.
///
/// The main request is node 0; each subrequest is a node with the next number, and its place is where its parent had
/// come to when it was added. Contracts see the row of pieces of bytes that wait, in the order in which they leave,
/// with the places where nodes go on (`Row`).
///
/// A node's buffer is taken with its first byte, grows to at most 32768 bytes, and is given back as soon as the node has
/// ended and no byte of it waits (`has_buffer`). All else that is kept is a few words for each node and for each piece.
#[derive(Drop)]
pub struct Order {
    parts: VecDeque<Part>,
    /// How many parts have left the row at its front.
    passed: usize,
    nodes: Vec<Node>,
}

impl Model for Order {
    ghost use Rattle.std.specs.Prelude.{◌≡◌, false, length};
    ghost use Rattle.postpone_filter.specs.Row.{Row};
    ghost use Rattle.postpone_filter.specs.Buffers.{AreTied, pieces_of, starts_over};

    ghost Value = { Row };

    ghost view = { λ o. record {
      pieces = pieces_of o.parts.items o.nodes.items;
      nodes = length o.nodes.items;
    } };

    ghost invariant = { λ o. AreTied o.parts.items o.nodes.items
        × (starts_over (pieces_of o.parts.items o.nodes.items) ≡ false) };
}

/// Whether a node has a buffer, so that no text can be its buffer.
fn has_buffer(nodes: &[Node], id: u32) -> bool {
    match nodes.get(id as usize) {
        Some(node) => node.has_buffer(),
        None => false,
    }
}

impl Order {
    /// The order of a new response: node 0, which has placed nothing.
    pub fn new(alloc: Global) -> Result<Order, OutOfMemory>
        ensures { IfOk result (λ order. order ≡ begun) }
    {
        let mut parts = VecDeque::new(alloc);
        parts.reserve(FEW_PARTS)?;
        parts.push_back(Part::fresh(0))?;
        let mut nodes = Vec::new(alloc);
        nodes.reserve(FEW_NODES)?;
        nodes.push(Node::new(alloc, 0))?;
        Ok(Order {
            parts,
            passed: 0,
            nodes,
        })
    }

    /// Puts the first of these bytes, as many as fit, where the node has come to, and answers how many. A node that has
    /// ended takes none. After want of memory all is as before.
    #[inline(always)]
    pub fn append(&mut self, id: u32, bytes: &[u8]) -> Result<usize, OutOfMemory>
        ensures count { IfOk result (λ count. count
            ≡ min (length bytes.now) (room id self.old.pieces)) }
        ensures row { IfOk result (λ count. self.new
            ≡ appended id (take count bytes.now) self.old) }
        ensures order { IfOk result (λ count. (gives : ℕ → List ℕ)
            → filled (giving id (λ text. take count bytes.now ++ text) gives) self.old.pieces
            ≡ filled gives self.new.pieces) }
        ensures opened { OnOk result ((j : ℕ) →
            is_open j self.new.pieces ≡ is_open j self.old.pieces) }
        ensures err { OnErr result (self.new ≡ self.old) }
    {
        match place_of(&self.parts, self.passed, &mut self.nodes, id) {
            Some(at) => Ok(put_bytes(&mut self.parts, &mut self.nodes, at, id, bytes)?),
            None => Ok(0),
        }
    }

    /// Puts this text where the node has come to, with no copy, where nothing of the node has waited yet and all of it may
    /// wait; else gives it back, and all is as before.
    #[inline(always)]
    pub fn take_over(&mut self, id: u32, text: ByteText) -> Option<ByteText>
        ensures row { result ≡ None → self.new ≡ appended id text self.old }
        ensures opened { (j : ℕ) → is_open j self.new.pieces ≡ is_open j self.old.pieces }
        ensures back { IfSome result (λ back. (back ≡ text) × (self.new ≡ self.old)) }
    {
        if has_buffer(self.nodes.as_slice(), id) {
            return Some(text);
        }
        match place_of(&self.parts, self.passed, &mut self.nodes, id) {
            Some(at) => Some(put_text(&mut self.parts, &mut self.nodes, at, id, text)?),
            None => Some(text),
        }
    }

    /// A new node, where its parent has come to, and its number. After want of memory all is as before.
    pub fn add_child(&mut self, alloc: Global, parent: u32) -> Result<u32, OutOfMemory>
        requires { is_open parent self.old.pieces ≡ true }
        ensures child { IfOk result (λ child. child ≡ self.old.nodes) }
        ensures row { OnOk result (self.new ≡ with_child parent self.old) }
        ensures order { OnOk result ((gives : ℕ → List ℕ)
            → filled (giving parent (λ text. gives self.old.nodes ++ text) gives) self.old.pieces
            ≡ filled gives self.new.pieces) }
        ensures opened { OnOk result ((j : ℕ)
            → is_open j self.new.pieces
            ≡ (if j == self.old.nodes then true else is_open j self.old.pieces)) }
        ensures err { OnErr result (self.new ≡ self.old) }
    {
        if self.nodes.len() >= u32::MAX as usize {
            return Err(OutOfMemory);
        }
        let child = self.nodes.len() as u32;
        self.parts.reserve(2)?;
        self.nodes.reserve(1)?;
        let Some(at) = place_of(&self.parts, self.passed, &mut self.nodes, parent) else {
            unreachable!()
        };
        let node = Node::new(alloc, self.passed.saturating_add(at).saturating_add(1));
        put_child(&mut self.parts, &mut self.nodes, at, parent, child, node);
        clean_front(&mut self.parts, &mut self.passed);
        Ok(child)
    }

    /// A node that has ended, of which no byte waits, goes on again, right before the place where another goes on. It is
    /// the way in which a node changes its place: it ends, and goes on elsewhere.
    ///
    /// # Errors
    /// `OutOfMemory`, after which all is as before: for want of memory; and where the other has ended, where the node
    /// hasn't or a byte of it waits, and where a piece of it is after that place.
    pub fn reopen(&mut self, parent: u32, id: u32) -> Result<(), OutOfMemory>
        ensures row { OnOk result (self.new ≡ reopened parent id self.old) }
        ensures lawful { OnOk result (IsLawful self.new.nodes self.new.pieces) }
        ensures order { OnOk result ((gives : ℕ → List ℕ)
            → filled (giving parent (λ text. gives id ++ text) gives) self.old.pieces
            ≡ filled gives self.new.pieces) }
        ensures opened { OnOk result ((j : ℕ)
            → is_open j self.new.pieces ≡ (if j == id then true else is_open j self.old.pieces)) }
        ensures ended { OnOk result (is_open id self.old.pieces ≡ false) }
        ensures err { OnErr result (self.new ≡ self.old) }
    {
        if !self.is_ended(id) {
            return Err(OutOfMemory);
        }
        self.parts.reserve(2)?;
        let Some(at) = place_of(&self.parts, self.passed, &mut self.nodes, parent) else {
            return Err(OutOfMemory);
        };
        if is_named_from(&self.parts, at, id) {
            return Err(OutOfMemory);
        }
        let hint = self.passed.saturating_add(at).saturating_add(1);
        put_again(&mut self.parts, &mut self.nodes, at, parent, id, hint);
        clean_front(&mut self.parts, &mut self.passed);
        Ok(())
    }

    /// Whether the node is there, has ended, and has no byte that waits.
    fn is_ended(&self, id: u32) -> bool
        ensures { result ≡ true → (id < self.now.nodes) × (is_open id self.now.pieces ≡ false) }
    {
        match self.nodes.get(id as usize) {
            Some(node) => node.is_ended(),
            None => false,
        }
    }

    /// The node goes on no more. Nothing changes where it has ended before.
    #[inline(always)]
    pub fn end(&mut self, id: u32)
        ensures row { self.new ≡ ended id self.old }
        ensures order { (gives : ℕ → List ℕ)
            → filled (giving id (λ _. []) gives) self.old.pieces ≡ filled gives self.new.pieces }
        ensures opened { (j : ℕ) → is_open j self.new.pieces
            ≡ (if j == id then false else is_open j self.old.pieces) }
    {
        if let Some(at) = place_of(&self.parts, self.passed, &mut self.nodes, id) {
            close(&mut self.parts, &mut self.nodes, at, id);
            clean_front(&mut self.parts, &mut self.passed);
        }
    }

    /// The bytes that leave next: the active node's, up to its next child. Where there are none, the active node may
    /// still place some, or all is over.
    pub fn front(&self) -> &[u8]
        ensures value { result.now ≡ front_of self.now.pieces }
        ensures gives { FirstGives self.now.pieces }
    {
        front_bytes(&self.parts, self.nodes.as_slice())
    }

    /// The first bytes of the front have left.
    #[inline(always)]
    pub fn used(&mut self, count: usize)
        requires { count ≤ length (front_of self.old.pieces) }
        ensures row { self.new ≡ used count self.old }
        ensures order { (gives : ℕ → List ℕ) → filled gives self.old.pieces
            ≡ take count (front_of self.old.pieces) ++ filled gives self.new.pieces }
        ensures opened { (j : ℕ) → is_open j self.new.pieces ≡ is_open j self.old.pieces }
    {
        use_front(&mut self.parts, &mut self.nodes, count);
        clean_front(&mut self.parts, &mut self.passed);
    }

    /// Whether it is the node's turn: the walk through the tree in order meets its first byte that waits or, before any,
    /// the place where it goes on.
    pub fn is_active(&self, id: u32) -> bool
        ensures { result ≡ is_first id self.now.pieces }
    {
        first_is(&self.parts, id)
    }

    /// Whether the node is there and has not ended.
    pub fn is_open(&self, id: u32) -> bool
        ensures { result ≡ is_open id self.now.pieces }
    {
        match self.nodes.get(id as usize) {
            Some(node) => node.goes_on(),
            None => false,
        }
    }

    /// How many bytes `append` takes from the node: none once it has ended, and else as many as may still wait. No node
    /// has more than 32768 bytes that wait.
    pub fn room(&self, id: u32) -> usize
        ensures value { result ≡ room id self.now.pieces }
        ensures bounded { length (bytes_of id self.now.pieces) ≤ most }
    {
        match self.nodes.get(id as usize) {
            Some(node) => node.room(),
            None => 0,
        }
    }

    /// Whether a buffer is kept for the node: only where it has not ended or bytes of it wait.
    pub fn has_buffer(&self, id: u32) -> bool
        ensures { is_kept (is_open id self.now.pieces) (length (bytes_of id self.now.pieces))
            ≡ false → result ≡ false }
    {
        match self.nodes.get(id as usize) {
            Some(node) => node.has_buffer(),
            None => false,
        }
    }
}
