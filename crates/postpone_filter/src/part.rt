// The row of a response over one buffer a node: which node's bytes come next, and how many.
ghost use Rattle.std.specs.Prelude.{◌≡◌, ℕ, ◌+◌, ◌-◌, ◌<◌, ◌≤◌, ◌++◌, ◌&&◌, ◌==◌, true, false, List, [], ◌∷◌, length, min, take, drop, slice_index_or, slice_set, IfOk, OnOk, OnErr, IfSome, None, if◌then◌else◌, vec_len, vec_capacity};
ghost use Rattle.std.specs.List.{insert};
ghost use Rattle.std.specs.VecDeque.{deque_len, deque_capacity};
ghost use Rattle.postpone_filter.specs.Row.{Piece, most, is_open, bytes_of, room, at_place, longer, closed, fresh, clean, shorter, front_of, is_first};
ghost use Rattle.postpone_filter.specs.Buffers.{Buffer, AreTied, pieces_of, is_part_place, waiting_at, part_of, has_place, is_named, first_part_is, clean_parts, parts_start_over, is_part_over, starts_over};

use crate::node::Node;
use byte_text::{ByteText, OutOfMemory};
use std::collections::VecDeque;

/// How many bytes of a node come next, and whether the node goes on right after them.
#[derive(Clone, Copy, Drop)]
pub struct Part {
    pub node: u32,
    pub len: usize,
    pub grows: bool,
}

impl Part {
    /// The place of a node after which nothing waits yet.
    pub fn fresh(node: u32) -> Part
        ensures { result ≡ part_of (fresh node) }
    {
        Part {
            node,
            len: 0,
            grows: true,
        }
    }
}

fn is_place(part: &Part, id: u32) -> bool
    ensures { result ≡ is_part_place id part.now }
{
    part.grows && part.node == id
}

/// The place of a node, at `from` or later.
fn find_from(parts: &VecDeque<Part>, from: usize, id: u32) -> Option<usize>
    ensures found { IfSome result (λ at. at < deque_len parts.now) }
    ensures place { IfSome result (λ at. (d : Part)
        → is_part_place id (slice_index_or parts.now.items at d) ≡ true) }
    ensures none { result ≡ None → from ≡ 0 → has_place id parts.now.items ≡ false }
{
    for at in from..parts.len() {
        if is_place(&parts[at], id) {
            return Some(at);
        }
    }
    None
}

/// The place of a node: at the hint or soon after it as a rule, since pieces are only put in.
pub fn find(parts: &VecDeque<Part>, hint: usize, id: u32) -> Option<usize>
    ensures found { IfSome result (λ at. at < deque_len parts.now) }
    ensures place { IfSome result (λ at. (d : Part)
        → is_part_place id (slice_index_or parts.now.items at d) ≡ true) }
    ensures none { result ≡ None → has_place id parts.now.items ≡ false }
{
    match find_from(parts, hint, id) {
        Some(at) => Some(at),
        None => find_from(parts, 0, id),
    }
}

/// Puts as many of the bytes as fit right before a place, and answers how many. After want of memory all is as before.
pub fn put_bytes(
    parts: &mut VecDeque<Part>,
    nodes: &mut Vec<Node>,
    at: usize,
    id: u32,
    bytes: &[u8],
) -> Result<usize, OutOfMemory>
    requires tied { AreTied parts.old.items nodes.old.items }
    requires within { at < deque_len parts.old }
    requires place { (d : Part) → is_part_place id (slice_index_or parts.old.items at d) ≡ true }
    ensures tied { AreTied parts.new.items nodes.new.items }
    ensures nodes { length nodes.new.items ≡ length nodes.old.items }
    ensures pieces { IfOk result (λ count. pieces_of parts.new.items nodes.new.items
        ≡ at_place id (λ p. longer (take count bytes.now) p ∷ [])
        (pieces_of parts.old.items nodes.old.items)) }
    ensures count { IfOk result (λ count. count ≡ min (length bytes.now)
        (room id (pieces_of parts.old.items nodes.old.items))) }
    ensures err { OnErr result ((parts.new.items ≡ parts.old.items)
        × (nodes.new.items ≡ nodes.old.items)) }
{
    let node = &mut nodes[id as usize];
    let count = node.append(bytes)?;
    let part = &mut parts[at];
    part.len += count;
    Ok(count)
}

/// Puts a text right before a place, with no copy, where its node has no buffer yet and all of it may wait; else gives it back.
pub fn put_text(
    parts: &mut VecDeque<Part>,
    nodes: &mut Vec<Node>,
    at: usize,
    id: u32,
    text: ByteText,
) -> Option<ByteText>
    requires tied { AreTied parts.old.items nodes.old.items }
    requires within { at < deque_len parts.old }
    requires place { (d : Part) → is_part_place id (slice_index_or parts.old.items at d) ≡ true }
    ensures tied { AreTied parts.new.items nodes.new.items }
    ensures nodes { length nodes.new.items ≡ length nodes.old.items }
    ensures pieces { result ≡ None → pieces_of parts.new.items nodes.new.items
        ≡ at_place id (λ p. longer text p ∷ []) (pieces_of parts.old.items nodes.old.items) }
    ensures back { IfSome result (λ back. (back ≡ text) × ((parts.new.items ≡ parts.old.items)
        × (nodes.new.items ≡ nodes.old.items))) }
{
    let count = text.len();
    let node = &mut nodes[id as usize];
    match node.take_over(text) {
        Some(text) => Some(text),
        None => {
            let part = &mut parts[at];
            part.len += count;
            None
        }
    }
}

/// Puts a part in where there is room for it.
fn insert_reserved(parts: &mut VecDeque<Part>, at: usize, part: Part)
    requires within { at ≤ deque_len parts.old }
    requires room { deque_len parts.old < deque_capacity parts.old }
    ensures items { parts.new.items ≡ insert parts.old.items at part }
    ensures len { deque_len parts.new ≡ deque_len parts.old + 1 }
    ensures capacity { deque_capacity parts.old ≤ deque_capacity parts.new }
{
    // As a rule its place is the last one.
    if at == parts.len() {
        parts.push_back_reserved(part);
        return;
    }
    // It can't fail: there is room.
    match parts.insert(at, part) {
        Ok(()) => {}
        Err(_) => unreachable!(),
    }
}

/// Puts a child right before the place of its parent, where there is room for both parts and for the child's node.
pub fn put_child(
    parts: &mut VecDeque<Part>,
    nodes: &mut Vec<Node>,
    at: usize,
    parent: u32,
    child: u32,
    node: Node,
)
    requires tied { AreTied parts.old.items nodes.old.items }
    requires within { at < deque_len parts.old }
    requires place { (d : Part) → is_part_place parent (slice_index_or parts.old.items at d)
        ≡ true }
    requires parts_room { deque_len parts.old + 2 ≤ deque_capacity parts.old }
    requires node_room { vec_len nodes.old < vec_capacity nodes.old }
    requires child { child ≡ vec_len nodes.old }
    requires waiting { node.waiting ≡ [] }
    requires goes_on { node.goes_on ≡ true }
    ensures tied { AreTied parts.new.items nodes.new.items }
    ensures nodes { length nodes.new.items ≡ length nodes.old.items + 1 }
    ensures pieces { pieces_of parts.new.items nodes.new.items
        ≡ at_place parent (λ p. closed p ∷ fresh child ∷ fresh parent ∷ [])
        (pieces_of parts.old.items nodes.old.items) }
{
    let part = &mut parts[at];
    part.grows = false;
    insert_reserved(parts, at + 1, Part::fresh(child));
    insert_reserved(parts, at + 2, Part::fresh(parent));
    nodes.push_reserved(node);
}

/// Whether a part at this index or later is of the node.
pub fn is_named_from(parts: &VecDeque<Part>, from: usize, id: u32) -> bool
    ensures { result ≡ false → is_named id (drop from parts.now.items) ≡ false }
{
    for at in from..parts.len() {
        if parts[at].node == id {
            return true;
        }
    }
    false
}

/// Puts a node that has ended right before the place of another, where there is room for both parts and no part of the
/// node from there on.
pub fn put_again(
    parts: &mut VecDeque<Part>,
    nodes: &mut Vec<Node>,
    at: usize,
    next: u32,
    id: u32,
    hint: usize,
)
    requires tied { AreTied parts.old.items nodes.old.items }
    requires within { at < deque_len parts.old }
    requires place { (d : Part) → is_part_place next (slice_index_or parts.old.items at d)
        ≡ true }
    requires parts_room { deque_len parts.old + 2 ≤ deque_capacity parts.old }
    requires there { id < vec_len nodes.old }
    requires ended { is_open id (pieces_of parts.old.items nodes.old.items) ≡ false }
    requires unnamed { is_named id (drop at parts.old.items) ≡ false }
    ensures tied { AreTied parts.new.items nodes.new.items }
    ensures nodes { length nodes.new.items ≡ length nodes.old.items }
    ensures pieces { pieces_of parts.new.items nodes.new.items
        ≡ at_place next (λ p. closed p ∷ fresh id ∷ fresh next ∷ [])
        (pieces_of parts.old.items nodes.old.items) }
{
    let part = &mut parts[at];
    part.grows = false;
    insert_reserved(parts, at + 1, Part::fresh(id));
    insert_reserved(parts, at + 2, Part::fresh(next));
    let node = &mut nodes[id as usize];
    node.open_again(hint);
}

/// Takes the place of a node away.
pub fn close(parts: &mut VecDeque<Part>, nodes: &mut Vec<Node>, at: usize, id: u32)
    requires tied { AreTied parts.old.items nodes.old.items }
    requires within { at < deque_len parts.old }
    requires place { (d : Part) → is_part_place id (slice_index_or parts.old.items at d) ≡ true }
    ensures tied { AreTied parts.new.items nodes.new.items }
    ensures nodes { length nodes.new.items ≡ length nodes.old.items }
    ensures pieces { pieces_of parts.new.items nodes.new.items
        ≡ at_place id (λ p. closed p ∷ []) (pieces_of parts.old.items nodes.old.items) }
{
    let part = &mut parts[at];
    part.grows = false;
    let node = &mut nodes[id as usize];
    node.end();
}

/// The bytes of the first part.
pub fn front_bytes<'a>(parts: &VecDeque<Part>, nodes: &'a [Node]) -> &'a [u8]
    requires { AreTied parts.now.items nodes.now }
    ensures { result.now ≡ front_of (pieces_of parts.now.items nodes.now) }
{
    match parts.front() {
        Some(part) => &nodes[part.node as usize].front()[..part.len],
        None => &[],
    }
}

/// Drops the first bytes of the first part.
pub fn use_front(parts: &mut VecDeque<Part>, nodes: &mut Vec<Node>, count: usize)
    requires tied { AreTied parts.old.items nodes.old.items }
    requires within { count ≤ length (front_of (pieces_of parts.old.items nodes.old.items)) }
    ensures tied { AreTied parts.new.items nodes.new.items }
    ensures nodes { length nodes.new.items ≡ length nodes.old.items }
    ensures pieces { pieces_of parts.new.items nodes.new.items
        ≡ shorter count (pieces_of parts.old.items nodes.old.items) }
{
    if parts.len() > 0 {
        let part = &mut parts[0];
        part.len -= count;
        let id = part.node as usize;
        let node = &mut nodes[id];
        node.used(count);
    }
}

fn is_over(part: &Part) -> bool
    ensures { result ≡ is_part_over part.now }
{
    !part.grows && part.len == 0
}

fn first_is_over(parts: &VecDeque<Part>) -> bool
    ensures { result ≡ parts_start_over parts.now.items }
{
    match parts.front() {
        Some(part) => is_over(part),
        None => false,
    }
}

/// Takes the first parts away that give nothing more, and counts them among those that have passed.
pub fn clean_front(parts: &mut VecDeque<Part>, passed: &mut usize)
    ensures { parts.new.items ≡ clean_parts parts.old.items }
{
    while first_is_over(parts) {
        let _ = parts.pop_front();
        *passed = passed.saturating_add(1);
    }
}

/// The place of a node, if it has not ended.
pub fn place_of(
    parts: &VecDeque<Part>,
    passed: usize,
    nodes: &mut Vec<Node>,
    id: u32,
) -> Option<usize>
    requires { AreTied parts.now.items nodes.old.items }
    ensures nodes { nodes.new.items ≡ nodes.old.items }
    ensures capacity { vec_capacity nodes.new ≡ vec_capacity nodes.old }
    ensures found { IfSome result (λ at. at < deque_len parts.now) }
    ensures place { IfSome result (λ at. (d : Part)
        → is_part_place id (slice_index_or parts.now.items at d) ≡ true) }
    ensures none { result ≡ None → is_open id (pieces_of parts.now.items nodes.old.items) ≡ false }
{
    let index = id as usize;
    if index >= nodes.len() {
        return None;
    }
    let node = &mut nodes[index];
    if !node.goes_on() {
        return None;
    }
    let found = find(parts, node.hint().saturating_sub(passed), id);
    if let Some(at) = found {
        node.set_hint(passed.saturating_add(at));
    }
    found
}

/// Whether the first part is the node's.
pub fn first_is(parts: &VecDeque<Part>, id: u32) -> bool
    ensures { result ≡ first_part_is id parts.now.items }
{
    match parts.front() {
        Some(part) => part.node == id,
        None => false,
    }
}
