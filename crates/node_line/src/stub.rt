// A subrequest with a stub.
ghost use Rattle.std.specs.Prelude.{◌≡◌, ◌==◌, ℕ, OnOk, IfSome, true, false, if◌then◌else◌};
ghost use Rattle.node_turn.specs.Stages.{IsSameNode, is_ending, is_in_row, is_placing};
ghost use Rattle.postpone_filter.specs.Row.{is_open};
ghost use Rattle.node_line.specs.Stubs.{CameAs, DecidedAs, IsStubOf, gives_bytes, good, joins_at, shows};

use byte_text::OutOfMemory;
use node_turn::{Node, Place, Stage, places, put, withholds};
use postpone_filter::Order;
use std::alloc::Global;

/// Whether a body whose bytes are placed next is shown in any case: its status is below 400, and
/// some bytes are at hand.
fn is_shown(stage: &Stage) -> bool
    ensures { result ≡ shows stage.now }
{
    match stage {
        Stage::Begins(_) => false,
        Stage::Asks { wait: _, ssi: _ } => false,
        Stage::Told {
            wait: _,
            file: _,
            ssi: _,
        } => false,
        Stage::Places(body) => body.answered.status < 400 && body.from < body.bytes.len(),
        Stage::Serves(_) => false,
        Stage::Reads(_) => false,
        Stage::Captures(_) => false,
        Stage::Ends(_) => false,
    }
}

/// Whether no byte of a body with a stub is withheld.
fn withholds_none(place: &Place) -> bool
    ensures { result ≡ joins_at place.now }
{
    match place {
        Place::Row => false,
        Place::Stub { stub: _, text } => text.is_empty(),
        Place::Gathers { stub: _, text: _ } => false,
        Place::Captured { stub: _, text: _ } => false,
    }
}

/// Whether a node has come to its answer, of a status below 400, whatever is left of its body.
pub fn is_good(stage: &Stage) -> bool
    ensures { result ≡ good stage.now }
{
    match stage {
        Stage::Begins(_) => false,
        Stage::Asks { wait: _, ssi: _ } => false,
        Stage::Told {
            wait: _,
            file: _,
            ssi: _,
        } => false,
        Stage::Places(body) => body.answered.status < 400,
        Stage::Serves(body) => body.answered.status < 400,
        Stage::Reads(body) => body.answered.status < 400,
        Stage::Captures(capture) => capture.body.answered.status < 400,
        Stage::Ends(body) => body.answered.status < 400,
    }
}

/// Whether a node has bytes that are placed next.
pub fn has_bytes(stage: &Stage) -> bool
    ensures { result ≡ gives_bytes stage.now }
{
    match stage {
        Stage::Begins(_) => false,
        Stage::Asks { wait: _, ssi: _ } => false,
        Stage::Told {
            wait: _,
            file: _,
            ssi: _,
        } => false,
        Stage::Places(body) => body.from < body.bytes.len(),
        Stage::Serves(_) => false,
        Stage::Reads(_) => false,
        Stage::Captures(_) => false,
        Stage::Ends(_) => false,
    }
}

/// Bytes of a node with a stub come: where it is known that its body is shown, they are placed, and
/// the node goes on in the row; else they are withheld.
///
/// # Errors
/// `OutOfMemory`; the node is then not to go on.
pub fn comes(alloc: Global, order: &mut Order, at: u32, node: &mut Node) -> Result<(), OutOfMemory>
    requires placing { is_placing node.old.stage ≡ true }
    requires apart { is_in_row node.old.place ≡ false }
    ensures came { OnOk result (CameAs at order.old order.new node.old node.new) }
    ensures opened { OnOk result ((j : ℕ) →
        is_open j order.new.pieces ≡ is_open j order.old.pieces) }
    ensures node { OnOk result (IsSameNode node.old node.new) }
    ensures file { OnOk result
        ((node.new.ask ≡ node.old.ask) × (node.new.start ≡ node.old.start)) }
{
    if withholds_none(&node.place) && is_shown(&node.stage) {
        let placed = places(alloc, order, at, node)?;
        if placed.count == 0 {
            return Err(OutOfMemory);
        }
        put(&mut node.place, Place::Row);
        return Ok(());
    }
    withholds(alloc, node)?;
    Ok(())
}

/// The stub that takes the place of a node that has come to its answer.
fn stub_of(node: &Node) -> Option<&[u8]>
    ensures { IfSome result (λ stub. IsStubOf node.now stub.now) }
{
    let Place::Stub { stub, text } = &node.place else {
        return None;
    };
    let Stage::Ends(body) = &node.stage else {
        return None;
    };
    if body.answered.status < 400 && !text.is_empty() {
        return None;
    }
    Some(stub.as_slice())
}

/// A node with a stub that has come to its answer is over: the whole stub is at its place.
///
/// # Errors
/// `OutOfMemory`, where the stub has no room in the order; the node is then not to go on.
pub fn decides(order: &mut Order, at: u32, node: &mut Node) -> Result<(), OutOfMemory>
    requires ending { is_ending node.old.stage ≡ true }
    requires apart { is_in_row node.old.place ≡ false }
    ensures decided { OnOk result (DecidedAs at order.old order.new node.old node.new) }
    ensures opened { OnOk result ((j : ℕ) → is_open j order.new.pieces
        ≡ (if j == at then false else is_open j order.old.pieces)) }
{
    let Some(stub) = stub_of(node) else {
        return Err(OutOfMemory);
    };
    let count = order.append(at, stub)?;
    if count < stub.len() {
        return Err(OutOfMemory);
    }
    order.end(at);
    node.over = true;
    Ok(())
}
