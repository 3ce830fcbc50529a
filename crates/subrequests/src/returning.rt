// What a node whose body its parent waits for gives back, and how the parent goes on with it.
ghost use Rattle.std.specs.Prelude.{◌≡◌, ◌++◌, [], true, IfOk, OnOk, None};
ghost use Rattle.node_line.specs.node_turn.declared.node.Place.TheVariants.{Row as RowView};
ghost use Rattle.subrequests.specs.Families.{HasFirst, HasReply, IsTaken, end_status, freed_place, gathering_place, is_stubbed as stubbed, with_text};
ghost use Rattle.node_seats.specs.Joining.{joined_place};
ghost use Rattle.node_seats.specs.Seats.{takes_up, withheld_text};

use byte_text::OutOfMemory;
use node_line::node_turn::{Capture, Node, Place, Stage, Withheld, fill, put, take};
use node_line::ssi_values::Table;
use std::alloc::Global;

/// The status of the answer to which a node has come; 0 where it has come to none.
fn status_at(stage: &Stage) -> u16
    ensures { result ≡ end_status stage.now }
{
    match stage {
        Stage::Begins(_) => 0,
        Stage::Asks { wait: _, ssi: _ } => 0,
        Stage::Told {
            wait: _,
            file: _,
            ssi: _,
        } => 0,
        Stage::Places(_) => 0,
        Stage::Serves(_) => 0,
        Stage::Reads(_) => 0,
        Stage::Captures(_) => 0,
        Stage::Ends(body) => body.answered.status,
    }
}

/// Whether the stub of a node takes the place of this body: it is empty, or its status is 400 or more.
fn is_stubbed(stage: &Stage, body: &Withheld) -> bool
    ensures { result ≡ stubbed stage.now body.now }
{
    body.is_empty() || status_at(stage) >= 400
}

/// The bytes of a node for whose body its parent waits: all that came, or its stub in their place.
pub(crate) fn taken(
    alloc: Global,
    stage: &Stage,
    place: &mut Place,
) -> Result<Withheld, OutOfMemory>
    ensures { IfOk result (λ text. IsTaken stage.now text place.old place.new) }
{
    match place {
        Place::Captured { stub, text } => {
            let body = take(text, Withheld::new(alloc));
            match take(stub, None) {
                None => Ok(body),
                Some(stub) => {
                    if is_stubbed(stage, &body) {
                        return Ok(Withheld::from_text(alloc, stub)?);
                    }
                    Ok(body)
                }
            }
        }
        _ => Err(OutOfMemory),
    }
}

/// A node has the body for which it waited: it goes on with its page.
pub(crate) fn put_reply(alloc: Global, node: &mut Node, body: Withheld) -> Result<(), OutOfMemory>
    ensures { OnOk result (HasReply body node.old node.new) }
{
    match take(&mut node.stage, Stage::Begins(Table::new(alloc))) {
        Stage::Captures(capture) => {
            let Capture {
                body: page,
                name,
                text: _,
            } = capture;
            let capture = Capture {
                body: page,
                name,
                text: body,
            };
            fill(&mut node.stage, Stage::Captures(capture));
            node.asks = None;
            Ok(())
        }
        _ => Err(OutOfMemory),
    }
}

/// A node is shown that has a stub and withholds no byte of its own.
pub(crate) fn put_row(node: &mut Node)
    ensures { node.new ≡ record node.old { place = RowView } }
{
    put(&mut node.place, Place::Row);
}

/// The first subrequest opens whose bytes come to a node with a stub.
pub(crate) fn put_gathering(node: &mut Node)
    ensures { node.new ≡ record node.old { place = gathering_place node.old.place } }
{
    let place = take(&mut node.place, Place::Row);
    put(&mut node.place, gathering(place));
}

/// Where the bytes of a node with a stub go once bytes of subrequests come to it.
fn gathering(place: Place) -> Place
    ensures { result ≡ gathering_place place }
{
    match place {
        Place::Row => Place::Row,
        Place::Stub { stub, text } => Place::Gathers { stub, text },
        Place::Gathers { stub, text } => Place::Gathers { stub, text },
        Place::Captured { stub, text } => Place::Captured { stub, text },
    }
}

/// Where they go once no such subrequest is left.
fn freed(place: Place) -> Place
    ensures { result ≡ freed_place place }
{
    match place {
        Place::Row => Place::Row,
        Place::Stub { stub, text } => Place::Stub { stub, text },
        Place::Gathers { stub, text } => Place::Stub { stub, text },
        Place::Captured { stub, text } => Place::Captured { stub, text },
    }
}

/// Where the bytes of a node go that came to its parent, which is shown: to the row; or it has a stub, and it isn't
/// known yet whether that is shown.
fn joined(place: Place) -> Place
    ensures { result ≡ joined_place place }
{
    match place {
        Place::Row => Place::Row,
        Place::Stub { stub, text } => Place::Stub { stub, text },
        Place::Gathers { stub, text } => Place::Gathers { stub, text },
        Place::Captured { stub, text } => match stub {
            Some(stub) => Place::Gathers { stub, text },
            None => Place::Row,
        },
    }
}

/// No subrequest is left whose bytes come to a node with a stub.
pub(crate) fn put_freed(node: &mut Node)
    ensures { node.new ≡ record node.old { place = freed_place node.old.place } }
{
    let place = take(&mut node.place, Place::Row);
    put(&mut node.place, freed(place));
}

/// The parent of a node, to which its bytes came, is shown.
pub(crate) fn put_joined(node: &mut Node)
    ensures { node.new ≡ record node.old { place = joined_place node.old.place } }
{
    let place = take(&mut node.place, Place::Row);
    put(&mut node.place, joined(place));
}

/// A node is over: the bytes of its parent that it keeps before its own.
pub(crate) fn take_before(alloc: Global, node: &mut Node) -> Withheld
    ensures node { node.new ≡ record node.old { before = []; over = true } }
    ensures taken { result ≡ node.old.before }
{
    node.over = true;
    take(&mut node.before, Withheld::new(alloc))
}

/// A text before another.
pub(crate) fn both(first: Withheld, second: Withheld) -> Result<Withheld, OutOfMemory>
    ensures { IfOk result (λ both. both ≡ first ++ second) }
{
    let mut both = first;
    both.append(second)?;
    Ok(both)
}

/// More bytes of its parent come right before those of a node.
pub(crate) fn put_before(alloc: Global, node: &mut Node, text: Withheld) -> Result<(), OutOfMemory>
    ensures { OnOk result (node.new ≡ record node.old { before = text ++ node.old.before }) }
{
    let after = take(&mut node.before, Withheld::new(alloc));
    let before = both(text, after)?;
    put(&mut node.before, before);
    Ok(())
}

/// Bytes come before those of a node that are withheld.
pub(crate) fn put_first(alloc: Global, node: &mut Node, text: Withheld) -> Result<(), OutOfMemory>
    ensures { OnOk result (HasFirst text node.old node.new) }
{
    let after = take_text(alloc, &mut node.place)?;
    let all = both(text, after)?;
    put_text(&mut node.place, all);
    Ok(())
}

/// The bytes that a node withholds to which bytes of its subrequests come; it has none then.
pub(crate) fn take_text(alloc: Global, place: &mut Place) -> Result<Withheld, OutOfMemory>
    ensures text { IfOk result (λ text. text ≡ withheld_text place.old) }
    ensures takes { OnOk result (takes_up place.old ≡ true) }
    ensures place { OnOk result (place.new ≡ with_text [] place.old) }
{
    match place {
        Place::Row => Err(OutOfMemory),
        Place::Stub { stub: _, text: _ } => Err(OutOfMemory),
        Place::Gathers { stub: _, text } => Ok(take(text, Withheld::new(alloc))),
        Place::Captured { stub: _, text } => Ok(take(text, Withheld::new(alloc))),
    }
}

/// Other bytes are withheld.
fn put_text(place: &mut Place, bytes: Withheld)
    ensures { place.new ≡ with_text bytes place.old }
{
    match place {
        Place::Row => {}
        Place::Stub { stub: _, text } => put(text, bytes),
        Place::Gathers { stub: _, text } => put(text, bytes),
        Place::Captured { stub: _, text } => put(text, bytes),
    }
}
