// Texts with variables.
ghost use Rattle.std.specs.Prelude.{◌≡◌, IfOk};
ghost use Rattle.std.specs.List.{list_all, list_any};
ghost use Rattle.conf_values.specs.TextSet.{holds};
ghost use Rattle.conf_values.specs.Texts.{pieces_of, is_known, tells_folder, tells_place, is_text, is_folder_text};

use crate::text_set::TextSet;
use byte_text::OutOfMemory;
use site_model::ngx_variables::{Piece, Value, ValueFault, Variable};
use std::alloc::Global;

/// A text read; one that isn't of the form of a text with variables is read as the empty text.
#[tactic(auto, unfolding(crate::specs::Texts::pieces_of))]
pub fn value_of(alloc: Global, text: &[u8]) -> Result<Value, OutOfMemory>
    ensures { IfOk result (λ value. value ≡ pieces_of text.now) }
{
    match Value::compile(alloc, text) {
        Ok(value) => Ok(value),
        Err(ValueFault::OutOfMemory) => Err(OutOfMemory),
        Err(ValueFault::BadName | ValueFault::Unclosed) => Ok(Value::from_pieces(Vec::new(alloc))),
    }
}

/// A built-in variable, or one of the known names.
fn is_known(known: &TextSet, piece: &Piece) -> bool
    ensures { result ≡ is_known (holds known.now.keys) piece.now }
{
    match piece {
        Piece::Set(name) => known.has(name.as_slice()),
        _ => true,
    }
}

fn are_known(known: &TextSet, pieces: &[Piece]) -> bool
    ensures { result ≡ list_all (is_known (holds known.now.keys)) pieces.now }
{
    for piece in pieces {
        if !is_known(known, piece) {
            return false;
        }
    }
    true
}

/// Whether a text has the form of one with variables, each built in or of a known name.
#[tactic(auto, unfolding(crate::specs::Texts::is_text))]
pub fn is_text(alloc: Global, known: &TextSet, text: &[u8]) -> Result<bool, OutOfMemory>
    ensures { IfOk result (λ r. r ≡ is_text (holds known.now.keys) text.now) }
{
    match Value::compile(alloc, text) {
        Ok(value) => Ok(are_known(known, value.pieces())),
        Err(ValueFault::OutOfMemory) => Err(OutOfMemory),
        Err(ValueFault::BadName | ValueFault::Unclosed) => Ok(false),
    }
}

fn tells_folder(variable: Variable) -> bool
    ensures { result ≡ tells_folder variable }
{
    match variable {
        Variable::DocumentRoot | Variable::RequestFilename => true,
        _ => false,
    }
}

fn tells_place(piece: &Piece) -> bool
    ensures { result ≡ tells_place piece.now }
{
    match piece {
        Piece::Builtin(variable) => tells_folder(*variable),
        _ => false,
    }
}

fn any_tells_place(pieces: &[Piece]) -> bool
    ensures { result ≡ list_any tells_place pieces.now }
{
    for piece in pieces {
        if tells_place(piece) {
            return true;
        }
    }
    false
}

/// Whether it is such a text, and has no variable that tells where the files of a level are.
#[tactic(auto, unfolding(crate::specs::Texts::is_folder_text))]
pub fn is_folder_text(alloc: Global, known: &TextSet, text: &[u8]) -> Result<bool, OutOfMemory>
    ensures { IfOk result (λ r. r ≡ is_folder_text (holds known.now.keys) text.now) }
{
    if !is_text(alloc, known, text)? {
        return Ok(false);
    }
    let value = value_of(alloc, text)?;
    Ok(!any_tells_place(value.pieces()))
}
