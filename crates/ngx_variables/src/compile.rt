// How a text with variables is read.
ghost use Rattle.std.specs.Prelude.{◌≡◌, ℕ, ◌+◌, ◌<◌, ◌≤◌, ◌==◌, ◌≢◌, List, [], ◌∷◌, length, drop, Ok, IfOk, IfErr, slice_index};
ghost use Rattle.std.specs.List.{position_or_len};
ghost use Rattle.ngx_variables.specs.Grammar.{name_size, bare_reference, braced_reference, reference_at, lowercase, dashed, piece_named, compiled, name_in, with_pieces, IsFaultOf};

use crate::fault::ValueFault;
use crate::value::{Piece, Value};
use crate::variable::{behind, group_numbered, variable_named};
use byte_text::{ByteText, OutOfMemory};
use std::alloc::Global;

/// A variable in the bytes after its `$`: where its name begins and ends there, and how many bytes it takes.
#[derive(Clone, Copy)]
pub struct Reference {
    pub start: usize,
    pub end: usize,
    pub size: usize,
}

/// How many bytes of a name the text begins with.
#[tactic(auto, unfolding(crate::specs::Grammar::name_size))]
fn name_size(text: &[u8]) -> usize
    ensures value { result ≡ name_size text.now }
    ensures within { result ≤ length text.now }
{
    let mut size = 0;
    let mut rest = text;
    while let [first, behind @ ..] = rest {
        if !(first.is_ascii_alphanumeric() || *first == b'_') {
            return size;
        }
        size += 1;
        rest = behind;
    }
    size
}

/// How many bytes come before the first `$`.
fn literal_size(text: &[u8]) -> usize
    ensures value { result ≡ position_or_len (λ b. b == 36) text.now }
    ensures within { result ≤ length text.now }
{
    let mut size = 0;
    let mut rest = text;
    while let [first, behind @ ..] = rest {
        if *first == b'$' {
            return size;
        }
        size += 1;
        rest = behind;
    }
    size
}

#[tactic(auto, unfolding(crate::specs::Grammar::bare_reference))]
fn bare_reference(text: &[u8]) -> Result<Reference, ValueFault>
    ensures value { result ≡ bare_reference text.now }
    ensures within { IfOk result (λ r. (r.start ≤ r.end) × (r.end ≤ length text.now)
        × (r.size ≤ length text.now)) }
{
    if let [b'1'..=b'9', ..] = text {
        return Ok(Reference {
            start: 0,
            end: 1,
            size: 1,
        });
    }
    let size = name_size(text);
    if size == 0 {
        return Err(ValueFault::BadName);
    }
    Ok(Reference {
        start: 0,
        end: size,
        size,
    })
}

#[tactic(auto, unfolding(crate::specs::Grammar::braced_reference))]
fn braced_reference(text: &[u8]) -> Result<Reference, ValueFault>
    ensures value { result ≡ braced_reference text.now }
    ensures within { IfOk result (λ r. (r.start ≤ r.end) × (r.end ≤ length text.now + 1)
        × (r.size ≤ length text.now + 1)) }
{
    let size = name_size(text);
    if let [b'}', ..] = &text[size..] {
        if size == 0 {
            return Err(ValueFault::BadName);
        }
        return Ok(Reference {
            start: 1,
            end: 1 + size,
            size: size + 2,
        });
    }
    if text.contains(&b'}') {
        Err(ValueFault::BadName)
    } else {
        Err(ValueFault::Unclosed)
    }
}

/// The variable at a `$`, by what follows.
///
/// # Errors
/// `BadName` where no name follows, `Unclosed` where a `{` is not closed.
pub fn reference_at(text: &[u8]) -> Result<Reference, ValueFault>
    ensures value { result ≡ reference_at text.now }
    ensures within { IfOk result (λ r. (r.start ≤ r.end) × (r.end ≤ length text.now)
        × (r.size ≤ length text.now)) }
{
    match text {
        [] => Err(ValueFault::BadName),
        [b'{', inner @ ..] => braced_reference(inner),
        _ => bare_reference(text),
    }
}

/// A name in lower case.
pub fn lowercase(alloc: Global, name: &[u8]) -> Result<ByteText, OutOfMemory>
    ensures { IfOk result (λ text. text ≡ lowercase name.now) }
{
    let mut bytes = name.to_vec(alloc)?;
    bytes.as_mut_slice().make_ascii_lowercase();
    Ok(ByteText::from_vec(bytes))
}

/// A field's name, by its name in a variable's.
fn dashed(alloc: Global, name: &[u8]) -> Result<ByteText, OutOfMemory>
    ensures { IfOk result (λ text. text ≡ dashed name.now) }
{
    let mut text = ByteText::new(alloc);
    for b in name {
        text.push(if *b == b'_' { b'-' } else { *b })?;
    }
    Ok(text)
}

/// What a name in lower case means.
#[tactic(auto, unfolding(crate::specs::Grammar::piece_named))]
pub fn piece_named(alloc: Global, name: ByteText) -> Result<Piece, OutOfMemory>
    ensures { IfOk result (λ piece. piece ≡ piece_named name) }
{
    let bytes = name.as_slice();
    if let Some(variable) = variable_named(bytes) {
        return Ok(Piece::Builtin(variable));
    }
    if let Some(number) = group_numbered(bytes) {
        return Ok(Piece::Group(number));
    }
    if let Some(argument) = behind(b"arg_", bytes) {
        return Ok(Piece::Argument(ByteText::from_slice(alloc, argument)?));
    }
    if let Some(field) = behind(b"http_", bytes) {
        return Ok(Piece::Field(dashed(alloc, field)?));
    }
    if let Some(cookie) = behind(b"cookie_", bytes) {
        return Ok(Piece::Cookie(ByteText::from_slice(alloc, cookie)?));
    }
    Ok(Piece::Set(name))
}

/// A piece, and how many bytes of the text it takes.
#[derive(Drop)]
pub struct Step {
    pub piece: Piece,
    pub size: usize,
}

/// What follows the first bytes of a text.
fn rest_of(text: &[u8], start: usize) -> &[u8]
    requires { start ≤ length text.now }
    ensures { result.now ≡ drop start text.now }
{
    &text[start..]
}

/// The name that a reference has in the bytes after its `$`.
fn name_in(text: &[u8], reference: Reference) -> &[u8]
    requires ordered { reference.start ≤ reference.end }
    requires within { reference.end ≤ length text.now }
    ensures { result.now ≡ name_in text.now reference }
{
    &text[reference.start..reference.end]
}

/// The variable whose `$` comes right before the text.
fn read_variable(alloc: Global, text: &[u8]) -> Result<Step, ValueFault>
    ensures ok { IfOk result (λ step. compiled (36 ∷ text.now)
        ≡ with_pieces (step.piece ∷ []) (compiled (drop step.size text.now))) }
    ensures within { IfOk result (λ step. step.size ≤ length text.now) }
    ensures fault { IfErr result (IsFaultOf (36 ∷ text.now)) }
{
    let reference = match reference_at(text) {
        Ok(reference) => reference,
        Err(fault) => return Err(fault),
    };
    let name = lowercase(alloc, name_in(text, reference))?;
    let piece = piece_named(alloc, name)?;
    Ok(Step {
        piece,
        size: reference.size,
    })
}

/// The literal bytes with which the text begins.
fn read_literal(alloc: Global, text: &[u8]) -> Result<Step, ValueFault>
    requires { (0 < length text.now) × (slice_index text.now 0 ≢ 36) }
    ensures ok { IfOk result (λ step. compiled text.now
        ≡ with_pieces (step.piece ∷ []) (compiled (drop step.size text.now))) }
    ensures within { IfOk result (λ step. (0 < step.size) × (step.size ≤ length text.now)) }
    ensures fault { IfErr result (IsFaultOf text.now) }
{
    let size = literal_size(text);
    let bytes = ByteText::from_slice(alloc, &text[..size])?;
    Ok(Step {
        piece: Piece::Literal(bytes),
        size,
    })
}

/// The first piece of a text that isn't empty.
fn read_piece(alloc: Global, text: &[u8]) -> Result<Step, ValueFault>
    requires { 0 < length text.now }
    ensures ok { IfOk result (λ step. compiled text.now
        ≡ with_pieces (step.piece ∷ []) (compiled (drop step.size text.now))) }
    ensures within { IfOk result (λ step. (0 < step.size) × (step.size ≤ length text.now)) }
    ensures fault { IfErr result (IsFaultOf text.now) }
{
    let _length = text.len();
    if text[0] != b'$' {
        return read_literal(alloc, text);
    }
    let step = read_variable(alloc, rest_of(text, 1))?;
    Ok(Step {
        piece: step.piece,
        size: step.size + 1,
    })
}

impl Value {
    /// Reads a text: `$name` and `${name}` name variables, and all other bytes mean themselves. A name is of
    /// letters, digits and `_`, in any case; `$1` to `$9` take one digit. A text of literals alone has no fault.
    ///
    /// A name that is no built-in variable's is read as one that some `set` gives a value: whether any does is the
    /// configuration's business.
    ///
    /// # Errors
    /// `BadName` where no name comes after a `$` or is between `${` and `}`, `Unclosed` where no `}` comes after a
    /// `${`: the first of them in the text.
    pub fn compile(alloc: Global, text: &[u8]) -> Result<Value, ValueFault>
        ensures ok { IfOk result (λ value. compiled text.now ≡ Ok value) }
        ensures fault { IfErr result (IsFaultOf text.now) }
    {
        let mut pieces = Vec::new(alloc);
        let mut rest = text;
        while !rest.is_empty() {
            let step = read_piece(alloc, rest)?;
            pieces.push(step.piece)?;
            rest = rest_of(rest, step.size);
        }
        Ok(Value::shared(alloc, pieces)?)
    }
}
