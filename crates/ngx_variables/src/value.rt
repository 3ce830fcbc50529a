// A text with variables.
ghost use Rattle.std.specs.Prelude.{◌≡◌, List, IfOk};

use crate::variable::Variable;
use byte_text::{ByteText, OutOfMemory};
use std::alloc::Global;
use std::marker::Model;
use std::rc::Rc;

/// A piece of a text with variables.
#[derive(Drop)]
pub enum Piece {
    /// Bytes that are taken as they are.
    Literal(ByteText),
    /// `$1` to `$9`: a group of the request's last match.
    Group(u8),
    /// A variable that has its own meaning.
    Builtin(Variable),
    /// `$arg_NAME`, by its NAME.
    Argument(ByteText),
    /// `$http_NAME`, by the field's name, with `-` for each `_` of NAME.
    Field(ByteText),
    /// `$cookie_NAME`, by its NAME.
    Cookie(ByteText),
    /// A variable that a `set` gives a value, by its name.
    Set(ByteText),
}

/// A text with variables, read once and evaluated for each request. Contracts see it as the list of its pieces. In what
/// `compile` reads no two literals are neighbours, and none is empty; a copy of that shares the pieces.
#[derive(Drop)]
pub struct Value {
    pieces: Pieces,
}

/// The pieces of a value, its own or shared with its copies.
#[derive(Drop)]
enum Pieces {
    Own(Vec<Piece>),
    Shared(Rc<Vec<Piece>>),
}

impl Model for Value {
    ghost use Rattle.std.specs.Prelude.{List};
    ghost use Rattle.ngx_variables.specs.declared.value.Piece.{Piece};
    ghost use Rattle.ngx_variables.specs.Shared.{pieces_in};

    ghost Value = { List Piece };

    ghost view = { λ v. pieces_in v.pieces };
}

impl Piece {
    /// The same piece once more.
    pub fn copy(&self, alloc: Global) -> Result<Piece, OutOfMemory>
        ensures { IfOk result (λ copy. copy ≡ self.now) }
    {
        match self {
            Piece::Literal(bytes) => Ok(Piece::Literal(copied(alloc, bytes)?)),
            Piece::Group(number) => Ok(Piece::Group(*number)),
            Piece::Builtin(variable) => Ok(Piece::Builtin(*variable)),
            Piece::Argument(name) => Ok(Piece::Argument(copied(alloc, name)?)),
            Piece::Field(name) => Ok(Piece::Field(copied(alloc, name)?)),
            Piece::Cookie(name) => Ok(Piece::Cookie(copied(alloc, name)?)),
            Piece::Set(name) => Ok(Piece::Set(copied(alloc, name)?)),
        }
    }
}

fn copied(alloc: Global, text: &ByteText) -> Result<ByteText, OutOfMemory>
    ensures { IfOk result (λ copy. copy ≡ text.now) }
{
    ByteText::from_slice(alloc, text.as_slice())
}

/// Copies of pieces, one by one.
#[inline(never)]
fn copies(alloc: Global, pieces: &[Piece]) -> Result<Vec<Piece>, OutOfMemory>
    ensures { IfOk result (λ copies. copies.items ≡ pieces.now) }
{
    let mut all = Vec::new(alloc);
    for piece in pieces {
        all.push(piece.copy(alloc)?)?;
    }
    Ok(all)
}

/// The same pieces once more, without a copy of them.
fn again(shared: &Rc<Vec<Piece>>) -> Result<Rc<Vec<Piece>>, OutOfMemory>
    ensures { IfOk result (λ other. other.value.items ≡ shared.now.value.items) }
{
    let other = shared.clone()?;
    Ok(other)
}

impl Value {
    /// Takes the pieces over, with no copy.
    pub fn from_pieces(pieces: Vec<Piece>) -> Self
        ensures { result ≡ pieces.items }
    {
        Value {
            pieces: Pieces::Own(pieces),
        }
    }

    /// Takes the pieces over for values that share them.
    pub(crate) fn shared(alloc: Global, pieces: Vec<Piece>) -> Result<Value, OutOfMemory>
        ensures { IfOk result (λ value. value ≡ pieces.items) }
    {
        let shared = Rc::new(alloc, pieces)?;
        Ok(Value {
            pieces: Pieces::Shared(shared),
        })
    }

    /// The same value once more. What `compile` read takes no memory for it.
    #[inline(always)]
    pub fn copy(&self, alloc: Global) -> Result<Value, OutOfMemory>
        ensures { IfOk result (λ copy. copy ≡ self.now) }
    {
        match &self.pieces {
            Pieces::Own(pieces) => Ok(Value::from_pieces(copies(alloc, pieces.as_slice())?)),
            Pieces::Shared(shared) => Ok(Value {
                pieces: Pieces::Shared(again(shared)?),
            }),
        }
    }

    /// The pieces, in their order.
    pub fn pieces(&self) -> &[Piece]
        ensures { result.now ≡ self.now }
    {
        match &self.pieces {
            Pieces::Own(pieces) => pieces.as_slice(),
            Pieces::Shared(shared) => shared.as_ref().as_slice(),
        }
    }
}
