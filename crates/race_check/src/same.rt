// Whether texts are the same, and whether they are of literals and variables of the main request.
ghost use Rattle.std.specs.Prelude.{◌≡◌};
ghost use Rattle.std.specs.List.{list_all};
ghost use Rattle.race_meaning.specs.Named.{is_of_main as of_main, is_steady_piece as steady_piece, same_piece as equal_piece, same_text as equal_text};

use ngx_variables::{Piece, Value, Variable};

/// The main request's in every subrequest.
fn is_of_main(variable: Variable) -> bool
    ensures { result ≡ of_main variable }
{
    match variable {
        Variable::Uri
        | Variable::DocumentUri
        | Variable::Args
        | Variable::QueryString
        | Variable::IsArgs
        | Variable::DocumentRoot
        | Variable::RequestFilename => false,
        Variable::RequestUri
        | Variable::RequestMethod
        | Variable::ServerProtocol
        | Variable::RequestLine
        | Variable::Host
        | Variable::ContentLength
        | Variable::ContentType
        | Variable::RemoteAddr
        | Variable::RemotePort
        | Variable::ServerAddr
        | Variable::ServerPort
        | Variable::ServerName
        | Variable::Scheme
        | Variable::Https
        | Variable::DateGmt
        | Variable::DateLocal => true,
    }
}

fn is_steady_piece(piece: &Piece) -> bool
    ensures { result ≡ steady_piece piece.now }
{
    match piece {
        Piece::Literal(_) | Piece::Field(_) | Piece::Cookie(_) => true,
        Piece::Builtin(variable) => is_of_main(*variable),
        Piece::Group(_) | Piece::Argument(_) | Piece::Set(_) => false,
    }
}

/// Whether a text has literals and variables of the main request alone.
pub fn is_steady(text: &Value) -> bool
    ensures { result ≡ list_all steady_piece text.now }
{
    for piece in text.pieces() {
        if !is_steady_piece(piece) {
            return false;
        }
    }
    true
}

fn same_piece(a: &Piece, b: &Piece) -> bool
    ensures { result ≡ equal_piece a.now b.now }
{
    match (a, b) {
        (Piece::Literal(a), Piece::Literal(b)) => a.as_slice() == b.as_slice(),
        (Piece::Group(a), Piece::Group(b)) => *a == *b,
        (Piece::Builtin(a), Piece::Builtin(b)) => a.name() == b.name(),
        (Piece::Argument(a), Piece::Argument(b)) => a.as_slice() == b.as_slice(),
        (Piece::Field(a), Piece::Field(b)) => a.as_slice() == b.as_slice(),
        (Piece::Cookie(a), Piece::Cookie(b)) => a.as_slice() == b.as_slice(),
        (Piece::Set(a), Piece::Set(b)) => a.as_slice() == b.as_slice(),
        _ => false,
    }
}

/// Whether two texts have the same pieces.
pub fn same_text(a: &Value, b: &Value) -> bool
    ensures { result ≡ equal_text a.now b.now }
{
    same_pieces(a.pieces(), b.pieces())
}

fn same_pieces(a: &[Piece], b: &[Piece]) -> bool
    ensures { result ≡ equal_text a.now b.now }
{
    if a.len() != b.len() {
        return false;
    }
    for at in 0..a.len() {
        if !same_piece(&a[at], &b[at]) {
            return false;
        }
    }
    true
}
