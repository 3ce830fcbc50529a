// The evaluation of a text that names a path and its arguments.
ghost use Rattle.std.specs.Prelude.{◌≡◌, ◌<◌, ◌+◌, ◌++◌, true, List, ℕ, length, take, drop, IfOk, Err, None, Some, is_some, option_map, MatchOption};
ghost use Rattle.acts.specs.Vars.{Vars};
ghost use Rattle.ngx_variables.specs.declared.request.Main.{Main as MainView};
ghost use Rattle.ngx_variables.specs.declared.request.Request.{Request as RequestView};
ghost use Rattle.ngx_variables.specs.Texts.{value_text, is_too_long};
ghost use Rattle.request_meaning.specs.Cuts.{cut};
ghost use Rattle.target_text.specs.Settled.{target_text, target_seen, bytes_before_question, before_question as literal_before};

use byte_text::{ByteText, OutOfMemory};
use memchr::memchr;
use ngx_variables::{EvalFault, Main, Piece, Request, Value, VarTable};
use std::alloc::Global;

/// A path and its arguments, where the text has a literal `?` between them.
#[derive(Drop)]
pub struct Target {
    pub path: ByteText,
    pub args: Option<ByteText>,
}

/// What is before the first `?` of a piece that is taken as it is, if it has one.
fn before_question(piece: &Piece) -> Option<&[u8]>
    ensures { option_map (λ bytes. bytes.now) result ≡ literal_before piece.now }
{
    match piece {
        Piece::Literal(bytes) => bytes_before(bytes.as_slice()),
        _ => None,
    }
}

fn has_question(pieces: &[Piece]) -> bool
    ensures { result ≡ is_some (cut pieces.now).args }
{
    for piece in pieces {
        if before_question(piece).is_some() {
            return true;
        }
    }
    false
}

/// The text before the first literal `?`, or all of it where there is none.
fn path_text(alloc: Global, pieces: &[Piece]) -> Result<Value, OutOfMemory>
    ensures { IfOk result (λ path. path ≡ (cut pieces.now).path) }
{
    let mut path = Vec::new(alloc);
    for piece in pieces {
        match before_question(piece) {
            Some(bytes) => {
                path.push(Piece::Literal(ByteText::from_slice(alloc, bytes)?))?;
                return Ok(Value::from_pieces(path));
            }
            None => path.push(piece.copy(alloc)?)?,
        }
    }
    Ok(Value::from_pieces(path))
}

/// What is before the first `?` of these bytes, if they have one.
fn bytes_before(bytes: &[u8]) -> Option<&[u8]>
    ensures { option_map (λ before. before.now) result ≡ bytes_before_question bytes.now }
{
    match memchr(b'?', bytes) {
        Some(at) => Some(&bytes[..at]),
        None => None,
    }
}

/// The length of what comes before the `?` when the text is evaluated.
fn path_len(
    alloc: Global,
    pieces: &[Piece],
    main: &Main,
    request: &Request,
    vars: &VarTable,
) -> Result<usize, EvalFault>
    ensures ok { IfOk result (λ len.
        len ≡ length (value_text main.now request.now vars.now (cut pieces.now).path)) }
    ensures too_long { result ≡ Err EvalFault.TooLong
        → is_too_long (value_text main.now request.now vars.now (cut pieces.now).path) ≡ true }
{
    if let Some(len) = literal_len(pieces) {
        return Ok(len);
    }
    let path = path_text(alloc, pieces)?;
    let mut text = ByteText::new(alloc);
    path.eval(alloc, main, request, vars, &mut text)?;
    Ok(text.len())
}

/// The same where the text begins with bytes that have the `?`.
fn literal_len(pieces: &[Piece]) -> Option<usize>
    ensures { MatchOption result (Unit {0})
        (λ len. (main : MainView) (request : RequestView) (vars : Vars)
        → len ≡ length (value_text main request vars (cut pieces.now).path)) }
{
    match pieces {
        [first, ..] => match before_question(first) {
            Some(bytes) => Some(bytes.len()),
            None => None,
        },
        [] => None,
    }
}

/// A text in two at a place.
fn divided(alloc: Global, text: ByteText, at: usize) -> Result<Target, OutOfMemory>
    requires { at < length text }
    ensures path { IfOk result (λ target. target.path ≡ take at text) }
    ensures args { IfOk result (λ target. target.args ≡ Some (drop (at + 1) text)) }
{
    let args = ByteText::from_slice(alloc, &text.as_slice()[at + 1..])?;
    let mut path = text;
    path.truncate(at);
    Ok(Target {
        path,
        args: Some(args),
    })
}

/// Evaluates a text that names a path and its arguments: the first literal `?` of the text divides them
/// (<https://nginx.org/en/docs/http/ngx_http_rewrite_module.html#rewrite>).
///
/// # Errors
/// `TooLong` where both together have more than 16384 bytes.
pub fn target_of(
    alloc: Global,
    text: &Value,
    main: &Main,
    request: &Request,
    vars: &VarTable,
) -> Result<Target, EvalFault>
    ensures ok { IfOk result (λ target.
        target_text main.now request.now vars.now text.now ≡ Some (target_seen target)) }
    ensures too_long { result ≡ Err EvalFault.TooLong
        → target_text main.now request.now vars.now text.now ≡ None }
{
    let mut whole = ByteText::new(alloc);
    text.eval(alloc, main, request, vars, &mut whole)?;
    if !has_question(text.pieces()) {
        return Ok(Target {
            path: whole,
            args: None,
        });
    }
    let at = path_len(alloc, text.pieces(), main, request, vars)?;
    let target = divided(alloc, whole, at)?;
    Ok(target)
}
