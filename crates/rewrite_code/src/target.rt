// The text of a `rewrite`, in two at its first literal `?`.
ghost use Rattle.std.specs.Prelude.{◌≡◌, ℕ, ◌+◌, ◌-◌, ◌<◌, ◌≤◌, ◌==◌, Bool, true, false, List, [], ◌∷◌, ◌++◌, length, take, drop, None, Some, option_map, is_some, IfOk, OnOk, MatchOption};
ghost use Rattle.std.specs.List.{position};
ghost use Rattle.ngx_variables.specs.Texts.{value_text};
ghost use Rattle.request_meaning.specs.Cuts.{cut, is_question, ends_in_question, rewritten_args, with_args};
ghost use Rattle.rewrite_code.specs.Texts.{before_question, path_in, fit_of, target_of, aim_seen};

use crate::text::fit_text;
use byte_text::{ByteText, OutOfMemory};
use ngx_variables::{Main, Piece, Request, Value, VarTable};
use std::alloc::Global;

/// What such a text evaluates to: a path and, where a `?` is in the text, arguments.
#[derive(Drop)]
pub struct Aim {
    pub path: ByteText,
    pub args: Option<ByteText>,
}

/// Where the first `?` is.
fn question_place(bytes: &[u8]) -> Option<usize>
    ensures { result ≡ position is_question bytes.now }
{
    bytes.iter().position(|b| *b == b'?')
}

/// The first bytes of a text.
fn front(bytes: &[u8], size: usize) -> &[u8]
    requires { size ≤ length bytes.now }
    ensures { result.now ≡ take size bytes.now }
{
    &bytes[..size]
}

/// What comes before the first `?`, if there is one.
fn before_question(bytes: &[u8]) -> Option<&[u8]>
    ensures { option_map (λ text. text.now) result ≡ before_question bytes.now }
{
    match question_place(bytes) {
        Some(at) => Some(front(bytes, at)),
        None => None,
    }
}

/// The same in a piece that is taken as it is.
fn path_in(piece: &Piece) -> Option<&[u8]>
    ensures { option_map (λ text. text.now) result ≡ path_in piece.now }
{
    match piece {
        Piece::Literal(bytes) => before_question(bytes.as_slice()),
        _ => None,
    }
}

/// Whether a literal `?` is in the text.
#[tactic(auto, unfolding(request_meaning::specs::Cuts::cut))]
fn has_question(pieces: &[Piece]) -> bool
    ensures { result ≡ is_some (cut pieces.now).args }
{
    for piece in pieces {
        if path_in(piece).is_some() {
            return true;
        }
    }
    false
}

/// Writes what comes before the first literal `?`.
#[tactic(auto, using(crate::proofs::Cuts::path_more_at, crate::proofs::Cuts::path_ends_at, crate::proofs::Cuts::path_over))]
fn append_path(
    alloc: Global,
    pieces: &[Piece],
    main: &Main,
    request: &Request,
    vars: &VarTable,
    out: &mut ByteText,
) -> Result<(), OutOfMemory>
    ensures { OnOk result
        (out.new ≡ out.old ++ value_text main.now request.now vars.now (cut pieces.now).path) }
{
    for piece in pieces {
        match path_in(piece) {
            Some(text) => {
                out.extend(text)?;
                return Ok(());
            }
            None => piece.append(alloc, main, request, vars, out)?,
        }
    }
    Ok(())
}

/// What follows the first bytes and one more.
fn behind(text: &[u8], size: usize) -> &[u8]
    ensures { result.now ≡ drop (size + 1) text.now }
{
    if size < text.len() {
        &text[size + 1..]
    } else {
        &[]
    }
}

/// What the text of a `rewrite` that fits evaluates to, by all of it.
#[tactic(auto, using(crate::proofs::Cuts::aims_at_all, crate::proofs::Cuts::aims_at))]
fn aim_at(
    alloc: Global,
    to: &Value,
    whole: ByteText,
    main: &Main,
    request: &Request,
    vars: &VarTable,
) -> Result<Aim, OutOfMemory>
    requires { Some whole ≡ fit_of main.now request.now vars.now to.now }
    ensures { IfOk result (λ aim.
        Some (aim_seen aim) ≡ target_of main.now request.now vars.now to.now) }
{
    if !has_question(to.pieces()) {
        return Ok(Aim {
            path: whole,
            args: None,
        });
    }
    let mut path = ByteText::new(alloc);
    append_path(alloc, to.pieces(), main, request, vars, &mut path)?;
    let args = ByteText::from_slice(alloc, behind(whole.as_slice(), path.len()))?;
    Ok(Aim {
        path,
        args: Some(args),
    })
}

/// What the text of a `rewrite` evaluates to; `None` where it is too long.
#[tactic(auto, using(crate::proofs::Cuts::aims_nowhere))]
pub(crate) fn aim_of(
    alloc: Global,
    to: &Value,
    main: &Main,
    request: &Request,
    vars: &VarTable,
) -> Result<Option<Aim>, OutOfMemory>
    ensures { IfOk result (λ aim.
        option_map aim_seen aim ≡ target_of main.now request.now vars.now to.now) }
{
    match fit_text(alloc, to, main, request, vars)? {
        Some(whole) => {
            let aim = aim_at(alloc, to, whole, main, request, vars)?;
            Ok(Some(aim))
        }
        None => Ok(None),
    }
}

/// Whether the text ends with a literal `?`.
#[tactic(auto, unfolding(request_meaning::specs::Cuts::ends_in_question))]
fn ends_in_question(pieces: &[Piece]) -> bool
    ensures { result ≡ ends_in_question pieces.now }
{
    let mut rest = pieces;
    while let [first, behind @ ..] = rest {
        if behind.is_empty() {
            return is_ended(first);
        }
        rest = behind;
    }
    false
}

/// Whether a last piece ends with a literal `?`.
#[tactic(auto, unfolding(request_meaning::specs::Cuts::ends_in_question))]
fn is_ended(piece: &Piece) -> bool
    ensures { result ≡ ends_in_question (piece.now ∷ []) }
{
    match piece {
        Piece::Literal(bytes) => bytes.as_slice().ends_with(b"?"),
        _ => false,
    }
}

/// The new arguments: the old ones come after them, unless the text ends with `?`, which is dropped.
#[tactic(auto, unfolding(request_meaning::specs::Cuts::rewritten_args))]
fn joined_args(old: &[u8], mut new: ByteText, ends: bool) -> Result<ByteText, OutOfMemory>
    ensures { IfOk result (λ args. args ≡ rewritten_args old.now (Some new) ends) }
{
    if ends {
        new.truncate(new.len().saturating_sub(1));
        return Ok(new);
    }
    if !old.is_empty() {
        new.push(b'&')?;
        new.extend(old)?;
    }
    Ok(new)
}

/// The arguments after a `rewrite`: without a `?` in its text the old ones stay.
#[tactic(auto, unfolding(request_meaning::specs::Cuts::rewritten_args))]
pub(crate) fn rewritten_args(
    alloc: Global,
    to: &Value,
    old: &[u8],
    new: Option<ByteText>,
) -> Result<ByteText, OutOfMemory>
    ensures { IfOk result (λ args. args ≡ rewritten_args old.now new (ends_in_question to.now)) }
{
    match new {
        Some(new) => joined_args(old, new, ends_in_question(to.pieces())),
        None => ByteText::from_slice(alloc, old),
    }
}

/// `path?args`, or the path where there are no arguments.
pub(crate) fn with_args(mut path: ByteText, args: &[u8]) -> Result<ByteText, OutOfMemory>
    ensures { IfOk result (λ to. to ≡ with_args path args.now) }
{
    if !args.is_empty() {
        path.push(b'?')?;
        path.extend(args)?;
    }
    Ok(path)
}
