// The text of a variable as a document shows it: dates are in the document's format, also in the text of `root` or `alias`.
ghost use Rattle.std.specs.Prelude.{◌≡◌, ℕ, ◌+◌, ◌<◌, ◌≤◌, List, [], ◌∷◌, ◌++◌, length, OnOk, IfOk};
ghost use Rattle.ssi_values.specs.Known.{known_seen};
ghost use Rattle.ssi_values.specs.Dated.{special_of, piece_value, inner_value, root_value, paths_with, paths_of};

use crate::sight::Sight;
use byte_text::{ByteText, OutOfMemory};
use http_moment::shown;
use ngx_variables::{FileRoot, Piece, Variable, joined};
use std::alloc::Global;

/// The most bytes of an evaluated text.
pub(crate) const TEXT_LIMIT: usize = 16384;

/// What a document may show otherwise than its request does: a date, and the paths whose text may have one.
#[derive(Clone, Copy)]
pub enum Special {
    Date,
    Root,
    File,
}

fn special_of(piece: &Piece) -> Option<Special>
    ensures { result ≡ special_of piece.now }
{
    match piece {
        Piece::Builtin(Variable::DateGmt) => Some(Special::Date),
        Piece::Builtin(Variable::DateLocal) => Some(Special::Date),
        Piece::Builtin(Variable::DocumentRoot) => Some(Special::Root),
        Piece::Builtin(Variable::RequestFilename) => Some(Special::File),
        _ => None,
    }
}

/// Writes the main request's moment in the document's format, up to a `%` in it that begins no conversion.
fn append_date(sight: &Sight<'_>, out: &mut ByteText) -> Result<(), OutOfMemory>
    ensures { OnOk result (out.new ≡ out.old ++ (known_seen sight.now).main.date) }
{
    let _whole = shown(sight.format, sight.main.moment, out)?;
    Ok(())
}

/// Writes a piece of the text of `root` or `alias`, which itself knows neither.
fn append_inner(
    alloc: Global,
    sight: &Sight<'_>,
    piece: &Piece,
    out: &mut ByteText,
) -> Result<(), OutOfMemory>
    ensures { OnOk result (out.new ≡ out.old ++ inner_value (known_seen sight.now) piece.now) }
{
    match special_of(piece) {
        Some(Special::Date) => append_date(sight, out),
        Some(Special::Root) => Ok(()),
        Some(Special::File) => Ok(()),
        None => piece.append(alloc, sight.main, sight.request, sight.vars, out),
    }
}

/// The text of `root` or `alias`, however long it is.
#[tactic(auto, unfolding(ngx_variables::specs::Texts::pieces_text))]
fn root_text(alloc: Global, sight: &Sight<'_>, place: &FileRoot) -> Result<ByteText, OutOfMemory>
    ensures { IfOk result (λ text. text ≡ root_value (known_seen sight.now) place.now) }
{
    let mut text = ByteText::new(alloc);
    for piece in place.text().pieces() {
        append_inner(alloc, sight, piece, &mut text)?;
    }
    Ok(text)
}

/// Writes the path of the file by the root's text, or that text itself where it is too long.
#[tactic(auto, unfolding(ngx_variables::specs::Texts::is_too_long))]
fn append_joined(
    alloc: Global,
    sight: &Sight<'_>,
    place: &FileRoot,
    root: &[u8],
    out: &mut ByteText,
) -> Result<(), OutOfMemory>
    ensures { OnOk result
        (out.new ≡ out.old ++ (paths_with (known_seen sight.now) place.now root.now).file) }
{
    if root.len() > TEXT_LIMIT {
        out.extend(root)?;
        return Ok(());
    }
    let path = sight.request.path.as_slice();
    joined(alloc, place, root, path, sight.main.folder.as_slice(), out)?;
    Ok(())
}

/// Writes the text of `root` or `alias` of the request's level, nothing before it has one.
#[tactic(auto, unfolding(ngx_variables::specs::Texts::place_paths, ngx_variables::specs::Texts::paths_at))]
fn append_root(
    alloc: Global,
    sight: &Sight<'_>,
    place: &Option<FileRoot>,
    out: &mut ByteText,
) -> Result<(), OutOfMemory>
    ensures { OnOk result (out.new ≡ out.old ++ (paths_of (known_seen sight.now) place.now).root) }
{
    match place {
        Some(place) => {
            let root = root_text(alloc, sight, place)?;
            out.extend(root.as_slice())?;
            Ok(())
        }
        None => Ok(()),
    }
}

/// Writes the path of the request's file, nothing before its request has a level.
#[tactic(auto, unfolding(ngx_variables::specs::Texts::place_paths, ngx_variables::specs::Texts::paths_at))]
fn append_file(
    alloc: Global,
    sight: &Sight<'_>,
    place: &Option<FileRoot>,
    out: &mut ByteText,
) -> Result<(), OutOfMemory>
    ensures { OnOk result (out.new ≡ out.old ++ (paths_of (known_seen sight.now) place.now).file) }
{
    match place {
        Some(place) => {
            let root = root_text(alloc, sight, place)?;
            append_joined(alloc, sight, place, root.as_slice(), out)?;
            Ok(())
        }
        None => Ok(()),
    }
}

/// Writes the text of a piece as the document shows it, however long it is.
pub(crate) fn append_dated(
    alloc: Global,
    sight: &Sight<'_>,
    piece: &Piece,
    out: &mut ByteText,
) -> Result<(), OutOfMemory>
    ensures { OnOk result (out.new ≡ out.old ++ piece_value (known_seen sight.now) piece.now) }
{
    match special_of(piece) {
        Some(Special::Date) => append_date(sight, out),
        Some(Special::Root) => append_root(alloc, sight, &sight.request.place, out),
        Some(Special::File) => append_file(alloc, sight, &sight.request.place, out),
        None => piece.append(alloc, sight.main, sight.request, sight.vars, out),
    }
}
