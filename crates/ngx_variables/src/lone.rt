// The text of a piece alone, which may be of any length.
ghost use Rattle.std.specs.Prelude.{◌≡◌, ℕ, ◌+◌, ◌<◌, ◌≤◌, List, [], ◌∷◌, ◌++◌, length, OnOk, IfOk, IfSome};
ghost use Rattle.ngx_variables.specs.declared.eval.FilePaths.{FilePaths as Paths};
ghost use Rattle.ngx_variables.specs.Texts.{variable_text, piece_text, pieces_text, is_path, paths_by, paths_at, place_paths, value_text};

use crate::argument::argument;
use crate::eval::{
    FilePaths, TEXT_LIMIT, append_piece, or_else, protocol_name, question_mark, without_host,
};
use crate::field::{cookie, first_field};
use crate::joining::joined;
use crate::request::{FileRoot, Main, Request, method_name};
use crate::value::Piece;
use crate::variable::Variable;
use byte_text::{ByteText, OutOfMemory};
use std::alloc::Global;
use variable_table::VarTable;

/// A built-in variable's text, where it is somewhere already.
#[tactic(auto, unfolding(crate::specs::Texts::variable_text))]
fn borrowed_variable<'a>(
    variable: Variable,
    main: &'a Main,
    request: &'a Request,
) -> Option<&'a [u8]>
    ensures { IfSome result (λ text. (paths : Paths)
        → text.now ≡ variable_text paths main.now request.now variable) }
{
    match variable {
        Variable::Uri => Some(request.path.as_slice()),
        Variable::DocumentUri => Some(request.path.as_slice()),
        Variable::Args => Some(request.args.as_slice()),
        Variable::QueryString => Some(request.args.as_slice()),
        Variable::IsArgs => Some(question_mark(request.args.as_slice())),
        Variable::DocumentRoot => None,
        Variable::RequestFilename => None,
        Variable::RequestUri => Some(without_host(main.target.as_slice())),
        Variable::RequestMethod => Some(method_name(&main.method)),
        Variable::ServerProtocol => Some(protocol_name(main.version)),
        Variable::RequestLine => None,
        Variable::Host => Some(or_else(main.host.as_slice(), main.server_name.as_slice())),
        Variable::ContentLength => Some(first_field(&main.fields, b"content-length")),
        Variable::ContentType => Some(first_field(&main.fields, b"content-type")),
        Variable::RemoteAddr => None,
        Variable::RemotePort => None,
        Variable::ServerAddr => None,
        Variable::ServerPort => None,
        Variable::ServerName => Some(main.server_name.as_slice()),
        Variable::Scheme => Some(b"http"),
        Variable::Https => Some(&[]),
        Variable::DateGmt => None,
        Variable::DateLocal => None,
    }
}

/// A piece's text, where it is somewhere already.
#[tactic(auto, unfolding(crate::specs::Texts::piece_text))]
fn borrowed_piece<'a>(
    piece: &'a Piece,
    main: &'a Main,
    request: &'a Request,
    vars: &'a VarTable,
) -> Option<&'a [u8]>
    ensures { IfSome result (λ text. (paths : Paths)
        → text.now ≡ piece_text paths main.now request.now vars.now piece.now) }
{
    match piece {
        Piece::Literal(bytes) => Some(bytes.as_slice()),
        Piece::Group(number) => Some(request.groups.get(*number)),
        Piece::Builtin(variable) => borrowed_variable(*variable, main, request),
        Piece::Argument(name) => {
            Some(argument(name.as_slice(), request.args.as_slice()).unwrap_or(b""))
        }
        Piece::Field(_) => None,
        Piece::Cookie(name) => Some(cookie(&main.fields, name.as_slice()).unwrap_or(b"")),
        Piece::Set(name) => Some(vars.get(name.as_slice()).unwrap_or(b"")),
    }
}

/// Writes the pieces' texts in a row, however long they are.
#[tactic(auto, unfolding(crate::specs::Texts::pieces_text))]
fn append_all(
    alloc: Global,
    pieces: &[Piece],
    paths: &FilePaths,
    main: &Main,
    request: &Request,
    vars: &VarTable,
    out: &mut ByteText,
) -> Result<(), OutOfMemory>
    ensures { OnOk result
        (out.new ≡ out.old ++ pieces_text paths.now main.now request.now vars.now pieces.now) }
{
    for piece in pieces {
        append_piece(alloc, piece, paths, main, request, vars, out)?;
    }
    Ok(())
}

/// The path of the file by the root's text, or that text itself where it is too long.
#[tactic(auto, unfolding(crate::specs::Texts::is_too_long))]
fn file_by(
    alloc: Global,
    place: &FileRoot,
    root: &[u8],
    path: &[u8],
    folder: &[u8],
) -> Result<ByteText, OutOfMemory>
    ensures { IfOk result (λ file. file ≡ (paths_by place.now root.now path.now folder.now).file) }
{
    if root.len() > TEXT_LIMIT {
        return ByteText::from_slice(alloc, root);
    }
    let mut file = ByteText::new(alloc);
    joined(alloc, place, root, path, folder, &mut file)?;
    Ok(file)
}

/// The texts of a place, however long they are.
#[tactic(auto, unfolding(crate::specs::Texts::paths_at))]
fn whole_paths_at(
    alloc: Global,
    place: &FileRoot,
    main: &Main,
    request: &Request,
    vars: &VarTable,
) -> Result<FilePaths, OutOfMemory>
    ensures { IfOk result (λ paths. paths ≡ paths_at main.now request.now vars.now place.now) }
{
    let mut root = ByteText::new(alloc);
    let none = FilePaths::none(alloc);
    let pieces = place.text().pieces();
    append_all(alloc, pieces, &none, main, request, vars, &mut root)?;
    let path = request.path.as_slice();
    let file = file_by(alloc, place, root.as_slice(), path, main.folder.as_slice())?;
    Ok(FilePaths { root, file })
}

/// The texts of the request's place, however long they are.
#[tactic(auto, unfolding(crate::specs::Texts::place_paths))]
fn whole_paths(
    alloc: Global,
    main: &Main,
    request: &Request,
    vars: &VarTable,
) -> Result<FilePaths, OutOfMemory>
    ensures { IfOk result (λ paths.
        paths ≡ place_paths main.now request.now vars.now request.now.place) }
{
    match &request.place {
        Some(place) => whole_paths_at(alloc, place, main, request, vars),
        None => Ok(FilePaths::none(alloc)),
    }
}

fn is_path(piece: &Piece) -> bool
    ensures { result ≡ is_path piece.now }
{
    match piece {
        Piece::Builtin(Variable::DocumentRoot) => true,
        Piece::Builtin(Variable::RequestFilename) => true,
        _ => false,
    }
}

/// The texts of the request's place, where the piece asks for one of them.
fn paths_for(
    alloc: Global,
    piece: &Piece,
    main: &Main,
    request: &Request,
    vars: &VarTable,
) -> Result<FilePaths, OutOfMemory>
    ensures { IfOk result (λ paths. piece_text paths main.now request.now vars.now piece.now
        ≡ value_text main.now request.now vars.now (piece.now ∷ [])) }
{
    if is_path(piece) {
        return whole_paths(alloc, main, request, vars);
    }
    Ok(FilePaths::none(alloc))
}

impl Piece {
    /// The text that the piece alone evaluates to, where it is somewhere already, so that it takes no memory. `None`
    /// for one that is to be written, by `append`.
    pub fn borrowed<'a>(
        &'a self,
        main: &'a Main,
        request: &'a Request,
        vars: &'a VarTable,
    ) -> Option<&'a [u8]>
        ensures { IfSome result (λ text.
            text.now ≡ value_text main.now request.now vars.now (self.now ∷ [])) }
    {
        borrowed_piece(self, main, request, vars)
    }

    /// Appends the text that the piece alone evaluates to, however long it is. After want of memory `out` is fit to be
    /// dropped alone.
    pub fn append(
        &self,
        alloc: Global,
        main: &Main,
        request: &Request,
        vars: &VarTable,
        out: &mut ByteText,
    ) -> Result<(), OutOfMemory>
        ensures { OnOk result
            (out.new ≡ out.old ++ value_text main.now request.now vars.now (self.now ∷ [])) }
    {
        let paths = paths_for(alloc, self, main, request, vars)?;
        append_piece(alloc, self, &paths, main, request, vars, out)?;
        Ok(())
    }
}
