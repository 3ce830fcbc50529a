// What a text with variables evaluates to.
ghost use Rattle.std.specs.Prelude.{◌≡◌, ℕ, ◌+◌, ◌-◌, ◌<◌, ◌≤◌, Bool, true, false, List, [], ◌∷◌, ◌++◌, length, decimal, OnOk, OnErr, IfOk, IfSome, Err, option_map};
ghost use Rattle.std.specs.Net.Text.{ip_text};
ghost use Rattle.ngx_variables.specs.Words.{protocol_name, question_mark, or_else, behind_host, without_host};
ghost use Rattle.ngx_variables.specs.Texts.{line_text, variable_text, piece_text, pieces_text, no_paths, paths_at, is_too_long, value_text, asks_for_paths, literal_of, IsText};

use crate::argument::argument;
use crate::fault::EvalFault;
use crate::field::{append_fields, cookie, first_field};
use crate::joining::joined;
use crate::request::{FileRoot, Main, Request, method_name};
use crate::value::{Piece, Value};
use crate::variable::Variable;
use byte_text::{ByteText, OutOfMemory};
use http_types::Version;
use std::alloc::Global;
use std::net::IpAddr;
use variable_table::VarTable;

/// The most bytes of an evaluated text.
pub(crate) const TEXT_LIMIT: usize = 16384;

/// The texts of `$document_root` and `$request_filename`.
#[derive(Drop)]
pub struct FilePaths {
    pub root: ByteText,
    pub file: ByteText,
}

#[tactic(auto, unfolding(crate::specs::Words::protocol_name))]
pub(crate) fn protocol_name(version: Version) -> &'static [u8]
    ensures { result.now ≡ protocol_name version }
{
    match version {
        Version::V10 => b"HTTP/1.0",
        Version::V11 => b"HTTP/1.1",
    }
}

pub(crate) fn question_mark(args: &[u8]) -> &'static [u8]
    ensures { result.now ≡ question_mark args.now }
{
    match args {
        [] => b"",
        _ => b"?",
    }
}

pub(crate) fn or_else<'a>(text: &'a [u8], other: &'a [u8]) -> &'a [u8]
    ensures { result.now ≡ or_else text.now other.now }
{
    match text {
        [] => other,
        _ => text,
    }
}

#[tactic(auto, unfolding(crate::specs::Words::behind_host))]
fn behind_host(target: &[u8]) -> &[u8]
    ensures { result.now ≡ behind_host target.now }
{
    let mut rest = target;
    while let [first, behind @ ..] = rest {
        if *first == b'/' || *first == b'?' || *first == b'#' {
            return rest;
        }
        rest = behind;
    }
    rest
}

#[tactic(auto, unfolding(crate::specs::Words::without_host))]
pub(crate) fn without_host(target: &[u8]) -> &[u8]
    ensures { result.now ≡ without_host target.now }
{
    if target.starts_with(b"http://") {
        behind_host(&target[7..])
    } else {
        target
    }
}

fn append_address(alloc: Global, ip: IpAddr, out: &mut ByteText) -> Result<(), OutOfMemory>
    ensures { OnOk result (out.new ≡ out.old ++ ip_text ip) }
{
    let text = format!(in alloc; "{ip}")?;
    out.extend(text.as_bytes())?;
    Ok(())
}

fn append_number(alloc: Global, number: u16, out: &mut ByteText) -> Result<(), OutOfMemory>
    ensures { OnOk result (out.new ≡ out.old ++ decimal number) }
{
    let text = format!(in alloc; "{number}")?;
    out.extend(text.as_bytes())?;
    Ok(())
}

/// Writes the request line as it was received (RFC 9112, section 3).
#[tactic(auto, unfolding(crate::specs::Texts::line_text))]
fn append_line(main: &Main, out: &mut ByteText) -> Result<(), OutOfMemory>
    ensures { OnOk result (out.new ≡ out.old ++ line_text main.now) }
{
    out.extend(method_name(&main.asked))?;
    out.push(b' ')?;
    out.extend(main.target.as_slice())?;
    out.push(b' ')?;
    out.extend(protocol_name(main.version))?;
    Ok(())
}

/// Writes a built-in variable's text.
#[tactic(auto, unfolding(crate::specs::Texts::variable_text))]
fn append_variable(
    alloc: Global,
    variable: Variable,
    paths: &FilePaths,
    main: &Main,
    request: &Request,
    out: &mut ByteText,
) -> Result<(), OutOfMemory>
    ensures { OnOk result (out.new
        ≡ out.old ++ variable_text paths.now main.now request.now variable) }
{
    match variable {
        Variable::Uri => out.extend(request.path.as_slice())?,
        Variable::DocumentUri => out.extend(request.path.as_slice())?,
        Variable::Args => out.extend(request.args.as_slice())?,
        Variable::QueryString => out.extend(request.args.as_slice())?,
        Variable::IsArgs => out.extend(question_mark(request.args.as_slice()))?,
        Variable::DocumentRoot => out.extend(paths.root.as_slice())?,
        Variable::RequestFilename => out.extend(paths.file.as_slice())?,
        Variable::RequestUri => out.extend(without_host(main.target.as_slice()))?,
        Variable::RequestMethod => out.extend(method_name(&main.method))?,
        Variable::ServerProtocol => out.extend(protocol_name(main.version))?,
        Variable::RequestLine => append_line(main, out)?,
        Variable::Host => out.extend(or_else(main.host.as_slice(), main.server_name.as_slice()))?,
        Variable::ContentLength => out.extend(first_field(&main.fields, b"content-length"))?,
        Variable::ContentType => out.extend(first_field(&main.fields, b"content-type"))?,
        Variable::RemoteAddr => append_address(alloc, main.peer.ip, out)?,
        Variable::RemotePort => append_number(alloc, main.peer.port, out)?,
        Variable::ServerAddr => append_address(alloc, main.local.ip, out)?,
        Variable::ServerPort => append_number(alloc, main.local.port, out)?,
        Variable::ServerName => out.extend(main.server_name.as_slice())?,
        Variable::Scheme => out.extend(b"http")?,
        Variable::Https => {}
        Variable::DateGmt => main.date.append_to(out)?,
        Variable::DateLocal => main.date.append_to(out)?,
    }
    Ok(())
}

/// Writes a piece's text.
#[tactic(auto, unfolding(crate::specs::Texts::piece_text))]
pub(crate) fn append_piece(
    alloc: Global,
    piece: &Piece,
    paths: &FilePaths,
    main: &Main,
    request: &Request,
    vars: &VarTable,
    out: &mut ByteText,
) -> Result<(), OutOfMemory>
    ensures { OnOk result (out.new
        ≡ out.old ++ piece_text paths.now main.now request.now vars.now piece.now) }
{
    match piece {
        Piece::Literal(bytes) => out.extend(bytes.as_slice())?,
        Piece::Group(number) => out.extend(request.groups.get(*number))?,
        Piece::Builtin(variable) => append_variable(alloc, *variable, paths, main, request, out)?,
        Piece::Argument(name) => {
            out.extend(argument(name.as_slice(), request.args.as_slice()).unwrap_or(b""))?
        }
        Piece::Field(name) => append_fields(&main.fields, name.as_slice(), out)?,
        Piece::Cookie(name) => { out.extend(cookie(&main.fields, name.as_slice()).unwrap_or(b""))? }
        Piece::Set(name) => out.extend(vars.get(name.as_slice()).unwrap_or(b""))?,
    }
    Ok(())
}

/// Writes the pieces' texts in a row.
#[tactic(auto, unfolding(crate::specs::Texts::pieces_text, crate::specs::Texts::is_too_long))]
fn append_pieces(
    alloc: Global,
    pieces: &[Piece],
    paths: &FilePaths,
    main: &Main,
    request: &Request,
    vars: &VarTable,
    out: &mut ByteText,
) -> Result<(), EvalFault>
    ensures ok { OnOk result (out.new
        ≡ out.old ++ pieces_text paths.now main.now request.now vars.now pieces.now) }
    ensures fits { OnOk result (is_too_long
        (pieces_text paths.now main.now request.now vars.now pieces.now) ≡ false) }
    ensures too_long { result ≡ Err EvalFault.TooLong
        → is_too_long (pieces_text paths.now main.now request.now vars.now pieces.now) ≡ true }
    ensures kept { result ≡ Err EvalFault.TooLong → out.new ≡ out.old }
{
    let start = out.len();
    for piece in pieces {
        append_piece(alloc, piece, paths, main, request, vars, out)?;
        if out.len() - start > TEXT_LIMIT {
            out.truncate(start);
            return Err(EvalFault::TooLong);
        }
    }
    Ok(())
}

/// Whether some piece asks for the root or the file's path.
#[tactic(auto, unfolding(crate::specs::Texts::asks_for_paths))]
fn asks_for_paths(pieces: &[Piece]) -> bool
    ensures { result ≡ asks_for_paths pieces.now }
{
    for piece in pieces {
        match piece {
            Piece::Builtin(Variable::DocumentRoot) => return true,
            Piece::Builtin(Variable::RequestFilename) => return true,
            _ => {}
        }
    }
    false
}

impl FilePaths {
    /// No root and no file's path, which take no memory.
    pub(crate) fn none(alloc: Global) -> Self
        ensures { result ≡ no_paths }
    {
        FilePaths {
            root: ByteText::new(alloc),
            file: ByteText::new(alloc),
        }
    }
}

/// The texts of a place, whose own text knows neither.
#[tactic(auto, unfolding(crate::specs::Texts::paths_at))]
fn paths_at(
    alloc: Global,
    place: &FileRoot,
    main: &Main,
    request: &Request,
    vars: &VarTable,
) -> Result<FilePaths, EvalFault>
    ensures ok { IfOk result (λ paths. paths ≡ paths_at main.now request.now vars.now place.now) }
    ensures too_long { result ≡ Err EvalFault.TooLong
        → is_too_long (paths_at main.now request.now vars.now place.now).root ≡ true }
{
    let mut root = ByteText::new(alloc);
    let mut file = ByteText::new(alloc);
    let none = FilePaths::none(alloc);
    append_pieces(
        alloc,
        place.text().pieces(),
        &none,
        main,
        request,
        vars,
        &mut root,
    )?;
    joined(
        alloc,
        place,
        root.as_slice(),
        request.path.as_slice(),
        main.folder.as_slice(),
        &mut file,
    )?;
    Ok(FilePaths { root, file })
}

/// The texts of the request's place, where the pieces ask for one of them.
fn paths_for(
    alloc: Global,
    pieces: &[Piece],
    main: &Main,
    request: &Request,
    vars: &VarTable,
) -> Result<FilePaths, EvalFault>
    ensures ok { IfOk result (λ paths.
        pieces_text paths main.now request.now vars.now pieces.now
        ≡ value_text main.now request.now vars.now pieces.now) }
    ensures too_long { result ≡ Err EvalFault.TooLong
        → is_too_long (value_text main.now request.now vars.now pieces.now) ≡ true }
{
    match &request.place {
        None => Ok(FilePaths::none(alloc)),
        Some(place) => {
            if !asks_for_paths(pieces) {
                return Ok(FilePaths::none(alloc));
            }
            let paths = paths_at(alloc, place, main, request, vars)?;
            Ok(paths)
        }
    }
}

impl Value {
    /// Appends the text that this text with variables evaluates to. A variable that was not set is empty.
    ///
    /// # Errors
    /// `TooLong` where the text, or the text of `root` or `alias` that it asks for, has more than 16384 bytes; `out` is
    /// then as it was. After `OutOfMemory` `out` is fit to be dropped alone.
    pub fn eval(
        &self,
        alloc: Global,
        main: &Main,
        request: &Request,
        vars: &VarTable,
        out: &mut ByteText,
    ) -> Result<(), EvalFault>
        ensures ok { OnOk result (out.new
            ≡ out.old ++ value_text main.now request.now vars.now self.now) }
        ensures fits { OnOk result (is_too_long (value_text main.now request.now vars.now self.now)
            ≡ false) }
        ensures too_long { result ≡ Err EvalFault.TooLong
            → is_too_long (value_text main.now request.now vars.now self.now) ≡ true }
        ensures kept { result ≡ Err EvalFault.TooLong → out.new ≡ out.old }
    {
        let pieces = self.pieces();
        let paths = paths_for(alloc, pieces, main, request, vars)?;
        append_pieces(alloc, pieces, &paths, main, request, vars, out)?;
        Ok(())
    }

    /// The text itself, where it is the same for every request: it has no variables.
    #[tactic(auto, unfolding(crate::specs::Texts::value_text, crate::specs::Texts::pieces_text, crate::specs::Texts::piece_text))]
    pub fn literal(&self) -> Option<&[u8]>
        ensures value { option_map (λ text. text.now) result ≡ literal_of self.now }
        ensures text { IfSome result (λ text. IsText self.now text.now) }
    {
        match self.pieces() {
            [] => Some(&[]),
            [Piece::Literal(bytes)] => Some(bytes.as_slice()),
            _ => None,
        }
    }
}
