// The path of a file.
ghost use Rattle.std.specs.Prelude.{◌≡◌, ℕ, ◌≤◌, ◌<◌, ◌+◌, ◌==◌, true, false, List, ◌++◌, length, Ok, Err};
ghost use Rattle.std.specs.Str.{is_utf8};
ghost use Rattle.file_path.specs.Located.{is_dots, has_dots, has_nul, can_stand, begins_with_mark, goes_with, located, located_at};
ghost use Rattle.file_path.specs.Located.Located.{At, NotThere, TooLong};
ghost use Rattle.ngx_variables.specs.Grammar.{begins_with};
ghost use Rattle.ngx_variables.specs.Paths.{merged, without_last_slash};
ghost use Rattle.ngx_variables.specs.Texts.{is_too_long};

use byte_text::ByteText;
use memchr::memchr;
use ngx_variables::{
    EvalFault, FileRoot, Main, Request, VarTable, append_whole, drop_last_slash, joined,
};
use std::alloc::Global;

/// The most bytes that the text of `root` or `alias` may have.
const TEXT_LIMIT: usize = 16384;

fn is_dots(segment: &[u8]) -> bool
    ensures { result ≡ is_dots segment.now }
{
    segment == b".".as_slice() || segment == b"..".as_slice()
}

/// Whether some segment of a path is `.` or `..`.
fn has_dots(path: &[u8]) -> bool
    ensures { result ≡ has_dots path.now }
{
    let mut rest = path;
    while let Some(at) = memchr(b'/', rest) {
        if is_dots(&rest[..at]) {
            return true;
        }
        rest = &rest[at + 1..];
    }
    is_dots(rest)
}

fn has_nul(path: &[u8]) -> bool
    ensures { result ≡ has_nul path.now }
{
    path.contains(&0)
}

fn is_text(path: &[u8]) -> bool
    ensures { result ≡ is_utf8 path.now }
{
    match std::str::from_utf8(path) {
        Ok(_) => true,
        Err(_) => false,
    }
}

#[tactic(auto, unfolding(ngx_variables::specs::Texts::is_too_long))]
fn is_too_long(text: &[u8]) -> bool
    ensures { result ≡ is_too_long text.now }
{
    text.len() > TEXT_LIMIT
}

/// Whether a file can be at a path: no segment leads to a folder itself or out of it, and the path is UTF-8 text
/// without NUL.
#[tactic(auto, unfolding(crate::specs::Located::can_stand))]
fn can_stand(path: &[u8]) -> bool
    ensures { result ≡ can_stand path.now }
{
    !has_dots(path) && !has_nul(path) && is_text(path)
}

/// Whether a text begins with a slash or a dot.
fn begins_with_mark(text: &[u8]) -> bool
    ensures { result ≡ begins_with_mark text.now }
{
    match text {
        [first, ..] => *first == b'/' || *first == b'.',
        [] => false,
    }
}

fn begins_with_dot(text: &[u8]) -> bool
    ensures { result ≡ begins_with 46 text.now }
{
    match text {
        [b'.', ..] => true,
        _ => false,
    }
}

/// Whether a byte is ASCII and not NUL, and no slash that comes before another or before a dot.
#[inline(always)]
fn goes_with(byte: u8, behind: &[u8]) -> bool
    ensures { result ≡ goes_with byte behind.now }
{
    if byte > b'/' {
        return byte < 128;
    }
    byte != 0 && !(byte == b'/' && begins_with_mark(behind))
}

/// Whether each byte goes with what comes after it, so that a file can be at the path and its slashes stay: one pass says
/// this of most paths.
fn is_clean(path: &[u8]) -> bool
    ensures stands { result ≡ true → can_stand (without_last_slash path.now) ≡ true }
    ensures single { result ≡ true → merged path.now ≡ path.now }
{
    if begins_with_dot(path) {
        return false;
    }
    let mut rest = path;
    while let [byte, behind @ ..] = rest {
        if !goes_with(*byte, behind) {
            return false;
        }
        rest = behind;
    }
    true
}

/// Appends the path to `out` by all tests, as few paths need.
#[inline(never)]
fn path_by_tests(
    alloc: Global,
    place: &FileRoot,
    text: &[u8],
    uri: &[u8],
    folder: &[u8],
    out: &mut ByteText,
) -> Result<bool, EvalFault>
    requires { is_too_long text.now ≡ false }
    ensures there { result ≡ Ok true
        → (path : List ℕ) × (located place.now text.now uri.now folder.now ≡ At path)
        × (out.new ≡ out.old ++ path) }
    ensures not_there { result ≡ Ok false
        → (located place.now text.now uri.now folder.now ≡ NotThere) × (out.new ≡ out.old) }
    ensures too_long { result ≡ Err EvalFault.TooLong → ⊥ }
{
    let start = out.len();
    joined(alloc, place, text, uri, folder, out)?;
    if can_stand(&out.as_slice()[start..]) {
        return Ok(true);
    }
    out.truncate(start);
    Ok(false)
}

/// Appends the path to `out`, where `text` is what the text of `root` or `alias` evaluates to.
#[inline(always)]
pub fn path_under(
    alloc: Global,
    place: &FileRoot,
    text: &[u8],
    uri: &[u8],
    folder: &[u8],
    out: &mut ByteText,
) -> Result<bool, EvalFault>
    ensures there { result ≡ Ok true
        → (path : List ℕ) × (located place.now text.now uri.now folder.now ≡ At path)
        × (out.new ≡ out.old ++ path) }
    ensures not_there { result ≡ Ok false
        → (located place.now text.now uri.now folder.now ≡ NotThere) × (out.new ≡ out.old) }
    ensures too_long { result ≡ Err EvalFault.TooLong
        → (located place.now text.now uri.now folder.now ≡ TooLong) × (out.new ≡ out.old) }
{
    if is_too_long(text) {
        return Err(EvalFault::TooLong);
    }
    let start = out.len();
    append_whole(place, text, uri, folder, out)?;
    if is_clean(&out.as_slice()[start..]) {
        drop_last_slash(start, out);
        return Ok(true);
    }
    out.truncate(start);
    path_by_tests(alloc, place, text, uri, folder, out)
}

/// Appends the path of the file of a path of the site to `out`, and answers whether a file can be there. `out` is as it
/// was where none can.
///
/// # Errors
/// `TooLong` where the text of `root` or `alias` has more than 16384 bytes; `out` is then as it was. After
/// `OutOfMemory` `out` is fit to be dropped alone.
#[inline(always)]
pub fn path_of(
    alloc: Global,
    place: &FileRoot,
    uri: &[u8],
    main: &Main,
    request: &Request,
    vars: &VarTable,
    out: &mut ByteText,
) -> Result<bool, EvalFault>
    ensures there { result ≡ Ok true
        → (path : List ℕ) × (located_at main.now request.now vars.now place.now uri.now ≡ At path)
        × (out.new ≡ out.old ++ path) }
    ensures not_there { result ≡ Ok false
        → (located_at main.now request.now vars.now place.now uri.now ≡ NotThere)
        × (out.new ≡ out.old) }
    ensures too_long { result ≡ Err EvalFault.TooLong
        → (located_at main.now request.now vars.now place.now uri.now ≡ TooLong)
        × (out.new ≡ out.old) }
{
    let folder = main.folder.as_slice();
    if let Some(text) = place.text().literal() {
        return path_under(alloc, place, text, uri, folder, out);
    }
    let mut text = ByteText::new(alloc);
    place.text().eval(alloc, main, request, vars, &mut text)?;
    path_under(alloc, place, text.as_slice(), uri, folder, out)
}
