// Whole targets.
ghost use Rattle.std.specs.Prelude.{◌≡◌, ◌≢◌, ◌==◌, ◌||◌, ℕ, ◌≤◌, [], Some, None, Ok, Err, length, is_ok, take, drop, IfErr, OnOk, OnErr, MatchOption};
ghost use Rattle.std.specs.List.{prefix_len, position_or_len};
ghost use Rattle.uri_text.specs.Target.{is_host_byte, ends_host, absolute_of, strip_slash, behind_root, path_and_query, normal_of};

use crate::UriFault;
use crate::path::{is_path, write_path};
use byte_text::{ByteText, OutOfMemory};

/// A target `http://host..` (RFC 9112, section 3.2.2).
#[derive(Clone, Copy)]
pub struct AbsoluteForm<'a> {
    /// The host and, where it is there, its port: at least one byte.
    pub host: &'a [u8],
    /// The path, the query and the fragment. Empty, or beginning with `/`, `?` or `#`.
    pub rest: &'a [u8],
}

fn host_len(text: &[u8]) -> usize
    ensures within { result ≤ length text.now }
    ensures value { result ≡ prefix_len is_host_byte text.now }
{
    for (i, &byte) in text.iter().enumerate() {
        if !(b'!' <= byte && byte <= b'~') || byte == b'/' || byte == b'?' || byte == b'#' {
            return i;
        }
    }
    text.len()
}

fn may_follow_host(rest: &[u8]) -> bool
    ensures { result ≡ ends_host rest.now }
{
    match rest {
        [] => true,
        [first, ..] => *first == b'/' || *first == b'?' || *first == b'#',
    }
}

/// The host of a target `http://host..` and what comes after it; none for any other target.
///
/// The host's bytes are visible ASCII without `/`, `?` and `#`. Takes no memory.
pub fn absolute_form(target: &[u8]) -> Option<AbsoluteForm<'_>>
    ensures { MatchOption result (absolute_of target.now ≡ None)
        (λ form. absolute_of target.now ≡ Some (form.host.now, form.rest.now)) }
{
    if !target.starts_with(b"http://") {
        return None;
    }
    let text = &target[7..];
    let len = host_len(text);
    let host = &text[..len];
    let rest = &text[len..];
    if len > 0 && may_follow_host(rest) {
        Some(AbsoluteForm { host, rest })
    } else {
        None
    }
}

/// What comes after a slash at the front.
fn without_slash(text: &[u8]) -> Option<&[u8]>
    ensures { MatchOption result (strip_slash text.now ≡ None)
        (λ rest. strip_slash text.now ≡ Some rest.now) }
{
    let [first, rest @ ..] = text else {
        return None;
    };
    if *first == b'/' { Some(rest) } else { None }
}

/// What comes after the slash with which the path begins.
#[inline(always)]
fn text_behind_root(target: &[u8]) -> Option<&[u8]>
    ensures { MatchOption result (behind_root target.now ≡ None)
        (λ text. behind_root target.now ≡ Some text.now) }
{
    if let Some(rest) = without_slash(target) {
        return Some(rest);
    }
    let form = absolute_form(target)?;
    match without_slash(form.rest) {
        Some(rest) => Some(rest),
        None => Some(form.rest),
    }
}

fn len_before(text: &[u8], mark: u8) -> usize
    ensures within { result ≤ length text.now }
    ensures value { result ≡ position_or_len (λ b. b == mark) text.now }
{
    for (i, &byte) in text.iter().enumerate() {
        if byte == mark {
            return i;
        }
    }
    text.len()
}

/// A target's text of a path, with its escapes, and its query.
#[derive(Clone, Copy)]
struct Parts<'a> {
    path: &'a [u8],
    query: &'a [u8],
}

/// How many bytes come before the first `#` or `?`.
fn len_before_marks(text: &[u8]) -> usize
    ensures within { result ≤ length text.now }
    ensures value { result ≡ position_or_len (λ b. b == 35 || b == 63) text.now }
{
    for (i, &byte) in text.iter().enumerate() {
        if byte == b'#' || byte == b'?' {
            return i;
        }
    }
    text.len()
}

fn parts_of(text: &[u8]) -> Parts<'_>
    ensures { path_and_query text.now ≡ (result.path.now, result.query.now) }
{
    if len_before_marks(text) == text.len() {
        return Parts {
            path: text,
            query: &[],
        };
    }
    let whole = &text[..len_before(text, b'#')];
    let len = len_before(whole, b'?');
    Parts {
        path: &whole[..len],
        query: &whole[(len + 1).min(whole.len())..],
    }
}

/// Writes the arguments in place of what was there.
fn set_args(query: &[u8], args: &mut ByteText) -> Result<(), OutOfMemory>
    ensures { OnOk result (args.new ≡ query.now) }
{
    args.clear();
    if !query.is_empty() {
        args.extend(query)?;
    }
    Ok(())
}

#[inline(always)]
fn fill(raw: &[u8], merge: bool, path: &mut ByteText, args: &mut ByteText) -> Result<(), UriFault>
    ensures ok { OnOk result (normal_of raw.now merge ≡ Ok (path.new, args.new)) }
    ensures err { IfErr result (λ f. f ≢ UriFault.OutOfMemory → normal_of raw.now merge ≡ Err f) }
{
    let Some(text) = text_behind_root(raw) else {
        return Err(UriFault::NotAPath);
    };
    let parts = parts_of(text);
    write_path(parts.path, merge, path)?;
    set_args(parts.query, args)?;
    Ok(())
}

/// The path and the arguments that a request target names, in place of what `path` and `args` held.
///
/// The target is `/..` or `http://host..`. Its fragment is dropped, and the query begins at the first `?` as it is. In
/// the path `%XX` is decoded, `.` and `..` are resolved (RFC 3986, section 5.2.4), and adjacent slashes are merged
/// where `merge` holds, before `..` is resolved (nginx, `merge_slashes`). Arguments stay as they are.
///
/// # Errors
///
/// The first fault in the text, or [`UriFault::OutOfMemory`]. Both texts are empty then.
#[inline(always)]
pub fn normal(
    raw: &[u8],
    merge: bool,
    path: &mut ByteText,
    args: &mut ByteText,
) -> Result<(), UriFault>
    ensures ok { OnOk result (normal_of raw.now merge ≡ Ok (path.new, args.new)) }
    ensures err { IfErr result (λ f. f ≢ UriFault.OutOfMemory → normal_of raw.now merge ≡ Err f) }
    ensures path_after_err { OnErr result (path.new ≡ []) }
    ensures args_after_err { OnErr result (args.new ≡ []) }
{
    let outcome = fill(raw, merge, path, args);
    if outcome.is_err() {
        path.clear();
        args.clear();
    }
    outcome
}

/// Whether [`normal`] finds no fault in the target. Takes no memory.
pub fn is_target(raw: &[u8], merge: bool) -> bool
    ensures { result ≡ is_ok (normal_of raw.now merge) }
{
    match text_behind_root(raw) {
        Some(text) => is_path(parts_of(text).path, merge),
        None => false,
    }
}
