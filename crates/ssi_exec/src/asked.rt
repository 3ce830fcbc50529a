// What an include asks by its parameters.
ghost use Rattle.std.specs.Prelude.{◌≡◌, ◌&&◌, not, codes, true, false, None, IfSome, option_map, if◌then◌else◌};
ghost use Rattle.request_meaning.specs.Commands.{has as there_is, included_name as name_included, is_wait as is_yes_or_no, is_waited as waits};
ghost use Rattle.ssi_exec.specs.Includes.{Says, go_together};

use crate::words::{has, is_word, param, text_of};
use ssi_text::Param;

/// What the parameters of an include say: the path or the file that it names; the name of its stub's block; the name of the
/// variable into which its body goes; and whether the document waits for its end.
#[derive(Clone, Copy)]
pub struct Asked<'a> {
    pub(crate) name: &'a [u8],
    pub(crate) stub: Option<&'a [u8]>,
    pub(crate) set: Option<&'a [u8]>,
    pub(crate) waited: bool,
}

fn is_wait(text: Option<&[u8]>) -> bool
    ensures { result ≡ is_yes_or_no (option_map (λ t. t.now) text.entry) }
{
    match text {
        Some(text) => is_word(text, b"yes") || is_word(text, b"no"),
        None => true,
    }
}

/// Whether an include names a path, by `virtual` or by `file`.
fn names_one(ps: &[Param]) -> bool
    ensures { result ≡ (if there_is (codes "virtual") ps.now
        then not (there_is (codes "file") ps.now) else there_is (codes "file") ps.now) }
{
    if has(b"virtual", ps) {
        !has(b"file", ps)
    } else {
        has(b"file", ps)
    }
}

/// Whether the parameters of an include go together.
fn go_together(ps: &[Param]) -> bool
    ensures { result ≡ go_together ps.now }
{
    names_one(ps)
        && !(has(b"stub", ps) && has(b"set", ps))
        && !(has(b"wait", ps) && has(b"file", ps))
        && is_wait(param(b"wait", ps))
}

/// Whether the document waits for the end of an include.
fn is_waited(ps: &[Param]) -> bool
    ensures { result ≡ waits ps.now }
{
    has(b"file", ps) || has(b"set", ps) || is_word(text_of(b"wait", ps), b"yes")
}

fn included_name(ps: &[Param]) -> &[u8]
    ensures { result.now ≡ name_included ps.now }
{
    match param(b"virtual", ps) {
        Some(name) => name,
        None => text_of(b"file", ps),
    }
}

/// What parameters say of which `virtual` is the only one, as of most includes: no other is looked for.
fn read_alone(ps: &[Param]) -> Option<Asked<'_>>
    ensures { IfSome result (λ asked. (go_together ps.now ≡ true) × Says asked ps.now) }
{
    match ps {
        [p] => {
            if !is_word(p.name.as_slice(), b"virtual") {
                return None;
            }
            Some(Asked {
                name: p.value.as_slice(),
                stub: None,
                set: None,
                waited: false,
            })
        }
        _ => None,
    }
}

/// What the parameters of an include say, where they go together.
#[inline(always)]
pub(crate) fn read_asked(ps: &[Param]) -> Option<Asked<'_>>
    ensures some { IfSome result (λ asked. (go_together ps.now ≡ true) × Says asked ps.now) }
    ensures none { result ≡ None → go_together ps.now ≡ false }
{
    if let Some(asked) = read_alone(ps) {
        return Some(asked);
    }
    if !go_together(ps) {
        return None;
    }
    Some(Asked {
        name: included_name(ps),
        stub: param(b"stub", ps),
        set: param(b"set", ps),
        waited: is_waited(ps),
    })
}
