// Where the file of a request is.
ghost use Rattle.std.specs.Prelude.{◌≡◌, ℕ, ◌+◌, ◌-◌, ◌<◌, ◌≤◌, List, [], ◌∷◌, ◌++◌, length, take, drop, false, IfOk, OnOk, OnErr};
ghost use Rattle.ngx_variables.specs.Grammar.{begins_with};
ghost use Rattle.ngx_variables.specs.Paths.{text_of, without_last_slash, merged, start, without_prefix, behind_start, joined};

use crate::request::FileRoot;
use crate::value::Value;
use byte_text::{ByteText, OutOfMemory};
use std::alloc::Global;

impl FileRoot {
    /// The same place once more.
    #[inline(always)]
    pub fn copy(&self, alloc: Global) -> Result<FileRoot, OutOfMemory>
        ensures { IfOk result (λ copy. copy ≡ self.now) }
    {
        match self {
            FileRoot::Root(text) => Ok(FileRoot::Root(text.copy(alloc)?)),
            FileRoot::Rest { text, prefix } => {
                let text = text.copy(alloc)?;
                let prefix = ByteText::from_slice(alloc, prefix.as_slice())?;
                Ok(FileRoot::Rest { text, prefix })
            }
            FileRoot::Whole(text) => Ok(FileRoot::Whole(text.copy(alloc)?)),
        }
    }

    /// The text of `root` or `alias`.
    pub fn text(&self) -> &Value
        ensures { result.now ≡ text_of self.now }
    {
        match self {
            FileRoot::Root(text) => text,
            FileRoot::Rest { text, prefix: _ } => text,
            FileRoot::Whole(text) => text,
        }
    }
}

#[tactic(auto, unfolding(crate::specs::Paths::without_last_slash))]
fn without_last_slash(text: &[u8]) -> &[u8]
    ensures { result.now ≡ without_last_slash text.now }
{
    match text.last() {
        Some(b'/') => &text[..text.len() - 1],
        _ => text,
    }
}

fn without_prefix<'a>(prefix: &[u8], path: &'a [u8]) -> &'a [u8]
    ensures { result.now ≡ without_prefix prefix.now path.now }
{
    if path.starts_with(prefix) {
        &path[prefix.len()..]
    } else {
        path
    }
}

/// Whether two slashes are neighbours.
#[tactic(auto, unfolding(crate::specs::Paths::merged))]
fn has_double_slash(path: &[u8]) -> bool
    ensures { result ≡ false → merged path.now ≡ path.now }
{
    let mut rest = path;
    while let [first, behind @ ..] = rest {
        if *first == b'/' && begins_with_slash(behind) {
            return true;
        }
        rest = behind;
    }
    false
}

fn begins_with_slash(text: &[u8]) -> bool
    ensures { result ≡ begins_with 47 text.now }
{
    match text {
        [b'/', ..] => true,
        _ => false,
    }
}

/// The path with slashes that are neighbours as one.
#[tactic(auto, unfolding(crate::specs::Paths::merged))]
fn merged(alloc: Global, path: &[u8]) -> Result<ByteText, OutOfMemory>
    ensures { IfOk result (λ text. text ≡ merged path.now) }
{
    let mut text = ByteText::new(alloc);
    let mut rest = path;
    while let [first, behind @ ..] = rest {
        if !(*first == b'/' && begins_with_slash(behind)) {
            text.push(*first)?;
        }
        rest = behind;
    }
    Ok(text)
}

/// Makes slashes that are neighbours one, from `at` on.
fn merge_from(alloc: Global, at: usize, out: &mut ByteText) -> Result<(), OutOfMemory>
    requires { at ≤ length out.old }
    ensures { OnOk result (out.new ≡ take at out.old ++ merged (drop at out.old)) }
{
    if !has_double_slash(&out.as_slice()[at..]) {
        return Ok(());
    }
    let path = merged(alloc, &out.as_slice()[at..])?;
    out.truncate(at);
    out.extend(path.as_slice())?;
    Ok(())
}

/// Drops a slash that is the last byte, from `at` on.
#[inline(always)]
pub fn drop_last_slash(at: usize, out: &mut ByteText)
    requires { at ≤ length out.old }
    ensures { out.new ≡ take at out.old ++ without_last_slash (drop at out.old) }
{
    let size = without_last_slash(&out.as_slice()[at..]).len();
    out.truncate(at + size);
}

/// Writes the path of a file as `joined` does, but with all its slashes. After want of memory `out` is fit to be dropped
/// alone.
#[inline(always)]
pub fn append_whole(
    place: &FileRoot,
    text: &[u8],
    path: &[u8],
    folder: &[u8],
    out: &mut ByteText,
) -> Result<(), OutOfMemory>
    ensures { OnOk result (out.new ≡ out.old
        ++ (start folder.now text.now ++ behind_start place.now text.now path.now)) }
{
    let size = folder.len().saturating_add(text.len());
    out.reserve(size.saturating_add(path.len()).saturating_add(1))?;
    append_start(folder, text, out)?;
    append_behind(place, text, path, out)?;
    Ok(())
}

/// Writes the path of a file: `text` is what the text of `root` or `alias` evaluates to, `path` the request's path, and
/// `folder` where a relative text starts. Slashes that are neighbours are one, and a last one is dropped.
///
/// Whether such a path may name a file, with its segments `.` and `..`, is not asked here. After want of memory `out`
/// is fit to be dropped alone.
#[tactic(auto, unfolding(crate::specs::Paths::joined))]
pub fn joined(
    alloc: Global,
    place: &FileRoot,
    text: &[u8],
    path: &[u8],
    folder: &[u8],
    out: &mut ByteText,
) -> Result<(), OutOfMemory>
    ensures { OnOk result (out.new ≡ out.old ++ joined place.now text.now path.now folder.now) }
{
    let at = out.len();
    append_whole(place, text, path, folder, out)?;
    merge_from(alloc, at, out)?;
    drop_last_slash(at, out);
    Ok(())
}

#[inline(always)]
fn append_start(folder: &[u8], text: &[u8], out: &mut ByteText) -> Result<(), OutOfMemory>
    ensures { OnOk result (out.new ≡ out.old ++ start folder.now text.now) }
{
    if !begins_with_slash(text) {
        out.extend(folder)?;
        out.push(b'/')?;
    }
    Ok(())
}

#[inline(always)]
fn append_behind(
    place: &FileRoot,
    text: &[u8],
    path: &[u8],
    out: &mut ByteText,
) -> Result<(), OutOfMemory>
    ensures { OnOk result (out.new ≡ out.old ++ behind_start place.now text.now path.now) }
{
    match place {
        FileRoot::Root(_) => {
            out.extend(without_last_slash(text))?;
            out.extend(path)?;
        }
        FileRoot::Rest { text: _, prefix } => {
            out.extend(text)?;
            out.extend(without_prefix(prefix.as_slice(), path))?;
        }
        FileRoot::Whole(_) => out.extend(text)?,
    }
    Ok(())
}
