// The names of a folder.
ghost use Rattle.std.specs.Prelude.{◌≡◌, ◌≢◌, ◌++◌, ◌∷◌, ◌↔◌, ℕ, List, [], IsTrue, MatchOption, OnOk, Contains, length, drop};
ghost use Rattle.file_tree.specs.Tree.{IsChild, child_path};
ghost use Rattle.memory_outside.specs.Stored.{item_in};
ghost use Rattle.memory_outside.specs.Names.{front_of, IsName, AddsNames, AddsName};

use crate::files::{Stored, is_there};
use byte_text::{ByteText, ByteTexts, OutOfMemory};
use std::alloc::Global;

// What is before the slash of a folder's children.
fn front(folder: &[u8]) -> &[u8]
    ensures { result.now ≡ front_of folder.now }
{
    match folder {
        [b'/'] => &[],
        _ => folder,
    }
}

fn is_name(bytes: &[u8]) -> bool
    ensures { IsTrue result ↔ IsName bytes.now }
{
    !bytes.is_empty() && !bytes.contains(&b'/')
}

// What is after a prefix.
fn after<'a>(prefix: &[u8], bytes: &'a [u8]) -> Option<&'a [u8]>
    ensures { MatchOption result ((rest : List ℕ) → bytes.now ≢ prefix.now ++ rest)
        (λ r. bytes.now ≡ prefix.now ++ r.now) }
{
    bytes.strip_prefix(prefix)
}

// The name in the folder whose path this is, if it is one's.
fn child_name<'a>(folder: &[u8], path: &'a [u8]) -> Option<&'a [u8]>
    ensures { MatchOption result ((name : List ℕ) → IsName name →
        path.now ≢ child_path folder.now name)
        (λ n. IsName n.now × (path.now ≡ child_path folder.now n.now)) }
{
    let Some(rest) = after(front(folder), path) else {
        return None;
    };
    let Some(name) = after(b"/".as_slice(), rest) else {
        return None;
    };
    if is_name(name) { Some(name) } else { None }
}

fn is_among(texts: &[ByteText], name: &[u8]) -> bool
    ensures { IsTrue result → Contains texts.now name.now }
{
    for text in texts {
        if text.as_slice() == name {
            return true;
        }
    }
    false
}

// Adds the name of an entry, if it is one of the folder that is there, and wasn't added yet.
fn add_name(
    alloc: Global,
    items: &[Stored],
    entry: &Stored,
    folder: &[u8],
    of: u64,
    start: usize,
    out: &mut ByteTexts,
) -> Result<(), OutOfMemory>
    ensures { OnOk result (AddsName
        (item_in items.now of) folder.now entry.now.path start out.old out.new) }
{
    let Some(name) = child_name(folder, entry.path.as_slice()) else {
        return Ok(());
    };
    if !is_there(items, entry.path.as_slice(), of) {
        return Ok(());
    }
    if is_among(rest_of(out.as_slice(), start), name) {
        return Ok(());
    }
    let copy = ByteText::from_slice(alloc, name)?;
    out.push(copy)?;
    Ok(())
}

// The texts from a place on.
fn rest_of(texts: &[ByteText], start: usize) -> &[ByteText]
    ensures { result.now ≡ drop start texts.now }
{
    if start < texts.len() {
        &texts[start..]
    } else {
        &[]
    }
}

/// Adds the names of a folder of the tree of a number, each once.
pub(crate) fn add_names(
    alloc: Global,
    items: &[Stored],
    folder: &[u8],
    of: u64,
    out: &mut ByteTexts,
) -> Result<(), OutOfMemory>
    ensures { OnOk result (AddsNames (item_in items.now of) folder.now out.old out.new) }
{
    let start = out.len();
    for entry in items {
        add_name(alloc, items, entry, folder, of, start, out)?;
    }
    Ok(())
}
