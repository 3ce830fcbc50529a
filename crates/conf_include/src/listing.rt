// The files that an include names.
ghost use Rattle.std.specs.Prelude.{◌≡◌, ◌≤◌, ◌↔◌, ◌++◌, ℕ, List, true, IfOk, Contains, map, filter};
ghost use Rattle.std.specs.List.Sorted.{IsStrictlySortedBy};
ghost use Rattle.file_tree.specs.Tree.{Tree};
ghost use Rattle.conf_include.specs.Listings.{byte_order, Names, IsListing, IsNaming};
ghost use Rattle.conf_include.specs.Paths.{front_of, last_of, folder_of, is_mask};
ghost use Rattle.conf_include.specs.Masks.{matches};
ghost use Rattle.conf_include.specs.Expansion.{spot, paths_named};
ghost use Rattle.conf_include.specs.Told.{Later, IsTold};
ghost use Rattle.conf_include.specs.Steps.{IsCaused, OnFailed, FailsAbout, NamesFound, AreNamed};

use crate::mask::matches;
use crate::paths::{folder_of, is_mask, parts_of};
use crate::stop::{Spot, Stop, fault_about};
use byte_text::{ByteText, ByteTexts, OutOfMemory};
use conf_text::FaultKind;
use ngx_outside::{FileFault, Files, Listing};
use std::alloc::Global;

/// Names in byte order, each once.
fn in_order(alloc: Global, found: &[ByteText]) -> Result<Vec<&[u8]>, OutOfMemory>
    ensures order { IfOk result (λ names. IsStrictlySortedBy byte_order
        (map (λ n. n.now) names.items)) }
    ensures names { IfOk result (λ names. (name : List ℕ)
        → Contains (map (λ n. n.now) names.items) name ↔ Contains found.now name) }
{
    let mut names = Vec::with_capacity(alloc, found.len())?;
    for name in found {
        names.push(name.as_slice())?;
    }
    names.sort_unstable();
    names.dedup();
    Ok(names)
}

/// The paths of those names of a folder that a mask matches.
fn masked(alloc: Global, path: &[u8], names: &[&[u8]]) -> Result<ByteTexts, OutOfMemory>
    ensures { IfOk result (λ paths. paths ≡ map (λ name. front_of path.now ++ name)
        (filter (matches (last_of path.now)) (map (λ n. n.now) names.now))) }
{
    let (front, mask) = parts_of(path);
    let mut paths = ByteTexts::new(alloc);
    for &name in names {
        if matches(alloc, mask, name)? {
            let mut path = ByteText::from_slice(alloc, front)?;
            path.extend(name)?;
            paths.push(path)?;
        }
    }
    Ok(paths)
}

/// The names of a folder; none where there is no folder.
fn names_of<F: Files>(
    alloc: Global,
    files: &mut F,
    path: &[u8],
    at: Spot,
) -> Result<ByteTexts, Stop>
    ensures later { Later (F.seen files.old) (F.seen files.new) }
    ensures cause { IsCaused result (F.seen files.old).faults (F.seen files.new).faults }
    ensures place { FailsAbout (spot at.file at.line) path.now result }
    ensures names { (of : ℕ) (tree : Tree) → of ≤ (F.seen files.old).newest
        → IsTold of tree (F.seen files.new) → NamesFound tree (folder_of path.now) result }
{
    let mut names = ByteTexts::new(alloc);
    match files.list(folder_of(path), &mut names) {
        Ok(Listing::Done) => Ok(names),
        Ok(Listing::Missing) => Ok(ByteTexts::new(alloc)),
        Err(FileFault::Failed) => Err(Stop::Failed(fault_about(
            alloc,
            FaultKind::ReadFault,
            at,
            path,
        )?)),
        Err(FileFault::OutOfMemory) => Err(Stop::OutOfMemory),
    }
}

/// The paths that a mask matches.
fn paths_matched<F: Files>(
    alloc: Global,
    files: &mut F,
    path: &[u8],
    at: Spot,
) -> Result<ByteTexts, Stop>
    requires { is_mask path.now ≡ true }
    ensures later { Later (F.seen files.old) (F.seen files.new) }
    ensures cause { IsCaused result (F.seen files.old).faults (F.seen files.new).faults }
    ensures place { FailsAbout (spot at.file at.line) path.now result }
    ensures paths { (of : ℕ) (tree : Tree) (names : Names) → of ≤ (F.seen files.old).newest
        → IsTold of tree (F.seen files.new) → IsNaming tree names
        → AreNamed (paths_named names path.now) result }
{
    let found = names_of(alloc, files, path, at)?;
    let names = in_order(alloc, found.as_slice())?;
    Ok(masked(alloc, path, names.as_slice())?)
}

/// The paths of the files that an include of this path names: its own, or those that its mask matches.
pub fn paths_named<F: Files>(
    alloc: Global,
    files: &mut F,
    path: ByteText,
    at: Spot,
) -> Result<ByteTexts, Stop>
    ensures later { Later (F.seen files.old) (F.seen files.new) }
    ensures cause { IsCaused result (F.seen files.old).faults (F.seen files.new).faults }
    ensures place { FailsAbout (spot at.file at.line) path result }
    ensures mask { OnFailed result (λ fault. is_mask path ≡ true) }
    ensures paths { (of : ℕ) (tree : Tree) (names : Names) → of ≤ (F.seen files.old).newest
        → IsTold of tree (F.seen files.new) → IsNaming tree names
        → AreNamed (paths_named names path) result }
{
    if is_mask(path.as_slice()) {
        return paths_matched(alloc, files, path.as_slice(), at);
    }
    let mut paths = ByteTexts::new(alloc);
    paths.push(path)?;
    Ok(paths)
}
