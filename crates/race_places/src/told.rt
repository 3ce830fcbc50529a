// The named variables with their places.
ghost use Rattle.std.specs.Prelude.{◌≡◌, ◌++◌, [], ℕ, List, map, OnOk, IfOk};
ghost use Rattle.site_views.specs.Pattern.{Pattern};
ghost use Rattle.site_whole.specs.Whole.{server_whole};
ghost use Rattle.race_meaning.specs.Conflicts.{AreConflicts};
ghost use Rattle.race_check.specs.Told.{HasNamed};
ghost use Rattle.race_places.specs.Index.{at};
ghost use Rattle.race_places.specs.Places.{AreInOrder, IsPlaced, ArePlaced, levels_by, server_sources, conflict_seen};
ghost use Rattle.race_places.specs.declared.told.Conflict.{Conflict as Told};

use crate::index::LineIndex;
use crate::lined::ServerLines;
use crate::places::sets_of;
use crate::reads::reads_of;
use byte_text::{ByteText, OutOfMemory};
use race_check::{Named, level_numbers};
use site_model::{Server, Site};
use source_lines::{Line, in_order};
use std::alloc::Global;

/// A variable that can show in which order the subrequests of a page ran: the place of its server among the site's, from 1
/// on; its name without the `$`; the lines where it is set and where it is read, in the order of the text; and whether
/// documents read it.
#[derive(Drop)]
pub struct Conflict {
    pub server: usize,
    pub name: ByteText,
    pub sets: Vec<Line>,
    pub reads: Vec<Line>,
    pub documents: bool,
}

/// The lines of a variable in the order of the text.
fn lines_in_order(alloc: Global, index: &LineIndex, name: &[u8]) -> Result<Vec<Line>, OutOfMemory>
    ensures { IfOk result (λ lines. AreInOrder (at index.now name.now) lines.items) }
{
    let lines = index.of(name).to_vec(alloc)?;
    Ok(in_order(lines))
}

/// A named variable with its places.
fn placed_one(
    alloc: Global,
    sets: &LineIndex,
    reads: &LineIndex,
    named: &Named,
) -> Result<Conflict, OutOfMemory>
    ensures { IfOk result (λ conflict. IsPlaced (at sets.now) (at reads.now) named.now conflict) }
{
    let name = ByteText::from_slice(alloc, named.name.as_slice())?;
    let set_at = lines_in_order(alloc, sets, named.name.as_slice())?;
    let read_at = lines_in_order(alloc, reads, named.name.as_slice())?;
    Ok(Conflict {
        server: named.server,
        name,
        sets: set_at,
        reads: read_at,
        documents: named.documents,
    })
}

/// Adds named variables, each with its places.
fn push_placed(
    conflicts: &mut Vec<Conflict>,
    alloc: Global,
    sets: &LineIndex,
    reads: &LineIndex,
    all: &[Named],
) -> Result<(), OutOfMemory>
    ensures { OnOk result ((here : List Told) × ArePlaced (at sets.now) (at reads.now) all.now here
        × (conflicts.new.items ≡ conflicts.old.items ++ here)) }
{
    for named in all {
        let conflict = placed_one(alloc, sets, reads, named)?;
        conflicts.push(conflict)?;
    }
    Ok(())
}

/// The variables that are named in a server with their places, by the lines of the server's levels: its own, those of its
/// locations, and those of its locations `@name`, each in the order of the text. So these are exactly the server's variables
/// that can show in which order the subrequests of a page ran, in the order of their bytes, each with the lines where it is
/// set and where it is read. The levels, and the lists that they share, are gone through once, for all variables.
pub fn placed(
    alloc: Global,
    site: &Site,
    server: &Server,
    number: usize,
    lines: &ServerLines,
    named: &[Named],
) -> Result<Vec<Conflict>, OutOfMemory>
    requires { (patterns : List Pattern) → HasNamed number
        (server_whole patterns site.now server.now) [] named.now }
    ensures { IfOk result (λ conflicts. (files : ℕ → List ℕ) (patterns : List Pattern)
        → AreConflicts number (server_whole patterns site.now server.now)
        (server_sources files (server_whole patterns site.now server.now) (levels_by lines.now))
        (map (conflict_seen files) conflicts.items)) }
{
    let numbers = level_numbers(alloc, server)?;
    let sets = sets_of(alloc, site, numbers.as_slice(), lines.levels.as_slice())?;
    let reads = reads_of(alloc, site, numbers.as_slice(), lines)?;
    let mut conflicts = Vec::new(alloc);
    push_placed(&mut conflicts, alloc, &sets, &reads, named)?;
    Ok(conflicts)
}
