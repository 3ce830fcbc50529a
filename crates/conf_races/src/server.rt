// The lines of the levels of a server.
ghost use Rattle.std.specs.Prelude.{◌≡◌, ◌++◌, ◌∷◌, [], List, map, IfOk, OnOk};
ghost use Rattle.conf_values.specs.TextSet.{holds};
ghost use Rattle.conf_block.specs.Forest.{forest_of};
ghost use Rattle.source_lines.specs.declared.line.Line.{Line as Place};
ghost use Rattle.race_places.specs.Places.{level_by, levels_by};
ghost use Rattle.conf_races.specs.Origins.{Outer, Grows, Means, outer_by, program_lines, server_level, location_level, locations_in as locations_meant, named_in as named_meant, server_origins};

use crate::level::{level_lines, push_blocks, push_program};
use crate::outer::{OuterLines, copied, outer_over};
use byte_text::OutOfMemory;
use conf_block::next_location;
use conf_text::Directive;
use conf_values::TextSet;
use race_places::{LineList, LinedLevel, ServerLines};
use source_lines::Line;
use std::alloc::Global;

fn program_of(alloc: Global, known: &TextSet, level: &[Directive]) -> Result<Vec<Line>, OutOfMemory>
    ensures { IfOk result (λ lines. lines.items
        ≡ program_lines (holds known.now.keys) (forest_of level.now)) }
{
    let mut lines = Vec::new(alloc);
    push_program(&mut lines, alloc, known, level)?;
    Ok(lines)
}

/// The lines of the level of a server, in which the values of these lines hold; blocks in its program are no levels.
fn server_level(
    alloc: Global,
    known: &TextSet,
    outer: OuterLines,
    block: &[Directive],
) -> Result<LinedLevel, OutOfMemory>
    ensures { IfOk result (λ l. (lists : List (List Place)) → level_by lists l
        ≡ server_level (holds known.now.keys) (outer_by lists outer) (forest_of block.now)) }
{
    let program = program_of(alloc, known, block)?;
    Ok(LinedLevel {
        own: level_lines(outer, block, program),
        blocks: Vec::new(alloc),
    })
}

/// The lines of the level of a location, in which the values of these lines hold, and of the blocks in its program.
fn location_level(
    lists: &mut Vec<LineList>,
    alloc: Global,
    known: &TextSet,
    outer: OuterLines,
    block: &[Directive],
) -> Result<LinedLevel, OutOfMemory>
    ensures grows { OnOk result (Grows lists.old.items lists.new.items) }
    ensures lines { IfOk result (λ l. (later : List (List Place)) → Grows lists.new.items later
        → level_by later l
        ≡ location_level (holds known.now.keys) (outer_by later outer) (forest_of block.now)) }
{
    let program = program_of(alloc, known, block)?;
    let own = level_lines(outer, block, program);
    let mut blocks = Vec::new(alloc);
    push_blocks(&mut blocks, lists, alloc, known, outer, block)?;
    Ok(LinedLevel { own, blocks })
}

/// Adds the lines of the locations of a level that paths find, each with those in it after it.
fn push_locations(
    levels: &mut Vec<LinedLevel>,
    lists: &mut Vec<LineList>,
    alloc: Global,
    known: &TextSet,
    outer: OuterLines,
    level: &[Directive],
) -> Result<(), OutOfMemory>
    ensures grows { OnOk result (Grows lists.old.items lists.new.items) }
    ensures lines { OnOk result ((later : List (List Place)) → Grows lists.new.items later
        → map (level_by later) levels.new.items ≡ map (level_by later) levels.old.items
        ++ locations_meant (holds known.now.keys) (outer_by later outer) (forest_of level.now)) }
{
    let mut rest = level;
    while let Some(branch) = next_location(rest, false) {
        let inner = outer_over(lists, alloc, branch.block, outer)?;
        levels.push(location_level(lists, alloc, known, inner, branch.block)?)?;
        push_locations(levels, lists, alloc, known, inner, branch.block)?;
        rest = branch.beside;
    }
    Ok(())
}

/// Adds the lines of the locations `@name` of a server.
fn push_named(
    levels: &mut Vec<LinedLevel>,
    lists: &mut Vec<LineList>,
    alloc: Global,
    known: &TextSet,
    outer: OuterLines,
    server: &[Directive],
) -> Result<(), OutOfMemory>
    ensures grows { OnOk result (Grows lists.old.items lists.new.items) }
    ensures lines { OnOk result ((later : List (List Place)) → Grows lists.new.items later
        → map (level_by later) levels.new.items ≡ map (level_by later) levels.old.items
        ++ named_meant (holds known.now.keys) (outer_by later outer) (forest_of server.now)) }
{
    let mut rest = server;
    while let Some(branch) = next_location(rest, true) {
        let inner = outer_over(lists, alloc, branch.block, outer)?;
        levels.push(location_level(lists, alloc, known, inner, branch.block)?)?;
        rest = branch.beside;
    }
    Ok(())
}

/// The lines of the levels of a server with this block, where these lists and lines hold around it: its own level, those of its
/// locations, and those of its locations `@name`, each in the order of the text.
pub fn server_lines(
    alloc: Global,
    known: &TextSet,
    around: &[LineList],
    outer: OuterLines,
    block: &[Directive],
) -> Result<ServerLines, OutOfMemory>
    ensures { IfOk result (λ lines. (whole : Outer) → Means around.now outer whole
        → levels_by lines
        ≡ server_origins (holds known.now.keys) whole (forest_of block.now)) }
{
    let mut lists = copied(alloc, around)?;
    let inner = outer_over(&mut lists, alloc, block, outer)?;
    let mut levels = Vec::new(alloc);
    levels.push(server_level(alloc, known, inner, block)?)?;
    push_locations(&mut levels, &mut lists, alloc, known, inner, block)?;
    push_named(&mut levels, &mut lists, alloc, known, inner, block)?;
    Ok(ServerLines { lists, levels })
}
