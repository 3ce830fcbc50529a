// The lines of a level.
ghost use Rattle.std.specs.Prelude.{◌≡◌, ◌≤◌, ◌++◌, ◌∷◌, [], ℕ, Bool, List, codes, length, map, is_some, if◌then◌else◌, IfOk, OnOk};
ghost use Rattle.conf_values.specs.TextSet.{holds};
ghost use Rattle.conf_block.specs.Forest.{forest_of};
ghost use Rattle.rewrite_compile.specs.Readings.{reading_by};
ghost use Rattle.rewrite_compile.specs.Programs.{parts_of};
ghost use Rattle.conf_inherit.specs.Programs.{leads, blocks_in};
ghost use Rattle.source_lines.specs.declared.line.Line.{Line as Place};
ghost use Rattle.race_places.specs.Places.{origins_by};
ghost use Rattle.conf_races.specs.Origins.{Grows, outer_by, origins_in, block_origins, led_lines, program_lines};

use crate::lines::{first_line, line_of};
use crate::outer::{OuterLines, outer_over};
use byte_text::OutOfMemory;
use conf_block::first_branch;
use conf_text::Directive;
use conf_values::TextSet;
use race_places::{LineList, StatedLines};
use rewrite_compile::{RawStep, Reading, reading_by};
use source_lines::Line;
use std::alloc::Global;

/// The lines of a level in which the values of these lines hold, and of its program.
pub fn level_lines(outer: OuterLines, level: &[Directive], program: Vec<Line>) -> StatedLines
    ensures { (lists : List (List Place)) → origins_by lists result
        ≡ origins_in (outer_by lists outer) (forest_of level.now) program.items }
{
    StatedLines {
        place: outer.place,
        index: outer.index,
        tries: first_line(level, b"try_files"),
        pages: outer.pages,
        auth_sets: outer.auth_sets,
        program,
    }
}

/// What a directive is to a rewrite program: whether it has a part in one, and whether its block has.
#[derive(Clone, Copy)]
struct Led {
    part: bool,
    block: bool,
}

/// What a directive is in a rewrite program, if it has a part in one.
fn reading_of(
    alloc: Global,
    known: &TextSet,
    directive: &Directive,
) -> Result<Option<Reading>, OutOfMemory>
    ensures { IfOk result (λ reading. reading
        ≡ reading_by (holds known.now.keys) directive.now.name directive.now.args) }
{
    let name = directive.name.as_slice();
    let reading = reading_by(alloc, known, name, directive.args.as_slice())?;
    Ok(reading)
}

/// What is led in a program by what a directive is there.
fn led_by(reading: Option<Reading>) -> Led
    ensures part { result.part ≡ is_some reading }
    ensures block { result.block ≡ leads reading }
{
    match reading {
        Some(Reading::Step(RawStep::If(_))) => Led {
            part: true,
            block: true,
        },
        Some(_) => Led {
            part: true,
            block: false,
        },
        None => Led {
            part: false,
            block: false,
        },
    }
}

fn led_of(alloc: Global, known: &TextSet, directive: &Directive) -> Result<Led, OutOfMemory>
    ensures part { IfOk result (λ led. led.part
        ≡ is_some (reading_by (holds known.now.keys) directive.now.name directive.now.args)) }
    ensures block { IfOk result (λ led. led.block
        ≡ leads (reading_by (holds known.now.keys) directive.now.name directive.now.args)) }
{
    let reading = reading_of(alloc, known, directive)?;
    Ok(led_by(reading))
}

/// The block of an `if`, and nothing of another directive.
#[tactic(auto, unfolding(conf_inherit::specs::Programs::blocks_in, conf_block::specs::Forest::forest_of, rewrite_compile::specs::Programs::parts_of))]
fn block_if(is_if: bool, block: &[Directive]) -> &[Directive]
    ensures blocks { (known : List ℕ → Bool) → blocks_in known (forest_of result.now)
        ≡ (if is_if then blocks_in known (forest_of block.now) else []) }
    ensures parts { (known : List ℕ → Bool) → parts_of known (forest_of result.now)
        ≡ (if is_if then parts_of known (forest_of block.now) else []) }
    ensures len { length result.now ≤ length block.now }
{
    if is_if { block } else { &[] }
}

/// Adds the line of a directive, if it has a part in a program.
fn push_own(lines: &mut Vec<Line>, directive: &Directive, part: bool) -> Result<(), OutOfMemory>
    ensures { OnOk result (lines.new.items ≡ lines.old.items ++ led_lines directive.now part) }
{
    if part {
        lines.push(line_of(directive))?;
    }
    Ok(())
}

/// Adds the lines of the directives of a level that have a part in its program, where these names are those of the variables
/// that the configuration sets.
pub fn push_program(
    lines: &mut Vec<Line>,
    alloc: Global,
    known: &TextSet,
    level: &[Directive],
) -> Result<(), OutOfMemory>
    ensures { OnOk result (lines.new.items ≡ lines.old.items
        ++ program_lines (holds known.now.keys) (forest_of level.now)) }
{
    let mut rest = level;
    while let Some(branch) = first_branch(rest) {
        let led = led_of(alloc, known, branch.directive)?;
        push_own(lines, branch.directive, led.part)?;
        let block = block_if(led.block, branch.block);
        push_program(lines, alloc, known, block)?;
        rest = branch.beside;
    }
    Ok(())
}

/// Adds the lines of the block of an `if`, which is a level in which the values of these lines hold.
fn push_block(
    blocks: &mut Vec<StatedLines>,
    lists: &mut Vec<LineList>,
    alloc: Global,
    outer: OuterLines,
    is_if: bool,
    block: &[Directive],
) -> Result<(), OutOfMemory>
    ensures grows { OnOk result (Grows lists.old.items lists.new.items) }
    ensures lines { OnOk result ((later : List (List Place)) → Grows lists.new.items later
        → map (origins_by later) blocks.new.items ≡ map (origins_by later) blocks.old.items
        ++ map (block_origins (outer_by later outer))
        (if is_if then forest_of block.now ∷ [] else [])) }
{
    if !is_if {
        return Ok(());
    }
    let inner = outer_over(lists, alloc, block, outer)?;
    blocks.push(level_lines(inner, block, Vec::new(alloc)))?;
    Ok(())
}

/// Adds the lines of the blocks of `if`s in a level, each of which is a level in which the values of these lines hold.
pub fn push_blocks(
    blocks: &mut Vec<StatedLines>,
    lists: &mut Vec<LineList>,
    alloc: Global,
    known: &TextSet,
    outer: OuterLines,
    level: &[Directive],
) -> Result<(), OutOfMemory>
    ensures grows { OnOk result (Grows lists.old.items lists.new.items) }
    ensures lines { OnOk result ((later : List (List Place)) → Grows lists.new.items later
        → map (origins_by later) blocks.new.items ≡ map (origins_by later) blocks.old.items
        ++ map (block_origins (outer_by later outer))
        (blocks_in (holds known.now.keys) (forest_of level.now))) }
{
    let mut rest = level;
    while let Some(branch) = first_branch(rest) {
        let led = led_of(alloc, known, branch.directive)?;
        push_block(blocks, lists, alloc, outer, led.block, branch.block)?;
        let block = block_if(led.block, branch.block);
        push_blocks(blocks, lists, alloc, known, outer, block)?;
        rest = branch.beside;
    }
    Ok(())
}
