// The lines of directives.
ghost use Rattle.std.specs.Prelude.{◌≡◌, ◌++◌, codes, map, flat_map, option_map, IfOk, OnOk};
ghost use Rattle.conf_block.specs.Forest.{forest_of};
ghost use Rattle.conf_block.specs.Blocks.{block_of, blocks_of};
ghost use Rattle.conf_races.specs.Origins.{line_of, head_line, first_line, word_lines, directive_lines};

use byte_text::{ByteText, OutOfMemory};
use conf_block::next_named;
use conf_text::Directive;
use source_lines::Line;
use std::alloc::Global;

/// Where a directive is.
pub fn line_of(directive: &Directive) -> Line
    ensures { result ≡ line_of directive.now }
{
    Line {
        file: directive.file,
        line: directive.line,
    }
}

/// The line of the first directive of this name.
pub fn first_line(level: &[Directive], name: &[u8]) -> Option<Line>
    ensures { result ≡ first_line name.now (forest_of level.now) }
{
    match next_named(level, name) {
        None => None,
        Some(branch) => Some(line_of(branch.directive)),
    }
}

/// Adds a line once for each word.
fn push_words(lines: &mut Vec<Line>, line: Line, words: &[ByteText]) -> Result<(), OutOfMemory>
    ensures { OnOk result (lines.new.items ≡ lines.old.items ++ map (λ w. line) words.now) }
{
    for _word in words {
        lines.push(line)?;
    }
    Ok(())
}

/// The line of each directive of this name, once for each of its words.
pub fn word_lines(alloc: Global, level: &[Directive], name: &[u8]) -> Result<Vec<Line>, OutOfMemory>
    ensures { IfOk result (λ lines. lines.items
        ≡ flat_map word_lines (blocks_of name.now (forest_of level.now))) }
{
    let mut lines = Vec::new(alloc);
    let mut rest = level;
    while let Some(branch) = next_named(rest, name) {
        let directive = branch.directive;
        push_words(&mut lines, line_of(directive), directive.args.as_slice())?;
        rest = branch.beside;
    }
    Ok(lines)
}

/// The line of each directive of this name.
pub fn directive_lines(
    alloc: Global,
    level: &[Directive],
    name: &[u8],
) -> Result<Vec<Line>, OutOfMemory>
    ensures { IfOk result (λ lines. lines.items
        ≡ map head_line (blocks_of name.now (forest_of level.now))) }
{
    let mut lines = Vec::new(alloc);
    let mut rest = level;
    while let Some(branch) = next_named(rest, name) {
        lines.push(line_of(branch.directive))?;
        rest = branch.beside;
    }
    Ok(lines)
}
