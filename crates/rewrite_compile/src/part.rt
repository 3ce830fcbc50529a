// The directives of a level that have a part in its program.
ghost use Rattle.std.specs.Prelude.{◌≡◌, ◌≤◌, ◌++◌, ℕ, List, Bool, length, IfOk, OnOk};
ghost use Rattle.conf_values.specs.TextSet.{holds};
ghost use Rattle.conf_block.specs.Forest.{forest_of};
ghost use Rattle.rewrite_compile.specs.Programs.{has_block, in_block, spot_of, led_by, parts_of};

use crate::directive::reading_by;
use crate::raw::{RawStep, Reading};
use byte_text::{ByteText, OutOfMemory};
use conf_block::first_branch;
use conf_text::Directive;
use conf_values::TextSet;
use std::alloc::Global;

/// Where a directive is, and its name.
#[derive(Drop)]
pub struct Spot {
    pub file: u32,
    pub line: u64,
    pub name: ByteText,
}

/// A directive that has a part in a program: what its words say, and how many such directives are in its block, which come
/// right after it.
#[derive(Drop)]
pub struct Part {
    pub spot: Spot,
    pub reading: Reading,
    pub block: u32,
}

/// Whether a directive has a block in a program: an `if`.
pub fn has_block(reading: &Reading) -> bool
    ensures { result ≡ has_block reading.now }
{
    match reading {
        Reading::Step(RawStep::If(_)) => true,
        Reading::Step(_) => false,
        Reading::Wrong(_) => false,
    }
}

/// The directives in a block that have a part in the program.
#[tactic(auto, unfolding(crate::specs::Programs::parts_of, conf_block::specs::Forest::forest_of))]
fn block_of<'a>(reading: &Option<Reading>, block: &'a [Directive]) -> &'a [Directive]
    ensures parts { (known : List ℕ → Bool) → parts_of known (forest_of result.now)
        ≡ in_block reading.now (parts_of known (forest_of block.now)) }
    ensures len { length result.now ≤ length block.now }
{
    match reading {
        Some(reading) => { if has_block(reading) { block } else { &[] } }
        None => &[],
    }
}

fn spot_of(alloc: Global, directive: &Directive) -> Result<Spot, OutOfMemory>
    ensures { IfOk result (λ spot. spot ≡ spot_of directive.now) }
{
    let name = ByteText::from_slice(alloc, directive.name.as_slice())?;
    Ok(Spot {
        file: directive.file,
        line: directive.line,
        name,
    })
}

fn part_of(
    alloc: Global,
    directive: &Directive,
    reading: Reading,
    size: usize,
) -> Result<Part, OutOfMemory>
    ensures { IfOk result (λ part.
        part ≡ record { spot = spot_of directive.now; reading = reading; block = size }) }
{
    let block = match u32::try_from(size) {
        Ok(block) => block,
        Err(_) => return Err(OutOfMemory),
    };
    let spot = spot_of(alloc, directive)?;
    Ok(Part {
        spot,
        reading,
        block,
    })
}

/// Adds a directive, if it has a part in the program, and those in its block.
fn push_led(
    parts: &mut Vec<Part>,
    alloc: Global,
    directive: &Directive,
    reading: Option<Reading>,
    mut block: Vec<Part>,
) -> Result<(), OutOfMemory>
    ensures { OnOk result
        (parts.new.items ≡ parts.old.items ++ led_by directive.now reading block.items) }
{
    match reading {
        Some(reading) => {
            let part = part_of(alloc, directive, reading, block.len())?;
            parts.push(part)?;
            parts.append(&mut block)?;
            Ok(())
        }
        None => Ok(()),
    }
}

/// The directives of a level that have a part in its program, where these names are those of the variables that the configuration
/// sets.
pub fn parts_in(
    alloc: Global,
    known: &TextSet,
    level: &[Directive],
) -> Result<Vec<Part>, OutOfMemory>
    ensures { IfOk result (λ parts.
        parts.items ≡ parts_of (holds known.now.keys) (forest_of level.now)) }
{
    let mut parts = Vec::new(alloc);
    let mut rest = level;
    while let Some(branch) = first_branch(rest) {
        let directive = branch.directive;
        let reading = reading_by(
            alloc,
            known,
            directive.name.as_slice(),
            directive.args.as_slice(),
        )?;
        let block = parts_in(alloc, known, block_of(&reading, branch.block))?;
        push_led(&mut parts, alloc, directive, reading, block)?;
        rest = branch.beside;
    }
    Ok(parts)
}
