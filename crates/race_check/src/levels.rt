// The levels of a server, each by its number.
ghost use Rattle.std.specs.Prelude.{◌≡◌, ◌||◌, ◌++◌, is_some, List, flat_map, IfOk, OnOk};
ghost use Rattle.std.specs.List.{list_any};
ghost use Rattle.site_model.specs.Levels.{raw_level};
ghost use Rattle.site_whole.specs.Whole.{values_seen};
ghost use Rattle.race_meaning.specs.Named.{has_parts as with_parts};
ghost use Rattle.race_check.specs.Numbers.{level_numbers, block_number, numbers_in, value_numbers};

use byte_text::OutOfMemory;
use site_model::{Level, RewriteStep, Server, Site};
use std::alloc::Global;

/// The numbers of a server's levels that have a program: its own, those of its locations, and those of its locations
/// `@name`.
pub fn level_numbers(alloc: Global, server: &Server) -> Result<Vec<u32>, OutOfMemory>
    ensures { IfOk result (λ numbers. numbers.items ≡ level_numbers server.now) }
{
    let mut numbers = Vec::new(alloc);
    numbers.push(server.level)?;
    for location in &server.locations {
        numbers.push(location.level)?;
    }
    for named in &server.named {
        numbers.push(named.level)?;
    }
    Ok(numbers)
}

fn push_blocks(numbers: &mut Vec<u32>, steps: &[RewriteStep]) -> Result<(), OutOfMemory>
    ensures { OnOk result
        (numbers.new.items ≡ numbers.old.items ++ flat_map block_number steps.now) }
{
    for step in steps {
        push_block(numbers, step)?;
    }
    Ok(())
}

fn push_block(numbers: &mut Vec<u32>, step: &RewriteStep) -> Result<(), OutOfMemory>
    ensures { OnOk result (numbers.new.items ≡ numbers.old.items ++ block_number step.now) }
{
    match step {
        RewriteStep::If { level, .. } => {
            if let Some(number) = level {
                numbers.push(*number)?;
            }
            Ok(())
        }
        RewriteStep::Set { .. }
        | RewriteStep::Rewrite { .. }
        | RewriteStep::Return { .. }
        | RewriteStep::Stop => Ok(()),
    }
}

/// The numbers of the levels of the blocks in a program.
pub fn block_numbers(alloc: Global, steps: &[RewriteStep]) -> Result<Vec<u32>, OutOfMemory>
    ensures { IfOk result (λ numbers. numbers.items ≡ flat_map block_number steps.now) }
{
    let mut numbers = Vec::new(alloc);
    push_blocks(&mut numbers, steps)?;
    Ok(numbers)
}

/// The numbers of all levels in which values hold: these, and those of the blocks of their `if`s.
pub fn value_numbers(alloc: Global, site: &Site, levels: &[u32]) -> Result<Vec<u32>, OutOfMemory>
    ensures { IfOk result (λ numbers. numbers.items ≡ value_numbers site.now levels.now) }
{
    let mut numbers = Vec::new(alloc);
    for level in levels {
        numbers.push(*level)?;
        push_blocks(&mut numbers, site.level(*level).program.as_slice())?;
    }
    Ok(numbers)
}

fn has_parts(level: &Level) -> bool
    ensures { result ≡ (level.now.ssi || is_some level.now.before || is_some level.now.after) }
{
    level.ssi || level.before.is_some() || level.after.is_some()
}

/// Whether one of these levels has server side includes or additions.
#[tactic(auto, unfolding(site_whole::specs::Whole::values_seen))]
pub fn has_open(site: &Site, levels: &[u32]) -> bool
    ensures { result
        ≡ list_any (λ number. with_parts (values_seen site.now (raw_level site.now number)))
        levels.now }
{
    for number in levels {
        if has_parts(site.level(*number)) {
            return true;
        }
    }
    false
}

/// Whether one of these levels has server side includes.
#[tactic(auto, unfolding(site_whole::specs::Whole::values_seen))]
pub fn has_documents(site: &Site, levels: &[u32]) -> bool
    ensures { result
        ≡ list_any (λ number. (values_seen site.now (raw_level site.now number)).ssi)
        levels.now }
{
    for number in levels {
        if site.level(*number).ssi {
            return true;
        }
    }
    false
}
