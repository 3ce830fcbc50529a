// Which variables texts and programs read before they set them.
ghost use Rattle.std.specs.Prelude.{◌≡◌, ◌||◌, ◌&&◌, not, max, ℕ, ◌-◌, List, false, map, OnOk};
ghost use Rattle.site_views.specs.Pattern.{Pattern};
ghost use Rattle.site_model.specs.declared.site.Site.{Site as SiteRow};
ghost use Rattle.site_whole.specs.Whole.{step_seen, test_seen, program_seen};
ghost use Rattle.race_meaning.specs.Reads.{is_piece, in_text, in_some, in_test, in_directive, settled_after as after_directive, block_after as block_behind, is_private_in};
ghost use Rattle.race_check.specs.Names.{has as has_name, Notes, is_file_test};

use crate::names::NameSet;
use byte_text::OutOfMemory;
use ngx_variables::{Piece, Value};
use site_model::{Level, RewriteStep, Test};
use std::alloc::Global;

/// Notes the variable of a piece, unless it is settled.
pub fn note_piece(
    exposed: &mut NameSet,
    settled: &NameSet,
    piece: &Piece,
) -> Result<(), OutOfMemory>
    ensures { OnOk result
        (Notes settled.now exposed.old exposed.new (λ name. is_piece name piece.now)) }
{
    match piece {
        Piece::Set(name) => {
            if settled.has(name.as_slice()) {
                return Ok(());
            }
            exposed.add(name.as_slice())?;
            Ok(())
        }
        Piece::Literal(_)
        | Piece::Group(_)
        | Piece::Builtin(_)
        | Piece::Argument(_)
        | Piece::Field(_)
        | Piece::Cookie(_) => Ok(()),
    }
}

/// Notes the variables of a text that aren't settled.
pub fn note_text(exposed: &mut NameSet, settled: &NameSet, text: &Value) -> Result<(), OutOfMemory>
    ensures { OnOk result
        (Notes settled.now exposed.old exposed.new (λ name. in_text name text.now)) }
{
    for piece in text.pieces() {
        note_piece(exposed, settled, piece)?;
    }
    Ok(())
}

fn note_some(
    exposed: &mut NameSet,
    settled: &NameSet,
    text: &Option<Value>,
) -> Result<(), OutOfMemory>
    ensures { OnOk result
        (Notes settled.now exposed.old exposed.new (λ name. in_some name text.now)) }
{
    match text {
        Some(text) => {
            note_text(exposed, settled, text)?;
            Ok(())
        }
        None => Ok(()),
    }
}

fn note_test(exposed: &mut NameSet, settled: &NameSet, test: &Test) -> Result<(), OutOfMemory>
    ensures { OnOk result ((patterns : List Pattern)
        → Notes settled.now exposed.old exposed.new
        (λ name. in_test name (test_seen patterns test.now))) }
{
    match test {
        Test::IsSet(variable) => {
            note_piece(exposed, settled, variable)?;
            Ok(())
        }
        Test::Equals { variable, text } => {
            note_piece(exposed, settled, variable)?;
            note_text(exposed, settled, text)?;
            Ok(())
        }
        Test::Matches { variable, .. } => {
            note_piece(exposed, settled, variable)?;
            Ok(())
        }
        Test::OnFile { path, .. } => {
            note_text(exposed, settled, path)?;
            Ok(())
        }
    }
}

/// Notes what a directive itself reads.
#[tactic(auto, unfolding(race_meaning::specs::Reads::in_directive))]
pub fn note_directive(
    exposed: &mut NameSet,
    settled: &NameSet,
    step: &RewriteStep,
) -> Result<(), OutOfMemory>
    ensures { OnOk result ((patterns : List Pattern) (site : SiteRow)
        → Notes settled.now exposed.old exposed.new
        (λ name. in_directive name (step_seen patterns site step.now))) }
{
    match step {
        RewriteStep::Set { text, .. } => {
            note_text(exposed, settled, text)?;
            Ok(())
        }
        RewriteStep::If { test, .. } => {
            note_test(exposed, settled, test)?;
            Ok(())
        }
        RewriteStep::Rewrite { to, .. } => {
            note_text(exposed, settled, to)?;
            Ok(())
        }
        RewriteStep::Return { text, .. } => {
            note_some(exposed, settled, text)?;
            Ok(())
        }
        RewriteStep::Stop => Ok(()),
    }
}

/// How many more directives are in the block of an `if` after this one.
fn block_after(block: u32, step: &RewriteStep) -> u32
    ensures { (patterns : List Pattern) (site : SiteRow)
        → result ≡ block_behind block (step_seen patterns site step.now) }
{
    match step {
        RewriteStep::If { block: size, .. } => larger(*size, block.saturating_sub(1)),
        RewriteStep::Set { .. }
        | RewriteStep::Rewrite { .. }
        | RewriteStep::Return { .. }
        | RewriteStep::Stop => block.saturating_sub(1),
    }
}

fn larger(a: u32, b: u32) -> u32
    ensures { result ≡ max a b }
{
    if a < b { b } else { a }
}

/// What was set whatever happens, and hasn't been forgotten by a test of a file: after this directive.
fn settle(
    settled: &mut NameSet,
    alloc: Global,
    block: u32,
    step: &RewriteStep,
) -> Result<(), OutOfMemory>
    ensures { OnOk result ((patterns : List Pattern) (site : SiteRow) (name : List ℕ)
        → has_name settled.new name
        ≡ after_directive name (has_name settled.old name) block
        (step_seen patterns site step.now)) }
{
    match step {
        RewriteStep::Set { name, .. } => {
            if block == 0 {
                settled.add(name.as_slice())?;
            }
            Ok(())
        }
        RewriteStep::If { test, .. } => {
            forget(settled, alloc, test);
            Ok(())
        }
        RewriteStep::Rewrite { .. } | RewriteStep::Return { .. } | RewriteStep::Stop => Ok(()),
    }
}

/// A test of a file lets others run, which may set anything.
fn forget(settled: &mut NameSet, alloc: Global, test: &Test)
    ensures { (name : List ℕ)
        → has_name settled.new name ≡ (not (is_file_test test.now) && has_name settled.old name) }
{
    match test {
        Test::OnFile { .. } => {
            *settled = NameSet::new(alloc);
        }
        Test::IsSet(_) | Test::Equals { .. } | Test::Matches { .. } => {}
    }
}

fn note_steps(
    exposed: &mut NameSet,
    alloc: Global,
    steps: &[RewriteStep],
) -> Result<(), OutOfMemory>
    ensures { OnOk result ((patterns : List Pattern) (site : SiteRow) (name : List ℕ)
        → has_name exposed.new name
        ≡ (not (is_private_in name false 0 (map (step_seen patterns site) steps.now))
        || has_name exposed.old name)) }
{
    let mut settled = NameSet::new(alloc);
    let mut block = 0;
    for step in steps {
        note_directive(exposed, &settled, step)?;
        settle(&mut settled, alloc, block, step)?;
        block = block_after(block, step);
    }
    Ok(())
}

/// Notes what a level's program reads that it didn't set before, whatever happens, since the last test of a file.
pub fn note_program(exposed: &mut NameSet, alloc: Global, level: &Level) -> Result<(), OutOfMemory>
    ensures { OnOk result ((patterns : List Pattern) (site : SiteRow) (name : List ℕ)
        → has_name exposed.new name
        ≡ (not (is_private_in name false 0 (program_seen patterns site level.now))
        || has_name exposed.old name)) }
{
    note_steps(exposed, alloc, level.program.as_slice())?;
    Ok(())
}
