// The lines of single lists and programs where variables are set and read, of all variables at once.
ghost use Rattle.std.specs.Prelude.{◌≡◌, ◌++◌, ◌∷◌, [], ℕ, List, map, OnOk, IfOk};
ghost use Rattle.site_views.specs.Pattern.{Pattern};
ghost use Rattle.site_views.specs.Values.{IndexName as NameView, PageRule as RuleView, Text};
ghost use Rattle.site_model.specs.declared.site.Site.{Site as SiteRow};
ghost use Rattle.site_whole.specs.Whole.{index_seen, page_seen, auth_set_seen, step_seen, level_whole};
ghost use Rattle.race_meaning.specs.Reads.{in_text, in_target, in_directive};
ghost use Rattle.race_meaning.specs.Conflicts.{sets_it};
ghost use Rattle.source_lines.specs.declared.line.Line.{Line as Place};
ghost use Rattle.race_places.specs.Index.{at};
ghost use Rattle.race_places.specs.Places.{lines_of, keep_if, level_by, level_sets, all_sets};

use crate::index::LineIndex;
use crate::lined::LinedLevel;
use byte_text::OutOfMemory;
use race_check::{step_names, target_names, text_names};
use site_model::{AuthSet, IndexName, PageRule, RewriteStep, Site};
use source_lines::Line;
use std::alloc::Global;

pub fn add_names(
    reads: &mut LineIndex,
    alloc: Global,
    names: &[IndexName],
    lines: &[Line],
) -> Result<(), OutOfMemory>
    ensures { OnOk result ((name : List ℕ) → at reads.new name ≡ at reads.old name
        ++ lines_of (λ (i : NameView). in_text name i.text)
        (map index_seen names.now) lines.now) }
{
    let mut left = lines;
    for index in names {
        let Some((line, rest)) = left.split_first() else {
            return Ok(());
        };
        let read = text_names(alloc, &index.text)?;
        reads.add_all(&read, *line)?;
        left = rest;
    }
    Ok(())
}

pub fn add_pages(
    reads: &mut LineIndex,
    alloc: Global,
    rules: &[PageRule],
    lines: &[Line],
) -> Result<(), OutOfMemory>
    ensures { OnOk result ((name : List ℕ) → at reads.new name ≡ at reads.old name
        ++ lines_of (λ (r : RuleView). in_target name r.target)
        (map page_seen rules.now) lines.now) }
{
    let mut left = lines;
    for rule in rules {
        let Some((line, rest)) = left.split_first() else {
            return Ok(());
        };
        let read = target_names(alloc, &rule.target)?;
        reads.add_all(&read, *line)?;
        left = rest;
    }
    Ok(())
}

pub fn add_auth_sets(
    reads: &mut LineIndex,
    alloc: Global,
    sets: &[AuthSet],
    lines: &[Line],
) -> Result<(), OutOfMemory>
    ensures { OnOk result ((name : List ℕ) → at reads.new name ≡ at reads.old name
        ++ lines_of (λ (s : List ℕ × Text). in_text name s.1)
        (map auth_set_seen sets.now) lines.now) }
{
    let mut left = lines;
    for set in sets {
        let Some((line, rest)) = left.split_first() else {
            return Ok(());
        };
        let read = text_names(alloc, &set.text)?;
        reads.add_all(&read, *line)?;
        left = rest;
    }
    Ok(())
}

pub fn add_reading_steps(
    reads: &mut LineIndex,
    alloc: Global,
    steps: &[RewriteStep],
    lines: &[Line],
) -> Result<(), OutOfMemory>
    ensures { OnOk result ((patterns : List Pattern) (site : SiteRow) (name : List ℕ)
        → at reads.new name ≡ at reads.old name
        ++ lines_of (in_directive name) (map (step_seen patterns site) steps.now) lines.now) }
{
    let mut left = lines;
    for step in steps {
        let Some((line, rest)) = left.split_first() else {
            return Ok(());
        };
        let read = step_names(alloc, step)?;
        reads.add_all(&read, *line)?;
        left = rest;
    }
    Ok(())
}

/// Adds the line of a directive of the variable that it sets, if it is a `set`.
fn add_set(sets: &mut LineIndex, step: &RewriteStep, line: Line) -> Result<(), OutOfMemory>
    ensures { OnOk result ((patterns : List Pattern) (site : SiteRow) (name : List ℕ)
        → at sets.new name ≡ at sets.old name
        ++ keep_if (sets_it name (step_seen patterns site step.now)) (line ∷ [])) }
{
    match step {
        RewriteStep::Set { name, .. } => {
            sets.add(name.as_slice(), line)?;
            Ok(())
        }
        RewriteStep::If { .. }
        | RewriteStep::Rewrite { .. }
        | RewriteStep::Return { .. }
        | RewriteStep::Stop => Ok(()),
    }
}

fn add_setting_steps(
    sets: &mut LineIndex,
    steps: &[RewriteStep],
    lines: &[Line],
) -> Result<(), OutOfMemory>
    ensures { OnOk result ((patterns : List Pattern) (site : SiteRow) (name : List ℕ)
        → at sets.new name ≡ at sets.old name
        ++ lines_of (sets_it name) (map (step_seen patterns site) steps.now) lines.now) }
{
    let mut left = lines;
    for step in steps {
        let Some((line, rest)) = left.split_first() else {
            return Ok(());
        };
        add_set(sets, step, *line)?;
        left = rest;
    }
    Ok(())
}

/// Adds the lines of a level's program that set variables.
fn add_sets(
    sets: &mut LineIndex,
    site: &Site,
    number: u32,
    lines: &LinedLevel,
) -> Result<(), OutOfMemory>
    ensures { OnOk result ((lists : List (List Place)) (patterns : List Pattern) (name : List ℕ)
        → at sets.new name ≡ at sets.old name
        ++ level_sets name (level_whole patterns site.now number) (level_by lists lines.now)) }
{
    let steps = site.level(number).program.as_slice();
    add_setting_steps(sets, steps, lines.own.program.as_slice())?;
    Ok(())
}

/// The lines where programs of levels set variables.
pub fn sets_of(
    alloc: Global,
    site: &Site,
    numbers: &[u32],
    lines: &[LinedLevel],
) -> Result<LineIndex, OutOfMemory>
    ensures { IfOk result (λ sets.
        (lists : List (List Place)) (patterns : List Pattern) (name : List ℕ)
        → at sets name ≡ all_sets name (map (level_whole patterns site.now) numbers.now)
        (map (level_by lists) lines.now)) }
{
    let mut sets = LineIndex::new(alloc);
    let mut left = lines;
    for number in numbers {
        let Some((own, rest)) = left.split_first() else {
            return Ok(sets);
        };
        add_sets(&mut sets, site, *number, own)?;
        left = rest;
    }
    Ok(sets)
}
