// The lines where variables are read, of all variables at once; of lists that levels share each once.
ghost use Rattle.std.specs.Prelude.{◌≡◌, ◌++◌, ◌||◌, [], ℕ, List, Some, map, IfOk, OnOk};
ghost use Rattle.site_views.specs.Pattern.{Pattern};
ghost use Rattle.site_model.specs.declared.site.Site.{Site as SiteRow};
ghost use Rattle.site_model.specs.Levels.{raw_level};
ghost use Rattle.site_whole.specs.Whole.{step_seen, values_seen, level_whole};
ghost use Rattle.race_meaning.specs.Reads.{in_directive};
ghost use Rattle.source_lines.specs.declared.line.Line.{Line as Place};
ghost use Rattle.race_check.specs.Names.{has as has_name};
ghost use Rattle.race_places.specs.Index.{at, is_among, Gains};
ghost use Rattle.race_places.specs.Marks.{list_reads, AreThere};
ghost use Rattle.race_places.specs.Places.{lines_of, keep_if, line_list, over_both, list_at, origins_by, level_by, levels_by, value_reads, level_reads, all_reads};

use crate::index::LineIndex;
use crate::lined::{LineList, LinedLevel, ServerLines, StatedLines, list_of};
use crate::marks::{Mark, is_gone, mark_gone, no_marks};
use crate::places::{add_auth_sets, add_names, add_pages, add_reading_steps};
use byte_text::OutOfMemory;
use race_check::{
    ListKind, NameSet, auth_sets_of, block_numbers, index_names, place_text, rules_of, text_names,
    tries_names,
};
use site_model::{Level, RewriteStep, Site};
use source_lines::Line;
use std::alloc::Global;

/// The lines where variables are read so far, and which lists of lines were gone through.
#[derive(Drop)]
pub struct Reads {
    pub index: LineIndex,
    pub marks: Vec<Option<Mark>>,
}

/// Adds the lines of a list of values that read variables.
fn add_list(
    index: &mut LineIndex,
    alloc: Global,
    site: &Site,
    kind: ListKind,
    values: u32,
    lines: &[Line],
) -> Result<(), OutOfMemory>
    ensures { OnOk result ((name : List ℕ) → at index.new name ≡ at index.old name
        ++ list_reads site.now kind name (Some values) lines.now) }
{
    match kind {
        ListKind::Index => add_names(index, alloc, index_names(site, values), lines)?,
        ListKind::Pages => add_pages(index, alloc, rules_of(site, Some(values)), lines)?,
        ListKind::AuthSets => {
            add_auth_sets(index, alloc, auth_sets_of(site, Some(values)), lines)?;
        }
    }
    Ok(())
}

impl Reads {
    /// Adds the lines of a list of values, unless these lines were gone through with this list before.
    fn add_once(
        &mut self,
        alloc: Global,
        site: &Site,
        lists: &[LineList],
        kind: ListKind,
        values: u32,
        lines: usize,
    ) -> Result<(), OutOfMemory>
        requires { AreThere site.now lists.now self.old.marks.items self.old.index }
        ensures there { OnOk result
            (AreThere site.now lists.now self.new.marks.items self.new.index) }
        ensures gains { OnOk result (Gains self.old.index self.new.index
            (λ name. list_reads site.now kind name (Some values)
            (list_at lists.now (Some lines)))) }
    {
        if is_gone(self.marks.as_slice(), lines, kind, values) {
            return Ok(());
        }
        add_list(
            &mut self.index,
            alloc,
            site,
            kind,
            values,
            list_of(lists, lines),
        )?;
        mark_gone(&mut self.marks, lines, Mark { kind, values });
        Ok(())
    }

    /// The same where a list is stated: where none is, `index.html` reads nothing.
    fn add_stated(
        &mut self,
        alloc: Global,
        site: &Site,
        lists: &[LineList],
        kind: ListKind,
        values: Option<u32>,
        lines: usize,
    ) -> Result<(), OutOfMemory>
        requires { AreThere site.now lists.now self.old.marks.items self.old.index }
        ensures there { OnOk result
            (AreThere site.now lists.now self.new.marks.items self.new.index) }
        ensures gains { OnOk result (Gains self.old.index self.new.index
            (λ name. list_reads site.now kind name values (list_at lists.now (Some lines)))) }
    {
        match values {
            Some(values) => {
                self.add_once(alloc, site, lists, kind, values, lines)?;
                Ok(())
            }
            None => Ok(()),
        }
    }

    /// Adds the lines of the list that holds in a level, where they are known.
    fn add_held(
        &mut self,
        alloc: Global,
        site: &Site,
        lists: &[LineList],
        kind: ListKind,
        values: Option<u32>,
        lines: Option<usize>,
    ) -> Result<(), OutOfMemory>
        requires { AreThere site.now lists.now self.old.marks.items self.old.index }
        ensures there { OnOk result
            (AreThere site.now lists.now self.new.marks.items self.new.index) }
        ensures gains { OnOk result (Gains self.old.index self.new.index
            (λ name. list_reads site.now kind name values (list_at lists.now lines))) }
    {
        match lines {
            Some(lines) => {
                self.add_stated(alloc, site, lists, kind, values, lines)?;
                Ok(())
            }
            None => Ok(()),
        }
    }

    /// Adds a line, if there is one, of each of these variables.
    fn add_own(
        &mut self,
        site: &Site,
        lists: &[LineList],
        names: &NameSet,
        line: Option<Line>,
    ) -> Result<(), OutOfMemory>
        requires { AreThere site.now lists.now self.old.marks.items self.old.index }
        ensures there { OnOk result
            (AreThere site.now lists.now self.new.marks.items self.new.index) }
        ensures gains { OnOk result (Gains self.old.index self.new.index
            (λ name. keep_if (has_name names.now name) (line_list line))) }
    {
        self.index.add_some(names, line)?;
        Ok(())
    }

    /// Adds the lines of directives that read variables.
    fn add_program(
        &mut self,
        alloc: Global,
        site: &Site,
        lists: &[LineList],
        steps: &[RewriteStep],
        lines: &[Line],
    ) -> Result<(), OutOfMemory>
        requires { AreThere site.now lists.now self.old.marks.items self.old.index }
        ensures there { OnOk result
            (AreThere site.now lists.now self.new.marks.items self.new.index) }
        ensures gains { OnOk result ((patterns : List Pattern)
            → Gains self.old.index self.new.index (λ name. lines_of (in_directive name)
            (map (step_seen patterns site.now) steps.now) lines.now)) }
    {
        add_reading_steps(&mut self.index, alloc, steps, lines)?;
        Ok(())
    }

    /// Adds the lines of values of a level that read variables.
    fn add_values(
        &mut self,
        alloc: Global,
        site: &Site,
        lists: &[LineList],
        level: &Level,
        lines: &StatedLines,
    ) -> Result<(), OutOfMemory>
        requires { AreThere site.now lists.now self.old.marks.items self.old.index }
        ensures there { OnOk result
            (AreThere site.now lists.now self.new.marks.items self.new.index) }
        ensures gains { OnOk result (Gains self.old.index self.new.index
            (λ name. value_reads name (values_seen site.now level.now)
            (origins_by lists.now lines.now))) }
    {
        let place = text_names(alloc, place_text(&level.place))?;
        self.add_own(site, lists, &place, lines.place)?;
        self.add_held(
            alloc,
            site,
            lists,
            ListKind::Index,
            level.index,
            lines.index,
        )?;
        let tries = tries_names(alloc, &level.tries)?;
        self.add_own(site, lists, &tries, lines.tries)?;
        self.add_held(
            alloc,
            site,
            lists,
            ListKind::Pages,
            level.pages,
            lines.pages,
        )?;
        self.add_held(
            alloc,
            site,
            lists,
            ListKind::AuthSets,
            level.auth_sets,
            lines.auth_sets,
        )?;
        Ok(())
    }

    /// Adds the lines of the values of blocks, by the numbers of their levels, that read variables.
    fn add_blocks(
        &mut self,
        alloc: Global,
        site: &Site,
        lists: &[LineList],
        numbers: &[u32],
        lines: &[StatedLines],
    ) -> Result<(), OutOfMemory>
        requires { AreThere site.now lists.now self.old.marks.items self.old.index }
        ensures there { OnOk result
            (AreThere site.now lists.now self.new.marks.items self.new.index) }
        ensures gains { OnOk result (Gains self.old.index self.new.index
            (λ name. over_both (value_reads name)
            (map (λ n. values_seen site.now (raw_level site.now n)) numbers.now)
            (map (origins_by lists.now) lines.now))) }
    {
        let mut left = lines;
        for number in numbers {
            let Some((own, rest)) = left.split_first() else {
                return Ok(());
            };
            self.add_values(alloc, site, lists, site.level(*number), own)?;
            left = rest;
        }
        Ok(())
    }

    /// Adds the lines of a level that read variables: of its values, of its program, and of the values of the blocks in that.
    fn add_level(
        &mut self,
        alloc: Global,
        site: &Site,
        lists: &[LineList],
        number: u32,
        lines: &LinedLevel,
    ) -> Result<(), OutOfMemory>
        requires { AreThere site.now lists.now self.old.marks.items self.old.index }
        ensures there { OnOk result
            (AreThere site.now lists.now self.new.marks.items self.new.index) }
        ensures gains { OnOk result ((patterns : List Pattern)
            → Gains self.old.index self.new.index (λ name. level_reads name
            (level_whole patterns site.now number) (level_by lists.now lines.now))) }
    {
        let level = site.level(number);
        let steps = level.program.as_slice();
        self.add_values(alloc, site, lists, level, &lines.own)?;
        self.add_program(alloc, site, lists, steps, lines.own.program.as_slice())?;
        let blocks = block_numbers(alloc, steps)?;
        self.add_blocks(
            alloc,
            site,
            lists,
            blocks.as_slice(),
            lines.blocks.as_slice(),
        )?;
        Ok(())
    }

    fn add_levels(
        &mut self,
        alloc: Global,
        site: &Site,
        lists: &[LineList],
        numbers: &[u32],
        levels: &[LinedLevel],
    ) -> Result<(), OutOfMemory>
        requires { AreThere site.now lists.now self.old.marks.items self.old.index }
        ensures { OnOk result ((patterns : List Pattern) → Gains self.old.index self.new.index
            (λ name. all_reads name (map (level_whole patterns site.now) numbers.now)
            (map (level_by lists.now) levels.now))) }
    {
        let mut left = levels;
        for number in numbers {
            let Some((own, rest)) = left.split_first() else {
                return Ok(());
            };
            self.add_level(alloc, site, lists, *number, own)?;
            left = rest;
        }
        Ok(())
    }
}

/// The lines where levels read variables, by the levels' numbers. Each list that levels share is gone through once.
pub fn reads_of(
    alloc: Global,
    site: &Site,
    numbers: &[u32],
    lines: &ServerLines,
) -> Result<LineIndex, OutOfMemory>
    ensures { IfOk result (λ reads. (patterns : List Pattern) (name : List ℕ) (line : Place)
        → is_among line (at reads name) ≡ is_among line
        (all_reads name (map (level_whole patterns site.now) numbers.now) (levels_by lines.now))) }
{
    let lists = lines.lists.as_slice();
    let mut reads = Reads {
        index: LineIndex::new(alloc),
        marks: no_marks(alloc, lists)?,
    };
    reads.add_levels(alloc, site, lists, numbers, lines.levels.as_slice())?;
    Ok(reads.index)
}
