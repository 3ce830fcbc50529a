// The lines of the values that levels inherit.
ghost use Rattle.std.specs.Prelude.{◌≡◌, List, codes, IfOk, OnOk};
ghost use Rattle.conf_block.specs.Forest.{forest_of};
ghost use Rattle.conf_inherit.specs.Values.{either, own_or, has_items};
ghost use Rattle.source_lines.specs.declared.line.Line.{Line as Place};
ghost use Rattle.race_places.specs.Places.{list_at};
ghost use Rattle.conf_races.specs.Origins.{first_line, outer_by, outer_over, nowhere, place_line, Grows};

use crate::lines::{directive_lines, first_line, word_lines};
use byte_text::OutOfMemory;
use conf_text::Directive;
use race_places::LineList;
use source_lines::Line;
use std::alloc::Global;

/// Where the values are stated that hold in a level and in those in it: its place, and the numbers of the lines of its index
/// names, of its rules of `error_page`, and of its `auth_request_set`s among some lists. So a level inherits a list by its
/// number, however long it is.
#[derive(Clone, Copy)]
pub struct OuterLines {
    pub place: Option<Line>,
    pub index: Option<usize>,
    pub pages: Option<usize>,
    pub auth_sets: Option<usize>,
}

/// Nothing is stated.
pub fn nowhere() -> OuterLines
    ensures { (lists : List (List Place)) → outer_by lists result ≡ nowhere }
{
    OuterLines {
        place: None,
        index: None,
        pages: None,
        auth_sets: None,
    }
}

/// The line of `root`, or else of `alias`, or else this one.
fn place_over(level: &[Directive], outer: Option<Line>) -> Option<Line>
    ensures { result ≡ either (place_line (forest_of level.now)) outer }
{
    if let Some(line) = first_line(level, b"root") {
        return Some(line);
    }
    if let Some(line) = first_line(level, b"alias") {
        return Some(line);
    }
    outer
}

/// The number of these lines, which are added to the lists, or of those around the level where there are none.
fn own_or(
    lists: &mut Vec<LineList>,
    own: Vec<Line>,
    outer: Option<usize>,
) -> Result<Option<usize>, OutOfMemory>
    ensures grows { OnOk result (Grows lists.old.items lists.new.items) }
    ensures lines { IfOk result (λ number. (later : List (List Place)) → Grows lists.new.items later
        → list_at later number ≡ own_or has_items own.items (list_at later outer)) }
{
    if own.is_empty() {
        return Ok(outer);
    }
    let number = lists.len();
    lists.push(LineList::new(own))?;
    Ok(Some(number))
}

/// The lines of the values that hold in a level, by what it states over those around it.
pub fn outer_over(
    lists: &mut Vec<LineList>,
    alloc: Global,
    level: &[Directive],
    outer: OuterLines,
) -> Result<OuterLines, OutOfMemory>
    ensures grows { OnOk result (Grows lists.old.items lists.new.items) }
    ensures lines { IfOk result (λ o. (later : List (List Place)) → Grows lists.new.items later
        → outer_by later o ≡ outer_over (forest_of level.now) (outer_by later outer)) }
{
    let names = word_lines(alloc, level, b"index")?;
    let rules = directive_lines(alloc, level, b"error_page")?;
    let sets = directive_lines(alloc, level, b"auth_request_set")?;
    let index = own_or(lists, names, outer.index)?;
    let pages = own_or(lists, rules, outer.pages)?;
    let auth_sets = own_or(lists, sets, outer.auth_sets)?;
    Ok(OuterLines {
        place: place_over(level, outer.place),
        index,
        pages,
        auth_sets,
    })
}

/// The same lists once more.
pub fn copied(alloc: Global, lists: &[LineList]) -> Result<Vec<LineList>, OutOfMemory>
    ensures { IfOk result (λ copy. copy.items ≡ lists.now) }
{
    let mut copy = Vec::new(alloc);
    for list in lists {
        copy.push(list.copy(alloc)?)?;
    }
    Ok(copy)
}
