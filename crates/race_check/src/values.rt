// Which variables the values of levels read, and which a subrequest sets by them.
ghost use Rattle.std.specs.Prelude.{◌≡◌, ◌||◌, ◌&&◌, not, ℕ, List, Some, map, option_map, bytes_eq, OnOk};
ghost use Rattle.std.specs.List.{list_any};
ghost use Rattle.ngx_variables.specs.Paths.{text_of};
ghost use Rattle.site_model.specs.Levels.{raw_level};
ghost use Rattle.site_views.specs.Values.{IndexName as NameView, PageRule as RuleView, Text};
ghost use Rattle.site_whole.specs.Whole.{index_at, index_seen, last_seen, tries_seen, target_seen, page_seen, pages_at, auth_set_seen, auth_sets_at};
ghost use Rattle.race_meaning.specs.Reads.{in_text, in_last, in_tries, in_target};
ghost use Rattle.race_check.specs.Lists.{in_list, in_own, sets_by_auth};
ghost use Rattle.race_check.specs.Names.{has as has_name, Notes};

use crate::listed::ListKind;
use crate::names::NameSet;
use crate::reads::note_text;
use byte_text::OutOfMemory;
use ngx_variables::{FileRoot, Value};
use site_model::{AuthSet, IndexName, LastTry, Level, PageRule, PageTarget, Site, Tries};

pub fn place_text(place: &FileRoot) -> &Value
    ensures { result.now ≡ text_of place.now }
{
    match place {
        FileRoot::Root(text) => text,
        FileRoot::Rest { text, .. } => text,
        FileRoot::Whole(text) => text,
    }
}

fn note_names(
    exposed: &mut NameSet,
    settled: &NameSet,
    names: &[IndexName],
) -> Result<(), OutOfMemory>
    ensures { OnOk result (Notes settled.now exposed.old exposed.new
        (λ name. list_any (λ (i : NameView). in_text name i.text) (map index_seen names.now))) }
{
    for name in names {
        note_text(exposed, settled, &name.text)?;
    }
    Ok(())
}

pub fn index_names(site: &Site, number: u32) -> &[IndexName]
    ensures { map index_seen result.now ≡ index_at site.now (Some number) }
{
    match site.indexes.get(number as usize) {
        Some(index) => index.names.as_slice(),
        None => &[],
    }
}

fn note_texts(exposed: &mut NameSet, settled: &NameSet, texts: &[Value]) -> Result<(), OutOfMemory>
    ensures { OnOk result (Notes settled.now exposed.old exposed.new
        (λ name. list_any (in_text name) texts.now)) }
{
    for text in texts {
        note_text(exposed, settled, text)?;
    }
    Ok(())
}

fn note_last(exposed: &mut NameSet, settled: &NameSet, last: &LastTry) -> Result<(), OutOfMemory>
    ensures { OnOk result
        (Notes settled.now exposed.old exposed.new (λ name. in_last name (last_seen last.now))) }
{
    match last {
        LastTry::Path(text) => {
            note_text(exposed, settled, text)?;
            Ok(())
        }
        LastTry::Location(_) | LastTry::Code(_) => Ok(()),
    }
}

pub fn note_tries(
    exposed: &mut NameSet,
    settled: &NameSet,
    tries: &Option<Tries>,
) -> Result<(), OutOfMemory>
    ensures { OnOk result (Notes settled.now exposed.old exposed.new
        (λ name. in_tries name (option_map tries_seen tries.now))) }
{
    match tries {
        Some(tries) => {
            note_texts(exposed, settled, tries.names.as_slice())?;
            note_last(exposed, settled, &tries.last)?;
            Ok(())
        }
        None => Ok(()),
    }
}

pub fn note_target(
    exposed: &mut NameSet,
    settled: &NameSet,
    target: &PageTarget,
) -> Result<(), OutOfMemory>
    ensures { OnOk result
        (Notes settled.now exposed.old exposed.new
        (λ name. in_target name (target_seen target.now))) }
{
    match target {
        PageTarget::Path(text) | PageTarget::Url(text) => {
            note_text(exposed, settled, text)?;
            Ok(())
        }
        PageTarget::Location(_) => Ok(()),
    }
}

fn note_pages(
    exposed: &mut NameSet,
    settled: &NameSet,
    rules: &[PageRule],
) -> Result<(), OutOfMemory>
    ensures { OnOk result (Notes settled.now exposed.old exposed.new
        (λ name. list_any (λ (r : RuleView). in_target name r.target) (map page_seen rules.now))) }
{
    for rule in rules {
        note_target(exposed, settled, &rule.target)?;
    }
    Ok(())
}

/// The rules of a number, none without one.
pub fn rules_of<'a>(site: &'a Site, number: Option<u32>) -> &'a [PageRule]
    ensures { map page_seen result.now ≡ pages_at site.now number }
{
    match number {
        Some(number) => match site.pages.get(number as usize) {
            Some(pages) => pages.rules.as_slice(),
            None => &[],
        },
        None => &[],
    }
}

fn note_auth_texts(
    exposed: &mut NameSet,
    settled: &NameSet,
    sets: &[AuthSet],
) -> Result<(), OutOfMemory>
    ensures { OnOk result (Notes settled.now exposed.old exposed.new
        (λ name. list_any (λ (s : List ℕ × Text). in_text name s.1) (map auth_set_seen sets.now))) }
{
    for set in sets {
        note_text(exposed, settled, &set.text)?;
    }
    Ok(())
}

pub fn auth_sets_of<'a>(site: &'a Site, number: Option<u32>) -> &'a [AuthSet]
    ensures { map auth_set_seen result.now ≡ auth_sets_at site.now number }
{
    match number {
        Some(number) => match site.auth_sets.get(number as usize) {
            Some(sets) => sets.sets.as_slice(),
            None => &[],
        },
        None => &[],
    }
}

/// Notes what a level's values read that isn't settled, but for those in lists that levels share.
fn note_own(exposed: &mut NameSet, settled: &NameSet, level: &Level) -> Result<(), OutOfMemory>
    ensures { OnOk result
        (Notes settled.now exposed.old exposed.new (λ name. in_own name level.now)) }
{
    note_text(exposed, settled, place_text(&level.place))?;
    note_tries(exposed, settled, &level.tries)?;
    Ok(())
}

/// The same for each of these levels.
pub fn note_levels(
    exposed: &mut NameSet,
    settled: &NameSet,
    site: &Site,
    levels: &[u32],
) -> Result<(), OutOfMemory>
    ensures { OnOk result (Notes settled.now exposed.old exposed.new
        (λ name. list_any (λ number. in_own name (raw_level site.now number)) levels.now)) }
{
    for number in levels {
        note_own(exposed, settled, site.level(*number))?;
    }
    Ok(())
}

/// Notes what a list reads that isn't settled.
pub fn note_list(
    exposed: &mut NameSet,
    settled: &NameSet,
    site: &Site,
    kind: ListKind,
    number: u32,
) -> Result<(), OutOfMemory>
    ensures { OnOk result (Notes settled.now exposed.old exposed.new
        (λ name. in_list site.now kind name number)) }
{
    match kind {
        ListKind::Index => note_names(exposed, settled, index_names(site, number))?,
        ListKind::Pages => note_pages(exposed, settled, rules_of(site, Some(number)))?,
        ListKind::AuthSets => note_auth_texts(exposed, settled, auth_sets_of(site, Some(number)))?,
    }
    Ok(())
}

/// Notes what these lists of a kind read that isn't settled.
pub fn note_numbers(
    exposed: &mut NameSet,
    settled: &NameSet,
    site: &Site,
    kind: ListKind,
    numbers: &[u32],
) -> Result<(), OutOfMemory>
    ensures { OnOk result (Notes settled.now exposed.old exposed.new
        (λ name. list_any (in_list site.now kind name) numbers.now)) }
{
    for number in numbers {
        note_list(exposed, settled, site, kind, *number)?;
    }
    Ok(())
}

/// Notes the variables that these lists of `auth_request_set`s set.
pub fn note_auth_sets(auth: &mut NameSet, site: &Site, numbers: &[u32]) -> Result<(), OutOfMemory>
    ensures { OnOk result ((name : List ℕ) → has_name auth.new name
        ≡ (list_any (sets_by_auth site.now name) numbers.now || has_name auth.old name)) }
{
    for number in numbers {
        note_set_names(auth, auth_sets_of(site, Some(*number)))?;
    }
    Ok(())
}

pub fn note_set_names(auth: &mut NameSet, sets: &[AuthSet]) -> Result<(), OutOfMemory>
    ensures { OnOk result ((name : List ℕ) → has_name auth.new name
        ≡ (list_any (λ (s : List ℕ × Text). bytes_eq s.0 name) (map auth_set_seen sets.now)
        || has_name auth.old name)) }
{
    for set in sets {
        auth.add(set.name.as_slice())?;
    }
    Ok(())
}
