// What decides of each variable of a server whether it is named.
ghost use Rattle.std.specs.Prelude.{◌≡◌, ◌||◌, ◌&&◌, not, false, ℕ, List, map, flat_map, OnOk, IfOk, option_map};
ghost use Rattle.std.specs.List.{list_any, list_all};
ghost use Rattle.site_views.specs.Pattern.{Pattern};
ghost use Rattle.site_model.specs.declared.site.Site.{Site as SiteRow};
ghost use Rattle.site_model.specs.Levels.{raw_level};
ghost use Rattle.site_whole.specs.Whole.{step_seen, program_seen};
ghost use Rattle.race_meaning.specs.Reads.{is_private_in};
ghost use Rattle.race_meaning.specs.Named.{begins_with_set, set_text};
ghost use Rattle.race_check.specs.Lists.{sets_by_auth, read_by_others};
ghost use Rattle.race_check.specs.Names.{has as has_name};
ghost use Rattle.race_check.specs.Texts.{known, told};
ghost use Rattle.race_check.specs.Numbers.{set_name};

use crate::listed::{LevelLists, ListKind};
use crate::names::NameSet;
use crate::reads::note_program;
use crate::texts::SetTexts;
use crate::values::{note_auth_sets, note_levels, note_numbers};
use byte_text::OutOfMemory;
use site_model::{Level, RewriteStep, Site};
use std::alloc::Global;

/// The variables that these lists of `auth_request_set`s set.
pub fn set_by_auth(alloc: Global, site: &Site, numbers: &[u32]) -> Result<NameSet, OutOfMemory>
    ensures { IfOk result (λ auth. (name : List ℕ) → has_name auth name
        ≡ list_any (sets_by_auth site.now name) numbers.now) }
{
    let mut auth = NameSet::new(alloc);
    note_auth_sets(&mut auth, site, numbers)?;
    Ok(auth)
}

/// The variables that values of these levels read, in which these lists hold; but for those that only the first lists read.
pub fn read_by_values(
    alloc: Global,
    site: &Site,
    levels: &[u32],
    lists: &LevelLists,
) -> Result<NameSet, OutOfMemory>
    ensures { IfOk result (λ exposed. (name : List ℕ) → has_name exposed name
        ≡ read_by_others site.now levels.now lists.now name) }
{
    let settled = NameSet::new(alloc);
    let mut exposed = NameSet::new(alloc);
    let index = lists.index.others.as_slice();
    let pages = lists.pages.others.as_slice();
    let auth_sets = lists.auth_sets.others.as_slice();
    note_levels(&mut exposed, &settled, site, levels)?;
    note_numbers(&mut exposed, &settled, site, ListKind::Index, index)?;
    note_numbers(&mut exposed, &settled, site, ListKind::Pages, pages)?;
    note_numbers(&mut exposed, &settled, site, ListKind::AuthSets, auth_sets)?;
    Ok(exposed)
}

/// Adds the variables that programs of these levels read, but not after a `set` of their own.
pub fn add_exposed(
    exposed: &mut NameSet,
    alloc: Global,
    site: &Site,
    levels: &[u32],
) -> Result<(), OutOfMemory>
    ensures { OnOk result ((patterns : List Pattern) (name : List ℕ) → has_name exposed.new name
        ≡ (not (list_all
        (λ number. is_private_in name false 0
        (program_seen patterns site.now (raw_level site.now number)))
        levels.now)
        || has_name exposed.old name)) }
{
    for number in levels {
        note_program(exposed, alloc, site.level(*number))?;
    }
    Ok(())
}

/// The texts that the `set`s in these levels' programs give.
pub fn set_texts(alloc: Global, site: &Site, levels: &[u32]) -> Result<SetTexts, OutOfMemory>
    ensures { IfOk result (λ texts. (patterns : List Pattern) (name : List ℕ) → known texts name
        ≡ told None (flat_map
        (λ number. flat_map (set_text name)
        (program_seen patterns site.now (raw_level site.now number)))
        levels.now)) }
{
    let mut texts = SetTexts::new(alloc);
    for number in levels {
        texts.add_steps(site.level(*number).program.as_slice())?;
    }
    Ok(texts)
}

/// The variable that a directive sets, if it is a `set`.
fn set_name(step: &RewriteStep) -> Option<&[u8]>
    ensures { option_map (λ name. name.now) result ≡ set_name step.now }
{
    match step {
        RewriteStep::Set { name, .. } => Some(name.as_slice()),
        RewriteStep::If { .. }
        | RewriteStep::Rewrite { .. }
        | RewriteStep::Return { .. }
        | RewriteStep::Stop => None,
    }
}

fn add_first_sets(names: &mut NameSet, steps: &[RewriteStep]) -> Result<(), OutOfMemory>
    ensures { OnOk result ((patterns : List Pattern) (site : SiteRow) (name : List ℕ)
        → has_name names.new name
        ≡ (begins_with_set name (map (step_seen patterns site) steps.now)
        || has_name names.old name)) }
{
    for step in steps {
        match set_name(step) {
            Some(name) => names.add(name)?,
            None => return Ok(()),
        }
    }
    Ok(())
}

/// The variables that the `set`s at the beginning of a level's program set.
pub fn first_sets(alloc: Global, level: &Level) -> Result<NameSet, OutOfMemory>
    ensures { IfOk result (λ names. (patterns : List Pattern) (site : SiteRow) (name : List ℕ)
        → has_name names name
        ≡ begins_with_set name (program_seen patterns site level.now)) }
{
    let mut names = NameSet::new(alloc);
    add_first_sets(&mut names, level.program.as_slice())?;
    Ok(names)
}
