// The first lists of a site.
ghost use Rattle.std.specs.Prelude.{◌≡◌, ℕ, List, IfOk};
ghost use Rattle.race_check.specs.Lists.{in_list, sets_by_auth};
ghost use Rattle.race_check.specs.Names.{has as has_name};
ghost use Rattle.race_check.specs.Told.{AreFirst};

use crate::listed::ListKind;
use crate::names::NameSet;
use crate::values::{auth_sets_of, note_list, note_set_names};
use byte_text::OutOfMemory;
use site_model::Site;
use std::alloc::Global;

/// The variables that the first list of each kind reads, and those that the first `auth_request_set`s set. A site keeps the lists
/// of `http` before all others, so a list that `http` states is the first of its kind, and any other holds in one server alone.
/// What the first lists read and set is noted once for the site, so that not each server goes through them again.
#[derive(Drop)]
pub struct FirstLists {
    pub index: NameSet,
    pub pages: NameSet,
    pub auth_sets: NameSet,
    pub sets: NameSet,
}

/// The variables that a list reads.
fn names_read(
    alloc: Global,
    site: &Site,
    kind: ListKind,
    number: u32,
) -> Result<NameSet, OutOfMemory>
    ensures { IfOk result (λ names. (name : List ℕ)
        → has_name names name ≡ in_list site.now kind name number) }
{
    let settled = NameSet::new(alloc);
    let mut names = NameSet::new(alloc);
    note_list(&mut names, &settled, site, kind, number)?;
    Ok(names)
}

/// The variables that a list of `auth_request_set`s sets.
fn names_set(alloc: Global, site: &Site, number: u32) -> Result<NameSet, OutOfMemory>
    ensures { IfOk result (λ names. (name : List ℕ)
        → has_name names name ≡ sets_by_auth site.now name number) }
{
    let mut names = NameSet::new(alloc);
    note_set_names(&mut names, auth_sets_of(site, Some(number)))?;
    Ok(names)
}

/// What the first lists of a site read and set.
pub fn first_lists(alloc: Global, site: &Site) -> Result<FirstLists, OutOfMemory>
    ensures { IfOk result (λ lists. AreFirst site.now lists) }
{
    Ok(FirstLists {
        index: names_read(alloc, site, ListKind::Index, 0)?,
        pages: names_read(alloc, site, ListKind::Pages, 0)?,
        auth_sets: names_read(alloc, site, ListKind::AuthSets, 0)?,
        sets: names_set(alloc, site, 0)?,
    })
}
