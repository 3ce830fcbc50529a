// The lists of values that levels share, each once.
ghost use Rattle.std.specs.Prelude.{◌≡◌, ◌↔◌, ◌++◌, ℕ, Bool, Contains, IfOk, OnOk};
ghost use Rattle.std.specs.List.{list_any};
ghost use Rattle.race_check.specs.Lists.{list_number, lists_of, AreOfKind, AreInLevels};
ghost use Rattle.race_check.specs.Numbers.{number_of};

use byte_text::OutOfMemory;
use site_model::{Level, Site};
use std::alloc::Global;

/// What a list holds that levels share by its number: index names, rules of `error_page`, or `auth_request_set`s.
#[derive(Clone, Copy)]
pub enum ListKind {
    Index,
    Pages,
    AuthSets,
}

/// The number of the list of a kind that holds in a level.
pub fn list_number(level: &Level, kind: ListKind) -> Option<u32>
    ensures { result ≡ list_number kind level.now }
{
    match kind {
        ListKind::Index => level.index,
        ListKind::Pages => level.pages,
        ListKind::AuthSets => level.auth_sets,
    }
}

fn push_some(numbers: &mut Vec<u32>, number: Option<u32>) -> Result<(), OutOfMemory>
    ensures { OnOk result (numbers.new.items ≡ numbers.old.items ++ number_of number) }
{
    if let Some(number) = number {
        numbers.push(number)?;
    }
    Ok(())
}

/// The numbers of the lists of a kind that hold in these levels, one for each level.
fn numbers_of(
    alloc: Global,
    site: &Site,
    levels: &[u32],
    kind: ListKind,
) -> Result<Vec<u32>, OutOfMemory>
    ensures { IfOk result (λ numbers. numbers.items ≡ lists_of site.now kind levels.now) }
{
    let mut numbers = Vec::new(alloc);
    for level in levels {
        push_some(&mut numbers, list_number(site.level(*level), kind))?;
    }
    Ok(numbers)
}

/// The same numbers, each once.
fn each_once(mut numbers: Vec<u32>) -> Vec<u32>
    ensures { (number : ℕ) → Contains numbers.items number ↔ Contains result.items number }
{
    numbers.sort_unstable();
    numbers.dedup();
    numbers
}

/// The numbers of the lists of a kind that hold in these levels, each once.
fn shared_lists(
    alloc: Global,
    site: &Site,
    levels: &[u32],
    kind: ListKind,
) -> Result<Vec<u32>, OutOfMemory>
    ensures { IfOk result (λ numbers. (test : ℕ → Bool)
        → list_any test numbers.items ≡ list_any test (lists_of site.now kind levels.now)) }
{
    let numbers = numbers_of(alloc, site, levels, kind)?;
    Ok(each_once(numbers))
}

/// The lists of a kind that hold in levels: whether the site's first list of the kind is one of them, and the numbers of the
/// others, each once.
#[derive(Drop)]
pub struct KindLists {
    pub has_first: bool,
    pub others: Vec<u32>,
}

/// Lists by these numbers, the first apart from the others.
fn first_apart(alloc: Global, numbers: &[u32]) -> Result<KindLists, OutOfMemory>
    ensures { IfOk result (λ lists. AreOfKind numbers.now lists) }
{
    let mut has_first = false;
    let mut others = Vec::new(alloc);
    for number in numbers {
        if *number == 0 {
            has_first = true;
        } else {
            others.push(*number)?;
        }
    }
    Ok(KindLists { has_first, others })
}

fn kind_lists(
    alloc: Global,
    site: &Site,
    levels: &[u32],
    kind: ListKind,
) -> Result<KindLists, OutOfMemory>
    ensures { IfOk result (λ lists. AreOfKind (lists_of site.now kind levels.now) lists) }
{
    let numbers = shared_lists(alloc, site, levels, kind)?;
    let lists = first_apart(alloc, numbers.as_slice())?;
    Ok(lists)
}

/// The lists that hold in levels, of each kind.
#[derive(Drop)]
pub struct LevelLists {
    pub index: KindLists,
    pub pages: KindLists,
    pub auth_sets: KindLists,
}

/// The lists that hold in these levels.
pub fn lists_in(alloc: Global, site: &Site, levels: &[u32]) -> Result<LevelLists, OutOfMemory>
    ensures { IfOk result (λ lists. AreInLevels site.now levels.now lists) }
{
    Ok(LevelLists {
        index: kind_lists(alloc, site, levels, ListKind::Index)?,
        pages: kind_lists(alloc, site, levels, ListKind::Pages)?,
        auth_sets: kind_lists(alloc, site, levels, ListKind::AuthSets)?,
    })
}
