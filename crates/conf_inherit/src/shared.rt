// The lists that levels state, and that those in them share.
ghost use Rattle.std.specs.Prelude.{◌≡◌, [], ◌||◌, map, slice_get, Some, IfOk};
ghost use Rattle.site_whole.specs.Whole.{index_seen, page_seen, auth_set_seen, media_seen};
ghost use Rattle.conf_block.specs.Forest.{forest_of, roots};
ghost use Rattle.conf_lists.specs.Lists.{stated_lists as lists_meant};
ghost use Rattle.conf_inherit.specs.Values.{has_items, has_types, lists_over};
ghost use Rattle.conf_inherit.specs.Pools.{Keeps, KeepsAll, FitsLists, Says, IsPlaced, lists_by, index_names, page_rules, rules_in, sets_in};

use crate::level::{Listed, Shared};
use crate::shelf::Shelf;
use access_rules::Rule;
use byte_text::OutOfMemory;
use conf_lists::stated_lists;
use conf_text::Directive;
use site_model::{
    AuthSet, AuthSets, IndexName, IndexNames, MediaTypes, PageRule, PageRules, Rules,
};
use std::alloc::Global;

/// The number that the next one gets after this many.
pub fn next_number(count: usize) -> Result<u32, OutOfMemory>
    ensures { IfOk result (λ n. n ≡ count) }
{
    match u32::try_from(count) {
        Ok(number) => Ok(number),
        Err(_error) => Err(OutOfMemory),
    }
}

/// Keeps an item, and gives its number.
pub fn keep<T: Drop>(items: &mut Vec<T>, item: T) -> Result<u32, OutOfMemory>
    ensures there { IfOk result (λ n. slice_get items.new.items n ≡ Some item) }
    ensures kept { IfOk result (λ n. Keeps items.old.items items.new.items) }
{
    let number = next_number(items.len())?;
    items.push(item)?;
    Ok(number)
}

/// Keeps what a level states of a list, if it states some; else what is around it holds.
fn place<'a, T: Drop>(
    items: &mut Vec<T>,
    stated: Option<T>,
    level: &'a [Directive],
    outer: Option<Listed<'a>>,
) -> Result<Option<Listed<'a>>, OutOfMemory>
    ensures { IfOk result
        (λ s. IsPlaced items.old.items items.new.items stated level.now outer.entry s) }
{
    match stated {
        None => Ok(outer),
        Some(item) => {
            let number = keep(items, item)?;
            Ok(Some(Listed { level, number }))
        }
    }
}

fn some_names(names: Vec<IndexName>) -> Option<IndexNames>
    ensures { Says has_items index_names result (map index_seen names.items) }
{
    if names.is_empty() {
        None
    } else {
        Some(IndexNames { names })
    }
}

fn some_pages(rules: Vec<PageRule>) -> Option<PageRules>
    ensures { Says has_items page_rules result (map page_seen rules.items) }
{
    if rules.is_empty() {
        None
    } else {
        Some(PageRules { rules })
    }
}

fn some_rules(rules: Vec<Rule>) -> Option<Rules>
    ensures { Says has_items rules_in result rules.items }
{
    if rules.is_empty() {
        None
    } else {
        Some(Rules { rules })
    }
}

fn some_sets(sets: Vec<AuthSet>) -> Option<AuthSets>
    ensures { Says has_items sets_in result (map auth_set_seen sets.items) }
{
    if sets.is_empty() {
        None
    } else {
        Some(AuthSets { sets })
    }
}

fn some_media(media: MediaTypes) -> Option<MediaTypes>
    ensures { Says has_types media_seen result (media_seen media) }
{
    if media.every || !media.types.as_slice().is_empty() {
        Some(media)
    } else {
        None
    }
}

/// The lists of a level, by those that its block states, each as a whole over that around it. A list that is stated gets a
/// number of its own, and any other keeps the number around it.
pub fn share<'a>(
    alloc: Global,
    shelf: &mut Shelf,
    block: &'a [Directive],
    outer: Shared<'a>,
) -> Result<Shared<'a>, OutOfMemory>
    requires { FitsLists shelf.old outer }
    ensures values { IfOk result (λ s. lists_by s ≡ lists_over
        (lists_meant (roots (forest_of block.now))) (lists_by outer.entry)) }
    ensures fits { IfOk result (λ s. FitsLists shelf.new s) }
    ensures kept { IfOk result (λ s. KeepsAll shelf.old shelf.new) }
    ensures types { IfOk result (λ s. shelf.new.types ≡ shelf.old.types) }
{
    let stated = stated_lists(alloc, block)?;
    let own_index = some_names(stated.index);
    let own_pages = some_pages(stated.pages);
    let own_rules = some_rules(stated.rules);
    let own_sets = some_sets(stated.auth_sets);
    let own_ssi = some_media(stated.ssi_types);
    let own_addition = some_media(stated.addition_types);
    let index = place(&mut shelf.indexes, own_index, block, outer.index)?;
    let pages = place(&mut shelf.pages, own_pages, block, outer.pages)?;
    let rules = place(&mut shelf.rules, own_rules, block, outer.rules)?;
    let auth_sets = place(&mut shelf.auth_sets, own_sets, block, outer.auth_sets)?;
    let ssi_types = place(&mut shelf.media, own_ssi, block, outer.ssi_types)?;
    let addition_types = place(&mut shelf.media, own_addition, block, outer.addition_types)?;
    Ok(Shared {
        index,
        pages,
        rules,
        auth_sets,
        ssi_types,
        addition_types,
    })
}
