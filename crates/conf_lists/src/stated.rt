// The lists of a level, directive by directive.
ghost use Rattle.std.specs.Prelude.{◌≡◌, ◌++◌, map, option_map, OnOk, IfOk};
ghost use Rattle.site_whole.specs.Whole.{page_seen, auth_set_seen};
ghost use Rattle.conf_block.specs.Forest.{forest_of, roots};
ghost use Rattle.conf_lists.specs.Words.{one, page_of, rule_of, set_of};
ghost use Rattle.conf_lists.specs.Lists.{no_lists, lists_seen, with_listing, with_set, with_role, stated_lists as lists_meant};

use crate::lists::LevelLists;
use crate::words::{no_media, page_of, push_index, push_types, rule_of, set_of};
use access_rules::Rule;
use byte_text::{ByteText, OutOfMemory};
use conf_block::{first_branch, role_of};
use conf_table::{Listing, Role};
use conf_text::Directive;
use site_model::{AuthSet, PageRule};
use std::alloc::Global;

fn no_lists(alloc: Global) -> LevelLists
    ensures { lists_seen result ≡ no_lists }
{
    LevelLists {
        index: Vec::new(alloc),
        pages: Vec::new(alloc),
        rules: Vec::new(alloc),
        auth_sets: Vec::new(alloc),
        ssi_types: no_media(alloc),
        addition_types: no_media(alloc),
    }
}

fn push_page(pages: &mut Vec<PageRule>, page: Option<PageRule>) -> Result<(), OutOfMemory>
    ensures { OnOk result (map page_seen pages.new.items ≡ map page_seen pages.old.items ++ one
        (option_map page_seen page)) }
{
    match page {
        None => Ok(()),
        Some(page) => {
            pages.push(page)?;
            Ok(())
        }
    }
}

fn push_rule(rules: &mut Vec<Rule>, rule: Option<Rule>) -> Result<(), OutOfMemory>
    ensures { OnOk result (rules.new.items ≡ rules.old.items ++ one rule) }
{
    match rule {
        None => Ok(()),
        Some(rule) => {
            rules.push(rule)?;
            Ok(())
        }
    }
}

fn push_set(sets: &mut Vec<AuthSet>, set: Option<AuthSet>) -> Result<(), OutOfMemory>
    ensures { OnOk result (map auth_set_seen sets.new.items ≡ map auth_set_seen sets.old.items
        ++ one (option_map auth_set_seen set)) }
{
    match set {
        None => Ok(()),
        Some(set) => {
            sets.push(set)?;
            Ok(())
        }
    }
}

/// Adds the words of a directive of a list.
fn add_listing(
    alloc: Global,
    lists: &mut LevelLists,
    listing: Listing,
    words: &[ByteText],
) -> Result<(), OutOfMemory>
    ensures { OnOk result (lists_seen lists.new ≡ with_listing listing words.now
        (lists_seen lists.old)) }
{
    match listing {
        Listing::Index => Ok(push_index(alloc, &mut lists.index, words)?),
        Listing::ErrorPage => Ok(push_page(&mut lists.pages, page_of(alloc, words)?)?),
        Listing::Allow => Ok(push_rule(&mut lists.rules, rule_of(true, words))?),
        Listing::Deny => Ok(push_rule(&mut lists.rules, rule_of(false, words))?),
        Listing::SsiTypes => Ok(push_types(alloc, &mut lists.ssi_types, words)?),
        Listing::AdditionTypes => Ok(push_types(alloc, &mut lists.addition_types, words)?),
        Listing::TryFiles | Listing::Rewrite | Listing::ServerName | Listing::SsiVisible => Ok(()),
    }
}

/// Adds an `auth_request_set`; `set` is no list.
fn add_set(alloc: Global, lists: &mut LevelLists, directive: &Directive) -> Result<(), OutOfMemory>
    ensures { OnOk result (lists_seen lists.new ≡ with_set directive.now (lists_seen lists.old)) }
{
    if directive.name.as_slice() == b"auth_request_set".as_slice() {
        let set = set_of(alloc, directive.args.as_slice())?;
        Ok(push_set(&mut lists.auth_sets, set)?)
    } else {
        Ok(())
    }
}

fn add_role(
    alloc: Global,
    lists: &mut LevelLists,
    role: Role,
    directive: &Directive,
) -> Result<(), OutOfMemory>
    ensures { OnOk result (lists_seen lists.new ≡ with_role role directive.now
        (lists_seen lists.old)) }
{
    match role {
        Role::Listing(listing) => {
            add_listing(alloc, lists, listing, directive.args.as_slice())?;
            Ok(())
        }
        Role::Set => {
            add_set(alloc, lists, directive)?;
            Ok(())
        }
        _ => Ok(()),
    }
}

/// The lists that the directives of a level state.
pub fn stated_lists(alloc: Global, level: &[Directive]) -> Result<LevelLists, OutOfMemory>
    ensures { IfOk result
        (λ lists. lists_seen lists ≡ lists_meant (roots (forest_of level.now))) }
{
    let mut lists = no_lists(alloc);
    let mut rest = level;
    while let Some(branch) = first_branch(rest) {
        let directive = branch.directive;
        let role = role_of(directive.name.as_slice());
        add_role(alloc, &mut lists, role, directive)?;
        rest = branch.beside;
    }
    Ok(lists)
}
