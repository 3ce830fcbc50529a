// The names of a server, with their patterns.
ghost use Rattle.std.specs.Prelude.{◌≡◌, [], List, map, codes, slice_get, Some, IfOk};
ghost use Rattle.ngx_pattern.specs.Pattern.{Pattern as SetPattern, as_pattern};
ghost use Rattle.pattern_search.specs.Found.{patterns_seen};
ghost use Rattle.site_views.specs.Pattern.{Pattern};
ghost use Rattle.site_whole.specs.Whole.{name_seen};
ghost use Rattle.conf_block.specs.Forest.{forest_of};
ghost use Rattle.conf_block.specs.Blocks.{blocks_of};
ghost use Rattle.conf_lists.specs.Hosts.{name_of, names_in, or_empty};
ghost use Rattle.conf_inherit.specs.Pools.{Keeps, AreNamed};

use crate::shared::next_number;
use byte_text::{ByteText, OutOfMemory};
use conf_block::next_named;
use conf_check::name_pattern;
use conf_lists::plain_name;
use conf_text::Directive;
use ngx_pattern::{PatternMaker, PatternSet};
use site_model::ServerName;
use std::alloc::Global;

/// Adds a pattern to the set, and gives its number.
pub fn keep_pattern<M: PatternMaker>(
    maker: &mut M,
    patterns: &mut PatternSet,
    text: &[u8],
    nocase: bool,
) -> Result<u32, OutOfMemory>
    ensures there { IfOk result (λ number.
        slice_get patterns.new number ≡ Some (as_pattern text.now nocase)) }
    ensures kept { IfOk result (λ number. Keeps patterns.old patterns.new) }
{
    let number = next_number(patterns.len())?;
    match patterns.add(maker, text, nocase) {
        Ok(_id) => Ok(number),
        Err(_fault) => Err(OutOfMemory),
    }
}

/// A word of `server_name`.
#[tactic(auto, unfolding(conf_lists::specs::Hosts::name_of))]
fn name_of<M: PatternMaker>(
    alloc: Global,
    maker: &mut M,
    patterns: &mut PatternSet,
    word: &[u8],
) -> Result<ServerName, OutOfMemory>
    ensures seen { IfOk result (λ name. (all : List SetPattern) → Keeps patterns.new all
        → name_seen (patterns_seen all) name ≡ name_of word.now) }
    ensures kept { IfOk result (λ name. Keeps patterns.old patterns.new) }
{
    match name_pattern(word) {
        Some(text) => {
            let number = keep_pattern(maker, patterns, text, true)?;
            Ok(ServerName::Like(number))
        }
        None => {
            let name = plain_name(alloc, word)?;
            Ok(name)
        }
    }
}

/// Adds the names of a directive.
fn push_names<M: PatternMaker>(
    alloc: Global,
    maker: &mut M,
    patterns: &mut PatternSet,
    names: &mut Vec<ServerName>,
    words: &[ByteText],
) -> Result<(), OutOfMemory>
    ensures { IfOk result (λ u. AreNamed
        patterns.old patterns.new names.old.items names.new.items (map name_of words.now)) }
{
    for word in words {
        names.push(name_of(alloc, maker, patterns, word.as_slice())?)?;
    }
    Ok(())
}

/// The names that the `server_name` directives of a server state.
fn stated_names<M: PatternMaker>(
    alloc: Global,
    maker: &mut M,
    patterns: &mut PatternSet,
    server: &[Directive],
) -> Result<Vec<ServerName>, OutOfMemory>
    ensures { IfOk result (λ names. AreNamed patterns.old patterns.new [] names.items
        (names_in (blocks_of (codes "server_name") (forest_of server.now)))) }
{
    let mut names = Vec::new(alloc);
    let mut rest = server;
    while let Some(branch) = next_named(rest, b"server_name") {
        let words = branch.directive.args.as_slice();
        push_names(alloc, maker, patterns, &mut names, words)?;
        rest = branch.beside;
    }
    Ok(names)
}

/// The empty name, where there is none.
fn or_empty(alloc: Global, names: Vec<ServerName>) -> Result<Vec<ServerName>, OutOfMemory>
    ensures { IfOk result (λ named. (patterns : List Pattern)
        → map (name_seen patterns) named.items ≡ or_empty (map (name_seen patterns) names.items)) }
{
    if !names.is_empty() {
        return Ok(names);
    }
    let mut named = Vec::new(alloc);
    named.push(ServerName::Whole(ByteText::new(alloc)))?;
    Ok(named)
}

/// The names of a server: the empty one where it states none (<https://nginx.org/en/docs/http/server_names.html>).
pub fn names_of<M: PatternMaker>(
    alloc: Global,
    maker: &mut M,
    patterns: &mut PatternSet,
    server: &[Directive],
) -> Result<Vec<ServerName>, OutOfMemory>
    ensures { IfOk result (λ names. AreNamed patterns.old patterns.new [] names.items
        (or_empty (names_in (blocks_of (codes "server_name") (forest_of server.now))))) }
{
    let names = stated_names(alloc, maker, patterns, server)?;
    let named = or_empty(alloc, names)?;
    Ok(named)
}
