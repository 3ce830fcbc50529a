// The site that directives describe.
ghost use Rattle.std.specs.Prelude.{◌≡◌, ◌≤◌, ◌+◌, ◌++◌, ◌∷◌, [], ℕ, Bool, List, map, flat_map, length, option_map, codes, if◌then◌else◌, IfOk, OnOk};
ghost use Rattle.conf_inherit.specs.declared.site.Built.{Built as Whole};
ghost use Rattle.ngx_pattern.specs.Makers.{Rose};
ghost use Rattle.ngx_pattern.specs.Pattern.{Pattern as SetPattern};
ghost use Rattle.pattern_search.specs.Found.{patterns_seen};
ghost use Rattle.site_views.specs.Views.Locations.{NoMore};
ghost use Rattle.site_whole.specs.Whole.{matching_by};
ghost use Rattle.conf_values.specs.TextSet.{holds};
ghost use Rattle.conf_block.specs.Forest.{forest_of};
ghost use Rattle.conf_block.specs.Blocks.{blocks_of};
ghost use Rattle.conf_block.specs.Locations.{text_in};
ghost use Rattle.rewrite_compile.specs.Readings.{reading_by};
ghost use Rattle.rewrite_compile.specs.Programs.{parts_of, patterns_at, steps_from};
ghost use Rattle.conf_check.specs.Gives.{Reads};
ghost use Rattle.conf_lists.specs.Words.{variables_in as variables_meant};
ghost use Rattle.conf_inherit.specs.Programs.{leads, blocks_in};
ghost use Rattle.conf_inherit.specs.Values.{server_level, level_of as level_meant};
ghost use Rattle.conf_inherit.specs.Pools.{Keeps, KeepsAll, Holds, Fits, Added, BlocksAdded, list_seen, values_by, level_built, location_built, named_built, server_built, site_built};
ghost use Rattle.conf_inherit.specs.Built.{plain_kind, matching_of, inner_values, location_with, locations_in as locations_meant, named_with, named_in as named_meant, server_with, server_in, site_of, built};

use crate::entries::types_of;
use crate::level::{Inherited, defaults, level_of, word_in};
use crate::names::{keep_pattern, names_of};
use crate::pool::Pool;
use crate::shared::next_number;
use crate::shelf::Shelf;
use byte_text::{ByteText, ByteTexts, OutOfMemory};
use conf_block::{
    Branch, alias_prefix, first_branch, http_in, listens_of, next_location, next_named, text_in,
};
use conf_check::{ReadError, check, names_in, regex_case};
use conf_lists::{defaults_of, first_shown, variables_in};
use conf_text::Directive;
use conf_values::TextSet;
use ngx_pattern::{PatternMaker, PatternSet};
use rewrite_compile::{Compiled, RawStep, Reading, compile, reading_by};
use site_model::{Location, LocationKind, NamedLocation, Program, Server, Site};
use std::alloc::Global;

/// A site, and the set of the patterns that it names by number.
#[derive(Drop)]
pub struct Built {
    pub site: Site,
    pub patterns: PatternSet,
}

/// Whether the block of what this says has a part in a rewrite program.
fn has_block(reading: &Option<Reading>) -> bool
    ensures { result ≡ leads reading.now }
{
    match reading {
        Some(Reading::Step(RawStep::If(_))) => true,
        Some(_) => false,
        None => false,
    }
}

/// Whether a directive is an `if`, whose block has a part in a rewrite program.
fn is_block(alloc: Global, known: &TextSet, directive: &Directive) -> Result<bool, OutOfMemory>
    ensures { IfOk result (λ so. so ≡ leads
        (reading_by (holds known.now.keys) directive.now.name directive.now.args)) }
{
    let name = directive.name.as_slice();
    let reading = reading_by(alloc, known, name, directive.args.as_slice())?;
    Ok(has_block(&reading))
}

/// The block of an `if`, and nothing of another directive.
#[tactic(auto, unfolding(crate::specs::Programs::blocks_in, conf_block::specs::Forest::forest_of))]
fn block_if(is_if: bool, block: &[Directive]) -> &[Directive]
    ensures blocks { (known : List ℕ → Bool) → blocks_in known (forest_of result.now)
        ≡ (if is_if then blocks_in known (forest_of block.now) else []) }
    ensures len { length result.now ≤ length block.now }
{
    if is_if { block } else { &[] }
}

/// Keeps the level of the block of an `if` in a location in which these values hold.
fn add_block<'a>(
    alloc: Global,
    pool: &mut Pool,
    values: Inherited<'a>,
    is_if: bool,
    block: &'a [Directive],
) -> Result<(), OutOfMemory>
    requires { Fits pool.old.shelf values }
    ensures { IfOk result (λ u. BlocksAdded
        (values_by values.entry) pool.old.levels.items pool.new.levels.items pool.old.shelf
        pool.new.shelf (if is_if then forest_of block.now ∷ [] else [])) }
{
    if !is_if {
        return Ok(());
    }
    let inner = pool.inner(alloc, Some(b""), block, values)?;
    let made = level_of(alloc, inner, block, Program::new(alloc))?;
    let _number = pool.add_level(made)?;
    Ok(())
}

/// Keeps the levels of the blocks of `if`s in a location in which these values hold, each under the next number.
fn add_blocks<'a>(
    alloc: Global,
    known: &TextSet,
    pool: &mut Pool,
    values: Inherited<'a>,
    level: &'a [Directive],
) -> Result<(), OutOfMemory>
    requires { Fits pool.old.shelf values }
    ensures { IfOk result (λ u. BlocksAdded
        (values_by values.entry) pool.old.levels.items pool.new.levels.items pool.old.shelf
        pool.new.shelf (blocks_in (holds known.now.keys) (forest_of level.now))) }
{
    let mut rest = level;
    while let Some(branch) = first_branch(rest) {
        let is_if = is_block(alloc, known, branch.directive)?;
        add_block(alloc, pool, values, is_if, branch.block)?;
        add_blocks(alloc, known, pool, values, block_if(is_if, branch.block))?;
        rest = branch.beside;
    }
    Ok(())
}

/// The rewrite program of a level, where the blocks of its `if`s are levels of their own from this number on.
fn program_of<M: PatternMaker>(
    alloc: Global,
    maker: &mut M,
    known: &TextSet,
    patterns: &mut PatternSet,
    level: &[Directive],
    first_block: Option<u32>,
) -> Result<Program, OutOfMemory>
    ensures program { let parts = parts_of (holds known.now.keys) (forest_of level.now) in
        IfOk result (λ program. program ≡ steps_from (length patterns.old) first_block parts) }
    ensures patterns { let parts = parts_of (holds known.now.keys) (forest_of level.now) in
        OnOk result (patterns.new ≡ patterns.old ++ flat_map patterns_at parts) }
{
    match compile(alloc, known, maker, patterns, level, first_block) {
        Ok(Compiled { program, .. }) => Ok(program),
        Err(_error) => Err(OutOfMemory),
    }
}

/// Keeps the level of a server in which these values hold, and gives its number.
fn add_own<M: PatternMaker>(
    alloc: Global,
    maker: &mut M,
    known: &TextSet,
    pool: &mut Pool,
    values: Inherited<'_>,
    block: &[Directive],
) -> Result<u32, OutOfMemory>
    requires { Fits pool.old.shelf values }
    ensures seen { IfOk result (λ n. (b : Whole)
        → Holds pool.new.levels.items pool.new.shelf b
        → level_built b n ≡ server_level
        (holds known.now.keys) (values_by values.entry) (forest_of block.now)) }
    ensures levels { IfOk result (λ n. Keeps pool.old.levels.items pool.new.levels.items) }
    ensures shelf { IfOk result (λ n. KeepsAll pool.old.shelf pool.new.shelf) }
{
    let program = program_of(alloc, maker, known, &mut pool.shelf.patterns, block, None)?;
    let number = pool.add_level(level_of(alloc, values, block, program)?)?;
    Ok(number)
}

/// Keeps the level of a location in which these values hold, with those of the blocks in its program, and gives its number.
fn add_level<'a, M: PatternMaker>(
    alloc: Global,
    maker: &mut M,
    known: &TextSet,
    pool: &mut Pool,
    values: Inherited<'a>,
    block: &'a [Directive],
) -> Result<u32, OutOfMemory>
    requires { Fits pool.old.shelf values }
    ensures seen { IfOk result (λ n. (b : Whole)
        → Holds pool.new.levels.items pool.new.shelf b
        → level_built b n ≡ level_meant
        (holds known.now.keys) (values_by values.entry) (forest_of block.now)) }
    ensures levels { IfOk result (λ n. Keeps pool.old.levels.items pool.new.levels.items) }
    ensures shelf { IfOk result (λ n. KeepsAll pool.old.shelf pool.new.shelf) }
{
    let first = next_number(pool.levels.len() + 1)?;
    let patterns = &mut pool.shelf.patterns;
    let program = program_of(alloc, maker, known, patterns, block, Some(first))?;
    let number = pool.add_level(level_of(alloc, values, block, program)?)?;
    add_blocks(alloc, known, pool, values, block)?;
    Ok(number)
}

/// How a location of these words is matched, where it is not by a pattern.
#[tactic(auto, unfolding(crate::specs::Built::plain_kind))]
fn plain_kind(words: &[ByteText]) -> LocationKind
    ensures { result ≡ plain_kind words.now }
{
    match words {
        [] => LocationKind::Prefix,
        [_] => LocationKind::Prefix,
        [modifier, ..] => {
            let modifier = modifier.as_slice();
            if modifier == b"=".as_slice() {
                LocationKind::Exactly
            } else if modifier == b"^~".as_slice() {
                LocationKind::FirmPrefix
            } else {
                LocationKind::Prefix
            }
        }
    }
}

/// How a location of these words is matched; a pattern is added to the set.
fn kind_of<M: PatternMaker>(
    maker: &mut M,
    patterns: &mut PatternSet,
    words: &[ByteText],
) -> Result<LocationKind, OutOfMemory>
    ensures seen { IfOk result (λ kind. (all : List SetPattern) → Keeps patterns.new all
        → matching_by (patterns_seen all) (text_in words.now) kind ≡ matching_of words.now) }
    ensures kept { IfOk result (λ kind. Keeps patterns.old patterns.new) }
{
    match regex_case(words) {
        Some(nocase) => {
            let number = keep_pattern(maker, patterns, text_in(words), nocase)?;
            Ok(LocationKind::Regex(number))
        }
        None => Ok(plain_kind(words)),
    }
}

/// A location at this depth, in which these values hold.
fn location_of<'a, M: PatternMaker>(
    alloc: Global,
    maker: &mut M,
    known: &TextSet,
    pool: &mut Pool,
    values: Inherited<'a>,
    depth: u32,
    branch: Branch<'a>,
) -> Result<Location, OutOfMemory>
    requires { Fits pool.old.shelf values }
    ensures seen { IfOk result (λ l. (b : Whole)
        → Holds pool.new.levels.items pool.new.shelf b
        → location_built b l ≡ location_with
        (holds known.now.keys) (values_by values.entry) branch.entry.directive.now
        (forest_of branch.entry.block.now)) }
    ensures depth { IfOk result (λ l. l.depth ≡ depth) }
    ensures there { IfOk result (λ l. Fits pool.new.shelf values.entry) }
    ensures levels { IfOk result (λ l. Keeps pool.old.levels.items pool.new.levels.items) }
    ensures shelf { IfOk result (λ l. KeepsAll pool.old.shelf pool.new.shelf) }
{
    let words = branch.directive.args.as_slice();
    let kind = kind_of(maker, &mut pool.shelf.patterns, words)?;
    let level = add_level(alloc, maker, known, pool, values, branch.block)?;
    let text = ByteText::from_slice(alloc, text_in(words))?;
    Ok(Location {
        text,
        level,
        kind,
        depth,
    })
}

/// The depth of what is in a location of this depth.
fn depth_inside(depth: u32) -> Result<u32, OutOfMemory>
    ensures { IfOk result (λ inside. inside ≡ depth + 1) }
{
    match depth.checked_add(1) {
        None => Err(OutOfMemory),
        Some(inside) => Ok(inside),
    }
}

/// What holds around locations: the values there, and the depth of the locations.
#[derive(Clone, Copy)]
struct Around<'a> {
    values: Inherited<'a>,
    depth: u32,
}

/// Adds the locations of a level that paths find, each with those in it after it.
fn add_locations<'a, M: PatternMaker>(
    alloc: Global,
    maker: &mut M,
    known: &TextSet,
    pool: &mut Pool,
    around: Around<'a>,
    level: &'a [Directive],
    locations: &mut Vec<Location>,
) -> Result<(), OutOfMemory>
    requires { Fits pool.old.shelf around.values }
    ensures { IfOk result (λ u. let outer = values_by around.entry.values in Added
        outer around.entry.depth pool.old.levels.items pool.new.levels.items pool.old.shelf
        pool.new.shelf
        locations.old.items locations.new.items NoMore
        (locations_meant (holds known.now.keys) outer (forest_of level.now))) }
{
    let Around {
        values: outer,
        depth,
    } = around;
    let mut rest = level;
    while let Some(branch) = next_location(rest, false) {
        let prefix = alias_prefix(branch.directive.args.as_slice());
        let values = pool.inner(alloc, prefix, branch.block, outer)?;
        let location = location_of(alloc, maker, known, pool, values, depth, branch)?;
        locations.push(location)?;
        let deeper = depth_inside(depth)?;
        let inside = Around {
            values,
            depth: deeper,
        };
        add_locations(alloc, maker, known, pool, inside, branch.block, locations)?;
        rest = branch.beside;
    }
    Ok(())
}

/// A location `@name`, within these values.
fn named_of<'a, M: PatternMaker>(
    alloc: Global,
    maker: &mut M,
    known: &TextSet,
    pool: &mut Pool,
    outer: Inherited<'a>,
    branch: Branch<'a>,
) -> Result<NamedLocation, OutOfMemory>
    requires { Fits pool.old.shelf outer }
    ensures seen { IfOk result (λ n. (b : Whole)
        → Holds pool.new.levels.items pool.new.shelf b
        → named_built b n ≡ named_with (holds known.now.keys)
        (inner_values (values_by outer.entry) branch.entry.directive.now
        (forest_of branch.entry.block.now)) branch.entry.directive.now
        (forest_of branch.entry.block.now)) }
    ensures levels { IfOk result (λ n. Keeps pool.old.levels.items pool.new.levels.items) }
    ensures shelf { IfOk result (λ n. KeepsAll pool.old.shelf pool.new.shelf) }
{
    let words = branch.directive.args.as_slice();
    let values = pool.inner(alloc, alias_prefix(words), branch.block, outer)?;
    let level = add_level(alloc, maker, known, pool, values, branch.block)?;
    let name = ByteText::from_slice(alloc, text_in(words))?;
    Ok(NamedLocation { name, level })
}

/// The locations `@name` of a server, with its values.
fn named_in<'a, M: PatternMaker>(
    alloc: Global,
    maker: &mut M,
    known: &TextSet,
    pool: &mut Pool,
    outer: Inherited<'a>,
    server: &'a [Directive],
) -> Result<Vec<NamedLocation>, OutOfMemory>
    requires { Fits pool.old.shelf outer }
    ensures seen { IfOk result (λ ns. (b : Whole)
        → Holds pool.new.levels.items pool.new.shelf b
        → map (named_built b) ns.items ≡ named_meant (holds known.now.keys) (values_by outer.entry)
        (forest_of server.now)) }
    ensures levels { IfOk result (λ ns. Keeps pool.old.levels.items pool.new.levels.items) }
    ensures shelf { IfOk result (λ ns. KeepsAll pool.old.shelf pool.new.shelf) }
{
    let mut named = Vec::new(alloc);
    let mut rest = server;
    while let Some(branch) = next_location(rest, true) {
        named.push(named_of(alloc, maker, known, pool, outer, branch)?)?;
        rest = branch.beside;
    }
    Ok(named)
}

/// The locations of a server that paths find, with its values.
fn locations_in<'a, M: PatternMaker>(
    alloc: Global,
    maker: &mut M,
    known: &TextSet,
    pool: &mut Pool,
    outer: Inherited<'a>,
    server: &'a [Directive],
) -> Result<Vec<Location>, OutOfMemory>
    requires { Fits pool.old.shelf outer }
    ensures seen { IfOk result (λ ls. (b : Whole)
        → Holds pool.new.levels.items pool.new.shelf b
        → list_seen b ls.items ≡ locations_meant (holds known.now.keys) (values_by outer.entry)
        (forest_of server.now)) }
    ensures levels { IfOk result (λ ls. Keeps pool.old.levels.items pool.new.levels.items) }
    ensures shelf { IfOk result (λ ls. KeepsAll pool.old.shelf pool.new.shelf) }
{
    let mut locations = Vec::new(alloc);
    let around = Around {
        values: outer,
        depth: 0,
    };
    add_locations(alloc, maker, known, pool, around, server, &mut locations)?;
    Ok(locations)
}

/// The variables that documents see, where some are stated.
fn visible_of(alloc: Global, words: Option<&[ByteText]>) -> Result<Option<ByteTexts>, OutOfMemory>
    ensures { IfOk result
        (λ names. names ≡ option_map (λ ws. variables_meant ws.now) words.entry) }
{
    match words {
        None => Ok(None),
        Some(words) => Ok(Some(variables_in(alloc, words)?)),
    }
}

/// A server in which these values hold.
fn server_of<'a, M: PatternMaker>(
    alloc: Global,
    maker: &mut M,
    known: &TextSet,
    pool: &mut Pool,
    values: Inherited<'a>,
    block: &'a [Directive],
) -> Result<Server, OutOfMemory>
    requires { Fits pool.old.shelf values }
    ensures seen { IfOk result (λ s. (b : Whole)
        → Holds pool.new.levels.items pool.new.shelf b
        → server_built b s ≡ server_with
        (holds known.now.keys) (values_by values.entry) (forest_of block.now)) }
    ensures levels { IfOk result (λ s. Keeps pool.old.levels.items pool.new.levels.items) }
    ensures shelf { IfOk result (λ s. KeepsAll pool.old.shelf pool.new.shelf) }
{
    let listens = listens_of(alloc, block)?;
    let level = add_own(alloc, maker, known, pool, values, block)?;
    let locations = locations_in(alloc, maker, known, pool, values, block)?;
    let named = named_in(alloc, maker, known, pool, values, block)?;
    let defaults = defaults_of(alloc, block)?;
    let names = names_of(alloc, maker, &mut pool.shelf.patterns, block)?;
    let first_name = ByteText::from_slice(alloc, first_shown(word_in(block, b"server_name")))?;
    let visible = visible_of(alloc, values.visible)?;
    Ok(Server {
        listens,
        level,
        locations,
        defaults,
        names,
        first_name,
        named,
        merge: values.settings.merge,
        visible,
    })
}

/// The servers in `http`, with its values.
fn servers_of<'a, M: PatternMaker>(
    alloc: Global,
    maker: &mut M,
    known: &TextSet,
    pool: &mut Pool,
    outer: Inherited<'a>,
    http: &'a [Directive],
) -> Result<Vec<Server>, OutOfMemory>
    requires { Fits pool.old.shelf outer }
    ensures { IfOk result (λ ss. (b : Whole) → Holds pool.new.levels.items pool.new.shelf b
        → map (server_built b) ss.items
        ≡ map (server_in (holds known.now.keys) (values_by outer.entry))
        (blocks_of (codes "server") (forest_of http.now))) }
{
    let mut servers = Vec::new(alloc);
    let mut rest = http;
    while let Some(branch) = next_named(rest, b"server") {
        let values = pool.inner(alloc, Some(b""), branch.block, outer)?;
        servers.push(server_of(alloc, maker, known, pool, values, branch.block)?)?;
        rest = branch.beside;
    }
    Ok(servers)
}

/// The site of these directives, which are those in `http`.
#[tactic(auto, unfolding(crate::specs::Built::site_of))]
fn site_of<M: PatternMaker>(
    alloc: Global,
    maker: &mut M,
    known: &TextSet,
    folder: &[u8],
    http: &[Directive],
) -> Result<Built, OutOfMemory>
    ensures { IfOk result
        (λ b. site_built b ≡ site_of (holds known.now.keys) folder.now (forest_of http.now)) }
{
    let mut pool = Pool::new(alloc)?;
    let values = pool.inner(alloc, Some(b""), http, defaults())?;
    let servers = servers_of(alloc, maker, known, &mut pool, values, http)?;
    let Pool { levels, shelf } = pool;
    let Shelf {
        types,
        indexes,
        pages,
        rules,
        auth_sets,
        media,
        patterns,
    } = shelf;
    let site = Site {
        folder: ByteText::from_slice(alloc, folder)?,
        servers,
        levels,
        types,
        outside: level_of(alloc, defaults(), &[], Program::new(alloc))?,
        plain: types_of(alloc, defaults())?,
        indexes,
        pages,
        rules,
        auth_sets,
        media,
    };
    Ok(Built { site, patterns })
}

/// The site that the directives of a configuration describe, whose files are put in their places (nginx's
/// documentation, "Core functionality" and "Module ngx_http_core_module"). The main file's number is 0, and its folder is
/// that at which relative paths start.
///
/// The values of a level are those that its block states, over those of the blocks around it, over the defaults. Locations
/// have their kinds and those in them, servers their names. A level has its own rewrite program; in a location the block of an `if`
/// is a level of its own. Patterns are in the set that is built, made by this maker.
///
/// # Errors
///
/// `Fault` for the first fault, as `conf_check::check` finds it. `TooBig` for a pattern that the maker refused. And
/// `OutOfMemory`, also where the maker refuses a pattern that it made before.
pub fn build<M: PatternMaker>(
    alloc: Global,
    maker: &mut M,
    folder: &[u8],
    directives: &[Directive],
) -> Result<Built, ReadError>
    ensures { Reads (Rose (M.refusals maker.old) (M.refusals maker.new)) site_built result
        (built folder.now directives.now) }
{
    check(alloc, maker, directives)?;
    let known = names_in(alloc, directives)?;
    let built = site_of(alloc, maker, &known, folder, http_in(directives))?;
    Ok(built)
}
