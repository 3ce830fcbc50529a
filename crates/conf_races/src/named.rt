// The race check of a configuration.
ghost use Rattle.std.specs.Prelude.{◌≡◌, ◌+◌, ◌++◌, [], ℕ, List, map, codes, Contains, IfOk, OnOk};
ghost use Rattle.site_views.specs.Pattern.{Pattern};
ghost use Rattle.site_views.specs.Views.{ServerView};
ghost use Rattle.site_whole.specs.Whole.{server_whole, whole};
ghost use Rattle.conf_values.specs.TextSet.{holds};
ghost use Rattle.conf_block.specs.Forest.{forest_of};
ghost use Rattle.conf_block.specs.Blocks.{blocks_of};
ghost use Rattle.race_meaning.specs.Conflicts.{AreConflicts};
ghost use Rattle.race_meaning.specs.Named.{IsRaceless};
ghost use Rattle.race_check.specs.Told.{AreFirst};
ghost use Rattle.race_places.specs.Places.{server_sources, conflict_seen};
ghost use Rattle.race_places.specs.declared.told.Conflict.{Conflict as Told};
ghost use Rattle.conf_races.specs.Origins.{Outer, Means, nowhere, outer_over, server_origins};
ghost use Rattle.conf_races.specs.Races.{first_body, behind, AreRaces, RacesBy, RacesOf, conflicts_seen};

use crate::outer::{OuterLines, nowhere, outer_over};
use crate::runs::number_runs;
use crate::server::server_lines;
use byte_text::OutOfMemory;
use conf_block::{http_in, next_named};
use conf_inherit::conf_check::names_in;
use conf_text::Directive;
use conf_values::TextSet;
use race_check::{FirstLists, first_lists, named_in};
use race_places::{Conflict, LineList, placed};
use site_model::{Server, Site};
use std::alloc::Global;

/// The block of the first server of a level, and what is after it.
#[tactic(auto, unfolding(conf_block::specs::Forest::forest_of, conf_block::specs::Blocks::blocks_of))]
fn next_server(level: &[Directive]) -> (&[Directive], &[Directive])
    ensures first { first_body (blocks_of (codes "server") (forest_of level.now))
        ≡ forest_of result.0.now }
    ensures behind { behind (blocks_of (codes "server") (forest_of level.now))
        ≡ blocks_of (codes "server") (forest_of result.1.now) }
{
    match next_named(level, b"server") {
        None => (&[], &[]),
        Some(branch) => (branch.block, branch.beside),
    }
}

/// Where the values are stated that hold around servers, and the lists that the numbers in it mean.
#[derive(Drop)]
struct Around {
    lists: Vec<LineList>,
    lines: OuterLines,
}

/// Where the values are stated that hold in `http`.
fn around_servers(alloc: Global, http: &[Directive]) -> Result<Around, OutOfMemory>
    ensures { IfOk result (λ around.
        Means around.lists.items around.lines (outer_over (forest_of http.now) nowhere)) }
{
    let mut lists = Vec::new(alloc);
    let lines = outer_over(&mut lists, alloc, http, nowhere())?;
    Ok(Around { lists, lines })
}

/// A server of a site, its number among the site's servers, from 1 on, and the block that describes it.
#[derive(Clone, Copy)]
struct Described<'a> {
    server: &'a Server,
    number: usize,
    block: &'a [Directive],
}

/// The variables that are named in a server.
fn races_in(
    alloc: Global,
    known: &TextSet,
    around: &Around,
    site: &Site,
    first: &FirstLists,
    described: Described<'_>,
) -> Result<Vec<Conflict>, OutOfMemory>
    requires { AreFirst site.now first.now }
    ensures { IfOk result (λ conflicts. (outer : Outer)
        → Means around.now.lists.items around.now.lines outer
        → (files : ℕ → List ℕ) (patterns : List Pattern)
        → let server = described.entry.server.now in
        AreConflicts described.entry.number (server_whole patterns site.now server)
        (server_sources files (server_whole patterns site.now server)
        (server_origins (holds known.now.keys) outer (forest_of described.entry.block.now)))
        (map (conflict_seen files) conflicts.items)) }
{
    let Described {
        server,
        number,
        block,
    } = described;
    let named = named_in(alloc, site, first, server, number)?;
    if named.is_empty() {
        return Ok(Vec::new(alloc));
    }
    let lines = server_lines(alloc, known, around.lists.as_slice(), around.lines, block)?;
    let conflicts = placed(alloc, site, server, number, &lines, named.as_slice())?;
    Ok(conflicts)
}

/// The variables that are named in the servers of a site, which are those in `http`, where the values of these lines hold.
fn races_of(
    alloc: Global,
    known: &TextSet,
    around: &Around,
    site: &Site,
    http: &[Directive],
) -> Result<Vec<Conflict>, OutOfMemory>
    ensures { IfOk result (λ conflicts. (outer : Outer)
        → Means around.now.lists.items around.now.lines outer
        → (files : ℕ → List ℕ) (patterns : List Pattern)
        → AreRaces files (holds known.now.keys) outer 1
        (map (server_whole patterns site.now) site.now.servers.items)
        (blocks_of (codes "server") (forest_of http.now))
        (map (conflict_seen files) conflicts.items)) }
{
    let first = first_lists(alloc, site)?;
    let mut conflicts = Vec::new(alloc);
    let mut number = 0;
    let mut rest = http;
    for server in &site.servers {
        number += 1;
        let (block, beside) = next_server(rest);
        let described = Described {
            server,
            number,
            block,
        };
        let mut here = races_in(alloc, known, around, site, &first, described)?;
        conflicts.append(&mut here)?;
        rest = beside;
    }
    Ok(conflicts)
}

/// The variables that can show in which order subrequests run, and the files of the runs of directives in which they are set
/// and read.
#[derive(Drop)]
pub struct FoundRaces {
    /// The `file` of each line is the number of a run of directives of one file, so that lines are in the order of the text.
    pub conflicts: Vec<Conflict>,
    /// The number of each run's file.
    pub files: Vec<u32>,
}

/// The same for directives whose files are in the order of the text.
fn races_by(
    alloc: Global,
    site: &Site,
    directives: &[Directive],
) -> Result<Vec<Conflict>, OutOfMemory>
    ensures told { IfOk result (λ conflicts. (files : ℕ → List ℕ) (patterns : List Pattern)
        → RacesBy files directives.now (whole patterns site.now).servers
        (map (conflict_seen files) conflicts.items)) }
    ensures none { IfOk result (λ conflicts. conflicts.items ≡ []
        → (patterns : List Pattern) (server : ServerView)
        → Contains (whole patterns site.now).servers server → IsRaceless server) }
{
    let known = names_in(alloc, directives)?;
    let http = http_in(directives);
    let around = around_servers(alloc, http)?;
    let conflicts = races_of(alloc, &known, &around, site, http)?;
    Ok(conflicts)
}

/// The variables that can show in which order the subrequests of a page ran, of the site that these directives describe:
/// server by server, and in a server each once, in the order of their bytes. A variable is one where a level of the server
/// has server side includes or additions, a `set` sets it, it hasn't one text of literals and variables of the main request
/// which a `set` at the beginning of the server's program gives it, and documents may read it, or a directive reads it that
/// isn't in a program after an unconditional `set` of it with no test of a file between. Where there is none, nobody can tell
/// the order. Each is told with the lines where the server's directives set it and read it, those around the server too that
/// hold in it.
pub fn races(
    alloc: Global,
    site: &Site,
    directives: Vec<Directive>,
) -> Result<FoundRaces, OutOfMemory>
    ensures told { IfOk result (λ races. (paths : ℕ → List ℕ) (patterns : List Pattern)
        → RacesOf paths directives.items (whole patterns site.now).servers
        (conflicts_seen paths races)) }
    ensures none { IfOk result (λ races. races.conflicts.items ≡ []
        → (patterns : List Pattern) (server : ServerView)
        → Contains (whole patterns site.now).servers server → IsRaceless server) }
{
    let mut directives = directives;
    let files = number_runs(alloc, &mut directives)?;
    let conflicts = races_by(alloc, site, directives.as_slice())?;
    Ok(FoundRaces { conflicts, files })
}
