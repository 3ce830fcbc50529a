// Rewrite programs, and the search of a location
// (<https://nginx.org/en/docs/dev/development_guide.html#http_phases>).
ghost use Rattle.std.specs.Prelude.{◌≡◌, ℕ, ◌≤◌, nat_le, [], List, Option, None, Some, length, true, false, IfOk, OnOk, option_map, ◌&&◌, if◌then◌else◌};
ghost use Rattle.file_tree.specs.Tree.{Item, node_of, text_of};
ghost use Rattle.ngx_pattern.specs.Pattern.{Pattern as SetPattern};
ghost use Rattle.site_model.specs.Levels.{raw_level};
ghost use Rattle.site_model.specs.declared.site.Site.{Site as SiteRow};
ghost use Rattle.request_meaning.specs.site_views.Pattern.{groups_in};
ghost use Rattle.request_meaning.specs.site_views.Values.{Values};
ghost use Rattle.try_index.specs.site_whole.Whole.{values_seen, level_whole};
ghost use Rattle.request_meaning.specs.Serving.{Serving, World};
ghost use Rattle.request_meaning.specs.Rewriting.{Passed, program_run, with_groups};
ghost use Rattle.request_meaning.specs.Phases.{find_config as found_config, located as located_in};
ghost use Rattle.family_meaning.specs.Suspended.{follows};
ghost use Rattle.location_search.specs.pattern_search.Found.{patterns_seen};
ghost use Rattle.rewrite_code.specs.Places.{standing_seen, progress_seen, ran_of};
ghost use Rattle.rewrite_code.specs.Runs.{program_of, still};
ghost use Rattle.rewrite_code.specs.declared.place.Progress.{Progress as At};
ghost use Rattle.location_search.specs.Found.{AreSpans};
ghost use Rattle.request_phases.specs.Programs.{ended_as, moved_into, ran_in, run_in, refused_in, entered_at};
ghost use Rattle.request_phases.specs.Rounds.{IsGround, from_seen};
ghost use Rattle.request_meaning.specs.Serving.From.{Named};
ghost use Rattle.request_phases.specs.declared.state.Decision.TheVariants.{Text as CodeText, Error as CodeError, Page as CodePage};
ghost use Rattle.request_phases.specs.Turns.{Begins, Reaches};

use crate::access::access;
use crate::content::{content, index, on_node, try_names};
use crate::ground::Ground;
use crate::state::{Decision, From, Ran, Reached, Wait};
use byte_text::{ByteText, OutOfMemory};
use file_tree::Node;
use location_search::FoundLocation;
use location_search::pattern_search::groups_of;
use ngx_pattern::{PatternSet, Spans};
use ngx_variables::{Main, Role, VarTable};
use rewrite_code::{Ending, Progress, RunStep, Setting, run};
use site_model::{Level, Site};
use std::alloc::Global;

/// Takes a request into a level: its files are where the level says.
#[inline(always)]
fn enter(alloc: Global, site: &Site, number: u32, at: &mut Progress) -> Result<(), OutOfMemory>
    ensures { OnOk result (at.new ≡ moved_into site.now number at.old) }
{
    let place = site.level(number).place.copy(alloc)?;
    at.request.place = Some(place);
    at.level = number;
    Ok(())
}

/// What `return` comes to without a text: from 400 on an error, else nothing is sent with the code.
#[inline(always)]
fn bare(alloc: Global, code: u16) -> Decision
    ensures { result ≡ (if nat_le 400 code then CodeError code else CodeText code []) }
{
    if code >= 400 {
        return Decision::Error(code);
    }
    Decision::Text {
        code,
        text: ByteText::new(alloc),
    }
}

/// A text that is too long in the `set`s that begin the server's program is answered by the built-in page.
#[inline(always)]
fn failure(at_once: bool) -> Decision
    ensures { result ≡ (if at_once then CodePage 500 else CodeError 500) }
{
    if at_once {
        return Decision::Page(500);
    }
    Decision::Error(500)
}

/// What a program decides by its end, and nothing where it came to its end alone.
#[inline(always)]
fn decision_of(alloc: Global, ending: Ending, at_server: bool) -> Option<Decision>
    ensures { result ≡ ended_as at_server ending }
{
    match ending {
        Ending::End => None,
        Ending::Status { code, text } => match text {
            Some(text) => Some(Decision::Text { code, text }),
            None => Some(bare(alloc, code)),
        },
        Ending::Redirect { code, to } => Some(Decision::Redirect { code, to }),
        Ending::Close => Some(Decision::Close),
        Ending::Failed { leading } => Some(failure(at_server && leading)),
    }
}

/// What follows as far as a location's program came: a location is sought again where it changed the path, else the access
/// phase comes.
#[inline(always)]
pub(crate) fn after_location(
    alloc: Global,
    ground: &Ground<'_>,
    ran: Ran,
    main: &Main,
    at: &mut Progress,
    vars: &VarTable,
) -> Result<Reached, OutOfMemory>
    requires { IsGround ground.now }
    ensures { IfOk result (λ reached. (patterns : List SetPattern) (bytes : List ℕ)
        → Reaches patterns ground.now main.now
        (λ w a. ran_in w a patterns ground.now.site.now ran.level at.old ran.step false)
        vars.now bytes at.new reached vars.now) }
{
    let Ran { level, step } = ran;
    match step {
        RunStep::Test { path, at: place } => Ok(Reached::Waits {
            wait: Wait::Test {
                level,
                place,
                at_server: false,
            },
            path,
        }),
        RunStep::Ended(ending) => match decision_of(alloc, ending, false) {
            Some(decision) => Ok(Reached::Decides(decision)),
            None => {
                if at.seeks {
                    return Ok(Reached::Decides(Decision::Seek));
                }
                Ok(access(alloc, ground, main, at, vars)?)
            }
        },
    }
}

/// Runs the program of a location in whose level the request is.
#[inline(always)]
fn run_location(
    alloc: Global,
    ground: &Ground<'_>,
    level: u32,
    patterns: &mut PatternSet,
    main: &Main,
    at: &mut Progress,
    vars: &mut VarTable,
) -> Result<Reached, OutOfMemory>
    requires { IsGround ground.now }
    ensures does { IfOk result (λ reached. (bytes : List ℕ)
        → Reaches patterns.old ground.now main.now
        (λ w a. run_in w a patterns.old ground.now.site.now level at.old false)
        vars.old bytes at.new reached vars.new) }
    ensures kept { patterns.new ≡ patterns.old }
{
    let program = &ground.site.level(level).program;
    let setting = Setting {
        alloc,
        site: ground.site,
        main,
    };
    let step = run(&setting, program, patterns, at, vars)?;
    Ok(after_location(alloc, ground, Ran { level, step }, main, at, vars)?)
}

/// Why a level turns a request away: it is asked from inside alone (`internal`), or the request's body is longer than it
/// allows (`client_max_body_size`).
#[inline(always)]
fn refusal(level: &Level, length: u64, at: &Progress) -> Option<u16>
    ensures { (w : World) (values : Values) → w.length ≡ length
        → values.internal ≡ level.now.internal
        → values.body_most ≡ level.now.body_most
        → result ≡ refused_in w values at.now.request at.now.inside }
{
    if level.internal && !at.inside {
        return Some(404);
    }
    match at.request.role {
        Role::Main => {
            if level.body_most > 0 && level.body_most < length {
                return Some(413);
            }
            None
        }
        Role::Content => None,
        Role::Auth => None,
    }
}

/// The groups of the match by which a location was found.
#[inline(always)]
fn take_groups(
    alloc: Global,
    found: FoundLocation,
    spans: &Spans,
    at: &mut Progress,
) -> Result<(), OutOfMemory>
    requires { found.matched ≡ true → AreSpans at.old.request.path spans.now }
    ensures { OnOk result (at.new ≡ record at.old {
      request = with_groups
          (if found.matched then Some (groups_in at.old.request.path spans.now) else None)
          at.old.request;
    }) }
{
    if found.matched {
        let groups = groups_of(alloc, at.request.path.as_slice(), spans)?;
        at.request.groups = groups;
    }
    Ok(())
}

/// A request comes into the level of a location, or is turned away there.
#[inline(always)]
fn in_location(
    alloc: Global,
    ground: &Ground<'_>,
    number: u32,
    patterns: &mut PatternSet,
    main: &Main,
    at: &mut Progress,
    vars: &mut VarTable,
) -> Result<Reached, OutOfMemory>
    requires { IsGround ground.now }
    ensures does { IfOk result (λ reached. (bytes : List ℕ)
        → Reaches patterns.old ground.now main.now
        (λ w a. entered_at w a patterns.old ground.now.site.now number at.old)
        vars.old bytes at.new reached vars.new) }
    ensures kept { patterns.new ≡ patterns.old }
{
    enter(alloc, ground.site, number, at)?;
    if let Some(code) = refusal(ground.site.level(number), ground.length, at) {
        return Ok(Reached::Decides(Decision::Error(code)));
    }
    Ok(run_location(alloc, ground, number, patterns, main, at, vars)?)
}

/// A request comes into the server's own level, whose program isn't run again, or is turned away there.
#[inline(always)]
fn in_server(
    alloc: Global,
    ground: &Ground<'_>,
    main: &Main,
    at: &mut Progress,
    vars: &VarTable,
) -> Result<Reached, OutOfMemory>
    requires { IsGround ground.now }
    ensures { IfOk result (λ reached. (patterns : List SetPattern) (bytes : List ℕ)
        → Reaches patterns ground.now main.now
        (λ w a. located_in w a (standing_seen ground.now.site.now at.old) None)
        vars.now bytes at.new reached vars.now) }
{
    let number = ground.server.level;
    enter(alloc, ground.site, number, at)?;
    if let Some(code) = refusal(ground.site.level(number), ground.length, at) {
        return Ok(Reached::Decides(Decision::Error(code)));
    }
    Ok(access(alloc, ground, main, at, vars)?)
}

/// The location that holds for the request's path, and what follows there.
#[inline(always)]
pub(crate) fn find_config(
    alloc: Global,
    ground: &Ground<'_>,
    patterns: &mut PatternSet,
    main: &Main,
    at: &mut Progress,
    vars: &mut VarTable,
) -> Result<Reached, OutOfMemory>
    requires { IsGround ground.now }
    ensures does { IfOk result (λ reached. (bytes : List ℕ)
        → Reaches patterns.old ground.now main.now
        (λ w a. found_config w a (standing_seen ground.now.site.now at.old))
        vars.old bytes at.new reached vars.new) }
    ensures kept { patterns.new ≡ patterns.old }
{
    let mut spans = Spans::new();
    let path = at.request.path.as_slice();
    match ground.locations.find(path, patterns, &mut spans) {
        None => Ok(in_server(alloc, ground, main, at, vars)?),
        Some(found) => {
            take_groups(alloc, found, &spans, at)?;
            Ok(in_location(alloc, ground, found.level, patterns, main, at, vars)?)
        }
    }
}

/// What follows as far as the server's program came.
#[inline(always)]
pub(crate) fn after_server(
    alloc: Global,
    ground: &Ground<'_>,
    ran: Ran,
    patterns: &mut PatternSet,
    main: &Main,
    at: &mut Progress,
    vars: &mut VarTable,
) -> Result<Reached, OutOfMemory>
    requires { IsGround ground.now }
    ensures does { IfOk result (λ reached. (bytes : List ℕ)
        → Reaches patterns.old ground.now main.now
        (λ w a. ran_in w a patterns.old ground.now.site.now ran.level at.old ran.step true)
        vars.old bytes at.new reached vars.new) }
    ensures kept { patterns.new ≡ patterns.old }
{
    let Ran { level, step } = ran;
    match step {
        RunStep::Test { path, at: place } => Ok(Reached::Waits {
            wait: Wait::Test {
                level,
                place,
                at_server: true,
            },
            path,
        }),
        RunStep::Ended(ending) => match decision_of(alloc, ending, true) {
            Some(decision) => Ok(Reached::Decides(decision)),
            None => Ok(find_config(alloc, ground, patterns, main, at, vars)?),
        },
    }
}

/// Runs the server's program, in whose level the request is.
#[inline(always)]
fn run_server(
    alloc: Global,
    ground: &Ground<'_>,
    patterns: &mut PatternSet,
    main: &Main,
    at: &mut Progress,
    vars: &mut VarTable,
) -> Result<Reached, OutOfMemory>
    requires { IsGround ground.now }
    ensures does { IfOk result (λ reached. (bytes : List ℕ)
        → Reaches patterns.old ground.now main.now
        (λ w a. run_in w a patterns.old ground.now.site.now ground.now.server.now.level at.old true)
        vars.old bytes at.new reached vars.new) }
    ensures kept { patterns.new ≡ patterns.old }
{
    let level = ground.server.level;
    let program = &ground.site.level(level).program;
    let setting = Setting {
        alloc,
        site: ground.site,
        main,
    };
    let step = run(&setting, program, patterns, at, vars)?;
    Ok(after_server(alloc, ground, Ran { level, step }, patterns, main, at, vars)?)
}

/// A location `@name`; a name that no location has is an error of the level that it was asked from.
#[inline(never)]
fn in_named(
    alloc: Global,
    ground: &Ground<'_>,
    name: &[u8],
    patterns: &mut PatternSet,
    main: &Main,
    at: &mut Progress,
    vars: &mut VarTable,
) -> Result<Reached, OutOfMemory>
    requires { IsGround ground.now }
    ensures does { IfOk result (λ reached. (bytes : List ℕ)
        → Begins patterns.old ground.now main.now
        (Named (standing_seen ground.now.site.now at.old).values name.now)
        vars.old bytes at.old at.new reached vars.new) }
    ensures kept { patterns.new ≡ patterns.old }
{
    match ground.locations.named(name) {
        None => {
            enter(alloc, ground.site, at.level, at)?;
            Ok(Reached::Decides(Decision::Error(500)))
        }
        Some(level) => {
            enter(alloc, ground.site, level, at)?;
            Ok(run_location(alloc, ground, level, patterns, main, at, vars)?)
        }
    }
}

/// Whether a level has no rewrite program.
fn is_bare(level: &Level) -> bool
    ensures { result ≡ true → level.now.program ≡ [] }
{
    level.program.as_slice().is_empty()
}

/// A round of phases. Where the server has no program, its level isn't entered before the one that is found.
pub(crate) fn round(
    alloc: Global,
    ground: &Ground<'_>,
    from: From,
    patterns: &mut PatternSet,
    main: &Main,
    at: &mut Progress,
    vars: &mut VarTable,
) -> Result<Reached, OutOfMemory>
    requires { IsGround ground.now }
    ensures does { IfOk result (λ reached. (bytes : List ℕ)
        → Begins patterns.old ground.now main.now (from_seen ground.now.site.now at.old from)
        vars.old bytes at.old at.new reached vars.new) }
    ensures kept { patterns.new ≡ patterns.old }
{
    match from {
        From::Start => {
            if is_bare(ground.site.level(ground.server.level)) {
                return Ok(find_config(alloc, ground, patterns, main, at, vars)?);
            }
            enter(alloc, ground.site, ground.server.level, at)?;
            Ok(run_server(alloc, ground, patterns, main, at, vars)?)
        }
        From::Find => {
            enter(alloc, ground.site, ground.server.level, at)?;
            Ok(find_config(alloc, ground, patterns, main, at, vars)?)
        }
        From::Named(name) => Ok(in_named(
            alloc,
            ground,
            name.as_slice(),
            patterns,
            main,
            at,
            vars,
        )?),
    }
}
