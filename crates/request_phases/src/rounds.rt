// Rounds of phases, up to a question or an answer.
ghost use Rattle.std.specs.Prelude.{◌≡◌, ℕ, List, None, Some, IfOk, true, false, if◌then◌else◌};
ghost use Rattle.file_tree.specs.Tree.{Item, node_of, text_of};
ghost use Rattle.ngx_pattern.specs.Pattern.{Pattern as SetPattern};
ghost use Rattle.request_meaning.specs.site_views.Rewrites.FileTest.{IsFolder};
ghost use Rattle.rewrite_code.specs.Places.{standing_seen};
ghost use Rattle.request_meaning.specs.Serving.From.{Start};
ghost use Rattle.request_meaning.specs.Rewriting.{passes};
ghost use Rattle.request_meaning.specs.Errors.Outcome.{Fails};
ghost use Rattle.request_meaning.specs.Phases.{rounds};
ghost use Rattle.family_meaning.specs.Suspended.{rounds_rest};
ghost use Rattle.request_phases.specs.Rounds.{IsGround, IsOfMain, asked_from, asked_in, told_in, reached_in, phases_told, tries_told, decision_seen};
ghost use Rattle.request_phases.specs.Turns.{Reaches, Steps};

use crate::content::{content, index, on_node, try_names};
use crate::decide::{Next, last_of, next_of};
use crate::ground::Ground;
use crate::locate::{after_location, after_server, round};
use crate::state::{Decision, From, Phases, Ran, Reached, Search, Step, Wait};
use byte_text::OutOfMemory;
use file_tree::Node;
use ngx_pattern::PatternSet;
use ngx_variables::{Main, VarTable};
use rewrite_code::{Progress, Setting, resume as resume_program};
use std::alloc::Global;
use try_index::TryState;

/// What a folder without an index is answered.
fn without_index(node: Node) -> Decision
    ensures { (item : Item) (bytes : List ℕ) → node_of item ≡ node
        → decision_seen bytes result ≡ Fails (if passes IsFolder item then 403 else 404) }
{
    match node {
        Node::Folder => Decision::Error(403),
        Node::File { len: _, date: _ } => Decision::Error(404),
        Node::Locked => Decision::Error(404),
        Node::Missing => Decision::Error(404),
    }
}

/// Goes on with a search of `try_files`.
#[inline(never)]
fn tried(
    alloc: Global,
    ground: &Ground<'_>,
    state: TryState,
    node: Node,
    main: &Main,
    at: &mut Progress,
    vars: &VarTable,
) -> Result<Reached, OutOfMemory>
    requires { IsGround ground.now }
    ensures { IfOk result (λ reached. (item : Item) → node_of item ≡ node
        → (patterns : List SetPattern) (bytes : List ℕ) → Reaches patterns ground.now main.now
        (λ w a. let s = standing_seen ground.now.site.now at.old in
        tries_told a.main s s.values.tries state item)
        vars.now bytes at.new reached vars.now) }
{
    match &ground.site.level(at.level).tries {
        Some(tries) => {
            let search = Search {
                state,
                answer: Some(node),
            };
            Ok(try_names(alloc, ground, tries, search, main, at, vars)?)
        }
        None => Ok(content(alloc, ground, main, at, vars)?),
    }
}

/// Goes on with a round that waited, by what is at the path for which it asked.
#[inline(always)]
fn told(
    alloc: Global,
    ground: &Ground<'_>,
    wait: Wait,
    node: Node,
    patterns: &mut PatternSet,
    phases: &mut Phases,
    vars: &mut VarTable,
) -> Result<Reached, OutOfMemory>
    requires { IsGround ground.now }
    ensures does { IfOk result (λ reached. (item : Item) → node_of item ≡ node
        → Reaches patterns.old ground.now phases.old.main
        (λ w a. told_in w patterns.old ground.now.site.now a phases.old.at wait item)
        vars.old (text_of item) phases.new.at reached vars.new) }
    ensures kept { patterns.new ≡ patterns.old }
    ensures same { IfOk result (λ reached. phases.new ≡ record phases.old { at = phases.new.at }) }
{
    let Phases { main, at, .. } = phases;
    match wait {
        Wait::Test {
            level,
            place,
            at_server,
        } => {
            let site = ground.site;
            let program = &site.level(level).program;
            let setting = Setting { alloc, site, main };
            let step = resume_program(&setting, program, patterns, at, vars, place, node)?;
            if at_server {
                return Ok(after_server(
                    alloc,
                    ground,
                    Ran { level, step },
                    patterns,
                    main,
                    at,
                    vars,
                )?);
            }
            Ok(after_location(alloc, ground, Ran { level, step }, main, at, vars)?)
        }
        Wait::Try(state) => Ok(tried(alloc, ground, state, node, main, at, vars)?),
        Wait::Index(state) => Ok(index(alloc, ground, state, Some(node), main, at, vars)?),
        Wait::Folder => Ok(Reached::Decides(without_index(node))),
        Wait::File => Ok(Reached::Decides(on_node(alloc, &at.request, node)?)),
    }
}

/// Works rounds off, as long as each is decided at once and makes a change.
#[inline(always)]
pub(crate) fn settle(
    alloc: Global,
    ground: &Ground<'_>,
    reached: Reached,
    patterns: &mut PatternSet,
    phases: &mut Phases,
    vars: &mut VarTable,
) -> Result<Step, OutOfMemory>
    requires { IsGround ground.now }
    ensures does { IfOk result (λ step. (bytes : List ℕ)
        → Steps patterns.old ground.now (λ w. rounds_rest w phases.old.changes (asked_in phases.old)
        (reached_in w patterns.old ground.now.site.now (asked_in phases.old) bytes phases.old.at
        reached))
        vars.old bytes phases.new step vars.new) }
    ensures main { IfOk result (λ step. IsOfMain phases.old.main phases.new.main) }
    ensures kept { patterns.new ≡ patterns.old }
{
    let mut reached = reached;
    loop {
        match reached {
            Reached::Waits { wait, path } => return Ok(Step::Asks { wait, path }),
            Reached::Calls(path) => return Ok(Step::Calls(path)),
            Reached::Decides(decision) => {
                if phases.changes == 0 {
                    return Ok(Step::Answers(last_of(phases, decision)));
                }
                match next_of(alloc, ground, phases, decision, vars)? {
                    Next::Answers(outcome) => return Ok(Step::Answers(outcome)),
                    Next::Changed(from) => {
                        phases.changes = phases.changes - 1;
                        phases.role = phases.at.request.role;
                        reached = round(
                            alloc,
                            ground,
                            from,
                            patterns,
                            &phases.main,
                            &mut phases.at,
                            vars,
                        )?;
                    }
                }
            }
        }
    }
}

/// Begins the phases of a request, at the server's rewrite program: up to its first question, or its answer. Of the main request
/// they change the method alone.
///
/// # Errors
/// `OutOfMemory`; `phases` and `vars` are then fit to be dropped alone.
#[inline(always)]
pub fn begin(
    alloc: Global,
    ground: &Ground<'_>,
    patterns: &mut PatternSet,
    phases: &mut Phases,
    vars: &mut VarTable,
) -> Result<Step, OutOfMemory>
    requires { IsGround ground.now }
    ensures does { IfOk result (λ step. (bytes : List ℕ)
        → Steps patterns.old ground.now
        (λ w. rounds w phases.old.changes (asked_from phases.old Start))
        vars.old bytes phases.new step vars.new) }
    ensures main { IfOk result (λ step. IsOfMain phases.old.main phases.new.main) }
    ensures kept { patterns.new ≡ patterns.old }
{
    phases.role = phases.at.request.role;
    let reached = round(
        alloc,
        ground,
        From::Start,
        patterns,
        &phases.main,
        &mut phases.at,
        vars,
    )?;
    Ok(settle(alloc, ground, reached, patterns, phases, vars)?)
}

/// Goes on with a request, by what is at the path for which it asked: again up to a question, or its answer.
///
/// # Errors
/// As `begin`.
pub fn resume(
    alloc: Global,
    ground: &Ground<'_>,
    wait: Wait,
    node: Node,
    patterns: &mut PatternSet,
    phases: &mut Phases,
    vars: &mut VarTable,
) -> Result<Step, OutOfMemory>
    requires { IsGround ground.now }
    ensures does { IfOk result (λ step. (item : Item) → node_of item ≡ node
        → Steps patterns.old ground.now
        (λ w. phases_told w patterns.old ground.now.site.now phases.old wait item)
        vars.old (text_of item) phases.new step vars.new) }
    ensures main { IfOk result (λ step. IsOfMain phases.old.main phases.new.main) }
    ensures kept { patterns.new ≡ patterns.old }
{
    let reached = told(alloc, ground, wait, node, patterns, phases, vars)?;
    Ok(settle(alloc, ground, reached, patterns, phases, vars)?)
}
