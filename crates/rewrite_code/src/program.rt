// Programs, worked off directive by directive.
ghost use Rattle.std.specs.Prelude.{◌≡◌, ℕ, ◌+◌, ◌-◌, ◌<◌, ◌≤◌, ◌^◌, ◌==◌, ◌&&◌, List, length, drop, slice_index_or, IfOk};
ghost use Rattle.file_tree.specs.Tree.{Item, node_of};
ghost use Rattle.site_whole.specs.site_model.declared.site.Site.{Site as SiteRow};
ghost use Rattle.site_whole.specs.site_views.Pattern.{Pattern};
ghost use Rattle.site_whole.specs.Whole.{step_seen};
ghost use Rattle.request_meaning.specs.Serving.{World};
ghost use Rattle.request_meaning.specs.Rewriting.{rewritten, program_run, stays_first};
ghost use Rattle.rewrite_code.specs.Found.{finding};
ghost use Rattle.rewrite_code.specs.Places.{progress_seen, standing_seen};
ghost use Rattle.rewrite_code.specs.Runs.{program_of, resumed, still, ComesTo};
ghost use Rattle.rewrite_code.specs.Steps.{ahead, next_made, LeadsOn};
ghost use Rattle.rewrite_code.specs.declared.program.Next.TheVariants.{At};

use crate::place::{Ending, Progress, RunStep, Setting};
use crate::quick::at_once;
use crate::step::{Done, Move, step, tell};
use byte_text::OutOfMemory;
use file_tree::Node;
use ngx_pattern::PatternSet;
use ngx_variables::VarTable;
use site_whole::site_model::{Program, RewriteStep};

/// Whether the run of `set`s that begins a program goes on past a directive.
fn stays_leading(leading: bool, directive: &RewriteStep) -> bool
    ensures { (ps : List Pattern) (site : SiteRow)
        → result ≡ stays_first leading (step_seen ps site directive.now) }
{
    match directive {
        RewriteStep::Set { name: _, text: _ } => leading,
        RewriteStep::If {
            test: _,
            negated: _,
            block: _,
            level: _,
        } => false,
        RewriteStep::Rewrite {
            pattern: _,
            to: _,
            is_url: _,
            flag: _,
        } => false,
        RewriteStep::Return { code: _, text: _ } => false,
        RewriteStep::Stop => false,
    }
}

/// The same, where the directive skips the next `skip` ones.
fn leads_on(skip: u32, leading: bool, directive: &RewriteStep) -> bool
    ensures { (ps : List Pattern) (site : SiteRow) → result
        ≡ ((skip == 0) && stays_first leading (step_seen ps site directive.now)) }
{
    skip == 0 && stays_leading(leading, directive)
}

/// A place in a program; `leading` where nothing but `set`s comes before it.
#[derive(Clone, Copy)]
struct Spot {
    at: usize,
    leading: bool,
}

/// Where a program goes on.
#[derive(Drop)]
pub enum Next {
    /// At this place; `leading` where nothing but `set`s comes before it.
    At { at: usize, leading: bool },
    /// Nowhere, for now.
    Answered(RunStep),
}

/// Where a directive at a place leads.
fn next_after(made: Move, directive: &RewriteStep, at: usize, leading: bool) -> Next
    requires { at < 2 ^ 63 }
    ensures next { (ps : List Pattern) (site : SiteRow)
        → result ≡ next_made (stays_first leading (step_seen ps site directive.now)) at made }
    ensures further { LeadsOn at result }
{
    match made {
        Move::On { skip } => Next::At {
            at: at + 1 + skip as usize,
            leading: leads_on(skip, leading, directive),
        },
        Move::Stop(ending) => Next::Answered(RunStep::Ended(ending)),
    }
}

/// Does the directive at a place.
fn advance(
    setting: &Setting<'_>,
    program: &[RewriteStep],
    directive: &RewriteStep,
    patterns: &mut PatternSet,
    progress: &mut Progress,
    vars: &mut VarTable,
    spot: Spot,
) -> Result<Next, OutOfMemory>
    requires bound { spot.at < 2 ^ 63 }
    requires there { spot.at < length program.now }
    requires item { directive.now ≡ slice_index_or program.now spot.at directive.now }
    ensures does { IfOk result (λ next. (w : World)
        → let site = setting.now.site.now in let main = setting.now.main.now in
        let whole = program_of patterns.old site program.now in
        ahead (finding w) main site whole progress.new vars.new next
        ≡ ahead (finding w) main site whole progress.old vars.old (At spot.at spot.leading)) }
    ensures kept { patterns.new ≡ patterns.old }
    ensures further { IfOk result (LeadsOn spot.at) }
{
    let Spot { at, leading } = spot;
    let done = step(setting, directive, leading, patterns, progress, vars)?;
    match done {
        Done::Moved(made) => Ok(next_after(made, directive, at, leading)),
        Done::Asks(path) => Ok(Next::Answered(RunStep::Test { path, at })),
    }
}

/// Works a program off from a place on.
#[inline(always)]
fn run_from(
    setting: &Setting<'_>,
    program: &[RewriteStep],
    patterns: &mut PatternSet,
    progress: &mut Progress,
    vars: &mut VarTable,
    at: usize,
    leading: bool,
) -> Result<RunStep, OutOfMemory>
    ensures does { IfOk result (λ step. (w : World)
        → let site = setting.now.site.now in let main = setting.now.main.now in
        let whole = program_of patterns.old site program.now in
        ComesTo (rewritten (finding w) main leading 0 (drop at whole)
        (progress_seen site progress.old)) vars.old
        (still (finding w) main site whole progress.new step) vars.new) }
    ensures kept { patterns.new ≡ patterns.old }
{
    let mut at = at;
    let mut leading = leading;
    'steps: loop {
        match program.get(at) {
            None => return Ok(RunStep::Ended(Ending::End)),
            Some(directive) => {
                let done = at_once(directive, setting.main, progress, vars)?;
                match done {
                    Some(skip) => {
                        leading = leads_on(skip, leading, directive);
                        at = at + 1 + skip as usize;
                    }
                    None => {
                        let spot = Spot { at, leading };
                        let next = advance(
                            setting, program, directive, patterns, progress, vars, spot,
                        )?;
                        match next {
                            Next::Answered(step) => return Ok(step),
                            Next::At {
                                at: place,
                                leading: first,
                            } => {
                                at = place;
                                leading = first;
                            }
                        }
                    }
                }
            }
        }
    }
}

/// Runs the rewrite program of a level from its beginning
/// (<https://nginx.org/en/docs/http/ngx_http_rewrite_module.html>): up to its end, or to the first test of a file that a
/// file can be at. A location is then sought again exactly where `progress.seeks`.
///
/// `patterns` is the set beside the site, which to contracts stays as it is: no search changes what another finds. A level or
/// a pattern with a number that there is none of is as the site and the set have it: one that states nothing, one that
/// nothing matches.
///
/// # Errors
/// `OutOfMemory`; `progress` and `vars` are then fit to be dropped alone. A text that is too long is no error here: the
/// program ends with `Failed`.
#[inline(always)]
pub fn run(
    setting: &Setting<'_>,
    program: &Program,
    patterns: &mut PatternSet,
    progress: &mut Progress,
    vars: &mut VarTable,
) -> Result<RunStep, OutOfMemory>
    ensures does { IfOk result (λ step. (w : World)
        → let site = setting.now.site.now in let main = setting.now.main.now in
        let whole = program_of patterns.old site program.now in
        ComesTo (program_run (finding w) main whole (standing_seen site progress.old))
        vars.old (still (finding w) main site whole progress.new step) vars.new) }
    ensures kept { patterns.new ≡ patterns.old }
{
    progress.seeks = false;
    let steps = program.as_slice();
    let step = run_from(setting, steps, patterns, progress, vars, 0, true)?;
    Ok(step)
}

/// Goes on with a program at the file test at which it waits, by what is at its path: again up to its end, or to the next.
/// At a place where no `if` is it ends.
///
/// # Errors
/// As `run`.
pub fn resume(
    setting: &Setting<'_>,
    program: &Program,
    patterns: &mut PatternSet,
    progress: &mut Progress,
    vars: &mut VarTable,
    at: usize,
    node: Node,
) -> Result<RunStep, OutOfMemory>
    ensures does { IfOk result (λ step. (w : World) (item : Item) → node_of item ≡ node
        → let site = setting.now.site.now in let main = setting.now.main.now in
        let whole = program_of patterns.old site program.now in
        ComesTo (resumed (finding w) main (drop at whole)
        (progress_seen site progress.old) item) vars.old
        (still (finding w) main site whole progress.new step) vars.new) }
    ensures kept { patterns.new ≡ patterns.old }
{
    let steps = program.as_slice();
    match steps.get(at) {
        None => Ok(RunStep::Ended(Ending::End)),
        Some(directive) => {
            let made = tell(setting.alloc, setting.site, directive, node, progress)?;
            match made {
                Move::Stop(ending) => Ok(RunStep::Ended(ending)),
                Move::On { skip } => {
                    let next = at + 1 + skip as usize;
                    let step = run_from(setting, steps, patterns, progress, vars, next, false)?;
                    Ok(step)
                }
            }
        }
    }
}
