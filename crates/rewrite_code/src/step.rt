// Single directives.
ghost use Rattle.std.specs.Prelude.{◌≡◌, ℕ, ◌+◌, ◌<◌, ◌≤◌, Bool, true, false, List, [], ◌∷◌, ◌++◌, length, None, Some, option_map, IfOk, OnOk};
ghost use Rattle.file_tree.specs.Tree.{Item, node_of};
ghost use Rattle.acts.specs.Act.{settled};
ghost use Rattle.acts.specs.Vars.{Vars};
ghost use Rattle.site_whole.specs.site_model.declared.site.Site.{Site as SiteRow};
ghost use Rattle.site_whole.specs.site_views.Pattern.{Pattern, groups_in};
ghost use Rattle.site_whole.specs.site_views.Rewrites.Directive.{If};
ghost use Rattle.site_whole.specs.Whole.{step_seen, test_seen, flag_seen};
ghost use Rattle.request_meaning.specs.Serving.{World};
ghost use Rattle.request_meaning.specs.Rewriting as meaning;
ghost use Rattle.request_meaning.specs.Rewriting.{if_step, in_block, with_groups, returned, return_step};
ghost use Rattle.request_meaning.specs.Rewriting.Tested.{Says};
ghost use Rattle.request_meaning.specs.Rewriting.Step.{Goes, Stops};
ghost use Rattle.pattern_search.specs.Found.{found_at, patterns_seen};
ghost use Rattle.rewrite_code.specs.Found.{finding};
ghost use Rattle.rewrite_code.specs.Texts.{fit_of, fitted};
ghost use Rattle.rewrite_code.specs.declared.place.Progress.{Progress as At};
ghost use Rattle.rewrite_code.specs.Conditions.{checked};
ghost use Rattle.rewrite_code.specs.Places.{progress_seen, ran_of};
ghost use Rattle.rewrite_code.specs.Runs.{told_step};
ghost use Rattle.rewrite_code.specs.Moves.{move_seen, done_seen, values_at, set_made, return_fit, rewrite_made, if_made};

use crate::condition::{Condition, check, passes_test};
use crate::groups::find_groups;
use crate::place::{Ending, Progress, Setting};
use crate::target::aim_of;
use crate::text::{fit_text, fitted};
use crate::turn::turn;
use byte_text::{ByteText, OutOfMemory};
use file_tree::Node;
use ngx_pattern::PatternSet;
use ngx_variables::{Groups, Main, Request, Value, VarTable};
use site_whole::site_model::{Flag, RewriteStep, Site, Test};
use std::alloc::Global;

/// What a directive makes of a program: it goes on past the next `skip` directives, or ends.
#[derive(Drop)]
pub enum Move {
    On { skip: u32 },
    Stop(Ending),
}

/// What a directive did.
#[derive(Drop)]
pub enum Done {
    Moved(Move),
    /// A file test wants to know what is at this path.
    Asks(ByteText),
}

/// Sets a variable to a text, or ends the program where the text was too long.
fn put(
    name: &ByteText,
    text: Option<&[u8]>,
    leading: bool,
    vars: &mut VarTable,
) -> Result<Move, OutOfMemory>
    ensures { IfOk result (λ move. (site : SiteRow) (p : At)
        → set_made leading name.now (progress_seen site p) vars.old
        (option_map (λ t. t.now) text.entry)
        ≡ (move_seen site p move, vars.new)) }
{
    match text {
        Some(text) => {
            vars.put(name.as_slice(), text)?;
            Ok(Move::On { skip: 0 })
        }
        None => Ok(Move::Stop(Ending::Failed { leading })),
    }
}

/// A text that is lent.
fn lent(text: &Option<ByteText>) -> Option<&[u8]>
    ensures { option_map (λ t. t.now) result ≡ text.now }
{
    match text {
        Some(text) => Some(text.as_slice()),
        None => None,
    }
}

/// `set`.
#[tactic(auto, unfolding(crate::specs::Texts::fit_of))]
fn set(
    alloc: Global,
    name: &ByteText,
    text: &Value,
    leading: bool,
    main: &Main,
    request: &Request,
    vars: &mut VarTable,
) -> Result<Move, OutOfMemory>
    ensures { IfOk result (λ move. (site : SiteRow) (p : At)
        → set_made leading name.now (progress_seen site p) vars.old
        (fit_of main.now request.now vars.old text.now)
        ≡ (move_seen site p move, vars.new)) }
{
    if let Some(bytes) = text.literal() {
        return put(name, fitted(bytes), leading, vars);
    }
    let fit = fit_text(alloc, text, main, request, vars)?;
    put(name, lent(&fit), leading, vars)
}

/// Takes the request into the level of a true `if`, where it has one.
#[tactic(auto, unfolding(site_whole::specs::Whole::values_seen))]
fn enter(
    alloc: Global,
    site: &Site,
    level: Option<u32>,
    progress: &mut Progress,
) -> Result<(), OutOfMemory>
    ensures { OnOk result
        (in_block (values_at site.now level) (progress_seen site.now progress.old)
        ≡ progress_seen site.now progress.new) }
{
    if let Some(number) = level {
        let place = site.level(number).place.copy(alloc)?;
        progress.request.place = Some(place);
        progress.level = number;
    }
    Ok(())
}

/// The block of an `if`: whether it is gone into where the test fails, how many directives it has, and its level, if it has
/// one.
#[derive(Clone, Copy)]
struct Block {
    negated: bool,
    size: u32,
    level: Option<u32>,
}

/// Goes into the block of an `if`, or past it: past how many directives.
fn branch(
    alloc: Global,
    site: &Site,
    holds: bool,
    block: Block,
    progress: &mut Progress,
) -> Result<u32, OutOfMemory>
    ensures { IfOk result (λ skip.
        if_step block.negated block.size (values_at site.now block.level)
        (progress_seen site.now progress.old) (meaning.says holds)
        ≡ Goes skip (progress_seen site.now progress.new)) }
{
    if holds == block.negated {
        return Ok(block.size);
    }
    enter(alloc, site, block.level, progress)?;
    Ok(0)
}

/// The groups of a match that was found; those of an earlier one stay where there was none.
fn take_groups(groups: Option<Groups>, progress: &mut Progress)
    ensures { progress.new
        ≡ record progress.old { request = with_groups groups progress.old.request } }
{
    if let Some(groups) = groups {
        progress.request.groups = groups;
    }
}

/// `if`.
fn decide(
    setting: &Setting<'_>,
    test: &Test,
    block: Block,
    patterns: &mut PatternSet,
    progress: &mut Progress,
    vars: &VarTable,
) -> Result<Done, OutOfMemory>
    ensures does { IfOk result (λ done.
        let seen = test_seen (patterns_seen patterns.old) test.now in
        let site = setting.now.site.now in
        let values = values_at site block.level in
        if_made seen block.negated block.size values (progress_seen site progress.old)
        (checked patterns.old setting.now.main.now progress.old.request vars.now test.now)
        ≡ done_seen site progress.new (If seen block.negated block.size values) done) }
    ensures kept { patterns.new ≡ patterns.old }
{
    let alloc = setting.alloc;
    match check(alloc, test, patterns, setting.main, &progress.request, vars)? {
        Condition::Says { holds, groups } => {
            take_groups(groups, progress);
            let skip = branch(alloc, setting.site, holds, block, progress)?;
            Ok(Done::Moved(Move::On { skip }))
        }
        Condition::Unfit => Ok(Done::Moved(Move::Stop(Ending::Failed { leading: false }))),
        Condition::Asks(path) => Ok(Done::Asks(path)),
    }
}

/// What a `return` ends with: with these codes a redirect, and with 444 nothing.
fn answer(code: u16, text: Option<ByteText>) -> Ending
    ensures { (site : SiteRow) (p : At)
        → return_step code (progress_seen site p) text ≡ Stops (ran_of site p result) }
{
    match code {
        444 => Ending::Close,
        301 | 302 | 303 | 307 | 308 => Ending::Redirect { code, to: text },
        _ => Ending::Status { code, text },
    }
}

/// `return`.
fn give_back(
    alloc: Global,
    code: u16,
    text: &Option<Value>,
    main: &Main,
    request: &Request,
    vars: &VarTable,
) -> Result<Move, OutOfMemory>
    ensures { IfOk result (λ move. (site : SiteRow) (p : At)
        → returned code (progress_seen site p)
        (return_fit main.now request.now vars.now text.now)
        ≡ move_seen site p move) }
{
    let Some(text) = text else {
        return Ok(Move::Stop(answer(code, None)));
    };
    match fit_text(alloc, text, main, request, vars)? {
        Some(text) => Ok(Move::Stop(answer(code, Some(text)))),
        None => Ok(Move::Stop(Ending::Failed { leading: false })),
    }
}

/// Where a `rewrite` leads: the text of its target, whether that is a URL, and its flag.
#[derive(Clone, Copy)]
struct Way<'a> {
    to: &'a Value,
    is_url: bool,
    flag: Flag,
}

/// `rewrite`.
fn rewrite(
    setting: &Setting<'_>,
    pattern: u32,
    way: &Way<'_>,
    patterns: &mut PatternSet,
    progress: &mut Progress,
    vars: &VarTable,
) -> Result<Move, OutOfMemory>
    ensures does { IfOk result (λ move. (site : SiteRow)
        → rewrite_made setting.now.main.now vars.now way.now.to.now way.now.is_url
        (flag_seen way.now.flag) (progress_seen site progress.old)
        (option_map (groups_in progress.old.request.path)
        (found_at patterns.old pattern progress.old.request.path))
        ≡ move_seen site progress.new move) }
    ensures kept { patterns.new ≡ patterns.old }
{
    let alloc = setting.alloc;
    let path = progress.request.path.as_slice();
    let Some(groups) = find_groups(alloc, patterns, pattern, path)? else {
        return Ok(Move::On { skip: 0 });
    };
    progress.request.groups = groups;
    match aim_of(alloc, way.to, setting.main, &progress.request, vars)? {
        Some(aim) => turn(alloc, way.to, way.is_url, way.flag, progress, aim),
        None => Ok(Move::Stop(Ending::Failed { leading: false })),
    }
}

/// What a directive does; `leading` where nothing but `set`s comes before it in its program.
pub(crate) fn step(
    setting: &Setting<'_>,
    directive: &RewriteStep,
    leading: bool,
    patterns: &mut PatternSet,
    progress: &mut Progress,
    vars: &mut VarTable,
) -> Result<Done, OutOfMemory>
    ensures does { IfOk result (λ done. (w : World)
        → let site = setting.now.site.now in
        let d = step_seen (patterns_seen patterns.old) site directive.now in
        settled (meaning.step (finding w) setting.now.main.now leading
        (progress_seen site progress.old) d) vars.old
        ≡ (done_seen site progress.new d done, vars.new)) }
    ensures kept { patterns.new ≡ patterns.old }
{
    let alloc = setting.alloc;
    let main = setting.main;
    match directive {
        RewriteStep::Set { name, text } => {
            let made = set(alloc, name, text, leading, main, &progress.request, vars)?;
            Ok(Done::Moved(made))
        }
        RewriteStep::If {
            test,
            negated,
            block,
            level,
        } => {
            let block = Block {
                negated: *negated,
                size: *block,
                level: *level,
            };
            let made = decide(setting, test, block, patterns, progress, vars)?;
            Ok(made)
        }
        RewriteStep::Rewrite {
            pattern,
            to,
            is_url,
            flag,
        } => {
            let way = Way {
                to,
                is_url: *is_url,
                flag: *flag,
            };
            let made = rewrite(setting, *pattern, &way, patterns, progress, vars)?;
            Ok(Done::Moved(made))
        }
        RewriteStep::Return { code, text } => {
            let made = give_back(alloc, *code, text, main, &progress.request, vars)?;
            Ok(Done::Moved(made))
        }
        RewriteStep::Stop => {
            progress.seeks = false;
            Ok(Done::Moved(Move::Stop(Ending::End)))
        }
    }
}

/// What a directive does that waited for what is at a path.
pub(crate) fn tell(
    alloc: Global,
    site: &Site,
    directive: &RewriteStep,
    node: Node,
    progress: &mut Progress,
) -> Result<Move, OutOfMemory>
    ensures { IfOk result (λ move. (ps : List Pattern) (item : Item) → node_of item ≡ node
        → told_step (step_seen ps site.now directive.now) (progress_seen site.now progress.old) item
        ≡ move_seen site.now progress.new move) }
{
    match directive {
        RewriteStep::If {
            test,
            negated,
            block,
            level,
        } => {
            let holds = passes_test(test, node);
            let block = Block {
                negated: *negated,
                size: *block,
                level: *level,
            };
            let skip = branch(alloc, site, holds, block, progress)?;
            Ok(Move::On { skip })
        }
        RewriteStep::Set { name: _, text: _ } => Ok(Move::Stop(Ending::End)),
        RewriteStep::Rewrite {
            pattern: _,
            to: _,
            is_url: _,
            flag: _,
        } => Ok(Move::Stop(Ending::End)),
        RewriteStep::Return { code: _, text: _ } => Ok(Move::Stop(Ending::End)),
        RewriteStep::Stop => Ok(Move::Stop(Ending::End)),
    }
}
