// Directives that are done at once: with no text to write first, no search, no file and no other level.
ghost use Rattle.std.specs.Prelude.{◌≡◌, ℕ, ◌+◌, ◌<◌, ◌≤◌, Bool, true, false, List, [], ◌∷◌, ◌++◌, length, None, Some, IfOk, IfSome, unwrap_or};
ghost use Rattle.acts.specs.Act.{Done, settled};
ghost use Rattle.acts.specs.Vars.{Vars, look};
ghost use Rattle.ngx_pattern.specs.Pattern.{Pattern as SetPattern};
ghost use Rattle.ngx_variables.specs.declared.request.Main.{Main as MainRow};
ghost use Rattle.ngx_variables.specs.declared.request.Request.{Request as RequestRow};
ghost use Rattle.ngx_variables.specs.Texts.{value_text};
ghost use Rattle.site_whole.specs.site_model.declared.site.Site.{Site as SiteRow};
ghost use Rattle.site_whole.specs.Whole.{step_seen, test_seen};
ghost use Rattle.request_meaning.specs.Serving.{World};
ghost use Rattle.request_meaning.specs.Rewriting as meaning;
ghost use Rattle.request_meaning.specs.Rewriting.{Passed, if_step};
ghost use Rattle.request_meaning.specs.Rewriting.Step.{Goes};
ghost use Rattle.pattern_search.specs.Found.{patterns_seen};
ghost use Rattle.rewrite_code.specs.Found.{finding};
ghost use Rattle.rewrite_code.specs.Texts.{fit_of};
ghost use Rattle.rewrite_code.specs.Places.{progress_seen};
ghost use Rattle.rewrite_code.specs.Conditions.{checked, checked_text};
ghost use Rattle.rewrite_code.specs.Conditions.Checked.{Knows};
ghost use Rattle.rewrite_code.specs.Moves.{values_at, set_made, if_made};

use crate::condition::{is_true, variable_of};
use crate::place::Progress;
use crate::text::literal_fit;
use byte_text::{ByteText, OutOfMemory};
use ngx_variables::{Main, Piece, Request, Value, VarTable};
use site_whole::site_model::{RewriteStep, Test};

/// `set` of such a text; of another it does nothing.
fn set_at_once(name: &ByteText, text: &Value, vars: &mut VarTable) -> Result<bool, OutOfMemory>
    ensures set { IfOk result (λ is_done. is_done ≡ true
        → (main : MainRow) (request : RequestRow) (first : Bool) (p : Passed)
        → set_made first name.now p vars.old (fit_of main request vars.old text.now)
        ≡ (Goes 0 p, vars.new)) }
    ensures not_done { IfOk result (λ is_done. is_done ≡ false → vars.new ≡ vars.old) }
{
    match literal_fit(text) {
        Some(bytes) => {
            vars.put(name.as_slice(), bytes)?;
            Ok(true)
        }
        None => Ok(false),
    }
}

/// What a test of a variable's text says that compares it with no text that is to be written first.
#[tactic(auto, unfolding(crate::specs::Conditions::checked_text))]
fn tested(test: &Test, left: &[u8]) -> Option<bool>
    ensures { IfSome result (λ holds.
        (ps : List SetPattern) (main : MainRow) (request : RequestRow) (vars : Vars)
        → checked_text ps main request vars left.now test.now ≡ Knows (meaning.says holds)) }
{
    match test {
        Test::IsSet(_) => Some(is_true(left)),
        Test::Equals { variable: _, text } => match literal_fit(text) {
            Some(right) => Some(left == right),
            None => None,
        },
        Test::Matches {
            variable: _,
            pattern: _,
        } => None,
        Test::OnFile { test: _, path: _ } => None,
    }
}

/// The text of a variable that a `set` gives a value; an empty one where none did.
fn text_set<'a>(name: &ByteText, vars: &'a VarTable) -> &'a [u8]
    ensures { result.now ≡ unwrap_or (look vars.now name.now) [] }
{
    vars.get(name.as_slice()).unwrap_or(b"")
}

/// The text of a variable, where it is somewhere already.
fn borrowed<'a>(
    variable: &'a Piece,
    main: &'a Main,
    request: &'a Request,
    vars: &'a VarTable,
) -> Option<&'a [u8]>
    ensures { IfSome result (λ text.
        text.now ≡ value_text main.now request.now vars.now (variable.now ∷ [])) }
{
    match variable {
        Piece::Set(name) => Some(text_set(name, vars)),
        other => other.borrowed(main, request, vars),
    }
}

/// What a condition says whose variable is somewhere already.
fn holds(test: &Test, main: &Main, request: &Request, vars: &VarTable) -> Option<bool>
    ensures { IfSome result (λ holds. (ps : List SetPattern)
        → checked ps main.now request.now vars.now test.now ≡ Knows (meaning.says holds)) }
{
    match variable_of(test) {
        Some(variable) => match borrowed(variable, main, request, vars) {
            Some(left) => tested(test, left),
            None => None,
        },
        None => None,
    }
}

/// Past how many directives an `if` leads by its condition, where it enters no level.
fn skipped(holds: bool, negated: bool, block: u32, level: Option<u32>) -> Option<u32>
    ensures { IfSome result (λ skip. (site : SiteRow) (p : Passed)
        → if_step negated block (values_at site level) p (meaning.says holds) ≡ Goes skip p) }
{
    if holds == negated {
        return Some(block);
    }
    match level {
        Some(_) => None,
        None => Some(0),
    }
}

/// `if`, as far as it is decided so.
fn if_at_once(
    test: &Test,
    negated: bool,
    block: u32,
    level: Option<u32>,
    main: &Main,
    request: &Request,
    vars: &VarTable,
) -> Option<u32>
    ensures { IfSome result (λ skip. (ps : List SetPattern) (site : SiteRow) (p : Passed)
        → let seen = test_seen (patterns_seen ps) test.now in
        let told = checked ps main.now request.now vars.now test.now in
        if_made seen negated block (values_at site level) p told ≡ Done (Goes skip p)) }
{
    match holds(test, main, request, vars) {
        Some(holds) => skipped(holds, negated, block, level),
        None => None,
    }
}

/// Does a directive that can be done at once: past how many directives the program goes on then, with the request where
/// it was. `None` where it can't, and nothing was done.
pub(crate) fn at_once(
    directive: &RewriteStep,
    main: &Main,
    progress: &Progress,
    vars: &mut VarTable,
) -> Result<Option<u32>, OutOfMemory>
    ensures does { IfOk result (λ skip. IfSome skip (λ n.
        (w : World) (ps : List SetPattern) (site : SiteRow) (leading : Bool)
        → let d = step_seen (patterns_seen ps) site directive.now in
        let p = progress_seen site progress.now in
        settled (meaning.step (finding w) main.now leading p d) vars.old
        ≡ (Done (Goes n p), vars.new))) }
    ensures not_done { IfOk result (λ skip. skip ≡ None → vars.new ≡ vars.old) }
{
    match directive {
        RewriteStep::Set { name, text } => {
            let is_done = set_at_once(name, text, vars)?;
            if is_done { Ok(Some(0)) } else { Ok(None) }
        }
        RewriteStep::If {
            test,
            negated,
            block,
            level,
        } => match if_at_once(
            test,
            *negated,
            *block,
            *level,
            main,
            &progress.request,
            vars,
        ) {
            Some(skip) => Ok(Some(skip)),
            None => Ok(None),
        },
        RewriteStep::Rewrite {
            pattern: _,
            to: _,
            is_url: _,
            flag: _,
        } => Ok(None),
        RewriteStep::Return { code: _, text: _ } => Ok(None),
        RewriteStep::Stop => Ok(None),
    }
}
