// Where an error goes.
ghost use Rattle.std.specs.Prelude.{◌≡◌, ℕ, not, false, map, IfOk, Err, None, Some, is_some, option_map};
ghost use Rattle.acts.specs.Act.{Done, settled};
ghost use Rattle.target_text.specs.ngx_variables.Texts.{value_text};
ghost use Rattle.site_whole.specs.Whole.{page_seen};
ghost use Rattle.request_meaning.specs.Serving.{Asked, Standing};
ghost use Rattle.request_meaning.specs.Errors.{by_rule, failed, rule_for};
ghost use Rattle.target_text.specs.Settled.{fit, target_text};
ghost use Rattle.error_pages.specs.Pages.{IsErrorOf, IsFor, IsInside, IsAway, page_next, too_long_next, has_no_page, IsTooLong, IsTooLongBy};

use crate::rule::{Handling, may_apply, rule_for, url_code};
use byte_text::ByteText;
use site_whole::site_model::{PageRule, PageTarget, Shown};
use std::alloc::Global;
use target_text::ngx_variables::{EvalFault, Main, Request, Value, VarTable};
use target_text::{fit_value_settles, target_of, target_settles};

/// Where an error goes: to a path of the site with its arguments, to a location `@name`, or to another address by a redirect
/// with a code.
#[derive(Drop)]
pub enum PageStep {
    Inside {
        path: ByteText,
        args: ByteText,
        shown: Shown,
    },
    Named {
        name: ByteText,
        shown: Shown,
    },
    Url {
        code: u16,
        to: ByteText,
    },
}

fn inside(
    alloc: Global,
    text: &Value,
    shown: Shown,
    main: &Main,
    request: &Request,
    vars: &VarTable,
) -> Result<PageStep, EvalFault>
    ensures ok { IfOk result
        (IsInside (target_text main.now request.now vars.now text.now) shown) }
    ensures too_long { result ≡ Err EvalFault.TooLong
        → target_text main.now request.now vars.now text.now ≡ None }
{
    let target = target_of(alloc, text, main, request, vars)?;
    Ok(PageStep::Inside {
        path: target.path,
        args: target.args.unwrap_or(ByteText::new(alloc)),
        shown,
    })
}

fn away(
    alloc: Global,
    text: &Value,
    shown: Shown,
    main: &Main,
    request: &Request,
    vars: &VarTable,
) -> Result<PageStep, EvalFault>
    ensures ok { IfOk result
        (IsAway (fit (value_text main.now request.now vars.now text.now)) shown) }
    ensures too_long { result ≡ Err EvalFault.TooLong
        → fit (value_text main.now request.now vars.now text.now) ≡ None }
{
    let mut to = ByteText::new(alloc);
    text.eval(alloc, main, request, vars, &mut to)?;
    Ok(PageStep::Url {
        code: url_code(shown),
        to,
    })
}

/// What a rule comes to.
fn page_by(
    alloc: Global,
    rule: &PageRule,
    main: &Main,
    request: &Request,
    vars: &VarTable,
) -> Result<PageStep, EvalFault>
    ensures page { IfOk result (λ step. (a : Asked) (s : Standing) (code : ℕ)
        → IsErrorOf main.now request.now a s
        → settled (by_rule a s code (Some (page_seen rule.now))) vars.now
        ≡ (Done (page_next a s code (Some step)), vars.now)) }
    ensures too_long { result ≡ Err EvalFault.TooLong
        → (a : Asked) (s : Standing) (code : ℕ) → IsErrorOf main.now request.now a s
        → settled (by_rule a s code (Some (page_seen rule.now))) vars.now
        ≡ (Done (too_long_next a s code), vars.now) }
    ensures unfit { result ≡ Err EvalFault.TooLong
        → IsTooLong main.now request.now vars.now (page_seen rule.now).target }
{
    fit_value_settles();
    target_settles();
    match &rule.target {
        PageTarget::Path(text) => {
            let step = inside(alloc, text, rule.shown, main, request, vars)?;
            Ok(step)
        }
        PageTarget::Location(name) => Ok(PageStep::Named {
            name: ByteText::from_slice(alloc, name.as_slice())?,
            shown: rule.shown,
        }),
        PageTarget::Url(text) => {
            let step = away(alloc, text, rule.shown, main, request, vars)?;
            Ok(step)
        }
    }
}

/// Where an error with a code goes, by the rules of its level. None where no rule names the code, the code is below 400, an
/// error was handled and pages aren't recursive, or no change is left: the built-in page is answered then.
///
/// # Errors
/// `TooLong` where the text of the page's path or address has more than 16384 bytes.
pub fn page_for(
    alloc: Global,
    rules: &[PageRule],
    code: u16,
    handling: Handling,
    main: &Main,
    request: &Request,
    vars: &VarTable,
) -> Result<Option<PageStep>, EvalFault>
    ensures page { IfOk result (λ step. (a : Asked) (s : Standing) → IsFor main.now request.now
        (map page_seen rules.now) handling.used handling.recursive a s
        → settled (failed handling.changes a s code) vars.now
        ≡ (Done (page_next a s code step), vars.now)) }
    ensures too_long { result ≡ Err EvalFault.TooLong → (a : Asked) (s : Standing)
        → IsFor main.now request.now (map page_seen rules.now) handling.used handling.recursive a s
        → settled (failed handling.changes a s code) vars.now
        ≡ (Done (too_long_next a s code), vars.now) }
    ensures none { IfOk result (λ step. is_some step ≡ not (has_no_page (map page_seen rules.now)
        code handling.changes handling.used handling.recursive)) }
    ensures some { result ≡ Err EvalFault.TooLong → has_no_page (map page_seen rules.now) code
        handling.changes handling.used handling.recursive ≡ false }
    ensures unfit { result ≡ Err EvalFault.TooLong → IsTooLongBy main.now request.now vars.now
        (rule_for (map page_seen rules.now) code) }
{
    if !may_apply(handling) {
        return Ok(None);
    }
    match rule_for(rules, code) {
        None => Ok(None),
        Some(rule) => {
            let step = page_by(alloc, rule, main, request, vars)?;
            Ok(Some(step))
        }
    }
}
