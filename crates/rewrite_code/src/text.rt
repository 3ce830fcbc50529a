// Texts with variables, evaluated.
ghost use Rattle.std.specs.Prelude.{◌≡◌, ℕ, ◌+◌, ◌<◌, ◌≤◌, List, [], ◌∷◌, ◌++◌, length, IfOk, IfSome, Some, option_map};
ghost use Rattle.acts.specs.Vars.{Vars};
ghost use Rattle.ngx_variables.specs.declared.request.Main.{Main as MainRow};
ghost use Rattle.ngx_variables.specs.declared.request.Request.{Request as RequestRow};
ghost use Rattle.ngx_variables.specs.Texts.{is_too_long, value_text};
ghost use Rattle.rewrite_code.specs.Texts.{fitted, fit_of};

use byte_text::{ByteText, OutOfMemory};
use ngx_variables::{EvalFault, Main, Request, Value, VarTable};
use std::alloc::Global;

/// The most bytes of an evaluated text.
const TEXT_LIMIT: usize = 16384;

#[tactic(auto, unfolding(ngx_variables::specs::Texts::is_too_long))]
fn is_too_long(text: &[u8]) -> bool
    ensures { result ≡ is_too_long text.now }
{
    text.len() > TEXT_LIMIT
}

/// A text that isn't too long.
pub(crate) fn fitted(text: &[u8]) -> Option<&[u8]>
    ensures { option_map (λ fit. fit.now) result ≡ fitted text.now }
{
    if is_too_long(text) {
        return None;
    }
    Some(text)
}

/// A text that is the same for every request and isn't too long.
#[tactic(auto, unfolding(crate::specs::Texts::fit_of))]
pub(crate) fn literal_fit(text: &Value) -> Option<&[u8]>
    ensures { IfSome result (λ fit. (main : MainRow) (request : RequestRow) (vars : Vars)
        → fit_of main request vars text.now ≡ Some fit.now) }
{
    match text.literal() {
        Some(bytes) => fitted(bytes),
        None => None,
    }
}

/// What a text evaluates to; `None` where it is too long.
#[tactic(auto, unfolding(crate::specs::Texts::fit_of))]
pub(crate) fn fit_text(
    alloc: Global,
    text: &Value,
    main: &Main,
    request: &Request,
    vars: &VarTable,
) -> Result<Option<ByteText>, OutOfMemory>
    ensures { IfOk result (λ fit. fit ≡ fit_of main.now request.now vars.now text.now) }
{
    if let Some(literal) = literal_fit(text) {
        return Ok(Some(ByteText::from_slice(alloc, literal)?));
    }
    let mut out = ByteText::new(alloc);
    match text.eval(alloc, main, request, vars, &mut out) {
        Ok(()) => Ok(Some(out)),
        Err(EvalFault::TooLong) => Ok(None),
        Err(EvalFault::OutOfMemory) => Err(OutOfMemory),
    }
}
