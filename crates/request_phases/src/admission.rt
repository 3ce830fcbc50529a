// The reply of a subrequest that decides whether a request is let in
// (<https://nginx.org/en/docs/http/ngx_http_auth_request_module.html>).
ghost use Rattle.std.specs.Prelude.{◌≡◌, ℕ, List, ◌∷◌, map, IfOk};
ghost use Rattle.acts.specs.Act.{Done, settled};
ghost use Rattle.ngx_pattern.specs.Pattern.{Pattern as SetPattern};
ghost use Rattle.request_meaning.specs.Access.{sets, status_verdict};
ghost use Rattle.try_index.specs.site_whole.Whole.{auth_set_seen, auth_sets_at};
ghost use Rattle.rewrite_code.specs.Places.{standing_seen};
ghost use Rattle.request_phases.specs.Admitted.{SetsTo, admitted_act, phases_admitted, verdict_seen};
ghost use Rattle.request_phases.specs.Rounds.{IsGround, IsOfMain};
ghost use Rattle.request_phases.specs.Turns.{Reaches, Steps};

use crate::content::precontent;
use crate::ground::Ground;
use crate::lists::auth_sets_at;
use crate::rounds::settle;
use crate::state::{Decision, Phases, Reached, Step};
use byte_text::{ByteText, OutOfMemory};
use ngx_pattern::PatternSet;
use ngx_variables::{EvalFault, Main, Request, VarTable};
use rewrite_code::Progress;
use site_model::AuthSet;
use std::alloc::Global;
use try_index::target_text::fit_value_settles;

/// Whether a request is let in; if not, the code of the error.
#[derive(Clone, Copy)]
pub(crate) enum Admission {
    LetsIn,
    Denies(u16),
}

/// What the status of the subrequest says: 2xx lets in, 401 and 403 deny, and any other is an error.
#[tactic(auto, unfolding(request_meaning::specs::Access::status_verdict))]
fn by_status(status: u16) -> Admission
    ensures { verdict_seen result ≡ status_verdict status }
{
    if status >= 200 && status < 300 {
        return Admission::LetsIn;
    }
    if status == 401 || status == 403 {
        return Admission::Denies(status);
    }
    Admission::Denies(500)
}

/// Sets a variable by the values of the subrequest; whether its text fits.
fn put_one(
    alloc: Global,
    set: &AuthSet,
    main: &Main,
    request: &Request,
    vars: &mut VarTable,
) -> Result<bool, OutOfMemory>
    ensures { IfOk result (λ fits. (left : List _)
        → SetsTo main.now request.now (auth_set_seen set.now ∷ left) left vars.old vars.new fits) }
{
    fit_value_settles();
    let mut text = ByteText::new(alloc);
    match set.text.eval(alloc, main, request, vars, &mut text) {
        Ok(()) => {
            vars.put(set.name.as_slice(), text.as_slice())?;
            Ok(true)
        }
        Err(EvalFault::TooLong) => Ok(false),
        Err(EvalFault::OutOfMemory) => Err(OutOfMemory),
    }
}

/// Sets the variables of `auth_request_set`, one after another; false where a text is too long, after which none is set.
fn put_all(
    alloc: Global,
    all: &[AuthSet],
    main: &Main,
    request: &Request,
    vars: &mut VarTable,
) -> Result<bool, OutOfMemory>
    ensures { IfOk result (λ fits. settled (sets main.now request.now (map auth_set_seen all.now))
        vars.old ≡ (Done fits, vars.new)) }
{
    for set in all {
        if !put_one(alloc, set, main, request, vars)? {
            return Ok(false);
        }
    }
    Ok(true)
}

/// The round goes on by what was replied.
fn heard(
    alloc: Global,
    ground: &Ground<'_>,
    status: u16,
    request: &Request,
    main: &Main,
    at: &mut Progress,
    vars: &mut VarTable,
) -> Result<Reached, OutOfMemory>
    requires { IsGround ground.now }
    ensures { IfOk result (λ reached. (patterns : List SetPattern) (bytes : List ℕ)
        → Reaches patterns ground.now main.now
        (λ w a. admitted_act a (standing_seen ground.now.site.now at.old) status request.now)
        vars.old bytes at.new reached vars.new) }
{
    let level = ground.site.level(at.level);
    let all = auth_sets_at(ground.site, level.auth_sets);
    if !put_all(alloc, all, main, request, vars)? {
        return Ok(Reached::Decides(Decision::Error(500)));
    }
    match by_status(status) {
        Admission::LetsIn => Ok(precontent(alloc, ground, main, at, vars)?),
        Admission::Denies(code) => Ok(Reached::Decides(Decision::Error(code))),
    }
}

/// Goes on with a main request, by the reply of the subrequest that it asked whether it is let in: its status, and what its
/// request was at its end. Again up to a question, or an answer.
///
/// # Errors
/// As `begin`.
pub fn admit(
    alloc: Global,
    ground: &Ground<'_>,
    status: u16,
    request: &Request,
    patterns: &mut PatternSet,
    phases: &mut Phases,
    vars: &mut VarTable,
) -> Result<Step, OutOfMemory>
    requires { IsGround ground.now }
    ensures does { IfOk result (λ step. (bytes : List ℕ) → Steps patterns.old ground.now
        (λ w. phases_admitted w ground.now.site.now phases.old status request.now)
        vars.old bytes phases.new step vars.new) }
    ensures main { IfOk result (λ step. IsOfMain phases.old.main phases.new.main) }
    ensures kept { patterns.new ≡ patterns.old }
{
    let Phases { main, at, .. } = phases;
    let reached = heard(alloc, ground, status, request, main, at, vars)?;
    Ok(settle(alloc, ground, reached, patterns, phases, vars)?)
}
