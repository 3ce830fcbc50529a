// The access phase of a main request (<https://nginx.org/en/docs/http/ngx_http_access_module.html>,
// ngx_http_auth_request_module.html, ngx_http_core_module.html#satisfy).
ghost use Rattle.std.specs.Prelude.{◌≡◌, ℕ, List, IfOk};
ghost use Rattle.ngx_pattern.specs.Pattern.{Pattern as SetPattern};
ghost use Rattle.ngx_variables.specs.declared.request.Main.{Main as MainView};
ghost use Rattle.request_meaning.specs.site_views.Values.{Values};
ghost use Rattle.request_meaning.specs.Access.{verdict as verdict_of, auth_verdict as auth_verdict_of};
ghost use Rattle.request_meaning.specs.Phases.{access as access_of};
ghost use Rattle.rewrite_code.specs.Places.{standing_seen};
ghost use Rattle.request_phases.specs.Verdicts.{verdict_act, guarded_act};
ghost use Rattle.request_phases.specs.Rounds.{IsGround};
ghost use Rattle.request_phases.specs.Turns.{Reaches};

use crate::content::precontent;
use crate::ground::Ground;
use crate::lists::rules_at;
use crate::state::{Decision, Reached};
use access_rules::{Rule, decision};
use byte_text::{ByteText, OutOfMemory};
use ngx_variables::{Main, Role, VarTable};
use rewrite_code::Progress;
use site_model::Level;
use std::alloc::Global;
use std::net::IpAddr;

/// Whether a request is let in.
#[derive(Clone, Copy)]
pub(crate) enum Verdict<'a> {
    LetsIn,
    Denies,
    /// A subrequest to this path decides.
    Asks(&'a [u8]),
}

#[tactic(auto, unfolding(request_meaning::specs::Access::auth_verdict))]
/// Where the list lets in or denies, the subrequest decides, if one is to be asked.
#[inline(always)]
fn auth_verdict(auth: &Option<ByteText>, denied: bool) -> Verdict<'_>
    ensures { (main : MainView) (values : Values) → values.auth ≡ auth.now
        → auth_verdict_of main values denied values.auth ≡ verdict_act main values result }
{
    match auth {
        Some(path) => Verdict::Asks(path.as_slice()),
        None => {
            if denied {
                return Verdict::Denies;
            }
            Verdict::LetsIn
        }
    }
}

/// Address rules come first. With `satisfy all` a denial ends; with `satisfy any` a rule that allows ends.
#[tactic(auto, unfolding(request_meaning::specs::Access::verdict))]
#[inline(always)]
fn judge<'a>(rules: &[Rule], any: bool, auth: &'a Option<ByteText>, peer: IpAddr) -> Verdict<'a>
    ensures { (main : MainView) (values : Values) → main.peer.ip ≡ peer
        → values.rules ≡ rules.now → values.any ≡ any → values.auth ≡ auth.now
        → verdict_of main values ≡ verdict_act main values result }
{
    match decision(rules, peer) {
        None => auth_verdict(auth, false),
        Some(true) => {
            if any {
                return Verdict::LetsIn;
            }
            auth_verdict(auth, false)
        }
        Some(false) => {
            if any {
                return auth_verdict(auth, true);
            }
            Verdict::Denies
        }
    }
}

/// The access phase of a main request, and what follows it.
#[inline(always)]
fn guarded(
    alloc: Global,
    ground: &Ground<'_>,
    main: &Main,
    at: &mut Progress,
    vars: &VarTable,
) -> Result<Reached, OutOfMemory>
    requires { IsGround ground.now }
    ensures { IfOk result (λ reached. (patterns : List SetPattern) (bytes : List ℕ)
        → Reaches patterns ground.now main.now
        (λ w a. guarded_act a (standing_seen ground.now.site.now at.old))
        vars.now bytes at.new reached vars.now) }
{
    let level = ground.site.level(at.level);
    let rules = rules_at(ground.site, level.rules);
    match judge(rules, level.any, &level.auth, main.peer.ip) {
        Verdict::LetsIn => Ok(precontent(alloc, ground, main, at, vars)?),
        Verdict::Denies => Ok(Reached::Decides(Decision::Error(403))),
        Verdict::Asks(path) => Ok(Reached::Calls(ByteText::from_slice(alloc, path)?)),
    }
}

/// The access phase, which subrequests skip, and what follows it.
#[tactic(auto, unfolding(request_meaning::specs::Phases::access))]
#[inline(always)]
pub(crate) fn access(
    alloc: Global,
    ground: &Ground<'_>,
    main: &Main,
    at: &mut Progress,
    vars: &VarTable,
) -> Result<Reached, OutOfMemory>
    requires { IsGround ground.now }
    ensures { IfOk result (λ reached. (patterns : List SetPattern) (bytes : List ℕ)
        → Reaches patterns ground.now main.now
        (λ w a. access_of a (standing_seen ground.now.site.now at.old))
        vars.now bytes at.new reached vars.now) }
{
    match at.request.role {
        Role::Main => Ok(guarded(alloc, ground, main, at, vars)?),
        Role::Content => Ok(precontent(alloc, ground, main, at, vars)?),
        Role::Auth => Ok(precontent(alloc, ground, main, at, vars)?),
    }
}
