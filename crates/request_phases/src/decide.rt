// What becomes of what phases decide: an answer, or a change with which they begin again
// (<https://nginx.org/en/docs/http/ngx_http_core_module.html#error_page>).
ghost use Rattle.std.specs.Prelude.{◌≡◌, ◌≢◌, ℕ, ◌||◌, ◌&&◌, Bool, List, None, Some, IfOk, OnOk, Err};
ghost use Rattle.ngx_pattern.specs.Pattern.{Pattern as SetPattern};
ghost use Rattle.request_meaning.specs.Serving.{is_main_role};
ghost use Rattle.request_meaning.specs.Answering.{is_closing as closes_for};
ghost use Rattle.request_meaning.specs.Errors.{page_method as method_of_page, outcome_next, failed};
ghost use Rattle.rewrite_code.specs.Places.{standing_seen};
ghost use Rattle.request_phases.specs.Rounds.{IsGround, IsOfMain, asked_in, decision_seen};
ghost use Rattle.request_phases.specs.Nexts.{last_outcome, last_phases, with_own_role, NextIs, closed_by, paged};
ghost use Rattle.request_phases.specs.declared.state.Conclusion.TheVariants.{Page as AnswerPage};

use crate::ground::Ground;
use crate::lists::pages_at;
use crate::state::{Conclusion, Decision, From, Handled, Phases};
use byte_text::{ByteText, OutOfMemory};
use error_pages::{Handling, PageStep, page_for};
use http_types::Method;
use ngx_variables::{EvalFault, Role, VarTable};
use site_model::Shown;
use std::alloc::Global;

/// What becomes of a decision: an answer, or a change with which the phases begin again.
#[derive(Drop)]
pub(crate) enum Next {
    Answers(Conclusion),
    Changed(From),
}

/// A change for which none is left: the built-in page of 500.
fn too_many(phases: &mut Phases) -> Conclusion
    ensures page { result ≡ AnswerPage 500 }
    ensures role { phases.new ≡ with_own_role phases.old }
{
    phases.role = phases.at.request.role;
    Conclusion::Page(500)
}

/// What is answered where no change is left.
#[inline(always)]
pub(crate) fn last_of(phases: &mut Phases, decision: Decision) -> Conclusion
    ensures answer { result ≡ last_outcome decision }
    ensures phases { phases.new ≡ last_phases phases.old decision }
    ensures main { IsOfMain phases.old.main phases.new.main }
{
    match decision {
        Decision::Text { code, text } => Conclusion::Text { code, text },
        Decision::File { len, date } => Conclusion::File { len, date },
        Decision::Error(code) => Conclusion::Page(code),
        Decision::Page(code) => Conclusion::Page(code),
        Decision::Redirect { code, to } => Conclusion::Redirect { code, to },
        Decision::Close => Conclusion::Close,
        Decision::Seek => too_many(phases),
        Decision::Inside { path: _, args: _ } => too_many(phases),
        Decision::Named(_) => too_many(phases),
    }
}

/// An error of one of these codes of a main request closes the connection after its response.
fn is_closing(code: u16) -> bool
    ensures { result ≡ closes_for code }
{
    code == 400 || code == 413 || code == 414 || code == 500 || code == 501
}

fn is_main(role: Role) -> bool
    ensures { result ≡ is_main_role role }
{
    match role {
        Role::Main => true,
        Role::Content => false,
        Role::Auth => false,
    }
}

/// The page of an error is asked for with GET, unless with HEAD.
fn page_method(method: &Method) -> Method
    ensures { result ≡ method_of_page method.now }
{
    match method {
        Method::Head => Method::Head,
        Method::Get => Method::Get,
        Method::Post => Method::Get,
        Method::Other(_) => Method::Get,
    }
}

impl Phases {
    /// An error closes the connection, where it is one that does.
    fn close_by(&mut self, code: u16)
        ensures { self.new ≡ closed_by self.old code }
    {
        self.closes = self.closes || (is_main(self.role) && is_closing(code));
    }

    /// The request goes to the page of an error.
    fn go_to_page(&mut self, code: u16, shown: Shown, path: ByteText, args: ByteText)
        ensures { self.new ≡ paged self.old code shown path args }
    {
        self.close_by(code);
        self.error = Some(Handled { code, shown });
        if is_main(self.at.request.role) {
            self.main.method = page_method(&self.at.request.method);
        }
        self.at.request.method = page_method(&self.at.request.method);
        self.at.request.path = path;
        self.at.request.args = args;
        self.at.inside = true;
    }
}

/// An error goes to its page, or is answered by the built-in one.
#[inline(never)]
fn fail(
    alloc: Global,
    ground: &Ground<'_>,
    phases: &mut Phases,
    code: u16,
    vars: &VarTable,
) -> Result<Next, OutOfMemory>
    ensures next { IfOk result (λ next. (patterns : List SetPattern) (bytes : List ℕ)
        → NextIs patterns ground.now
        (λ w. failed phases.old.changes (asked_in phases.old)
        (standing_seen ground.now.site.now phases.old.at) code)
        vars.now bytes phases.new next) }
    ensures changes { IfOk result (λ next. phases.new.changes ≡ phases.old.changes) }
    ensures main { IfOk result (λ next. IsOfMain phases.old.main phases.new.main) }
{
    let level = ground.site.level(phases.at.level);
    let rules = pages_at(ground.site, level.pages);
    let used = phases.error.is_some();
    let handling = Handling {
        used,
        recursive: level.recursive,
        changes: phases.changes,
    };
    let page = page_for(
        alloc,
        rules,
        code,
        handling,
        &phases.main,
        &phases.at.request,
        vars,
    );
    match page {
        Ok(None) => Ok(Next::Answers(Conclusion::Page(code))),
        Ok(Some(PageStep::Inside { path, args, shown })) => {
            phases.go_to_page(code, shown, path, args);
            Ok(Next::Changed(From::Start))
        }
        Ok(Some(PageStep::Named { name, shown })) => {
            phases.close_by(code);
            phases.error = Some(Handled { code, shown });
            phases.at.inside = true;
            Ok(Next::Changed(From::Named(name)))
        }
        Ok(Some(PageStep::Url { code: moved, to })) => {
            phases.close_by(code);
            Ok(Next::Answers(Conclusion::Redirect {
                code: moved,
                to: Some(to),
            }))
        }
        Err(EvalFault::TooLong) => {
            phases.close_by(code);
            Ok(Next::Answers(Conclusion::Page(500)))
        }
        Err(EvalFault::OutOfMemory) => Err(OutOfMemory),
    }
}

/// What becomes of a decision where a change is left.
#[inline(always)]
pub(crate) fn next_of(
    alloc: Global,
    ground: &Ground<'_>,
    phases: &mut Phases,
    decision: Decision,
    vars: &VarTable,
) -> Result<Next, OutOfMemory>
    ensures next { IfOk result (λ next. (patterns : List SetPattern) (bytes : List ℕ)
        → NextIs patterns ground.now
        (λ w. outcome_next w phases.old.changes (asked_in phases.old)
        (standing_seen ground.now.site.now phases.old.at) (decision_seen bytes decision))
        vars.now bytes phases.new next) }
    ensures changes { IfOk result (λ next. phases.new.changes ≡ phases.old.changes) }
    ensures main { IfOk result (λ next. IsOfMain phases.old.main phases.new.main) }
{
    match decision {
        Decision::Text { code, text } => Ok(Next::Answers(Conclusion::Text { code, text })),
        Decision::File { len, date } => Ok(Next::Answers(Conclusion::File { len, date })),
        Decision::Error(code) => Ok(fail(alloc, ground, phases, code, vars)?),
        Decision::Page(code) => Ok(Next::Answers(Conclusion::Page(code))),
        Decision::Redirect { code, to } => Ok(Next::Answers(Conclusion::Redirect { code, to })),
        Decision::Close => Ok(Next::Answers(Conclusion::Close)),
        Decision::Seek => Ok(Next::Changed(From::Find)),
        Decision::Inside { path, args } => {
            phases.at.request.path = path;
            phases.at.request.args = args;
            phases.at.inside = true;
            Ok(Next::Changed(From::Start))
        }
        Decision::Named(name) => {
            phases.at.inside = true;
            Ok(Next::Changed(From::Named(name)))
        }
    }
}
