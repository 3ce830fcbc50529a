// A main request and the subrequest that it asked run on.
ghost use Rattle.std.specs.Prelude.{◌≡◌, ◌+◌, ◌*◌, ◌<◌, ◌≤◌, ◌-◌, not, ℕ, List, [], true, length, is_some, IfOk, OnOk};
ghost use Rattle.file_tree.specs.Tree.{IsFrom, Trees, is_fitting};
ghost use Rattle.ngx_pattern.specs.Pattern.{Pattern as SetPattern};
ghost use Rattle.request_meaning.specs.Laws.{shipped};
ghost use Rattle.request_meaning.specs.Serving.{World};
ghost use Rattle.node_turn.specs.request_phases.Rounds.{IsGround, world_in};
ghost use Rattle.site_model.specs.declared.site.Site.{Site as SiteRow};
ghost use Rattle.request_flow.specs.Flows.{flow_fits, flow_left, flow_most};
ghost use Rattle.request_flow.specs.Pages.{AreOpened, IfAsks, IfOn, IfPage, IsServed, IsTold, closing_of, tree_of_went};
ghost use Rattle.acts.specs.Act.{settled};
ghost use Rattle.acts.specs.Vars.{Vars};
ghost use Rattle.request_meaning.specs.Serving.{Prepared, Serving};
ghost use Rattle.node_turn.specs.rewrite_code.Places.{standing_seen};
ghost use Rattle.node_turn.specs.request_phases.Rounds.{asked_in, phases_left, prepared_as};
ghost use Rattle.node_turn.specs.request_reply.Replies.{FitsFile};
ghost use Rattle.request_flow.specs.Flows.{file_length};
ghost use Rattle.request_flow.specs.Sents.{with_length as told_length};
ghost use Rattle.access_flow.specs.Reached.{IsInnerAt};
ghost use Rattle.access_flow.specs.Flows.{by_answer, inner_left, IfRests, IfWent, IsBare, IsOfTree, IsSameRequest, RunsTo, access_left, steps_left, waits as waits_for};
ghost use Rattle.access_flow.specs.Reached.{AccessReached, RanReached};

use crate::flow::{AccessFlow, Stage};
use crate::slot::put;
use byte_text::{ByteQueue, OutOfMemory};
use file_tree::{Ask, JobAnswer, Node};
use node_turn::lend;
use node_turn::request_phases::{Conclusion, Ground, Phases, Step, begin, resume};
use node_turn::request_reply::{Body, reply_of};
use request_flow::reply_out::Workspace;
use request_flow::{Replied, Went, admits};
use site_model::Site;
use std::alloc::Global;
use std::mem::replace;

/// Takes a stage out, and leaves the first one.
fn take_stage(stage: &mut Stage) -> Stage
    ensures { result ≡ stage.old }
{
    replace(stage, Stage::Begins)
}

/// What became of it.
#[derive(Drop)]
pub enum Ran {
    /// The subrequest goes on.
    Rests(Box<AccessFlow>),
    /// The main request went on.
    Went(Went),
}

/// An answer with a file has the length that was told of it.
fn with_length(len: u64, outcome: Conclusion) -> Conclusion
    ensures { result ≡ told_length len outcome }
{
    match outcome {
        Conclusion::File { len: _, date } => Conclusion::File { len, date },
        other => other,
    }
}

/// The status of what the subrequest answers. It has no body, by its role: there is no room for one.
fn status_of(
    alloc: Global,
    site: &Site,
    inner: &Phases,
    outcome: Conclusion,
) -> Result<u16, OutOfMemory>
    ensures { IfOk result (λ status. (w : World) (bytes : List ℕ) → w.members ≡ shipped
        → FitsFile outcome bytes → IsBare status (prepared_as w (asked_in inner.now)
        (standing_seen site.now inner.now.at) bytes outcome)) }
{
    let reply = reply_of(alloc, site, inner, outcome)?;
    match reply.body {
        Body::Nothing => Ok(reply.status),
        _ => Err(OutOfMemory),
    }
}

/// The subrequest goes on by a step of its phases, where a file that was told last has this length.
fn goes_on(
    alloc: Global,
    site: &Site,
    flow: &mut AccessFlow,
    step: Step,
    len: u64,
) -> Result<(), OutOfMemory>
    ensures left { (w : World) (patterns : List SetPattern) (trees : Trees) (bytes : List ℕ) →
        w.members ≡ shipped → length bytes ≡ len
        → OnOk result (access_left w patterns site.now trees flow.new
        ≡ inner_left w site.now (trees flow.old.of) flow.old
        (phases_left w patterns site.now bytes flow.old.inner step)) }
    ensures reached { (w : World) (patterns : List SetPattern) (m : Serving Prepared) (old : Vars)
        (bytes : List ℕ) → w.members ≡ shipped → length bytes ≡ len
        → IsInnerAt w (by_answer w site.now flow.old) m old
        → settled m old ≡ (
          phases_left w patterns site.now bytes flow.old.inner step,
          flow.old.request.value.vars,
        ) → OnOk result (AccessReached w patterns site.now flow.new) }
    ensures same { OnOk result (IsSameRequest flow.old flow.new) }
    ensures tree { IsOfTree flow.old → OnOk result (IsOfTree flow.new) }
    ensures lowers { OnOk result (steps_left flow.new
        ≤ flow_most + 2 * flow.old.request.value.questions) }
{
    if flow.request.questions == 0 {
        return Err(OutOfMemory);
    }
    flow.request.questions -= 1;
    match step {
        Step::Asks { wait, path } => {
            put(&mut flow.ask, Ask::Stat { path, of: flow.of });
            put(&mut flow.stage, Stage::Asked(wait));
            Ok(())
        }
        Step::Calls(_) => Err(OutOfMemory),
        Step::Answers(outcome) => {
            let outcome = with_length(len, outcome);
            let status = status_of(alloc, site, &flow.inner, outcome)?;
            put(&mut flow.stage, Stage::Replied(status));
            Ok(())
        }
    }
}

/// The length of what is at a path, where that is a file.
fn length_of(node: Node) -> u64
    ensures { result ≡ file_length node }
{
    match node {
        Node::File { len, date: _ } => len,
        Node::Folder => 0,
        Node::Locked => 0,
        Node::Missing => 0,
    }
}

/// Runs the one of the two on that can run: the subrequest to its next question or its answer, or the main request.
///
/// # Errors
/// `OutOfMemory`; the request is then not to be answered.
pub fn run_on(
    space: &mut Workspace,
    ground: &Ground<'_>,
    flow: Box<AccessFlow>,
    out: &mut ByteQueue,
    closing: bool,
) -> Result<Ran, OutOfMemory>
    requires ground { IsGround ground.now }
    requires unsent { out.old ≡ [] }
    requires tree { IsOfTree flow.value }
    requires runs { not (waits_for flow.value.stage) ≡ true }
    ensures goes { (trees : Trees) →
        let w = world_in space.old.patterns ground.now shipped in
        let site = ground.now.site.now in
        IfOk result (λ ran. RunsTo w space.old.patterns site trees
        (access_left w space.old.patterns site trees flow.value) out.old out.new closing ran) }
    ensures reached { let w = world_in space.old.patterns ground.now shipped in
        let site = ground.now.site.now in
        AccessReached w space.old.patterns site flow.value
        → IfOk result (RanReached w space.old.patterns site) }
    ensures rests { IfOk result (λ ran. IfRests ran (λ f. IsSameRequest flow.value f.value
        × IsOfTree f.value × (steps_left f.value < steps_left flow.value))) }
    ensures over { IfOk result (λ ran. IfWent ran (λ went. IfOn went (λ o.
        is_some o.log ≡ not (is_some o.flow)))) }
    ensures fits { IfOk result (λ ran. IfWent ran (λ went. IfOn went (λ o.
        flow_fits o.flow (length out.new) ≡ true))) }
    ensures lowers { IfOk result (λ ran. IfWent ran (λ went. IfOn went (λ o.
        length out.new + flow_left o.flow (length out.new) < steps_left flow.value))) }
    ensures spends { IfOk result (λ ran. IfWent ran (λ went. IfAsks went (λ a. (out.new ≡ [])
        × (flow_most + 2 * a.request.value.questions + 2 < steps_left flow.value)))) }
    ensures by { IfOk result (λ ran. IfWent ran (IsServed flow.value.request.value.server
        flow.value.request.value.length)) }
    ensures opened { IfOk result (λ ran. IfWent ran
        (AreOpened flow.value.request.value.opened)) }
    ensures asked { IfOk result (λ ran. IfWent ran (λ went.
        tree_of_went went ≤ flow.value.of)) }
    ensures put { IfOk result (λ ran. IfWent ran (λ went. IfPage went (λ p. out.new ≡ []))) }
    ensures told { IfOk result (λ ran. IfWent ran (λ went. IfPage went (λ p. IsTold p.page))) }
    ensures closes { IfOk result (λ ran. IfWent ran (λ went.
        closing ≡ true → closing_of went ≡ true)) }
    ensures kept { space.new.patterns ≡ space.old.patterns }
{
    let alloc = space.alloc;
    let mut flow = flow;
    let inside = &mut *flow;
    match take_stage(&mut inside.stage) {
        Stage::Begins => {
            let step = begin(
                alloc,
                ground,
                &mut space.patterns,
                &mut inside.inner,
                &mut inside.request.vars,
            )?;
            goes_on(alloc, ground.site, inside, step, 0)?;
            Ok(Ran::Rests(flow))
        }
        Stage::Told { wait, node } => {
            let step = resume(
                alloc,
                ground,
                wait,
                node,
                &mut space.patterns,
                &mut inside.inner,
                &mut inside.request.vars,
            )?;
            goes_on(alloc, ground.site, inside, step, length_of(node))?;
            Ok(Ran::Rests(flow))
        }
        Stage::Replied(status) => {
            let AccessFlow {
                request,
                inner,
                ask: _,
                of,
                stage: _,
            } = Box::into_inner(flow);
            let (mut request, mut inner) = (request, inner);
            let inside = &mut *request;
            lend(&mut inside.phases.main, &mut inner);
            let replied = Replied {
                status,
                request: inner.at.request,
                of,
            };
            Ok(Ran::Went(admits(space, ground, request, replied, out, closing)?))
        }
        Stage::Asked(_) => unreachable!(),
    }
}

/// The subrequest's question is answered.
pub fn answered(flow: &mut AccessFlow, answer: JobAnswer<'_>)
    requires waits { waits_for flow.old.stage ≡ true }
    requires fitting { is_fitting flow.old.ask answer ≡ true }
    requires tree { IsOfTree flow.old }
    ensures goes { (w : World) (patterns : List SetPattern) (site : SiteRow) (trees : Trees) →
        IsFrom trees flow.old.ask answer.entry → access_left w patterns site trees flow.new
        ≡ access_left w patterns site trees flow.old }
    ensures reached { (w : World) (patterns : List SetPattern) (site : SiteRow) →
        AccessReached w patterns site flow.old → AccessReached w patterns site flow.new }
    ensures same { IsSameRequest flow.old flow.new }
    ensures tree { IsOfTree flow.new }
    ensures lowers { steps_left flow.new < steps_left flow.old }
{
    match take_stage(&mut flow.stage) {
        Stage::Asked(wait) => match answer {
            JobAnswer::Stat(node, _) => put(&mut flow.stage, Stage::Told { wait, node }),
            JobAnswer::Read(_) => unreachable!(),
        },
        Stage::Begins => unreachable!(),
        Stage::Told { wait: _, node: _ } => unreachable!(),
        Stage::Replied(_) => unreachable!(),
    }
}
