// A request runs on, and its jobs are answered.
ghost use Rattle.std.specs.Prelude.{◌≡◌, ◌≤◌, ◌<◌, ◌+◌, ◌*◌, not, [], ◌++◌, List, ℕ, Bool, true, length, is_some, IfOk, OnOk, Some, None};
ghost use Rattle.std.specs.Borrow.{Bor};
ghost use Rattle.file_tree.specs.Tree.{Trees, IsFrom, tree_of, is_fitting as fits_job};
ghost use Rattle.file_tree.specs.declared.job.JobAnswer.TheVariants.{Read as BlockRead};
ghost use Rattle.ngx_outside.specs.Stepped.{IsReading};
ghost use Rattle.ngx_pattern.specs.Pattern.{Pattern as SetPattern};
ghost use Rattle.site_model.specs.declared.site.Site.{Site as SiteRow};
ghost use Rattle.request_meaning.specs.Laws.{shipped};
ghost use Rattle.request_meaning.specs.Serving.{World};
ghost use Rattle.reply_out.specs.request_phases.Rounds.{IsGround, world_in};
ghost use Rattle.request_flow.specs.Flows.{waits as waits_for, may_run as can_run, is_sending as sends, going_on, one_rest, flow_rest, flow_fits, flow_left, flow_most, tree_asked, heard_flow, file_length, stage_server, stage_length, stage_opened, HasOpened, IsServedBy, count_asked};
ghost use Rattle.request_flow.specs.Rests.{Follows};
ghost use Rattle.request_flow.specs.Pages.{GoesTo, IfAsks, IfOn, IfPage, AreOpened, IsServed, IsTold, closing_of, tree_of_went};
ghost use Rattle.request_flow.specs.Reached.{FlowReached, OneReached, WentReached};

use crate::blocks::{Sending, to_next_block};
use crate::flow::{Flow, Onward, Stage};
use crate::page::Went;
use crate::slot::put;
use crate::steps::{FileAt, Known, go_on};
use byte_text::{ByteQueue, ByteText, OutOfMemory};
use file_tree::{Ask, Found, JobAnswer, Node};
use reply_out::request_phases::{Ground, Wait, resume};
use reply_out::{InPhases, Workspace};
use std::alloc::Global;
use std::mem::replace;

/// No more bytes than these are placed for a peer.
const PLACED: usize = 98304;

/// The length of what is at a path, where that is a file.
fn length_of(node: Node) -> u64
    ensures { result ≡ file_length node }
{
    match node {
        Node::File { len, date: _ } => len,
        Node::Folder => 0,
        Node::Locked => 0,
        Node::Missing => 0,
    }
}

/// A request that was told what is at the path for which it asked.
#[derive(Drop)]
struct Heard {
    ask: Ask,
    request: Box<InPhases>,
    wait: Wait,
    found: Found,
    /// Where it was kept, as room for what comes of it.
    room: Box<Flow>,
}

/// Goes on with its phases.
fn run_told(
    space: &mut Workspace,
    ground: &Ground<'_>,
    heard: Heard,
    out: &mut ByteQueue,
    closing: bool,
) -> Result<Went, OutOfMemory>
    requires ground { IsGround ground.now }
    requires unsent { out.old ≡ [] }
    ensures goes { (trees : Trees) →
        let w = world_in space.old.patterns ground.now shipped in
        let site = ground.now.site.now in
        IfOk result (λ went. GoesTo w space.old.patterns site trees
        (one_rest w space.old.patterns site (heard_flow heard) trees)
        out.old out.new closing went) }
    ensures reached { let w = world_in space.old.patterns ground.now shipped in
        let site = ground.now.site.now in
        OneReached w space.old.patterns site (heard_flow heard)
        → IfOk result (WentReached w space.old.patterns site) }
    ensures over { IfOk result (λ went. IfOn went (λ o. is_some o.log ≡ not (is_some o.flow))) }
    ensures fits { IfOk result (λ went. IfOn went (λ o. flow_fits o.flow (length out.new) ≡ true)) }
    ensures lowers { IfOk result (λ went. IfOn went (λ o. length out.new
        + flow_left o.flow (length out.new) < flow_most + 2 * heard.request.value.questions + 1)) }
    ensures by { IfOk result (λ went.
        IsServed heard.request.value.server heard.request.value.length went) }
    ensures opened { IfOk result (λ went. AreOpened heard.request.value.opened went) }
    ensures asked { IfOk result (λ went. tree_of_went went ≤ tree_of heard.ask) }
    ensures put { IfOk result (λ went. IfPage went (λ p. out.new ≡ [])) }
    ensures spends { IfOk result (λ went. IfAsks went (λ a. (out.new ≡ [])
        × (a.request.value.questions < heard.request.value.questions))) }
    ensures told { IfOk result (λ went. IfPage went (λ p. IsTold p.page)) }
    ensures closes { IfOk result (λ went. closing ≡ true → closing_of went ≡ true) }
    ensures kept { space.new.patterns ≡ space.old.patterns }
{
    let Heard {
        ask,
        mut request,
        wait,
        found,
        room,
    } = heard;
    let Found { node, text } = found;
    let alloc = space.alloc;
    let inside = &mut *request;
    let (phases, vars) = (&mut inside.phases, &mut inside.vars);
    match resume(alloc, ground, wait, node, &mut space.patterns, phases, vars) {
        Ok(step) => {
            let len = length_of(node);
            let known = Known::Told(FileAt {
                ask,
                len,
                text,
                room,
            });
            Ok(go_on(space, ground, request, step, known, out, closing)?)
        }
        Err(OutOfMemory) => {
            drop(request);
            Err(OutOfMemory)
        }
    }
}

/// Whether a block of its file came.
pub fn is_sending(flow: &Flow) -> bool
    ensures { result ≡ sends flow.now.stage }
{
    match &flow.stage {
        Stage::Asked {
            request: _,
            wait: _,
        } => false,
        Stage::Told {
            request: _,
            wait: _,
            found: _,
        } => false,
        Stage::Reading {
            sending: _,
            left: _,
        } => false,
        Stage::Came {
            sending: _,
            left: _,
            placed: _,
        } => true,
    }
}

/// A block of the file of a request came: as many of its bytes are placed as there is room for. Once
/// all are, the next block is asked, in its place; or the file is sent: its status and its length,
/// and the request is not to go on.
#[tactic(auto, unfolding(crate::specs::Flows::placed_most))]
pub fn sends_on(flow: &mut Box<Flow>, size: usize) -> Option<(u16, u64)>
    requires fits { flow_fits (Some flow.old) size ≡ true }
    requires sends { sends flow.old.value.stage ≡ true }
    requires runs { can_run flow.old.value.stage ≡ true }
    ensures goes { (w : World) (patterns : List SetPattern) (site : SiteRow) (trees : Trees)
        (out : List ℕ) (closing : Bool) → Follows site
        (flow_rest w patterns site (Some flow.old) trees)
        (flow_rest w patterns site (going_on flow.new result) trees) out out closing closing
        result None }
    ensures fits { flow_fits (going_on flow.new result) size ≡ true }
    ensures lowers { flow_left (going_on flow.new result) size
        < flow_left (Some flow.old) size }
    ensures by { (server length : ℕ) → IsServedBy server length (going_on flow.new result) }
    ensures opened { (count : ℕ) → HasOpened count (going_on flow.new result) }
    ensures asked { tree_asked (going_on flow.new result)
        ≤ tree_of flow.old.value.ask }
    ensures reached { (w : World) (patterns : List SetPattern) (site : SiteRow) →
        FlowReached w patterns site (going_on flow.new result) }
{
    let flow = &mut **flow;
    let Stage::Came {
        sending,
        left,
        placed,
    } = &flow.stage
    else {
        unreachable!();
    };
    let (sending, left, placed) = (*sending, *left, *placed);
    let room = PLACED - placed;
    let placed = placed + (size - placed).min(room);
    if placed < size {
        put(
            &mut flow.stage,
            Stage::Came {
                sending,
                left,
                placed,
            },
        );
        return None;
    }
    if left == 0 {
        return Some((sending.status, sending.len));
    }
    to_next_block(&mut flow.ask, sending.len, left);
    put(&mut flow.stage, Stage::Reading { sending, left });
    None
}

/// What became of a request in its place: it goes on, or is over where it is logged.
fn sent_on(flow: Box<Flow>, closing: bool, log: Option<(u16, u64)>) -> Onward
    ensures { result ≡ record {
      flow = going_on flow log;
      closing = closing;
      log = log;
      level = None;
    } }
{
    let flow = match log {
        Some(_) => None,
        None => Some(flow),
    };
    Onward {
        flow,
        closing,
        log,
        level: None,
    }
}

/// A request that was taken out of its box, and the box.
struct Emptied {
    flow: Flow,
    room: Box<Flow>,
}

/// Takes a request out of its box, which is kept as room for what comes of it.
fn empty(alloc: Global, flow: Box<Flow>) -> Emptied
    ensures { result.flow ≡ flow.value }
{
    let mut room = flow;
    let nothing = Flow {
        ask: Ask::Stat {
            path: ByteText::new(alloc),
            of: 0,
        },
        stage: Stage::Reading {
            sending: Sending { status: 0, len: 0 },
            left: 0,
        },
    };
    let flow = replace(&mut *room, nothing);
    Emptied { flow, room }
}

/// Runs a request on, to its next job or its end, or to its page.
///
/// # Errors
/// `OutOfMemory`; the request is then not to be answered.
pub fn run_on(
    space: &mut Workspace,
    ground: &Ground<'_>,
    flow: Box<Flow>,
    out: &mut ByteQueue,
    closing: bool,
) -> Result<Went, OutOfMemory>
    requires ground { IsGround ground.now }
    requires fits { flow_fits (Some flow) (length out.old) ≡ true }
    requires runs { can_run flow.value.stage ≡ true }
    ensures goes { (trees : Trees) →
        let w = world_in space.old.patterns ground.now shipped in
        let site = ground.now.site.now in
        IfOk result (λ went. GoesTo w space.old.patterns site trees
        (flow_rest w space.old.patterns site (Some flow) trees) out.old out.new closing went) }
    ensures reached { let w = world_in space.old.patterns ground.now shipped in
        let site = ground.now.site.now in
        FlowReached w space.old.patterns site (Some flow)
        → IfOk result (WentReached w space.old.patterns site) }
    ensures over { IfOk result (λ went. IfOn went (λ o. is_some o.log ≡ not (is_some o.flow))) }
    ensures fits { IfOk result (λ went. IfOn went (λ o. flow_fits o.flow (length out.new) ≡ true)) }
    ensures lowers { IfOk result (λ went. IfOn went (λ o.
        length out.new + flow_left o.flow (length out.new)
        < length out.old + flow_left (Some flow) (length out.old))) }
    ensures by { IfOk result (IsServed (stage_server flow.value.stage)
        (stage_length flow.value.stage)) }
    ensures opened { IfOk result (AreOpened (stage_opened flow.value.stage)) }
    ensures asked { IfOk result (λ went. tree_of_went went ≤ tree_of flow.value.ask) }
    ensures put { IfOk result (λ went. IfPage went (λ p. out.new ≡ [])) }
    ensures spends { IfOk result (λ went. IfAsks went (λ a. (out.new ≡ [])
        × (flow_most + 2 * a.request.value.questions + 2
        < length out.old + flow_left (Some flow) (length out.old)))) }
    ensures told { IfOk result (λ went. IfPage went (λ p. IsTold p.page)) }
    ensures closes { IfOk result (λ went. closing ≡ true → closing_of went ≡ true) }
    ensures kept { space.new.patterns ≡ space.old.patterns }
{
    if is_sending(&*flow) {
        let mut flow = flow;
        let log = sends_on(&mut flow, out.len());
        return Ok(Went::On(sent_on(flow, closing, log)));
    }
    let Emptied { flow, room } = empty(space.alloc, flow);
    let Flow { ask, stage } = flow;
    match stage {
        Stage::Told {
            request,
            wait,
            found,
        } => {
            let heard = Heard {
                ask,
                request,
                wait,
                found,
                room,
            };
            Ok(run_told(space, ground, heard, out, closing)?)
        }
        Stage::Came {
            sending: _,
            left: _,
            placed: _,
        } => unreachable!(),
        Stage::Asked {
            request: _,
            wait: _,
        } => unreachable!(),
        Stage::Reading {
            sending: _,
            left: _,
        } => unreachable!(),
    }
}

/// Takes a stage out, and leaves one in which nothing is left.
fn take_stage(stage: &mut Stage) -> Stage
    ensures { result ≡ stage.old }
{
    replace(
        stage,
        Stage::Reading {
            sending: Sending { status: 0, len: 0 },
            left: 0,
        },
    )
}

/// How many bytes the job of a request asks for; none where it asks what is at a path.
fn count_of(ask: &Ask) -> u64
    ensures { result ≡ count_asked ask.now }
{
    match ask {
        Ask::Read {
            path: _,
            start: _,
            count,
            of: _,
        } => *count,
        Ask::Stat { path: _, of: _ } => 0,
    }
}

/// The block that its job asks for was added to the bytes for the peer, of which there were `placed`.
#[tactic(auto, unfolding(crate::specs::Flows::placed_most, crate::specs::Flows::block_most, crate::specs::Flows::kept_most))]
pub fn came(flow: &mut Box<Flow>, placed: usize)
    requires fits { flow_fits (Some flow.old) placed ≡ true }
    requires waits { waits_for flow.old.value.stage ≡ true }
    requires reads { IsReading (Some flow.old.value.ask) }
    ensures goes { (w : World) (patterns : List SetPattern) (site : SiteRow) (trees : Trees)
        (closing : Bool) (block : Bor (List ℕ)) (from to : List ℕ) → length from ≡ placed →
        to ≡ from ++ block.now → length block.now ≡ count_asked flow.old.value.ask →
        IsFrom trees flow.old.value.ask (BlockRead block) →
        Follows site (flow_rest w patterns site (Some flow.old) trees)
        (flow_rest w patterns site (Some flow.new) trees) from to closing closing None None }
    ensures fits { flow_fits (Some flow.new) (placed + count_asked flow.old.value.ask) ≡ true }
    ensures lowers { placed + count_asked flow.old.value.ask + flow_left (Some flow.new)
        (placed + count_asked flow.old.value.ask) < placed + flow_left (Some flow.old) placed }
    ensures by { IsServedBy (stage_server flow.old.value.stage)
        (stage_length flow.old.value.stage) (Some flow.new) }
    ensures opened { HasOpened (stage_opened flow.old.value.stage) (Some flow.new) }
    ensures asked { tree_of flow.new.value.ask ≡ tree_of flow.old.value.ask }
    ensures reached { (w : World) (patterns : List SetPattern) (site : SiteRow) →
        FlowReached w patterns site (Some flow.old)
        → FlowReached w patterns site (Some flow.new) }
{
    let flow = &mut **flow;
    let Stage::Reading { sending, left } = &flow.stage else {
        unreachable!();
    };
    let (sending, left) = (*sending, *left);
    let left = left - count_of(&flow.ask);
    put(
        &mut flow.stage,
        Stage::Came {
            sending,
            left,
            placed,
        },
    );
}

/// Its job is answered, in its place: what is at its path is told, or a block of its file is put
/// after the bytes for the peer, not yet placed.
///
/// # Errors
/// `OutOfMemory` where a block doesn't fit; the request is then not to be answered.
#[tactic(auto, unfolding(crate::specs::Flows::placed_most, crate::specs::Flows::block_most, crate::specs::Flows::kept_most))]
pub fn answered(
    alloc: Global,
    flow: &mut Box<Flow>,
    out: &mut ByteQueue,
    answer: JobAnswer<'_>,
) -> Result<(), OutOfMemory>
    requires fits { flow_fits (Some flow.old) (length out.old) ≡ true }
    requires waits { waits_for flow.old.value.stage ≡ true }
    requires fitting { fits_job flow.old.value.ask answer ≡ true }
    ensures goes { (w : World) (patterns : List SetPattern) (site : SiteRow) (trees : Trees)
        (closing : Bool) → IsFrom trees flow.old.value.ask answer.entry →
        OnOk result (Follows site (flow_rest w patterns site (Some flow.old) trees)
        (flow_rest w patterns site (Some flow.new) trees) out.old out.new closing closing None None) }
    ensures fits { OnOk result (flow_fits (Some flow.new) (length out.new) ≡ true) }
    ensures lowers { OnOk result (length out.new + flow_left (Some flow.new) (length out.new)
        < length out.old + flow_left (Some flow.old) (length out.old)) }
    ensures by { OnOk result (IsServedBy (stage_server flow.old.value.stage)
        (stage_length flow.old.value.stage) (Some flow.new)) }
    ensures opened { OnOk result (HasOpened (stage_opened flow.old.value.stage) (Some flow.new)) }
    ensures asked { OnOk result (tree_of flow.new.value.ask ≡ tree_of flow.old.value.ask) }
    ensures reached { (w : World) (patterns : List SetPattern) (site : SiteRow) →
        FlowReached w patterns site (Some flow.old)
        → OnOk result (FlowReached w patterns site (Some flow.new)) }
{
    let flow = &mut **flow;
    match (take_stage(&mut flow.stage), answer) {
        (Stage::Asked { request, wait }, JobAnswer::Stat(node, text)) => {
            let found = Found::new(alloc, node, text)?;
            put(
                &mut flow.stage,
                Stage::Told {
                    request,
                    wait,
                    found,
                },
            );
            Ok(())
        }
        (Stage::Reading { sending, left }, JobAnswer::Read(bytes)) => {
            let placed = out.len();
            out.append(bytes)?;
            put(
                &mut flow.stage,
                Stage::Came {
                    sending,
                    left: left - bytes.len() as u64,
                    placed,
                },
            );
            Ok(())
        }
        _ => unreachable!(),
    }
}
