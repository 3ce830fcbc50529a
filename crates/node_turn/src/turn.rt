// A node goes on by itself.
ghost use Rattle.std.specs.Prelude.{◌≡◌, ◌≤◌, ◌+◌, ◌==◌, ℕ, List, IfOk, OnOk, true, false, drop, take, length};
ghost use Rattle.acts.specs.Vars.{Vars};
ghost use Rattle.file_tree.specs.Tree.{Trees, tree_of};
ghost use Rattle.ngx_pattern.specs.Pattern.{Pattern as SetPattern};
ghost use Rattle.page_body.specs.ngx_variables.declared.request.Main.{Main as MainView};
ghost use Rattle.postpone_filter.specs.Row.{Row, appended, is_open, room};
ghost use Rattle.request_reply.specs.request_meaning.Laws.{shipped};
ghost use Rattle.request_reply.specs.request_meaning.Serving.{Answer, Serving, World};
ghost use Rattle.request_reply.specs.request_phases.Rounds.{IsGround, world_in};
ghost use Rattle.request_reply.specs.request_phases.declared.ground.Ground.{Ground as GroundView};
ghost use Rattle.request_reply.specs.request_phases.declared.state.Phases.{Phases as PhasesView};
ghost use Rattle.page_body.specs.site_model.declared.site.Site.{Site as SiteRow};
ghost use Rattle.node_turn.specs.Stages.{IsSameNode, ask_or, block_of, hand_at, withheld_more, is_asking, is_placing, is_reading, is_serving, is_turning, item_asked, may_fetch, main_of, node_act, node_heard, start_or, can_run};
ghost use Rattle.node_turn.specs.Nodes.{answer_seen, asked_path, captured_act, hand, later, lent, placed_act, served_act, stage_act, with_main};
ghost use Rattle.node_turn.specs.Served.{ServesTo, WaitsAt};
ghost use Rattle.node_turn.specs.Taken.{TakesTo, WaitsBy};
ghost use Rattle.node_turn.specs.Turns.{PlacesAs, TurnsTo, Works};
ghost use Rattle.node_turn.specs.declared.node.Stage.TheVariants.{Places as PlacesView, Reads as ReadsView};

use crate::lending::lend_method;
use crate::node::{Body, Capture, Node, Place, Stage};
use crate::page::{Served, hears, serves};
use crate::phase::{Footing, Told, Turned, begins, resumes, scene_of};
use crate::slot::{fill, put, take};
use byte_text::{ByteText, OutOfMemory};
use file_tree::Ask;
use ngx_pattern::PatternSet;
use page_body::ngx_variables::{Main, VarTable};
use page_body::ssi_exec::Child;
use page_body::ssi_values::Table;
use postpone_filter::Order;
use request_reply::request_phases::{Ground, Phases};
use std::alloc::Global;

/// What phases came to is the node's, which asks the files of the tree with this number.
fn put_turned(node: &mut Node, turned: Turned, of: u64)
    ensures { node.new ≡ record node.old {
      stage = turned.stage;
      ask = ask_or turned.path of node.old.ask;
      start = start_or turned.path node.old.start;
    } }
{
    let Turned { stage, path } = turned;
    fill(&mut node.stage, stage);
    if let Some(path) = path {
        put(&mut node.ask, Ask::Stat { path, of });
        node.start = 0;
    }
}

/// Takes the stage of a node out.
fn stage_of(alloc: Global, node: &mut Node) -> Stage
    ensures stage { result ≡ node.old.stage }
    ensures node { node.new ≡ record node.old { stage = node.new.stage } }
{
    take(&mut node.stage, Stage::Begins(Table::new(alloc)))
}

/// A node goes on with its phases, up to a question to the files, of the tree with the number `of`,
/// or to its body.
///
/// # Errors
/// `OutOfMemory`; the node is then not to go on.
pub fn turns(
    alloc: Global,
    ground: &Ground<'_>,
    patterns: &mut PatternSet,
    main: &mut Main,
    vars: &mut VarTable,
    node: &mut Node,
    of: u64,
) -> Result<(), OutOfMemory>
    requires ground { IsGround ground.now }
    requires turning { is_turning node.old.stage ≡ true }
    ensures acts { OnOk result ((text : List ℕ) →
        let w = world_in patterns.old ground.now shipped in let site = ground.now.site.now in
        TurnsTo vars.old vars.new (node_act w patterns.old site main.old node.old text)
        (node_act w patterns.old site main.old node.new text)) }
    ensures node { OnOk result (IsSameNode node.old node.new) }
    ensures place { OnOk result (node.new.place ≡ node.old.place) }
    ensures file { OnOk result (is_asking node.new.stage ≡ false →
        (node.new.ask ≡ node.old.ask) × (node.new.start ≡ node.old.start)) }
    ensures tree { OnOk result (is_asking node.new.stage ≡ true → tree_of node.new.ask ≡ of) }
    ensures main { OnOk result (main.new ≡ main.old) }
    ensures kept { patterns.new ≡ patterns.old }
{
    let footing = Footing {
        ground,
        left: node.left,
    };
    match stage_of(alloc, node) {
        Stage::Begins(ssi) => {
            let phases = &mut node.phases;
            let turned = begins(alloc, footing, patterns, main, vars, phases, ssi)?;
            put_turned(node, turned, of);
            Ok(())
        }
        Stage::Told { wait, file, ssi } => {
            let phases = &mut node.phases;
            let told = Told { wait, file, ssi };
            let turned = resumes(alloc, footing, patterns, main, vars, phases, told)?;
            put_turned(node, turned, of);
            Ok(())
        }
        _ => unreachable!(),
    }
}

/// How many bytes of a node were placed, and whether all were that were at hand.
#[derive(Clone, Copy)]
pub struct Placed {
    pub count: usize,
    pub all: bool,
}

/// How many bytes of a body are placed once this many more are.
fn placed_after(body: &Body, count: usize) -> usize
    requires { body.now.from + count ≤ length body.now.bytes }
    ensures { result ≡ body.now.from + count }
{
    let left = body.bytes.len() - body.from - count;
    body.bytes.len() - left
}

/// A body of which this many more bytes were placed.
fn advanced(body: Box<Body>, count: usize) -> Box<Body>
    requires { body.value.from + count ≤ length body.value.bytes }
    ensures from { result.value.from ≡ body.value.from + count }
    ensures bytes { result.value.bytes ≡ body.value.bytes }
    ensures others { (result.value.answered ≡ body.value.answered)
        × (result.value.source ≡ body.value.source) × (result.value.page ≡ body.value.page) }
{
    let mut body = body;
    body.from = placed_after(&body, count);
    body
}

/// Whether nothing more comes of a body of which no byte is at hand.
fn is_all(body: &Body) -> bool
    ensures page { result ≡ true → body.now.page ≡ None }
    ensures text { result ≡ true → length body.now.source.text ≡ 0 }
    ensures left { result ≡ true → body.now.source.left ≡ 0 }
{
    match &body.page {
        Some(_) => false,
        None => { body.source.text.is_empty() && body.source.left == 0 && !body.source.unread }
    }
}

/// Whether a body of which no byte is at hand needs a block of its file first: one that is sent as it is, or one whose page
/// has none yet. A page begins with its file's first block, what is added before it too.
fn wants_block(body: &Body) -> bool {
    match &body.page {
        Some(_) => body.source.unread,
        None => !is_all(body),
    }
}

/// Whether all bytes of a body were placed that were at hand.
fn is_placed(body: &Body) -> bool
    ensures { result ≡ (body.now.from == length body.now.bytes) }
{
    body.from == body.bytes.len()
}

/// Whether the next that a node does is to ask for a block of its file.
pub fn needs_block(stage: &Stage) -> bool
    ensures { result ≡ true → may_fetch stage.now ≡ true }
{
    match stage {
        Stage::Begins(_) => false,
        Stage::Asks { wait: _, ssi: _ } => false,
        Stage::Told {
            wait: _,
            file: _,
            ssi: _,
        } => false,
        Stage::Places(body) => is_placed(body) && wants_block(body),
        Stage::Serves(body) => wants_block(body),
        Stage::Reads(_) => false,
        Stage::Captures(_) => false,
        Stage::Ends(_) => false,
    }
}

/// How far a node is with a body of which bytes were placed.
fn stage_after(body: Box<Body>) -> Stage
    ensures works { (w : World) (patterns : List SetPattern) (site : SiteRow) (p : PhasesView)
        (levels : ℕ) (path text : List ℕ) (vars : Vars) → Works vars
        (placed_act w site p levels (answer_seen site p body.value.answered) body.value.page
        (hand body.value) (later body.value text))
        (stage_act w patterns site p levels path result text) }
    ensures waits { (body.value.from == length body.value.bytes) ≡ false
        → result ≡ PlacesView body }
{
    if body.from == body.bytes.len() {
        if is_all(&body) {
            return Stage::Ends(body);
        }
        return Stage::Serves(body);
    }
    Stage::Places(body)
}

/// The bytes of a body that are at hand are placed, as many as its node's buffer has room for: how many. They aren't copied
/// where the node had none that wait.
#[inline(always)]
fn place_bytes(
    alloc: Global,
    order: &mut Order,
    id: u32,
    body: Box<Body>,
) -> Result<(Box<Body>, usize), OutOfMemory>
    ensures row { IfOk result (λ placed. order.new
        ≡ appended id (take placed.1 (hand body.value)) order.old) }
    ensures opened { OnOk result ((j : ℕ) →
        is_open j order.new.pieces ≡ is_open j order.old.pieces) }
    ensures hand { IfOk result (λ placed. hand placed.0.value
        ≡ drop placed.1 (hand body.value)) }
    ensures others { IfOk result (λ placed. (placed.0.value.answered ≡ body.value.answered)
        × (placed.0.value.source ≡ body.value.source)
        × (placed.0.value.page ≡ body.value.page)) }
{
    let mut body = body;
    if body.from == 0 {
        let text = take(&mut body.bytes, ByteText::new(alloc));
        let count = text.len();
        match order.take_over(id, text) {
            None => return Ok((body, count)),
            Some(text) => put(&mut body.bytes, text),
        }
    }
    let count = order.append(id, &body.bytes.as_slice()[body.from..])?;
    Ok((advanced(body, count), count))
}

/// Bytes of a node are placed, as many as its buffer has room for: how many, and whether all were
/// that were at hand.
///
/// # Errors
/// `OutOfMemory`, where the buffer can't grow; the node is then not to go on.
#[inline(always)]
pub fn places(
    alloc: Global,
    order: &mut Order,
    id: u32,
    node: &mut Node,
) -> Result<Placed, OutOfMemory>
    requires { is_placing node.old.stage ≡ true }
    ensures row { IfOk result (λ placed. order.new
        ≡ appended id (take placed.count (hand_at node.old.stage)) order.old) }
    ensures opened { OnOk result ((j : ℕ) →
        is_open j order.new.pieces ≡ is_open j order.old.pieces) }
    ensures acts { IfOk result (λ placed. (w : World) (patterns : List SetPattern)
        (site : SiteRow) (main : MainView) (text : List ℕ) →
        PlacesAs (take placed.count (hand_at node.old.stage))
        (node_act w patterns site main node.old text)
        (node_act w patterns site main node.new text)) }
    ensures node { OnOk result (IsSameNode node.old node.new) }
    ensures file { OnOk result
        ((node.new.ask ≡ node.old.ask) × (node.new.start ≡ node.old.start)) }
    ensures place { OnOk result (node.new.place ≡ node.old.place) }
    ensures rests { IfOk result (λ placed. (row : Row) (at : ℕ) → placed.all ≡ false
        → room at row.pieces ≡ 0 → can_run row at node.new ≡ false) }
{
    match stage_of(alloc, node) {
        Stage::Places(body) => {
            let (body, count) = place_bytes(alloc, order, id, body)?;
            let all = body.from == body.bytes.len();
            fill(&mut node.stage, stage_after(body));
            Ok(Placed { count, all })
        }
        _ => unreachable!(),
    }
}

/// More bytes of a node came that are withheld.
///
/// # Errors
/// `OutOfMemory`, where there is no room for those that are kept.
pub fn withhold(place: &mut Place, bytes: &[u8]) -> Result<(), OutOfMemory>
    ensures { OnOk result (place.new ≡ withheld_more bytes.now place.old) }
{
    match place {
        Place::Row => Ok(()),
        Place::Stub { stub: _, text } => {
            text.extend(bytes)?;
            Ok(())
        }
        Place::Gathers { stub: _, text } => {
            text.extend(bytes)?;
            Ok(())
        }
        Place::Captured { stub: _, text } => {
            text.extend(bytes)?;
            Ok(())
        }
    }
}

/// The bytes that are at hand are withheld, all of them: it isn't known yet whether they are shown.
///
/// # Errors
/// `OutOfMemory`, where there is no room for those that are kept; the node is then not to go on.
pub fn withholds(alloc: Global, node: &mut Node) -> Result<(), OutOfMemory>
    requires { is_placing node.old.stage ≡ true }
    ensures acts { OnOk result ((w : World) (patterns : List SetPattern) (site : SiteRow)
        (main : MainView) (text : List ℕ) → PlacesAs (hand_at node.old.stage)
        (node_act w patterns site main node.old text)
        (node_act w patterns site main node.new text)) }
    ensures place { OnOk result (node.new.place
        ≡ withheld_more (hand_at node.old.stage) node.old.place) }
    ensures node { OnOk result (IsSameNode node.old node.new) }
    ensures file { OnOk result
        ((node.new.ask ≡ node.old.ask) × (node.new.start ≡ node.old.start)) }
{
    match stage_of(alloc, node) {
        Stage::Places(body) => {
            let count = body.bytes.len() - body.from;
            withhold(&mut node.place, &body.bytes.as_slice()[body.from..])?;
            let body = advanced(body, count);
            fill(&mut node.stage, stage_after(body));
            Ok(())
        }
        _ => unreachable!(),
    }
}

/// What a node comes to where the next part of its page is taken up.
#[derive(Drop)]
pub enum Turn {
    /// It goes on, or waits for a block of its file.
    On,
    /// The body of a subrequest comes here, and it goes on.
    Opens(Child),
    /// It waits for the body of a subrequest.
    Asks(Child),
}

/// No more bytes of a file are asked at once.
const BLOCK: u64 = 16384;

/// The job that asks for the next block of the file that a job was about, of which this many bytes
/// are left.
#[tactic(auto, unfolding(crate::specs::Stages::block_most))]
fn next_block(ask: Ask, start: u64, left: u64) -> Ask
    ensures { result ≡ block_of ask start left }
{
    let count = left.min(BLOCK);
    match ask {
        Ask::Stat { path, of } => Ask::Read {
            path,
            start,
            count,
            of,
        },
        Ask::Read {
            path,
            start: _,
            count: _,
            of,
        } => Ask::Read {
            path,
            start,
            count,
            of,
        },
    }
}

/// A node asks for the next block of its file.
fn put_block(alloc: Global, node: &mut Node, body: Box<Body>)
    ensures { node.new ≡ record node.old {
      stage = ReadsView body;
      ask = block_of node.old.ask node.old.start body.value.source.left;
    } }
{
    let none = Ask::Stat {
        path: ByteText::new(alloc),
        of: 0,
    };
    let ask = next_block(take(&mut node.ask, none), node.start, body.source.left);
    put(&mut node.ask, ask);
    fill(&mut node.stage, Stage::Reads(body));
}

/// The next part of the page of a request in its phases, whose main request is this one.
fn served(
    alloc: Global,
    footing: Footing<'_>,
    main: &Main,
    phases: &Phases,
    vars: &VarTable,
    stage: &mut Stage,
    body: Box<Body>,
) -> Result<Served, OutOfMemory>
    ensures acts { IfOk result (λ served. (patterns : List SetPattern) (path file : List ℕ) →
        let p = with_main main.now phases.now in let g = footing.entry.ground.now in
        let left = footing.entry.left in
        ServesTo g p left patterns path file vars.now
        (served_act (world_in patterns g shipped) g.site.now p left
        (answer_seen g.site.now p body.value.answered) body.value.page
        (later body.value file)) stage.new served) }
    ensures waits { IfOk result (λ served. WaitsAt served stage.new) }
{
    let Footing { ground, left } = footing;
    let scene = scene_of(ground, main, phases, left);
    Ok(serves(alloc, &scene, vars, stage, body)?)
}

/// The page of a request in its phases, whose main request is this one and which has the body of a
/// subrequest now. It is rare, and isn't inlined: its values are large.
#[inline(never)]
fn heard(
    alloc: Global,
    footing: Footing<'_>,
    main: &Main,
    phases: &Phases,
    stage: &mut Stage,
    capture: Capture,
) -> Result<Served, OutOfMemory>
    ensures acts { IfOk result (λ served. (patterns : List SetPattern) (path file : List ℕ)
        (vars : Vars) → let p = with_main main.now phases.now in
        let g = footing.entry.ground.now in let left = footing.entry.left in
        ServesTo g p left patterns path file vars
        (captured_act (world_in patterns g shipped) g.site.now p left
        (answer_seen g.site.now p capture.body.value.answered)
        capture.body.value.page (later capture.body.value file) capture.name capture.text)
        stage.new served) }
    ensures waits { IfOk result (λ served. WaitsAt served stage.new) }
{
    let Footing { ground, left } = footing;
    let scene = scene_of(ground, main, phases, left);
    Ok(hears(alloc, &scene, stage, capture)?)
}

/// A node at its page asks for the next block of its file.
fn asks_block(alloc: Global, node: &mut Node) -> Result<(), OutOfMemory>
    ensures acts { OnOk result ((w : World) (patterns : List SetPattern) (site : SiteRow)
        (main : MainView) (text : List ℕ) → node_act w patterns site main node.new text
        ≡ node_act w patterns site main node.old text) }
    ensures node { OnOk result (node.new ≡ record node.old {
      stage = node.new.stage;
      ask = node.new.ask;
    }) }
    ensures file { OnOk result ((trees : Trees) →
        item_asked trees node.new.ask ≡ item_asked trees node.old.ask) }
{
    match stage_of(alloc, node) {
        Stage::Serves(body) => {
            put_block(alloc, node, body);
            Ok(())
        }
        _ => Err(OutOfMemory),
    }
}

/// A node asks for the next block of its file, which it needs before anything else.
///
/// # Errors
/// `OutOfMemory`, where it needs none; the node is then not to go on.
pub fn fetches(alloc: Global, node: &mut Node) -> Result<(), OutOfMemory>
    ensures acts { OnOk result ((w : World) (patterns : List SetPattern) (site : SiteRow)
        (main : MainView) (text : List ℕ) (vars : Vars) → Works vars
        (node_act w patterns site main node.old text)
        (node_act w patterns site main node.new text)) }
    ensures node { OnOk result (IsSameNode node.old node.new) }
    ensures place { OnOk result (node.new.place ≡ node.old.place) }
    ensures start { OnOk result (node.new.start ≡ node.old.start) }
    ensures file { OnOk result ((trees : Trees) →
        item_asked trees node.new.ask ≡ item_asked trees node.old.ask) }
    ensures reads { OnOk result (is_reading node.new.stage ≡ true) }
{
    match stage_of(alloc, node) {
        Stage::Serves(body) => {
            put_block(alloc, node, body);
            Ok(())
        }
        Stage::Places(body) => {
            if !is_placed(&body) {
                return Err(OutOfMemory);
            }
            put_block(alloc, node, body);
            Ok(())
        }
        _ => Err(OutOfMemory),
    }
}

/// What a node comes to by the next part of its page, at whose stage it is.
#[inline(always)]
fn turn_of(alloc: Global, node: &mut Node, served: Served) -> Result<Turn, OutOfMemory>
    ensures acts { IfOk result (λ turn. (g : GroundView) (patterns : List SetPattern)
        (main : MainView) (text : List ℕ) (vars : Vars) (old : Serving Answer) →
        ServesTo g (lent main node.old.phases) node.old.left patterns (asked_path node.old.ask) text
        vars old node.old.stage served
        → TakesTo (main_of main node.old) vars old
        (node_act (world_in patterns g shipped) patterns g.site.now main node.new text)
        (node_heard (world_in patterns g shipped) patterns g.site.now main node.new text) turn) }
    ensures node { OnOk result (node.new ≡ record node.old {
      stage = node.new.stage;
      ask = node.new.ask;
    }) }
    ensures waits { IfOk result (λ turn. WaitsAt served node.old.stage
        → WaitsBy turn node.new.stage) }
    ensures file { OnOk result ((trees : Trees) →
        item_asked trees node.new.ask ≡ item_asked trees node.old.ask) }
{
    match served {
        Served::On => Ok(Turn::On),
        Served::Opens(child) => Ok(Turn::Opens(child)),
        Served::Asks(child) => Ok(Turn::Asks(child)),
        Served::Wants => {
            asks_block(alloc, node)?;
            Ok(Turn::On)
        }
    }
}

/// A node takes up the next part of its page.
///
/// # Errors
/// `OutOfMemory`; the node is then not to go on.
pub fn takes(
    alloc: Global,
    ground: &Ground<'_>,
    main: &mut Main,
    vars: &VarTable,
    node: &mut Node,
) -> Result<Turn, OutOfMemory>
    requires { is_serving node.old.stage ≡ true }
    ensures acts { IfOk result (λ turn. (patterns : List SetPattern) (text : List ℕ) →
        let w = world_in patterns ground.now shipped in let site = ground.now.site.now in
        TakesTo (main_of main.old node.old) vars.now
        (node_act w patterns site main.old node.old text)
        (node_act w patterns site main.old node.new text)
        (node_heard w patterns site main.old node.new text) turn) }
    ensures node { IfOk result (λ turn. IsSameNode node.old node.new) }
    ensures place { OnOk result (node.new.place ≡ node.old.place) }
    ensures method { IfOk result (λ turn. main_of main.old node.new ≡ main_of main.old node.old) }
    ensures waits { IfOk result (λ turn. WaitsBy turn node.new.stage) }
    ensures start { IfOk result (λ turn. node.new.start ≡ node.old.start) }
    ensures file { IfOk result (λ turn. (trees : Trees) →
        item_asked trees node.new.ask ≡ item_asked trees node.old.ask) }
    ensures main { IfOk result (λ turn. main.new ≡ main.old) }
{
    match stage_of(alloc, node) {
        Stage::Serves(body) => {
            let footing = Footing {
                ground,
                left: node.left,
            };
            lend_method(main, &mut node.phases);
            let (phases, stage) = (&node.phases, &mut node.stage);
            let served = served(alloc, footing, main, phases, vars, stage, body)?;
            lend_method(main, &mut node.phases);
            Ok(turn_of(alloc, node, served)?)
        }
        Stage::Captures(capture) => {
            let footing = Footing {
                ground,
                left: node.left,
            };
            lend_method(main, &mut node.phases);
            let (phases, stage) = (&node.phases, &mut node.stage);
            let served = heard(alloc, footing, main, phases, stage, capture)?;
            lend_method(main, &mut node.phases);
            Ok(turn_of(alloc, node, served)?)
        }
        _ => unreachable!(),
    }
}
