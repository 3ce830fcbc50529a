// The body of a node, part by part.
ghost use Rattle.std.specs.Prelude.{◌≡◌, ℕ, ◌++◌, true, false, List, [], IfOk, OnOk, None, Some};
ghost use Rattle.acts.specs.Vars.{Vars};
ghost use Rattle.ngx_pattern.specs.Pattern.{Pattern as SetPattern};
ghost use Rattle.request_reply.specs.request_meaning.Laws.{shipped};
ghost use Rattle.request_reply.specs.request_meaning.Serving.{Answer, Serving, World};
ghost use Rattle.request_reply.specs.request_phases.Rounds.{world_in};
ghost use Rattle.request_reply.specs.request_phases.declared.ground.Ground.{Ground as GroundView};
ghost use Rattle.request_reply.specs.request_phases.declared.state.Phases.{Phases as PhasesView};
ghost use Rattle.page_body.specs.ssi_exec.declared.document.Scene.{Scene as SceneView};
ghost use Rattle.acts.specs.Act.{Done};
ghost use Rattle.page_body.specs.Pages.{Does, page_captured, page_rest, stop_of, text_then, waits};
ghost use Rattle.page_body.specs.declared.page.Page.{Page as PageView};
ghost use Rattle.node_turn.specs.Nodes.{answer_seen, captured_act, captured_at, from_source, hand, later, page_at, served_act};
ghost use Rattle.node_turn.specs.Served.{NextPart, ServesTo, WaitsAt, is_spent as source_spent};
ghost use Rattle.node_turn.specs.Turns.{IsSceneOf};

use crate::node::{Body, Capture, Source, Stage};
use crate::slot::{fill, put, take};
use byte_text::{ByteText, OutOfMemory};
use page_body::ngx_variables::VarTable;
use page_body::ssi_exec::{Child, Scene};
use page_body::{Doing, Page};
use std::alloc::Global;
use withheld_text::Withheld;

/// What a node comes to where the next part of its body is taken up: how far it is then is put at
/// its stage.
#[derive(Drop)]
pub(crate) enum Served {
    /// The node goes on.
    On,
    /// The body of a subrequest comes here, and the node goes on with its page.
    Opens(Child),
    /// A subrequest is asked for, whose body goes into a variable.
    Asks(Child),
    /// A block of its file is to be asked.
    Wants,
}

/// A body of which these bytes are placed next.
fn with_bytes(body: Box<Body>, bytes: ByteText) -> Box<Body>
    ensures others { (result.value.answered ≡ body.value.answered)
        × (result.value.source ≡ body.value.source) × (result.value.page ≡ body.value.page) }
    ensures hand { hand result.value ≡ bytes }
{
    let mut body = body;
    body.from = 0;
    body.bytes = bytes;
    body
}

/// Whether nothing more comes.
fn is_spent(source: &Source) -> bool
    ensures { result ≡ source_spent source.now }
{
    source.text.is_empty() && source.left == 0 && !source.unread
}

/// A page takes up more of what it is made of, where none of its parts waits: the text of its source; else, where that is
/// spent, it comes to its end. Whether a block of its file is to be asked first.
fn supplies(alloc: Global, source: &mut Source, page: &mut Page) -> Result<bool, OutOfMemory>
    ensures { OnOk result ((scene : SceneView) (w : World) (answer : Answer) (file : List ℕ)
        → w.members ≡ shipped
        → page_rest w answer scene page.old (from_source source.old file)
        ≡ page_rest w answer scene page.new (from_source source.new file)) }
{
    if page.waits() || page.is_finished() {
        return Ok(false);
    }
    if !source.text.is_empty() {
        let text = take(&mut source.text, ByteText::new(alloc));
        page.feed(alloc, text)?;
        return Ok(false);
    }
    if !is_spent(source) {
        return Ok(true);
    }
    page.finish(alloc)?;
    Ok(false)
}

/// The next part of a page, as what is done for it; none where a block of its file is to be asked first.
fn next_part(
    alloc: Global,
    scene: &Scene<'_>,
    vars: &VarTable,
    source: &mut Source,
    page: &mut Page,
) -> Result<Option<Doing>, OutOfMemory>
    ensures { IfOk result (λ found.
        NextPart scene.now vars.now page.old source.old page.new source.new found) }
{
    if supplies(alloc, source, page)? {
        return Ok(None);
    }
    let doing = page.next(alloc, scene, vars)?;
    Ok(Some(doing))
}

/// The next part of the page of a body, which stays in its place.
fn body_next(
    alloc: Global,
    scene: &Scene<'_>,
    vars: &VarTable,
    body: &mut Body,
) -> Result<Option<Doing>, OutOfMemory>
    ensures { IfOk result (λ found. (page : PageView) → body.old.page ≡ Some page
        → (new : PageView) × (body.new.page ≡ Some new)
        × (body.new.answered ≡ body.old.answered)
        × NextPart scene.now vars.now page body.old.source new body.new.source found) }
{
    match &mut body.page {
        Some(page) => Ok(next_part(alloc, scene, vars, &mut body.source, page)?),
        None => Err(OutOfMemory),
    }
}

/// What is done for the next part of the page of a body.
fn done(
    alloc: Global,
    scene: &Scene<'_>,
    stage: &mut Stage,
    body: Box<Body>,
    doing: Doing,
) -> Result<Served, OutOfMemory>
    ensures acts { IfOk result (λ served. (g : GroundView) (p : PhasesView) (levels : ℕ)
        (patterns : List SetPattern) (path file : List ℕ) (vars : Vars) (old : Serving Answer)
        (page : PageView) → body.value.page ≡ Some page → IsSceneOf g p levels scene.now
        → let w = world_in patterns g shipped in
        let answer = answer_seen g.site.now p body.value.answered in
        let new = page_at w g.site.now p levels answer page (later body.value file) in
        Does p.main vars doing old new
        (captured_at w g.site.now p levels answer page (later body.value file))
        → (stop_of doing ≡ Some true → source_spent body.value.source ≡ true → old ≡ Done answer)
        → ServesTo g p levels patterns path file vars old stage.new served) }
    ensures waits { IfOk result (λ served. WaitsAt served stage.new) }
{
    match doing {
        Doing::Nothing => {
            fill(stage, Stage::Serves(body));
            Ok(Served::On)
        }
        Doing::Writes(text) => {
            fill(stage, Stage::Places(with_bytes(body, text)));
            Ok(Served::On)
        }
        Doing::Includes(child) => {
            fill(stage, Stage::Serves(body));
            Ok(Served::Opens(child))
        }
        Doing::Captures { name, child } => {
            let text = Withheld::new(alloc);
            fill(stage, Stage::Captures(Capture { body, name, text }));
            Ok(Served::Asks(child))
        }
        Doing::NeedsMore => {
            fill(stage, Stage::Serves(body));
            Ok(Served::On)
        }
        Doing::Over => {
            if !is_spent(&body.source) {
                return Err(OutOfMemory);
            }
            fill(stage, Stage::Ends(body));
            Ok(Served::On)
        }
    }
}

/// Goes on with a body that is sent as it is, of which nothing is at hand.
fn file_serves(stage: &mut Stage, body: Box<Body>) -> Served
    ensures acts { body.value.page ≡ None → (g : GroundView) (p : PhasesView) (levels : ℕ)
        (patterns : List SetPattern) (path file : List ℕ) (vars : Vars)
        → ServesTo g p levels patterns path file vars
        (served_act (world_in patterns g shipped) g.site.now p levels
        (answer_seen g.site.now p body.value.answered) body.value.page (later body.value file))
        stage.new result }
    ensures waits { WaitsAt result stage.new }
{
    if is_spent(&body.source) {
        fill(stage, Stage::Ends(body));
        return Served::On;
    }
    fill(stage, Stage::Serves(body));
    Served::Wants
}

/// Goes on with a body of which nothing is at hand.
pub(crate) fn serves(
    alloc: Global,
    scene: &Scene<'_>,
    vars: &VarTable,
    stage: &mut Stage,
    body: Box<Body>,
) -> Result<Served, OutOfMemory>
    ensures acts { IfOk result (λ served. (g : GroundView) (p : PhasesView) (levels : ℕ)
        (patterns : List SetPattern) (path file : List ℕ) → IsSceneOf g p levels scene.now
        → ServesTo g p levels patterns path file vars.now
        (served_act (world_in patterns g shipped) g.site.now p levels
        (answer_seen g.site.now p body.value.answered) body.value.page (later body.value file))
        stage.new served) }
    ensures waits { IfOk result (λ served. WaitsAt served stage.new) }
{
    if body.page.is_none() {
        return Ok(file_serves(stage, body));
    }
    let mut body = body;
    match body_next(alloc, scene, vars, &mut body)? {
        Some(doing) => Ok(done(alloc, scene, stage, body, doing)?),
        None => {
            fill(stage, Stage::Serves(body));
            Ok(Served::Wants)
        }
    }
}

/// No variable has more bytes than these: the most that `subrequest_output_buffer_size` may say, of which no more are kept.
const MOST_CAPTURED: u32 = 16384;

/// The body of a subrequest goes into the variable of this name of a page, which a body that is too long for it unsets, whatever
/// its bytes are. The text that is written in its place, if there is one.
fn captures(
    alloc: Global,
    scene: &Scene<'_>,
    page: &mut Page,
    name: &[u8],
    body: Withheld,
) -> Result<Option<ByteText>, OutOfMemory>
    ensures { IfOk result (λ text. (w : World) (answer : Answer) (bytes : List ℕ)
        → page_captured w answer scene.now page.old name.now body bytes
        ≡ text_then text (page_rest w answer scene.now page.new bytes)) }
{
    if scene.level.capture_most > MOST_CAPTURED {
        return Err(OutOfMemory);
    }
    let text = page.captured(alloc, scene, name, body.into_front())?;
    Ok(text)
}

/// The page of a body has the body of a subrequest now, and stays in its place. The text that is written for it, if there is one.
fn body_hears(
    alloc: Global,
    scene: &Scene<'_>,
    body: &mut Body,
    name: &[u8],
    text: Withheld,
) -> Result<Option<ByteText>, OutOfMemory>
    ensures { IfOk result (λ found. (page : PageView) → body.old.page ≡ Some page
        → (new : PageView) × (body.new.page ≡ Some new)
        × (body.new.answered ≡ body.old.answered) × (body.new.source ≡ body.old.source)
        × ((w : World) (answer : Answer) (bytes : List ℕ)
        → page_captured w answer scene.now page name.now text bytes
        ≡ text_then found (page_rest w answer scene.now new bytes))) }
{
    match &mut body.page {
        Some(page) => Ok(captures(alloc, scene, page, name, text)?),
        None => Err(OutOfMemory),
    }
}

/// Goes on with a body whose page has the body of a subrequest now.
pub(crate) fn hears(
    alloc: Global,
    scene: &Scene<'_>,
    stage: &mut Stage,
    capture: Capture,
) -> Result<Served, OutOfMemory>
    ensures acts { IfOk result (λ served. (g : GroundView) (p : PhasesView) (levels : ℕ)
        (patterns : List SetPattern) (path file : List ℕ) (vars : Vars)
        → IsSceneOf g p levels scene.now → ServesTo g p levels patterns path file vars
        (captured_act (world_in patterns g shipped) g.site.now p levels
        (answer_seen g.site.now p capture.body.value.answered) capture.body.value.page
        (later capture.body.value file) capture.name capture.text) stage.new served) }
    ensures waits { IfOk result (λ served. WaitsAt served stage.new) }
{
    let Capture { body, name, text } = capture;
    if body.page.is_none() {
        return Err(OutOfMemory);
    }
    let mut body = body;
    match body_hears(alloc, scene, &mut body, name.as_slice(), text)? {
        Some(text) => {
            fill(stage, Stage::Places(with_bytes(body, text)));
            Ok(Served::On)
        }
        None => {
            fill(stage, Stage::Serves(body));
            Ok(Served::On)
        }
    }
}
