// The phases of a node.
ghost use Rattle.std.specs.Prelude.{◌≡◌, ◌++◌, ℕ, List, true, false, is_some, IfOk, None, Some};
ghost use Rattle.acts.specs.Vars.{Vars};
ghost use Rattle.file_tree.specs.Tree.{known_text};
ghost use Rattle.ngx_pattern.specs.Pattern.{Pattern as SetPattern};
ghost use Rattle.request_reply.specs.request_meaning.Laws.{shipped};
ghost use Rattle.request_reply.specs.request_phases.Rounds.{IsGround, world_in};
ghost use Rattle.acts.specs.Act.{Done, Write};
ghost use Rattle.request_reply.specs.request_phases.Rounds.{phases_left};
ghost use Rattle.request_reply.specs.request_phases.declared.ground.Ground.{Ground as GroundView};
ghost use Rattle.request_reply.specs.request_phases.declared.state.Phases.{Phases as PhasesView};
ghost use Rattle.request_reply.specs.Replies.{sent_as};
ghost use Rattle.page_body.specs.Pages.{filtered_rest};
ghost use Rattle.node_turn.specs.Nodes.{answer_seen, body_then, bytes_for, from_source, len_of as told_len, lent, padded, path_or, served_as, stage_act, told_length, with_main};
ghost use Rattle.node_turn.specs.Turns.{IsSceneOf, AnswersAs, TurnsTo};
ghost use Rattle.node_turn.specs.Stages.{is_asking};
ghost use Rattle.node_turn.specs.declared.node.Stage.TheVariants.{Begins as BeginsView, Told as ToldView};

use crate::answered::{Answered, Parted, apart};
use crate::lending::{give_back, lend_to};
use crate::node::{Body, Source, Stage};
use byte_text::{ByteText, OutOfMemory};
use error_page::page_text;
use file_tree::{Ask, Found, Node as FileNode};
use filter_api::Facts;
use ngx_pattern::PatternSet;
use page_body::ngx_variables::{Main, VarTable};
use page_body::ssi_exec::Scene;
use page_body::ssi_values::Table;
use page_body::{Page, is_plain};
use request_reply::request_phases::{Conclusion, Ground, Phases, Step, Wait, begin, resume};
use request_reply::{Body as ReplyBody, reply_of};
use std::alloc::Global;

/// An answer with a file has the length that was told of it.
fn with_length(len: u64, outcome: Conclusion) -> Conclusion
    ensures { result ≡ told_length len outcome }
{
    match outcome {
        Conclusion::File { len: _, date } => Conclusion::File { len, date },
        other => other,
    }
}

/// The length of what is at a path, where that is a file.
fn len_of(file: FileNode) -> u64
    ensures { result ≡ told_len file }
{
    match file {
        FileNode::File { len, date: _ } => len,
        FileNode::Folder => 0,
        FileNode::Locked => 0,
        FileNode::Missing => 0,
    }
}

/// How many bytes of a file are to come for what phases decided.
#[tactic(auto, unfolding(crate::specs::Nodes::padded))]
fn file_len(outcome: &Conclusion) -> u64
    ensures { (text : List ℕ) → padded result text ≡ bytes_for outcome.now text }
{
    match outcome {
        Conclusion::File { len, date: _ } => *len,
        Conclusion::Text { code: _, text: _ } => 0,
        Conclusion::Page(_) => 0,
        Conclusion::Redirect { code: _, to: _ } => 0,
        Conclusion::Close => 0,
    }
}

/// What a document of a request in its phases shares with it, whose main request is this one.
pub(crate) fn scene_of<'a>(
    ground: &Ground<'a>,
    main: &'a Main,
    phases: &'a Phases,
    left: u32,
) -> Scene<'a>
    ensures { IsSceneOf ground.now (with_main main.now phases.now) left result }
{
    Scene {
        main,
        request: &phases.at.request,
        site: ground.site,
        level: ground.site.level(phases.at.level),
        server: ground.server,
        left,
    }
}

/// No body.
fn bare(alloc: Global, answered: Answered) -> Result<Stage, OutOfMemory>
    ensures asks { IfOk result (λ stage. is_asking stage ≡ false) }
    ensures acts { IfOk result (λ stage. (g : GroundView) (p : PhasesView) (levels : ℕ)
        (patterns : List SetPattern) (path text : List ℕ) →
        stage_act (world_in patterns g shipped) patterns g.site.now p levels path stage text
        ≡ Done (answer_seen g.site.now p answered)) }
{
    let body = Body {
        answered,
        bytes: ByteText::new(alloc),
        from: 0,
        source: Source {
            text: ByteText::new(alloc),
            left: 0,
            unread: false,
        },
        page: None,
    };
    Ok(Stage::Ends(Box::new(alloc, body)?))
}

/// A body that is sent as it is: these bytes, and then this many of a file.
#[inline(always)]
fn plain(
    alloc: Global,
    answered: Answered,
    bytes: ByteText,
    left: u64,
    unread: bool,
) -> Result<Stage, OutOfMemory>
    ensures asks { IfOk result (λ stage. is_asking stage ≡ false) }
    ensures acts { IfOk result (λ stage. (g : GroundView) (p : PhasesView) (levels : ℕ)
        (patterns : List SetPattern) (path text : List ℕ) →
        stage_act (world_in patterns g shipped) patterns g.site.now p levels path stage text
        ≡ Write (bytes ++ padded left text) (Done (answer_seen g.site.now p answered))) }
{
    let body = Body {
        answered,
        bytes,
        from: 0,
        source: Source {
            text: ByteText::new(alloc),
            left,
            unread,
        },
        page: None,
    };
    let none = body.bytes.is_empty();
    let body = Box::new(alloc, body)?;
    if none {
        return Ok(Stage::Serves(body));
    }
    Ok(Stage::Places(body))
}

/// A body on which filters act, from this source.
fn paged(
    alloc: Global,
    scene: &Scene<'_>,
    answered: Answered,
    facts: Facts,
    ssi: Table,
    source: Source,
) -> Result<Stage, OutOfMemory>
    ensures asks { IfOk result (λ stage. is_asking stage ≡ false) }
    ensures acts { IfOk result (λ stage. (g : GroundView) (p : PhasesView) (levels : ℕ)
        (patterns : List SetPattern) (path file : List ℕ) → IsSceneOf g p levels scene.now
        → let w = world_in patterns g shipped in let answer = answer_seen g.site.now p answered in
        filtered_rest w levels ssi answer facts (source.text ++ padded source.left file)
        ≡ stage_act w patterns g.site.now p levels path stage file) }
{
    let page = Page::new(alloc, &facts, ssi)?;
    let body = Body {
        answered,
        bytes: ByteText::new(alloc),
        from: 0,
        source,
        page: Some(page),
    };
    Ok(Stage::Places(Box::new(alloc, body)?))
}

/// Whether all of a source is at hand.
fn is_whole(source: &Source) -> bool
    ensures { result ≡ true → source.now.left ≡ 0 }
{
    source.left == 0 && !source.unread
}

/// The body of a text or a file, as it is sent.
#[inline(always)]
fn sent(
    alloc: Global,
    scene: &Scene<'_>,
    answered: Answered,
    facts: Option<Facts>,
    ssi: Table,
    source: Source,
) -> Result<Stage, OutOfMemory>
    ensures asks { IfOk result (λ stage. is_asking stage ≡ false) }
    ensures acts { IfOk result (λ stage. (g : GroundView) (p : PhasesView) (levels : ℕ)
        (patterns : List SetPattern) (path file : List ℕ) (vars : Vars)
        → IsSceneOf g p levels scene.now
        → let w = world_in patterns g shipped in let answer = answer_seen g.site.now p answered in
        TurnsTo vars vars
        (body_then w levels ssi answer (sent_as facts (source.text ++ padded source.left file)))
        (stage_act w patterns g.site.now p levels path stage file)) }
{
    match facts {
        None => {
            let Source { text, left, unread } = source;
            Ok(plain(alloc, answered, text, left, unread)?)
        }
        Some(facts) => {
            if is_whole(&source) && is_plain(&facts, source.text.as_slice()) {
                return Ok(plain(alloc, answered, source.text, 0, false)?);
            }
            Ok(paged(alloc, scene, answered, facts, ssi, source)?)
        }
    }
}

/// The bytes of a file of this length, of which all are known, or none.
fn source_of(known: ByteText, len: u64) -> Result<Source, OutOfMemory>
    ensures { IfOk result (λ source. (text : List ℕ) →
        from_source source text ≡ padded len (known_text known text)) }
{
    if known.is_empty() {
        return Ok(Source {
            text: known,
            left: len,
            unread: true,
        });
    }
    if known.len() as u64 != len {
        return Err(OutOfMemory);
    }
    Ok(Source {
        text: known,
        left: 0,
        unread: false,
    })
}

/// Begins the body of what phases decided, where these bytes of its file are known: all, or none.
///
/// # Errors
/// `OutOfMemory`.
#[inline(always)]
pub fn answering(
    alloc: Global,
    ground: &Ground<'_>,
    phases: &Phases,
    left: u32,
    ssi: Table,
    outcome: Conclusion,
    known: ByteText,
) -> Result<Stage, OutOfMemory>
    ensures asks { IfOk result (λ stage. is_asking stage ≡ false) }
    ensures acts { IfOk result (λ stage.
        AnswersAs ground.now phases.now left ssi outcome known stage) }
{
    let len = file_len(&outcome);
    let reply = reply_of(alloc, ground.site, phases, outcome)?;
    let Parted {
        answered,
        facts,
        body,
    } = apart(reply);
    let scene = scene_of(ground, &phases.main, phases, left);
    match body {
        ReplyBody::Nothing => Ok(bare(alloc, answered)?),
        ReplyBody::Page(code) => {
            let mut bytes = ByteText::new(alloc);
            page_text(code, &mut bytes)?;
            Ok(plain(alloc, answered, bytes, 0, false)?)
        }
        ReplyBody::Text(text) => {
            let source = Source {
                text,
                left: 0,
                unread: false,
            };
            Ok(sent(alloc, &scene, answered, facts, ssi, source)?)
        }
        ReplyBody::File => {
            let source = source_of(known, len)?;
            Ok(sent(alloc, &scene, answered, facts, ssi, source)?)
        }
    }
}

/// A node whose phases went on: how far it is, and the path for which it asks.
#[derive(Drop)]
pub(crate) struct Turned {
    pub(crate) stage: Stage,
    pub(crate) path: Option<ByteText>,
}

/// What becomes of a node by a step of its phases. Subrequests ask for none that decides on access:
/// there is no memory for one.
#[inline(always)]
fn after_step(
    alloc: Global,
    ground: &Ground<'_>,
    phases: &Phases,
    left: u32,
    ssi: Table,
    step: Step,
    len: u64,
    known: ByteText,
) -> Result<Turned, OutOfMemory>
    ensures turns { IfOk result (λ turned. (patterns : List SetPattern) (path text : List ℕ)
        (vars : Vars) → let w = world_in patterns ground.now shipped in
        let site = ground.now.site.now in
        TurnsTo vars vars (served_as w left ssi
        (phases_left w patterns site (padded len (known_text known text)) phases.now step))
        (stage_act w patterns site phases.now left (path_or turned.path path) turned.stage text)) }
    ensures asks { IfOk result (λ turned. is_some turned.path ≡ true
        → is_asking turned.stage ≡ true) }
    ensures path { IfOk result (λ turned. is_asking turned.stage ≡ true
        → is_some turned.path ≡ true) }
{
    match step {
        Step::Asks { wait, path } => Ok(Turned {
            stage: Stage::Asks { wait, ssi },
            path: Some(path),
        }),
        Step::Calls(_) => Err(OutOfMemory),
        Step::Answers(outcome) => {
            let outcome = with_length(len, outcome);
            Ok(Turned {
                stage: answering(alloc, ground, phases, left, ssi, outcome, known)?,
                path: None,
            })
        }
    }
}

/// Where the phases of a node run: on the ground of its request, and with this many levels of
/// subrequests that it may still open.
#[derive(Clone, Copy)]
pub(crate) struct Footing<'a> {
    pub(crate) ground: &'a Ground<'a>,
    pub(crate) left: u32,
}

/// Begins the phases of a node, to whose main request `main` is lent meanwhile.
pub(crate) fn begins(
    alloc: Global,
    footing: Footing<'_>,
    patterns: &mut PatternSet,
    main: &mut Main,
    vars: &mut VarTable,
    phases: &mut Phases,
    ssi: Table,
) -> Result<Turned, OutOfMemory>
    requires { IsGround footing.ground.now }
    ensures turns { IfOk result (λ turned. (path text : List ℕ) →
        let g = footing.entry.ground.now in let left = footing.entry.left in
        let w = world_in patterns.old g shipped in let site = g.site.now in
        TurnsTo vars.old vars.new (stage_act w patterns.old site (lent main.old phases.old) left
        path (BeginsView ssi) text)
        (stage_act w patterns.old site (lent main.old phases.new) left (path_or turned.path path)
        turned.stage text)) }
    ensures asks { IfOk result (λ turned. is_some turned.path ≡ true
        → is_asking turned.stage ≡ true) }
    ensures path { IfOk result (λ turned. is_asking turned.stage ≡ true
        → is_some turned.path ≡ true) }
    ensures main { IfOk result (λ turned. main.new ≡ main.old) }
    ensures kept { patterns.new ≡ patterns.old }
{
    let Footing { ground, left } = footing;
    lend_to(main, phases);
    let step = begin(alloc, ground, patterns, phases, vars)?;
    let known = ByteText::new(alloc);
    let turned = after_step(alloc, ground, phases, left, ssi, step, 0, known)?;
    give_back(main, phases);
    Ok(turned)
}

/// What phases wait for, what is at the path for which they asked, and the variables with which the
/// node's document begins.
#[derive(Drop)]
pub(crate) struct Told {
    pub(crate) wait: Wait,
    pub(crate) file: Found,
    pub(crate) ssi: Table,
}

/// Goes on with the phases of a node, by what is at the path for which it asked.
pub(crate) fn resumes(
    alloc: Global,
    footing: Footing<'_>,
    patterns: &mut PatternSet,
    main: &mut Main,
    vars: &mut VarTable,
    phases: &mut Phases,
    told: Told,
) -> Result<Turned, OutOfMemory>
    requires { IsGround footing.ground.now }
    ensures turns { IfOk result (λ turned. (path text : List ℕ) →
        let g = footing.entry.ground.now in let left = footing.entry.left in
        let w = world_in patterns.old g shipped in let site = g.site.now in
        TurnsTo vars.old vars.new (stage_act w patterns.old site (lent main.old phases.old) left
        path (ToldView told.wait told.file told.ssi) text)
        (stage_act w patterns.old site (lent main.old phases.new) left (path_or turned.path path)
        turned.stage text)) }
    ensures asks { IfOk result (λ turned. is_some turned.path ≡ true
        → is_asking turned.stage ≡ true) }
    ensures path { IfOk result (λ turned. is_asking turned.stage ≡ true
        → is_some turned.path ≡ true) }
    ensures main { IfOk result (λ turned. main.new ≡ main.old) }
    ensures kept { patterns.new ≡ patterns.old }
{
    let Footing { ground, left } = footing;
    let Told { wait, file, ssi } = told;
    let Found { node, text } = file;
    lend_to(main, phases);
    let step = resume(alloc, ground, wait, node, patterns, phases, vars)?;
    let turned = after_step(alloc, ground, phases, left, ssi, step, len_of(node), text)?;
    give_back(main, phases);
    Ok(turned)
}
