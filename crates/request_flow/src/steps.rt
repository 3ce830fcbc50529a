// A request starts, and goes on from step to step of its phases.
ghost use Rattle.std.specs.Prelude.{◌≡◌, ◌≤◌, ◌<◌, ◌+◌, ◌-◌, ◌*◌, ◌++◌, ◌||◌, not, [], List, ℕ, true, false, length, is_some, IfOk, OnOk, None, Some};
ghost use Rattle.file_tree.specs.Tree.{Trees, tree_of};
ghost use Rattle.ngx_pattern.specs.Pattern.{Pattern as SetPattern};
ghost use Rattle.reply_out.specs.pattern_search.Found.{patterns_seen};
ghost use Rattle.reply_out.specs.site_whole.Whole.{server_whole};
ghost use Rattle.reply_out.specs.answers_meaning.Asking.{request_of};
ghost use Rattle.request_meaning.specs.Laws.{shipped};
ghost use Rattle.request_meaning.specs.Serving.{is_head as is_head_method};
ghost use Rattle.reply_out.specs.request_phases.Rounds.{IsGround, world_in};
ghost use Rattle.reply_out.specs.request_phases.declared.state.Step.TheVariants.{Answers as ToAnswer, Asks as ToAsk, Calls as ToCall};
ghost use Rattle.reply_out.specs.request_opening.Openings.{main_at};
ghost use Rattle.request_flow.specs.Terms.{terms_at, terms_seen};
ghost use Rattle.site_model.specs.declared.site.Site.{Site as SiteRow};
ghost use Rattle.request_meaning.specs.Serving.{World};
ghost use Rattle.request_flow.specs.Flows.{flow_rest, file_rest, item_asked, flow_fits, flow_left, flow_most, asking_most, tree_asked, HasOpened, IsServedBy};
ghost use Rattle.reply_out.specs.request_phases.Admitted.{phases_admitted};
ghost use Rattle.request_flow.specs.Rests.{Follows, act_rest, finished, opened_rest};
ghost use Rattle.request_flow.specs.Pages.{GoesTo, IfAsks, IfOn, IfPage, access_rest, AreOpened, IsServed, IsTold, closing_of, tree_of_went};
ghost use Rattle.request_flow.specs.Reached.{FlowReached, IsReachedAt, StepReached, WentReached};
ghost use Rattle.request_flow.specs.Sents.{known_bytes, known_tree, known_len, with_length as told_length, step_rest, is_plain as plain_reply, sends_file, file_known};

use crate::blocks::{Sending, next_block};
use crate::flow::{Flow, Onward, Stage};
use crate::page::{AccessStart, PageStart, Went, compose, composes};
use crate::slot::put;
use byte_text::{ByteQueue, ByteText, OutOfMemory};
use file_tree::Ask;
use http_types::Method;
use ngx_variables::{Request, VarTable};
use reply_out::request_opening::{Opening, put_phases};
use reply_out::request_phases::{Conclusion, Ground, Step, Wait, admit, begin};
use reply_out::request_reply::{Body, Reply, reply_of};
use reply_out::{InPhases, Terms, Workspace, put_reply, stays};
use std::alloc::Global;

/// What a job told of its path, how many bytes of it are a file's, all these bytes or none, and the room of the request that
/// asked, for what comes of it.
#[derive(Drop)]
pub struct FileAt {
    pub ask: Ask,
    pub len: u64,
    pub text: ByteText,
    pub room: Box<Flow>,
}

/// What is known of the files: nothing yet of the tree with this number, or what a job told.
#[derive(Drop)]
pub enum Known {
    Nothing { of: u64 },
    Told(FileAt),
}

/// The number of the tree.
fn tree_in(known: &Known) -> u64
    ensures { result ≡ known_tree known.now }
{
    match known {
        Known::Nothing { of } => *of,
        Known::Told(file) => match &file.ask {
            Ask::Stat { path: _, of } => *of,
            Ask::Read {
                path: _,
                start: _,
                count: _,
                of,
            } => *of,
        },
    }
}

pub(crate) fn length_in(known: &Known) -> u64
    ensures { result ≡ known_len known.now }
{
    match known {
        Known::Nothing { of: _ } => 0,
        Known::Told(file) => file.len,
    }
}

/// An answer with a file has the length that was told of it.
pub(crate) fn with_length(len: u64, outcome: Conclusion) -> Conclusion
    ensures { result ≡ told_length len outcome }
{
    match outcome {
        Conclusion::File { len: _, date } => Conclusion::File { len, date },
        other => other,
    }
}

/// Whether no filter acts on the body of a reply (`ssi`, `add_before_body`, `add_after_body`), and
/// its length is known, or it isn't sent.
fn is_plain(terms: Terms, reply: &Reply<'_>) -> bool
    ensures { result ≡ plain_reply terms reply.now }
{
    (reply.known || terms.no_body) && reply.facts.is_none()
}

/// Whether the body is sent that a reply has, and is a file.
fn sends_file(terms: Terms, reply: &Reply<'_>) -> bool
    ensures { result ≡ sends_file terms reply.now }
{
    match reply.body {
        Body::File => !terms.no_body && !reply.gone,
        Body::Nothing => false,
        Body::Page(_) => false,
        Body::Text(_) => false,
    }
}

/// The file that is sent, if one is.
fn file_if(sends: bool, known: Known) -> Option<FileAt>
    ensures { result ≡ file_known sends known }
{
    match known {
        Known::Told(file) => {
            if sends {
                return Some(file);
            }
            None
        }
        Known::Nothing { of: _ } => None,
    }
}

pub(crate) fn closes(closing: bool, keep: bool) -> bool
    ensures { result ≡ (closing || not keep) }
{
    closing || !keep
}

/// A request whose whole response was put.
#[tactic(auto, unfolding(crate::specs::Flows::flow_most, crate::specs::Flows::placed_most))]
fn over(number: u32, status: u16, size: u64, closing: bool) -> Onward
    ensures is { result ≡ record {
      flow = None;
      closing = closing;
      log = Some (status, size);
      level = Some number;
    } }
    ensures fits { (count : ℕ) → count ≤ 81920 → flow_fits result.flow count ≡ true }
    ensures lowers { (count : ℕ) → count ≤ 81920 → count + flow_left result.flow count < flow_most }
{
    Onward {
        flow: None,
        closing,
        log: Some((status, size)),
        level: Some(number),
    }
}

/// Puts how a request goes on into the room of one.
fn refill(room: Box<Flow>, flow: Flow) -> Box<Flow>
    ensures { result.value ≡ flow }
{
    let mut room = room;
    put(&mut *room, flow);
    room
}

/// A request whose head was put, and whose file is read from now on.
#[tactic(auto, unfolding(crate::specs::Flows::flow_most, crate::specs::Flows::placed_most))]
fn reading(number: u32, status: u16, file: FileAt, closing: bool) -> Onward
    ensures rest { (w : World) (patterns : List SetPattern) (site : SiteRow) (trees : Trees) →
        flow_rest w patterns site result.flow trees
        ≡ file_rest (record { status = status; len = file.len }) file.len
        (item_asked trees file.ask) }
    ensures flow { is_some result.flow ≡ true }
    ensures others { (result.closing ≡ closing) × (result.log ≡ None) ×
        (result.level ≡ Some number) }
    ensures fits { (count : ℕ) → count ≤ 65536 → flow_fits result.flow count ≡ true }
    ensures lowers { (count : ℕ) → count ≤ 65536 → count + flow_left result.flow count < flow_most }
    ensures by { (server length : ℕ) → IsServedBy server length result.flow }
    ensures opened { (count : ℕ) → HasOpened count result.flow }
    ensures asked { tree_asked result.flow ≡ tree_of file.ask }
    ensures reached { (w : World) (patterns : List SetPattern) (site : SiteRow) →
        FlowReached w patterns site result.flow }
{
    let FileAt {
        ask,
        len,
        text: _,
        room,
    } = file;
    let flow = Flow {
        ask: next_block(ask, len, len),
        stage: Stage::Reading {
            sending: Sending { status, len },
            left: len,
        },
    };
    Onward {
        flow: Some(refill(room, flow)),
        closing,
        log: None,
        level: Some(number),
    }
}

/// No more bytes of a file are put at once, of which all are known.
const WHOLE: usize = 16384;

/// Puts a file of which all bytes are known.
fn put_whole(out: &mut ByteQueue, file: &FileAt) -> Result<(), OutOfMemory>
    ensures put { OnOk result (out.new ≡ out.old ++ file.now.text) }
    ensures len { OnOk result (length file.now.text ≡ file.now.len) }
    ensures few { OnOk result (length file.now.text ≤ 16384) }
{
    if file.text.len() as u64 != file.len || WHOLE < file.text.len() {
        return Err(OutOfMemory);
    }
    out.append(file.text.as_slice())?;
    Ok(())
}

/// Puts the head of the response to what phases decided, and its body where that isn't a file, or a file of which all bytes
/// are known.
/// Bodies on which a filter acts aren't served yet: there is no memory for them.
fn answer(
    space: &mut Workspace,
    ground: &Ground<'_>,
    request: &InPhases,
    outcome: Conclusion,
    known: Known,
    out: &mut ByteQueue,
    closing: bool,
) -> Result<Onward, OutOfMemory>
    requires { out.old ≡ [] }
    ensures goes { (patterns : List SetPattern) (trees : Trees) →
        let w = world_in patterns ground.now shipped in
        let site = ground.now.site.now in
        IfOk result (λ o. Follows site
        (step_rest w patterns site (trees (known_tree known)) request.now (ToAnswer outcome)
        (known_bytes known trees))
        (flow_rest w patterns site o.flow trees) out.old out.new closing o.closing o.log o.level) }
    ensures over { IfOk result (λ o. is_some o.log ≡ not (is_some o.flow)) }
    ensures fits { IfOk result (λ o. flow_fits o.flow (length out.new) ≡ true) }
    ensures lowers { IfOk result (λ o. length out.new + flow_left o.flow
        (length out.new) < flow_most) }
    ensures by { (server length : ℕ) → IfOk result (λ o. IsServedBy server length o.flow) }
    ensures opened { (count : ℕ) → IfOk result (λ o. HasOpened count o.flow) }
    ensures asked { IfOk result (λ o. tree_asked o.flow ≤ known_tree known) }
    ensures reached { (w : World) (patterns : List SetPattern) (site : SiteRow) →
        IfOk result (λ o. FlowReached w patterns site o.flow) }
    ensures closes { IfOk result (λ o. closing ≡ true → o.closing ≡ true) }
    ensures kept { space.new.patterns ≡ space.old.patterns }
{
    let number = request.phases.at.level;
    let level = ground.site.level(number);
    let terms = request.terms;
    let outcome = with_length(length_in(&known), outcome);
    let reply = reply_of(space.alloc, ground.site, &request.phases, outcome)?;
    if !is_plain(terms, &reply) {
        return Err(OutOfMemory);
    }
    let keep = stays(terms, level, &reply);
    let status = reply.status;
    let file = file_if(sends_file(terms, &reply), known);
    let size = put_reply(space, out, reply, terms, keep)?;
    let closing = closes(closing, keep);
    match file {
        None => Ok(over(number, status, size, closing)),
        Some(file) => {
            if file.text.is_empty() {
                return Ok(reading(number, status, file, closing));
            }
            put_whole(out, &file)?;
            Ok(over(number, status, file.len, closing))
        }
    }
}

/// A request with one question less.
fn spent(request: Box<InPhases>) -> Box<InPhases>
    requires { 0 < request.value.questions }
    ensures { result.value ≡ record request.value { questions = request.value.questions - 1 } }
{
    let mut request = request;
    request.questions -= 1;
    request
}

/// A request that asks the files what is at a path.
fn asks(
    alloc: Global,
    request: Box<InPhases>,
    wait: Wait,
    path: ByteText,
    known: Known,
    closing: bool,
) -> Result<Onward, OutOfMemory>
    ensures goes { (w : World) (patterns : List SetPattern) (site : SiteRow) (trees : Trees)
        (out : List ℕ) → IfOk result (λ o. Follows site
        (step_rest w patterns site (trees (known_tree known)) request.value (ToAsk wait path)
        (known_bytes known trees))
        (flow_rest w patterns site o.flow trees) out out closing o.closing o.log o.level) }
    ensures over { IfOk result (λ o. is_some o.log ≡ not (is_some o.flow)) }
    ensures fits { (size : ℕ) → size ≡ 0 → IfOk result (λ o. flow_fits o.flow size ≡ true) }
    ensures lowers { (size : ℕ) → size ≡ 0 → IfOk result (λ o. size + flow_left o.flow size
        < flow_most + 2 * request.value.questions + 1) }
    ensures by { IfOk result (λ o. IsServedBy request.value.server request.value.length o.flow) }
    ensures opened { IfOk result (λ o. HasOpened request.value.opened o.flow) }
    ensures asked { IfOk result (λ o. tree_asked o.flow ≤ known_tree known) }
    ensures reached { (w : World) (patterns : List SetPattern) (site : SiteRow) (len : ℕ) →
        StepReached w patterns site request.value (ToAsk wait path) len
        → IfOk result (λ o. FlowReached w patterns site o.flow) }
    ensures closes { IfOk result (λ o. closing ≡ true → o.closing ≡ true) }
{
    if request.questions == 0 {
        return Err(OutOfMemory);
    }
    let request = spent(request);
    let of = tree_in(&known);
    let flow = Flow {
        ask: Ask::Stat { path, of },
        stage: Stage::Asked { request, wait },
    };
    Ok(Onward {
        flow: Some(Box::new(alloc, flow)?),
        closing,
        log: None,
        level: None,
    })
}

/// A request that asks a subrequest whether it is let in.
fn calls(
    request: Box<InPhases>,
    path: ByteText,
    known: &Known,
    closing: bool,
) -> Result<AccessStart, OutOfMemory>
    ensures goes { (w : World) (patterns : List SetPattern) (site : SiteRow) (trees : Trees)
        (bytes : List ℕ) → IfOk result (λ a. access_rest w patterns site trees a
        ≡ step_rest w patterns site (trees (known_tree known.now)) request.value (ToCall path)
        bytes) }
    ensures reached { (w : World) (patterns : List SetPattern) (site : SiteRow) (len : ℕ) →
        StepReached w patterns site request.value (ToCall path) len
        → IfOk result (λ a. StepReached w patterns site a.request.value (ToCall a.path) 0) }
    ensures spends { IfOk result (λ a. a.request.value.questions < request.value.questions) }
    ensures by { IfOk result (λ a. (a.request.value.server ≡ request.value.server)
        × (a.request.value.length ≡ request.value.length)) }
    ensures opened { IfOk result (λ a. a.request.value.opened ≡ request.value.opened) }
    ensures asked { IfOk result (λ a. a.of ≡ known_tree known.now) }
    ensures closes { IfOk result (λ a. a.closing ≡ closing) }
{
    if request.questions == 0 {
        return Err(OutOfMemory);
    }
    Ok(AccessStart {
        request: spent(request),
        path,
        of: tree_in(known),
        closing,
    })
}

/// The answer of phases is put, or made a page.
fn answers(
    space: &mut Workspace,
    ground: &Ground<'_>,
    request: Box<InPhases>,
    outcome: Conclusion,
    known: Known,
    out: &mut ByteQueue,
    closing: bool,
) -> Result<Went, OutOfMemory>
    requires { out.old ≡ [] }
    ensures goes { (patterns : List SetPattern) (trees : Trees) →
        let w = world_in patterns ground.now shipped in
        let site = ground.now.site.now in
        IfOk result (λ went. GoesTo w patterns site trees
        (step_rest w patterns site (trees (known_tree known)) request.value (ToAnswer outcome)
        (known_bytes known trees)) out.old out.new closing went) }
    ensures reached { (w : World) (patterns : List SetPattern) (site : SiteRow) →
        StepReached w patterns site request.value (ToAnswer outcome) (known_len known)
        → IfOk result (WentReached w patterns site) }
    ensures over { IfOk result (λ went. IfOn went (λ o. is_some o.log ≡ not (is_some o.flow))) }
    ensures fits { IfOk result (λ went. IfOn went (λ o. flow_fits o.flow (length out.new) ≡ true)) }
    ensures lowers { IfOk result (λ went. IfOn went (λ o. length out.new + flow_left o.flow
        (length out.new) < flow_most)) }
    ensures by { IfOk result (λ went. IsServed request.value.server request.value.length went) }
    ensures opened { IfOk result (λ went. AreOpened request.value.opened went) }
    ensures asked { IfOk result (λ went. tree_of_went went ≤ known_tree known) }
    ensures put { IfOk result (λ went. IfPage went (λ p. out.new ≡ [])) }
    ensures spends { IfOk result (λ went. IfAsks went (λ a. (out.new ≡ [])
        × (a.request.value.questions < request.value.questions))) }
    ensures told { IfOk result (λ went. IfPage went (λ p. IsTold p.page)) }
    ensures closes { IfOk result (λ went. closing ≡ true → closing_of went ≡ true) }
    ensures kept { space.new.patterns ≡ space.old.patterns }
{
    match composes(space.alloc, ground, &*request, &outcome) {
        Ok(false) => {
            let onward = answer(space, ground, &*request, outcome, known, out, closing);
            space.keep(request);
            Ok(Went::On(onward?))
        }
        Ok(true) => match compose(space, ground, &*request, outcome, known, closing) {
            Ok(composed) => {
                let start = PageStart {
                    request,
                    page: composed.page,
                    closing: composed.closing,
                    level: composed.level,
                };
                Ok(Went::Page(Box::new(space.alloc, start)?))
            }
            Err(OutOfMemory) => {
                drop(request);
                Err(OutOfMemory)
            }
        },
        Err(OutOfMemory) => {
            drop(request);
            Err(OutOfMemory)
        }
    }
}

/// Goes on with a request by a step of its phases: a question is asked, or the response is put, or
/// made a page; or a subrequest is asked whether it is let in.
pub(crate) fn go_on(
    space: &mut Workspace,
    ground: &Ground<'_>,
    request: Box<InPhases>,
    step: Step,
    known: Known,
    out: &mut ByteQueue,
    closing: bool,
) -> Result<Went, OutOfMemory>
    requires { out.old ≡ [] }
    ensures goes { (patterns : List SetPattern) (trees : Trees) →
        let w = world_in patterns ground.now shipped in
        let site = ground.now.site.now in
        IfOk result (λ went. GoesTo w patterns site trees
        (step_rest w patterns site (trees (known_tree known)) request.value step
        (known_bytes known trees)) out.old out.new closing went) }
    ensures reached { (w : World) (patterns : List SetPattern) (site : SiteRow) →
        StepReached w patterns site request.value step (known_len known)
        → IfOk result (WentReached w patterns site) }
    ensures over { IfOk result (λ went. IfOn went (λ o. is_some o.log ≡ not (is_some o.flow))) }
    ensures fits { IfOk result (λ went. IfOn went (λ o. flow_fits o.flow (length out.new) ≡ true)) }
    ensures lowers { IfOk result (λ went. IfOn went (λ o. length out.new + flow_left o.flow
        (length out.new) < flow_most + 2 * request.value.questions + 1)) }
    ensures by { IfOk result (λ went. IsServed request.value.server request.value.length went) }
    ensures opened { IfOk result (λ went. AreOpened request.value.opened went) }
    ensures asked { IfOk result (λ went. tree_of_went went ≤ known_tree known) }
    ensures put { IfOk result (λ went. IfPage went (λ p. out.new ≡ [])) }
    ensures spends { IfOk result (λ went. IfAsks went (λ a. (out.new ≡ [])
        × (a.request.value.questions < request.value.questions))) }
    ensures told { IfOk result (λ went. IfPage went (λ p. IsTold p.page)) }
    ensures closes { IfOk result (λ went. closing ≡ true → closing_of went ≡ true) }
    ensures kept { space.new.patterns ≡ space.old.patterns }
{
    match step {
        Step::Asks { wait, path } => Ok(Went::On(asks(
            space.alloc,
            request,
            wait,
            path,
            known,
            closing,
        )?)),
        Step::Calls(path) => Ok(Went::Asks(calls(request, path, &known, closing)?)),
        Step::Answers(outcome) => {
            Ok(answers(space, ground, request, outcome, known, out, closing)?)
        }
    }
}

fn is_head(method: &Method) -> bool
    ensures { result ≡ is_head_method method.now }
{
    match method {
        Method::Head => true,
        Method::Get => false,
        Method::Post => false,
        Method::Other(_) => false,
    }
}

fn terms_of(opening: &Opening) -> Terms
    ensures { terms_seen result ≡ terms_at opening.now }
{
    Terms {
        moment: opening.moment,
        version: opening.head.version,
        no_body: is_head(&opening.head.method),
        before: opening.before,
        head_keeps: opening.head.keep,
    }
}

/// Begins the phases of a main request, in the room of another.
fn begun(
    space: &mut Workspace,
    ground: &Ground<'_>,
    server: u32,
    opening: Opening,
    request: &mut InPhases,
) -> Result<Step, OutOfMemory>
    requires ground { IsGround ground.now }
    ensures goes { (trees : Trees) →
        let w = world_in space.old.patterns ground.now shipped in
        let site = ground.now.site.now in
        IfOk result (λ step. opened_rest w (trees opening.tree) (terms_at opening)
        (main_at ground.now opening) (request_of
        (server_whole (patterns_seen space.old.patterns) site ground.now.server.now)
        opening.head) ≡ step_rest w space.old.patterns site (trees opening.tree) request.new
        step []) }
    ensures reached { IfOk result (λ step. let w = world_in space.old.patterns ground.now shipped in
        StepReached w space.old.patterns ground.now.site.now request.new step 0) }
    ensures questions { request.new.questions ≤ 4294967295 }
    ensures server { IfOk result (λ step. request.new.server ≡ server) }
    ensures length { IfOk result (λ step. request.new.length ≡ ground.now.length) }
    ensures opened { IfOk result (λ step. request.new.opened ≡ 0) }
    ensures kept { space.new.patterns ≡ space.old.patterns }
{
    let alloc = space.alloc;
    let terms = terms_of(&opening);
    request.terms = terms;
    request.server = server;
    request.length = ground.length;
    request.questions = u32::MAX;
    request.opened = 0;
    put(&mut request.vars, VarTable::new(alloc));
    put_phases(ground, opening, &mut request.phases, &mut space.head_room)?;
    let step = begin(
        alloc,
        ground,
        &mut space.patterns,
        &mut request.phases,
        &mut request.vars,
    )?;
    Ok(step)
}

/// Starts a main request: up to its first question to the files, or the whole response where it
/// asks none, or its page. `server` is the number of the ground's server, which is kept for the
/// caller.
///
/// # Errors
/// `OutOfMemory`; the request is then not to be answered.
pub fn start(
    space: &mut Workspace,
    ground: &Ground<'_>,
    server: u32,
    opening: Opening,
    out: &mut ByteQueue,
) -> Result<Went, OutOfMemory>
    requires ground { IsGround ground.now }
    requires unsent { out.old ≡ [] }
    ensures goes { (trees : Trees) →
        let w = world_in space.old.patterns ground.now shipped in
        let site = ground.now.site.now in
        IfOk result (λ went. GoesTo w space.old.patterns site trees
        (opened_rest w (trees opening.tree) (terms_at opening)
        (main_at ground.now opening) (request_of
        (server_whole (patterns_seen space.old.patterns) site ground.now.server.now)
        opening.head)) out.old out.new false went) }
    ensures reached { let w = world_in space.old.patterns ground.now shipped in
        IfOk result (WentReached w space.old.patterns ground.now.site.now) }
    ensures over { IfOk result (λ went. IfOn went (λ o. is_some o.log ≡ not (is_some o.flow))) }
    ensures fits { IfOk result (λ went. IfOn went (λ o. flow_fits o.flow (length out.new) ≡ true)) }
    ensures lowers { IfOk result (λ went. IfOn went (λ o. length out.new + flow_left o.flow
        (length out.new) < asking_most)) }
    ensures by { IfOk result (IsServed server ground.now.length) }
    ensures opened { IfOk result (AreOpened 0) }
    ensures asked { IfOk result (λ went. tree_of_went went ≤ opening.tree) }
    ensures put { IfOk result (λ went. IfPage went (λ p. out.new ≡ [])) }
    ensures spends { IfOk result (λ went. IfAsks went (λ a. (out.new ≡ [])
        × (a.request.value.questions < 4294967295))) }
    ensures told { IfOk result (λ went. IfPage went (λ p. IsTold p.page)) }
    ensures kept { space.new.patterns ≡ space.old.patterns }
{
    let known = Known::Nothing { of: opening.tree };
    let mut request = match space.room() {
        Ok(request) => request,
        Err(OutOfMemory) => {
            drop(opening);
            return Err(OutOfMemory);
        }
    };
    let inside = &mut *request;
    match begun(space, ground, server, opening, inside) {
        Ok(step) => Ok(go_on(space, ground, request, step, known, out, false)?),
        Err(OutOfMemory) => {
            drop(request);
            Err(OutOfMemory)
        }
    }
}

/// What a subrequest replied that decides on access: its status, what its request was at its end,
/// and the number of the tree that it was served from.
#[derive(Drop)]
pub struct Replied {
    pub status: u16,
    pub request: Request,
    pub of: u64,
}

/// Goes on with a main request by the reply of the subrequest that it asked whether it is let in.
///
/// # Errors
/// `OutOfMemory`; the request is then not to be answered.
pub fn admits(
    space: &mut Workspace,
    ground: &Ground<'_>,
    request: Box<InPhases>,
    replied: Replied,
    out: &mut ByteQueue,
    closing: bool,
) -> Result<Went, OutOfMemory>
    requires ground { IsGround ground.now }
    requires unsent { out.old ≡ [] }
    ensures goes { (trees : Trees) →
        let w = world_in space.old.patterns ground.now shipped in
        let site = ground.now.site.now in
        IfOk result (λ went. GoesTo w space.old.patterns site trees
        (act_rest w (trees replied.of) (terms_seen request.value.terms)
        (phases_admitted w site request.value.phases replied.status replied.request)
        request.value.vars) out.old out.new closing went) }
    ensures reached { let w = world_in space.old.patterns ground.now shipped in
        let site = ground.now.site.now in
        IsReachedAt w (finished w (phases_admitted w site request.value.phases replied.status
        replied.request)) request.value.vars
        → IfOk result (WentReached w space.old.patterns site) }
    ensures over { IfOk result (λ went. IfOn went (λ o. is_some o.log ≡ not (is_some o.flow))) }
    ensures fits { IfOk result (λ went. IfOn went (λ o. flow_fits o.flow (length out.new) ≡ true)) }
    ensures lowers { IfOk result (λ went. IfOn went (λ o. length out.new
        + flow_left o.flow (length out.new) < flow_most + 2 * request.value.questions + 1)) }
    ensures by { IfOk result (λ went. IsServed request.value.server request.value.length went) }
    ensures opened { IfOk result (λ went. AreOpened request.value.opened went) }
    ensures asked { IfOk result (λ went. tree_of_went went ≤ replied.of) }
    ensures put { IfOk result (λ went. IfPage went (λ p. out.new ≡ [])) }
    ensures spends { IfOk result (λ went. IfAsks went (λ a. (out.new ≡ [])
        × (a.request.value.questions < request.value.questions))) }
    ensures told { IfOk result (λ went. IfPage went (λ p. IsTold p.page)) }
    ensures closes { IfOk result (λ went. closing ≡ true → closing_of went ≡ true) }
    ensures kept { space.new.patterns ≡ space.old.patterns }
{
    let Replied {
        status,
        request: child,
        of,
    } = replied;
    let mut request = request;
    let inside = &mut *request;
    let (phases, vars) = (&mut inside.phases, &mut inside.vars);
    let known = Known::Nothing { of };
    let alloc = space.alloc;
    match admit(
        alloc,
        ground,
        status,
        &child,
        &mut space.patterns,
        phases,
        vars,
    ) {
        Ok(step) => Ok(go_on(space, ground, request, step, known, out, closing)?),
        Err(OutOfMemory) => {
            drop(request);
            Err(OutOfMemory)
        }
    }
}
