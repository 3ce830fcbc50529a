// A response goes on.
ghost use Rattle.std.specs.Prelude.{◌≡◌, ◌≤◌, ◌<◌, ◌+◌, ◌*◌, not, [], Bool, List, ℕ, true, false, length, is_some, option_map, IfOk, OnOk, None, Some, if◌then◌else◌};
ghost use Rattle.file_tree.specs.Tree.{Trees};
ghost use Rattle.ngx_pattern.specs.Pattern.{Pattern as SetPattern};
ghost use Rattle.pattern_search.specs.Found.{patterns_seen};
ghost use Rattle.request_flow.specs.race_meaning.Named.{IsRaceless};
ghost use Rattle.site_model.specs.declared.site.Site.{Site as SiteRow};
ghost use Rattle.site_whole.specs.Whole.{server_whole};
ghost use Rattle.request_flow.specs.answers_meaning.Asking.{request_of};
ghost use Rattle.request_meaning.specs.Laws.{shipped};
ghost use Rattle.request_meaning.specs.Serving.{World};
ghost use Rattle.request_flow.specs.request_phases.Rounds.{IsGround, world_in};
ghost use Rattle.subrequests.specs.Moved.{IsDone, IsWhole};
ghost use Rattle.subrequests.specs.Wants.{is_among};
ghost use Rattle.outgoing.specs.Leaving.{most};
ghost use Rattle.page_response.specs.Pages.{EndsIn, IsAllOver, IsReached, pages_left};
ghost use Rattle.request_flow.specs.Flows.{HasOpened, IsServedBy, asking_most, flow_fits, flow_left, flow_most, may_run as can_run, stage_length, stage_server, tree_asked};
ghost use Rattle.request_flow.specs.request_opening.Openings.{main_at};
ghost use Rattle.request_flow.specs.Terms.{terms_at};
ghost use Rattle.request_flow.specs.Pages.{AreOpened, GoesTo, IfAsks, IfOn as IfGoes, IfPage, IsServed, IsTold, access_rest, closing_of, start_rest, tree_of_went};
ghost use Rattle.request_flow.specs.Reached.{FlowReached, PageReached, StepReached, WentReached};
ghost use Rattle.request_flow.specs.request_phases.declared.state.Step.TheVariants.{Calls as ToCall};
ghost use Rattle.access_flow.specs.Flows.{steps_left, waits};
ghost use Rattle.access_flow.specs.Reached.{AccessReached};
ghost use Rattle.request_flow.specs.Rests.{Follows, Rest, opened_rest};
ghost use Rattle.request_flow.specs.Sents.{known_tree};
ghost use Rattle.response_flow.specs.Continues.{Continues, IfOn, RunsOn, ran_as, ran_in};
ghost use Rattle.response_flow.specs.declared.flight.Ran.TheVariants.{On as OnView};
ghost use Rattle.response_flow.specs.declared.flight.Flight.{Flight as FlightView};
ghost use Rattle.response_flow.specs.declared.flight.PageFlow.{PageFlow as PageFlowView};
ghost use Rattle.request_flow.specs.request_phases.declared.ground.Ground.{Ground as GroundView};
ghost use Rattle.page_response.specs.Ran.{RunsTo};
ghost use Rattle.response_flow.specs.declared.flight.Flight.TheVariants.{Alone as AloneFlight, Asking as AskingFlight, Page as PageFlight};
ghost use Rattle.response_flow.specs.Flights.{FlightFits, FlightReached, FlightServedBy, TailFits, TailIn, alone_rest, flight_left, flight_length, flight_rest, flight_server, flight_tree, most_kept, page_left, page_most, ready_of, sends_alone, with_opened};

use crate::flight::{Flight, Onward, PageFlow, Passed, Ran};
use crate::open::opened;
use crate::slot::{put, take};
use access_flow::{AccessFlow, Ran as AccessRan, asks, run_on as access_run_on};
use byte_text::{ByteQueue, OutOfMemory};
use page_response::Pages;
use request_flow::family_rest::row_tells_still;
use request_flow::reply_out::Workspace;
use request_flow::request_opening::Opening;
use request_flow::request_phases::Ground;
use request_flow::{
    AccessStart, Flow, Onward as FlowOnward, PageStart, Went, is_sending as is_flow_sending,
    run_on as flow_run_on, sends_on, start as flow_start,
};
use std::alloc::Global;
use subrequests::Ran as FamilyRan;

/// No more bytes are kept for a peer once a response is over.
const MOST_KEPT: usize = 67108864;

fn alone_flight(flow: Option<Box<Flow>>) -> Option<Flight>
    ensures { result ≡ option_map (λ flow. AloneFlight flow) flow }
{
    match flow {
        Some(flow) => Some(Flight::Alone(flow)),
        None => None,
    }
}

/// What went on alone.
fn alone(onward: FlowOnward) -> Onward
    ensures rest { (w : World) (patterns : List SetPattern) (site : SiteRow) (trees : Trees) →
        flight_rest w patterns site result.flight trees
        ≡ alone_rest w patterns site onward.flow trees }
    ensures others { (result.closing ≡ onward.closing) × (result.log ≡ onward.log)
        × (result.level ≡ onward.level) × (is_some result.flight ≡ is_some onward.flow) }
    ensures reached { (w : World) (patterns : List SetPattern) (site : SiteRow) →
        FlowReached w patterns site onward.flow → FlightReached w patterns site result.flight }
    ensures fits { (size count : ℕ) → flow_fits onward.flow size ≡ true
        → HasOpened count onward.flow → count ≤ 255 → FlightFits result.flight size }
    ensures left { (size : ℕ) → flight_left result.flight size
        ≤ page_most + flow_left onward.flow size }
    ensures by { (server length : ℕ) → IsServedBy server length onward.flow
        → FlightServedBy server length result.flight }
    ensures tree { flight_tree result.flight ≡ tree_asked onward.flow }
    ensures tail { (out : List ℕ) → TailIn None result.flight result.tail out }
{
    let FlowOnward {
        flow,
        closing,
        log,
        level,
    } = onward;
    Onward {
        flight: alone_flight(flow),
        closing,
        log,
        level,
        tail: 0,
    }
}

/// A page that is over: what is still unsent of it is kept for the peer, and the room of its bytes
/// for the next page. `level` is the number of the level that answers where its head was put now.
#[tactic(auto, unfolding(crate::specs::Flights::most_kept))]
fn ends(
    pages: Pages,
    out: &mut ByteQueue,
    closing: bool,
    level: Option<u32>,
    room: &mut Vec<u8>,
) -> Result<Onward, OutOfMemory>
    requires whole { IsWhole pages.family }
    requires unsent { out.old ≡ [] }
    ensures ends { (w : World) (patterns : List SetPattern) (site : SiteRow) (trees : Trees)
        (before : Rest) (from : List ℕ) (first : Bool) → IsAllOver w patterns site trees pages
        → Continues site before (page_left w patterns site trees pages)
        from [] first closing None level
        → IfOk result (λ o. Continues site before (flight_rest w patterns site o.flight trees)
        from out.new first o.closing o.log o.level) }
    ensures over { IfOk result (λ o. (o.flight ≡ None) × (is_some o.log ≡ true)) }
    ensures closes { IfOk result (λ o. o.closing ≡ closing) }
    ensures kept { IfOk result (λ o. length out.new ≤ most_kept) }
    ensures tail { IfOk result (λ o. EndsIn pages.outgoing.block o.tail out.new) }
{
    row_tells_still();
    let status = pages.status;
    let finished = pages.finish(out, room)?;
    if out.len() > MOST_KEPT {
        return Err(OutOfMemory);
    }
    Ok(Onward {
        flight: None,
        closing,
        log: Some((status, finished.size)),
        level,
        tail: finished.tail,
    })
}

/// Runs a node of a page on; that of the first one ends the page, where no other goes on. `level` is
/// the number of the level that answers where its head was put now.
fn run_page(
    space: &mut Workspace,
    ground: &Ground<'_>,
    page: PageFlow,
    at: u32,
    out: &mut ByteQueue,
    closing: bool,
    level: Option<u32>,
) -> Result<Ran, OutOfMemory>
    requires ground { IsGround ground.now }
    requires unsent { out.old ≡ [] }
    requires whole { IsWhole page.pages.value.family }
    requires bounded { length page.pages.value.outgoing.pending ≤ most }
    ensures runs { (trees : Trees) (before : Rest) (from : List ℕ) (first : Bool) →
        let w = world_in space.old.patterns ground.now shipped in
        let site = ground.now.site.now in
        IfOk result (λ ran. IsRaceless w.server
        → IsReached w space.old.patterns site page.pages.value
        → Continues site before (page_left w space.old.patterns site trees page.pages.value) from []
        first closing None level
        → RunsOn w space.old.patterns site trees before from out.new first ran) }
    ensures reached { let w = world_in space.old.patterns ground.now shipped in
        IsReached w space.old.patterns ground.now.site.now page.pages.value
        → IfOk result (λ ran. IfOn ran (λ o.
        FlightReached w space.old.patterns ground.now.site.now o.flight)) }
    ensures over { IfOk result (λ ran. IfOn ran (λ o. is_some o.log ≡ not (is_some o.flight))) }
    ensures fits { IfOk result (λ ran. IfOn ran (λ o. FlightFits o.flight (length out.new))) }
    ensures lowers { IfOk result (λ ran. IfOn ran (λ o.
        length out.new + flight_left o.flight (length out.new)
        < most_kept + pages_left page.pages.value)) }
    ensures by { IfOk result (λ ran. IfOn ran (λ o.
        FlightServedBy page.server page.length o.flight)) }
    ensures asked { IfOk result (λ ran. IfOn ran (λ o.
        flight_tree o.flight ≤ page.pages.value.family.tree)) }
    ensures closes { IfOk result (λ ran. IfOn ran (λ o. o.closing ≡ closing)) }
    ensures tail { IfOk result (λ ran. IfOn ran (λ o.
        TailIn page.pages.value.outgoing.block o.flight o.tail out.new)) }
    ensures kept { space.new.patterns ≡ space.old.patterns }
{
    let PageFlow {
        pages,
        server,
        length,
    } = page;
    let mut pages = pages;
    let inside = &mut *pages;
    match inside.run(space.alloc, ground, &mut space.patterns, at) {
        Ok(FamilyRan::Rests) => {
            if at == 0 && pages.family.is_done() {
                return Ok(Ran::On(ends(
                    Box::into_inner(pages),
                    out,
                    closing,
                    level,
                    &mut space.page_room,
                )?));
            }
            Ok(Ran::On(Onward {
                flight: Some(Flight::Page(PageFlow {
                    pages,
                    server,
                    length,
                })),
                closing,
                log: None,
                level,
                tail: 0,
            }))
        }
        Ok(FamilyRan::TooMany) => {
            drop(pages);
            Ok(Ran::TooMany)
        }
        Err(OutOfMemory) => {
            drop(pages);
            Err(OutOfMemory)
        }
    }
}

/// A page begins, and its first node runs.
fn opens(
    space: &mut Workspace,
    ground: &Ground<'_>,
    start: PageStart,
    out: &mut ByteQueue,
) -> Result<Ran, OutOfMemory>
    requires ground { IsGround ground.now }
    requires unsent { out.old ≡ [] }
    requires told { IsTold start.page }
    ensures runs { (trees : Trees) (before : Rest) (from : List ℕ) (first : Bool) →
        let w = world_in space.old.patterns ground.now shipped in
        let site = ground.now.site.now in
        IfOk result (λ ran. IsRaceless w.server → PageReached w space.old.patterns site start
        → Continues site before (with_opened start.request.value.opened
        (start_rest w space.old.patterns site trees start)) from []
        first start.closing None (Some start.level)
        → RunsOn w space.old.patterns site trees before from out.new first ran) }
    ensures reached { let w = world_in space.old.patterns ground.now shipped in
        PageReached w space.old.patterns ground.now.site.now start
        → IfOk result (λ ran. IfOn ran (λ o.
        FlightReached w space.old.patterns ground.now.site.now o.flight)) }
    ensures over { IfOk result (λ ran. IfOn ran (λ o. is_some o.log ≡ not (is_some o.flight))) }
    ensures fits { IfOk result (λ ran. IfOn ran (λ o. FlightFits o.flight (length out.new))) }
    ensures lowers { IfOk result (λ ran. IfOn ran (λ o.
        length out.new + flight_left o.flight (length out.new) < page_most)) }
    ensures by { IfOk result (λ ran. IfOn ran (λ o. FlightServedBy
        start.request.value.server start.request.value.length o.flight)) }
    ensures asked { IfOk result (λ ran. IfOn ran (λ o.
        flight_tree o.flight ≤ known_tree start.page.known)) }
    ensures closes { IfOk result (λ ran. IfOn ran (λ o. o.closing ≡ start.closing)) }
    ensures tail { IfOk result (λ ran. IfOn ran (λ o.
        TailIn (if start.page.chunked then Some [] else None) o.flight o.tail out.new)) }
    ensures kept { space.new.patterns ≡ space.old.patterns }
{
    let closing = start.closing;
    let level = start.level;
    let room = take(&mut space.page_room, Vec::new(space.alloc));
    let page = opened(space.alloc, ground, start, room)?;
    Ok(run_page(space, ground, page, 0, out, closing, Some(level))?)
}

/// Starts a main request: up to its first question to the files, or the whole response where it
/// asks none, or as far as its page runs by itself. `server` is the number of the ground's server,
/// which is kept for the caller.
///
/// # Errors
/// `OutOfMemory`; the request is then not to be answered.
pub fn start(
    space: &mut Workspace,
    ground: &Ground<'_>,
    server: u32,
    opening: Opening,
    out: &mut ByteQueue,
) -> Result<Ran, OutOfMemory>
    requires ground { IsGround ground.now }
    requires unsent { out.old ≡ [] }
    ensures runs { (trees : Trees) →
        let w = world_in space.old.patterns ground.now shipped in
        let site = ground.now.site.now in
        IfOk result (λ ran. IsRaceless w.server → RunsOn w space.old.patterns site trees
        (opened_rest w (trees opening.tree) (terms_at opening)
        (main_at ground.now opening) (request_of
        (server_whole (patterns_seen space.old.patterns) site ground.now.server.now)
        opening.head)) out.old out.new false ran) }
    ensures reached { let w = world_in space.old.patterns ground.now shipped in
        IfOk result (λ ran. IfOn ran (λ o.
        FlightReached w space.old.patterns ground.now.site.now o.flight)) }
    ensures over { IfOk result (λ ran. IfOn ran (λ o. is_some o.log ≡ not (is_some o.flight))) }
    ensures fits { IfOk result (λ ran. IfOn ran (λ o. FlightFits o.flight (length out.new))) }
    ensures lowers { IfOk result (λ ran. IfOn ran (λ o.
        length out.new + flight_left o.flight (length out.new) < page_most + asking_most)) }
    ensures by { IfOk result (λ ran. IfOn ran (λ o.
        FlightServedBy server ground.now.length o.flight)) }
    ensures asked { IfOk result (λ ran. IfOn ran (λ o. flight_tree o.flight ≤ opening.tree)) }
    ensures tail { IfOk result (λ ran. IfOn ran (λ o. TailFits None o.flight o.tail out.new)) }
    ensures kept { space.new.patterns ≡ space.old.patterns }
{
    let went = flow_start(space, ground, server, opening, out)?;
    Ok(went_on(space, ground, went, out)?)
}

/// A request asks a subrequest whether it is let in.
#[inline(never)]
fn asking(alloc: Global, ground: &Ground<'_>, start: AccessStart) -> Result<Onward, OutOfMemory>
    ensures goes { (patterns : List SetPattern) (trees : Trees) (before : Rest)
        (from out : List ℕ) (first : Bool) →
        let w = world_in patterns ground.now shipped in
        let site = ground.now.site.now in
        IfOk result (λ o. Follows site before (access_rest w patterns site trees start)
        from out first start.closing None None
        → Continues site (with_opened start.request.value.opened before)
        (flight_rest w patterns site o.flight trees) from out first o.closing o.log o.level) }
    ensures reached { (patterns : List SetPattern) →
        let w = world_in patterns ground.now shipped in
        let site = ground.now.site.now in
        StepReached w patterns site start.request.value (ToCall start.path) 0
        → IfOk result (λ o. FlightReached w patterns site o.flight) }
    ensures over { IfOk result (λ o. (is_some o.flight ≡ true) × (o.log ≡ None)) }
    ensures fits { IfOk result (λ o. FlightFits o.flight 0) }
    ensures lowers { IfOk result (λ o. flight_left o.flight 0
        ≡ page_most + (flow_most + 2 * start.request.value.questions + 2)) }
    ensures by { IfOk result (λ o. FlightServedBy
        start.request.value.server start.request.value.length o.flight) }
    ensures asked { IfOk result (λ o. flight_tree o.flight ≡ start.of) }
    ensures closes { IfOk result (λ o. o.closing ≡ start.closing) }
    ensures tail { IfOk result (λ o. o.tail ≡ 0) }
{
    let closing = start.closing;
    let flow = asks(alloc, ground, start)?;
    Ok(Onward {
        flight: Some(Flight::Asking(flow)),
        closing,
        log: None,
        level: None,
        tail: 0,
    })
}

/// What became of a request that went on: it goes on alone, asks a subrequest whether it is let in, or its
/// page begins.
#[inline(always)]
fn went_on(
    space: &mut Workspace,
    ground: &Ground<'_>,
    went: Went,
    out: &mut ByteQueue,
) -> Result<Ran, OutOfMemory>
    requires ground { IsGround ground.now }
    requires pages { IfPage went (λ p. (out.old ≡ []) × IsTold p.page) }
    requires asks { IfAsks went (λ a. out.old ≡ []) }
    requires over { IfGoes went (λ o. is_some o.log ≡ not (is_some o.flow)) }
    requires fits { IfGoes went (λ o. flow_fits o.flow (length out.old) ≡ true) }
    requires few { (count : ℕ) × AreOpened count went × (count ≤ 255) }
    ensures runs { (trees : Trees) (before : Rest) (from : List ℕ) (first : Bool) (count : ℕ) →
        let w = world_in space.old.patterns ground.now shipped in
        let site = ground.now.site.now in
        IfOk result (λ ran. IsRaceless w.server → WentReached w space.old.patterns site went
        → AreOpened count went → count ≤ 255
        → GoesTo w space.old.patterns site trees before from out.old first went
        → RunsOn w space.old.patterns site trees (with_opened count before) from out.new first ran) }
    ensures reached { let w = world_in space.old.patterns ground.now shipped in
        WentReached w space.old.patterns ground.now.site.now went
        → IfOk result (λ ran. IfOn ran (λ o.
        FlightReached w space.old.patterns ground.now.site.now o.flight)) }
    ensures over { IfOk result (λ ran. IfOn ran (λ o. is_some o.log ≡ not (is_some o.flight))) }
    ensures fits { IfOk result (λ ran. IfOn ran (λ o. FlightFits o.flight (length out.new))) }
    ensures lowers { (top : ℕ) →
        IfGoes went (λ o. length out.old + flow_left o.flow (length out.old) < top)
        → IfAsks went (λ a. flow_most + 2 * a.request.value.questions + 2 < top)
        → IfOk result (λ ran. IfOn ran (λ o.
        length out.new + flight_left o.flight (length out.new) < page_most + top)) }
    ensures by { (server length : ℕ) → IsServed server length went
        → IfOk result (λ ran. IfOn ran (λ o. FlightServedBy server length o.flight)) }
    ensures asked { IfOk result (λ ran. IfOn ran (λ o. flight_tree o.flight ≤ tree_of_went went)) }
    ensures closes { closing_of went ≡ true
        → IfOk result (λ ran. IfOn ran (λ o. o.closing ≡ true)) }
    ensures tail { IfOk result (λ ran. IfOn ran (λ o. TailFits None o.flight o.tail out.new)) }
    ensures kept { space.new.patterns ≡ space.old.patterns }
{
    match went {
        Went::On(onward) => Ok(Ran::On(alone(onward))),
        Went::Asks(start) => Ok(Ran::On(asking(space.alloc, ground, start)?)),
        Went::Page(page) => Ok(opens(space, ground, Box::into_inner(page), out)?),
    }
}

/// Runs a request on that goes on alone.
#[inline(always)]
fn run_alone(
    space: &mut Workspace,
    ground: &Ground<'_>,
    flow: Box<Flow>,
    out: &mut ByteQueue,
    closing: bool,
) -> Result<Ran, OutOfMemory>
    requires ground { IsGround ground.now }
    requires fits { FlightFits (Some (AloneFlight flow)) (length out.old) }
    requires runs { can_run flow.value.stage ≡ true }
    ensures runs { (trees : Trees) →
        let w = world_in space.old.patterns ground.now shipped in
        let site = ground.now.site.now in
        IfOk result (λ ran. IsRaceless w.server
        → FlowReached w space.old.patterns site (Some flow)
        → RunsOn w space.old.patterns site trees
        (flight_rest w space.old.patterns site (Some (AloneFlight flow)) trees)
        out.old out.new closing ran) }
    ensures reached { let w = world_in space.old.patterns ground.now shipped in
        FlowReached w space.old.patterns ground.now.site.now (Some flow)
        → IfOk result (λ ran. IfOn ran (λ o.
        FlightReached w space.old.patterns ground.now.site.now o.flight)) }
    ensures over { IfOk result (λ ran. IfOn ran (λ o. is_some o.log ≡ not (is_some o.flight))) }
    ensures fits { IfOk result (λ ran. IfOn ran (λ o. FlightFits o.flight (length out.new))) }
    ensures lowers { IfOk result (λ ran. IfOn ran (λ o.
        length out.new + flight_left o.flight (length out.new)
        < page_most + (length out.old + flow_left (Some flow) (length out.old)))) }
    ensures by { IfOk result (λ ran. IfOn ran (λ o. FlightServedBy
        (stage_server flow.value.stage) (stage_length flow.value.stage) o.flight)) }
    ensures asked { IfOk result (λ ran. IfOn ran (λ o.
        flight_tree o.flight ≤ tree_asked (Some flow))) }
    ensures closes { closing ≡ true → IfOk result (λ ran. IfOn ran (λ o. o.closing ≡ true)) }
    ensures tail { IfOk result (λ ran. IfOn ran (λ o. TailFits None o.flight o.tail out.new)) }
    ensures kept { space.new.patterns ≡ space.old.patterns }
{
    let went = flow_run_on(space, ground, flow, out, closing)?;
    Ok(went_on(space, ground, went, out)?)
}

/// A subrequest that was asked whether a main request is let in goes on.
fn still_asking(flow: Box<AccessFlow>, closing: bool) -> Onward
    ensures { result ≡ record {
      flight = Some (AskingFlight flow);
      closing = closing;
      log = None;
      level = None;
      tail = 0;
    } }
{
    Onward {
        flight: Some(Flight::Asking(flow)),
        closing,
        log: None,
        level: None,
        tail: 0,
    }
}

/// Runs a request on that asked a subrequest whether it is let in: that subrequest, or, once it has
/// replied, the main request.
#[inline(never)]
fn run_asking(
    space: &mut Workspace,
    ground: &Ground<'_>,
    flow: Box<AccessFlow>,
    out: &mut ByteQueue,
    closing: bool,
) -> Result<Ran, OutOfMemory>
    requires ground { IsGround ground.now }
    requires fits { FlightFits (Some (AskingFlight flow)) (length out.old) }
    requires runs { not (waits flow.value.stage) ≡ true }
    ensures runs { (trees : Trees) →
        let w = world_in space.old.patterns ground.now shipped in
        let site = ground.now.site.now in
        IfOk result (λ ran. IsRaceless w.server
        → AccessReached w space.old.patterns site flow.value
        → RunsOn w space.old.patterns site trees
        (flight_rest w space.old.patterns site (Some (AskingFlight flow)) trees)
        out.old out.new closing ran) }
    ensures reached { let w = world_in space.old.patterns ground.now shipped in
        AccessReached w space.old.patterns ground.now.site.now flow.value
        → IfOk result (λ ran. IfOn ran (λ o.
        FlightReached w space.old.patterns ground.now.site.now o.flight)) }
    ensures over { IfOk result (λ ran. IfOn ran (λ o. is_some o.log ≡ not (is_some o.flight))) }
    ensures fits { IfOk result (λ ran. IfOn ran (λ o. FlightFits o.flight (length out.new))) }
    ensures lowers { IfOk result (λ ran. IfOn ran (λ o.
        length out.new + flight_left o.flight (length out.new)
        < page_most + (length out.old + steps_left flow.value))) }
    ensures by { IfOk result (λ ran. IfOn ran (λ o. FlightServedBy
        flow.value.request.value.server flow.value.request.value.length o.flight)) }
    ensures asked { IfOk result (λ ran. IfOn ran (λ o. flight_tree o.flight ≤ flow.value.of)) }
    ensures closes { closing ≡ true → IfOk result (λ ran. IfOn ran (λ o. o.closing ≡ true)) }
    ensures tail { IfOk result (λ ran. IfOn ran (λ o. TailFits None o.flight o.tail out.new)) }
    ensures kept { space.new.patterns ≡ space.old.patterns }
{
    let ran = access_run_on(space, ground, flow, out, closing)?;
    match ran {
        AccessRan::Rests(flow) => Ok(Ran::On(still_asking(flow, closing))),
        AccessRan::Went(went) => Ok(went_on(space, ground, went, out)?),
    }
}

/// Runs a node of a request on that can run, to its next job or its end: the only one of a request
/// alone is 0.
///
/// # Errors
/// `OutOfMemory`; the request is then not to be answered.
#[inline(always)]
pub fn run_on(
    space: &mut Workspace,
    ground: &Ground<'_>,
    flight: Flight,
    at: u32,
    out: &mut ByteQueue,
    closing: bool,
) -> Result<Ran, OutOfMemory>
    requires ground { IsGround ground.now }
    requires fits { FlightFits (Some flight) (length out.old) }
    requires runs { is_among at (ready_of (Some flight)) ≡ true }
    ensures runs { (trees : Trees) →
        let w = world_in space.old.patterns ground.now shipped in
        let site = ground.now.site.now in
        IfOk result (λ ran. IsRaceless w.server
        → FlightReached w space.old.patterns site (Some flight)
        → RunsOn w space.old.patterns site trees
        (flight_rest w space.old.patterns site (Some flight) trees) out.old out.new closing ran) }
    ensures reached { let w = world_in space.old.patterns ground.now shipped in
        FlightReached w space.old.patterns ground.now.site.now (Some flight)
        → IfOk result (λ ran. IfOn ran (λ o.
        FlightReached w space.old.patterns ground.now.site.now o.flight)) }
    ensures over { IfOk result (λ ran. IfOn ran (λ o. is_some o.log ≡ not (is_some o.flight))) }
    ensures fits { IfOk result (λ ran. IfOn ran (λ o. FlightFits o.flight (length out.new))) }
    ensures lowers { IfOk result (λ ran. IfOn ran (λ o.
        length out.new + flight_left o.flight (length out.new)
        < length out.old + flight_left (Some flight) (length out.old))) }
    ensures by { IfOk result (λ ran. IfOn ran (λ o.
        FlightServedBy (flight_server flight) (flight_length flight) o.flight)) }
    ensures asked { IfOk result (λ ran. IfOn ran (λ o.
        flight_tree o.flight ≤ flight_tree (Some flight))) }
    ensures closes { IfOk result (λ ran. IfOn ran (λ o. closing ≡ true → o.closing ≡ true)) }
    ensures tail { IfOk result (λ ran. IfOn ran (λ o.
        TailFits (Some flight) o.flight o.tail out.new)) }
    ensures kept { space.new.patterns ≡ space.old.patterns }
{
    match flight {
        Flight::Alone(flow) => Ok(run_alone(space, ground, flow, out, closing)?),
        Flight::Asking(flow) => Ok(run_asking(space, ground, flow, out, closing)?),
        Flight::Page(page) => Ok(run_page(space, ground, page, at, out, closing, None)?),
    }
}

/// Puts the flight with which a response goes on in its place, and answers the rest.
fn goes_on(flight: &mut Option<Flight>, onward: Onward) -> Passed
    ensures { ran_in flight.new result ≡ OnView onward }
{
    let Onward {
        flight: next,
        closing,
        log,
        level,
        tail,
    } = onward;
    put(flight, next);
    Passed::On {
        closing,
        log,
        level,
        tail,
    }
}

/// The same of what ran.
fn passed(flight: &mut Option<Flight>, ran: Ran) -> Passed
    ensures { ran_in flight.new result ≡ ran }
{
    match ran {
        Ran::On(onward) => goes_on(flight, onward),
        Ran::TooMany => Passed::TooMany,
    }
}

/// Runs a node of a page on, with the page in its place: whether that ends the page; none where it
/// asks for more subrequests than are opened.
fn page_passes(
    space: &mut Workspace,
    ground: &Ground<'_>,
    pages: &mut Pages,
    at: u32,
) -> Result<Option<bool>, OutOfMemory>
    requires ground { IsGround ground.now }
    requires whole { IsWhole pages.old.family }
    requires bounded { length pages.old.outgoing.pending ≤ most }
    ensures runs { IfOk result (λ over. RunsTo space.old.patterns ground.now pages.old pages.new
        (ran_as over)) }
    ensures done { IfOk result (λ over. over ≡ Some true → IsWhole pages.new.family →
        (ps : List SetPattern) (h : GroundView) → IsDone ps h pages.new.family) }
    ensures tree { OnOk result (pages.new.family.tree ≡ pages.old.family.tree) }
    ensures kind { OnOk result (is_some pages.new.outgoing.block
        ≡ is_some pages.old.outgoing.block) }
    ensures kept { space.new.patterns ≡ space.old.patterns }
{
    match pages.run(space.alloc, ground, &mut space.patterns, at)? {
        FamilyRan::Rests => Ok(Some(at == 0 && pages.family.is_done())),
        FamilyRan::TooMany => Ok(None),
    }
}

/// Ends a page that is over, in its place; the room of its bytes is kept for the next page.
fn page_ends(
    flight: &mut Option<Flight>,
    out: &mut ByteQueue,
    closing: bool,
    room: &mut Vec<u8>,
) -> Result<Passed, OutOfMemory>
    requires page { (p : PageFlowView) × (flight.old ≡ Some (PageFlight p))
        × IsWhole p.pages.value.family }
    requires unsent { out.old ≡ [] }
    ensures ends { (p : PageFlowView) (w : World) (patterns : List SetPattern) (site : SiteRow)
        (trees : Trees) (before : Rest) (from : List ℕ) (first : Bool) →
        flight.old ≡ Some (PageFlight p) → IsAllOver w patterns site trees p.pages.value
        → Continues site before (page_left w patterns site trees p.pages.value) from [] first
        closing None None → IfOk result (λ passed. RunsOn w patterns site trees before from
        out.new first (ran_in flight.new passed)) }
    ensures over { IfOk result (λ passed. IfOn (ran_in flight.new passed) (λ o.
        (o.flight ≡ None) × (is_some o.log ≡ true))) }
    ensures closes { IfOk result (λ passed. IfOn (ran_in flight.new passed) (λ o.
        o.closing ≡ closing)) }
    ensures kept { IfOk result (λ passed. length out.new ≤ most_kept) }
    ensures tail { IfOk result (λ passed. IfOn (ran_in flight.new passed) (λ o.
        TailFits flight.old o.flight o.tail out.new)) }
{
    match take(flight, None) {
        Some(Flight::Page(page)) => {
            let onward = ends(Box::into_inner(page.pages), out, closing, None, room)?;
            Ok(goes_on(flight, onward))
        }
        Some(Flight::Alone(_)) => unreachable!(),
        Some(Flight::Asking(_)) => unreachable!(),
        None => unreachable!(),
    }
}

/// Whether a block of the file of a request alone came.
fn is_sending(flight: &Option<Flight>) -> bool
    ensures { result ≡ sends_alone flight.now }
{
    match flight {
        Some(Flight::Alone(flow)) => is_flow_sending(&**flow),
        Some(Flight::Asking(_)) => false,
        Some(Flight::Page(_)) => false,
        None => false,
    }
}

/// A block of the file of a request alone came: it goes on in its place.
fn sends(flight: &mut Option<Flight>, size: usize, closing: bool) -> Passed
    requires fits { FlightFits flight.old size }
    requires sends { sends_alone flight.old ≡ true }
    requires runs { (at : ℕ) × (is_among at (ready_of flight.old) ≡ true) }
    ensures runs { (w : World) (patterns : List SetPattern) (site : SiteRow) (trees : Trees)
        (out : List ℕ) → RunsOn w patterns site trees
        (flight_rest w patterns site flight.old trees) out out closing
        (ran_in flight.new result) }
    ensures reached { (w : World) (patterns : List SetPattern) (site : SiteRow) →
        IfOn (ran_in flight.new result) (λ o. FlightReached w patterns site o.flight) }
    ensures over { IfOn (ran_in flight.new result) (λ o. is_some o.log ≡ not (is_some o.flight)) }
    ensures fits { IfOn (ran_in flight.new result) (λ o. FlightFits o.flight size) }
    ensures lowers { IfOn (ran_in flight.new result) (λ o.
        size + flight_left o.flight size < size + flight_left flight.old size) }
    ensures by { (server length : ℕ) → IfOn (ran_in flight.new result) (λ o.
        FlightServedBy server length o.flight) }
    ensures asked { IfOn (ran_in flight.new result) (λ o.
        flight_tree o.flight ≤ flight_tree flight.old) }
    ensures closes { IfOn (ran_in flight.new result) (λ o. closing ≡ true → o.closing ≡ true) }
    ensures tail { (out : List ℕ) → IfOn (ran_in flight.new result) (λ o.
        TailFits flight.old o.flight o.tail out) }
{
    let log = match flight {
        Some(Flight::Alone(flow)) => sends_on(flow, size),
        Some(Flight::Asking(_)) => unreachable!(),
        Some(Flight::Page(_)) => unreachable!(),
        None => unreachable!(),
    };
    if log.is_some() {
        put(flight, None);
    }
    Passed::On {
        closing,
        log,
        level: None,
        tail: 0,
    }
}

/// Runs a node of the request in flight on, as `run_on` does, with the flight taken out and put back.
#[inline(always)]
fn moves_on(
    space: &mut Workspace,
    ground: &Ground<'_>,
    flight: &mut Option<Flight>,
    at: u32,
    out: &mut ByteQueue,
    closing: bool,
) -> Result<Passed, OutOfMemory>
    requires ground { IsGround ground.now }
    requires some { is_some flight.old ≡ true }
    requires fits { FlightFits flight.old (length out.old) }
    requires runs { is_among at (ready_of flight.old) ≡ true }
    ensures runs { (trees : Trees) →
        let w = world_in space.old.patterns ground.now shipped in
        let site = ground.now.site.now in
        IfOk result (λ passed. IsRaceless w.server
        → FlightReached w space.old.patterns site flight.old
        → RunsOn w space.old.patterns site trees
        (flight_rest w space.old.patterns site flight.old trees) out.old out.new closing
        (ran_in flight.new passed)) }
    ensures reached { let w = world_in space.old.patterns ground.now shipped in
        FlightReached w space.old.patterns ground.now.site.now flight.old
        → IfOk result (λ passed. IfOn (ran_in flight.new passed) (λ o.
        FlightReached w space.old.patterns ground.now.site.now o.flight)) }
    ensures over { IfOk result (λ passed. IfOn (ran_in flight.new passed) (λ o.
        is_some o.log ≡ not (is_some o.flight))) }
    ensures fits { IfOk result (λ passed. IfOn (ran_in flight.new passed) (λ o.
        FlightFits o.flight (length out.new))) }
    ensures lowers { IfOk result (λ passed. IfOn (ran_in flight.new passed) (λ o.
        length out.new + flight_left o.flight (length out.new)
        < length out.old + flight_left flight.old (length out.old))) }
    ensures by { (f : FlightView) → flight.old ≡ Some f
        → IfOk result (λ passed. IfOn (ran_in flight.new passed) (λ o.
        FlightServedBy (flight_server f) (flight_length f) o.flight)) }
    ensures asked { IfOk result (λ passed. IfOn (ran_in flight.new passed) (λ o.
        flight_tree o.flight ≤ flight_tree flight.old)) }
    ensures closes { IfOk result (λ passed. IfOn (ran_in flight.new passed) (λ o.
        closing ≡ true → o.closing ≡ true)) }
    ensures tail { IfOk result (λ passed. IfOn (ran_in flight.new passed) (λ o.
        TailFits flight.old o.flight o.tail out.new)) }
    ensures kept { space.new.patterns ≡ space.old.patterns }
{
    let Some(moved) = take(flight, None) else {
        unreachable!()
    };
    let ran = run_on(space, ground, moved, at, out, closing)?;
    Ok(passed(flight, ran))
}

/// Runs a node of the request in flight on, as `run_on` does, with the flight in its place: neither a
/// page nor a file that is sent is moved.
///
/// # Errors
/// `OutOfMemory`; the request is then not to be answered.
pub fn run_in_place(
    space: &mut Workspace,
    ground: &Ground<'_>,
    flight: &mut Option<Flight>,
    at: u32,
    out: &mut ByteQueue,
    closing: bool,
) -> Result<Passed, OutOfMemory>
    requires ground { IsGround ground.now }
    requires some { is_some flight.old ≡ true }
    requires fits { FlightFits flight.old (length out.old) }
    requires runs { is_among at (ready_of flight.old) ≡ true }
    ensures runs { (trees : Trees) →
        let w = world_in space.old.patterns ground.now shipped in
        let site = ground.now.site.now in
        IfOk result (λ passed. IsRaceless w.server
        → FlightReached w space.old.patterns site flight.old
        → RunsOn w space.old.patterns site trees
        (flight_rest w space.old.patterns site flight.old trees) out.old out.new closing
        (ran_in flight.new passed)) }
    ensures reached { let w = world_in space.old.patterns ground.now shipped in
        FlightReached w space.old.patterns ground.now.site.now flight.old
        → IfOk result (λ passed. IfOn (ran_in flight.new passed) (λ o.
        FlightReached w space.old.patterns ground.now.site.now o.flight)) }
    ensures over { IfOk result (λ passed. IfOn (ran_in flight.new passed) (λ o.
        is_some o.log ≡ not (is_some o.flight))) }
    ensures fits { IfOk result (λ passed. IfOn (ran_in flight.new passed) (λ o.
        FlightFits o.flight (length out.new))) }
    ensures lowers { IfOk result (λ passed. IfOn (ran_in flight.new passed) (λ o.
        length out.new + flight_left o.flight (length out.new)
        < length out.old + flight_left flight.old (length out.old))) }
    ensures by { (f : FlightView) → flight.old ≡ Some f
        → IfOk result (λ passed. IfOn (ran_in flight.new passed) (λ o.
        FlightServedBy (flight_server f) (flight_length f) o.flight)) }
    ensures asked { IfOk result (λ passed. IfOn (ran_in flight.new passed) (λ o.
        flight_tree o.flight ≤ flight_tree flight.old)) }
    ensures closes { IfOk result (λ passed. IfOn (ran_in flight.new passed) (λ o.
        closing ≡ true → o.closing ≡ true)) }
    ensures tail { IfOk result (λ passed. IfOn (ran_in flight.new passed) (λ o.
        TailFits flight.old o.flight o.tail out.new)) }
    ensures kept { space.new.patterns ≡ space.old.patterns }
{
    if is_sending(flight) {
        return Ok(sends(flight, out.len(), closing));
    }
    let over = match flight {
        Some(Flight::Page(page)) => page_passes(space, ground, &mut *page.pages, at)?,
        Some(Flight::Alone(_)) => return Ok(moves_on(space, ground, flight, at, out, closing)?),
        Some(Flight::Asking(_)) => return Ok(moves_on(space, ground, flight, at, out, closing)?),
        None => unreachable!(),
    };
    match over {
        Some(true) => Ok(page_ends(flight, out, closing, &mut space.page_room)?),
        Some(false) => Ok(Passed::On {
            closing,
            log: None,
            level: None,
            tail: 0,
        }),
        None => Ok(Passed::TooMany),
    }
}
