// A request starts.
ghost use Rattle.std.specs.Prelude.{◌≡◌, ◌≤◌, ◌<◌, ◌+◌, ◌-◌, ◌++◌, ◌∷◌, ◌||◌, true, not, [], ℕ, length, take, is_some, OnErr, OnOk, IfOk, None};
ghost use Rattle.ngx_outside.specs.Views.{start_of, log_of};
ghost use Rattle.req_head.specs.Step.{head_step};
ghost use Rattle.ngx_outside.specs.declared.event.Entry.{Entry as Logged};
ghost use Rattle.response_flow.specs.request_flow.Flows.{asking_most};
ghost use Rattle.response_flow.specs.Continues.{IfOn};
ghost use Rattle.response_flow.specs.Flights.{FlightFits, TailFits, flight_left, flight_tree, page_most};
ghost use Rattle.http_connection.specs.Rests.{AreRaceless, ReachedIn, Serves, service_in, rest_in, values_at};
ghost use Rattle.req_head.specs.declared.head.Head.{Head as RequestHead};
ghost use Rattle.req_head.specs.declared.head.HeadStep.TheVariants.{Head as AtHead, More as AwaitsMore};
ghost use Rattle.http_connection.specs.Steps.{is_head as is_head_step, begins as head_begins, log_ran, start_in, RanTo};
ghost use Rattle.http_connection.specs.Times.{LevelFor};

use crate::body::drop_body;
use crate::input::{begins, behind};
use crate::journal::enter;
use crate::open::{Meeting, open, refuse};
use crate::slot::{put, take};
use crate::times::own_level;
use body_frame::BodyState;
use byte_text::{ByteQueue, OutOfMemory};
use req_head::{Head, HeadRoom, HeadStep, awaits_first, read_head_in, size_fits};
use request_journal::Journal;
use response_flow::reply_out::Workspace;
use response_flow::{Onward, Ran};
use served_site::ServedSite;

// What becomes of a request after whose body the input is broken or not.
fn with_broken(onward: Onward, broken: bool) -> Onward
    ensures { result ≡ record onward { closing = onward.closing || broken } }
{
    Onward {
        closing: onward.closing || broken,
        flight: onward.flight,
        log: onward.log,
        level: onward.level,
        tail: onward.tail,
    }
}

// Takes out the head with which a request begins.
fn take_head(next: &mut HeadStep) -> Head
    requires { is_head_step next.old ≡ true }
    ensures head { (head : RequestHead) (size : ℕ) → next.old ≡ AtHead head size → result ≡ head }
    ensures left { next.new ≡ AwaitsMore }
{
    match take(next, HeadStep::More) {
        HeadStep::Head { head, size: _ } => head,
        HeadStep::Bad { .. } => unreachable!(),
        HeadStep::More => unreachable!(),
    }
}

// Looks at what is buffered after a request, where its head was taken out.
fn look_on(room: &mut HeadRoom, rest: &[u8], next: &mut HeadStep) -> Result<(), OutOfMemory>
    requires { next.old ≡ AwaitsMore }
    ensures { OnOk result (next.new ≡ head_step rest.now) }
{
    awaits_first();
    if rest.is_empty() {
        return Ok(());
    }
    put(next, read_head_in(room, rest)?);
    Ok(())
}

// What a request starts in: the site that is served, and where and when it comes.
#[derive(Clone, Copy)]
pub(crate) struct Setting<'a> {
    pub(crate) served: &'a ServedSite,
    pub(crate) meeting: Meeting,
}

// Starts a request: what is answered at once is put after what is kept for the peer, the request is written into the journal,
// and what is buffered after it is looked at. Where it asks for more subrequests than are opened, it is only written into the journal.
pub(crate) fn run_one(
    space: &mut Workspace,
    setting: Setting<'_>,
    buffered: &mut ByteQueue,
    next: &mut HeadStep,
    body: &mut Option<BodyState>,
    out: &mut ByteQueue,
    journal: &mut Journal,
) -> Result<Ran, OutOfMemory>
    requires looked { next.old ≡ head_step buffered.old }
    requires begins { head_begins next.old ≡ true }
    requires unsent { out.old ≡ [] }
    ensures ran { let m = setting.entry.meeting in let x : Serves = record {
      patterns = space.old.patterns;
      served = setting.entry.served.now;
    } in
        IfOk result (λ ran. RanTo x (service_in x m.local m.peer) (start_in m)
        (length journal.old.past.entries) next.old buffered.old buffered.new body.new out.old
        out.new ran) }
    ensures level { let m = setting.entry.meeting in let x : Serves = record {
      patterns = space.old.patterns;
      served = setting.entry.served.now;
    } in
        IfOk result (λ ran. IfOn ran (λ o. AreRaceless x → LevelFor
        (service_in x m.local m.peer) (start_in m) next.old
        (λ trees. (rest_in x o.flight trees).values) (values_at x.served o.level))) }
    ensures reached { let x : Serves = record {
      patterns = space.old.patterns;
      served = setting.entry.served.now;
    } in
        IfOk result (λ ran. IfOn ran (λ o. ReachedIn x o.flight)) }
    ensures looked { IfOk result (λ ran. IfOn ran (λ o. next.new ≡ head_step buffered.new)) }
    ensures journal { IfOk result (λ ran. (entry : Logged) ×
        (start_of entry ≡ start_in setting.entry.meeting) ×
        (log_of entry ≡ log_ran ran) ×
        (journal.new.past.entries ≡ journal.old.past.entries ++ entry ∷ [])) }
    ensures kept { OnErr result (journal.new.past.entries ≡ journal.old.past.entries) }
    ensures keeps { journal.new.keeps ≡ journal.old.keeps }
    ensures over { IfOk result (λ ran. IfOn ran (λ o. is_some o.log ≡ not (is_some o.flight))) }
    ensures fits { IfOk result (λ ran. IfOn ran (λ o. FlightFits o.flight (length out.new))) }
    ensures lowers { IfOk result (λ ran. IfOn ran (λ o. length out.new + flight_left o.flight
        (length out.new) < page_most + asking_most)) }
    ensures asked { IfOk result (λ ran. IfOn ran (λ o.
        flight_tree o.flight ≤ setting.entry.meeting.tree)) }
    ensures tail { IfOk result (λ ran. IfOn ran (λ o. TailFits None o.flight o.tail out.new)) }
    ensures patterns { space.new.patterns ≡ space.old.patterns }
{
    let Setting { served, meeting } = setting;
    match next {
        HeadStep::Head { head, size } => {
            size_fits();
            journal.make_room()?;
            let dropped = drop_body(BodyState::new(head.body), behind(buffered, *size));
            let size = *size + dropped.used;
            let head = take_head(next);
            look_on(&mut space.head_room, behind(buffered, size), next)?;
            match open(space, served, out, head, journal.len(), meeting) {
                Ok(Ran::TooMany) => {
                    enter(journal, meeting.moment, meeting.tree, None);
                    Ok(Ran::TooMany)
                }
                Ok(Ran::On(opened)) => {
                    let onward = with_broken(opened, dropped.broken);
                    enter(journal, meeting.moment, meeting.tree, onward.log);
                    buffered.used(size);
                    *body = dropped.body;
                    Ok(Ran::On(onward))
                }
                Err(OutOfMemory) => Err(OutOfMemory),
            }
        }
        HeadStep::Bad { code, no_body } => {
            journal.make_room()?;
            let level = own_level(served, meeting.local);
            let onward = refuse(space, out, *code, meeting.moment, *no_body, level)?;
            enter(journal, meeting.moment, meeting.tree, onward.log);
            *body = None;
            Ok(Ran::On(onward))
        }
        HeadStep::More => unreachable!(),
    }
}
