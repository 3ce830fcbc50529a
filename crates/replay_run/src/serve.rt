// The events of one connection, and what they leave of its lane.
ghost use Rattle.std.specs.Prelude.{◌≡◌, ◌<◌, ◌≤◌, ◌+◌, ◌*◌, ℕ, [], Some, true, false, min, length, take, ◌++◌, OnOk, IfOk};
ghost use Rattle.ngx_outside.specs.Views.{no_bytes, OpensIf};
ghost use Rattle.ngx_outside.specs.Seen.{opens_at};
ghost use Rattle.ngx_outside.specs.declared.event.Event.TheVariants.{Opened, Ended, Wrote};
ghost use Rattle.replay_run.specs.Scene.{Gives, Opens, Offers, EndsIfDue, shown_lane, offered_lane, written_lane, is_ending, work_of};

use crate::{InputEnd, Lane, LinkEnds};
use byte_text::OutOfMemory;
use ngx_outside::{Event, EventCore, StepAnswer};

/// Opens the connection at these ends, and keeps them where that is done. It is skipped only where the core opens none there.
pub fn open<E: EventCore>(core: &mut E, lane: &mut Lane, ends: LinkEnds) -> StepAnswer
    ensures opens { Opens (E.seen core.old).terms.fresh lane.old.conn ends result
        (E.seen core.old).view (E.seen core.old).now (E.seen core.new).view (E.seen core.new).now
        (shown_lane lane.old) (shown_lane lane.new) }
    ensures why { OpensIf (opens_at (E.seen core.old))
        (Opened lane.old.conn ends.local ends.peer) result }
    ensures conn { lane.new.conn ≡ lane.old.conn }
    ensures steady { (E.seen core.new).terms ≡ (E.seen core.old).terms }
{
    let answer = core.step(Event::Opened {
        conn: lane.conn,
        local: ends.local,
        peer: ends.peer,
    });
    match answer {
        StepAnswer::Done { taken: _ } => lane.ends = Some(ends),
        StepAnswer::Skipped => {}
        StepAnswer::OutOfMemory => {}
    }
    answer
}

/// Offers all that waits to the connection, and drops what it takes.
pub fn offer<E: EventCore>(core: &mut E, lane: &mut Lane) -> StepAnswer
    ensures offers { Offers (E.seen core.old).terms.fresh lane.old.conn lane.old.queue result
        (E.seen core.old).view (E.seen core.old).now (E.seen core.new).view (E.seen core.new).now }
    ensures lane { shown_lane lane.new ≡ offered_lane (shown_lane lane.old) result }
    ensures conn { lane.new.conn ≡ lane.old.conn }
    ensures falls { (room : ℕ) → no_bytes lane.old.queue ≡ false →
        ((E.seen core.old).view lane.old.conn).room ≡ Some room →
        (E.seen core.new).left + work_of (E.seen core.old).terms.price lane.new <
        (E.seen core.old).left + work_of (E.seen core.old).terms.price lane.old }
    ensures steady { (E.seen core.new).terms ≡ (E.seen core.old).terms }
{
    let answer = core.step(Event::Arrived {
        conn: lane.conn,
        bytes: lane.queue.front(),
    });
    match answer {
        StepAnswer::Done { taken } => lane.queue.used(taken),
        StepAnswer::Skipped => {}
        StepAnswer::OutOfMemory => {}
    }
    answer
}

// Whether the input ends now.
fn ends_now(lane: &Lane) -> bool
    ensures { result ≡ is_ending (shown_lane lane.now) }
{
    match lane.tail {
        InputEnd::Open => false,
        InputEnd::Due => lane.queue.is_empty(),
        InputEnd::Given => lane.queue.is_empty(),
    }
}

/// Tells the core that the input ends, where it does.
pub fn end_if_due<E: EventCore>(core: &mut E, lane: &mut Lane) -> StepAnswer
    ensures ends { EndsIfDue (E.seen core.old).terms.fresh lane.old.conn (shown_lane lane.old)
        (shown_lane lane.new) result (E.seen core.old).view (E.seen core.old).now
        (E.seen core.new).view (E.seen core.new).now }
    ensures conn { lane.new.conn ≡ lane.old.conn }
    ensures falls { (room : ℕ) → lane.old.queue ≡ [] → lane.old.tail ≡ InputEnd.Due →
        ((E.seen core.old).view lane.old.conn).room ≡ Some room →
        (E.seen core.new).left + work_of (E.seen core.old).terms.price lane.new <
        (E.seen core.old).left + work_of (E.seen core.old).terms.price lane.old }
    ensures steady { (E.seen core.new).terms ≡ (E.seen core.old).terms }
{
    if !ends_now(lane) {
        return StepAnswer::Skipped;
    }
    let answer = core.step(Event::Ended { conn: lane.conn });
    match answer {
        StepAnswer::Done { taken: _ } => lane.tail = InputEnd::Given,
        StepAnswer::Skipped => {}
        StepAnswer::OutOfMemory => {}
    }
    answer
}

// The front of the pending bytes is kept as emitted.
fn keep_front<E: EventCore>(core: &E, lane: &mut Lane, most: u64) -> Result<usize, OutOfMemory>
    ensures count { IfOk result (λ count.
        count ≡ min most (length ((E.seen core.now).view lane.old.conn).pending)) }
    ensures kept { IfOk result (λ count.
        lane.new.emitted ≡ lane.old.emitted ++ take count
        ((E.seen core.now).view lane.old.conn).pending) }
    ensures same { (lane.new.conn ≡ lane.old.conn) × (lane.new.queue ≡ lane.old.queue) ×
        (lane.new.tail ≡ lane.old.tail) × (lane.new.ends ≡ lane.old.ends) }
{
    let pending = core.pending(lane.conn);
    let count = if most < pending.len() as u64 {
        most as usize
    } else {
        pending.len()
    };
    lane.emitted.extend(&pending[..count])?;
    Ok(count)
}

/// Writes at most this many of the pending bytes.
pub fn write<E: EventCore>(
    core: &mut E,
    lane: &mut Lane,
    most: u64,
) -> Result<StepAnswer, OutOfMemory>
    ensures gives { IfOk result (λ a. (count : ℕ) ×
        (count ≡ min most (length ((E.seen core.old).view lane.old.conn).pending)) ×
        Gives (E.seen core.old).terms.fresh (Wrote lane.old.conn count) a (E.seen core.old).view
        (E.seen core.old).now (E.seen core.new).view (E.seen core.new).now ×
        (shown_lane lane.new ≡ written_lane (shown_lane lane.old) a count
        ((E.seen core.old).view lane.old.conn).pending)) }
    ensures conn { lane.new.conn ≡ lane.old.conn }
    ensures falls { OnOk result (length ((E.seen core.old).view lane.old.conn).pending ≤ most →
        no_bytes ((E.seen core.old).view lane.old.conn).pending ≡ false →
        (E.seen core.new).left + work_of (E.seen core.old).terms.price lane.new <
        (E.seen core.old).left + work_of (E.seen core.old).terms.price lane.old) }
    ensures steady { OnOk result ((E.seen core.new).terms ≡ (E.seen core.old).terms) }
{
    let count = keep_front(core, lane, most)?;
    let answer = core.step(Event::Wrote {
        conn: lane.conn,
        count,
    });
    match answer {
        StepAnswer::Done { taken: _ } => {}
        StepAnswer::Skipped => {}
        StepAnswer::OutOfMemory => {}
    }
    Ok(answer)
}
