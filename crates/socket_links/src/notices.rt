// What the poll reports, as notices.
ghost use Rattle.std.specs.Prelude.{◌<◌, length, IfSome};
ghost use Rattle.socket_links.specs.Slots.{IsReport};

use crate::slots::{Link, is_open, slot_of};
use http_types::Addr;
use mio::Events;
use mio::net::TcpListener;
use ngx_outside::Notice;
use std::collections::VecDeque;

/// A listener, with its number and its address: whether it may have a peer, and whether its last peer couldn't be
/// accepted, as where no descriptor is left. It is then tried again once the poll was asked, so that it takes no time
/// till then.
#[derive(Drop)]
pub struct Listener {
    pub number: usize,
    pub addr: Addr,
    pub socket: TcpListener,
    pub ready: bool,
    pub stuck: bool,
}

/// An event of a link: whether it may be read and written, and whether its peer sends no more.
#[derive(Clone, Copy, Debug)]
pub struct Ready {
    pub id: u32,
    pub reads: bool,
    pub writes: bool,
    pub closed: bool,
}

/// What is remembered of the link of a slot.
#[derive(Clone, Copy, Debug)]
pub struct Mark {
    /// Its last write found no room.
    pub full: bool,
    /// It is to be reported again.
    pub again: bool,
    /// It had its share of a turn, so that it is to be reported writable where nothing is there to be read.
    pub paused: bool,
    /// Its last read took all that was there, and no event of it was reported since.
    pub drained: bool,
    /// An event said that its peer sends no more.
    pub closed: bool,
    /// A read found the end of what its peer sends.
    pub ended: bool,
}

pub const UNMARKED: Mark = Mark {
    full: false,
    again: false,
    paused: false,
    drained: false,
    closed: false,
    ended: false,
};

// The tokens of links are their ids, and those of listeners are counted down from the end.
const LAST_TOKEN: usize = usize::MAX;

/// The token of a listener of a number.
pub fn token_of(number: usize) -> usize {
    LAST_TOKEN.saturating_sub(number)
}

// A listener may have a peer.
fn wake(listeners: &mut [Listener], token: usize) {
    for listener in listeners.iter_mut() {
        if token_of(listener.number) == token {
            listener.ready = true;
        }
    }
}

/// The first listener that may have a peer.
pub fn ready_listener(listeners: &[Listener]) -> Option<usize>
    ensures { IfSome result (λ at. at < length listeners.now) }
{
    for (at, listener) in listeners.iter().enumerate() {
        if listener.ready {
            return Some(at);
        }
    }
    None
}

/// Has the listeners that are stuck tried again.
pub fn retry(listeners: &mut [Listener]) {
    for at in 0..listeners.len() {
        if listeners[at].stuck {
            listeners[at].stuck = false;
            listeners[at].ready = true;
        }
    }
}

pub fn set_mark(marks: &mut [Mark], id: u32, mark: Mark) {
    let slot = slot_of(id);
    if slot < marks.len() {
        marks[slot] = mark;
    }
}

pub fn mark_of(marks: &[Mark], id: u32) -> Mark {
    let slot = slot_of(id);
    if slot < marks.len() {
        marks[slot]
    } else {
        UNMARKED
    }
}

/// What an event of a link is as a notice. Where it is of both kinds the reading comes next.
#[inline(always)]
pub fn notice_of(
    links: &[Option<Link>],
    marks: &mut [Mark],
    batch: &mut Vec<Ready>,
    ready: Ready,
) -> Notice
    ensures { IsReport result links.now }
{
    let id = ready.id;
    if !is_open(links, id) {
        return Notice::Nothing;
    }
    let mark = mark_of(marks, id);
    if ready.writes && mark.full {
        set_mark(
            marks,
            id,
            Mark {
                full: false,
                ..mark
            },
        );
        if ready.reads {
            // There is room, since this event was there.
            let _kept = batch.push(Ready {
                writes: false,
                ..ready
            });
        }
        return Notice::Writable { id };
    }
    if !ready.reads {
        return Notice::Nothing;
    }
    set_mark(
        marks,
        id,
        Mark {
            drained: false,
            closed: mark.closed || ready.closed,
            ..mark
        },
    );
    Notice::Readable { id }
}

/// A link that is to be reported again.
pub fn again_of(links: &[Option<Link>], marks: &mut [Mark], id: u32) -> Notice
    ensures { IsReport result links.now }
{
    if !is_open(links, id) {
        return Notice::Nothing;
    }
    let mark = mark_of(marks, id);
    set_mark(
        marks,
        id,
        Mark {
            again: false,
            paused: false,
            ..mark
        },
    );
    if mark.paused && mark.drained {
        return Notice::Writable { id };
    }
    Notice::Readable { id }
}

/// Has a link reported again, once, that had its share of this turn.
pub fn pause(marks: &mut [Mark], again: &mut VecDeque<u32>, id: u32) {
    let mark = mark_of(marks, id);
    set_mark(
        marks,
        id,
        Mark {
            again: true,
            paused: true,
            ..mark
        },
    );
    if !mark.again {
        // Room for it was made before.
        let _kept = again.push_back(id);
    }
}

/// Keeps the events of links, and wakes the listeners of others.
pub fn collect(events: &Events, batch: &mut Vec<Ready>, listeners: &mut [Listener]) {
    for event in events.iter() {
        let token = usize::from(event.token());
        if token > 4294967295 {
            wake(listeners, token);
        } else {
            // There is room for as many events as come at once.
            let _kept = batch.push(Ready {
                id: token as u32,
                reads: event.is_readable() || event.is_read_closed() || event.is_error(),
                writes: event.is_writable() || event.is_write_closed() || event.is_error(),
                closed: event.is_read_closed() || event.is_error(),
            });
        }
    }
}

/// Has a link reported readable again, once, from which a read took as much as there was room for. What comes after a read
/// that took all is an event of its own, and so is that the peer sends no more, unless it was told already (epoll(7),
/// edge-triggered): then the link isn't reported again, and isn't read.
pub fn report_again(marks: &mut [Mark], again: &mut VecDeque<u32>, id: u32, all: bool) {
    let mark = mark_of(marks, id);
    let drained = all && !mark.closed;
    set_mark(
        marks,
        id,
        Mark {
            again: mark.again || !drained,
            drained,
            ..mark
        },
    );
    if !drained && !mark.again {
        // Room for it was made before the link was read.
        let _kept = again.push_back(id);
    }
}

/// A read found the end of what a link's peer sends.
pub fn end_input(marks: &mut [Mark], id: u32) {
    let mark = mark_of(marks, id);
    set_mark(
        marks,
        id,
        Mark {
            ended: true,
            ..mark
        },
    );
}
