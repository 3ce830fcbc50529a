// Links over sockets, whose readiness `mio` tells.
ghost use Rattle.std.specs.Prelude.{◌≡◌, ◌++◌, ◌∷◌, ◌≤◌, ℕ, [], None, false, true, length, ◌<◌, IfOk, IfSome, IfNone, OnErr, OnOk};
ghost use Rattle.http_types.specs.declared.words.Addr.{Addr as End};
ghost use Rattle.ngx_outside.specs.Causes.{Rose};
ghost use Rattle.ngx_outside.specs.declared.links.Notice.TheVariants.{Failed as NextFailed};
ghost use Rattle.socket_links.specs.Slots.{GoesOn, OpensIn, open_in, untold, used_in};

use crate::bind::{accept_on, is_covered, listen_on, local_end};
use crate::closing::ClosingLinks;
use crate::notices::{
    Listener, Mark, Ready, UNMARKED, again_of, collect, end_input, mark_of, notice_of, pause,
    ready_listener, report_again, retry, set_mark, token_of,
};
use crate::slots::{
    Link, SLOTS, has_ids, is_open, is_wait, next_id, open_at, read_at, slot_of, take_at, write_at,
};
use byte_text::OutOfMemory;
use http_types::Addr;
use mio::{Events, Interest, Poll, Token};
use ngx_outside::{Failed, Input, Links, Notice, Output};
use std::alloc::{AllocError, Global};
use std::collections::VecDeque;
use std::io;
use std::net::Net;
use std::time::{Clock as Ticks, Duration, Instant};

// How many events one call of the poll gives at most.
const EVENTS: usize = 256;

// How many notices are given before the poll is asked again, and how often among them peers that connect come first.
const NOTICES: u32 = 64;

const ACCEPTS: u32 = 4;

// How many bytes are written between two notices, or a few more: then the other links come first, so that one that
// takes all that it is sent lets none wait for long.
const SHARE: usize = 262144;

// A write of no more bytes than these goes out first, up to as many beyond the share: so the last bytes of a response go out with those
// before them.
const FEW: usize = 4096;

// Whether the other links come before a write of `count` bytes, where `written` bytes went out since the last notice.
fn is_put_off(written: usize, count: usize) -> bool {
    written >= SHARE && (count > FEW || written >= SHARE + FEW)
}

/// Why an address isn't listened on.
#[derive(Clone, Copy)]
pub struct ListenFault {
    pub addr: Addr,
    pub error: io::Error,
}

/// The sockets of the system. A link is reported readable when bytes come, and again after each read that took as much as
/// there was room for; and writable only after a write that found no room. Where there is nothing to report, `next` waits
/// for a second at most. It tells nothing of what is read and written.
///
/// An address is listened on by a socket of its own, or by that of all addresses of its family at its port where there is
/// one, as nginx has it: the local end of a link is where its peer connected in either case. An IPv6 socket takes no IPv4
/// peers.
///
/// Nothing is asked of the system before an address is listened on or a notice is waited for. A link that is closed is
/// written no more; its socket is closed once its peer is done, or after a while.
#[derive(Drop)]
pub struct SocketLinks<'a, R> {
    rt: &'a R,
    alloc: Global,
    poll: Option<Poll>,
    events: Events,
    listeners: Vec<Listener>,
    bound: usize,
    listening: Vec<Addr>,
    listen_fault: Option<ListenFault>,
    closing: ClosingLinks,
    counts: Vec<u32>,
    links: Vec<Option<Link>>,
    marks: Vec<Mark>,
    free: Vec<u32>,
    batch: Vec<Ready>,
    again: VecDeque<u32>,
    notices: u32,
    written: usize,
    faults: u64,
    link_faults: u64,
    refused: u64,
}

// No slot has had a link.
fn no_counts(alloc: Global) -> Result<Vec<u32>, AllocError>
    ensures { IfOk result (λ counts. (id : ℕ) → used_in counts.items id ≡ false) }
{
    let mut counts = Vec::with_capacity(alloc, SLOTS as usize)?;
    for _ in 0..SLOTS {
        counts.push(0u32)?;
    }
    Ok(counts)
}

// Empty slots.
fn empty_slots(alloc: Global) -> Result<Vec<Option<Link>>, AllocError>
    ensures { IfOk result (λ links. (id : ℕ) → open_in links.items id ≡ false) }
{
    let mut links = Vec::with_capacity(alloc, SLOTS as usize)?;
    for _ in 0..SLOTS {
        links.push(None)?;
    }
    Ok(links)
}

// The numbers of all slots, the first one last.
fn all_slots(alloc: Global) -> Result<Vec<u32>, AllocError> {
    let mut free = Vec::with_capacity(alloc, SLOTS as usize)?;
    for slot in 0..SLOTS {
        free.push(SLOTS - 1 - slot)?;
    }
    Ok(free)
}

// Accepts a peer into a slot; where the slot has no id for it, its socket is closed.
fn accept(
    poll: &Poll,
    counts: &mut [u32],
    links: &mut [Option<Link>],
    slot: u32,
    listener: &Listener,
) -> io::Result<Notice>
    ensures opens { IfOk result (λ n. OpensIn n counts.old counts.new links.old links.new) }
    ensures goes { IfOk result GoesOn }
    ensures same { OnErr result ((counts.new ≡ counts.old) × (links.new ≡ links.old)) }
{
    let (mut stream, peer) = accept_on(&listener.socket)?;
    let local = local_end(listener.addr, &stream)?;
    let Some(id) = next_id(counts, links, slot) else {
        return Ok(Notice::Nothing);
    };
    poll.registry().register(
        &mut stream,
        Token(id as usize),
        Interest::READABLE | Interest::WRITABLE,
    )?;
    open_at(counts, links, id, stream);
    Ok(Notice::Opened { id, local, peer })
}

// The last free slot; a slot that isn't there where none is free.
fn last_of(free: &[u32]) -> u32 {
    match free {
        [.., slot] => *slot,
        [] => SLOTS,
    }
}

fn is_opened(notice: Notice) -> bool {
    matches!(notice, Notice::Opened { .. })
}

impl<'a, R: Net + Ticks> SocketLinks<'a, R> {
    ghost use Rattle.std.specs.Prelude.{◌≡◌, ◌≢◌, ◌≤◌, ◌++◌, ◌∷◌, ℕ, [], false, IfNone, IfOk, IfSome, OnErr, OnOk};
    ghost use Rattle.ngx_outside.specs.Causes.{Rose};
    ghost use Rattle.socket_links.specs.Slots.{GoesOn, OpensIn};
    ghost use Rattle.socket_links.specs.Sockets.{is_open_in, is_used_in};

    /// No link and no listener yet.
    pub fn new(alloc: Global, rt: &'a R) -> Result<Self, OutOfMemory>
        ensures none_used { IfOk result (λ s. (id : ℕ) → is_used_in s id ≡ false) }
        ensures none_open { IfOk result (λ s. (id : ℕ) → is_open_in s id ≡ false) }
    {
        let links = empty_slots(alloc)?;
        let counts = no_counts(alloc)?;
        Ok(SocketLinks {
            rt,
            alloc,
            poll: None,
            events: Events::with_capacity(alloc, EVENTS)?,
            listeners: Vec::new(alloc),
            bound: 0,
            listening: Vec::new(alloc),
            listen_fault: None,
            closing: ClosingLinks::new(alloc)?,
            counts,
            links,
            marks: Vec::from_elem(alloc, UNMARKED, SLOTS as usize)?,
            free: all_slots(alloc)?,
            batch: Vec::with_capacity(alloc, 2 * EVENTS)?,
            again: VecDeque::with_capacity(alloc, SLOTS as usize)?,
            notices: 0,
            written: 0,
            faults: 0,
            link_faults: 0,
            refused: 0,
        })
    }

    /// How many events the core has refused for want of memory, as it was told last.
    pub fn refused(&self) -> u64 {
        self.refused
    }

    /// Why the last call to listen failed, if one did.
    pub fn listen_fault(&self) -> Option<ListenFault> {
        self.listen_fault
    }

    // The poll is made where it is first asked for.
    fn open_poll(&mut self) -> io::Result<()>
        ensures listening { self.new.listening.items ≡ self.old.listening.items }
        ensures same { (self.new.counts.items ≡ self.old.counts.items)
            × (self.new.links.items ≡ self.old.links.items) }
        ensures faults { (self.new.faults ≡ self.old.faults)
            × (self.new.link_faults ≡ self.old.link_faults) }
    {
        if self.poll.is_none() {
            self.poll = Some(Poll::new(self.rt)?);
        }
        Ok(())
    }

    // Makes a socket that listens on an address.
    fn add_listener(&mut self, addr: Addr) -> io::Result<()>
        ensures listening { self.new.listening.items ≡ self.old.listening.items }
        ensures same { (self.new.counts.items ≡ self.old.counts.items)
            × (self.new.links.items ≡ self.old.links.items) }
        ensures faults { (self.new.faults ≡ self.old.faults)
            × (self.new.link_faults ≡ self.old.link_faults) }
    {
        let Some(poll) = &self.poll else {
            return Err(io::Error::from(io::ErrorKind::NotConnected));
        };
        let mut socket = listen_on(self.rt, addr)?;
        let number = self.bound;
        let token = Token(token_of(number));
        poll.registry()
            .register(&mut socket, token, Interest::READABLE)?;
        self.bound = number.saturating_add(1);
        self.listeners.push(Listener {
            number,
            addr,
            socket,
            ready: true,
            stuck: false,
        })?;
        Ok(())
    }

    // Whether a socket listens on an address, or on all of its family, at its port.
    fn is_listened_on(&self, addr: Addr) -> bool {
        self.listeners
            .iter()
            .any(|listener| is_covered(addr, listener.addr))
    }

    // Closes the sockets of the addresses that one on another address is to cover, which are answered.
    fn make_way(&mut self, addr: Addr) -> io::Result<Vec<Addr>>
        ensures listening { self.new.listening.items ≡ self.old.listening.items }
        ensures same { (self.new.counts.items ≡ self.old.counts.items)
            × (self.new.links.items ≡ self.old.links.items) }
        ensures faults { (self.new.faults ≡ self.old.faults)
            × (self.new.link_faults ≡ self.old.link_faults) }
    {
        let mut covered = Vec::new(self.alloc);
        for listener in &self.listeners {
            if is_covered(listener.addr, addr) {
                covered.push(listener.addr)?;
            }
        }
        self.listeners
            .retain(|listener| !is_covered(listener.addr, addr));
        Ok(covered)
    }

    // Listens at an address, by a socket of its own or by one that covers it. Where a new socket is to cover others, the
    // system makes it only once these are closed; if it doesn't, they are made again.
    fn bind(&mut self, addr: Addr) -> io::Result<()>
        ensures ok { OnOk result (self.new.listening.items
            ≡ self.old.listening.items ++ addr ∷ []) }
        ensures err { OnErr result (self.new.listening.items ≡ self.old.listening.items) }
        ensures same { (self.new.counts.items ≡ self.old.counts.items)
            × (self.new.links.items ≡ self.old.links.items) }
        ensures faults { (self.new.faults ≡ self.old.faults)
            × (self.new.link_faults ≡ self.old.link_faults) }
    {
        self.open_poll()?;
        if !self.is_listened_on(addr) {
            let covered = self.make_way(addr)?;
            if let Err(error) = self.add_listener(addr) {
                self.add_again(&covered);
                return Err(error);
            }
        }
        self.listening.push(addr)?;
        Ok(())
    }

    // Listens again on addresses whose sockets were closed, as far as the system lets it.
    fn add_again(&mut self, addrs: &[Addr])
        ensures listening { self.new.listening.items ≡ self.old.listening.items }
        ensures same { (self.new.counts.items ≡ self.old.counts.items)
            × (self.new.links.items ≡ self.old.links.items) }
        ensures faults { (self.new.faults ≡ self.old.faults)
            × (self.new.link_faults ≡ self.old.link_faults) }
    {
        for addr in addrs {
            let _added = self.add_listener(*addr);
        }
    }

    // A link may be read or written. Where it was closed, what it was sent is dropped.
    #[inline(always)]
    fn take_event(&mut self, ready: Ready) -> Notice
        ensures opens { OpensIn result self.old.counts.items self.new.counts.items
            self.old.links.items self.new.links.items }
        ensures goes { GoesOn result }
        ensures same { (self.new.listening.items ≡ self.old.listening.items)
            × (self.new.faults ≡ self.old.faults) × (self.new.link_faults ≡ self.old.link_faults) }
    {
        if !is_open(self.links.as_slice(), ready.id) {
            self.closing.hear(ready.id);
            return Notice::Nothing;
        }
        notice_of(
            self.links.as_slice(),
            self.marks.as_mut_slice(),
            &mut self.batch,
            ready,
        )
    }

    // A peer of a listener that is ready.
    fn accept_some(&mut self) -> Option<Notice>
        ensures opens { IfSome result (λ n.
            OpensIn n self.old.counts.items self.new.counts.items self.old.links.items
            self.new.links.items) }
        ensures goes { IfSome result GoesOn }
        ensures none { IfNone result ((self.new.counts.items ≡ self.old.counts.items)
            × (self.new.links.items ≡ self.old.links.items)) }
        ensures same { (self.new.listening.items ≡ self.old.listening.items)
            × (self.new.faults ≡ self.old.faults) × (self.new.link_faults ≡ self.old.link_faults) }
    {
        let poll = self.poll.as_ref()?;
        let at = ready_listener(self.listeners.as_slice())?;
        let slot = last_of(self.free.as_slice());
        let accepted = accept(
            poll,
            self.counts.as_mut_slice(),
            self.links.as_mut_slice(),
            slot,
            &self.listeners[at],
        );
        match accepted {
            Ok(notice) => {
                if is_opened(notice) {
                    self.free.pop();
                }
                Some(notice)
            }
            Err(error) => {
                let is_stuck = !is_wait(&error);
                self.listeners[at].ready = false;
                self.listeners[at].stuck = is_stuck;
                if is_stuck {
                    // Maybe no descriptor is left.
                    self.closing.give_up();
                }
                Some(Notice::Nothing)
            }
        }
    }

    // The next of what was reported before, without a call of the poll.
    fn reported(&mut self) -> Option<Notice>
        ensures opens { IfSome result (λ n.
            OpensIn n self.old.counts.items self.new.counts.items self.old.links.items
            self.new.links.items) }
        ensures goes { IfSome result GoesOn }
        ensures none { IfNone result ((self.new.counts.items ≡ self.old.counts.items)
            × (self.new.links.items ≡ self.old.links.items)) }
        ensures same { (self.new.listening.items ≡ self.old.listening.items)
            × (self.new.faults ≡ self.old.faults) × (self.new.link_faults ≡ self.old.link_faults) }
    {
        if let Some(ready) = self.batch.pop() {
            return Some(self.take_event(ready));
        }
        if self.notices >= NOTICES {
            return None;
        }
        self.notices += 1;
        if self.notices % ACCEPTS != 0 {
            if let Some(id) = self.again.pop_front() {
                return Some(again_of(self.links.as_slice(), self.marks.as_mut_slice(), id));
            }
        }
        self.accept_some()
    }

    // Closes the links whose peers weren't done in time.
    fn expire(&mut self)
        ensures same { (self.new.counts.items ≡ self.old.counts.items)
            × (self.new.links.items ≡ self.old.links.items)
            × (self.new.listening.items ≡ self.old.listening.items)
            × (self.new.faults ≡ self.old.faults) × (self.new.link_faults ≡ self.old.link_faults) }
    {
        if !self.closing.is_empty() {
            if let Ok(now) = Instant::now(self.rt) {
                self.closing.expire(now);
            }
        }
    }

    fn ask_poll(&mut self, timeout: Duration) -> io::Result<()>
        ensures same { (self.new.counts.items ≡ self.old.counts.items)
            × (self.new.links.items ≡ self.old.links.items)
            × (self.new.listening.items ≡ self.old.listening.items)
            × (self.new.faults ≡ self.old.faults) × (self.new.link_faults ≡ self.old.link_faults) }
    {
        self.open_poll()?;
        match &mut self.poll {
            Some(poll) => poll.poll(&mut self.events, Some(timeout)),
            None => Ok(()),
        }
    }

    // Asks the poll, which waits only where nothing is left to report.
    fn wait(&mut self) -> Notice
        ensures opens { OpensIn result self.old.counts.items self.new.counts.items
            self.old.links.items self.new.links.items }
        ensures over { result ≢ Notice.Ended }
        ensures cause { result ≡ Notice.Failed → Rose self.old.faults self.new.faults }
        ensures later { self.old.faults ≤ self.new.faults }
        ensures same { (self.new.listening.items ≡ self.old.listening.items)
            × (self.new.link_faults ≡ self.old.link_faults) }
    {
        // Links that were served count on: so peers that connect come first now and then, however often the poll is asked.
        self.notices %= ACCEPTS;
        let seconds = if self.again.is_empty()
            && ready_listener(self.listeners.as_slice()).is_none()
        {
            1
        } else {
            0
        };
        self.expire();
        match self.ask_poll(Duration::from_secs(seconds)) {
            Ok(()) => {
                collect(&self.events, &mut self.batch, self.listeners.as_mut_slice());
                retry(self.listeners.as_mut_slice());
                if let Some(ready) = self.batch.pop() {
                    return self.take_event(ready);
                }
                // A link that was put off goes on now, where nothing new has come.
                if ready_listener(self.listeners.as_slice()).is_none() {
                    if let Some(id) = self.again.pop_front() {
                        return again_of(self.links.as_slice(), self.marks.as_mut_slice(), id);
                    }
                }
                Notice::Nothing
            }
            Err(_) => {
                self.faults = self.faults.saturating_add(1);
                Notice::Failed
            }
        }
    }

    // Counts a fault of a link.
    fn link_failed(&mut self)
        ensures rose { Rose self.old.link_faults self.new.link_faults }
        ensures later { self.old.link_faults ≤ self.new.link_faults }
        ensures same { (self.new.counts.items ≡ self.old.counts.items)
            × (self.new.links.items ≡ self.old.links.items)
            × (self.new.listening.items ≡ self.old.listening.items)
            × (self.new.faults ≡ self.old.faults) }
    {
        self.link_faults = self.link_faults.saturating_add(1);
    }
}

impl<R: Net + Ticks> Links for SocketLinks<'_, R> {
    ghost seen = { λ s. record {
      tells = false;
      link = λ _. untold;
      used = used_in s.counts.items;
      is_open = open_in s.links.items;
      listening = s.listening.items;
      crowd = 0;
      over = false;
      notices = 0;
      answers = None;
      faults = s.faults;
      link_faults = λ _. s.link_faults;
      refused = s.refused;
    } };

    fn listen(&mut self, addr: Addr) -> Result<(), Failed> {
        match self.bind(addr) {
            Ok(()) => Ok(()),
            Err(error) => {
                self.listen_fault = Some(ListenFault { addr, error });
                self.faults = self.faults.saturating_add(1);
                Err(Failed)
            }
        }
    }

    fn next(&mut self) -> Notice {
        self.written = 0;
        match self.reported() {
            Some(notice) => notice,
            None => self.wait(),
        }
    }

    fn read(&mut self, id: u32, buf: &mut [u8]) -> Input {
        if mark_of(self.marks.as_slice(), id).drained {
            return Input::NotYet;
        }
        if self.again.reserve(1).is_err() {
            self.link_failed();
            return Input::Failed;
        }
        match read_at(self.links.as_slice(), id, buf) {
            Input::Got(count) => {
                report_again(
                    self.marks.as_mut_slice(),
                    &mut self.again,
                    id,
                    count < buf.len(),
                );
                Input::Got(count)
            }
            Input::NotYet => Input::NotYet,
            Input::End => {
                end_input(self.marks.as_mut_slice(), id);
                Input::End
            }
            Input::Failed => {
                self.link_failed();
                Input::Failed
            }
        }
    }

    fn write(&mut self, id: u32, bytes: &[u8]) -> Output {
        if is_put_off(self.written, bytes.len()) && self.again.reserve(1).is_ok() {
            pause(self.marks.as_mut_slice(), &mut self.again, id);
            // The poll is asked before any link goes on.
            self.notices = self.notices.saturating_add(NOTICES);
            return Output::NotYet;
        }
        match write_at(self.links.as_slice(), id, bytes) {
            Output::Put(count) => {
                self.written = self.written.saturating_add(count);
                Output::Put(count)
            }
            Output::NotYet => {
                let mark = mark_of(self.marks.as_slice(), id);
                set_mark(self.marks.as_mut_slice(), id, Mark { full: true, ..mark });
                Output::NotYet
            }
            Output::Failed => {
                self.link_failed();
                Output::Failed
            }
        }
    }

    fn close(&mut self, id: u32) {
        let mark = mark_of(self.marks.as_slice(), id);
        let Some(link) = take_at(self.links.as_mut_slice(), id) else {
            return;
        };
        let slot = slot_of(id);
        if has_ids(self.counts.as_slice(), slot) {
            set_mark(self.marks.as_mut_slice(), id, UNMARKED);
            // There is room for all slots.
            let _kept = self.free.push(slot as u32);
        }
        if !mark.ended {
            if let Ok(now) = Instant::now(self.rt) {
                self.closing.add(link, now, mark.drained);
            }
        }
    }

    fn tell_refused(&mut self, count: u64) {
        self.refused = count;
    }
}
