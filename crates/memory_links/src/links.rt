// Links to scripted peers.
ghost use Rattle.std.specs.Prelude.{◌≡◌, ◌≢◌, ◌≤◌, ◌<◌, ◌+◌, ◌-◌, ◌^◌, ◌↔◌, ◌∷◌, ◌++◌, ℕ, List, [], Some, MatchOption, OnOk, OnErr, true, false, length, reverse, vec_len, if◌then◌else◌};
ghost use Rattle.ngx_outside.specs.Causes.{HasCause, Rose};
ghost use Rattle.ngx_outside.specs.Records.{Adds, Noticed as NoticeGiven, Read as ReadGiven, Written as WriteGiven, got_of};
ghost use Rattle.ngx_outside.specs.Linked.{GotWithin, PutWithin, PutsNothing, HasRead, HasWritten, Marked, Same, Noticed, Opens, Unchanged, CrowdCloses, crowd_after, notices_after, set_due, set_full, begun};
ghost use Rattle.ngx_outside.specs.declared.links.Notice.TheVariants.{Failed as NextFailed, Ended as AllEnded, Readable, Writable, Nothing};
ghost use Rattle.ngx_outside.specs.declared.links.Input.TheVariants.{Failed as ReadFails, NotYet};
ghost use Rattle.ngx_outside.specs.declared.links.Output.TheVariants.{Failed as WriteFails};
ghost use Rattle.memory_links.specs.Told.{links_of, used_of, open_of, listening_of, over_of, sends_told, failing_calls_of, no_notices, answers_of, next_faults_of, link_faults_of, crowd_of, notices_of, refused_of, links_shown};
ghost use Rattle.memory_links.specs.Scripted.{scripted_of, IsOpened, SendsFrom, Reported, Plays};
ghost use Rattle.memory_links.specs.Peers.{links_in, used_in, held_in, faults_in, Changes, after_read, after_write, view_of, unopened, Reports, Heard, IsAbsent, IsAt, SendSame, OneGives, sends_of, sends_in, PutsSome, crowd_in};

use crate::answers::{LinkTold, tell_notice, tell_read, tell_written};
use crate::peer::Peer;
use byte_text::{ByteText, OutOfMemory};
use http_types::Addr;
use memory_outside::Answers;
use ngx_outside::{Failed, Input, Links, Notice, Output};
use std::alloc::Global;

/// What the script of the links reports.
#[derive(Drop)]
pub enum ScriptedNotice {
    /// A peer connects, with its two ends. It sends the input, and then ends, or sends no more yet. The link takes
    /// `window` bytes until it is reported writable. Its id is the next: the first is 1.
    Opened {
        local: Addr,
        peer: Addr,
        input: ByteText,
        ends: bool,
        window: usize,
    },
    Readable {
        id: u32,
    },
    /// The link takes `more` more bytes.
    Writable {
        id: u32,
        more: usize,
    },
    Nothing,
}

/// A call of the links that is to fail, by its number among the calls of its kind, counted from 0.
#[derive(Clone, Copy, Debug, PartialEq, Eq)]
pub enum LinkCall {
    Listen(u64),
    Next(u64),
    Read(u64),
    Write(u64),
    /// The write with this number takes none of its bytes.
    WriteOfNone(u64),
}

// The number of ids.
const LAST_ID: usize = 4294967295;

/// Links to scripted peers. A notice for an id that isn't open is answered as `Nothing`. At the script's end, and once no
/// id is left, `next` answers `Ended`. A link that isn't open gives and takes nothing. It tells what it answered, as long as
/// there is memory for that.
#[derive(Drop)]
pub struct MemoryLinks {
    alloc: Global,
    // the last notice comes first
    script: Vec<ScriptedNotice>,
    // by their ids, from 1 on
    peers: Vec<Peer>,
    listening: Vec<Addr>,
    failing: Vec<LinkCall>,
    listens: u64,
    nexts: u64,
    reads: u64,
    writes: u64,
    faults: u64,
    notices: u64,
    refused: u64,
    answers: Answers<LinkTold>,
}

// The place of the link of an id.
fn place(peers: &[Peer], id: u32) -> Option<usize>
    ensures { MatchOption result (IsAbsent peers.now id)
        (λ at. (id ≡ at + 1) × (at < length peers.now)) }
{
    let id = id as usize;
    if 0 < id && id <= peers.len() {
        Some(id - 1)
    } else {
        None
    }
}

// The link of an id.
fn find(peers: &[Peer], id: u32) -> Option<&Peer>
    ensures { MatchOption result (IsAbsent peers.now id) (λ p. IsAt peers.now id p.now) }
{
    match place(peers, id) {
        Some(at) => Some(&peers[at]),
        None => None,
    }
}

// The place of the link of an id, if it is open.
fn open_place(peers: &[Peer], id: u32) -> Option<usize>
    ensures { MatchOption result (held_in peers.now id ≡ false)
        (λ at. (id ≡ at + 1) × (at < length peers.now) × (held_in peers.now id ≡ true)) }
{
    let Some(at) = place(peers, id) else {
        return None;
    };
    if peers[at].held { Some(at) } else { None }
}

// Reads the link at a place.
fn read_at(peers: &mut [Peer], at: usize, fails: bool, buf: &mut [u8]) -> Input
    requires { at < length peers.old }
    ensures count { GotWithin result (length buf.new) }
    ensures told { Changes (at + 1) (after_read result buf.new) peers.old peers.new }
    ensures sends { OneGives (at + 1) result buf.new (sends_in peers.old) (sends_in peers.new) }
    ensures sure { fails ≡ false → result ≢ ReadFails }
    ensures cause { result ≡ ReadFails →
        Rose (faults_in peers.old (at + 1)) (faults_in peers.new (at + 1)) }
{
    let peer = &mut peers[at];
    peer.read(fails, buf)
}

// Writes to the link at a place.
fn write_at(peers: &mut [Peer], at: usize, fails: bool, takes_none: bool, bytes: &[u8]) -> Output
    requires { at < length peers.old }
    ensures count { PutWithin result (length bytes.now) }
    ensures told { Changes (at + 1) (after_write result bytes.now) peers.old peers.new }
    ensures sends { SendSame (sends_in peers.old) (sends_in peers.new) }
    ensures cause { result ≡ WriteFails →
        Rose (faults_in peers.old (at + 1)) (faults_in peers.new (at + 1)) }
    ensures nothing { PutsNothing result bytes.now (faults_in peers.old (at + 1))
        (faults_in peers.new (at + 1)) }
    ensures sure { takes_none ≡ false → PutsSome result bytes.now }
{
    let peer = &mut peers[at];
    peer.write(fails, takes_none, bytes)
}

// Reports the link at a place readable.
fn hear_at(peers: &mut [Peer], at: usize)
    requires { at < length peers.old }
    ensures told { Changes (at + 1) (set_due true) peers.old peers.new }
    ensures sends { SendSame (sends_in peers.old) (sends_in peers.new) }
{
    let peer = &mut peers[at];
    peer.hear();
}

// Reports the link at a place writable.
fn widen_at(peers: &mut [Peer], at: usize, more: usize)
    requires { at < length peers.old }
    ensures told { Changes (at + 1) (set_full false) peers.old peers.new }
    ensures sends { SendSame (sends_in peers.old) (sends_in peers.new) }
{
    let peer = &mut peers[at];
    peer.widen(more);
}

// Closes the link at a place.
fn close_at(peers: &mut [Peer], at: usize)
    requires { at < length peers.old }
    ensures told { Unchanged (links_in peers.old) (links_in peers.new) }
    ensures used { Same (used_in peers.old) (used_in peers.new) }
    ensures crowd { CrowdCloses (held_in peers.old (at + 1)) (crowd_in peers.old)
        (crowd_in peers.new) }
    ensures held { Marked (at + 1) false (held_in peers.old) (held_in peers.new) }
    ensures later { (c : ℕ) → faults_in peers.old c ≤ faults_in peers.new c }
    ensures sends { SendSame (sends_in peers.old) (sends_in peers.new) }
{
    let peer = &mut peers[at];
    peer.close();
}

// How many links are open.
#[tactic(auto, unfolding(crate::specs::Peers::crowd_in))]
fn crowd(peers: &[Peer]) -> usize
    ensures count { result ≡ crowd_in peers.now }
    ensures few { result ≤ length peers.now }
{
    match peers {
        [peer, rest @ ..] => {
            let others = crowd(rest);
            if peer.held { others + 1 } else { others }
        }
        [] => 0,
    }
}

// The link that the next id has.
fn new_peer(
    alloc: Global,
    local: Addr,
    peer: Addr,
    among: usize,
    input: ByteText,
    ends: bool,
    window: usize,
) -> Peer
    ensures told { view_of result ≡ begun local peer among unopened }
    ensures among { result.among ≡ among }
    ensures ends { (result.local ≡ local) × (result.peer ≡ peer) }
    ensures sends { sends_of result ≡ record { coming = input; ends = ends } }
    ensures held { result.held ≡ true }
{
    Peer {
        local,
        peer,
        among,
        input,
        start: 0,
        ends,
        sent: ByteText::new(alloc),
        window,
        held: true,
        due: false,
        full: false,
        ended: false,
        faults: 0,
    }
}

fn push_peer(peers: &mut Vec<Peer>, peer: Peer) -> Result<(), OutOfMemory>
    ensures ok { OnOk result (peers.new.items ≡ peers.old.items ++ peer ∷ []) }
    ensures err { OnErr result (peers.new.items ≡ peers.old.items) }
{
    peers.push(peer)?;
    Ok(())
}

// Reports a peer, where there is memory for its link.
fn open_next(peers: &mut Vec<Peer>, faults: &mut u64, peer: Peer) -> Notice
    requires few { vec_len peers.old < 2 ^ 32 - 1 }
    requires fresh { view_of peer ≡ begun peer.local peer.peer peer.among unopened }
    requires among { peer.among ≡ crowd_in peers.old.items }
    requires held { peer.held ≡ true }
    ensures reports { Reports result peers.old.items peers.new.items faults.old faults.new }
    ensures goes { result ≢ AllEnded }
    ensures shows { IsOpened peer.local peer.peer result }
    ensures sends { SendsFrom (sends_of peer) result (sends_in peers.old.items)
        (sends_in peers.new.items) }
    ensures more { vec_len peers.old ≤ vec_len peers.new }
{
    let local = peer.local;
    let end = peer.peer;
    let id = peers.len() as u32 + 1;
    match push_peer(peers, peer) {
        Ok(()) => Notice::Opened {
            id,
            local,
            peer: end,
        },
        Err(OutOfMemory) => {
            *faults = faults.saturating_add(1);
            Notice::Failed
        }
    }
}

// Reports a link readable, where it is open.
fn hear(peers: &mut [Peer], id: u32) -> Notice
    ensures heard { Heard result peers.old peers.new }
    ensures sends { SendSame (sends_in peers.old) (sends_in peers.new) }
    ensures shows { result ≡ (if held_in peers.old id then Readable id else Nothing) }
{
    match open_place(peers, id) {
        Some(at) => {
            hear_at(peers, at);
            Notice::Readable { id }
        }
        None => Notice::Nothing,
    }
}

// Reports a link writable, where it is open.
fn widen(peers: &mut [Peer], id: u32, more: usize) -> Notice
    ensures heard { Heard result peers.old peers.new }
    ensures sends { SendSame (sends_in peers.old) (sends_in peers.new) }
    ensures shows { result ≡ (if held_in peers.old id then Writable id else Nothing) }
{
    match open_place(peers, id) {
        Some(at) => {
            widen_at(peers, at, more);
            Notice::Writable { id }
        }
        None => Notice::Nothing,
    }
}

// Reports the script's next notice.
#[tactic(auto, using(crate::proofs::Played::plays_next, crate::proofs::Played::reported_next))]
fn report(
    alloc: Global,
    script: &mut Vec<ScriptedNotice>,
    peers: &mut Vec<Peer>,
    faults: &mut u64,
    fails: bool,
) -> Notice
    requires { vec_len peers.old < 2 ^ 32 - 1 }
    ensures reports { Reports result peers.old.items peers.new.items faults.old faults.new }
    ensures over { (result ≡ AllEnded) ↔ (script.old.items ≡ []) }
    ensures sure { fails ≡ false → result ≡ NextFailed →
        Reported (held_in peers.old.items) result (reverse script.old.items)
        (reverse script.new.items) (sends_in peers.old.items) (sends_in peers.new.items) }
    ensures plays { Plays (held_in peers.old.items) result (reverse script.old.items)
        (reverse script.new.items) (sends_in peers.old.items) (sends_in peers.new.items) }
    ensures stays { script.old.items ≡ [] → script.new.items ≡ [] }
    ensures more { vec_len peers.old ≤ vec_len peers.new }
{
    if script.is_empty() {
        return Notice::Ended;
    }
    if fails {
        *faults = faults.saturating_add(1);
        return Notice::Failed;
    }
    match script.pop() {
        Some(
            ScriptedNotice::Opened {
                local,
                peer,
                input,
                ends,
                window,
            },
        ) => {
            let among = crowd(peers.as_slice());
            open_next(
                peers,
                faults,
                new_peer(alloc, local, peer, among, input, ends, window),
            )
        }
        Some(ScriptedNotice::Readable { id }) => hear(peers, id),
        Some(ScriptedNotice::Writable { id, more }) => widen(peers, id, more),
        Some(ScriptedNotice::Nothing) => Notice::Nothing,
        None => Notice::Ended,
    }
}

// Counts a notice.
fn count_notice(notices: &mut u64, notice: Notice)
    ensures { notices.new ≡ notices_after notice notices.old }
{
    match notice {
        Notice::Opened {
            id: _,
            local: _,
            peer: _,
        } => *notices = notices.saturating_add(1),
        Notice::Readable { id: _ } => *notices = notices.saturating_add(1),
        Notice::Writable { id: _ } => *notices = notices.saturating_add(1),
        Notice::Nothing => *notices = notices.saturating_add(1),
        Notice::Ended => {}
        Notice::Failed => {}
    }
}

impl MemoryLinks {
    /// Links on which nothing has come yet; the script's notices are reported in their order, and these calls are to
    /// fail.
    #[tactic(auto, using(crate::proofs::Played::given_script))]
    pub fn new(alloc: Global, script: Vec<ScriptedNotice>, failing: Vec<LinkCall>) -> Self
        ensures unused { (id : ℕ) → used_of result id ≡ false }
        ensures none_open { (id : ℕ) → open_of result id ≡ false }
        ensures listening { listening_of result ≡ [] }
        ensures faults { next_faults_of result ≡ 0 }
        ensures answers { answers_of result ≡ Some [] }
        ensures crowd { crowd_of result ≡ 0 }
        ensures notices { notices_of result ≡ 0 }
        ensures script { scripted_of result ≡ script.items }
        ensures over { over_of result ≡ no_notices script.items }
        ensures failing { failing_calls_of result ≡ failing.items }
    {
        let mut script = script;
        script.reverse();
        MemoryLinks {
            alloc,
            script,
            peers: Vec::new(alloc),
            listening: Vec::new(alloc),
            failing,
            listens: 0,
            nexts: 0,
            reads: 0,
            writes: 0,
            faults: 0,
            notices: 0,
            refused: 0,
            answers: Answers::new(alloc),
        }
    }

    /// All that was written to the link of an id; nothing where no link has it.
    pub fn sent(&self, id: u32) -> &[u8]
        ensures { result.now ≡ (links_of self.now id).sent }
    {
        match find(&self.peers, id) {
            Some(peer) => peer.sent.as_slice(),
            None => &[],
        }
    }

    /// All that was read of the link of an id; nothing where no link has it.
    pub fn taken(&self, id: u32) -> &[u8]
        ensures { result.now ≡ (links_of self.now id).taken }
    {
        match find(&self.peers, id) {
            Some(peer) => peer.taken(),
            None => &[],
        }
    }

    /// Whether an id was reported and its link isn't closed.
    pub fn is_open(&self, id: u32) -> bool
        ensures { result ≡ open_of self.now id }
    {
        match find(&self.peers, id) {
            Some(peer) => peer.held,
            None => false,
        }
    }

    /// How often the link of an id has failed.
    pub fn link_faults(&self, id: u32) -> u64
        ensures { result ≡ link_faults_of self.now id }
    {
        match find(&self.peers, id) {
            Some(peer) => peer.faults,
            None => 0,
        }
    }

    /// How often listen or next has failed.
    pub fn faults(&self) -> u64
        ensures { result ≡ next_faults_of self.now }
    {
        self.faults
    }

    /// The addresses that are listened on, in the order of the calls.
    pub fn listening(&self) -> &[Addr]
        ensures { result.now ≡ listening_of self.now }
    {
        self.listening.as_slice()
    }
}

impl Links for MemoryLinks {
    ghost seen = { links_shown };

    fn listen(&mut self, addr: Addr) -> Result<(), Failed>
        ensures told { Unchanged (links_of self.old) (links_of self.new) }
        ensures ids { Same (used_of self.old) (used_of self.new) ×
            Same (open_of self.old) (open_of self.new) }
        ensures listens { OnOk result (listening_of self.new ≡ listening_of self.old ++ addr ∷ []) }
        ensures fails { OnErr result (listening_of self.new ≡ listening_of self.old) }
        ensures counts { (crowd_of self.new ≡ crowd_of self.old) ×
            (notices_of self.new ≡ notices_of self.old) }
        ensures answers { answers_of self.new ≡ answers_of self.old }
        ensures stays_over { over_of self.old ≡ true → over_of self.new ≡ true }
        ensures link_faults { (c : ℕ) → link_faults_of self.old c ≤ link_faults_of self.new c }
        ensures cause { HasCause (next_faults_of self.old) (next_faults_of self.new) result
            (record {}) }
        ensures failing { failing_calls_of self.new ≡ failing_calls_of self.old }
        ensures script { scripted_of self.new ≡ scripted_of self.old }
        ensures sends { SendSame (sends_told self.old) (sends_told self.new) }
    {
        let call = LinkCall::Listen(self.listens);
        self.listens = self.listens.saturating_add(1);
        if self.failing.contains(&call) || self.listening.push(addr).is_err() {
            self.faults = self.faults.saturating_add(1);
            return Err(Failed);
        }
        Ok(())
    }

    fn next(&mut self) -> Notice
        ensures told { Noticed result (crowd_of self.old) (links_of self.old) (links_of self.new) }
        ensures ids { Opens result (used_of self.old) (used_of self.new) (open_of self.old)
            (open_of self.new) }
        ensures listens { listening_of self.new ≡ listening_of self.old }
        ensures crowd { crowd_of self.new ≡ crowd_after result (crowd_of self.old) }
        ensures notices { notices_of self.new ≡ notices_after result (notices_of self.old) }
        ensures answers { Adds (NoticeGiven result) (answers_of self.old) (answers_of self.new) }
        ensures stays_over { over_of self.old ≡ true → over_of self.new ≡ true }
        ensures later { next_faults_of self.old ≤ next_faults_of self.new }
        ensures link_faults { (c : ℕ) → link_faults_of self.old c ≤ link_faults_of self.new c }
        ensures over { (result ≡ AllEnded) ↔ (over_of self.old ≡ true) }
        ensures cause { result ≡ NextFailed →
            Rose (next_faults_of self.old) (next_faults_of self.new) }
        ensures failing { failing_calls_of self.new ≡ failing_calls_of self.old }
        ensures sure { failing_calls_of self.old ≡ [] → result ≡ NextFailed →
            Reported (open_of self.old) result (scripted_of self.old) (scripted_of self.new)
            (sends_told self.old) (sends_told self.new) }
        ensures script { Plays (open_of self.old) result (scripted_of self.old)
            (scripted_of self.new) (sends_told self.old) (sends_told self.new) }
    {
        if self.peers.len() >= LAST_ID {
            tell_notice(&mut self.answers, Notice::Ended);
            return Notice::Ended;
        }
        let call = LinkCall::Next(self.nexts);
        self.nexts = self.nexts.saturating_add(1);
        let fails = self.failing.contains(&call);
        let notice = report(
            self.alloc,
            &mut self.script,
            &mut self.peers,
            &mut self.faults,
            fails,
        );
        tell_notice(&mut self.answers, notice);
        count_notice(&mut self.notices, notice);
        notice
    }

    fn read(&mut self, id: u32, buf: &mut [u8]) -> Input
        ensures count { GotWithin result (length buf.new) }
        ensures told { open_of self.old id ≡ true →
            HasRead id result buf.new (links_of self.old) (links_of self.new) }
        ensures ids { Same (used_of self.old) (used_of self.new) ×
            Same (open_of self.old) (open_of self.new) }
        ensures listens { listening_of self.new ≡ listening_of self.old }
        ensures counts { (crowd_of self.new ≡ crowd_of self.old) ×
            (notices_of self.new ≡ notices_of self.old) }
        ensures answers { Adds (ReadGiven id result (got_of result buf.new)) (answers_of self.old)
            (answers_of self.new) }
        ensures stays_over { over_of self.old ≡ true → over_of self.new ≡ true }
        ensures later { next_faults_of self.old ≤ next_faults_of self.new }
        ensures link_faults { (c : ℕ) → link_faults_of self.old c ≤ link_faults_of self.new c }
        ensures sure { failing_calls_of self.old ≡ [] → result ≢ ReadFails }
        ensures cause { result ≡ ReadFails →
            Rose (link_faults_of self.old id) (link_faults_of self.new id) }
        ensures failing { failing_calls_of self.new ≡ failing_calls_of self.old }
        ensures script { scripted_of self.new ≡ scripted_of self.old }
        ensures sends { open_of self.old id ≡ true →
            OneGives id result buf.new (sends_told self.old) (sends_told self.new) }
        ensures shut { open_of self.old id ≡ false → (result ≡ NotYet) ×
            SendSame (sends_told self.old) (sends_told self.new) }
    {
        let call = LinkCall::Read(self.reads);
        self.reads = self.reads.saturating_add(1);
        let fails = self.failing.contains(&call);
        match open_place(&self.peers, id) {
            Some(at) => {
                let input = read_at(&mut self.peers, at, fails, buf);
                tell_read(self.alloc, &mut self.answers, id, input, buf);
                input
            }
            None => {
                tell_read(self.alloc, &mut self.answers, id, Input::NotYet, buf);
                Input::NotYet
            }
        }
    }

    fn write(&mut self, id: u32, bytes: &[u8]) -> Output
        ensures count { PutWithin result (length bytes.now) }
        ensures told { open_of self.old id ≡ true →
            HasWritten id result bytes.now (links_of self.old) (links_of self.new) }
        ensures ids { Same (used_of self.old) (used_of self.new) ×
            Same (open_of self.old) (open_of self.new) }
        ensures listens { listening_of self.new ≡ listening_of self.old }
        ensures counts { (crowd_of self.new ≡ crowd_of self.old) ×
            (notices_of self.new ≡ notices_of self.old) }
        ensures answers { Adds (WriteGiven id result) (answers_of self.old) (answers_of self.new) }
        ensures stays_over { over_of self.old ≡ true → over_of self.new ≡ true }
        ensures later { next_faults_of self.old ≤ next_faults_of self.new }
        ensures link_faults { (c : ℕ) → link_faults_of self.old c ≤ link_faults_of self.new c }
        ensures sure { failing_calls_of self.old ≡ [] → PutsSome result bytes.now }
        ensures cause { result ≡ WriteFails →
            Rose (link_faults_of self.old id) (link_faults_of self.new id) }
        ensures nothing { PutsNothing result bytes.now (link_faults_of self.old id)
            (link_faults_of self.new id) }
        ensures failing { failing_calls_of self.new ≡ failing_calls_of self.old }
        ensures script { scripted_of self.new ≡ scripted_of self.old }
        ensures sends { SendSame (sends_told self.old) (sends_told self.new) }
    {
        let call = LinkCall::Write(self.writes);
        let call_of_none = LinkCall::WriteOfNone(self.writes);
        self.writes = self.writes.saturating_add(1);
        let fails = self.failing.contains(&call);
        let takes_none = self.failing.contains(&call_of_none);
        match open_place(&self.peers, id) {
            Some(at) => {
                let output = write_at(&mut self.peers, at, fails, takes_none, bytes);
                tell_written(&mut self.answers, id, output);
                output
            }
            None => {
                tell_written(&mut self.answers, id, Output::NotYet);
                Output::NotYet
            }
        }
    }

    fn close(&mut self, id: u32)
        ensures told { Unchanged (links_of self.old) (links_of self.new) }
        ensures ids { Same (used_of self.old) (used_of self.new) ×
            Marked id false (open_of self.old) (open_of self.new) }
        ensures listens { listening_of self.new ≡ listening_of self.old }
        ensures crowd { CrowdCloses (open_of self.old id) (crowd_of self.old) (crowd_of self.new) }
        ensures notices { notices_of self.new ≡ notices_of self.old }
        ensures answers { answers_of self.new ≡ answers_of self.old }
        ensures stays_over { over_of self.old ≡ true → over_of self.new ≡ true }
        ensures later { next_faults_of self.old ≤ next_faults_of self.new }
        ensures link_faults { (c : ℕ) → link_faults_of self.old c ≤ link_faults_of self.new c }
        ensures failing { failing_calls_of self.new ≡ failing_calls_of self.old }
        ensures script { scripted_of self.new ≡ scripted_of self.old }
        ensures sends { SendSame (sends_told self.old) (sends_told self.new) }
    {
        if let Some(at) = place(&self.peers, id) {
            close_at(&mut self.peers, at);
        }
    }

    fn tell_refused(&mut self, count: u64) {
        self.refused = count;
    }
}
