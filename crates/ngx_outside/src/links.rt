// The links to peers, and the clock.
ghost use Rattle.std.specs.Prelude.{◌≡◌, ◌≤◌, ◌∷◌, ◌++◌, ◌↔◌, ℕ, [], true, false, length, OnOk, OnErr};
ghost use Rattle.ngx_outside.specs.Causes.{Rose, HasCause};
ghost use Rattle.ngx_outside.specs.Records.{Noticed as NoticeGiven, Read as ReadGiven, Written as WriteGiven, Adds, got_of};
ghost use Rattle.ngx_outside.specs.Linked.{Noticed, Opens, Marked, Same, HasRead, HasWritten, GotWithin, PutWithin, PutsNothing, Unchanged, CrowdCloses, crowd_after, notices_after};
ghost use Rattle.ngx_outside.specs.Seen.{LinksSeen, ClockSeen};
ghost use Rattle.ngx_outside.specs.declared.links.Notice.TheVariants.{Failed as NextFailed, Ended as AllEnded};
ghost use Rattle.ngx_outside.specs.declared.links.Input.TheVariants.{Failed as ReadFails};
ghost use Rattle.ngx_outside.specs.declared.links.Output.TheVariants.{Failed as WriteFails};

use crate::Failed;
use http_types::Addr;

/// What is reported of the links.
#[derive(Clone, Copy)]
pub enum Notice {
    /// A peer has connected. The id was never used before.
    Opened { id: u32, local: Addr, peer: Addr },
    /// A link may have bytes to read.
    Readable { id: u32 },
    /// A link that was full may have room again.
    Writable { id: u32 },
    /// Nothing, for a while.
    Nothing,
    /// No notice will come any more.
    Ended,
    Failed,
}

/// What a read gave.
#[derive(Clone, Copy, Debug, PartialEq, Eq)]
pub enum Input {
    /// This many bytes, at least one.
    Got(usize),
    NotYet,
    /// The peer sends no more.
    End,
    Failed,
}

/// What a write gave.
#[derive(Clone, Copy, Debug, PartialEq, Eq)]
pub enum Output {
    /// This many bytes were taken.
    Put(usize),
    NotYet,
    Failed,
}

/// The links to the peers, each under an id that is never used twice.
pub trait Links {
    /// What the links show.
    ghost seen: { Self → LinksSeen };

    /// Listens on an address for peers.
    fn listen(&mut self, addr: Addr) -> Result<(), Failed>
        ensures told { (seen self.old).tells ≡ true →
            Unchanged (seen self.old).link (seen self.new).link }
        ensures ids { Same (seen self.old).used (seen self.new).used ×
            Same (seen self.old).is_open (seen self.new).is_open }
        ensures listens { OnOk result ((seen self.new).listening ≡ (seen self.old).listening
            ++ addr ∷ []) }
        ensures fails { OnErr result ((seen self.new).listening ≡ (seen self.old).listening) }
        ensures counts { (seen self.old).tells ≡ true →
            ((seen self.new).crowd ≡ (seen self.old).crowd) ×
            ((seen self.new).notices ≡ (seen self.old).notices) }
        ensures tells { (seen self.new).tells ≡ (seen self.old).tells }
        ensures answers { (seen self.new).answers ≡ (seen self.old).answers }
        ensures stays_over { (seen self.old).over ≡ true → (seen self.new).over ≡ true }
        ensures link_faults { (id : ℕ) → (seen self.old).link_faults id ≤
            (seen self.new).link_faults id }
        ensures cause { HasCause (seen self.old).faults (seen self.new).faults result (record {}) };

    /// The next notice.
    fn next(&mut self) -> Notice
        ensures told { (seen self.old).tells ≡ true →
            Noticed result (seen self.old).crowd (seen self.old).link (seen self.new).link }
        ensures ids { Opens result (seen self.old).used (seen self.new).used (seen self.old).is_open
            (seen self.new).is_open }
        ensures listens { (seen self.new).listening ≡ (seen self.old).listening }
        ensures crowd { (seen self.old).tells ≡ true →
            (seen self.new).crowd ≡ crowd_after result (seen self.old).crowd }
        ensures notices { (seen self.old).tells ≡ true →
            (seen self.new).notices ≡ notices_after result (seen self.old).notices }
        ensures tells { (seen self.new).tells ≡ (seen self.old).tells }
        ensures answers { Adds (NoticeGiven result) (seen self.old).answers
            (seen self.new).answers }
        ensures stays_over { (seen self.old).over ≡ true → (seen self.new).over ≡ true }
        ensures over { (result ≡ AllEnded) ↔ ((seen self.old).over ≡ true) }
        ensures later { (seen self.old).faults ≤ (seen self.new).faults }
        ensures link_faults { (id : ℕ) → (seen self.old).link_faults id ≤
            (seen self.new).link_faults id }
        ensures cause { result ≡ NextFailed → Rose (seen self.old).faults (seen self.new).faults };

    /// Reads a link, into a front of the buffer.
    fn read(&mut self, id: u32, buf: &mut [u8]) -> Input
        ensures count { GotWithin result (length buf.new) }
        ensures told { (seen self.old).tells ≡ true → (seen self.old).is_open id ≡ true →
            HasRead id result buf.new (seen self.old).link (seen self.new).link }
        ensures ids { Same (seen self.old).used (seen self.new).used ×
            Same (seen self.old).is_open (seen self.new).is_open }
        ensures listens { (seen self.new).listening ≡ (seen self.old).listening }
        ensures counts { (seen self.old).tells ≡ true →
            ((seen self.new).crowd ≡ (seen self.old).crowd) ×
            ((seen self.new).notices ≡ (seen self.old).notices) }
        ensures tells { (seen self.new).tells ≡ (seen self.old).tells }
        ensures answers { Adds (ReadGiven id result (got_of result buf.new)) (seen self.old).answers
            (seen self.new).answers }
        ensures stays_over { (seen self.old).over ≡ true → (seen self.new).over ≡ true }
        ensures later { (seen self.old).faults ≤ (seen self.new).faults }
        ensures link_faults { (c : ℕ) → (seen self.old).link_faults c ≤
            (seen self.new).link_faults c }
        ensures cause { result ≡ ReadFails →
            Rose ((seen self.old).link_faults id) ((seen self.new).link_faults id) };

    /// Writes to a link, a front of these bytes.
    fn write(&mut self, id: u32, bytes: &[u8]) -> Output
        ensures count { PutWithin result (length bytes.now) }
        ensures told { (seen self.old).tells ≡ true → (seen self.old).is_open id ≡ true →
            HasWritten id result bytes.now (seen self.old).link (seen self.new).link }
        ensures ids { Same (seen self.old).used (seen self.new).used ×
            Same (seen self.old).is_open (seen self.new).is_open }
        ensures listens { (seen self.new).listening ≡ (seen self.old).listening }
        ensures counts { (seen self.old).tells ≡ true →
            ((seen self.new).crowd ≡ (seen self.old).crowd) ×
            ((seen self.new).notices ≡ (seen self.old).notices) }
        ensures tells { (seen self.new).tells ≡ (seen self.old).tells }
        ensures answers { Adds (WriteGiven id result) (seen self.old).answers
            (seen self.new).answers }
        ensures stays_over { (seen self.old).over ≡ true → (seen self.new).over ≡ true }
        ensures later { (seen self.old).faults ≤ (seen self.new).faults }
        ensures link_faults { (c : ℕ) → (seen self.old).link_faults c ≤
            (seen self.new).link_faults c }
        ensures cause { result ≡ WriteFails →
            Rose ((seen self.old).link_faults id) ((seen self.new).link_faults id) }
        ensures nothing { PutsNothing result bytes.now ((seen self.old).link_faults id)
            ((seen self.new).link_faults id) };

    /// Closes a link.
    fn close(&mut self, id: u32)
        ensures told { (seen self.old).tells ≡ true →
            Unchanged (seen self.old).link (seen self.new).link }
        ensures ids { Same (seen self.old).used (seen self.new).used ×
            Marked id false (seen self.old).is_open (seen self.new).is_open }
        ensures listens { (seen self.new).listening ≡ (seen self.old).listening }
        ensures crowd { (seen self.old).tells ≡ true →
            CrowdCloses ((seen self.old).is_open id) (seen self.old).crowd (seen self.new).crowd }
        ensures notices { (seen self.old).tells ≡ true →
            (seen self.new).notices ≡ (seen self.old).notices }
        ensures tells { (seen self.new).tells ≡ (seen self.old).tells }
        ensures answers { (seen self.new).answers ≡ (seen self.old).answers }
        ensures stays_over { (seen self.old).over ≡ true → (seen self.new).over ≡ true }
        ensures later { (seen self.old).faults ≤ (seen self.new).faults }
        ensures link_faults { (c : ℕ) → (seen self.old).link_faults c ≤
            (seen self.new).link_faults c };

    /// Is told how many events the core has refused for want of memory.
    fn tell_refused(&mut self, count: u64)
        ensures { (seen self.new) ≡ record (seen self.old) { refused = count } };
}

/// A clock of seconds since 1970.
pub trait Clock {
    /// What the clock shows.
    ghost seen: { Self → ClockSeen };

    fn now(&mut self) -> u64
        ensures told { (seen self.old).tells ≡ true →
            (seen self.new).told ≡ (seen self.old).told ++ result ∷ [] }
        ensures tells { (seen self.new).tells ≡ (seen self.old).tells };
}
