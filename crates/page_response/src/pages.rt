// A page of parts on its way to the peer.
ghost use Rattle.std.specs.Prelude.{◌≡◌, ◌≤◌, ◌<◌, ◌+◌, ◌++◌, ℕ, List, [], IfOk, IfSome, OnOk, Some, None, is_some, length, take, slice_get, true, if◌then◌else◌};
ghost use Rattle.file_tree.specs.Tree.{Trees};
ghost use Rattle.ngx_pattern.specs.Pattern.{Pattern as SetPattern};
ghost use Rattle.outgoing.specs.Leaving.{most, to_come};
ghost use Rattle.postpone_filter.specs.Runs.{filled};
ghost use Rattle.request_meaning.specs.Serving.{World};
ghost use Rattle.subrequests.specs.request_phases.Rounds.{IsGround};
ghost use Rattle.site_model.specs.declared.site.Site.{Site as SiteRow};
ghost use Rattle.subrequests.specs.Moved.{IsFromAt, IsWhole, fits_at};
ghost use Rattle.page_response.specs.Pages.{AreClosed, EndsIn, IsAllOver, IsReached, IsSame, bytes_left, nodes_asked, pages_left, whole_length};
ghost use Rattle.page_response.specs.Ran.{RunsTo};
ghost use Rattle.subrequests.specs.declared.family.Ran.TheVariants.{Rests as HasRested};

use byte_text::{ByteQueue, OutOfMemory};
use family_order::race_meaning::shipped_are_fit;
use file_tree::JobAnswer;
use ngx_pattern::PatternSet;
use outgoing::Outgoing;
use postpone_filter::Order;
use std::alloc::Global;
use subrequests::family_rest::{reached_stays_well, row_tells_still, steps_keep_still};
use subrequests::request_phases::Ground;
use subrequests::{Family, Ran};

/// A page of parts, whose head was put: its family; the bytes that are written next, with the framing of those that
/// come after them; its status; and how many bytes of its body have left the family. `steps` is how many more steps it
/// may take: far more than a page can need.
#[derive(Drop)]
pub struct Pages {
    pub family: Family,
    pub outgoing: Outgoing,
    pub status: u16,
    pub sent: u64,
    pub steps: u64,
}

/// What a page that is over was: how many bytes its body has; and how many of the bytes that are kept for the peer
/// are the tail of a body in chunks, its last chunk and the empty one, 0 of one that isn't in chunks.
#[derive(Clone, Copy)]
pub struct Finished {
    pub size: u64,
    pub tail: usize,
}

/// A page takes no more steps than this.
const MOST_STEPS: u64 = u64::MAX;

/// No more pieces than these are moved at once: far more than a page can have.
const MOST_PIECES: u32 = u32::MAX;

/// The sum of two numbers, where that is one.
fn sum(a: u64, b: u64) -> Option<u64>
    ensures { IfSome result (λ sum. sum ≡ a + b) }
{
    a.checked_add(b)
}

/// Moves all bytes that wait, of an order in which no node goes on, after `sent` bytes that have left it: how many
/// bytes have left it then.
fn put_rest(order: &mut Order, outgoing: &mut Outgoing, sent: u64) -> Result<u64, OutOfMemory>
    ensures put { OnOk result (AreClosed order.old.pieces → (more : List ℕ) →
        to_come outgoing.new more
        ≡ to_come outgoing.old (filled (λ _. []) order.old.pieces ++ more)) }
    ensures log { IfOk result (λ total. AreClosed order.old.pieces →
        total ≡ sent + length (filled (λ _. []) order.old.pieces)) }
    ensures kind { OnOk result (is_some outgoing.new.block ≡ is_some outgoing.old.block) }
{
    let mut sent = sent;
    for _ in 0..MOST_PIECES {
        let front = order.front();
        let count = front.len();
        if count == 0 {
            return Ok(sent);
        }
        let Some(total) = sum(sent, count as u64) else {
            return Err(OutOfMemory);
        };
        outgoing.put_all(front)?;
        order.used(count);
        sent = total;
    }
    Err(OutOfMemory)
}

impl Pages {
    /// A page whose head is put now. Its body comes in chunks or ends with the connection. Its bytes
    /// are kept in `room` as far as that goes, whatever is in it.
    ///
    /// # Errors
    /// `OutOfMemory`.
    pub fn begin(
        alloc: Global,
        family: Family,
        head: &[u8],
        chunked: bool,
        status: u16,
        room: Vec<u8>,
    ) -> Result<Pages, OutOfMemory>
        ensures family { IfOk result (λ p. p.family ≡ family) }
        ensures outgoing { IfOk result (λ p. (p.outgoing.pending ≡ head.now)
            × (p.outgoing.block ≡ (if chunked then Some [] else None))) }
        ensures log { IfOk result (λ p. (p.status ≡ status) × (p.sent ≡ 0)) }
        ensures bounded { IfOk result (λ p. length p.outgoing.pending ≤ most) }
        ensures steps { IfOk result (λ p. p.steps ≡ 18446744073709551615) }
    {
        Ok(Pages {
            family,
            outgoing: Outgoing::new(alloc, head, chunked, room)?,
            status,
            sent: 0,
            steps: MOST_STEPS,
        })
    }

    /// Moves bytes that leave the family first, as many as there is room for: whether more may be
    /// moved. It takes no memory.
    fn pump_one(&mut self) -> bool
        ensures same { (w : World) (patterns : List SetPattern) (site : SiteRow) (trees : Trees) →
            IsSame w patterns site trees self.old self.new }
        ensures reached { (w : World) (patterns : List SetPattern) (site : SiteRow) →
            IsReached w patterns site self.old → IsReached w patterns site self.new }
        ensures whole { IsWhole self.old.family → IsWhole self.new.family }
        ensures bounded { length self.old.outgoing.pending ≤ most
            → length self.new.outgoing.pending ≤ most }
        ensures others { (self.new.steps ≡ self.old.steps) × (self.new.status ≡ self.old.status)
            × (self.new.family.tree ≡ self.old.family.tree) }
        ensures kind { is_some self.new.outgoing.block ≡ is_some self.old.outgoing.block }
    {
        row_tells_still();
        let front = self.family.order.front();
        let count = front.len();
        if count == 0 || self.sent > u64::MAX - count as u64 {
            return false;
        }
        let put = self.outgoing.put(front);
        self.family.order.used(put);
        self.sent += put as u64;
        put == count
    }

    /// Moves the bytes that leave the family first, as many as there is room for. It takes no
    /// memory.
    fn pump(&mut self)
        ensures same { (w : World) (patterns : List SetPattern) (site : SiteRow) (trees : Trees) →
            IsSame w patterns site trees self.old self.new }
        ensures reached { (w : World) (patterns : List SetPattern) (site : SiteRow) →
            IsReached w patterns site self.old → IsReached w patterns site self.new }
        ensures whole { IsWhole self.old.family → IsWhole self.new.family }
        ensures bounded { length self.old.outgoing.pending ≤ most
            → length self.new.outgoing.pending ≤ most }
        ensures others { (self.new.steps ≡ self.old.steps) × (self.new.status ≡ self.old.status)
            × (self.new.family.tree ≡ self.old.family.tree) }
        ensures kind { is_some self.new.outgoing.block ≡ is_some self.old.outgoing.block }
    {
        for _ in 0..MOST_PIECES {
            if !self.pump_one() {
                return;
            }
        }
    }

    /// Runs a node on, and moves what leaves the family then; where more than a thousand
    /// subrequests are asked for, the page is not to go on.
    ///
    /// # Errors
    /// `OutOfMemory`; the page is then not to go on.
    pub fn run(
        &mut self,
        alloc: Global,
        ground: &Ground<'_>,
        patterns: &mut PatternSet,
        at: u32,
    ) -> Result<Ran, OutOfMemory>
        requires ground { IsGround ground.now }
        requires whole { IsWhole self.old.family }
        requires bounded { length self.old.outgoing.pending ≤ most }
        ensures ran { IfOk result (λ ran. RunsTo patterns.old ground.now self.old self.new ran) }
        ensures tree { OnOk result (self.new.family.tree ≡ self.old.family.tree) }
        ensures kind { OnOk result (is_some self.new.outgoing.block
            ≡ is_some self.old.outgoing.block) }
        ensures spent { IfOk result (λ ran. ran ≡ HasRested
            → self.new.steps + 1 ≡ self.old.steps) }
        ensures kept { patterns.new ≡ patterns.old }
    {
        steps_keep_still();
        reached_stays_well();
        shipped_are_fit();
        if self.steps == 0 {
            return Err(OutOfMemory);
        }
        match self.family.run(alloc, ground, patterns, at)? {
            Ran::Rests => {
                self.steps -= 1;
                self.pump();
                Ok(Ran::Rests)
            }
            Ran::TooMany => Ok(Ran::TooMany),
        }
    }

    /// A node is told what it asked for.
    ///
    /// # Errors
    /// `OutOfMemory`; the page is then not to go on.
    pub fn hear(&mut self, alloc: Global, at: u32, answer: JobAnswer<'_>) -> Result<(), OutOfMemory>
        requires whole { IsWhole self.old.family }
        requires fits { fits_at self.old.family.tree
            (slice_get self.old.family.nodes at) answer ≡ true }
        ensures same { OnOk result ((w : World) (patterns : List SetPattern) (site : SiteRow)
            (trees : Trees) → IsFromAt trees (slice_get self.old.family.nodes at) answer.entry
            → IsReached w patterns site self.old → IsSame w patterns site trees self.old self.new) }
        ensures reached { OnOk result ((w : World) (patterns : List SetPattern) (site : SiteRow) →
            IsReached w patterns site self.old → IsReached w patterns site self.new) }
        ensures whole { OnOk result (IsWhole self.new.family) }
        ensures lowers { OnOk result (pages_left self.new < pages_left self.old) }
        ensures spent { OnOk result (self.new.steps + 1 ≡ self.old.steps) }
        ensures others { OnOk result ((self.new.status ≡ self.old.status)
            × (self.new.family.tree ≡ self.old.family.tree)
            × (self.new.outgoing ≡ self.old.outgoing)) }
    {
        reached_stays_well();
        if self.steps == 0 {
            return Err(OutOfMemory);
        }
        self.family.hear(alloc, at, answer)?;
        self.steps -= 1;
        Ok(())
    }

    /// The first of the pending bytes were written: what then fits is moved. It takes no memory.
    pub fn written(&mut self, count: usize)
        requires count { count ≤ length self.old.outgoing.pending }
        requires bounded { length self.old.outgoing.pending ≤ most }
        ensures bytes { (w : World) (patterns : List SetPattern) (site : SiteRow) (trees : Trees) →
            bytes_left w patterns site trees self.old
            ≡ take count self.old.outgoing.pending ++ bytes_left w patterns site trees self.new }
        ensures log { (w : World) (patterns : List SetPattern) (site : SiteRow) (trees : Trees) →
            whole_length w patterns site trees self.old
            ≡ whole_length w patterns site trees self.new }
        ensures nodes { (w : World) (patterns : List SetPattern) (site : SiteRow) (trees : Trees) →
            nodes_asked w patterns site trees self.old
            ≡ nodes_asked w patterns site trees self.new }
        ensures reached { (w : World) (patterns : List SetPattern) (site : SiteRow) →
            IsReached w patterns site self.old → IsReached w patterns site self.new }
        ensures whole { IsWhole self.old.family → IsWhole self.new.family }
        ensures bounded { length self.new.outgoing.pending ≤ most }
        ensures lowers { 0 < count → pages_left self.new < pages_left self.old }
        ensures spent { self.old.steps ≤ self.new.steps + 1 }
        ensures others { (self.new.status ≡ self.old.status)
            × (self.new.family.tree ≡ self.old.family.tree) }
        ensures kind { is_some self.new.outgoing.block ≡ is_some self.old.outgoing.block }
    {
        self.outgoing.used(count);
        if self.steps > 0 {
            self.steps -= 1;
            self.pump();
        }
    }

    /// A page whose nodes are all over is put after what is kept for the peer, whole: how many
    /// bytes its body has, and its tail. The room of its bytes is put in the place of `room`, for
    /// the next page.
    ///
    /// # Errors
    /// `OutOfMemory`.
    pub fn finish(self, out: &mut ByteQueue, room: &mut Vec<u8>) -> Result<Finished, OutOfMemory>
        requires { IsWhole self.family }
        ensures put { OnOk result ((w : World) (patterns : List SetPattern) (site : SiteRow)
            (trees : Trees) → IsAllOver w patterns site trees self
            → out.new ≡ out.old ++ bytes_left w patterns site trees self) }
        ensures log { IfOk result (λ f. (w : World) (patterns : List SetPattern) (site : SiteRow)
            (trees : Trees) → IsAllOver w patterns site trees self
            → f.size ≡ whole_length w patterns site trees self) }
        ensures tail { IfOk result (λ f. EndsIn self.outgoing.block f.tail out.new) }
    {
        let Pages {
            family,
            outgoing,
            status: _,
            sent,
            steps: _,
        } = self;
        row_tells_still();
        let Family { mut order, .. } = family;
        let mut outgoing = outgoing;
        order.end(0);
        let size = put_rest(&mut order, &mut outgoing, sent)?;
        let tail = outgoing.finish(out, room)?;
        Ok(Finished { size, tail })
    }
}
