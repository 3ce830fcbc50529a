// Clocks in memory.
ghost use Rattle.std.specs.Prelude.{◌≡◌, ◌≤◌, ◌<◌, ◌+◌, ◌-◌, ℕ, List, [], true, false, length, min, vec_len};
ghost use Rattle.memory_outside.specs.Moments.{moments_told, moment_at};

use ngx_outside::Clock;
use std::marker::Model;
use std::sync::ledger::{Blank, Book, Ledger, Share};

/// A clock that stays at a moment. It tells nothing of its calls: a clock of one moment that does is a `ListClock`.
#[derive(Clone, Copy, Debug)]
pub struct FixedClock {
    pub moment: u64,
}

impl Clock for FixedClock {
    ghost seen = { λ c. record { tells = false; told = [] } };

    fn now(&mut self) -> u64
        ensures told { result ≡ self.old.moment }
        ensures same { self.new ≡ self.old }
    {
        self.moment
    }
}

// How many calls there were. It takes no bytes, so that it counts without end.
#[derive(Drop)]
struct Calls<L: Ledger> {
    book: Book<L>,
    share: Share<L>,
}

impl<L: Ledger> Model for Calls<L> {
    ghost Value = { ℕ };

    ghost view = { λ c. c.book.total };

    ghost invariant = { λ c. 0 < c.share.parts };
}

impl<L: Ledger> Calls<L> {
    fn new(blank: Blank) -> Self
        requires name { blank.name ≡ L.name }
        requires parts { blank.parts ≡ L.parts }
        requires some { 0 < L.parts }
        ensures { result ≡ 0 }
    {
        let (book, share) = blank.open::<L>();
        Calls { book, share }
    }

    fn count(&mut self)
        ensures { self.new ≡ self.old + 1 }
    {
        self.book.add(&mut self.share, 1);
    }
}

/// A clock that tells the moments of a list, one at each call, and then the last of them again; with no moment in its
/// list it tells 0. It tells all that it has told: the calls are counted in a ledger of its own, which takes no bytes.
#[derive(Drop)]
pub struct ListClock<L: Ledger> {
    moments: Vec<u64>,
    at: usize,
    calls: Calls<L>,
    ghost counted: { at ≡ min calls (vec_len moments) },
}

impl<L: Ledger> ListClock<L> {
    /// A clock that has told nothing yet. The blank is to be a ledger's of at least one part, and is used up.
    pub fn new(blank: Blank, moments: Vec<u64>) -> Self
        requires name { blank.name ≡ L.name }
        requires parts { blank.parts ≡ L.parts }
        requires some { 0 < L.parts }
        ensures moments { result.moments ≡ moments }
        ensures calls { result.calls ≡ 0 }
    {
        ListClock {
            moments,
            at: 0,
            calls: Calls::new(blank),
        }
    }
}

impl<L: Ledger> Clock for ListClock<L> {
    ghost seen = { λ c. record { tells = true; told = moments_told c.moments.items c.calls } };

    fn now(&mut self) -> u64 {
        let moment = moment_of(self.moments.as_slice(), self.at);
        self.calls.count();
        if self.at < self.moments.len() {
            self.at += 1;
        }
        moment
    }
}

// The moment at a place, or the last one.
fn moment_of(moments: &[u64], at: usize) -> u64
    ensures { (call : ℕ) → at ≡ min call (length moments.now) →
        result ≡ moment_at moments.now call }
{
    if at < moments.len() {
        moments[at]
    } else if let [.., last] = moments {
        *last
    } else {
        0
    }
}
