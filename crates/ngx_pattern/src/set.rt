// The set of a configuration's patterns.
ghost use Rattle.std.specs.Prelude.{◌≡◌, ◌≢◌, ◌≤◌, ◌==◌, ℕ, false, [], ◌∷◌, ◌++◌, length, None, IsSome, IfOk, OnOk, OnErr, IsErrOf, MatchResult};
ghost use Rattle.ngx_pattern.specs.Pattern.{as_pattern, expression_of, is_match, spans_in, pattern_at, AllLieWithin};
ghost use Rattle.ngx_pattern.specs.Makers.{Rose};

use crate::{Expression, MakeFault, PatternMaker, Spans};
use std::alloc::{AllocFailed, Global};
use std::marker::Model;
use std::str;

/// The number of a pattern in its set.
#[derive(Clone, Copy, Debug, PartialEq, Eq)]
pub struct PatternId {
    number: u32,
}

impl Model for PatternId {
    ghost Value = { ℕ };

    ghost view = { λ id. id.number };

    ghost inverse = { λ n. record { number = n } };
}

impl PatternId {
    /// The number, in whatever set the pattern is sought: in one without it the number matches nothing.
    pub fn from_number(number: u32) -> Self
        ensures { result ≡ number }
    {
        PatternId { number }
    }
}

/// Why a pattern was not added.
#[derive(Clone, Copy, Debug, PartialEq, Eq)]
pub enum PatternFault {
    /// The text isn't UTF-8, is no pattern, or nests too deep.
    Bad,
    /// The maker refused it, and its count of refusals rose.
    TooBig,
    OutOfMemory,
}

impl From<MakeFault> for PatternFault {
    ghost use Rattle.std.specs.Prelude.{◌≡◌};
    ghost use Rattle.ngx_pattern.specs.Faults.{fault_of};

    ghost from_gives = { λ fault gives. gives ≡ fault_of fault };

    fn from(fault: MakeFault) -> Self {
        match fault {
            MakeFault::Syntax => PatternFault::Bad,
            MakeFault::Refused => PatternFault::TooBig,
            MakeFault::OutOfMemory => PatternFault::OutOfMemory,
        }
    }
}

impl<T: Drop> From<AllocFailed<T>> for PatternFault {
    ghost use Rattle.std.specs.Prelude.{◌≡◌};
    ghost use Rattle.ngx_pattern.specs.declared.set.PatternFault.TheVariants.{OutOfMemory as NoMemory};

    ghost from_gives = { λ _ gives. gives ≡ NoMemory };

    fn from(_: AllocFailed<T>) -> Self {
        PatternFault::OutOfMemory
    }
}

/// Patterns, each under its number. Contracts see the list of their texts, each with whether letters match in either case.
#[derive(Drop)]
pub struct PatternSet {
    expressions: Vec<Expression>,
}

impl Model for PatternSet {
    ghost use Rattle.std.specs.Prelude.{List};
    ghost use Rattle.ngx_pattern.specs.Pattern.{Pattern};
    ghost use Rattle.ngx_pattern.specs.Sets.{patterns_of};

    ghost Value = { List Pattern };

    ghost view = { λ s. patterns_of s.expressions.items };
}

impl PatternSet {
    /// No patterns, which takes no memory.
    pub fn new(alloc: Global) -> Self
        ensures { result ≡ [] }
    {
        PatternSet {
            expressions: Vec::new(alloc),
        }
    }

    pub fn len(&self) -> usize
        ensures { result ≡ length self.now }
    {
        self.expressions.len()
    }

    pub fn is_empty(&self) -> bool
        ensures { result ≡ (length self.now == 0) }
    {
        self.expressions.is_empty()
    }

    /// Adds a pattern, of any bytes, under the next number. With `nocase` letters match in either case. An `Err` leaves
    /// the set as it was.
    pub fn add<M: PatternMaker>(
        &mut self,
        maker: &mut M,
        text: &[u8],
        nocase: bool,
    ) -> Result<PatternId, PatternFault>
        ensures added { OnOk result (self.new ≡ self.old ++ as_pattern text.now nocase ∷ []) }
        ensures id { IfOk result (λ id. id ≡ length self.old) }
        ensures read { OnOk result (IsSome (expression_of (as_pattern text.now nocase))) }
        ensures kept { OnErr result (self.new ≡ self.old) }

        // When each fault comes; want of memory may come at any call.
        ensures bad { IsErrOf result PatternFault.Bad
            → expression_of (as_pattern text.now nocase) ≡ None }
        ensures too_big { IsErrOf result PatternFault.TooBig
            → Rose (M.refusals maker.old) (M.refusals maker.new) }
        ensures count { M.refusals maker.old ≤ M.refusals maker.new }
        ensures spared { MatchResult result (λ _. M.refusals maker.new ≡ M.refusals maker.old)
            (λ e. e ≢ PatternFault.TooBig → M.refusals maker.new ≡ M.refusals maker.old) }
    {
        let number = match u32::try_from(self.expressions.len()) {
            Ok(number) => number,
            Err(_) => return Err(PatternFault::OutOfMemory),
        };
        let text = match str::from_utf8(text) {
            Ok(text) => text,
            Err(_) => return Err(PatternFault::Bad),
        };
        let expression = maker.make(*self.expressions.allocator(), text, nocase)?;
        self.expressions.push(expression)?;
        Ok(PatternId { number })
    }

    /// Whether a pattern matches somewhere in these bytes, and where: the leftmost match, and of those that begin there the
    /// first by the order of the pattern's alternatives and the greed of its repetitions, as in Perl. Where it doesn't match
    /// no span is there. A number that no pattern of this set has matches nothing.
    ///
    /// No search fails. What one works out of the pattern is kept for the next, in tables of bounded size; where there's no
    /// memory for them a slower engine searches, which had its own when the pattern was added.
    pub fn matches(&mut self, id: PatternId, bytes: &[u8], spans: &mut Spans) -> bool
        ensures found { result ≡ is_match (pattern_at self.old id) bytes.now }
        ensures spans { spans.new ≡ spans_in (pattern_at self.old id) bytes.now }
        ensures within { AllLieWithin (length bytes.now) spans.new }
        ensures unknown { length self.old ≤ id → result ≡ false }
        ensures kept { self.new ≡ self.old }
    {
        let place = id.number as usize;
        if place >= self.expressions.len() {
            spans.clear();
            return false;
        }
        self.expressions[place].search(bytes, spans)
    }
}
