// The prefixes of a list of locations, with what keeps them in order.
ghost use Rattle.std.specs.Prelude.{◌≡◌, ℕ, ◌-◌, ◌<◌, ◌≤◌, ◌==◌, true, false, List, [], ◌∷◌, ◌++◌, length, IfOk, IfSome, IfNone, OnErr, IsTrue, slice_index};
ghost use Rattle.location_match.specs.Prefixes.{text_at, is_at_most, IsLongest, FitsNone, IsFast, IsAboveAll, AreSorted};
ghost use Rattle.location_match.specs.Shared.{AllShare};
ghost use Rattle.location_match.specs.Entries.{texts_of, AreSound};

use crate::Steps;
use crate::prefixes::{PrefixEntry, is_not_above, longest_from, longest_in, shared_with};
use crate::texts::{NumberedText, sort_texts};
use byte_text::{ByteText, OutOfMemory};
use std::alloc::Global;
use std::marker::{Brand, Model};
use std::sync::ledger::{Blank, Ledger};

/// The prefixes of a list of locations in the order of their bytes. Contracts see their texts.
#[derive(Debug, Drop)]
pub struct Prefixes {
    entries: Vec<PrefixEntry>,
    /// How many bytes all texts share.
    common: usize,
}

impl Model for Prefixes {
    ghost use Rattle.location_match.specs.Prefixes.{PrefixList};
    ghost use Rattle.location_match.specs.Entries.{list_of, IsSoundList};

    ghost Value = { PrefixList };

    ghost view = { λ p. list_of p.entries.items };

    ghost invariant = { λ p. IsSoundList p.entries.items p.common };
}

// Whether a text is above all entries, which are in order.
fn is_above_all(entries: &[PrefixEntry], text: &[u8]) -> bool
    requires { AreSorted (texts_of entries.now) }
    ensures above { IsTrue result → IsAboveAll (texts_of entries.now) text.now }
    ensures below { result ≡ false → (0 < length entries.now)
        × (is_at_most text.now (text_at (texts_of entries.now) (length entries.now - 1)) ≡ true) }
{
    let count = entries.len();
    if count == 0 {
        return true;
    }
    let last = &entries[count - 1];
    !is_not_above(text, last.text.as_slice())
}

// The place of the longest entry that is a proper prefix of a text above all of them, by steps that nobody asks about.
fn nearest_by<L: Ledger>(entries: &[PrefixEntry], text: &[u8], blank: Blank) -> Option<usize>
    requires name { blank.name ≡ L.name }
    requires parts { blank.parts ≡ L.parts }
    requires some { 0 < blank.parts }
    requires sound { AreSound entries.now }
    requires above { IsAboveAll (texts_of entries.now) text.now }
    ensures some { IfSome result (IsLongest (texts_of entries.now) text.now) }
    ensures none { IfNone result (FitsNone (texts_of entries.now) text.now) }
{
    let count = entries.len();
    if count == 0 {
        return None;
    }
    let mut steps = Steps::<L>::new(blank);
    longest_from(entries, count - 1, text, &mut steps)
}

// The same, at a call that counts nothing.
fn nearest_to(entries: &[PrefixEntry], text: &[u8]) -> Option<usize>
    requires sound { AreSound entries.now }
    requires above { IsAboveAll (texts_of entries.now) text.now }
    ensures some { IfSome result (IsLongest (texts_of entries.now) text.now) }
    ensures none { IfNone result (FitsNone (texts_of entries.now) text.now) }
{
    nearest_by::<Brand>(entries, text, Blank::new(1))
}

// The longest entry that a path begins with, by steps that nobody asks about.
#[inline(always)]
fn find_by<L: Ledger>(
    entries: &[PrefixEntry],
    common: usize,
    path: &[u8],
    blank: Blank,
) -> Option<usize>
    requires name { blank.name ≡ L.name }
    requires parts { blank.parts ≡ L.parts }
    requires some { 0 < blank.parts }
    requires sound { AreSound entries.now }
    requires common { AllShare (texts_of entries.now) common }
    ensures some { IfSome result (IsLongest (texts_of entries.now) path.now) }
    ensures none { IfNone result (FitsNone (texts_of entries.now) path.now) }
{
    let mut steps = Steps::<L>::new(blank);
    longest_in(entries, common, path, &mut steps)
}

impl Prefixes {
    ghost use Rattle.location_match.specs.Numbers.{number_in, number_of, LeadsAs, IsLongestOf};
    ghost use Rattle.location_match.specs.Prefixes.{fits};

    /// No prefix, which takes no memory.
    pub fn new(alloc: Global) -> Self
        ensures { result ≡ record { texts = []; locations = [] } }
    {
        Prefixes {
            entries: Vec::new(alloc),
            common: 0,
        }
    }

    /// Whether it has no text.
    pub fn is_empty(&self) -> bool
        ensures { result ≡ true → self.now.texts ≡ [] }
    {
        self.entries.is_empty()
    }

    /// Adds the text of a location, by its number. `false` where it isn't above all texts that are there, in the order of
    /// their bytes; then, and without memory, nothing changes.
    pub fn add(&mut self, text: ByteText, location: u32) -> Result<bool, OutOfMemory>
        ensures added { IfOk result (λ added. IsTrue added → self.new
            ≡ record {
              texts = self.old.texts ++ text ∷ [];
              locations = self.old.locations ++ location ∷ [];
            }) }
        ensures above { IfOk result (λ added. IsTrue added → IsAboveAll self.old.texts text) }
        ensures refused { IfOk result (λ added. added ≡ false → self.new ≡ self.old) }
        ensures below { IfOk result (λ added. added ≡ false → (0 < length self.old.texts)
            × (is_at_most text (text_at self.old.texts (length self.old.texts - 1)) ≡ true)) }
        ensures kept { OnErr result (self.new ≡ self.old) }
    {
        if !is_above_all(&self.entries, text.as_slice()) {
            return Ok(false);
        }
        let nearest = nearest_to(&self.entries, text.as_slice());
        let common = shared_with(&self.entries, self.common, text.as_slice());
        self.entries.push(PrefixEntry {
            text,
            location,
            nearest,
        })?;
        self.common = common;
        Ok(true)
    }

    /// The place of the longest text that a path begins with. A step is a look at an entry: there are no more than a search
    /// by halves takes, one at the greatest text that isn't above the path, and one at each of its proper prefixes.
    pub fn longest<L: Ledger>(&self, path: &[u8], steps: &mut Steps<L>) -> Option<usize>
        ensures some { IfSome result (IsLongest self.now.texts path.now) }
        ensures none { IfNone result (FitsNone self.now.texts path.now) }
        ensures counted { steps.old ≤ steps.new }
        ensures cost { IsFast self.now.texts path.now (steps.new - steps.old) }
    {
        longest_in(&self.entries, self.common, path, steps)
    }

    /// The same, where nobody asks about the steps.
    #[inline(always)]
    pub fn find(&self, path: &[u8]) -> Option<usize>
        ensures some { IfSome result (IsLongest self.now.texts path.now) }
        ensures none { IfNone result (FitsNone self.now.texts path.now) }
    {
        find_by::<Brand>(&self.entries, self.common, path, Blank::new(1))
    }

    /// Texts of locations, in any order. Of those that are equal the first leads to its location.
    pub fn of(alloc: Global, texts: Vec<NumberedText>) -> Result<Self, OutOfMemory>
        ensures { IfOk result (λ p. LeadsAs p (number_in texts.items)) }
    {
        let mut texts = texts;
        sort_texts(&mut texts)?;
        let mut prefixes = Prefixes::new(alloc);
        for NumberedText { text, number } in texts {
            prefixes.add(text, number)?;
        }
        Ok(prefixes)
    }

    /// The number of the location with the longest text that a path begins with.
    #[inline(always)]
    pub fn longest_number(&self, path: &[u8]) -> Option<u32>
        ensures { IsLongestOf (λ text. fits path.now text) (number_of self.now) result }
    {
        match self.find(path) {
            Some(place) => Some(self.entries[place].location),
            None => None,
        }
    }

    // Whether the text at a place is as long as this one.
    fn is_as_long(&self, place: usize, text: &[u8]) -> bool
        requires { place < length self.now.texts }
        ensures { result ≡ (length (text_at self.now.texts place) == length text.now) }
    {
        self.entries[place].text.len() == text.len()
    }

    /// The number of the location with exactly this text.
    #[inline(always)]
    pub fn number(&self, text: &[u8]) -> Option<u32>
        ensures { result ≡ number_of self.now text.now }
    {
        match self.find(text) {
            Some(place) => {
                if self.is_as_long(place, text) {
                    Some(self.entries[place].location)
                } else {
                    None
                }
            }
            None => None,
        }
    }

    /// The number of the location at a place.
    pub fn location(&self, place: usize) -> u32
        requires { place < length self.now.locations }
        ensures { result ≡ slice_index self.now.locations place }
    {
        self.entries[place].location
    }
}
