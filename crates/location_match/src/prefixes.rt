// The prefixes among the locations of one list, in order.
ghost use Rattle.std.specs.Prelude.{◌≡◌, ℕ, ◌+◌, ◌-◌, ◌<◌, ◌≤◌, ◌⊎◌, true, false, [], ◌∷◌, ◌++◌, length, None, IfSome, IfNone, slice_index_or};
ghost use Rattle.location_match.specs.Prefixes.{text_at, fits, is_at_most, depth_at, AreSorted, AreNested, IsLongest, FitsNone, Covers, IsFast, IsHalved};
ghost use Rattle.location_match.specs.Shared.{shared, AllShare};
ghost use Rattle.location_match.specs.Entries.{texts_of, nearest_of};

use crate::Steps;
use byte_text::ByteText;
use std::cmp::Ordering;
use std::sync::ledger::Ledger;

/// A prefix among the locations of a list.
#[derive(Debug, Drop)]
pub struct PrefixEntry {
    pub text: ByteText,
    /// The number of the location.
    pub location: u32,
    /// The place of the longest entry that is a proper prefix of this one, if there is one.
    pub nearest: Option<usize>,
}

/// Looks at an entry, which is a step.
pub fn entry_at<'a, L: Ledger>(
    entries: &'a [PrefixEntry],
    place: usize,
    steps: &mut Steps<L>,
) -> &'a PrefixEntry
    requires { place < length entries.now }
    ensures text { result.now.text ≡ text_at (texts_of entries.now) place }
    ensures nearest { result.now.nearest ≡ slice_index_or (nearest_of entries.now) place None }
    ensures step { steps.new ≡ steps.old + 1 }
{
    steps.tick();
    &entries[place]
}

// A text is at most a path, in the order of their bytes.
pub(crate) fn is_not_above(text: &[u8], path: &[u8]) -> bool
    ensures { result ≡ is_at_most text.now path.now }
{
    text.cmp(path) != Ordering::Greater
}

// How many bytes a text and a path share, where they share as many as these.
fn shared_from(text: &[u8], path: &[u8], from: usize) -> usize
    requires { from ≤ shared text.now path.now }
    ensures { result ≡ shared text.now path.now }
{
    let mut at = from;
    while at < text.len() && at < path.len() && text[at] == path[at] {
        at += 1;
    }
    at
}

// A text is at most a path, by the first bytes in which they differ.
fn is_not_above_by(text: &[u8], path: &[u8], common: usize) -> bool
    requires { common ≡ shared text.now path.now }
    ensures { result ≡ is_at_most text.now path.now }
{
    if common >= text.len() {
        return true;
    }
    if common >= path.len() {
        return false;
    }
    text[common] <= path[common]
}

// Where two texts bound others, these share as many bytes with a path as both do.
fn start_of(below: usize, above: usize, floor: usize) -> usize
    ensures { (n : ℕ) → (below ≤ n) ⊎ (above ≤ n) → floor ≤ n → result ≤ n }
{
    let bound = if below < above { below } else { above };
    if bound < floor { floor } else { bound }
}

// How many entries aren't above the path, where all of them share some bytes. The bounds of the search keep how many bytes
// they share with the path, since what is between them shares as many: so each byte is compared once or twice, and not again
// at each entry.
fn count_not_above<L: Ledger>(
    entries: &[PrefixEntry],
    common: usize,
    path: &[u8],
    steps: &mut Steps<L>,
) -> usize
    requires sorted { AreSorted (texts_of entries.now) }
    requires common { AllShare (texts_of entries.now) common }
    ensures inside { result ≤ length entries.now }
    ensures below { (i : ℕ) → i < result
        → is_at_most (text_at (texts_of entries.now) i) path.now ≡ true }
    ensures above { (i : ℕ) → result ≤ i → i < length entries.now
        → is_at_most (text_at (texts_of entries.now) i) path.now ≡ false }
    ensures cost { IsHalved (length entries.now) steps.old steps.new }
{
    let mut low = 0;
    let mut high = entries.len();
    let mut below = 0;
    let mut above = 0;
    let mut floor = 0;
    while low < high {
        let middle = low + (high - low) / 2;
        let text = entry_at(entries, middle, steps).text.as_slice();
        let now = shared_from(text, path, start_of(below, above, floor));
        floor = now.min(common);
        if is_not_above_by(text, path, now) {
            low = middle + 1;
            below = now;
        } else {
            high = middle;
            above = now;
        }
    }
    low
}

// The longest entry that the path begins with, where it begins with none but the one at `from` and proper prefixes of it.
pub(crate) fn longest_from<L: Ledger>(
    entries: &[PrefixEntry],
    from: usize,
    path: &[u8],
    steps: &mut Steps<L>,
) -> Option<usize>
    requires inside { from < length entries.now }
    requires sorted { AreSorted (texts_of entries.now) }
    requires nested { AreNested (texts_of entries.now) (nearest_of entries.now) }
    requires covers { Covers (texts_of entries.now) path.now from }
    ensures some { IfSome result (IsLongest (texts_of entries.now) path.now) }
    ensures none { IfNone result (FitsNone (texts_of entries.now) path.now) }
    ensures counted { steps.old ≤ steps.new }
    ensures cost { steps.new ≤ steps.old + 1 + depth_at (texts_of entries.now) from }
{
    let mut place = from;
    loop {
        let entry = entry_at(entries, place, steps);
        if path.starts_with(entry.text.as_slice()) {
            return Some(place);
        }
        match entry.nearest {
            Some(nearest) => place = nearest,
            None => return None,
        }
    }
}

/// The longest entry that a path begins with, where all of them share some bytes.
#[inline(always)]
pub fn longest_in<L: Ledger>(
    entries: &[PrefixEntry],
    common: usize,
    path: &[u8],
    steps: &mut Steps<L>,
) -> Option<usize>
    requires sorted { AreSorted (texts_of entries.now) }
    requires common { AllShare (texts_of entries.now) common }
    requires nested { AreNested (texts_of entries.now) (nearest_of entries.now) }
    ensures some { IfSome result (IsLongest (texts_of entries.now) path.now) }
    ensures none { IfNone result (FitsNone (texts_of entries.now) path.now) }
    ensures counted { steps.old ≤ steps.new }
    ensures cost { IsFast (texts_of entries.now) path.now (steps.new - steps.old) }
{
    let count = count_not_above(entries, common, path, steps);
    if count == 0 {
        return None;
    }
    longest_from(entries, count - 1, path, steps)
}

// How many bytes all entries share with one more text.
pub(crate) fn shared_with(entries: &[PrefixEntry], common: usize, text: &[u8]) -> usize
    requires { AllShare (texts_of entries.now) common }
    ensures { AllShare (texts_of entries.now ++ text.now ∷ []) result }
{
    match entries.first() {
        Some(first) => shared_from(first.text.as_slice(), text, 0).min(common),
        None => text.len(),
    }
}
