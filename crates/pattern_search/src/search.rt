// Searches for patterns by their numbers.
ghost use Rattle.std.specs.Prelude.{◌≡◌, ℕ, ◌+◌, ◌-◌, ◌<◌, ◌≤◌, List, [], ◌∷◌, ◌++◌, length, map, drop, take, None, Some, IfOk, IfSome, slice_index_or};
ghost use Rattle.ngx_pattern.specs.Pattern.{AllLieWithin};
ghost use Rattle.site_views.specs.Pattern.{text_at, groups_in};
ghost use Rattle.pattern_search.specs.Found.{found_at, spans_if};

use byte_text::OutOfMemory;
use ngx_pattern::{PatternId, PatternSet, Spans};
use site_views::ngx_variables::Groups;
use std::alloc::Global;

/// Searches for the pattern with this number, and leaves the spans of its match and of the groups 1 to 9. A number that no
/// pattern of the set has finds nothing. To contracts the patterns stay as they are.
pub fn find_spans(patterns: &mut PatternSet, pattern: u32, bytes: &[u8], spans: &mut Spans) -> bool
    ensures found { spans_if result spans.new ≡ found_at patterns.old pattern bytes.now }
    ensures within { AllLieWithin (length bytes.now) spans.new }
    ensures ten { length spans.new ≡ 10 }
    ensures kept { patterns.new ≡ patterns.old }
{
    let id = PatternId::from_number(pattern);
    patterns.matches(id, bytes, spans)
}

// The text where something is; empty where it is nowhere.
fn text_at(bytes: &[u8], span: Option<(usize, usize)>) -> &[u8]
    requires { IfSome span (λ s. (s.0 ≤ s.1) × (s.1 ≤ length bytes.now)) }
    ensures { result.now ≡ text_at bytes.now span }
{
    match span {
        Some((start, end)) => &bytes[start..end],
        None => &[],
    }
}

// The text of a group, by its number.
fn group<'a>(bytes: &'a [u8], spans: &Spans, number: usize) -> &'a [u8]
    requires { AllLieWithin (length bytes.now) spans.now }
    ensures { result.now ≡ text_at bytes.now (slice_index_or spans.now number None) }
{
    text_at(bytes, spans.get(number))
}

/// The texts of the groups 1 to 9 of a match; a group that took no part in it is empty.
#[tactic(auto, unfolding(site_views::specs::Pattern::groups_in))]
pub fn groups_of(alloc: Global, bytes: &[u8], spans: &Spans) -> Result<Groups, OutOfMemory>
    requires within { AllLieWithin (length bytes.now) spans.now }
    requires ten { length spans.now ≡ 10 }
    ensures { IfOk result (λ groups. groups ≡ groups_in bytes.now spans.now) }
{
    let mut groups = Groups::new(alloc);
    for number in 1..10 {
        groups.push(group(bytes, spans, number))?;
    }
    Ok(groups)
}
