// Where a match and its groups are.
ghost use Rattle.std.specs.Prelude.{◌≡◌, ◌≤◌, ℕ, false, List, Option, None, IfSome, map, length, slice_index_or};
ghost use Rattle.std.specs.List.{range_with_len};
ghost use Rattle.regex.specs.Search.{group_span};
ghost use Rattle.ngx_pattern.specs.Pattern.{spans_of, AllLieWithin};

use std::marker::Model;

// Where a group of a match is, or the whole match, by 0.
fn span_of(
    bytes: &[u8],
    whole: (usize, usize),
    cells: &[usize],
    number: usize,
) -> Option<(usize, usize)>
    requires whole { (whole.0 ≤ whole.1) × (whole.1 ≤ length bytes.now) }
    ensures span { result ≡ group_span false bytes.now whole cells.now number }
    ensures within { IfSome result (λ s. (s.0 ≤ s.1) × (s.1 ≤ length bytes.now)) }
{
    if number == 0 {
        return Some(whole);
    }
    if number > cells.len() / 2 {
        return None;
    }
    let first = cells[2 * number - 2];
    let last = cells[2 * number - 1];
    if first == 0 || last < first || last - 1 > bytes.len() {
        return None;
    }
    Some((first - 1, last - 1))
}

/// Where the match of a pattern is in the bytes that were searched, and its groups 1 to 9: the start and the end of each
/// that is there. Contracts see a list of ten, the match first.
#[derive(Debug, Drop)]
pub struct Spans {
    spans: [Option<(usize, usize)>; 10],
}

impl Model for Spans {
    ghost Value = { List (Option (ℕ × ℕ)) };

    ghost view = { λ s. s.spans };

    ghost invariant = { λ s. length s.spans ≡ 10 };
}

impl Spans {
    /// No match.
    #[tactic(auto, unfolding(crate::specs::Pattern::spans_of))]
    pub fn new() -> Self
        ensures { result ≡ spans_of None }
    {
        Spans { spans: [None; 10] }
    }

    /// Where the match is, by 0, or a group, by its number; `None` for what isn't there. An empty group is there.
    pub fn get(&self, number: usize) -> Option<(usize, usize)>
        ensures { result ≡ slice_index_or self.now number None }
    {
        self.spans.get(number).copied().flatten()
    }

    // No span.
    #[tactic(auto, unfolding(crate::specs::Pattern::spans_of))]
    pub(crate) fn clear(&mut self)
        ensures { self.new ≡ spans_of None }
    {
        self.spans = [None; 10];
    }

    // The spans of a match's groups, of which the cells have a start and an end each.
    pub(crate) fn read(&mut self, bytes: &[u8], whole: (usize, usize), cells: &[usize])
        requires whole { (whole.0 ≤ whole.1) × (whole.1 ≤ length bytes.now) }
        ensures spans { self.new
            ≡ map (group_span false bytes.now whole cells.now) (range_with_len 0 10) }
        ensures within { AllLieWithin (length bytes.now) self.new }
    {
        for (number, span) in self.spans.iter_mut().enumerate() {
            *span = span_of(bytes, whole, cells, number);
        }
    }
}
