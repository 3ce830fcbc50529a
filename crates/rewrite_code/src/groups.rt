// Searches for patterns.
ghost use Rattle.std.specs.Prelude.{◌≡◌, option_map, IfOk};
ghost use Rattle.site_whole.specs.site_views.Pattern.{groups_in};
ghost use Rattle.pattern_search.specs.Found.{found_at};

use byte_text::OutOfMemory;
use ngx_pattern::{PatternSet, Spans};
use ngx_variables::Groups;
use pattern_search::{find_spans, groups_of};
use std::alloc::Global;

/// Searches for the pattern with this number: the texts of the groups of its match, where there is one. To contracts the
/// patterns stay as they are.
pub(crate) fn find_groups(
    alloc: Global,
    patterns: &mut PatternSet,
    pattern: u32,
    bytes: &[u8],
) -> Result<Option<Groups>, OutOfMemory>
    ensures found { IfOk result (λ groups.
        groups ≡ option_map (groups_in bytes.now) (found_at patterns.old pattern bytes.now)) }
    ensures kept { patterns.new ≡ patterns.old }
{
    let mut spans = Spans::new();
    if !find_spans(patterns, pattern, bytes, &mut spans) {
        return Ok(None);
    }
    let groups = groups_of(alloc, bytes, &spans)?;
    Ok(Some(groups))
}
