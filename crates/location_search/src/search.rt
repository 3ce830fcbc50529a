// The search of the location that holds for a path.
ghost use Rattle.std.specs.Prelude.{◌≡◌, ◌<◌, ◌==◌, ℕ, nat_lt, true, List, [], Option, None, Some, IfSome, is_some, option_map, option_and_then, option_copied, slice_get, length, find as first_of};
ghost use Rattle.pattern_search.specs.site_model.declared.site.Site.{Site as SiteRow};
ghost use Rattle.pattern_search.specs.site_views.Search.{decided, candidates};
ghost use Rattle.pattern_search.specs.Found.{patterns_seen, found as found_in, found_at};
ghost use Rattle.location_match.specs.Numbers.{number_of, IsLongestOf};
ghost use Rattle.location_match.specs.Prefixes.{fits};
ghost use Rattle.location_search.specs.Lists.{Numbered};
ghost use Rattle.location_search.specs.Nodes.{IsTreeAt};
ghost use Rattle.location_search.specs.Found.{AreSpans, HasSpans, IsFirstMatch, sought_seen, locations_in, level_at, is_firm_at, below, remembering as remembered_by, goes_on as is_going_on, with_groups as groups_by};

use crate::node::{LocationList, Node, PatternLocation};
use ngx_pattern::{PatternSet, Spans};
use pattern_search::find_spans;

/// A location that was found: the number of its level, and whether a regular expression matched, whose groups then hold.
#[derive(Clone, Copy, Debug, PartialEq, Eq)]
pub struct FoundLocation {
    pub level: u32,
    pub matched: bool,
}

/// What the search of a list comes to: a location that ends all searching, or the level of a prefix that is remembered, if
/// there is one.
#[derive(Clone, Copy, Debug)]
pub enum Sought {
    Ends(FoundLocation),
    Remembers(Option<u32>),
}

// The node with a number.
fn node_at(nodes: &[Node], number: u32) -> Option<&Node>
    ensures { option_copied result ≡ slice_get nodes.now number }
{
    nodes.get(number as usize)
}

// The level of a location.
fn level_of(nodes: &[Node], number: Option<u32>) -> Option<u32>
    ensures { result ≡ option_and_then (level_at nodes.now) number }
{
    let node = node_at(nodes, number?)?;
    Some(node.level)
}

// Whether a location is `^~`.
fn is_firm(nodes: &[Node], number: Option<u32>) -> bool
    ensures { result ≡ is_firm_at nodes.now number }
{
    match number {
        Some(number) => match node_at(nodes, number) {
            Some(node) => node.firm,
            None => false,
        },
        None => false,
    }
}

// A number, where it is below this one, as those of the locations in a list are.
fn below_bound(number: Option<u32>, bound: u32) -> Option<u32>
    ensures inside { IfSome result (λ number. number < bound) }
    ensures same { result ≡ below bound number }
{
    let number = number?;
    if number < bound { Some(number) } else { None }
}

// The location with the longest prefix that the path begins with. One in a location has a lower number.
#[inline(always)]
fn prefix_in(list: &LocationList, bound: u32, path: &[u8]) -> Option<u32>
    ensures inside { IfSome result (λ number. number < bound) }
    ensures longest { (number : Option ℕ)
        × IsLongestOf (λ text. fits path.now text) (number_of list.now.prefixes) number
        × (result ≡ below bound number) }
{
    below_bound(list.prefixes.longest_number(path), bound)
}

// What is remembered of a prefix: what its inner list comes to, or itself.
fn remembering(prefix: Option<u32>, inner: Sought) -> Sought
    ensures { result ≡ remembered_by prefix inner }
{
    match (prefix, inner) {
        (Some(level), Sought::Remembers(None)) => Sought::Remembers(Some(level)),
        (Some(_), Sought::Remembers(Some(level))) => Sought::Remembers(Some(level)),
        (None, Sought::Remembers(level)) => Sought::Remembers(level),
        (_, Sought::Ends(found)) => Sought::Ends(found),
    }
}

// Whether regular expressions are tried after the longest prefix.
fn goes_on(sought: &Sought, firm: bool) -> bool
    ensures { result ≡ is_going_on sought.now firm }
{
    match sought {
        Sought::Ends(_) => false,
        Sought::Remembers(_) => !firm,
    }
}

// The first of the regular expressions that matches the path.
#[inline(always)]
fn first_match(
    list: &[PatternLocation],
    path: &[u8],
    patterns: &mut PatternSet,
    spans: &mut Spans,
) -> Option<PatternLocation>
    ensures first { result
        ≡ first_of (λ l. is_some (found_at patterns.old l.pattern path.now)) list.now }
    ensures spans { IfSome result
        (λ l. found_at patterns.old l.pattern path.now ≡ Some spans.new) }
    ensures sound { IfSome result (λ _. AreSpans path.now spans.new) }
    ensures kept { patterns.new ≡ patterns.old }
{
    for location in list {
        if find_spans(patterns, location.pattern, path, spans) {
            return Some(*location);
        }
    }
    None
}

// The number of the location by the first regular expression that matches the path.
#[inline(always)]
fn matching_in(
    list: &LocationList,
    bound: u32,
    path: &[u8],
    patterns: &mut PatternSet,
    spans: &mut Spans,
) -> Option<u32>
    ensures inside { IfSome result (λ number. number < bound) }
    ensures first { IsFirstMatch patterns.old path.now bound list.now.patterns.items result
        spans.new }
    ensures sound { IfSome result (λ _. AreSpans path.now spans.new) }
    ensures kept { patterns.new ≡ patterns.old }
{
    let first = first_match(&list.patterns, path, patterns, spans);
    below_bound(first.map(|location| location.number), bound)
}

// What is found by a regular expression: its inner list's location, whose groups hold where it set some, or itself.
fn with_groups(level: u32, inner: Sought, inner_spans: Spans, spans: &mut Spans) -> FoundLocation
    ensures found { result ≡ (groups_by level inner spans.old inner_spans).0 }
    ensures spans { spans.new ≡ (groups_by level inner spans.old inner_spans).1 }
{
    match inner {
        Sought::Remembers(None) => FoundLocation {
            level,
            matched: true,
        },
        Sought::Remembers(Some(level)) => FoundLocation {
            level,
            matched: true,
        },
        Sought::Ends(found) => {
            if found.matched {
                *spans = inner_spans;
            }
            FoundLocation {
                level: found.level,
                matched: true,
            }
        }
    }
}

// Whether no location is in this one, as in most.
fn is_leaf(list: &LocationList) -> bool
    ensures exact { result ≡ true → list.now.exact.texts ≡ [] }
    ensures prefixes { result ≡ true → list.now.prefixes.texts ≡ [] }
    ensures patterns { result ≡ true → list.now.patterns.items ≡ [] }
{
    list.patterns.is_empty() && list.prefixes.is_empty() && list.exact.is_empty()
}

/// The search of the list in a location. A regular expression's groups are left in the spans where the search ends at it.
pub(crate) fn seek(
    nodes: &[Node],
    number: Option<u32>,
    path: &[u8],
    patterns: &mut PatternSet,
    spans: &mut Spans,
) -> Sought
    ensures sought { (site : SiteRow) (tree : Numbered) → IsTreeAt nodes.now number tree
        → sought_seen (patterns_seen patterns.old) site path.now spans.new result
        ≡ decided (candidates found_in path.now
        (locations_in (patterns_seen patterns.old) site tree)) }
    ensures sound { HasSpans path.now result spans.new }
    ensures kept { patterns.new ≡ patterns.old }
{
    let Some(number) = number else {
        return Sought::Remembers(None);
    };
    let Some(node) = node_at(nodes, number) else {
        return Sought::Remembers(None);
    };
    if is_leaf(&node.list) {
        return Sought::Remembers(None);
    }
    if let Some(level) = level_of(nodes, node.list.exact.number(path)) {
        return Sought::Ends(FoundLocation {
            level,
            matched: false,
        });
    }
    let prefix = prefix_in(&node.list, number, path);
    let inner = seek(nodes, prefix, path, patterns, spans);
    let remembered = remembering(level_of(nodes, prefix), inner);
    if !goes_on(&remembered, is_firm(nodes, prefix)) {
        return remembered;
    }
    let matching = matching_in(&node.list, number, path, patterns, spans);
    let Some(level) = level_of(nodes, matching) else {
        return remembered;
    };
    let mut inner_spans = Spans::new();
    let inner = seek(nodes, matching, path, patterns, &mut inner_spans);
    Sought::Ends(with_groups(level, inner, inner_spans, spans))
}
