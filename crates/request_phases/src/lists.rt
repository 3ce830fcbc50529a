// The lists that levels name by number.
ghost use Rattle.std.specs.Prelude.{◌≡◌, map};
ghost use Rattle.try_index.specs.site_whole.Whole.{index_at, pages_at, rules_at, auth_sets_at, index_seen, page_seen, auth_set_seen, default_index};

use access_rules::Rule;
use site_model::{AuthSet, IndexName, PageRule, Site};

/// The rules of `error_page` with a number.
pub(crate) fn pages_at(site: &Site, number: Option<u32>) -> &[PageRule]
    ensures { map page_seen result.now ≡ pages_at site.now number }
{
    match number {
        None => &[],
        Some(number) => match site.pages.get(number as usize) {
            Some(pages) => pages.rules.as_slice(),
            None => &[],
        },
    }
}

/// The address rules with a number.
pub(crate) fn rules_at(site: &Site, number: Option<u32>) -> &[Rule]
    ensures { result.now ≡ rules_at site.now number }
{
    match number {
        None => &[],
        Some(number) => match site.rules.get(number as usize) {
            Some(rules) => rules.rules.as_slice(),
            None => &[],
        },
    }
}

/// The names of `index` with a number, and without one those that hold where none are stated.
pub(crate) fn index_at<'a>(
    site: &'a Site,
    unstated: &'a [IndexName],
    number: Option<u32>,
) -> &'a [IndexName]
    requires { map index_seen unstated.now ≡ default_index }
    ensures { map index_seen result.now ≡ index_at site.now number }
{
    match number {
        None => unstated,
        Some(number) => match site.indexes.get(number as usize) {
            Some(names) => names.names.as_slice(),
            None => &[],
        },
    }
}

/// What the directives `auth_request_set` with a number set.
pub(crate) fn auth_sets_at(site: &Site, number: Option<u32>) -> &[AuthSet]
    ensures { map auth_set_seen result.now ≡ auth_sets_at site.now number }
{
    match number {
        None => &[],
        Some(number) => match site.auth_sets.get(number as usize) {
            Some(sets) => sets.sets.as_slice(),
            None => &[],
        },
    }
}
