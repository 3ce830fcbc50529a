// The longest name with a star that fits a host. Only what a dot sets off is looked up where all names have that dot, so no
// list of names is gone through.
ghost use Rattle.std.specs.Prelude.{◌≡◌, ℕ, ◌<◌, ◌≤◌, true, List, length, take, drop};
ghost use Rattle.server_choice.specs.Names.{number_of, is_ending, is_beginning, IsLongestOf, begins_with_dot, ends_with_dot, AreAll};

use crate::NameMap;

// The number of the host from a place on, as a name `*.x`.
fn ending_at(endings: &NameMap, dotted: bool, host: &[u8], at: usize) -> Option<u32>
    requires inside { at ≤ length host.now }
    requires dotted { dotted ≡ true → AreAll begins_with_dot (number_of endings.now) }
    ensures { result ≡ number_of endings.now (drop at host.now) }
{
    let text = &host[at..];
    if dotted && !text.starts_with(b".") {
        return None;
    }
    endings.get(text)
}

/// The number of the longest name `*.x`, known by `.x`, that fits a host. A star is at least one byte.
pub fn longest_ending(endings: &NameMap, dotted: bool, host: &[u8]) -> Option<u32>
    requires dotted { dotted ≡ true → AreAll begins_with_dot (number_of endings.now) }
    ensures { IsLongestOf (is_ending host.now) (number_of endings.now) result }
{
    if endings.is_empty() {
        return None;
    }
    for at in 1..=host.len() {
        if let Some(number) = ending_at(endings, dotted, host, at) {
            return Some(number);
        }
    }
    None
}

// The number of the host up to a place, as a name `x.*`.
fn beginning_at(beginnings: &NameMap, dotted: bool, host: &[u8], at: usize) -> Option<u32>
    requires inside { at ≤ length host.now }
    requires dotted { dotted ≡ true → AreAll ends_with_dot (number_of beginnings.now) }
    ensures { result ≡ number_of beginnings.now (take at host.now) }
{
    let text = &host[..at];
    if dotted && !text.ends_with(b".") {
        return None;
    }
    beginnings.get(text)
}

/// The number of the longest name `x.*`, known by `x.`, that fits a host. A star is at least one byte.
pub fn longest_beginning(beginnings: &NameMap, dotted: bool, host: &[u8]) -> Option<u32>
    requires dotted { dotted ≡ true → AreAll ends_with_dot (number_of beginnings.now) }
    ensures { IsLongestOf (is_beginning host.now) (number_of beginnings.now) result }
{
    if beginnings.is_empty() {
        return None;
    }
    let mut at = host.len();
    while at > 0 {
        at -= 1;
        if let Some(number) = beginning_at(beginnings, dotted, host, at) {
            return Some(number);
        }
    }
    None
}
