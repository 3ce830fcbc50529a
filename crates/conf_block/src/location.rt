// The words of `location`.
ghost use Rattle.std.specs.Prelude.{◌≡◌, ◌<◌, ◌||◌, true, false, bytes_eq, length, option_map, IfSome, MatchOption};
ghost use Rattle.conf_block.specs.Forest.{End, Branch as With, forest_of};
ghost use Rattle.conf_block.specs.Blocks.{from_first};
ghost use Rattle.conf_block.specs.Locations.{kind_by, key_with, key_of, has_modifier, has_name, is_plain, is_location, is_misplaced, text_in, alias_prefix, is_location_as, is_found};

use crate::branch::{Branch, first_branch};
use crate::role::{Content, is_named, role_of};
use byte_text::ByteText;
use conf_table::{Context, Role};
use conf_text::Directive;

/// What a location is like: with a prefix, exact, or of a name.
#[derive(Clone, Copy)]
pub enum Kind {
    Prefix,
    Exact,
    Named,
}

/// What a location is found by: no two locations of a level may have the same.
#[derive(Clone, Copy)]
pub struct Key<'a> {
    pub kind: Kind,
    pub text: &'a [u8],
}

fn kind_by(modifier: &[u8]) -> Option<Kind>
    ensures { result ≡ kind_by modifier.now }
{
    if modifier == b"=".as_slice() {
        Some(Kind::Exact)
    } else if modifier == b"^~".as_slice() {
        Some(Kind::Prefix)
    } else {
        None
    }
}

fn key_with(kind: Option<Kind>, text: &[u8]) -> Option<Key<'_>>
    ensures { option_map (λ k. (k.kind, k.text.now)) result ≡ key_with kind text.now }
{
    match kind {
        None => None,
        Some(kind) => Some(Key { kind, text }),
    }
}

/// What a location of these words is found by (nginx's documentation, `location`). None for one with a regular
/// expression, of which a level may have several that are alike.
#[tactic(auto, unfolding(crate::specs::Locations::key_of))]
pub fn key_of(words: &[ByteText]) -> Option<Key<'_>>
    ensures { option_map (λ k. (k.kind, k.text.now)) result ≡ key_of words.now }
{
    match words {
        [word] => {
            let text = word.as_slice();
            if is_named(text) {
                Some(Key {
                    kind: Kind::Named,
                    text,
                })
            } else {
                Some(Key {
                    kind: Kind::Prefix,
                    text,
                })
            }
        }
        [modifier, word] => key_with(kind_by(modifier.as_slice()), word.as_slice()),
        _ => None,
    }
}

/// Whether the words are one alone, or a text after a modifier: `=`, `^~`, `~` or `~*` (nginx's documentation,
/// `location`).
#[tactic(auto, unfolding(crate::specs::Locations::has_modifier))]
pub fn has_modifier(words: &[ByteText]) -> bool
    ensures { result ≡ has_modifier words.now }
{
    match words {
        [] => false,
        [_] => true,
        [modifier, ..] => {
            let modifier = modifier.as_slice();
            modifier == b"=".as_slice()
                || modifier == b"^~".as_slice()
                || modifier == b"~".as_slice()
                || modifier == b"~*".as_slice()
        }
    }
}

fn has_name(words: &[ByteText]) -> bool
    ensures { result ≡ has_name words.now }
{
    match words {
        [word] => is_named(word.as_slice()),
        _ => false,
    }
}

/// Whether the one word is a prefix.
pub fn is_plain(words: &[ByteText]) -> bool
    ensures { result ≡ is_plain words.now }
{
    match words {
        [word] => !is_named(word.as_slice()),
        _ => false,
    }
}

fn is_location(place: Context) -> bool
    ensures { result ≡ is_location place }
{
    match place {
        Context::Location => true,
        _ => false,
    }
}

/// Whether a directive is a location that may not be here, though others may: one of a name in another, or any in one
/// with `=` or of a name.
pub fn is_misplaced(here: Content, role: Role, words: &[ByteText]) -> bool
    ensures { result ≡ is_misplaced here role words.now }
{
    match (here, role) {
        (Content::Closed, Role::Location) => true,
        (Content::Directives(place), Role::Location) => is_location(place) && has_name(words),
        _ => false,
    }
}

/// The text of a location.
pub fn text_in(words: &[ByteText]) -> &[u8]
    ensures { result.now ≡ text_in words.now }
{
    match words {
        [] => b"",
        [word] => word.as_slice(),
        [_, word, ..] => word.as_slice(),
    }
}

/// The text that is taken off a path under `alias` in a location of these words: the location's own, none in one of a name; and
/// nothing where `alias` is the whole path, as in one with a regular expression.
#[tactic(auto, unfolding(crate::specs::Locations::alias_prefix))]
pub fn alias_prefix(words: &[ByteText]) -> Option<&[u8]>
    ensures { option_map (λ t. t.now) result ≡ alias_prefix words.now }
{
    match words {
        [] => Some(b""),
        [word] => {
            let text = word.as_slice();
            if is_named(text) {
                Some(b"")
            } else {
                Some(text)
            }
        }
        [modifier, word, ..] => {
            let modifier = modifier.as_slice();
            if modifier == b"~".as_slice() || modifier == b"~*".as_slice() {
                None
            } else {
                Some(word.as_slice())
            }
        }
    }
}

fn is_location_as(role: Role, named: bool, words: &[ByteText]) -> bool
    ensures { result ≡ is_location_as role named words.now }
{
    match role {
        Role::Location => {
            if named {
                has_name(words)
            } else {
                !has_name(words)
            }
        }
        _ => false,
    }
}

/// Whether a directive is a location: of a name, or one that a path finds.
fn is_found(named: bool, directive: &Directive) -> bool
    ensures { result ≡ is_found named directive.now }
{
    is_location_as(
        role_of(directive.name.as_slice()),
        named,
        directive.args.as_slice(),
    )
}

/// The first location of a level that has a name, or else that a path finds; and what is after it. Takes no memory.
pub fn next_location(level: &[Directive], named: bool) -> Option<Branch<'_>>
    ensures forest { MatchOption result (from_first (is_found named) (forest_of level.now) ≡ End)
        (λ b. from_first (is_found named) (forest_of level.now)
        ≡ With b.directive.now (forest_of b.block.now) (forest_of b.beside.now)) }
    ensures found { IfSome result (λ b. is_found named b.directive.now ≡ true) }
    ensures block { IfSome result (λ b. length b.block.now < length level.now) }
    ensures beside { IfSome result (λ b. length b.beside.now < length level.now) }
{
    let mut rest = level;
    while let Some(branch) = first_branch(rest) {
        if is_found(named, branch.directive) {
            return Some(branch);
        }
        rest = branch.beside;
    }
    None
}
