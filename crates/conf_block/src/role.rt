// What a directive is by its name, and what its block holds.
ghost use Rattle.std.specs.Prelude.{◌≡◌};
ghost use Rattle.conf_block.specs.Roles.{role_of, place_in_if, is_named, is_closed, content_of, place_of, are_directives, content_inside};

use byte_text::ByteText;
use conf_table::{Context, Role, entry};
use conf_text::Directive;

/// What a block holds.
#[derive(Clone, Copy)]
pub enum Content {
    /// Directives that are in this place.
    Directives(Context),
    /// Directives of a location in which no location may be.
    Closed,
    /// The lines of `types`.
    Lines,
}

/// What a directive of this name is.
#[tactic(auto, unfolding(crate::specs::Roles::role_of))]
pub fn role_of(name: &[u8]) -> Role
    ensures { result ≡ role_of name.now }
{
    match entry(name) {
        None => Role::Other,
        Some(rule) => rule.role,
    }
}

fn place_in_if(here: Context) -> Context
    ensures { result ≡ place_in_if here }
{
    match here {
        Context::Location => Context::LocationIf,
        Context::LocationIf => Context::LocationIf,
        Context::Top | Context::Events | Context::Http | Context::Server | Context::ServerIf => {
            Context::ServerIf
        }
    }
}

/// Whether a location is named by this word: one that begins with `@`.
pub fn is_named(word: &[u8]) -> bool
    ensures { result ≡ is_named word.now }
{
    match word {
        [] => false,
        [first, ..] => *first == b'@',
    }
}

/// Whether a location of these words holds no location: one with `=` or of a name.
fn is_closed(words: &[ByteText]) -> bool
    ensures { result ≡ is_closed words.now }
{
    match words {
        [] => false,
        [word] => is_named(word.as_slice()),
        [modifier, ..] => modifier.as_slice() == b"=".as_slice(),
    }
}

/// What the block of a directive that is here holds.
fn content_of(role: Role, here: Context, words: &[ByteText]) -> Content
    ensures { result ≡ content_of role here words.now }
{
    match role {
        Role::Http => Content::Directives(Context::Http),
        Role::Events => Content::Directives(Context::Events),
        Role::Server => Content::Directives(Context::Server),
        Role::Location => {
            if is_closed(words) {
                Content::Closed
            } else {
                Content::Directives(Context::Location)
            }
        }
        Role::If => Content::Directives(place_in_if(here)),
        Role::Types => Content::Lines,
        _ => Content::Directives(here),
    }
}

/// The place of directives that are among these.
pub fn place_of(here: Content) -> Context
    ensures { result ≡ place_of here }
{
    match here {
        Content::Directives(place) => place,
        Content::Closed | Content::Lines => Context::Location,
    }
}

/// The directives of a level, and not the lines of `types`.
pub fn are_directives(here: Content) -> bool
    ensures { result ≡ are_directives here }
{
    match here {
        Content::Directives(_) | Content::Closed => true,
        Content::Lines => false,
    }
}

/// What the block of a directive holds that is among these: directives, or lines of `types`.
#[tactic(auto, unfolding(crate::specs::Roles::content_inside))]
pub fn content_inside(here: Content, directive: &Directive) -> Content
    ensures { result ≡ content_inside here directive.now }
{
    let role = role_of(directive.name.as_slice());
    let words = directive.args.as_slice();
    match here {
        Content::Directives(place) => content_of(role, place, words),
        Content::Closed => content_of(role, Context::Location, words),
        Content::Lines => Content::Lines,
    }
}
