// The directives of a name in a level.
ghost use Rattle.std.specs.Prelude.{◌≡◌, ◌<◌, [], ◌∷◌, length, is_some, IfSome, MatchOption};
ghost use Rattle.conf_block.specs.Forest.{forest_of};
ghost use Rattle.conf_block.specs.Blocks.{block_with, blocks_of, block_of, http_in};

use crate::branch::{Branch, first_branch};
use conf_text::Directive;

/// The first directive of this name in a level, and what comes after it.
pub fn next_named<'a>(level: &'a [Directive], name: &[u8]) -> Option<Branch<'a>>
    ensures blocks { MatchOption result (blocks_of name.now (forest_of level.now) ≡ [])
        (λ b. blocks_of name.now (forest_of level.now)
        ≡ block_with b.directive.now (forest_of b.block.now)
        ∷ blocks_of name.now (forest_of b.beside.now)) }
    ensures beside { IfSome result (λ b. length b.beside.now < length level.now) }
{
    let mut rest = level;
    while let Some(branch) = first_branch(rest) {
        if branch.directive.name.as_slice() == name {
            return Some(branch);
        }
        rest = branch.beside;
    }
    None
}

/// Whether a directive of this name is in a level.
pub fn has_named(level: &[Directive], name: &[u8]) -> bool
    ensures { result ≡ is_some (block_of name.now (forest_of level.now)) }
{
    next_named(level, name).is_some()
}

/// The directives in `http`, if there is one.
pub fn http_in(directives: &[Directive]) -> &[Directive]
    ensures { forest_of result.now ≡ http_in (forest_of directives.now) }
{
    match next_named(directives, b"http") {
        None => &[],
        Some(branch) => branch.block,
    }
}
