// A level of directives, one after the other, each with its block.
ghost use Rattle.std.specs.Prelude.{◌≡◌, ◌<◌, length, IfSome, MatchOption};
ghost use Rattle.conf_block.specs.Forest.{End, Branch as With, forest_of, HasItsBlock};

use conf_text::{Directive, split_block};

/// The first directive of a level, the directives in its block, and those after it in the level.
#[derive(Clone, Copy)]
pub struct Branch<'a> {
    pub directive: &'a Directive,
    pub block: &'a [Directive],
    pub beside: &'a [Directive],
}

/// The first directive of a level, if there is one. Takes no memory.
pub fn first_branch(level: &[Directive]) -> Option<Branch<'_>>
    ensures forest { MatchOption result (forest_of level.now ≡ End)
        (λ b. forest_of level.now
        ≡ With b.directive.now (forest_of b.block.now) (forest_of b.beside.now)) }
    ensures block { IfSome result (λ b. length b.block.now < length level.now) }
    ensures beside { IfSome result (λ b. length b.beside.now < length level.now) }
{
    match level.split_first() {
        None => None,
        Some((directive, rest)) => {
            let (block, beside) = split_block(directive.depth, rest);
            Some(Branch {
                directive,
                block,
                beside,
            })
        }
    }
}

/// A directive's block is what comes after it in the text, up to the first directive that is no deeper.
pub fn blocks_stand_behind()
    ensures { HasItsBlock }
{}
