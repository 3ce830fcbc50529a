// The variables that a configuration sets.
ghost use Rattle.std.specs.Prelude.{◌≡◌, ℕ, List, ◌||◌, OnOk, IfOk};
ghost use Rattle.conf_values.specs.TextSet.{holds};
ghost use Rattle.conf_block.specs.Forest.{forest_of};
ghost use Rattle.conf_check.specs.Names.{first_variable, set_with, set_by, is_it, is_set_in};

use byte_text::{ByteText, OutOfMemory};
use conf_block::{Content, are_directives, content_inside, first_branch, role_of};
use conf_table::Role;
use conf_text::Directive;
use conf_values::{TextSet, variable_in};
use std::alloc::Global;

fn first_variable(alloc: Global, words: &[ByteText]) -> Result<Option<ByteText>, OutOfMemory>
    ensures { IfOk result (λ name. name ≡ first_variable words.now) }
{
    match words {
        [] => Ok(None),
        [word, ..] => variable_in(alloc, word.as_slice()),
    }
}

fn set_with(
    alloc: Global,
    role: Role,
    directive: &Directive,
) -> Result<Option<ByteText>, OutOfMemory>
    ensures { IfOk result (λ name. name ≡ set_with role directive.now) }
{
    match role {
        Role::Set => {
            if directive.block {
                Ok(None)
            } else {
                first_variable(alloc, directive.args.as_slice())
            }
        }
        _ => Ok(None),
    }
}

/// The variable that a directive sets that is among these.
fn set_by(
    alloc: Global,
    here: Content,
    directive: &Directive,
) -> Result<Option<ByteText>, OutOfMemory>
    ensures { IfOk result (λ name. name ≡ set_by here directive.now) }
{
    if !are_directives(here) {
        return Ok(None);
    }
    set_with(alloc, role_of(directive.name.as_slice()), directive)
}

fn add_name(names: &mut TextSet, name: Option<ByteText>) -> Result<(), OutOfMemory>
    ensures { OnOk result ((q : List ℕ) →
        holds names.new.keys q ≡ (is_it name q || holds names.old.keys q)) }
{
    match name {
        None => Ok(()),
        Some(name) => names.add(name.as_slice()),
    }
}

/// Adds the names of the variables that these directives and those in their blocks set.
pub fn add_names(
    alloc: Global,
    here: Content,
    level: &[Directive],
    names: &mut TextSet,
) -> Result<(), OutOfMemory>
    ensures { OnOk result ((q : List ℕ) → holds names.new.keys q
        ≡ (is_set_in here (forest_of level.now) q || holds names.old.keys q)) }
{
    let mut rest = level;
    while let Some(branch) = first_branch(rest) {
        let directive = branch.directive;
        add_name(names, set_by(alloc, here, directive)?)?;
        add_names(alloc, content_inside(here, directive), branch.block, names)?;
        rest = branch.beside;
    }
    Ok(())
}
