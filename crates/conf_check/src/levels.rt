// The first fault of directives, in text order.
ghost use Rattle.std.specs.Prelude.{◌≡◌, List, [], map, IfOk, OnOk};
ghost use Rattle.conf_text.specs.declared.directive.Directive.{Directive as Line};
ghost use Rattle.conf_block.specs.Forest.{forest_of};
ghost use Rattle.ngx_pattern.specs.Makers.{Rose};
ghost use Rattle.conf_check.specs.Gives.{Reads};
ghost use Rattle.conf_check.specs.Before.{Remembers};
ghost use Rattle.conf_check.specs.Checked.{line_fault, fault_in, default_with, default_by, checked};
ghost use Rattle.conf_check.specs.Ends.{has_end};
ghost use Rattle.conf_values.specs.TextSet.{holds};

use crate::before::Before;
use crate::ends::Ends;
use crate::error::ReadError;
use crate::fault::{Around, own_fault, wrong};
use crate::patterns::check_patterns;
use byte_text::OutOfMemory;
use conf_block::{Content, are_directives, content_inside, first_branch, role_of};
use conf_table::Role;
use conf_text::{Directive, FaultKind};
use conf_values::{TextSet, is_marked, listened_by};
use http_types::Addr;
use ngx_pattern::PatternMaker;
use std::alloc::Global;

/// What is wrong with a line of `types`.
fn line_fault(line: &Directive) -> Option<FaultKind>
    ensures { result ≡ line_fault line.now }
{
    if line.args.is_empty() || line.block {
        Some(FaultKind::Count)
    } else {
        None
    }
}

/// What is wrong with a directive alone that is here, after these of its level.
#[tactic(auto, unfolding(crate::specs::Checked::fault_in))]
fn fault_in(
    alloc: Global,
    around: Around<'_>,
    here: Content,
    before: &Before<'_>,
    directive: &Directive,
) -> Result<Option<FaultKind>, OutOfMemory>
    ensures { IfOk result (λ kind. (earlier : List Line) →
        Remembers (map (λ n. n.now) before.now.names.items) before.now.addrs.keys
        before.now.locations earlier →
        kind ≡ fault_in (holds around.entry.known.now.keys)
        (has_end around.entry.marked.now.keys) here earlier directive.now) }
{
    match here {
        Content::Directives(_) | Content::Closed => {
            own_fault(alloc, around, here, before, directive)
        }
        Content::Lines => Ok(line_fault(directive)),
    }
}

fn default_with(role: Role, directive: &Directive) -> Option<Addr>
    ensures { result ≡ default_with role directive.now }
{
    match role {
        Role::Listen => {
            let words = directive.args.as_slice();
            if is_marked(words) {
                listened_by(words)
            } else {
                None
            }
        }
        _ => None,
    }
}

/// The address that a directive has a default server for.
fn default_by(here: Content, directive: &Directive) -> Option<Addr>
    ensures { result ≡ default_by here directive.now }
{
    if are_directives(here) {
        default_with(role_of(directive.name.as_slice()), directive)
    } else {
        None
    }
}

/// Checks the directives of a level that is here, and those in their blocks, with their patterns; `marked` are the
/// addresses that have a default server.
pub fn check_level<M: PatternMaker>(
    alloc: Global,
    maker: &mut M,
    known: &TextSet,
    marked: &mut Ends,
    here: Content,
    level: &[Directive],
) -> Result<(), ReadError>
    ensures reads { Reads (Rose (M.refusals maker.old) (M.refusals maker.new))
        (λ x. has_end marked.new.keys) result
        (checked (holds known.now.keys) (has_end marked.old.keys) here [] (forest_of level.now)) }
    ensures spared { OnOk result (M.refusals maker.new ≡ M.refusals maker.old) }
{
    let mut before = Before::new(alloc);
    let mut rest = level;
    while let Some(branch) = first_branch(rest) {
        let directive = branch.directive;
        let around = Around {
            known,
            marked: &*marked,
        };
        let kind = fault_in(alloc, around, here, &before, directive)?;
        wrong(alloc, directive, kind)?;
        check_patterns(alloc, maker, known, here, directive)?;
        marked.add_any(default_by(here, directive))?;
        check_level(
            alloc,
            maker,
            known,
            marked,
            content_inside(here, directive),
            branch.block,
        )?;
        before.add(directive)?;
        rest = branch.beside;
    }
    Ok(())
}
