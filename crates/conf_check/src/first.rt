// The first fault of a configuration.
ghost use Rattle.std.specs.Prelude.{◌≡◌, IfOk};
ghost use Rattle.conf_values.specs.TextSet.{holds};
ghost use Rattle.ngx_pattern.specs.Makers.{Rose};
ghost use Rattle.conf_block.specs.Forest.{forest_of};
ghost use Rattle.conf_check.specs.Gives.{Reads, ReadsAlone};
ghost use Rattle.conf_check.specs.Names.{is_set_in};
ghost use Rattle.conf_check.specs.Faultless.{some_server, no_fault, faultless};

use crate::ends::Ends;
use crate::error::ReadError;
use crate::levels::check_level;
use crate::names::add_names;
use byte_text::OutOfMemory;
use conf_block::{Content, has_named, http_in};
use conf_table::Context;
use conf_text::{ConfFault, Directive, FaultKind};
use conf_values::TextSet;
use ngx_pattern::PatternMaker;
use std::alloc::Global;

/// Checks that `http` has a server.
fn some_server(http: &[Directive]) -> Result<(), ReadError>
    ensures { ReadsAlone (λ x. x) result (some_server (forest_of http.now)) }
{
    if has_named(http, b"server") {
        return Ok(());
    }
    Err(ReadError::Fault(ConfFault {
        kind: FaultKind::NoServer,
        file: 0,
        line: 1,
        word: None,
    }))
}

/// The names of the variables that some directive sets.
pub fn names_in(alloc: Global, directives: &[Directive]) -> Result<TextSet, OutOfMemory>
    ensures { IfOk result (λ names. holds names.keys
        ≡ is_set_in (Content.Directives Context.Top) (forest_of directives.now)) }
{
    let mut names = TextSet::new(alloc);
    add_names(
        alloc,
        Content::Directives(Context::Top),
        directives,
        &mut names,
    )?;
    Ok(names)
}

/// The first fault of the directives alone, in the order of the text.
fn check_all<M: PatternMaker>(
    alloc: Global,
    maker: &mut M,
    directives: &[Directive],
) -> Result<(), ReadError>
    ensures { Reads (Rose (M.refusals maker.old) (M.refusals maker.new)) (λ x. x) result
        (no_fault (forest_of directives.now)) }
{
    let known = names_in(alloc, directives)?;
    let mut marked = Ends::new(alloc);
    check_level(
        alloc,
        maker,
        &known,
        &mut marked,
        Content::Directives(Context::Top),
        directives,
    )
}

/// Looks for the first fault of a configuration, whose files are put in their places (nginx's documentation, "Core
/// functionality" and "Module ngx_http_core_module"). The main file's number is 0.
///
/// # Errors
///
/// `Fault` for the first fault in the order of the text. At one directive the order is: an unknown name, a place where
/// it may not be, a wrong number of words or a block, a second one where one alone may be, a wrong value, and a pattern
/// that is none. Then `NoServer`, at the beginning of the main file. `TooBig` for a pattern that the maker refused,
/// where there was no fault before it. And `OutOfMemory`.
pub fn check<M: PatternMaker>(
    alloc: Global,
    maker: &mut M,
    directives: &[Directive],
) -> Result<(), ReadError>
    ensures { Reads (Rose (M.refusals maker.old) (M.refusals maker.new)) (λ x. x) result
        (faultless directives.now) }
{
    check_all(alloc, maker, directives)?;
    some_server(http_in(directives))?;
    Ok(())
}
