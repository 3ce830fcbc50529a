// The variables that one value or one directive reads.
ghost use Rattle.std.specs.Prelude.{◌≡◌, ℕ, List, option_map, IfOk};
ghost use Rattle.site_views.specs.Pattern.{Pattern};
ghost use Rattle.site_model.specs.declared.site.Site.{Site as SiteRow};
ghost use Rattle.site_whole.specs.Whole.{step_seen, target_seen, tries_seen};
ghost use Rattle.race_meaning.specs.Reads.{in_text, in_tries, in_target, in_directive};
ghost use Rattle.race_check.specs.Names.{has as has_name};

use crate::names::NameSet;
use crate::reads::{note_directive, note_text};
use crate::values::{note_target, note_tries};
use byte_text::OutOfMemory;
use ngx_variables::Value;
use site_model::{PageTarget, RewriteStep, Tries};
use std::alloc::Global;

/// The variables of a text.
pub fn text_names(alloc: Global, text: &Value) -> Result<NameSet, OutOfMemory>
    ensures { IfOk result (λ names. (name : List ℕ)
        → has_name names name ≡ in_text name text.now) }
{
    let settled = NameSet::new(alloc);
    let mut names = NameSet::new(alloc);
    note_text(&mut names, &settled, text)?;
    Ok(names)
}

/// The variables of a `try_files`, none where there is none.
pub fn tries_names(alloc: Global, tries: &Option<Tries>) -> Result<NameSet, OutOfMemory>
    ensures { IfOk result (λ names. (name : List ℕ)
        → has_name names name ≡ in_tries name (option_map tries_seen tries.now)) }
{
    let settled = NameSet::new(alloc);
    let mut names = NameSet::new(alloc);
    note_tries(&mut names, &settled, tries)?;
    Ok(names)
}

/// The variables of where an `error_page` leads.
pub fn target_names(alloc: Global, target: &PageTarget) -> Result<NameSet, OutOfMemory>
    ensures { IfOk result (λ names. (name : List ℕ)
        → has_name names name ≡ in_target name (target_seen target.now)) }
{
    let settled = NameSet::new(alloc);
    let mut names = NameSet::new(alloc);
    note_target(&mut names, &settled, target)?;
    Ok(names)
}

/// The variables that a directive of a program reads.
pub fn step_names(alloc: Global, step: &RewriteStep) -> Result<NameSet, OutOfMemory>
    ensures { IfOk result (λ names. (patterns : List Pattern) (site : SiteRow) (name : List ℕ)
        → has_name names name ≡ in_directive name (step_seen patterns site step.now)) }
{
    let settled = NameSet::new(alloc);
    let mut names = NameSet::new(alloc);
    note_directive(&mut names, &settled, step)?;
    Ok(names)
}
