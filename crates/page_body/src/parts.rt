// The parts that the filters make of a page's file.
ghost use Rattle.std.specs.Prelude.{◌≡◌, ◌&&◌, ◌++◌, List, [], ◌∷◌, map, reverse, IfOk, OnOk};
ghost use Rattle.filter_api.specs.declared.facts.Facts.{Facts as FactsView};
ghost use Rattle.filter_api.specs.Chains.{stage_feeds, still};
ghost use Rattle.ssi_text.specs.Marks.{Byte, marks};
ghost use Rattle.ssi_filter.specs.Machine.{is_split as splits, ssi_machine};
ghost use Rattle.addition_filter.specs.Machine.{is_added as adds};
ghost use Rattle.page_body.specs.Stages.{added_stage, ahead, behind, undecided_marks, shipped_machines, split_stage};

use byte_text::{ByteText, OutOfMemory};
use filter_api::{Facts, push_part};
use ssi_text::{Part, SsiState};
use std::alloc::Global;

/// From the beginning there is room for this many parts of a block, which take less than 1024 bytes: as much as the C library
/// keeps at hand.
const FEW_PARTS: usize = 15;

/// Whether the filter of server side includes acts.
pub(crate) fn is_split(facts: &Facts) -> bool
    ensures { result ≡ splits facts.now }
{
    facts.ssi && facts.ssi_type
}

/// Whether the filter of additions acts.
pub(crate) fn is_added(facts: &Facts) -> bool
    ensures { result ≡ adds facts.now }
{
    facts.main && (facts.status == 200 && (facts.addition_type && (facts.before || facts.after)))
}

/// The parts of a block: where it isn't split, or is all text, it is one text, with no copy.
pub(crate) fn block_parts(
    alloc: Global,
    split: &mut SsiState,
    is_split: bool,
    block: ByteText,
    out: &mut Vec<Part>,
) -> Result<(), OutOfMemory>
    ensures undecided { OnOk result ((facts : FactsView) → split_stage is_split split.new
        ≡ (stage_feeds (ssi_machine facts) (split_stage is_split split.old)
        (map Byte block)).0) }
    ensures out { OnOk result ((facts : FactsView) → marks out.new.items ≡ marks out.old.items
        ++ (stage_feeds (ssi_machine facts) (split_stage is_split split.old)
        (map Byte block)).1) }
{
    if block.is_empty() {
        return Ok(());
    }
    if is_split {
        out.reserve(FEW_PARTS)?;
        split.feed_text(alloc, block, out)?;
        return Ok(());
    }
    push_part(out, Part::Text(block))?;
    Ok(())
}

/// What is undecided at the end of the file is text.
fn undecided_part(
    alloc: Global,
    split: &mut SsiState,
    is_split: bool,
    out: &mut Vec<Part>,
) -> Result<(), OutOfMemory>
    ensures { OnOk result (marks out.new.items
        ≡ marks out.old.items ++ undecided_marks is_split split.old) }
{
    if is_split {
        split.end(alloc, out)?;
        return Ok(());
    }
    Ok(())
}

/// What is added comes after all parts.
fn closing_part(is_added: bool, out: &mut Vec<Part>) -> Result<(), OutOfMemory>
    ensures { OnOk result (marks out.new.items ≡ marks out.old.items ++ behind is_added) }
{
    if is_added {
        push_part(out, Part::After)?;
        return Ok(());
    }
    Ok(())
}

/// The parts that come before all others.
pub(crate) fn opening_parts(alloc: Global, is_added: bool) -> Result<Vec<Part>, OutOfMemory>
    ensures { IfOk result (λ parts. marks (reverse parts.items) ≡ ahead is_added) }
{
    let mut parts = Vec::new(alloc);
    if is_added {
        parts.push(Part::Before)?;
        return Ok(parts);
    }
    Ok(parts)
}

/// The parts at the end of the file.
pub(crate) fn last_parts(
    alloc: Global,
    split: &mut SsiState,
    is_split: bool,
    is_added: bool,
    out: &mut Vec<Part>,
) -> Result<(), OutOfMemory>
    ensures { OnOk result ((facts : FactsView) → marks out.new.items ≡ marks out.old.items
        ++ still (shipped_machines facts)
        (split_stage is_split split.old ∷ added_stage is_added ∷ []) []) }
{
    undecided_part(alloc, split, is_split, out)?;
    closing_part(is_added, out)?;
    Ok(())
}
