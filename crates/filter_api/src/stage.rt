// One member and its state, and all of them in a row.
ghost use Rattle.std.specs.Prelude.{◌≡◌, ℕ, ◌+◌, ◌++◌, ◌<◌, ◌≤◌, List, [], ◌∷◌, map, OnOk, IfOk, length, vec_len};
ghost use Rattle.ssi_text.specs.Marks.{part_marks, marks};
ghost use Rattle.filter_api.specs.Members.{Member, IsLawful, feeds};
ghost use Rattle.filter_api.specs.Chains.{stage_feeds, stage_ends, feeds_all, still};

use crate::facts::{Facts, FilterState};
use crate::filter::BodyFilter;
use byte_text::OutOfMemory;
use ssi_text::Part;
use std::alloc::Global;

/// What the chain keeps of a body for one member: whether it is on, and its state.
#[derive(Debug, Drop)]
pub struct Stage {
    pub on: bool,
    pub state: FilterState,
}

// One call through the box each: a loop's proof reads their clauses.

pub fn kind_of(filter: &Box<dyn BodyFilter>) -> u8
    ensures kind { result ≡ (member filter.now).kind }
    ensures lawful { IsLawful (member filter.now) }
{
    filter.promise();
    filter.kind()
}

pub fn is_on(filter: &Box<dyn BodyFilter>, facts: &Facts) -> bool
    ensures { result ≡ ((member filter.now).machine facts.now).on }
{
    filter.on(facts)
}

fn feed_one(
    filter: &Box<dyn BodyFilter>,
    facts: &Facts,
    alloc: Global,
    state: &mut FilterState,
    part: Part,
    out: &mut Vec<Part>,
) -> Result<(), OutOfMemory>
    ensures state { OnOk result (state.new
        ≡ (feeds ((member filter.now).machine facts.now) state.old (part_marks part)).0) }
    ensures out { OnOk result (marks out.new.items
        ≡ marks out.old.items
        ++ (feeds ((member filter.now).machine facts.now) state.old (part_marks part)).1) }
{
    filter.feed(facts, alloc, state, part, out)
}

fn end_one(
    filter: &Box<dyn BodyFilter>,
    facts: &Facts,
    alloc: Global,
    state: &mut FilterState,
    out: &mut Vec<Part>,
) -> Result<(), OutOfMemory>
    ensures { OnOk result (marks out.new.items
        ≡ marks out.old.items ++ ((member filter.now).machine facts.now).finish state.old) }
{
    filter.end(facts, alloc, state, out)
}

/// Feeds all of the parts to one member.
fn feed_all(
    filter: &Box<dyn BodyFilter>,
    facts: &Facts,
    alloc: Global,
    state: &mut FilterState,
    parts: Vec<Part>,
    out: &mut Vec<Part>,
) -> Result<(), OutOfMemory>
    ensures state { OnOk result (state.new
        ≡ (feeds ((member filter.now).machine facts.now) state.old (marks parts.items)).0) }
    ensures out { OnOk result (marks out.new.items
        ≡ marks out.old.items
        ++ (feeds ((member filter.now).machine facts.now) state.old (marks parts.items)).1) }
{
    for part in parts {
        feed_one(filter, facts, alloc, state, part, out)?;
    }
    Ok(())
}

/// Passes parts through one stage.
fn pass(
    filter: &Box<dyn BodyFilter>,
    facts: &Facts,
    alloc: Global,
    stage: &mut Stage,
    parts: Vec<Part>,
) -> Result<Vec<Part>, OutOfMemory>
    ensures stage { OnOk result (stage.new
        ≡ (stage_feeds ((member filter.now).machine facts.now) stage.old (marks parts.items)).0) }
    ensures out { IfOk result (λ v. marks v.items
        ≡ (stage_feeds ((member filter.now).machine facts.now) stage.old (marks parts.items)).1) }
{
    if stage.on {
        let mut next = Vec::new(alloc);
        feed_all(filter, facts, alloc, &mut stage.state, parts, &mut next)?;
        Ok(next)
    } else {
        Ok(parts)
    }
}

/// Passes parts through one stage, and then ends it.
fn pass_last(
    filter: &Box<dyn BodyFilter>,
    facts: &Facts,
    alloc: Global,
    stage: &mut Stage,
    parts: Vec<Part>,
) -> Result<Vec<Part>, OutOfMemory>
    ensures { IfOk result (λ v. marks v.items
        ≡ stage_ends ((member filter.now).machine facts.now) stage.old (marks parts.items)) }
{
    if stage.on {
        let mut next = Vec::new(alloc);
        feed_all(filter, facts, alloc, &mut stage.state, parts, &mut next)?;
        end_one(filter, facts, alloc, &mut stage.state, &mut next)?;
        Ok(next)
    } else {
        Ok(parts)
    }
}

/// Passes parts through all stages.
pub fn pass_all(
    members: &Vec<Box<dyn BodyFilter>>,
    facts: &Facts,
    alloc: Global,
    stages: &mut Vec<Stage>,
    first: Vec<Part>,
) -> Result<Vec<Part>, OutOfMemory>
    requires { vec_len stages.old ≡ vec_len members.now }
    ensures len { OnOk result (vec_len stages.new ≡ vec_len stages.old) }
    ensures stages { OnOk result (stages.new.items
        ≡ (feeds_all (map (λ b. (member b).machine facts.now) members.now.items) stages.old.items
        (marks first.items)).0) }
    ensures out { IfOk result (λ v. marks v.items
        ≡ (feeds_all (map (λ b. (member b).machine facts.now) members.now.items) stages.old.items
        (marks first.items)).1) }
{
    let mut parts = first;
    for i in 0..members.len() {
        parts = pass(&members[i], facts, alloc, &mut stages[i], parts)?;
    }
    Ok(parts)
}

/// Passes parts through all stages, and ends each.
pub fn pass_all_last(
    members: &Vec<Box<dyn BodyFilter>>,
    facts: &Facts,
    alloc: Global,
    stages: &mut Vec<Stage>,
    first: Vec<Part>,
) -> Result<Vec<Part>, OutOfMemory>
    requires { vec_len stages.old ≡ vec_len members.now }
    ensures { IfOk result (λ v. marks v.items
        ≡ still (map (λ b. (member b).machine facts.now) members.now.items) stages.old.items
        (marks first.items)) }
{
    let mut parts = first;
    for i in 0..members.len() {
        parts = pass_last(&members[i], facts, alloc, &mut stages[i], parts)?;
    }
    Ok(parts)
}

/// Puts parts at the end of others.
pub fn append_parts(out: &mut Vec<Part>, parts: Vec<Part>) -> Result<(), OutOfMemory>
    ensures { OnOk result (marks out.new.items ≡ marks out.old.items ++ marks parts.items) }
{
    for part in parts {
        out.push(part)?;
    }
    Ok(())
}
