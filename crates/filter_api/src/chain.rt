// The chain of filters.
ghost use Rattle.std.specs.Prelude.{◌≡◌, ℕ, ◌+◌, ◌++◌, ◌<◌, ◌≤◌, List, [], ◌∷◌, map, OnOk, IfOk, length, vec_len, Some, None, IfErr, nat_lt, drop};
ghost use Rattle.std.specs.List.{All, AllByRecursion, list_any};
ghost use Rattle.ssi_text.specs.Marks.{part_marks, marks};
ghost use Rattle.filter_api.specs.Members.{IsLawful, turned};
ghost use Rattle.filter_api.specs.Chains.{begun, feeds_all, still, fault_of};

use crate::facts::{Facts, FilterState};
use crate::filter::BodyFilter;
use crate::stage::{Stage, append_parts, is_on, kind_of, pass_all, pass_all_last};
use byte_text::{ByteText, OutOfMemory};
use ssi_text::Part;
use std::alloc::Global;

/// What keeps members from making a chain.
#[derive(Clone, Copy, Debug, PartialEq, Eq)]
pub enum ChainFault {
    /// The first two aren't kinds 1 and 2.
    FirstTwo = 1,
    /// A later one is of a kind below 3.
    Later,
    /// There are more than 16.
    TooMany,
}

/// What a chain keeps of a body: what it was told of it, and each member's stage.
#[derive(Debug, Drop)]
pub struct ChainState {
    pub facts: Facts,
    pub stages: Vec<Stage>,
}

/// Filters through which bodies run, in their order.
#[derive(Drop)]
pub struct Chain {
    pub members: Vec<Box<dyn BodyFilter>>,
}

/// What keeps members from making a chain, and the members.
#[derive(Drop)]
pub struct RefusedChain {
    pub members: Vec<Box<dyn BodyFilter>>,
    pub fault: ChainFault,
}

/// Asks each member for its laws.
fn promised(members: &Vec<Box<dyn BodyFilter>>)
    ensures { All (λ b. IsLawful (member b)) members.now.items }
{
    for filter in members {
        let _kind = kind_of(filter);
    }
}

/// Whether a member of the chain from the third on has a kind below 3.
fn has_low(members: &Vec<Box<dyn BodyFilter>>) -> bool
    requires { 2 ≤ vec_len members.now }
    ensures { result ≡ list_any (λ k. nat_lt k 3)
        (drop 2 (map (λ b. (member b).kind) members.now.items)) }
{
    for i in 2..members.len() {
        if kind_of(&members[i]) < 3 {
            return true;
        }
    }
    false
}

fn find_fault(members: &Vec<Box<dyn BodyFilter>>) -> Option<ChainFault>
    ensures { result ≡ fault_of (map (λ b. (member b).kind) members.now.items) }
{
    if members.len() < 2 || kind_of(&members[0]) != 1 || kind_of(&members[1]) != 2 {
        Some(ChainFault::FirstTwo)
    } else if has_low(members) {
        Some(ChainFault::Later)
    } else if members.len() > 16 {
        Some(ChainFault::TooMany)
    } else {
        None
    }
}

impl Chain {
    /// Makes a chain, or hands the list back with the first fault. Takes no memory.
    pub fn new(members: Vec<Box<dyn BodyFilter>>) -> Result<Chain, RefusedChain>
        ensures made { IfOk result (λ c. c.members ≡ members) }
        ensures fits { IfOk result (λ c. fault_of (map (λ b. (member b).kind) members.items)
            ≡ None) }
        ensures lawful { IfOk result (λ c. AllByRecursion IsLawful
            (map (λ b. member b) members.items)) }
        ensures refused { IfErr result (λ r. (r.members ≡ members)
            × (fault_of (map (λ b. (member b).kind) members.items) ≡ Some r.fault)) }
    {
        promised(&members);
        match find_fault(&members) {
            Some(fault) => Err(RefusedChain { members, fault }),
            None => Ok(Chain { members }),
        }
    }

    /// The state in which a document begins.
    pub fn start(&self, alloc: Global, facts: &Facts) -> Result<ChainState, OutOfMemory>
        ensures stages { IfOk result (λ s. s.stages.items
            ≡ begun (map (λ b. (member b).machine facts.now) self.now.members.items)) }
        ensures facts { IfOk result (λ s. s.facts ≡ facts.now) }
        ensures len { IfOk result (λ s. vec_len s.stages ≡ vec_len self.now.members) }
    {
        let mut stages = Vec::new(alloc);
        for filter in &self.members {
            let state = FilterState {
                undecided: ByteText::new(alloc),
                count: 0,
            };
            stages.push(Stage {
                on: is_on(filter, facts),
                state,
            })?;
        }
        Ok(ChainState {
            facts: *facts,
            stages,
        })
    }

    /// Takes a part.
    pub fn feed(
        &self,
        alloc: Global,
        state: &mut ChainState,
        part: Part,
        out: &mut Vec<Part>,
    ) -> Result<(), OutOfMemory>
        requires { vec_len state.old.stages ≡ vec_len self.now.members }
        ensures facts { OnOk result (state.new.facts ≡ state.old.facts) }
        ensures len { OnOk result (vec_len state.new.stages ≡ vec_len self.now.members) }
        ensures state { OnOk result (state.new.stages.items
            ≡ (feeds_all (map (λ b. (member b).machine state.old.facts) self.now.members.items)
            state.old.stages.items (part_marks part)).0) }
        ensures out { OnOk result (marks out.new.items
            ≡ marks out.old.items
            ++ (feeds_all (map (λ b. (member b).machine state.old.facts) self.now.members.items)
            state.old.stages.items (part_marks part)).1) }
    {
        let mut parts = Vec::new(alloc);
        parts.push(part)?;
        let parts = pass_all(&self.members, &state.facts, alloc, &mut state.stages, parts)?;
        append_parts(out, parts)
    }

    /// Takes the end of the document, after which its state may only be dropped.
    pub fn end(
        &self,
        alloc: Global,
        state: &mut ChainState,
        out: &mut Vec<Part>,
    ) -> Result<(), OutOfMemory>
        requires { vec_len state.old.stages ≡ vec_len self.now.members }
        ensures { OnOk result (marks out.new.items
            ≡ marks out.old.items
            ++ still (map (λ b. (member b).machine state.old.facts) self.now.members.items)
            state.old.stages.items []) }
    {
        let parts = pass_all_last(
            &self.members,
            &state.facts,
            alloc,
            &mut state.stages,
            Vec::new(alloc),
        )?;
        append_parts(out, parts)
    }

    /// Turns a document that comes as these parts. However the same document is cut, the same comes out.
    pub fn turn(
        &self,
        alloc: Global,
        facts: &Facts,
        parts: Vec<Part>,
        out: &mut Vec<Part>,
    ) -> Result<(), OutOfMemory>
        ensures { OnOk result (marks out.new.items
            ≡ marks out.old.items
            ++ turned (map (λ b. (member b).machine facts.now) self.now.members.items)
            (marks parts.items)) }
    {
        let mut state = self.start(alloc, facts)?;
        for part in parts {
            self.feed(alloc, &mut state, part, out)?;
        }
        self.end(alloc, &mut state, out)?;
        Ok(())
    }
}
