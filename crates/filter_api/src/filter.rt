// The interface of a filter.
ghost use Rattle.std.specs.Prelude.{◌≡◌, ◌++◌, OnOk};
ghost use Rattle.ssi_text.specs.Marks.{part_marks, marks};
ghost use Rattle.filter_api.specs.Members.{Member, IsLawful, feeds};

use crate::facts::{Facts, FilterState};
use byte_text::OutOfMemory;
use ssi_text::Part;
use std::alloc::Global;

/// A member of the chain of body filters: a machine over the bytes of text and the other parts, whose meaning is its
/// ghost member `member`. It keeps the laws of its kind (`IsLawful`): kind 1 splits a document into its parts, kind 2 puts
/// Before first and After last, a later kind changes text alone.
///
/// After want of memory the state and `out` may only be dropped.
pub trait BodyFilter: Drop {
    ghost member: { Self → Member };

    /// 1 for the filter of server side includes, 2 for the one of additions, any other number from 3 on.
    fn kind(&self) -> u8
        ensures { result ≡ (member self.now).kind };

    /// Whether it acts on bodies of which these facts hold.
    fn on(&self, facts: &Facts) -> bool
        ensures { result ≡ ((member self.now).machine facts.now).on };

    /// Takes the next part of a body.
    fn feed(
        &self,
        facts: &Facts,
        alloc: Global,
        state: &mut FilterState,
        part: Part,
        out: &mut Vec<Part>,
    ) -> Result<(), OutOfMemory>
        ensures state { OnOk result (state.new
            ≡ (feeds ((member self.now).machine facts.now) state.old (part_marks part)).0) }
        ensures out { OnOk result (marks out.new.items
            ≡ marks out.old.items
            ++ (feeds ((member self.now).machine facts.now) state.old (part_marks part)).1) };

    /// Takes the end of a body, after which its state may only be dropped.
    fn end(
        &self,
        facts: &Facts,
        alloc: Global,
        state: &mut FilterState,
        out: &mut Vec<Part>,
    ) -> Result<(), OutOfMemory>
        ensures { OnOk result (marks out.new.items
            ≡ marks out.old.items ++ ((member self.now).machine facts.now).finish state.old) };

    /// A filter keeps the laws of its kind, which a caller of a boxed one learns by this call.
    fn promise(&self)
        ensures { IsLawful (member self.now) }
    {}

    ghost lawful: { (x : Self) → IsLawful (member x) };
}

/// Puts a part at the end of others.
pub fn push_part(out: &mut Vec<Part>, part: Part) -> Result<(), OutOfMemory>
    ensures { OnOk result (marks out.new.items ≡ marks out.old.items ++ part_marks part) }
{
    out.push(part)?;
    Ok(())
}
