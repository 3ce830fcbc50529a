// The filter.
ghost use Rattle.std.specs.Prelude.{◌≡◌, ◌++◌, map, OnOk};
ghost use Rattle.ssi_text.specs.Marks.{Byte, marks};
ghost use Rattle.ssi_text.specs.Split.{split};
ghost use Rattle.ssi_filter.specs.Machine.{ssi_member, with_undecided};
ghost use Rattle.ssi_filter.specs.Splits.{ssi_lawful};

use byte_text::{ByteText, OutOfMemory};
use filter_api::{BodyFilter, Facts, FilterState, push_part};
use ssi_text::{Part, SsiState};
use std::alloc::Global;

/// The member of kind 1: on where `ssi` is on and the type is one of `ssi_types`, it splits the document.
#[derive(Clone, Copy, Debug, Drop)]
pub struct SsiFilter;

/// Feeds text that isn't nothing.
fn feed_text(
    alloc: Global,
    state: &mut FilterState,
    text: &[u8],
    out: &mut Vec<Part>,
) -> Result<(), OutOfMemory>
    ensures state { OnOk result (state.new
        ≡ with_undecided state.old (split 0 (state.old.undecided ++ text.now)).1) }
    ensures out { OnOk result (marks out.new.items
        ≡ marks out.old.items ++ (split 0 (state.old.undecided ++ text.now)).0) }
{
    let mut split = SsiState::from_undecided(alloc, state.undecided.as_slice())?;
    split.feed(alloc, text, out)?;
    state.undecided.clear();
    state.undecided.extend(split.undecided())?;
    Ok(())
}

/// What is undecided is text.
fn release(alloc: Global, state: &FilterState, out: &mut Vec<Part>) -> Result<(), OutOfMemory>
    ensures { OnOk result (marks out.new.items ≡ marks out.old.items ++ map Byte state.now.undecided) }
{
    if state.undecided.is_empty() {
        return Ok(());
    }
    let text = ByteText::from_slice(alloc, state.undecided.as_slice())?;
    push_part(out, Part::Text(text))?;
    Ok(())
}

impl BodyFilter for SsiFilter {
    ghost member = { λ _. ssi_member };

    fn kind(&self) -> u8 {
        1
    }

    fn on(&self, facts: &Facts) -> bool {
        facts.ssi && facts.ssi_type
    }

    fn feed(
        &self,
        _facts: &Facts,
        alloc: Global,
        state: &mut FilterState,
        part: Part,
        out: &mut Vec<Part>,
    ) -> Result<(), OutOfMemory> {
        match part {
            Part::Text(text) => {
                if text.is_empty() {
                    return Ok(());
                }
                feed_text(alloc, state, text.as_slice(), out)?;
                Ok(())
            }
            other => {
                release(alloc, state, out)?;
                state.undecided.clear();
                push_part(out, other)?;
                Ok(())
            }
        }
    }

    fn end(
        &self,
        _facts: &Facts,
        alloc: Global,
        state: &mut FilterState,
        out: &mut Vec<Part>,
    ) -> Result<(), OutOfMemory> {
        release(alloc, state, out)?;
        Ok(())
    }

    ghost lawful = { λ _. ssi_lawful };
}
