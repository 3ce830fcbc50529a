// The filter.
ghost use Rattle.std.specs.Prelude.{◌≡◌};
ghost use Rattle.filter_api.specs.ssi_text.Marks.{part_marks};
ghost use Rattle.addition_filter.specs.Machine.{addition_member, is_nothing as is_nothing_at};
ghost use Rattle.addition_filter.specs.Surrounds.{addition_lawful};

use byte_text::OutOfMemory;
use filter_api::ssi_text::Part;
use filter_api::{BodyFilter, Facts, FilterState, push_part};
use std::alloc::Global;

/// The member of kind 2: on for a main request's body with status 200, a type that is one of `addition_types`, and at
/// least one of `add_before_body` and `add_after_body`, it puts Before first and After last.
#[derive(Clone, Copy, Debug, Drop)]
pub struct AdditionFilter;

/// Whether the part is empty text.
fn is_nothing(part: &Part) -> bool
    ensures { result ≡ is_nothing_at (part_marks part.now) }
{
    match part {
        Part::Text(text) => text.as_slice().is_empty(),
        _ => false,
    }
}

impl BodyFilter for AdditionFilter {
    ghost member = { λ _. addition_member };

    fn kind(&self) -> u8 {
        2
    }

    fn on(&self, facts: &Facts) -> bool {
        facts.main
            && (facts.status == 200 && (facts.addition_type && (facts.before || facts.after)))
    }

    fn feed(
        &self,
        _facts: &Facts,
        _alloc: Global,
        state: &mut FilterState,
        part: Part,
        out: &mut Vec<Part>,
    ) -> Result<(), OutOfMemory> {
        if state.count != 0 {
            push_part(out, part)?;
            return Ok(());
        }
        if is_nothing(&part) {
            return Ok(());
        }
        push_part(out, Part::Before)?;
        state.count = 1;
        push_part(out, part)?;
        Ok(())
    }

    fn end(
        &self,
        _facts: &Facts,
        _alloc: Global,
        state: &mut FilterState,
        out: &mut Vec<Part>,
    ) -> Result<(), OutOfMemory> {
        if state.count == 0 {
            push_part(out, Part::Before)?;
            push_part(out, Part::After)?;
            Ok(())
        } else {
            push_part(out, Part::After)?;
            Ok(())
        }
    }

    ghost lawful = { λ _. addition_lawful };
}
