// Which lists of lines were gone through, each with which list of values.
ghost use Rattle.std.specs.Prelude.{◌≡◌, ℕ, false, List, Some, slice_set, IfOk};
ghost use Rattle.race_check.specs.declared.listed.ListKind.{ListKind as Kind};
ghost use Rattle.race_places.specs.Marks.{same_kind, is_gone};

use crate::lined::LineList;
use byte_text::OutOfMemory;
use race_check::ListKind;
use std::alloc::Global;

/// The list of values with which a list of lines was gone through.
#[derive(Clone, Copy)]
pub struct Mark {
    pub kind: ListKind,
    pub values: u32,
}

fn same_kind(a: ListKind, b: ListKind) -> bool
    ensures { result ≡ same_kind a b }
{
    match (a, b) {
        (ListKind::Index, ListKind::Index)
        | (ListKind::Pages, ListKind::Pages)
        | (ListKind::AuthSets, ListKind::AuthSets) => true,
        _ => false,
    }
}

/// None of these lists was gone through.
pub fn no_marks(alloc: Global, lists: &[LineList]) -> Result<Vec<Option<Mark>>, OutOfMemory>
    ensures { IfOk result (λ marks. (lines : ℕ) (kind : Kind) (values : ℕ)
        → is_gone marks.items lines kind values ≡ false) }
{
    let mut marks = Vec::new(alloc);
    for _list in lists {
        marks.push(None)?;
    }
    Ok(marks)
}

/// Whether the list of lines of this number was gone through with this list of values.
pub fn is_gone(marks: &[Option<Mark>], lines: usize, kind: ListKind, values: u32) -> bool
    ensures { result ≡ is_gone marks.now lines kind values }
{
    match marks.get(lines) {
        Some(Some(mark)) => same_kind(mark.kind, kind) && mark.values == values,
        Some(None) | None => false,
    }
}

/// The list of lines of this number was gone through with this list of values.
pub fn mark_gone(marks: &mut Vec<Option<Mark>>, lines: usize, mark: Mark)
    ensures { marks.new.items ≡ slice_set marks.old.items lines (Some mark) }
{
    if lines < marks.len() {
        marks[lines] = Some(mark);
    }
}
