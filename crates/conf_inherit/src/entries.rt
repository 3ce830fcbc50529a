// The media types that levels state.
ghost use Rattle.std.specs.Prelude.{◌≡◌, ◌++◌, codes, OnOk, IfOk, Some, slice_get};
ghost use Rattle.file_type.specs.Types.{TypeList};
ghost use Rattle.conf_block.specs.Forest.{forest_of, roots};
ghost use Rattle.conf_inherit.specs.Values.{entry_with, line_entries, lines_entries, all_entries, default_entries};
ghost use Rattle.conf_block.specs.Blocks.{blocks_of};
ghost use Rattle.conf_inherit.specs.Pools.{entries_by, values_by};

use crate::level::Inherited;
use byte_text::{ByteText, OutOfMemory};
use conf_block::{first_branch, next_named};
use conf_text::Directive;
use file_type::{TypeEntry, Types};
use std::alloc::Global;

fn entry_with(alloc: Global, media_type: &[u8], extension: &[u8]) -> Result<TypeEntry, OutOfMemory>
    ensures { IfOk result (λ entry. entry ≡ entry_with media_type.now extension.now) }
{
    Ok(TypeEntry {
        extension: ByteText::from_slice(alloc, extension)?,
        media_type: ByteText::from_slice(alloc, media_type)?,
    })
}

/// The extensions of a media type, by a line of `types`.
fn push_line(
    alloc: Global,
    entries: &mut Vec<TypeEntry>,
    line: &Directive,
) -> Result<(), OutOfMemory>
    ensures { OnOk result (entries.new.items ≡ entries.old.items ++ line_entries line.now) }
{
    for extension in line.args.as_slice() {
        entries.push(entry_with(alloc, line.name.as_slice(), extension.as_slice())?)?;
    }
    Ok(())
}

/// The lines of one block.
fn push_lines(
    alloc: Global,
    entries: &mut Vec<TypeEntry>,
    block: &[Directive],
) -> Result<(), OutOfMemory>
    ensures { OnOk result (entries.new.items ≡ entries.old.items ++ lines_entries
        (roots (forest_of block.now))) }
{
    let mut rest = block;
    while let Some(branch) = first_branch(rest) {
        push_line(alloc, entries, branch.directive)?;
        rest = branch.beside;
    }
    Ok(())
}

/// The lines of all `types` blocks of a level.
fn stated_entries(alloc: Global, level: &[Directive]) -> Result<Vec<TypeEntry>, OutOfMemory>
    ensures { IfOk result (λ entries. entries.items ≡ all_entries
        (blocks_of (codes "types") (forest_of level.now))) }
{
    let mut entries = Vec::new(alloc);
    let mut rest = level;
    while let Some(branch) = next_named(rest, b"types") {
        push_lines(alloc, &mut entries, branch.block)?;
        rest = branch.beside;
    }
    Ok(entries)
}

fn default_entries(alloc: Global) -> Result<Vec<TypeEntry>, OutOfMemory>
    ensures { IfOk result (λ entries. entries.items ≡ default_entries) }
{
    let mut entries = Vec::new(alloc);
    entries.push(entry_with(alloc, b"text/html", b"html")?)?;
    entries.push(entry_with(alloc, b"image/gif", b"gif")?)?;
    entries.push(entry_with(alloc, b"image/jpeg", b"jpg")?)?;
    Ok(entries)
}

fn entries_by(alloc: Global, level: Option<&[Directive]>) -> Result<Vec<TypeEntry>, OutOfMemory>
    ensures { IfOk result (λ entries. entries.items ≡ entries_by level.entry) }
{
    match level {
        None => default_entries(alloc),
        Some(level) => stated_entries(alloc, level),
    }
}

/// The media types that hold beside these values.
pub fn types_of(alloc: Global, values: Inherited<'_>) -> Result<Types, OutOfMemory>
    ensures { IfOk result (λ types. types ≡ (values_by values.entry).types) }
{
    let entries = entries_by(alloc, values.entries)?;
    let default_type = ByteText::from_slice(alloc, values.default_type)?;
    Types::new(alloc, entries, default_type)
}

/// The media types that hold beside these values, where those under the number of the values have the same entries, which are
/// shared with them.
pub fn types_beside(
    alloc: Global,
    all: &[Types],
    values: Inherited<'_>,
) -> Result<Types, OutOfMemory>
    requires { (types : TypeList) → slice_get all.now values.types ≡ Some types
        → types.entries ≡ entries_by values.entries }
    ensures { IfOk result (λ types. types ≡ (values_by values.entry).types) }
{
    let Some(around) = all.get(values.types as usize) else {
        return types_of(alloc, values);
    };
    around.with_default(ByteText::from_slice(alloc, values.default_type)?)
}
