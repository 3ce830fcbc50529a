// The files of a script.
ghost use Rattle.std.specs.Prelude.{◌≡◌, ◌<◌, ◌-◌, ◌^◌, [], OnOk, IfOk};
ghost use Rattle.memory_outside.specs.Stored.{item_of as stored_item, newest_of, failing_of};
ghost use Rattle.replay_run.specs.Told.{path_of, item_of as item_put, told_of, told_first, told_next};

use byte_text::{ByteText, OutOfMemory};
use memory_outside::{MemoryFiles, StoredItem};
use replay_text::TreeLine;
use std::alloc::Global;

/// The path that a line is about.
pub(crate) fn path_in(line: &TreeLine) -> &ByteText
    ensures { result.now ≡ path_of line.now }
{
    match line {
        TreeLine::File {
            path,
            date: _,
            bytes: _,
        } => path,
        TreeLine::Folder { path } => path,
        TreeLine::Locked { path } => path,
    }
}

/// What a line puts there.
pub(crate) fn item_in(alloc: Global, line: &TreeLine) -> Result<StoredItem, OutOfMemory>
    ensures { IfOk result (λ item. stored_item item ≡ item_put line.now) }
{
    match line {
        TreeLine::File {
            path: _,
            date,
            bytes,
        } => Ok(StoredItem::File {
            bytes: ByteText::from_slice(alloc, bytes.as_slice())?,
            date: *date,
        }),
        TreeLine::Folder { path: _ } => Ok(StoredItem::Folder),
        TreeLine::Locked { path: _ } => Ok(StoredItem::Locked),
    }
}

/// The files of a script's tree, at version 0. A later line about a path replaces an earlier one.
pub fn files_of(alloc: Global, lines: &[TreeLine]) -> Result<MemoryFiles, OutOfMemory>
    ensures told { IfOk result (λ files. told_of files ≡ told_first lines.now) }
    ensures sure { IfOk result (λ files. failing_of files ≡ []) }
{
    let mut files = MemoryFiles::new(alloc, Vec::new(alloc));
    for line in lines {
        let path = ByteText::from_slice(alloc, path_in(line).as_slice())?;
        let item = item_in(alloc, line)?;
        files.put(path, item)?;
    }
    Ok(files)
}

/// The newest tree with this item at this path is the next one.
pub(crate) fn change(
    alloc: Global,
    files: &mut MemoryFiles,
    path: &[u8],
    item: StoredItem,
) -> Result<(), OutOfMemory>
    requires { newest_of files.old < 2 ^ 64 - 1 }
    ensures told { OnOk result (told_of files.new ≡ told_next path.now (stored_item item)
        (told_of files.old)) }
    ensures sure { failing_of files.new ≡ failing_of files.old }
{
    let path = ByteText::from_slice(alloc, path)?;
    files.change(path, item)?;
    Ok(())
}
