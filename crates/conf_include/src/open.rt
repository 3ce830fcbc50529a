// The text of a file.
ghost use Rattle.std.specs.Prelude.{◌≡◌, ◌≤◌, ◌+◌, ℕ, List, length, IfOk};
ghost use Rattle.file_tree.specs.Tree.{Tree};
ghost use Rattle.conf_include.specs.Expansion.{spot, tally, text_in};
ghost use Rattle.conf_include.specs.Told.{Later, IsTold};
ghost use Rattle.conf_include.specs.Steps.{IsCaused, FailsAbout, Answers, IsLenOf, AreBytesOf};

use crate::stop::{Spot, Stop, fault_about};
use byte_text::ByteText;
use conf_text::FaultKind;
use file_tree::Node;
use ngx_outside::{Failed, FileFault, Files};
use std::alloc::Global;

/// The most bytes of text that a configuration has in all.
const MOST_BYTES: u64 = 1048576;

/// How many bytes a file has that is to be read after `size` bytes of others.
fn len_of<F: Files>(
    alloc: Global,
    files: &mut F,
    of: u64,
    at: Spot,
    path: &[u8],
    size: u64,
) -> Result<u64, Stop>
    requires { of ≤ (F.seen files.old).newest }
    ensures later { Later (F.seen files.old) (F.seen files.new) }
    ensures cause { IsCaused result (F.seen files.old).faults (F.seen files.new).faults }
    ensures place { FailsAbout (spot at.file at.line) path.now result }
    ensures len { (tree : Tree) (paths : List (List ℕ)) → IsTold of tree (F.seen files.new)
        → IsLenOf (tree path.now) (spot at.file at.line) path.now (tally paths size) result }
    ensures fits { IfOk result (λ len. len + size ≤ 1048576) }
{
    match files.stat(path, of) {
        Ok(Node::File { len, date: _ }) => {
            if len.saturating_add(size) > MOST_BYTES {
                Err(Stop::Fault(fault_about(alloc, FaultKind::TooLarge, at, path)?))
            } else {
                Ok(len)
            }
        }
        Ok(Node::Folder) => Err(Stop::Fault(fault_about(alloc, FaultKind::NotThere, at, path)?)),
        Ok(Node::Locked) => Err(Stop::Fault(fault_about(alloc, FaultKind::NotThere, at, path)?)),
        Ok(Node::Missing) => Err(Stop::Fault(fault_about(alloc, FaultKind::NotThere, at, path)?)),
        Err(Failed) => Err(Stop::Failed(fault_about(alloc, FaultKind::ReadFault, at, path)?)),
    }
}

/// The first `len` bytes of a file.
fn bytes_of<F: Files>(
    alloc: Global,
    files: &mut F,
    of: u64,
    at: Spot,
    path: &[u8],
    len: u64,
) -> Result<ByteText, Stop>
    requires { of ≤ (F.seen files.old).newest }
    ensures later { Later (F.seen files.old) (F.seen files.new) }
    ensures cause { IsCaused result (F.seen files.old).faults (F.seen files.new).faults }
    ensures place { FailsAbout (spot at.file at.line) path.now result }
    ensures bytes { (tree : Tree) → IsTold of tree (F.seen files.new)
        → AreBytesOf (tree path.now) len result }
    ensures count { IfOk result (λ t. length t ≡ len) }
{
    let mut text = ByteText::new(alloc);
    match files.read(path, 0, len, of, &mut text) {
        Ok(()) => Ok(text),
        Err(FileFault::Failed) => Err(Stop::Failed(fault_about(
            alloc,
            FaultKind::ReadFault,
            at,
            path,
        )?)),
        Err(FileFault::OutOfMemory) => Err(Stop::OutOfMemory),
    }
}

/// The text of a file, where `size` bytes were read before it.
pub fn text_of<F: Files>(
    alloc: Global,
    files: &mut F,
    of: u64,
    at: Spot,
    path: &[u8],
    size: u64,
) -> Result<ByteText, Stop>
    requires { of ≤ (F.seen files.old).newest }
    ensures later { Later (F.seen files.old) (F.seen files.new) }
    ensures cause { IsCaused result (F.seen files.old).faults (F.seen files.new).faults }
    ensures place { FailsAbout (spot at.file at.line) path.now result }
    ensures text { (tree : Tree) (paths : List (List ℕ)) → IsTold of tree (F.seen files.new)
        → Answers (λ t. t) result (text_in (tree path.now) (spot at.file at.line) path.now
        (tally paths size)) paths }
    ensures fits { IfOk result (λ t. size + length t ≤ 1048576) }
{
    let len = len_of(alloc, files, of, at, path, size)?;
    bytes_of(alloc, files, of, at, path, len)
}
