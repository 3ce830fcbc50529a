// What reads files.
ghost use Rattle.std.specs.Prelude.{◌≡◌, ◌≤◌, OnOk, IsErrOf};
ghost use Rattle.ngx_outside.specs.Causes.{HasCause};
ghost use Rattle.ngx_outside.specs.Records.{Adds, ReadTold, Failed as NotRead, block_answer, look_answer, stat_answer};
ghost use Rattle.ngx_outside.specs.Outside.{Grow, Stats, Looks, Lends, Reads, Lists};
ghost use Rattle.ngx_outside.specs.Seen.{FilesSeen};
ghost use Rattle.ngx_outside.specs.declared.sink.Failed.{Failed};
ghost use Rattle.ngx_outside.specs.declared.files.FileFault.TheVariants.{OutOfMemory as NoMemory, Failed as ReadFailed};

use crate::Failed;
use byte_text::{ByteQueue, ByteText, ByteTexts, OutOfMemory};
use file_tree::Node;

/// Why files gave no bytes or names.
#[derive(Clone, Copy, Debug, PartialEq, Eq)]
pub enum FileFault {
    /// The call failed, and the count of faults rose.
    Failed,
    OutOfMemory,
}

impl From<OutOfMemory> for FileFault {
    ghost from_gives = { λ _ e. e ≡ NoMemory };

    fn from(_: OutOfMemory) -> Self {
        FileFault::OutOfMemory
    }
}

impl From<Failed> for FileFault {
    ghost from_gives = { λ _ e. e ≡ ReadFailed };

    fn from(_: Failed) -> Self {
        FileFault::Failed
    }
}

/// What a listing found.
#[derive(Clone, Copy, Debug, PartialEq, Eq)]
pub enum Listing {
    /// The names of the folder were added.
    Done,
    /// No folder is there.
    Missing,
}

/// What is at a path, and whether all bytes of the file that is there are lent.
#[derive(Clone, Copy, Debug, PartialEq, Eq)]
pub struct Look {
    pub node: Node,
    pub whole: bool,
}

/// Files, of which there may be several versions: the tree may change while requests run, and a job asks of the tree
/// with the number that was newest when its request started.
pub trait Files {
    /// What the files show.
    ghost seen: { Self → FilesSeen };

    /// The number of the newest tree. It never falls.
    fn version(&mut self) -> u64
        ensures number { result ≡ (seen self.old).newest }
        ensures versions { Adds result (seen self.old).versions (seen self.new).versions }
        ensures same { (seen self.new).trees ≡ (seen self.old).trees }
        ensures newest { (seen self.new).newest ≡ (seen self.old).newest }
        ensures tells { (seen self.new).tells ≡ (seen self.old).tells }
        ensures answers { (seen self.new).answers ≡ (seen self.old).answers }
        ensures faults { (seen self.new).faults ≡ (seen self.old).faults };

    /// What is at a path in the tree of a number.
    fn stat(&mut self, path: &[u8], of: u64) -> Result<Node, Failed>
        requires { of ≤ (seen self.old).newest }
        ensures node { Stats (seen self.old).tells ((seen self.old).trees of) path.now result }
        ensures answers { Adds (stat_answer result) (seen self.old).answers
            (seen self.new).answers }
        ensures tells { (seen self.new).tells ≡ (seen self.old).tells }
        ensures versions { (seen self.new).versions ≡ (seen self.old).versions }
        ensures grow { Grow (seen self.old).newest (seen self.new).newest (seen self.old).trees
            (seen self.new).trees }
        ensures cause { HasCause (seen self.old).faults (seen self.new).faults result (record {}) };

    /// What is at a path in the tree of a number. Files that have all bytes of a small file at hand lend them with it: they are
    /// the block from now on, and the file needn't be read.
    fn look(&mut self, path: &[u8], of: u64) -> Result<Look, Failed>
        requires { of ≤ (seen self.old).newest }
        ensures look { Looks (seen self.old).tells ((seen self.old).trees of) path.now
            (seen self.new).block result }
        ensures answers { Adds (look_answer result) (seen self.old).answers
            (seen self.new).answers }
        ensures tells { (seen self.new).tells ≡ (seen self.old).tells }
        ensures versions { (seen self.new).versions ≡ (seen self.old).versions }
        ensures grow { Grow (seen self.old).newest (seen self.new).newest (seen self.old).trees
            (seen self.new).trees }
        ensures cause { HasCause (seen self.old).faults (seen self.new).faults result (record {}) }
    {
        let node = self.stat(path, of)?;
        Ok(Look { node, whole: false })
    }

    /// The block that was read last, which is lent: none before the first read, and anything after one that failed.
    fn block(&self) -> &[u8]
        ensures { result.now ≡ (seen self.now).block };

    /// Reads exactly `count` bytes of a file, from `start` on, in the tree of a number: they are the block from now on. A file
    /// that doesn't hold them is a failure.
    fn read_block(&mut self, path: &[u8], start: u64, count: u64, of: u64) -> Result<(), FileFault>
        requires { of ≤ (seen self.old).newest }
        ensures bytes { Lends (seen self.old).tells
            ((seen self.old).trees of) path.now start count (seen self.new).block result }
        ensures answers { Adds (block_answer (seen self.new).block result) (seen self.old).answers
            (seen self.new).answers }
        ensures tells { (seen self.new).tells ≡ (seen self.old).tells }
        ensures versions { (seen self.new).versions ≡ (seen self.old).versions }
        ensures grow { Grow (seen self.old).newest (seen self.new).newest (seen self.old).trees
            (seen self.new).trees }
        ensures cause { HasCause (seen self.old).faults (seen self.new).faults result ReadFailed };

    /// Adds exactly `count` bytes of a file, from `start` on, in the tree of a number, to a text. A file that doesn't hold
    /// them is a failure. After a failure nothing is added.
    final fn read(
        &mut self,
        path: &[u8],
        start: u64,
        count: u64,
        of: u64,
        out: &mut ByteText,
    ) -> Result<(), FileFault>
    where
        Self: Sized,
        requires { of ≤ (seen self.old).newest }
        ensures bytes { Reads (seen self.old).tells
            ((seen self.old).trees of) path.now start count out.old out.new result }
        ensures answers { ReadTold out.old out.new result (seen self.old).answers
            (seen self.new).answers }
        ensures tells { (seen self.new).tells ≡ (seen self.old).tells }
        ensures versions { (seen self.new).versions ≡ (seen self.old).versions }
        ensures grow { Grow (seen self.old).newest (seen self.new).newest (seen self.old).trees
            (seen self.new).trees }
        ensures cause { HasCause (seen self.old).faults (seen self.new).faults result ReadFailed }
    {
        self.read_block(path, start, count, of)?;
        out.extend(self.block())?;
        Ok(())
    }

    /// Adds exactly `count` bytes of a file, from `start` on, in the tree of a number, to a queue. A file that doesn't hold
    /// them is a failure. After a failure nothing is added. What the block is after it isn't said.
    fn read_to(
        &mut self,
        path: &[u8],
        start: u64,
        count: u64,
        of: u64,
        out: &mut ByteQueue,
    ) -> Result<(), FileFault>
        requires { of ≤ (seen self.old).newest }
        ensures bytes { Reads (seen self.old).tells
            ((seen self.old).trees of) path.now start count out.old out.new result }
        ensures told { OnOk result (ReadTold out.old out.new result (seen self.old).answers
            (seen self.new).answers) }
        ensures failed { IsErrOf result ReadFailed → Adds NotRead (seen self.old).answers
            (seen self.new).answers }
        ensures tells { (seen self.new).tells ≡ (seen self.old).tells }
        ensures versions { (seen self.new).versions ≡ (seen self.old).versions }
        ensures grow { Grow (seen self.old).newest (seen self.new).newest (seen self.old).trees
            (seen self.new).trees }
        ensures cause { HasCause (seen self.old).faults (seen self.new).faults result ReadFailed }
    {
        self.read_block(path, start, count, of)?;
        out.append(self.block())?;
        Ok(())
    }

    /// Adds the names of a folder of the newest tree, in any order. After a failure some may have been added.
    fn list(&mut self, folder: &[u8], out: &mut ByteTexts) -> Result<Listing, FileFault>
        ensures names { Lists (seen self.old).tells
            ((seen self.old).trees (seen self.old).newest) folder.now out.old out.new result }
        ensures answers { (seen self.new).answers ≡ (seen self.old).answers }
        ensures tells { (seen self.new).tells ≡ (seen self.old).tells }
        ensures versions { (seen self.new).versions ≡ (seen self.old).versions }
        ensures grow { Grow (seen self.old).newest (seen self.new).newest (seen self.old).trees
            (seen self.new).trees }
        ensures cause { HasCause (seen self.old).faults (seen self.new).faults result ReadFailed };
}
