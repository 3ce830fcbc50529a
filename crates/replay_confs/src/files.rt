// The configuration files of a script, as files.
ghost use Rattle.std.specs.Prelude.{◌≡◌, ◌≤◌};
ghost use Rattle.ngx_outside.specs.Causes.{Rose};
ghost use Rattle.replay_confs.specs.Confs.{confs_of, faults_of, confs_shown};

use crate::confs::{add_names, node_at, part, text_at};
use byte_text::ByteTexts;
use file_tree::Node;
use ngx_outside::{Failed, FileFault, Files, Listing};
use replay_text::Conf;
use std::alloc::Global;

/// The configuration files of a script: each `conf` section is a file, the folders that lead to one are there, and nothing
/// else is. There is one version of them. Only a read of bytes that a file doesn't hold fails. A block is lent from its section.
#[derive(Drop)]
pub struct ConfFiles<'a> {
    alloc: Global,
    confs: &'a [Conf],
    faults: u64,
    block: &'a [u8],
}

impl<'a> ConfFiles<'a> {
    /// The files of these sections.
    pub fn new(alloc: Global, confs: &'a [Conf]) -> ConfFiles<'a>
        ensures confs { confs_of result ≡ confs.now }
        ensures faults { faults_of result ≡ 0 }
    {
        ConfFiles {
            alloc,
            confs,
            faults: 0,
            block: b"".as_slice(),
        }
    }

    // Counts a failed read.
    fn count_fault(&mut self)
        ensures confs { confs_of self.new ≡ confs_of self.old }
        ensures rose { Rose (faults_of self.old) (faults_of self.new) }
        ensures later { faults_of self.old ≤ faults_of self.new }
    {
        self.faults = self.faults.saturating_add(1);
    }
}

impl<'a> Files for ConfFiles<'a> {
    ghost seen = { confs_shown };

    fn version(&mut self) -> u64 {
        0
    }

    fn stat(&mut self, path: &[u8], _of: u64) -> Result<Node, Failed> {
        Ok(node_at(self.confs, path))
    }

    fn block(&self) -> &[u8] {
        self.block
    }

    fn read_block(
        &mut self,
        path: &[u8],
        start: u64,
        count: u64,
        _of: u64,
    ) -> Result<(), FileFault> {
        let Some(bytes) = text_at(self.confs, path) else {
            self.count_fault();
            return Err(FileFault::Failed);
        };
        let Some(piece) = part(bytes, start, count) else {
            self.count_fault();
            return Err(FileFault::Failed);
        };
        self.block = piece;
        Ok(())
    }

    fn list(&mut self, folder: &[u8], out: &mut ByteTexts) -> Result<Listing, FileFault> {
        match node_at(self.confs, folder) {
            Node::Folder => {
                add_names(self.alloc, self.confs, folder, out)?;
                Ok(Listing::Done)
            }
            Node::File { len: _, date: _ } => Ok(Listing::Missing),
            Node::Locked => Ok(Listing::Missing),
            Node::Missing => Ok(Listing::Missing),
        }
    }
}
