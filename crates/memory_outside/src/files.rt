// Files in memory.
ghost use Rattle.std.specs.Prelude.{◌≡◌, ◌≢◌, ◌≤◌, ◌<◌, ◌+◌, ◌-◌, ◌^◌, ◌∷◌, ◌↔◌, ℕ, List, [], true, false, IsTrue, MatchOption, Some, Err, IsOk, OnOk, OnErr, IfOk, length, take, drop};
ghost use Rattle.ngx_outside.specs.Causes.{Rose, HasCause};
ghost use Rattle.ngx_outside.specs.Records.{Adds, block_answer, stat_answer};
ghost use Rattle.ngx_outside.specs.Outside.{Grow, Stats, Lends, Lists};
ghost use Rattle.ngx_outside.specs.declared.files.FileFault.TheVariants.{Failed as ReadFailed};
ghost use Rattle.file_tree.specs.Tree.{Nothing, AFile, AFolder, HoldsBytes, node_of};
ghost use Rattle.memory_outside.specs.Stored.{item_in, item_of, is_at as is_stored_at, Replaces, trees_of, newest_of, block_of, file_faults_of, file_answers_of, failing_of, versions_of, files_shown};

use crate::answers::{Answers, FileTold, tell_bytes, tell_failed, tell_node, tell_number};
use crate::names::add_names;
use byte_text::{ByteText, ByteTexts, OutOfMemory};
use file_tree::Node;
use ngx_outside::{Failed, FileFault, Files, Listing};
use std::alloc::Global;

/// What is at a path.
#[derive(Clone, Debug, Drop)]
pub enum StoredItem {
    /// A file with its date in seconds since 1970.
    File { bytes: ByteText, date: u64 },
    Folder,
    /// A node that may not be read.
    Locked,
    Missing,
}

// What is at a path from the tree with the number `from` on, as far as no later one of the path says otherwise.
#[derive(Clone, Debug, Drop)]
pub(crate) struct Stored {
    pub(crate) path: ByteText,
    pub(crate) item: StoredItem,
    pub(crate) from: u64,
}

/// A call of the files that is to fail, by its number among the calls of its kind, counted from 0.
#[derive(Clone, Copy, Debug, PartialEq, Eq)]
pub enum FileCall {
    Stat(u64),
    Read(u64),
    List(u64),
}

/// Files in memory, of which every version is kept. What isn't stored is missing, folders too. They tell what they
/// answered, as long as there is memory for that.
#[derive(Drop)]
pub struct MemoryFiles {
    alloc: Global,
    items: Vec<Stored>,
    version: u64,
    failing: Vec<FileCall>,
    stats: u64,
    reads: u64,
    lists: u64,
    faults: u64,
    versions: Answers<u64>,
    answers: Answers<FileTold>,
    block: ByteText,
}

// Whether it is at a path in the tree of a number.
fn is_at(stored: &Stored, path: &[u8], of: u64) -> bool
    ensures { result ≡ is_stored_at of path.now stored.now }
{
    stored.from <= of && stored.path.as_slice() == path
}

// What is at a path in the tree of a number.
fn find<'a>(items: &'a [Stored], path: &[u8], of: u64) -> Option<&'a StoredItem>
    ensures { MatchOption result (item_in items.now of path.now ≡ Nothing)
        (λ item. item_in items.now of path.now ≡ item_of item.now) }
{
    let mut at = items.len();
    while at > 0 {
        at -= 1;
        let stored = &items[at];
        if is_at(stored, path, of) {
            return Some(&stored.item);
        }
    }
    None
}

fn node_at(items: &[Stored], path: &[u8], of: u64) -> Node
    ensures { result ≡ node_of (item_in items.now of path.now) }
{
    match find(items, path, of) {
        None => Node::Missing,
        Some(StoredItem::File { bytes, date }) => Node::File {
            len: bytes.len() as u64,
            date: *date,
        },
        Some(StoredItem::Folder) => Node::Folder,
        Some(StoredItem::Locked) => Node::Locked,
        Some(StoredItem::Missing) => Node::Missing,
    }
}

/// Whether something is at a path.
pub(crate) fn is_there(items: &[Stored], path: &[u8], of: u64) -> bool
    ensures { IsTrue result ↔ (item_in items.now of path.now ≢ Nothing) }
{
    match find(items, path, of) {
        None => false,
        Some(StoredItem::File { bytes: _, date: _ }) => true,
        Some(StoredItem::Folder) => true,
        Some(StoredItem::Locked) => true,
        Some(StoredItem::Missing) => false,
    }
}

fn is_folder(items: &[Stored], path: &[u8], of: u64) -> bool
    ensures { IsTrue result ↔ (item_in items.now of path.now ≡ AFolder) }
{
    match find(items, path, of) {
        None => false,
        Some(StoredItem::File { bytes: _, date: _ }) => false,
        Some(StoredItem::Folder) => true,
        Some(StoredItem::Locked) => false,
        Some(StoredItem::Missing) => false,
    }
}

// The bytes of a file, where a file is there.
fn bytes_at<'a>(items: &'a [Stored], path: &[u8], of: u64) -> Option<&'a [u8]>
    ensures { MatchOption result ((bytes : List ℕ) (date : ℕ) →
        item_in items.now of path.now ≢ AFile bytes date)
        (λ b. (date : ℕ) × (item_in items.now of path.now ≡ AFile b.now date)) }
{
    match find(items, path, of) {
        Some(StoredItem::File { bytes, date: _ }) => Some(bytes.as_slice()),
        Some(StoredItem::Folder) => None,
        Some(StoredItem::Locked) => None,
        Some(StoredItem::Missing) => None,
        None => None,
    }
}

// The part of a file, where it holds `count` bytes from there on.
fn part(bytes: &[u8], start: u64, count: u64) -> Option<&[u8]>
    ensures { MatchOption result (¬ (start + count ≤ length bytes.now))
        (λ p. (start + count ≤ length bytes.now) × (p.now ≡ take count (drop start bytes.now))) }
{
    let len = bytes.len() as u64;
    if start > len || count > len - start {
        return None;
    }
    let from = start as usize;
    let size = count as usize;
    Some(&bytes[from..from + size])
}

// Adds the names of a folder of the tree of a number.
#[tactic(auto, using(crate::proofs::Children::names_told))]
fn list_in(
    alloc: Global,
    items: &[Stored],
    folder: &[u8],
    of: u64,
    out: &mut ByteTexts,
) -> Result<Listing, OutOfMemory>
    ensures { Lists true (item_in items.now of) folder.now out.old out.new result }
{
    if !is_folder(items, folder, of) {
        return Ok(Listing::Missing);
    }
    add_names(alloc, items, folder, of, out)?;
    Ok(Listing::Done)
}

impl MemoryFiles {
    /// No files, at version 0; these calls are to fail.
    #[tactic(auto, unfolding(crate::specs::Stored::item_over))]
    pub fn new(alloc: Global, failing: Vec<FileCall>) -> Self
        ensures nothing { (of : ℕ) (path : List ℕ) → trees_of result of path ≡ Nothing }
        ensures version { newest_of result ≡ 0 }
        ensures faults { file_faults_of result ≡ 0 }
        ensures failing { failing_of result ≡ failing.items }
        ensures answers { file_answers_of result ≡ Some [] }
    {
        MemoryFiles {
            alloc,
            items: Vec::new(alloc),
            version: 0,
            failing,
            stats: 0,
            reads: 0,
            lists: 0,
            faults: 0,
            versions: Answers::new(alloc),
            answers: Answers::new(alloc),
            block: ByteText::new(alloc),
        }
    }

    #[tactic(auto, using(crate::proofs::Stores::store_replaces))]
    fn store(&mut self, path: ByteText, item: StoredItem, from: u64) -> Result<(), OutOfMemory>
        ensures stored { OnOk result (Replaces from path item (trees_of self.old)
            (trees_of self.new)) }
        ensures same { OnErr result (trees_of self.new ≡ trees_of self.old) }
        ensures version { newest_of self.new ≡ newest_of self.old }
        ensures faults { file_faults_of self.new ≡ file_faults_of self.old }
        ensures failing { failing_of self.new ≡ failing_of self.old }
        ensures answers { file_answers_of self.new ≡ file_answers_of self.old }
    {
        let stored = Stored { path, item, from };
        self.items.push(stored)?;
        Ok(())
    }

    /// Puts an item at a path in the newest tree, in place of what is there.
    pub fn put(&mut self, path: ByteText, item: StoredItem) -> Result<(), OutOfMemory>
        ensures stored { OnOk result (Replaces (newest_of self.old) path item (trees_of self.old)
            (trees_of self.new)) }
        ensures same { OnErr result (trees_of self.new ≡ trees_of self.old) }
        ensures version { newest_of self.new ≡ newest_of self.old }
        ensures faults { file_faults_of self.new ≡ file_faults_of self.old }
        ensures failing { failing_of self.new ≡ failing_of self.old }
        ensures answers { file_answers_of self.new ≡ file_answers_of self.old }
    {
        let from = self.version;
        self.store(path, item, from)
    }

    /// Makes a new tree, which is the newest one but for what is at a path. The trees before it stay as they are.
    pub fn change(&mut self, path: ByteText, item: StoredItem) -> Result<(), OutOfMemory>
        requires { newest_of self.old < 2 ^ 64 - 1 }
        ensures stored { OnOk result (Replaces (newest_of self.old + 1) path item
            (trees_of self.old) (trees_of self.new)) }
        ensures version { OnOk result (newest_of self.new ≡ newest_of self.old + 1) }
        ensures same { OnErr result (trees_of self.new ≡ trees_of self.old) }
        ensures same_version { OnErr result (newest_of self.new ≡ newest_of self.old) }
        ensures grow { Grow (newest_of self.old) (newest_of self.new) (trees_of self.old)
            (trees_of self.new) }
        ensures faults { file_faults_of self.new ≡ file_faults_of self.old }
        ensures failing { failing_of self.new ≡ failing_of self.old }
        ensures answers { file_answers_of self.new ≡ file_answers_of self.old }
    {
        let from = self.version + 1;
        self.store(path, item, from)?;
        self.version = from;
        Ok(())
    }

    /// How often a call has failed.
    pub fn faults(&self) -> u64
        ensures { result ≡ file_faults_of self.now }
    {
        self.faults
    }

    // Counts a fault where a call is one that is to fail.
    fn fails(&mut self, call: FileCall) -> bool
        ensures versions { versions_of self.new ≡ versions_of self.old }
        ensures items { trees_of self.new ≡ trees_of self.old }
        ensures version { newest_of self.new ≡ newest_of self.old }
        ensures failing { failing_of self.new ≡ failing_of self.old }
        ensures answers { file_answers_of self.new ≡ file_answers_of self.old }
        ensures sure { failing_of self.old ≡ [] → result ≡ false }
        ensures quiet { result ≡ false → file_faults_of self.new ≡ file_faults_of self.old }
        ensures rose { result ≡ true → Rose (file_faults_of self.old) (file_faults_of self.new) }
        ensures later { file_faults_of self.old ≤ file_faults_of self.new }
    {
        if self.failing.contains(&call) {
            self.faults = self.faults.saturating_add(1);
            true
        } else {
            false
        }
    }

    fn count_fault(&mut self)
        ensures versions { versions_of self.new ≡ versions_of self.old }
        ensures items { trees_of self.new ≡ trees_of self.old }
        ensures version { newest_of self.new ≡ newest_of self.old }
        ensures failing { failing_of self.new ≡ failing_of self.old }
        ensures answers { file_answers_of self.new ≡ file_answers_of self.old }
        ensures rose { Rose (file_faults_of self.old) (file_faults_of self.new) }
        ensures later { file_faults_of self.old ≤ file_faults_of self.new }
    {
        self.faults = self.faults.saturating_add(1);
    }
}

impl Files for MemoryFiles {
    ghost seen = { files_shown };

    fn version(&mut self) -> u64
        ensures number { result ≡ newest_of self.old }
        ensures failing { failing_of self.new ≡ failing_of self.old }
        ensures versions { Adds result (versions_of self.old) (versions_of self.new) }
        ensures same { trees_of self.new ≡ trees_of self.old }
        ensures newest { newest_of self.new ≡ newest_of self.old }
        ensures answers { file_answers_of self.new ≡ file_answers_of self.old }
        ensures faults { file_faults_of self.new ≡ file_faults_of self.old }
    {
        tell_number(&mut self.versions, self.version);
        self.version
    }

    fn stat(&mut self, path: &[u8], of: u64) -> Result<Node, Failed>
        ensures versions { versions_of self.new ≡ versions_of self.old }
        ensures node { Stats true (trees_of self.old of) path.now result }
        ensures same { trees_of self.new ≡ trees_of self.old }
        ensures version { newest_of self.new ≡ newest_of self.old }
        ensures failing { failing_of self.new ≡ failing_of self.old }
        ensures answers { Adds (stat_answer result) (file_answers_of self.old)
            (file_answers_of self.new) }
        ensures sure { failing_of self.old ≡ [] → IsOk result }
        ensures grow { Grow (newest_of self.old) (newest_of self.new) (trees_of self.old)
            (trees_of self.new) }
        ensures cause { HasCause (file_faults_of self.old) (file_faults_of self.new) result
            (record {}) }
    {
        let call = FileCall::Stat(self.stats);
        self.stats = self.stats.saturating_add(1);
        if self.fails(call) {
            tell_failed(&mut self.answers);
            return Err(Failed);
        }
        let node = node_at(&self.items, path, of);
        tell_node(&mut self.answers, node);
        Ok(node)
    }

    fn block(&self) -> &[u8] {
        self.block.as_slice()
    }

    fn read_block(&mut self, path: &[u8], start: u64, count: u64, of: u64) -> Result<(), FileFault>
        ensures versions { versions_of self.new ≡ versions_of self.old }
        ensures bytes { Lends true (trees_of self.old of) path.now start count (block_of self.new)
            result }
        ensures same { trees_of self.new ≡ trees_of self.old }
        ensures version { newest_of self.new ≡ newest_of self.old }
        ensures failing { failing_of self.new ≡ failing_of self.old }
        ensures answers { Adds (block_answer (block_of self.new) result) (file_answers_of self.old)
            (file_answers_of self.new) }
        ensures sure { failing_of self.old ≡ [] → result ≡ Err ReadFailed → (bytes : List ℕ) →
            ¬ HoldsBytes (trees_of self.old of path.now) start count bytes }
        ensures grow { Grow (newest_of self.old) (newest_of self.new) (trees_of self.old)
            (trees_of self.new) }
        ensures cause { HasCause (file_faults_of self.old)
            (file_faults_of self.new) result ReadFailed }
    {
        let call = FileCall::Read(self.reads);
        self.reads = self.reads.saturating_add(1);
        if self.fails(call) {
            tell_failed(&mut self.answers);
            return Err(FileFault::Failed);
        }
        let Some(bytes) = bytes_at(&self.items, path, of) else {
            self.count_fault();
            tell_failed(&mut self.answers);
            return Err(FileFault::Failed);
        };
        let Some(piece) = part(bytes, start, count) else {
            self.count_fault();
            tell_failed(&mut self.answers);
            return Err(FileFault::Failed);
        };
        self.block.clear();
        match self.block.extend(piece) {
            Ok(()) => {
                tell_bytes(self.alloc, &mut self.answers, piece);
                Ok(())
            }
            Err(OutOfMemory) => {
                tell_failed(&mut self.answers);
                Err(FileFault::OutOfMemory)
            }
        }
    }

    fn list(&mut self, folder: &[u8], out: &mut ByteTexts) -> Result<Listing, FileFault> {
        let call = FileCall::List(self.lists);
        self.lists = self.lists.saturating_add(1);
        if self.fails(call) {
            return Err(FileFault::Failed);
        }
        let found = list_in(self.alloc, &self.items, folder, self.version, out)?;
        Ok(found)
    }
}
