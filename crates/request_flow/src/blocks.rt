// The blocks of a file.
ghost use Rattle.std.specs.Prelude.{◌≡◌, ◌≤◌, true, false};
ghost use Rattle.file_tree.specs.Tree.{Trees, tree_of};
ghost use Rattle.request_flow.specs.Flows.{is_block, is_stat, item_asked};

use byte_text::ByteText;
use file_tree::Ask;

/// No more bytes of a file are asked at once.
const BLOCK: u64 = 16384;

/// A response whose head was put, and whose body is a file: the status and the length of the file, which are logged once it
/// is sent.
#[derive(Clone, Copy, Debug, PartialEq, Eq)]
pub struct Sending {
    pub status: u16,
    pub len: u64,
}

/// Where a job asks: the path, and the number of the tree.
#[derive(Drop)]
pub(crate) struct Target {
    pub(crate) path: ByteText,
    pub(crate) of: u64,
}

pub(crate) fn target_of(ask: Ask) -> Target
    ensures item { (trees : Trees) → trees result.of result.path ≡ item_asked trees ask }
    ensures tree { result.of ≡ tree_of ask }
{
    match ask {
        Ask::Stat { path, of } => Target { path, of },
        Ask::Read {
            path,
            start: _,
            count: _,
            of,
        } => Target { path, of },
    }
}

/// Asks for the next block of a file of which this many bytes are left, in place of the last one.
#[tactic(auto, unfolding(crate::specs::Flows::block_most))]
pub(crate) fn to_next_block(ask: &mut Ask, len: u64, left: u64)
    requires within { left ≤ len }
    requires block { is_stat ask.old ≡ false }
    ensures block { is_block len left ask.new ≡ true }
    ensures item { (trees : Trees) → item_asked trees ask.new ≡ item_asked trees ask.old }
    ensures tree { tree_of ask.new ≡ tree_of ask.old }
{
    match ask {
        Ask::Read {
            path: _,
            start,
            count,
            of: _,
        } => {
            *start = len - left;
            *count = left.min(BLOCK);
        }
        Ask::Stat { path: _, of: _ } => unreachable!(),
    }
}

/// The next block of a file of which this many bytes are left.
#[tactic(auto, unfolding(crate::specs::Flows::block_most))]
pub(crate) fn next_block(ask: Ask, len: u64, left: u64) -> Ask
    requires { left ≤ len }
    ensures block { is_block len left result ≡ true }
    ensures item { (trees : Trees) → item_asked trees result ≡ item_asked trees ask }
    ensures tree { tree_of result ≡ tree_of ask }
{
    let target = target_of(ask);
    Ask::Read {
        path: target.path,
        start: len - left,
        count: left.min(BLOCK),
        of: target.of,
    }
}
