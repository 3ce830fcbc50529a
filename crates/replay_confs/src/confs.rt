// What is where in the configuration of a script.
ghost use Rattle.std.specs.Prelude.{◌≡◌, ◌++◌, ◌+◌, ◌≤◌, ℕ, List, MatchOption, OnOk, option_map, length, take, drop};
ghost use Rattle.file_tree.specs.Tree.{node_of};
ghost use Rattle.replay_confs.specs.Confs.{text_at, has_below, conf_tree, names_in, next_name};
ghost use Rattle.replay_confs.specs.Paths.{below};

use crate::paths::{below, first_name};
use byte_text::{ByteText, ByteTexts, OutOfMemory};
use file_tree::Node;
use replay_text::Conf;
use std::alloc::Global;

/// The text of the section of a path.
pub fn text_at<'a>(confs: &'a [Conf], path: &[u8]) -> Option<&'a [u8]>
    ensures { option_map (λ t. t.now) result ≡ text_at confs.now path.now }
{
    for conf in confs {
        if conf.path.as_slice() == path {
            return Some(conf.bytes.as_slice());
        }
    }
    None
}

// Whether a section's path lies below this one.
fn has_below(confs: &[Conf], folder: &[u8]) -> bool
    ensures { result ≡ has_below confs.now folder.now }
{
    for conf in confs {
        if below(folder, conf.path.as_slice()).is_some() {
            return true;
        }
    }
    false
}

/// What is at a path.
pub fn node_at(confs: &[Conf], path: &[u8]) -> Node
    ensures { result ≡ node_of (conf_tree confs.now path.now) }
{
    match text_at(confs, path) {
        Some(bytes) => Node::File {
            len: bytes.len() as u64,
            date: 0,
        },
        None => {
            if has_below(confs, path) {
                Node::Folder
            } else {
                Node::Missing
            }
        }
    }
}

/// The `count` bytes of a text from `start` on, where it holds them.
pub fn part(bytes: &[u8], start: u64, count: u64) -> Option<&[u8]>
    ensures { MatchOption result (¬ (start + count ≤ length bytes.now)) (λ p. (start + count ≤ length bytes.now) × (p.now ≡ take count (drop start bytes.now))) }
{
    let len = bytes.len() as u64;
    if start > len || count > len - start {
        return None;
    }
    let from = start as usize;
    let size = count as usize;
    Some(&bytes[from..from + size])
}

// Adds the name with which a path goes on below a folder, where it does.
fn add_name(
    alloc: Global,
    folder: &[u8],
    path: &[u8],
    out: &mut ByteTexts,
) -> Result<(), OutOfMemory>
    ensures { OnOk result (out.new ≡ out.old ++ next_name (below folder.now path.now)) }
{
    let Some(rest) = below(folder, path) else {
        return Ok(());
    };
    let name = first_name(rest);
    if name.is_empty() {
        return Ok(());
    }
    out.push(ByteText::from_slice(alloc, name)?)?;
    Ok(())
}

/// Adds the names in a folder, one for each section below it.
pub fn add_names(
    alloc: Global,
    confs: &[Conf],
    folder: &[u8],
    out: &mut ByteTexts,
) -> Result<(), OutOfMemory>
    ensures { OnOk result (out.new ≡ out.old ++ names_in confs.now folder.now) }
{
    for conf in confs {
        add_name(alloc, folder, conf.path.as_slice(), out)?;
    }
    Ok(())
}
