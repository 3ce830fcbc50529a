// The paths that an include names.
ghost use Rattle.std.specs.Prelude.{◌≡◌, ◌≤◌, length, take, IfOk};
ghost use Rattle.conf_include.specs.Paths.{slash_end, front_of, last_of, begins_with_slash, path_of, is_mask, folder_of};

use byte_text::{ByteText, OutOfMemory};
use std::alloc::Global;

/// How many bytes of a path come up to its last slash, with it.
fn slash_end(path: &[u8]) -> usize
    ensures end { result ≡ slash_end path.now }
    ensures within { result ≤ length path.now }
{
    let mut end = 0;
    for (i, byte) in path.iter().enumerate() {
        if *byte == b'/' {
            end = i + 1;
        }
    }
    end
}

/// Parts a path after its last slash: what comes up to it, and the last component.
pub fn parts_of(path: &[u8]) -> (&[u8], &[u8])
    ensures front { result.0.now ≡ front_of path.now }
    ensures last { result.1.now ≡ last_of path.now }
{
    path.split_at(slash_end(path))
}

fn begins_with_slash(word: &[u8]) -> bool
    ensures { result ≡ begins_with_slash word.now }
{
    match word {
        [] => false,
        [first, ..] => *first == b'/',
    }
}

/// The path of an include's word. A relative one starts at the folder of the main file.
#[tactic(auto, unfolding(crate::specs::Paths::path_of))]
pub fn path_of(alloc: Global, main: &[u8], word: &[u8]) -> Result<ByteText, OutOfMemory>
    ensures { IfOk result (λ path. path ≡ path_of main.now word.now) }
{
    if begins_with_slash(word) {
        return ByteText::from_slice(alloc, word);
    }
    let (front, _last) = parts_of(main);
    let mut path = ByteText::from_slice(alloc, front)?;
    path.extend(word)?;
    Ok(path)
}

/// Whether a path has `*` or `?` in its last component.
#[tactic(auto, unfolding(crate::specs::Paths::is_mask))]
pub fn is_mask(path: &[u8]) -> bool
    ensures { result ≡ is_mask path.now }
{
    let (_front, last) = parts_of(path);
    last.iter().any(|byte| *byte == b'*' || *byte == b'?')
}

/// The folder of a path.
#[tactic(auto, unfolding(crate::specs::Paths::folder_of))]
pub fn folder_of(path: &[u8]) -> &[u8]
    ensures { result.now ≡ folder_of path.now }
{
    match slash_end(path) {
        0 => b".",
        1 => b"/",
        end => &path[..end - 1],
    }
}
