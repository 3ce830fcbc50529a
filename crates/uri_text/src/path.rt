// The path that a text with escapes names.
ghost use Rattle.std.specs.Prelude.{◌≡◌, ◌≢◌, ℕ, ◌<◌, ◌≤◌, ◌^◌, List, [], ◌∷◌, ◌++◌, true, None, Ok, Err, length, drop, is_ok, IfOk, IfErr, OnOk};
ghost use Rattle.uri_text.specs.Target.{kind_of, entered, path_of, path_from, spelled};
ghost use Rattle.uri_text.specs.Steps.{have_no_slash, Stands, SpellsAll, depth_with};

use crate::UriFault;
use crate::front::{Front, front_of, plain_len};
use crate::segment::{Segment, kind_of_bytes, kind_with_byte, kind_with_run};
use byte_text::ByteText;

#[inline]
fn rest_of(bytes: &[u8], at: usize) -> &[u8]
    requires { at ≤ length bytes.now }
    ensures { result.now ≡ drop at bytes.now }
{
    &bytes[at..]
}

/// Where the last folder of a text that ends in a slash starts.
fn last_start(text: &[u8]) -> usize
    requires { 1 < length text.now }
    ensures within { result ≤ length text.now }
    ensures start { (f : List ℕ) (kept : List (List ℕ)) → have_no_slash (f ∷ kept) ≡ true
        → text.now ≡ spelled (f ∷ kept) → result ≡ length (spelled kept) }
{
    let mut at = text.len() - 1;
    while at > 1 && text[at - 1] != b'/' {
        at -= 1;
    }
    at
}

/// Appends a slash. Gives where the next segment starts.
#[inline]
fn end_folder(path: &mut ByteText) -> Result<usize, UriFault>
    ensures ok { IfOk result (λ at. (path.new ≡ path.old ++ 47 ∷ []) × (at ≡ length path.new)) }
    ensures err { IfErr result (λ f. f ≡ UriFault.OutOfMemory) }
{
    path.push(b'/')?;
    Ok(path.len())
}

/// Ends the segment that starts at `start` by a slash. Gives where the next one starts.
fn enter(path: &mut ByteText, start: usize, merge: bool) -> Result<usize, UriFault>
    requires { start ≤ length path.old }
    ensures ok { (kept : List (List ℕ)) (segment : List ℕ) → Stands kept segment path.old start
        → IfOk result (λ at. SpellsAll (entered merge (kind_of segment) segment kept) path.new at) }
    ensures err { (kept : List (List ℕ)) (segment : List ℕ) → Stands kept segment path.old start
        → IfErr result (λ f. f ≢ UriFault.OutOfMemory
        → (f ≡ UriFault.AboveRoot) × (entered merge (kind_of segment) segment kept ≡ None)) }
{
    match kind_of_bytes(rest_of(path.as_slice(), start)) {
        Segment::Dot => {
            path.truncate(start);
            Ok(start)
        }
        Segment::Dots => {
            if start <= 1 {
                return Err(UriFault::AboveRoot);
            }
            let up = last_start(&path.as_slice()[..start]);
            path.truncate(up);
            Ok(up)
        }
        Segment::Empty if merge => Ok(start),
        Segment::Empty => end_folder(path),
        Segment::Name => end_folder(path),
    }
}

/// Ends the path. A last segment `.` or `..` is a folder.
fn finish(path: &mut ByteText, start: usize, merge: bool) -> Result<(), UriFault>
    requires { start ≤ length path.old }
    ensures ok { (kept : List (List ℕ)) (segment : List ℕ) → Stands kept segment path.old start
        → OnOk result (path_from merge kept (record { folders = []; name = segment }) None
        ≡ Ok path.new) }
    ensures err { (kept : List (List ℕ)) (segment : List ℕ) → Stands kept segment path.old start
        → IfErr result (λ f. f ≢ UriFault.OutOfMemory
        → path_from merge kept (record { folders = []; name = segment }) None ≡ Err f) }
{
    match kind_of_bytes(rest_of(path.as_slice(), start)) {
        Segment::Dot | Segment::Dots => {
            enter(path, start, merge)?;
            Ok(())
        }
        Segment::Empty | Segment::Name => Ok(()),
    }
}

/// Writes the path that the text after the root's slash names.
#[inline(always)]
pub fn write_path(text: &[u8], merge: bool, path: &mut ByteText) -> Result<(), UriFault>
    ensures ok { OnOk result (path_of merge text.now ≡ Ok path.new) }
    ensures err { IfErr result (λ f. f ≢ UriFault.OutOfMemory → path_of merge text.now ≡ Err f) }
{
    path.clear();
    path.reserve(text.len() + 1)?;
    path.push(b'/')?;
    let mut start = 1;
    let mut rest = text;
    'bytes: loop {
        let plain = plain_len(rest);
        let run = &rest[..plain];
        path.extend(run)?;
        match front_of(&rest[plain..]) {
            Front::End => break,
            Front::Fault(fault) => return Err(fault),
            Front::Byte(b'/', behind) => {
                start = enter(path, start, merge)?;
                rest = behind;
            }
            Front::Byte(byte, behind) => {
                path.push(byte)?;
                rest = behind;
            }
        }
    }
    finish(path, start, merge)?;
    Ok(())
}

/// How many folders there are after one more segment; none above the root.
#[tactic(auto, unfolding(crate::specs::Steps::depth_with))]
fn deeper(depth: usize, kind: Segment, merge: bool) -> Option<usize>
    requires { depth < 2 ^ 63 }
    ensures { result ≡ depth_with merge kind depth }
{
    match kind {
        Segment::Dot => Some(depth),
        Segment::Dots => depth.checked_sub(1),
        Segment::Empty if merge => Some(depth),
        Segment::Empty => Some(depth + 1),
        Segment::Name => Some(depth + 1),
    }
}

/// Whether the text after the root's slash names a path.
pub fn is_path(text: &[u8], merge: bool) -> bool
    ensures { result ≡ is_ok (path_of merge text.now) }
{
    let mut depth = 0;
    let mut kind = Segment::Empty;
    let mut rest = text;
    'bytes: loop {
        let plain = plain_len(rest);
        kind = kind_with_run(kind, &rest[..plain]);
        match front_of(&rest[plain..]) {
            Front::End => break,
            Front::Fault(_) => return false,
            Front::Byte(b'/', behind) => {
                match deeper(depth, kind, merge) {
                    Some(now) => depth = now,
                    None => return false,
                }
                kind = Segment::Empty;
                rest = behind;
            }
            Front::Byte(byte, behind) => {
                kind = kind_with_byte(kind, byte);
                rest = behind;
            }
        }
    }
    match kind {
        Segment::Dots => depth > 0,
        _ => true,
    }
}
