ghost use Rattle.std.specs.Prelude.{◌≤◌};

use byte_text::{ByteQueue, ByteText, ByteTexts};
use file_tree::Node;
use ngx_outside::{FileFault, Files, Listing, Sink};
use std::fs;
use std::test::Fail;
use std_outside::{HostFiles, HostSink};

const FOLDER: &str = "std_outside_test";

const FILE: &str = "std_outside_test/a";

// The number of the newest tree, and how many bytes the file at a path has in it; none where no file is told to be there.
fn look<F: Files>(files: &mut F, path: &str) -> (u64, Option<u64>)
    ensures known { result.0 ≤ (F.seen files.new).newest }
    ensures rises { (F.seen files.old).newest ≤ (F.seen files.new).newest }
{
    let newest = files.version();
    match files.stat(path.as_bytes(), newest) {
        Ok(Node::File { len, date: _ }) => (newest, Some(len)),
        _ => (newest, None),
    }
}

fn fresh_folder(rt: &HostRuntime) -> Result<(), Fail> {
    let _ = fs::remove_dir_all(rt, FOLDER);
    fs::create_dir(rt, FOLDER)?;
    Ok(())
}

#[test]
fn a_file_is_read_in_blocks_and_seen_anew_once_it_was_replaced(
    rt: HostRuntime,
) -> Result<(), Fail> {
    fresh_folder(&rt)?;
    fs::write(&rt, FILE, "abcdef")?;
    let mut files = HostFiles::new(rt.clone()?)?;
    let mut out = ByteText::from_slice(rt.alloc(), b">")?;
    let (of, len) = look(&mut files, FILE);
    assert_eq!(rt; len, Some(6));
    files.read(FILE.as_bytes(), 0, 4, of, &mut out)?;
    files.read(FILE.as_bytes(), 4, 2, of, &mut out)?;
    assert_eq!(rt; out.as_slice(), b">abcdef".as_slice());
    assert_eq!(rt;
        files.read(FILE.as_bytes(), 4, 3, of, &mut out),
        Err(FileFault::Failed)
    );
    assert_eq!(rt; out.as_slice(), b">abcdef".as_slice());
    fs::write(&rt, "std_outside_test/b", "other text")?;
    fs::rename(&rt, "std_outside_test/b", FILE)?;
    let (of, len) = look(&mut files, FILE);
    assert_eq!(rt; len, Some(10));
    files.read(FILE.as_bytes(), 6, 4, of, &mut out)?;
    assert_eq!(rt; out.as_slice(), b">abcdeftext".as_slice());
    fs::write(&rt, FILE, "short")?;
    assert_eq!(rt; look(&mut files, FILE).1, Some(5));
    fs::remove_file(&rt, FILE)?;
    let (of, len) = look(&mut files, FILE);
    assert_eq!(rt; len, None);
    assert!(rt; files.read(FILE.as_bytes(), 0, 1, of, &mut out).is_err());
    fs::remove_dir_all(&rt, FOLDER)?;
    Ok(())
}

// What is read between the parts of a file doesn't come among them.
#[test]
fn blocks_of_two_files_are_lent_in_turn(rt: HostRuntime) -> Result<(), Fail> {
    let folder = "std_outside_blocks";
    let _ = fs::remove_dir_all(&rt, folder);
    fs::create_dir(&rt, folder)?;
    fs::write(&rt, "std_outside_blocks/a", "abcdef")?;
    fs::write(&rt, "std_outside_blocks/b", "whole text")?;
    let mut files = HostFiles::new(rt.clone()?)?;
    assert_eq!(rt; files.block(), b"".as_slice());
    let (first, _) = look(&mut files, "std_outside_blocks/a");
    files.read_block(b"std_outside_blocks/a".as_slice(), 0, 4, first)?;
    assert_eq!(rt; files.block(), b"abcd".as_slice());
    let (other, _) = look(&mut files, "std_outside_blocks/b");
    files.read_block(b"std_outside_blocks/b".as_slice(), 0, 10, other)?;
    assert_eq!(rt; files.block(), b"whole text".as_slice());
    files.read_block(b"std_outside_blocks/a".as_slice(), 4, 2, first)?;
    assert_eq!(rt; files.block(), b"ef".as_slice());
    fs::remove_dir_all(&rt, folder)?;
    Ok(())
}

// Blocks of any size are added after what waits in a queue; one that the file doesn't have isn't.
#[test]
fn blocks_are_added_to_a_queue(rt: HostRuntime) -> Result<(), Fail> {
    let alloc = rt.alloc();
    let path = b"std_outside_queue".as_slice();
    let mut bytes = Vec::new(alloc);
    bytes.resize(9000, b'a')?;
    fs::write(&rt, "std_outside_queue", bytes.as_slice())?;
    let mut files = HostFiles::new(rt.clone()?)?;
    let (of, _) = look(&mut files, "std_outside_queue");
    let mut queue = ByteQueue::new(alloc);
    queue.append(b"ab")?;
    files.read_to(path, 0, 5000, of, &mut queue)?;
    queue.used(1);
    files.read_to(path, 5000, 4000, of, &mut queue)?;
    assert_eq!(rt; queue.len(), 9001);
    assert!(rt; queue.front().starts_with(b"baaa"));
    assert!(rt; files.read_to(path, 4000, 5001, of, &mut queue).is_err());
    assert!(rt; files.read_to(path, 8999, 2, of, &mut queue).is_err());
    assert_eq!(rt; queue.len(), 9001);
    fs::remove_file(&rt, "std_outside_queue")?;
    Ok(())
}

// There are more files than are kept open.
#[test]
fn each_of_many_files_is_read(rt: HostRuntime) -> Result<(), Fail> {
    let alloc = rt.alloc();
    let folder = "std_outside_many";
    let _ = fs::remove_dir_all(&rt, folder);
    fs::create_dir(&rt, folder)?;
    let mut files = HostFiles::new(rt.clone()?)?;
    for number in 10..40u32 {
        let path = format!(in alloc; "{folder}/{number}")?;
        fs::write(&rt, path.as_str(), format!(in alloc; "{number}")?)?;
        assert_eq!(rt; look(&mut files, path.as_str()).1, Some(2));
    }
    for number in 10..40u32 {
        let path = format!(in alloc; "{folder}/{number}")?;
        let mut out = ByteText::new(alloc);
        let (of, _) = look(&mut files, path.as_str());
        files.read(path.as_bytes(), 0, 2, of, &mut out)?;
        assert_eq!(rt; out.as_slice(), format!(in alloc; "{number}")?.as_bytes());
    }
    let mut names = ByteTexts::new(alloc);
    assert_eq!(rt; files.list(folder.as_bytes(), &mut names)?, Listing::Done);
    assert_eq!(rt; names.len(), 30);
    fs::remove_dir_all(&rt, folder)?;
    Ok(())
}

#[test]
fn what_is_no_file_is_told_apart(rt: HostRuntime) -> Result<(), Fail> {
    let mut files = HostFiles::new(rt.clone()?)?;
    assert_eq!(rt; files.stat(b"/".as_slice(), 0)?, Node::Folder);
    assert_eq!(rt; files.stat(b"/dev/null".as_slice(), 0)?, Node::Locked);
    assert_eq!(rt; files.stat(b"/no/such/file".as_slice(), 0)?, Node::Missing);
    assert_eq!(rt; files.stat(b"/\xff".as_slice(), 0)?, Node::Missing);
    let mut names = ByteTexts::new(rt.alloc());
    assert_eq!(rt;
        files.list(b"/no/such/folder".as_slice(), &mut names)?,
        Listing::Missing
    );
    assert!(rt; HostSink::new(rt.clone()?).put(b"").is_ok());
    Ok(())
}
