ghost use Rattle.std.specs.Prelude.{◌≡◌, IfOk};
ghost use Rattle.memory_outside.specs.Stored.{newest_of};

use byte_text::{ByteText, ByteTexts, OutOfMemory};
use file_tree::Node;
use http_types::Addr;
use memory_links::{LinkCall, MemoryLinks, ScriptedNotice};
use memory_outside::{FileCall, MemoryFiles, MemorySink, StoredItem};
use ngx_outside::{Files, Input, Links, Listing, Output, Sink};
use std::alloc::Global;
use std::net::{IpAddr, Ipv4Addr};
use std::test::Fail;

fn some_files(alloc: Global, failing: Vec<FileCall>) -> Result<MemoryFiles, OutOfMemory>
    ensures { IfOk result (λ f. newest_of f ≡ 0) }
{
    let mut files = MemoryFiles::new(alloc, failing);
    let file = StoredItem::File {
        bytes: ByteText::from_slice(alloc, b"hello")?,
        date: 7,
    };
    files.put(ByteText::from_slice(alloc, b"/w")?, StoredItem::Folder)?;
    files.put(ByteText::from_slice(alloc, b"/w/a")?, file)?;
    Ok(files)
}

#[test]
fn files_hold_their_bytes_and_older_trees_stay(rt: HostRuntime) -> Result<(), Fail> {
    let alloc = rt.alloc();
    let mut files = some_files(alloc, [FileCall::Stat(2)].to_vec(alloc)?)?;
    let mut out = ByteText::new(alloc);
    files.read(b"/w/a".as_slice(), 1, 3, 0, &mut out)?;
    assert!(rt; files.read(b"/w/a".as_slice(), 4, 2, 0, &mut out).is_err());
    assert_eq!(rt; out.as_slice(), b"ell".as_slice());
    files.read_block(b"/w/a".as_slice(), 0, 2, 0)?;
    assert_eq!(rt; files.block(), b"he".as_slice());
    let mut names = ByteTexts::new(alloc);
    assert_eq!(rt; files.list(b"/w".as_slice(), &mut names)?, Listing::Done);
    assert_eq!(rt; names.len(), 1);
    assert_eq!(rt; files.version(), 0);
    files.change(ByteText::from_slice(alloc, b"/w/a")?, StoredItem::Missing)?;
    assert_eq!(rt; files.version(), 1);
    assert_eq!(rt;
        files.stat(b"/w/a".as_slice(), 0)?,
        Node::File { len: 5, date: 7 }
    );
    assert_eq!(rt; files.stat(b"/w/a".as_slice(), 1)?, Node::Missing);
    assert!(rt; files.stat(b"/".as_slice(), 0).is_err());
    assert_eq!(rt; files.faults(), 2);
    Ok(())
}

fn end_at(port: u16) -> Addr {
    Addr {
        ip: IpAddr::V4(Ipv4Addr::LOCALHOST),
        port,
    }
}

fn some_links(alloc: Global, failing: Vec<LinkCall>) -> Result<MemoryLinks, OutOfMemory> {
    let mut script = Vec::new(alloc);
    script.push(ScriptedNotice::Opened {
        local: end_at(80),
        peer: end_at(5000),
        input: ByteText::from_slice(alloc, b"abc")?,
        ends: true,
        window: 4,
    })?;
    Ok(MemoryLinks::new(alloc, script, failing))
}

#[test]
fn links_give_their_input_and_take_what_they_have_room_for(rt: HostRuntime) -> Result<(), Fail> {
    let alloc = rt.alloc();
    let failing = [LinkCall::Read(3), LinkCall::WriteOfNone(0)].to_vec(alloc)?;
    let mut links = some_links(alloc, failing)?;
    links.next();
    let mut buf = [0; 2];
    assert_eq!(rt; links.read(1, &mut buf), Input::Got(2));
    assert_eq!(rt; links.read(1, &mut buf), Input::Got(1));
    assert_eq!(rt; links.read(1, &mut buf), Input::End);
    assert_eq!(rt; links.read(1, &mut buf), Input::Failed);
    assert_eq!(rt; links.taken(1), b"abc".as_slice());
    assert_eq!(rt; links.write(1, b"123456".as_slice()), Output::Put(0));
    assert_eq!(rt; links.write(1, b"123456".as_slice()), Output::Put(4));
    assert_eq!(rt; links.write(1, b"56".as_slice()), Output::NotYet);
    assert_eq!(rt; links.sent(1), b"1234".as_slice());
    assert_eq!(rt; links.link_faults(1), 2);
    Ok(())
}

#[test]
fn a_sink_keeps_what_it_takes(rt: HostRuntime) -> Result<(), Fail> {
    let mut sink = MemorySink::new(rt.alloc(), vec![in rt.alloc(); 1]?);
    sink.put(b"ab".as_slice())?;
    assert!(rt; sink.put(b"cd".as_slice()).is_err());
    sink.put(b"ef".as_slice())?;
    assert_eq!(rt; sink.taken(), b"abef".as_slice());
    assert_eq!(rt; sink.faults(), 1);
    Ok(())
}
