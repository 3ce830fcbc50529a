use byte_text::{ByteText, ByteTexts, OutOfMemory};
use file_tree::Node;
use ngx_outside::{Files, Listing};
use replay_confs::ConfFiles;
use replay_text::{Conf, EventLine, ScriptError, TreeLine, read};
use std::alloc::Global;
use std::process::Abort;
use std::test::Fail;

/// The kind and the line of the first fault, or zeros where the text is a script.
fn fault_of(alloc: Global, text: &[u8]) -> (u8, u64) {
    match read(alloc, text) {
        Err(ScriptError::Fault(fault)) => (fault.kind as u8, fault.line),
        _ => (0, 0),
    }
}

/// Each text has its first fault in this line; (0, 0) where it is a script.
fn all_have_faults(rt: &impl Abort, alloc: Global, cases: &[(&[u8], (u8, u64))]) {
    for (text, fault) in cases {
        assert_eq!(rt; fault_of(alloc, *text), *fault);
    }
}

#[test]
fn the_first_fault_is_told(rt: HostRuntime) {
    all_have_faults(
        &rt,
        rt.alloc(),
        &[
            // Sections that are missing, where the text ends, or out of order.
            (b"", (1, 1)),
            (b"conf /c\n", (1, 2)),
            (b"conf /c\nhttp { }\n.", (1, 4)),
            (b"conf /c\n.\ntree\n.\n# no events", (1, 6)),
            (b"conf /c\n.\nconf /c\n.\ntree\n", (1, 3)),
            (b"conf /c\n.\ntree\nevents\n", (1, 4)),
            // Words.
            (b"conf /c\n.\ntree\n.\nevents\nopne 1\n", (2, 6)),
            (b"conf /c\n.\ntree\n.\nevents\ndrain \n", (2, 6)),
            (b"conf c\n.\n", (2, 1)),
            (
                b"conf /c\n.\ntree\n.\nevents\nopen 1 1.2.3.4:080 [::1]:80\n",
                (2, 6),
            ),
            (b"conf /c\n.\ntree\n.\nevents\nbytes 1 a times 0\n", (2, 6)),
            // Numbers before escapes.
            (b"conf /c\n.\ntree\nfile /w/x 0 a times 16777217\n", (3, 4)),
            (b"conf /c\n.\ntree\nfile /x 253402300800 %zz\n", (3, 4)),
            (b"conf /c\n.\ntree\n.\nevents\nend 4294967296\n", (3, 6)),
            (
                b"conf /c\n.\ntree\nfile /a 0 aaaaa times 13421773\n",
                (3, 4),
            ),
            // Escapes.
            (b"conf /c\n.\ntree\nfile /a%2 0 x\n", (4, 4)),
            (
                b"conf /c\n.\ntree\nfile /x 253402300799 -\n.\nevents\nend 4294967295\ndrain",
                (0, 0),
            ),
        ],
    );
}

/// A script of each kind of line.
fn whole() -> &'static [u8] {
    b"conf /c\na\n#\n\n.\n#\n\nconf %2fd\n.\ntree\nfile /a%20b 7 ab times 3 + - + %0D%0a\nfolder /w\n\
        locked /x\n.\nevents\nopen 1 127.0.0.1:80 [::1]:5000\nbytes 1 a%25\nend 1\nroom 1 9\nfile 1 0\n\
        file 1 2 fail\nrun 1 3\ntick 4\ntree file /y 0 -\ntree gone /x\ndrain"
}

fn are_confs(confs: &[Conf]) -> bool {
    match confs {
        [main, other] => {
            main.path.len() == 2
                && main.bytes.as_slice() == b"a\n#\n\n".as_slice()
                && other.path.as_slice() == b"/d".as_slice()
                && other.bytes.is_empty()
        }
        _ => false,
    }
}

fn is_file(line: &TreeLine) -> bool {
    match line {
        TreeLine::File { path, date, bytes } => {
            path.as_slice() == b"/a b".as_slice()
                && *date == 7
                && bytes.as_slice() == b"ababab-\r\n".as_slice()
        }
        _ => false,
    }
}

fn number_of(event: &EventLine) -> u8 {
    match event {
        EventLine::Open { .. } => 1,
        EventLine::Bytes { .. } => 2,
        EventLine::End { .. } => 3,
        EventLine::Room { .. } => 4,
        EventLine::File { .. } => 5,
        EventLine::FileFails { .. } => 6,
        EventLine::Run { .. } => 7,
        EventLine::Tick { .. } => 8,
        EventLine::Tree { .. } => 9,
        EventLine::TreeGone { .. } => 10,
        EventLine::Drain => 11,
    }
}

#[test]
fn a_script_is_its_parts(rt: HostRuntime) -> Result<(), Fail> {
    let script = read(rt.alloc(), whole())?;
    assert!(rt; are_confs(script.confs.as_slice()));
    let tree = script.tree.as_slice();
    assert_eq!(rt; tree.len(), 3);
    assert!(rt; is_file(&tree[0]));
    let events = script.events.as_slice();
    assert_eq!(rt; events.len(), 11);
    let mut wanted: u8 = 0;
    for event in events {
        wanted = wanted.saturating_add(1);
        assert_eq!(rt; number_of(event), wanted);
    }
    Ok(())
}

fn conf(alloc: Global, path: &[u8], text: &[u8]) -> Result<Conf, OutOfMemory> {
    Ok(Conf {
        path: ByteText::from_slice(alloc, path)?,
        bytes: ByteText::from_slice(alloc, text)?,
    })
}

#[test]
fn sections_are_files_in_folders(rt: HostRuntime) -> Result<(), Fail> {
    let alloc = rt.alloc();
    let mut confs = Vec::new(alloc);
    confs.push(conf(alloc, b"/c", b"include d/*;")?)?;
    confs.push(conf(alloc, b"/d/2.conf", b"two;")?)?;
    confs.push(conf(alloc, b"/d/e/x", b"")?)?;
    let mut files = ConfFiles::new(alloc, &confs);
    assert_eq!(rt; files.version(), 0);
    assert_eq!(rt;
        files.stat(b"/c".as_slice(), 0)?,
        Node::File { len: 12, date: 0 }
    );
    assert_eq!(rt; files.stat(b"/d/e".as_slice(), 0)?, Node::Folder);
    assert_eq!(rt; files.stat(b"/".as_slice(), 0)?, Node::Folder);
    assert_eq!(rt; files.stat(b"/d/".as_slice(), 0)?, Node::Missing);
    let mut text = ByteText::new(alloc);
    files.read(b"/d/2.conf".as_slice(), 1, 3, 0, &mut text)?;
    assert_eq!(rt; text.as_slice(), b"wo;".as_slice());
    assert!(rt;
        files
            .read(b"/d/2.conf".as_slice(), 1, 4, 0, &mut text)
            .is_err()
    );
    let mut names = ByteTexts::new(alloc);
    assert_eq!(rt; files.list(b"/d".as_slice(), &mut names)?, Listing::Done);
    assert_eq!(rt; names.len(), 2);
    assert_eq!(rt; names.as_slice()[1].as_slice(), b"e".as_slice());
    assert_eq!(rt; files.list(b"/c".as_slice(), &mut names)?, Listing::Missing);
    Ok(())
}
