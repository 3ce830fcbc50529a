use byte_text::{ByteText, OutOfMemory};
use conf_include::{ExpandError, Expanded, expand};
use conf_text::FaultKind;
use memory_outside::{FileCall, MemoryFiles, StoredItem};
use std::alloc::Global;
use std::process::Abort;
use std::test::Fail;

fn put(
    alloc: Global,
    files: &mut MemoryFiles,
    path: &[u8],
    text: &[u8],
) -> Result<(), OutOfMemory> {
    let bytes = ByteText::from_slice(alloc, text)?;
    files.put(
        ByteText::from_slice(alloc, path)?,
        StoredItem::File { bytes, date: 0 },
    )
}

fn put_folder(alloc: Global, files: &mut MemoryFiles, path: &[u8]) -> Result<(), OutOfMemory> {
    files.put(ByteText::from_slice(alloc, path)?, StoredItem::Folder)
}

/// A configuration at `/e/c` with files beside it; the call of this list is to fail.
fn some_files(
    alloc: Global,
    main: &[u8],
    failing: &[FileCall],
) -> Result<MemoryFiles, OutOfMemory> {
    let mut files = MemoryFiles::new(alloc, failing.to_vec(alloc)?);
    put(alloc, &mut files, b"/e/c", main)?;
    put_folder(alloc, &mut files, b"/e")?;
    put_folder(alloc, &mut files, b"/e/d")?;
    put_folder(alloc, &mut files, b"/e/d/x.conf.d")?;
    put(alloc, &mut files, b"/e/d/2.conf", b"two { a; }")?;
    put(alloc, &mut files, b"/e/d/10.conf", b"ten;")?;
    put(alloc, &mut files, b"/e/d/10.confx", b"x;")?;
    put(alloc, &mut files, b"/e/d/.conf", b"dot;")?;
    put(alloc, &mut files, b"/e/loop", b"include loop;")?;
    put(alloc, &mut files, b"/e/nest", b"n { include d/2.conf; } m;")?;
    put(alloc, &mut files, b"/e/bad", b"a;\n b { ; }")?;
    put(alloc, &mut files, b"/e/none", b"")?;
    Ok(files)
}

/// The directives of an outcome, each as its name, its depth, its file and its line, and the number of files; or a fault
/// as its kind, its line, its path and its word.
fn shown(alloc: Global, outcome: &Result<Expanded, ExpandError>) -> Result<ByteText, OutOfMemory> {
    let mut text = ByteText::new(alloc);
    match outcome {
        Ok(expanded) => {
            for line in expanded.directives.as_slice() {
                text.extend(line.name.as_slice())?;
                text.extend(format!(in alloc;
                    " {} {} {};",
                    line.depth, line.file, line.line
                )?.as_bytes())?;
            }
            text.extend(format!(in alloc; "{}", expanded.paths.len())?.as_bytes())?;
        }
        Err(ExpandError::Fault(placed)) => {
            let fault = &placed.fault;
            text.extend(format!(in alloc; "{} {} ", fault.kind as u8, fault.line)?.as_bytes())?;
            text.extend(placed.path.as_slice())?;
            if let Some(word) = &fault.word {
                text.push(b' ')?;
                text.extend(word.as_slice())?;
            }
        }
        Err(ExpandError::Failed(placed)) => {
            text.extend(format!(in alloc; "failed {} ", placed.fault.line)?.as_bytes())?;
            text.extend(placed.path.as_slice())?;
        }
        Err(ExpandError::OutOfMemory) => text.extend(b"no memory")?,
    }
    Ok(text)
}

/// What becomes of each main file.
fn all_become(rt: &impl Abort, alloc: Global, cases: &[(&[u8], &[u8])]) -> Result<(), Fail> {
    for (main, becomes) in cases {
        let mut files = some_files(alloc, *main, &[])?;
        let outcome = expand(alloc, &mut files, b"/e/c");
        assert_eq!(rt; shown(alloc, &outcome)?.as_slice(), *becomes);
    }
    Ok(())
}

#[test]
fn includes_are_put_in_place(rt: HostRuntime) -> Result<(), Fail> {
    all_become(
        &rt,
        rt.alloc(),
        &[
            (b"a; b { c; }", b"a 0 0 1;b 0 0 1;c 1 0 1;1"),
            (
                b"x {\n include d/*.conf; }",
                b"x 0 0 1;dot 1 1 1;ten 1 2 1;two 1 3 1;a 2 3 1;4",
            ),
            (b"include d/?.conf; z;", b"two 0 1 1;a 1 1 1;z 0 0 1;2"),
            (
                b"include q/*; include /e/d/*?.c*nf;",
                b"ten 0 1 1;two 0 2 1;a 1 2 1;3",
            ),
            (b"include nest;", b"n 0 1 1;two 1 2 1;a 2 2 1;m 0 1 1;3"),
            // A file that is missing, and one that is a folder.
            (b"a;\ninclude q;", b"6 2 /e/c /e/q"),
            (b"include d/x*;", b"6 1 /e/c /e/d/x.conf.d"),
            (b"\n\ninclude loop;", b"7 1 /e/loop /e/loop"),
            // A file is read whole before its includes are.
            (b"include q; }", b"2 1 /e/c"),
            (b"include bad;", b"3 2 /e/bad"),
            // No include: without a word, with two, with a block.
            (
                b"include; include a b; include a { }",
                b"include 0 0 1;include 0 0 1;include 0 0 1;1",
            ),
            (b"include none; include none;", b"3"),
        ],
    )
}

/// A text, `count` times.
fn times(alloc: Global, text: &[u8], count: usize) -> Result<ByteText, OutOfMemory> {
    let mut all = ByteText::new(alloc);
    for _ in 0..count {
        all.extend(text)?;
    }
    Ok(all)
}

/// What becomes of `count` includes of an empty file.
fn after_includes(alloc: Global, count: usize) -> Result<ByteText, OutOfMemory> {
    let main = times(alloc, b"include none;\n", count)?;
    let mut files = some_files(alloc, main.as_slice(), &[])?;
    shown(alloc, &expand(alloc, &mut files, b"/e/c"))
}

/// What becomes of a main file of 26 bytes that includes one of 1048550 bytes and one of this text.
fn after_long(alloc: Global, last: &[u8]) -> Result<ByteText, OutOfMemory> {
    let mut files = some_files(alloc, b"include long;include none;", &[])?;
    let long = times(alloc, b" ", 1048550)?;
    put(alloc, &mut files, b"/e/long", long.as_slice())?;
    put(alloc, &mut files, b"/e/none", last)?;
    shown(alloc, &expand(alloc, &mut files, b"/e/c"))
}

#[test]
fn files_and_bytes_are_bounded(rt: HostRuntime) -> Result<(), Fail> {
    let alloc = rt.alloc();
    assert_eq!(rt; after_includes(alloc, 255)?.as_slice(), b"256".as_slice());
    assert_eq!(rt;
        after_includes(alloc, 256)?.as_slice(),
        b"8 256 /e/c /e/none".as_slice()
    );
    assert_eq!(rt; after_long(alloc, b"")?.as_slice(), b"3".as_slice());
    assert_eq!(rt;
        after_long(alloc, b" ")?.as_slice(),
        b"9 1 /e/c /e/none".as_slice()
    );
    Ok(())
}

/// Each failing call of the files is told at its place.
fn all_are_told(rt: &impl Abort, alloc: Global, cases: &[(FileCall, &[u8])]) -> Result<(), Fail> {
    for (call, told) in cases {
        let mut files = some_files(alloc, b"include none;\ninclude d/*;", &[*call])?;
        let outcome = expand(alloc, &mut files, b"/e/c");
        assert_eq!(rt; shown(alloc, &outcome)?.as_slice(), *told);
        assert_eq!(rt; files.faults(), 1);
    }
    Ok(())
}

#[test]
fn files_that_fail_are_told(rt: HostRuntime) -> Result<(), Fail> {
    all_are_told(
        &rt,
        rt.alloc(),
        &[
            (FileCall::Stat(0), b"failed 1 /e/c"),
            (FileCall::Read(1), b"failed 1 /e/c"),
            (FileCall::List(0), b"failed 2 /e/c"),
        ],
    )
}
