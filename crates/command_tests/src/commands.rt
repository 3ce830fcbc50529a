use byte_text::ByteText;
use http_types::Addr;
use memory_links::{LinkCall, MemoryLinks, ScriptedNotice};
use memory_outside::{FileCall, FixedClock, MemoryFiles, MemorySink, StoredItem};
use ngx_cli::ngx;
use ngx_pattern::{CrateMaker, ListMaker};
use std::alloc::Global;
use std::net::{IpAddr, Ipv4Addr};
use std::process::Abort;
use std::test::Fail;

const SCRIPT: &[u8] =
    b"conf /c\nhttp { server { location / { return 200 hi; } } }\n.\ntree\n.\nevents\n";

const INCLUDING: &[u8] =
    b"conf /c\nhttp { include d/*; }\n.\nconf /d/a\nserver { location / { return 200 hi; } }\n.\ntree\n.\nevents\nopen 1 127.0.0.1:80 10.0.0.1:5000\nbytes 1 GET%20/%20HTTP/1.1%0D%0AHost:%20a%0D%0A%0D%0A\ndrain\n";

const INCLUDING_A_FAULT: &[u8] =
    b"conf /c\nhttp { include a; }\n.\nconf /a\nserver {\n serves; }\n.\ntree\n.\nevents\n";

const INCLUDING_NOTHING: &[u8] = b"conf /c\nhttp {\n include a; }\n.\ntree\n.\nevents\n";

const RUN: &[u8] =
    b"conn 1 idle keep -\nlog 0 0 200 2\nsent HTTP/1.1 200 OK%0D%0AServer: nginx%0D%0ADate: Thu, 01 Jan 1970 00:00:00 GMT%0D%0AContent-Type: text/plain%0D%0AContent-Length: 2%0D%0AConnection: keep-alive%0D%0A%0D%0Ahi\nskipped 0\n";

const CONF: &[u8] = b"http { include part; }";

const PART: &[u8] = b"server { listen 80; location / { return 200 hi; } }";

const TWO: &[u8] =
    b"http { server { listen 80; location / { return 200 hi; } location /a { return 204; } } server { listen 81; location / { return 200 ho; } } }";

const BAD: &[u8] = b"http {\nserves; }";

/// Documents see a variable that two locations set apart.
const RACY: &[u8] =
    b"http {\nserver {\nlocation / { ssi on; }\nlocation /a { set $x a; }\nlocation /b { set $x b; } } }";

/// Patterns in two places.
const PATTERNS: &[u8] = b"http {\nserver {\nlocation ~ a { }\nlocation ~ b { } } }";

const REQUEST: &[u8] = b"GET / HTTP/1.1\r\nHost: a\r\n\r\n";

const RESPONSE: &[u8] =
    b"HTTP/1.1 200 OK\r\nServer: nginx\r\nDate: Thu, 01 Jan 1970 00:00:00 GMT\r\nContent-Type: text/plain\r\nContent-Length: 2\r\nConnection: keep-alive\r\n\r\nhi";

const LOCAL: IpAddr = IpAddr::V4(Ipv4Addr::LOCALHOST);

/// What one call of the program comes to: its status, what was sent on the first link, and what was printed.
#[derive(Drop)]
struct Shown {
    status: u8,
    sent: ByteText,
    printed: ByteText,
}

fn files_of(alloc: Global, failing: Option<FileCall>) -> Result<MemoryFiles, Fail> {
    let mut calls = Vec::new(alloc);
    if let Some(call) = failing {
        calls.push(call)?;
    }
    let mut files = MemoryFiles::new(alloc, calls);
    let stored = [
        (b"/s".as_slice(), SCRIPT),
        (b"/including".as_slice(), INCLUDING),
        (b"/fault".as_slice(), INCLUDING_A_FAULT),
        (b"/nothing".as_slice(), INCLUDING_NOTHING),
        (b"/c".as_slice(), CONF),
        (b"/part".as_slice(), PART),
        (b"/two".as_slice(), TWO),
        (b"/bad".as_slice(), BAD),
        (b"/racy".as_slice(), RACY),
        (b"/patterns".as_slice(), PATTERNS),
    ];
    for (path, text) in stored {
        let bytes = ByteText::from_slice(alloc, text)?;
        files.put(
            ByteText::from_slice(alloc, path)?,
            StoredItem::File { bytes, date: 0 },
        )?;
    }
    Ok(files)
}

/// A peer connects and asks, and its link is readable.
fn one_peer(alloc: Global) -> Result<Vec<ScriptedNotice>, Fail> {
    let mut notices = Vec::new(alloc);
    notices.push(ScriptedNotice::Opened {
        local: Addr {
            ip: LOCAL,
            port: 80,
        },
        peer: Addr {
            ip: LOCAL,
            port: 5000,
        },
        input: ByteText::from_slice(alloc, REQUEST)?,
        ends: false,
        window: 1000,
    })?;
    notices.push(ScriptedNotice::Readable { id: 1 })?;
    Ok(notices)
}

pub(crate) fn called(alloc: Global, words: &[&str]) -> Result<Vec<String>, Fail> {
    let mut called = Vec::new(alloc);
    for word in words {
        called.push(String::from_str(alloc, word)?)?;
    }
    Ok(called)
}

/// Runs the words, where this call of the files or the first listen fails, over one peer, or over none, to an output of which
/// the first put fails or not.
fn run(
    alloc: Global,
    words: &[&str],
    file: Option<FileCall>,
    link: Option<LinkCall>,
    peer: bool,
    full: bool,
) -> Result<Shown, Fail> {
    let called = called(alloc, words)?;
    let mut files = files_of(alloc, file)?;
    let mut calls = Vec::new(alloc);
    if let Some(call) = link {
        calls.push(call)?;
    }
    let notices = if peer {
        one_peer(alloc)?
    } else {
        Vec::new(alloc)
    };
    let mut links = MemoryLinks::new(alloc, notices, calls);
    let mut clock = FixedClock { moment: 0 };
    let mut puts = Vec::new(alloc);
    if full {
        puts.push(0)?;
    }
    let mut out = MemorySink::new(alloc, puts);
    let mut maker = CrateMaker::new();
    let status = ngx(
        alloc, &called, &mut files, &mut links, &mut clock, &mut maker, &mut out,
    );
    Ok(Shown {
        status,
        sent: ByteText::from_slice(alloc, links.sent(1))?,
        printed: ByteText::from_slice(alloc, out.taken())?,
    })
}

/// Words, the call of the files and that of the links that fail, whether the output's first put does, and the status.
type Called = (
    &'static [&'static str],
    Option<FileCall>,
    Option<LinkCall>,
    bool,
    u8,
);

fn all_end(rt: &impl Abort, alloc: Global, cases: &[Called]) -> Result<(), Fail> {
    for (words, file, link, full, status) in cases {
        assert_eq!(rt;
            run(alloc, *words, *file, *link, true, *full)?.status,
            *status
        );
    }
    Ok(())
}

#[test]
fn each_status_has_its_cause(rt: HostRuntime) -> Result<(), Fail> {
    all_end(
        &rt,
        rt.alloc(),
        &[
            (&["ngx", "replay"], None, None, false, 2),
            (&["ngx", "replay", "/s"], None, None, false, 0),
            (
                &["ngx", "replay", "/s"],
                Some(FileCall::Read(0)),
                None,
                false,
                4,
            ),
            (&["ngx", "replay", "/s"], None, None, true, 5),
            (
                &["ngx", "serve", "/c", "--turns", "1"],
                None,
                None,
                false,
                9,
            ),
            (&["ngx", "serve", "/c"], None, None, false, 0),
            (
                &["ngx", "serve", "/c"],
                None,
                Some(LinkCall::Listen(0)),
                false,
                6,
            ),
            (
                &["ngx", "serve", "/c"],
                None,
                Some(LinkCall::Next(1)),
                false,
                6,
            ),
            (
                &["ngx", "serve", "/c", "--turns", "0"],
                None,
                None,
                false,
                2,
            ),
            (
                &["ngx", "serve", "/c", "--turns", "1x"],
                None,
                None,
                false,
                2,
            ),
            (&["ngx", "serve", "/bad"], None, None, true, 5),
        ],
    )
}

#[test]
fn a_site_is_served(rt: HostRuntime) -> Result<(), Fail> {
    let alloc = rt.alloc();
    let words = ["ngx", "serve", "/c", "--turns", "2"].as_slice();
    let shown = run(alloc, words, None, None, true, false)?;
    assert_eq!(rt; shown.status, 9);
    assert_eq!(rt; shown.sent.as_slice(), RESPONSE);
    assert_eq!(rt; shown.printed.as_slice(), b"".as_slice());
    Ok(())
}

/// Words, the call of the files that fails, the status, and what is printed.
type Printed = (&'static [&'static str], Option<FileCall>, u8, &'static [u8]);

fn all_print(rt: &impl Abort, alloc: Global, cases: &[Printed]) -> Result<(), Fail> {
    for (words, file, status, printed) in cases {
        let shown = run(alloc, *words, *file, None, false, false)?;
        assert_eq!(rt; shown.status, *status);
        assert_eq!(rt; shown.printed.as_slice(), *printed);
    }
    Ok(())
}

#[test]
fn what_is_printed_is_the_answer_or_the_fault_with_its_file(rt: HostRuntime) -> Result<(), Fail> {
    all_print(
        &rt,
        rt.alloc(),
        &[
            (
                &["ngx", "serve", "/bad"],
                None,
                1,
                b"fault 11 Unknown /bad:2 serves\n",
            ),
            (
                &["ngx", "check", "/two"],
                None,
                0,
                b"servers 2 locations 3\n",
            ),
            (
                &["ngx", "check", "/racy"],
                None,
                3,
                b"servers 1 locations 3\nrace 1 $x set /racy:4 /racy:5 read documents\n",
            ),
            (
                &["ngx", "check", "/none"],
                None,
                1,
                b"fault 6 NotThere /none:1 /none\n",
            ),
            (
                &["ngx", "check", "/c"],
                Some(FileCall::Stat(1)),
                4,
                b"fault 10 ReadFault /c:1 /part\n",
            ),
            (&["ngx", "replay", "/including"], None, 0, RUN),
            (
                &["ngx", "replay", "/fault"],
                None,
                1,
                b"fault 11 Unknown /a:2 serves\n",
            ),
            (
                &["ngx", "replay", "/nothing"],
                None,
                1,
                b"fault 6 NotThere /c:2 /a\n",
            ),
        ],
    )
}

#[test]
fn a_pattern_that_the_maker_refuses_is_told(rt: HostRuntime) -> Result<(), Fail> {
    let alloc = rt.alloc();
    let called = called(alloc, &["ngx", "check", "/patterns"])?;
    let mut files = files_of(alloc, None)?;
    let mut links = MemoryLinks::new(alloc, Vec::new(alloc), Vec::new(alloc));
    let mut clock = FixedClock { moment: 0 };
    let mut refusing = Vec::new(alloc);
    refusing.push(1)?;
    let mut maker = ListMaker::new(refusing);
    let mut out = MemorySink::new(alloc, Vec::new(alloc));
    let status = ngx(
        alloc, &called, &mut files, &mut links, &mut clock, &mut maker, &mut out,
    );
    assert_eq!(rt; status, 10);
    let printed = b"fault 20 PatternTooBig /patterns:4 location\n";
    assert_eq!(rt; out.taken(), printed.as_slice());
    Ok(())
}
