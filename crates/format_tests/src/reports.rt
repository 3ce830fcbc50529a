use byte_text::ByteText;
use conf_text::{ConfFault, FaultKind as ConfKind};
use ngx_outside::{Entry, StopCause};
use replay_text::{FaultKind as ScriptKind, ScriptFault};
use report_text::{
    ConnReport, ConnState, RaceReport, conf_fault_text, conn_text, counts_text, end_text,
    race_text, script_fault_text,
};
use source_lines::Line;
use std::alloc::Global;
use std::process::Abort;
use std::test::Fail;

/// A connection of this state with one entry in its journal is told by this text.
type Told = (
    ConnState,
    bool,
    Option<StopCause>,
    Option<(u16, u64)>,
    &'static [u8],
    &'static [u8],
);

fn all_are_told(rt: &impl Abort, alloc: Global, cases: &[Told]) -> Result<(), Fail> {
    let mut out = ByteText::new(alloc);
    for (state, closes, cause, log, sent, text) in cases {
        out.clear();
        let journal = [Entry {
            moment: 7,
            tree: 1,
            log: *log,
        }];
        let report = ConnReport {
            conn: 1,
            state: *state,
            closes: *closes,
            cause: *cause,
            journal: &journal,
            sent: *sent,
        };
        conn_text(&report, &mut out)?;
        assert_eq!(rt; out.as_slice(), *text);
    }
    Ok(())
}

#[test]
fn connections_are_printed(rt: HostRuntime) -> Result<(), Fail> {
    all_are_told(
        &rt,
        rt.alloc(),
        &[
            (
                ConnState::Idle,
                false,
                None,
                Some((200, 2)),
                b"HTTP/1.1 200 OK\r\nServer: nginx\r\n\r\nhi",
                b"conn 1 idle keep -\nlog 7 1 200 2\nsent HTTP/1.1 200 OK%0D%0AServer: nginx%0D%0A%0D%0Ahi\n",
            ),
            (
                ConnState::Stopped,
                true,
                Some(StopCause::SubLimit { started: 1000 }),
                None,
                b"",
                b"conn 1 stopped close SubLimit 1000\nlog 7 1 - -\nsent -\n",
            ),
            (
                ConnState::Stopped,
                true,
                Some(StopCause::Deadline { due: 60, now: 61 }),
                None,
                b"\x00 %\x7e\x7f\xff",
                b"conn 1 stopped close Deadline 60 61\nlog 7 1 - -\nsent %00 %25~%7F%FF\n",
            ),
            (
                ConnState::Stopped,
                true,
                Some(StopCause::LinkFault),
                None,
                b"a",
                b"conn 1 stopped close LinkFault\nlog 7 1 - -\nsent a\n",
            ),
            (
                ConnState::Stopped,
                true,
                Some(StopCause::FileFault),
                None,
                b"a",
                b"conn 1 stopped close FileFault\nlog 7 1 - -\nsent a\n",
            ),
            (
                ConnState::Stopped,
                true,
                Some(StopCause::Memory),
                None,
                b"a",
                b"conn 1 stopped close Memory\nlog 7 1 - -\nsent a\n",
            ),
            (
                ConnState::Busy,
                false,
                None,
                None,
                b"a",
                b"conn 1 busy keep -\nlog 7 1 - -\nsent a\n",
            ),
        ],
    )
}

#[test]
fn ends_faults_and_counts_are_printed(rt: HostRuntime) -> Result<(), Fail> {
    let mut out = ByteText::new(rt.alloc());
    end_text(3, 2, &mut out)?;
    script_fault_text(
        ScriptFault {
            kind: ScriptKind::Word,
            line: 7,
        },
        &mut out,
    )?;
    let unknown = ConfFault {
        kind: ConfKind::Unknown,
        file: 0,
        line: 1,
        word: Some(ByteText::from_slice(rt.alloc(), b"serve")?),
    };
    conf_fault_text(&unknown, b"/c", &mut out)?;
    let brace = ConfFault {
        kind: ConfKind::UnexpectedBrace,
        file: 1,
        line: 12,
        word: None,
    };
    conf_fault_text(&brace, b"/d\n.conf", &mut out)?;
    let text =
        b"skipped 3 refused 2\nscript 2 Word 7\nfault 11 Unknown /c:1 serve\nfault 2 UnexpectedBrace /d%0A.conf:12 -\n";
    assert_eq!(rt; out.as_slice(), text.as_slice());
    out.clear();
    counts_text(1, 0, &mut out)?;
    counts_text(2, 18446744073709551615, &mut out)?;
    let text = b"servers 1 locations 0\nservers 2 locations 18446744073709551615\n";
    assert_eq!(rt; out.as_slice(), text.as_slice());
    Ok(())
}

#[test]
fn a_race_is_printed_with_its_places(rt: HostRuntime) -> Result<(), Fail> {
    let alloc = rt.alloc();
    let mut paths = Vec::new(alloc);
    paths.push(ByteText::from_slice(alloc, b"/c")?)?;
    paths.push(ByteText::from_slice(alloc, b"/d")?)?;
    let first = Line { file: 0, line: 5 };
    let included = Line { file: 1, line: 1 };
    let last = Line { file: 2, line: 6 };
    let report = RaceReport {
        server: 2,
        name: b"x",
        sets: &[first, included, last],
        reads: &[included],
        documents: true,
    };
    let mut out = ByteText::new(alloc);
    race_text(&report, &[0, 1, 0], paths.as_slice(), &mut out)?;
    let text = b"race 2 $x set /c:5 /d:1 /c:6 read /d:1 documents\n";
    assert_eq!(rt; out.as_slice(), text.as_slice());
    Ok(())
}
