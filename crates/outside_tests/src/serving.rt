ghost use Rattle.std.specs.Prelude.{◌≡◌, ◌<◌, ◌≤◌, IfOk, OnOk, true, false, ℕ, List, [], Some, flat_map};
ghost use Rattle.telling_core.specs.Core.{core_of, events_of};
ghost use Rattle.memory_links.specs.Told.{open_of, answers_of};
ghost use Rattle.memory_outside.specs.Stored.{newest_of};
ghost use Rattle.ngx_outside.specs.Records.{Given, LinkAnswer, beside_link, of_clock};
ghost use Rattle.plain_core.specs.Core.{view_at, now_at};
ghost use Rattle.link_service.specs.Tellings.{Beside, alone, moments_told, of_link};

use byte_text::{ByteText, OutOfMemory};
use http_types::Addr;
use memory_links::{LinkCall, MemoryLinks, ScriptedNotice};
use memory_outside::{FixedClock, ListClock, MemoryFiles};
use ngx_outside::Clock;
use plain_core::PlainCore;
use ready_loop::{Ending, TimedCore, serve};
use std::alloc::Global;
use std::marker::Brand;
use std::net::{IpAddr, Ipv4Addr};
use std::sync::ledger::{Blank, Ledger};
use std::test::Fail;
use telling_core::{GivenEvent, TellingCore};

fn end_at(port: u16) -> Addr {
    Addr {
        ip: IpAddr::V4(Ipv4Addr::LOCALHOST),
        port,
    }
}

// A peer connects that sends this, then ends or not, and has room for `window` bytes.
fn opened(
    alloc: Global,
    input: &[u8],
    ends: bool,
    window: usize,
) -> Result<ScriptedNotice, OutOfMemory> {
    Ok(ScriptedNotice::Opened {
        local: end_at(80),
        peer: end_at(5000),
        input: ByteText::from_slice(alloc, input)?,
        ends,
        window,
    })
}

fn core(alloc: Global) -> Result<PlainCore, OutOfMemory>
    ensures empty { IfOk result (λ core. (c : ℕ) → (view_at core c).held ≡ false) }
    ensures tree { IfOk result (λ core. (now_at core).tree ≡ 0) }
{
    let core = PlainCore::new(alloc, ByteText::from_slice(alloc, b"yes")?);
    Ok(core)
}

// Serves these notices on an address.
fn ending<E: TimedCore, C: Clock>(
    alloc: Global,
    core: &mut E,
    links: &mut MemoryLinks,
    clock: &mut C,
    turns: u64,
) -> Result<Ending, OutOfMemory>
    requires empty { (c : ℕ) → ((E.seen core.old).view c).held ≡ false }
    requires tree { (E.seen core.old).now.tree ≡ 0 }
    requires open { (c : ℕ) → open_of links.old c ≡ false }
    ensures links { OnOk result (Beside of_link beside_link (E.seen core.old).events (E.seen core.new).events (answers_of links.old) (answers_of links.new)) }
    ensures clock { OnOk result (Beside of_clock alone (E.seen core.old).events (E.seen core.new).events (moments_told (C.seen clock.old).tells (C.seen clock.old).told) (moments_told (C.seen clock.new).tells (C.seen clock.new).told)) }
    ensures tells { OnOk result ((C.seen clock.new).tells ≡ (C.seen clock.old).tells) }
{
    let mut files = MemoryFiles::new(alloc, Vec::new(alloc));
    let addrs = [end_at(80)];
    let ending = serve(alloc, core, &mut files, links, clock, &addrs, turns)?;
    Ok(ending)
}

// Two peers connect; the first sends a line, and has room for two bytes of the answer at first.
fn some_links(alloc: Global, failing: &[LinkCall]) -> Result<MemoryLinks, OutOfMemory>
    ensures { IfOk result (λ links. (c : ℕ) → open_of links c ≡ false) }
{
    let mut script = Vec::new(alloc);
    script.push(opened(alloc, b"a\n", false, 2)?)?;
    script.push(opened(alloc, b"b\n", false, 9)?)?;
    script.push(ScriptedNotice::Readable { id: 1 })?;
    script.push(ScriptedNotice::Writable { id: 1, more: 9 })?;
    Ok(MemoryLinks::new(alloc, script, failing.to_vec(alloc)?))
}

// What is sent to the first peer after `turns` turns.
fn sent(rt: &HostRuntime, failing: &[LinkCall], turns: u64) -> Result<(Ending, MemoryLinks), Fail> {
    let alloc = rt.alloc();
    let mut core = core(alloc)?;
    let mut links = some_links(alloc, failing)?;
    let mut clock = FixedClock { moment: 0 };
    let ending = ending(alloc, &mut core, &mut links, &mut clock, turns)?;
    Ok((ending, links))
}

#[test]
fn a_request_is_answered(rt: HostRuntime) -> Result<(), Fail> {
    let (ending, links) = sent(&rt, &[], 3)?;
    assert_eq!(rt; ending, Ending::TurnsUsed);
    assert_eq!(rt; links.sent(1), b"ye".as_slice());
    let (ending, links) = sent(&rt, &[], 5)?;
    assert_eq!(rt; ending, Ending::Ended);
    assert_eq!(rt; links.sent(1), b"yes".as_slice());
    assert_eq!(rt; links.listening().len(), 1);
    Ok(())
}

#[test]
fn a_connection_that_is_refused_is_closed(rt: HostRuntime) -> Result<(), Fail> {
    let (_, links) = sent(&rt, &[], 2)?;
    assert!(rt; links.is_open(1));
    assert!(rt; !links.is_open(2));
    Ok(())
}

#[test]
fn faults_end_the_loop_or_their_link_alone(rt: HostRuntime) -> Result<(), Fail> {
    let (ending, _) = sent(&rt, &[LinkCall::Listen(0)], 5)?;
    assert_eq!(rt; ending, Ending::ListenFault);
    let (ending, _) = sent(&rt, &[LinkCall::Next(1)], 5)?;
    assert_eq!(rt; ending, Ending::NextFault);
    for call in [
        LinkCall::Read(0),
        LinkCall::Write(0),
        LinkCall::WriteOfNone(0),
    ] {
        let (ending, links) = sent(&rt, &[call], 5)?;
        assert_eq!(rt; ending, Ending::Ended);
        assert!(rt; !links.is_open(1));
        assert_eq!(rt; links.link_faults(1), 1);
    }
    Ok(())
}

// Whether the first peer's link is open after turns at these moments. It opens in the first one, and sends nothing.
fn is_open_after<L: Ledger>(rt: &HostRuntime, blank: Blank, moments: &[u64]) -> Result<bool, Fail>
    requires name { blank.name ≡ L.name }
    requires parts { blank.parts ≡ L.parts }
    requires some { 0 < L.parts }
{
    let alloc = rt.alloc();
    let mut core = core(alloc)?;
    let mut script = Vec::new(alloc);
    script.push(opened(alloc, b"", false, 9)?)?;
    for _moment in moments {
        script.push(ScriptedNotice::Writable { id: 1, more: 0 })?;
    }
    let mut links = MemoryLinks::new(alloc, script, Vec::new(alloc));
    let mut clock = ListClock::<L>::new(blank, moments.to_vec(alloc)?);
    ending(
        alloc,
        &mut core,
        &mut links,
        &mut clock,
        moments.len() as u64,
    )?;
    Ok(links.is_open(1))
}

#[test]
fn a_connection_that_is_given_up_is_closed(rt: HostRuntime) -> Result<(), Fail> {
    assert!(rt; is_open_after::<Brand>(&rt, Blank::new(1), &[0, 59])?);
    assert!(rt; !is_open_after::<Brand>(&rt, Blank::new(1), &[0, 60])?);
    assert!(rt; !is_open_after::<Brand>(&rt, Blank::new(1), &[0, u64::MAX])?);
    Ok(())
}

// An event as a line.
fn line_of(alloc: Global, event: &GivenEvent) -> Result<String, Fail> {
    Ok(match event {
        GivenEvent::Opened { conn, local, peer } => {
            format!(in alloc; "opened {conn} at {} by {}", local.port, peer.port)?
        }
        GivenEvent::Arrived { conn, bytes } => {
            format!(in alloc; "arrived {conn} {:?}", bytes.as_slice())?
        }
        GivenEvent::Ended { conn } => format!(in alloc; "ended {conn}")?,
        GivenEvent::Wrote { conn, count } => format!(in alloc; "wrote {conn} {count}")?,
        GivenEvent::LinkFailed { conn } => format!(in alloc; "link failed {conn}")?,
        GivenEvent::Answered {
            conn,
            node,
            answer: _,
        } => format!(in alloc; "answered {conn} {node}")?,
        GivenEvent::Run { conn, node } => format!(in alloc; "run {conn} {node}")?,
        GivenEvent::Tick { now } => format!(in alloc; "tick {now}")?,
        GivenEvent::Tree { to } => format!(in alloc; "tree {to}")?,
        GivenEvent::Gone { conn } => format!(in alloc; "gone {conn}")?,
    })
}

// Serves a core that was given nothing yet, over links that answered nothing yet. Of what it was given, what comes of the
// links is what is beside their answers; and its moments are those of a clock that tells, and had told none.
fn serve_from_start<C: Clock>(
    alloc: Global,
    core: &mut TellingCore<PlainCore>,
    links: &mut MemoryLinks,
    clock: &mut C,
    turns: u64,
) -> Result<(), OutOfMemory>
    requires empty { (c : ℕ) → (view_at (core_of core.old) c).held ≡ false }
    requires tree { (now_at (core_of core.old)).tree ≡ 0 }
    requires open { (c : ℕ) → open_of links.old c ≡ false }
    requires ungiven { events_of core.old ≡ Some [] }
    requires unanswered { answers_of links.old ≡ Some [] }
    ensures links { OnOk result ((given : List Given) (answered : List LinkAnswer) → events_of core.new ≡ Some given → answers_of links.new ≡ Some answered → flat_map of_link given ≡ flat_map beside_link answered) }
    ensures clock { (C.seen clock.old).tells ≡ true → (C.seen clock.old).told ≡ [] → OnOk result ((given : List Given) → events_of core.new ≡ Some given → flat_map of_clock given ≡ (C.seen clock.new).told) }
{
    ending(alloc, core, links, clock, turns)?;
    Ok(())
}

// A peer connects that sends a line and ends, and has room for two bytes of the answer at first.
fn one_link(alloc: Global) -> Result<MemoryLinks, OutOfMemory>
    ensures open { IfOk result (λ links. (c : ℕ) → open_of links c ≡ false) }
    ensures unanswered { IfOk result (λ links. answers_of links ≡ Some []) }
{
    let mut script = Vec::new(alloc);
    script.push(opened(alloc, b"a\n", true, 2)?)?;
    script.push(ScriptedNotice::Readable { id: 1 })?;
    script.push(ScriptedNotice::Writable { id: 1, more: 9 })?;
    script.push(ScriptedNotice::Readable { id: 1 })?;
    Ok(MemoryLinks::new(alloc, script, Vec::new(alloc)))
}

// The events that a core is given which serves that peer, each as a line.
fn lines_given<L: Ledger>(rt: &HostRuntime, blank: Blank) -> Result<Vec<String>, Fail>
    requires name { blank.name ≡ L.name }
    requires parts { blank.parts ≡ L.parts }
    requires some { 0 < L.parts }
{
    let alloc = rt.alloc();
    let mut core = TellingCore::new(alloc, core(alloc)?);
    let mut links = one_link(alloc)?;
    let mut clock = ListClock::<L>::new(blank, [7, 8].to_vec(alloc)?);
    serve_from_start(alloc, &mut core, &mut links, &mut clock, 5)?;
    let mut lines = Vec::new(alloc);
    if let Some(given) = core.given() {
        for event in given {
            lines.push(line_of(alloc, event)?)?;
        }
    }
    Ok(lines)
}

#[test]
fn a_core_is_given_what_was_answered(rt: HostRuntime) -> Result<(), Fail> {
    let lines = lines_given::<Brand>(&rt, Blank::new(1))?;
    let expected = [
        "tick 7",
        "tree 0",
        "opened 1 at 80 by 5000",
        "tick 8",
        "arrived 1 [97, 10]",
        "run 1 0",
        "wrote 1 2",
        "tick 8",
        "wrote 1 1",
        "tick 8",
        "ended 1",
        "gone 1",
        "tick 8",
    ];
    assert_eq!(rt; lines.len(), expected.len());
    for (line, expected) in lines.iter().zip(expected) {
        assert_eq!(rt; line.as_str(), expected);
    }
    Ok(())
}
