use byte_text::ByteText;
use http_types::Addr;
use ngx_outside::{Event, EventCore, StepAnswer, Want};
use plain_core::PlainCore;
use std::net::{IpAddr, Ipv4Addr};
use std::test::Fail;

fn opened(conn: u32) -> Event<'static> {
    let end = Addr {
        ip: IpAddr::V4(Ipv4Addr::LOCALHOST),
        port: 80,
    };
    Event::Opened {
        conn,
        local: end,
        peer: end,
    }
}

const DONE: StepAnswer = StepAnswer::Done { taken: 0 };

#[test]
fn each_line_is_answered(rt: HostRuntime) -> Result<(), Fail> {
    let mut core = PlainCore::new(rt.alloc(), ByteText::from_slice(rt.alloc(), b"yes")?);
    let bytes = b"a\nb".as_slice();
    assert_eq!(rt; core.step(opened(7)), DONE);
    assert_eq!(rt; core.step(opened(8)), StepAnswer::Skipped);
    assert_eq!(rt;
        core.step(Event::Arrived { conn: 7, bytes }),
        StepAnswer::Done { taken: 3 }
    );
    assert_eq!(rt; core.step(Event::Run { conn: 7, node: 0 }), DONE);
    assert_eq!(rt; core.pending(7), b"yes".as_slice());
    assert_eq!(rt; core.step(Event::Wrote { conn: 7, count: 2 }), DONE);
    assert_eq!(rt; core.pending(7), b"s".as_slice());
    assert_eq!(rt; core.conns(), [7].as_slice());
    assert_eq!(rt;
        core.next_want(7, true, false),
        Some(Want::Read {
            conn: 7,
            room: 4096
        })
    );
    assert_eq!(rt;
        core.next_want(7, false, false),
        Some(Want::Write { conn: 7 })
    );
    assert_eq!(rt; core.next_want(7, false, true), None);
    assert_eq!(rt; core.step(Event::Gone { conn: 7 }), StepAnswer::Skipped);
    Ok(())
}
