ghost use Rattle.std.specs.Prelude.{◌≡◌, IfOk, false, ℕ};
ghost use Rattle.plain_core.specs.Core.{now_at, view_at};

use byte_text::{ByteText, OutOfMemory};
use http_types::Addr;
use memory_outside::MemoryFiles;
use ngx_outside::Links;
use plain_core::PlainCore;
use ready_loop::{Ending, serve};
use socket_links::{SocketLinks, SystemClock};
use std::alloc::Global;
use std::io::{Read, Write};
use std::net::{IpAddr, Ipv4Addr, Shutdown, SocketAddr, TcpStream};
use std::test::Fail;

fn core(alloc: Global) -> Result<PlainCore, OutOfMemory>
    ensures empty { IfOk result (λ core. (c : ℕ) → (view_at core c).held ≡ false) }
    ensures tree { IfOk result (λ core. (now_at core).tree ≡ 0) }
{
    let core = PlainCore::new(alloc, ByteText::from_slice(alloc, b"yes")?);
    Ok(core)
}

// In one thread: a stream connects and asks, then the sockets are served for some turns.
#[test]
fn a_peer_is_answered_over_loopback(rt: HostRuntime) -> Result<(), Fail> {
    let alloc = rt.alloc();
    let ip = IpAddr::V4(Ipv4Addr::LOCALHOST);
    let port = 18083;
    let mut links = SocketLinks::new(alloc, &rt)?;
    links.listen(Addr { ip, port })?;
    let mut stream = TcpStream::connect(&rt, SocketAddr::new(ip, port))?;
    stream.write_all(b"a\nb\n")?;
    stream.shutdown(Shutdown::Write)?;
    let mut core = core(alloc)?;
    let mut files = MemoryFiles::new(alloc, Vec::new(alloc));
    let mut clock = SystemClock::new(&rt);
    let ending = serve(alloc, &mut core, &mut files, &mut links, &mut clock, &[], 8)?;
    assert_eq!(rt; ending, Ending::TurnsUsed);
    drop(links);
    let mut out = Vec::new(alloc);
    stream.read_to_end(&mut out)?;
    assert_eq!(rt; out.as_slice(), b"yesyes".as_slice());
    Ok(())
}
