//! Which server of a site answers a host.
use crate::samples::text;
use crate::sites::{listens, patterns, server, site};
use http_types::Addr;
use server_choice::Servers;
use site_model::{Server, ServerName};
use std::alloc::Global;
use std::process::Abort;
use std::test::Fail;

const EVERYWHERE: [u8; 4] = [0, 0, 0, 0];

const HERE: [u8; 4] = [127, 0, 0, 1];

fn named(alloc: Global, name: ServerName) -> Result<Server, Fail> {
    let mut server = server(alloc)?;
    server.listens.push(listens(EVERYWHERE, 80))?;
    server.names.push(name)?;
    Ok(server)
}

/// Servers for `a.org`, `*.a.org`, `www.*` and `~(gif)$` everywhere, of which the second is the default server, and two on
/// an address, of which the second is `.b.org`.
fn servers(alloc: Global) -> Result<Servers, Fail> {
    let mut site = site(alloc)?;
    site.servers
        .push(named(alloc, ServerName::Whole(text(alloc, b"a.org")?))?)?;
    let mut second = named(alloc, ServerName::Ending(text(alloc, b".a.org")?))?;
    second.defaults.push(listens(EVERYWHERE, 80))?;
    site.servers.push(second)?;
    site.servers.push(named(alloc, ServerName::Beginning(text(alloc, b"www.")?))?)?;
    site.servers.push(named(alloc, ServerName::Like(1))?)?;
    for name in [b"q.org".as_slice(), b".b.org".as_slice()] {
        let mut one = server(alloc)?;
        one.listens.push(listens(HERE, 80))?;
        one.names
            .push(ServerName::WithSubdomains(text(alloc, name)?))?;
        site.servers.push(one)?;
    }
    Ok(Servers::new(alloc, &site)?)
}

/// For each host at a local end the number of the server.
fn are_chosen(
    rt: &impl Abort,
    alloc: Global,
    servers: &Servers,
    cases: &[(Addr, &[u8], Option<u32>)],
) -> Result<(), Fail> {
    let mut patterns = patterns(alloc)?;
    for (local, host, expected) in cases {
        let chosen = servers.choose(*local, host, &mut patterns);
        assert_eq!(rt; chosen, *expected);
    }
    Ok(())
}

#[test]
fn a_server_is_chosen_by_its_names(rt: HostRuntime) -> Result<(), Fail> {
    let alloc = rt.alloc();
    let servers = servers(alloc)?;
    let here = listens(HERE, 80);
    let there = listens([10, 0, 0, 1], 80);
    are_chosen(
        &rt,
        alloc,
        &servers,
        &[
            (there, b"a.org", Some(0)),
            (there, b"b.a.org", Some(1)),
            (there, b"www.a.org", Some(1)),
            (there, b"www.z.net", Some(2)),
            (there, b"z.gif", Some(3)),
            (there, b".a.org", Some(1)),
            (there, b"q.net", Some(1)),
            (here, b"b.org", Some(5)),
            (here, b"x.b.org", Some(5)),
            (here, b"a.org", Some(4)),
            (listens(HERE, 81), b"a.org", None),
        ],
    )?;
    assert_eq!(rt; servers.default_at(there), Some(1));
    assert_eq!(rt; servers.default_at(here), Some(4));
    Ok(())
}
