// The addresses that the servers of a site listen on.
ghost use Rattle.std.specs.Prelude.{◌≡◌, IfOk, OnOk, flat_map};
ghost use Rattle.std.specs.List.{list_any};
ghost use Rattle.site_views.specs.Choice.{same_ip as ip_is, is_exactly as exactly};
ghost use Rattle.site_service.specs.Ends.{add_once as added, once_after, each_once};

use byte_text::OutOfMemory;
use http_types::Addr;
use site_model::Server;
use std::alloc::Global;
use std::net::IpAddr;

fn same_ip(one: IpAddr, other: IpAddr) -> bool
    ensures { result ≡ ip_is one other }
{
    match (one, other) {
        (IpAddr::V4(a), IpAddr::V4(b)) => a.octets() == b.octets(),
        (IpAddr::V6(a), IpAddr::V6(b)) => a.segments() == b.segments(),
        (IpAddr::V4(_), IpAddr::V6(_)) => false,
        (IpAddr::V6(_), IpAddr::V4(_)) => false,
    }
}

fn is_exactly(addr: Addr, other: Addr) -> bool
    ensures { result ≡ exactly addr other }
{
    other.port == addr.port && same_ip(other.ip, addr.ip)
}

/// Whether one of the addresses is this one.
fn has_addr(all: &[Addr], addr: Addr) -> bool
    ensures { result ≡ list_any (exactly addr) all.now }
{
    for other in all {
        if is_exactly(addr, *other) {
            return true;
        }
    }
    false
}

/// Puts an address after the others, unless it is among them.
#[tactic(auto, unfolding(crate::specs::Ends::add_once))]
fn add_once(all: &mut Vec<Addr>, addr: Addr) -> Result<(), OutOfMemory>
    ensures { OnOk result (all.new.items ≡ added all.old.items addr) }
{
    if has_addr(all.as_slice(), addr) {
        return Ok(());
    }
    all.push(addr)?;
    Ok(())
}

/// Puts addresses after the others, each once.
#[tactic(auto, unfolding(crate::specs::Ends::once_after))]
fn add_all(all: &mut Vec<Addr>, addrs: &[Addr]) -> Result<(), OutOfMemory>
    ensures { OnOk result (all.new.items ≡ once_after all.old.items addrs.now) }
{
    for addr in addrs {
        add_once(all, *addr)?;
    }
    Ok(())
}

/// The addresses that servers listen on, in the order of the text, each once.
#[tactic(auto, using(crate::proofs::EndsLaws::once_append), unfolding(crate::specs::Ends::once_after))]
pub(crate) fn addresses(alloc: Global, servers: &[Server]) -> Result<Vec<Addr>, OutOfMemory>
    ensures { IfOk result (λ all. all.items ≡ each_once (flat_map (λ s. s.listens) servers.now)) }
{
    let mut all = Vec::new(alloc);
    for server in servers {
        add_all(&mut all, server.listens.as_slice())?;
    }
    Ok(all)
}
