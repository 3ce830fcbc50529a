// The addresses that servers listen on.
ghost use Rattle.std.specs.Prelude.{◌≡◌};
ghost use Rattle.std.specs.List.{list_any};
ghost use Rattle.site_views.specs.Choice.{same_ip as ip_is, is_wildcard_of as ip_is_wildcard, is_exactly as exactly, is_wildcard as wildcard};
ghost use Rattle.server_choice.specs.Listening.{is_default_at as default_of};

use http_types::Addr;
use site_model::Server;
use std::net::IpAddr;

fn same_ip(listened: IpAddr, local: IpAddr) -> bool
    ensures { result ≡ ip_is listened local }
{
    match (listened, local) {
        (IpAddr::V4(a), IpAddr::V4(b)) => a.octets() == b.octets(),
        (IpAddr::V6(a), IpAddr::V6(b)) => a.segments() == b.segments(),
        (IpAddr::V4(_), IpAddr::V6(_)) => false,
        (IpAddr::V6(_), IpAddr::V4(_)) => false,
    }
}

fn is_wildcard_of(listened: IpAddr, local: IpAddr) -> bool
    ensures { result ≡ ip_is_wildcard listened local }
{
    match (listened, local) {
        (IpAddr::V4(a), IpAddr::V4(_)) => a.octets() == [0, 0, 0, 0],
        (IpAddr::V6(a), IpAddr::V6(_)) => a.segments() == [0, 0, 0, 0, 0, 0, 0, 0],
        (IpAddr::V4(_), IpAddr::V6(_)) => false,
        (IpAddr::V6(_), IpAddr::V4(_)) => false,
    }
}

/// Whether an address is exactly this local end.
pub(crate) fn is_exactly(local: Addr, addr: Addr) -> bool
    ensures { result ≡ exactly local addr }
{
    addr.port == local.port && same_ip(addr.ip, local.ip)
}

/// Whether an address is the wildcard of this local end's family and port.
pub(crate) fn is_wildcard(local: Addr, addr: Addr) -> bool
    ensures { result ≡ wildcard local addr }
{
    addr.port == local.port && is_wildcard_of(addr.ip, local.ip)
}

/// Whether one of the addresses is exactly this one.
pub(crate) fn has_addr(addrs: &[Addr], local: Addr) -> bool
    ensures { result ≡ list_any (exactly local) addrs.now }
{
    for addr in addrs {
        if is_exactly(local, *addr) {
            return true;
        }
    }
    false
}

/// Whether a server is the default server of an address.
pub(crate) fn is_default_at(server: &Server, local: Addr) -> bool
    ensures { result ≡ default_of local server.now }
{
    for addr in server.listens.as_slice() {
        if is_exactly(local, *addr) && has_addr(server.defaults.as_slice(), *addr) {
            return true;
        }
    }
    false
}
