// Rules, and what a list of them says of an address.
ghost use Rattle.std.specs.Prelude.{◌≡◌};
ghost use Rattle.std.specs.Net.Addr.{ipv4_bits, ipv6_bits};
ghost use Rattle.access_rules.specs.Rule.{same_first_bits, is_in_network, matches, decision, allowed};

use std::net::{IpAddr, Ipv4Addr, Ipv6Addr};

/// The addresses that a rule speaks of.
#[derive(Clone, Copy, PartialEq, Eq)]
pub enum Source {
    /// Every address.
    All,
    /// The addresses of the same family whose first `bits` bits are those of `addr`. A number above the width of the
    /// address counts as its width.
    Network { addr: IpAddr, bits: u8 },
}

/// A rule of a list: it allows or denies the addresses that it speaks of.
#[derive(Clone, Copy, PartialEq, Eq)]
pub struct Rule {
    pub allow: bool,
    pub source: Source,
}

fn in_ipv4_network(net: Ipv4Addr, bits: u8, addr: Ipv4Addr) -> bool
    ensures { result ≡ same_first_bits 32 bits (ipv4_bits net) (ipv4_bits addr) }
{
    let low = 32u32.saturating_sub(bits as u32);
    (net.to_bits() as u64) >> low == (addr.to_bits() as u64) >> low
}

fn in_ipv6_network(net: Ipv6Addr, bits: u8, addr: Ipv6Addr) -> bool
    ensures { result ≡ same_first_bits 128 bits (ipv6_bits net) (ipv6_bits addr) }
{
    let low = 128u32.saturating_sub(bits as u32);
    let (net, addr) = (net.to_bits(), addr.to_bits());
    if low == 128 {
        return true;
    }
    net >> low == addr >> low
}

fn in_network(net: IpAddr, bits: u8, addr: IpAddr) -> bool
    ensures { result ≡ is_in_network net bits addr }
{
    match (net, addr) {
        (IpAddr::V4(net), IpAddr::V4(addr)) => in_ipv4_network(net, bits, addr),
        (IpAddr::V6(net), IpAddr::V6(addr)) => in_ipv6_network(net, bits, addr),
        _ => false,
    }
}

impl Source {
    /// Whether the address is one of these. An IPv4 network has no IPv6 address, not even one that is mapped from IPv4.
    pub fn matches(&self, addr: IpAddr) -> bool
        ensures { result ≡ matches self.now addr }
    {
        match self {
            Source::All => true,
            Source::Network { addr: net, bits } => in_network(*net, *bits, addr),
        }
    }
}

/// What the first rule that speaks of the address says, and nothing where none does.
pub fn decision(rules: &[Rule], addr: IpAddr) -> Option<bool>
    ensures { result ≡ decision rules.now addr }
{
    for rule in rules {
        if rule.source.matches(addr) {
            return Some(rule.allow);
        }
    }
    None
}

/// Whether the rules let the address in: the first that speaks of it decides, and where none does it is let in.
pub fn allowed(rules: &[Rule], addr: IpAddr) -> bool
    ensures { result ≡ allowed rules.now addr }
{
    decision(rules, addr).unwrap_or(true)
}
