// Addresses of the network.
ghost use Rattle.std.specs.Prelude.{◌≡◌};
ghost use Rattle.text_words.specs.Addresses.{ipv4_of, ipv6_of};

use std::net::{IpAddr, Ipv4Addr, Ipv6Addr};

/// The IPv4 address that a text writes in dotted decimals, if it does.
pub fn ipv4_of(text: &[u8]) -> Option<IpAddr>
    ensures { result ≡ ipv4_of text.now }
{
    match Ipv4Addr::parse_ascii(text) {
        Ok(ip) => Some(IpAddr::V4(ip)),
        Err(_error) => None,
    }
}

/// The IPv6 address that a text writes (RFC 4291, 2.2), with no scope, if it does.
pub fn ipv6_of(text: &[u8]) -> Option<IpAddr>
    ensures { result ≡ ipv6_of text.now }
{
    match Ipv6Addr::parse_ascii(text) {
        Ok(ip) => Some(IpAddr::V6(ip)),
        Err(_error) => None,
    }
}
