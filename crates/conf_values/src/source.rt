// The words of `allow` and `deny`.
ghost use Rattle.std.specs.Prelude.{◌≡◌};
ghost use Rattle.access_rules.specs.Rule.{width_of};
ghost use Rattle.text_words.specs.Cuts.{behind_byte as behind};
ghost use Rattle.conf_values.specs.Sources.{ip_of, bits_of, host_of, network_with, network_of, by_slash, source_of};

use crate::number::count_to;
use access_rules::Source;
use std::net::IpAddr;
use text_words::{before_byte, behind_byte, ipv4_of, ipv6_of};

fn width_of(ip: IpAddr) -> u8
    ensures { result ≡ width_of ip }
{
    match ip {
        IpAddr::V4(_) => 32,
        IpAddr::V6(_) => 128,
    }
}

/// An address of either family.
fn ip_of(text: &[u8]) -> Option<IpAddr>
    ensures { result ≡ ip_of text.now }
{
    match ipv4_of(text) {
        None => ipv6_of(text),
        Some(ip) => Some(ip),
    }
}

/// A number of bits.
fn bits_of(text: &[u8]) -> Option<u32>
    ensures { result ≡ bits_of text.now }
{
    if text == b"0".as_slice() {
        return Some(0);
    }
    count_to(text, 128)
}

fn host_of(ip: Option<IpAddr>) -> Option<Source>
    ensures { result ≡ host_of ip }
{
    match ip {
        None => None,
        Some(addr) => Some(Source::Network {
            addr,
            bits: width_of(addr),
        }),
    }
}

fn network_with(addr: IpAddr, bits: Option<u32>) -> Option<Source>
    ensures { result ≡ network_with addr bits }
{
    match bits {
        None => None,
        Some(bits) => {
            if bits <= width_of(addr) as u32 {
                Some(Source::Network {
                    addr,
                    bits: bits as u8,
                })
            } else {
                None
            }
        }
    }
}

fn network_of(ip: Option<IpAddr>, bits: Option<u32>) -> Option<Source>
    ensures { result ≡ network_of ip bits }
{
    match ip {
        None => None,
        Some(addr) => network_with(addr, bits),
    }
}

fn by_slash(word: &[u8]) -> Option<Source>
    ensures { result ≡ by_slash (behind 47 word.now) word.now }
{
    match behind_byte(word, b'/') {
        None => host_of(ip_of(word)),
        Some(bits) => network_of(ip_of(before_byte(word, b'/')), bits_of(bits)),
    }
}

/// The addresses that a rule speaks of: all of them, one, or a network (RFC 4632, section 3.1, and RFC 4291, section 2.3).
#[tactic(auto, unfolding(crate::specs::Sources::source_of))]
pub fn source_of(word: &[u8]) -> Option<Source>
    ensures { result ≡ source_of word.now }
{
    if word == b"all".as_slice() {
        return Some(Source::All);
    }
    by_slash(word)
}
