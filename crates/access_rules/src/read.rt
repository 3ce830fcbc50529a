// The texts of rules.
ghost use Rattle.std.specs.Prelude.{◌≡◌, ℕ, ◌+◌, ◌-◌, ◌/◌, ◌%◌, ◌<◌, ◌≤◌, List, ◌∷◌, ◌++◌, IfSome, IfNone, decimal};
ghost use Rattle.std.specs.declared.net.ip_addr.IpAddr.{IpAddr};
ghost use Rattle.std.specs.Net.Grammar.{IsIpText};
ghost use Rattle.access_rules.specs.Rule.{width_of};
ghost use Rattle.access_rules.specs.Text.{IsSourceText, IsCidrText, IsCidrSource, IsNetworkOf, Lacks, small_number};

use crate::{Rule, Source};
use memchr::memrchr;
use std::net::{IpAddr, Ipv4Addr, Ipv6Addr};

/// The text before the last `byte` and the text after it.
fn split_at_last(text: &[u8], byte: u8) -> Option<(&[u8], &[u8])>
    ensures found { IfSome result (λ parts. (text.now ≡ parts.0.now ++ byte ∷ parts.1.now)
        × Lacks byte parts.1.now) }
    ensures none { IfNone result (Lacks byte text.now) }
{
    let at = memrchr(byte, text)?;
    Some((&text[..at], &text[at + 1..]))
}

/// The number below 200 whose decimal text this is.
fn small_number(text: &[u8]) -> Option<u8>
    ensures { result ≡ small_number text.now }
{
    match text {
        [a] => if a.is_ascii_digit() {
            Some(*a - b'0')
        } else {
            None
        },
        [a, b] => if *a != b'0' && a.is_ascii_digit() && b.is_ascii_digit() {
            Some((*a - b'0') * 10 + (*b - b'0'))
        } else {
            None
        },
        [a, b, c] => if *a == b'1' && b.is_ascii_digit() && c.is_ascii_digit() {
            Some(100 + (*b - b'0') * 10 + (*c - b'0'))
        } else {
            None
        },
        _ => None,
    }
}

/// The network of the address with this text and of its first `bits` bits, where the address has as many.
fn network(text: &[u8], bits: u8) -> Option<Source>
    ensures found { IfSome result (IsNetworkOf text.now bits) }
    ensures none { IfNone result ((addr : IpAddr) → IsIpText text.now addr
        → ¬ (bits ≤ width_of addr)) }
{
    if bits <= 32
        && let Ok(addr) = Ipv4Addr::parse_ascii(text)
    {
        let addr = IpAddr::V4(addr);
        return Some(Source::Network { addr, bits });
    }
    if bits <= 128
        && let Ok(addr) = Ipv6Addr::parse_ascii(text)
    {
        let addr = IpAddr::V6(addr);
        return Some(Source::Network { addr, bits });
    }
    None
}

/// Reads an address, `/` and the number of its first bits.
fn read_cidr(text: &[u8]) -> Option<Source>
    ensures found { IfSome result (IsCidrSource text.now) }
    ensures none { IfNone result ((addr : IpAddr) (bits : ℕ) → ¬ (IsCidrText text.now addr bits)) }
{
    match split_at_last(text, b'/') {
        Some((front, back)) => match small_number(back) {
            Some(bits) => network(front, bits),
            None => None,
        },
        None => None,
    }
}

impl Source {
    /// Reads `all`, an address, or an address, `/` and the number of its first bits (RFC 4632, section 3.1, and RFC
    /// 4291, section 2.3). The bits of the address after those are ignored.
    pub fn read(text: &[u8]) -> Option<Source>
        ensures found { IfSome result (IsSourceText text.now) }
        ensures none { IfNone result ((source : Source) → ¬ (IsSourceText text.now source)) }
    {
        if text == b"all".as_slice() {
            return Some(Source::All);
        }
        match IpAddr::parse_ascii(text) {
            Ok(addr) => {
                let bits = match addr {
                    IpAddr::V4(_) => 32,
                    IpAddr::V6(_) => 128,
                };
                Some(Source::Network { addr, bits })
            }
            Err(_) => read_cidr(text),
        }
    }
}

impl Rule {
    /// Reads a rule from its directive, which is `allow` or else `deny`, and the text of its one argument.
    pub fn read(allow: bool, text: &[u8]) -> Option<Rule>
        ensures found { IfSome result (λ rule. (rule.allow ≡ allow)
            × IsSourceText text.now rule.source) }
        ensures none { IfNone result ((source : Source) → ¬ (IsSourceText text.now source)) }
    {
        let source = Source::read(text)?;
        Some(Rule { allow, source })
    }
}
