// The ends of a connection.
ghost use Rattle.std.specs.Prelude.{◌≡◌, option_map};
ghost use Rattle.replay_words.specs.Faults.{LineGives};
ghost use Rattle.replay_words.specs.Addrs.{port_behind, end_of, addr_v4, addr_v6, addr_of};

use crate::FaultKind;
use crate::faults::LineError;
use crate::numbers::port_of;
use http_types::Addr;
use std::net::IpAddr;
use text_words::{before_byte, behind_byte, behind_colon, bytes_from, ipv4_of, ipv6_of};

fn port_behind(text: Option<&[u8]>) -> Option<u16>
    ensures { result ≡ port_behind (option_map (λ t. t.now) text.entry) }
{
    match text {
        None => None,
        Some(text) => port_of(text),
    }
}

fn end_of(ip: Option<IpAddr>, port: Option<u16>) -> Result<Addr, LineError>
    ensures { LineGives (λ a. a) result (end_of ip port) }
{
    match (ip, port) {
        (Some(ip), Some(port)) => Ok(Addr { ip, port }),
        (Some(_), None) => Err(LineError::Fault(FaultKind::Word)),
        (None, _) => Err(LineError::Fault(FaultKind::Word)),
    }
}

fn addr_v4(text: &[u8]) -> Result<Addr, LineError>
    ensures { LineGives (λ a. a) result (addr_v4 text.now) }
{
    let ip = ipv4_of(before_byte(text, b':'));
    let port = port_behind(behind_byte(text, b':'));
    end_of(ip, port)
}

fn addr_v6(text: &[u8]) -> Result<Addr, LineError>
    ensures { LineGives (λ a. a) result (addr_v6 text.now) }
{
    let ip = ipv6_of(before_byte(text, b']'));
    let port = port_behind(behind_colon(behind_byte(text, b']')));
    end_of(ip, port)
}

/// An address and a port: `1.2.3.4:80`, or `[::1]:80`.
#[tactic(auto, unfolding(crate::specs::Addrs::addr_of))]
pub fn addr_of(word: &[u8]) -> Result<Addr, LineError>
    ensures { LineGives (λ a. a) result (addr_of word.now) }
{
    match word {
        [] => Err(LineError::Fault(FaultKind::Word)),
        [first, ..] => {
            if *first == b'[' {
                addr_v6(bytes_from(word, 1))
            } else {
                addr_v4(word)
            }
        }
    }
}
