// The addresses of `listen`.
ghost use Rattle.std.specs.Prelude.{◌≡◌, option_map};
ghost use Rattle.std.specs.List.{list_all, list_any};
ghost use Rattle.text_words.specs.Cuts.{behind_byte as behind};
ghost use Rattle.conf_values.specs.Listening.{wildcard, port_in, end_of, plain_end, listened, listened_by, is_default, has_known_parameters, is_marked};

use crate::number::port_of;
use byte_text::ByteText;
use http_types::Addr;
use std::net::{IpAddr, Ipv4Addr};
use text_words::{before_byte, behind_byte, behind_colon, ipv4_of, ipv6_of};

/// Every IPv4 address.
#[tactic(auto, unfolding(crate::specs::Listening::wildcard))]
pub fn wildcard() -> IpAddr
    ensures { result ≡ wildcard }
{
    IpAddr::V4(Ipv4Addr::new(0, 0, 0, 0))
}

fn port_in(text: Option<&[u8]>) -> Option<u16>
    ensures { result ≡ port_in (option_map (λ t. t.now) text.entry) }
{
    match text {
        None => None,
        Some(text) => port_of(text),
    }
}

fn end_of(ip: Option<IpAddr>, port: Option<u16>) -> Option<Addr>
    ensures { result ≡ end_of ip port }
{
    match (ip, port) {
        (Some(ip), Some(port)) => Some(Addr { ip, port }),
        (Some(_), None) => None,
        (None, _) => None,
    }
}

/// `ADDRESS:PORT`, or a port of every IPv4 address.
fn plain_end(text: &[u8]) -> Option<Addr>
    ensures { result ≡ plain_end (behind 58 text.now) text.now }
{
    match behind_byte(text, b':') {
        None => end_of(Some(wildcard()), port_of(text)),
        Some(port) => end_of(ipv4_of(before_byte(text, b':')), port_of(port)),
    }
}

/// The end of `listen` that a word names: `PORT`, `*:PORT`, `1.2.3.4:PORT` or `[::1]:PORT`.
#[tactic(auto, unfolding(crate::specs::Listening::listened))]
fn listened(word: &[u8]) -> Option<Addr>
    ensures { result ≡ listened word.now }
{
    match word {
        [] => None,
        [first, rest @ ..] => {
            if *first == b'[' {
                let ip = ipv6_of(before_byte(rest, b']'));
                let port = port_in(behind_colon(behind_byte(rest, b']')));
                end_of(ip, port)
            } else if *first == b'*' {
                end_of(Some(wildcard()), port_in(behind_colon(Some(rest))))
            } else {
                plain_end(word)
            }
        }
    }
}

/// The address of a `listen`, by its words.
pub fn listened_by(words: &[ByteText]) -> Option<Addr>
    ensures { result ≡ listened_by words.now }
{
    match words {
        [] => None,
        [word, ..] => listened(word.as_slice()),
    }
}

#[tactic(auto, unfolding(crate::specs::Listening::is_default))]
fn is_default(word: &[u8]) -> bool
    ensures { result ≡ is_default word.now }
{
    word == b"default_server".as_slice()
}

fn are_default(words: &[ByteText]) -> bool
    ensures { result ≡ list_all is_default words.now }
{
    for word in words {
        if !is_default(word.as_slice()) {
            return false;
        }
    }
    true
}

/// Whether each word after the address is a parameter that is known.
pub fn has_known_parameters(words: &[ByteText]) -> bool
    ensures { result ≡ has_known_parameters words.now }
{
    match words {
        [] => false,
        [_, parameters @ ..] => are_default(parameters),
    }
}

fn has_default(words: &[ByteText]) -> bool
    ensures { result ≡ list_any is_default words.now }
{
    for word in words {
        if is_default(word.as_slice()) {
            return true;
        }
    }
    false
}

/// Whether the address is marked as the one whose connections its server takes by default.
pub fn is_marked(words: &[ByteText]) -> bool
    ensures { result ≡ is_marked words.now }
{
    match words {
        [] => false,
        [_, parameters @ ..] => has_default(parameters),
    }
}
