// The words of `server_name`.
ghost use Rattle.std.specs.Prelude.{◌≡◌, ◌-◌, ◌==◌, ◌≤◌, length, drop, take, option_map};
ghost use Rattle.std.specs.List.{list_any};
ghost use Rattle.conf_values.specs.Hosts.{front_body, name_body, is_body, is_server_name};

use crate::word::{begins_with, rest_of};

fn has_star(text: &[u8]) -> bool
    ensures { result ≡ list_any (λ b. b == 42) text.now }
{
    for byte in text {
        if *byte == b'*' {
            return true;
        }
    }
    false
}

fn is_body(text: Option<&[u8]>) -> bool
    ensures { result ≡ is_body (option_map (λ t. t.now) text.entry) }
{
    match text {
        None => false,
        Some(text) => !text.is_empty() && !has_star(text),
    }
}

fn front_body(text: &[u8]) -> Option<&[u8]>
    ensures { option_map (λ t. t.now) result ≡ front_body text.now }
{
    if begins_with(text, b'.') {
        None
    } else {
        Some(text)
    }
}

/// The bytes before the last two.
fn before_two(text: &[u8]) -> &[u8]
    requires { 2 ≤ length text.now }
    ensures { result.now ≡ take (length text.now - 2) text.now }
{
    &text[..text.len() - 2]
}

/// The bytes after the first two.
fn behind_two(text: &[u8]) -> &[u8]
    requires { 2 ≤ length text.now }
    ensures { result.now ≡ drop 2 text.now }
{
    &text[2..]
}

/// The name without its `*.`, `.*` or `.`.
fn name_body(word: &[u8]) -> Option<&[u8]>
    ensures { option_map (λ t. t.now) result ≡ name_body word.now }
{
    if word.starts_with(b"*.") {
        Some(behind_two(word))
    } else if word.ends_with(b".*") {
        front_body(before_two(word))
    } else if begins_with(word, b'.') {
        Some(rest_of(word))
    } else {
        Some(word)
    }
}

/// Whether a word is the name of a server: a name, `*.x`, `x.*`, `.x`, the empty name, or a pattern, which isn't looked at yet.
#[tactic(auto, unfolding(crate::specs::Hosts::is_server_name))]
pub fn is_server_name(word: &[u8]) -> bool
    ensures { result ≡ is_server_name word.now }
{
    begins_with(word, b'~') || word.is_empty() || is_body(name_body(word))
}
