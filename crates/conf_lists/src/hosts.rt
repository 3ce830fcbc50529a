// Names of a server, and the addresses whose default server it is.
ghost use Rattle.std.specs.Prelude.{◌≡◌, ◌-◌, ◌≤◌, List, [], ◌++◌, length, take, option_map, OnOk, IfOk};
ghost use Rattle.ngx_variables.specs.Grammar.{lowercase as lower};
ghost use Rattle.site_views.specs.Pattern.{Pattern};
ghost use Rattle.site_whole.specs.Whole.{name_seen};
ghost use Rattle.conf_block.specs.Forest.{forest_of, roots};
ghost use Rattle.conf_block.specs.Listening.{in_front};
ghost use Rattle.conf_lists.specs.Hosts.{plain_name, shown, first_shown, marked_by, marked_in};

use byte_text::{ByteText, OutOfMemory};
use conf_block::{address_by, first_branch, role_of};
use conf_table::Role;
use conf_text::Directive;
use conf_values::{begins_with, is_marked, lowercase, rest_of};
use http_types::Addr;
use site_model::{Listens, ServerName};
use std::alloc::Global;

/// The bytes before the last.
fn before_last(text: &[u8]) -> &[u8]
    requires { 1 ≤ length text.now }
    ensures { result.now ≡ take (length text.now - 1) text.now }
{
    &text[..text.len() - 1]
}

/// A name of a server that is no pattern (<https://nginx.org/en/docs/http/server_names.html>), in lower case.
pub fn plain_name(alloc: Global, word: &[u8]) -> Result<ServerName, OutOfMemory>
    ensures { IfOk result (λ name. (patterns : List Pattern)
        → name_seen patterns name ≡ plain_name (lower word.now)) }
{
    let text = lowercase(alloc, word)?;
    let bytes = text.as_slice();
    if bytes.starts_with(b"*.") {
        return Ok(ServerName::Ending(ByteText::from_slice(alloc, rest_of(bytes))?));
    }
    if bytes.ends_with(b".*") {
        return Ok(ServerName::Beginning(ByteText::from_slice(alloc, before_last(bytes))?));
    }
    if begins_with(bytes, b'.') {
        return Ok(ServerName::WithSubdomains(text));
    }
    Ok(ServerName::Whole(text))
}

fn shown(word: &[u8]) -> &[u8]
    ensures { result.now ≡ shown word.now }
{
    if begins_with(word, b'.') {
        rest_of(word)
    } else {
        word
    }
}

/// The first name of a server as it is shown: as it is written, without a leading dot.
pub fn first_shown(word: Option<&[u8]>) -> &[u8]
    ensures { result.now ≡ first_shown (option_map (λ w. w.now) word.entry) }
{
    match word {
        None => b"",
        Some(word) => shown(word),
    }
}

fn marked_by(role: Role, directive: &Directive) -> Option<Addr>
    ensures { result ≡ marked_by role directive.now }
{
    if is_marked(directive.args.as_slice()) {
        address_by(role, directive)
    } else {
        None
    }
}

/// One address more, if there is one.
fn mark(defaults: &mut Listens, addr: Option<Addr>) -> Result<(), OutOfMemory>
    ensures { OnOk result (defaults.new ≡ defaults.old ++ in_front addr []) }
{
    match addr {
        None => Ok(()),
        Some(addr) => {
            defaults.push(addr)?;
            Ok(())
        }
    }
}

/// The addresses whose default server this is (nginx's documentation, `listen`).
pub fn defaults_of(alloc: Global, server: &[Directive]) -> Result<Listens, OutOfMemory>
    ensures { IfOk result (λ defaults. defaults ≡ marked_in (roots (forest_of server.now))) }
{
    let mut defaults = Listens::new(alloc);
    let mut rest = server;
    while let Some(branch) = first_branch(rest) {
        let directive = branch.directive;
        let role = role_of(directive.name.as_slice());
        mark(&mut defaults, marked_by(role, directive))?;
        rest = branch.beside;
    }
    Ok(defaults)
}
