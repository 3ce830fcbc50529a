// The addresses that the directives of a level listen on.
ghost use Rattle.std.specs.Prelude.{◌≡◌, [], ◌++◌, OnOk, IfOk};
ghost use Rattle.conf_block.specs.Forest.{forest_of, roots};
ghost use Rattle.conf_block.specs.Listening.{address_by, in_front, listens_of as addresses, or_default};

use crate::branch::first_branch;
use crate::role::role_of;
use byte_text::OutOfMemory;
use conf_table::Role;
use conf_text::Directive;
use conf_values::site_model::Listens;
use conf_values::{listened_by, wildcard};
use http_types::Addr;
use std::alloc::Global;

/// The address that a directive has the server listen on, where it is a `listen`.
pub fn address_by(role: Role, directive: &Directive) -> Option<Addr>
    ensures { result ≡ address_by role directive.now }
{
    match role {
        Role::Listen => listened_by(directive.args.as_slice()),
        _ => None,
    }
}

/// One address more, if there is one.
fn listen_at(listens: &mut Listens, addr: Option<Addr>) -> Result<(), OutOfMemory>
    ensures { OnOk result (listens.new ≡ listens.old ++ in_front addr []) }
{
    match addr {
        None => Ok(()),
        Some(addr) => {
            listens.push(addr)?;
            Ok(())
        }
    }
}

/// The addresses that the `listen` directives of a level name.
pub fn addresses(alloc: Global, level: &[Directive]) -> Result<Listens, OutOfMemory>
    ensures { IfOk result (λ listens. listens ≡ addresses (roots (forest_of level.now))) }
{
    let mut listens = Listens::new(alloc);
    let mut rest = level;
    while let Some(branch) = first_branch(rest) {
        let directive = branch.directive;
        listen_at(
            &mut listens,
            address_by(role_of(directive.name.as_slice()), directive),
        )?;
        rest = branch.beside;
    }
    Ok(listens)
}

/// The addresses of a server: port 80 of every IPv4 address where it names none (nginx's documentation, `listen`).
pub fn listens_of(alloc: Global, server: &[Directive]) -> Result<Listens, OutOfMemory>
    ensures { IfOk result (λ listens.
        listens ≡ or_default (addresses (roots (forest_of server.now)))) }
{
    let mut listens = addresses(alloc, server)?;
    if listens.as_slice().is_empty() {
        listens.push(Addr {
            ip: wildcard(),
            port: 80,
        })?;
    }
    Ok(listens)
}
