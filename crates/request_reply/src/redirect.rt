// Where a redirect leads (<https://nginx.org/en/docs/http/ngx_http_core_module.html#absolute_redirect>).
ghost use Rattle.std.specs.Prelude.{◌≡◌, ◌∷◌, ◌++◌, ◌==◌, ◌&&◌, not, List, [], None, Some, IfOk, OnOk, codes, decimal};
ghost use Rattle.std.specs.Net.Text.{ip_text};
ghost use Rattle.request_phases.specs.ngx_variables.Grammar.{begins_with};
ghost use Rattle.request_meaning.specs.site_views.Values.{Values};
ghost use Rattle.request_meaning.specs.Answering.{ip_host, host_or, redirect_host, redirect_port, absolute as absolute_of, redirect_target as target_of};

use byte_text::{ByteText, OutOfMemory};
use http_types::Addr;
use request_phases::ngx_variables::Main;
use request_phases::site_model::Level;
use std::alloc::Global;
use std::net::IpAddr;

fn append_address(alloc: Global, ip: IpAddr, out: &mut ByteText) -> Result<(), OutOfMemory>
    ensures { OnOk result (out.new ≡ out.old ++ ip_text ip) }
{
    let text = format!(in alloc; "{ip}")?;
    out.extend(text.as_bytes())?;
    Ok(())
}

fn append_port(alloc: Global, port: u16, out: &mut ByteText) -> Result<(), OutOfMemory>
    ensures { OnOk result (out.new ≡ out.old ++ decimal port) }
{
    let text = format!(in alloc; "{port}")?;
    out.extend(text.as_bytes())?;
    Ok(())
}

/// An address as a host: that of the later version is in brackets (RFC 3986, section 3.2.2).
fn append_ip_host(alloc: Global, ip: IpAddr, out: &mut ByteText) -> Result<(), OutOfMemory>
    ensures { OnOk result (out.new ≡ out.old ++ ip_host ip) }
{
    match ip {
        IpAddr::V4(_) => append_address(alloc, ip, out),
        IpAddr::V6(_) => {
            out.push(b'[')?;
            append_address(alloc, ip, out)?;
            out.push(b']')?;
            Ok(())
        }
    }
}

/// A host, or the address where it is empty.
fn append_host_or(
    alloc: Global,
    host: &[u8],
    local: Addr,
    out: &mut ByteText,
) -> Result<(), OutOfMemory>
    ensures { OnOk result (out.new ≡ out.old ++ host_or host.now local) }
{
    match host {
        [] => append_ip_host(alloc, local.ip, out),
        [_, ..] => {
            out.extend(host)?;
            Ok(())
        }
    }
}

/// The host of a redirect: the server's first name where the level says so, else the host that was asked for.
#[tactic(auto, unfolding(request_meaning::specs::Answering::redirect_host))]
fn append_redirect_host(
    alloc: Global,
    level: &Level,
    main: &Main,
    out: &mut ByteText,
) -> Result<(), OutOfMemory>
    ensures { (values : Values) → values.with_server_name ≡ level.now.with_server_name
        → OnOk result (out.new ≡ out.old ++ redirect_host values main.now) }
{
    if level.with_server_name {
        append_host_or(alloc, main.server_name.as_slice(), main.local, out)?;
        return Ok(());
    }
    append_host_or(alloc, main.host.as_slice(), main.local, out)?;
    Ok(())
}

/// The port of a redirect, unless it is 80 or the level leaves it out.
#[tactic(auto, unfolding(request_meaning::specs::Answering::redirect_port))]
fn append_redirect_port(
    alloc: Global,
    level: &Level,
    main: &Main,
    out: &mut ByteText,
) -> Result<(), OutOfMemory>
    ensures { (values : Values) → values.with_port ≡ level.now.with_port
        → OnOk result (out.new ≡ out.old ++ redirect_port values main.now) }
{
    if level.with_port && main.local.port != 80 {
        out.push(b':')?;
        append_port(alloc, main.local.port, out)?;
    }
    Ok(())
}

fn begins_with_slash(path: &[u8]) -> bool
    ensures { result ≡ begins_with 47 path.now }
{
    match path {
        [b'/', ..] => true,
        _ => false,
    }
}

/// A target that is a path of the site is put after `http://` and the host, where the level says so.
#[tactic(auto, unfolding(request_meaning::specs::Answering::absolute))]
fn absolute(
    alloc: Global,
    level: &Level,
    main: &Main,
    to: ByteText,
) -> Result<ByteText, OutOfMemory>
    ensures { IfOk result (λ target. (values : Values)
        → values.with_server_name ≡ level.now.with_server_name
        → values.with_port ≡ level.now.with_port → values.absolute ≡ level.now.absolute
        → target ≡ absolute_of values main.now to) }
{
    if !(begins_with_slash(to.as_slice()) && level.absolute) {
        return Ok(to);
    }
    let mut target = ByteText::from_slice(alloc, b"http://")?;
    append_redirect_host(alloc, level, main, &mut target)?;
    append_redirect_port(alloc, level, main, &mut target)?;
    target.extend(to.as_slice())?;
    Ok(target)
}

/// The target of a redirect, if it has one.
pub(crate) fn redirect_target(
    alloc: Global,
    level: &Level,
    main: &Main,
    to: Option<ByteText>,
) -> Result<Option<ByteText>, OutOfMemory>
    ensures { IfOk result (λ target. (values : Values)
        → values.with_server_name ≡ level.now.with_server_name
        → values.with_port ≡ level.now.with_port → values.absolute ≡ level.now.absolute
        → target ≡ target_of values main.now to) }
{
    match to {
        None => Ok(None),
        Some(to) => {
            let target = absolute(alloc, level, main, to)?;
            Ok(Some(target))
        }
    }
}
