use byte_text::{ByteText, OutOfMemory};
use conf_check::ReadError;
use conf_inherit::build;
use conf_text::{ConfError, parse};
use ngx_pattern::CrateMaker;
use site_model::{Server, ServerName, Site};
use std::alloc::Global;
use std::process::Abort;
use std::test::Fail;

fn marked(out: &mut ByteText, mark: u8, text: &ByteText) -> Result<(), OutOfMemory> {
    out.push(mark)?;
    out.extend(text.as_slice())?;
    out.push(b' ')
}

/// A name, after a sign of its kind.
fn name_onto(out: &mut ByteText, name: &ServerName) -> Result<(), OutOfMemory> {
    match name {
        ServerName::Whole(text) => marked(out, b'=', text),
        ServerName::Ending(text) => marked(out, b'*', text),
        ServerName::Beginning(text) => marked(out, b'<', text),
        ServerName::WithSubdomains(text) => marked(out, b'+', text),
        ServerName::Like(_) => out.extend(b"~ "),
    }
}

/// A server as `FIRST: NAMES DEFAULT PORTS`, in a line of its own.
fn server_onto(alloc: Global, out: &mut ByteText, server: &Server) -> Result<(), OutOfMemory> {
    out.extend(server.first_name.as_slice())?;
    out.extend(b": ")?;
    for name in &server.names {
        name_onto(out, name)?;
    }
    for addr in server.defaults.as_slice() {
        out.extend(format!(in alloc; "{} ", addr.port)?.as_bytes())?;
    }
    out.push(b'\n')
}

fn site_text(alloc: Global, site: &Site) -> Result<ByteText, OutOfMemory> {
    let mut out = ByteText::new(alloc);
    for server in &site.servers {
        server_onto(alloc, &mut out, server)?;
    }
    Ok(out)
}

/// The names of the servers of a configuration that is right.
fn names_in(alloc: Global, text: &[u8]) -> Result<ByteText, ReadError> {
    let directives = match parse(alloc, 0, text) {
        Ok(directives) => directives,
        Err(ConfError::Fault(fault)) => return Err(ReadError::Fault(fault)),
        Err(ConfError::OutOfMemory) => return Err(ReadError::OutOfMemory),
    };
    let mut maker = CrateMaker::new();
    let built = build(alloc, &mut maker, b"/etc", directives.as_slice())?;
    Ok(site_text(alloc, &built.site)?)
}

fn are_named(rt: &impl Abort, alloc: Global, cases: &[(&[u8], &[u8])]) -> Result<(), Fail> {
    for (text, expected) in cases {
        let found = names_in(alloc, *text)
            .ok()
            .ok_or("a configuration that is right")?;
        assert_eq!(rt; found.as_slice(), *expected);
    }
    Ok(())
}

#[test]
fn servers_have_their_names(rt: HostRuntime) -> Result<(), Fail> {
    are_named(
        &rt,
        rt.alloc(),
        &[
            (
                b"http { server { listen 80 default_server; listen 81; server_name .A.org *.b; server_name W.* ''; } server { listen 81 default_server; } }",
                b"A.org: +.a.org *.b <w. = 80 \n: = 81 \n",
            ),
            (b"http { server { server_name ~^a b; } }", b"~^a: ~ =b \n"),
        ],
    )
}
