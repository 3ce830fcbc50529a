use byte_text::{ByteText, OutOfMemory};
use conf_check::ReadError;
use conf_inherit::build;
use conf_text::{ConfError, parse};
use file_type::Types;
use ngx_pattern::CrateMaker;
use ngx_variables::{FileRoot, Piece, Value};
use site_model::{RewriteStep, Site};
use std::alloc::Global;
use std::process::Abort;
use std::test::Fail;

/// A text with variables, each as `$`.
fn value_onto(out: &mut ByteText, value: &Value) -> Result<(), OutOfMemory> {
    for piece in value.pieces() {
        match piece {
            Piece::Literal(bytes) => out.extend(bytes.as_slice())?,
            _ => out.push(b'$')?,
        }
    }
    Ok(())
}

/// Where the files of a level are: `TEXT`, or `TEXT<PREFIX` for an alias.
fn place_onto(out: &mut ByteText, place: &FileRoot) -> Result<(), OutOfMemory> {
    match place {
        FileRoot::Root(text) => value_onto(out, text),
        FileRoot::Rest { text, prefix } => {
            value_onto(out, text)?;
            out.push(b'<')?;
            out.extend(prefix.as_slice())
        }
        FileRoot::Whole(text) => value_onto(out, text),
    }
}

/// The types of an html file, of one named `x.y` and of one without an extension.
fn types_onto(out: &mut ByteText, types: &Types) -> Result<(), OutOfMemory> {
    for path in [b"/a.html".as_slice(), b"/x.y", b"/a"] {
        out.push(b' ')?;
        out.extend(types.type_of(path))?;
    }
    Ok(())
}

/// What a step returns, as `CODE:TEXT`, or another step, as `?`.
fn step_onto(alloc: Global, out: &mut ByteText, step: &RewriteStep) -> Result<(), OutOfMemory> {
    match step {
        RewriteStep::Return { code, text } => {
            out.extend(format!(in alloc; " {}", code)?.as_bytes())?;
            match text {
                None => Ok(()),
                Some(text) => {
                    out.push(b':')?;
                    value_onto(out, text)
                }
            }
        }
        _ => out.extend(b" ?"),
    }
}

/// The level with a number as `PLACE TYPES REQUESTS IDLE PROGRAM`, in a line of its own.
fn level_onto(
    alloc: Global,
    out: &mut ByteText,
    site: &Site,
    number: u32,
) -> Result<(), OutOfMemory> {
    if let Some(level) = site.levels.get(number as usize) {
        place_onto(out, &level.place)?;
        if let Some(types) = site.types.get(level.types as usize) {
            types_onto(out, types)?;
        }
        out.extend(format!(in alloc; " {} {}", level.requests, level.idle)?.as_bytes())?;
        for step in level.program.as_slice() {
            step_onto(alloc, out, step)?;
        }
    }
    out.push(b'\n')
}

/// A site: a line for each server, and one for each of its locations.
fn site_text(alloc: Global, site: &Site) -> Result<ByteText, OutOfMemory> {
    let mut out = ByteText::new(alloc);
    for server in &site.servers {
        for addr in server.listens.as_slice() {
            out.extend(format!(in alloc; "{} ", addr.port)?.as_bytes())?;
        }
        level_onto(alloc, &mut out, site, server.level)?;
        for location in &server.locations {
            out.extend(location.text.as_slice())?;
            out.push(b' ')?;
            level_onto(alloc, &mut out, site, location.level)?;
        }
    }
    Ok(out)
}

/// What a configuration is read as: its site, or the word of its first fault.
fn read(alloc: Global, text: &[u8]) -> Result<ByteText, OutOfMemory> {
    let directives = match parse(alloc, 0, text) {
        Ok(directives) => directives,
        Err(ConfError::Fault(fault)) => return Ok(fault.word.unwrap_or(ByteText::new(alloc))),
        Err(ConfError::OutOfMemory) => return Err(OutOfMemory),
    };
    let mut maker = CrateMaker::new();
    match build(alloc, &mut maker, b"/etc", directives.as_slice()) {
        Ok(built) => site_text(alloc, &built.site),
        Err(ReadError::Fault(fault)) => Ok(fault.word.unwrap_or(ByteText::new(alloc))),
        Err(ReadError::TooBig(fault)) => Ok(fault.word.unwrap_or(ByteText::new(alloc))),
        Err(ReadError::OutOfMemory) => Err(OutOfMemory),
    }
}

/// Each configuration is read as this.
fn all_are_read(rt: &impl Abort, alloc: Global, cases: &[(&[u8], &[u8])]) -> Result<(), Fail> {
    for (text, expected) in cases {
        let found = read(alloc, *text)?;
        assert_eq!(rt; found.as_slice(), *expected);
    }
    Ok(())
}

#[test]
fn a_site_is_read(rt: HostRuntime) -> Result<(), Fail> {
    all_are_read(
        &rt,
        rt.alloc(),
        &[
            (
                b"user a; events { use epoll; } http { server { location /a { gzip_x 1; } listen [::]:81 default_server; listen 82; } }",
                b"81 82 html text/html text/plain text/plain 1000 75000\n/a html text/html text/plain text/plain 1000 75000\n",
            ),
            (
                b"http { keepalive_timeout 0 5m; default_type d/t; server { location /a { } location /b { keepalive_requests 7; } } }",
                b"80 html text/html d/t d/t 1000 0\n/a html text/html d/t d/t 1000 0\n/b html text/html d/t d/t 7 0\n",
            ),
            (
                b"http { types { m/n y Z; } server { types { o/p y; } types { q/r html; } location / { default_type u/v; } } server { listen 81; } }",
                b"80 html q/r o/p text/plain 1000 75000\n/ html q/r o/p u/v 1000 75000\n81 html text/plain m/n text/plain 1000 75000\n",
            ),
            (
                b"http { server { return 404; location / { return 200 'a $uri'; return 201; types { } keepalive_timeout 1500ms; } } }",
                b"80 html text/html text/plain text/plain 1000 75000 404\n/ html text/plain text/plain text/plain 1000 1500 200:a $ 201\n",
            ),
            (
                b"http { server { listen 80; location /b { } } keepalive_timeout 1h; server { listen 81; location /b { } location /a { } } }",
                b"80 html text/html text/plain text/plain 1000 3600000\n/b html text/html text/plain text/plain 1000 3600000\n81 html text/html text/plain text/plain 1000 3600000\n/b html text/html text/plain text/plain 1000 3600000\n/a html text/html text/plain text/plain 1000 3600000\n",
            ),
            (
                b"http { root /w; server { location /a { alias b$uri/; } location /c { root d; } location /e { } } }",
                b"80 /w text/html text/plain text/plain 1000 75000\n/a b$/</a text/html text/plain text/plain 1000 75000\n/c d text/html text/plain text/plain 1000 75000\n/e /w text/html text/plain text/plain 1000 75000\n",
            ),
            (
                b"http { root a; server { auth_request /q; } }",
                b"80 a text/html text/plain text/plain 1000 75000\n",
            ),
            (
                b"http { server { auth_request_set $uri a; } }",
                b"auth_request_set",
            ),
        ],
    )
}
