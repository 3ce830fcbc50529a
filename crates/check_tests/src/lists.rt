use byte_text::{ByteText, OutOfMemory};
use conf_check::ReadError;
use conf_inherit::build;
use conf_text::{ConfError, parse};
use ngx_pattern::CrateMaker;
use ngx_variables::{Piece, Value};
use site_model::{LastTry, Level, MediaTypes, Server, Site, Tries};
use std::alloc::Global;
use std::process::Abort;
use std::test::Fail;

/// A word, with a space after it.
fn word_onto(out: &mut ByteText, word: &[u8]) -> Result<(), OutOfMemory> {
    out.extend(word)?;
    out.push(b' ')
}

/// A text with variables, each as `$`, with a space after it.
fn value_onto(out: &mut ByteText, value: &Value) -> Result<(), OutOfMemory> {
    for piece in value.pieces() {
        match piece {
            Piece::Literal(bytes) => out.extend(bytes.as_slice())?,
            _ => out.push(b'$')?,
        }
    }
    out.push(b' ')
}

/// The names that a level tries.
fn tries_onto(out: &mut ByteText, tries: &Option<Tries>) -> Result<(), OutOfMemory> {
    if let Some(tries) = tries {
        for name in &tries.names {
            value_onto(out, name)?;
        }
        match &tries.last {
            LastTry::Path(text) => value_onto(out, text)?,
            LastTry::Location(name) => word_onto(out, name.as_slice())?,
            LastTry::Code(_) => word_onto(out, b"=")?,
        }
    }
    out.push(b'|')
}

/// The item of a number, if there is one.
fn item<T>(items: &[T], number: Option<u32>) -> Option<&T> {
    match number {
        None => None,
        Some(number) => items.get(number as usize),
    }
}

fn index_onto(out: &mut ByteText, site: &Site, level: &Level) -> Result<(), OutOfMemory> {
    if let Some(list) = item(site.indexes.as_slice(), level.index) {
        for name in &list.names {
            value_onto(out, &name.text)?;
        }
    }
    out.push(b'|')
}

/// The codes of the rules for errors.
fn pages_onto(
    alloc: Global,
    out: &mut ByteText,
    site: &Site,
    level: &Level,
) -> Result<(), OutOfMemory> {
    if let Some(list) = item(site.pages.as_slice(), level.pages) {
        for rule in &list.rules {
            for code in &rule.codes {
                out.extend(format!(in alloc; "{} ", code)?.as_bytes())?;
            }
        }
    }
    out.push(b'|')
}

/// The address rules, as `+` and `-`.
fn rules_onto(out: &mut ByteText, site: &Site, level: &Level) -> Result<(), OutOfMemory> {
    if let Some(list) = item(site.rules.as_slice(), level.rules) {
        for rule in &list.rules {
            out.push(if rule.allow { b'+' } else { b'-' })?;
        }
    }
    out.push(b'|')
}

/// The variables that a subrequest sets.
fn sets_onto(out: &mut ByteText, site: &Site, level: &Level) -> Result<(), OutOfMemory> {
    if let Some(list) = item(site.auth_sets.as_slice(), level.auth_sets) {
        for set in &list.sets {
            word_onto(out, set.name.as_slice())?;
        }
    }
    out.push(b'|')
}

fn media_onto(out: &mut ByteText, media: Option<&MediaTypes>) -> Result<(), OutOfMemory> {
    if let Some(media) = media {
        if media.every {
            word_onto(out, b"*")?;
        }
        for name in media.types.as_slice() {
            word_onto(out, name.as_slice())?;
        }
    }
    out.push(b'|')
}

fn option_onto(out: &mut ByteText, word: &Option<ByteText>) -> Result<(), OutOfMemory> {
    match word {
        None => out.push(b'-'),
        Some(word) => out.extend(word.as_slice()),
    }
}

/// The lists of a level, and its paths of subrequests, in a line.
fn level_onto(
    alloc: Global,
    out: &mut ByteText,
    site: &Site,
    number: u32,
) -> Result<(), OutOfMemory> {
    let level = site.level(number);
    index_onto(out, site, level)?;
    tries_onto(out, &level.tries)?;
    pages_onto(alloc, out, site, level)?;
    rules_onto(out, site, level)?;
    sets_onto(out, site, level)?;
    media_onto(out, item(site.media.as_slice(), level.ssi_types))?;
    media_onto(out, item(site.media.as_slice(), level.addition_types))?;
    option_onto(out, &level.auth)?;
    option_onto(out, &level.before)?;
    option_onto(out, &level.after)?;
    out.push(b'\n')
}

/// A server: its level, those of its locations, and the variables that documents see.
fn server_onto(
    alloc: Global,
    out: &mut ByteText,
    site: &Site,
    server: &Server,
) -> Result<(), OutOfMemory> {
    level_onto(alloc, out, site, server.level)?;
    for location in &server.locations {
        word_onto(out, location.text.as_slice())?;
        level_onto(alloc, out, site, location.level)?;
    }
    if let Some(names) = &server.visible {
        for name in names.as_slice() {
            word_onto(out, name.as_slice())?;
        }
    }
    Ok(())
}

/// How many lists there are of each kind.
fn counts_of(alloc: Global, site: &Site) -> Result<ByteText, OutOfMemory> {
    let counts = format!(in alloc;
        "{} {} {} {} {}\n",
        site.indexes.len(),
        site.pages.len(),
        site.rules.len(),
        site.auth_sets.len(),
        site.media.len()
    )?;
    ByteText::from_slice(alloc, counts.as_bytes())
}

fn site_text(alloc: Global, site: &Site) -> Result<ByteText, OutOfMemory> {
    let mut out = ByteText::new(alloc);
    for server in &site.servers {
        server_onto(alloc, &mut out, site, server)?;
    }
    out.extend(counts_of(alloc, site)?.as_slice())?;
    Ok(out)
}

/// The lists of the levels of a configuration that is right.
fn lists_in(alloc: Global, text: &[u8]) -> Result<ByteText, ReadError> {
    let directives = match parse(alloc, 0, text) {
        Ok(directives) => directives,
        Err(ConfError::Fault(fault)) => return Err(ReadError::Fault(fault)),
        Err(ConfError::OutOfMemory) => return Err(ReadError::OutOfMemory),
    };
    let mut maker = CrateMaker::new();
    let built = build(alloc, &mut maker, b"/etc", directives.as_slice())?;
    Ok(site_text(alloc, &built.site)?)
}

fn are_listed(rt: &impl Abort, alloc: Global, cases: &[(&[u8], &[u8])]) -> Result<(), Fail> {
    for (text, expected) in cases {
        let found = lists_in(alloc, *text)
            .ok()
            .ok_or("a configuration that is right")?;
        assert_eq!(rt; found.as_slice(), *expected);
    }
    Ok(())
}

// A level that states no list of a kind shares that of the level around it, which no clause says of the lists' numbers.
#[test]
fn levels_share_their_lists(rt: HostRuntime) -> Result<(), Fail> {
    are_listed(
        &rt,
        rt.alloc(),
        &[
            (
                b"http { index a $uri.b; error_page 404 /e; allow ::1/64; deny all; auth_request /q; auth_request_set $U $uri; ssi_types a/b; addition_types *; ssi_visible $Host; add_before_body /x; add_after_body /y; error_page 500 502 =200 @f; server { location /a { index c; deny all; auth_request off; add_before_body ''; addition_types c/d; } location /b { try_files $uri @n; } location /c { } } }",
                b"a $.b ||404 500 502 |+-|u |a/b |* |/q/x/y\n/a c ||404 500 502 |-|u |a/b |c/d |--/y\n/b a $.b |$ @n |404 500 502 |+-|u |a/b |* |/q/x/y\n/c a $.b ||404 500 502 |+-|u |a/b |* |/q/x/y\nhost 2 1 2 1 3\n",
            ),
            (
                b"http { server { try_files a =404; location / { } } }",
                b"|a = ||||||---\n/ |||||||---\n0 0 0 0 0\n",
            ),
        ],
    )
}
