// Sites in short: words of levels, of which the first is the server's own. `|` begins the next, `ssi` turns documents on, `x=a`
// sets `$x` to a text, `?a` returns a text, `-f` begins an empty `if (-f /a)`, `auth:x` sets `$x` by a subrequest.
use crate::samples::{level, text, value};
use byte_text::{ByteText, ByteTexts};
use file_type::Types;
use race_check::{Named, first_lists, named_in};
use site_model::{
    AuthSet, AuthSets, FileTest, Level, Listens, Location, LocationKind, Program, RewriteStep,
    Server, Site, Test,
};
use std::alloc::Global;
use std::process::Abort;
use std::test::Fail;

fn step(alloc: Global, word: &[u8]) -> Result<RewriteStep, Fail> {
    match word {
        [b'?', answer @ ..] => Ok(RewriteStep::Return {
            code: 200,
            text: Some(value(alloc, answer)?),
        }),
        [name, b'=', set @ ..] => Ok(RewriteStep::Set {
            name: text(alloc, &[*name])?,
            text: value(alloc, set)?,
        }),
        _ => Ok(RewriteStep::If {
            test: Test::OnFile {
                test: FileTest::IsFile,
                path: value(alloc, b"/a")?,
            },
            negated: false,
            block: 0,
            level: None,
        }),
    }
}

/// A level of these words; where one is an `auth:`, the first list of `auth_request_set`s holds in it.
fn level_of(alloc: Global, words: &[u8]) -> Result<Level, Fail> {
    let mut made = level(alloc)?;
    for word in words.split(|b| *b == b' ') {
        if word == b"ssi".as_slice() {
            made.ssi = true;
        } else if word.starts_with(b"auth:") {
            made.auth_sets = Some(0);
        } else if !word.is_empty() {
            made.program.push(step(alloc, word)?)?;
        }
    }
    Ok(made)
}

fn levels_of(alloc: Global, words: &[u8]) -> Result<Vec<Level>, Fail> {
    let mut levels = Vec::new(alloc);
    for part in words.split(|b| *b == b'|') {
        levels.push(level_of(alloc, part)?)?;
    }
    Ok(levels)
}

fn locations_of(alloc: Global, count: usize) -> Result<Vec<Location>, Fail> {
    let mut locations = Vec::new(alloc);
    let mut number: u32 = 0;
    for _ in 1..count {
        number = number.saturating_add(1);
        locations.push(Location {
            text: text(alloc, b"/")?,
            level: number,
            kind: LocationKind::Prefix,
            depth: 0,
        })?;
    }
    Ok(locations)
}

fn server_of(alloc: Global, levels: usize, visible: Option<ByteTexts>) -> Result<Server, Fail> {
    Ok(Server {
        listens: Listens::new(alloc),
        level: 0,
        locations: locations_of(alloc, levels)?,
        defaults: Listens::new(alloc),
        names: Vec::new(alloc),
        first_name: ByteText::new(alloc),
        named: Vec::new(alloc),
        merge: true,
        visible,
    })
}

/// `auth_request_set $x a` alone.
fn auth_sets(alloc: Global) -> Result<Vec<AuthSets>, Fail> {
    let mut sets = Vec::new(alloc);
    sets.push(AuthSet {
        name: text(alloc, b"x")?,
        text: value(alloc, b"a")?,
    })?;
    let mut lists = Vec::new(alloc);
    lists.push(AuthSets { sets })?;
    Ok(lists)
}

fn site_of(alloc: Global, words: &[u8], visible: Option<ByteTexts>) -> Result<Site, Fail> {
    let levels = levels_of(alloc, words)?;
    let mut servers = Vec::new(alloc);
    servers.push(server_of(alloc, levels.len(), visible)?)?;
    Ok(Site {
        folder: text(alloc, b"/")?,
        servers,
        levels,
        types: Vec::new(alloc),
        outside: level(alloc)?,
        plain: Types::new(alloc, Vec::new(alloc), text(alloc, b"text/plain")?)?,
        indexes: Vec::new(alloc),
        pages: Vec::new(alloc),
        rules: Vec::new(alloc),
        auth_sets: auth_sets(alloc)?,
        media: Vec::new(alloc),
    })
}

/// The variables that are named in the site's first server.
fn named_first(alloc: Global, site: &Site) -> Result<Vec<Named>, Fail> {
    let first = first_lists(alloc, site)?;
    match site.servers.first() {
        None => Ok(Vec::new(alloc)),
        Some(server) => Ok(named_in(alloc, site, &first, server, 1)?),
    }
}

/// The names with a space after each, and before it `+` where documents read the variable.
fn told(alloc: Global, named: &[Named]) -> Result<ByteText, Fail> {
    let mut told = ByteText::new(alloc);
    for variable in named {
        told.extend(variable.name.as_slice())?;
        if variable.documents {
            told.push(b'+')?;
        }
        told.push(b' ')?;
    }
    Ok(told)
}

fn tell(
    rt: &impl Abort,
    alloc: Global,
    visible: bool,
    cases: &[(&[u8], &[u8])],
) -> Result<(), Fail> {
    for (words, expected) in cases {
        let mut names = ByteTexts::new(alloc);
        names.push(text(alloc, b"y")?)?;
        let visible = if visible { None } else { Some(names) };
        let site = site_of(alloc, words, visible)?;
        let named = named_first(alloc, &site)?;
        let told = told(alloc, named.as_slice())?;
        assert!(rt; told.as_slice() == *expected);
    }
    Ok(())
}

#[test]
fn what_documents_read_is_told(rt: HostRuntime) -> Result<(), Fail> {
    let alloc = rt.alloc();
    tell(
        &rt,
        alloc,
        true,
        &[
            (b"|ssi|x=a|x=b", b"x+ "),
            (b"x=a|ssi|x=a|x=a", b""),
            (b"x=a|ssi|x=a|x=b", b"x+ "),
            (b"x=$uri|ssi", b"x+ "),
            (b"x=$host|ssi", b""),
            (b"-f x=a|ssi", b"x+ "),
            (b"x=a|ssi auth:x", b"x+ "),
            (b"||x=a|x=b", b""),
            (b"|ssi|z=$uri y=$uri|x=$uri y=a", b"x+ y+ z+ "),
        ],
    )
}

#[test]
fn what_other_levels_read_is_told(rt: HostRuntime) -> Result<(), Fail> {
    let alloc = rt.alloc();
    tell(
        &rt,
        alloc,
        false,
        &[
            (b"|ssi|x=a|x=b", b""),
            (b"|ssi|x=a ?$x|x=b", b""),
            (b"|ssi|x=a -f ?$x|x=b", b"x "),
            (b"|ssi ?$x|x=a|x=b", b"x "),
            (b"|ssi|x=a y=$x|x=b", b"y+ "),
            (b"|ssi|y=$x x=a|x=b", b"x y+ "),
        ],
    )
}
