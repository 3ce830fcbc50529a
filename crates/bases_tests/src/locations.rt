//! Which location a server has for a path.
use crate::samples::text;
use crate::sites::{patterns, server};
use location_search::{FoundLocation, Locations};
use ngx_pattern::{PatternSet, Spans};
use site_model::{Location, LocationKind, NamedLocation, Server};
use std::alloc::Global;
use std::process::Abort;
use std::test::Fail;

/// A location by its text, how it is matched, how deep it is in others, and the number of its level.
type Row = (&'static [u8], LocationKind, u32, u32);

fn server_with(alloc: Global, rows: &[Row]) -> Result<Server, Fail> {
    let mut server = server(alloc)?;
    for (prefix, kind, depth, level) in rows {
        server.locations.push(Location {
            text: text(alloc, prefix)?,
            level: *level,
            kind: *kind,
            depth: *depth,
        })?;
    }
    server.named.push(NamedLocation {
        name: text(alloc, b"f")?,
        level: 9,
    })?;
    Ok(server)
}

/// For each path the number of the level, and where the first group is, if a pattern matched.
fn are_found(
    rt: &impl Abort,
    locations: &Locations,
    patterns: &mut PatternSet,
    cases: &[(&[u8], Option<u32>, Option<(usize, usize)>)],
) {
    for (path, level, group) in cases {
        let mut spans = Spans::new();
        let found = locations.find(path, patterns, &mut spans);
        let matched = group.is_some();
        let expected = level.map(|level| FoundLocation { level, matched });
        assert_eq!(rt; found, expected);
        if matched {
            assert_eq!(rt; spans.get(1), *group);
        }
    }
}

#[test]
fn a_location_is_found_by_its_modifier(rt: HostRuntime) -> Result<(), Fail> {
    use LocationKind::{Exactly, FirmPrefix, Prefix, Regex};
    let alloc = rt.alloc();
    let server = server_with(
        alloc,
        &[
            (b"/a", Exactly, 0, 1),
            (b"/a/", FirmPrefix, 0, 2),
            (b"^/(a)", Regex(0), 0, 3),
            (b"/a/b/", Prefix, 0, 4),
            (b"/n/", Prefix, 0, 5),
            (b"/n/x", Exactly, 1, 6),
            (b"/n/y/", Prefix, 1, 7),
            (b"(gif)$", Regex(1), 2, 8),
            (b"/n/", Prefix, 0, 10),
        ],
    )?;
    let locations = Locations::new(alloc, &server)?;
    let mut patterns = patterns(alloc)?;
    are_found(
        &rt,
        &locations,
        &mut patterns,
        &[
            (b"/a", Some(1), None),
            (b"/a/b/c", Some(3), Some((1, 2))),
            (b"/a/c", Some(2), None),
            (b"/ab", Some(3), Some((1, 2))),
            (b"/b", None, None),
            (b"/n/q", Some(5), None),
            (b"/n/x", Some(6), None),
            (b"/n/y/a.gif", Some(8), Some((7, 10))),
            (b"/n/y/a", Some(7), None),
        ],
    );
    assert_eq!(rt; locations.named(b"f"), Some(9));
    assert_eq!(rt; locations.named(b"g"), None);
    Ok(())
}
