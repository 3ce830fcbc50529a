use conf_table::{Context, entry};
use std::process::Abort;
use std::test::Fail;

/// The places by their letters: the top, `events`, `http`, a server, a location, an `if` of a server, one of a location.
const PLACES: [(u8, Context); 7] = [
    (b'T', Context::Top),
    (b'E', Context::Events),
    (b'H', Context::Http),
    (b'S', Context::Server),
    (b'L', Context::Location),
    (b'I', Context::ServerIf),
    (b'F', Context::LocationIf),
];

/// Each directive may be in the places of these letters, and takes `least` to `greatest` words.
fn all_have_places(
    rt: &impl Abort,
    cases: &[(&[u8], &[u8], u32, Option<u32>)],
) -> Result<(), Fail> {
    for (name, places, least, greatest) in cases {
        let rule = entry(*name).ok_or("a name of the table")?;
        for (letter, place) in &PLACES {
            assert_eq!(rt; rule.places.contains(*place), places.contains(letter));
        }
        assert_eq!(rt; rule.least, *least);
        assert_eq!(rt; rule.greatest, *greatest);
    }
    Ok(())
}

#[test]
fn directives_are_where_the_reference_says(rt: HostRuntime) -> Result<(), Fail> {
    all_have_places(
        &rt,
        &[
            (b"http", b"T", 0, Some(0)),
            (b"events", b"T", 0, Some(0)),
            (b"server", b"H", 0, Some(0)),
            (b"location", b"SL", 1, Some(2)),
            (b"if", b"SL", 1, None),
            (b"types", b"HSL", 0, Some(0)),
            (b"listen", b"S", 1, Some(2)),
            (b"server_name", b"S", 1, None),
            (b"root", b"HSLF", 1, Some(1)),
            (b"alias", b"L", 1, Some(1)),
            (b"index", b"HSL", 1, None),
            (b"try_files", b"SL", 2, None),
            (b"internal", b"L", 0, Some(0)),
            (b"error_page", b"HSLF", 2, None),
            (b"merge_slashes", b"HS", 1, Some(1)),
            (b"keepalive_timeout", b"HSL", 1, Some(2)),
            (b"auth_request_set", b"HSL", 2, Some(2)),
            (b"ssi", b"HSLF", 1, Some(1)),
            (b"rewrite", b"SLIF", 2, Some(3)),
            (b"return", b"SLIF", 1, Some(2)),
            (b"set", b"SLIF", 2, Some(2)),
            (b"break", b"SLIF", 0, Some(0)),
            (b"include", b"TEHSLIF", 1, Some(1)),
            (b"worker_connections", b"TEHSLIF", 0, None),
        ],
    )
}

/// Each name is of a directive with these marks: has no effect, has a block, may be there more than once.
fn all_are_marked(rt: &impl Abort, cases: &[(&[u8], bool, bool, bool)]) -> Result<(), Fail> {
    for (name, ignored, block, many) in cases {
        let rule = entry(*name).ok_or("a name of the table")?;
        assert_eq!(rt; rule.ignored, *ignored);
        assert_eq!(rt; rule.block, *block);
        assert_eq!(rt; rule.many, *many);
    }
    Ok(())
}

fn are_no_names(rt: &impl Abort, names: &[&[u8]]) {
    for name in names {
        assert!(rt; entry(*name).is_none());
    }
}

#[test]
fn names_are_told_apart(rt: HostRuntime) -> Result<(), Fail> {
    are_no_names(
        &rt,
        &[
            b"",
            b"serve",
            b"servers",
            b"Http",
            b"gzipx",
            b"open_file_cachex",
            b"open_file",
            b"zzz",
            b"http\x00",
        ],
    );
    all_are_marked(
        &rt,
        &[
            (b"user", true, false, true),
            (b"gzip", true, false, true),
            (b"gzip_", true, false, true),
            (b"gzip_comp_level", true, false, true),
            (b"open_file_cache", true, false, true),
            (b"open_file_cache_valid", true, false, true),
            (b"access_log", true, false, true),
            (b"worker_rlimit_nofile", true, false, true),
            (b"http", false, true, false),
            (b"server", false, true, true),
            (b"types", false, true, true),
            (b"root", false, false, false),
            (b"index", false, false, true),
        ],
    )
}
