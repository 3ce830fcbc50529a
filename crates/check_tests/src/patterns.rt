use ngx_pattern::{CrateMaker, ListMaker, PatternFault, PatternSet, Spans};
use std::process::Abort;
use std::test::Fail;

type Span = Option<(usize, usize)>;

/// A pattern, whether in either case, what is searched, and where the match and its first groups are.
type Searched<'a> = (&'a [u8], bool, &'a [u8], &'a [Span]);

fn all_are_found(
    rt: &impl Abort,
    set: &mut PatternSet,
    maker: &mut CrateMaker,
    cases: &[Searched],
) -> Result<(), Fail> {
    let mut spans = Spans::new();
    for (pattern, nocase, bytes, want) in cases {
        let id = set.add(&mut *maker, *pattern, *nocase)?;
        let found = set.matches(id, *bytes, &mut spans);
        assert_eq!(rt; found, !want.is_empty(), "{pattern:?}");
        for number in 0..12 {
            let there = want.get(number).copied().flatten();
            assert_eq!(rt; spans.get(number), there, "{number} of {pattern:?}");
        }
    }
    Ok(())
}

/// None of these texts is a pattern.
fn all_are_bad(rt: &impl Abort, set: &mut PatternSet, maker: &mut ListMaker, texts: &[&[u8]]) {
    for pattern in texts {
        assert_eq!(rt;
            set.add(&mut *maker, *pattern, false),
            Err(PatternFault::Bad),
            "{pattern:?}"
        );
    }
}

#[test]
fn matches_are_where_perl_finds_them(rt: HostRuntime) -> Result<(), Fail> {
    let mut set = PatternSet::new(rt.alloc());
    let mut maker = CrateMaker::new();
    let fifty_groups = b"(a)".repeat(rt.alloc(), 50)?;
    let fifty_bytes = b"a".repeat(rt.alloc(), 50)?;
    let cases: [Searched; 16] = [
        (b"", false, b"", &[Some((0, 0))]),
        (b"b", false, b"ab", &[Some((1, 2))]),
        (b"^b", false, b"ab", &[]),
        (br"\.php$", true, b"/A.PHP", &[Some((2, 6))]),
        (br"\.php$", false, b"/A.PHP", &[]),
        // The first alternative wins, also where another is longer; a group may be empty.
        (
            b"^/(a|ab)(c|bcd)(d*)$",
            false,
            b"/abcd",
            &[Some((0, 5)), Some((1, 2)), Some((2, 5)), Some((5, 5))],
        ),
        // A group that takes no part isn't there.
        (
            b"(a)|(b)(c)?",
            false,
            b"xb",
            &[Some((1, 2)), None, Some((1, 2)), None],
        ),
        // A group is where it took part last.
        (b"(?:(a)|b)*", false, b"aab", &[Some((0, 3)), Some((1, 2))]),
        // A repeated group keeps its last turn that isn't empty.
        (b"^(.*)*$", false, b"ab", &[Some((0, 2)), Some((0, 2))]),
        (b"a(.*?)b", false, b"axbb", &[Some((0, 3)), Some((1, 2))]),
        (b"a(.*)b", false, b"axbb", &[Some((0, 4)), Some((1, 3))]),
        // Any bytes are searched. A dot is a character of UTF-8.
        (
            b"b(.*)",
            false,
            b"\xFFbc\xFE",
            &[Some((1, 3)), Some((2, 3))],
        ),
        (br"(?-u:\xFF)", false, b"a\xFF", &[Some((1, 2))]),
        (
            "ä(.)".as_bytes(),
            true,
            "xÄö".as_bytes(),
            &[Some((1, 5)), Some((3, 5))],
        ),
        (b"(?P<name>b)", false, b"ab", &[Some((1, 2)), Some((1, 2))]),
        (
            fifty_groups.as_slice(),
            false,
            fifty_bytes.as_slice(),
            &[
                Some((0, 50)),
                Some((0, 1)),
                Some((1, 2)),
                Some((2, 3)),
                Some((3, 4)),
                Some((4, 5)),
                Some((5, 6)),
                Some((6, 7)),
                Some((7, 8)),
                Some((8, 9)),
            ],
        ),
    ];
    all_are_found(&rt, &mut set, &mut maker, cases.as_slice())?;
    assert_eq!(rt; set.len(), 16);
    assert_eq!(rt; maker.refusals(), 0);
    Ok(())
}

#[test]
fn what_is_no_pattern_is_bad_and_what_is_refused_is_too_big(rt: HostRuntime) -> Result<(), Fail> {
    let mut set = PatternSet::new(rt.alloc());
    let mut maker = ListMaker::new(vec![in rt.alloc(); 12]?);
    let deep = b"(".repeat(rt.alloc(), 1000)?;
    all_are_bad(
        &rt,
        &mut set,
        &mut maker,
        &[
            b"(",
            b")",
            b"*",
            b"[z-a]",
            b"a{2,1}",
            br"\",
            br"(a)\1",
            b"(?=a)",
            b"(?<name>a)(?<name>b)",
            br"\pX",
            b"a\xFF",
            deep.as_slice(),
        ],
    );
    assert!(rt; set.is_empty());
    assert_eq!(rt; maker.refusals(), 0);
    // The text that isn't UTF-8 was not shown to the maker, so this is its call with the number 11.
    assert!(rt; set.add(&mut maker, b"a", false).is_ok());
    assert_eq!(rt; set.add(&mut maker, b"a", false), Err(PatternFault::TooBig));
    assert_eq!(rt; maker.refusals(), 1);
    assert_eq!(rt; set.len(), 1);
    // A million copies are more than the crate compiles.
    assert_eq!(rt;
        set.add(&mut maker, b"(?:a{1000}){1000}", false),
        Err(PatternFault::TooBig)
    );
    assert_eq!(rt; maker.refusals(), 2);
    assert!(rt; set.add(&mut maker, b"a", false).is_ok());
    Ok(())
}

// What one search kept serves the next: in bytes short and long, hits and misses of several patterns take turns.
#[test]
fn searches_take_turns(rt: HostRuntime) -> Result<(), Fail> {
    let mut set = PatternSet::new(rt.alloc());
    let mut maker = CrateMaker::new();
    let mut spans = Spans::new();
    let mut long = b"/o/".repeat(rt.alloc(), 3000)?;
    long.extend_from_slice(b"12/x.Jpg")?;
    let cases: [(&[u8], bool, &[u8], Span, &[u8], Span); 4] = [
        (
            b"^/o/(.*)$",
            false,
            b"/o/x.php",
            Some((3, 8)),
            b"/p/x.php",
            Some((3, 9008)),
        ),
        (
            br"\.(gif|jpe?g|png)$",
            true,
            b"/x.GIF",
            Some((3, 6)),
            b"/x.gift",
            Some((9005, 9008)),
        ),
        (
            br"/(\d+)/",
            false,
            b"/x/7/",
            Some((3, 4)),
            b"/a12/",
            Some((9000, 9002)),
        ),
        (
            br"(x)\.",
            false,
            b"x.php",
            Some((0, 1)),
            b"y.php",
            Some((9003, 9004)),
        ),
    ];
    for (pattern, nocase, hit, there, miss, far) in cases {
        let id = set.add(&mut maker, pattern, nocase)?;
        assert!(rt; set.matches(id, hit, &mut spans), "{pattern:?}");
        assert_eq!(rt; spans.get(1), there, "{pattern:?}");
        assert!(rt; !set.matches(id, miss, &mut spans), "{pattern:?}");
        assert_eq!(rt; spans.get(0), None, "{pattern:?}");
        assert!(rt; set.matches(id, &long, &mut spans), "{pattern:?}");
        assert_eq!(rt; spans.get(1), far, "{pattern:?}");
        assert!(rt; set.matches(id, hit, &mut spans), "{pattern:?}");
        assert_eq!(rt; spans.get(1), there, "{pattern:?}");
    }
    assert_eq!(rt; set.len(), 4);
    Ok(())
}

// Sets are apart: a number means the pattern of the set that is asked, and nothing where that has none.
#[test]
fn any_number_may_be_asked_of_any_set(rt: HostRuntime) -> Result<(), Fail> {
    let mut maker = CrateMaker::new();
    let mut spans = Spans::new();
    let mut letters = PatternSet::new(rt.alloc());
    let first = letters.add(&mut maker, b"a", false)?;
    let second = letters.add(&mut maker, b"b(.)", false)?;
    assert!(rt; letters.matches(second, b"abc", &mut spans));
    assert_eq!(rt; spans.get(1), Some((2, 3)));
    {
        let mut digits = PatternSet::new(rt.alloc());
        assert!(rt; !digits.matches(first, b"a1", &mut spans));
        assert_eq!(rt; spans.get(0), None);
        assert_eq!(rt; spans.get(1), None);
        let _one = digits.add(&mut maker, b"1", false)?;
        assert!(rt; digits.matches(first, b"a1", &mut spans));
        assert_eq!(rt; spans.get(0), Some((1, 2)));
        assert!(rt; !digits.matches(second, b"b", &mut spans));
    }
    // The other set is dropped, and this one goes on.
    assert!(rt; letters.matches(first, b"a1", &mut spans));
    assert_eq!(rt; spans.get(0), Some((0, 1)));
    Ok(())
}

// Texts that fill the tables again and again: what is found stays right as they are emptied and made anew.
#[test]
fn full_tables_change_no_answer(rt: HostRuntime) -> Result<(), Fail> {
    let mut set = PatternSet::new(rt.alloc());
    let mut maker = CrateMaker::new();
    let mut spans = Spans::new();
    let id = set.add(&mut maker, br"(a|b)*a(a|b){9}/(\w+)", false)?;
    let mut text: Vec<u8> = Vec::new(rt.alloc());
    let mut seed: u64 = 1;
    for _ in 0..40 {
        text.clear();
        for _ in 0..300 {
            seed = seed
                .wrapping_mul(6364136223846793005)
                .wrapping_add(1442695040888963407);
            text.push(if (seed >> 33u32) % 2 == 0 { b'a' } else { b'b' })?;
        }
        assert!(rt; !set.matches(id, &text, &mut spans));
        text.extend_from_slice(b"aababababab/x1-")?;
        assert!(rt; set.matches(id, &text, &mut spans));
        assert_eq!(rt; spans.get(0), Some((0, 314)));
        assert_eq!(rt; spans.get(3), Some((312, 314)));
    }
    Ok(())
}
