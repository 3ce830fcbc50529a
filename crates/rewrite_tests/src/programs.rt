//! What programs come to, run and resumed.
use crate::samples::{
    THERE, is_set, matches, on_file, outcome, returns, rewrites, set, text, when,
};
use byte_text::ByteText;
use site_model::{Flag, RewriteStep};
use std::alloc::Global;
use std::test::Fail;

/// A program of one `rewrite`, and then `return 200`.
fn rewritten(alloc: Global, to: &[u8], is_url: bool, flag: Flag) -> Result<ByteText, Fail> {
    let mut steps = Vec::new(alloc);
    steps.push(rewrites(alloc, 0, to, is_url, flag)?)?;
    steps.push(returns(alloc, 200, b"$uri?$args")?)?;
    outcome(alloc, steps)
}

#[test]
fn a_rewrite_follows_its_flag(rt: HostRuntime) -> Result<(), Fail> {
    let alloc = rt.alloc();
    let last = rewritten(alloc, b"/n?x=$1", false, Flag::Last)?;
    assert_eq!(rt; last.as_slice(), b"/n?x=z&y=2 seeks".as_slice());
    let breaks = rewritten(alloc, b"/n?x=$1?", false, Flag::Break)?;
    assert_eq!(rt; breaks.as_slice(), b"/n?x=z".as_slice());
    let goes = rewritten(alloc, b"/$1$2", false, Flag::NoFlag)?;
    assert_eq!(rt; goes.as_slice(), b"200 /z?y=2".as_slice());
    let moved = rewritten(alloc, b"/n", false, Flag::Permanent)?;
    assert_eq!(rt; moved.as_slice(), b"301 /n?y=2".as_slice());
    let url = rewritten(alloc, b"http://b/$1", true, Flag::Last)?;
    assert_eq!(rt; url.as_slice(), b"302 http://b/z?y=2".as_slice());
    let no_path = rewritten(alloc, b"n", false, Flag::Last)?;
    assert_eq!(rt; no_path.as_slice(), b"failed".as_slice());
    Ok(())
}

/// `if (-f path) { return 503 yes; } return 200 no;`, or with `!-f`.
fn tested(alloc: Global, path: &[u8], negated: bool) -> Result<ByteText, Fail> {
    let mut steps = Vec::new(alloc);
    steps.push(when(on_file(alloc, path)?, negated, 1))?;
    steps.push(returns(alloc, 503, b"yes")?)?;
    steps.push(returns(alloc, 200, b"no")?)?;
    outcome(alloc, steps)
}

#[test]
fn a_file_test_is_asked_and_told(rt: HostRuntime) -> Result<(), Fail> {
    let alloc = rt.alloc();
    assert_eq!(rt;
        tested(alloc, THERE, false)?.as_slice(),
        b"503 yes".as_slice()
    );
    assert_eq!(rt;
        tested(alloc, THERE, true)?.as_slice(),
        b"200 no".as_slice()
    );
    assert_eq!(rt;
        tested(alloc, b"/w/no", false)?.as_slice(),
        b"200 no".as_slice()
    );
    assert_eq!(rt;
        tested(alloc, b"/w/../up", true)?.as_slice(),
        b"503 yes".as_slice()
    );
    Ok(())
}

/// `set $a` to `size` bytes, after another directive if `later`; and then a program that ends in an `if`.
fn long(alloc: Global, size: usize, later: bool) -> Result<ByteText, Fail> {
    let mut bytes = ByteText::new(alloc);
    for _ in 0..size {
        bytes.push(b'x')?;
    }
    let mut steps = Vec::new(alloc);
    steps.push(set(alloc, b"b", b"0")?)?;
    if later {
        steps.push(when(is_set(alloc, b"b")?, false, 1))?;
        steps.push(RewriteStep::Stop)?;
    }
    steps.push(set(alloc, b"a", bytes.as_slice())?)?;
    steps.push(when(is_set(alloc, b"a")?, false, 0))?;
    outcome(alloc, steps)
}

#[test]
fn a_text_may_have_so_many_bytes(rt: HostRuntime) -> Result<(), Fail> {
    let alloc = rt.alloc();
    assert_eq!(rt;
        long(alloc, 16384, false)?.as_slice(),
        b"/o/z?y=2".as_slice()
    );
    assert_eq!(rt;
        long(alloc, 16385, false)?.as_slice(),
        b"failed first".as_slice()
    );
    assert_eq!(rt; long(alloc, 16385, true)?.as_slice(), b"failed".as_slice());
    Ok(())
}

#[test]
fn groups_are_those_of_the_last_match(rt: HostRuntime) -> Result<(), Fail> {
    let alloc = rt.alloc();
    let mut steps = Vec::new(alloc);
    steps.push(set(alloc, b"v", b"abcdefg")?)?;
    steps.push(when(matches(alloc, b"v", 1)?, false, 0))?;
    steps.push(when(matches(alloc, b"none", 1)?, true, 1))?;
    steps.push(returns(alloc, 200, b"$1-$2$3$4$5$6$7$8-$9")?)?;
    assert_eq!(rt;
        outcome(alloc, steps)?.as_slice(),
        b"200 -abcdefg-".as_slice()
    );
    Ok(())
}

#[test]
fn a_thousand_variables_are_set(rt: HostRuntime) -> Result<(), Fail> {
    let alloc = rt.alloc();
    let mut steps = Vec::new(alloc);
    for number in 0..1000u32 {
        let name = format!(in alloc; "v{number}")?;
        steps.push(set(alloc, name.as_bytes(), name.as_bytes())?)?;
    }
    steps.push(returns(alloc, 200, b"$v0 $v999 $v1000")?)?;
    assert_eq!(rt;
        outcome(alloc, steps)?.as_slice(),
        text(alloc, b"200 v0 v999 ")?.as_slice()
    );
    Ok(())
}
