//! Targets: what they name is in rows (`proofs/Rows.antt`); these run the code.

use byte_text::ByteText;
use std::alloc::Global;
use std::process::Abort;
use std::test::Fail;
use uri_text::{UriFault, absolute_form, escaped, is_target, normal};

/// Each target names this path and these arguments, adjacent slashes being merged.
fn all_name(rt: &impl Abort, alloc: Global, cases: &[(&str, &str, &str)]) -> Result<(), Fail> {
    let mut path = ByteText::new(alloc);
    let mut args = ByteText::new(alloc);
    for (raw, want, want_args) in cases {
        normal(raw.as_bytes(), true, &mut path, &mut args)?;
        assert_eq!(rt; path.as_slice(), want.as_bytes(), "path of {raw}");
        assert_eq!(rt; args.as_slice(), want_args.as_bytes(), "arguments of {raw}");
        assert!(rt; is_target(raw.as_bytes(), true), "{raw}");
    }
    Ok(())
}

fn is_faulty(rt: &impl Abort, alloc: Global, raw: &[u8], fault: UriFault) {
    let mut path = ByteText::new(alloc);
    let mut args = ByteText::new(alloc);
    assert_eq!(rt; normal(raw, true, &mut path, &mut args), Err(fault));
    assert!(rt; !is_target(raw, true));
}

#[test]
fn targets_are_read_and_paths_are_escaped(rt: HostRuntime) -> Result<(), Fail> {
    all_name(
        &rt,
        rt.alloc(),
        &[
            ("/a//b/../c%20d", "/a/c d", ""),
            ("/a%3fb?c%20=?d/../#e?f", "/a?b", "c%20=?d/../"),
            ("http://h/a/./b#c", "/a/b", ""),
        ],
    )?;
    is_faulty(&rt, rt.alloc(), b"/a%2", UriFault::BadEscape);
    is_faulty(&rt, rt.alloc(), b"/../x", UriFault::AboveRoot);
    // RFC 3986, section 2.1: upper-case digits.
    let mut text = ByteText::from_slice(rt.alloc(), b"http://a")?;
    escaped("/a b/\"#%<>?\u{E9}\u{7F}/~;&".as_bytes(), &mut text)?;
    let want = "http://a/a%20b/%22%23%25%3C%3E%3F%C3%A9%7F/~;&";
    assert_eq!(rt; text.as_slice(), want.as_bytes());
    let form = absolute_form(b"http://[::1]:80?x#y").ok_or("a host")?;
    assert_eq!(rt; form.host, b"[::1]:80".as_slice());
    assert_eq!(rt; form.rest, b"?x#y".as_slice());
    Ok(())
}
