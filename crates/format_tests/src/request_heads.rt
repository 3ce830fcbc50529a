//! Heads from the RFCs and from nginx's documentation, and broken ones.

use http_types::{BodyKind, Method, Version};
use req_head::{Head, HeadStep, may_decide, read_head};
use std::alloc::Global;
use std::process::Abort;
use std::test::Fail;

/// What bytes decide: 0 for nothing, 1 for a head, or the code of a refusal.
fn decides(alloc: Global, bytes: &[u8]) -> Result<u16, Fail> {
    Ok(match read_head(alloc, bytes)? {
        HeadStep::More => 0,
        HeadStep::Head { .. } => 1,
        HeadStep::Bad { code, .. } => code,
    })
}

fn all_decide(rt: &impl Abort, alloc: Global, wanted: u16, cases: &[&[u8]]) -> Result<(), Fail> {
    for bytes in cases {
        assert_eq!(rt; decides(alloc, *bytes)?, wanted, "{bytes:?}");
    }
    Ok(())
}

#[test]
fn heads_are_told_from_others(rt: HostRuntime) -> Result<(), Fail> {
    let alloc = rt.alloc();
    all_decide(
        &rt,
        alloc,
        0,
        &[
            b"",
            b"\r\n\r\n",
            b"GET / HTTP/1.1\r\nHost: a\r\n",
            b"GET / HTTP/1.1\r\nFoo Bar",
            b"@@@ ",
        ],
    )?;
    all_decide(
        &rt,
        alloc,
        1,
        &[
            b"GET / HTTP/1.1\r\nHost: a\r\n\r\n",
            b"GET / HTTP/1.1\nHost: a\n\nrest",
            b"\r\n\nGET / HTTP/1.1\r\nHost:\r\n\r\n",
            b"GET / HTTP/1.0\r\n\r\n",
            b"M-SEARCH / HTTP/1.1\r\nHOST: a\r\n\r\n",
            b"GET / HTTP/1.1\r\nHost: a\r\nTransfer-Encoding: CHUNKED\r\n\r\n",
            b"GET / HTTP/1.1\r\nHost: a\r\nContent-Length: 9999999999999999999\r\n\r\n",
        ],
    )?;
    all_decide(
        &rt,
        alloc,
        400,
        &[
            b"@@@ \r\n",
            b"GET / HTTP/1.1\r\nFoo Bar\r\n",
            b"GET / HTTP/2.0\r\n",
            b"GET  / HTTP/1.1\r\n",
            b"GET / HTTP/1.1\r\n\r\n",
            b"GET / HTTP/1.1\r\nHost: a\r\nhost: b\r\n\r\n",
            b"GET / HTTP/1.0\r\nHost: a\r\nHost: a\r\n\r\n",
            b"GET / HTTP/1.1\r\nHost: a/b\r\n\r\n",
            b"GET / HTTP/1.1\r\nHost: a b\r\n\r\n",
            b"GET / HTTP/1.1\r\nHost : a\r\n\r\n",
            b"GET / HTTP/1.1\r\nHost: a\r\n b\r\n\r\n",
            b"GET / HTTP/1.1\r\nHost: a\rb\r\n\r\n",
            b"GET / HTTP/1.1\r\nHost: a\r\nX: \0\r\n\r\n",
            b"GET / HTTP/1.0\r\nTransfer-Encoding: chunked\r\n\r\n",
            b"GET / HTTP/1.1\r\nHost: a\r\nTransfer-Encoding: chunked\r\nContent-Length: 1\r\n\r\n",
            b"GET / HTTP/1.1\r\nHost: a\r\nContent-Length: 1\r\nContent-Length: 1\r\n\r\n",
            b"GET / HTTP/1.1\r\nHost: a\r\nContent-Length: +1\r\n\r\n",
            b"GET / HTTP/1.1\r\nHost: a\r\nContent-Length: 10000000000000000000\r\n\r\n",
            b"GET /../x HTTP/1.1\r\nHost: a\r\n\r\n",
            b"GET /a%2 HTTP/1.1\r\nHost: a\r\n\r\n",
        ],
    )?;
    all_decide(
        &rt,
        alloc,
        501,
        &[
            b"GET / HTTP/1.1\r\nHost: a\r\nTransfer-Encoding: gzip\r\n\r\n",
            b"GET / HTTP/1.1\r\nHost: a\r\nTransfer-Encoding: chunked\r\nTransfer-Encoding: chunked\r\n\r\n",
        ],
    )
}

fn head(alloc: Global, bytes: &[u8]) -> Result<Head, Fail> {
    match read_head(alloc, bytes)? {
        HeadStep::Head { head, .. } => Ok(head),
        _ => Err("no head")?,
    }
}

fn all_keep(rt: &impl Abort, alloc: Global, cases: &[(bool, &[u8])]) -> Result<(), Fail> {
    for (keeps, bytes) in cases {
        assert_eq!(rt; head(alloc, *bytes)?.keep, *keeps, "{bytes:?}");
    }
    Ok(())
}

#[test]
fn a_head_has_its_parts(rt: HostRuntime) -> Result<(), Fail> {
    let bytes =
        b"PUT /a?b HTTP/1.1\r\nHost: WWW.Example.org:8080\r\nContent-Length: 0012\r\nConnection: a, CLOSE\r\n\r\n";
    let found = head(rt.alloc(), bytes)?;
    assert_eq!(rt; found.target.as_slice(), b"/a?b".as_slice());
    assert_eq!(rt; found.host.as_slice(), b"www.example.org".as_slice());
    assert_eq!(rt; found.body, BodyKind::Length(12));
    assert_eq!(rt; found.version, Version::V11);
    assert!(rt; matches!(found.method, Method::Other(_)));
    assert!(rt; !found.keep);
    assert_eq!(rt;
        found.fields.first(b"content-LENGTH"),
        Some(b"0012".as_slice())
    );
    let mut values = found.fields.values(b"connection");
    assert_eq!(rt; values.next(), Some(b"a, CLOSE".as_slice()));
    assert!(rt; values.next().is_none());
    assert!(rt; found.fields.first(b"x-a").is_none());
    // RFC 9112, section 9.3: which connections persist.
    all_keep(
        &rt,
        rt.alloc(),
        &[
            (true, b"GET / HTTP/1.1\r\nHost: a\r\n\r\n"),
            (false, b"GET / HTTP/1.0\r\n\r\n"),
            (
                true,
                b"GET / HTTP/1.0\r\nConnection: x , Keep-Alive\t\r\n\r\n",
            ),
            (
                false,
                b"GET / HTTP/1.0\r\nConnection: keep-alive\r\nConnection: close\r\n\r\n",
            ),
            (
                true,
                b"GET / HTTP/1.1\r\nHost: a\r\nConnection: closed\r\n\r\n",
            ),
            (
                false,
                b"GET / HTTP/1.1\r\nHost: a\r\nExpect: 100-Continue\r\n\r\n",
            ),
        ],
    )
}

/// A text, and another `count` times.
fn repeated(alloc: Global, front: &[u8], more: &[u8], count: usize) -> Result<Vec<u8>, Fail> {
    let mut bytes = Vec::from_slice(alloc, front)?;
    for _ in 0..count {
        bytes.extend_from_slice(more)?;
    }
    Ok(bytes)
}

#[test]
fn fields_and_bytes_are_counted(rt: HostRuntime) -> Result<(), Fail> {
    let alloc = rt.alloc();
    let front = b"HEAD / HTTP/1.1\r\nHost: a\r\n";
    let mut bytes = repeated(alloc, front, b"A: b\r\n", 63)?;
    bytes.extend_from_slice(b"A: b\r")?;
    assert_eq!(rt; decides(alloc, &bytes)?, 0);
    bytes.extend_from_slice(b"\n")?;
    assert_eq!(rt; decides(alloc, &bytes)?, 400);
    bytes.extend_from_slice(b"\r\n")?;
    assert_eq!(rt; decides(alloc, &bytes)?, 400);
    let mut bytes = repeated(alloc, front, b"A: b\r\n", 63)?;
    bytes.extend_from_slice(b"\r\n")?;
    assert_eq!(rt; decides(alloc, &bytes)?, 1);
    let mut bytes = repeated(alloc, b"GET / HTTP/1.1\r\nX: ", b"x", 8172)?;
    assert_eq!(rt; bytes.len(), 8191);
    assert_eq!(rt; decides(alloc, &bytes)?, 0);
    assert!(rt; !may_decide(&bytes, 20));
    bytes.push(b'x')?;
    assert_eq!(rt; bytes.len(), 8192);
    assert_eq!(rt; decides(alloc, &bytes)?, 400);
    assert!(rt; may_decide(&bytes, 8192));
    Ok(())
}
