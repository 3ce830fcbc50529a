//! Heads, dates and error pages. The phrases of statuses are in rows (`proofs/Rows.antt`).

use byte_text::{ByteText, OutOfMemory};
use error_page::{page_len, page_text};
use http_moment::{
    DEFAULT_FORMAT, DateCache, LAST_SECOND, date_text, is_time_format, read_date, shown,
};
use resp_head::{HeadWriter, ReplyHead, head_text, page_phrase, phrase};
use std::alloc::Global;
use std::process::Abort;
use std::test::Fail;

/// How much a head says.
#[derive(Clone, Copy)]
enum Shape {
    /// Nothing but its status, at the beginning of 1970.
    Bare,
    /// That its body is chunked too.
    Chunked,
    /// All that a head can say.
    Full,
}

fn bare(status: u16, chunked: bool) -> ReplyHead {
    ReplyHead {
        status,
        moment: 0,
        kind: None,
        length: None,
        modified: None,
        location: None,
        chunked,
        keep: true,
    }
}

fn full(alloc: Global, status: u16) -> Result<ReplyHead, OutOfMemory> {
    let mut head = bare(status, true);
    head.kind = Some(ByteText::from_slice(alloc, b"text/\nhtml")?);
    head.length = Some(154);
    head.modified = Some(784111777);
    head.location = Some(ByteText::from_slice(alloc, b"/a b\r\nX: \xc3\xa9%20\x7f")?);
    head.keep = false;
    Ok(head)
}

fn head_of(alloc: Global, status: u16, shape: Shape) -> Result<ReplyHead, OutOfMemory> {
    match shape {
        Shape::Bare => Ok(bare(status, false)),
        Shape::Chunked => Ok(bare(status, true)),
        Shape::Full => full(alloc, status),
    }
}

/// Each head has this text, written alone and after others.
fn all_have_texts(
    rt: &impl Abort,
    alloc: Global,
    cases: &[(u16, Shape, &[u8])],
) -> Result<(), Fail> {
    let mut writer = HeadWriter::new(alloc);
    let mut out = ByteText::new(alloc);
    for (status, shape, text) in cases {
        let head = head_of(alloc, *status, *shape)?;
        out.clear();
        head_text(&head, &mut out)?;
        assert_eq!(rt; out.as_slice(), *text);
        assert_eq!(rt; writer.text(&head)?, *text);
    }
    Ok(())
}

#[test]
fn heads_are_those_of_nginx(rt: HostRuntime) -> Result<(), Fail> {
    all_have_texts(
        &rt,
        rt.alloc(),
        &[
            (
                204,
                Shape::Bare,
                b"HTTP/1.1 204 No Content\r\nServer: nginx\r\nDate: Thu, 01 Jan 1970 00:00:00 GMT\r\nConnection: keep-alive\r\n\r\n",
            ),
            (
                599,
                Shape::Chunked,
                b"HTTP/1.1 599 \r\nServer: nginx\r\nDate: Thu, 01 Jan 1970 00:00:00 GMT\r\nTransfer-Encoding: chunked\r\nConnection: keep-alive\r\n\r\n",
            ),
            (
                301,
                Shape::Full,
                b"HTTP/1.1 301 Moved Permanently\r\nServer: nginx\r\nDate: Thu, 01 Jan 1970 00:00:00 GMT\r\nContent-Type: text/ html\r\nContent-Length: 154\r\nLast-Modified: Sun, 06 Nov 1994 08:49:37 GMT\r\nLocation: /a%20b%0D%0AX:%20%C3%A9%20%7F\r\nConnection: close\r\n\r\n",
            ),
            (
                304,
                Shape::Full,
                b"HTTP/1.1 304 Not Modified\r\nServer: nginx\r\nDate: Thu, 01 Jan 1970 00:00:00 GMT\r\nLast-Modified: Sun, 06 Nov 1994 08:49:37 GMT\r\nLocation: /a%20b%0D%0AX:%20%C3%A9%20%7F\r\nConnection: close\r\n\r\n",
            ),
        ],
    )
}

fn all_have_lengths(rt: &impl Abort, cases: &[(u16, u64)]) {
    for (status, len) in cases {
        assert_eq!(rt; page_len(*status), *len);
    }
}

#[test]
fn pages_are_those_of_nginx(rt: HostRuntime) -> Result<(), Fail> {
    let mut page = ByteText::new(rt.alloc());
    page_text(404, &mut page)?;
    let missing =
        b"<html>\r\n<head><title>404 Not Found</title></head>\r\n<body>\r\n<center><h1>404 Not Found</h1></center>\r\n<hr><center>nginx</center>\r\n</body>\r\n</html>\r\n";
    assert_eq!(rt; page.as_slice(), missing.as_slice());
    // The lengths that nginx gives for its pages.
    all_have_lengths(&rt, &[(404, 146), (302, 138), (401, 172), (599, 128)]);
    assert_eq!(rt; phrase(302), b"Moved Temporarily".as_slice());
    assert_eq!(rt; page_phrase(302), b"Found".as_slice());
    Ok(())
}

/// Each second has this date, and is read from it.
fn all_are_dates(rt: &impl Abort, cases: &[(u64, &[u8])]) {
    let mut cache = DateCache::new(0);
    for (secs, text) in cases {
        assert!(rt; date_text(*secs).as_slice() == *text);
        assert!(rt; cache.date_text(*secs).as_slice() == *text);
        assert_eq!(rt; read_date(*text), Some(*secs));
    }
}

fn are_no_dates(rt: &impl Abort, texts: &[&[u8]]) {
    for text in texts {
        assert_eq!(rt; read_date(*text), None);
    }
}

#[test]
fn seconds_go_to_dates_and_back(rt: HostRuntime) {
    // What the C library's gmtime and strftime give.
    all_are_dates(
        &rt,
        &[
            (0, b"Thu, 01 Jan 1970 00:00:00 GMT"),
            (784111777, b"Sun, 06 Nov 1994 08:49:37 GMT"),
            (951868799, b"Tue, 29 Feb 2000 23:59:59 GMT"),
            (1709164800, b"Thu, 29 Feb 2024 00:00:00 GMT"),
            (4107542399, b"Sun, 28 Feb 2100 23:59:59 GMT"),
            (4107542400, b"Mon, 01 Mar 2100 00:00:00 GMT"),
            (LAST_SECOND, b"Fri, 31 Dec 9999 23:59:59 GMT"),
        ],
    );
    // RFC 9110, 5.6.7, and texts that are no dates.
    assert_eq!(rt;
        read_date(b"Sunday, 06-Nov-94 08:49:37 GMT"),
        Some(784111777)
    );
    assert_eq!(rt; read_date(b"Sun Nov  6 08:49:37 1994"), Some(784111777));
    are_no_dates(
        &rt,
        &[
            b"Mon, 06 Nov 1994 08:49:37 GMT",
            b" Sun, 06 Nov 1994 08:49:37 GMT",
            b"Thu, 29 Feb 2100 00:00:00 GMT",
            b"",
        ],
    );
}

/// Each format shows this text at the second, or none where it is no format.
fn all_show(
    rt: &impl Abort,
    alloc: Global,
    cases: &[(&[u8], u64, bool, &[u8])],
) -> Result<(), Fail> {
    let mut out = ByteText::new(alloc);
    for (format, secs, whole, text) in cases {
        out.clear();
        assert_eq!(rt; shown(*format, *secs, &mut out)?, *whole);
        assert_eq!(rt; is_time_format(*format), *whole);
        assert_eq!(rt; out.as_slice(), *text);
    }
    Ok(())
}

#[test]
fn formats_show_what_strftime_shows(rt: HostRuntime) -> Result<(), Fail> {
    let all = b"%a|%A|%b|%B|%d|%e|%H|%I|%j|%m|%M|%p|%S|%y|%Y|%Z|%z|%s|%%".as_slice();
    all_show(
        &rt,
        rt.alloc(),
        &[
            (
                all,
                0,
                true,
                b"Thu|Thursday|Jan|January|01| 1|00|12|001|01|00|AM|00|70|1970|GMT|+0000|0|%",
            ),
            (
                all,
                784111777,
                true,
                b"Sun|Sunday|Nov|November|06| 6|08|08|310|11|49|AM|37|94|1994|GMT|+0000|784111777|%",
            ),
            (
                all,
                951868799,
                true,
                b"Tue|Tuesday|Feb|February|29|29|23|11|060|02|59|PM|59|00|2000|GMT|+0000|951868799|%",
            ),
            (
                all,
                u64::MAX,
                true,
                b"Fri|Friday|Dec|December|31|31|23|11|365|12|59|PM|59|99|9999|GMT|+0000|253402300799|%",
            ),
            (b"%I %p", 43200, true, b"12 PM"),
            (
                DEFAULT_FORMAT,
                0,
                true,
                b"Thursday, 01-Jan-1970 00:00:00 GMT",
            ),
            (b"", 5, true, b""),
            (b"a%Y%Q%d", 0, false, b"a1970"),
            (b"a%Y%", 0, false, b"a1970"),
        ],
    )
}
