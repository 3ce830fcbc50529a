use body_frame::{BodyState, BodyStep};
use chunk_out::ChunkState;
use http_types::BodyKind;
use std::process::Abort;
use std::test::Fail;

/// The bytes that a body used of this text, which comes in pieces of `size` bytes, and the last step.
fn in_pieces(kind: BodyKind, text: &[u8], size: usize) -> (usize, BodyStep) {
    let mut state = BodyState::new(kind);
    let mut used: usize = 0;
    let mut step = BodyStep::More;
    for piece in text.chunks(size.max(1)) {
        let (count, told) = state.take(piece);
        used = used.saturating_add(count);
        step = told;
    }
    (used, step)
}

/// Each text uses this many bytes and ends with this step, in whatever pieces it comes.
fn all_end(rt: &impl Abort, kind: BodyKind, cases: &[(&[u8], usize, BodyStep)]) {
    for (text, used, step) in cases {
        for size in [1, 3, 100] {
            assert_eq!(rt; in_pieces(kind, *text, size), (*used, *step), "{text:?}");
        }
    }
}

// RFC 9112, sections 6.2 and 7.1.
#[test]
fn bodies_end_where_the_grammar_ends_them(rt: HostRuntime) {
    use BodyStep::{Broken, Ended, More};
    all_end(&rt, BodyKind::Empty, &[(b"GET", 0, Ended)]);
    all_end(
        &rt,
        BodyKind::Length(5),
        &[
            (b"hell", 4, More),
            (b"hello", 5, Ended),
            (b"hello GET", 5, Ended),
        ],
    );
    all_end(
        &rt,
        BodyKind::Chunked,
        &[
            (b"0\r\n\r\n", 5, Ended),
            (b"0\r\n\r\nGET / HTTP/1.1\r\n", 5, Ended),
            (
                b"4\r\nWiki\r\n7\r\npedia i\r\nB\r\nn \r\nchunks.\r\n0\r\n\r\n",
                42,
                Ended,
            ),
            (
                b"5;a=\"b;c\"\r\nhello\r\n00;\r\nX: y\r\nZ\r\n\r\n.",
                34,
                Ended,
            ),
            (b"5 \t ;x\r\nhello\r\n0\r\n\r\n", 20, Ended),
            (b"00000000000000005\r\nhello\r\n0\r\n\r\n", 31, Ended),
            (b"7fffffffffffffff\r\nx", 19, More),
            (b"8000000000000000", 16, Broken),
            (b"5", 1, More),
            (b"5;", 2, More),
            (b"5\r", 2, More),
            (b"5 ", 2, More),
            (b"5 \r\nhello\r\n", 11, Broken),
            (b"5\nhello\r\n", 9, Broken),
            (b"5\rhello\r\n", 9, Broken),
            (b"5;x\nhello\r\n", 11, Broken),
            (b"0x5\r\n", 5, Broken),
            (b"-5\r\n", 4, Broken),
            (b" 5\r\n", 4, Broken),
            (b"\r\n", 2, Broken),
            (b";\r\n", 3, Broken),
            (b"5\r\nhello0\r\n", 11, Broken),
            (b"5\r\nhello\n0\r\n", 12, Broken),
            (b"0\r\nX: y\n\r\n", 10, Broken),
            (b"0\r\nX: y\r \r\n", 11, Broken),
            (b"0\r\nX: y\r\n", 9, More),
            (b"0\r\n\n", 4, Broken),
            (b"0\r\n\r\r", 5, Broken),
        ],
    );
}

/// A text, `count` bytes `e`, and a text.
fn padded(rt: &HostRuntime, front: &[u8], count: usize, back: &[u8]) -> Result<Vec<u8>, Fail> {
    let mut text = front.to_vec(rt.alloc())?;
    text.extend_from_slice(vec![in rt.alloc(); b'e'; count]?.as_slice())?;
    text.extend_from_slice(back)?;
    Ok(text)
}

#[test]
fn lines_have_limits(rt: HostRuntime) -> Result<(), Fail> {
    let cases: [(&[u8], usize, &[u8], usize, BodyStep); 4] = [
        (b"1;", 4094, b"\r\nx\r\n0\r\n\r\n", 4106, BodyStep::Ended),
        (b"1;", 4095, b"\r\nx\r\n0\r\n\r\n", 4107, BodyStep::Broken),
        (b"0\r\nX:", 8188, b"\r\n\r\n", 8197, BodyStep::Ended),
        (b"0\r\nX:", 8189, b"\r\n\r\n", 8198, BodyStep::Broken),
    ];
    for (front, count, back, used, step) in &cases {
        let text = padded(&rt, *front, *count, *back)?;
        assert_eq!(rt;
            in_pieces(BodyKind::Chunked, text.as_slice(), 1000),
            (*used, *step)
        );
    }
    Ok(())
}

/// An output with so much room.
fn output(rt: &HostRuntime, room: usize) -> Result<Vec<u8>, Fail> {
    Ok(Vec::with_capacity(rt.alloc(), room)?)
}

#[test]
fn written_bodies_become_chunks(rt: HostRuntime) -> Result<(), Fail> {
    let mut state = ChunkState::new(rt.alloc())?;
    let mut out = output(&rt, 4107)?;
    assert_eq!(rt; state.feed(b"Wiki", &mut out), 4);
    assert_eq!(rt; state.feed(b"pedia in chunks.", &mut out), 16);
    assert!(rt; !state.is_empty());
    assert!(rt; out.is_empty());
    assert!(rt; out.capacity() >= 4107);
    state.end(&mut out);
    assert_eq!(rt;
        out.as_slice(),
        b"14\r\nWikipedia in chunks.\r\n0\r\n\r\n".as_slice()
    );
    Ok(())
}

#[test]
fn blocks_wait_for_room(rt: HostRuntime) -> Result<(), Fail> {
    let mut state = ChunkState::new(rt.alloc())?;
    let bytes = vec![in rt.alloc(); b'x'; 5000]?;
    let mut small = output(&rt, 4103)?;
    assert_eq!(rt; state.feed(bytes.as_slice(), &mut small), 4095);
    assert_eq!(rt; state.feed(b"x", &mut small), 0);
    assert!(rt; small.is_empty());
    let mut out = output(&rt, 4104)?;
    assert_eq!(rt; state.feed(bytes.as_slice(), &mut out), 4096);
    assert_eq!(rt; out.len(), 4104);
    assert!(rt; out.starts_with(b"1000\r\nxxx"));
    assert!(rt; out.ends_with(b"xxx\r\n"));
    Ok(())
}
