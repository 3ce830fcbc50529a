use byte_text::ByteQueue;
use outgoing::Outgoing;
use std::mem::replace;
use std::process::Abort;
use std::test::Fail;

const HEAD: &[u8] = b"HTTP/1.1 200 OK\r\n\r\n";

/// The bytes of a body, in which no two blocks are the same.
fn body(rt: &HostRuntime, count: usize) -> Result<Vec<u8>, Fail> {
    let mut bytes = Vec::with_capacity(rt.alloc(), count)?;
    for at in 0..count {
        bytes.push((at % 251) as u8)?;
    }
    Ok(bytes)
}

/// The peer takes half of what is pending.
fn write_half(outgoing: &mut Outgoing, text: &mut Vec<u8>) -> Result<(), Fail> {
    let half = outgoing.pending().len() / 2;
    text.extend_from_slice(&outgoing.pending()[..half])?;
    outgoing.used(half);
    Ok(())
}

/// Puts a piece of a body, part by part: the peer takes some after each.
fn put_piece(outgoing: &mut Outgoing, piece: &[u8], text: &mut Vec<u8>) -> Result<(), Fail> {
    let mut rest = piece;
    for _ in 0..4 {
        let count = outgoing.put(rest);
        rest = &rest[count..];
        write_half(outgoing, text)?;
    }
    Ok(())
}

/// The response with this body, which comes in pieces of `size` bytes and a last one that is taken whole. `room` is where the room of
/// one response is kept for the next.
fn response(
    rt: &HostRuntime,
    chunked: bool,
    body: &[u8],
    sizes: &[usize],
    room: &mut Vec<u8>,
) -> Result<Vec<u8>, Fail> {
    let kept = replace(room, Vec::new(rt.alloc()));
    let mut outgoing = Outgoing::new(rt.alloc(), HEAD, chunked, kept)?;
    let mut text = Vec::new(rt.alloc());
    let mut rest = body;
    for size in sizes {
        let (piece, others) = rest.split_at((*size).min(rest.len()));
        put_piece(&mut outgoing, piece, &mut text)?;
        rest = others;
    }
    outgoing.put_all(rest)?;
    let mut queue = ByteQueue::new(rt.alloc());
    outgoing.finish(&mut queue, room)?;
    text.extend_from_slice(queue.front())?;
    Ok(text)
}

/// The head and the body in chunks of 4096 bytes, the last of which has 880.
fn chunks(rt: &HostRuntime, body: &[u8]) -> Result<Vec<u8>, Fail> {
    let mut text = HEAD.to_vec(rt.alloc())?;
    for block in body.chunks(4096) {
        let size = if block.len() == 4096 {
            b"1000\r\n".as_slice()
        } else {
            b"370\r\n".as_slice()
        };
        text.extend_from_slice(size)?;
        text.extend_from_slice(block)?;
        text.extend_from_slice(b"\r\n")?;
    }
    text.extend_from_slice(b"0\r\n\r\n")?;
    Ok(text)
}

// RFC 9112, section 7.1.
#[test]
fn bodies_leave_in_pieces(rt: HostRuntime) -> Result<(), Fail> {
    let body = body(&rt, 38 * 4096 + 880)?;
    let sizes = [1, 4095, 4096, 70000, 0, 17];
    let mut room = Vec::new(rt.alloc());
    let framed = response(&rt, true, body.as_slice(), sizes.as_slice(), &mut room)?;
    assert!(rt; framed.as_slice() == chunks(&rt, body.as_slice())?.as_slice());
    let plain = response(&rt, false, body.as_slice(), sizes.as_slice(), &mut room)?;
    assert!(rt; plain.starts_with(HEAD));
    assert!(rt; plain.ends_with(body.as_slice()));
    assert_eq!(rt; plain.len(), HEAD.len() + body.len());
    Ok(())
}

#[test]
fn the_next_response_has_the_room_of_the_last(rt: HostRuntime) -> Result<(), Fail> {
    let body = body(&rt, 5000)?;
    let sizes = [100, 4000];
    let mut room = Vec::new(rt.alloc());
    let first = response(&rt, true, body.as_slice(), sizes.as_slice(), &mut room)?;
    assert!(rt; room.capacity() >= 65536);
    let second = response(&rt, true, body.as_slice(), sizes.as_slice(), &mut room)?;
    assert!(rt; room.capacity() >= 65536);
    assert!(rt; first.as_slice() == second.as_slice());
    Ok(())
}

#[test]
fn no_more_is_pending_than_there_is_room_for(rt: HostRuntime) -> Result<(), Fail> {
    let body = body(&rt, 70000)?;
    let mut plain = Outgoing::new(rt.alloc(), HEAD, false, Vec::new(rt.alloc()))?;
    assert_eq!(rt; plain.put(body.as_slice()), 65536 - HEAD.len());
    assert_eq!(rt; plain.put(b"x"), 0);
    plain.used(10.min(plain.pending().len()));
    assert_eq!(rt; plain.put(body.as_slice()), 10);
    plain.put_all(body.as_slice())?;
    assert_eq!(rt; plain.pending().len(), 65536 + 70000);
    assert_eq!(rt; plain.put(b"x"), 0);
    let mut framed = Outgoing::new(rt.alloc(), HEAD, true, Vec::new(rt.alloc()))?;
    assert_eq!(rt; framed.put(body.as_slice()), 15 * 4096 + 4095);
    assert_eq!(rt; framed.pending().len(), HEAD.len() + 15 * 4104);
    let room = Vec::new(rt.alloc());
    assert!(rt; Outgoing::new(rt.alloc(), body.as_slice(), true, room).is_err());
    Ok(())
}
