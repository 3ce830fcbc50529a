// The bytes that a connection holds.
ghost use Rattle.std.specs.Prelude.{◌≡◌, ◌≤◌, ◌<◌, ◌+◌, ◌-◌, ◌++◌, true, false, length, take, drop, OnOk};
ghost use Rattle.req_head.specs.Step.{head_step};
ghost use Rattle.http_connection.specs.Steps.{begins as head_begins};

use crate::slot::{put, take};
use byte_text::{ByteQueue, OutOfMemory};
use req_head::{Head, HeadRoom, HeadStep, head_stays, may_decide, read_head_in, refusal_stays};

pub(crate) fn begins(next: &HeadStep) -> bool
    ensures { result ≡ head_begins next.now }
{
    match next {
        HeadStep::Head { .. } => true,
        HeadStep::Bad { .. } => true,
        HeadStep::More => false,
    }
}

// Bytes arrive after those that are buffered; what they begin is looked at anew where that may have changed, in the room of a head
// that is over.
pub(crate) fn take_in(
    room: &mut HeadRoom,
    buffered: &mut ByteQueue,
    next: &mut HeadStep,
    bytes: &[u8],
) -> Result<(), OutOfMemory>
    requires { next.old ≡ head_step buffered.old }
    ensures buffered { OnOk result (buffered.new ≡ buffered.old ++ bytes.now) }
    ensures next { OnOk result (next.new ≡ head_step buffered.new) }
{
    head_stays();
    refusal_stays();
    let known = buffered.len();
    buffered.append(bytes)?;
    if begins(next) {
        return Ok(());
    }
    if may_decide(buffered.front(), known) {
        put(next, read_head_in(room, buffered.front())?);
    }
    Ok(())
}

pub(crate) fn first_bytes(bytes: &[u8], count: usize) -> &[u8]
    requires { count ≤ length bytes.now }
    ensures { result.now ≡ take count bytes.now }
{
    &bytes[..count]
}

pub(crate) fn last_bytes(bytes: &[u8], count: usize) -> &[u8]
    requires { count ≤ length bytes.now }
    ensures { result.now ≡ drop count bytes.now }
{
    &bytes[count..]
}

// The bytes after the first ones.
pub(crate) fn behind(buffered: &ByteQueue, size: usize) -> &[u8]
    requires { size ≤ length buffered.now }
    ensures { result.now ≡ drop size buffered.now }
{
    &buffered.front()[size..]
}
