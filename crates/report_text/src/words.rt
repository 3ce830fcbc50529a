// The words of a line.
ghost use Rattle.std.specs.Prelude.{◌≡◌, ◌++◌, OnOk, decimal};
ghost use Rattle.report_text.specs.Report.{spaced, state_word, next_word, cause_text, cause_or_dash, logged};

use crate::ConnState;
use byte_text::{ByteText, OutOfMemory};
use itoa::Buffer;
use ngx_outside::StopCause;

/// A space and a word.
#[tactic(auto, unfolding(crate::specs::Report::spaced))]
pub fn put_word(word: &[u8], out: &mut ByteText) -> Result<(), OutOfMemory>
    ensures { OnOk result (out.new ≡ out.old ++ spaced word.now) }
{
    out.push(b' ')?;
    out.extend(word)?;
    Ok(())
}

/// A space and a number in decimals.
pub fn put_number(number: u64, out: &mut ByteText) -> Result<(), OutOfMemory>
    ensures { OnOk result (out.new ≡ out.old ++ spaced (decimal number)) }
{
    put_word(Buffer::new().format(number).as_bytes(), out)?;
    Ok(())
}

#[tactic(auto, unfolding(crate::specs::Report::state_word))]
pub fn state_word(state: ConnState) -> &'static [u8]
    ensures { result.now ≡ state_word state }
{
    match state {
        ConnState::Stopped => b"stopped",
        ConnState::Idle => b"idle",
        ConnState::Busy => b"busy",
    }
}

#[tactic(auto, unfolding(crate::specs::Report::next_word))]
pub fn next_word(closes: bool) -> &'static [u8]
    ensures { result.now ≡ next_word closes }
{
    if closes { b"close" } else { b"keep" }
}

/// A space and a cause with its numbers.
#[tactic(auto, unfolding(crate::specs::Report::cause_text))]
fn put_cause_text(cause: StopCause, out: &mut ByteText) -> Result<(), OutOfMemory>
    ensures { OnOk result (out.new ≡ out.old ++ cause_text cause) }
{
    match cause {
        StopCause::LinkFault => put_word(b"LinkFault", out),
        StopCause::FileFault => put_word(b"FileFault", out),
        StopCause::Memory => put_word(b"Memory", out),
        StopCause::SubLimit { started } => {
            put_word(b"SubLimit", out)?;
            put_number(started, out)?;
            Ok(())
        }
        StopCause::Deadline { due, now } => {
            put_word(b"Deadline", out)?;
            put_number(due, out)?;
            put_number(now, out)?;
            Ok(())
        }
    }
}

#[tactic(auto, unfolding(crate::specs::Report::cause_or_dash))]
pub fn put_cause(cause: Option<StopCause>, out: &mut ByteText) -> Result<(), OutOfMemory>
    ensures { OnOk result (out.new ≡ out.old ++ cause_or_dash cause) }
{
    match cause {
        None => put_word(b"-", out),
        Some(cause) => put_cause_text(cause, out),
    }
}

/// The status and the length of a response that is over.
#[tactic(auto, unfolding(crate::specs::Report::logged))]
pub fn put_logged(log: Option<(u16, u64)>, out: &mut ByteText) -> Result<(), OutOfMemory>
    ensures { OnOk result (out.new ≡ out.old ++ logged log) }
{
    match log {
        None => {
            out.extend(b" - -")?;
            Ok(())
        }
        Some((status, length)) => {
            put_number(u64::from(status), out)?;
            put_number(length, out)?;
            Ok(())
        }
    }
}
