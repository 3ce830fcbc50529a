// A connection and the end of a run.
ghost use Rattle.std.specs.Prelude.{◌≡◌, ◌++◌, OnOk};
ghost use Rattle.report_text.specs.Report.{report_of, conn_text, refused_words, end_text};

use crate::escapes::escaped_len;
use crate::lines::{put_conn_line, put_log_lines, put_sent_line};
use crate::words::put_number;
use byte_text::{ByteText, OutOfMemory};
use ngx_outside::{Entry, StopCause};

/// What a connection does at the end of a run.
#[derive(Clone, Copy, Debug, PartialEq, Eq)]
pub enum ConnState {
    /// A cause has stopped it.
    Stopped,
    /// All that was asked for was sent.
    Idle,
    /// Something is still to be done.
    Busy,
}

/// What is told of a connection.
#[derive(Clone, Copy)]
pub struct ConnReport<'a> {
    /// Its number.
    pub conn: u32,
    pub state: ConnState,
    /// Whether its link is to be closed.
    pub closes: bool,
    /// Why it was stopped.
    pub cause: Option<StopCause>,
    /// The requests that were started, in their order.
    pub journal: &'a [Entry],
    /// The bytes that were written to its link.
    pub sent: &'a [u8],
}

/// The bytes of a line other than `sent`, at most.
const LINE_BYTES: usize = 80;

/// The most bytes that [`conn_text`] appends.
fn most_bytes(report: &ConnReport<'_>) -> usize {
    report
        .journal
        .len()
        .saturating_add(2)
        .saturating_mul(LINE_BYTES)
        .saturating_add(escaped_len(report.sent))
}

/// Appends the lines of a connection.
///
/// - `conn NUMBER STATE NEXT CAUSE`: STATE is `stopped`, `idle` or `busy`, NEXT is `close` or `keep`, and CAUSE is `-`
///   where there is none.
/// - `log MOMENT TREE STATUS LENGTH` for each request; the last two are `-` where it isn't over.
/// - `sent` and the bytes, or `-` where there are none. Each control byte, `%` and each byte from 0x7F on is `%` and
///   two upper-case hexadecimal digits.
///
/// Each line ends with LF. `out` grows once at most. After want of memory it holds some part of the text.
pub fn conn_text(report: &ConnReport<'_>, out: &mut ByteText) -> Result<(), OutOfMemory>
    ensures { OnOk result (out.new ≡ out.old ++ conn_text (report_of report.now)) }
{
    out.reserve(most_bytes(report))?;
    put_conn_line(report, out)?;
    put_log_lines(report.journal, out)?;
    put_sent_line(report.sent, out)?;
    Ok(())
}

/// Where lines were refused, how many.
#[tactic(auto, unfolding(crate::specs::Report::refused_words))]
fn put_refused(refused: u64, out: &mut ByteText) -> Result<(), OutOfMemory>
    ensures { OnOk result (out.new ≡ out.old ++ refused_words refused) }
{
    if refused == 0 {
        return Ok(());
    }
    out.extend(b" refused")?;
    put_number(refused, out)?;
    Ok(())
}

/// Appends the line at the end of a run: `skipped N` with how many lines of the script made no step, and then `refused
/// M` where M of them, one or more, were refused for want of memory. After want of memory `out` holds some part of the
/// line.
#[tactic(auto, unfolding(crate::specs::Report::end_text, crate::specs::Report::end_line, crate::specs::Lines::ended))]
pub fn end_text(skipped: u64, refused: u64, out: &mut ByteText) -> Result<(), OutOfMemory>
    ensures { OnOk result (out.new ≡ out.old ++ end_text skipped refused) }
{
    out.extend(b"skipped")?;
    put_number(skipped, out)?;
    put_refused(refused, out)?;
    out.push(b'\n')?;
    Ok(())
}
