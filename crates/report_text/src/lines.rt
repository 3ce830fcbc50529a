// The lines of a report.
ghost use Rattle.std.specs.Prelude.{◌≡◌, ◌++◌, OnOk, map};
ghost use Rattle.report_text.specs.Lines.{ended, lines_text};
ghost use Rattle.report_text.specs.Report.{report_of, conn_line, log_line, sent_line, sent_word};

use crate::ConnReport;
use crate::escapes::put_escaped;
use crate::words::{next_word, put_cause, put_logged, put_number, put_word, state_word};
use byte_text::{ByteText, OutOfMemory};
use ngx_outside::Entry;

/// `conn 1 idle keep -`
#[tactic(auto, unfolding(crate::specs::Report::conn_line, crate::specs::Lines::ended))]
pub fn put_conn_line(report: &ConnReport<'_>, out: &mut ByteText) -> Result<(), OutOfMemory>
    ensures { OnOk result (out.new ≡ out.old ++ ended (conn_line (report_of report.now))) }
{
    out.extend(b"conn")?;
    put_number(u64::from(report.conn), out)?;
    put_word(state_word(report.state), out)?;
    put_word(next_word(report.closes), out)?;
    put_cause(report.cause, out)?;
    out.push(b'\n')?;
    Ok(())
}

/// `log 0 0 200 2`
#[tactic(auto, unfolding(crate::specs::Report::log_line, crate::specs::Lines::ended))]
fn put_log_line(entry: &Entry, out: &mut ByteText) -> Result<(), OutOfMemory>
    ensures { OnOk result (out.new ≡ out.old ++ ended (log_line entry.now)) }
{
    out.extend(b"log")?;
    put_number(entry.moment, out)?;
    put_number(entry.tree, out)?;
    put_logged(entry.log, out)?;
    out.push(b'\n')?;
    Ok(())
}

pub fn put_log_lines(journal: &[Entry], out: &mut ByteText) -> Result<(), OutOfMemory>
    ensures { OnOk result (out.new ≡ out.old ++ lines_text (map log_line journal.now)) }
{
    for entry in journal {
        put_log_line(entry, out)?;
    }
    Ok(())
}

#[tactic(auto, unfolding(crate::specs::Report::sent_word))]
fn put_sent_word(sent: &[u8], out: &mut ByteText) -> Result<(), OutOfMemory>
    ensures { OnOk result (out.new ≡ out.old ++ sent_word sent.now) }
{
    match sent {
        [] => {
            out.push(b'-')?;
            Ok(())
        }
        [_, ..] => put_escaped(sent, out),
    }
}

/// `sent hello`
#[tactic(auto, unfolding(crate::specs::Report::sent_line, crate::specs::Lines::ended))]
pub fn put_sent_line(sent: &[u8], out: &mut ByteText) -> Result<(), OutOfMemory>
    ensures { OnOk result (out.new ≡ out.old ++ ended (sent_line sent.now)) }
{
    out.extend(b"sent ")?;
    put_sent_word(sent, out)?;
    out.push(b'\n')?;
    Ok(())
}
