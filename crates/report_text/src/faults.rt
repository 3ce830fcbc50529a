// Faults of scripts and of configurations.
ghost use Rattle.std.specs.Prelude.{◌≡◌, ◌++◌, OnOk};
ghost use Rattle.report_text.specs.Lines.{ended};
ghost use Rattle.report_text.specs.Faults.{script_fault_line, conf_fault_line, place_text, subject_text};

use crate::escapes::put_escaped;
use crate::kinds::{conf_kind_text, script_kind_text};
use crate::words::{put_number, put_word};
use byte_text::{ByteText, OutOfMemory};
use conf_text::ConfFault;
use itoa::Buffer;
use replay_text::ScriptFault;

/// Appends the line of a script's fault: `script N KIND LINE`, with the number and the name of its kind. After want of
/// memory `out` holds some part of the line.
#[tactic(auto, unfolding(crate::specs::Faults::script_fault_line, crate::specs::Lines::ended))]
pub fn script_fault_text(fault: ScriptFault, out: &mut ByteText) -> Result<(), OutOfMemory>
    ensures { OnOk result (out.new ≡ out.old ++ ended (script_fault_line fault)) }
{
    out.extend(b"script")?;
    put_word(script_kind_text(fault.kind), out)?;
    put_number(fault.line, out)?;
    out.push(b'\n')?;
    Ok(())
}

/// A space, the file's path, and the line.
#[tactic(auto, unfolding(crate::specs::Faults::place_text, crate::specs::Report::spaced))]
pub fn put_place(path: &[u8], line: u64, out: &mut ByteText) -> Result<(), OutOfMemory>
    ensures { OnOk result (out.new ≡ out.old ++ place_text path.now line) }
{
    out.push(b' ')?;
    put_escaped(path, out)?;
    out.push(b':')?;
    out.extend(Buffer::new().format(line).as_bytes())?;
    Ok(())
}

/// A space, and the word that the fault is about, or `-`.
#[tactic(auto, unfolding(crate::specs::Faults::subject_text, crate::specs::Report::spaced))]
fn put_subject(word: &Option<ByteText>, out: &mut ByteText) -> Result<(), OutOfMemory>
    ensures { OnOk result (out.new ≡ out.old ++ subject_text word.now) }
{
    match word {
        None => put_word(b"-", out),
        Some(word) => {
            out.push(b' ')?;
            put_escaped(word.as_slice(), out)?;
            Ok(())
        }
    }
}

/// Appends the line of a configuration's fault: `fault N KIND FILE:LINE WORD`, with the number and the name of its kind,
/// the path of its file, and the word or the path that it is about, or `-` where there is none. `path` is that of the file
/// with the fault's number. The bytes of both are printed as those that were sent on a connection are
/// ([`conn_text`](crate::conn_text)). After want of memory `out` holds some part of the line.
#[tactic(auto, unfolding(crate::specs::Faults::conf_fault_line, crate::specs::Lines::ended))]
pub fn conf_fault_text(
    fault: &ConfFault,
    path: &[u8],
    out: &mut ByteText,
) -> Result<(), OutOfMemory>
    ensures { OnOk result (out.new ≡ out.old ++ ended (conf_fault_line path.now fault.now)) }
{
    out.extend(b"fault")?;
    put_word(conf_kind_text(fault.kind), out)?;
    put_place(path, fault.line, out)?;
    put_subject(&fault.word, out)?;
    out.push(b'\n')?;
    Ok(())
}
