// What is printed of a configuration that has no fault.
ghost use Rattle.std.specs.Prelude.{◌≡◌, ◌++◌, OnOk};
ghost use Rattle.report_text.specs.Counts.{counts_text};

use crate::words::put_number;
use byte_text::{ByteText, OutOfMemory};

/// Appends the line of a site: `servers N locations M`. After want of memory `out` holds some part of the line.
#[tactic(auto, unfolding(crate::specs::Counts::counts_text, crate::specs::Lines::ended))]
pub fn counts_text(servers: u64, locations: u64, out: &mut ByteText) -> Result<(), OutOfMemory>
    ensures { OnOk result (out.new ≡ out.old ++ counts_text servers locations) }
{
    out.extend(b"servers")?;
    put_number(servers, out)?;
    out.extend(b" locations")?;
    put_number(locations, out)?;
    out.push(b'\n')?;
    Ok(())
}
