// Why the reading of files stops.
ghost use Rattle.std.specs.Prelude.{◌≡◌, IfOk};
ghost use Rattle.conf_include.specs.Expansion.{fault_about, spot};
ghost use Rattle.conf_include.specs.declared.stop.Stop.TheVariants.{OutOfMemory as NoMemory};

use byte_text::{ByteText, OutOfMemory};
use conf_text::{ConfFault, FaultKind};
use std::alloc::Global;

/// Why the reading of files stops.
#[derive(Drop)]
pub enum Stop {
    /// A fault of the configuration.
    Fault(ConfFault),
    /// The files failed.
    Failed(ConfFault),
    OutOfMemory,
}

impl From<OutOfMemory> for Stop {
    ghost from_gives = { λ _ e. e ≡ NoMemory };

    fn from(_: OutOfMemory) -> Self {
        Stop::OutOfMemory
    }
}

/// Where an include is: the number of its file, and its line.
#[derive(Clone, Copy)]
pub struct Spot {
    pub file: u32,
    pub line: u64,
}

/// A fault that is about a path.
pub fn fault_about(
    alloc: Global,
    kind: FaultKind,
    at: Spot,
    path: &[u8],
) -> Result<ConfFault, OutOfMemory>
    ensures { IfOk result (λ fault. fault ≡ fault_about kind (spot at.file at.line) path.now) }
{
    Ok(ConfFault {
        kind,
        file: at.file,
        line: at.line,
        word: Some(ByteText::from_slice(alloc, path)?),
    })
}
