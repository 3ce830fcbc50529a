// Why a script could not be read.
ghost use Rattle.std.specs.Prelude.{◌≡◌};
ghost use Rattle.replay_text.specs.declared.faults.ScriptError.TheVariants as script;

use byte_text::OutOfMemory;
use replay_words::FaultKind;

/// The first fault of a script.
#[derive(Clone, Copy, Debug, PartialEq, Eq)]
pub struct ScriptFault {
    pub kind: FaultKind,
    /// The number of the line, from 1. Where the text ends too early, one more than its number of lines.
    pub line: u64,
}

/// Why a script was not read.
#[derive(Clone, Copy, Debug, PartialEq, Eq)]
pub enum ScriptError {
    Fault(ScriptFault),
    OutOfMemory,
}

impl From<OutOfMemory> for ScriptError {
    ghost from_gives = { λ _ e. e ≡ script.OutOfMemory };

    fn from(_: OutOfMemory) -> Self {
        ScriptError::OutOfMemory
    }
}
