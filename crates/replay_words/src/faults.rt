// Why a line could not be read.
ghost use Rattle.std.specs.Prelude.{◌≡◌};
ghost use Rattle.replay_words.specs.declared.faults.LineError.TheVariants as lines;

use byte_text::OutOfMemory;
use std::alloc::{AllocError, AllocFailed};

/// What is wrong in a line. As a number, a kind is what a printed fault shows.
#[derive(Clone, Copy, Debug, PartialEq, Eq)]
pub enum FaultKind {
    /// A section line or the `.` that ends a section is missing or out of order.
    Section = 1,
    /// A word is unknown, there are too many or too few, an address or a path is none, or a `bytes` line gives no byte.
    Word = 2,
    /// A number is out of its range, or none.
    Number = 3,
    /// A `%` without two hexadecimal digits after it.
    Escape = 4,
}

/// Why a line was not read.
#[derive(Clone, Copy, Debug, PartialEq, Eq)]
pub enum LineError {
    Fault(FaultKind),
    OutOfMemory,
}

impl From<OutOfMemory> for LineError {
    ghost from_gives = { λ _ e. e ≡ lines.OutOfMemory };

    fn from(_: OutOfMemory) -> Self {
        LineError::OutOfMemory
    }
}

impl From<AllocError> for LineError {
    ghost from_gives = { λ _ e. e ≡ lines.OutOfMemory };

    fn from(_: AllocError) -> Self {
        LineError::OutOfMemory
    }
}

impl<T: Drop> From<AllocFailed<T>> for LineError {
    ghost from_gives = { λ _ e. e ≡ lines.OutOfMemory };

    fn from(_: AllocFailed<T>) -> Self {
        LineError::OutOfMemory
    }
}
