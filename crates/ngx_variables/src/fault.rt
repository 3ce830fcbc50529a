// What a call on a text with variables refuses.
use byte_text::OutOfMemory as NoMemory;
use std::alloc::{AllocError, AllocFailed};
use std::error::Error;
use std::fmt;

/// Why a text is no text with variables.
#[derive(Clone, Copy, Debug, PartialEq, Eq)]
pub enum ValueFault {
    /// After a `$`, or between `${` and `}`, there is no name.
    BadName,
    /// After a `${` there is no `}`.
    Unclosed,
    OutOfMemory,
}

impl fmt::Display for ValueFault {
    fn fmt<W: fmt::Write>(&self, f: &mut fmt::Formatter<W>) -> fmt::Result {
        match self {
            ValueFault::BadName => write!(f, "a `$` without the name of a variable"),
            ValueFault::Unclosed => write!(f, "a `${{` without its `}}`"),
            ValueFault::OutOfMemory => write!(f, "out of memory"),
        }
    }
}

impl Error for ValueFault {}

impl From<NoMemory> for ValueFault {
    ghost use Rattle.std.specs.Prelude.{◌≡◌};
    ghost use Rattle.ngx_variables.specs.declared.fault.ValueFault.TheVariants.{OutOfMemory};

    ghost from_gives = { λ _ e. e ≡ OutOfMemory };

    fn from(_: NoMemory) -> Self {
        ValueFault::OutOfMemory
    }
}

impl From<AllocError> for ValueFault {
    ghost use Rattle.std.specs.Prelude.{◌≡◌};
    ghost use Rattle.ngx_variables.specs.declared.fault.ValueFault.TheVariants.{OutOfMemory};

    ghost from_gives = { λ _ e. e ≡ OutOfMemory };

    fn from(_: AllocError) -> Self {
        ValueFault::OutOfMemory
    }
}

impl<T: Drop> From<AllocFailed<T>> for ValueFault {
    ghost use Rattle.std.specs.Prelude.{◌≡◌};
    ghost use Rattle.ngx_variables.specs.declared.fault.ValueFault.TheVariants.{OutOfMemory};

    ghost from_gives = { λ _ e. e ≡ OutOfMemory };

    fn from(_: AllocFailed<T>) -> Self {
        ValueFault::OutOfMemory
    }
}

/// Why a text with variables has no value.
#[derive(Clone, Copy, Debug, PartialEq, Eq)]
pub enum EvalFault {
    /// The text has more than 16384 bytes.
    TooLong,
    OutOfMemory,
}

impl fmt::Display for EvalFault {
    fn fmt<W: fmt::Write>(&self, f: &mut fmt::Formatter<W>) -> fmt::Result {
        match self {
            EvalFault::TooLong => write!(f, "a text of more than 16384 bytes"),
            EvalFault::OutOfMemory => write!(f, "out of memory"),
        }
    }
}

impl Error for EvalFault {}

impl From<NoMemory> for EvalFault {
    ghost use Rattle.std.specs.Prelude.{◌≡◌};
    ghost use Rattle.ngx_variables.specs.declared.fault.EvalFault.TheVariants.{OutOfMemory};

    ghost from_gives = { λ _ e. e ≡ OutOfMemory };

    fn from(_: NoMemory) -> Self {
        EvalFault::OutOfMemory
    }
}
