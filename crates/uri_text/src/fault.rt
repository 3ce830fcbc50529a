// What is wrong with a request target.
ghost use Rattle.std.specs.Prelude.{◌≡◌};

use byte_text::OutOfMemory;
use std::error::Error;
use std::fmt;

/// Why a target names no path. Where several are there, the first in the text is answered.
#[derive(Clone, Copy, Debug, PartialEq, Eq)]
pub enum UriFault {
    /// A `%` that two hexadecimal digits don't follow.
    BadEscape,
    /// The escape `%00`.
    Zero,
    /// A segment `..` with no folder before it.
    AboveRoot,
    /// The target begins neither with `/` nor with `http://` and a host.
    NotAPath,
    /// No memory is left for the path or the arguments.
    OutOfMemory,
}

impl fmt::Display for UriFault {
    fn fmt<W: fmt::Write>(&self, f: &mut fmt::Formatter<W>) -> fmt::Result {
        match self {
            UriFault::BadEscape => write!(f, "a bad escape"),
            UriFault::Zero => write!(f, "an escaped zero byte"),
            UriFault::AboveRoot => write!(f, "a path above the root"),
            UriFault::NotAPath => write!(f, "no path"),
            UriFault::OutOfMemory => write!(f, "out of memory"),
        }
    }
}

impl Error for UriFault {}

impl From<OutOfMemory> for UriFault {
    ghost use Rattle.uri_text.specs.declared.fault.UriFault.TheVariants as fault;

    ghost from_gives = { λ _ f. f ≡ fault.OutOfMemory };

    fn from(_: OutOfMemory) -> Self {
        UriFault::OutOfMemory
    }
}
