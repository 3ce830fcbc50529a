// Why a configuration is not right.
use byte_text::OutOfMemory;
use conf_text::ConfFault;

/// Why a configuration was not read.
#[derive(Clone, Debug, Drop)]
pub enum ReadError {
    /// The first fault in the order of the text.
    Fault(ConfFault),
    /// The maker refused a pattern of a directive, before which there is no fault.
    TooBig(ConfFault),
    OutOfMemory,
}

impl From<OutOfMemory> for ReadError {
    ghost use Rattle.std.specs.Prelude.{◌≡◌};
    ghost use Rattle.conf_check.specs.declared.error.ReadError.TheVariants.{OutOfMemory as NoMemory};

    ghost from_gives = { λ _ e. e ≡ NoMemory };

    fn from(_: OutOfMemory) -> Self {
        ReadError::OutOfMemory
    }
}
