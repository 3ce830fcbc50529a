// What the program ends with.
ghost use Rattle.std.specs.Prelude.{◌≡◌};
ghost use Rattle.ngx_cli.specs.Commands.{status_of as status_for, served_status as served_as};

use crate::script::ScriptOutcome;
use ready_loop::Ending;

/// What the program ends with.
#[derive(Clone, Copy, Debug, PartialEq, Eq)]
pub enum Status {
    Done,
    /// The configuration has a fault, which was printed.
    ConfFault,
    /// The words are no command.
    Usage,
    /// Variables show in which order subrequests run, which was printed.
    Racy,
    /// A call on the files failed.
    FilesFault,
    /// What was to be printed was not taken.
    SinkFault,
    /// A call on the links failed.
    LinksFault,
    OutOfMemory,
    /// All turns were used.
    TurnsUsed,
    /// The script is outside its grammar, and its first fault was printed.
    ScriptFault,
    /// The maker refused a pattern of the configuration, which was printed.
    PatternFault,
}

impl Status {
    ghost use Rattle.std.specs.Prelude.{◌≡◌};
    ghost use Rattle.ngx_cli.specs.Commands.{code_of};

    /// The exit status of the process.
    pub fn code(self) -> u8
        ensures { result ≡ code_of self }
    {
        match self {
            Status::Done => 0,
            Status::ConfFault => 1,
            Status::Usage => 2,
            Status::Racy => 3,
            Status::FilesFault => 4,
            Status::SinkFault => 5,
            Status::LinksFault => 6,
            Status::OutOfMemory => 7,
            Status::ScriptFault => 8,
            Status::TurnsUsed => 9,
            Status::PatternFault => 10,
        }
    }
}

/// The status of what a script came to.
pub fn status_of(outcome: ScriptOutcome) -> Status
    ensures { result ≡ status_for outcome }
{
    match outcome {
        ScriptOutcome::Done => Status::Done,
        ScriptOutcome::ConfFault => Status::ConfFault,
        ScriptOutcome::Racy => Status::Racy,
        ScriptOutcome::PatternFault => Status::PatternFault,
        ScriptOutcome::ScriptFault(_) => Status::ScriptFault,
    }
}

/// The status of how serving ended.
pub fn served_status(ending: Ending) -> Status
    ensures { result ≡ served_as ending }
{
    match ending {
        Ending::Ended => Status::Done,
        Ending::TurnsUsed => Status::TurnsUsed,
        Ending::ListenFault => Status::LinksFault,
        Ending::NextFault => Status::LinksFault,
    }
}
