// Prints what the program says of itself.
ghost use Rattle.command_line.specs.Help.{help_text as help, version_text as version};
ghost use Rattle.ngx_cli.specs.Commands.{Output, TextEnds};

use crate::status::Status;
use command_line::{Topic, help_text, version_text};
use ngx_outside::{Failed, Sink};

fn put_own<O: Sink>(text: &[u8], out: &mut O) -> Status
    ensures { TextEnds (record { before = O.seen out.old; after = O.seen out.new }) text.now
        result }
{
    match out.put(text) {
        Ok(()) => Status::Done,
        Err(Failed) => Status::SinkFault,
    }
}

/// Prints the help of the program or of a command.
pub(crate) fn put_help<O: Sink>(topic: Topic, out: &mut O) -> Status
    ensures { TextEnds (record { before = O.seen out.old; after = O.seen out.new }) (help topic)
        result }
{
    put_own(help_text(topic), out)
}

/// Prints the version.
pub(crate) fn put_version<O: Sink>(out: &mut O) -> Status
    ensures { TextEnds (record { before = O.seen out.old; after = O.seen out.new }) version result }
{
    put_own(version_text(), out)
}
