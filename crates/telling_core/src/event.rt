// The events that a core was given.
ghost use Rattle.std.specs.Prelude.{◌≡◌, IfOk};
ghost use Rattle.ngx_outside.specs.Records.{answer_of, given_of};
ghost use Rattle.memory_outside.specs.Answered.{file_answer};
ghost use Rattle.telling_core.specs.Events.{given_event};

use byte_text::{ByteText, OutOfMemory};
use file_tree::JobAnswer;
use http_types::Addr;
use memory_outside::FileTold;
use ngx_outside::Event;
use std::alloc::Global;

/// An event that a core was given, with its bytes as they were.
#[derive(Drop)]
pub enum GivenEvent {
    Opened {
        conn: u32,
        local: Addr,
        peer: Addr,
    },
    Arrived {
        conn: u32,
        bytes: ByteText,
    },
    Ended {
        conn: u32,
    },
    Wrote {
        conn: u32,
        count: usize,
    },
    LinkFailed {
        conn: u32,
    },
    /// A node's job was answered, or failed.
    Answered {
        conn: u32,
        node: u32,
        answer: FileTold,
    },
    Run {
        conn: u32,
        node: u32,
    },
    Tick {
        now: u64,
    },
    Tree {
        to: u64,
    },
    Gone {
        conn: u32,
    },
}

// A copy of what a file job was answered.
fn copy_answer(alloc: Global, answer: JobAnswer) -> Result<FileTold, OutOfMemory>
    ensures { IfOk result (λ copy. file_answer copy ≡ answer_of answer.entry) }
{
    match answer {
        JobAnswer::Stat(node, _) => Ok(FileTold::Stat(node)),
        JobAnswer::Read(bytes) => Ok(FileTold::Bytes(ByteText::from_slice(alloc, bytes)?)),
    }
}

/// A copy of an event, with its bytes.
pub(crate) fn copy_event(alloc: Global, event: Event) -> Result<GivenEvent, OutOfMemory>
    ensures { IfOk result (λ copy. given_event copy ≡ given_of event.entry) }
{
    Ok(match event {
        Event::Opened { conn, local, peer } => GivenEvent::Opened { conn, local, peer },
        Event::Arrived { conn, bytes } => GivenEvent::Arrived {
            conn,
            bytes: ByteText::from_slice(alloc, bytes)?,
        },
        Event::Ended { conn } => GivenEvent::Ended { conn },
        Event::Wrote { conn, count } => GivenEvent::Wrote { conn, count },
        Event::LinkFailed { conn } => GivenEvent::LinkFailed { conn },
        Event::FileDone { conn, node, answer } => GivenEvent::Answered {
            conn,
            node,
            answer: copy_answer(alloc, answer)?,
        },
        Event::JobFailed { conn, node } => GivenEvent::Answered {
            conn,
            node,
            answer: FileTold::Failed,
        },
        Event::Run { conn, node } => GivenEvent::Run { conn, node },
        Event::Tick { now } => GivenEvent::Tick { now },
        Event::Tree { to } => GivenEvent::Tree { to },
        Event::Gone { conn } => GivenEvent::Gone { conn },
    })
}
