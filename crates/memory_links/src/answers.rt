// What links answered, as far as there is memory to keep it.
ghost use Rattle.std.specs.Prelude.{◌≡◌, []};
ghost use Rattle.ngx_outside.specs.Records.{Adds, Noticed, Read, Written, got_of};
ghost use Rattle.memory_links.specs.Answered.{links_told};

use byte_text::{ByteText, OutOfMemory};
use memory_outside::Answers;
use ngx_outside::{Input, Notice, Output};
use std::alloc::Global;

/// What links answered.
#[derive(Drop)]
pub(crate) enum LinkTold {
    Noticed(Notice),
    Read {
        id: u32,
        input: Input,
        bytes: ByteText,
    },
    Written {
        id: u32,
        output: Output,
    },
}

// The bytes that a read got.
fn got(input: Input, buf: &[u8]) -> &[u8]
    ensures { result.now ≡ got_of input buf.now }
{
    match input {
        Input::Got(count) => {
            if count < buf.len() {
                &buf[..count]
            } else {
                buf
            }
        }
        Input::NotYet => &[],
        Input::End => &[],
        Input::Failed => &[],
    }
}

/// Keeps a notice.
#[tactic(auto, using(crate::proofs::Kept::link_added))]
pub(crate) fn tell_notice(answers: &mut Answers<LinkTold>, notice: Notice)
    ensures { Adds (Noticed notice) (links_told answers.old) (links_told answers.new) }
{
    answers.add(LinkTold::Noticed(notice));
}

/// Keeps what a read answered.
#[tactic(auto, using(crate::proofs::Kept::link_added, crate::proofs::Kept::links_stopped))]
pub(crate) fn tell_read(
    alloc: Global,
    answers: &mut Answers<LinkTold>,
    id: u32,
    input: Input,
    buf: &[u8],
)
    ensures { Adds (Read id input (got_of input buf.now)) (links_told answers.old)
        (links_told answers.new) }
{
    match ByteText::from_slice(alloc, got(input, buf)) {
        Ok(bytes) => answers.add(LinkTold::Read { id, input, bytes }),
        Err(OutOfMemory) => answers.stop(),
    }
}

/// Keeps what a write answered.
#[tactic(auto, using(crate::proofs::Kept::link_added))]
pub(crate) fn tell_written(answers: &mut Answers<LinkTold>, id: u32, output: Output)
    ensures { Adds (Written id output) (links_told answers.old) (links_told answers.new) }
{
    answers.add(LinkTold::Written { id, output });
}
