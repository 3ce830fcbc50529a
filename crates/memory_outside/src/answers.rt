// What was answered, as far as there is memory to keep it.
ghost use Rattle.std.specs.Prelude.{◌≡◌, ◌++◌, ◌∷◌, [], true, false};
ghost use Rattle.ngx_outside.specs.Records.{Adds, Stat, Bytes, Failed as FileFailed};
ghost use Rattle.memory_outside.specs.Answered.{files_told, numbers_told};

use byte_text::{ByteText, OutOfMemory};
use file_tree::Node;
use std::alloc::Global;

/// A list of answers. Once there is no memory for one, nothing is told from then on.
#[derive(Drop)]
pub struct Answers<T: Drop> {
    pub kept: Vec<T>,
    pub whole: bool,
}

/// What a stat or a read of a file answered.
#[derive(Drop)]
pub enum FileTold {
    Stat(Node),
    Bytes(ByteText),
    Failed,
}

impl<T: Drop> Answers<T> {
    /// No answers yet.
    pub fn new(alloc: Global) -> Self
        ensures none { result.kept.items ≡ [] }
        ensures whole { result.whole ≡ true }
    {
        Answers {
            kept: Vec::new(alloc),
            whole: true,
        }
    }

    /// Keeps an answer, if there is memory for it.
    pub fn add(&mut self, answer: T)
        ensures { self.new.whole ≡ true → (self.old.whole ≡ true) ×
            (self.new.kept.items ≡ self.old.kept.items ++ answer ∷ []) }
    {
        match self.kept.push(answer) {
            Ok(()) => {}
            Err(_) => self.whole = false,
        }
    }

    /// Nothing is told any more.
    pub fn stop(&mut self)
        ensures { self.new.whole ≡ false }
    {
        self.whole = false;
    }
}

/// Keeps what a stat found.
#[tactic(auto, using(crate::proofs::Kept::file_added))]
pub(crate) fn tell_node(answers: &mut Answers<FileTold>, node: Node)
    ensures { Adds (Stat node) (files_told answers.old) (files_told answers.new) }
{
    answers.add(FileTold::Stat(node));
}

/// Keeps the bytes that a read added.
#[tactic(auto, using(crate::proofs::Kept::file_added, crate::proofs::Kept::files_stopped))]
pub(crate) fn tell_bytes(alloc: Global, answers: &mut Answers<FileTold>, bytes: &[u8])
    ensures { Adds (Bytes bytes.now) (files_told answers.old) (files_told answers.new) }
{
    match ByteText::from_slice(alloc, bytes) {
        Ok(kept) => answers.add(FileTold::Bytes(kept)),
        Err(OutOfMemory) => answers.stop(),
    }
}

/// Keeps that a stat or a read failed.
#[tactic(auto, using(crate::proofs::Kept::file_added))]
pub(crate) fn tell_failed(answers: &mut Answers<FileTold>)
    ensures { Adds FileFailed (files_told answers.old) (files_told answers.new) }
{
    answers.add(FileTold::Failed);
}

/// Keeps a number.
#[tactic(auto, using(crate::proofs::Kept::number_added))]
pub(crate) fn tell_number(numbers: &mut Answers<u64>, number: u64)
    ensures { Adds number (numbers_told numbers.old) (numbers_told numbers.new) }
{
    numbers.add(number);
}
