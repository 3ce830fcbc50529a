// A body whose bytes come in pieces.
ghost use Rattle.std.specs.Prelude.{◌≡◌, ℕ, ◌+◌, ◌≤◌, ◌<◌, List, [], ◌++◌, length, drop, ◌↔◌, IsTrue};
ghost use Rattle.body_frame.specs.State.{rest_body, IsBegun, Takes};

use crate::BodyStep;
use crate::place::Position;
use http_types::BodyKind;

/// Finds the end of a request's body in bytes that come in pieces of any size. It keeps none of them, and takes no
/// memory.
#[derive(Clone, Copy, Debug)]
pub struct BodyState {
    place: Position,
}

impl BodyState {
    /// A body of which no byte has come.
    pub fn new(kind: BodyKind) -> BodyState
        ensures { IsBegun kind result }
    {
        let place = match kind {
            BodyKind::Empty => Position::Plain(0),
            BodyKind::Length(count) => Position::Plain(count),
            BodyKind::Chunked => Position::SizeStart,
        };
        BodyState { place }
    }

    /// Takes the next bytes, and answers how many of them were used and what is known now of the body.
    ///
    /// All of them are used, unless the body ends among them: then those up to its end. Once it is ended it stays so
    /// and uses no more, and once it is broken it stays broken.
    #[inline(always)]
    pub fn take(&mut self, bytes: &[u8]) -> (usize, BodyStep)
        ensures within { result.0 ≤ length bytes.now }
        ensures takes { Takes self.old bytes.now result.0 result.1 self.new }
    {
        let mut place = self.place;
        let mut rest = bytes;
        loop {
            let count = place.skip(rest);
            if count == 0 {
                break;
            }
            rest = &rest[count..];
        }
        self.place = place;
        match place.step() {
            BodyStep::Ended => (bytes.len() - rest.len(), BodyStep::Ended),
            step => (bytes.len(), step),
        }
    }
}
