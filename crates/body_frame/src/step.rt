// What is known of a body.

/// What the bytes taken so far say of a body.
#[derive(Clone, Copy, Debug, PartialEq, Eq)]
pub enum BodyStep {
    /// It isn't ended, and some bytes that can follow end it.
    More,
    /// It is ended.
    Ended,
    /// No bytes that can follow make it a body.
    Broken,
}
