// The bodies after the heads of requests, which are dropped as they come.
ghost use Rattle.std.specs.Prelude.{◌≡◌, ◌≤◌, None, false, length, drop};
ghost use Rattle.body_frame.specs.State.{rest_body};
ghost use Rattle.http_connection.specs.Steps.{Drops, rest_of};

use body_frame::{BodyState, BodyStep};

/// A body whose bytes were dropped from the front of others: how many they were, what is still to be dropped of it, if it
/// isn't ended, and whether it is broken.
#[derive(Clone, Copy)]
pub(crate) struct Dropped {
    pub(crate) used: usize,
    pub(crate) body: Option<BodyState>,
    pub(crate) broken: bool,
}

/// Drops a body, of which some bytes may have come before, from the front of these bytes.
#[inline(always)]
pub(crate) fn drop_body(body: BodyState, bytes: &[u8]) -> Dropped
    ensures within { result.used ≤ length bytes.now }
    ensures drops { Drops (rest_body body) bytes.now result.body
        (drop result.used bytes.now) result.broken }
{
    let mut rest = body;
    let (used, step) = rest.take(bytes);
    match step {
        BodyStep::Ended => Dropped {
            used,
            body: None,
            broken: false,
        },
        BodyStep::More => Dropped {
            used,
            body: Some(rest),
            broken: false,
        },
        BodyStep::Broken => Dropped {
            used,
            body: None,
            broken: true,
        },
    }
}

/// Drops what is left of a body, if there is one, from the front of these bytes.
#[inline(always)]
pub(crate) fn drop_rest(body: Option<BodyState>, bytes: &[u8]) -> Dropped
    ensures within { result.used ≤ length bytes.now }
    ensures drops { Drops (rest_of body) bytes.now result.body
        (drop result.used bytes.now) result.broken }
    ensures none { body ≡ None → (result.body ≡ None) × (result.broken ≡ false) ×
        (drop result.used bytes.now ≡ bytes.now) }
{
    match body {
        Some(body) => drop_body(body, bytes),
        None => Dropped {
            used: 0,
            body: None,
            broken: false,
        },
    }
}
