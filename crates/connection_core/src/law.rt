// A law of the core, which those that print what it shows rest on.
ghost use Rattle.connection_core.specs.Core.{AllShown};

use http_connection::{connections_are_exact, connections_are_sound};

/// What a core shows of each connection is sound and exact, and its journal tells when its requests started and what is logged of each.
pub fn cores_are_sound()
    ensures { AllShown }
{
    connections_are_sound();
    connections_are_exact();
}
