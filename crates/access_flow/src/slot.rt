// A value in its place.
ghost use Rattle.std.specs.Prelude.{◌≡◌};

use std::mem::replace;

/// Puts a value in the place of another.
pub(crate) fn put<T: Drop>(slot: &mut T, value: T)
    ensures { slot.new ≡ value }
{
    replace(slot, value);
}
