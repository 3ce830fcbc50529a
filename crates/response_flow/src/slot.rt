// Values that are put in place of others: in functions of their own, so that to a caller the drop of a value of many parts is one
// step.
ghost use Rattle.std.specs.Prelude.{◌≡◌};

use std::mem::replace;

/// Puts a value in place of another.
#[inline(always)]
pub(crate) fn put<T: Drop>(slot: &mut T, value: T)
    ensures { slot.new ≡ value }
{
    *slot = value;
}

/// Takes a value out, and leaves another in its place.
#[inline(always)]
pub(crate) fn take<T: Drop>(slot: &mut T, other: T) -> T
    ensures taken { result ≡ slot.old }
    ensures left { slot.new ≡ other }
{
    replace(slot, other)
}
