// Values that are put in place of others: in functions of their own, so that to a caller's proof the drop
// of a value of many parts is one step. They are inlined, since a large value that is passed is copied.
ghost use Rattle.std.specs.Prelude.{◌≡◌};

use std::mem;

/// Takes a value out, and puts another in its place.
#[inline(always)]
pub fn take<T: Drop>(slot: &mut T, value: T) -> T
    ensures taken { result ≡ slot.old }
    ensures put { slot.new ≡ value }
{
    mem::replace(slot, value)
}

/// Lets two values change places.
pub(crate) fn swap<T: Drop>(one: &mut T, other: &mut T)
    ensures one { one.new ≡ other.old }
    ensures other { other.new ≡ one.old }
{
    mem::swap(one, other);
}

/// Puts a value in the place of another, which goes.
#[inline(always)]
pub fn put<T: Drop>(slot: &mut T, value: T)
    ensures put { slot.new ≡ value }
{
    *slot = value;
}

/// Puts a value in the place of one that holds no memory, as `take` leaves it where a stage is taken out: so that isn't
/// let go, which would cost a look at its kind.
#[inline(always)]
pub fn fill<T: Drop>(slot: &mut T, value: T)
    ensures put { slot.new ≡ value }
{
    mem::forget(mem::replace(slot, value));
}
