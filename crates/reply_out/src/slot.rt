// Values that are put in place of others: in a function of its own, so that to a caller the drop of what is in the slot is one step.
ghost use Rattle.std.specs.Prelude.{◌≡◌};

/// Puts a value in place of another.
#[inline(always)]
pub(crate) fn put<T: Drop>(slot: &mut T, value: T)
    ensures { slot.new ≡ value }
{
    *slot = value;
}
