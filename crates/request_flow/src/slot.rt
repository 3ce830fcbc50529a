// Values that are put in place of others, or given up: in functions of their own, so that to a caller the drop of a value of many
// parts is one step.
ghost use Rattle.std.specs.Prelude.{◌≡◌};

/// Puts a value in place of another.
#[inline(always)]
pub(crate) fn put<T: Drop>(slot: &mut T, value: T)
    ensures { slot.new ≡ value }
{
    *slot = value;
}
