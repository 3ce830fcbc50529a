// What the meaning's acts of evaluating a text, and of looking for a file, come to.
ghost use Rattle.target_text.specs.Settled.{FitValueSettles, ItemSettles, TargetSettles};

/// The evaluation of a text that may be too long changes no variable.
pub fn fit_value_settles()
    ensures { FitValueSettles }
{}

/// So does that of a text that names a path and its arguments.
pub fn target_settles()
    ensures { TargetSettles }
{}

/// What is at a path of the site is asked of the files where one can be there.
pub fn item_settles()
    ensures { ItemSettles }
{}
