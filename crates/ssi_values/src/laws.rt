// What the meaning's acts of a document's values come to.
ghost use Rattle.ssi_values.specs.Known.{NamedSettles, FilledSettles, TruthSettles};

/// Looking a name up reads variables and changes none.
pub fn named_settles()
    ensures { NamedSettles }
{}

/// So does filling a text in.
pub fn filled_settles()
    ensures { FilledSettles }
{}

/// So does a condition.
pub fn truth_settles()
    ensures { TruthSettles }
{}
