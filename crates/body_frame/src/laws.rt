// Laws of bodies.
ghost use Rattle.body_frame.specs.Laws.{BodiesAreTheGrammars, BodiesStay, BodiesGoOn, TakesCompose};

/// What `body_of` says of a text is what the grammar of bodies says of it: Whole where its first bytes are a body,
/// Short where none of its fronts is one and bytes that can follow make one, Broken where none can.
pub fn bodies_are_the_grammars()
    ensures { BodiesAreTheGrammars }
{}

/// A whole body stays the same and a broken one stays broken, whatever bytes follow. A whole body is within its text.
pub fn bodies_stay()
    ensures { BodiesStay }
{}

/// A body that is short is ended by some bytes that can follow.
pub fn bodies_go_on()
    ensures { BodiesGoOn }
{}

/// Taking some bytes and then more is taking both at once: the counts add up, and the last step is the step of both.
pub fn takes_compose()
    ensures { TakesCompose }
{}
