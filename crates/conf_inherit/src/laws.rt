// Laws of what holds in a level.
ghost use Rattle.conf_inherit.specs.Laws.{WhatIsStatedHolds, LastHolds, OuterHolds};

/// A value that a block states holds in it.
pub fn what_is_stated_holds()
    ensures { WhatIsStatedHolds }
{}

/// The last directive of a level is over all before it.
pub fn the_last_holds()
    ensures { LastHolds }
{}

/// In a block that states nothing what is around it holds.
pub fn what_is_around_holds()
    ensures { OuterHolds }
{}
