// Laws of the meaning.
ghost use Rattle.request_meaning.specs.Laws.{AloneAsksNone, ChangesFall, NodeIsMeant, ShippedMakesText, SubrequestsNest};

/// The changes that are left fall by one at each change.
pub fn changes_fall()
    ensures { ChangesFall }
{}

/// Acts of serving ask only for subrequests of a depth less.
pub fn subrequests_nest()
    ensures { SubrequestsNest }
{}

/// A site whose levels name no auth subrequest, no includes and no additions asks for no subrequest.
pub fn alone_asks_none()
    ensures { AloneAsksNone }
{}

/// Where there are neither includes nor additions, the chain of body filters that a server has makes text alone of a body.
pub fn shipped_makes_text()
    ensures { ShippedMakesText }
{}

/// What a node without subrequests comes to, act by act, is its meaning.
pub fn node_is_meant<A>()
    ensures { NodeIsMeant A }
{}
