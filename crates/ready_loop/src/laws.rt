// What the account of a connection comes to.
ghost use Rattle.ready_loop.specs.Laws.{ClosedUnendedSentAll, ClosedUnstoppedSentAll, KeptBegins, StartsWereTold};

/// A loop's account begins where no link was reported yet and no connection is held: on each that is opened the core says
/// what is to come.
pub fn kept_begins()
    ensures { KeptBegins }
{}

/// Once a connection is closed without having been stopped, what was sent is all that was to come, whatever starts later.
pub fn closed_unstopped_sent_all()
    ensures { ClosedUnstoppedSentAll }
{}

/// Once a connection is closed without having been stopped, and no read found the end of its link's input, what was sent is
/// all that was to come, whatever else would have arrived.
pub fn closed_unended_sent_all()
    ensures { ClosedUnendedSentAll }
{}

/// Each request of a connection started at a tick: at a moment that the clock told, with the tree that was the newest then.
pub fn starts_were_told()
    ensures { StartsWereTold }
{}
