// What a chain means.
ghost use Rattle.filter_api.specs.Laws.{ChainsGoOn, ChainsTurn};

/// A chain's state is what still comes of it: at the beginning of a body the composition of the members that are on, and
/// however the body comes, what came out and what still comes stay the same.
pub fn chains_go_on()
    ensures { ChainsGoOn }
{}

/// It makes no difference where a body's text is cut, nor whether a member that is off is there. Where the members of
/// kinds 1 and 2 are on, a document comes out of them as its parts, between Before and After.
pub fn chains_turn()
    ensures { ChainsTurn }
{}
