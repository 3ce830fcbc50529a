// Laws of a family in its row.
ghost use Rattle.family_order.specs.Laws.{RowShowsLine, RowStaysWell, RowTellsLine, ShowsTheSame};
ghost use Rattle.family_order.specs.Whole.{OrderIsKept};

/// The operations of a row keep each node in one place, and the root after all others.
pub fn row_stays_well()
    ensures { RowStaysWell }
{}

/// Each step of a node of a family is a step of the line that the family shows, and what leaves makes no difference to it.
pub fn row_shows_line()
    ensures { RowShowsLine }
{}

/// What is said of nodes that don't go on, how many numbers are given, and the places of nodes that are hidden by a
/// stub make no difference to what a family shows.
pub fn shows_the_same()
    ensures { ShowsTheSame }
{}

/// The row tells what waits at the front of the line that a family shows, and its reply, once its nodes are over; and that its body
/// is kept, where the root ends with a status below 400 however it goes on.
pub fn row_tells_line()
    ensures { RowTellsLine }
{}

/// Where no variable is named, what has left a family is what the body that the recursive meaning gives begins with, in whatever
/// order its nodes took their steps; and all of it once they are over.
pub fn order_is_kept()
    ensures { OrderIsKept }
{}
