// Laws of what is still to come of a family.
ghost use Rattle.family_rest.specs.Laws.{QuietIsExact, ReachedStaysWell, RowTellsStill, StepsKeepStill};

/// A family that steps have led to is well, and so it is after more steps.
pub fn reached_stays_well()
    ensures { ReachedStaysWell }
{}

/// Where no variable is named, each step of a family that any steps have led to keeps what is still to come, but for the bytes that
/// have left; and how many subrequests are opened or still asked for.
pub fn steps_keep_still()
    ensures { StepsKeepStill }
{}

/// A step that neither reads nor writes a variable keeps what is still to come, and how many subrequests are opened or still asked
/// for, in every server and whatever led to it.
pub fn quiet_is_exact()
    ensures { QuietIsExact }
{}

/// What is still to come is at the start what the recursive meaning gives; then the row tells what it begins with, and all of it once
/// the nodes are over. So too of the subrequests that are still asked for: none is once the nodes are over.
pub fn row_tells_still()
    ensures { RowTellsStill }
{}
