// Laws of what comes and goes on a connection, which the drivers of a core rest on.
ghost use Rattle.ngx_outside.specs.Runs.{TracksBegin, StepsKeepTrack, StopsKeepTrack, TracksNarrow, AllIsSentWhenIdle, AllIsSentWhenShut, ShutIsExact, AllIsLoggedWhenIdle};

/// A connection that is opened is tracked, with nothing come and gone.
pub fn tracks_begin()
    ensures { TracksBegin }
{}

/// A tracked connection stays tracked at each step that it goes on by: what came and what went compose.
pub fn steps_keep_track()
    ensures { StepsKeepTrack }
{}

/// A tracked connection stays tracked at its stop.
pub fn stops_keep_track()
    ensures { StopsKeepTrack }
{}

/// A tracked connection stays tracked while the files tell more trees.
pub fn tracks_narrow()
    ensures { TracksNarrow }
{}

/// On an idle connection all has gone that was to come.
pub fn all_is_sent_when_idle()
    ensures { AllIsSentWhenIdle }
{}

/// On a connection that is to be closed before the end of its input all has gone that was to come, whatever else would arrive.
pub fn all_is_sent_when_shut()
    ensures { AllIsSentWhenShut }
{}

/// An idle connection is to be closed exactly where its input has ended, or where the answers to what came end it.
pub fn shut_is_exact()
    ensures { ShutIsExact }
{}

/// On an idle connection each request is logged, with the status of its response and the length of its body.
pub fn all_is_logged_when_idle()
    ensures { AllIsLoggedWhenIdle }
{}
