// A core that says until when ticks change nothing.
ghost use Rattle.ready_loop.specs.Turns.{IsQuiet};

use ngx_outside::EventCore;

/// A core that says until when ticks give no connection up, so that nobody needs to look at each of them after a tick.
pub trait TimedCore: EventCore {
    /// A moment before which no connection is given up, as all of them are now. The type's last moment where none is
    /// ever given up.
    fn quiet_until(&self) -> u64
        ensures { IsQuiet result (Self.seen self.now).view };
}
