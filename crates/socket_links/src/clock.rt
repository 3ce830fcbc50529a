// The clock of the system.
ghost use Rattle.std.specs.Prelude.{[], false};

use ngx_outside::Clock;
use std::time::{SystemTime, UNIX_EPOCH};

/// The clock of the system, in whole seconds. Where it can't be read, or is before 1970, it tells the moment before
/// again.
#[derive(Drop)]
pub struct SystemClock<'a, R> {
    rt: &'a R,
    last: u64,
}

impl<'a, R> SystemClock<'a, R> {
    pub fn new(rt: &'a R) -> Self {
        SystemClock { rt, last: 0 }
    }
}

impl<R: std::time::Clock> Clock for SystemClock<'_, R> {
    ghost seen = { λ c. record { tells = false; told = [] } };

    fn now(&mut self) -> u64 {
        if let Ok(now) = SystemTime::now(self.rt) {
            if let Ok(since) = now.duration_since(UNIX_EPOCH) {
                self.last = since.as_secs();
            }
        }
        self.last
    }
}
