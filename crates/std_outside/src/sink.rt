// Standard output.
use ngx_outside::{Failed, Sink};
use std::io;
use std::io::{Print, Write};

/// Standard output. It tells nothing of what was taken. Each put that fails raises the count of faults.
#[derive(Drop)]
pub struct HostSink<R: Print + Drop> {
    host: R,
    faults: u64,
}

impl<R: Print + Drop> HostSink<R> {
    pub fn new(host: R) -> Self {
        HostSink { host, faults: 0 }
    }
}

// Writes all of a piece.
fn write_out<R: Print>(host: &R, bytes: &[u8]) -> io::Result<()> {
    let mut out = io::writer(host);
    out.write_all(bytes)?;
    out.flush()
}

impl<R: Print + Drop> Sink for HostSink<R> {
    ghost use Rattle.std.specs.Prelude.{false, []};

    ghost seen = { λ s. record { tells = false; written = []; faults = s.faults } };

    fn put(&mut self, bytes: &[u8]) -> Result<(), Failed> {
        match write_out(&self.host, bytes) {
            Ok(()) => Ok(()),
            Err(_) => {
                self.faults = self.faults.saturating_add(1);
                Err(Failed)
            }
        }
    }
}
