// A sink in memory.
ghost use Rattle.std.specs.Prelude.{◌≡◌, ◌≤◌, ◌+◌, ◌-◌, ◌^◌, ℕ, List, [], true, false, min, IsErr, OnErr};
ghost use Rattle.ngx_outside.specs.Causes.{HasCause, Rose};
ghost use Rattle.ngx_outside.specs.Outside.{Puts};
ghost use Rattle.memory_outside.specs.Taken.{taken_of, put_faults_of, put_failing_of, puts_of, is_next_failing, sink_shown};

use byte_text::ByteText;
use ngx_outside::{Failed, Sink};
use std::alloc::Global;

/// A sink in memory, which keeps all that it takes. The puts with the numbers of its list, counted from 0, fail and take
/// nothing, and so does one for which there is no memory.
#[derive(Drop)]
pub struct MemorySink {
    taken: ByteText,
    failing: Vec<u64>,
    calls: u64,
    faults: u64,
}

impl MemorySink {
    /// A sink that has taken nothing yet; the puts with these numbers are to fail.
    pub fn new(alloc: Global, failing: Vec<u64>) -> Self
        ensures taken { taken_of result ≡ [] }
        ensures faults { put_faults_of result ≡ 0 }
        ensures failing { put_failing_of result ≡ failing.items }
        ensures puts { puts_of result ≡ 0 }
    {
        MemorySink {
            taken: ByteText::new(alloc),
            failing,
            calls: 0,
            faults: 0,
        }
    }

    /// All that was taken.
    pub fn taken(&self) -> &[u8]
        ensures { result.now ≡ taken_of self.now }
    {
        self.taken.as_slice()
    }

    /// How often a put has failed.
    pub fn faults(&self) -> u64
        ensures { result ≡ put_faults_of self.now }
    {
        self.faults
    }

    // Counts the call, and says whether it is one that is to fail.
    fn is_failing(&mut self) -> bool
        ensures taken { self.new.taken ≡ self.old.taken }
        ensures faults { self.new.faults ≡ self.old.faults }
        ensures failing { put_failing_of self.new ≡ put_failing_of self.old }
        ensures puts { puts_of self.new ≡ min (puts_of self.old + 1) (2 ^ 64 - 1) }
        ensures is { result ≡ is_next_failing self.old }
    {
        let call = self.calls;
        self.calls = self.calls.saturating_add(1);
        self.failing.contains(&call)
    }
}

impl Sink for MemorySink {
    ghost seen = { sink_shown };

    fn put(&mut self, bytes: &[u8]) -> Result<(), Failed>
        ensures bytes { Puts true (taken_of self.old) (taken_of self.new) bytes.now result }
        ensures nothing { OnErr result (taken_of self.new ≡ taken_of self.old) }
        ensures failing { put_failing_of self.new ≡ put_failing_of self.old }
        ensures puts { puts_of self.new ≡ min (puts_of self.old + 1) (2 ^ 64 - 1) }
        ensures listed { is_next_failing self.old ≡ true → IsErr result }
        ensures cause { HasCause (put_faults_of self.old) (put_faults_of self.new) result
            (record {}) }
    {
        if self.is_failing() || self.taken.extend(bytes).is_err() {
            self.faults = self.faults.saturating_add(1);
            return Err(Failed);
        }
        Ok(())
    }
}
