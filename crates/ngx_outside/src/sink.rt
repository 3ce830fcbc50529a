// What takes the printed text.
ghost use Rattle.std.specs.Prelude.{◌≡◌};
ghost use Rattle.ngx_outside.specs.Causes.{HasCause};
ghost use Rattle.ngx_outside.specs.Outside.{Puts};
ghost use Rattle.ngx_outside.specs.Seen.{SinkSeen};

/// A call on the outside failed, and its count of faults rose.
#[derive(Clone, Copy, Debug, PartialEq, Eq)]
pub struct Failed;

/// What takes the printed text.
pub trait Sink {
    /// What the sink shows.
    ghost seen: { Self → SinkSeen };

    /// Takes these bytes, or a front of them where it fails.
    fn put(&mut self, bytes: &[u8]) -> Result<(), Failed>
        ensures bytes { Puts (seen self.old).tells (seen self.old).written
            (seen self.new).written bytes.now result }
        ensures tells { (seen self.new).tells ≡ (seen self.old).tells }
        ensures cause { HasCause (seen self.old).faults (seen self.new).faults result (record {}) };
}
