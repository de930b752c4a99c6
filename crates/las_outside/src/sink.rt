//! A stream that text is put on.
ghost use Rattle.std.specs.Prelude.{◌≡◌, ℕ, take, OnOk, OnErr};
ghost use Rattle.las_outside.specs.Sinks.{SinkView, PutLater, with_more, with_fault};

use crate::Failed;

/// A stream that bytes are put on, as standard output.
pub trait Sink {
    /// What is seen of the stream: what was put on it, if the object tells it, and how often a call has failed. The
    /// count never falls, and stops at 2^64 - 1.
    ghost seen: { Self → SinkView };

    /// Puts bytes at the end. After `Failed` a prefix of them was put, and the count of faults is greater by one.
    fn put(&mut self, bytes: &[u8]) -> Result<(), Failed>
        ensures ok { OnOk result (seen self.new ≡ with_more (seen self.old) bytes.now) }
        ensures err { OnErr result
            ((n : ℕ) × (seen self.new ≡ with_fault (with_more (seen self.old) (take n bytes.now)))) }
        ensures later { PutLater (seen self.old) (seen self.new) };
}
