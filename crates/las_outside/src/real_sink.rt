//! The process's standard output and standard error.
ghost use Rattle.std.specs.Prelude.{◌≡◌, ℕ, None, OnErr, OnOk, take};
ghost use Rattle.std.specs.Io.KnownBytes.{Appends};
ghost use Rattle.las_outside.specs.Sinks.{PutLater, unknown, with_fault, with_more};

use crate::{Failed, Sink};
use std::io::{Stderr, Stdout, Write};
use std::marker::Model;

/// Standard output or standard error, by the type of its stream. Contracts see its count of faults, and what was put on
/// a stream that tells it, as a list of bytes does; those of the process tell nothing. Each error of std is a fault.
#[derive(Drop)]
pub struct RealSink<W: Write + Drop> {
    stream: W,
    faults: u64,
}

impl<W: Write + Drop> Model for RealSink<W> {
    ghost use Rattle.las_outside.specs.Sinks.{SinkView, sink_code};

    ghost Value = { SinkView };

    ghost coded = { sink_code };

    ghost view = { λ s. record { written = W.contents s.stream; faults = s.faults } };
}

impl RealSink<Stdout> {
    /// Standard output.
    pub fn out(rt: &HostRuntime) -> RealSink<Stdout>
        ensures { result ≡ record { written = None; faults = 0 } }
    {
        RealSink::on(rt.stdout())
    }
}

impl RealSink<Stderr> {
    /// Standard error.
    pub fn err(rt: &HostRuntime) -> RealSink<Stderr>
        ensures { result ≡ record { written = None; faults = 0 } }
    {
        RealSink::on(rt.stderr())
    }
}

impl<W: Write + Drop> RealSink<W> {
    // A stream on which nothing was put yet.
    fn on(stream: W) -> RealSink<W>
        ensures { result ≡ record { written = W.contents stream; faults = 0 } }
    {
        RealSink { stream, faults: 0 }
    }
}

impl<W: Write + Drop> Sink for RealSink<W> {
    ghost seen = { unknown };

    fn put(&mut self, bytes: &[u8]) -> Result<(), Failed>
        ensures ok { OnOk result (unknown self.new ≡ with_more (unknown self.old) bytes.now) }
        ensures err { OnErr result
            ((n : ℕ) × (unknown self.new ≡ with_fault (with_more (unknown self.old) (take n bytes.now)))) }
        ensures later { PutLater (unknown self.old) (unknown self.new) }
        ensures written { OnOk result (Appends self.old.written self.new.written bytes.now) }
    {
        match write_now(&mut self.stream, bytes) {
            Ok(()) => Ok(()),
            Err(_) => {
                self.faults = self.faults.saturating_add(1);
                Err(Failed)
            }
        }
    }
}

// Writes bytes, and what a buffer may still hold of them.
fn write_now<W: Write>(stream: &mut W, bytes: &[u8]) -> std::io::Result<()>
    ensures { OnOk result (Appends (W.contents stream.old) (W.contents stream.new) bytes.now) }
{
    stream.write_all(bytes)?;
    stream.flush()
}
