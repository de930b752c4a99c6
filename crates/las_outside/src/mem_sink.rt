//! A stream in memory, with what was put on it.
ghost use Rattle.std.specs.Prelude.{◌≡◌, ◌⊎◌, ◌+◌, ◌-◌, ◌≤◌, ◌<◌, ◌↔◌, ◌++◌, ◌∷◌, [], ℕ, IsErr, IfOk, OnOk, OnErr};
ghost use Rattle.std.specs.Prelude.{IsTrue, length, take, true, false, if◌then◌else◌};
ghost use Rattle.las_outside.specs.MemSink.{next_put_fails, after_put, sink_of};
ghost use Rattle.las_outside.specs.Sinks.{PutLater};

use crate::calls::is_listed;
use crate::{Failed, Sink};
use std::alloc::{AllocError, Global};
use std::marker::Model;

/// A stream in memory with a room, in bytes. Contracts see what was put on it, its room, its calls and its count of
/// faults.
#[derive(Drop)]
pub struct MemSink {
    room: usize,
    bytes: Vec<u8>,
    calls: u64,
    failing: Vec<u64>,
    faults: u64,
}

impl Model for MemSink {
    ghost use Rattle.std.specs.Prelude.{◌≤◌, length, vec_capacity};
    ghost use Rattle.las_outside.specs.MemSink.{Stream, stream_code};

    ghost Value = { Stream };

    ghost coded = { stream_code };

    ghost view = { λ m. record {
      bytes = m.bytes.items;
      room = m.room;
      calls = m.calls;
      failing = m.failing.items;
      faults = m.faults;
    } };

    ghost invariant = { λ m. (length m.bytes.items ≤ m.room) × (m.room ≤ vec_capacity m.bytes) };
}

impl MemSink {
    /// An empty stream with room for this many bytes, none of whose calls is listed to fail.
    pub fn with_room(alloc: Global, room: usize) -> Result<MemSink, AllocError>
        ensures { IfOk result
            (λ s. s ≡ record { bytes = []; room = room; calls = 0; failing = []; faults = 0 }) }
    {
        Ok(MemSink {
            room,
            bytes: Vec::with_capacity(alloc, room)?,
            calls: 0,
            failing: Vec::new(alloc),
            faults: 0,
        })
    }

    /// Lists a call of `put` that fails. The calls are numbered from 1. If memory is short, all is as before.
    pub fn fail_put(&mut self, call: u64) -> Result<(), AllocError>
        ensures ok { OnOk result (self.new ≡ record self.old { failing = self.old.failing ++ call ∷ [] }) }
        ensures err { OnErr result (self.new ≡ self.old) }
    {
        match self.failing.push(call) {
            Ok(()) => Ok(()),
            Err(_) => Err(AllocError),
        }
    }

    /// What was put on it.
    pub fn bytes(&self) -> &[u8]
        ensures { result.now ≡ self.now.bytes }
    {
        &self.bytes
    }

    // Counts a call, and says whether it is listed to fail.
    fn next_call(&mut self) -> bool
        ensures listed { result ≡ next_put_fails self.old }
        ensures counted { self.new ≡ after_put self.old self.old.bytes result }
        ensures later { self.old.faults ≤ self.new.faults }
    {
        self.calls = self.calls.saturating_add(1);
        let listed = is_listed(&self.failing, self.calls);
        if listed {
            self.faults = self.faults.saturating_add(1);
        }
        listed
    }

    // Puts those of the bytes that fit, and says whether all did.
    fn put_what_fits(&mut self, bytes: &[u8]) -> bool
        ensures all { IsTrue result ↔ (length self.old.bytes + length bytes.now ≤ self.old.room) }
        ensures put { self.new ≡ record self.old {
          bytes = self.old.bytes ++ take (self.old.room - length self.old.bytes) bytes.now;
        } }
    {
        let fits = (self.room - self.bytes.len()).min(bytes.len());
        let added = self.bytes.extend_from_slice(&bytes[..fits]);
        prove!(added.is_ok());
        fits == bytes.len()
    }
}

impl Sink for MemSink {
    ghost seen = { sink_of };

    /// `Failed` exactly if the call is listed, and then nothing was put, or if the bytes pass the room, and then those
    /// that fit were put.
    fn put(&mut self, bytes: &[u8]) -> Result<(), Failed>
        ensures ok { OnOk result (self.new ≡ after_put self.old (self.old.bytes ++ bytes.now) false) }
        ensures err { OnErr result (self.new ≡ after_put self.old
            (self.old.bytes ++ take (if next_put_fails self.old then 0 else self.old.room - length self.old.bytes)
            bytes.now) true) }
        ensures exactly { IsErr result
            ↔ (IsTrue (next_put_fails self.old) ⊎ (self.old.room < length self.old.bytes + length bytes.now)) }
        ensures later { PutLater (sink_of self.old) (sink_of self.new) }
    {
        if self.next_call() {
            return Err(Failed);
        }
        if self.put_what_fits(bytes) {
            Ok(())
        } else {
            self.faults = self.faults.saturating_add(1);
            Err(Failed)
        }
    }
}
