//! The calls of files in memory: which are listed to fail, and what is counted of them.
ghost use Rattle.std.specs.Prelude.{◌≡◌, ◌≤◌, ◌∷◌, ◌++◌, [], OnOk, OnErr, if◌then◌else◌, is_ok, take, option_map};
ghost use Rattle.las_outside.specs.Faults.{count_after};
ghost use Rattle.las_outside.specs.Calls.{no_calls, next_call, next_read_fails, next_keep, is_listed, keep_of};
ghost use Rattle.las_outside.specs.Calls.{after_asking};

use std::alloc::{AllocError, Global};
use std::marker::Model;

/// What was counted of calls, and which calls fail. The numbers of calls begin with 1.
#[derive(Drop)]
pub struct Calls {
    reads: u64,
    writes: u64,
    failing_reads: Vec<u64>,
    failing_writes: Vec<(u64, usize)>,
    read_faults: u64,
    write_faults: u64,
    asked: u64,
}

impl Model for Calls {
    ghost use Rattle.las_outside.specs.Calls.{Calls as Seen, calls_code};

    ghost Value = { Seen };

    ghost coded = { calls_code };

    ghost view = { λ c. record {
      reads = c.reads;
      writes = c.writes;
      failing_reads = c.failing_reads.items;
      failing_writes = c.failing_writes.items;
      read_faults = c.read_faults;
      write_faults = c.write_faults;
      asked = c.asked;
    } };
}

/// Whether a number is in a list of calls that fail.
pub fn is_listed(numbers: &[u64], call: u64) -> bool
    ensures { result ≡ is_listed numbers.now call }
{
    numbers.iter().any(|number| *number == call)
}

// How many bytes a call keeps, if it is listed.
fn keep_of(listed: &[(u64, usize)], call: u64) -> Option<usize>
    ensures { result ≡ keep_of listed.now call }
{
    for (number, keep) in listed {
        if *number == call {
            return Some(*keep);
        }
    }
    None
}

impl Calls {
    /// No call yet, and none that fails.
    pub fn new(alloc: Global) -> Calls
        ensures { result ≡ no_calls }
    {
        Calls {
            reads: 0,
            writes: 0,
            failing_reads: Vec::new(alloc),
            failing_writes: Vec::new(alloc),
            read_faults: 0,
            write_faults: 0,
            asked: 0,
        }
    }

    /// Lists a call that reads.
    pub fn fail_read(&mut self, call: u64) -> Result<(), AllocError>
        ensures ok { OnOk result (self.new ≡ record self.old { failing_reads = self.old.failing_reads ++ call ∷ [] }) }
        ensures err { OnErr result (self.new ≡ self.old) }
    {
        match self.failing_reads.push(call) {
            Ok(()) => Ok(()),
            Err(_) => Err(AllocError),
        }
    }

    /// Lists a call that writes, before those that are listed already.
    pub fn fail_write(&mut self, call: u64, keep: usize) -> Result<(), AllocError>
        ensures ok { OnOk result (self.new
            ≡ record self.old { failing_writes = (call, keep) ∷ self.old.failing_writes }) }
        ensures err { OnErr result (self.new ≡ self.old) }
    {
        match self.failing_writes.insert(0, (call, keep)) {
            Ok(()) => Ok(()),
            Err(_) => Err(AllocError),
        }
    }

    /// Counts a call that reads, and says whether it is listed.
    pub fn next_read(&mut self) -> bool
        ensures listed { result ≡ next_read_fails self.old }
        ensures counted { self.new ≡ record self.old { reads = next_call self.old.reads } }
    {
        self.reads = self.reads.saturating_add(1);
        is_listed(&self.failing_reads, self.reads)
    }

    /// Counts a call that writes, and says how many bytes it keeps if it is listed.
    pub fn next_write(&mut self) -> Option<usize>
        ensures listed { result ≡ next_keep self.old }
        ensures counted { self.new ≡ record self.old { writes = next_call self.old.writes } }
    {
        self.writes = self.writes.saturating_add(1);
        keep_of(&self.failing_writes, self.writes)
    }

    /// Counts a read that failed.
    pub fn read_failed(&mut self)
        ensures counted { self.new ≡ record self.old { read_faults = count_after self.old.read_faults 1 } }
        ensures later { self.old.read_faults ≤ self.new.read_faults }
    {
        self.read_faults = self.read_faults.saturating_add(1);
    }

    /// Counts a write that failed.
    pub fn write_failed(&mut self)
        ensures counted { self.new ≡ record self.old { write_faults = count_after self.old.write_faults 1 } }
        ensures later { self.old.write_faults ≤ self.new.write_faults }
    {
        self.write_faults = self.write_faults.saturating_add(1);
    }

    /// Counts bytes that are asked for.
    pub fn asks(&mut self, size: usize)
        ensures counted { self.new ≡ after_asking self.old size }
        ensures later { self.old.asked ≤ self.new.asked }
    {
        self.asked = self.asked.saturating_add(size as u64);
    }

    /// How many bytes were asked for.
    pub fn asked(&self) -> u64
        ensures { result ≡ self.now.asked }
    {
        self.asked
    }
}
