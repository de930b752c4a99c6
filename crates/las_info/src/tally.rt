//! A tally that a tap keeps.
ghost use Rattle.std.specs.Prelude.{◌≡◌, ◌+◌, ◌-◌, ◌^◌, ◌<◌, ◌≤◌, ◌++◌, ◌∷◌, [], length, replicate, IfOk, OnErr, OnOk};
ghost use Rattle.std.specs.Prelude.{◌==◌, ◌⊎◌, if◌then◌else◌, vec_len};
ghost use Rattle.std.specs.FinMap as map;
ghost use Rattle.las_info.specs.Cells.{bins_from};
ghost use Rattle.las_info.specs.Tallies.{count_at, with_many, with_one};

use std::alloc::{AllocError, Global};
use std::marker::Model;

/// Bins, each with a count. Contracts see it as a finite map of the bins with a count above 0.
///
/// There is a count for each bin from 0 to the greatest that was counted: 2^16 of them for 16-bit bins.
#[derive(Drop)]
pub struct Counted {
    alloc: Global,
    counts: Vec<u64>,
}

impl Model for Counted {
    ghost use Rattle.std.specs.Prelude.{◌≤◌, ◌^◌, length};
    ghost use Rattle.std.specs.FinMap as map;
    ghost use Rattle.std.specs.Coded.{coded_ℕ};
    ghost use Rattle.las_info.specs.Cells.{bins_from};
    ghost use Rattle.las_info.specs.Tallies.{Tally};

    ghost Value = { Tally };

    ghost coded = { map.code coded_ℕ coded_ℕ };

    ghost view = { λ t. map.from_sorted (bins_from 0 t.counts.items) };

    ghost invariant = { λ t. length t.counts.items ≤ 2 ^ 32 };
}

// Adds a bin with its count, if this is above 0.
fn push_row(rows: &mut Vec<(u32, u64)>, bin: u32, count: u64) -> Result<(), AllocError>
    ensures { OnOk result (rows.new.items ≡ rows.old.items ++ bins_from bin (count ∷ [])) }
{
    if count > 0 {
        rows.push((bin, count))?;
    }
    Ok(())
}

// The bins with a count above 0, by ascending bin.
fn rows_of(alloc: Global, counts: &[u64]) -> Result<Vec<(u32, u64)>, AllocError>
    requires { length counts.now ≤ 2 ^ 32 }
    ensures { IfOk result (λ rows. rows.items ≡ bins_from 0 counts.now) }
{
    let mut rows = Vec::new(alloc);
    for i in 0..counts.len() {
        push_row(&mut rows, i as u32, counts[i])?;
    }
    Ok(rows)
}

// Makes counts for the bins up to this one, if there are none. `Err` means out of memory, and nothing has changed.
fn reach(counts: &mut Vec<u64>, bin: usize) -> Result<(), AllocError>
    requires { bin < 2 ^ 32 }
    ensures ok { OnOk result (counts.new.items ≡ counts.old.items ++ replicate (bin + 1 - vec_len counts.old) 0) }
    ensures within { OnOk result (bin < length counts.new.items) }
    ensures err { OnErr result (counts.new.items ≡ counts.old.items) }
{
    if bin < counts.len() {
        return Ok(());
    }
    counts.resize(bin + 1, 0)
}

// How often a bin was counted, if this one was.
#[inline(always)]
fn again(counted: usize, bin: usize) -> u64
    ensures is { result ≡ (if counted == bin then 1 else 0) }
    ensures once { result ≤ 1 }
{
    if counted == bin {
        return 1;
    }
    0
}

impl Counted {
    /// No bin yet.
    pub(crate) fn new(alloc: Global) -> Counted
        ensures { result ≡ map.empty }
    {
        Counted {
            alloc,
            counts: Vec::new(alloc),
        }
    }

    /// Adds one to a bin. `Err` means out of memory, and nothing has changed.
    pub(crate) fn add(&mut self, bin: u32) -> Result<(), AllocError>
        requires { count_at self.old bin < 2 ^ 64 - 1 }
        ensures ok { OnOk result (self.new ≡ with_one self.old bin) }
        ensures err { OnErr result (self.new ≡ self.old) }
    {
        let at = bin as usize;
        if at < self.counts.len() {
            self.counts[at] += 1;
            return Ok(());
        }
        self.add_new(bin)
    }

    /// Adds one to a bin, and then one to another, which may be the same. Both counts are read before either is written:
    /// a count that was just written is slow to read. `Err` means out of memory, and the first or none was added.
    #[inline(always)]
    pub(crate) fn add_two(&mut self, first: u32, second: u32) -> Result<(), AllocError>
        requires first { count_at self.old first < 2 ^ 64 - 2 }
        requires second { count_at self.old second < 2 ^ 64 - 2 }
        ensures ok { OnOk result (self.new ≡ with_one (with_one self.old first) second) }
        ensures err { OnErr result ((self.new ≡ self.old) ⊎ (self.new ≡ with_one self.old first)) }
    {
        let (at, other) = (first as usize, second as usize);
        if at < self.counts.len() && other < self.counts.len() {
            let before = again(at, other);
            let count = self.counts[at] + 1;
            let others = self.counts[other] + before + 1;
            self.counts[at] = count;
            self.counts[other] = others;
            return Ok(());
        }
        self.add_new(first)?;
        self.add_new(second)
    }

    /// Adds a number to a bin. `Err` means out of memory, and nothing has changed.
    pub(crate) fn add_more(&mut self, bin: u32, more: u64) -> Result<(), AllocError>
        requires { count_at self.old bin + more < 2 ^ 64 }
        ensures ok { OnOk result (self.new ≡ with_many self.old bin more) }
        ensures err { OnErr result (self.new ≡ self.old) }
    {
        reach(&mut self.counts, bin as usize)?;
        self.counts[bin as usize] += more;
        Ok(())
    }

    // Adds one to a bin that may have no count yet. It stays out of line, so that `add` keeps nothing on the stack.
    #[cold]
    #[inline(never)]
    fn add_new(&mut self, bin: u32) -> Result<(), AllocError>
        requires { count_at self.old bin < 2 ^ 64 - 1 }
        ensures ok { OnOk result (self.new ≡ with_one self.old bin) }
        ensures err { OnErr result (self.new ≡ self.old) }
    {
        reach(&mut self.counts, bin as usize)?;
        self.counts[bin as usize] += 1;
        Ok(())
    }

    /// The bins with their counts, by ascending bin. `Err` means out of memory.
    pub(crate) fn rows(&self) -> Result<Vec<(u32, u64)>, AllocError>
        ensures { IfOk result (λ rows. rows.items ≡ map.entries self.now) }
    {
        let rows = rows_of(self.alloc, self.counts.as_slice())?;
        Ok(rows)
    }
}
