//! What records pass on their way to an output.
ghost use Rattle.std.specs.Prelude.{◌≡◌, ◌+◌, ◌/◌, ◌%◌, ◌^◌, ◌≤◌, ◌<◌, ℕ, length, take, map};
ghost use Rattle.std.specs.Prelude.{All, IfOk, OnOk, true, vec_len};
ghost use Rattle.las_header.specs.Plain.{cut_all};
ghost use Rattle.las_filter.specs.Changes.{HasClass};
ghost use Rattle.las_filter.specs.Kept.{steps_of};
ghost use Rattle.las_info.specs.Tallies.{count_at, shown_all};
ghost use Rattle.las_convert.specs.Adding.{Adds, AfterAny, AfterSome, ChangesNothing, HoldsKept, ComesBy};

use crate::keeping::{Part, keep_records};
use las_filter::Plan;
use las_header::POINT_RECORD;
use las_info::{Tap, show_block};
use las_thin::Sieve;
use std::alloc::{AllocError, Global};

/// What the records that a plan keeps pass on their way to an output: a sieve, and taps that see each record which is
/// written, as it is written.
pub struct Passage {
    pub(crate) sieve: Sieve,
    pub(crate) taps: Vec<Box<dyn Tap>>,
    // How many records have come by, those included that were not kept.
    pub(crate) read: u64,
    // A buffer for what is kept of a block.
    pub(crate) buffer: Vec<u8>,
}

// By hand, so that each caller drops a passage by one call.
impl Drop for Passage {
    fn drop(self) {
        let Passage {
            sieve,
            taps,
            read: _,
            buffer,
        } = self;
        drop(sieve);
        drop(taps);
        drop(buffer);
    }
}

impl Passage {
    /// A passage by which no record has come yet.
    pub fn new(alloc: Global, sieve: Sieve, taps: Vec<Box<dyn Tap>>) -> Passage
        ensures sieve { result.sieve ≡ sieve }
        ensures taps { result.taps.items ≡ taps.items }
        ensures read { result.read ≡ 0 }
    {
        Passage {
            sieve,
            taps,
            read: 0,
            buffer: Vec::new(alloc),
        }
    }

    /// The taps.
    pub fn taps(&self) -> &[Box<dyn Tap>]
        ensures { result.now ≡ self.now.taps.items }
    {
        &self.taps
    }

    // Whether each record goes on as it was read: the plan has no filter and no change, every record passes the sieve,
    // and there is no tap to see it.
    pub(crate) fn changes_nothing(&self, plan: &Plan) -> bool
        ensures { result ≡ true → ChangesNothing (steps_of plan.now) self.now.sieve.settings self.now.taps.items }
    {
        plan.keeps.is_empty()
            && plan.changes.is_empty()
            && self.sieve.passes_all()
            && self.taps.is_empty()
    }

    // Makes the buffer at least as long as this.
    pub(crate) fn grow(&mut self, size: usize) -> Result<(), AllocError>
        ensures long { OnOk result (size ≤ vec_len self.new.buffer) }
        ensures sieve { self.new.sieve ≡ self.old.sieve }
        ensures taps { self.new.taps.items ≡ self.old.taps.items }
        ensures read { self.new.read ≡ self.old.read }
    {
        if self.buffer.len() < size {
            self.buffer.resize(size, 0)?;
        }
        Ok(())
    }

    // Keeps in the buffer, changed, the records of a block that a plan keeps and the sieve lets pass, up to the first
    // whose change is refused.
    pub(crate) fn keep(
        &mut self,
        plan: &Plan,
        size: usize,
        block: &[u8],
    ) -> Result<Part, AllocError>
        requires size { POINT_RECORD ≤ size }
        requires whole { length block.now % size ≡ 0 }
        requires classes { All HasClass plan.now.changes.items }
        requires few { self.old.read + length block.now / size < 2 ^ 32 }
        requires after { AfterSome (steps_of plan.now) self.old.sieve self.old.read }
        ensures settings { self.new.sieve.settings ≡ self.old.sieve.settings }
        ensures taps { self.new.taps.items ≡ self.old.taps.items }
        ensures within { IfOk result (λ part. part.length ≤ length block.now) }
        ensures long { IfOk result (λ part. part.length ≤ vec_len self.new.buffer) }
        ensures read { OnOk result (self.new.read ≡ self.old.read + length block.now / size) }
        ensures kept { AfterAny (steps_of plan.now) self.old.sieve self.old.read (λ keeping before. IfOk result
            (HoldsKept (Adds keeping before (cut_all size block.now)) self.new.buffer.items size)) }
        ensures after { ComesBy result (λ part. part.refused) (steps_of plan.now) self.old.sieve self.old.read
            (cut_all size block.now) self.new.sieve self.new.read }
    {
        self.grow(block.len())?;
        let part = keep_records(
            plan,
            &mut self.sieve,
            self.read,
            size,
            block,
            &mut self.buffer,
        )?;
        self.read += (block.len() / size) as u64;
        Ok(part)
    }

    // Shows the records of the first bytes of the buffer to the taps.
    pub(crate) fn show(&mut self, size: usize, length: usize) -> Result<(), AllocError>
        requires size { POINT_RECORD ≤ size }
        requires within { length ≤ vec_len self.old.buffer }
        requires whole { length % size ≡ 0 }
        requires room { All (λ tap. (bin : ℕ) → count_at (tap_seen tap).tally bin + length / size < 2 ^ 64)
            self.old.taps.items }
        ensures shown { OnOk result (map (λ tap. tap_seen tap) self.new.taps.items
            ≡ map (λ tap. shown_all (tap_seen tap) (cut_all size (take length self.old.buffer.items)))
            self.old.taps.items) }
        ensures sieve { self.new.sieve ≡ self.old.sieve }
        ensures read { self.new.read ≡ self.old.read }
    {
        show_taps(&mut self.taps, size, &self.buffer[..length])
    }
}

// Shows whole records of one size, which stand one after another, to taps.
fn show_taps(taps: &mut Vec<Box<dyn Tap>>, size: usize, block: &[u8]) -> Result<(), AllocError>
    requires size { POINT_RECORD ≤ size }
    requires whole { length block.now % size ≡ 0 }
    requires room { All (λ tap. (bin : ℕ) → count_at (tap_seen tap).tally bin + length block.now / size < 2 ^ 64)
        taps.old.items }
    ensures shown { OnOk result (map (λ tap. tap_seen tap) taps.new.items
        ≡ map (λ tap. shown_all (tap_seen tap) (cut_all size block.now)) taps.old.items) }
{
    show_block(taps, size, block)
}
