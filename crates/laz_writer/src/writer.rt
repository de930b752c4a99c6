//! An output of point records, plain or packed, that is written as its records come.
ghost use Rattle.std.specs.Prelude.{◌≡◌, ◌⊎◌, ◌+◌, ◌*◌, ◌%◌, ◌/◌, ◌^◌, ◌<◌, ◌≤◌, ◌++◌, [], ℕ, List, length};
ghost use Rattle.std.specs.Prelude.{true, false, Bool};
ghost use Rattle.std.specs.Prelude.{OnOk, OnErr, IfOk, IfErr, IsErrOf};
ghost use Rattle.std.specs.Option.{ForSome};
ghost use Rattle.las_header.specs.Fields.{is_packed};
ghost use Rattle.las_header.specs.Plain.{cut_all};
ghost use Rattle.las_header.specs.Vlrs.{laszip_vlrs_of};
ghost use Rattle.las_outside.specs.Faults.{Rose};
ghost use Rattle.las_header.specs.Limits.{IsChunkSize};
ghost use Rattle.las_outside.specs.Limits.{AreWorkers};
ghost use Rattle.las_outside.specs.Frames.{IsCalm, OnlyWrites};
ghost use Rattle.las_outside.specs.Outside.{Outside};
ghost use Rattle.laz_forms.specs.Outputs.{Output, front, stopped};
ghost use Rattle.laz_writer.specs.Writing.{WriterHasRoom, IsBegun, IsTally, OfOutput, Stands, AddsPoints};
ghost use Rattle.laz_writer.specs.Writing.{StopsBeginning, new_output};
ghost use Rattle.laz_writer.specs.Writing.{StopsIn, first_packing};
ghost use Rattle.laz_forms.specs.declared.fault.Fault.TheVariants.{Memory, Write};

use crate::begin::{first_form, new_packing, no_tally, put_front};
use crate::packing::Packing;
use crate::put::put;
use crate::tally::count_all;
use las_header::{Counts, Head};
use las_outside::{Files, Gate};
use laz_forms::Fault;
use std::alloc::{AllocError, Global};
use std::marker::Model;
use std::thread::Threads;

/// What writes an output: a head, and then records as they come, plain or packed in chunks of one number of points.
///
/// A packed output is packed by workers, side by side. What is written does not depend on them. After any `Err` the
/// writer has failed: no record can be pushed and the output cannot be finished.
pub struct Writer {
    pub(crate) name: String,
    // The length of the plain head, and of a record.
    pub(crate) start: u64,
    pub(crate) size: usize,
    pub(crate) most: u32,
    // How many bytes of records were taken.
    pub(crate) taken: u64,
    // Whether the head has a second set of counts.
    pub(crate) long_counts: bool,
    pub(crate) counts: Option<Counts>,
    pub(crate) packing: Option<Packing>,
    pub(crate) failed: bool,
}

// By hand, so that each caller drops a writer by one call.
impl Drop for Writer {
    fn drop(self) {
        let Writer {
            name,
            start: _,
            size: _,
            most: _,
            taken: _,
            long_counts: _,
            counts: _,
            packing,
            failed: _,
        } = self;
        drop(name);
        drop(packing);
    }
}

impl Model for Writer {
    ghost use Rattle.std.specs.Prelude.{string_bytes};
    ghost use Rattle.laz_writer.specs.Writing.{WriterSeen};

    ghost Value = { WriterSeen };

    ghost view = { λ w. record {
      name = string_bytes w.name;
      start = w.start;
      size = w.size;
      most = w.most;
      taken = w.taken;
      long_counts = w.long_counts;
      counts = w.counts;
      packing = w.packing;
      failed = w.failed;
    } };
}

// The packing of an output, if it is packed.
fn packing_of(
    alloc: Global,
    head: &Head,
    chunk: Option<u32>,
    most: u32,
    workers: u32,
    pointer: u32,
) -> Result<Option<Packing>, AllocError>
    requires chunk { ForSome chunk IsChunkSize }
    requires workers { AreWorkers workers }
    ensures { IfOk result (λ p. p ≡ first_packing head.now.bytes most pointer workers chunk) }
{
    let Some(chunk) = chunk else {
        return Ok(None);
    };
    let packing = new_packing(alloc, head, chunk, most, workers, pointer)?;
    Ok(Some(packing))
}

impl Writer {
    /// Begins an output of at most `most` records: creates the file and appends the head, and if it is packed, eight
    /// bytes for the pointer to the chunk table.
    ///
    /// The head is plain and has no laszip VLR. With a chunk size, 256 to 250,000 points, the output is packed by
    /// `workers` workers, 1 to 8. If the records are counted, the counts of the head are first zero, and `finish` sets
    /// them. All memory that packing needs is taken before the file is created.
    pub fn create<F: Files>(
        alloc: Global,
        files: &mut F,
        name: &str,
        head: &Head,
        chunk: Option<u32>,
        counted: bool,
        most: u32,
        workers: u32,
    ) -> Result<Writer, Fault>
        requires plain { is_packed head.now.bytes ≡ false }
        requires none { laszip_vlrs_of head.now.bytes ≡ [] }
        requires chunk { ForSome chunk IsChunkSize }
        requires workers { AreWorkers workers }

        ensures stands { IfOk result (λ writer. Stands (F.seen files.old) (F.seen files.new) writer
            (new_output name.now head.now.bytes chunk counted) []) }
        ensures most { IfOk result (λ writer. writer.most ≡ most) }
        ensures open { IfOk result (λ writer. writer.failed ≡ false) }

        // After an error the output is as before, or it holds a prefix of the front.
        ensures stopped { IfErr result (StopsBeginning (F.seen files.old) (F.seen files.new) name.now
            (front (new_output name.now head.now.bytes chunk counted))) }
        // Out of memory leaves all as it was: nothing is created before all memory is there.
        ensures memory { IsErrOf result Memory → F.seen files.new ≡ F.seen files.old }
        ensures fault { IfErr result (λ fault. (fault ≡ Memory) ⊎ (fault ≡ Write)) }
        ensures write { IsErrOf result Write → Rose (F.seen files.old).write_faults (F.seen files.new).write_faults }
        ensures calm { OnOk result (IsCalm (F.seen files.old) (F.seen files.new)) }
        ensures writes { OnlyWrites (F.seen files.old) (F.seen files.new) }
    {
        // Its contract says what holds of every head.
        let _ = head.bytes();
        let start = head.offset();
        let size = head.record_length();
        let minor = head.minor();
        let counts = no_tally(counted);
        let first = first_form(alloc, head, chunk, counted)?;
        let place = first.offset();
        let packing = packing_of(alloc, head, chunk, most, workers, place)?;
        let owned = String::from_str(alloc, name)?;
        let packed = chunk.is_some();
        put_front(files, name, first.bytes(), packed)?;
        Ok(Writer {
            name: owned,
            start: u64::from(start),
            size: usize::from(size),
            most,
            taken: 0,
            long_counts: minor == 4,
            counts,
            packing,
            failed: false,
        })
    }

    /// Whether a call has failed.
    pub fn failed(&self) -> bool
        ensures { result ≡ self.now.failed }
    {
        self.failed
    }

    // Appends records, if the output is plain, or has them packed.
    fn append_points<R: Threads + Sync, F: Files, G: Gate>(
        &mut self,
        rt: &R,
        alloc: Global,
        files: &mut F,
        gate: &G,
        records: &[u8],
    ) -> Result<(), Fault>
        requires points { (before : Outside) × (out : Output) × (bytes : List ℕ)
            × Stands before (F.seen files.old) self.old out bytes
            × WriterHasRoom self.old bytes records.now }
        ensures adds { AddsPoints result (F.seen files.old) (F.seen files.new) self.old self.new.packing records.now }
        ensures same { self.new ≡ record self.old { packing = self.new.packing } }
        ensures writes { OnlyWrites (F.seen files.old) (F.seen files.new) }
    {
        let name = self.name.as_str();
        let Some(packing) = &mut self.packing else {
            return put(files, name, records);
        };
        packing.add(rt, alloc, files, gate, name, records)?;
        Ok(())
    }

    // Appends the records of a block as `append_points` does. Nothing is known of the block then.
    fn append_block<R: Threads + Sync, F: Files, G: Gate>(
        &mut self,
        rt: &R,
        alloc: Global,
        files: &mut F,
        gate: &G,
        block: &mut Vec<u8>,
    ) -> Result<(), Fault>
        requires points { (before : Outside) × (out : Output) × (bytes : List ℕ)
            × Stands before (F.seen files.old) self.old out bytes
            × WriterHasRoom self.old bytes block.old.items }
        ensures adds { AddsPoints result (F.seen files.old) (F.seen files.new) self.old self.new.packing
            block.old.items }
        ensures same { self.new ≡ record self.old { packing = self.new.packing } }
        ensures writes { OnlyWrites (F.seen files.old) (F.seen files.new) }
    {
        let name = self.name.as_str();
        let Some(packing) = &mut self.packing else {
            return put(files, name, block);
        };
        packing.add_block(rt, alloc, files, gate, name, block)?;
        Ok(())
    }

    // The counts with those of some records more, if records are counted.
    fn tallied(&self, records: &[u8]) -> Option<Counts>
        requires size { 20 ≤ self.now.size }
        requires whole { length records.now % self.now.size ≡ 0 }
        requires tally { (counted : Bool) × (before : List (List ℕ)) × IsTally counted self.now.counts before
            × (length before + length records.now / self.now.size < 2 ^ 32) }
        ensures { (counted : Bool) (before : List (List ℕ)) → IsTally counted self.now.counts before
            → IsTally counted result (before ++ cut_all self.now.size records.now) }
    {
        if let Some(mut counts) = self.counts {
            count_all(&mut counts, records, self.size);
            return Some(counts);
        }
        None
    }

    /// Adds records, as their bytes one after another: whole ones, and at most `most` in all.
    ///
    /// Plain records are appended by one call. Of a packed output the full chunks are appended in order, one call each;
    /// at most two for each worker are kept back, which are then packed together.
    pub fn push<R: Threads + Sync, F: Files, G: Gate>(
        &mut self,
        rt: &R,
        alloc: Global,
        files: &mut F,
        gate: &G,
        records: &[u8],
    ) -> Result<(), Fault>
        requires open { self.old.failed ≡ false }
        requires whole { length records.now % self.old.size ≡ 0 }
        requires most { self.old.taken + length records.now ≤ self.old.size * self.old.most }
        requires stands { IsBegun (F.seen files.old) self.old }

        ensures stands { OfOutput (F.seen files.old) self.old
            (λ before out bytes. OnOk result (Stands before (F.seen files.new) self.new out (bytes ++ records.now))) }
        ensures most { self.new.most ≡ self.old.most }
        ensures open { OnOk result (self.new.failed ≡ false) }

        // After an error the output holds a prefix of its front and of what full chunks give, or of all records.
        ensures stopped { OfOutput (F.seen files.old) self.old
            (λ before out bytes. IfErr result (StopsIn before (F.seen files.new) out.name (stopped out
            (bytes ++ records.now)))) }
        ensures failed { OnErr result (self.new.failed ≡ true) }
        ensures fault { IfErr result (λ fault. (fault ≡ Memory) ⊎ (fault ≡ Write)) }
        ensures write { IsErrOf result Write → Rose (F.seen files.old).write_faults (F.seen files.new).write_faults }
        ensures calm { OnOk result (IsCalm (F.seen files.old) (F.seen files.new)) }
        ensures writes { OnlyWrites (F.seen files.old) (F.seen files.new) }
    {
        let counts = self.tallied(records);
        match self.append_points(rt, alloc, files, gate, records) {
            Ok(()) => {}
            Err(fault) => {
                self.failed = true;
                return Err(fault);
            }
        }
        self.counts = counts;
        self.taken += records.len() as u64;
        Ok(())
    }

    /// Adds the records of a block as `push` does. Nothing is known of the block then: if it is all of the next chunk,
    /// it is kept back as it stands, and a buffer takes its place.
    pub fn push_block<R: Threads + Sync, F: Files, G: Gate>(
        &mut self,
        rt: &R,
        alloc: Global,
        files: &mut F,
        gate: &G,
        block: &mut Vec<u8>,
    ) -> Result<(), Fault>
        requires open { self.old.failed ≡ false }
        requires whole { length block.old.items % self.old.size ≡ 0 }
        requires most { self.old.taken + length block.old.items ≤ self.old.size * self.old.most }
        requires stands { IsBegun (F.seen files.old) self.old }
        ensures stands { OfOutput (F.seen files.old) self.old
            (λ before out bytes. OnOk result (Stands before (F.seen files.new) self.new out
            (bytes ++ block.old.items))) }
        ensures most { self.new.most ≡ self.old.most }
        ensures open { OnOk result (self.new.failed ≡ false) }
        ensures stopped { OfOutput (F.seen files.old) self.old
            (λ before out bytes. IfErr result (StopsIn before (F.seen files.new) out.name (stopped out
            (bytes ++ block.old.items)))) }
        ensures failed { OnErr result (self.new.failed ≡ true) }
        ensures fault { IfErr result (λ fault. (fault ≡ Memory) ⊎ (fault ≡ Write)) }
        ensures write { IsErrOf result Write → Rose (F.seen files.old).write_faults (F.seen files.new).write_faults }
        ensures calm { OnOk result (IsCalm (F.seen files.old) (F.seen files.new)) }
        ensures writes { OnlyWrites (F.seen files.old) (F.seen files.new) }
    {
        let (counts, length) = (self.tallied(block), block.len());
        match self.append_block(rt, alloc, files, gate, block) {
            Ok(()) => {}
            Err(fault) => {
                self.failed = true;
                return Err(fault);
            }
        }
        self.counts = counts;
        self.taken += length as u64;
        Ok(())
    }
}
