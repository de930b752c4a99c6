//! The end of a packed output: the last block, and the chunk table.
ghost use Rattle.std.specs.Prelude.{◌≡◌, ◌↔◌, ◌+◌, ◌*◌, ◌^◌, ◌<◌, ◌≤◌, ◌++◌, [], length, sum};
ghost use Rattle.std.specs.Prelude.{OnOk};
ghost use Rattle.std.specs.Prelude.{IfOk, IfErr, IsTrue};
ghost use Rattle.las_outside.specs.Frames.{OnlyWrites};
ghost use Rattle.las_outside.specs.Outside.{with_bytes};
ghost use Rattle.laz_table.specs.Table.{table_bytes};
ghost use Rattle.laz_forms.specs.Packing.{blocks_of};
ghost use Rattle.laz_writer.specs.Writing.{OfPacked, StopsIn, block_size, every_chunk, HoldsWhole, chunk_lengths};
ghost use Rattle.laz_writer.specs.Writing.{packed_text};

use crate::packing::Packing;
use crate::put::put;
use las_outside::{Files, Gate};
use laz_forms::Fault;
use laz_table::table_of;
use std::alloc::{AllocError, Global};
use std::thread::Threads;

impl Packing {
    // Whether there are records that make no full block.
    fn has_rest(&self) -> bool
        ensures { IsTrue result ↔ (0 < length self.now.rest) }
    {
        !self.rest.is_empty()
    }

    // Keeps back the last block too, which is not full.
    fn keep_rest(&mut self) -> Result<(), AllocError>
        requires short { length self.old.rest < block_size self.old.plan }
        ensures kept { OnOk result (self.new ≡ record self.old {
          kept = self.old.kept ++ blocks_of (block_size self.old.plan) self.old.rest;
          rest = [];
        }) }
        ensures plan { self.new.plan ≡ self.old.plan }
    {
        if self.has_rest() {
            return self.keep();
        }
        Ok(())
    }

    // Packs all blocks that are left, the last one too, together, and appends their chunks in order.
    fn append_rest<R: Threads + Sync, F: Files, G: Gate>(
        &mut self,
        rt: &R,
        alloc: Global,
        files: &mut F,
        gate: &G,
        name: &str,
    ) -> Result<(), Fault>
        requires few { length self.old.kept < 2 * self.old.plan.workers }
        requires stands { HoldsWhole (F.seen files.old) name.now self.old }
        ensures appended { OfPacked (F.seen files.old) name.now self.old
            (λ before front records. OnOk result (F.seen files.new
            ≡ with_bytes before name.now (front ++ every_chunk self.old.plan records))) }
        ensures lengths { OfPacked (F.seen files.old) name.now self.old
            (λ before front records. OnOk result (self.new.lengths ≡ chunk_lengths self.old.plan records)) }
        ensures stopped { OfPacked (F.seen files.old) name.now self.old
            (λ before front records. IfErr result (StopsIn before (F.seen files.new) name.now
            (front ++ every_chunk self.old.plan records))) }
        ensures plan { self.new.plan ≡ self.old.plan }
        ensures writes { OnlyWrites (F.seen files.old) (F.seen files.new) }
    {
        self.keep_rest()?;
        self.append_kept(rt, alloc, files, gate, name)?;
        Ok(())
    }

    // Where the chunk table begins: after the pointer and all chunks.
    fn table_place(&self) -> u64
        requires few { length self.now.lengths ≤ 2 ^ 24 }
        ensures place { result ≡ self.now.plan.pointer + 8 + sum self.now.lengths }
        ensures bound { result ≤ 2 ^ 57 }
    {
        let mut place = self.pointer + 8;
        for length in &self.lengths {
            place += u64::from(*length);
        }
        place
    }

    // The chunk table.
    fn table(&self, alloc: Global) -> Result<Vec<u8>, AllocError>
        requires few { length self.now.lengths ≤ 2 ^ 24 }
        ensures { IfOk result (λ table. table.items ≡ table_bytes [] self.now.lengths) }
    {
        table_of(alloc, &self.lengths)
    }

    /// Appends all that a packed output has after its front: the chunks of the blocks that are left, and the chunk
    /// table. It answers where the table begins, and the length of the file.
    pub(crate) fn append_all<R: Threads + Sync, F: Files, G: Gate>(
        &mut self,
        rt: &R,
        alloc: Global,
        files: &mut F,
        gate: &G,
        name: &str,
    ) -> Result<(u64, u64), Fault>
        requires few { length self.old.kept < 2 * self.old.plan.workers }
        requires stands { HoldsWhole (F.seen files.old) name.now self.old }
        ensures appended { OfPacked (F.seen files.old) name.now self.old
            (λ before front records. OnOk result (F.seen files.new
            ≡ with_bytes before name.now (front ++ packed_text self.old.plan records))) }
        ensures place { OfPacked (F.seen files.old) name.now self.old (λ before front records. IfOk result
            (λ r. r.0 ≡ self.old.plan.pointer + 8 + length (every_chunk self.old.plan records))) }
        ensures end { OfPacked (F.seen files.old) name.now self.old (λ before front records. IfOk result
            (λ r. r.1 ≡ self.old.plan.pointer + 8 + length (packed_text self.old.plan records))) }
        ensures stopped { OfPacked (F.seen files.old) name.now self.old
            (λ before front records. IfErr result (StopsIn before (F.seen files.new) name.now
            (front ++ packed_text self.old.plan records))) }
        ensures writes { OnlyWrites (F.seen files.old) (F.seen files.new) }
    {
        self.append_rest(rt, alloc, files, gate, name)?;
        let place = self.table_place();
        let table = self.table(alloc)?;
        put(files, name, table.as_slice())?;
        Ok((place, place + table.len() as u64))
    }
}
