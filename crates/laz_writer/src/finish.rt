//! The end of an output: it is finished, or stopped.
ghost use Rattle.std.specs.Prelude.{◌≡◌, ◌⊎◌, ◌+◌, ◌++◌, length, false};
ghost use Rattle.std.specs.Prelude.{OnOk, IfOk, IfErr, IsErrOf};
ghost use Rattle.las_outside.specs.Faults.{Rose};
ghost use Rattle.las_outside.specs.Frames.{IsCalm, OnlyWrites};
ghost use Rattle.las_outside.specs.Outside.{with_bytes};
ghost use Rattle.laz_forms.specs.Outputs.{draft_of, finished, pointer_patches, stopped};
ghost use Rattle.laz_writer.specs.Writing.{IsBegun, OfOutput, StopsIn, StopsUnfinished, pointer_patch};
ghost use Rattle.laz_writer.specs.Writing.{tally_patches};
ghost use Rattle.laz_forms.specs.declared.fault.Fault.TheVariants.{Memory, Write};

use crate::begin::pointer_bytes;
use crate::patch::{Patch, add_patch, patch_all};
use crate::writer::Writer;
use las_header::{COUNTS_AT, LONG_COUNTS_AT};
use las_outside::{Files, Gate};
use laz_forms::Fault;
use std::alloc::{AllocError, Global};
use std::thread::Threads;

impl Writer {
    // The patches that set the counts.
    fn count_patches(&self, alloc: Global) -> Result<Vec<Patch>, AllocError>
        ensures { IfOk result (λ list. list.items ≡ tally_patches self.now.long_counts self.now.counts) }
    {
        let mut list = Vec::new(alloc);
        let Some(counts) = self.counts else {
            return Ok(list);
        };
        add_patch(alloc, &mut list, COUNTS_AT as u64, &counts.to_bytes())?;
        if self.long_counts {
            add_patch(
                alloc,
                &mut list,
                LONG_COUNTS_AT as u64,
                &counts.to_long_bytes(),
            )?;
        }
        Ok(list)
    }

    // All patches of the output, in order: the counts, and then the pointer, whose place and value are these.
    fn patches(&self, alloc: Global, pointer: Option<(u64, u64)>) -> Result<Vec<Patch>, AllocError>
        ensures { IfOk result (λ list. list.items
            ≡ tally_patches self.now.long_counts self.now.counts ++ pointer_patch pointer) }
    {
        let mut list = self.count_patches(alloc)?;
        if let Some((at, table)) = pointer {
            add_patch(alloc, &mut list, at, &pointer_bytes(table))?;
        }
        Ok(list)
    }

    // Appends what is left of the records, and for a packed output the chunk table. It answers the pointer and the
    // length of the file.
    fn append_draft<R: Threads + Sync, F: Files, G: Gate>(
        &mut self,
        rt: &R,
        alloc: Global,
        files: &mut F,
        gate: &G,
    ) -> Result<(Option<(u64, u64)>, u64), Fault>
        requires stands { IsBegun (F.seen files.old) self.old }
        ensures appended { OfOutput (F.seen files.old) self.old
            (λ before out records. OnOk result (F.seen files.new
            ≡ with_bytes before out.name (draft_of out records))) }
        ensures pointer { OfOutput (F.seen files.old) self.old (λ before out records. IfOk result
            (λ r. pointer_patch r.0 ≡ pointer_patches out.chunk out.head records)) }
        ensures end { OfOutput (F.seen files.old) self.old (λ before out records. IfOk result
            (λ r. r.1 ≡ length (draft_of out records))) }
        ensures stopped { OfOutput (F.seen files.old) self.old
            (λ before out records. IfErr result (StopsIn before (F.seen files.new) out.name (draft_of out records))) }
        ensures same { self.new ≡ record self.old { packing = self.new.packing } }
        ensures writes { OnlyWrites (F.seen files.old) (F.seen files.new) }
    {
        let name = self.name.as_str();
        let Some(packing) = &mut self.packing else {
            return Ok((None, self.start + self.taken));
        };
        let at = packing.pointer();
        let (table, end) = packing.append_all(rt, alloc, files, gate, name)?;
        Ok((Some((at, table)), end))
    }

    // Appends the full chunks that were kept back.
    fn append_full<R: Threads + Sync, F: Files, G: Gate>(
        &mut self,
        rt: &R,
        alloc: Global,
        files: &mut F,
        gate: &G,
    ) -> Result<(), Fault>
        requires stands { IsBegun (F.seen files.old) self.old }
        ensures appended { OfOutput (F.seen files.old) self.old
            (λ before out records. OnOk result (F.seen files.new ≡ with_bytes before out.name (stopped out records))) }
        ensures stopped { OfOutput (F.seen files.old) self.old
            (λ before out records. IfErr result (StopsIn before (F.seen files.new) out.name (stopped out records))) }
        ensures fault { IfErr result (λ fault. (fault ≡ Memory) ⊎ (fault ≡ Write)) }
        ensures write { IsErrOf result Write → Rose (F.seen files.old).write_faults (F.seen files.new).write_faults }
        ensures calm { OnOk result (IsCalm (F.seen files.old) (F.seen files.new)) }
        ensures writes { OnlyWrites (F.seen files.old) (F.seen files.new) }
    {
        let name = self.name.as_str();
        let Some(packing) = &mut self.packing else {
            return Ok(());
        };
        packing.append_kept(rt, alloc, files, gate, name)?;
        Ok(())
    }

    // What `finish` does, before the writer is dropped.
    fn finish_all<R: Threads + Sync, F: Files, G: Gate>(
        &mut self,
        rt: &R,
        alloc: Global,
        files: &mut F,
        gate: &G,
    ) -> Result<u64, Fault>
        requires stands { IsBegun (F.seen files.old) self.old }

        ensures finished { OfOutput (F.seen files.old) self.old
            (λ before out records. OnOk result (F.seen files.new
            ≡ with_bytes before out.name (finished out records))) }
        ensures length { OfOutput (F.seen files.old) self.old (λ before out records. IfOk result
            (λ n. n ≡ length (finished out records))) }
        ensures stopped { OfOutput (F.seen files.old) self.old (λ before out records. IfErr result
            (StopsUnfinished before (F.seen files.new) out records)) }
        ensures fault { IfErr result (λ fault. (fault ≡ Memory) ⊎ (fault ≡ Write)) }
        ensures write { IsErrOf result Write → Rose (F.seen files.old).write_faults (F.seen files.new).write_faults }
        ensures calm { OnOk result (IsCalm (F.seen files.old) (F.seen files.new)) }
        ensures writes { OnlyWrites (F.seen files.old) (F.seen files.new) }
    {
        let (pointer, end) = self.append_draft(rt, alloc, files, gate)?;
        let patches = self.patches(alloc, pointer)?;
        patch_all(files, self.name.as_str(), patches.as_slice())?;
        Ok(end)
    }

    /// Finishes the output: packs and appends what is left of the records, and the chunk table, and then sets the
    /// counts, if they are counted, and the pointer to the table. It answers the length of the file.
    pub fn finish<R: Threads + Sync, F: Files, G: Gate>(
        self,
        rt: &R,
        alloc: Global,
        files: &mut F,
        gate: &G,
    ) -> Result<u64, Fault>
        requires open { self.failed ≡ false }
        requires stands { IsBegun (F.seen files.old) self }

        ensures finished { OfOutput (F.seen files.old) self
            (λ before out records. OnOk result (F.seen files.new
            ≡ with_bytes before out.name (finished out records))) }
        ensures length { OfOutput (F.seen files.old) self (λ before out records. IfOk result
            (λ n. n ≡ length (finished out records))) }

        // After an error the output is unfinished.
        ensures stopped { OfOutput (F.seen files.old) self (λ before out records. IfErr result
            (StopsUnfinished before (F.seen files.new) out records)) }
        ensures fault { IfErr result (λ fault. (fault ≡ Memory) ⊎ (fault ≡ Write)) }
        ensures write { IsErrOf result Write → Rose (F.seen files.old).write_faults (F.seen files.new).write_faults }
        ensures calm { OnOk result (IsCalm (F.seen files.old) (F.seen files.new)) }
        ensures writes { OnlyWrites (F.seen files.old) (F.seen files.new) }
    {
        let mut writer = self;
        writer.finish_all(rt, alloc, files, gate)
    }

    /// Stops the output before its end: appends the full chunks that were kept back, in order, and nothing else. What
    /// then stands does not depend on the workers.
    pub fn stop<R: Threads + Sync, F: Files, G: Gate>(
        self,
        rt: &R,
        alloc: Global,
        files: &mut F,
        gate: &G,
    ) -> Result<(), Fault>
        requires open { self.failed ≡ false }
        requires stands { IsBegun (F.seen files.old) self }

        ensures stopped { OfOutput (F.seen files.old) self
            (λ before out records. OnOk result (F.seen files.new ≡ with_bytes before out.name (stopped out records))) }

        // After an error the output holds a prefix of that.
        ensures broken { OfOutput (F.seen files.old) self
            (λ before out records. IfErr result (StopsIn before (F.seen files.new) out.name (stopped out records))) }
        ensures fault { IfErr result (λ fault. (fault ≡ Memory) ⊎ (fault ≡ Write)) }
        ensures write { IsErrOf result Write → Rose (F.seen files.old).write_faults (F.seen files.new).write_faults }
        ensures calm { OnOk result (IsCalm (F.seen files.old) (F.seen files.new)) }
        ensures writes { OnlyWrites (F.seen files.old) (F.seen files.new) }
    {
        let mut writer = self;
        writer.append_full(rt, alloc, files, gate)
    }
}
