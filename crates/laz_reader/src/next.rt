//! The next blocks of a reader.
ghost use Rattle.std.specs.Prelude.{◌≡◌, ℕ, ◌+◌, ◌<◌, ◌≤◌, [], List, false, true, length, min, take};
ghost use Rattle.std.specs.Prelude.{IfErr, IfOk, IsErrOf, IsSome, OnErr, OnOk};
ghost use Rattle.las_header.specs.declared.refusal.Refusal.{Refusal};
ghost use Rattle.las_header.specs.declared.refusal.Refusal.TheVariants.{BadChunk};
ghost use Rattle.las_header.specs.Fields.{record_length_of};
ghost use Rattle.las_outside.specs.Frames.{IsCalm, Reads};
ghost use Rattle.laz_reader.specs.Asking.{bytes_left};
ghost use Rattle.laz_forms.specs.declared.fault.Fault.TheVariants.{Refused};
ghost use Rattle.laz_reader.specs.Reading.{AreWholeBlocks, EndsReading, IsCrewOf, Lends, OfFile, StandsFor, batch_size};
ghost use Rattle.laz_reader.specs.Reading.{moved_by};
ghost use Rattle.laz_forms.specs.Records.{HoldOnly, IsBadPiece};

use crate::reader::Reader;
use las_outside::{Files, Gate};
use laz_chunk::Workspace;
use laz_forms::Fault;
use laz_workers::Crew;
use std::alloc::Global;
use std::thread::Threads;

impl Reader {
    /// Reads the next blocks, which reader and crew then lend, and answers their number: 0 exactly at the end of the
    /// records.
    ///
    /// Of a packed file these are the next chunks, two for each hand or as many as are left, which the crew unpacks
    /// together. A chunk that holds no records of its count ends the batch before it, and is `BadChunk` with its number
    /// in the file if the batch would begin with it; a chunk that has ended a batch is not read again. Of a plain file
    /// it is one block of 50,000 records, or of all that are left. If a range was sought, these are its records alone:
    /// the blocks of its first and its last chunk are cut.
    ///
    /// The answer is `Read` if a read failed, and never `Write`. After any `Err` the reader has failed.
    pub fn next_batch<R: Threads + Sync, F: Files, G: Gate>(
        &mut self,
        rt: &R,
        alloc: Global,
        files: &mut F,
        gate: &G,
        crew: &mut Crew<Workspace>,
    ) -> Result<u32, Fault>
        requires open { self.old.failed ≡ false }
        requires crew { IsCrewOf self.old crew.old }
        requires stands { OfFile self.old (F.seen files.old) (StandsFor self.old) }

        // The next pieces hold these blocks, and no others, and reader and crew lend them.
        ensures blocks { IfOk result (λ n. (blocks : List (List ℕ)) × (length blocks ≡ n)
            × Lends self.new crew.new blocks
            × AreWholeBlocks (record_length_of self.old.head.bytes) (take n self.old.left) blocks
            × OfFile self.old (F.seen files.old)
            (λ file. HoldOnly file (take n self.old.left) blocks)) }
        ensures end { IfOk result (λ n. n ≡ 0 → self.old.left ≡ []) }

        // A batch is full, or ends with the records or before a bad chunk.
        ensures most { IfOk result (λ n. n ≤ min (batch_size self.old.chunk (length crew.old)) (length self.old.left)) }
        ensures cut { IfOk result (λ n. n < min (batch_size self.old.chunk (length crew.old)) (length self.old.left)
            → OfFile self.old (F.seen files.old) (λ file. IsBadPiece file self.old.left n)) }
        ensures moved { IfOk result (λ n. self.new ≡ moved_by self.old n self.new) }
        ensures stands { OnOk result (OfFile self.old (F.seen files.old) (StandsFor self.new)) }
        ensures crew { OnOk result (IsCrewOf self.new crew.new) }
        ensures hands { length crew.new ≡ length crew.old }

        // A chunk is bad exactly if it is the next one, and holds no records of its count.
        ensures bad { (cause : Refusal) → IsErrOf result (Refused cause) → (cause ≡ BadChunk self.old.next)
            × (0 < length self.old.left)
            × OfFile self.old (F.seen files.old) (λ file. IsBadPiece file self.old.left 0) }
        ensures packed { (cause : Refusal) → IsErrOf result (Refused cause) → IsSome self.old.chunk }
        ensures failed { OnErr result (self.new.failed ≡ true) }

        // Nothing but reads is done, and a fault has its cause.
        ensures reads { Reads (bytes_left self.old) (F.seen files.old) (F.seen files.new) }
        ensures calm { OnOk result (IsCalm (F.seen files.old) (F.seen files.new)) }
        ensures ends { IfErr result (EndsReading ⊥ (F.seen files.old) (F.seen files.new)) }
        // No more bytes are asked for than those of the pieces that are read, and of one that ends the batch.
        ensures asked { OnOk result ((F.seen files.new).asked + bytes_left self.new
            ≤ (F.seen files.old).asked + bytes_left self.old) }
    {
        match self.chunk {
            None => match self.next_plain(files) {
                Ok(n) => Ok(n),
                Err(fault) => Err(self.fail(fault)),
            },
            Some(_) => match self.next_packed(rt, alloc, files, gate, crew) {
                Ok(n) => Ok(n),
                Err(fault) => Err(self.fail(fault)),
            },
        }
    }

    // From this fault on the reader has failed.
    fn fail(&mut self, fault: Fault) -> Fault
        ensures fault { result ≡ fault }
        ensures failed { self.new.failed ≡ true }
    {
        self.failed = true;
        fault
    }
}
