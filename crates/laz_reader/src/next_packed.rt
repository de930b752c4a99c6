//! The next chunks of a packed file.
ghost use Rattle.std.specs.Prelude.{◌≡◌, ℕ, ◌+◌, ◌*◌, ◌<◌, ◌≤◌, [], List, true, length, min, take, drop};
ghost use Rattle.std.specs.Prelude.{IfErr, IfOk, IsErrOf, IsSome, OnOk};
ghost use Rattle.las_header.specs.declared.refusal.Refusal.{Refusal};
ghost use Rattle.las_header.specs.declared.refusal.Refusal.TheVariants.{BadChunk};
ghost use Rattle.las_header.specs.Fields.{record_length_of};
ghost use Rattle.las_outside.specs.Frames.{IsCalm, Reads};
ghost use Rattle.laz_workers.specs.Rooms.{rooms_of};
ghost use Rattle.laz_reader.specs.Asking.{bytes_left};
ghost use Rattle.laz_forms.specs.declared.fault.Fault.TheVariants.{Refused};
ghost use Rattle.laz_reader.specs.Reading.{AreCutFrom, AreWholeBlocks, EndsReading, IsCrewOf, OfFile};
ghost use Rattle.laz_reader.specs.Reading.{StandInRooms, StandsFor};
ghost use Rattle.laz_forms.specs.Records.{HoldOnly, IsBadPiece};

use crate::chunks::{ChunkRun, next_chunks};
use crate::reader::Reader;
use crate::spans::total;
use crate::unpack_job::UnpackJob;
use las_header::Refusal;
use las_outside::{Files, Gate};
use laz_chunk::Workspace;
use laz_forms::Fault;
use laz_workers::{Crew, Machine};
use std::alloc::Global;
use std::thread::Threads;

impl Reader {
    // Reads the next chunks of a packed file, and has them unpacked by the whole crew. It answers how many of the first
    // hold records of their count, and is `BadChunk` if not even the first does.
    pub(crate) fn next_packed<R: Threads + Sync, F: Files, G: Gate>(
        &mut self,
        rt: &R,
        alloc: Global,
        files: &mut F,
        gate: &G,
        crew: &mut Crew<Workspace>,
    ) -> Result<u32, Fault>
        requires packed { IsSome self.old.chunk }
        requires crew { IsCrewOf self.old crew.old }
        requires stands { OfFile self.old (F.seen files.old) (StandsFor self.old) }
        ensures blocks { IfOk result (λ n. (blocks : List (List ℕ)) × (length blocks ≡ n)
            × ((wholes : List (List ℕ)) × StandInRooms (rooms_of crew.new) wholes
            × AreCutFrom (record_length_of self.old.head.bytes) self.new.cuts wholes blocks)
            × AreWholeBlocks (record_length_of self.old.head.bytes) (take n self.old.left) blocks
            × OfFile self.old (F.seen files.old)
            (λ file. HoldOnly file (take n self.old.left) blocks)) }
        ensures end { IfOk result (λ n. n ≡ 0 → self.old.left ≡ []) }
        ensures most { IfOk result (λ n. n ≤ min (2 * length crew.old) (length self.old.left)) }
        ensures cut { IfOk result (λ n. n < min (2 * length crew.old) (length self.old.left)
            → OfFile self.old (F.seen files.old) (λ file. IsBadPiece file self.old.left n)) }
        ensures bad_next { IfOk result (λ n. self.new.bad ≡ true
            → n < min (2 * length crew.old) (length self.old.left)) }
        ensures moved { IfOk result (λ n. self.new ≡ record self.old {
          next = self.old.next + n;
          left = drop n self.old.left;
          bad = self.new.bad;
          cuts = self.new.cuts;
        }) }
        ensures crew { OnOk result (IsCrewOf self.new crew.new) }
        ensures hands { length crew.new ≡ length crew.old }
        ensures bad { (cause : Refusal) → IsErrOf result (Refused cause) → (cause ≡ BadChunk self.old.next)
            × (0 < length self.old.left)
            × OfFile self.old (F.seen files.old) (λ file. IsBadPiece file self.old.left 0) }
        ensures reads { Reads (bytes_left self.old) (F.seen files.old) (F.seen files.new) }
        ensures calm { OnOk result (IsCalm (F.seen files.old) (F.seen files.new)) }
        ensures ends { IfErr result (EndsReading ⊥ (F.seen files.old) (F.seen files.new)) }
        ensures asked { OnOk result ((F.seen files.new).asked + bytes_left self.new
            ≤ (F.seen files.old).asked + bytes_left self.old) }
    {
        // Its contract says what holds of every head.
        let _ = self.head.bytes();
        let number = self.next + self.blocks;
        if self.bad {
            return Err(Fault::Refused(Refusal::BadChunk(number)));
        }
        let job = UnpackJob::new(self.head.format(), self.head.extra());
        let (from, to) = (self.next as usize, self.ends.last as usize);
        let machine = Machine {
            rt,
            alloc,
            gate,
            workers: crew.hands() as u32,
        };
        let run = ChunkRun {
            name: &self.name,
            number,
            place: self.place,
            points: &self.points[from..to],
            bytes: &self.bytes[from..to],
        };
        let most = run.points.len().min(self.inputs.len());
        let good = next_chunks(&machine, files, &job, &run, &mut self.inputs, crew)?;
        self.bad = good < most;
        self.place += total(&run.bytes[..good]);
        self.batch = self.next;
        self.next += good as u32;
        Ok(good as u32)
    }
}
