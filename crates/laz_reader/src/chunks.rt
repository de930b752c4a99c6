//! A batch of chunks: read, and unpacked by a crew.
ghost use Rattle.std.specs.Prelude.{◌≡◌, ℕ, ◌*◌, ◌<◌, ◌≤◌, length, min, sum, take, All, slice_index};
ghost use Rattle.std.specs.Prelude.{IfErr, IfOk, IsErrOf, OnOk};
ghost use Rattle.las_header.specs.declared.refusal.Refusal.{Refusal};
ghost use Rattle.las_header.specs.declared.refusal.Refusal.TheVariants.{BadChunk};
ghost use Rattle.las_outside.specs.Frames.{IsCalm, Reads};
ghost use Rattle.laz_chunk.specs.Layouts.{layout};
ghost use Rattle.laz_workers.specs.Rooms.{lengths_of, rooms_of};
ghost use Rattle.laz_reader.specs.Asking.{sizes_asked};
ghost use Rattle.laz_reader.specs.Batches.{BlocksAre, CanUnpack, IsBadChunk, IsRun};
ghost use Rattle.laz_forms.specs.declared.fault.Fault.TheVariants.{Refused};
ghost use Rattle.laz_reader.specs.Reading.{EndsReading, FailsReading};

use crate::answers::good_answers;
use crate::inputs::{batch_of, read_inputs};
use crate::unpack_job::UnpackJob;
use las_header::Refusal;
use las_outside::{Files, Gate};
use laz_chunk::Workspace;
use laz_forms::Fault;
use laz_workers::{Crew, Machine, work_batch};
use std::thread::Threads;

/// Some chunks of a file, one after another: the name of the file, the number of the first of them, where it begins,
/// and of each its numbers of points and of bytes.
#[derive(Clone, Copy)]
pub(crate) struct ChunkRun<'a> {
    pub(crate) name: &'a str,
    pub(crate) number: u32,
    pub(crate) place: u64,
    pub(crate) points: &'a [u32],
    pub(crate) bytes: &'a [u32],
}

/// Reads the first chunks of a run and unpacks them by the whole crew, in one `run_all`: as many as there are inputs,
/// or as there are chunks. It gives how many of the first hold records of their count, and is `BadChunk` if not even
/// the first does.
pub(crate) fn next_chunks<R: Threads + Sync, F: Files, G: Gate>(
    machine: &Machine<'_, R, G>,
    files: &mut F,
    job: &UnpackJob,
    run: &ChunkRun<'_>,
    inputs: &mut [Vec<u8>],
    crew: &mut Crew<Workspace>,
) -> Result<usize, Fault>
    requires run { IsRun (F.seen files.old).held run.now }
    requires inputs { length inputs.old ≡ 2 * length crew.old }
    requires crew { CanUnpack job.now run.now crew.old }
    ensures within { IfOk result (λ n. n ≤ min (2 * length crew.old) (length run.now.points.now)) }
    ensures end { IfOk result (λ n. n ≡ 0 → length run.now.points.now ≡ 0) }
    ensures blocks { IfOk result (BlocksAre (layout job.now) (F.seen files.old).held run.now (rooms_of crew.new)) }
    ensures cut { IfOk result (λ n. n < min (2 * length crew.old) (length run.now.points.now)
        → IsBadChunk (layout job.now) (F.seen files.old).held run.now n) }
    ensures bad { (cause : Refusal) → IsErrOf result (Refused cause) → (cause ≡ BadChunk run.now.number)
        × (0 < length run.now.points.now) × IsBadChunk (layout job.now) (F.seen files.old).held run.now 0 }
    ensures hands { length crew.new ≡ length crew.old }
    ensures rooms { lengths_of (rooms_of crew.new) ≡ lengths_of (rooms_of crew.old) }
    ensures spaces { All (λ hand. hand.space ≡ job.now) crew.new }
    ensures reads { Reads (sum (take (min (2 * length crew.old) (length run.now.points.now))
        (sizes_asked (layout job.now) run.now.points.now run.now.bytes.now))) (F.seen files.old) (F.seen files.new) }
    ensures calm { OnOk result (IsCalm (F.seen files.old) (F.seen files.new)) }
    ensures ends { IfErr result (EndsReading ⊥ (F.seen files.old) (F.seen files.new)) }
{
    let batch = batch_of(job, run.points, run.bytes, inputs.len());
    if batch == 0 {
        if run.points.is_empty() {
            return Ok(0);
        }
        return Err(Fault::Refused(Refusal::BadChunk(run.number)));
    }
    let first = ChunkRun {
        name: run.name,
        number: run.number,
        place: run.place,
        points: &run.points[..batch],
        bytes: &run.bytes[..batch],
    };
    let good = work_chunks(machine, files, job, &first, &mut inputs[..batch], crew)?;
    if good == 0 {
        return Err(Fault::Refused(Refusal::BadChunk(run.number)));
    }
    Ok(good)
}

// Reads these chunks and unpacks them. It gives how many of the first hold records of their count.
fn work_chunks<R: Threads + Sync, F: Files, G: Gate>(
    machine: &Machine<'_, R, G>,
    files: &mut F,
    job: &UnpackJob,
    run: &ChunkRun<'_>,
    inputs: &mut [Vec<u8>],
    crew: &mut Crew<Workspace>,
) -> Result<usize, Fault>
    requires run { IsRun (F.seen files.old).held run.now }
    requires some { (k : ℕ) → k < length run.now.points.now → 1 ≤ slice_index run.now.points.now k }
    requires same { length inputs.old ≡ length run.now.points.now }
    requires inputs { length inputs.old ≤ 2 * length crew.old }
    requires crew { CanUnpack job.now run.now crew.old }
    ensures within { IfOk result (λ n. n ≤ length run.now.points.now) }
    ensures blocks { IfOk result (BlocksAre (layout job.now) (F.seen files.old).held run.now (rooms_of crew.new)) }
    ensures cut { IfOk result (λ n. n < length run.now.points.now
        → IsBadChunk (layout job.now) (F.seen files.old).held run.now n) }
    ensures hands { length crew.new ≡ length crew.old }
    ensures rooms { lengths_of (rooms_of crew.new) ≡ lengths_of (rooms_of crew.old) }
    ensures spaces { All (λ hand. hand.space ≡ job.now) crew.new }
    ensures reads { Reads (sum run.now.bytes.now) (F.seen files.old) (F.seen files.new) }
    ensures calm { OnOk result (IsCalm (F.seen files.old) (F.seen files.new)) }
    ensures ends { IfErr result (FailsReading (F.seen files.old) (F.seen files.new)) }
{
    read_inputs(files, run.name, run.place, run.points, run.bytes, inputs)?;
    work_batch(machine.rt, machine.alloc, job, machine.gate, inputs, crew)?;
    Ok(good_answers(crew, inputs.len()))
}
