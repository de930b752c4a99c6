//! The first of two readings: all records of a range are looked at, to find the lowest or the highest of each cell.
ghost use Rattle.std.specs.Prelude.{◌≡◌, ◌%◌, ◌+◌, ◌/◌, ◌^◌, ◌≤◌, ◌<◌, ◌∷◌, [], ℕ, List, length};
ghost use Rattle.std.specs.Prelude.{IfErr, IsErrOf, OnOk, Some, false};
ghost use Rattle.std.specs.List.{concat};
ghost use Rattle.las_header.specs.Plain.{cut_all};
ghost use Rattle.las_header.specs.declared.refusal.Refusal.{Refusal};
ghost use Rattle.las_header.specs.declared.refusal.Refusal.TheVariants.{BadChunk};
ghost use Rattle.las_filter.specs.Kept.{steps_of};
ghost use Rattle.las_outside.specs.Files.{WhereKnown};
ghost use Rattle.las_outside.specs.Frames.{IsCalm, Reads};
ghost use Rattle.las_outside.specs.Limits.{AreWorkers};
ghost use Rattle.las_thin.specs.Sieving.{PicksFirst};
ghost use Rattle.las_thin.specs.Sieving as sifting;
ghost use Rattle.laz_forms.specs.declared.fault.Fault.TheVariants.{Refused, Write};
ghost use Rattle.laz_reader.specs.Asking.{bytes_left};
ghost use Rattle.laz_file.specs.Copying.{EndsAfter, HoldFirst};
ghost use Rattle.laz_forms.specs.Outputs.{records_after};
ghost use Rattle.laz_reader.specs.Reading.{AgreesWithHead, EndsReading, IsCrewOf, IsFreshReader, OfFile};
ghost use Rattle.laz_reader.specs.Reading.{StandsFor, records_in};
ghost use Rattle.las_convert.specs.Converting.{IsReady, StopsLooking, wanted_of};
ghost use Rattle.las_convert.specs.Adding.{HasLooked, LooksOn};

use las_filter::Plan;
use las_header::POINT_RECORD;
use las_outside::{Files, Gate};
use las_thin::Sieve;
use laz_chunk::Workspace;
use laz_file::{Fault, Reader, Turn};
use laz_workers::{Crew, Machine};
use std::alloc::AllocError;
use std::thread::Threads;

// A sieve looks at a record, if it passes the filters of a plan. Its place is its number among the records, those
// included that the filters drop. `Err` means out of memory.
fn look_at(plan: &Plan, sieve: &mut Sieve, place: u64, point: &[u8]) -> Result<(), AllocError>
    requires long { POINT_RECORD ≤ length point.now }
    requires pick { ¬ PicksFirst sieve.old.settings.pick }
    requires looked { (before : List (List ℕ)) × (length before ≡ place)
        × HasLooked (steps_of plan.now) before sieve.old }
    ensures settings { sieve.new.settings ≡ sieve.old.settings }
    ensures stands { LooksOn result (steps_of plan.now) place sieve.old (point.now ∷ []) sieve.new }
{
    if plan.keeps(point) {
        return sieve.look(place, point);
    }
    Ok(())
}

// A sieve looks at the records of a block that pass the filters of a plan. `read` is the number of the records before
// them. `Err` means out of memory.
fn look_block(
    plan: &Plan,
    sieve: &mut Sieve,
    read: u64,
    size: usize,
    block: &[u8],
) -> Result<(), AllocError>
    requires size { POINT_RECORD ≤ size }
    requires whole { length block.now % size ≡ 0 }
    requires few { read + length block.now / size < 2 ^ 32 }
    requires pick { ¬ PicksFirst sieve.old.settings.pick }
    requires looked { (before : List (List ℕ)) × (length before ≡ read)
        × HasLooked (steps_of plan.now) before sieve.old }
    ensures settings { sieve.new.settings ≡ sieve.old.settings }
    ensures stands { LooksOn result (steps_of plan.now) read sieve.old (cut_all size block.now) sieve.new }
{
    let mut rest = block;
    let mut place = read;
    for _turn in 0..block.len() / size {
        let (point, further) = rest.split_at(size);
        look_at(plan, sieve, place, point)?;
        rest = further;
        place += 1;
    }
    Ok(())
}

// A sieve looks at all records that a reader has left and that pass the filters of a plan, block by block.
fn look_records<R: Threads + Sync, F: Files, G: Gate>(
    machine: Machine<'_, R, G>,
    files: &mut F,
    plan: &Plan,
    sieve: &mut Sieve,
    reader: &mut Reader,
    crew: &mut Crew<Workspace>,
) -> Result<(), Fault>
    requires open { reader.old.failed ≡ false }
    requires crew { IsCrewOf reader.old crew.old }
    requires few { records_in reader.old.left < 2 ^ 32 }
    requires pick { ¬ PicksFirst sieve.old.settings.pick }
    requires unlooked { sifting.HasSifted [] [] sieve.old }
    requires stands { WhereKnown (F.seen files.old).held reader.old.name (StandsFor reader.old) }
    ensures looked { OnOk result ((blocks : List (List ℕ))
        × HoldFirst (F.seen files.old).held reader.old (length reader.old.left) blocks
        × HasLooked (steps_of plan.now) (records_after reader.old.head.bytes (concat blocks)) sieve.new) }
    ensures bad { (cause : Refusal) → IsErrOf result (Refused cause)
        → (n : ℕ) × (blocks : List (List ℕ)) × HoldFirst (F.seen files.old).held reader.old n blocks
        × EndsAfter (F.seen files.old).held reader.old n (Some cause) }
    ensures settings { sieve.new.settings ≡ sieve.old.settings }
    ensures cause { IfErr result (EndsReading ⊥ (F.seen files.old) (F.seen files.new)) }
    ensures reads { Reads (bytes_left reader.old) (F.seen files.old) (F.seen files.new) }
    ensures calm { OnOk result (IsCalm (F.seen files.old) (F.seen files.new)) }
{
    let size = usize::from(reader.head().record_length());
    let mut turn = Turn::first();
    let mut read = 0;
    'turns: loop {
        let next = reader.next_block(&machine, files, crew, &mut turn)?;
        let Some(number) = next else {
            return Ok(());
        };
        let block = reader.block(crew, number);
        look_block(plan, sieve, read, size, block)?;
        read += (block.len() / size) as u64;
    }
}

/// A sieve of the lowest or the highest, which has looked at none yet, looks at those records of a fresh reader that
/// pass the filters of a plan: of the range that it has sought, or of all. The machine's workers unpack side by side.
/// Then the file is opened again, and [`convert`](crate::convert) asks the sieve for the same records.
///
/// The answer is `Refused` with `BadChunk` if a chunk that meets the range holds no records of its count, the first of
/// them. It is `Read` if a read failed, and never `Write`. No file is changed.
pub fn look_through<R: Threads + Sync, F: Files, G: Gate>(
    machine: Machine<'_, R, G>,
    files: &mut F,
    plan: &Plan,
    sieve: &mut Sieve,
    reader: Reader,
) -> Result<(), Fault>
    requires fresh { IsFreshReader reader.name reader }
    requires whole { AgreesWithHead reader }
    requires workers { AreWorkers machine.workers }
    requires pick { ¬ PicksFirst sieve.old.settings.pick }
    requires unlooked { sifting.HasSifted [] [] sieve.old }
    requires stands { OfFile reader (F.seen files.old) (StandsFor reader) }

    ensures ready { OnOk result
        (IsReady (F.seen files.old).held reader.name (steps_of plan.now) reader.range sieve.new) }
    ensures stops { let wanted = wanted_of (steps_of plan.now) sieve.old.settings reader.range in
        IfErr result (StopsLooking wanted reader.name (F.seen files.old) (F.seen files.new)) }
    ensures bad { (cause : Refusal) → IsErrOf result (Refused cause) → (i : ℕ) × (cause ≡ BadChunk i) }
    ensures settings { sieve.new.settings ≡ sieve.old.settings }
    ensures never { IsErrOf result Write → ⊥ }
    // No call has failed if the file is refused.
    ensures calm_refused { (cause : Refusal) → IsErrOf result (Refused cause)
        → IsCalm (F.seen files.old) (F.seen files.new) }
    // No more is asked for than the reader has left, however the call ends.
    ensures reads { Reads (bytes_left reader) (F.seen files.old) (F.seen files.new) }
    ensures calm { OnOk result (IsCalm (F.seen files.old) (F.seen files.new)) }
{
    let mut reader = reader;
    let _ = reader.head().points();
    let hands = reader.hands(machine.workers);
    let mut crew = reader.crew(machine.alloc, hands)?;
    look_records(machine, files, plan, sieve, &mut reader, &mut crew)
}
