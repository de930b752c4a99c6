//! The records of a file, shown to a survey.
ghost use Rattle.std.specs.Prelude.{◌≡◌, ◌/◌, ◌+◌, ◌^◌, ◌≤◌, ◌<◌, ℕ, List, length, map, All, None, Some};
ghost use Rattle.std.specs.Prelude.{IfErr, IfOk, IsErrOf, OnOk, false};
ghost use Rattle.std.specs.List.{concat};
ghost use Rattle.las_header.specs.declared.refusal.Refusal.{Refusal};
ghost use Rattle.las_header.specs.declared.refusal.Refusal.TheVariants.{BadChunk};
ghost use Rattle.las_header.specs.Fields.{head_of};
ghost use Rattle.las_info.specs.Tallies.{count_at};
ghost use Rattle.las_outside.specs.Files.{WhereKnown};
ghost use Rattle.las_outside.specs.Frames.{IsCalm, Reads};
ghost use Rattle.las_outside.specs.Limits.{AreWorkers};
ghost use Rattle.laz_forms.specs.declared.fault.Fault.TheVariants.{Refused};
ghost use Rattle.laz_reader.specs.Asking.{bytes_left};
ghost use Rattle.laz_file.specs.Copying.{AreOnlyRecords, EndsAfter, HoldFirst};
ghost use Rattle.laz_file.specs.Endings.{EndsMaking};
ghost use Rattle.laz_forms.specs.Outputs.{records_after};
ghost use Rattle.laz_reader.specs.Reading.{AgreesWithHead, EndsReading, IsCrewOf, IsNewReader, OfFile, StandsFor};
ghost use Rattle.laz_reader.specs.Reading.{records_in};
ghost use Rattle.las_info.specs.Surveys.{IsShown, survey_of};
ghost use Rattle.las_survey.specs.Surveying.{Surveys};

use las_info::{Survey, Tap};
use las_outside::{Files, Gate};
use laz_chunk::Workspace;
use laz_file::{Fault, Reader, Turn};
use laz_workers::{Crew, Machine};
use std::alloc::Global;
use std::thread::Threads;

// Shows all records that a reader has left to a survey with these taps, block by block.
fn show_records<R: Threads + Sync, F: Files, G: Gate>(
    machine: &Machine<'_, R, G>,
    files: &mut F,
    reader: &mut Reader,
    crew: &mut Crew<Workspace>,
    taps: Vec<Box<dyn Tap>>,
) -> Result<Survey, Fault>
    requires open { reader.old.failed ≡ false }
    requires crew { IsCrewOf reader.old crew.old }
    requires few { records_in reader.old.left < 2 ^ 32 }
    requires room { All (λ tap. (bin : ℕ) → count_at (tap_seen tap).tally bin ≤ 2 ^ 63) taps.items }
    requires stands { WhereKnown (F.seen files.old).held reader.old.name (StandsFor reader.old) }
    ensures shown { IfOk result (λ survey. (blocks : List (List ℕ))
        × HoldFirst (F.seen files.old).held reader.old (length reader.old.left) blocks
        × IsShown (map (λ tap. tap_seen tap) taps.items) (records_after reader.old.head.bytes (concat blocks))
        (survey_of survey.summary (map (λ tap. tap_seen tap) survey.taps.items))) }
    ensures bad { (cause : Refusal) → IsErrOf result (Refused cause)
        → (n : ℕ) × (blocks : List (List ℕ)) × HoldFirst (F.seen files.old).held reader.old n blocks
        × EndsAfter (F.seen files.old).held reader.old n (Some cause) }
    ensures cause { IfErr result (EndsReading ⊥ (F.seen files.old) (F.seen files.new)) }
    ensures head { OnOk result (reader.new.head ≡ reader.old.head) }
    ensures reads { Reads (bytes_left reader.old) (F.seen files.old) (F.seen files.new) }
    ensures calm { OnOk result (IsCalm (F.seen files.old) (F.seen files.new)) }
{
    let size = usize::from(reader.head().record_length());
    let mut survey = Survey::new(taps);
    let mut turn = Turn::first();
    'turns: loop {
        let next = reader.next_block(machine, files, crew, &mut turn)?;
        match next {
            None => return Ok(survey),
            Some(number) => survey.see_all(size, reader.block(crew, number))?,
        }
    }
}

/// Shows all records of a new reader's file to a survey with these taps, in order. `workers`, 1 to 8, unpack side by
/// side. No tap has counted more than 2^63 records in a bin.
///
/// The answer is `Refused` with `BadChunk` if a chunk holds no records of its count, and `Read` if a read failed. No
/// file is changed.
pub fn survey<R: Threads + Sync, F: Files, G: Gate>(
    rt: &R,
    alloc: Global,
    files: &mut F,
    gate: &G,
    reader: &mut Reader,
    taps: Vec<Box<dyn Tap>>,
    workers: u32,
) -> Result<Survey, Fault>
    requires new { IsNewReader reader.old.name reader.old }
    requires whole { AgreesWithHead reader.old }
    requires workers { AreWorkers workers }
    requires room { All (λ tap. (bin : ℕ) → count_at (tap_seen tap).tally bin ≤ 2 ^ 63) taps.items }
    requires stands { OfFile reader.old (F.seen files.old) (StandsFor reader.old) }

    ensures ends { EndsMaking Surveys reader.old.name (F.seen files.old) (F.seen files.new) result }
    // The file has one list of records alone, which was shown to the survey.
    ensures surveyed { IfOk result (λ survey. OfFile reader.old (F.seen files.old) (λ file.
        (blocks : List (List ℕ)) × AreOnlyRecords file blocks None
        × IsShown (map (λ tap. tap_seen tap) taps.items) (records_after (head_of file) (concat blocks))
        (survey_of survey.summary (map (λ tap. tap_seen tap) survey.taps.items)))) }
    // So has a file that is refused, up to its first bad chunk.
    ensures bad { (cause : Refusal) → IsErrOf result (Refused cause) → (i : ℕ) × (cause ≡ BadChunk i)
        × OfFile reader.old (F.seen files.old) (λ file.
        (blocks : List (List ℕ)) × AreOnlyRecords file blocks (Some i)) }
    // No call has failed if the file is refused.
    ensures calm_refused { (cause : Refusal) → IsErrOf result (Refused cause)
        → IsCalm (F.seen files.old) (F.seen files.new) }
    ensures head { OnOk result (reader.new.head ≡ reader.old.head) }
    // No more is asked for than the reader has left, however the call ends.
    ensures reads { Reads (bytes_left reader.old) (F.seen files.old) (F.seen files.new) }
{
    let _ = reader.head().points();
    let hands = reader.hands(workers);
    let mut crew = reader.crew(alloc, hands)?;
    let machine = Machine {
        rt,
        alloc,
        gate,
        workers,
    };
    show_records(&machine, files, reader, &mut crew, taps)
}
