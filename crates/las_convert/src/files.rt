//! Ranges of records, or whole files, that are filtered, thinned and changed.
ghost use Rattle.std.specs.Prelude.{◌≡◌, ◌≢◌, ◌⊎◌, ◌^◌, ◌≤◌, [], ℕ, List, All, IfErr, IfOk, IsErrOf, None, OnErr};
ghost use Rattle.std.specs.Prelude.{OnOk, Some, false, map};
ghost use Rattle.std.specs.Option.{ForSome};
ghost use Rattle.las_header.specs.declared.refusal.Refusal.{Refusal};
ghost use Rattle.las_header.specs.declared.refusal.Refusal.TheVariants.{BadChunk, RawRange};
ghost use Rattle.las_header.specs.Fields.{head_of};
ghost use Rattle.las_filter.specs.Changes.{HasClass};
ghost use Rattle.las_filter.specs.Kept.{steps_of};
ghost use Rattle.las_info.specs.Tallies.{count_at, shown_all};
ghost use Rattle.las_thin.specs.Sieving.{PicksFirst};
ghost use Rattle.las_outside.specs.Files.{WhereKnown};
ghost use Rattle.las_outside.specs.Frames.{IsCalm, OnlyWrites};
ghost use Rattle.las_header.specs.Limits.{IsChunkSize};
ghost use Rattle.las_outside.specs.Limits.{AreWorkers};
ghost use Rattle.las_outside.specs.Outside.{Outside};
ghost use Rattle.laz_forms.specs.declared.fault.Fault.TheVariants.{Refused};
ghost use Rattle.laz_file.specs.Copying.{CanTake, LeavesUnfinished};
ghost use Rattle.laz_file.specs.Endings.{EndsMaking};
ghost use Rattle.laz_forms.specs.FileFaults.{HasCause};
ghost use Rattle.laz_reader.specs.Asking.{ReadsAndWrites, bytes_left};
ghost use Rattle.laz_forms.specs.Outputs.{Output, records_after};
ghost use Rattle.laz_reader.specs.Reading.{AgreesWithHead, IsCrewOf, IsFreshReader, OfFile, StandsFor};
ghost use Rattle.laz_writer.specs.Writing.{IsBegun, Stands};
ghost use Rattle.las_convert.specs.Adding.{AfterNone, BeforeAll, HaveCounted};
ghost use Rattle.las_convert.specs.Converting.{Converts, EndsConverting, FinishesKept, GivesOne, GivesOnly, IsReady};
ghost use Rattle.las_convert.specs.Converting.{output_of, wanted_of};

use crate::copying::convert_records;
use crate::passage::Passage;
use las_filter::Plan;
use las_outside::{Files, Gate};
use laz_chunk::Workspace;
use laz_file::{Fault, PLAIN_BLOCK, Reader, Writer};
use laz_workers::{Crew, Machine};
use std::alloc::Global;
use std::thread::Threads;

// Begins the output: the plain head of the reader's file, with counts of zero.
fn begin<F: Files>(
    alloc: Global,
    files: &mut F,
    reader: &Reader,
    output: &str,
    chunk: Option<u32>,
    workers: u32,
) -> Result<Writer, Fault>
    requires whole { AgreesWithHead reader.now }
    requires chunk { ForSome chunk IsChunkSize }
    requires workers { AreWorkers workers }
    ensures stands { IfOk result (λ writer. Stands (F.seen files.old) (F.seen files.new) writer
        (output_of reader.now output.now chunk) []) }
    ensures can { IfOk result (CanTake reader.now) }
    ensures left { OnErr result ((records : List ℕ) → LeavesUnfinished (output_of reader.now output.now chunk)
        records (F.seen files.old).held (F.seen files.new).held) }
    ensures cause { IfErr result (HasCause (F.seen files.old) (F.seen files.new)) }
    ensures calm { OnOk result (IsCalm (F.seen files.old) (F.seen files.new)) }
    ensures writes { OnlyWrites (F.seen files.old) (F.seen files.new) }
{
    let head = reader.head();
    let most = head.points();
    let hands = Writer::hands(chunk, most, workers);
    if head.packed() {
        let plain = head.without_vlr(alloc)?;
        return Writer::create(alloc, files, output, &plain, chunk, true, most, hands);
    }
    Writer::create(alloc, files, output, head, chunk, true, most, hands)
}

// How many bytes the records of a block take, if the chunks have one size.
fn block_bytes(reader: &Reader) -> usize {
    let head = reader.head();
    let most = match reader.chunk() {
        Some(chunk) if chunk != u32::MAX => chunk,
        _ => PLAIN_BLOCK,
    };
    usize::from(head.record_length()) * most.min(head.points()) as usize
}

// Converts all records that a reader has left into a writer, and finishes the output. After a refusal it is stopped.
fn convert_and_finish<R: Threads + Sync, F: Files, G: Gate>(
    machine: Machine<'_, R, G>,
    files: &mut F,
    plan: &Plan,
    reader: &mut Reader,
    crew: &mut Crew<Workspace>,
    passage: &mut Passage,
    writer: Writer,
) -> Result<(), Fault>
    requires classes { All HasClass plan.now.changes.items }
    requires after { BeforeAll (steps_of plan.now) passage.old.sieve passage.old.read }
    requires counted { HaveCounted 0 (map (λ tap. tap_seen tap) passage.old.taps.items) }
    requires open { reader.old.failed ≡ false }
    requires crew { IsCrewOf reader.old crew.old }
    requires names { reader.old.name ≢ writer.name }
    requires reads { WhereKnown (F.seen files.old).held reader.old.name (StandsFor reader.old) }
    requires room { CanTake reader.old writer }
    requires stands { IsBegun (F.seen files.old) writer }
    ensures finished { let taps = map (λ tap. tap_seen tap) passage.old.taps.items in
        let seen = map (λ tap. tap_seen tap) passage.new.taps.items in
        AfterNone (steps_of plan.now) passage.old.sieve passage.old.read (λ keeping. (before : Outside)
        (out : Output) (bytes : List ℕ) → Stands before (F.seen files.old) writer out bytes
        → OnOk result (FinishesKept (F.seen files.old).held before.held (F.seen files.new).held keeping reader.old out
        bytes taps seen)) }
    ensures ends { AfterNone (steps_of plan.now) passage.old.sieve passage.old.read (λ keeping. (before : Outside)
        (out : Output) (bytes : List ℕ) → Stands before (F.seen files.old) writer out bytes
        → IfErr result (EndsConverting (F.seen files.old).held before.held (F.seen files.old) (F.seen files.new)
        keeping reader.old out bytes)) }
    ensures calm { OnOk result (IsCalm (F.seen files.old) (F.seen files.new)) }
    ensures calm_refused { (cause : Refusal) → IsErrOf result (Refused cause)
        → IsCalm (F.seen files.old) (F.seen files.new) }
    ensures frame { ReadsAndWrites (bytes_left reader.old) (F.seen files.old) (F.seen files.new) }
{
    let mut writer = writer;
    match convert_records(machine, files, plan, reader, crew, passage, &mut writer)? {
        None => {
            writer.finish(machine.rt, machine.alloc, files, machine.gate)?;
            Ok(())
        }
        Some(cause) => {
            writer.stop(machine.rt, machine.alloc, files, machine.gate)?;
            Err(Fault::Refused(cause))
        }
    }
}

/// Converts the records of a fresh reader: those of the range that it has sought, or all. The output, another name than
/// the input's, has those that the plan keeps and the passage's sieve lets pass, changed, under the input's plain head
/// with their own counts. It is packed in chunks of `chunk` points, 256 to 250,000, or plain. The machine's workers
/// unpack and pack side by side, and what is written does not depend on them. The passage's taps see each record as it
/// is written, in order; no tap has counted more than 2^63 in a bin before.
///
/// If the lowest or the highest record of a cell is to stay, the sieve has looked at all records of the range that pass
/// the filters, as [`look_through`](crate::look_through) has it do.
///
/// The answer is `Refused` with `BadChunk` if a chunk that meets the range holds no records of its count, or with
/// `RawRange` if a record that is kept of the range, counted from 0, has a coordinate that leaves its range: the first
/// of these in the order of the records. The output then holds its head and all that is kept before it, of a packed
/// output in full chunks. The answer is `Read` or `Write` if such a call failed; then the files are as before, or the
/// output is a prefix of its draft, or its draft after a part of its patches.
pub fn convert<R: Threads + Sync, F: Files, G: Gate>(
    machine: Machine<'_, R, G>,
    files: &mut F,
    reader: Reader,
    output: &str,
    plan: &Plan,
    passage: &mut Passage,
    chunk: Option<u32>,
) -> Result<(), Fault>
    requires fresh { IsFreshReader reader.name reader }
    requires chunk { ForSome chunk IsChunkSize }
    requires classes { All HasClass plan.now.changes.items }
    requires workers { AreWorkers machine.workers }
    requires names { output.now ≢ reader.name }
    requires stands { OfFile reader (F.seen files.old) (StandsFor reader) }
    requires whole { AgreesWithHead reader }
    requires unread { passage.old.read ≡ 0 }
    requires ready { IsReady (F.seen files.old).held reader.name (steps_of plan.now) reader.range passage.old.sieve }
    requires counted { All (λ tap. (bin : ℕ) → count_at (tap_seen tap).tally bin ≤ 2 ^ 63) passage.old.taps.items }

    ensures ends { let wanted = wanted_of (steps_of plan.now) passage.old.sieve.settings reader.range in
        EndsMaking (Converts wanted output.now chunk) reader.name (F.seen files.old) (F.seen files.new) result }
    // The file gives one list of records alone, which each tap has seen.
    ensures tallied { let wanted = wanted_of (steps_of plan.now) passage.old.sieve.settings reader.range in
        OnOk result (OfFile reader (F.seen files.old) (λ file. (records : List ℕ)
        × GivesOnly wanted file records None × (map (λ tap. tap_seen tap) passage.new.taps.items
        ≡ map (λ tap. shown_all (tap_seen tap) (records_after (head_of file) records)) passage.old.taps.items))) }
    // So does a file that is refused, up to its refusal.
    ensures given { let wanted = wanted_of (steps_of plan.now) passage.old.sieve.settings reader.range in
        (cause : Refusal) → IsErrOf result (Refused cause)
        → OfFile reader (F.seen files.old) (GivesOne wanted (Some cause)) }
    ensures bad { (cause : Refusal) → IsErrOf result (Refused cause)
        → ((i : ℕ) × (cause ≡ BadChunk i)) ⊎ ((k : ℕ) × (cause ≡ RawRange k)) }
    ensures looked { (i : ℕ) → IsErrOf result (Refused (BadChunk i))
        → OfFile reader (F.seen files.old) (λ file. PicksFirst passage.old.sieve.settings.pick) }
    // No call has failed if the file is refused.
    ensures calm_refused { (cause : Refusal) → IsErrOf result (Refused cause)
        → IsCalm (F.seen files.old) (F.seen files.new) }
    // No more is asked for than the reader has left, however the call ends.
    ensures frame { ReadsAndWrites (bytes_left reader) (F.seen files.old) (F.seen files.new) }
{
    let mut reader = reader;
    passage.grow(block_bytes(&reader))?;
    let hands = reader.hands(machine.workers);
    let mut crew = reader.crew(machine.alloc, hands)?;
    let writer = begin(
        machine.alloc,
        files,
        &reader,
        output,
        chunk,
        machine.workers,
    )?;
    convert_and_finish(
        machine,
        files,
        plan,
        &mut reader,
        &mut crew,
        passage,
        writer,
    )
}
