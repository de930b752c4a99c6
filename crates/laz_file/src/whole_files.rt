//! Whole files: packed and unpacked.
ghost use Rattle.std.specs.Prelude.{◌≡◌, ◌≢◌, ℕ, None, drop, false, IfErr, IsErrOf, OnOk};
ghost use Rattle.std.specs.Prelude.{IsSome};
ghost use Rattle.las_header.specs.declared.refusal.Refusal.{Refusal};
ghost use Rattle.las_header.specs.declared.refusal.Refusal.TheVariants.{BadChunk};
ghost use Rattle.las_header.specs.Fields.{point_offset_of};
ghost use Rattle.las_outside.specs.Frames.{IsCalm};
ghost use Rattle.las_header.specs.Limits.{IsChunkSize};
ghost use Rattle.las_outside.specs.Limits.{AreWorkers};
ghost use Rattle.laz_forms.specs.declared.fault.Fault.TheVariants.{Read, Refused};
ghost use Rattle.laz_reader.specs.Asking.{ReadsAndWrites, bytes_left};
ghost use Rattle.laz_reader.specs.Reading.{AgreesWithHead, IsCrewOf, IsNewReader, OfFile, StandsFor};
ghost use Rattle.laz_writer.specs.Writing.{IsBegun, OfOutput};
ghost use Rattle.laz_file.specs.Copying.{CanTake, EndsCopying, Finishes, LeavesInPart, Packs, Unpacks, packed_output};
ghost use Rattle.laz_file.specs.Endings.{EndsMaking};

use crate::copying::copy_records;
use las_outside::{Files, Gate};
use laz_chunk::Workspace;
use laz_forms::Fault;
use laz_reader::Reader;
use laz_workers::Crew;
use laz_writer::Writer;
use std::alloc::Global;
use std::thread::Threads;

// Copies all records that a reader has left into a writer, and finishes the output. After a bad chunk it is stopped.
fn copy_and_finish<R: Threads + Sync, F: Files, G: Gate>(
    rt: &R,
    alloc: Global,
    files: &mut F,
    gate: &G,
    reader: &mut Reader,
    crew: &mut Crew<Workspace>,
    writer: Writer,
) -> Result<(), Fault>
    requires open { reader.old.failed ≡ false }
    requires crew { IsCrewOf reader.old crew.old }
    requires names { reader.old.name ≢ writer.name }
    requires reads { OfFile reader.old (F.seen files.old) (StandsFor reader.old) }
    requires room { CanTake reader.old writer }
    requires stands { IsBegun (F.seen files.old) writer }
    ensures finished { OfOutput (F.seen files.old) writer
        (λ before out bytes. OnOk result (Finishes (F.seen files.old).held before.held
        (F.seen files.new).held reader.old out bytes)) }
    ensures ends { OfOutput (F.seen files.old) writer
        (λ before out bytes. IfErr result (EndsCopying (F.seen files.old).held before.held (F.seen files.old)
        (F.seen files.new) reader.old out bytes)) }
    ensures calm { OnOk result (IsCalm (F.seen files.old) (F.seen files.new)) }
    ensures calm_refused { (cause : Refusal) → IsErrOf result (Refused cause)
        → IsCalm (F.seen files.old) (F.seen files.new) }
    ensures frame { ReadsAndWrites (bytes_left reader.old) (F.seen files.old) (F.seen files.new) }
{
    let mut writer = writer;
    match copy_records(rt, alloc, files, gate, reader, crew, &mut writer)? {
        None => {
            writer.finish(rt, alloc, files, gate)?;
            Ok(())
        }
        Some(cause) => {
            writer.stop(rt, alloc, files, gate)?;
            Err(Fault::Refused(cause))
        }
    }
}

/// Packs a plain file: the output, another name than the input's, is its packed form in chunks of `chunk` points, 256
/// to 250,000. `workers`, 1 to 8, pack side by side, and what is written does not depend on them.
///
/// The answer is `Read` or `Write` if such a call failed, and never `Refused`. Then the files are as before, or the
/// output is unfinished: a prefix of its draft, or its draft after a part of its patches. After `Read` it is a prefix
/// of its draft, and not all of it.
pub fn pack<R: Threads + Sync, F: Files, G: Gate>(
    rt: &R,
    alloc: Global,
    files: &mut F,
    gate: &G,
    reader: Reader,
    output: &str,
    chunk: u32,
    workers: u32,
) -> Result<(), Fault>
    requires new { IsNewReader reader.name reader }
    requires plain { reader.chunk ≡ None }
    requires chunk { IsChunkSize chunk }
    requires workers { AreWorkers workers }
    requires names { output.now ≢ reader.name }
    requires stands { OfFile reader (F.seen files.old) (StandsFor reader) }
    requires whole { AgreesWithHead reader }

    ensures ends { EndsMaking (Packs output.now chunk) reader.name (F.seen files.old) (F.seen files.new) result }
    // After a read that failed the output does not stand whole.
    ensures in_part { IsErrOf result Read → OfFile reader (F.seen files.old) (λ file.
        LeavesInPart (packed_output output.now file chunk) (drop (point_offset_of file) file)
        (F.seen files.old).held (F.seen files.new).held) }
    ensures never { (cause : Refusal) → IsErrOf result (Refused cause) → ⊥ }
    // No more is asked for than the reader has left, however the call ends.
    ensures frame { ReadsAndWrites (bytes_left reader) (F.seen files.old) (F.seen files.new) }
{
    let mut reader = reader;
    let mut crew = reader.crew(alloc, 1)?;
    let head = reader.head();
    let most = head.points();
    let hands = Writer::hands(Some(chunk), most, workers);
    let writer = Writer::create(alloc, files, output, head, Some(chunk), false, most, hands)?;
    copy_and_finish(rt, alloc, files, gate, &mut reader, &mut crew, writer)
}

/// Unpacks a packed file: the output, another name than the input's, is its plain form. `workers`, 1 to 8, unpack side
/// by side, and what is written does not depend on them.
///
/// The answer is `Refused` with `BadChunk` if a chunk holds no records of its count: it is the first such chunk, and
/// the output holds its head and all records before it. It is `Read` or `Write` if such a call failed. Then the files
/// are as before, or the output is a prefix of its draft.
pub fn unpack<R: Threads + Sync, F: Files, G: Gate>(
    rt: &R,
    alloc: Global,
    files: &mut F,
    gate: &G,
    reader: Reader,
    output: &str,
    workers: u32,
) -> Result<(), Fault>
    requires new { IsNewReader reader.name reader }
    requires packed { IsSome reader.chunk }
    requires workers { AreWorkers workers }
    requires names { output.now ≢ reader.name }
    requires stands { OfFile reader (F.seen files.old) (StandsFor reader) }
    requires whole { AgreesWithHead reader }

    ensures ends { EndsMaking (Unpacks output.now) reader.name (F.seen files.old) (F.seen files.new) result }
    ensures bad { (cause : Refusal) → IsErrOf result (Refused cause) → (i : ℕ) × (cause ≡ BadChunk i) }
    // No call has failed if the file is refused.
    ensures calm_refused { (cause : Refusal) → IsErrOf result (Refused cause)
        → IsCalm (F.seen files.old) (F.seen files.new) }
    // No more is asked for than the reader has left, however the call ends.
    ensures frame { ReadsAndWrites (bytes_left reader) (F.seen files.old) (F.seen files.new) }
{
    let mut reader = reader;
    let head = reader.head().without_vlr(alloc)?;
    let hands = reader.hands(workers);
    let mut crew = reader.crew(alloc, hands)?;
    let most = head.points();
    let writer = Writer::create(alloc, files, output, &head, None, false, most, 1)?;
    copy_and_finish(rt, alloc, files, gate, &mut reader, &mut crew, writer)
}
