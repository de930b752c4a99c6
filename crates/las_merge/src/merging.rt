//! Whole files that are merged.
ghost use Rattle.std.specs.Prelude.{◌≡◌, ◌≢◌, ◌⊎◌, ◌*◌, ◌<◌, ◌≤◌, ℕ, List, Option, [], All, true, false, length};
ghost use Rattle.std.specs.Prelude.{IfErr, IfOk, OnOk, string_bytes};
ghost use Rattle.std.specs.Option.{ForSome};
ghost use Rattle.las_header.specs.Fields.{is_packed, record_length_of};
ghost use Rattle.las_header.specs.Vlrs.{laszip_vlrs_of};
ghost use Rattle.las_outside.specs.Files.{with_file};
ghost use Rattle.las_outside.specs.Frames.{IsCalm, OnlyWrites};
ghost use Rattle.las_header.specs.Limits.{IsChunkSize};
ghost use Rattle.las_outside.specs.Limits.{AreWorkers};
ghost use Rattle.las_outside.specs.Outside.{Later, Outside};
ghost use Rattle.laz_forms.specs.declared.fault.Fault.{Fault};
ghost use Rattle.laz_forms.specs.declared.fault.Fault.TheVariants as file;
ghost use Rattle.laz_reader.specs.Asking.{AsksAtMost};
ghost use Rattle.laz_forms.specs.Outputs.{Output, finished};
ghost use Rattle.laz_writer.specs.Writing.{Stands};
ghost use Rattle.las_merge.specs.declared.fault.MergeFault.TheVariants.{Memory, Write};
ghost use Rattle.las_merge.specs.Asking.{IsAskedToRead, asked_of_all, asked_to_merge};
ghost use Rattle.las_merge.specs.Copying.{CopiesAll, EndsMerging, FailsBeginning, output_of_merge, output_with};
ghost use Rattle.las_merge.specs.Inputs.{IfKnown, names_of};
ghost use Rattle.las_merge.specs.Opening.{IsOpen, input_names, points_read};
ghost use Rattle.las_merge.specs.Outcomes.{SaysMerging};
ghost use Rattle.las_merge.specs.Packed.{IsNoFault};

use crate::MergeFault;
use crate::copying::copy_inputs;
use crate::input::Input;
use crate::opening::{count_points, open_inputs};
use las_header::Head;
use las_outside::{Files, Gate};
use laz_file::{Fault, Writer};
use laz_workers::Machine;
use std::alloc::Global;
use std::thread::Threads;

// A fault of the output alone.
fn fault_of_output(fault: Fault) -> MergeFault
    requires kind { (fault ≡ file.Memory) ⊎ (fault ≡ file.Write) }
    ensures memory { fault ≡ file.Memory → result ≡ Memory }
    ensures write { fault ≡ file.Write → result ≡ Write }
{
    match fault {
        Fault::Write => MergeFault::Write,
        _ => MergeFault::Memory,
    }
}

// Begins the output under a plain head, with counts of zero.
fn create<F: Files>(
    alloc: Global,
    files: &mut F,
    head: &Head,
    output: &str,
    chunk: Option<u32>,
    most: u32,
    workers: u32,
) -> Result<Writer, MergeFault>
    requires plain { is_packed head.now.bytes ≡ false }
    requires none { laszip_vlrs_of head.now.bytes ≡ [] }
    requires chunk { ForSome chunk IsChunkSize }
    requires workers { AreWorkers workers }
    ensures stands { IfOk result (λ writer. Stands (F.seen files.old) (F.seen files.new) writer
        (output_with output.now head.now.bytes chunk) []) }
    ensures fresh { IfOk result (λ writer. (writer.failed ≡ false) × (writer.most ≡ most)) }
    ensures ends { IfErr result (FailsBeginning (F.seen files.old) (F.seen files.new)
        (output_with output.now head.now.bytes chunk)) }
    ensures calm { OnOk result (IsCalm (F.seen files.old) (F.seen files.new)) }
    ensures writes { OnlyWrites (F.seen files.old) (F.seen files.new) }
{
    let hands = Writer::hands(chunk, most, workers);
    match Writer::create(alloc, files, output, head, chunk, true, most, hands) {
        Ok(writer) => Ok(writer),
        Err(fault) => Err(fault_of_output(fault)),
    }
}

// Begins the output: the plain head of the first input, with counts of zero.
fn begin<F: Files>(
    alloc: Global,
    files: &mut F,
    head: &Head,
    output: &str,
    chunk: Option<u32>,
    most: u32,
    workers: u32,
) -> Result<Writer, MergeFault>
    requires one { is_packed head.now.bytes ≡ true → length (laszip_vlrs_of head.now.bytes) ≡ 1 }
    requires none { is_packed head.now.bytes ≡ false → laszip_vlrs_of head.now.bytes ≡ [] }
    requires chunk { ForSome chunk IsChunkSize }
    requires workers { AreWorkers workers }
    ensures stands { IfOk result (λ writer. Stands (F.seen files.old) (F.seen files.new) writer
        (output_of_merge output.now head.now.bytes chunk) []) }
    ensures fresh { IfOk result (λ writer. (writer.failed ≡ false) × (writer.most ≡ most) × (writer.taken ≡ 0)
        × (writer.size ≡ record_length_of head.now.bytes)) }
    ensures ends { IfErr result (FailsBeginning (F.seen files.old) (F.seen files.new)
        (output_of_merge output.now head.now.bytes chunk)) }
    ensures calm { OnOk result (IsCalm (F.seen files.old) (F.seen files.new)) }
    ensures writes { OnlyWrites (F.seen files.old) (F.seen files.new) }
{
    if !head.packed() {
        return create(alloc, files, head, output, chunk, most, workers);
    }
    match head.without_vlr(alloc) {
        Ok(plain) => create(alloc, files, &plain, output, chunk, most, workers),
        Err(_) => Err(MergeFault::Memory),
    }
}

// Copies the records of all inputs into the output, and finishes it. After a bad chunk it is stopped.
fn join_and_finish<R: Threads + Sync, F: Files, G: Gate>(
    machine: Machine<'_, R, G>,
    files: &mut F,
    inputs: Vec<Input>,
    writer: Writer,
) -> Result<(), MergeFault>
    requires few { length inputs.items ≤ 32 }
    requires workers { AreWorkers machine.workers }
    requires opened { All (IsOpen (F.seen files.old).held) inputs.items }
    requires sizes { All (λ input. record_length_of input.head.bytes ≡ writer.size) inputs.items }
    requires names { All (λ input. input.name ≢ writer.name) inputs.items }
    requires room { writer.size * points_read inputs.items ≤ writer.size * writer.most }
    requires fresh { (writer.failed ≡ false) × (writer.taken ≡ 0) }
    requires stands { (before : Outside) × (out : Output) × Stands before (F.seen files.old) writer out [] }
    ensures finished { (before : Outside) (out : Output) → Stands before (F.seen files.old) writer out []
        → OnOk result ((records : List ℕ) × CopiesAll (F.seen files.old).held (input_names inputs.items) records
        × ((F.seen files.new).held ≡ with_file before.held out.name (finished out records))) }
    ensures ends { (before : Outside) (out : Output) → Stands before (F.seen files.old) writer out []
        → IfErr result (EndsMerging (F.seen files.old).held before.held (F.seen files.old) (F.seen files.new)
        (input_names inputs.items) out) }
    ensures calm { OnOk result (IsCalm (F.seen files.old) (F.seen files.new)) }
    ensures calm_kept { IfErr result (λ fault. IsNoFault fault
        → IsCalm (F.seen files.old) (F.seen files.new)) }
    ensures asked { (asked : Option (List ℕ) → ℕ) → IsAskedToRead asked → IfKnown (F.seen files.old).held (λ known.
        AsksAtMost (asked_of_all asked known (input_names inputs.items)) (F.seen files.old) (F.seen files.new)) }
    ensures later { Later (F.seen files.old) (F.seen files.new) }
{
    let mut writer = writer;
    match copy_inputs(machine, files, inputs, &mut writer)? {
        None => match writer.finish(machine.rt, machine.alloc, files, machine.gate) {
            Ok(_) => Ok(()),
            Err(fault) => Err(fault_of_output(fault)),
        },
        Some(bad) => match writer.stop(machine.rt, machine.alloc, files, machine.gate) {
            Ok(()) => Err(MergeFault::At(bad.input, Fault::Refused(bad.cause))),
            Err(fault) => Err(fault_of_output(fault)),
        },
    }
}

/// Merges 1 to 32 files: the output, another name than any input's, has the records of all inputs, in their order,
/// under the plain head of the first input with the counts of these records. It is packed in chunks of `chunk` points,
/// 256 to 250,000, or plain. The machine's workers unpack and pack side by side, and what is written does not depend on
/// them. An input may be given more than once.
///
/// The inputs are opened in order, and each is compared with the first: it has the same format (a packed and a plain
/// input may be merged), record length, scales, offsets and box. Doubles are compared as bytes. Of later inputs nothing
/// but their records is kept. Each is closed when it was compared, and opened again for its turn, so the chunk list of
/// one input alone is in memory at a time.
///
/// The answer is `At` with a `Refused`, `Read` or `Memory` fault of the input of that number, `Unequal` for the first
/// input that differs, or `TooManyPoints` if the inputs have 2^32 records or more. An input is opened only if all
/// before it were opened and are like the first, and the output is created after all of this: until then no file
/// changes. A chunk that holds no records of its count is `At` with `BadChunk`: the output then holds its head and all
/// records before it, of a packed output in full chunks. After any other fault the files are as before, or the output
/// is a prefix of its draft, or its draft after a part of its patches. `Write` means that the output could not be
/// written, and a read or a write that failed has raised its count.
///
/// If it is not known what the files hold, an input may be another file when its turn comes. It is then refused as when
/// it is opened at first: for its own cause, with `Unequal` if its head differs from what it was in a field, or with
/// `PointCounts` if it has another number of records. The output is then left unfinished.
pub fn merge<R: Threads + Sync, F: Files, G: Gate>(
    machine: Machine<'_, R, G>,
    files: &mut F,
    inputs: &[String],
    output: &str,
    chunk: Option<u32>,
) -> Result<(), MergeFault>
    requires some { 1 ≤ length inputs.now }
    requires few { length inputs.now ≤ 32 }
    requires chunk { ForSome chunk IsChunkSize }
    requires workers { AreWorkers machine.workers }
    requires names { All (λ name. string_bytes name ≢ output.now) inputs.now }

    ensures says { SaysMerging (names_of inputs.now) output.now chunk (F.seen files.old) (F.seen files.new) result }
    // No call has failed if the inputs are refused or can't be merged.
    ensures calm_kept { IfErr result (λ fault. IsNoFault fault
        → IsCalm (F.seen files.old) (F.seen files.new)) }
    // However the call ends, no more is asked for than opening each input twice takes, and reading once its pieces that
    // may hold their records.
    ensures asked { (asked : Option (List ℕ) → ℕ) → IsAskedToRead asked → IfKnown (F.seen files.old).held (λ known.
        AsksAtMost (asked_to_merge asked known (names_of inputs.now)) (F.seen files.old) (F.seen files.new)) }
{
    let alloc = machine.alloc;
    let opened = open_inputs(alloc, files, inputs)?;
    let most = count_points(&opened)?;
    let writer = begin(
        alloc,
        files,
        opened[0].head(),
        output,
        chunk,
        most,
        machine.workers,
    )?;
    join_and_finish(machine, files, opened, writer)
}
