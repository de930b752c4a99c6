//! The records of the inputs, which go one input after another into the output.
ghost use Rattle.std.specs.Prelude.{◌≡◌, ◌≢◌, ◌*◌, ◌+◌, ◌<◌, ◌≤◌, ℕ, List, Option, All, None, Some, false, length};
ghost use Rattle.std.specs.Prelude.{IfErr, IfOk, OnErr, OnOk};
ghost use Rattle.las_header.specs.Fields.{points_of, record_length_of};
ghost use Rattle.las_outside.specs.Files.{WhereKnown};
ghost use Rattle.las_outside.specs.Frames.{IsCalm};
ghost use Rattle.las_outside.specs.Limits.{AreWorkers};
ghost use Rattle.las_outside.specs.Outside.{Later};
ghost use Rattle.laz_reader.specs.Asking.{AsksAtMost, ReadsAndWrites, bytes_left};
ghost use Rattle.laz_file.specs.Copying.{CanTake, LeavesPart, Takes};
ghost use Rattle.laz_forms.specs.FileFaults.{HasCause};
ghost use Rattle.laz_reader.specs.Reading.{IsNewReader, StandsFor, records_in};
ghost use Rattle.laz_writer.specs.Writing.{IsBegun};
ghost use Rattle.las_merge.specs.Asking.{IsAskedToRead, asked_of_all};
ghost use Rattle.las_merge.specs.Inputs.{IfKnown};
ghost use Rattle.las_merge.specs.Copying.{BeginsWith, CopiesTo, CopiesUpTo, FailsCopying, HasRoomForInput};
ghost use Rattle.las_merge.specs.Copying.{IsFaultOf};
ghost use Rattle.las_merge.specs.Opening.{IsOpen, merge_fault, input_names, points_read};
ghost use Rattle.las_merge.specs.Packed.{IsNoFault};

use crate::MergeFault;
use crate::input::Input;
use crate::opening::{fault_of, open_again};
use las_header::Refusal;
use las_outside::{Files, Gate};
use laz_file::{Fault, Reader, Writer, copy_records};
use laz_workers::Machine;
use std::thread::Threads;

/// An input with a bad chunk.
#[derive(Clone, Copy)]
pub(crate) struct BadInput {
    pub(crate) input: u32,
    pub(crate) cause: Refusal,
}

// Copies the records of an input that was opened again: all of them, or those before its first bad chunk, which is the
// answer.
fn copy_input<R: Threads + Sync, F: Files, G: Gate>(
    machine: Machine<'_, R, G>,
    files: &mut F,
    reader: Reader,
    writer: &mut Writer,
) -> Result<Option<Refusal>, Fault>
    requires workers { AreWorkers machine.workers }
    requires fresh { IsNewReader reader.name reader }
    requires reads { WhereKnown (F.seen files.old).held reader.name (StandsFor reader) }
    requires names { reader.name ≢ writer.old.name }
    requires room { CanTake reader writer.old }
    requires stands { IsBegun (F.seen files.old) writer.old }
    ensures copied { IfOk result (λ end. (records : List ℕ)
        × CopiesTo (F.seen files.old).held reader.name records end
        × Takes (F.seen files.old) (F.seen files.new) writer.old writer.new records
        × (end ≡ None → length records ≡ writer.old.size * records_in reader.left)) }
    ensures left { OnErr result ((records : List ℕ)
        × WhereKnown (F.seen files.old).held reader.name (λ file. BeginsWith file records)
        × LeavesPart (F.seen files.old) (F.seen files.new) writer.old records) }
    ensures open { OnOk result (writer.new.failed ≡ false) }
    ensures most { OnOk result (writer.new.most ≡ writer.old.most) }
    ensures cause { IfErr result (HasCause (F.seen files.old) (F.seen files.new)) }
    ensures calm { OnOk result (IsCalm (F.seen files.old) (F.seen files.new)) }
    ensures frame { ReadsAndWrites (bytes_left reader) (F.seen files.old) (F.seen files.new) }
{
    let mut reader = reader;
    let hands = reader.hands(machine.workers);
    let mut crew = reader.crew(machine.alloc, hands)?;
    copy_records(
        machine.rt,
        machine.alloc,
        files,
        machine.gate,
        &mut reader,
        &mut crew,
        writer,
    )
}

// Opens an input again, and copies its records: all of them, or those before its first bad chunk, which is the answer.
// What is known of its chunks is dropped at the end.
fn copy_next<R: Threads + Sync, F: Files, G: Gate>(
    machine: Machine<'_, R, G>,
    files: &mut F,
    number: u32,
    input: &Input,
    writer: &mut Writer,
) -> Result<Option<Refusal>, MergeFault>
    requires workers { AreWorkers machine.workers }
    requires opened { IsOpen (F.seen files.old).held input.now }
    requires names { input.now.name ≢ writer.old.name }
    requires room { HasRoomForInput input.now writer.old }
    requires stands { IsBegun (F.seen files.old) writer.old }
    ensures copied { IfOk result (λ end. (records : List ℕ)
        × CopiesTo (F.seen files.old).held input.now.name records end
        × Takes (F.seen files.old) (F.seen files.new) writer.old writer.new records
        × (end ≡ None → length records ≡ writer.old.size * points_of input.now.head.bytes)) }
    ensures left { OnErr result ((records : List ℕ)
        × WhereKnown (F.seen files.old).held input.now.name (λ file. BeginsWith file records)
        × LeavesPart (F.seen files.old) (F.seen files.new) writer.old records) }
    ensures open { OnOk result (writer.new.failed ≡ false) }
    ensures most { OnOk result (writer.new.most ≡ writer.old.most) }
    ensures cause { IfErr result (IsFaultOf (F.seen files.old) (F.seen files.new) number) }
    ensures calm { OnOk result (IsCalm (F.seen files.old) (F.seen files.new)) }
    ensures calm_kept { IfErr result (λ fault. IsNoFault fault
        → IsCalm (F.seen files.old) (F.seen files.new)) }
    ensures asked { (asked : Option (List ℕ) → ℕ) → IsAskedToRead asked
        → WhereKnown (F.seen files.old).held input.now.name (λ file.
        AsksAtMost (asked (Some file)) (F.seen files.old) (F.seen files.new)) }
    ensures later { Later (F.seen files.old) (F.seen files.new) }
{
    let reader = match open_again(machine.alloc, files, number, input) {
        Ok(reader) => reader,
        Err(fault) => return Err(fault),
    };
    match copy_input(machine, files, reader, writer) {
        Ok(end) => Ok(end),
        Err(fault) => Err(fault_of(number, fault)),
    }
}

/// Copies the records of all inputs, up to the first bad chunk. Each input is opened again for its turn.
pub(crate) fn copy_inputs<R: Threads + Sync, F: Files, G: Gate>(
    machine: Machine<'_, R, G>,
    files: &mut F,
    inputs: Vec<Input>,
    writer: &mut Writer,
) -> Result<Option<BadInput>, MergeFault>
    requires few { length inputs.items ≤ 32 }
    requires workers { AreWorkers machine.workers }
    requires opened { All (IsOpen (F.seen files.old).held) inputs.items }
    requires sizes { All (λ input. record_length_of input.head.bytes ≡ writer.old.size) inputs.items }
    requires names { All (λ input. input.name ≢ writer.old.name) inputs.items }
    requires room { writer.old.taken + writer.old.size * points_read inputs.items
        ≤ writer.old.size * writer.old.most }
    requires sound { writer.old.failed ≡ false }
    requires stands { IsBegun (F.seen files.old) writer.old }
    ensures copied { IfOk result (λ end. (records : List ℕ)
        × CopiesUpTo (F.seen files.old).held (input_names inputs.items) records end
        × Takes (F.seen files.old) (F.seen files.new) writer.old writer.new records) }
    ensures ends { IfErr result
        (FailsCopying (F.seen files.old) (F.seen files.new) (input_names inputs.items) writer.old) }
    ensures open { OnOk result (writer.new.failed ≡ false) }
    ensures calm { OnOk result (IsCalm (F.seen files.old) (F.seen files.new)) }
    ensures calm_kept { IfErr result (λ fault. IsNoFault fault
        → IsCalm (F.seen files.old) (F.seen files.new)) }
    ensures asked { (asked : Option (List ℕ) → ℕ) → IsAskedToRead asked → IfKnown (F.seen files.old).held (λ known.
        AsksAtMost (asked_of_all asked known (input_names inputs.items)) (F.seen files.old) (F.seen files.new)) }
    ensures later { Later (F.seen files.old) (F.seen files.new) }
{
    let mut number = 0;
    'inputs: for input in inputs {
        let end = match copy_next(machine, files, number, &input, writer) {
            Ok(end) => end,
            Err(fault) => return Err(fault),
        };
        if let Some(cause) = end {
            return Ok(Some(BadInput {
                input: number,
                cause,
            }));
        }
        number += 1;
    }
    Ok(None)
}
