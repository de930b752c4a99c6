//! Records that go from a reader to a writer.
ghost use Rattle.std.specs.Prelude.{◌≡◌, ◌≢◌, ◌⊎◌, ◌%◌, ◌*◌, ◌+◌, ◌≤◌, ◌++◌, ℕ, List, length, false, IfErr, IfOk};
ghost use Rattle.std.specs.Prelude.{IsErrOf, IsSome};
ghost use Rattle.std.specs.Prelude.{OnErr, OnOk};
ghost use Rattle.std.specs.List.{concat};
ghost use Rattle.las_outside.specs.Faults.{Rose};
ghost use Rattle.las_outside.specs.Frames.{IsCalm, OnlyWrites};
ghost use Rattle.las_outside.specs.Outside.{Later, Outside};
ghost use Rattle.laz_forms.specs.declared.fault.Fault.TheVariants.{Memory, Write};
ghost use Rattle.laz_reader.specs.Asking.{AsksAtMost, bytes_left};
ghost use Rattle.laz_file.specs.Copying.{CanTake, HasRoomFor, HasTaken, LeavesPart, Takes};
ghost use Rattle.laz_forms.specs.FileFaults.{HasCause, end_of};
ghost use Rattle.laz_reader.specs.Reading.{IsCrewOf, OfFile, StandsFor};
ghost use Rattle.laz_reader.specs.Turns.{EndsAfter, HoldFirst, LendsAt};
ghost use Rattle.laz_writer.specs.Writing.{IsBegun, WriterSeen};

use las_header::Refusal;
use las_outside::{Files, Gate};
use laz_chunk::Workspace;
use laz_forms::Fault;
use laz_reader::{Reader, Turn};
use laz_workers::{Crew, Machine};
use laz_writer::Writer;
use std::alloc::Global;
use std::thread::Threads;

// Pushes the block of a plain file. The writer may keep the block itself, and the reader has another buffer in its place.
fn push_plain<R: Threads + Sync, F: Files, G: Gate>(
    machine: &Machine<'_, R, G>,
    files: &mut F,
    reader: &mut Reader,
    writer: &mut Writer,
) -> Result<(), Fault>
    requires open { writer.old.failed ≡ false }
    requires whole { length reader.old.lent % writer.old.size ≡ 0 }
    requires most { writer.old.taken + length reader.old.lent ≤ writer.old.size * writer.old.most }
    requires stands { IsBegun (F.seen files.old) writer.old }
    ensures takes { OnOk result (Takes (F.seen files.old) (F.seen files.new) writer.old writer.new reader.old.lent) }
    ensures part { OnErr result (LeavesPart (F.seen files.old) (F.seen files.new) writer.old reader.old.lent) }
    ensures most { writer.new.most ≡ writer.old.most }
    ensures open { OnOk result (writer.new.failed ≡ false) }
    ensures cause { IfErr result (HasCause (F.seen files.old) (F.seen files.new)) }
    ensures calm { OnOk result (IsCalm (F.seen files.old) (F.seen files.new)) }
    ensures writes { OnlyWrites (F.seen files.old) (F.seen files.new) }
    ensures reader { reader.new ≡ record reader.old { lent = reader.new.lent } }
{
    let mut block = Vec::new(machine.alloc);
    reader.swap_block(&mut block);
    let pushed = writer.push_block(machine.rt, machine.alloc, files, machine.gate, &mut block);
    reader.swap_block(&mut block);
    pushed
}

// Pushes the block that a reader and its crew lend under this number. Of a plain file the writer may keep the block
// itself, and the reader has another buffer in its place.
fn push_lent<R: Threads + Sync, F: Files, G: Gate>(
    machine: &Machine<'_, R, G>,
    files: &mut F,
    reader: &mut Reader,
    crew: &Crew<Workspace>,
    number: u32,
    writer: &mut Writer,
) -> Result<(), Fault>
    requires fits { (first : WriterSeen) × (old : Outside) × (records block : List ℕ)
        × HasTaken first writer.old old (F.seen files.old) records × LendsAt reader.old crew.now number block
        × HasRoomFor first records block }
    ensures takes { (first : WriterSeen) (old : Outside) (records block : List ℕ)
        → HasTaken first writer.old old (F.seen files.old) records → LendsAt reader.old crew.now number block
        → OnOk result (HasTaken first writer.new old (F.seen files.new) (records ++ block)) }
    ensures part { (first : WriterSeen) (old : Outside) (records block : List ℕ)
        → HasTaken first writer.old old (F.seen files.old) records → LendsAt reader.old crew.now number block
        → OnErr result (LeavesPart old (F.seen files.new) first (records ++ block)) }
    ensures most { writer.new.most ≡ writer.old.most }
    ensures cause { IfErr result (HasCause (F.seen files.old) (F.seen files.new)) }
    ensures calm { OnOk result (IsCalm (F.seen files.old) (F.seen files.new)) }
    ensures writes { OnlyWrites (F.seen files.old) (F.seen files.new) }
    ensures reader { reader.new ≡ record reader.old { lent = reader.new.lent } }
    ensures packed { IsSome reader.old.chunk → reader.new ≡ reader.old }
{
    match reader.chunk() {
        None => push_plain(machine, files, reader, writer),
        Some(_) => writer.push(
            machine.rt,
            machine.alloc,
            files,
            machine.gate,
            reader.block(crew, number),
        ),
    }
}

/// Copies all records that a reader has left into a writer of another name, block by block: up to the end of the records,
/// or up to the first bad chunk, which is the answer `Some`.
///
/// The crew is one of this reader, and the writer has room for all of the records. `Err` is `Read` or `Write` if such a
/// call failed, or `Memory`, and never `Refused`: of the output then a prefix stands of what stands if it is stopped
/// after some of the records.
pub fn copy_records<R: Threads + Sync, F: Files, G: Gate>(
    rt: &R,
    alloc: Global,
    files: &mut F,
    gate: &G,
    reader: &mut Reader,
    crew: &mut Crew<Workspace>,
    writer: &mut Writer,
) -> Result<Option<Refusal>, Fault>
    requires open { reader.old.failed ≡ false }
    requires crew { IsCrewOf reader.old crew.old }
    requires names { reader.old.name ≢ writer.old.name }
    requires reads { OfFile reader.old (F.seen files.old) (StandsFor reader.old) }
    requires room { CanTake reader.old writer.old }
    requires stands { IsBegun (F.seen files.old) writer.old }
    ensures copied { IfOk result (λ end. (n : ℕ) × (blocks : List (List ℕ))
        × HoldFirst (F.seen files.old).held reader.old n blocks × EndsAfter (F.seen files.old).held reader.old n end
        × Takes (F.seen files.old) (F.seen files.new) writer.old writer.new (concat blocks)) }
    ensures part { OnErr result ((n : ℕ) × (blocks : List (List ℕ))
        × HoldFirst (F.seen files.old).held reader.old n blocks
        × LeavesPart (F.seen files.old) (F.seen files.new) writer.old (concat blocks)) }
    ensures most { writer.new.most ≡ writer.old.most }
    ensures open { OnOk result (writer.new.failed ≡ false) }
    ensures cause { IfErr result (HasCause (F.seen files.old) (F.seen files.new)) }
    ensures reads_calm { OnOk result ((F.seen files.new).read_faults ≡ (F.seen files.old).read_faults) }
    ensures writes_calm { OnOk result ((F.seen files.new).write_faults ≡ (F.seen files.old).write_faults) }
    // No more is asked for than the reader has left, however the call ends.
    ensures asked { AsksAtMost (bytes_left reader.old) (F.seen files.old) (F.seen files.new) }
    ensures later { Later (F.seen files.old) (F.seen files.new) }
{
    let machine = Machine {
        rt,
        alloc,
        gate,
        workers: crew.hands() as u32,
    };
    let mut turn = Turn::first();
    'turns: loop {
        let next = match reader.next_block(&machine, files, crew, &mut turn) {
            Ok(next) => next,
            Err(fault) => return fault.into_end(),
        };
        match next {
            None => return Ok(None),
            Some(number) => push_lent(&machine, files, reader, crew, number, writer)?,
        }
    }
}
