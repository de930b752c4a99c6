//! Records that go from a reader into a writer: filtered, thinned, changed, and shown to taps.
ghost use Rattle.std.specs.Prelude.{◌≡◌, ◌≢◌, ◌%◌, ◌*◌, ◌+◌, ◌/◌, ◌^◌, ◌≤◌, ◌<◌};
ghost use Rattle.std.specs.Prelude.{All, IfErr, IfOk, OnErr, OnOk, false, length, map};
ghost use Rattle.las_header.specs.Plain.{cut_all};
ghost use Rattle.las_filter.specs.Changes.{HasClass};
ghost use Rattle.las_filter.specs.Kept.{steps_of};
ghost use Rattle.las_outside.specs.Files.{WhereKnown};
ghost use Rattle.las_outside.specs.Frames.{IsCalm, OnlyWrites};
ghost use Rattle.laz_file.specs.Copying.{CanTake};
ghost use Rattle.laz_forms.specs.FileFaults.{HasCause};
ghost use Rattle.laz_reader.specs.Asking.{ReadsAndWrites, bytes_left};
ghost use Rattle.laz_reader.specs.Reading.{IsCrewOf, StandsFor};
ghost use Rattle.laz_writer.specs.Writing.{IsBegun};
ghost use Rattle.las_convert.specs.Adding.{AfterAny, AfterNone, AfterSome, BeforeAll, Goes, GoesToEnd, HaveCounted};
ghost use Rattle.las_convert.specs.Adding.{ComesBy};
ghost use Rattle.las_convert.specs.Adding.{LeavesKeeping, LeavesKept};

use crate::passage::Passage;
use las_filter::Plan;
use las_header::{POINT_RECORD, Refusal};
use las_outside::{Files, Gate};
use laz_chunk::Workspace;
use laz_file::{Fault, Reader, Turn, Writer, copy_records};
use laz_workers::{Crew, Machine};
use std::thread::Threads;

/// What was taken of some records: how many were kept, and whether the change of the next one that passes is refused.
#[derive(Clone, Copy)]
pub(crate) struct Taken {
    pub(crate) kept: u64,
    pub(crate) refused: bool,
}

// Filters, thins and changes the records of a block, pushes what is kept of them, and shows it to the taps.
fn push_kept<R: Threads + Sync, F: Files, G: Gate>(
    machine: Machine<'_, R, G>,
    files: &mut F,
    plan: &Plan,
    size: usize,
    block: &[u8],
    passage: &mut Passage,
    writer: &mut Writer,
) -> Result<Taken, Fault>
    requires size { POINT_RECORD ≤ size }
    requires whole { length block.now % size ≡ 0 }
    requires classes { All HasClass plan.now.changes.items }
    requires few { passage.old.read + length block.now / size < 2 ^ 32 }
    requires after { AfterSome (steps_of plan.now) passage.old.sieve passage.old.read }
    requires counted { HaveCounted passage.old.read (map (λ tap. tap_seen tap) passage.old.taps.items) }
    requires open { writer.old.failed ≡ false }
    requires same { writer.old.size ≡ size }
    requires room { writer.old.taken + length block.now ≤ writer.old.size * writer.old.most }
    requires stands { IsBegun (F.seen files.old) writer.old }
    ensures goes { let taps = map (λ tap. tap_seen tap) passage.old.taps.items in
        let seen = map (λ tap. tap_seen tap) passage.new.taps.items in
        AfterAny (steps_of plan.now) passage.old.sieve passage.old.read (λ keeping before. IfOk result (λ taken.
        Goes keeping before size block.now (F.seen files.old) (F.seen files.new) writer.old writer.new taps seen
        taken.kept taken.refused)) }
    ensures after { ComesBy result (λ taken. taken.refused) (steps_of plan.now) passage.old.sieve passage.old.read
        (cut_all size block.now) passage.new.sieve passage.new.read }
    ensures left { AfterAny (steps_of plan.now) passage.old.sieve passage.old.read (λ keeping before. OnErr result
        (LeavesKept keeping before size block.now (F.seen files.old) (F.seen files.new) writer.old)) }
    ensures settings { passage.new.sieve.settings ≡ passage.old.sieve.settings }
    ensures read { OnOk result (passage.new.read ≡ passage.old.read + length block.now / size) }
    ensures most { writer.new.most ≡ writer.old.most }
    ensures open { OnOk result (writer.new.failed ≡ false) }
    ensures cause { IfErr result (HasCause (F.seen files.old) (F.seen files.new)) }
    ensures calm { OnOk result (IsCalm (F.seen files.old) (F.seen files.new)) }
    ensures writes { OnlyWrites (F.seen files.old) (F.seen files.new) }
{
    let part = passage.keep(plan, size, block)?;
    writer.push(
        machine.rt,
        machine.alloc,
        files,
        machine.gate,
        &passage.buffer[..part.length],
    )?;
    passage.show(size, part.length)?;
    Ok(Taken {
        kept: (part.length / size) as u64,
        refused: part.refused,
    })
}

// Copies the records that a plan keeps and a sieve lets pass, changed, from a reader into a writer, block by block: up
// to the end of the records, or up to the first bad chunk or the first record whose change is refused, which is the
// answer. The taps see what is written.
fn convert_blocks<R: Threads + Sync, F: Files, G: Gate>(
    machine: Machine<'_, R, G>,
    files: &mut F,
    plan: &Plan,
    reader: &mut Reader,
    crew: &mut Crew<Workspace>,
    passage: &mut Passage,
    writer: &mut Writer,
) -> Result<Option<Refusal>, Fault>
    requires classes { All HasClass plan.now.changes.items }
    requires after { BeforeAll (steps_of plan.now) passage.old.sieve passage.old.read }
    requires counted { HaveCounted 0 (map (λ tap. tap_seen tap) passage.old.taps.items) }
    requires open { reader.old.failed ≡ false }
    requires crew { IsCrewOf reader.old crew.old }
    requires names { reader.old.name ≢ writer.old.name }
    requires reads { WhereKnown (F.seen files.old).held reader.old.name (StandsFor reader.old) }
    requires room { CanTake reader.old writer.old }
    requires stands { IsBegun (F.seen files.old) writer.old }
    ensures converted { let taps = map (λ tap. tap_seen tap) passage.old.taps.items in
        let seen = map (λ tap. tap_seen tap) passage.new.taps.items in
        AfterNone (steps_of plan.now) passage.old.sieve passage.old.read (λ keeping. IfOk result
        (GoesToEnd keeping (F.seen files.old) (F.seen files.new) reader.old writer.old writer.new taps seen)) }
    ensures left { AfterNone (steps_of plan.now) passage.old.sieve passage.old.read (λ keeping. OnErr result
        (LeavesKeeping keeping (F.seen files.old) (F.seen files.new) reader.old writer.old)) }
    ensures open { OnOk result (writer.new.failed ≡ false) }
    ensures cause { IfErr result (HasCause (F.seen files.old) (F.seen files.new)) }
    ensures calm { OnOk result (IsCalm (F.seen files.old) (F.seen files.new)) }
    ensures frame { ReadsAndWrites (bytes_left reader.old) (F.seen files.old) (F.seen files.new) }
{
    let size = usize::from(reader.head().record_length());
    let mut turn = Turn::first();
    let mut kept = 0;
    'turns: loop {
        let next = match reader.next_block(&machine, files, crew, &mut turn) {
            Ok(next) => next,
            Err(fault) => return fault.into_end(),
        };
        let Some(number) = next else {
            return Ok(None);
        };
        let block = reader.block(crew, number);
        let taken = push_kept(machine, files, plan, size, block, passage, writer)?;
        kept += taken.kept;
        if taken.refused {
            return Ok(Some(Refusal::RawRange(kept)));
        }
    }
}

/// Copies the records that a plan keeps and a sieve lets pass, changed, from a reader into a writer: up to the end of
/// the records, or up to the first bad chunk or the first record whose change is refused, which is the answer. The taps
/// see what is written. If every record goes on as it was read and no tap looks, whole blocks are copied.
pub(crate) fn convert_records<R: Threads + Sync, F: Files, G: Gate>(
    machine: Machine<'_, R, G>,
    files: &mut F,
    plan: &Plan,
    reader: &mut Reader,
    crew: &mut Crew<Workspace>,
    passage: &mut Passage,
    writer: &mut Writer,
) -> Result<Option<Refusal>, Fault>
    requires classes { All HasClass plan.now.changes.items }
    requires after { BeforeAll (steps_of plan.now) passage.old.sieve passage.old.read }
    requires counted { HaveCounted 0 (map (λ tap. tap_seen tap) passage.old.taps.items) }
    requires open { reader.old.failed ≡ false }
    requires crew { IsCrewOf reader.old crew.old }
    requires names { reader.old.name ≢ writer.old.name }
    requires reads { WhereKnown (F.seen files.old).held reader.old.name (StandsFor reader.old) }
    requires room { CanTake reader.old writer.old }
    requires stands { IsBegun (F.seen files.old) writer.old }
    ensures converted { let taps = map (λ tap. tap_seen tap) passage.old.taps.items in
        let seen = map (λ tap. tap_seen tap) passage.new.taps.items in
        AfterNone (steps_of plan.now) passage.old.sieve passage.old.read (λ keeping. IfOk result
        (GoesToEnd keeping (F.seen files.old) (F.seen files.new) reader.old writer.old writer.new taps seen)) }
    ensures left { AfterNone (steps_of plan.now) passage.old.sieve passage.old.read (λ keeping. OnErr result
        (LeavesKeeping keeping (F.seen files.old) (F.seen files.new) reader.old writer.old)) }
    ensures open { OnOk result (writer.new.failed ≡ false) }
    ensures cause { IfErr result (HasCause (F.seen files.old) (F.seen files.new)) }
    ensures calm { OnOk result (IsCalm (F.seen files.old) (F.seen files.new)) }
    ensures frame { ReadsAndWrites (bytes_left reader.old) (F.seen files.old) (F.seen files.new) }
{
    if passage.changes_nothing(plan) {
        return copy_records(
            machine.rt,
            machine.alloc,
            files,
            machine.gate,
            reader,
            crew,
            writer,
        );
    }
    convert_blocks(machine, files, plan, reader, crew, passage, writer)
}
