//! The plain file: its head, with the counts of its records, and then the records, block by block.
ghost use Rattle.std.specs.Prelude.{◌≡◌, ◌+◌, ◌*◌, ◌<◌, ◌≤◌, [], false, min, length, vec_len, IfErr, IfOk};
ghost use Rattle.std.specs.Prelude.{OnErr, OnOk};
ghost use Rattle.std.specs.List.{concat};
ghost use Rattle.las_outside.specs.Frames.{IsCalm, OnlyWrites};
ghost use Rattle.las_outside.specs.Outside.{Outside, with_bytes};
ghost use Rattle.laz_file.specs.Copying.{LeavesUnfinished};
ghost use Rattle.laz_forms.specs.Outputs.{Output};
ghost use Rattle.laz_writer.specs.Writing.{Stands};
ghost use Rattle.las_make.specs.Made.{IsBefore, IsInRange, made_file, made_length, made_records, records_from};
ghost use Rattle.las_make.specs.Making.{FailsWriting, LeavesPlain};

use crate::blocks::put_records;
use crate::counting::count_records;
use crate::drawing::Generator;
use crate::head::blank_head;
use crate::settings::{Settings, record_length};
use las_outside::{Files, Gate};
use laz_file::{Fault, PLAIN_BLOCK, Writer};
use laz_workers::Machine;
use std::alloc::{AllocError, Global};
use std::thread::Threads;

// A buffer for the records of a block: 50,000, or all of them if they are fewer.
fn room_for_block(alloc: Global, settings: Settings) -> Result<Vec<u8>, AllocError>
    requires { IsInRange settings }
    ensures { IfOk result (λ room. vec_len room ≡ made_length settings * min settings.points PLAIN_BLOCK) }
{
    let count = settings.points.min(PLAIN_BLOCK) as usize;
    vec![in alloc; 0; record_length(settings) * count]
}

// Makes the records of a block, from this number on, and pushes them. It answers the number of the record after them.
fn push_block<R: Threads + Sync, F: Files, G: Gate>(
    machine: Machine<'_, R, G>,
    files: &mut F,
    settings: Settings,
    from: u32,
    generator: &mut Generator,
    buffer: &mut [u8],
    writer: &mut Writer,
) -> Result<u32, Fault>
    requires range { IsInRange settings }
    requires left { from < settings.points }
    requires before { IsBefore settings from generator.old.state }
    requires room { length buffer.old ≡ made_length settings * min settings.points PLAIN_BLOCK }
    requires open { writer.old.failed ≡ false }
    requires size { writer.old.size ≡ made_length settings }
    requires most { writer.old.most ≡ settings.points }
    requires stands { (before : Outside) × (out : Output)
        × Stands before (F.seen files.old) writer.old out (concat (records_from settings 0 from)) }
    ensures next { IfOk result (λ next. (from < next) × (next ≤ settings.points)
        × IsBefore settings next generator.new.state) }
    ensures stands { (before : Outside) (out : Output)
        → Stands before (F.seen files.old) writer.old out (concat (records_from settings 0 from))
        → IfOk result (λ next. Stands before (F.seen files.new) writer.new out
        (concat (records_from settings 0 next))) }
    ensures open { OnOk result (writer.new.failed ≡ false) }
    ensures most { writer.new.most ≡ writer.old.most }
    ensures left { (before : Outside) (out : Output)
        → Stands before (F.seen files.old) writer.old out (concat (records_from settings 0 from))
        → OnErr result (LeavesUnfinished out (concat (made_records settings)) before.held
        (F.seen files.new).held) }
    ensures cause { IfErr result (FailsWriting (F.seen files.old) (F.seen files.new)) }
    ensures calm { OnOk result (IsCalm (F.seen files.old) (F.seen files.new)) }
    ensures writes { OnlyWrites (F.seen files.old) (F.seen files.new) }
{
    let count = PLAIN_BLOCK.min(settings.points - from);
    let end = record_length(settings) * count as usize;
    put_records(&mut buffer[..end], settings, from, count, generator);
    writer.push(
        machine.rt,
        machine.alloc,
        files,
        machine.gate,
        &buffer[..end],
    )?;
    Ok(from + count)
}

// Makes all records and pushes them.
fn push_records<R: Threads + Sync, F: Files, G: Gate>(
    machine: Machine<'_, R, G>,
    files: &mut F,
    settings: Settings,
    buffer: &mut [u8],
    writer: &mut Writer,
) -> Result<(), Fault>
    requires range { IsInRange settings }
    requires room { length buffer.old ≡ made_length settings * min settings.points PLAIN_BLOCK }
    requires open { writer.old.failed ≡ false }
    requires size { writer.old.size ≡ made_length settings }
    requires most { writer.old.most ≡ settings.points }
    requires stands { (before : Outside) × (out : Output) × Stands before (F.seen files.old) writer.old out [] }
    ensures stands { (before : Outside) (out : Output) → Stands before (F.seen files.old) writer.old out []
        → OnOk result (Stands before (F.seen files.new) writer.new out (concat (made_records settings))) }
    ensures open { OnOk result (writer.new.failed ≡ false) }
    ensures left { (before : Outside) (out : Output) → Stands before (F.seen files.old) writer.old out []
        → OnErr result (LeavesUnfinished out (concat (made_records settings)) before.held
        (F.seen files.new).held) }
    ensures cause { IfErr result (FailsWriting (F.seen files.old) (F.seen files.new)) }
    ensures writes { OnlyWrites (F.seen files.old) (F.seen files.new) }
{
    let mut generator = Generator::new(settings.seed);
    let mut from = 0;
    while from < settings.points {
        from = push_block(
            machine,
            files,
            settings,
            from,
            &mut generator,
            buffer,
            writer,
        )?;
    }
    Ok(())
}

/// Writes the plain file, and answers its length.
pub(crate) fn write_plain<R: Threads + Sync, F: Files, G: Gate>(
    machine: Machine<'_, R, G>,
    files: &mut F,
    output: &str,
    settings: Settings,
) -> Result<u64, Fault>
    requires range { IsInRange settings }
    ensures written { OnOk result (F.seen files.new ≡ with_bytes (F.seen files.old) output.now (made_file settings)) }
    ensures length { IfOk result (λ size. size ≡ length (made_file settings)) }
    ensures left { OnErr result (LeavesPlain output.now settings (F.seen files.old).held (F.seen files.new).held) }
    ensures cause { IfErr result (FailsWriting (F.seen files.old) (F.seen files.new)) }
    ensures writes { OnlyWrites (F.seen files.old) (F.seen files.new) }
{
    let alloc = machine.alloc;
    let head = blank_head(alloc, settings)?.with_counts(count_records(settings));
    let mut buffer = room_for_block(alloc, settings)?;
    let mut writer = Writer::create(alloc, files, output, &head, None, false, settings.points, 1)?;
    push_records(machine, files, settings, &mut buffer, &mut writer)?;
    writer.finish(machine.rt, alloc, files, machine.gate)
}
