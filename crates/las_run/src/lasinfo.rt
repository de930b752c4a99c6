//! The command `lasinfo`: what is in a file.
ghost use Rattle.std.specs.Prelude.{◌≡◌, ◌^◌, ◌≤◌, ◌∷◌, [], ℕ, All, IfErr, OnOk, length, map};
ghost use Rattle.las_header.specs.Heads.{IsHead};
ghost use Rattle.las_info.specs.Tallies.{count_at};
ghost use Rattle.las_outside.specs.Files.{WhereKnown};
ghost use Rattle.las_outside.specs.Limits.{AreWorkers};
ghost use Rattle.las_outside.specs.Frames.{IsCalm, Reads};
ghost use Rattle.las_outside.specs.Outside.{Later};
ghost use Rattle.las_words.specs.Asked.{AreChosen, lasinfo, reads};
ghost use Rattle.las_words.specs.Texts.{texts};
ghost use Rattle.laz_reader.specs.Asking.{bytes_left};
ghost use Rattle.laz_reader.specs.Reading.{AgreesWithHead, IsNewReader, StandsFor};
ghost use Rattle.std.specs.Option.{option_map};
ghost use Rattle.las_run.specs.Asking.{AsksWhole};
ghost use Rattle.las_run.specs.Calm.{IsNoFailure};
ghost use Rattle.las_run.specs.Ends.{Ends, EndsCommand, cause_of, changes, stopped_report};
ghost use Rattle.las_run.specs.Runs.{task_for};
ghost use Rattle.las_run.specs.Tools.{Reports};

use crate::input::{open_input, stop};
use crate::stop::Stop;
use las_info::{ReportFault, Tap, choose, report};
use las_outside::{Files, Gate, Sink};
use las_survey::survey;
use laz_file::Reader;
use laz_workers::Machine;
use std::thread::Threads;

/// Reports what is in an input, with the taps of these names.
pub(crate) fn lasinfo<R: Threads + Sync, F: Files, O: Sink, G: Gate>(
    machine: Machine<'_, R, G>,
    files: &mut F,
    out: &mut O,
    taps: Vec<Box<dyn Tap>>,
    input: &str,
    tallies: &[String],
) -> Result<(), Stop>
    requires chosen { AreChosen (map (λ tap. (tap_seen tap).name) taps.items) (texts tallies.now) }
    requires workers { AreWorkers machine.workers }
    requires room { All (λ tap. (bin : ℕ) → count_at (tap_seen tap).tally bin ≤ 2 ^ 63) taps.items }
    ensures ends { let work = reads input.now (lasinfo (record { tallies = texts tallies.now })) in
        Ends (task_for (map (λ tap. tap_seen tap) taps.items) work machine.entry.workers)
        (changes (F.seen files.old) (F.seen files.new) (O.seen out.old) (O.seen out.new))
        (cause_of (input.now ∷ []) result) }
    ensures calm { OnOk result (IsCalm (F.seen files.old) (F.seen files.new)) }
    ensures calm_stopped { IfErr result (λ stop. IsNoFailure stop
        → IsCalm (F.seen files.old) (F.seen files.new)) }
    ensures calm_out { OnOk result ((O.seen out.new).faults ≡ (O.seen out.old).faults) }
    ensures asks { AsksWhole input.now (F.seen files.old) (F.seen files.new) }
    ensures later { Later (F.seen files.old) (F.seen files.new) }
{
    let reader = open_input(machine.alloc, files, 0, input)?;
    inform(machine, files, out, reader, taps, tallies)
}

// Reports what is in the file of a reader.
fn inform<R: Threads + Sync, F: Files, O: Sink, G: Gate>(
    machine: Machine<'_, R, G>,
    files: &mut F,
    out: &mut O,
    reader: Reader,
    taps: Vec<Box<dyn Tap>>,
    tallies: &[String],
) -> Result<(), Stop>
    requires new { IsNewReader reader.name reader }
    requires whole { AgreesWithHead reader }
    requires head { IsHead reader.head.bytes }
    requires chosen { AreChosen (map (λ tap. (tap_seen tap).name) taps.items) (texts tallies.now) }
    requires workers { AreWorkers machine.workers }
    requires room { All (λ tap. (bin : ℕ) → count_at (tap_seen tap).tally bin ≤ 2 ^ 63) taps.items }
    requires stands { WhereKnown (F.seen files.old).held reader.name (StandsFor reader) }
    ensures ends { EndsCommand (Reports (map (λ tap. tap_seen tap) taps.items) reader.name (texts tallies.now))
        reader.name (changes (F.seen files.old) (F.seen files.new) (O.seen out.old) (O.seen out.new)) result }
    ensures calm { OnOk result (IsCalm (F.seen files.old) (F.seen files.new)) }
    ensures calm_stopped { IfErr result (λ stop. IsNoFailure stop
        → IsCalm (F.seen files.old) (F.seen files.new)) }
    ensures calm_out { OnOk result ((O.seen out.new).faults ≡ (O.seen out.old).faults) }
    ensures reads { Reads (bytes_left reader) (F.seen files.old) (F.seen files.new) }
{
    let mut reader = reader;
    let chunks = chunks_of(&reader);
    let Machine {
        rt,
        alloc,
        gate,
        workers,
    } = machine;
    let chosen = match choose(alloc, taps, tallies) {
        Ok(chosen) => chosen,
        Err(_) => return Err(Stop::Memory),
    };
    match survey(rt, alloc, files, gate, &mut reader, chosen, workers) {
        Ok(survey) => put(report(alloc, &survey, reader.head(), chunks, out)),
        Err(fault) => Err(stop(0, fault)),
    }
}

// The chunk size and the number of chunks of a reader's file, if it is packed.
fn chunks_of(reader: &Reader) -> Option<(u32, u32)>
    ensures { result ≡ option_map (λ chunk. (chunk, length reader.now.pieces)) reader.now.chunk }
{
    match reader.chunk() {
        None => None,
        Some(chunk) => Some((chunk, reader.chunks())),
    }
}

/// How a run ends whose report, or whose tallies, were put so.
pub(crate) fn put(outcome: Result<(), ReportFault>) -> Result<(), Stop>
    ensures { result ≡ stopped_report outcome }
{
    match outcome {
        Ok(()) => Ok(()),
        Err(ReportFault::Failed) => Err(Stop::Write),
        Err(ReportFault::Memory) => Err(Stop::Memory),
    }
}
