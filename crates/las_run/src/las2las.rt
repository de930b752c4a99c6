//! The command `las2las`: the records of a range are filtered, thinned and changed, and taps tally those that stay.
ghost use Rattle.std.specs.Prelude.{◌≡◌, ◌≢◌, ◌≤◌, ◌^◌, ◌∷◌, [], ℕ, List, All, Err, IfErr, IfOk, OnOk, map};
ghost use Rattle.std.specs.Option.{ForSome};
ghost use Rattle.las_convert.specs.Converting.{IsReady};
ghost use Rattle.las_filter.specs.Changes.{HasClass};
ghost use Rattle.las_filter.specs.Kept.{steps_of};
ghost use Rattle.las_info.specs.Tallies.{TapSeen, count_at};
ghost use Rattle.las_outside.specs.Files.{IsMissing, WhereKnown};
ghost use Rattle.las_outside.specs.Frames.{IsCalm, OnlyReads};
ghost use Rattle.las_header.specs.Limits.{IsChunkSize};
ghost use Rattle.las_outside.specs.Limits.{AreWorkers};
ghost use Rattle.las_outside.specs.Outside.{Later};
ghost use Rattle.las_outside.specs.Sinks.{SinkView};
ghost use Rattle.las_thin.specs.Sieving.{HasItsStep, IsStep, HasSifted as SievesFor};
ghost use Rattle.las_words.specs.Asked.{AreChosen, las2las, reads};
ghost use Rattle.las_words.specs.Texts.{texts};
ghost use Rattle.laz_reader.specs.Asking.{AsksAtMost, ReadsAndWrites, asked_to_open, bytes_left};
ghost use Rattle.laz_reader.specs.Reading.{AgreesWithHead, IsFreshReader, IsNewReader, StandsFor};
ghost use Rattle.las_run.specs.Asking.{AsksAfterOpening, AsksFor, AsksToLook};
ghost use Rattle.las_run.specs.Calm.{IsNoFailure};
ghost use Rattle.las_run.specs.Ends.{Ends, EndsCommand, StopsOpening, cause_of, changes, quiet};
ghost use Rattle.las_run.specs.Runs.{task_for};
ghost use Rattle.las_run.specs.Tools.{ConvertsTaken, chunk_if, las2las_options, range_for, sieve_in};

use crate::conversion::{Conversion, Request};
use crate::input::{open_input, stop};
use crate::lasinfo::put;
use crate::stop::Stop;
use las_convert::{Passage, convert, look_through};
use las_info::{Tap, choose, tally_text};
use las_outside::{Files, Gate, Sink};
use las_thin::{Pick, Sieve};
use las_words::Packing;
use laz_file::Reader;
use laz_workers::Machine;
use std::alloc::Global;
use std::thread::Threads;

/// Writes those records of the input that are kept, each with the changes of the plan, and puts what the taps of these
/// names count of them. Places past the end are those of the end.
pub(crate) fn las2las<R: Threads + Sync, F: Files, O: Sink, G: Gate>(
    machine: Machine<'_, R, G>,
    files: &mut F,
    out: &mut O,
    taps: Vec<Box<dyn Tap>>,
    request: &Request<'_>,
    tallies: &[String],
) -> Result<(), Stop>
    requires chunk { IsChunkSize request.now.conversion.packing.chunk }
    requires workers { AreWorkers machine.workers }
    requires classes { All HasClass request.now.plan.now.changes.items }
    requires names { request.now.output.now ≢ request.now.input.now }
    requires order { request.now.conversion.start ≤ request.now.conversion.stop }
    requires side { IsStep request.now.conversion.step }
    requires cells { HasItsStep request.now.conversion.step request.now.conversion.pick }
    requires chosen { AreChosen (map (λ tap. (tap_seen tap).name) taps.items) (texts tallies.now) }
    requires room { All (λ tap. (bin : ℕ) → count_at (tap_seen tap).tally bin ≤ 2 ^ 63) taps.items }
    ensures ends { let options = las2las_options request.now.output.now (steps_of request.now.plan.now)
        request.now.conversion (texts tallies.now) in
        Ends (task_for (map (λ tap. tap_seen tap) taps.items) (reads request.now.input.now (las2las options))
        machine.entry.workers) (changes (F.seen files.old) (F.seen files.new) (O.seen out.old) (O.seen out.new))
        (cause_of (request.now.input.now ∷ []) result) }
    ensures calm { OnOk result (IsCalm (F.seen files.old) (F.seen files.new)) }
    ensures calm_stopped { IfErr result (λ stop. IsNoFailure stop
        → IsCalm (F.seen files.old) (F.seen files.new)) }
    ensures calm_out { OnOk result ((O.seen out.new).faults ≡ (O.seen out.old).faults) }
    ensures asks { let conversion = request.now.conversion in
        AsksFor request.now.input.now conversion.pick conversion.start conversion.stop (F.seen files.old)
        (F.seen files.new) }
    ensures later { Later (F.seen files.old) (F.seen files.new) }
{
    let chosen = match choose(machine.alloc, taps, tallies) {
        Ok(chosen) => chosen,
        Err(_) => return Err(Stop::Memory),
    };
    let reader = open_input(machine.alloc, files, 0, request.input)?;
    select(machine, files, out, reader, chosen, request)
}

// Writes what is kept of the records of a file, and puts what the taps count of it.
fn select<R: Threads + Sync, F: Files, O: Sink, G: Gate>(
    machine: Machine<'_, R, G>,
    files: &mut F,
    out: &mut O,
    reader: Reader,
    chosen: Vec<Box<dyn Tap>>,
    request: &Request<'_>,
) -> Result<(), Stop>
    requires new { IsNewReader request.now.input.now reader }
    requires whole { AgreesWithHead reader }
    requires chunk { IsChunkSize request.now.conversion.packing.chunk }
    requires workers { AreWorkers machine.workers }
    requires classes { All HasClass request.now.plan.now.changes.items }
    requires names { request.now.output.now ≢ request.now.input.now }
    requires order { request.now.conversion.start ≤ request.now.conversion.stop }
    requires side { IsStep request.now.conversion.step }
    requires cells { HasItsStep request.now.conversion.step request.now.conversion.pick }
    requires room { All (λ tap. (bin : ℕ) → count_at (tap_seen tap).tally bin ≤ 2 ^ 63) chosen.items }
    requires stands { WhereKnown (F.seen files.old).held request.now.input.now (StandsFor reader) }
    ensures ends { let Makes = ConvertsTaken request.now.conversion (map (λ tap. tap_seen tap) chosen.items)
        request.now.input.now request.now.output.now (steps_of request.now.plan.now) in
        EndsCommand Makes request.now.input.now
        (changes (F.seen files.old) (F.seen files.new) (O.seen out.old) (O.seen out.new)) result }
    ensures calm { OnOk result (IsCalm (F.seen files.old) (F.seen files.new)) }
    ensures calm_stopped { IfErr result (λ stop. IsNoFailure stop
        → IsCalm (F.seen files.old) (F.seen files.new)) }
    ensures calm_out { OnOk result ((O.seen out.new).faults ≡ (O.seen out.old).faults) }
    ensures asked { WhereKnown (F.seen files.old).held request.now.input.now (λ file.
        AsksAfterOpening request.now.conversion file (F.seen files.old) (F.seen files.new)) }
    ensures later { Later (F.seen files.old) (F.seen files.new) }
{
    let mut reader = reader;
    let conversion = request.conversion;
    seek(&mut reader, conversion);
    let mut sieve = Sieve::new(
        machine.alloc,
        conversion.step,
        conversion.pick,
        conversion.unique,
    );
    let reader = prepare(machine, files, reader, request, &mut sieve)?;
    write_kept(machine, files, out, reader, chosen, request, sieve)
}

// Lets a reader read the records of a conversion's places alone; places past the end are those of the end.
fn seek(reader: &mut Reader, conversion: Conversion)
    requires new { IsNewReader reader.old.name reader.old }
    requires order { conversion.start ≤ conversion.stop }
    ensures name { reader.new.name ≡ reader.old.name }
    ensures fresh { IsFreshReader reader.new.name reader.new }
    ensures range { reader.new.range ≡ range_for conversion reader.new.head.bytes }
    ensures stands { (file : List ℕ) → StandsFor reader.old file → StandsFor reader.new file }
    ensures whole { AgreesWithHead reader.old → AgreesWithHead reader.new }
{
    let points = reader.head().points();
    reader.seek_record(conversion.start.min(points), conversion.stop.min(points));
}

// Makes a sieve ready for the records of a range. If the lowest or the highest of a cell is to stay, it looks at all
// of them, and the input is opened again.
fn prepare<R: Threads + Sync, F: Files, G: Gate>(
    machine: Machine<'_, R, G>,
    files: &mut F,
    reader: Reader,
    request: &Request<'_>,
    sieve: &mut Sieve,
) -> Result<Reader, Stop>
    requires fresh { IsFreshReader request.now.input.now reader }
    requires whole { AgreesWithHead reader }
    requires workers { AreWorkers machine.workers }
    requires order { request.now.conversion.start ≤ request.now.conversion.stop }
    requires range { reader.range ≡ range_for request.now.conversion reader.head.bytes }
    requires unlooked { SievesFor [] [] sieve.old }
    requires settings { sieve.old.settings ≡ sieve_in request.now.conversion }
    requires stands { WhereKnown (F.seen files.old).held request.now.input.now (StandsFor reader) }
    ensures fresh { IfOk result (IsFreshReader request.now.input.now) }
    ensures whole { IfOk result AgreesWithHead }
    ensures range { IfOk result (λ now. now.range ≡ range_for request.now.conversion now.head.bytes) }
    ensures stands { IfOk result (λ now. WhereKnown (F.seen files.old).held request.now.input.now (StandsFor now)) }
    ensures ready { IfOk result (λ now. IsReady (F.seen files.old).held request.now.input.now
        (steps_of request.now.plan.now) now.range sieve.new) }
    ensures settings { sieve.new.settings ≡ sieve.old.settings }
    ensures calm { OnOk result (IsCalm (F.seen files.old) (F.seen files.new)) }
    ensures stops { IfErr result (λ stop. (chosen : List TapSeen) (output : List ℕ) (out : SinkView)
        → let Makes = ConvertsTaken request.now.conversion chosen request.now.input.now output
        (steps_of request.now.plan.now) in
        EndsCommand Makes request.now.input.now (quiet (F.seen files.old) (F.seen files.new) out) (Err stop)) }
    ensures calm_stopped { IfErr result (λ stop. IsNoFailure stop
        → IsCalm (F.seen files.old) (F.seen files.new)) }
    ensures reads { OnlyReads (F.seen files.old) (F.seen files.new) }
    ensures asked { WhereKnown (F.seen files.old).held request.now.input.now (λ file.
        AsksToLook request.now.conversion file (F.seen files.old) (F.seen files.new)) }
{
    if let Pick::First = request.conversion.pick {
        return Ok(reader);
    }
    match look_through(machine, files, request.plan, sieve, reader) {
        Ok(()) => open_again(machine.alloc, files, request),
        Err(fault) => Err(stop(0, fault)),
    }
}

// Opens the input again, to read the records of a conversion's places alone.
fn open_again<F: Files>(alloc: Global, files: &mut F, request: &Request<'_>) -> Result<Reader, Stop>
    requires order { request.now.conversion.start ≤ request.now.conversion.stop }
    ensures fresh { IfOk result (IsFreshReader request.now.input.now) }
    ensures whole { IfOk result AgreesWithHead }
    ensures range { IfOk result (λ reader. reader.range ≡ range_for request.now.conversion reader.head.bytes) }
    ensures stands { IfOk result (λ reader.
        WhereKnown (F.seen files.old).held request.now.input.now (StandsFor reader)) }
    ensures calm { OnOk result (IsCalm (F.seen files.old) (F.seen files.new)) }
    ensures stops { IfErr result (StopsOpening 0 request.now.input.now (F.seen files.old) (F.seen files.new)) }
    ensures calm_stopped { IfErr result (λ stop. IsNoFailure stop
        → IsCalm (F.seen files.old) (F.seen files.new)) }
    ensures asked_of { (IsMissing (F.seen files.old).held request.now.input.now → ⊥)
        → WhereKnown (F.seen files.old).held request.now.input.now
        (λ file. AsksAtMost (asked_to_open file) (F.seen files.old) (F.seen files.new)) }
    ensures reads { OnlyReads (F.seen files.old) (F.seen files.new) }
{
    let mut reader = open_input(alloc, files, 0, request.input)?;
    seek(&mut reader, request.conversion);
    Ok(reader)
}

// Writes what is kept of the range that a reader has sought, and puts what the taps count of it.
fn write_kept<R: Threads + Sync, F: Files, O: Sink, G: Gate>(
    machine: Machine<'_, R, G>,
    files: &mut F,
    out: &mut O,
    reader: Reader,
    chosen: Vec<Box<dyn Tap>>,
    request: &Request<'_>,
    sieve: Sieve,
) -> Result<(), Stop>
    requires fresh { IsFreshReader reader.name reader }
    requires whole { AgreesWithHead reader }
    requires chunk { IsChunkSize request.now.conversion.packing.chunk }
    requires workers { AreWorkers machine.workers }
    requires range { reader.range ≡ range_for request.now.conversion reader.head.bytes }
    requires settings { sieve.settings ≡ sieve_in request.now.conversion }
    requires classes { All HasClass request.now.plan.now.changes.items }
    requires names { request.now.output.now ≢ reader.name }
    requires stands { WhereKnown (F.seen files.old).held reader.name (StandsFor reader) }
    requires ready { IsReady (F.seen files.old).held reader.name (steps_of request.now.plan.now) reader.range sieve }
    requires room { All (λ tap. (bin : ℕ) → count_at (tap_seen tap).tally bin ≤ 2 ^ 63) chosen.items }
    ensures ends { let Makes = ConvertsTaken request.now.conversion (map (λ tap. tap_seen tap) chosen.items)
        reader.name request.now.output.now (steps_of request.now.plan.now) in
        EndsCommand Makes reader.name
        (changes (F.seen files.old) (F.seen files.new) (O.seen out.old) (O.seen out.new)) result }
    ensures calm { OnOk result (IsCalm (F.seen files.old) (F.seen files.new)) }
    ensures calm_stopped { IfErr result (λ stop. IsNoFailure stop
        → IsCalm (F.seen files.old) (F.seen files.new)) }
    ensures calm_out { OnOk result ((O.seen out.new).faults ≡ (O.seen out.old).faults) }
    ensures frame { ReadsAndWrites (bytes_left reader) (F.seen files.old) (F.seen files.new) }
{
    let Request { output, plan, .. } = *request;
    let mut passage = Passage::new(machine.alloc, sieve, chosen);
    let chunk = chunk_of(request.conversion.packing);
    match convert(machine, files, reader, output, plan, &mut passage, chunk) {
        Ok(()) => put(tally_text(machine.alloc, passage.taps(), out)),
        Err(fault) => Err(stop(0, fault)),
    }
}

// The chunk size of an output, if it is packed.
fn chunk_of(packing: Packing) -> Option<u32>
    requires { IsChunkSize packing.chunk }
    ensures chunk { result ≡ chunk_if packing.packed packing.chunk }
    ensures size { ForSome result IsChunkSize }
{
    if packing.packed {
        Some(packing.chunk)
    } else {
        None
    }
}
