//! The command `laszip`: a plain file is packed, and a packed one unpacked.
ghost use Rattle.std.specs.Prelude.{◌≡◌, ◌≢◌, ◌∷◌, [], IfErr, IsErrOf, List, OnOk};
ghost use Rattle.las_header.specs.declared.refusal.Refusal.{Refusal};
ghost use Rattle.las_outside.specs.Files.{WhereKnown};
ghost use Rattle.las_outside.specs.Frames.{IsCalm};
ghost use Rattle.las_header.specs.Limits.{IsChunkSize};
ghost use Rattle.las_outside.specs.Limits.{AreWorkers};
ghost use Rattle.las_outside.specs.Outside.{Later};
ghost use Rattle.las_outside.specs.Sinks.{SinkView};
ghost use Rattle.las_words.specs.Asked.{laszip, reads};
ghost use Rattle.laz_forms.specs.declared.fault.Fault.TheVariants.{Refused};
ghost use Rattle.laz_reader.specs.Asking.{ReadsAndWrites, bytes_left};
ghost use Rattle.laz_reader.specs.Reading.{AgreesWithHead, IsNewReader, StandsFor};
ghost use Rattle.las_info.specs.Tallies.{TapSeen};
ghost use Rattle.las_run.specs.Asking.{AsksWhole};
ghost use Rattle.las_run.specs.Calm.{IsNoFailure};
ghost use Rattle.las_run.specs.Ends.{Ends, EndsCommand, cause_of, quiet, stopped_by};
ghost use Rattle.las_run.specs.Runs.{task_for};
ghost use Rattle.las_run.specs.Tools.{Zips};

use crate::input::{open_input, stopped};
use crate::stop::Stop;
use las_outside::{Files, Gate};
use laz_file::{Fault, Reader, pack, unpack};
use laz_workers::Machine;
use std::thread::Threads;

/// Packs a plain input, in chunks of `chunk` points, and unpacks a packed one.
pub(crate) fn laszip<R: Threads + Sync, F: Files, G: Gate>(
    machine: Machine<'_, R, G>,
    files: &mut F,
    input: &str,
    output: &str,
    chunk: u32,
) -> Result<(), Stop>
    requires chunk { IsChunkSize chunk }
    requires workers { AreWorkers machine.workers }
    requires names { output.now ≢ input.now }
    ensures ends { (taps : List TapSeen) (out : SinkView) → Ends
        (task_for taps (reads input.now (laszip (record { output = output.now; chunk = chunk }))) machine.entry.workers)
        (quiet (F.seen files.old) (F.seen files.new) out) (cause_of (input.now ∷ []) result) }
    ensures calm { OnOk result (IsCalm (F.seen files.old) (F.seen files.new)) }
    ensures calm_stopped { IfErr result (λ stop. IsNoFailure stop
        → IsCalm (F.seen files.old) (F.seen files.new)) }
    ensures asks { AsksWhole input.now (F.seen files.old) (F.seen files.new) }
    ensures later { Later (F.seen files.old) (F.seen files.new) }
{
    let reader = open_input(machine.alloc, files, 0, input)?;
    stopped(0, zip(machine, files, reader, output, chunk))
}

// Packs a plain file, and unpacks a packed one.
fn zip<R: Threads + Sync, F: Files, G: Gate>(
    machine: Machine<'_, R, G>,
    files: &mut F,
    reader: Reader,
    output: &str,
    chunk: u32,
) -> Result<(), Fault>
    requires new { IsNewReader reader.name reader }
    requires whole { AgreesWithHead reader }
    requires chunk { IsChunkSize chunk }
    requires workers { AreWorkers machine.workers }
    requires names { output.now ≢ reader.name }
    requires stands { WhereKnown (F.seen files.old).held reader.name (StandsFor reader) }
    ensures ends { (out : SinkView) → EndsCommand (Zips reader.name output.now chunk) reader.name
        (quiet (F.seen files.old) (F.seen files.new) out) (stopped_by 0 result) }
    ensures calm { OnOk result (IsCalm (F.seen files.old) (F.seen files.new)) }
    ensures calm_refused { (cause : Refusal) → IsErrOf result (Refused cause)
        → IsCalm (F.seen files.old) (F.seen files.new) }
    ensures frame { ReadsAndWrites (bytes_left reader) (F.seen files.old) (F.seen files.new) }
{
    let Machine {
        rt,
        alloc,
        gate,
        workers,
    } = machine;
    match reader.chunk() {
        None => pack(rt, alloc, files, gate, reader, output, chunk, workers),
        Some(_) => unpack(rt, alloc, files, gate, reader, output, workers),
    }
}
