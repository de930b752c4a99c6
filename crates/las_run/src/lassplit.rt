//! The command `lassplit`: the records of a file go into numbered parts.
ghost use Rattle.std.specs.Prelude.{◌≡◌, ◌≢◌, ◌^◌, ◌<◌, ◌∷◌, [], ℕ, IfErr, IfOk, IsErrOf, List, OnOk, string_bytes};
ghost use Rattle.las_header.specs.declared.refusal.Refusal.{Refusal};
ghost use Rattle.las_filter.specs.Parts.{IsRule, part_name};
ghost use Rattle.las_outside.specs.Files.{WhereKnown};
ghost use Rattle.las_outside.specs.Frames.{IsCalm};
ghost use Rattle.las_outside.specs.Limits.{AreWorkers};
ghost use Rattle.las_outside.specs.Outside.{Later};
ghost use Rattle.las_outside.specs.Sinks.{SinkView};
ghost use Rattle.las_words.specs.Asked.{lassplit, reads};
ghost use Rattle.laz_forms.specs.declared.fault.Fault.TheVariants.{Refused};
ghost use Rattle.laz_reader.specs.Asking.{ReadsAndWrites, bytes_left};
ghost use Rattle.laz_reader.specs.Reading.{AgreesWithHead, IsNewReader, StandsFor};
ghost use Rattle.las_info.specs.Tallies.{TapSeen};
ghost use Rattle.las_run.specs.Asking.{AsksWhole};
ghost use Rattle.las_run.specs.Calm.{IsNoFailure};
ghost use Rattle.las_run.specs.Ends.{Ends, EndsCommand, cause_of, quiet, stopped_by};
ghost use Rattle.las_run.specs.Runs.{task_for};
ghost use Rattle.las_run.specs.Tools.{Splits};

use crate::input::{open_input, stopped};
use crate::stop::Stop;
use las_filter::Rule;
use las_outside::{Files, Gate};
use las_split::{PartNames, split};
use laz_file::{Fault, Reader};
use laz_workers::Machine;
use std::alloc::{AllocError, Global};
use std::thread::Threads;

/// Splits the records of an input into parts by a rule. A part is named by the stem, an underscore, its number in seven
/// digits or as many as it has, and the end.
pub(crate) fn lassplit<R: Threads + Sync, F: Files, G: Gate>(
    machine: Machine<'_, R, G>,
    files: &mut F,
    input: &str,
    stem: &str,
    end: &str,
    rule: &Rule,
) -> Result<(), Stop>
    requires rule { IsRule rule.now }
    requires workers { AreWorkers machine.workers }
    requires names { (number : ℕ) → number < 2 ^ 32 → part_name stem.now end.now number ≢ input.now }
    ensures ends { (taps : List TapSeen) (out : SinkView)
        → let work = reads input.now (lassplit (record { stem = stem.now; end = end.now; rule = rule.now })) in
        Ends (task_for taps work machine.entry.workers) (quiet (F.seen files.old) (F.seen files.new) out)
        (cause_of (input.now ∷ []) result) }
    ensures calm { OnOk result (IsCalm (F.seen files.old) (F.seen files.new)) }
    ensures calm_stopped { IfErr result (λ stop. IsNoFailure stop
        → IsCalm (F.seen files.old) (F.seen files.new)) }
    ensures asks { AsksWhole input.now (F.seen files.old) (F.seen files.new) }
    ensures later { Later (F.seen files.old) (F.seen files.new) }
{
    let reader = open_input(machine.alloc, files, 0, input)?;
    let names = match part_names(machine.alloc, stem, end) {
        Ok(names) => names,
        Err(_) => return Err(Stop::Memory),
    };
    stopped(0, write_parts(machine, files, reader, &names, rule))
}

// What the names of parts have in common.
fn part_names(alloc: Global, stem: &str, end: &str) -> Result<PartNames, AllocError>
    ensures stem { IfOk result (λ names. string_bytes names.stem ≡ stem.now) }
    ensures end { IfOk result (λ names. string_bytes names.end ≡ end.now) }
{
    let stem = String::from_str(alloc, stem)?;
    let end = String::from_str(alloc, end)?;
    Ok(PartNames { stem, end })
}

// Writes the records of a file into parts.
fn write_parts<R: Threads + Sync, F: Files, G: Gate>(
    machine: Machine<'_, R, G>,
    files: &mut F,
    reader: Reader,
    names: &PartNames,
    rule: &Rule,
) -> Result<(), Fault>
    requires new { IsNewReader reader.name reader }
    requires whole { AgreesWithHead reader }
    requires rule { IsRule rule.now }
    requires workers { AreWorkers machine.workers }
    requires names { (number : ℕ) → number < 2 ^ 32
        → part_name (string_bytes names.now.stem) (string_bytes names.now.end) number ≢ reader.name }
    requires stands { WhereKnown (F.seen files.old).held reader.name (StandsFor reader) }
    ensures ends { (out : SinkView) → EndsCommand
        (Splits reader.name (string_bytes names.now.stem) (string_bytes names.now.end) rule.now)
        reader.name (quiet (F.seen files.old) (F.seen files.new) out) (stopped_by 0 result) }
    ensures calm { OnOk result (IsCalm (F.seen files.old) (F.seen files.new)) }
    ensures calm_refused { (cause : Refusal) → IsErrOf result (Refused cause)
        → IsCalm (F.seen files.old) (F.seen files.new) }
    ensures frame { ReadsAndWrites (bytes_left reader) (F.seen files.old) (F.seen files.new) }
{
    match split(
        machine.rt,
        machine.alloc,
        files,
        machine.gate,
        reader,
        names,
        rule,
        machine.workers,
    ) {
        Ok(_) => Ok(()),
        Err(fault) => Err(fault),
    }
}
