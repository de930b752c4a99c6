//! The command `lasmerge`: files that were written under one header become one file.
ghost use Rattle.std.specs.Prelude.{◌≡◌, ◌≢◌, ◌≤◌, All, IfErr, List, OnOk, false, length, string_bytes, true};
ghost use Rattle.las_outside.specs.Frames.{IsCalm};
ghost use Rattle.las_header.specs.Limits.{IsChunkSize};
ghost use Rattle.las_outside.specs.Limits.{AreWorkers};
ghost use Rattle.las_outside.specs.Outside.{Later};
ghost use Rattle.las_outside.specs.Sinks.{SinkView};
ghost use Rattle.las_words.specs.Asked.{lasmerge};
ghost use Rattle.las_words.specs.Texts.{texts};
ghost use Rattle.las_info.specs.Tallies.{TapSeen};
ghost use Rattle.las_run.specs.Asking.{AsksToMerge};
ghost use Rattle.las_run.specs.Calm.{IsNoFailure};
ghost use Rattle.las_run.specs.Ends.{Ends, cause_of, quiet, stopped_merge};
ghost use Rattle.las_run.specs.Runs.{task_for};
ghost use Rattle.las_run.specs.Tools.{merge_options};

use crate::input::stop;
use crate::stop::{Stop, Surplus};
use las_merge::{MergeFault, merge, merge_copied};
use las_outside::{Files, Gate};
use las_words::Packing;
use laz_workers::Machine;
use std::alloc::Global;
use std::thread::Threads;

/// Merges all inputs, in their order, under the plain head of the first: by their records, or by copying their chunks.
pub(crate) fn lasmerge<R: Threads + Sync, F: Files, G: Gate>(
    machine: Machine<'_, R, G>,
    files: &mut F,
    inputs: &[String],
    output: &str,
    packing: Packing,
    copy: bool,
) -> Result<(), Stop>
    requires some { 1 ≤ length inputs.now }
    requires few { length inputs.now ≤ 32 }
    requires chunk { IsChunkSize packing.chunk }
    requires workers { AreWorkers machine.workers }
    requires names { All (λ name. string_bytes name ≢ output.now) inputs.now }
    ensures ends { (taps : List TapSeen) (out : SinkView)
        → let work = lasmerge (merge_options (texts inputs.now) output.now packing copy) in
        Ends (task_for taps work machine.entry.workers) (quiet (F.seen files.old) (F.seen files.new) out)
        (cause_of (texts inputs.now) result) }
    ensures asks { AsksToMerge (merge_options (texts inputs.now) output.now packing copy)
        (F.seen files.old) (F.seen files.new) }
    ensures calm { OnOk result (IsCalm (F.seen files.old) (F.seen files.new)) }
    ensures calm_stopped { IfErr result (λ stop. IsNoFailure stop
        → IsCalm (F.seen files.old) (F.seen files.new)) }
    ensures later { Later (F.seen files.old) (F.seen files.new) }
{
    if copy {
        copy_inputs(
            machine.alloc,
            files,
            inputs,
            output,
            packing,
            machine.workers,
        )
    } else {
        join_inputs(machine, files, inputs, output, packing)
    }
}

// Writes the records of all inputs.
fn join_inputs<R: Threads + Sync, F: Files, G: Gate>(
    machine: Machine<'_, R, G>,
    files: &mut F,
    inputs: &[String],
    output: &str,
    packing: Packing,
) -> Result<(), Stop>
    requires some { 1 ≤ length inputs.now }
    requires few { length inputs.now ≤ 32 }
    requires chunk { IsChunkSize packing.chunk }
    requires workers { AreWorkers machine.workers }
    requires names { All (λ name. string_bytes name ≢ output.now) inputs.now }
    ensures ends { (taps : List TapSeen) (out : SinkView)
        → let work = lasmerge (merge_options (texts inputs.now) output.now packing false) in
        Ends (task_for taps work machine.entry.workers) (quiet (F.seen files.old) (F.seen files.new) out)
        (cause_of (texts inputs.now) result) }
    ensures asks { AsksToMerge (merge_options (texts inputs.now) output.now packing false)
        (F.seen files.old) (F.seen files.new) }
    ensures calm { OnOk result (IsCalm (F.seen files.old) (F.seen files.new)) }
    ensures calm_stopped { IfErr result (λ stop. IsNoFailure stop
        → IsCalm (F.seen files.old) (F.seen files.new)) }
    ensures later { Later (F.seen files.old) (F.seen files.new) }
{
    let chunk = if packing.packed {
        Some(packing.chunk)
    } else {
        None
    };
    stopped_merge(merge(machine, files, inputs, output, chunk))
}

// Copies the chunks of all inputs, which are packed.
fn copy_inputs<F: Files>(
    alloc: Global,
    files: &mut F,
    inputs: &[String],
    output: &str,
    packing: Packing,
    workers: u32,
) -> Result<(), Stop>
    requires some { 1 ≤ length inputs.now }
    requires few { length inputs.now ≤ 32 }
    requires names { All (λ name. string_bytes name ≢ output.now) inputs.now }
    ensures ends { (taps : List TapSeen) (out : SinkView)
        → let work = lasmerge (merge_options (texts inputs.now) output.now packing true) in
        Ends (task_for taps work workers) (quiet (F.seen files.old) (F.seen files.new) out)
        (cause_of (texts inputs.now) result) }
    ensures asks { AsksToMerge (merge_options (texts inputs.now) output.now packing true)
        (F.seen files.old) (F.seen files.new) }
    ensures calm { OnOk result (IsCalm (F.seen files.old) (F.seen files.new)) }
    ensures calm_stopped { IfErr result (λ stop. IsNoFailure stop
        → IsCalm (F.seen files.old) (F.seen files.new)) }
    ensures later { Later (F.seen files.old) (F.seen files.new) }
{
    stopped_merge(merge_copied(alloc, files, inputs, output))
}

// The outcome of a merge.
fn stopped_merge(outcome: Result<(), MergeFault>) -> Result<(), Stop>
    ensures { result ≡ stopped_merge outcome }
{
    match outcome {
        Ok(()) => Ok(()),
        Err(MergeFault::At(number, fault)) => Err(stop(number as usize, fault)),
        Err(MergeFault::Unequal(number, field)) => { Err(Stop::Differs(number as usize, field)) }
        Err(MergeFault::TooManyPoints) => Err(Stop::TooMany(Surplus::Points)),
        Err(MergeFault::TooManyChunks) => Err(Stop::TooMany(Surplus::Chunks)),
        Err(MergeFault::Write) => Err(Stop::Write),
        Err(MergeFault::Memory) => Err(Stop::Memory),
    }
}
