//! The command `make`: a plain file, and its packed form.
ghost use Rattle.std.specs.Prelude.{◌≡◌, ◌≢◌, ◌∷◌, [], ℕ, IfErr, List, OnErr, OnOk, take};
ghost use Rattle.las_info.specs.Tallies.{TapSeen};
ghost use Rattle.las_make.specs.Made.{IsInRange};
ghost use Rattle.las_outside.specs.Frames.{IsCalm};
ghost use Rattle.las_header.specs.Limits.{IsChunkSize};
ghost use Rattle.las_outside.specs.Limits.{AreWorkers};
ghost use Rattle.las_outside.specs.Outside.{Later};
ghost use Rattle.las_outside.specs.Sinks.{with_fault, with_more};
ghost use Rattle.las_words.specs.Asked.{make};
ghost use Rattle.las_run.specs.Calm.{IsNoFailure};
ghost use Rattle.las_run.specs.Ends.{Ends, cause_of, changes, stop_making};
ghost use Rattle.las_run.specs.Runs.{task_for};
ghost use Rattle.las_run.specs.Tools.{made_text, options_with};

use crate::stop::Stop;
use itoa::Buffer;
use las_make::{MakeFault, Settings, Sizes};
use las_outside::{Failed, Files, Gate, Sink, put_all};
use laz_workers::Machine;
use std::thread::Threads;

/// Writes a plain file of random points and its packed form, in chunks of `chunk` points, and puts their sizes.
pub(crate) fn make<R: Threads + Sync, F: Files, O: Sink, G: Gate>(
    machine: Machine<'_, R, G>,
    files: &mut F,
    out: &mut O,
    output: &str,
    packed: &str,
    settings: Settings,
    chunk: u32,
) -> Result<(), Stop>
    requires range { IsInRange settings }
    requires chunk { IsChunkSize chunk }
    requires workers { AreWorkers machine.workers }
    requires names { packed.now ≢ output.now }
    ensures ends { (taps : List TapSeen) → let work = make (options_with output.now packed.now settings chunk) in
        Ends (task_for taps work machine.entry.workers)
        (changes (F.seen files.old) (F.seen files.new) (O.seen out.old) (O.seen out.new))
        (cause_of (output.now ∷ packed.now ∷ []) result) }
    ensures calm { OnOk result (IsCalm (F.seen files.old) (F.seen files.new)) }
    ensures calm_stopped { IfErr result (λ stop. IsNoFailure stop
        → IsCalm (F.seen files.old) (F.seen files.new)) }
    ensures calm_out { OnOk result ((O.seen out.new).faults ≡ (O.seen out.old).faults) }
    ensures later { Later (F.seen files.old) (F.seen files.new) }
{
    match las_make::make(machine, files, output, packed, settings, chunk) {
        Ok(sizes) => match put_sizes(out, settings.points, sizes) {
            Ok(()) => Ok(()),
            Err(_) => Err(Stop::Write),
        },
        Err(fault) => Err(stop_making(fault)),
    }
}

// Puts the lines of two files with this number of points and these sizes.
fn put_sizes<O: Sink>(out: &mut O, points: u32, sizes: Sizes) -> Result<(), Failed>
    ensures put { OnOk result (O.seen out.new
        ≡ with_more (O.seen out.old) (made_text points sizes.plain sizes.packed)) }
    ensures failed { OnErr result ((n : ℕ) × (O.seen out.new
        ≡ with_fault (with_more (O.seen out.old) (take n (made_text points sizes.plain sizes.packed))))) }
{
    let (mut first, mut second, mut third) = (Buffer::new(), Buffer::new(), Buffer::new());
    let points = first.format(points).as_bytes();
    let plain = second.format(sizes.plain).as_bytes();
    let packed = third.format(sizes.packed).as_bytes();
    put_all(
        out,
        &[
            b"points ", points, b"\n", b"plain ", plain, b"\n", b"packed ", packed, b"\n",
        ],
    )
}

// Why a run ends whose files were not made: the plain file is the first that is read, and the packed one the second.
fn stop_making(fault: MakeFault) -> Stop
    ensures { result ≡ stop_making fault }
{
    match fault {
        MakeFault::ReadPlain => Stop::Read(0),
        MakeFault::ReadPacked => Stop::Read(1),
        MakeFault::Changed(cause) => Stop::Refused(0, cause),
        MakeFault::Write => Stop::Write,
        MakeFault::Memory => Stop::Memory,
    }
}
