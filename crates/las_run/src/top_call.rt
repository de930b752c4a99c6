//! The top call.
ghost use Rattle.std.specs.Prelude.{◌≡◌, ◌≤◌, ◌^◌, ℕ, Err, IfErr, Ok, OnOk, All, map};
ghost use Rattle.std.specs.Result.{ForOk};
ghost use Rattle.las_outside.specs.Frames.{IsCalm};
ghost use Rattle.las_outside.specs.Outside.{Later};
ghost use Rattle.las_info.specs.Tallies.{count_at};
ghost use Rattle.las_words.specs.declared.command.WordFault.{WordFault};
ghost use Rattle.las_words.specs.Asked.{IsSoundAsked, asked_by, work_by};
ghost use Rattle.las_words.specs.Says.{asks};
ghost use Rattle.las_words.specs.Texts.{texts};
ghost use Rattle.las_words.specs.declared.command.Command.{Command};
ghost use Rattle.las_run.specs.Asking.{WorkAsks};
ghost use Rattle.las_run.specs.Calm.{IsNoFailure};
ghost use Rattle.las_run.specs.Runs.{Task, files_read, task_of};
ghost use Rattle.las_run.specs.Ends.{Ends, IsRead, cause_of, changes, names_read, stop_of};
ghost use Rattle.las_run.specs.Promises.{KeepsPromises};
ghost use Rattle.las_run.specs.Seen.{run_of};

use crate::conversion::{Conversion, Request};
use crate::las2las::las2las;
use crate::lasinfo::lasinfo;
use crate::lasmerge::lasmerge;
use crate::lassplit::lassplit;
use crate::laszip::laszip;
use crate::laws::no_task_is_without_an_ending;
use crate::make::make;
use crate::report::{report, status};
use crate::stop::Stop;
use las_info::Tap;
use las_make::Settings;
use las_outside::{Files, Gate, Sink};
use las_words::{Command, WordFault, read_words};
use laz_workers::Machine;
use std::alloc::Global;
use std::thread::Threads;

/// Does all that the program does: reads the command line `words`, works on `files`, and puts one line on `err` unless
/// all went well. It answers the exit status: 0 done, 1 out of memory, 2 wrong words, 3 a read that failed or an input
/// that is not there, 4 a write that failed, 5 an input that is refused, 6 inputs that can't be merged.
///
/// The commands are `laszip`, which packs a plain file and unpacks a packed one; `las2las`, which filters, thins and
/// changes records, and tallies those that are kept; `lasinfo`, which reports what is in a file; `lassplit`, which
/// splits one into parts; `lasmerge`, which merges files that were written under one header; and `make`, which makes a
/// file of random points and its packed form. A name is a text: to contracts, two names are two files.
///
/// The status is fixed before the line is put, and a fault of `err` changes nothing else.
///
/// What it promises is one record of named facts over what is seen of the run: `KeepsPromises`, in
/// `specs/Promises.antt`.
pub fn run<R: Threads + Sync, F: Files, O: Sink, E: Sink, G: Gate>(
    rt: &R,
    alloc: Global,
    words: &[String],
    files: &mut F,
    out: &mut O,
    err: &mut E,
    gate: &G,
    taps: Vec<Box<dyn Tap>>,
) -> u8
    requires room { All (λ tap. (bin : ℕ) → count_at (tap_seen tap).tally bin ≤ 2 ^ 63) taps.items }
    ensures { KeepsPromises (run_of (task_of (texts words.now) (map (λ tap. tap_seen tap) taps.items)) result
        (changes (F.seen files.old) (F.seen files.new) (O.seen out.old) (O.seen out.new))
        (E.seen err.old) (E.seen err.new)) }
{
    let said = read_words(alloc, words, &taps);
    let outcome = work(rt, alloc, files, out, gate, taps, &said);
    report(err, &said, &outcome);
    no_task_is_without_an_ending();
    status(&outcome)
}

// Does what the words say.
fn work<R: Threads + Sync, F: Files, O: Sink, G: Gate>(
    rt: &R,
    alloc: Global,
    files: &mut F,
    out: &mut O,
    gate: &G,
    taps: Vec<Box<dyn Tap>>,
    said: &Result<Command, WordFault>,
) -> Result<(), Stop>
    requires sound { ForOk said.now (λ command.
        IsSoundAsked (map (λ tap. (tap_seen tap).name) taps.items) (asked_by command)) }
    requires room { All (λ tap. (bin : ℕ) → count_at (tap_seen tap).tally bin ≤ 2 ^ 63) taps.items }
    ensures ends { (task : Task) → task.taps ≡ map (λ tap. tap_seen tap) taps.items
        → IsRead task.said said.now → Ends task
        (changes (F.seen files.old) (F.seen files.new) (O.seen out.old) (O.seen out.new))
        (cause_of (names_read said.now) result) }
    ensures asks { (command : Command) → said.now ≡ Ok command
        → WorkAsks (work_by command) (F.seen files.old) (F.seen files.new) }
    ensures unread { (fault : WordFault) → said.now ≡ Err fault
        → (result ≡ Err (stop_of fault)) × (F.seen files.new ≡ F.seen files.old) }
    ensures calm { OnOk result (IsCalm (F.seen files.old) (F.seen files.new)) }
    ensures calm_stopped { IfErr result (λ stop. IsNoFailure stop
        → IsCalm (F.seen files.old) (F.seen files.new)) }
    ensures calm_out { OnOk result ((O.seen out.new).faults ≡ (O.seen out.old).faults) }
    ensures later { Later (F.seen files.old) (F.seen files.new) }
{
    match said {
        Ok(command) => obey(rt, alloc, files, out, gate, taps, command),
        Err(fault) => Err(stop(*fault)),
    }
}

// Why words that are not read end the run.
fn stop(fault: WordFault) -> Stop
    ensures { result ≡ stop_of fault }
{
    match fault {
        WordFault::Usage(index) => Stop::Usage(index),
        WordFault::Memory => Stop::Memory,
    }
}

// Does what a command asks for.
fn obey<R: Threads + Sync, F: Files, O: Sink, G: Gate>(
    rt: &R,
    alloc: Global,
    files: &mut F,
    out: &mut O,
    gate: &G,
    taps: Vec<Box<dyn Tap>>,
    command: &Command,
) -> Result<(), Stop>
    requires sound { IsSoundAsked (map (λ tap. (tap_seen tap).name) taps.items) (asked_by command.now) }
    requires room { All (λ tap. (bin : ℕ) → count_at (tap_seen tap).tally bin ≤ 2 ^ 63) taps.items }
    ensures ends { (task : Task) → task.taps ≡ map (λ tap. tap_seen tap) taps.items
        → task.said ≡ asks (asked_by command.now) → Ends task
        (changes (F.seen files.old) (F.seen files.new) (O.seen out.old) (O.seen out.new))
        (cause_of (files_read (work_by command.now)) result) }
    ensures asks { WorkAsks (work_by command.now) (F.seen files.old) (F.seen files.new) }
    ensures calm { OnOk result (IsCalm (F.seen files.old) (F.seen files.new)) }
    ensures calm_stopped { IfErr result (λ stop. IsNoFailure stop
        → IsCalm (F.seen files.old) (F.seen files.new)) }
    ensures calm_out { OnOk result ((O.seen out.new).faults ≡ (O.seen out.old).faults) }
    ensures later { Later (F.seen files.old) (F.seen files.new) }
{
    let machine = Machine {
        rt,
        alloc,
        gate,
        workers: command.workers(),
    };
    match command {
        Command::Laszip {
            input,
            output,
            chunk,
            ..
        } => laszip(machine, files, input, output, *chunk),
        Command::Las2las {
            input,
            output,
            plan,
            packing,
            start,
            stop,
            step,
            pick,
            unique,
            tallies,
            ..
        } => {
            let conversion = Conversion {
                packing: *packing,
                start: *start,
                stop: *stop,
                step: *step,
                pick: *pick,
                unique: *unique,
            };
            let request = Request {
                input,
                output,
                plan,
                conversion,
            };
            las2las(machine, files, out, taps, &request, tallies)
        }
        Command::Lasinfo { input, tallies, .. } => lasinfo(
            machine, files, out, taps, input, tallies,
        ),
        Command::Lassplit {
            input,
            stem,
            end,
            rule,
            ..
        } => lassplit(machine, files, input, stem, end, rule),
        Command::Lasmerge {
            inputs,
            output,
            packing,
            copy,
            ..
        } => lasmerge(machine, files, inputs, output, *packing, *copy),
        Command::Make {
            output,
            packed,
            points,
            seed,
            format,
            extra,
            chunk,
            ..
        } => {
            let settings = Settings {
                points: *points,
                seed: *seed,
                format: *format,
                extra: *extra,
            };
            make(machine, files, out, output, packed, settings, *chunk)
        }
    }
}
