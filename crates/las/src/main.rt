//! The program `las`: runs a command line over the files and streams of the system, and ends with the status.
#![tactic(auto)]

ghost use Rattle.std.specs.Prelude.{◌^◌, ◌≤◌, ℕ, All};
ghost use Rattle.las_info.specs.Tallies.{count_at};

mod command_line;
mod safety;
mod standard_streams;
mod taps;

use command_line::text_words;
use las_info::Tap;
use las_outside::{Files, OpenGate, RealFiles, RealSink, Sink};
use las_run::run;
use safety::{Safety, asked};
use standard_streams::fill_all;
use std::alloc::Global;
use std::env::Env;
use std::io;
use std::process::{self, ExitCode};
use std::thread::Threads;
use taps::{OwnTaps, taps};

// The status of a run that does not begin, since memory is short.
fn no_memory<E: Sink>(err: &mut E) -> ExitCode {
    let _ = err.put(b"no memory\n");
    ExitCode::from(1)
}

// The status of a run that does not begin, since a closed standard stream could not be filled.
fn no_streams<E: Sink>(err: &mut E) -> ExitCode {
    let _ = err.put(b"write fault\n");
    ExitCode::from(4)
}

// Runs the words of the command line, and answers the status. The only error is out of memory.
fn obey<R: Env + Threads + Sync, F: Files, O: Sink, E: Sink>(
    rt: &R,
    alloc: Global,
    files: &mut F,
    out: &mut O,
    err: &mut E,
    taps: Vec<Box<dyn Tap>>,
) -> io::Result<u8>
    requires room { All (λ tap. (bin : ℕ) → count_at (tap_seen tap).tally bin ≤ 2 ^ 63) taps.items }
{
    let words = text_words(rt, alloc)?;
    Ok(run(rt, alloc, &words, files, out, err, &OpenGate, taps))
}

fn main(rt: HostRuntime) -> ExitCode {
    let mut err = RealSink::err(&rt);
    let Ok(_fillers) = fill_all(&rt) else {
        return no_streams(&mut err);
    };
    let Ok(
        OwnTaps {
            class,
            source,
            returned,
            intensity,
        },
    ) = taps(rt.alloc())
    else {
        return no_memory(&mut err);
    };
    let class: Box<dyn Tap> = class;
    let source: Box<dyn Tap> = source;
    let returned: Box<dyn Tap> = returned;
    let intensity: Box<dyn Tap> = intensity;
    let Ok(taps) = vec![in rt.alloc(); class, source, returned, intensity] else {
        return no_memory(&mut err);
    };
    let mut out = RealSink::out(&rt);
    let safety = asked(&rt);
    let mut files = match safety {
        Safety::Plain => RealFiles::new(&rt),
        Safety::Safe | Safety::Keep => RealFiles::with_drafts(&rt, process::id(rt.process())),
    };
    match obey(&rt, rt.alloc(), &mut files, &mut out, &mut err, taps) {
        Ok(status) if safety == Safety::Plain => ExitCode::from(status),
        Ok(status) => ExitCode::from(files.end(status, safety == Safety::Keep, &mut err)),
        Err(_) => no_memory(&mut err),
    }
}
