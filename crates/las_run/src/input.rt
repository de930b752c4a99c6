//! The inputs of a run.
ghost use Rattle.std.specs.Prelude.{◌≡◌, IfErr, IfOk, OnOk};
ghost use Rattle.las_header.specs.Heads.{IsHead};
ghost use Rattle.las_outside.specs.Files.{IsMissing, WhereKnown};
ghost use Rattle.las_outside.specs.Frames.{IsCalm, OnlyReads};
ghost use Rattle.laz_reader.specs.Asking.{AsksAtMost, asked_to_open};
ghost use Rattle.laz_reader.specs.Reading.{AgreesWithHead, IsNewReader, StandsFor};
ghost use Rattle.las_run.specs.Calm.{IsNoFailure};
ghost use Rattle.las_run.specs.Ends.{StopsOpening, stop_by, stopped_by};

use crate::stop::Stop;
use las_outside::Files;
use laz_file::{Fault, Reader};
use std::alloc::Global;

/// Opens the input that has this number and this name.
pub(crate) fn open_input<F: Files>(
    alloc: Global,
    files: &mut F,
    number: usize,
    name: &str,
) -> Result<Reader, Stop>
    ensures stands { IfOk result (λ reader. WhereKnown (F.seen files.old).held name.now (StandsFor reader)) }
    ensures fresh { IfOk result (IsNewReader name.now) }
    ensures whole { IfOk result AgreesWithHead }
    ensures head { IfOk result (λ reader. IsHead reader.head.bytes) }
    ensures calm { OnOk result (IsCalm (F.seen files.old) (F.seen files.new)) }
    ensures stops { IfErr result (StopsOpening number name.now (F.seen files.old) (F.seen files.new)) }
    ensures calm_stopped { IfErr result (λ stop. IsNoFailure stop
        → IsCalm (F.seen files.old) (F.seen files.new)) }
    ensures asked_of { (IsMissing (F.seen files.old).held name.now → ⊥) → WhereKnown (F.seen files.old).held name.now
        (λ file. AsksAtMost (asked_to_open file) (F.seen files.old) (F.seen files.new)) }
    ensures missing { IsMissing (F.seen files.old).held name.now
        → (F.seen files.new).asked ≡ (F.seen files.old).asked }
    ensures reads { OnlyReads (F.seen files.old) (F.seen files.new) }
{
    match Reader::open(alloc, files, name) {
        Ok(reader) => {
            // (the bytes that are read here are those of a head: what `head` says)
            let _ = reader.head().bytes();
            Ok(reader)
        }
        Err(fault) => Err(stop(number, fault)),
    }
}

/// The outcome of a call on the input of this number.
pub(crate) fn stopped(number: usize, outcome: Result<(), Fault>) -> Result<(), Stop>
    ensures { result ≡ stopped_by number outcome }
{
    match outcome {
        Ok(()) => Ok(()),
        Err(fault) => Err(stop(number, fault)),
    }
}

/// A fault of a call on the input of this number.
pub(crate) fn stop(number: usize, fault: Fault) -> Stop
    ensures { result ≡ stop_by number fault }
{
    match fault {
        Fault::Refused(cause) => Stop::Refused(number, cause),
        Fault::Read => Stop::Read(number),
        Fault::Write => Stop::Write,
        Fault::Memory => Stop::Memory,
    }
}
