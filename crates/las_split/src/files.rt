//! Whole files into parts.
ghost use Rattle.std.specs.Prelude.{◌≡◌, ◌≢◌, ◌⊎◌, ◌^◌, ◌≤◌, ◌<◌, ℕ, None};
ghost use Rattle.std.specs.Prelude.{IfErr, IfOk, IsErrOf, OnErr, OnOk, length, string_bytes, unwrap_or};
ghost use Rattle.las_header.specs.declared.refusal.Refusal.{Refusal};
ghost use Rattle.las_header.specs.declared.refusal.Refusal.TheVariants.{BadChunk, TooManyParts};
ghost use Rattle.las_header.specs.Heads.{IsHead};
ghost use Rattle.las_filter.specs.Parts.{IsRule, part_name};
ghost use Rattle.las_outside.specs.Files.{WhereKnown};
ghost use Rattle.las_outside.specs.Frames.{IsCalm, OnlyWrites};
ghost use Rattle.las_outside.specs.Limits.{AreWorkers};
ghost use Rattle.laz_forms.specs.declared.fault.Fault.TheVariants.{Refused, Write};
ghost use Rattle.laz_reader.specs.Asking.{ReadsAndWrites, bytes_left};
ghost use Rattle.laz_forms.specs.FileFaults.{HasCause};
ghost use Rattle.laz_reader.specs.Reading.{AgreesWithHead, IsNewReader, StandsFor};
ghost use Rattle.laz_file.specs.Endings.{EndsMaking};
ghost use Rattle.las_split.specs.Files.{with_files};
ghost use Rattle.las_split.specs.Outputs.{LeavesParts, Splits, all_stopped};
ghost use Rattle.las_split.specs.Sorting.{IsPlainFor, LeavesPrefixes};
ghost use Rattle.las_split.specs.Steps.{HaveParts, OfParts, FinishesParts, outputs_in};
ghost use Rattle.las_split.specs.Splitting.{AreNumbersOf};

use crate::copying::split_records;
use crate::part_names::PartNames;
use crate::parts::Parts;
use las_filter::Rule;
use las_header::Head;
use las_outside::{Files, Gate};
use laz_file::{Fault, Reader};
use laz_workers::Machine;
use std::alloc::{AllocError, Global};
use std::thread::Threads;

// The plain head of a packed file. A plain one has its own.
fn plain_head(alloc: Global, reader: &Reader) -> Result<Option<Head>, AllocError>
    requires { AgreesWithHead reader.now }
    ensures plain { IfOk result (λ plain. IsPlainFor reader.now.head (unwrap_or plain reader.now.head)) }
    ensures head { IsHead reader.now.head.bytes }
{
    let head = reader.head();
    let _ = head.bytes();
    if !head.packed() {
        return Ok(None);
    }
    let plain = head.without_vlr(alloc)?;
    Ok(Some(plain))
}

// Finishes the outputs of all parts, in the order of their first records, and gives their numbers.
fn finish_all<R: Threads + Sync, F: Files, G: Gate>(
    machine: &Machine<R, G>,
    files: &mut F,
    parts: Parts,
) -> Result<Vec<u32>, Fault>
    requires parts { HaveParts (F.seen files.old).held parts }
    ensures finished { OfParts (F.seen files.old).held parts (λ task was records.
        IfOk result (λ numbers. FinishesParts task records was (F.seen files.new).held numbers.items)) }
    ensures left { OfParts (F.seen files.old).held parts (λ task was records.
        OnErr result (LeavesParts (outputs_in task records) was (F.seen files.new).held)) }
    ensures some { OfParts (F.seen files.old).held parts (λ task was records.
        IfErr result (λ fault. fault ≡ Write → 1 ≤ length records)) }
    ensures cause { IfErr result (HasCause (F.seen files.old) (F.seen files.new)) }
    ensures calm { OnOk result (IsCalm (F.seen files.old) (F.seen files.new)) }
    ensures writes { OnlyWrites (F.seen files.old) (F.seen files.new) }
{
    let Parts {
        numbers,
        writers,
        gathered: _,
    } = parts;
    let mut rest = writers;
    rest.as_mut_slice().reverse();
    while let Some(writer) = rest.pop() {
        writer.finish(machine.rt, machine.alloc, files, machine.gate)?;
    }
    Ok(numbers.into_list())
}

// Stops the outputs of all parts, in the order of their first records.
fn stop_all<R: Threads + Sync, F: Files, G: Gate>(
    machine: &Machine<R, G>,
    files: &mut F,
    parts: Parts,
) -> Result<(), Fault>
    requires parts { HaveParts (F.seen files.old).held parts }
    ensures stopped { OfParts (F.seen files.old).held parts (λ task was records.
        OnOk result ((F.seen files.new).held ≡ with_files was (all_stopped (outputs_in task records)))) }
    ensures left { OfParts (F.seen files.old).held parts (λ task was records.
        OnErr result (LeavesPrefixes task was (F.seen files.new).held records)) }
    ensures some { OfParts (F.seen files.old).held parts (λ task was records.
        IfErr result (λ fault. fault ≡ Write → 1 ≤ length records)) }
    ensures cause { IfErr result (HasCause (F.seen files.old) (F.seen files.new)) }
    ensures calm { OnOk result (IsCalm (F.seen files.old) (F.seen files.new)) }
    ensures writes { OnlyWrites (F.seen files.old) (F.seen files.new) }
{
    let Parts {
        numbers: _,
        writers,
        gathered: _,
    } = parts;
    let mut rest = writers;
    rest.as_mut_slice().reverse();
    while let Some(writer) = rest.pop() {
        writer.stop(machine.rt, machine.alloc, files, machine.gate)?;
    }
    Ok(())
}

/// Splits a file: each part that has a record becomes a plain file of its own, under the input's plain head with the
/// counts of the part. It is created at the part's first record. A number of records a part, in `Every`, is 1 or more,
/// and no part has the input's name. `workers`, 1 to 8, unpack side by side, and what is written does not depend on
/// them. The answer is the numbers of the parts, in the order of their first records.
///
/// The answer is `Refused` with `BadChunk` if a chunk holds no records of its count, or with `TooManyParts` if a record
/// would open a 513th part: the first of these in the order of the records. Each part then holds its head, with counts
/// of zero, and its records before that. The answer is `Read` or `Write` if such a call failed; then the first of the
/// parts, or none, were created, and each of them is a prefix of its draft. Or all were created: the first of them are
/// finished, the next is its draft after a part of its patches, and the others are their drafts.
pub fn split<R: Threads + Sync, F: Files, G: Gate>(
    rt: &R,
    alloc: Global,
    files: &mut F,
    gate: &G,
    reader: Reader,
    output: &PartNames,
    rule: &Rule,
    workers: u32,
) -> Result<Vec<u32>, Fault>
    requires new { IsNewReader reader.name reader }
    requires rule { IsRule rule.now }
    requires workers { AreWorkers workers }
    requires names { (number : ℕ) → number < 2 ^ 32
        → part_name (string_bytes output.now.stem) (string_bytes output.now.end) number ≢ reader.name }
    requires stands { WhereKnown (F.seen files.old).held reader.name (StandsFor reader) }
    requires whole { AgreesWithHead reader }

    ensures ends { EndsMaking (Splits (string_bytes output.now.stem) (string_bytes output.now.end) rule.now)
        reader.name (F.seen files.old) (F.seen files.new) result }
    ensures numbers { IfOk result (λ numbers. WhereKnown (F.seen files.old).held reader.name
        (AreNumbersOf rule.now numbers.items)) }
    ensures bad { (cause : Refusal) → IsErrOf result (Refused cause)
        → ((i : ℕ) × (cause ≡ BadChunk i)) ⊎ (cause ≡ TooManyParts) }
    // No call has failed if the file is refused.
    ensures calm_refused { (cause : Refusal) → IsErrOf result (Refused cause)
        → IsCalm (F.seen files.old) (F.seen files.new) }
    // No more is asked for than the reader has left, however the call ends.
    ensures frame { ReadsAndWrites (bytes_left reader) (F.seen files.old) (F.seen files.new) }
{
    let mut reader = reader;
    let hands = reader.hands(workers);
    let mut crew = reader.crew(alloc, hands)?;
    let plain = plain_head(alloc, &reader)?;
    let machine = Machine {
        rt,
        alloc,
        gate,
        workers,
    };
    let (parts, end) = split_records(
        &machine,
        files,
        output,
        &plain,
        rule,
        &mut reader,
        &mut crew,
    )?;
    match end {
        None => finish_all(&machine, files, parts),
        Some(cause) => {
            stop_all(&machine, files, parts)?;
            Err(Fault::Refused(cause))
        }
    }
}
