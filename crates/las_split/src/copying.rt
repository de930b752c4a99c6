//! Records that go from a reader into the parts.
ghost use Rattle.std.specs.Prelude.{◌≡◌, ◌≢◌, ◌%◌, ◌+◌, ◌≤◌, ◌<◌, ◌^◌, ℕ, length};
ghost use Rattle.std.specs.Prelude.{IfErr, IfOk, false, OnErr, OnOk, string_bytes, true, unwrap_or};
ghost use Rattle.las_header.specs.Plain.{cut_all};
ghost use Rattle.las_header.specs.Fields.{points_of};
ghost use Rattle.las_header.specs.Heads.{IsHead};
ghost use Rattle.las_filter.specs.Parts.{IsRule, part_name};
ghost use Rattle.las_outside.specs.Files.{WhereKnown};
ghost use Rattle.las_outside.specs.Frames.{IsCalm, OnlyWrites};
ghost use Rattle.laz_forms.specs.declared.fault.Fault.TheVariants.{Write};
ghost use Rattle.laz_reader.specs.Asking.{ReadsAndWrites, bytes_left};
ghost use Rattle.laz_forms.specs.FileFaults.{HasCause};
ghost use Rattle.laz_reader.specs.Reading.{IsCrewOf, StandsFor, records_in};
ghost use Rattle.las_split.specs.Sorting.{PartsHaveRoom, IsPlainFor, HadRecords, LeavesAll, SplitsAll, LeavesBlock};
ghost use Rattle.las_split.specs.Sorting.{task_in, split_task};
ghost use Rattle.las_split.specs.Steps.{HaveSplit, OfRecords, TakesRecords};

use crate::part_names::PartNames;
use crate::parts::Parts;
use crate::pushing::push_parts;
use crate::sorting::sort_block;
use crate::splitter::Splitter;
use las_filter::Rule;
use las_header::{Head, Refusal};
use las_outside::{Files, Gate};
use laz_chunk::Workspace;
use laz_file::{Fault, Reader, Turn};
use laz_workers::{Crew, Machine};
use std::thread::Threads;

// Takes the records of a block into their parts. The answer is false if one of them would open one part too many; then
// those before it were taken.
fn split_block<R: Threads + Sync, F: Files, G: Gate>(
    machine: &Machine<R, G>,
    files: &mut F,
    splitter: &Splitter,
    index: u64,
    block: &[u8],
    parts: &mut Parts,
) -> Result<bool, Fault>
    requires rule { IsRule splitter.now.rule.now }
    requires room { PartsHaveRoom (task_in splitter.now) splitter.now.size index (length block.now) }
    requires whole { length block.now % splitter.now.size ≡ 0 }
    requires parts { HaveSplit splitter.now (F.seen files.old).held parts.old index }
    ensures takes { TakesRecords result splitter.now (F.seen files.old).held (F.seen files.new).held
        parts.old parts.new index block.now }
    ensures left { OfRecords splitter.now (F.seen files.old).held parts.old index (λ was records.
        OnErr result (LeavesBlock (task_in splitter.now) was (F.seen files.new).held records
        (cut_all splitter.now.size block.now))) }
    ensures some { OfRecords splitter.now (F.seen files.old).held parts.old index (λ was records. IfErr result (λ fault.
        fault ≡ Write → 1 ≤ length records + length (cut_all splitter.now.size block.now))) }
    ensures cause { IfErr result (HasCause (F.seen files.old) (F.seen files.new)) }
    ensures calm { OnOk result (IsCalm (F.seen files.old) (F.seen files.new)) }
    ensures writes { OnlyWrites (F.seen files.old) (F.seen files.new) }
{
    let taken = sort_block(machine.alloc, files, splitter, index, block, parts)?;
    push_parts(machine, files, parts)?;
    if taken < block.len() / splitter.size {
        return Ok(false);
    }
    Ok(true)
}

// The plain head: that of the file, if it is plain.
fn plain_of<'a>(plain: &'a Option<Head>, reader: &'a Reader) -> &'a Head
    ensures { result.now ≡ unwrap_or plain.now reader.now.head }
{
    match plain {
        Some(head) => head,
        None => reader.head(),
    }
}

/// Takes all records that a reader has left into parts, block by block: up to the end of the records, or up to the
/// first bad chunk or the first record that would open one part too many, which is the answer beside the parts.
pub(crate) fn split_records<R: Threads + Sync, F: Files, G: Gate>(
    machine: &Machine<R, G>,
    files: &mut F,
    names: &PartNames,
    plain: &Option<Head>,
    rule: &Rule,
    reader: &mut Reader,
    crew: &mut Crew<Workspace>,
) -> Result<(Parts, Option<Refusal>), Fault>
    requires open { reader.old.failed ≡ false }
    requires crew { IsCrewOf reader.old crew.old }
    requires names { (number : ℕ) → number < 2 ^ 32
        → part_name (string_bytes names.now.stem) (string_bytes names.now.end) number ≢ reader.old.name }
    requires reads { WhereKnown (F.seen files.old).held reader.old.name (StandsFor reader.old) }
    requires plain { IsPlainFor reader.old.head (unwrap_or plain.now reader.old.head) }
    requires rule { IsRule rule.now }
    requires head { IsHead reader.old.head.bytes }
    requires all { records_in reader.old.left ≡ points_of reader.old.head.bytes }
    ensures takes { IfOk result (λ answer. SplitsAll (split_task names.now
        (unwrap_or plain.now reader.old.head) rule.now)
        reader.old (F.seen files.old).held (F.seen files.new).held answer.0.numbers answer.0.writers.items answer.1) }
    ensures left { OnErr result (LeavesAll (split_task names.now (unwrap_or plain.now reader.old.head) rule.now)
        reader.old (F.seen files.old).held (F.seen files.new).held) }
    ensures some { IfErr result (λ fault. fault ≡ Write → HadRecords reader.old (F.seen files.old).held) }
    ensures cause { IfErr result (HasCause (F.seen files.old) (F.seen files.new)) }
    ensures calm { OnOk result (IsCalm (F.seen files.old) (F.seen files.new)) }
    ensures frame { ReadsAndWrites (bytes_left reader.old) (F.seen files.old) (F.seen files.new) }
{
    let size = usize::from(reader.head().record_length());
    let mut parts = Parts::new(machine.alloc);
    let mut index = 0;
    let mut turn = Turn::first();
    'turns: loop {
        let next = match reader.next_block(machine, files, crew, &mut turn) {
            Ok(next) => next,
            Err(fault) => {
                let end = fault.into_end()?;
                return Ok((parts, end));
            }
        };
        let Some(number) = next else {
            return Ok((parts, None));
        };
        let head = plain_of(plain, reader);
        let block = reader.block(crew, number);
        let splitter = Splitter {
            names,
            head,
            rule,
            size,
        };
        if !split_block(machine, files, &splitter, index, block, &mut parts)? {
            return Ok((parts, Some(Refusal::TooManyParts)));
        }
        index += (block.len() / size) as u64;
    }
}
