//! The records of a block by the parts that they belong to.
ghost use Rattle.std.specs.Prelude.{◌≡◌, ◌+◌, ◌%◌, ◌<◌, ◌≤◌, ◌^◌, ℕ, List, [], Option, ◌++◌, OnErr};
ghost use Rattle.std.specs.Prelude.{false, length, IfErr, IfOk, OnOk, map};
ghost use Rattle.las_header.specs.Plain.{cut_all};
ghost use Rattle.las_outside.specs.Frames.{IsCalm, OnlyWrites};
ghost use Rattle.laz_forms.specs.declared.fault.Fault.TheVariants.{Write};
ghost use Rattle.laz_forms.specs.FileFaults.{HasCause};
ghost use Rattle.las_split.specs.Sorting.{PartsHaveRoom, is_among, task_in, LeavesBlock};
ghost use Rattle.las_split.specs.Steps.{HaveBlock, HaveSplit, KeepsGathered, LeavesMore, LeavesRecord, OfBlock};
ghost use Rattle.las_split.specs.Steps.{OfRecord, OfRecords};
ghost use Rattle.las_split.specs.Steps.{OpensPlace, SortsGroup, SortsNext, SortsRecords};
ghost use Rattle.las_filter.specs.Parts.{IsRule};

use crate::limits::{GROUP, MAX_PARTS};
use crate::numbering::part_of;
use crate::parts::Parts;
use crate::running::all_have;
use crate::splitter::Splitter;
use las_header::POINT_RECORD;
use las_outside::Files;
use laz_file::Fault;
use std::alloc::Global;

// Opens the part of a number that has none, and answers its place. There is none if that would be one part too many.
#[cold]
#[inline(never)]
fn open_place<F: Files>(
    alloc: Global,
    files: &mut F,
    splitter: &Splitter,
    number: u32,
    parts: &mut Parts,
) -> Result<Option<usize>, Fault>
    requires other { is_among number parts.old.numbers ≡ false }

    // The part was opened after others, at the first record that has its number.
    ensures opened { OpensPlace result splitter.now (F.seen files.old).held (F.seen files.new).held
        parts.old parts.new number }
    ensures gathered { (text : ℕ → List ℕ) → parts.old.gathered ≡ map text parts.old.numbers → text number ≡ []
        → IfOk result (λ found. parts.new.gathered ≡ map text parts.new.numbers) }
    ensures left { OfRecord splitter.now (F.seen files.old).held parts.old number (λ was opened _ point.
        OnErr result (LeavesRecord (task_in splitter.now) was (F.seen files.new).held opened point)) }
    ensures cause { IfErr result (HasCause (F.seen files.old) (F.seen files.new)) }
    ensures calm { OnOk result (IsCalm (F.seen files.old) (F.seen files.new)) }
    ensures writes { OnlyWrites (F.seen files.old) (F.seen files.new) }
{
    let place = parts.writers.len();
    if place >= MAX_PARTS {
        return Ok(None);
    }
    parts.open(alloc, files, splitter, number)?;
    parts.gathered.open(alloc)?;
    Ok(Some(place))
}

// The place of the part of a number, which is opened if it is not there. There is none if that would be one part too
// many.
#[inline(always)]
fn place_of<F: Files>(
    alloc: Global,
    files: &mut F,
    splitter: &Splitter,
    number: u32,
    parts: &mut Parts,
) -> Result<Option<usize>, Fault>
    ensures opened { OpensPlace result splitter.now (F.seen files.old).held (F.seen files.new).held
        parts.old parts.new number }
    ensures gathered { KeepsGathered result parts.old parts.new number }
    ensures left { OfRecord splitter.now (F.seen files.old).held parts.old number (λ was opened _ point.
        OnErr result (LeavesRecord (task_in splitter.now) was (F.seen files.new).held opened point)) }
    ensures cause { IfErr result (HasCause (F.seen files.old) (F.seen files.new)) }
    ensures calm { OnOk result (IsCalm (F.seen files.old) (F.seen files.new)) }
    ensures writes { OnlyWrites (F.seen files.old) (F.seen files.new) }
{
    if let Some(place) = parts.numbers.find(number) {
        return Ok(Some(place));
    }
    open_place(alloc, files, splitter, number, parts)
}

// Sorts a record after others of its block: its part is found, or opened. The answer is false if it would open one part
// too many.
#[inline(always)]
fn sort_point<F: Files>(
    alloc: Global,
    files: &mut F,
    splitter: &Splitter,
    index: u64,
    point: &[u8],
    parts: &mut Parts,
) -> Result<bool, Fault>
    requires rule { IsRule splitter.now.rule.now }
    requires index { index < 2 ^ 32 }
    requires long { POINT_RECORD ≤ length point.now }
    requires parts { HaveBlock splitter.now (F.seen files.old).held parts.old index }
    ensures sorts { SortsNext result splitter.now (F.seen files.old).held (F.seen files.new).held
        parts.old parts.new index point.now }
    ensures left { OfBlock splitter.now (F.seen files.old).held parts.old index (λ was records block.
        OnErr result (LeavesRecord (task_in splitter.now) was (F.seen files.new).held (records ++ block) point.now)) }
    ensures cause { IfErr result (HasCause (F.seen files.old) (F.seen files.new)) }
    ensures calm { OnOk result (IsCalm (F.seen files.old) (F.seen files.new)) }
    ensures writes { OnlyWrites (F.seen files.old) (F.seen files.new) }
{
    let number = part_of(splitter.rule, index, point);
    let found = place_of(alloc, files, splitter, number, parts)?;
    let Some(place) = found else {
        return Ok(false);
    };
    match parts.gathered.add(place, point) {
        Ok(()) => Ok(true),
        Err(_) => Err(Fault::Memory),
    }
}

// Sorts records after others of their block, one after another, up to the first that would open one part too many. It
// answers how many were taken.
fn sort_each<F: Files>(
    alloc: Global,
    files: &mut F,
    splitter: &Splitter,
    index: u64,
    group: &[u8],
    parts: &mut Parts,
) -> Result<usize, Fault>
    requires rule { IsRule splitter.now.rule.now }
    requires room { PartsHaveRoom (task_in splitter.now) splitter.now.size index (length group.now) }
    requires whole { length group.now % splitter.now.size ≡ 0 }
    requires parts { HaveBlock splitter.now (F.seen files.old).held parts.old index }
    ensures sorts { SortsGroup result splitter.now (F.seen files.old).held (F.seen files.new).held
        parts.old parts.new index group.now }
    ensures left { OfBlock splitter.now (F.seen files.old).held parts.old index (λ was records block.
        OnErr result (LeavesMore (task_in splitter.now) was (F.seen files.new).held records block
        (cut_all splitter.now.size group.now))) }
    ensures some { IfErr result (λ fault. fault ≡ Write → 1 ≤ length (cut_all splitter.now.size group.now)) }
    ensures cause { IfErr result (HasCause (F.seen files.old) (F.seen files.new)) }
    ensures calm { OnOk result (IsCalm (F.seen files.old) (F.seen files.new)) }
    ensures writes { OnlyWrites (F.seen files.old) (F.seen files.new) }
{
    let size = splitter.size;
    let mut rest = group;
    let count = group.len() / size;
    for turn in 0..count {
        let (point, further) = rest.split_at(size);
        let place = index + turn as u64;
        if !sort_point(alloc, files, splitter, place, point, parts)? {
            return Ok(turn);
        }
        rest = further;
    }
    Ok(count)
}

// The same for one record or more. If all of them belong to one part that is open, they are gathered at once.
fn sort_group<F: Files>(
    alloc: Global,
    files: &mut F,
    splitter: &Splitter,
    index: u64,
    group: &[u8],
    parts: &mut Parts,
) -> Result<usize, Fault>
    requires rule { IsRule splitter.now.rule.now }
    requires room { PartsHaveRoom (task_in splitter.now) splitter.now.size index (length group.now) }
    requires whole { length group.now % splitter.now.size ≡ 0 }
    requires one { splitter.now.size ≤ length group.now }
    requires parts { HaveBlock splitter.now (F.seen files.old).held parts.old index }
    ensures sorts { SortsGroup result splitter.now (F.seen files.old).held (F.seen files.new).held
        parts.old parts.new index group.now }
    ensures left { OfBlock splitter.now (F.seen files.old).held parts.old index (λ was records block.
        OnErr result (LeavesMore (task_in splitter.now) was (F.seen files.new).held records block
        (cut_all splitter.now.size group.now))) }
    ensures some { IfErr result (λ fault. fault ≡ Write → 1 ≤ length (cut_all splitter.now.size group.now)) }
    ensures cause { IfErr result (HasCause (F.seen files.old) (F.seen files.new)) }
    ensures calm { OnOk result (IsCalm (F.seen files.old) (F.seen files.new)) }
    ensures writes { OnlyWrites (F.seen files.old) (F.seen files.new) }
{
    let size = splitter.size;
    let number = part_of(splitter.rule, index, group);
    if all_have(splitter.rule, index, size, group, number) {
        if let Some(place) = parts.numbers.find(number) {
            parts.gathered.add(place, group)?;
            return Ok(group.len() / size);
        }
    }
    sort_each(alloc, files, splitter, index, group, parts)
}

/// Gathers the records of a block by their parts, and opens the parts that are new, up to the first record that would
/// open one part too many. It answers how many records were taken.
pub(crate) fn sort_block<F: Files>(
    alloc: Global,
    files: &mut F,
    splitter: &Splitter,
    index: u64,
    block: &[u8],
    parts: &mut Parts,
) -> Result<usize, Fault>
    requires rule { IsRule splitter.now.rule.now }
    requires room { PartsHaveRoom (task_in splitter.now) splitter.now.size index (length block.now) }
    requires whole { length block.now % splitter.now.size ≡ 0 }
    requires parts { HaveSplit splitter.now (F.seen files.old).held parts.old index }
    ensures sorts { SortsRecords result splitter.now (F.seen files.old).held (F.seen files.new).held
        parts.old parts.new index block.now }
    ensures left { OfRecords splitter.now (F.seen files.old).held parts.old index (λ was records.
        OnErr result (LeavesBlock (task_in splitter.now) was (F.seen files.new).held records
        (cut_all splitter.now.size block.now))) }
    ensures some { IfErr result (λ fault. fault ≡ Write → 1 ≤ length (cut_all splitter.now.size block.now)) }
    ensures cause { IfErr result (HasCause (F.seen files.old) (F.seen files.new)) }
    ensures calm { OnOk result (IsCalm (F.seen files.old) (F.seen files.new)) }
    ensures writes { OnlyWrites (F.seen files.old) (F.seen files.new) }
{
    let size = splitter.size;
    let open = parts.writers.len();
    parts.gathered.begin(alloc, open)?;
    let mut rest = block;
    let mut taken = 0;
    'groups: while !rest.is_empty() {
        let (group, further) = rest.split_at((rest.len() / size).min(GROUP) * size);
        let place = index + taken as u64;
        let more = sort_group(alloc, files, splitter, place, group, parts)?;
        taken += more;
        if more < group.len() / size {
            return Ok(taken);
        }
        rest = further;
    }
    Ok(taken)
}
