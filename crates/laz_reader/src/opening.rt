//! What is read of a file when it is opened: its head and its chunk table.
ghost use Rattle.std.specs.Prelude.{◌≡◌, ◌⊎◌, ℕ, List, ◌+◌, ◌-◌, ◌*◌, ◌^◌, ◌<◌, ◌≤◌, ◌||◌, nat_lt, min, true, false};
ghost use Rattle.std.specs.Prelude.{[], All, Some, None};
ghost use Rattle.std.specs.Prelude.{length, take, drop, sum, vec_len, if◌then◌else◌, IfErr, IfOk, IsErrOf, OnOk, Ok};
ghost use Rattle.std.specs.Prelude.{Err};
ghost use Rattle.las_header.specs.declared.refusal.Refusal.{Refusal};
ghost use Rattle.las_header.specs.declared.refusal.Refusal.TheVariants.{TablePointer};
ghost use Rattle.las_header.specs.Conditions.{IsFirst};
ghost use Rattle.las_header.specs.Fields.{is_packed, point_offset_of};
ghost use Rattle.las_header.specs.Refusals.{causes_of, first_cause, front_causes};
ghost use Rattle.las_header.specs.Vlrs.{laszip_vlrs_of};
ghost use Rattle.las_outside.specs.Files.{IsMissing, WhereKnown};
ghost use Rattle.las_outside.specs.Frames.{IsCalm, OnlyReads, Reads};
ghost use Rattle.laz_table.specs.declared.chunks.Blocks.{Blocks};
ghost use Rattle.laz_table.specs.Chunks.{HasChunkSize, IsAccepted, IsFirstFault, table_causes};
ghost use Rattle.laz_table.specs.declared.limits.TheConstants.{MAX_CHUNKS, MAX_CHUNK_BYTES, MIN_TABLE_BYTES};
ghost use Rattle.laz_reader.specs.Asking.{AsksAtMost, asked_for_head};
ghost use Rattle.laz_forms.specs.Refusing.{has_bad_pointer};
ghost use Rattle.laz_reader.specs.Reading.{AreChunkLists, AreFewChunks, EndsReading, FailsReading, IsHeadOf};
ghost use Rattle.laz_reader.specs.Reading.{IsTablePlace, points_listed, table_size};
ghost use Rattle.laz_forms.specs.declared.fault.Fault.TheVariants.{Refused, Memory};

use crate::reading::{read_number, read_on};
use las_header::{HEADER_BLOCK, Head, Refusal, need, u32_at};
use las_outside::Files;
use laz_forms::Fault;
use laz_table::{
    Blocks, ChunkList, MAX_CHUNK_BYTES, MAX_CHUNKS, MIN_TABLE_BYTES, TABLE_START, TableFault,
    read_table,
};
use std::alloc::Global;

/// Where the chunk table of a packed file begins, and the end of what it may take.
#[derive(Clone, Copy)]
pub(crate) struct TablePlace {
    pub(crate) start: u64,
    pub(crate) end: u64,
}

/// Reads the head of a file, and says how long the file is.
pub(crate) fn read_head<F: Files>(
    alloc: Global,
    files: &mut F,
    name: &str,
) -> Result<(Head, u64), Fault>
    ensures head { IfOk result (λ r. WhereKnown (F.seen files.old).held name.now (λ file. IsHeadOf file r.0)) }
    ensures size { IfOk result (λ r. r.0.size ≡ r.1) }
    ensures within { IfOk result (λ r. length r.0.bytes ≤ r.1) }
    ensures plain { IfOk result (λ r. is_packed r.0.bytes ≡ false → laszip_vlrs_of r.0.bytes ≡ []) }
    ensures refused { (cause : Refusal) → IsErrOf result (Refused cause)
        → WhereKnown (F.seen files.old).held name.now (λ file. first_cause (causes_of file) ≡ Some cause) }
    ensures reads { OnlyReads (F.seen files.old) (F.seen files.new) }
    ensures calm { OnOk result (IsCalm (F.seen files.old) (F.seen files.new)) }
    ensures ends { IfErr result
        (EndsReading (IsMissing (F.seen files.old).held name.now) (F.seen files.old) (F.seen files.new)) }
    ensures asked { IfOk result (λ r. AsksAtMost (length r.0.bytes) (F.seen files.old) (F.seen files.new)) }
    ensures asked_of { (IsMissing (F.seen files.old).held name.now → ⊥) → WhereKnown (F.seen files.old).held name.now
        (λ file. AsksAtMost (asked_for_head file) (F.seen files.old) (F.seen files.new)) }
    ensures missing { IsMissing (F.seen files.old).held name.now
        → (F.seen files.new).asked ≡ (F.seen files.old).asked }
{
    let Ok(size) = files.size(name) else {
        return Err(Fault::Read);
    };
    let mut bytes = Vec::new(alloc);
    let offset = read_front(files, name, size, &mut bytes)?;
    read_on(files, name, 0, &mut bytes, offset as usize)?;
    match Head::read(bytes, size) {
        Ok(head) => Ok((head, size)),
        Err(cause) => Err(Fault::Refused(cause)),
    }
}

// Reads the first 227 bytes of a file, or all if there are fewer. It gives the offset to the point data.
fn read_front<F: Files>(
    files: &mut F,
    name: &str,
    size: u64,
    bytes: &mut Vec<u8>,
) -> Result<u32, Fault>
    requires size { WhereKnown (F.seen files.old).held name.now (λ file. size ≡ length file) }
    requires empty { bytes.old.items ≡ [] }
    ensures front { OnOk result (first_cause (front_causes bytes.new.items size) ≡ None) }
    ensures offset { IfOk result (λ offset. offset ≡ point_offset_of bytes.new.items) }
    ensures bounds { IfOk result (λ offset. (227 ≤ offset) × (offset ≤ size)) }
    ensures len { OnOk result (vec_len bytes.new ≡ 227) }
    ensures bytes { OnOk result
        (WhereKnown (F.seen files.old).held name.now (λ file. bytes.new.items ≡ take 227 file)) }
    ensures refused { (cause : Refusal) → IsErrOf result (Refused cause)
        → WhereKnown (F.seen files.old).held name.now (λ file. first_cause (front_causes file size) ≡ Some cause) }
    ensures reads { Reads 227 (F.seen files.old) (F.seen files.new) }
    ensures calm { OnOk result (IsCalm (F.seen files.old) (F.seen files.new)) }
    ensures ends { IfErr result (EndsReading ⊥ (F.seen files.old) (F.seen files.new)) }
{
    let most = size.min(HEADER_BLOCK as u64) as usize;
    read_on(files, name, 0, bytes, most)?;
    match need(bytes, size) {
        Ok(offset) => Ok(offset),
        Err(cause) => Err(Fault::Refused(cause)),
    }
}

/// Finds the chunk table of a packed file of `size` bytes, whose point data begin at `offset`.
pub(crate) fn find_table<F: Files>(
    files: &mut F,
    name: &str,
    offset: u64,
    size: u64,
) -> Result<TablePlace, Fault>
    requires near { offset < 2 ^ 32 }
    requires head { WhereKnown (F.seen files.old).held name.now
        (λ file. (offset ≡ point_offset_of file) × (size ≡ length file)) }
    ensures place { IfOk result (λ place. WhereKnown (F.seen files.old).held name.now
        (λ file. IsTablePlace file place.start place.end)) }
    ensures order { IfOk result
        (λ place. (offset + 8 ≤ place.start) × (place.start ≤ place.end) × (place.end ≤ size)) }
    ensures refused { (cause : Refusal) → IsErrOf result (Refused cause) → (cause ≡ TablePointer)
        × WhereKnown (F.seen files.old).held name.now (λ file. has_bad_pointer file ≡ true) }
    ensures reads { Reads 16 (F.seen files.old) (F.seen files.new) }
    ensures calm { OnOk result (IsCalm (F.seen files.old) (F.seen files.new)) }
    ensures ends { IfErr result (EndsReading ⊥ (F.seen files.old) (F.seen files.new)) }
{
    if size < offset + 8 {
        return Err(Fault::Refused(Refusal::TablePointer));
    }
    let pointer = read_number(files, name, offset)?;
    if pointer != u64::MAX {
        return place_between(offset + 8, pointer, size);
    }
    if size < offset + 16 {
        return Err(Fault::Refused(Refusal::TablePointer));
    }
    let last = read_number(files, name, size - 8)?;
    place_between(offset + 8, last, size - 8)
}

// The place of a table that begins at `start`, if it lies between two places.
fn place_between(least: u64, start: u64, end: u64) -> Result<TablePlace, Fault>
    ensures { result ≡ (if nat_lt start least || nat_lt end start then Err (Refused TablePointer)
        else Ok (record { start = start; end = end })) }
{
    if start < least || end < start {
        return Err(Fault::Refused(Refusal::TablePointer));
    }
    Ok(TablePlace { start, end })
}

/// Reads the chunk table at a place. Of the bytes there it reads no more than a table of the number of chunks takes
/// that it begins with.
pub(crate) fn read_chunks<F: Files>(
    alloc: Global,
    files: &mut F,
    name: &str,
    place: TablePlace,
    blocks: Blocks,
    total: u64,
) -> Result<ChunkList, Fault>
    requires size { HasChunkSize blocks }
    requires few { AreFewChunks blocks }
    requires order { place.start ≤ place.end }
    requires within { WhereKnown (F.seen files.old).held name.now (λ file. place.end ≤ length file) }
    ensures lists { IfOk result (λ list. AreChunkLists list.sizes.items list.counts.items total) }
    ensures points { IfOk result (λ list. sum list.sizes.items ≡ points_listed blocks) }
    ensures some { IfOk result (λ list. All (λ n. 0 < n) list.sizes.items) }
    ensures accepted { IfOk result (λ list. WhereKnown (F.seen files.old).held name.now
        (λ file. IsAccepted (drop place.start (take place.end file)) blocks total list.sizes.items
        list.counts.items)) }
    ensures refused { (cause : Refusal) → IsErrOf result (Refused cause)
        → WhereKnown (F.seen files.old).held name.now
        (λ file. IsFirst (table_causes (drop place.start (take place.end file)) blocks total) (Some cause)) }
    ensures reads { OnlyReads (F.seen files.old) (F.seen files.new) }
    ensures calm { OnOk result (IsCalm (F.seen files.old) (F.seen files.new)) }
    ensures ends { IfErr result (EndsReading ⊥ (F.seen files.old) (F.seen files.new)) }
    ensures asked { IfOk result (λ list. AsksAtMost (MIN_TABLE_BYTES + MAX_CHUNK_BYTES * length list.sizes.items)
        (F.seen files.old) (F.seen files.new)) }
    ensures asked_of { WhereKnown (F.seen files.old).held name.now (λ file.
        AsksAtMost (table_size (drop place.start (take place.end file))) (F.seen files.old) (F.seen files.new)) }
{
    let bytes = read_table_front(alloc, files, name, place)?;
    match read_table(alloc, &bytes, blocks, total) {
        Ok(list) => Ok(list),
        Err(fault) => Err(fault_of(fault)),
    }
}

// Reads the bytes of a table at a place, by the number of chunks that it begins with.
fn read_table_front<F: Files>(
    alloc: Global,
    files: &mut F,
    name: &str,
    place: TablePlace,
) -> Result<Vec<u8>, Fault>
    requires order { place.start ≤ place.end }
    requires within { WhereKnown (F.seen files.old).held name.now (λ file. place.end ≤ length file) }
    ensures bytes { IfOk result (λ bytes. WhereKnown (F.seen files.old).held name.now (λ file.
        let part = drop place.start (take place.end file) in bytes.items ≡ take (table_size part) part)) }
    ensures reads { OnlyReads (F.seen files.old) (F.seen files.new) }
    ensures calm { OnOk result (IsCalm (F.seen files.old) (F.seen files.new)) }
    ensures ends { IfErr result (FailsReading (F.seen files.old) (F.seen files.new)) }
    ensures asked { IfOk result (λ bytes. AsksAtMost (length bytes.items) (F.seen files.old) (F.seen files.new)) }
    ensures asked_of { WhereKnown (F.seen files.old).held name.now (λ file.
        AsksAtMost (table_size (drop place.start (take place.end file))) (F.seen files.old) (F.seen files.new)) }
    ensures short { IfOk result (λ bytes. length bytes.items ≤ table_size bytes.items) }
{
    let long = place.end - place.start;
    let mut bytes = Vec::new(alloc);
    read_on(files, name, place.start, &mut bytes, long.min(8) as usize)?;
    let most = table_size(&bytes);
    read_on(
        files,
        name,
        place.start,
        &mut bytes,
        long.min(most) as usize,
    )?;
    Ok(bytes)
}

// How many bytes a table takes at most that begins so.
fn table_size(bytes: &[u8]) -> u64
    ensures bounds { (MIN_TABLE_BYTES ≤ result) × (result < 2 ^ 30) }
    ensures size { 8 ≤ length bytes.now → result ≡ table_size bytes.now }
{
    if bytes.len() < TABLE_START {
        return MIN_TABLE_BYTES as u64;
    }
    let chunks = u32_at(bytes, 4).min(MAX_CHUNKS);
    MIN_TABLE_BYTES as u64 + MAX_CHUNK_BYTES as u64 * u64::from(chunks)
}

// Why a file is not opened, by its table.
fn fault_of(fault: TableFault) -> Fault
    ensures first { (bytes : List ℕ) (blocks : Blocks) (total : ℕ) (cause : Refusal) → result ≡ Refused cause
        → IsFirstFault bytes blocks total fault → IsFirst (table_causes bytes blocks total) (Some cause) }
    ensures kind { (result ≡ Memory) ⊎ ((cause : Refusal) × (result ≡ Refused cause)) }
{
    match fault {
        TableFault::Table => Fault::Refused(Refusal::Table),
        TableFault::ChunkSum => Fault::Refused(Refusal::ChunkSum),
        TableFault::PointSum => Fault::Refused(Refusal::PointSum),
        TableFault::Memory => Fault::Memory,
    }
}
