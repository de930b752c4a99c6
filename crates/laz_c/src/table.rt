//! Laszip VLRs and chunk tables.

ghost use Rattle.std.specs.Prelude.{◌≡◌, ◌≢◌, ◌≤◌, ◌<◌, ◌+◌, ◌*◌, ◌⊎◌, ◌↔◌, min, length, take, drop, true, false};
ghost use Rattle.std.specs.Prelude.{IfOk, IsSomeAnd, MatchResult, if◌then◌else◌, ◌&&◌, nat_le, nat_lt, ◌==◌, ◌||◌};
ghost use Rattle.las_header.specs.Causes.{cause_number};
ghost use Rattle.las_header.specs.Numbers.{number_at};
ghost use Rattle.laz_table.specs.Chunks.{HasChunkSize, IsAccepted, IsFirstFault};
ghost use Rattle.laz_table.specs.Payload.{laszip_payload};
ghost use Rattle.laz_table.specs.Table.{table_bytes};
ghost use Rattle.laz_c.specs.Arguments.{can_read_table, can_write_table, can_write_vlr, table_room};
ghost use Rattle.laz_c.specs.Tables.{IsRefused, table_blocks, chunks_at_most, chunks_counted, fault_cause};

use crate::answers::{BAD, DONE, NO_MEMORY, WRONG};
use crate::chunks::is_known;
use crate::writing::put;
use las_header::{MAX_LASZIP_PAYLOAD, Refusal, u32_at};
use laz_table::{
    Blocks, COUNTED_CHUNKS, ChunkList, MAX_CHUNK_BYTES, MAX_CHUNKS, MIN_TABLE_BYTES, TABLE_START,
    TableFault, chunk_count, counted_table_of, read_table, table_of, tables_are_short, vlr_of,
};
use std::alloc::{AllocError, Global};

// Whether a laszip payload can be written with these arguments.
fn can_write_vlr(format: u8, extra: u16, chunk: u32, room: usize) -> bool
    ensures { result ≡ can_write_vlr format extra chunk room }
{
    is_known(format, extra) && chunk > 0 && room >= MAX_LASZIP_PAYLOAD
}

// Whether a table of this many numbers can be written.
fn can_write_table(sizes: usize, counts: usize, room: usize) -> bool
    ensures { result ≡ can_write_table sizes counts room }
{
    (sizes == 0 || sizes == counts)
        && counts <= MAX_CHUNKS as usize
        && MIN_TABLE_BYTES + MAX_CHUNK_BYTES * counts <= room
}

// Whether a table of this many chunks can be read into rooms of these sizes.
fn can_read_table(chunk: u32, chunks: u32, sizes: usize, counts: usize) -> bool
    ensures { result ≡ can_read_table chunk chunks sizes counts }
{
    chunk > 0 && sizes == chunks as usize && counts == chunks as usize
}

// What the head of a file says of its chunks.
fn blocks_of(chunk: u32, points: u32) -> Blocks
    requires { 0 < chunk }
    ensures blocks { result ≡ table_blocks chunk points }
    ensures size { HasChunkSize result }
{
    if chunk == COUNTED_CHUNKS {
        Blocks::Counted { points }
    } else {
        Blocks::Fixed { chunk, points }
    }
}

// The number of chunks that a table has, if each has a number of points of its own.
fn counted_in(bytes: &[u8], points: u32) -> u32
    ensures { result ≡ chunks_counted bytes.now points }
{
    if bytes.len() < TABLE_START {
        return 0;
    }
    let chunks = u32_at(bytes, 4);
    if chunks <= points.min(MAX_CHUNKS) {
        chunks
    } else {
        0
    }
}

// The number of chunks that a table can have.
fn chunks_in(bytes: &[u8], chunk: u32, points: u32) -> u32
    ensures { result ≡ chunks_at_most bytes.now chunk points }
{
    if chunk == COUNTED_CHUNKS {
        counted_in(bytes, points)
    } else if chunk > 0 {
        chunk_count(points, chunk)
    } else {
        0
    }
}

// The cause of a fault; there is none if memory ran out.
fn cause_of(fault: TableFault) -> Option<Refusal>
    ensures { result ≡ fault_cause fault }
{
    match fault {
        TableFault::Table => Some(Refusal::Table),
        TableFault::ChunkSum => Some(Refusal::ChunkSum),
        TableFault::PointSum => Some(Refusal::PointSum),
        TableFault::Memory => None,
    }
}

// The chunks of a file, as many as a table can have.
fn list_of(
    alloc: Global,
    bytes: &[u8],
    chunk: u32,
    points: u32,
    total: u64,
) -> Result<ChunkList, TableFault>
    requires { 0 < chunk }
    ensures read { MatchResult result
        (λ list. IsAccepted bytes.now (table_blocks chunk points) total list.sizes.items list.counts.items)
        (λ fault. IsFirstFault bytes.now (table_blocks chunk points) total fault) }
    ensures sizes { IfOk result (λ list. length list.sizes.items ≡ chunks_at_most bytes.now chunk points) }
    ensures counts { IfOk result (λ list. length list.counts.items ≡ chunks_at_most bytes.now chunk points) }
{
    read_table(alloc, bytes, blocks_of(chunk, points), total)
}

// Writes the number of a fault's cause. It is out of memory if there is none.
fn refused(fault: TableFault, refusal: &mut u32) -> u32
    ensures answers { (result ≡ NO_MEMORY) ⊎ (result ≡ BAD) }
    ensures same { result ≡ NO_MEMORY → refusal.new ≡ refusal.old }
    ensures cause { result ≡ BAD → IsSomeAnd (fault_cause fault) (λ cause. refusal.new ≡ cause_number cause) }
{
    match cause_of(fault) {
        Some(cause) => {
            *refusal = u32::from(cause.number());
            BAD
        }
        None => NO_MEMORY,
    }
}

// The bytes of a table.
fn table_bytes(
    alloc: Global,
    sizes: &[u32],
    counts: &[u32],
    room: usize,
) -> Result<Vec<u8>, AllocError>
    requires { can_write_table (length sizes.now) (length counts.now) room ≡ true }
    ensures bytes { IfOk result (λ table. table.items ≡ table_bytes sizes.now counts.now) }
    ensures most { IfOk result (λ table. length table.items ≤ room) }
{
    tables_are_short();
    if sizes.is_empty() {
        table_of(alloc, counts)
    } else {
        counted_table_of(alloc, sizes, counts)
    }
}

/// Writes the payload of the laszip VLR of a file with such point records to the front of `out`, which has at least 58
/// bytes, and to `written` how many bytes that are. `chunk` is the number of points of a chunk, at least 1, or 2^32 - 1 if
/// the chunk table has one for each. No memory is taken.
#[unsafe(no_mangle)]
pub extern "C" fn laz_c_vlr(
    format: u8,
    extra: u16,
    chunk: u32,
    out: &mut [u8],
    written: &mut usize,
) -> u32
    ensures answers { (result ≡ DONE) ⊎ (result ≡ WRONG) }
    ensures wrong { result ≡ WRONG ↔ can_write_vlr format extra chunk (length out.old) ≡ false }
    ensures same { result ≡ WRONG → (out.new ≡ out.old) × (written.new ≡ written.old) }
    ensures bytes { result ≡ DONE → take written.new out.new ≡ laszip_payload format extra chunk }
    ensures rest { result ≡ DONE → drop written.new out.new ≡ drop written.new out.old }
    ensures count { result ≡ DONE → written.new ≡ length (laszip_payload format extra chunk) }
{
    if !can_write_vlr(format, extra, chunk, out.len()) {
        return WRONG;
    }
    let payload = vlr_of(format, extra, chunk);
    put(payload.as_slice(), out, written);
    DONE
}

/// How many bytes are enough for a chunk table of this many chunks.
#[unsafe(no_mangle)]
pub extern "C" fn laz_c_table_room(chunks: u32) -> u64
    ensures { result ≡ table_room chunks }
{
    MIN_TABLE_BYTES as u64 + MAX_CHUNK_BYTES as u64 * u64::from(chunks)
}

/// Writes a chunk table to the front of `out`, which has at least as many bytes as [`laz_c_table_room`] answers, and to
/// `written` how many bytes that are. `counts` has the size of each chunk in bytes, of at most 2^24 chunks. `sizes` has
/// the number of points of each chunk, or nothing if the laszip VLR has one for all. It is never `BAD`.
#[unsafe(no_mangle)]
pub extern "C" fn laz_c_table_of(
    alloc: Global,
    sizes: &[u32],
    counts: &[u32],
    out: &mut [u8],
    written: &mut usize,
) -> u32
    ensures answers { (result ≡ DONE) ⊎ (result ≡ NO_MEMORY) ⊎ (result ≡ WRONG) }
    ensures wrong { result ≡ WRONG
        ↔ can_write_table (length sizes.now) (length counts.now) (length out.old) ≡ false }
    ensures same { result ≢ DONE → (out.new ≡ out.old) × (written.new ≡ written.old) }
    ensures bytes { result ≡ DONE → take written.new out.new ≡ table_bytes sizes.now counts.now }
    ensures rest { result ≡ DONE → drop written.new out.new ≡ drop written.new out.old }
    ensures count { result ≡ DONE → written.new ≡ length (table_bytes sizes.now counts.now) }
{
    if !can_write_table(sizes.len(), counts.len(), out.len()) {
        return WRONG;
    }
    match table_bytes(alloc, sizes, counts, out.len()) {
        Ok(table) => {
            put(&table, out, written);
            DONE
        }
        Err(_) => NO_MEMORY,
    }
}

/// How many chunks a chunk table can have, by its first eight bytes, if `bytes` has them. `chunk` is the chunk size of
/// the laszip VLR, and `points` the number of points of the file. If chunks have a number of points of their own, it is 0
/// for a table that is refused. No memory is taken.
#[unsafe(no_mangle)]
pub extern "C" fn laz_c_chunks(bytes: &[u8], chunk: u32, points: u32) -> u32
    ensures { result ≡ chunks_at_most bytes.now chunk points }
{
    chunks_in(bytes, chunk, points)
}

/// Reads the chunk table that `bytes` begin with. `chunk` is the chunk size of the laszip VLR, at least 1, `points` the
/// number of points of the file, and `total` the number of bytes of all chunks. The number of points of each chunk is
/// written to `sizes`, and its number of bytes to `counts`; both are exactly as long as [`laz_c_chunks`] answers. The
/// bytes after the table are not read.
///
/// `BAD` means that the table is refused. The number of the cause is written to `refusal`, and nothing to the others.
#[unsafe(no_mangle)]
pub extern "C" fn laz_c_table(
    alloc: Global,
    bytes: &[u8],
    chunk: u32,
    points: u32,
    total: u64,
    sizes: &mut [u32],
    counts: &mut [u32],
    refusal: &mut u32,
) -> u32
    ensures answers { result ≤ WRONG }
    ensures wrong { result ≡ WRONG
        ↔ can_read_table chunk (chunks_at_most bytes.now chunk points) (length sizes.old) (length counts.old) ≡ false }
    ensures same { result ≢ DONE → (sizes.new ≡ sizes.old) × (counts.new ≡ counts.old) }
    ensures cause_same { result ≢ BAD → refusal.new ≡ refusal.old }
    ensures read { result ≡ DONE → IsAccepted bytes.now (table_blocks chunk points) total sizes.new counts.new }
    ensures refused { result ≡ BAD → IsRefused bytes.now (table_blocks chunk points) total refusal.new }
{
    let chunks = chunks_in(bytes, chunk, points);
    if !can_read_table(chunk, chunks, sizes.len(), counts.len()) {
        return WRONG;
    }
    match list_of(alloc, bytes, chunk, points, total) {
        Ok(list) => {
            sizes.copy_from_slice(&list.sizes);
            counts.copy_from_slice(&list.counts);
            DONE
        }
        Err(fault) => refused(fault, refusal),
    }
}
