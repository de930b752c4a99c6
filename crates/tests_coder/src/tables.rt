//! Chunk tables worked by hand, and one change for each condition.
ghost use Rattle.laz_table.specs.Chunks.{HasChunkSize};

use crate::texts::{bytes, long_number, number, numbers, pair, split};
use laz_table::{
    Blocks, COUNTED_CHUNKS, MAX_CHUNKS, TableFault, counted_table_of, read_table, table_of,
};
use std::alloc::{AllocError, Global};

// Chunks of this size, or with their own numbers of points for the chunk size 2^32 - 1.
fn blocks_of(chunk: u32, points: u32) -> Blocks
    ensures { HasChunkSize result }
{
    if chunk == COUNTED_CHUNKS {
        return Blocks::Counted { points };
    }
    Blocks::Fixed {
        chunk: chunk.max(1),
        points,
    }
}

// The table of chunks of this size.
fn table(alloc: Global, chunk: u32, sizes: &[u32], counts: &[u32]) -> Result<Vec<u8>, AllocError> {
    if counts.len() > MAX_CHUNKS as usize || sizes.len() != counts.len() {
        return Ok(Vec::new(alloc));
    }
    if chunk == COUNTED_CHUNKS {
        return counted_table_of(alloc, sizes, counts);
    }
    table_of(alloc, counts)
}

fn sum_of(numbers: &[u32]) -> u64 {
    let mut sum = 0u64;
    for number in numbers {
        sum = sum.wrapping_add(u64::from(*number));
    }
    sum
}

// A line for each:
//
// - `table CHUNK POINTS = SIZES = COUNTS = BYTES`: BYTES are the table of chunks with these numbers of points and of
//   bytes, and the chunks are read from it. CHUNK is their size, or that of counted chunks, and POINTS their sum.
// - `fault FAULT CHUNK POINTS TOTAL = BYTES`: the table of these bytes is refused with FAULT, or read if that is `none`.
//   POINTS is the number of points of the file, and TOTAL the number of bytes of its chunks.
// - `counted FAULT POINTS TOTAL = SIZES = COUNTS`: the same of the table of counted chunks with these numbers.
// - `full FAULT CHUNKS POINTS`: the same of that of so many chunks of 250,000 points and 24 bytes. 17,180 of these are
//   2^32 + 32,704 points.
//
// The bytes are hexadecimal digits. Four of the tables claim 2^24 chunks, and have 16 bytes after their start.
pub(crate) const ROWS: &str = "\
table 50000 0 = = = 00 00 00 00 00 00 00 00
table 50000 1 = 1 = 24 = 00 00 00 00 01 00 00 00 2C 5C 00 00 00
table 50000 50000 = 50000 = 23 = 00 00 00 00 01 00 00 00 2C 1D 00 00 00
table 4294967295 0 = = = 00 00 00 00 00 00 00 00
table 4294967295 1 = 1 = 24 = 00 00 00 00 01 00 00 00 04 8B D3 00 00 00
table 4294967295 2 = 1 1 = 24 24 = 00 00 00 00 02 00 00 00 04 8B D2 25 00 00 00
fault none 50000 50000 24 = 00 00 00 00 01 00 00 00 2C 5C 00 00 00
fault none 50000 50000 24 = 00 00 00 00 01 00 00 00 2C 5C 00 00 00 07 FF
fault none 250000 1 24 = 00 00 00 00 01 00 00 00 2C 5C 00 00 00
fault none 4294967294 250000 24 = 00 00 00 00 01 00 00 00 2C 5C 00 00 00
fault Table 50000 50001 24 = 00 00 00 00 01 00 00 00 2C 5C 00 00 00
fault Table 50000 0 24 = 00 00 00 00 01 00 00 00 2C 5C 00 00 00
fault Table 50000 1 24 = 01 00 00 00 01 00 00 00 2C 5C 00 00 00
fault Table 50000 0 0 = 00 00 00 00 00 00 00
fault Table 50000 1 0 = 00 00 00 00 00 00 00 00
fault Table 50000 0 0 =
fault ChunkSum 50000 1 23 = 00 00 00 00 01 00 00 00 2C 5C 00 00 00
fault ChunkSum 50000 1 4294967320 = 00 00 00 00 01 00 00 00 2C 5C 00 00 00
fault ChunkSum 50000 0 1 = 00 00 00 00 00 00 00 00
fault PointSum 4294967295 2 24 = 00 00 00 00 01 00 00 00 04 8B D3 00 00 00
fault ChunkSum 4294967295 2 25 = 00 00 00 00 01 00 00 00 04 8B D3 00 00 00
fault Table 4294967295 1 24 = 00 00 00 00 02 00 00 00 04 8B D3 00 00 00
fault Table 4294967295 2 24 = 00 00 00 00 02 00 00 00 04 8B D3 00 00 00
fault Table 4294967295 0 24 = 00 00 00 00 01 00 00 00 04 8B D3 00 00 00
fault PointSum 4294967295 1 0 = 00 00 00 00 00 00 00 00
fault PointSum 4294967295 3 48 = 00 00 00 00 02 00 00 00 04 8B D2 25 00 00 00
fault Table 1 16777216 0 = 00 00 00 00 00 00 00 01 9A 3C 51 E7 08 B2 64 1D C5 70 2F 83 4E D9 16 A8
fault Table 256 4294967295 0 = 00 00 00 00 00 00 00 01 9A 3C 51 E7 08 B2 64 1D C5 70 2F 83 4E D9 16 A8
fault Table 4294967295 16777216 0 = 00 00 00 00 00 00 00 01 9A 3C 51 E7 08 B2 64 1D C5 70 2F 83 4E D9 16 A8
fault Table 4294967295 4294967295 0 = 00 00 00 00 00 00 00 01 9A 3C 51 E7 08 B2 64 1D C5 70 2F 83 4E D9 16 A8
counted none 250000 4294967295 = 250000 = 4294967295
counted PointSum 250001 24 = 250001 = 24
counted PointSum 2 68 = 0 2 = 24 44
counted PointSum 2 68 = 2 0 = 24 44
counted none 7 68 = 3 4 = 24 44
counted none 3 8589934590 = 2 1 = 4294967295 4294967295
counted ChunkSum 3 4294967294 = 2 1 = 4294967295 4294967295
full PointSum 17180 32704
full none 17179 4294750000
";

// Whether bytes are read as this list.
fn is_read(alloc: Global, bytes: &[u8], blocks: Blocks, sizes: &[u32], counts: &[u32]) -> bool
    requires { HasChunkSize blocks }
{
    match read_table(alloc, bytes, blocks, sum_of(counts)) {
        Ok(list) => list.sizes.as_slice() == sizes && list.counts.as_slice() == counts,
        Err(_) => false,
    }
}

// Whether these lists have the table of these bytes, and are read from it.
fn is_table(
    alloc: Global,
    chunk: u32,
    points: u32,
    sizes: &[u32],
    counts: &[u32],
    wanted: &[u8],
) -> Result<bool, AllocError> {
    let written = table(alloc, chunk, sizes, counts)?;
    let blocks = blocks_of(chunk, points);
    Ok(written.as_slice() == wanted && is_read(alloc, wanted, blocks, sizes, counts))
}

// Whether a line of `table` is so.
fn is_worked(alloc: Global, line: &str) -> Result<bool, AllocError> {
    let (shape, rest) = split(line);
    let (sizes, rest) = split(rest);
    let (counts, wanted) = split(rest);
    let (chunk, points) = pair(shape.trim_end());
    let (mut size_room, mut count_room, mut wanted_room) = ([0; 8], [0; 8], [0; 32]);
    let sizes = numbers(&mut size_room, sizes);
    let counts = numbers(&mut count_room, counts);
    let wanted = bytes(&mut wanted_room, wanted);
    is_table(alloc, number(chunk), number(points), sizes, counts, wanted)
}

// What a table is refused for.
fn fault_of(
    alloc: Global,
    bytes: &[u8],
    chunk: u32,
    points: u32,
    total: u64,
) -> Option<TableFault> {
    read_table(alloc, bytes, blocks_of(chunk, points), total).err()
}

// The name of a fault.
fn name_of(fault: Option<TableFault>) -> &'static str {
    match fault {
        None => "none",
        Some(TableFault::Table) => "Table",
        Some(TableFault::ChunkSum) => "ChunkSum",
        Some(TableFault::PointSum) => "PointSum",
        Some(TableFault::Memory) => "Memory",
    }
}

// Whether a line of `fault` is so.
fn is_refused(alloc: Global, line: &str) -> bool {
    let (shape, wanted) = split(line);
    let (name, rest) = pair(shape.trim_end());
    let (chunk, rest) = pair(rest);
    let (points, total) = pair(rest);
    let mut room = [0; 32];
    let wanted = bytes(&mut room, wanted);
    let total = long_number(total);
    let fault = fault_of(alloc, wanted, number(chunk), number(points), total);
    name_of(fault) == name
}

// What the table of these chunks with their own numbers of points is refused for.
fn counted_fault(
    alloc: Global,
    sizes: &[u32],
    counts: &[u32],
    points: u32,
    total: u64,
) -> Result<Option<TableFault>, AllocError> {
    let bytes = table(alloc, COUNTED_CHUNKS, sizes, counts)?;
    Ok(fault_of(alloc, &bytes, COUNTED_CHUNKS, points, total))
}

// Whether a line of `counted` is so.
fn is_counted(alloc: Global, line: &str) -> Result<bool, AllocError> {
    let (shape, rest) = split(line);
    let (sizes, counts) = split(rest);
    let (name, rest) = pair(shape.trim_end());
    let (points, total) = pair(rest);
    let (mut size_room, mut count_room) = ([0; 8], [0; 8]);
    let sizes = numbers(&mut size_room, sizes);
    let counts = numbers(&mut count_room, counts);
    let fault = counted_fault(alloc, sizes, counts, number(points), long_number(total))?;
    Ok(name_of(fault) == name)
}

// Whether the table of so many chunks of 250,000 points and 24 bytes is refused as a line says, or read.
fn is_full(alloc: Global, line: &str) -> Result<bool, AllocError> {
    let (name, rest) = pair(line);
    let (chunks, points) = pair(rest);
    let chunks = number(chunks) as usize;
    let sizes = vec![in alloc; 250_000; chunks]?;
    is_full_of(alloc, &sizes, number(points), name)
}

// Whether that of chunks of these sizes is.
fn is_full_of(alloc: Global, sizes: &[u32], points: u32, name: &str) -> Result<bool, AllocError> {
    let counts = vec![in alloc; 24; sizes.len()]?;
    let total = sum_of(&counts);
    let fault = counted_fault(alloc, sizes, &counts, points, total)?;
    Ok(name_of(fault) == name)
}

/// Whether a line is so. It is not if its command is another one.
pub(crate) fn is_so(alloc: Global, command: &str, line: &str) -> Result<bool, AllocError> {
    match command {
        "table" => is_worked(alloc, line),
        "fault" => Ok(is_refused(alloc, line)),
        "counted" => is_counted(alloc, line),
        "full" => is_full(alloc, line),
        _ => Ok(false),
    }
}
