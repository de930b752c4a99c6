//! The chunks of a packed file, read from its chunk table.

ghost use Rattle.std.specs.Prelude.{◌≡◌, ◌<◌, ◌^◌, ◌↔◌, ℕ, length, sum, All, IfErr, IfNone, IfOk, IfSome, IsTrue};
ghost use Rattle.std.specs.Prelude.{MatchResult};
ghost use Rattle.laz_table.specs.Chunks.{AllowsSizes, AreSizes, HasChunkSize, IsAccepted, IsChunkCount, IsCountedSize};
ghost use Rattle.laz_table.specs.Chunks.{IsFirstFault, fixed_sizes, sizes_of};
ghost use Rattle.laz_table.specs.declared.chunks.TableFault.TheVariants.{Memory};
ghost use Rattle.laz_table.specs.Steps.{IsFault, IsTableStart, NoTable, OneTable};

use crate::chunks::{Blocks, ChunkList, TableFault};
use crate::limits::{MAX_CHUNKS, TABLE_CONTEXTS, TABLE_START};
use crate::reading::{take_chunks, take_counts};
use crate::vlr::chunk_count;
use las_header::{MAX_CHUNK_POINTS, u32_at};
use laz_integer::{IntModel, MAX_BITS};
use laz_range::Decoder;
use std::alloc::Global;

/// Reads the chunk table that `bytes` begin with, those from the table on. `blocks` is what the head says of the
/// chunks, with a fixed chunk size of at least 1, and `total` the number of bytes of all chunks, those before the
/// table. The bytes after the table are not read.
///
/// The list has the number of points of each chunk for both kinds of chunks. The table is refused by the first of
/// `Table`, `ChunkSum` and `PointSum` whose condition holds.
pub fn read_table(
    alloc: Global,
    bytes: &[u8],
    blocks: Blocks,
    total: u64,
) -> Result<ChunkList, TableFault>
    requires { HasChunkSize blocks }
    ensures { MatchResult result
        (λ list. IsAccepted bytes.now blocks total list.sizes.items list.counts.items)
        (λ fault. IsFirstFault bytes.now blocks total fault) }
{
    let Some(chunks) = chunks_of(bytes, blocks) else {
        return Err(TableFault::Table);
    };
    let (_, stream) = bytes.split_at(TABLE_START);
    let coded = read_lists(alloc, stream, blocks.are_counted(), chunks)?;
    if sum_of(&coded.counts) != total {
        return Err(TableFault::ChunkSum);
    }
    if !blocks.allow(&coded.sizes) {
        return Err(TableFault::PointSum);
    }
    with_sizes(alloc, blocks, coded)
}

// The number of chunks of a table with such chunks, by its start.
fn chunks_of(bytes: &[u8], blocks: Blocks) -> Option<u32>
    requires { HasChunkSize blocks }
    ensures start { IfSome result (λ n. IsTableStart bytes.now blocks n) }
    ensures none { IfNone result ((n : ℕ) → IsTableStart bytes.now blocks n → ⊥) }
{
    if bytes.len() < TABLE_START || u32_at(bytes, 0) != 0 {
        return None;
    }
    let chunks = u32_at(bytes, 4);
    if !blocks.may_have(chunks) {
        return None;
    }
    Some(chunks)
}

// The lists of a table's stream.
fn read_lists(
    alloc: Global,
    stream: &[u8],
    counted: bool,
    chunks: u32,
) -> Result<ChunkList, TableFault>
    ensures few { IfOk result (λ list. length list.counts.items ≡ chunks) }
    ensures reads { MatchResult result
        (λ list. OneTable stream.now chunks counted list.sizes.items list.counts.items)
        (λ fault. IsFault fault (NoTable stream.now chunks counted)) }
{
    if chunks == 0 {
        return Ok(ChunkList {
            sizes: Vec::new(alloc),
            counts: Vec::new(alloc),
        });
    }
    let Ok(mut model) = IntModel::new(alloc, MAX_BITS, TABLE_CONTEXTS) else {
        return Err(TableFault::Memory);
    };
    let Ok(mut decoder) = Decoder::new(stream) else {
        return Err(TableFault::Table);
    };
    if counted {
        return take_chunks(alloc, &mut decoder, &mut model, chunks);
    }
    let counts = take_counts(alloc, &mut decoder, &mut model, chunks)?;
    Ok(ChunkList {
        sizes: Vec::new(alloc),
        counts,
    })
}

impl Blocks {
    // Whether there may be this number of chunks.
    fn may_have(&self, chunks: u32) -> bool
        requires { HasChunkSize self.now }
        ensures { IsTrue result ↔ IsChunkCount self.now chunks }
    {
        match *self {
            Blocks::Fixed { chunk, points } => chunks == chunk_count(points, chunk),
            Blocks::Counted { points } => chunks <= points.min(MAX_CHUNKS),
        }
    }

    // Whether the numbers of points that a table has are right.
    fn allow(&self, sizes: &[u32]) -> bool
        requires { length sizes.now < 2 ^ 32 }
        ensures { IsTrue result ↔ AllowsSizes self.now sizes.now }
    {
        match *self {
            Blocks::Fixed {
                chunk: _,
                points: _,
            } => true,
            Blocks::Counted { points } => are_sizes(sizes, points),
        }
    }
}

// Whether numbers of points are in range and add up.
fn are_sizes(sizes: &[u32], points: u32) -> bool
    requires { length sizes.now < 2 ^ 32 }
    ensures { IsTrue result ↔ AreSizes points sizes.now }
{
    are_in_range(sizes) && sum_of(sizes) == u64::from(points)
}

// Whether numbers of points are in range.
fn are_in_range(sizes: &[u32]) -> bool
    ensures { IsTrue result ↔ All IsCountedSize sizes.now }
{
    sizes
        .iter()
        .all(|size| *size > 0 && *size <= MAX_CHUNK_POINTS)
}

// The sum of numbers.
fn sum_of(numbers: &[u32]) -> u64
    requires { length numbers.now < 2 ^ 32 }
    ensures { result ≡ sum numbers.now }
{
    let mut all = 0;
    for number in numbers {
        all += u64::from(*number);
    }
    all
}

// The chunks with their numbers of points.
fn with_sizes(alloc: Global, blocks: Blocks, coded: ChunkList) -> Result<ChunkList, TableFault>
    requires { HasChunkSize blocks }
    ensures sizes { IfOk result (λ list. list.sizes.items ≡ sizes_of blocks coded.sizes.items) }
    ensures counts { IfOk result (λ list. list.counts.items ≡ coded.counts.items) }
    ensures memory { IfErr result (λ fault. fault ≡ Memory) }
{
    match blocks {
        Blocks::Fixed { chunk, points } => {
            let ChunkList { sizes: _, counts } = coded;
            let sizes = fixed_sizes(alloc, chunk, points)?;
            Ok(ChunkList { sizes, counts })
        }
        Blocks::Counted { points: _ } => Ok(coded),
    }
}

// The numbers of points of chunks of a fixed size.
fn fixed_sizes(alloc: Global, chunk: u32, points: u32) -> Result<Vec<u32>, TableFault>
    requires { 0 < chunk }
    ensures sizes { IfOk result (λ sizes. sizes.items ≡ fixed_sizes chunk points) }
    ensures memory { IfErr result (λ fault. fault ≡ Memory) }
{
    let mut sizes = Vec::new(alloc);
    let mut left = points;
    for _chunk in 0..chunk_count(points, chunk) {
        let size = chunk.min(left);
        let Ok(()) = sizes.push(size) else {
            return Err(TableFault::Memory);
        };
        left -= size;
    }
    Ok(sizes)
}
