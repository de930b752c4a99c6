//! Chunk tables, as they are written.

ghost use Rattle.std.specs.Prelude.{◌≡◌, ◌+◌, ◌*◌, ◌<◌, ◌≤◌, ◌^◌, ◌++◌, List, [], length, IfOk};
ghost use Rattle.byteorder.specs.Endian.{little_bytes};
ghost use Rattle.laz_range.specs.Coding.{Codes};
ghost use Rattle.laz_range.specs.Span.{bytes_of, initial_span};
ghost use Rattle.laz_integer.specs.Events.{Event, cuts_after, cuts_of};
ghost use Rattle.laz_integer.specs.Integer.{IntStands, IsInts};
ghost use Rattle.laz_table.specs.Entries.{entries_of, events_of, no_entry, number_events, table_use};
ghost use Rattle.laz_table.specs.Table.{table_bytes};

use crate::entries::context_of;
use crate::limits::{MAX_CHUNKS, TABLE_CONTEXTS, TABLE_START};
use byteorder::{ByteOrder, LittleEndian};
use laz_integer::{IntModel, MAX_BITS, MAX_INT_BYTES};
use laz_range::Encoder;
use std::alloc::{AllocError, Global};

/// The chunk table of a file whose chunks have a fixed number of points: `counts` has the size of each chunk in bytes,
/// of at most 2^24 chunks.
pub fn table_of(alloc: Global, counts: &[u32]) -> Result<Vec<u8>, AllocError>
    requires { length counts.now ≤ MAX_CHUNKS }
    ensures { IfOk result (λ table. table.items ≡ table_bytes [] counts.now) }
{
    let start = start_of(alloc, counts.len() as u32)?;
    if counts.is_empty() {
        return Ok(start);
    }
    let mut model = IntModel::new(alloc, MAX_BITS, TABLE_CONTEXTS)?;
    let mut encoder = encoder_after(start, MAX_INT_BYTES as usize * counts.len())?;
    put_counts(&mut encoder, &mut model, counts);
    Ok(table_from(encoder))
}

/// The chunk table of a file whose chunks have a number of points of their own: `sizes` has the number of points of
/// each chunk and `counts` its size in bytes. Both are of one length, at most 2^24.
pub fn counted_table_of(alloc: Global, sizes: &[u32], counts: &[u32]) -> Result<Vec<u8>, AllocError>
    requires same { length sizes.now ≡ length counts.now }
    requires few { length counts.now ≤ MAX_CHUNKS }
    ensures { IfOk result (λ table. table.items ≡ table_bytes sizes.now counts.now) }
{
    let start = start_of(alloc, counts.len() as u32)?;
    if counts.is_empty() {
        return Ok(start);
    }
    let mut model = IntModel::new(alloc, MAX_BITS, TABLE_CONTEXTS)?;
    let mut encoder = encoder_after(start, 2 * MAX_INT_BYTES as usize * counts.len())?;
    put_chunks(&mut encoder, &mut model, sizes, counts);
    Ok(table_from(encoder))
}

// The version and the number of chunks.
fn start_of(alloc: Global, chunks: u32) -> Result<Vec<u8>, AllocError>
    ensures items { IfOk result (λ start. start.items ≡ little_bytes 4 0 ++ little_bytes 4 chunks) }
    ensures len { IfOk result (λ start. length start.items ≡ TABLE_START) }
{
    let mut number = [0; 4];
    LittleEndian::write_u32(&mut number, chunks);
    let mut start = vec![in alloc; 0; 4]?;
    start.extend_from_slice(&number)?;
    Ok(start)
}

// An encoder that writes after the start of a table, with room for `bytes` bytes of events.
fn encoder_after(start: Vec<u8>, bytes: usize) -> Result<Encoder, AllocError>
    requires start { length start.items ≡ TABLE_START }
    requires few { bytes < 2 ^ 32 }
    ensures before { IfOk result (λ encoder. encoder.before ≡ start.items) }
    ensures span { IfOk result (λ encoder. encoder.span ≡ initial_span) }
    ensures left { IfOk result (λ encoder. encoder.left ≡ bytes) }
{
    let mut room = start;
    room.resize(TABLE_START + 4 + bytes, 0)?;
    Ok(Encoder::with_room(room, TABLE_START))
}

// The table that an encoder has written.
fn table_from(encoder: Encoder) -> Vec<u8>
    requires { length encoder.before ≡ TABLE_START }
    ensures { result.items ≡ encoder.before ++ bytes_of encoder.span }
{
    let (mut table, stream) = encoder.finish();
    table.truncate(TABLE_START + stream);
    table
}

// Codes a number after one before it of its kind.
fn put_number(
    encoder: &mut Encoder,
    model: &mut IntModel,
    counts_points: bool,
    before: u32,
    number: u32,
)
    requires models { IsInts 32 2 model.old }
    requires left { MAX_INT_BYTES ≤ encoder.old.left }
    ensures models { IsInts 32 2 model.new }
    ensures used { encoder.old.left ≤ encoder.new.left + MAX_INT_BYTES }
    ensures codes { (earlier : List Event) → IntStands table_use earlier model.old
        → Codes encoder.old encoder.new (cuts_after earlier (number_events counts_points before number)) }
    ensures stands { (earlier : List Event) → IntStands table_use earlier model.old
        → IntStands table_use (earlier ++ number_events counts_points before number) model.new }
{
    let context = context_of(counts_points);
    model.code(encoder, before.cast_signed(), number.cast_signed(), context);
}

// Codes the sizes of chunks in bytes.
fn put_counts(encoder: &mut Encoder, model: &mut IntModel, counts: &[u32])
    requires models { IsInts 32 2 model.old }
    requires stands { IntStands table_use [] model.old }
    requires left { MAX_INT_BYTES * length counts.now ≤ encoder.old.left }
    ensures { Codes encoder.old encoder.new (cuts_of (events_of no_entry (entries_of [] counts.now))) }
{
    let mut before = 0;
    for count in counts {
        put_number(encoder, model, false, before, *count);
        before = *count;
    }
}

// Codes the numbers of points and the sizes of chunks, in turn.
fn put_chunks(encoder: &mut Encoder, model: &mut IntModel, sizes: &[u32], counts: &[u32])
    requires models { IsInts 32 2 model.old }
    requires stands { IntStands table_use [] model.old }
    requires same { length sizes.now ≡ length counts.now }
    requires left { 2 * MAX_INT_BYTES * length counts.now ≤ encoder.old.left }
    ensures { Codes encoder.old encoder.new (cuts_of (events_of no_entry (entries_of sizes.now counts.now))) }
{
    let mut size_before = 0;
    let mut count_before = 0;
    for (i, count) in counts.iter().enumerate() {
        let size = sizes[i];
        put_number(encoder, model, true, size_before, size);
        put_number(encoder, model, false, count_before, *count);
        size_before = size;
        count_before = *count;
    }
}
