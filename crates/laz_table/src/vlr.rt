//! The laszip VLR: its payload, and what its payload is refused for.

ghost use Rattle.std.specs.Prelude.{◌≡◌, ◌≤◌, ◌<◌, ◌+◌, ◌++◌, [], ◌∷◌, length, true, false, Some, None, Ok, Err};
ghost use Rattle.byteorder.specs.Endian.{little_bytes};
ghost use Rattle.arrayvec.specs.ArrayVec.{array_vec_len};
ghost use Rattle.las_header.specs.declared.refusal.Refusal.{Refusal};
ghost use Rattle.las_header.specs.Fields.{is_packed};
ghost use Rattle.las_header.specs.Refusals.{first_cause};
ghost use Rattle.laz_table.specs.Payload.{item_bytes, items_of, items_part, laszip_payload, payload_start};
ghost use Rattle.laz_table.specs.VlrCauses.{chunk_size_of, payload_at, payload_causes, vlr_causes, chunk_count};
ghost use Rattle.laz_table.specs.VlrCauses.{has_other_compressor, has_other_items, has_other_shape, is_bad_chunk_size};
ghost use Rattle.laz_table.specs.VlrCauses.{makes_many_chunks};

use crate::limits::{
    ARITHMETIC_CODER, CHUNKED_COMPRESSOR, COUNTED_CHUNKS, ITEM_VERSION, MAX_CHUNKS, PAYLOAD_ITEM,
    PAYLOAD_START,
};
use arrayvec::ArrayVec;
use byteorder::{ByteOrder, LittleEndian};
use las_header::{
    Head, LAST_FORMAT, MAX_CHUNK_POINTS, MAX_EXTRA, MAX_LASZIP_PAYLOAD, Refusal, VLR_HEAD,
    VlrPlace, u16_at, u32_at,
};

/// The payload of the laszip VLR of a file with point data of this format, 0 to 3, with `extra` bytes more a record,
/// 0 to 192. `chunk` is the number of points of a chunk, or [`COUNTED_CHUNKS`]. No memory is taken.
pub fn vlr_of(format: u8, extra: u16, chunk: u32) -> ArrayVec<u8, 58>
    requires format { format ≤ LAST_FORMAT }
    requires extra { extra ≤ MAX_EXTRA }
    ensures { result.items ≡ laszip_payload format extra chunk }
{
    let mut payload = ArrayVec::new();
    put_start(&mut payload, chunk);
    put_items(&mut payload, format, extra);
    payload
}

// Appends bytes.
fn put(payload: &mut ArrayVec<u8, 58>, bytes: &[u8])
    requires { array_vec_len payload.old + length bytes.now ≤ MAX_LASZIP_PAYLOAD }
    ensures items { payload.new.items ≡ payload.old.items ++ bytes.now }
    ensures len { array_vec_len payload.new ≡ array_vec_len payload.old + length bytes.now }
{
    payload.try_extend_from_slice(bytes).unwrap();
}

// Appends a number of two bytes.
fn put_u16(payload: &mut ArrayVec<u8, 58>, number: u16)
    requires { array_vec_len payload.old + 2 ≤ MAX_LASZIP_PAYLOAD }
    ensures items { payload.new.items ≡ payload.old.items ++ little_bytes 2 number }
    ensures len { array_vec_len payload.new ≡ array_vec_len payload.old + 2 }
{
    let mut bytes = [0; 2];
    LittleEndian::write_u16(&mut bytes, number);
    put(payload, &bytes);
}

// Appends a number of four bytes.
fn put_u32(payload: &mut ArrayVec<u8, 58>, number: u32)
    requires { array_vec_len payload.old + 4 ≤ MAX_LASZIP_PAYLOAD }
    ensures items { payload.new.items ≡ payload.old.items ++ little_bytes 4 number }
    ensures len { array_vec_len payload.new ≡ array_vec_len payload.old + 4 }
{
    let mut bytes = [0; 4];
    LittleEndian::write_u32(&mut bytes, number);
    put(payload, &bytes);
}

// Appends an item.
fn put_item(payload: &mut ArrayVec<u8, 58>, kind: u16, size: u16)
    requires { array_vec_len payload.old + PAYLOAD_ITEM ≤ MAX_LASZIP_PAYLOAD }
    ensures items { payload.new.items ≡ payload.old.items ++ item_bytes (record { kind = kind; size = size }) }
    ensures len { array_vec_len payload.new ≡ array_vec_len payload.old + PAYLOAD_ITEM }
{
    put_u16(payload, kind);
    put_u16(payload, size);
    put_u16(payload, ITEM_VERSION);
}

// Appends what stands before the number of items.
fn put_start(payload: &mut ArrayVec<u8, 58>, chunk: u32)
    requires { payload.old.items ≡ [] }
    ensures items { payload.new.items ≡ payload_start chunk }
    ensures len { array_vec_len payload.new ≡ 32 }
{
    put_u16(payload, CHUNKED_COMPRESSOR);
    put_u16(payload, ARITHMETIC_CODER);
    put(payload, &[2, 2, 0, 0, 0, 0, 0, 0]);
    put_u32(payload, chunk);
    put(payload, &[0xff; 16]);
}

// Appends the number of items, and the items.
fn put_items(payload: &mut ArrayVec<u8, 58>, format: u8, extra: u16)
    requires start { array_vec_len payload.old ≤ 32 }
    requires format { format ≤ LAST_FORMAT }
    requires extra { extra ≤ MAX_EXTRA }
    ensures { payload.new.items ≡ payload.old.items ++ items_part (items_of format extra) }
{
    let has_time = format % 2 == 1;
    let has_colours = format >= 2;
    let has_extra = extra > 0;
    put_u16(
        payload,
        1 + u16::from(has_time) + u16::from(has_colours) + u16::from(has_extra),
    );
    put_item(payload, 6, 20);
    if has_time {
        put_item(payload, 7, 8);
    }
    if has_colours {
        put_item(payload, 8, 6);
    }
    if has_extra {
        put_item(payload, 0, extra);
    }
}

/// The chunk size of a packed file: how many points each of its chunks has but the last, or [`COUNTED_CHUNKS`] if the
/// chunk table says how many points each chunk has. No memory is taken.
///
/// The file is refused as `NoVlr`, `VlrShape`, `Compressor`, `Items`, `ChunkSize` or `TooManyChunks`, by the first of
/// these whose condition holds. Any version, options, description and place among the VLRs are read.
pub fn read_vlr(head: &Head) -> Result<u32, Refusal>
    requires { is_packed head.now.bytes ≡ true }
    ensures chunk { first_cause (vlr_causes head.now.bytes) ≡ None → result ≡ Ok (chunk_size_of head.now.bytes) }
    ensures refused { (cause : Refusal) → first_cause (vlr_causes head.now.bytes) ≡ Some cause → result ≡ Err cause }
{
    if head.laszip_count() != 1 {
        return Err(Refusal::NoVlr);
    }
    let Some(place) = head.laszip_vlr() else {
        return Err(Refusal::NoVlr);
    };
    let payload = payload_at(head.bytes(), place);
    match payload_cause(payload, head.format(), head.extra(), head.points()) {
        Some(cause) => Err(cause),
        None => Ok(u32_at(payload, 12)),
    }
}

// The payload of a VLR of a head.
fn payload_at(head: &[u8], place: VlrPlace) -> &[u8]
    requires { place.start + VLR_HEAD + place.length ≤ length head.now }
    ensures { result.now ≡ payload_at place head.now }
{
    let start = place.start as usize + VLR_HEAD;
    let end = start + usize::from(place.length);
    &head[start..end]
}

// The first cause of a payload whose condition holds.
fn payload_cause(payload: &[u8], format: u8, extra: u16, points: u32) -> Option<Refusal>
    requires format { format ≤ LAST_FORMAT }
    requires extra { extra ≤ MAX_EXTRA }
    ensures cause { result ≡ first_cause (payload_causes format extra points payload.now) }
    ensures long { result ≡ None → PAYLOAD_START ≤ length payload.now }
{
    if has_other_shape(payload) {
        return Some(Refusal::VlrShape);
    }
    if has_other_compressor(payload) {
        return Some(Refusal::Compressor);
    }
    if has_other_items(payload, format, extra) {
        return Some(Refusal::Items);
    }
    let chunk = u32_at(payload, 12);
    if has_bad_chunk_size(chunk, points) {
        return Some(Refusal::ChunkSize);
    }
    if has_many_chunks(chunk, points) {
        return Some(Refusal::TooManyChunks);
    }
    None
}

// Whether the payload is not as long as it has to be.
fn has_other_shape(payload: &[u8]) -> bool
    ensures shape { result ≡ has_other_shape payload.now }
    ensures long { result ≡ false → PAYLOAD_START ≤ length payload.now }
{
    payload.len() < PAYLOAD_START
        || payload.len() != PAYLOAD_START + PAYLOAD_ITEM * usize::from(u16_at(payload, 32))
}

// Whether the compressor or the coder is another one.
fn has_other_compressor(payload: &[u8]) -> bool
    requires { PAYLOAD_START ≤ length payload.now }
    ensures { result ≡ has_other_compressor payload.now }
{
    u16_at(payload, 0) != CHUNKED_COMPRESSOR || u16_at(payload, 2) != ARITHMETIC_CODER
}

// Whether the items are others than those of the records.
fn has_other_items(payload: &[u8], format: u8, extra: u16) -> bool
    requires long { PAYLOAD_START ≤ length payload.now }
    requires format { format ≤ LAST_FORMAT }
    requires extra { extra ≤ MAX_EXTRA }
    ensures { result ≡ has_other_items format extra payload.now }
{
    let mut written = ArrayVec::new();
    put_items(&mut written, format, extra);
    let (_, items) = payload.split_at(32);
    !items.starts_with(written.as_slice())
}

// Whether the chunk size is one that is not read.
fn has_bad_chunk_size(chunk: u32, points: u32) -> bool
    ensures { result ≡ is_bad_chunk_size points chunk }
{
    chunk == 0 || (chunk != COUNTED_CHUNKS && chunk.min(points) > MAX_CHUNK_POINTS)
}

// Whether there are too many chunks.
fn has_many_chunks(chunk: u32, points: u32) -> bool
    requires { 0 < chunk }
    ensures { result ≡ makes_many_chunks points chunk }
{
    chunk != COUNTED_CHUNKS && chunk_count(points, chunk) > MAX_CHUNKS
}

/// How many chunks of `chunk` points, at least 1, the points make. The last one may be short.
pub fn chunk_count(points: u32, chunk: u32) -> u32
    requires { 0 < chunk }
    ensures { result ≡ chunk_count points chunk }
{
    points.div_ceil(chunk)
}
