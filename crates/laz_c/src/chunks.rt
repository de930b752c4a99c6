//! Chunks of point records.

ghost use Rattle.std.specs.Prelude.{◌≡◌, ◌≢◌, ◌≤◌, ◌<◌, ◌*◌, ◌/◌, ◌%◌, ◌^◌, ◌↔◌, ℕ, List, length, take, drop};
ghost use Rattle.std.specs.Prelude.{true, false, if◌then◌else◌, IfOk, vec_capacity};
ghost use Rattle.laz_chunk.specs.Layouts.{layout, layout_of, record_length, room_for};
ghost use Rattle.laz_chunk.specs.Chunks.{AreRecords, Holds, chunk_bytes, count_of};
ghost use Rattle.laz_c.specs.Arguments.{can_pack, can_unpack, whole_records, is_known, size_of};

use crate::answers::{BAD, DONE, NO_MEMORY, WRONG};
use crate::writing::put;
use las_header::{LAST_FORMAT, MAX_EXTRA};
use laz_chunk::Workspace;
use std::alloc::{AllocError, Global};

/// Whether records of this point format are coded, with this number of extra bytes a record.
pub fn is_known(format: u8, extra: u16) -> bool
    ensures { result ≡ is_known format extra }
{
    format <= LAST_FORMAT && extra <= MAX_EXTRA
}

// How long a record is, in bytes.
fn size_of(format: u8, extra: u16) -> usize
    requires { is_known format extra ≡ true }
    ensures size { result ≡ size_of format extra }
    ensures least { 20 ≤ result }
    ensures most { result ≤ 226 }
{
    (laz_chunk::room_for(format, extra, 1) - 4) as usize
}

// Whether a chunk can be unpacked with these arguments.
fn can_unpack(format: u8, extra: u16, count: u32, room: usize) -> bool
    ensures { result ≡ can_unpack format extra count room }
{
    is_known(format, extra) && count > 0 && room == size_of(format, extra) * count as usize
}

// Whether records of a known format can be packed with these arguments.
fn fit(format: u8, extra: u16, bytes: usize, room: usize) -> bool
    requires { is_known format extra ≡ true }
    ensures { result ≡ can_pack format extra bytes room }
{
    let size = size_of(format, extra);
    bytes >= size
        && bytes % size == 0
        && bytes / size <= u32::MAX as usize
        && laz_chunk::room_for(format, extra, (bytes / size) as u32) <= room as u64
}

// Whether records can be packed with these arguments.
fn can_pack(format: u8, extra: u16, bytes: usize, room: usize) -> bool
    ensures { result ≡ can_pack format extra bytes room }
{
    is_known(format, extra) && fit(format, extra, bytes, room)
}

// Unpacks a chunk.
fn unpacked(alloc: Global, format: u8, extra: u16, bytes: &[u8], count: u32, out: &mut [u8]) -> u32
    requires { can_unpack format extra count (length out.old) ≡ true }
    ensures answers { result < WRONG }
    ensures same { result ≡ NO_MEMORY → out.new ≡ out.old }
    ensures holds { result ≡ DONE → Holds (layout_of format extra) bytes.now out.new }
    ensures only { result ≡ DONE → (records : List ℕ) → AreRecords (layout_of format extra) count records
        → Holds (layout_of format extra) bytes.now records → records ≡ out.new }
    ensures bad { result ≡ BAD → (records : List ℕ) → AreRecords (layout_of format extra) count records
        → Holds (layout_of format extra) bytes.now records → ⊥ }
{
    match Workspace::new(alloc, format, extra) {
        Ok(mut workspace) => match workspace.unpack(bytes, count, out) {
            Ok(()) => DONE,
            Err(_) => BAD,
        },
        Err(_) => NO_MEMORY,
    }
}

// How many bytes are enough for a chunk of records.
fn room_of(format: u8, extra: u16, bytes: usize, room: usize) -> usize
    requires { can_pack format extra bytes room ≡ true }
    ensures enough { result ≡ room_for (layout_of format extra) (whole_records format extra bytes) }
    ensures most { result ≤ room }
{
    let count = bytes / size_of(format, extra);
    laz_chunk::room_for(format, extra, count as u32) as usize
}

// Packs records into `chunk`, which is empty and has capacity for `enough` bytes. Only what is packed is written to it.
fn packed(workspace: Workspace, records: &[u8], chunk: Vec<u8>, enough: usize) -> Vec<u8>
    requires some { record_length (layout workspace) ≤ length records.now }
    requires whole { length records.now % record_length (layout workspace) ≡ 0 }
    requires room { room_for (layout workspace) (count_of (layout workspace) records.now) ≤ enough }
    requires empty { length chunk.items ≡ 0 }
    requires capacity { enough ≤ vec_capacity chunk }
    ensures bytes { result.items ≡ chunk_bytes (layout workspace) records.now }
    ensures most { length result.items ≤ enough }
{
    let mut workspace = workspace;
    let mut chunk = chunk;
    let length = workspace.pack_within(records, &mut chunk, enough);
    chunk.truncate(length);
    chunk
}

// The bytes of a chunk of records.
fn chunk_of(
    alloc: Global,
    format: u8,
    extra: u16,
    records: &[u8],
    room: usize,
) -> Result<Vec<u8>, AllocError>
    requires { can_pack format extra (length records.now) room ≡ true }
    ensures bytes { IfOk result (λ chunk. chunk.items ≡ chunk_bytes (layout_of format extra) records.now) }
    ensures most { IfOk result (λ chunk. length chunk.items ≤ room) }
{
    let enough = room_of(format, extra, records.len(), room);
    let chunk = Vec::with_capacity(alloc, enough)?;
    let workspace = Workspace::new(alloc, format, extra)?;
    Ok(packed(workspace, records, chunk, enough))
}

/// How many bytes are enough for a chunk of this many points. It is 0 for no points, and for a point format or a number
/// of extra bytes that no call takes.
#[unsafe(no_mangle)]
pub extern "C" fn laz_c_room(format: u8, extra: u16, points: u32) -> u64
    ensures { result ≡ (if is_known format extra then room_for (layout_of format extra) points else 0) }
{
    if !is_known(format, extra) {
        return 0;
    }
    laz_chunk::room_for(format, extra, points)
}

/// Unpacks `count` records, at least 1, from the bytes of one chunk into `out`, which is exactly as long.
///
/// `BAD` means that the bytes hold no list of this many records. `out` is then unspecified.
#[unsafe(no_mangle)]
pub extern "C" fn laz_c_unpack(
    alloc: Global,
    format: u8,
    extra: u16,
    bytes: &[u8],
    count: u32,
    out: &mut [u8],
) -> u32
    ensures answers { result ≤ WRONG }
    ensures wrong { result ≡ WRONG ↔ can_unpack format extra count (length out.old) ≡ false }
    ensures wrong_same { result ≡ WRONG → out.new ≡ out.old }
    ensures memory_same { result ≡ NO_MEMORY → out.new ≡ out.old }
    ensures holds { result ≡ DONE → Holds (layout_of format extra) bytes.now out.new }
    ensures only { result ≡ DONE → (records : List ℕ) → AreRecords (layout_of format extra) count records
        → Holds (layout_of format extra) bytes.now records → records ≡ out.new }
    ensures bad { result ≡ BAD → (records : List ℕ) → AreRecords (layout_of format extra) count records
        → Holds (layout_of format extra) bytes.now records → ⊥ }
{
    if !can_unpack(format, extra, count, out.len()) {
        return WRONG;
    }
    unpacked(alloc, format, extra, bytes, count, out)
}

/// Packs whole records, at least one, into one chunk at the front of `out`, and writes to `written` how many bytes that
/// are. `out` has at least as many bytes as [`laz_c_room`] answers for the records. It is never `BAD`.
#[unsafe(no_mangle)]
pub extern "C" fn laz_c_pack(
    alloc: Global,
    format: u8,
    extra: u16,
    records: &[u8],
    out: &mut [u8],
    written: &mut usize,
) -> u32
    ensures answers { result ≤ WRONG }
    ensures good { result ≢ BAD }
    ensures wrong { result ≡ WRONG ↔ can_pack format extra (length records.now) (length out.old) ≡ false }
    ensures same { result ≢ DONE → (out.new ≡ out.old) × (written.new ≡ written.old) }
    ensures bytes { result ≡ DONE → take written.new out.new ≡ chunk_bytes (layout_of format extra) records.now }
    ensures rest { result ≡ DONE → drop written.new out.new ≡ drop written.new out.old }
    ensures count { result ≡ DONE → written.new ≡ length (chunk_bytes (layout_of format extra) records.now) }
{
    if !can_pack(format, extra, records.len(), out.len()) {
        return WRONG;
    }
    match chunk_of(alloc, format, extra, records, out.len()) {
        Ok(chunk) => {
            put(&chunk, out, written);
            DONE
        }
        Err(_) => NO_MEMORY,
    }
}
