//! Heads of files.

ghost use Rattle.std.specs.Prelude.{◌≡◌, ◌≢◌, ◌≤◌, ◌<◌, ◌↔◌, min, length, take, true, false, IfOk, IsSomeAnd, IsTrue, if◌then◌else◌};
ghost use Rattle.std.specs.Prelude.{◌⊎◌, Some, None, MatchResult};
ghost use Rattle.las_header.specs.Causes.{cause_number};
ghost use Rattle.las_header.specs.Fields.{is_packed, point_offset_of};
ghost use Rattle.las_header.specs.Refusals.{first_cause, front_causes, head_causes};
ghost use Rattle.laz_table.specs.VlrCauses.{chunk_size_of, vlr_causes};
ghost use Rattle.las_header.specs.Vlrs.{laszip_vlrs_of};
ghost use Rattle.laz_c.specs.Arguments.{is_front};
ghost use Rattle.laz_c.specs.Heads.{IsWhole, head_cause, chunk_or_0, first_place, laszip_cause, numbers_of, refused_as};

use crate::answers::{BAD, DONE, NO_MEMORY, WRONG};
use las_header::{HEADER_BLOCK, Head, Refusal, VlrPlace, need};
use laz_table::read_vlr;
use std::alloc::{AllocError, Global};

/// What the head of a file says, in numbers. All are 0 but `refusal` if the file is refused.
#[repr(C)]
#[derive(Clone, Copy, Debug, PartialEq, Eq)]
pub struct LazHead {
    /// 0, or the number of the cause for which the file is refused, from 1.
    pub refusal: u32,
    /// The offset to the point data, in bytes.
    pub offset: u32,
    /// The number of points.
    pub points: u32,
    /// The number of points of a chunk; 2^32 - 1 if the chunk table says how many each chunk has; 0 for plain points.
    pub chunk: u32,
    /// The number of variable-length records (VLRs).
    pub vlr_count: u32,
    /// The place of the laszip VLR's head, which has 54 bytes, from the start of the file; 0 if there is none.
    pub laszip_start: u32,
    /// The length of the laszip VLR's payload, in bytes.
    pub laszip_length: u16,
    /// The header size, in bytes: where the first VLR begins.
    pub header_size: u16,
    /// The length of a point record, in bytes.
    pub record_length: u16,
    /// The number of extra bytes of a point record.
    pub extra: u16,
    /// The minor version, 0 to 4, of LAS 1.0 to 1.4.
    pub minor: u8,
    /// The point data format, 0 to 3, without the bit for packed points.
    pub format: u8,
}

// The numbers of a head that is refused.
fn refused_as(cause: Refusal) -> LazHead
    ensures { result ≡ refused_as cause }
{
    LazHead {
        refusal: u32::from(cause.number()),
        offset: 0,
        points: 0,
        chunk: 0,
        vlr_count: 0,
        laszip_start: 0,
        laszip_length: 0,
        header_size: 0,
        record_length: 0,
        extra: 0,
        minor: 0,
        format: 0,
    }
}

// Where the first laszip VLR stands; zeros, if there is none.
fn first_place(head: &Head) -> VlrPlace
    ensures { result ≡ first_place (laszip_vlrs_of head.now.bytes) }
{
    match head.laszip_vlr() {
        Some(place) => place,
        None => VlrPlace {
            start: 0,
            length: 0,
        },
    }
}

// The chunk size of a packed file.
fn packed_chunk(head: &Head) -> Result<u32, Refusal>
    requires { is_packed head.now.bytes ≡ true }
    ensures { MatchResult result
        (λ chunk. (first_cause (vlr_causes head.now.bytes) ≡ None) × (chunk ≡ chunk_size_of head.now.bytes))
        (λ cause. first_cause (vlr_causes head.now.bytes) ≡ Some cause) }
{
    read_vlr(head)
}

// The chunk size of a packed file, or 0 for a plain one.
fn chunk_of(head: &Head) -> Result<u32, Refusal>
    ensures { MatchResult result
        (λ chunk. (laszip_cause head.now.bytes ≡ None) × (chunk ≡ chunk_or_0 head.now.bytes))
        (λ cause. laszip_cause head.now.bytes ≡ Some cause) }
{
    if head.packed() {
        packed_chunk(head)
    } else {
        Ok(0)
    }
}

// The head of a file, if it is accepted.
fn accepted(bytes: Vec<u8>, size: u64) -> Result<Head, Refusal>
    requires { IsWhole bytes.items size }
    ensures { MatchResult result
        (λ head. (first_cause (head_causes bytes.items size) ≡ None)
        × (head ≡ record { bytes = bytes.items; size = size }))
        (λ cause. first_cause (head_causes bytes.items size) ≡ Some cause) }
{
    Head::read(bytes, size)
}

// The offset to the point data, if the front of a file is accepted.
fn offset_of(front: &[u8], size: u64) -> Result<u32, Refusal>
    requires { length front.now ≡ min size HEADER_BLOCK }
    ensures { MatchResult result
        (λ offset. (first_cause (front_causes front.now size) ≡ None) × (offset ≡ point_offset_of front.now))
        (λ cause. first_cause (front_causes front.now size) ≡ Some cause) }
{
    need(front, size)
}

// The numbers of a head with this chunk size.
fn numbers_of(head: &Head, chunk: u32) -> LazHead
    requires { chunk ≡ chunk_or_0 head.now.bytes }
    ensures { result ≡ numbers_of head.now.bytes }
{
    let place = first_place(head);
    LazHead {
        refusal: 0,
        offset: head.offset(),
        points: head.points(),
        chunk,
        vlr_count: head.vlr_count(),
        laszip_start: place.start,
        laszip_length: place.length,
        header_size: head.header_size(),
        record_length: head.record_length(),
        extra: head.extra(),
        minor: head.minor(),
        format: head.format(),
    }
}

// Whether bytes are those of a file before its point data, as far as the first 227 decide.
fn is_whole(bytes: &[u8], size: u64) -> bool
    ensures { IsTrue result ↔ IsWhole bytes.now size }
{
    if bytes.len() < HEADER_BLOCK || size < HEADER_BLOCK as u64 {
        return false;
    }
    let (front, _) = bytes.split_at(HEADER_BLOCK);
    match need(front, size) {
        Ok(offset) => offset as usize == bytes.len(),
        Err(_) => false,
    }
}

// Writes the numbers of a head, or why it is refused.
fn put_head(head: &Head, out: &mut LazHead) -> u32
    ensures answers { (result ≡ DONE) ⊎ (result ≡ BAD) }
    ensures done { result ≡ DONE → (laszip_cause head.now.bytes ≡ None) × (out.new ≡ numbers_of head.now.bytes) }
    ensures refused { result ≡ BAD → IsSomeAnd (laszip_cause head.now.bytes) (λ cause. out.new ≡ refused_as cause) }
{
    match chunk_of(head) {
        Ok(chunk) => {
            *out = numbers_of(head, chunk);
            DONE
        }
        Err(cause) => {
            *out = refused_as(cause);
            BAD
        }
    }
}

// Reads a head.
fn read(bytes: Vec<u8>, size: u64, out: &mut LazHead) -> u32
    requires { IsWhole bytes.items size }
    ensures answers { (result ≡ DONE) ⊎ (result ≡ BAD) }
    ensures done { result ≡ DONE → (head_cause bytes.items size ≡ None) × (out.new ≡ numbers_of bytes.items) }
    ensures refused { result ≡ BAD → IsSomeAnd (head_cause bytes.items size) (λ cause. out.new ≡ refused_as cause) }
{
    match accepted(bytes, size) {
        Ok(head) => put_head(&head, out),
        Err(cause) => {
            *out = refused_as(cause);
            BAD
        }
    }
}

// A copy of bytes.
fn copied(alloc: Global, bytes: &[u8]) -> Result<Vec<u8>, AllocError>
    ensures { IfOk result (λ copy. copy.items ≡ bytes.now) }
{
    let mut copy = Vec::new(alloc);
    copy.extend_from_slice(bytes)?;
    Ok(copy)
}

/// How many bytes at the front of a file its head takes: writes the offset to the point data to `offset`. `front` is the
/// first 227 bytes of the file, or all of them if it has fewer, and `size` the size of the file in bytes.
///
/// `BAD` means that the file is refused, and the number of the cause is written to `refusal`. The other number is 0. No
/// memory is taken.
#[unsafe(no_mangle)]
pub extern "C" fn laz_c_need(front: &[u8], size: u64, offset: &mut u32, refusal: &mut u32) -> u32
    ensures answers { (result ≡ DONE) ⊎ (result ≡ BAD) ⊎ (result ≡ WRONG) }
    ensures wrong { result ≡ WRONG ↔ is_front (length front.now) size ≡ false }
    ensures same { result ≡ WRONG → (offset.new ≡ offset.old) × (refusal.new ≡ refusal.old) }
    ensures accepted { result ≡ DONE → first_cause (front_causes front.now size) ≡ None }
    ensures offset { result ≡ DONE → (offset.new ≡ point_offset_of front.now) × (refusal.new ≡ 0) }
    ensures refused { result ≡ BAD → IsSomeAnd (first_cause (front_causes front.now size))
        (λ cause. (refusal.new ≡ cause_number cause) × (offset.new ≡ 0)) }
{
    if front.len() as u64 != size.min(HEADER_BLOCK as u64) {
        return WRONG;
    }
    match offset_of(front, size) {
        Ok(needed) => {
            *offset = needed;
            *refusal = 0;
            DONE
        }
        Err(cause) => {
            *offset = 0;
            *refusal = u32::from(cause.number());
            BAD
        }
    }
}

/// Reads the head of a file of `size` bytes. `bytes` are those before its point data: as many as [`laz_c_need`] answered
/// for the first 227 of them. Other bytes are wrong arguments.
///
/// `BAD` means that the file is refused: `out` then has the number of the cause, and zeros.
#[unsafe(no_mangle)]
pub extern "C" fn laz_c_head(alloc: Global, bytes: &[u8], size: u64, out: &mut LazHead) -> u32
    ensures answers { result ≤ WRONG }
    ensures taken { result ≢ WRONG → IsWhole bytes.now size }
    ensures wrong { result ≡ WRONG → ¬ IsWhole bytes.now size }
    ensures wrong_same { result ≡ WRONG → out.new ≡ out.old }
    ensures memory_same { result ≡ NO_MEMORY → out.new ≡ out.old }
    ensures done { result ≡ DONE → (head_cause bytes.now size ≡ None) × (out.new ≡ numbers_of bytes.now) }
    ensures refused { result ≡ BAD → IsSomeAnd (head_cause bytes.now size) (λ cause. out.new ≡ refused_as cause) }
{
    if !is_whole(bytes, size) {
        return WRONG;
    }
    match copied(alloc, bytes) {
        Ok(copy) => read(copy, size, out),
        Err(_) => NO_MEMORY,
    }
}
