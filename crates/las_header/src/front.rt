//! What the first bytes of a file decide.

ghost use Rattle.std.specs.Prelude.{◌≡◌, ◌≤◌, min, length, Some, None, OnOk, IfOk};
ghost use Rattle.las_header.specs.Fields.{point_offset_of};
ghost use Rattle.las_header.specs.Refusals.{first_cause, front_causes, lacks_signature, has_other_version};
ghost use Rattle.las_header.specs.Refusals.{has_short_header, has_bad_offset};

use crate::fields::{header_size, is_packed, least_header_size, point_offset};
use crate::limits::{HEADER_BLOCK, LAST_MINOR, MAX_OFFSET, MAX_PLAIN_OFFSET};
use crate::refusal::Refusal;

/// How many bytes at the front of a file its head takes: the offset to the point data, from 227 to 2^24. `front` is
/// the first 227 bytes of the file, or all of them if it has fewer, and `size` the size of the file in bytes.
///
/// The file is refused as `Short`, `Magic`, `Version`, `HeaderSize` or `Offset`, by the first of these whose condition
/// holds. No memory is taken.
pub fn need(front: &[u8], size: u64) -> Result<u32, Refusal>
    requires { length front.now ≡ min size HEADER_BLOCK }
    ensures accepted { OnOk result (first_cause (front_causes front.now size) ≡ None) }
    ensures bounds { IfOk result (λ offset. (HEADER_BLOCK ≤ offset) × (offset ≤ size) × (offset ≤ MAX_OFFSET)) }
    ensures offset { first_cause (front_causes front.now size) ≡ None → result ≡ Ok (point_offset_of front.now) }
    ensures refused { (cause : Refusal) → first_cause (front_causes front.now size) ≡ Some cause → result ≡ Err cause }
{
    if size < HEADER_BLOCK as u64 {
        return Err(Refusal::Short);
    }
    if lacks_signature(front) {
        return Err(Refusal::Magic);
    }
    if has_other_version(front) {
        return Err(Refusal::Version);
    }
    if has_short_header(front) {
        return Err(Refusal::HeaderSize);
    }
    if has_bad_offset(front, size) {
        return Err(Refusal::Offset);
    }
    Ok(point_offset(front))
}

// Whether the file signature is another than `LASF`.
fn lacks_signature(front: &[u8]) -> bool
    requires { HEADER_BLOCK ≤ length front.now }
    ensures { result ≡ lacks_signature front.now }
{
    !front.starts_with(b"LASF")
}

// Whether the version is another than 1.0 to 1.4.
fn has_other_version(front: &[u8]) -> bool
    requires { HEADER_BLOCK ≤ length front.now }
    ensures { result ≡ has_other_version front.now }
{
    front[24] != 1 || front[25] > LAST_MINOR
}

// Whether the header size is below the length of the version's public header block.
fn has_short_header(front: &[u8]) -> bool
    requires { HEADER_BLOCK ≤ length front.now }
    ensures { result ≡ has_short_header front.now }
{
    usize::from(header_size(front)) < least_header_size(front)
}

// Whether the offset to the point data is below the header size, above the size of the file, or above its limit.
fn has_bad_offset(front: &[u8], size: u64) -> bool
    requires { HEADER_BLOCK ≤ length front.now }
    ensures { result ≡ has_bad_offset front.now size }
{
    let limit = if is_packed(front) {
        MAX_OFFSET
    } else {
        MAX_PLAIN_OFFSET
    };
    let offset = point_offset(front);
    offset < u32::from(header_size(front)) || size < u64::from(offset) || limit < offset
}
