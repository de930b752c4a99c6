//! The bytes of heads that are changed.

ghost use Rattle.std.specs.Prelude.{◌≡◌, ◌+◌, ◌<◌, ◌≤◌, ◌^◌, length, vec_len, slice_get, IfOk, IsSomeAnd, true, false};
ghost use Rattle.std.specs.Prelude.{[]};
ghost use Rattle.std.specs.List.{splice};
ghost use Rattle.las_header.specs.Fields.{is_packed, vlr_count_of};
ghost use Rattle.las_header.specs.Vlrs.{laszip_vlrs_of, vlr_size};
ghost use Rattle.las_header.specs.Heads.{IsHead, PacksHead, IsPlainOf};
ghost use Rattle.las_header.specs.Plain.{laszip_vlr, with_layout};

use crate::fields::{format, point_offset, vlr_count};
use crate::limits::{
    HEADER_BLOCK, LASZIP_DESCRIPTION, LASZIP_RECORD_ID, LASZIP_USER_ID, MAX_LASZIP_PAYLOAD,
    VLR_HEAD,
};
use crate::vlrs::{end_of_vlrs, first_laszip};
use std::alloc::{AllocError, Global};

/// Writes bytes over those from `at` on.
pub fn put(head: &mut Vec<u8>, at: usize, bytes: &[u8])
    requires { at + length bytes.now ≤ vec_len head.old }
    ensures bytes { head.new.items ≡ splice head.old.items at (at + length bytes.now) bytes.now }
    ensures len { vec_len head.new ≡ vec_len head.old }
{
    head[at..at + bytes.len()].copy_from_slice(bytes);
}

// The bytes with those from `from` to `to` replaced by others.
fn replaced(
    alloc: Global,
    bytes: &[u8],
    from: usize,
    to: usize,
    piece: &[u8],
) -> Result<Vec<u8>, AllocError>
    requires order { from ≤ to }
    requires within { to ≤ length bytes.now }
    ensures { IfOk result (λ v. v.items ≡ splice bytes.now from to piece.now) }
{
    let mut all = Vec::new(alloc);
    all.extend_from_slice(&bytes[..from])?;
    all.extend_from_slice(piece)?;
    all.extend_from_slice(&bytes[to..])?;
    Ok(all)
}

// Sets the offset to the point data, the number of VLRs and the format byte.
fn set_layout(head: &mut Vec<u8>, offset: u32, count: u32, format: u8)
    requires { HEADER_BLOCK ≤ vec_len head.old }
    ensures { head.new.items ≡ with_layout offset count format head.old.items }
{
    let [a, b, c, d] = offset.to_le_bytes();
    let [e, f, g, h] = count.to_le_bytes();
    put(head, 96, &[a, b, c, d, e, f, g, h, format]);
}

// A laszip VLR with a payload.
fn laszip_vlr(alloc: Global, payload: &[u8]) -> Result<Vec<u8>, AllocError>
    requires { length payload.now ≤ MAX_LASZIP_PAYLOAD }
    ensures { IfOk result (λ v. v.items ≡ laszip_vlr payload.now) }
{
    let mut vlr = Vec::new(alloc);
    vlr.extend_from_slice(&[0, 0])?;
    vlr.extend_from_slice(&LASZIP_USER_ID)?;
    vlr.extend_from_slice(&LASZIP_RECORD_ID.to_le_bytes())?;
    vlr.extend_from_slice(&(payload.len() as u16).to_le_bytes())?;
    vlr.extend_from_slice(&LASZIP_DESCRIPTION)?;
    vlr.extend_from_slice(payload)?;
    Ok(vlr)
}

/// A plain head without a laszip VLR, as that of a packed file, with a laszip VLR after all others.
pub fn with_vlr(alloc: Global, head: &[u8], payload: &[u8]) -> Result<Vec<u8>, AllocError>
    requires head { IsHead head.now }
    requires plain { is_packed head.now ≡ false }
    requires none { laszip_vlrs_of head.now ≡ [] }
    requires short { length payload.now ≤ MAX_LASZIP_PAYLOAD }
    ensures { IfOk result (λ v. PacksHead payload.now head.now v.items) }
{
    let end = end_of_vlrs(head);
    let vlr = laszip_vlr(alloc, payload)?;
    let mut bytes = replaced(alloc, head, end, end, &vlr)?;
    let size = VLR_HEAD + payload.len();
    set_layout(
        &mut bytes,
        point_offset(head) + size as u32,
        vlr_count(head) + 1,
        format(head) + 128,
    );
    Ok(bytes)
}

/// A packed head with exactly one laszip VLR, as that of a plain file, without this VLR.
pub fn without_vlr(alloc: Global, head: &[u8]) -> Result<Vec<u8>, AllocError>
    requires head { IsHead head.now }
    requires packed { is_packed head.now ≡ true }
    requires one { length (laszip_vlrs_of head.now) ≡ 1 }
    ensures { IfOk result (λ v. IsPlainOf head.now v.items) }
{
    let (start, size) = laszip_bounds(head);
    let mut bytes = replaced(alloc, head, start, start + size, &[])?;
    set_layout(
        &mut bytes,
        point_offset(head) - size as u32,
        vlr_count(head) - 1,
        format(head),
    );
    Ok(bytes)
}

// Where the laszip VLR of a head begins, and how many bytes it takes.
fn laszip_bounds(head: &[u8]) -> (usize, usize)
    requires head { IsHead head.now }
    requires one { length (laszip_vlrs_of head.now) ≡ 1 }
    ensures first { IsSomeAnd (slice_get (laszip_vlrs_of head.now) 0)
        (λ place. (result.0 ≡ place.start) × (result.1 ≡ vlr_size place)) }
    ensures block { HEADER_BLOCK ≤ result.0 }
    ensures within { result.0 + result.1 ≤ length head.now }
    ensures count { 0 < vlr_count_of head.now }
{
    match first_laszip(head) {
        Some(place) => (place.start as usize, VLR_HEAD + usize::from(place.length)),
        None => (0, 0),
    }
}
