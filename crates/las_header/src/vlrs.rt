//! Variable-length records (VLRs) by their places.

ghost use Rattle.std.specs.Prelude.{◌≡◌, ◌+◌, ◌<◌, ◌≤◌, ◌^◌, nat_lt, length, slice_get, IfOk};
ghost use Rattle.las_header.specs.Fields.{header_size_of, vlr_count_of};
ghost use Rattle.las_header.specs.Vlrs.{payload_length_at, vlrs_end, vlrs_of, laszip_vlrs_of, is_laszip};

use crate::fields::{header_size, vlr_count};
use crate::limits::{HEADER_BLOCK, LASZIP_RECORD_ID, LASZIP_USER_ID, VLR_HEAD};
use crate::numbers::u16_at;
use std::alloc::{AllocError, Global};

/// Where a VLR stands in a head. Its head of 54 bytes is followed by its payload.
#[derive(Clone, Copy, Debug, PartialEq, Eq)]
pub struct VlrPlace {
    /// The place of the first byte of the VLR's head, from the start of the file.
    pub start: u32,
    /// The length of the payload, in bytes.
    pub length: u16,
}

// The place of the VLR that begins at `at`.
fn place_at(head: &[u8], at: usize) -> VlrPlace
    requires within { at + VLR_HEAD ≤ length head.now }
    requires near { length head.now < 2 ^ 32 }
    ensures start { result.start ≡ at }
    ensures payload { result.length ≡ payload_length_at at head.now }
{
    VlrPlace {
        start: at as u32,
        length: u16_at(head, at + 20),
    }
}

// The place after a VLR.
fn end_of(place: VlrPlace) -> usize
    ensures { result ≡ place.start + VLR_HEAD + place.length }
{
    place.start as usize + VLR_HEAD + usize::from(place.length)
}

// Whether a VLR is a laszip VLR.
fn is_laszip(head: &[u8], place: VlrPlace) -> bool
    requires { place.start + VLR_HEAD ≤ length head.now }
    ensures { result ≡ is_laszip head.now place }
{
    let at = place.start as usize;
    head[at + 2..].starts_with(&LASZIP_USER_ID) && u16_at(head, at + 18) == LASZIP_RECORD_ID
}

/// Whether the VLRs pass the end of the head.
pub fn pass_the_end(head: &[u8]) -> bool
    requires block { HEADER_BLOCK ≤ length head.now }
    requires header { header_size_of head.now ≤ length head.now }
    requires near { length head.now < 2 ^ 32 }
    ensures { result ≡ nat_lt (length head.now) (vlrs_end head.now) }
{
    let count = vlr_count(head);
    let mut at = usize::from(header_size(head));
    'vlrs: for i in 0..count {
        if head.len() - at < VLR_HEAD {
            return true;
        }
        let place = place_at(head, at);
        at = end_of(place);
        if at > head.len() {
            return true;
        }
    }
    false
}

/// The place after the last VLR.
pub fn end_of_vlrs(head: &[u8]) -> usize
    requires block { HEADER_BLOCK ≤ length head.now }
    requires vlrs { vlrs_end head.now ≤ length head.now }
    requires near { length head.now < 2 ^ 32 }
    ensures { result ≡ vlrs_end head.now }
{
    let count = vlr_count(head);
    let mut at = usize::from(header_size(head));
    'vlrs: for i in 0..count {
        let place = place_at(head, at);
        at = end_of(place);
    }
    at
}

/// The place of the first laszip VLR.
pub fn first_laszip(head: &[u8]) -> Option<VlrPlace>
    requires block { HEADER_BLOCK ≤ length head.now }
    requires vlrs { vlrs_end head.now ≤ length head.now }
    requires near { length head.now < 2 ^ 32 }
    ensures { result ≡ slice_get (laszip_vlrs_of head.now) 0 }
{
    let count = vlr_count(head);
    let mut at = usize::from(header_size(head));
    'vlrs: for i in 0..count {
        let place = place_at(head, at);
        if is_laszip(head, place) {
            return Some(place);
        }
        at = end_of(place);
    }
    None
}

/// The number of laszip VLRs.
pub fn count_laszip(head: &[u8]) -> u32
    requires block { HEADER_BLOCK ≤ length head.now }
    requires vlrs { vlrs_end head.now ≤ length head.now }
    requires near { length head.now < 2 ^ 32 }
    ensures { result ≡ length (laszip_vlrs_of head.now) }
{
    let count = vlr_count(head);
    let mut at = usize::from(header_size(head));
    let mut found = 0;
    'vlrs: for i in 0..count {
        let place = place_at(head, at);
        if is_laszip(head, place) {
            found += 1;
        }
        at = end_of(place);
    }
    found
}

/// The places of all VLRs, in order.
pub fn places(alloc: Global, head: &[u8]) -> Result<Vec<VlrPlace>, AllocError>
    requires block { HEADER_BLOCK ≤ length head.now }
    requires vlrs { vlrs_end head.now ≤ length head.now }
    requires near { length head.now < 2 ^ 32 }
    ensures { IfOk result (λ places. places.items ≡ vlrs_of head.now) }
{
    let count = vlr_count(head);
    let mut at = usize::from(header_size(head));
    let mut places = Vec::new(alloc);
    'vlrs: for i in 0..count {
        let place = place_at(head, at);
        places.push(place)?;
        at = end_of(place);
    }
    Ok(places)
}
