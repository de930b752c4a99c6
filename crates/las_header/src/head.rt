//! The head of a file.

ghost use Rattle.std.specs.Prelude.{◌≡◌, ◌≤◌, ◌+◌, ◌-◌, length, take, true, if◌then◌else◌, Some, None, IfOk, []};
ghost use Rattle.std.specs.Prelude.{slice_get, vec_len, false};
ghost use Rattle.std.specs.List.{splice};
ghost use Rattle.las_header.specs.Counting.{with_count_bytes, with_counts, with_sums};
ghost use Rattle.las_header.specs.Heads.{IsHead, HeadView, KeepsLayout, SameRecords};
ghost use Rattle.las_header.specs.Fields.{minor_of, header_size_of, point_offset_of, vlr_count_of, is_packed};
ghost use Rattle.las_header.specs.Fields.{format_of, record_length_of, format_size, points_of, returns_of};
ghost use Rattle.las_header.specs.Fields.{has_long_counts, long_returns_of};
ghost use Rattle.las_header.specs.Vlrs.{vlrs_of, vlrs_end, laszip_vlrs_of, HasOneVlr};
ghost use Rattle.las_header.specs.Plain.{with_vlr, plain_of};
ghost use Rattle.las_header.specs.Refusals.{first_cause, front_causes, head_causes};

use crate::changes::{self, put};
use crate::conditions::head_cause;
use crate::counts::{Counts, long_bytes, short_bytes};
use crate::fields;
use crate::limits::{
    COUNTS_AT, HEADER_BLOCK, HEADER_BLOCK_1_4, LAST_FORMAT, LONG_COUNTS_AT, MAX_EXTRA,
    MAX_LASZIP_PAYLOAD, VLR_HEAD,
};
use crate::numbers::{u32_at, u64_at};
use crate::refusal::Refusal;
use crate::vlrs::{self, VlrPlace};
use std::alloc::{AllocError, Global};
use std::marker::Model;

/// The bytes of a file before its point data, and the size of the file.
#[derive(Drop)]
pub struct Head {
    bytes: Vec<u8>,
    size: u64,
}

impl Model for Head {
    ghost use Rattle.las_header.specs.Heads.{HeadView, IsHead};

    ghost Value = { HeadView };

    ghost view = { λ h. record { bytes = h.bytes.items; size = h.size } };

    ghost invariant = { λ h. IsHead h.bytes.items };
}

impl Head {
    /// Takes the bytes before the point data, `bytes`, of a file of `size` bytes. They are as many as
    /// [`need`](crate::need) answered for the first 227 of them.
    ///
    /// The file is refused as `Vlrs`, `Format`, `RecordLength`, `Extended`, `PointCounts`, `Count`, `Trailing` or
    /// `StrayVlr`, by the first of these in this order whose condition holds. The bytes are dropped then. No memory is
    /// taken.
    pub fn read(bytes: Vec<u8>, size: u64) -> Result<Head, Refusal>
        requires accepted { first_cause (front_causes (take HEADER_BLOCK bytes.items) size) ≡ None }
        requires whole { point_offset_of (take HEADER_BLOCK bytes.items) ≡ length bytes.items }
        ensures head { first_cause (head_causes bytes.items size) ≡ None
            → result ≡ Ok (record { bytes = bytes.items; size = size }) }
        ensures refused { (cause : Refusal) → first_cause (head_causes bytes.items size) ≡ Some cause
            → result ≡ Err cause }
    {
        match head_cause(&bytes, size) {
            Some(cause) => Err(cause),
            None => Ok(Head { bytes, size }),
        }
    }

    /// The minor version: 0 to 4.
    pub fn minor(&self) -> u8
        ensures { result ≡ minor_of self.now.bytes }
    {
        self.bytes[25]
    }

    /// The header size, in bytes: at least 227, 235 for LAS 1.3 and 375 for LAS 1.4.
    pub fn header_size(&self) -> u16
        ensures { result ≡ header_size_of self.now.bytes }
    {
        fields::header_size(&self.bytes)
    }

    /// The offset to the point data: how many bytes the head has.
    pub fn offset(&self) -> u32
        ensures field { result ≡ point_offset_of self.now.bytes }
        ensures whole { result ≡ length self.now.bytes }
    {
        fields::point_offset(&self.bytes)
    }

    /// The number of VLRs.
    pub fn vlr_count(&self) -> u32
        ensures { result ≡ vlr_count_of self.now.bytes }
    {
        fields::vlr_count(&self.bytes)
    }

    /// Whether the points are packed.
    pub fn packed(&self) -> bool
        ensures { result ≡ is_packed self.now.bytes }
    {
        fields::is_packed(&self.bytes)
    }

    /// The point data format, 0 to 3, without the bit for packed points.
    pub fn format(&self) -> u8
        ensures field { result ≡ format_of self.now.bytes }
        ensures known { result ≤ LAST_FORMAT }
    {
        fields::format(&self.bytes)
    }

    /// The length of a point record, in bytes.
    pub fn record_length(&self) -> u16
        ensures field { result ≡ record_length_of self.now.bytes }
        ensures enough { format_size (format_of self.now.bytes) ≤ result }
        ensures most { result ≤ format_size (format_of self.now.bytes) + MAX_EXTRA }
    {
        fields::record_length(&self.bytes)
    }

    /// The extra bytes of a point record, 0 to 192: those after the bytes of its format.
    pub fn extra(&self) -> u16
        ensures field { result ≡ record_length_of self.now.bytes - format_size (format_of self.now.bytes) }
        ensures known { result ≤ MAX_EXTRA }
    {
        self.record_length() - fields::size_of(self.format())
    }

    /// The number of point records: the one at byte 107, or for LAS 1.4, if that is 0, the one at byte 247.
    pub fn points(&self) -> u32
        ensures { result ≡ points_of self.now.bytes }
    {
        fields::points(&self.bytes) as u32
    }

    /// The numbers of point records of the returns 1 to 5, at byte 111.
    pub fn returns(&self) -> [u32; 5]
        ensures { result ≡ returns_of self.now.bytes }
    {
        [
            u32_at(&self.bytes, 111),
            u32_at(&self.bytes, 115),
            u32_at(&self.bytes, 119),
            u32_at(&self.bytes, 123),
            u32_at(&self.bytes, 127),
        ]
    }

    /// The numbers of point records of the returns 1 to 15, at byte 255. It is `None` exactly if the minor version is
    /// not 4.
    pub fn long_returns(&self) -> Option<[u64; 15]>
        ensures { result ≡ (if has_long_counts self.now.bytes then Some (long_returns_of self.now.bytes) else None) }
    {
        if !fields::has_long_counts(&self.bytes) {
            return None;
        }
        Some(long_returns(&self.bytes))
    }

    /// All bytes of the head.
    pub fn bytes(&self) -> &[u8]
        ensures bytes { result.now ≡ self.now.bytes }
        ensures head { IsHead self.now.bytes }
    {
        &self.bytes
    }

    /// The first laszip VLR: `None` exactly if there is none. No memory is taken.
    pub fn laszip_vlr(&self) -> Option<VlrPlace>
        ensures { result ≡ slice_get (laszip_vlrs_of self.now.bytes) 0 }
    {
        vlrs::first_laszip(&self.bytes)
    }

    /// The number of laszip VLRs. No memory is taken.
    pub fn laszip_count(&self) -> u32
        ensures { result ≡ length (laszip_vlrs_of self.now.bytes) }
    {
        vlrs::count_laszip(&self.bytes)
    }

    /// The places of all VLRs, in order.
    pub fn vlrs(&self, alloc: Global) -> Result<Vec<VlrPlace>, AllocError>
        ensures { IfOk result (λ places. places.items ≡ vlrs_of self.now.bytes) }
    {
        vlrs::places(alloc, &self.bytes)
    }

    /// The head of the packed file that has this plain one as its plain head: a laszip VLR with this payload, of at
    /// most 58 bytes, after all other VLRs, one VLR more, a larger offset, and bit 7 of the format byte set. All other
    /// bytes stay, those between the last VLR and the point data included. The head is plain and has no laszip VLR.
    pub fn with_vlr(&self, alloc: Global, payload: &[u8]) -> Result<Head, AllocError>
        requires plain { is_packed self.now.bytes ≡ false }
        requires none { laszip_vlrs_of self.now.bytes ≡ [] }
        requires short { length payload.now ≤ MAX_LASZIP_PAYLOAD }
        ensures bytes { IfOk result (λ head. head.bytes ≡ with_vlr payload.now self.now.bytes) }
        ensures back { IfOk result (λ head. plain_of head.bytes ≡ self.now.bytes) }
        ensures packed { IfOk result (λ head. is_packed head.bytes ≡ true) }
        ensures len { IfOk result
            (λ head. length head.bytes ≡ length self.now.bytes + (VLR_HEAD + length payload.now)) }
        ensures records { IfOk result (λ head. SameRecords self.now.bytes head.bytes) }
        ensures points { IfOk result (λ head. points_of head.bytes ≡ points_of self.now.bytes) }
        ensures laszip { IfOk result (λ head. HasOneVlr (vlrs_end self.now.bytes) (length payload.now) head.bytes) }
        ensures size { IfOk result (λ head. head.size ≡ self.now.size) }
    {
        let bytes = changes::with_vlr(alloc, &self.bytes, payload)?;
        Ok(Head {
            bytes,
            size: self.size,
        })
    }

    /// The plain head: without its laszip VLR, one VLR fewer, a smaller offset, and bit 7 of the format byte clear. All
    /// other bytes stay. The head is packed and has exactly one laszip VLR.
    pub fn without_vlr(&self, alloc: Global) -> Result<Head, AllocError>
        requires packed { is_packed self.now.bytes ≡ true }
        requires one { length (laszip_vlrs_of self.now.bytes) ≡ 1 }
        ensures bytes { IfOk result (λ head. head.bytes ≡ plain_of self.now.bytes) }
        ensures plain { IfOk result (λ head. is_packed head.bytes ≡ false) }
        ensures records { IfOk result (λ head. SameRecords self.now.bytes head.bytes) }
        ensures points { IfOk result (λ head. points_of head.bytes ≡ points_of self.now.bytes) }
        ensures none { IfOk result (λ head. laszip_vlrs_of head.bytes ≡ []) }
        ensures size { IfOk result (λ head. head.size ≡ self.now.size) }
    {
        let bytes = changes::without_vlr(alloc, &self.bytes)?;
        Ok(Head {
            bytes,
            size: self.size,
        })
    }

    /// The head with these counts in place of its own: the 24 bytes at 107, and for LAS 1.4 the 128 bytes at 247 too.
    /// All other bytes stay. No memory is taken.
    pub fn with_counts(self, counts: Counts) -> Head
        ensures bytes { result.bytes ≡ with_counts counts self.bytes }
        ensures points { points_of result.bytes ≡ counts.points }
        ensures kept { KeepsLayout self.bytes result.bytes }
        ensures size { result.size ≡ self.size }
    {
        let [first, second, third, fourth, fifth, _, _] = counts.returns;
        self.with_sums(
            counts.points,
            [first, second, third, fourth, fifth],
            counts.long_returns(),
        )
    }

    /// The head with this number of points at 107 and these numbers of points of the returns 1 to 5 at 111, and for LAS
    /// 1.4 the same number of points at 247 and the numbers of the returns 1 to 15 at 255 too. All other bytes stay. No
    /// memory is taken.
    pub fn with_sums(self, points: u32, returns: [u32; 5], long_returns: [u64; 15]) -> Head
        ensures bytes { result.bytes ≡ with_sums points returns long_returns self.bytes }
        ensures points { points_of result.bytes ≡ points }
        ensures kept { KeepsLayout self.bytes result.bytes }
        ensures size { result.size ≡ self.size }
    {
        let mut head = self;
        let short = short_bytes(points, returns);
        let long = long_bytes(points, long_returns);
        put_sums(&mut head.bytes, &short, &long);
        head
    }
}

// Writes both sets of counts, as far as the head has them.
fn put_sums(head: &mut Vec<u8>, short: &[u8], long: &[u8])
    requires block { HEADER_BLOCK ≤ vec_len head.old }
    requires long_block { has_long_counts head.old.items ≡ true → HEADER_BLOCK_1_4 ≤ vec_len head.old }
    requires short_size { length short.now ≡ 24 }
    requires long_size { length long.now ≡ 128 }
    ensures { head.new.items ≡ with_count_bytes short.now long.now head.old.items }
{
    let has_long = fields::has_long_counts(head);
    put(head, COUNTS_AT, short);
    if has_long {
        put(head, LONG_COUNTS_AT, long);
    }
}

// The fifteen numbers at byte 255.
fn long_returns(head: &[u8]) -> [u64; 15]
    requires { 375 ≤ length head.now }
    ensures { result ≡ long_returns_of head.now }
{
    [
        u64_at(head, 255),
        u64_at(head, 263),
        u64_at(head, 271),
        u64_at(head, 279),
        u64_at(head, 287),
        u64_at(head, 295),
        u64_at(head, 303),
        u64_at(head, 311),
        u64_at(head, 319),
        u64_at(head, 327),
        u64_at(head, 335),
        u64_at(head, 343),
        u64_at(head, 351),
        u64_at(head, 359),
        u64_at(head, 367),
    ]
}
