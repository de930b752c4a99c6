//! The conditions that the bytes before the point data decide.

ghost use Rattle.std.specs.Prelude.{◌≡◌, ◌≤◌, ◌<◌, ◌^◌, length, true, None};
ghost use Rattle.las_header.specs.Fields.{header_size_of, least_header_size, minor_of, point_offset_of, points_of};
ghost use Rattle.las_header.specs.Fields.{has_long_counts, format_of};
ghost use Rattle.las_header.specs.Vlrs.{vlrs_end};
ghost use Rattle.las_header.specs.Refusals.{first_cause, head_causes, has_long_vlrs, has_other_format};
ghost use Rattle.las_header.specs.Refusals.{has_bad_record_length, has_extended_vlrs, has_bad_counts, counted_size};
ghost use Rattle.las_header.specs.Refusals.{ends_early, goes_on, has_stray_vlr};

use crate::fields::{
    format, has_long_counts, is_packed, long_points, point_offset, points, record_length,
    short_points, size_of,
};
use crate::limits::{HEADER_BLOCK, HEADER_BLOCK_1_4, LAST_FORMAT, MAX_EXTRA};
use crate::numbers::u32_at;
use crate::refusal::Refusal;
use crate::vlrs::{first_laszip, pass_the_end};

/// The first cause of a head whose condition holds.
pub fn head_cause(head: &[u8], size: u64) -> Option<Refusal>
    requires block { HEADER_BLOCK ≤ length head.now }
    requires long { has_long_counts head.now ≡ true → HEADER_BLOCK_1_4 ≤ length head.now }
    requires header { header_size_of head.now ≤ length head.now }
    requires whole { point_offset_of head.now ≡ length head.now }
    requires within { point_offset_of head.now ≤ size }
    requires near { length head.now < 2 ^ 32 }
    ensures cause { result ≡ first_cause (head_causes head.now size) }
    ensures points { result ≡ None → points_of head.now < 2 ^ 32 }
{
    if pass_the_end(head) {
        return Some(Refusal::Vlrs);
    }
    if has_other_format(head) {
        return Some(Refusal::Format);
    }
    if has_bad_record_length(head) {
        return Some(Refusal::RecordLength);
    }
    if has_extended_vlrs(head) {
        return Some(Refusal::Extended);
    }
    if has_bad_counts(head) {
        return Some(Refusal::PointCounts);
    }
    if ends_early(head, size) {
        return Some(Refusal::Count);
    }
    if goes_on(head, size) {
        return Some(Refusal::Trailing);
    }
    if has_stray_vlr(head) {
        return Some(Refusal::StrayVlr);
    }
    None
}

// Whether the point data format is above 3.
fn has_other_format(head: &[u8]) -> bool
    requires { HEADER_BLOCK ≤ length head.now }
    ensures { result ≡ has_other_format head.now }
{
    format(head) > LAST_FORMAT
}

// Whether the record length is below the size of the format, or above that size plus 192.
fn has_bad_record_length(head: &[u8]) -> bool
    requires { HEADER_BLOCK ≤ length head.now }
    ensures { result ≡ has_bad_record_length head.now }
{
    let least = size_of(format(head));
    let length = record_length(head);
    length < least || least + MAX_EXTRA < length
}

// Whether there are extended VLRs.
fn has_extended_vlrs(head: &[u8]) -> bool
    requires block { HEADER_BLOCK ≤ length head.now }
    requires long { has_long_counts head.now ≡ true → HEADER_BLOCK_1_4 ≤ length head.now }
    ensures { result ≡ has_extended_vlrs head.now }
{
    has_long_counts(head) && u32_at(head, 243) != 0
}

// Whether the number of points is 2^32 or more, or is there twice and differs.
fn has_bad_counts(head: &[u8]) -> bool
    requires block { HEADER_BLOCK ≤ length head.now }
    requires long { has_long_counts head.now ≡ true → HEADER_BLOCK_1_4 ≤ length head.now }
    ensures { result ≡ has_bad_counts head.now }
{
    if !has_long_counts(head) {
        return false;
    }
    let short = u64::from(short_points(head));
    let long = long_points(head);
    long > u64::from(u32::MAX) || (short != 0 && long != 0 && short != long)
}

// How many bytes the point records take that the head counts.
fn counted_size(head: &[u8]) -> u64
    requires block { HEADER_BLOCK ≤ length head.now }
    requires long { has_long_counts head.now ≡ true → HEADER_BLOCK_1_4 ≤ length head.now }
    requires points { points_of head.now < 2 ^ 32 }
    ensures { result ≡ counted_size head.now }
{
    u64::from(record_length(head)) * points(head)
}

// Whether a plain file ends before its last point record.
fn ends_early(head: &[u8], size: u64) -> bool
    requires block { HEADER_BLOCK ≤ length head.now }
    requires long { has_long_counts head.now ≡ true → HEADER_BLOCK_1_4 ≤ length head.now }
    requires within { point_offset_of head.now ≤ size }
    requires points { points_of head.now < 2 ^ 32 }
    ensures { result ≡ ends_early head.now size }
{
    !is_packed(head) && size - u64::from(point_offset(head)) < counted_size(head)
}

// Whether a plain file goes on after its last point record.
fn goes_on(head: &[u8], size: u64) -> bool
    requires block { HEADER_BLOCK ≤ length head.now }
    requires long { has_long_counts head.now ≡ true → HEADER_BLOCK_1_4 ≤ length head.now }
    requires within { point_offset_of head.now ≤ size }
    requires points { points_of head.now < 2 ^ 32 }
    ensures { result ≡ goes_on head.now size }
{
    !is_packed(head) && counted_size(head) < size - u64::from(point_offset(head))
}

// Whether a plain file has a laszip VLR.
fn has_stray_vlr(head: &[u8]) -> bool
    requires block { HEADER_BLOCK ≤ length head.now }
    requires vlrs { vlrs_end head.now ≤ length head.now }
    requires near { length head.now < 2 ^ 32 }
    ensures { result ≡ has_stray_vlr head.now }
{
    !is_packed(head) && first_laszip(head).is_some()
}
