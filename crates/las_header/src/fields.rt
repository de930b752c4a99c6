//! The fields of the public header block, read from the bytes of a head.

ghost use Rattle.std.specs.Prelude.{◌≡◌, ◌≤◌, length, true};
ghost use Rattle.las_header.specs.Fields.{header_size_of, least_header_size, minor_of, point_offset_of, vlr_count_of};
ghost use Rattle.las_header.specs.Fields.{is_packed, format_of, format_size, record_length_of, has_long_counts};
ghost use Rattle.las_header.specs.Fields.{short_points_of, long_points_of, points_of};

use crate::limits::{
    COUNTS_AT, HEADER_BLOCK, HEADER_BLOCK_1_3, HEADER_BLOCK_1_4, LONG_COUNTS_AT, POINT_RECORD,
};
use crate::numbers::{u16_at, u32_at, u64_at};

/// The header size.
pub fn header_size(head: &[u8]) -> u16
    requires { HEADER_BLOCK ≤ length head.now }
    ensures { result ≡ header_size_of head.now }
{
    u16_at(head, 94)
}

/// The least header size of the head's minor version.
pub fn least_header_size(head: &[u8]) -> usize
    requires { HEADER_BLOCK ≤ length head.now }
    ensures { result ≡ least_header_size (minor_of head.now) }
{
    if head[25] < 3 {
        HEADER_BLOCK
    } else if head[25] == 3 {
        HEADER_BLOCK_1_3
    } else {
        HEADER_BLOCK_1_4
    }
}

/// The offset to the point data.
pub fn point_offset(head: &[u8]) -> u32
    requires { HEADER_BLOCK ≤ length head.now }
    ensures { result ≡ point_offset_of head.now }
{
    u32_at(head, 96)
}

/// The number of VLRs.
pub fn vlr_count(head: &[u8]) -> u32
    requires { HEADER_BLOCK ≤ length head.now }
    ensures { result ≡ vlr_count_of head.now }
{
    u32_at(head, 100)
}

/// Whether bit 7 of the point data format byte is set.
pub fn is_packed(head: &[u8]) -> bool
    requires { HEADER_BLOCK ≤ length head.now }
    ensures { result ≡ is_packed head.now }
{
    head[104] >= 128
}

/// The point data format: the low seven bits of its byte.
pub fn format(head: &[u8]) -> u8
    requires { HEADER_BLOCK ≤ length head.now }
    ensures { result ≡ format_of head.now }
{
    head[104] % 128
}

/// The record length.
pub fn record_length(head: &[u8]) -> u16
    requires { HEADER_BLOCK ≤ length head.now }
    ensures { result ≡ record_length_of head.now }
{
    u16_at(head, 105)
}

/// Whether the head has the counts of LAS 1.4.
pub fn has_long_counts(head: &[u8]) -> bool
    requires { HEADER_BLOCK ≤ length head.now }
    ensures { result ≡ has_long_counts head.now }
{
    head[25] == 4
}

/// The number of points at byte 107.
pub fn short_points(head: &[u8]) -> u32
    requires { HEADER_BLOCK ≤ length head.now }
    ensures { result ≡ short_points_of head.now }
{
    u32_at(head, COUNTS_AT)
}

/// The number of points at byte 247.
pub fn long_points(head: &[u8]) -> u64
    requires { HEADER_BLOCK_1_4 ≤ length head.now }
    ensures { result ≡ long_points_of head.now }
{
    u64_at(head, LONG_COUNTS_AT)
}

/// The number of points: that at byte 107, or for LAS 1.4 that at byte 247 if the other is 0.
pub fn points(head: &[u8]) -> u64
    requires block { HEADER_BLOCK ≤ length head.now }
    requires long { has_long_counts head.now ≡ true → HEADER_BLOCK_1_4 ≤ length head.now }
    ensures { result ≡ points_of head.now }
{
    let short = short_points(head);
    if has_long_counts(head) && short == 0 {
        long_points(head)
    } else {
        u64::from(short)
    }
}

/// The size of a point record of a format, in bytes, before any extra bytes: 20, 28, 26 or 34 for the formats 0 to 3.
pub fn size_of(format: u8) -> u16
    requires { format ≤ 127 }
    ensures { result ≡ format_size format }
{
    POINT_RECORD as u16 + 8 * u16::from(format % 2) + 6 * u16::from(format / 2)
}
