//! The fields in which the heads of inputs are compared.
ghost use Rattle.std.specs.Prelude.{◌≡◌, ◌+◌, ◌≤◌, length};
ghost use Rattle.std.specs.Str.{bytes_eq};
ghost use Rattle.las_merge.specs.Fields.{field_bytes, first_difference, is_same};

use las_header::{BOUNDS_AT, Head, OFFSETS_AT, SCALES_AT};

/// What the heads of files that are merged have in common.
#[derive(Clone, Copy, Debug, PartialEq, Eq)]
pub enum Field {
    /// The point data format, without the bit for packed points.
    Format,
    /// The length of a point record.
    Length,
    /// The scales of x, y and z.
    Scales,
    /// The offsets of x, y and z.
    Offsets,
    /// The box: the greatest and the least x, y and z.
    Bounds,
}

// How long the scales and the offsets are, each, and the box.
const THREE_DOUBLES: usize = 24;

const SIX_DOUBLES: usize = 48;

// Whether two heads have the same bytes from a place on.
fn same_bytes(head: &[u8], other: &[u8], place: usize, size: usize) -> bool
    requires small { place + size ≤ 227 }
    requires head { 227 ≤ length head.now }
    requires other { 227 ≤ length other.now }
    ensures { result ≡ bytes_eq (field_bytes place size head.now) (field_bytes place size other.now) }
{
    head[place..place + size] == other[place..place + size]
}

// Whether two heads have the same in a field.
fn is_same(field: Field, head: &Head, other: &Head) -> bool
    ensures { result ≡ is_same field head.now.bytes other.now.bytes }
{
    let (bytes, others) = (head.bytes(), other.bytes());
    match field {
        Field::Format => head.format() == other.format(),
        Field::Length => head.record_length() == other.record_length(),
        Field::Scales => same_bytes(bytes, others, SCALES_AT, THREE_DOUBLES),
        Field::Offsets => same_bytes(bytes, others, OFFSETS_AT, THREE_DOUBLES),
        Field::Bounds => same_bytes(bytes, others, BOUNDS_AT, SIX_DOUBLES),
    }
}

/// The first field in which two heads differ.
pub(crate) fn first_difference(head: &Head, other: &Head) -> Option<Field>
    ensures { result ≡ first_difference head.now.bytes other.now.bytes }
{
    if !is_same(Field::Format, head, other) {
        return Some(Field::Format);
    }
    if !is_same(Field::Length, head, other) {
        return Some(Field::Length);
    }
    if !is_same(Field::Scales, head, other) {
        return Some(Field::Scales);
    }
    if !is_same(Field::Offsets, head, other) {
        return Some(Field::Offsets);
    }
    if !is_same(Field::Bounds, head, other) {
        return Some(Field::Bounds);
    }
    None
}
