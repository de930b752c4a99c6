//! The symbol whose part holds the value, by products in place of a division.
ghost use Rattle.std.specs.Prelude.{◌≡◌, ◌+◌, ◌*◌, ◌/◌, ◌<◌, ◌≤◌, min, nat_le, if◌then◌else◌};
ghost use Rattle.laz_range.specs.Cut.{Bit, Part, start_in, width_in};
ghost use Rattle.laz_range.specs.declared.limits.TheConstants.{GUARD};
ghost use Rattle.laz_range.specs.Search.{AreTwo, part_of_two};

use crate::limits::{BIT_PARTS, MIN_LENGTH, SYMBOL_PARTS};

/// A number of parts, as a length.
#[inline(always)]
pub fn parts(count: u32, unit: u32) -> u64
    ensures { result ≡ count * unit }
{
    count as u64 * unit as u64
}

/// One of two lengths.
#[inline(always)]
fn choose(second: bool, yes: u64, no: u64) -> u64
    ensures { result ≡ if second then yes else no }
{
    if second { yes } else { no }
}

/// Where the part of a bit begins, and how long it is.
// Both are chosen. A branch would be mispredicted.
#[inline(always)]
pub fn bit_part(p0: u32, len: u32, bit: bool) -> (u32, u32)
    requires some { 0 < p0 }
    requires part { p0 < BIT_PARTS }
    requires long { MIN_LENGTH ≤ len }
    ensures from { result.0 ≡ start_in len (Bit p0 bit) }
    ensures width { result.1 ≡ width_in len (Bit p0 bit) }
    ensures some { 0 < result.1 }
    ensures within { result.0 + result.1 ≤ len }
{
    let split = p0 * (len >> 13);
    if bit {
        (split, len - split)
    } else {
        (0, split)
    }
}

/// Where the part of a symbol begins, and how long it is. A part that ends with the interval ends at a guard.
#[inline(always)]
pub fn part_to(start: u32, next: u32, len: u32) -> (u32, u32)
    requires start { start < SYMBOL_PARTS }
    requires order { start < next }
    requires guard { SYMBOL_PARTS ≤ next → GUARD ≤ next }
    requires long { MIN_LENGTH ≤ len }
    ensures from { result.0 ≡ start_in len (Part start (min next SYMBOL_PARTS)) }
    ensures width { result.1 ≡ width_in len (Part start (min next SYMBOL_PARTS)) }
    ensures some { 0 < result.1 }
    ensures within { result.0 + result.1 ≤ len }
{
    let unit = len >> 15;
    let from = parts(start, unit);
    let end = parts(next, unit).min(len as u64);
    (from as u32, (end - from) as u32)
}

/// Whether the value lies in the second of two parts, where its part begins, and how long that is.
// The values are chosen. A branch would be mispredicted.
#[inline(always)]
pub fn either(start: u32, next: u32, after: u32, len: u32, value: u32) -> (bool, u32, u32)
    requires two { AreTwo start next after }
    requires above { start ≤ value / (len / SYMBOL_PARTS) }
    requires below { value / (len / SYMBOL_PARTS) < after }
    requires value { value < len }
    requires long { MIN_LENGTH ≤ len }
    ensures second { result.0 ≡ nat_le next (value / (len / SYMBOL_PARTS)) }
    ensures from { result.1 ≡ start_in len (part_of_two start next after result.0) }
    ensures width { result.2 ≡ width_in len (part_of_two start next after result.0) }
    ensures above { result.1 ≤ value }
    ensures below { value < result.1 + result.2 }
{
    let unit = len >> 15;
    let middle = parts(next, unit);
    let second = middle <= value as u64;
    let low = choose(second, middle, parts(start, unit));
    let high = choose(second, parts(after, unit), middle).min(len as u64);
    (second, low as u32, (high - low) as u32)
}
