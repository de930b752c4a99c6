//! One record, put into its place.
ghost use Rattle.std.specs.Prelude.{◌≡◌, ◌+◌, ◌*◌, ◌-◌, ◌/◌, ◌%◌, ◌≤◌, ◌<◌, ◌++◌, length, take};
ghost use Rattle.las_header.specs.Fields.{format_size};
ghost use Rattle.las_make.specs.Records.{base_fields, colour_fields, extra_bytes, flags_made, record_bytes, time_field};

use crate::drawing::Draws;
use crate::settings::MAX_POINTS;
use las_header::{LAST_FORMAT, POINT_RECORD};

// Puts bytes into a place from `at` on.
#[inline(always)]
fn put(place: &mut [u8], at: usize, bytes: &[u8])
    requires { at + length bytes.now ≤ length place.old }
    ensures { take (at + length bytes.now) place.new ≡ take at place.old ++ bytes.now }
{
    place[at..at + bytes.len()].copy_from_slice(bytes);
}

/// The flag byte of the record of this number.
#[inline]
pub(crate) fn flags(k: u32, draws: Draws) -> u8
    ensures { result ≡ flags_made k draws }
{
    let returns = 1 + draws.returns % 4;
    let number = 1 + draws.number % returns;
    (number + 8 * returns + 64 * (k / 1000 % 2)) as u8
}

// Puts the fields of format 0 at the beginning.
#[inline]
fn put_base(place: &mut [u8], k: u32, draws: Draws)
    requires few { k < MAX_POINTS }
    requires long { POINT_RECORD ≤ length place.old }
    ensures { take POINT_RECORD place.new ≡ base_fields k draws }
{
    let x = 10 * (k % 1000) + draws.x % 16;
    let y = 10 * (k / 1000) + draws.y % 16;
    let z = 5000 + draws.z % 64;
    let intensity = (draws.intensity % 4096) as u16;
    let class = (1 + draws.class % 6) as u8;
    put(place, 0, &x.to_le_bytes());
    put(place, 4, &y.to_le_bytes());
    put(place, 8, &z.to_le_bytes());
    put(place, 12, &intensity.to_le_bytes());
    put(place, 14, &[flags(k, draws), class, 0, 0]);
    put(place, 18, &1u16.to_le_bytes());
}

// Puts the GPS time after the fields of format 0, if the format has one, and says where the next field begins.
#[inline]
fn put_time(place: &mut [u8], format: u8, k: u32) -> usize
    requires few { k < MAX_POINTS }
    requires long { format_size format ≤ length place.old }
    ensures end { result ≡ POINT_RECORD + 8 * (format % 2) }
    ensures put { take result place.new ≡ take POINT_RECORD place.old ++ time_field format k }
{
    if format % 2 == 0 {
        return POINT_RECORD;
    }
    let time = (1u64 << 62) + 40_000 * u64::from(k);
    put(place, POINT_RECORD, &time.to_le_bytes());
    POINT_RECORD + 8
}

// Puts the colours into a place from `at` on, if the format has them, and says where the next field begins.
#[inline]
fn put_colours(place: &mut [u8], at: usize, format: u8, draws: Draws) -> usize
    requires known { format ≤ LAST_FORMAT }
    requires long { at + 6 * (format / 2) ≤ length place.old }
    ensures end { result ≡ at + 6 * (format / 2) }
    ensures put { take result place.new ≡ take at place.old ++ colour_fields format draws }
{
    if format < 2 {
        return at;
    }
    let red = (256 * (draws.colours % 256)) as u16;
    let green = (256 * (draws.colours / 256 % 256)) as u16;
    put(place, at, &red.to_le_bytes());
    put(place, at + 2, &green.to_le_bytes());
    put(place, at + 4, &red.to_le_bytes());
    at + 6
}

// Fills a place from `at` on with extra bytes.
#[inline]
fn put_extra(place: &mut [u8], at: usize, k: u32)
    requires few { k < MAX_POINTS }
    requires within { at ≤ length place.old }
    requires short { length place.old ≤ 1000 }
    ensures { place.new ≡ take at place.old ++ extra_bytes (length place.old - at) k }
{
    let number = k as usize;
    for j in 0..place.len() - at {
        place[at + j] = ((number + j) % 256) as u8;
    }
}

/// Puts the record of this number into its place, which has the length of a record.
#[inline]
pub(crate) fn put_record(place: &mut [u8], format: u8, k: u32, draws: Draws)
    requires few { k < MAX_POINTS }
    requires known { format ≤ LAST_FORMAT }
    requires long { format_size format ≤ length place.old }
    requires short { length place.old ≤ 1000 }
    ensures { place.new ≡ record_bytes format (length place.old - format_size format) k draws }
{
    put_base(place, k, draws);
    let at = put_time(place, format, k);
    let at = put_colours(place, at, format, draws);
    put_extra(place, at, k);
}
