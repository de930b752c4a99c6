//! The fields of a record.

ghost use Rattle.std.specs.Prelude.{◌≡◌, ◌≤◌, length};
ghost use Rattle.las_header.specs.Fields.{format_size};
ghost use Rattle.las_points.specs.Record.{HasTime, HasColours, time_of, colours_of, angle_of, class_byte_of, class_of};
ghost use Rattle.las_points.specs.Record.{direction_of, flags_of, intensity_of, return_number_of};
ghost use Rattle.las_points.specs.Record.{returns_of_pulse as returns_in_pulse, source_of, user_of, x_of, y_of, z_of};

use las_header::{POINT_RECORD, u16_at, u32_at, u64_at};

/// The X coordinate, before scale and offset.
pub fn x(point: &[u8]) -> i32
    requires { POINT_RECORD ≤ length point.now }
    ensures { result ≡ x_of point.now }
{
    u32_at(point, 0).cast_signed()
}

/// The Y coordinate, before scale and offset.
pub fn y(point: &[u8]) -> i32
    requires { POINT_RECORD ≤ length point.now }
    ensures { result ≡ y_of point.now }
{
    u32_at(point, 4).cast_signed()
}

/// The Z coordinate, before scale and offset.
pub fn z(point: &[u8]) -> i32
    requires { POINT_RECORD ≤ length point.now }
    ensures { result ≡ z_of point.now }
{
    u32_at(point, 8).cast_signed()
}

/// The intensity of the pulse's return.
pub fn intensity(point: &[u8]) -> u16
    requires { POINT_RECORD ≤ length point.now }
    ensures { result ≡ intensity_of point.now }
{
    u16_at(point, 12)
}

/// The flag byte: bits 0 to 2 return number, 3 to 5 number of returns, 6 scan direction, 7 edge of
/// flight line.
pub fn flags(point: &[u8]) -> u8
    requires { POINT_RECORD ≤ length point.now }
    ensures { result ≡ flags_of point.now }
{
    point[14]
}

/// The classification byte: bits 0 to 4 class, 5 to 7 class flags.
pub fn class_byte(point: &[u8]) -> u8
    requires { POINT_RECORD ≤ length point.now }
    ensures { result ≡ class_byte_of point.now }
{
    point[15]
}

/// The scan angle rank, in degrees from nadir.
pub fn angle(point: &[u8]) -> i8
    requires { POINT_RECORD ≤ length point.now }
    ensures { result ≡ angle_of point.now }
{
    point[16].cast_signed()
}

/// The user data.
pub fn user(point: &[u8]) -> u8
    requires { POINT_RECORD ≤ length point.now }
    ensures { result ≡ user_of point.now }
{
    point[17]
}

/// The point source ID.
pub fn source(point: &[u8]) -> u16
    requires { POINT_RECORD ≤ length point.now }
    ensures { result ≡ source_of point.now }
{
    u16_at(point, 18)
}

/// The return number of the point within its pulse: 0 to 7.
pub fn return_number(point: &[u8]) -> u8
    requires { POINT_RECORD ≤ length point.now }
    ensures { result ≡ return_number_of point.now }
{
    point[14] % 8
}

/// The number of returns of the pulse: 0 to 7.
pub fn returns_of_pulse(point: &[u8]) -> u8
    requires { POINT_RECORD ≤ length point.now }
    ensures { result ≡ returns_in_pulse point.now }
{
    point[14] / 8 % 8
}

/// The scan direction flag: 1 for a positive direction, else 0.
pub fn direction(point: &[u8]) -> u8
    requires { POINT_RECORD ≤ length point.now }
    ensures { result ≡ direction_of point.now }
{
    point[14] / 64 % 2
}

/// The class: 0 to 31.
pub fn class(point: &[u8]) -> u8
    requires { POINT_RECORD ≤ length point.now }
    ensures { result ≡ class_of point.now }
{
    point[15] % 32
}

/// The GPS time, as the bits of its double. The format is 1 or 3.
pub fn time(format: u8, point: &[u8]) -> u64
    requires format { HasTime format }
    requires long { format_size format ≤ length point.now }
    ensures { result ≡ time_of point.now }
{
    u64_at(point, POINT_RECORD)
}

/// The colours red, green and blue. The format is 2 or 3.
pub fn rgb(format: u8, point: &[u8]) -> (u16, u16, u16)
    requires format { HasColours format }
    requires long { format_size format ≤ length point.now }
    ensures { result ≡ colours_of format point.now }
{
    let at = if format == 2 {
        POINT_RECORD
    } else {
        POINT_RECORD + 8
    };
    (
        u16_at(point, at),
        u16_at(point, at + 2),
        u16_at(point, at + 4),
    )
}
