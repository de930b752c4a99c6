//! Changes of one field of a record. All other bytes stay.

ghost use Rattle.std.specs.Prelude.{◌≡◌, ◌≤◌, length};
ghost use Rattle.las_header.specs.Numbers.{with_number_at};
ghost use Rattle.las_points.specs.Record.{class_of, source_of, user_of, with_class, with_signed_at, with_user, x_of};
ghost use Rattle.las_points.specs.Record.{y_of, z_of};

use las_header::{POINT_RECORD, set_u16_at, set_u32_at};

/// Sets the X coordinate.
pub fn set_x(point: &mut [u8], value: i32)
    requires { POINT_RECORD ≤ length point.old }
    ensures bytes { point.new ≡ with_signed_at 0 value point.old }
    ensures value { x_of point.new ≡ value }
{
    set_u32_at(point, 0, value.cast_unsigned());
}

/// Sets the Y coordinate.
pub fn set_y(point: &mut [u8], value: i32)
    requires { POINT_RECORD ≤ length point.old }
    ensures bytes { point.new ≡ with_signed_at 4 value point.old }
    ensures value { y_of point.new ≡ value }
{
    set_u32_at(point, 4, value.cast_unsigned());
}

/// Sets the Z coordinate.
pub fn set_z(point: &mut [u8], value: i32)
    requires { POINT_RECORD ≤ length point.old }
    ensures bytes { point.new ≡ with_signed_at 8 value point.old }
    ensures value { z_of point.new ≡ value }
{
    set_u32_at(point, 8, value.cast_unsigned());
}

/// Sets the class, 0 to 31: the low five bits of the classification byte. The class flags stay.
pub fn set_class(point: &mut [u8], value: u8)
    requires long { POINT_RECORD ≤ length point.old }
    requires class { value ≤ 31 }
    ensures bytes { point.new ≡ with_class value point.old }
    ensures value { class_of point.new ≡ value }
{
    point[15] = point[15] / 32 * 32 + value;
}

/// Sets the user data.
pub fn set_user(point: &mut [u8], value: u8)
    requires { POINT_RECORD ≤ length point.old }
    ensures bytes { point.new ≡ with_user value point.old }
    ensures value { user_of point.new ≡ value }
{
    point[17] = value;
}

/// Sets the point source ID.
pub fn set_source(point: &mut [u8], value: u16)
    requires { POINT_RECORD ≤ length point.old }
    ensures bytes { point.new ≡ with_number_at 2 18 value point.old }
    ensures value { source_of point.new ≡ value }
{
    set_u16_at(point, 18, value);
}
