//! The least and the greatest raw coordinates of records.
ghost use Rattle.std.specs.Prelude.{◌≡◌, ◌≤◌, length, Some};
ghost use Rattle.las_header.specs.declared.limits.TheConstants.{POINT_RECORD};
ghost use Rattle.las_points.specs.Record.{x_of, y_of, z_of};
ghost use Rattle.las_info.specs.Extents.{extents_with, widened};

use las_points::{x, y, z};

/// The least and the greatest of some numbers.
#[derive(Clone, Copy)]
pub(crate) struct Range {
    pub(crate) low: i32,
    pub(crate) high: i32,
}

/// The least and the greatest of each raw coordinate of some records.
#[derive(Clone, Copy)]
pub(crate) struct Extents {
    pub(crate) x: Range,
    pub(crate) y: Range,
    pub(crate) z: Range,
}

// The range of a coordinate with that of one record more.
fn wider_x(range: Range, point: &[u8]) -> Range
    requires { POINT_RECORD ≤ length point.now }
    ensures { result ≡ widened range (x_of point.now) }
{
    let x = x(point);
    Range {
        low: range.low.min(x),
        high: range.high.max(x),
    }
}

fn wider_y(range: Range, point: &[u8]) -> Range
    requires { POINT_RECORD ≤ length point.now }
    ensures { result ≡ widened range (y_of point.now) }
{
    let y = y(point);
    Range {
        low: range.low.min(y),
        high: range.high.max(y),
    }
}

fn wider_z(range: Range, point: &[u8]) -> Range
    requires { POINT_RECORD ≤ length point.now }
    ensures { result ≡ widened range (z_of point.now) }
{
    let z = z(point);
    Range {
        low: range.low.min(z),
        high: range.high.max(z),
    }
}

// The range of one number.
fn range_at(number: i32) -> Range
    ensures { result ≡ record { low = number; high = number } }
{
    Range {
        low: number,
        high: number,
    }
}

/// The extents with one record more.
pub(crate) fn extended(extents: Option<Extents>, point: &[u8]) -> Extents
    requires { POINT_RECORD ≤ length point.now }
    ensures { Some result ≡ extents_with extents point.now }
{
    match extents {
        None => Extents {
            x: range_at(x(point)),
            y: range_at(y(point)),
            z: range_at(z(point)),
        },
        Some(extents) => Extents {
            x: wider_x(extents.x, point),
            y: wider_y(extents.y, point),
            z: wider_z(extents.z, point),
        },
    }
}
