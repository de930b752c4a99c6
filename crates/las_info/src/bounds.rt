//! The least and the greatest raw coordinates of records, in the lanes of vectors.
ghost use Rattle.std.specs.Prelude.{◌≡◌, ◌≤◌, length, ℤ, List, [], ◌∷◌, All, Some, FitsSigned};
ghost use Rattle.std.specs.Int.{int_max, int_min, w32, cast_signed};
ghost use Rattle.std.specs.Simd.Lanes.{zip2};
ghost use Rattle.las_header.specs.declared.limits.TheConstants.{POINT_RECORD};
ghost use Rattle.las_header.specs.Numbers.{number_at};
ghost use Rattle.las_points.specs.Record.{x_of, y_of, z_of};
ghost use Rattle.las_info.specs.Extents.{extents_with};

use crate::extents::{Extents, Range};
use las_header::{POINT_RECORD, u32_at};
use las_points::{x, y, z};
use std::marker::Model;
use std::simd::prelude::*;

// The coordinates of a record, and a lane without a meaning: the four bytes after them.
fn coordinates(point: &[u8]) -> i32x4
    requires { POINT_RECORD ≤ length point.now }
    ensures lanes { result ≡ x_of point.now ∷ y_of point.now ∷ z_of point.now
        ∷ cast_signed w32 (number_at 4 12 point.now) ∷ [] }
    ensures fit { All (FitsSigned w32) result }
{
    i32x4::from_array([
        x(point),
        y(point),
        z(point),
        u32_at(point, 12).cast_signed(),
    ])
}

// The lesser of each two lanes.
fn least(a: i32x4, b: i32x4) -> i32x4
    requires first { All (FitsSigned w32) a }
    requires second { All (FitsSigned w32) b }
    ensures lanes { result ≡ zip2 int_min a b }
    ensures fit { All (FitsSigned w32) result }
{
    a.simd_min(b)
}

// The greater of each two lanes.
fn greatest(a: i32x4, b: i32x4) -> i32x4
    requires first { All (FitsSigned w32) a }
    requires second { All (FitsSigned w32) b }
    ensures lanes { result ≡ zip2 int_max a b }
    ensures fit { All (FitsSigned w32) result }
{
    a.simd_max(b)
}

/// Extents that records widen: the least and the greatest of x, y and z, in the lanes 0 to 2 of two vectors. Lane 3 has
/// no meaning.
#[derive(Drop)]
pub(crate) struct Bounds {
    low: i32x4,
    high: i32x4,
}

impl Model for Bounds {
    ghost use Rattle.std.specs.Prelude.{◌≡◌, FitsSigned, All, length};
    ghost use Rattle.std.specs.Int.{w32};
    ghost use Rattle.las_info.specs.declared.extents.Extents.{Extents};
    ghost use Rattle.las_info.specs.Extents.{extents_in};

    ghost Value = { Extents };

    ghost view = { λ b. extents_in b.low b.high };

    ghost invariant = { λ b. All (FitsSigned w32) b.low × All (FitsSigned w32) b.high × (length b.low ≡ 4)
        × (length b.high ≡ 4) };
}

impl Bounds {
    /// These extents.
    pub(crate) fn of(extents: Extents) -> Bounds
        ensures { result ≡ extents }
    {
        Bounds {
            low: i32x4::from_array([extents.x.low, extents.y.low, extents.z.low, 0]),
            high: i32x4::from_array([extents.x.high, extents.y.high, extents.z.high, 0]),
        }
    }

    /// Widens them by a record.
    pub(crate) fn widen(&mut self, point: &[u8])
        requires { POINT_RECORD ≤ length point.now }
        ensures { Some self.new ≡ extents_with (Some self.old) point.now }
    {
        let here = coordinates(point);
        self.low = least(self.low, here);
        self.high = greatest(self.high, here);
    }

    /// The extents.
    pub(crate) fn extents(&self) -> Extents
        ensures { result ≡ self.now }
    {
        let (low, high) = (self.low.to_array(), self.high.to_array());
        Extents {
            x: Range {
                low: low[0],
                high: high[0],
            },
            y: Range {
                low: low[1],
                high: high[1],
            },
            z: Range {
                low: low[2],
                high: high[2],
            },
        }
    }
}
