//! Cells and positions.
ghost use Rattle.std.specs.Prelude.{◌≡◌, ◌<◌, ◌≤◌, ◌^◌, ◌*ℤ◌, ◌+ℤ◌, ◌≤ℤ◌, ◌<ℤ◌, pos, length};
ghost use Rattle.las_points.specs.Record.{x_of, y_of};
ghost use Rattle.las_thin.specs.Cells.{cell_of, position_of};

use las_header::POINT_RECORD;
use las_points::{x, y, z};

/// The cell of a record: X and Y divided by the step and rounded down, so that no cell is wider about 0. The step is
/// from 1 to 2147483647, and the record has at least 20 bytes.
pub fn cell_of(step: u32, point: &[u8]) -> (i32, i32)
    requires some { 0 < step }
    requires most { step < 2 ^ 31 }
    requires long { POINT_RECORD ≤ length point.now }
    ensures cell { result ≡ cell_of step point.now }
{
    let step = step.cast_signed();
    (x(point).div_euclid(step), y(point).div_euclid(step))
}

/// X, Y and Z of a record.
pub(crate) fn position_of(point: &[u8]) -> (i32, i32, i32)
    requires { POINT_RECORD ≤ length point.now }
    ensures { result ≡ position_of point.now }
{
    (x(point), y(point), z(point))
}
