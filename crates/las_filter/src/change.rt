//! Changes of records.

ghost use Rattle.std.specs.Prelude.{◌≡◌, ◌≤◌, length, OnOk, OnErr, None, Some};

use las_header::POINT_RECORD;
use las_points::{set_class, set_source, set_user, set_x, set_y, set_z, x, y, z};

/// A change of a record's fields.
#[derive(Clone, Copy, Debug, PartialEq, Eq)]
pub enum Change {
    /// Adds to X, Y and Z, before scale and offset (`-translate_raw_xyz`, and `-translate_raw_x`, `_y`, `_z`).
    Translate(i32, i32, i32),
    /// Sets the class, 0 to 31 (`-set_classification`). The class flags stay.
    SetClass(u8),
    /// Sets the user data (`-set_user_data`).
    SetUser(u8),
    /// Sets the point source ID (`-set_point_source`).
    SetSource(u16),
}

/// A translated coordinate would leave the range of `i32`.
#[derive(Clone, Copy, Debug, PartialEq, Eq)]
pub struct RawRange;

impl Change {
    ghost use Rattle.las_filter.specs.Changes.{HasClass, changed_by};

    /// Makes the change. It is refused if a translated coordinate leaves the range of `i32`; then nothing has changed,
    /// not even one of the coordinates.
    pub(crate) fn make(self, point: &mut [u8]) -> Result<(), RawRange>
        requires long { POINT_RECORD ≤ length point.old }
        requires class { HasClass self }
        ensures made { OnOk result (changed_by self point.old ≡ Some point.new) }
        ensures refused { OnErr result (changed_by self point.old ≡ None) }
        ensures left { OnErr result (point.new ≡ point.old) }
    {
        match self {
            Change::Translate(x, y, z) => return translate(point, x, y, z),
            Change::SetClass(class) => set_class(point, class),
            Change::SetUser(value) => set_user(point, value),
            Change::SetSource(source) => set_source(point, source),
        }
        Ok(())
    }
}

ghost use Rattle.std.specs.Prelude.{◌+ℤ◌};
ghost use Rattle.las_filter.specs.Coordinates.{translated, in_range};

// Adds to the coordinates, or changes nothing if one of them leaves the range of `i32`.
#[tactic(auto, unfolding(crate::specs::Coordinates::placed))]
fn translate(point: &mut [u8], dx: i32, dy: i32, dz: i32) -> Result<(), RawRange>
    requires { POINT_RECORD ≤ length point.old }
    ensures made { OnOk result (translated dx dy dz point.old ≡ Some point.new) }
    ensures refused { OnErr result (translated dx dy dz point.old ≡ None) }
    ensures left { OnErr result (point.new ≡ point.old) }
{
    let (Some(x), Some(y), Some(z)) = (
        moved(x(point), dx),
        moved(y(point), dy),
        moved(z(point), dz),
    ) else {
        return Err(RawRange);
    };
    set_x(point, x);
    set_y(point, y);
    set_z(point, z);
    Ok(())
}

// A coordinate with a number added, if it stays in the range of `i32`.
fn moved(coordinate: i32, by: i32) -> Option<i32>
    ensures { result ≡ in_range (coordinate +ℤ by) }
{
    coordinate.checked_add(by)
}
