//! Filters of records.

ghost use Rattle.std.specs.Prelude.{◌≡◌, ◌≤◌, length};

use las_header::POINT_RECORD;
use las_points::{class, intensity, return_number, returns_of_pulse};

/// A filter: which records are kept.
///
/// Bit j of a mask stands for class j, or for return number j.
#[derive(Clone, Copy, Debug, PartialEq, Eq)]
pub enum Keep {
    /// Those whose class is in the mask (`-keep_class`).
    Classes(u32),
    /// Those whose class is not in the mask (`-drop_class`).
    DropClasses(u32),
    /// Those whose return number is in the mask (`-keep_return`).
    Returns(u8),
    /// Those whose return number is not in the mask (`-drop_return`).
    DropReturns(u8),
    /// Those with a return number of at most 1 (`-keep_first`).
    First,
    /// Those with a return number of at least the number of returns of their pulse (`-keep_last`).
    Last,
    /// Those with an intensity from the first number to the second, both included (`-keep_intensity`).
    Intensity(u16, u16),
    /// Those with an intensity of at least the number (`-drop_intensity_below`).
    NotBelow(u16),
    /// Those with an intensity of at most the number (`-drop_intensity_above`).
    NotAbove(u16),
}

impl Keep {
    ghost use Rattle.las_filter.specs.Filters.{keeps};

    /// Whether a record is kept.
    pub(crate) fn holds(self, point: &[u8]) -> bool
        requires { POINT_RECORD ≤ length point.now }
        ensures { result ≡ keeps self point.now }
    {
        match self {
            Keep::Classes(mask) => has_class(mask, point),
            Keep::DropClasses(mask) => !has_class(mask, point),
            Keep::Returns(mask) => has_return(mask, point),
            Keep::DropReturns(mask) => !has_return(mask, point),
            Keep::First => return_number(point) <= 1,
            Keep::Last => return_number(point) >= returns_of_pulse(point),
            Keep::Intensity(low, high) => low <= intensity(point) && intensity(point) <= high,
            Keep::NotBelow(least) => intensity(point) >= least,
            Keep::NotAbove(most) => intensity(point) <= most,
        }
    }
}

ghost use Rattle.las_points.specs.Record.{class_of, return_number_of};
ghost use Rattle.las_filter.specs.Masks.{has_bit};

// Whether the class of a record is in a mask.
fn has_class(mask: u32, point: &[u8]) -> bool
    requires { POINT_RECORD ≤ length point.now }
    ensures { result ≡ has_bit mask (class_of point.now) }
{
    (mask >> class(point)) % 2 == 1
}

// Whether the return number of a record is in a mask.
fn has_return(mask: u8, point: &[u8]) -> bool
    requires { POINT_RECORD ≤ length point.now }
    ensures { result ≡ has_bit mask (return_number_of point.now) }
{
    (mask >> return_number(point)) % 2 == 1
}
