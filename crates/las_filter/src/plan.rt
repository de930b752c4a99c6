//! A plan: filters and changes.

ghost use Rattle.std.specs.Prelude.{◌≡◌, ◌≤◌, ◌↔◌, length, IsErr, All, OnOk, None, Some};

use crate::change::{Change, RawRange};
use crate::keep::Keep;
use las_header::POINT_RECORD;

/// What is done to the records of a file: which are kept, and what of these is changed.
#[derive(Drop)]
pub struct Plan {
    /// The filters. A record is kept if all of them hold of it as it was read.
    pub keeps: Vec<Keep>,
    /// The changes of a record that is kept, in the order in which they are made.
    pub changes: Vec<Change>,
}

impl Plan {
    ghost use Rattle.las_filter.specs.Filters.{keeps_all};
    ghost use Rattle.las_filter.specs.Changes.{HasClass, changed, left_by};

    /// Whether all filters hold of a record. They are tested in their order, up to the first that does not hold.
    pub fn keeps(&self, point: &[u8]) -> bool
        requires { POINT_RECORD ≤ length point.now }
        ensures { result ≡ keeps_all self.now.keeps.items point.now }
    {
        for keep in &self.keeps {
            if !keep.holds(point) {
                return false;
            }
        }
        true
    }

    /// Makes the changes in their order. A change is refused if a translated coordinate leaves the range of `i32`. The
    /// changes before it then stand, and it has changed nothing itself.
    pub fn change(&self, point: &mut [u8]) -> Result<(), RawRange>
        requires long { POINT_RECORD ≤ length point.old }
        requires classes { All HasClass self.now.changes.items }
        ensures made { OnOk result (changed self.now.changes.items point.old ≡ Some point.new) }
        ensures refused { IsErr result ↔ (changed self.now.changes.items point.old ≡ None) }
        ensures left { point.new ≡ left_by self.now.changes.items point.old }
    {
        for change in &self.changes {
            change.make(point)?;
        }
        Ok(())
    }
}
