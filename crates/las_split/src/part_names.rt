//! The names of parts.
ghost use Rattle.std.specs.Prelude.{◌≡◌, ◌<◌, IfOk, string_bytes};
ghost use Rattle.las_filter.specs.Parts.{part_name};

use las_filter::part_name;
use std::alloc::{AllocError, Global};

/// What the names of parts have in common: a part is named by the stem, an underscore, its number in seven digits or as
/// many as it has, and the end.
#[derive(Debug, PartialEq, Eq, Drop)]
pub struct PartNames {
    /// What comes before the underscore.
    pub stem: String,
    /// What comes after the number, as `.las`.
    pub end: String,
}

impl PartNames {
    // The name of the part of this number.
    pub(crate) fn name_of(&self, alloc: Global, number: u32) -> Result<String, AllocError>
        ensures { IfOk result (λ name. string_bytes name
            ≡ part_name (string_bytes self.now.stem) (string_bytes self.now.end) number) }
    {
        part_name(alloc, self.stem.as_str(), self.end.as_str(), number)
    }
}
