//! The names of the parts into which a file is split.

ghost use Rattle.std.specs.Prelude.{◌≡◌, IfOk, string_bytes};
ghost use Rattle.las_filter.specs.Parts.{part_name};

use std::alloc::{AllocError, Global};

/// The name of the part of this number: the stem, an underscore, the number in seven digits or as many as it has, and
/// the end.
pub fn part_name(alloc: Global, stem: &str, end: &str, number: u32) -> Result<String, AllocError>
    ensures { IfOk result (λ name. string_bytes name ≡ part_name stem.now end.now number) }
{
    format!(in alloc; "{stem}_{number:07}{end}")
}
