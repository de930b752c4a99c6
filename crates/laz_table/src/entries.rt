//! The entries of a table.

ghost use Rattle.std.specs.Prelude.{◌≡◌, ◌<◌};
ghost use Rattle.laz_table.specs.Entries.{context_of};

use crate::limits::TABLE_CONTEXTS;

/// The context of an entry: that of numbers of points, or that of numbers of bytes.
#[inline]
pub fn context_of(counts_points: bool) -> u32
    ensures context { result ≡ context_of counts_points }
    ensures few { result < TABLE_CONTEXTS }
{
    if counts_points { 0 } else { 1 }
}
