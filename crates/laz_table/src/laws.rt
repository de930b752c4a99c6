//! Laws of chunk tables, as contracts of functions that do nothing.

ghost use Rattle.laz_table.specs.Laws.{FrontHolds, HoldsCounted, HoldsFixed, IsOnlyOne, IsShort};

/// A table that is written holds the lists that it is written of.
pub fn tables_hold_their_lists()
    ensures fixed { HoldsFixed }
    ensures counted { HoldsCounted }
{}

/// A table of n chunks has at most 12 + 24 · n bytes, and that many of its bytes decide which lists it holds.
pub fn tables_are_short()
    ensures written { IsShort }
    ensures read { FrontHolds }
{}

/// Bytes hold at most one pair of lists, for each number of chunks, with numbers of points of their own or without.
pub fn tables_hold_one_pair()
    ensures { IsOnlyOne }
{}
