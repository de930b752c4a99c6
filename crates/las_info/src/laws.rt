//! A law of tallies, as the contract of a function that does nothing.
ghost use Rattle.las_info.specs.Tallies.{GrowOneByOne, GrowByOne};

/// A tally of records is said one record at a time, and no count grows by more than one.
pub fn tallies_grow_one_by_one()
    ensures records { GrowOneByOne }
    ensures counts { GrowByOne }
{}
