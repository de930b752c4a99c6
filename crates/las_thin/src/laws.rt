//! Laws of thinning, as contracts of functions that do nothing.
ghost use Rattle.las_thin.specs.Laws.{LaterChangesNothing, LeavesOneInEachCell, SiftsOneByOne, SiftsWhole};
ghost use Rattle.las_thin.specs.Laws.{ThinsRepeated};
ghost use Rattle.las_thin.specs.Kept.{FirstKeepsOneByOne, KeepsAsThePlan, KeepsOneByOne, KeepsWhatStays};
ghost use Rattle.las_thin.specs.Kept.{PlacesAscend};

/// Thinning leaves exactly one record in each cell that has a record. It leaves the same records if those that repeat a
/// position are dropped before.
pub fn thinning_leaves_one()
    ensures one { LeavesOneInEachCell }
    ensures repeated { ThinsRepeated }
{}

/// The records that a sieve lets pass are those that stay of the list. With the first of a cell this is said one record
/// at a time, and later records change nothing; else of a list that was looked at whole.
pub fn sieving_is_thinning()
    ensures one_by_one { SiftsOneByOne }
    ensures later { LaterChangesNothing }
    ensures whole { SiftsWhole }
{}

/// What a plan keeps when records are thinned is what it keeps of those that stay. Without a step, and if positions may
/// repeat, it is what the plan alone keeps. It is said one record at a time.
pub fn kept_behind_a_sieve()
    ensures ascend { PlacesAscend }
    ensures plan { KeepsAsThePlan }
    ensures stays { KeepsWhatStays }
    ensures one_by_one { KeepsOneByOne }
    ensures first { FirstKeepsOneByOne }
{}
