//! Laws of the item, as contracts of functions that do nothing.
ghost use Rattle.laz_gpstime.specs.Laws.{ExtremesAreCounted, OthersLeaveTimes, PointsHoldRecords, TimesAreLawful, TimesAreSpelled};

/// The events that a writer makes of a time spell it.
pub fn times_are_spelled()
    ensures { TimesAreSpelled }
{}

/// A spelling of a time is of lawful events, at most 8, and none of another use. Events of other uses leave what a
/// `GpsTime` stands for, and the newest of its points may hold all events of its record.
pub fn times_are_lawful()
    ensures lawful { TimesAreLawful }
    ensures others { OthersLeaveTimes }
    ensures records { PointsHoldRecords }
{}

/// The extreme differences of a sequence are counted since its latest opening, the latest point that set its difference,
/// or the latest symbol 1.
pub fn extremes_are_counted()
    ensures { ExtremesAreCounted }
{}
