//! Laws of the item, as contracts of functions that do nothing.
ghost use Rattle.laz_point10.specs.Laws.{OthersLeavePoints, PartsAreOfPoints, PointsAreLawful, PointsAreSpelled};

/// The events that a writer makes of a point spell it.
pub fn points_are_spelled()
    ensures { PointsAreSpelled }
{}

/// A spelling of a point is of lawful events, at most 23, and none of another use. Events of other uses leave what a
/// `Point10` stands for.
pub fn points_are_lawful()
    ensures lawful { PointsAreLawful }
    ensures others { OthersLeavePoints }
{}

/// Two parts of 20 bytes with one point are one.
pub fn parts_are_of_points()
    ensures { PartsAreOfPoints }
{}
