//! Laws of the items, as contracts of functions that do nothing.
ghost use Rattle.laz_rgb.specs.Laws.{ColoursAreLawful, ColoursAreSpelled, ExtrasAreLawful, ExtrasAreSpelled};
ghost use Rattle.laz_rgb.specs.Laws.{OthersLeaveColours, OthersLeaveExtras};

/// The events that a writer makes of a colour spell it.
pub fn colours_are_spelled()
    ensures { ColoursAreSpelled }
{}

/// A spelling of a colour is of lawful events, at most 7, and none of another use. Events of other uses leave what an
/// `Rgb` stands for.
pub fn colours_are_lawful()
    ensures lawful { ColoursAreLawful }
    ensures others { OthersLeaveColours }
{}

/// The events that a writer makes of extra bytes spell them.
pub fn extras_are_spelled()
    ensures { ExtrasAreSpelled }
{}

/// A spelling of extra bytes is of lawful events, at most one a byte, and none of another use. Events of other uses
/// leave what a `Bytes` stands for.
pub fn extras_are_lawful()
    ensures lawful { ExtrasAreLawful }
    ensures others { OthersLeaveExtras }
{}
