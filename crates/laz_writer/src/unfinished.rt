//! Laws of outputs that are not finished, as the contract of a function that does nothing.
ghost use Rattle.laz_writer.specs.Stopping.{IsFrontUnfinished, IsStoppedUnfinished};

/// What a failed call of a writer leaves, and what a stopped output holds, is unfinished: a prefix of the output's
/// draft, also of the draft that more records would have given.
pub fn stopped_outputs_are_unfinished()
    ensures front { IsFrontUnfinished }
    ensures stopped { IsStoppedUnfinished }
{}
