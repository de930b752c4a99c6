//! Laws of made files, as contracts of functions that do nothing.
ghost use Rattle.las_make.specs.Laws.{CanPackMade, LeavesUnfinishedOutputs, UnpacksMade};

/// A made file is an accepted plain file. Its packed form, in chunks of 256 to 250,000 points, is accepted and unpacks
/// to it again.
pub fn made_files_are_packed()
    ensures plain { CanPackMade }
    ensures packed { UnpacksMade }
{}

/// After a fault of `make` the files are as before but for the first of the outputs in order: none, one or both. Each
/// of these is unfinished, and one that is whole counts as such.
pub fn faults_leave_unfinished_outputs()
    ensures { LeavesUnfinishedOutputs }
{}
