//! Laws of parts and of splitting, as contracts of functions that do nothing.
ghost use Rattle.las_split.specs.Laws.{SplitsInOneWay, SplitsToSomething};
ghost use Rattle.las_split.specs.Parts.{PartsJoin};

use laz_file::{no_file_is_without_an_answer, records_have_one_answer};

/// Parts of equal numbers of records, joined by ascending number, are the records again.
pub fn parts_join()
    ensures { PartsJoin }
{}

/// Whatever the bytes of an accepted file are, what splitting it gives is the only thing that it can give: one list of
/// records, and one refusal or none.
pub fn splitting_ends_in_one_way()
    ensures { SplitsInOneWay }
{
    records_have_one_answer();
}

/// Splitting an accepted file gives something, whatever its bytes are.
pub fn splitting_gives_something()
    ensures { SplitsToSomething }
{
    no_file_is_without_an_answer();
}
