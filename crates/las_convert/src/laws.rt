//! What converting gives of all places, and that it gives one thing alone, as contracts of functions that do nothing.
ghost use Rattle.las_convert.specs.Laws.{ConvertsAllRecords, ConvertsAsThePlan, ConvertsFirstRecords};
ghost use Rattle.las_convert.specs.Laws.{ConvertsInOneWay, ConvertsToSomething, ConvertsWholeFiles};

use laz_file::{no_file_is_without_an_answer, records_have_one_answer};

/// To convert the range of all places is to convert the records of the file: all of them, or those before its first bad
/// chunk, or those before the first that is kept and has a coordinate out of range. If the lowest or the highest of a
/// cell stays, what is kept is that of all records of the file. Without thinning, it is what the plan keeps.
pub fn converting_all_places()
    ensures records { ConvertsAllRecords }
    ensures first { ConvertsFirstRecords }
    ensures whole { ConvertsWholeFiles }
    ensures plan { ConvertsAsThePlan }
{}

/// Whatever the bytes of an accepted file are, what converting a range of its records gives is the only thing that it
/// can give: one list of records, and one refusal or none.
pub fn converting_ends_in_one_way()
    ensures { ConvertsInOneWay }
{
    records_have_one_answer();
}

/// Converting a range of an accepted file gives something, whatever the bytes of the file are.
pub fn converting_gives_something()
    ensures { ConvertsToSomething }
{
    no_file_is_without_an_answer();
}
