//! Laws of the definitions that the top call's contract cites.
ghost use Rattle.las_run.specs.EndingLaws.{EndsInOneWay, MissingInputsEnd, PackedFormsEnd, PartsOfSplitMerge};
ghost use Rattle.las_run.specs.EndingLaws.{PackedRecordsAreWhole, PlainInputsEnd, PlainRecordsAreWhole, SomeEndingIsDefined};
ghost use Rattle.las_run.specs.EndingLaws.{WorkersDoNotMatter, WrongWordsEnd};

use las_convert::{converting_ends_in_one_way, converting_gives_something};
use las_merge::{merging_ends_in_one_way, merging_gives_something};
use las_split::{splitting_ends_in_one_way, splitting_gives_something};
use laz_file::{no_file_is_without_an_answer, records_have_one_answer};

/// At most one ending is defined for a task, for every command and whatever the bytes of the files are.
pub fn one_ending()
    ensures { EndsInOneWay }
{
    records_have_one_answer();
    converting_ends_in_one_way();
    splitting_ends_in_one_way();
    merging_ends_in_one_way();
}

/// An ending is defined for every task, for every command and whatever the bytes of the files are: also for packed files
/// of other writers, and for merges. Together with `one_ending`, each run has its one ending.
pub fn no_task_is_without_an_ending()
    ensures { SomeEndingIsDefined }
{
    no_file_is_without_an_answer();
    converting_gives_something();
    splitting_gives_something();
    merging_gives_something();
}

/// Which tasks and files have an ending that is known before they are read: wrong words, and commands with one input if
/// it is missing, plain, or the packed form of an accepted plain file.
pub fn endings_are_defined()
    ensures wrong { WrongWordsEnd }
    ensures missing { MissingInputsEnd }
    ensures plain { PlainInputsEnd }
    ensures packed { PackedFormsEnd }
{}

/// The number of workers does not matter: tasks that differ in it alone have one ending.
pub fn workers_do_not_matter()
    ensures { WorkersDoNotMatter }
{}

/// The parts that `lassplit -split n` makes of a file, merged in their order, are the file's records again, under its
/// plain head with their counts. This holds for whole records, one or more, whose plain head has an offset within its
/// limit, and so for every accepted file that has a record: each plain one, and each packed one whose chunks all hold
/// records and whose plain head is within the limit.
pub fn parts_of_a_split_merge()
    ensures merge { PartsOfSplitMerge }
    ensures plain { PlainRecordsAreWhole }
    ensures packed { PackedRecordsAreWhole }
{}
