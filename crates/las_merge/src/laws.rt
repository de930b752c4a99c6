//! Laws of the definitions that the contracts of `merge` and `merge_copied` cite.
ghost use Rattle.las_merge.specs.CopiedLaws.{AreAcceptedAsOne, AreCopiedOnce, HaveMergedRecords};
ghost use Rattle.las_merge.specs.CopiedLaws.{IsKeptFromCopyingByOne};
ghost use Rattle.las_merge.specs.CopiedLaws.{IsKeptOrCopied, UnpackToMerged};
ghost use Rattle.las_merge.specs.Existing.{AreKeptOrCopied, AreKeptOrMerged, MergesToSomething};
ghost use Rattle.las_merge.specs.Laws.{AreMergedOnce, IsKeptByOne, IsKeptOrMerged, MergesInOneWay};
ghost use Rattle.las_merge.specs.Parts.{PartsMerge};

use laz_file::{no_file_is_without_an_answer, records_have_one_answer};

/// Inputs are kept from being merged by one cause, or by none, and then they are one list of files. Whatever the bytes
/// of these are, what merging them gives is the only thing that it can give: one list of records, and one bad chunk or
/// none.
pub fn merging_ends_in_one_way()
    ensures kept { IsKeptByOne }
    ensures merged { IsKeptOrMerged }
    ensures once { AreMergedOnce }
    ensures records { MergesInOneWay }
{
    records_have_one_answer();
}

/// Files that were written under one plain head, each with a part of some records and with their counts, can be merged,
/// if they have fewer than 2^32 records in all: merging them in order gives all of the records under that head, with
/// their counts, plain or packed.
pub fn parts_merge_to_the_whole()
    ensures { PartsMerge }
{}

/// Packed inputs are kept from being copied by one cause, or by none, and then they are one list of files and chunks.
pub fn copying_ends_in_one_way()
    ensures kept { IsKeptFromCopyingByOne }
    ensures copied { IsKeptOrCopied }
    ensures once { AreCopiedOnce }
{}

/// Inputs whose chunks are copied are accepted as one file, whether or not the chunks hold records. If no chunk is bad,
/// it has the records that merging gives. If moreover each head has the right numbers by return, in each set that it
/// has, and each has the second set if the first one does, it unpacks to the merged file.
pub fn copied_inputs_are_merged()
    ensures accepted { AreAcceptedAsOne }
    ensures records { HaveMergedRecords }
    ensures merged { UnpackToMerged }
{}

/// Something comes of a merge, whatever the inputs are: something keeps them from being merged, or they can be merged,
/// and so with the copying of their chunks. Merging accepted files gives records.
pub fn merging_gives_something()
    ensures merged { AreKeptOrMerged }
    ensures records { MergesToSomething }
    ensures copied { AreKeptOrCopied }
{
    no_file_is_without_an_answer();
}
