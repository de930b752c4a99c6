//! Packed files as one: the chunks of all of them as they stand, none of them decoded, under one head, with a table of
//! the number of points and the number of bytes of each chunk.
//!
//! Such chunks are the counted chunks of LASzip, which a chunk size of 2^32 - 1 in the laszip VLR stands for.
#![tactic(auto)]

ghost use Rattle.laz_copied.specs.Laws.{HasTheirRecords, IsCopiedAccepted, UnpacksToMerged};

/// Files whose chunks are copied into one are accepted as one, whether or not its chunks hold records. If no chunk of
/// any of them is bad, the one file has their records, one file after another. If moreover each head has the right
/// numbers by return, in each set that it has, and each has the second set if the first one does, then the one file
/// unpacks to the first file's plain head with the counts of all records, and the records.
pub fn copied_files_have_their_records()
    ensures accepted { IsCopiedAccepted }
    ensures records { HasTheirRecords }
    ensures merged { UnpacksToMerged }
{}
