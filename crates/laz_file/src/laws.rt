//! Laws of files, as contracts of functions that do nothing.

ghost use Rattle.laz_forms.specs.Laws.{AreCounted, ArePackedChunks, HasNoBadPiece, HasOneBlock, HasOneInRange};
ghost use Rattle.laz_forms.specs.Laws.{HasOnePieces, HasOneRecords, IsAcceptedPack};
ghost use Rattle.laz_forms.specs.Laws.{IsAcceptedPlain, IsCountedFile, IsFinished, IsItsPlainForm, IsPackedAccepted};
ghost use Rattle.laz_forms.specs.Laws.{IsEmptyRange, IsRangeReadOnce, IsSliceOfRecords, IsWholeOfAll};
ghost use Rattle.laz_forms.specs.Existing.{HasAnAnswer, HasPieces, HasSomeRecords, HasSomeInRange};
ghost use Rattle.laz_forms.specs.Laws.{IsReadOnce, IsRefusedOnce, ReadsBack, ReadsPlain, UnpacksAgain};

use laz_chunk::one_is_held;

/// A file is refused for at most one cause, and has at most one list of pieces. Records that are read of it piece by
/// piece, if each piece holds one block alone, are its only ones, and so is the first bad piece.
pub fn files_have_one_answer()
    ensures refusal { IsRefusedOnce }
    ensures pieces { HasOnePieces }
    ensures records { IsReadOnce }
{}

/// Whatever the bytes of a file are, each piece of it holds at most one block of records. So the file has at most one
/// list of records and one first bad piece, and so has each range of it.
pub fn records_have_one_answer()
    ensures blocks { HasOneBlock }
    ensures records { HasOneRecords }
    ensures range { HasOneInRange }
{
    one_is_held();
}

/// No file is without an answer: it is refused or accepted, whatever its bytes are. An accepted file has pieces, and
/// records before its end or its first bad chunk, and so has a range of it.
pub fn no_file_is_without_an_answer()
    ensures answer { HasAnAnswer }
    ensures pieces { HasPieces }
    ensures records { HasSomeRecords }
    ensures range { HasSomeInRange }
{}

/// The records of the range of all places are those of the file. Records of a range that are read piece by piece, if
/// each piece holds one block alone, are its only ones, and so is the first bad piece that meets it. An empty range
/// meets no chunk. Of a file whose chunks all hold records, the records of a range are that slice of all records.
pub fn ranges_have_one_answer()
    ensures whole { IsWholeOfAll }
    ensures records { IsRangeReadOnce }
    ensures none { IsEmptyRange }
    ensures slice { IsSliceOfRecords }
{}

/// A finished output is its head and its records, packed or plain. Its head has the counts of its records, if they are
/// counted.
pub fn outputs_are_finished()
    ensures finished { IsFinished }
    ensures counted { IsCountedFile }
{}

/// An accepted plain file is packed without loss, in chunks of 256 to 250,000 points: the packed form is accepted, its
/// pieces are the chunks, which hold the blocks of the records, and its plain form is the file again.
pub fn files_are_packed_without_loss()
    ensures accepted { IsPackedAccepted }
    ensures chunks { ArePackedChunks }
    ensures back { UnpacksAgain }
{}

/// What is read of an accepted plain file, or of its packed form, is its records: no chunk of the packed form is bad,
/// and the blocks that its chunks hold follow the plain head as they do in the file.
pub fn files_are_read_whole()
    ensures none_bad { HasNoBadPiece }
    ensures packed { ReadsBack }
    ensures plain { ReadsPlain }
    ensures plain_form { IsItsPlainForm }
{}

/// A plain head and the records that it counts are an accepted file, and so is their packed form, which unpacks to
/// them. A head with the counts of records counts them.
pub fn heads_and_records_are_accepted()
    ensures plain { IsAcceptedPlain }
    ensures packed { IsAcceptedPack }
    ensures counted { AreCounted }
{}
