//! The named causes for which a file is refused.

ghost use Rattle.std.specs.Prelude.{◌≡◌};

/// Why a file is refused, each with the condition under which it is.
///
/// A file has S bytes, header size H, offset to the point data O, N points, point data format byte f and record length
/// L. It is packed if bit 7 of f is set, else plain. N is the number of points at byte 107; for LAS 1.4, if that is 0,
/// it is the one at byte 247. The refusal of a file is the first of the conditions that holds, in this order: `Short`
/// to `RecordLength`, `Extended`, `PointCounts`, `Count` to `ChunkSum`, `PointSum`. The other causes come from calls
/// that name them.
///
/// This crate answers `Short` to `StrayVlr`, `Extended` and `PointCounts`.
#[derive(Clone, Copy, Debug, PartialEq, Eq)]
pub enum Refusal {
    /// S is below 227.
    Short,
    /// The first four bytes are not `LASF`.
    Magic,
    /// The major version is not 1, or the minor one is above 4.
    Version,
    /// H is below 227 for LAS 1.0 to 1.2, below 235 for LAS 1.3, or below 375 for LAS 1.4.
    HeaderSize,
    /// O is below H, or above S, or above 16,777,216 for a packed file or 16,777,104 for a plain one.
    Offset,
    /// The 54 bytes of a VLR's head or its payload, one VLR after another from H on, pass O.
    Vlrs,
    /// The low seven bits of f are above 3.
    Format,
    /// L is below the size of the format, or above that size plus 192.
    RecordLength,
    /// Plain: S - O is below N times L, so the file ends before its last point record.
    Count,
    /// Plain: S - O is above N times L, so the file goes on after its last point record.
    Trailing,
    /// Plain: a VLR is a laszip VLR.
    StrayVlr,
    /// Packed: the number of laszip VLRs is not one.
    NoVlr,
    /// Packed: the payload of the laszip VLR is too short, or not as long as its number of items needs.
    VlrShape,
    /// Packed: the compressor is not the chunked one of version 2, or the coder is not the arithmetic one.
    Compressor,
    /// Packed: the items are not those of the format and the record length.
    Items,
    /// Packed: the chunk size is one that is not read.
    ChunkSize,
    /// Packed: there are more than 2^24 chunks.
    TooManyChunks,
    /// Packed: the position of the chunk table is missing or outside the file.
    TablePointer,
    /// Packed: the chunk table is not whole.
    Table,
    /// Packed: the sizes of the chunks do not add up to the place of the chunk table.
    ChunkSum,
    /// The chunk of this number, from 0, does not hold its number of point records.
    BadChunk(u32),
    /// The kept point record of this number, from 0, would get a coordinate outside 32 bits.
    RawRange(u64),
    /// The point records fall into more than 512 parts.
    TooManyParts,
    /// Packed, with a number of points for each chunk: these are out of range, or do not add up to N.
    PointSum,
    /// LAS 1.4: the number of extended VLRs, at byte 243, is not 0.
    Extended,
    /// LAS 1.4: the number of points at byte 247 is 2^32 or more, or it and the one at byte 107 are both not 0 and
    /// differ.
    PointCounts,
    /// The file is plain, and its chunks were to be copied.
    NotPacked,
}

impl Refusal {
    ghost use Rattle.las_header.specs.Causes.{cause_number, cause_name};

    /// The number of the cause, 1 to 27: its place in the enum. No memory is taken.
    pub fn number(&self) -> u8
        ensures { result ≡ cause_number self.now }
    {
        match self {
            Refusal::Short => 1,
            Refusal::Magic => 2,
            Refusal::Version => 3,
            Refusal::HeaderSize => 4,
            Refusal::Offset => 5,
            Refusal::Vlrs => 6,
            Refusal::Format => 7,
            Refusal::RecordLength => 8,
            Refusal::Count => 9,
            Refusal::Trailing => 10,
            Refusal::StrayVlr => 11,
            Refusal::NoVlr => 12,
            Refusal::VlrShape => 13,
            Refusal::Compressor => 14,
            Refusal::Items => 15,
            Refusal::ChunkSize => 16,
            Refusal::TooManyChunks => 17,
            Refusal::TablePointer => 18,
            Refusal::Table => 19,
            Refusal::ChunkSum => 20,
            Refusal::BadChunk(_) => 21,
            Refusal::RawRange(_) => 22,
            Refusal::TooManyParts => 23,
            Refusal::PointSum => 24,
            Refusal::Extended => 25,
            Refusal::PointCounts => 26,
            Refusal::NotPacked => 27,
        }
    }

    /// The name of the cause, as `Trailing`. No memory is taken.
    pub fn name(&self) -> &str
        ensures { result.now ≡ cause_name self.now }
    {
        match self {
            Refusal::Short => "Short",
            Refusal::Magic => "Magic",
            Refusal::Version => "Version",
            Refusal::HeaderSize => "HeaderSize",
            Refusal::Offset => "Offset",
            Refusal::Vlrs => "Vlrs",
            Refusal::Format => "Format",
            Refusal::RecordLength => "RecordLength",
            Refusal::Count => "Count",
            Refusal::Trailing => "Trailing",
            Refusal::StrayVlr => "StrayVlr",
            Refusal::NoVlr => "NoVlr",
            Refusal::VlrShape => "VlrShape",
            Refusal::Compressor => "Compressor",
            Refusal::Items => "Items",
            Refusal::ChunkSize => "ChunkSize",
            Refusal::TooManyChunks => "TooManyChunks",
            Refusal::TablePointer => "TablePointer",
            Refusal::Table => "Table",
            Refusal::ChunkSum => "ChunkSum",
            Refusal::BadChunk(_) => "BadChunk",
            Refusal::RawRange(_) => "RawRange",
            Refusal::TooManyParts => "TooManyParts",
            Refusal::PointSum => "PointSum",
            Refusal::Extended => "Extended",
            Refusal::PointCounts => "PointCounts",
            Refusal::NotPacked => "NotPacked",
        }
    }
}
