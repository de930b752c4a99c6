//! Why a run ends before its work is done.
use las_header::Refusal;
use las_merge::Field;

/// Why a run ends before its work is done. A file is given by its number among those that the command reads.
#[derive(Clone, Copy, Debug, PartialEq, Eq)]
pub enum Stop {
    /// Out of memory.
    Memory,
    /// The word of this index is wrong.
    Usage(usize),
    /// The file could not be read, or is not there.
    Read(usize),
    /// An output could not be written.
    Write,
    /// The input is refused for this cause.
    Refused(usize, Refusal),
    /// The input is the first that differs from the first input, and this is the first field in which it does.
    Differs(usize, Field),
    /// The inputs have too many of these.
    TooMany(Surplus),
}

/// What inputs can have too many of to be merged.
#[derive(Clone, Copy, Debug, PartialEq, Eq)]
pub enum Surplus {
    /// 2^32 point records or more.
    Points,
    /// More than 2^24 chunks, which were to be copied.
    Chunks,
}
