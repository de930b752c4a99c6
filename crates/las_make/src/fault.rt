//! Why files are not made.
use las_header::Refusal;
use thiserror::Error;

/// Why files are not made.
#[derive(Clone, Copy, Debug, PartialEq, Eq, Error)]
pub enum MakeFault {
    /// The plain file, which stands whole, could not be read again.
    #[error("the plain file could not be read")]
    ReadPlain,
    /// Another program has changed the plain file since it was written: what was read again is refused for this cause,
    /// or it is a packed file, which is `StrayVlr`.
    #[error("the plain file was changed: {}", .0.name())]
    Changed(Refusal),
    /// The size of the packed file could not be read. Both files stand whole.
    #[error("the size of the packed file could not be read")]
    ReadPacked,
    /// A file could not be written.
    #[error("a file could not be written")]
    Write,
    /// Out of memory.
    #[error("out of memory")]
    Memory,
}
