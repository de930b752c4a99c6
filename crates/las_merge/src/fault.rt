//! Why files are not merged.
use crate::Field;
use laz_file::Fault;
use thiserror::Error;

/// Why files are not merged. An input is given by its number among the inputs, from 0.
#[derive(Clone, Copy, Debug, PartialEq, Eq, Error)]
pub enum MergeFault {
    /// The input of this number is refused or could not be read, or there was no memory for it.
    #[error("input {0}: {1}")]
    At(u32, Fault),
    /// The input of this number is the first that differs from the first input, and this is the first field in which it
    /// does.
    #[error("input {0} differs from the first in its {1:?}")]
    Unequal(u32, Field),
    /// The inputs have 2^32 point records or more.
    #[error("the inputs have too many points")]
    TooManyPoints,
    /// The inputs have more than 2^24 chunks, and these were to be copied.
    #[error("the inputs have too many chunks")]
    TooManyChunks,
    /// The output could not be written.
    #[error("the output could not be written")]
    Write,
    /// Out of memory.
    #[error("out of memory")]
    Memory,
}
