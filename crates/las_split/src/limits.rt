//! Numbers of splitting, each defined here alone.

/// The greatest number of parts into which a file is split.
pub const MAX_PARTS: usize = 512;

/// How many records of a block are looked at together: if all of them belong to one part, they are copied at once.
pub(crate) const GROUP: usize = 16;
