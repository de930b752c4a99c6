//! Numbers of reading and writing, each defined here alone.

/// The number of records in which a plain file is read at once.
pub const PLAIN_BLOCK: u32 = 50_000;
