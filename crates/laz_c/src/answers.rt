//! What the calls answer.

/// Done: what the call writes is whole.
pub const DONE: u32 = 0;

/// Out of memory.
pub const NO_MEMORY: u32 = 1;

/// The bytes are not what they are taken for.
pub const BAD: u32 = 2;

/// The arguments are wrong. Nothing is read but these, and nothing is written.
pub const WRONG: u32 = 3;
