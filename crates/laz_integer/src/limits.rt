//! The integer compressor's numbers.

/// The greatest number of bits of an integer.
pub const MAX_BITS: u32 = 32;

/// The greatest number of contexts of an integer.
pub const MAX_CONTEXTS: u32 = 32;

/// How many bits of a corrector's index are coded under a model. The lower bits of a longer index are coded raw.
pub const HIGH_BITS: u32 = 8;

/// The greatest number of bits of an integer whose events are at most three: its raw bits are then one event.
pub const SHORT_BITS: u32 = 27;

/// The greatest number of bytes that the events of an integer add to a stream.
pub const MAX_INT_BYTES: u32 = 12;

/// The same for an integer of at most [`SHORT_BITS`] bits.
pub const MAX_SHORT_INT_BYTES: u32 = 9;

/// The middle of the parts that the symbols of a model share.
pub const MIDDLE: u64 = 0x4000;
