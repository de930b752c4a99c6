//! The coder's numbers.

/// How many parts the symbols of a distribution share, which is 2^15.
pub const SYMBOL_PARTS: u32 = 0x8000;

/// How many parts the two values of a bit share, which is 2^13.
pub const BIT_PARTS: u32 = 0x2000;

/// How many bits a raw value has at most that is one event. One of more bits is two events.
pub const MAX_RAW_BITS: u32 = 19;

/// The length of the interval before any event, which is its greatest.
pub const MAX_LENGTH: u32 = 0xffff_ffff;

/// The least length of the interval between two events, which is 2^24. A shorter one is renormalised.
pub const MIN_LENGTH: u32 = 0x100_0000;

/// The start that stands for none, after the last one of a distribution: the value lies below it, whatever the length
/// of the interval is.
pub const GUARD: u32 = 0xffff;
