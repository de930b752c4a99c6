//! The models' numbers.

/// How many parts the symbols of a model share, which is 2^15.
pub const SYMBOL_PARTS: u32 = 0x8000;

/// How many parts the two values of a bit share, which is 2^13.
pub const BIT_PARTS: u32 = 0x2000;

/// The greatest sum of the counts of a model of symbols, which is 2^15. Above it they are halved.
pub const MAX_COUNT: u32 = 0x8000;

/// The greatest number of bits that a model of bits counts, which is 2^13. Above it they are halved.
pub const MAX_BIT_COUNT: u32 = 0x2000;

/// The greatest number of symbols of a model.
pub const MAX_SYMBOLS: u32 = 2048;

/// The greatest number of models of a bank.
pub const MAX_MODELS: usize = 1024;

/// The start that stands for none, after the last one of a distribution.
pub const GUARD: u32 = 0xffff;
