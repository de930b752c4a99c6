//! LASzip's numbers of the symbols of times, which are multiples of the last difference of a sequence.

/// The greatest multiple that has a symbol, which is its own (`LASZIP_GPSTIME_MULTI`).
pub const MULTI: u32 = 500;

/// The greatest multiple below 0 that has a symbol, without its sign (`LASZIP_GPSTIME_MULTI_MINUS`).
pub const MULTI_MINUS: u32 = 10;

/// The symbol of the last time of a sequence (`LASZIP_GPSTIME_MULTI_UNCHANGED`).
pub const UNCHANGED: u32 = 511;

/// The symbol of a whole time, which opens a sequence (`LASZIP_GPSTIME_MULTI_CODE_FULL`).
pub const FULL: u32 = 512;

/// How many symbols there are (`LASZIP_GPSTIME_MULTI_TOTAL`).
pub const TOTAL: u32 = 516;
