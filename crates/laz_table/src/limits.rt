//! Numbers of the laszip VLR and of the chunk table, each defined here alone.

/// The compressor of a laszip VLR that is written and read: point by point, in chunks.
pub const CHUNKED_COMPRESSOR: u16 = 2;

/// The coder of a laszip VLR that is written and read: the range coder.
pub const ARITHMETIC_CODER: u16 = 0;

/// The version of each item that is written and read.
pub const ITEM_VERSION: u16 = 2;

/// The length of a laszip payload before its items, in bytes.
pub const PAYLOAD_START: usize = 34;

/// The length of an item in a laszip payload, in bytes: its type, its size and its version.
pub const PAYLOAD_ITEM: usize = 6;

/// The chunk size of a file whose chunks have a number of points of their own.
pub const COUNTED_CHUNKS: u32 = 4_294_967_295;

/// The most chunks of a file: 2^24.
pub const MAX_CHUNKS: u32 = 16_777_216;

/// The length of a chunk table before its stream, in bytes: its version and the number of chunks.
pub const TABLE_START: usize = 8;

/// The number of contexts of a table's integers: one for numbers of points, one for numbers of bytes.
pub const TABLE_CONTEXTS: u32 = 2;

/// The length of a chunk table without its entries, in bytes: its start, and the four bytes that end its stream.
pub const MIN_TABLE_BYTES: usize = 12;

/// The most bytes that a chunk adds to a table: those of two integers.
pub const MAX_CHUNK_BYTES: usize = 24;
