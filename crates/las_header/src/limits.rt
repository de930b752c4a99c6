//! Sizes, places and limits of heads and point records, each defined here alone.

/// The length of the public header block of LAS 1.0, 1.1 and 1.2, in bytes. Every later version begins with it.
pub const HEADER_BLOCK: usize = 227;

/// The length of the public header block of LAS 1.3, in bytes.
pub const HEADER_BLOCK_1_3: usize = 235;

/// The length of the public header block of LAS 1.4, in bytes.
pub const HEADER_BLOCK_1_4: usize = 375;

/// The last minor version that is read: 4.
pub const LAST_MINOR: u8 = 4;

/// The last point data format that is read: 3.
pub const LAST_FORMAT: u8 = 3;

/// The length of a point record of format 0, in bytes. The records of all formats begin with it.
pub const POINT_RECORD: usize = 20;

/// The most extra bytes that a point record may have after the bytes of its format.
pub const MAX_EXTRA: u16 = 192;

/// The greatest offset to the point data of a packed file, in bytes: 2^24.
pub const MAX_OFFSET: u32 = 16_777_216;

/// The greatest offset to the point data of a plain file, in bytes. A laszip VLR of the greatest length still fits
/// below [`MAX_OFFSET`].
pub const MAX_PLAIN_OFFSET: u32 = 16_777_104;

/// The length of the head of a VLR, in bytes. The payload follows.
pub const VLR_HEAD: usize = 54;

/// The greatest length of the payload of a laszip VLR that is written, in bytes: 34, and 6 for each of 4 items.
pub const MAX_LASZIP_PAYLOAD: usize = 58;

/// The user ID of a laszip VLR.
pub const LASZIP_USER_ID: [u8; 16] = *b"laszip encoded\0\0";

/// The description of a laszip VLR that is written.
pub const LASZIP_DESCRIPTION: [u8; 32] = *b"laszip version 2 items\0\0\0\0\0\0\0\0\0\0";

/// The record ID of a laszip VLR.
pub const LASZIP_RECORD_ID: u16 = 22_204;

/// The place in a head of the scales of x, y and z, as doubles.
pub const SCALES_AT: usize = 131;

/// The place in a head of the offsets of x, y and z, as doubles.
pub const OFFSETS_AT: usize = 155;

/// The place in a head of the greatest and the least x, y and z, as doubles.
pub const BOUNDS_AT: usize = 179;

/// The place in a head of the number of points and the numbers of points by return 1 to 5, as `u32`.
pub const COUNTS_AT: usize = 107;

/// The length of the counts at [`COUNTS_AT`], in bytes.
pub const COUNTS_SIZE: usize = 24;

/// The place in a head of LAS 1.4 of the number of points and the numbers of points by return 1 to 15, as `u64`.
pub const LONG_COUNTS_AT: usize = 247;

/// The length of the counts at [`LONG_COUNTS_AT`], in bytes.
pub const LONG_COUNTS_SIZE: usize = 128;

/// The fewest points of a chunk of a file that is written.
pub const MIN_CHUNK_POINTS: u32 = 256;

/// The most points of a chunk, of a file that is read or written.
pub const MAX_CHUNK_POINTS: u32 = 250_000;
