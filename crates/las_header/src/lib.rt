//! The head of a LAS file, from its first byte up to the point data: the fields of the public header
//! block, the variable-length records (VLRs), the conditions under which a file is refused, and heads
//! with other counts, with a laszip VLR or without one.
//!
//! The layout is that of the LAS specification (ASPRS), versions 1.0 to 1.4. Numbers stand lowest
//! byte first, and are read and written here for the crates above too.
#![tactic(auto)]

mod changes;
mod conditions;
mod counts;
mod fields;
mod front;
mod head;
mod laws;
mod limits;
mod numbers;
mod refusal;
mod vlrs;

pub use crate::counts::Counts;
pub use crate::fields::size_of;
pub use crate::front::need;
pub use crate::head::Head;
pub use crate::laws::causes_by_steps;
pub use crate::limits::{
    BOUNDS_AT, COUNTS_AT, COUNTS_SIZE, HEADER_BLOCK, HEADER_BLOCK_1_3, HEADER_BLOCK_1_4,
    LAST_FORMAT, LAST_MINOR, LASZIP_DESCRIPTION, LASZIP_RECORD_ID, LASZIP_USER_ID, LONG_COUNTS_AT,
    LONG_COUNTS_SIZE, MAX_CHUNK_POINTS, MAX_EXTRA, MAX_LASZIP_PAYLOAD, MAX_OFFSET,
    MAX_PLAIN_OFFSET, MIN_CHUNK_POINTS, OFFSETS_AT, POINT_RECORD, SCALES_AT, VLR_HEAD,
};
pub use crate::numbers::{read_again, set_u16_at, set_u32_at, set_u64_at, u16_at, u32_at, u64_at};
pub use crate::refusal::Refusal;
pub use crate::vlrs::VlrPlace;
