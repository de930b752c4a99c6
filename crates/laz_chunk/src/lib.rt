//! Chunks of LAZ: records into bytes, and bytes into records.
//!
//! A chunk is its first record as it stands, and then one stream of the coder for all further ones. Each record is
//! coded by the items of its format in order: POINT10, GPSTIME11 (formats 1 and 3), RGB12 (formats 2 and 3) and BYTE
//! (the extra bytes), as in M. Isenburg, "LASzip: lossless compression of LiDAR data" (PE&RS 2013).
#![tactic(auto)]

mod absent;
mod items;
mod laws;
mod parts;
mod records;
mod workspace;

pub use laws::{
    chunks_are_bounded, chunks_hold, one_is_held, records_have_few_events,
    records_have_the_length_of_their_format,
};
pub use workspace::{Workspace, room_for};
