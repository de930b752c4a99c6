//! Files of point records, plain and packed, read as streams of blocks.
#![tactic(auto)]

mod answers;
mod chunks;
mod crewing;
mod hands;
mod inputs;
mod lending;
mod listing;
mod next;
mod next_packed;
mod next_plain;
mod opening;
mod ranges;
mod reader;
mod reading;
mod seeking;
mod spans;
mod turn;
mod unpack_job;

pub use reader::Reader;
pub use turn::Turn;
pub use unpack_job::UnpackJob;
