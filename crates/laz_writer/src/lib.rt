//! Files of point records, plain and packed, written block by block.
#![tactic(auto)]

mod begin;
mod finish;
mod hands;
mod pack_job;
mod packed_end;
mod packing;
mod patch;
mod put;
mod tally;
mod unfinished;
mod writer;

pub use unfinished::stopped_outputs_are_unfinished;
pub use writer::Writer;
