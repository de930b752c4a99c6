//! What `lasmerge` does to whole files: the records of files that were written under one header go, one file after
//! another, into an output under the plain head of the first, with counts of their own, plain or packed.
#![tactic(auto)]

mod appending;
mod copying;
mod copying_chunks;
mod fault;
mod field;
mod input;
mod laws;
mod listing;
mod merging;
mod opening;
mod source;
mod summing;

pub use copying_chunks::merge_copied;
pub use fault::MergeFault;
pub use field::Field;
pub use laws::{
    copied_inputs_are_merged, copying_ends_in_one_way, merging_ends_in_one_way,
    merging_gives_something, parts_merge_to_the_whole,
};
pub use merging::merge;
