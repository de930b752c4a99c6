//! The top call of the product: a command line, run over files and streams.
#![tactic(auto)]

mod conversion;
mod input;
mod las2las;
mod lasinfo;
mod lasmerge;
mod lassplit;
mod laszip;
mod laws;
mod make;
mod report;
mod stop;
mod top_call;

pub use laws::{
    endings_are_defined, no_task_is_without_an_ending, one_ending, parts_of_a_split_merge,
    workers_do_not_matter,
};
pub use top_call::run;
