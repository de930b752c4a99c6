//! What `lassplit` does to a whole file: its records go into numbered parts, each a plain file under the file's plain
//! head with counts of its own.
#![tactic(auto)]

mod copying;
mod files;
mod gathering;
mod laws;
mod limits;
mod numbering;
mod numbers;
mod part_names;
mod parts;
mod pushing;
mod running;
mod sorting;
mod splitter;

pub use files::split;
pub use laws::{parts_join, splitting_ends_in_one_way, splitting_gives_something};
pub use limits::MAX_PARTS;
pub use numbering::part_of;
pub use part_names::PartNames;
