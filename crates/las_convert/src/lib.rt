//! What `las2las` does to a file, or to a range of its records: they are filtered, thinned and changed, and go into an
//! output under the file's plain head, with counts of their own, plain or packed. Taps see what is written.
#![tactic(auto)]

mod copying;
mod files;
mod keeping;
mod laws;
mod looking;
mod passage;

pub use files::convert;
pub use laws::{converting_all_places, converting_ends_in_one_way, converting_gives_something};
pub use looking::look_through;
pub use passage::Passage;
