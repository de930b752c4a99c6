//! Thinning of point records: which records stay if positions are not to repeat, or if a list is thinned to one record
//! in each cell of a square grid, and a sieve that decides this record by record.
//!
//! A cell has X and Y, in steps: the raw coordinates divided by the step and rounded down. A position is X, Y and Z. A
//! record has a place, a number that ascends along a list. Every call needs a record of at least 20 bytes, as all
//! records of the point data formats 0 to 3 have.
#![tactic(auto)]

mod cell;
mod laws;
mod pick;
mod sieve;
mod stored;
mod winner;

pub use crate::cell::cell_of;
pub use crate::laws::{kept_behind_a_sieve, sieving_is_thinning, thinning_leaves_one};
pub use crate::pick::Pick;
pub use crate::sieve::Sieve;
