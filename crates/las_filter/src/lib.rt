//! What `las2las` does to point records, one at a time: filters that keep or drop a record, and changes of its fields.
//!
//! The filters and changes are those of the LAStools program of this name. A [`Plan`] has both. All its filters have to
//! hold of a record as it was read; then its changes are made in their order. Every call needs a record of at least 20
//! bytes, as all records of the point data formats 0 to 3 have. No call on a record takes memory.
//!
//! Beside them stand the rules by which `lassplit` splits a file, and the names of the parts.
#![tactic(auto)]

mod change;
mod keep;
mod laws;
mod parts;
mod plan;
mod rule;

pub use crate::change::{Change, RawRange};
pub use crate::keep::Keep;
pub use crate::laws::kept_one_by_one;
pub use crate::parts::part_name;
pub use crate::plan::Plan;
pub use crate::rule::Rule;
