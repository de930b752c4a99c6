//! The coder of LAZ for C: chunks of point records packed and unpacked, and heads, laszip VLRs and chunk tables read and
//! written.
//!
//! Each call tests its arguments, and answers [`WRONG`] for those that it does not take. A C caller owes valid pointers
//! that do not overlap, and nothing else. No call keeps anything, so calls may run side by side in threads of the
//! caller.
#![tactic(auto)]

mod answers;
mod chunks;
mod head;
mod table;
mod version;
mod writing;

pub use answers::{BAD, DONE, NO_MEMORY, WRONG};
pub use head::LazHead;
