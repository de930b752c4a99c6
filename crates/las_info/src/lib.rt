//! What is in a file of point records: taps that tally its records, a survey that counts them, and a report.
#![tactic(auto)]

mod bins;
mod block_count;
mod bounds;
mod choosing;
mod extents;
mod laws;
mod limits;
mod lines;
mod reporting;
mod returns;
mod runs;
mod summary;
mod survey;
mod tally;
mod tap;
mod taps;

pub use crate::choosing::choose;
pub use crate::laws::tallies_grow_one_by_one;
pub use crate::reporting::{ReportFault, report, tally_text};
pub use crate::survey::{Survey, show_block};
pub use crate::tap::Tap;
pub use crate::taps::{ClassTap, IntensityTap, ReturnTap, SourceTap};
