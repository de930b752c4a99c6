//! The plain and the packed form of a file of point records: what an accepted file is and for which cause another is
//! refused, its pieces and their records, and the packed file that stands for a plain one. And what reading and writing
//! share: the faults, the limits, and crews of workers.
//!
//! A packed file is that of M. Isenburg, "LASzip: lossless compression of LiDAR data" (PE&RS 2013), in chunks of points
//! with items of version 2.
#![tactic(auto)]

mod crew;
mod fault;
mod hands;
mod limits;

pub use crew::{buffers_of, crew_of};
pub use fault::Fault;
pub use hands::hands_for;
pub use limits::PLAIN_BLOCK;
