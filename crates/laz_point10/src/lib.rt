//! The item POINT10 of LASzip, version 2: the first 20 bytes of a point record, which every format has.
//!
//! A point is coded as what changed from the points before it in its chunk, and as the differences of its coordinates
//! from what those predict (Isenburg, "LASzip: lossless compression of lidar data", PE&RS 2013).
#![tactic(auto)]

mod history;
mod laws;
mod median;
mod models;
mod point;
mod point10;
mod reading;
mod returns;
mod writing;

pub use laws::{parts_are_of_points, points_are_lawful, points_are_spelled};
pub use point::Point;
pub use point10::Point10;
