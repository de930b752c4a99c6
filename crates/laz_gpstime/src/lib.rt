//! GPS times of point records: the item GPSTIME11 of LASzip, version 2.
#![tactic(auto)]

mod coding;
mod gps_time;
mod laws;
mod limits;
mod reading;
mod sequences;
mod symbols;
mod times;

pub use gps_time::GpsTime;
pub use laws::{extremes_are_counted, times_are_lawful, times_are_spelled};
