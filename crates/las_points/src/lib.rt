//! Point records, as slices of bytes that are read and changed in place.
//!
//! The layout is that of the point data record formats 0 to 3 of the LAS specification (ASPRS). A record of format 0
//! has 20 bytes, and the records of the others begin with its fields. Every call needs a record of at least 20 bytes,
//! `time` and `rgb` one of at least the size of its format. No call takes memory, and none refuses anything.
#![tactic(auto)]

mod count;
mod read;
mod write;

pub use crate::count::count_in;
pub use crate::read::{
    angle, class, class_byte, direction, flags, intensity, return_number, returns_of_pulse, rgb,
    source, time, user, x, y, z,
};
pub use crate::write::{set_class, set_source, set_user, set_x, set_y, set_z};
pub use las_header::size_of;
