//! Colours and extra bytes of point records: the items RGB12 and BYTE of LASzip, version 2.
#![tactic(auto)]

mod bytes;
mod colour;
mod laws;
mod reading;
mod rgb;
mod writing;

pub use bytes::Bytes;
pub use colour::Colour;
pub use laws::{colours_are_lawful, colours_are_spelled, extras_are_lawful, extras_are_spelled};
pub use rgb::Rgb;
