//! The range coder of LAZ: events into bytes, and bytes into events.
//!
//! An [`Encoder`] keeps an interval of numbers. Each event cuts its part out of the interval, and at the end the
//! encoder writes one number of what is left. A [`Decoder`] follows the same parts from that number. An event is a
//! symbol, which has some of 2^15 parts of the interval, a bit, which has some of 2^13 parts, or a raw value of 1 to 32
//! bits. A carry is exact however many bytes of 255 it runs through.
//!
//! The coder is that of A. Said, "Introduction to Arithmetic Coding" (HP Laboratories 2004), as M. Isenburg, "LASzip:
//! lossless compression of LiDAR data" (PE&RS 2013) uses it.
#![tactic(auto)]

mod carry;
mod decoder;
mod encoder;
mod input;
mod lacking;
mod laws;
mod limits;
mod number;
mod output;
mod reciprocal;
mod search;
mod window;

pub use decoder::{Bad, Decoder};
pub use encoder::Encoder;
pub use laws::{
    bytes_fit, events_follow, fronts_begin, fronts_fit, one_begins, parts_are_alike,
    shifts_are_few, shifts_grow, spans_lie,
};
pub use limits::{BIT_PARTS, GUARD, MAX_LENGTH, MAX_RAW_BITS, MIN_LENGTH, SYMBOL_PARTS};
