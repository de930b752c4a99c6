//! The integer compressor of LASzip: symbols and bits under adaptive models, and integers as correctors of their
//! predictions.
//!
//! An integer is coded as its corrector, which is the difference to its prediction folded into the integer's number of
//! bits: first the width of the corrector, under a context, then the index of the corrector in that width (Isenburg,
//! LASzip, PE&RS 2013).
//!
//! For the crates of items it also has fields that are coded only if they are marked as changed, and the laws of events
//! under the names of their models.
#![tactic(auto)]

mod corrector;
mod fields;
mod int_model;
mod laws;
mod limits;
mod marks;
mod models;
mod symbols;

pub use fields::{put_byte, put_word, take_byte, take_word};
pub use int_model::IntModel;
pub use laws::{
    event_bytes_fit, event_fronts_begin, events_cut, integers_are_lawful, integers_are_spelled,
    one_event_begins, other_uses_leave,
};
pub use limits::{
    HIGH_BITS, MAX_BITS, MAX_CONTEXTS, MAX_INT_BYTES, MAX_SHORT_INT_BYTES, SHORT_BITS,
};
pub use marks::has_bit;
pub use symbols::{
    put_bit, put_symbol, put_symbol_of, take_bit, take_frequent_symbol_of, take_symbol,
    take_symbol_of,
};
