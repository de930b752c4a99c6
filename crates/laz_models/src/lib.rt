//! Adaptive models of symbols and bits, which give a range coder its distributions.
//!
//! The models are those of LASzip (Isenburg, PE&RS 2013), after Said's arithmetic coder: each counts what was coded. It
//! computes its distribution from the counts at the beginning of each cycle of symbols and keeps it through the cycle.
#![tactic(auto)]

mod bank;
mod bank_cells;
mod bit_model;
mod laws;
mod limits;
mod lookup;
mod model_cells;
mod near;
mod place;
mod symbol_model;

pub use bank::ModelBank;
pub use bit_model::BitModel;
pub use laws::{cycles_are_due, models_are_sound, models_stand, starts_rise, zero_has_a_part};
pub use limits::{
    BIT_PARTS, GUARD, MAX_BIT_COUNT, MAX_COUNT, MAX_MODELS, MAX_SYMBOLS, SYMBOL_PARTS,
};
pub use near::Near;
pub use symbol_model::SymbolModel;
