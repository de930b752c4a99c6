//! What `lasinfo` does to a whole file: its records, one after another, are shown to a survey.
#![tactic(auto)]

mod surveying;

pub use surveying::survey;
