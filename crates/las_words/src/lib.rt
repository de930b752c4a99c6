//! The words of the command line: which command they ask for, or which word is the first that is wrong.
//!
//! The first word is the command, and options follow in any order, each with its values, as in LAStools. One table has
//! all options, and one definition over it, `says`, gives their meaning.
#![tactic(auto)]

mod command;
mod faults;
mod names;
mod numbers;
mod options;
mod pieces;
mod plan;
mod read;
mod settings;
mod table;
mod tallies;
mod texts;

pub use crate::command::{Command, Packing, WordFault};
pub use crate::read::read_words;
