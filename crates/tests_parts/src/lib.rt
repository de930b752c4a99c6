//! Tests of lower crates, a module for each: what no clause says, and calls with ample memory.
#![tactic(auto)]

#[cfg(test)]
mod header;
#[cfg(test)]
mod samples;
#[cfg(test)]
mod words;
#[cfg(test)]
mod workers;
