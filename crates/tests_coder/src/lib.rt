//! Tests of the coder's crates: bytes and values from outside, and records that are packed and unpacked.
#![tactic(auto)]

#[cfg(test)]
mod chunks;
#[cfg(test)]
mod events;
#[cfg(test)]
mod models;
#[cfg(test)]
mod rows;
#[cfg(test)]
mod tables;
#[cfg(test)]
mod texts;
#[cfg(test)]
mod vlrs;
