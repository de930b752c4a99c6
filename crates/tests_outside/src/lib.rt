//! Tests of files and streams of the system, whose bytes no clause sees: scripts, and what plays them.
#![tactic(auto)]

#[cfg(test)]
mod drafts;
#[cfg(test)]
mod plain;
#[cfg(test)]
mod said;
#[cfg(test)]
mod steps;
#[cfg(test)]
mod system;
#[cfg(test)]
mod words;
