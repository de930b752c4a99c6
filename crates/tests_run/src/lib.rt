//! Tests of the top call: whole runs over files in memory.
#![tactic(auto)]

#[cfg(test)]
mod cases;
#[cfg(test)]
mod copied_rows;
#[cfg(test)]
mod faults;
#[cfg(test)]
mod las2las_rows;
#[cfg(test)]
mod laszip_rows;
#[cfg(test)]
mod meeting;
#[cfg(test)]
mod range_rows;
#[cfg(test)]
mod recipes;
#[cfg(test)]
mod thin_rows;
#[cfg(test)]
mod tool_rows;
