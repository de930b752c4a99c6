//! What `make` does: a plain file of records that a seed determines, to try everything on, and its packed form.
#![tactic(auto)]

mod blocks;
mod counting;
mod drawing;
mod fault;
mod head;
mod laws;
mod making;
mod packing;
mod plain;
mod records;
mod settings;

pub use fault::MakeFault;
pub use laws::{faults_leave_unfinished_outputs, made_files_are_packed};
pub use making::{Sizes, make};
pub use settings::{MAX_POINTS, Settings};
