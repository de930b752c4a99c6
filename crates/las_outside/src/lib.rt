//! The outside of the product, behind traits: what is read, written and waited for.
#![tactic(auto)]

mod calls;
mod draft_file;
mod draft_list;
mod draft_name;
mod failed;
mod file_identity;
mod file_state;
mod files;
mod gate;
mod handles;
mod known_files;
mod mem_files;
mod mem_room;
mod mem_sink;
mod opened_file;
mod pieces;
mod publishing;
mod real_files;
mod real_sink;
mod sink;
mod target;

pub use failed::Failed;
pub use files::Files;
pub use gate::{Gate, OpenGate};
pub use mem_files::MemFiles;
pub use mem_sink::MemSink;
pub use pieces::put_all;
pub use real_files::RealFiles;
pub use real_sink::RealSink;
pub use sink::Sink;
