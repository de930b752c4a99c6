//! Files of point records, plain and packed: read and written as streams of blocks, copied, packed and unpacked.
//!
//! A packed file is that of M. Isenburg, "LASzip: lossless compression of LiDAR data" (PE&RS 2013), in chunks of points
//! with items of version 2.
#![tactic(auto)]

mod copying;
mod joining;
mod laws;
mod whole_files;

pub use copying::copy_records;
pub use joining::batches_join;
pub use laws::{
    files_are_packed_without_loss, files_are_read_whole, files_have_one_answer,
    heads_and_records_are_accepted, no_file_is_without_an_answer, outputs_are_finished,
    ranges_have_one_answer, records_have_one_answer,
};
pub use laz_forms::{Fault, PLAIN_BLOCK};
pub use laz_reader::{Reader, Turn, UnpackJob};
pub use laz_writer::{Writer, stopped_outputs_are_unfinished};
pub use whole_files::{pack, unpack};
