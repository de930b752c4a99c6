//! What a packed LAS file says of its chunks: the laszip VLR, with the items of a point record and the chunk size, and
//! the chunk table, with the size of each chunk.
//!
//! Both are those of M. Isenburg, "LASzip: lossless compression of LiDAR data" (PE&RS 2013), with the compressor of
//! chunks of points, items of version 2. Chunks have a fixed number of points each, or a number of their own.
#![tactic(auto)]

mod chunks;
mod entries;
mod laws;
mod limits;
mod reading;
mod table;
mod vlr;
mod writing;

pub use chunks::{Blocks, ChunkList, TableFault};
pub use laws::{tables_are_short, tables_hold_one_pair, tables_hold_their_lists};
pub use limits::{
    ARITHMETIC_CODER, CHUNKED_COMPRESSOR, COUNTED_CHUNKS, ITEM_VERSION, MAX_CHUNK_BYTES,
    MAX_CHUNKS, MIN_TABLE_BYTES, PAYLOAD_ITEM, PAYLOAD_START, TABLE_CONTEXTS, TABLE_START,
};
pub use table::read_table;
pub use vlr::{chunk_count, read_vlr, vlr_of};
pub use writing::{counted_table_of, table_of};
