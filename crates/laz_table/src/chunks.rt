//! The chunks that a table may have, and those that it has.

ghost use Rattle.std.specs.Prelude.{◌≡◌};
ghost use Rattle.laz_table.specs.Chunks.{are_counted};

/// What the head of a packed file says of its chunks.
#[derive(Clone, Copy, Debug, PartialEq, Eq)]
pub enum Blocks {
    /// Each chunk has `chunk` points, at least 1, but the last one, which has the rest.
    Fixed {
        /// The chunk size, in points.
        chunk: u32,
        /// The number of points of the file.
        points: u32,
    },
    /// Each chunk has a number of points of its own, 1 to 250,000, which the chunk table has.
    Counted {
        /// The number of points of the file.
        points: u32,
    },
}

impl Blocks {
    /// Whether each chunk has a number of points of its own.
    pub fn are_counted(&self) -> bool
        ensures { result ≡ are_counted self.now }
    {
        match self {
            Blocks::Fixed {
                chunk: _,
                points: _,
            } => false,
            Blocks::Counted { points: _ } => true,
        }
    }
}

/// The chunks of a file, in order.
#[derive(Drop)]
pub struct ChunkList {
    /// The number of points of each chunk.
    pub sizes: Vec<u32>,
    /// The number of bytes of each chunk.
    pub counts: Vec<u32>,
}

/// Why a chunk table is refused, or not read.
#[derive(Clone, Copy, Debug, PartialEq, Eq)]
pub enum TableFault {
    /// The bytes hold no table of the chunks that the file may have: there are fewer than 8 of them, the version is not
    /// 0, the number of chunks is another, or no numbers of points and bytes are spelled by what follows.
    Table,
    /// The chunks' numbers of bytes do not add up.
    ChunkSum,
    /// A chunk with a number of points of its own has none or more than 250,000, or these numbers do not add up.
    PointSum,
    /// Out of memory.
    Memory,
}
