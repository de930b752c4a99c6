//! What words ask for.

ghost use Rattle.std.specs.Prelude.{◌≡◌};
ghost use Rattle.las_words.specs.declared.command.WordFault.TheVariants.{Memory};

use las_filter::{Plan, Rule};
use las_thin::Pick;
use std::alloc::AllocError;

/// How an output is written.
#[derive(Clone, Copy, Debug, PartialEq, Eq)]
pub struct Packing {
    /// Packed, as LAZ, or plain, as LAS.
    pub packed: bool,
    /// The number of records of a chunk, 256 to 250,000, if the output is packed.
    pub chunk: u32,
}

/// A command with its options.
#[derive(Drop)]
pub enum Command {
    /// Packs a plain file, and unpacks a packed one.
    Laszip {
        /// The name of the input.
        input: String,
        /// The name of the output, another one.
        output: String,
        /// The number of records of a chunk, 256 to 250,000. It has no effect on a packed input.
        chunk: u32,
        /// The number of workers, 1 to 8.
        workers: u32,
    },
    /// Filters, thins and changes the records of a file.
    Las2las {
        /// The name of the input.
        input: String,
        /// The name of the output, another one.
        output: String,
        /// The filters and the changes, each in the order of the words.
        plan: Plan,
        /// How the output is written.
        packing: Packing,
        /// The number of workers, 1 to 8.
        workers: u32,
        /// The place of the first record that is taken, from 0. It may be past the end.
        start: u32,
        /// The place of the first record after it that is not taken, `start` or above. It may be past the end.
        stop: u32,
        /// The side of a cell in units of X and Y, 1 to 2147483647, if one record of each cell is to stay.
        step: Option<u32>,
        /// Which one that is. Without a step it is the first.
        pick: Pick,
        /// Whether records are dropped that repeat the position of an earlier one.
        unique: bool,
        /// The names of the taps that tally the kept records, each another one.
        tallies: Vec<String>,
    },
    /// Reports what is in a file.
    Lasinfo {
        /// The name of the input.
        input: String,
        /// The names of the taps that tally the records, each another one.
        tallies: Vec<String>,
        /// The number of workers, 1 to 8.
        workers: u32,
    },
    /// Splits a file into parts.
    Lassplit {
        /// The name of the input. No part has it.
        input: String,
        /// What the parts' names have before an underscore and the part's number.
        stem: String,
        /// What they have after it: `.las`, `.LAS` or nothing.
        end: String,
        /// The rule by which the file is split. A part has 1 record or more.
        rule: Rule,
        /// The number of workers, 1 to 8.
        workers: u32,
    },
    /// Merges files under the head of the first.
    Lasmerge {
        /// The names of the inputs, 1 to 32, in their order.
        inputs: Vec<String>,
        /// The name of the output, which no input has.
        output: String,
        /// How the output is written.
        packing: Packing,
        /// The number of workers, 1 to 8.
        workers: u32,
        /// Whether the chunks of packed inputs are copied as they stand. The output is packed then, in the chunks that
        /// the inputs have, and the chunk size and the number of workers have no effect.
        copy: bool,
    },
    /// Makes a plain file and a packed one of random points, by a seed.
    Make {
        /// The name of the plain output.
        output: String,
        /// The name of the packed output, another one.
        packed: String,
        /// The number of points, 0 to 10,000,000.
        points: u32,
        /// The seed of the draws.
        seed: u32,
        /// The point data format, 0 to 3.
        format: u8,
        /// The number of extra bytes of a record, 0 to 192.
        extra: u16,
        /// The number of records of a chunk, 256 to 250,000.
        chunk: u32,
        /// The number of workers, 1 to 8.
        workers: u32,
    },
}

impl Command {
    ghost use Rattle.las_words.specs.Asked.{workers_by};

    /// The number of workers, 1 to 8.
    pub fn workers(&self) -> u32
        ensures { result ≡ workers_by self.now }
    {
        match self {
            Command::Laszip { workers, .. }
            | Command::Las2las { workers, .. }
            | Command::Lasinfo { workers, .. }
            | Command::Lassplit { workers, .. }
            | Command::Lasmerge { workers, .. }
            | Command::Make { workers, .. } => *workers,
        }
    }
}

/// Why words are not read.
#[derive(Clone, Copy, Debug, PartialEq, Eq)]
pub enum WordFault {
    /// The word of this index is the first that is wrong.
    Usage(usize),
    /// Out of memory.
    Memory,
}

impl From<AllocError> for WordFault {
    ghost from_gives = { λ _ fault. fault ≡ Memory };

    fn from(_error: AllocError) -> WordFault {
        WordFault::Memory
    }
}
