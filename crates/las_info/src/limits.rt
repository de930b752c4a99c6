//! Numbers of counting, each defined here alone.

/// How many records of a block are summed up and shown to the taps before those after them. They are few enough to stay
/// in the nearest cache of a processor until the last tap has seen them.
pub(crate) const PIECE: usize = 512;

/// How many records are looked at together where most records have the bin of the one before: if all of them have one
/// bin, they are counted at once.
pub(crate) const GROUP: usize = 8;
