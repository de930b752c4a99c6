//! What a room holds.

/// What a room holds.
#[derive(Clone, Copy, Debug, PartialEq, Eq)]
pub enum Held {
    /// Nothing.
    Empty,
    /// The answer to the input of this number: the first `length` bytes of the room.
    Full { number: u32, length: usize },
    /// The input of this number was refused.
    Refused { number: u32 },
}
