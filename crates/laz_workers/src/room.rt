//! A place for the answer to one input.
ghost use Rattle.std.specs.Prelude.{◌≡◌, ◌≤◌, ◌↔◌, length, IfOk, IsTrue, option_copied};
ghost use Rattle.std.specs.Prelude.{vec_len, vec_capacity};
ghost use Rattle.laz_workers.specs.Rooms.{emptied, lengthened, number_of, answer_in};

use crate::held::Held;
use std::alloc::{AllocError, Global};
use std::marker::Model;

/// A place for the answer to one input. Its length is fixed when it is made.
///
/// A new room's memory is set aside, but no byte of it is written: that is done by the hand that first works into it.
/// So rooms that are never used cost little, and several hands write theirs side by side.
#[derive(Drop)]
pub struct Room {
    // Nothing yet, or as many bytes as the room has.
    pub(crate) bytes: Vec<u8>,
    pub(crate) size: usize,
    pub(crate) held: Held,
}

impl Model for Room {
    ghost use Rattle.laz_workers.specs.Rooms.{RoomSeen, answer_length};

    ghost Value = { RoomSeen };

    ghost use Rattle.std.specs.Prelude.{◌≤◌, vec_capacity, vec_len};
    ghost use Rattle.laz_workers.specs.Rooms.{lengthened};

    // Bytes that were not written yet are seen as zeros.
    ghost view = { λ r. record { bytes = lengthened r.size r.bytes.items; held = r.held } };

    ghost invariant = { λ r. (answer_length r.held ≤ vec_len r.bytes) × (vec_len r.bytes ≤ r.size)
        × (r.size ≤ vec_capacity r.bytes) };
}

impl Room {
    // An empty room of `size` bytes.
    pub(crate) fn new(alloc: Global, size: usize) -> Result<Room, AllocError>
        ensures { IfOk result (λ r. (length r.bytes ≡ size) × (r.held ≡ Held.Empty)) }
    {
        let bytes = Vec::with_capacity(alloc, size)?;
        Ok(Room {
            bytes,
            size,
            held: Held::Empty,
        })
    }

    // Whether the input of this number was worked into this room.
    pub(crate) fn holds(&self, number: u32) -> bool
        ensures { IsTrue result ↔ (number_of self.now.held ≡ Some number) }
    {
        match self.held {
            Held::Empty => false,
            Held::Full { number: n, .. } | Held::Refused { number: n } => n == number,
        }
    }

    // The answer, or `None` if the room is empty or its input was refused.
    pub(crate) fn answer(&self) -> Option<&[u8]>
        ensures { option_copied result ≡ answer_in self.now.bytes self.now.held }
    {
        match self.held {
            Held::Full { length, .. } => Some(&self.bytes[..length]),
            Held::Empty | Held::Refused { .. } => None,
        }
    }

    // Empties the room. Its bytes stay, and count for nothing.
    pub(crate) fn clear(&mut self)
        ensures { self.new ≡ emptied self.old }
    {
        self.held = Held::Empty;
    }
}

// Writes zeros after bytes until there are this many. There is capacity for them.
pub(crate) fn lengthen(bytes: &mut Vec<u8>, size: usize)
    requires within { vec_len bytes.old ≤ size }
    requires capacity { size ≤ vec_capacity bytes.old }
    ensures items { bytes.new.items ≡ lengthened size bytes.old.items }
    ensures len { vec_len bytes.new ≡ size }
{
    match bytes.resize(size, 0) {
        Ok(()) => {}
        Err(_) => unreachable!(),
    }
}
