//! The room that is kept in memory for one name.
ghost use Rattle.std.specs.Prelude.{◌≡◌, ◌+◌, ◌-◌, ◌≤◌, ◌↔◌, ◌++◌, [], IsTrue, IsSome, IfOk, OnOk, OnErr, Some, None};
ghost use Rattle.std.specs.Prelude.{MatchOption, length, take, max, unwrap_or};
ghost use Rattle.las_outside.specs.Files.{with_patch};

use std::alloc::{AllocError, Global};
use std::marker::Model;

/// A name's room, and the bytes in it if the name is held.
#[derive(Drop)]
pub struct MemRoom {
    name: String,
    room: usize,
    held: bool,
    bytes: Vec<u8>,
}

impl Model for MemRoom {
    ghost use Rattle.std.specs.Prelude.{◌≤◌, Some, None, vec_len, vec_capacity, string_bytes, if◌then◌else◌};
    ghost use Rattle.las_outside.specs.MemFiles.{RoomFor, room_for_code};

    ghost Value = { RoomFor };

    ghost coded = { room_for_code };

    ghost view = { λ m. record {
      name = string_bytes m.name;
      room = m.room;
      bytes = if m.held then Some m.bytes.items else None;
    } };

    ghost invariant = { λ m. (vec_len m.bytes ≤ m.room) × (m.room ≤ vec_capacity m.bytes) };
}

impl MemRoom {
    /// A room for a name that is not held.
    pub fn new(alloc: Global, name: &str, room: usize) -> Result<MemRoom, AllocError>
        ensures { IfOk result (λ r. (r.name ≡ name.now) × (r.room ≡ room) × (r.bytes ≡ None)) }
    {
        Ok(MemRoom {
            name: String::from_str(alloc, name)?,
            room,
            held: false,
            bytes: Vec::with_capacity(alloc, room)?,
        })
    }

    /// Whether this is the room for a name.
    pub fn is_for(&self, name: &str) -> bool
        ensures { IsTrue result ↔ (self.now.name ≡ name.now) }
    {
        self.name.as_str() == name
    }

    /// The room, in bytes.
    pub fn room(&self) -> usize
        ensures { result ≡ self.now.room }
    {
        self.room
    }

    /// The bytes, or `None` if the name is not held.
    pub fn bytes(&self) -> Option<&[u8]>
        ensures { MatchOption result (self.now.bytes ≡ None) (λ bytes. self.now.bytes ≡ Some bytes.now) }
    {
        if self.held { Some(&self.bytes) } else { None }
    }

    /// Makes the room at least this many bytes. If memory is short, all is as before.
    pub fn widen(&mut self, room: usize) -> Result<(), AllocError>
        ensures name { self.new.name ≡ self.old.name }
        ensures bytes { self.new.bytes ≡ self.old.bytes }
        ensures ok { OnOk result (self.new.room ≡ max self.old.room room) }
        ensures err { OnErr result (self.new.room ≡ self.old.room) }
    {
        if room > self.room {
            self.bytes.reserve(room - self.bytes.len())?;
            self.room = room;
        }
        Ok(())
    }

    /// Makes the name hold no bytes.
    pub fn create(&mut self)
        ensures name { self.new.name ≡ self.old.name }
        ensures room { self.new.room ≡ self.old.room }
        ensures bytes { self.new.bytes ≡ Some [] }
    {
        self.bytes.clear();
        self.held = true;
    }

    /// Adds those of the bytes that fit the room at the end, and says whether all did.
    pub fn append(&mut self, bytes: &[u8]) -> bool
        requires { IsSome self.old.bytes }
        ensures name { self.new.name ≡ self.old.name }
        ensures room { self.new.room ≡ self.old.room }
        ensures bytes { self.new.bytes
            ≡ Some (unwrap_or self.old.bytes []
            ++ take (self.old.room - length (unwrap_or self.old.bytes [])) bytes.now) }
        ensures all { IsTrue result
            ↔ (length (unwrap_or self.old.bytes []) + length bytes.now ≤ self.old.room) }
    {
        let fits = (self.room - self.bytes.len()).min(bytes.len());
        let added = self.bytes.extend_from_slice(&bytes[..fits]);
        prove!(added.is_ok());
        fits == bytes.len()
    }

    /// Replaces the bytes from a position on.
    pub fn patch(&mut self, pos: usize, bytes: &[u8])
        requires held { IsSome self.old.bytes }
        requires within { pos + length bytes.now ≤ length (unwrap_or self.old.bytes []) }
        ensures name { self.new.name ≡ self.old.name }
        ensures room { self.new.room ≡ self.old.room }
        ensures bytes { self.new.bytes ≡ Some (with_patch (unwrap_or self.old.bytes []) pos bytes.now) }
    {
        overwrite(self.bytes.as_mut_slice(), pos, bytes);
    }
}

// Puts bytes in the place of those from a position on.
fn overwrite(old: &mut [u8], pos: usize, bytes: &[u8])
    requires { pos + length bytes.now ≤ length old.old }
    ensures { old.new ≡ with_patch old.old pos bytes.now }
{
    old[pos..pos + bytes.len()].copy_from_slice(bytes);
}
