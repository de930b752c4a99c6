//! Files in memory, which tell what they hold.
ghost use Rattle.std.specs.Prelude.{◌≡◌, ◌⊎◌, ◌+◌, ◌-◌, ◌≤◌, ◌<◌, ◌↔◌, ◌++◌, ◌∷◌, [], ℕ, IsTrue, IsErr, IsOk, IsSome};
ghost use Rattle.std.specs.Prelude.{IsSomeAnd, IfOk, OnOk, OnErr, Some, None, MatchOption, length, take, drop, max};
ghost use Rattle.std.specs.Prelude.{is_err, is_some, ◌&&◌};
ghost use Rattle.std.specs.FinMap as map;
ghost use Rattle.las_outside.specs.Calls.{no_calls, next_read_fails, next_keep, kept_bytes, after_read, after_write};
ghost use Rattle.las_outside.specs.Calls.{after_asking};
ghost use Rattle.las_outside.specs.Files.{bytes_of, with_patch};
ghost use Rattle.las_outside.specs.MemFiles.{room_of, IsFirstRoom, IsAbsent, outside_of};
ghost use Rattle.las_outside.specs.Outside.{Later};

use crate::calls::Calls;
use crate::mem_room::MemRoom;
use crate::{Failed, Files};
use std::alloc::{AllocError, Global};
use std::marker::Model;

/// Files in memory. A name has a room, in bytes, once one was prepared for it, and no call of `Files` takes memory.
/// Calls that are listed fail.
///
/// Contracts see the files, the rooms and the calls. The counts start with 0.
#[derive(Drop)]
pub struct MemFiles {
    alloc: Global,
    rooms: Vec<MemRoom>,
    calls: Calls,
}

impl Model for MemFiles {
    ghost use Rattle.las_outside.specs.MemFiles.{Memory, memory_code, files_in, rooms_in};

    ghost Value = { Memory };

    ghost coded = { memory_code };

    ghost view = { λ m. record {
      files = files_in m.rooms.items;
      rooms = rooms_in m.rooms.items;
      calls = m.calls;
    } };
}

// The index of the first room for a name.
fn place_of(rooms: &[MemRoom], name: &str) -> Option<usize>
    ensures { MatchOption result (IsAbsent rooms.now name.now) (λ i. IsFirstRoom rooms.now name.now i) }
{
    for (i, room) in rooms.iter().enumerate() {
        if room.is_for(name) {
            return Some(i);
        }
    }
    None
}

// The bytes of a write that are kept: all, or the first ones if the call is listed.
fn kept_bytes(listed: Option<usize>, bytes: &[u8]) -> &[u8]
    ensures { result.now ≡ take (kept_bytes listed (length bytes.now)) bytes.now }
{
    match listed {
        Some(keep) => &bytes[..keep.min(bytes.len())],
        None => bytes,
    }
}

impl MemFiles {
    /// No files, no rooms, and no call that fails.
    pub fn new(alloc: Global) -> MemFiles
        ensures files { result.files ≡ map.empty }
        ensures rooms { result.rooms ≡ map.empty }
        ensures calls { result.calls ≡ no_calls }
    {
        MemFiles {
            alloc,
            rooms: Vec::new(alloc),
            calls: Calls::new(alloc),
        }
    }

    /// Makes the name's room, in bytes, the greater of this and of the room that it had. If memory is short, all is as
    /// before.
    pub fn prepare(&mut self, name: &str, room: usize) -> Result<(), AllocError>
        ensures files { self.new.files ≡ self.old.files }
        ensures ok { OnOk result (self.new.rooms
            ≡ map.insert self.old.rooms name.now (max (room_of self.old.rooms name.now) room)) }
        ensures err { OnErr result (self.new.rooms ≡ self.old.rooms) }
        ensures calls { self.new.calls ≡ self.old.calls }
    {
        match place_of(&self.rooms, name) {
            Some(at) => self.rooms[at].widen(room),
            None => {
                let made = MemRoom::new(self.alloc, name, room)?;
                self.rooms.push(made)?;
                Ok(())
            }
        }
    }

    /// Makes the name hold these bytes, and its room the greater of their number and of the room that it had. If memory
    /// is short, all is as before.
    pub fn put_file(&mut self, name: &str, bytes: &[u8]) -> Result<(), AllocError>
        ensures ok { OnOk result (self.new.files ≡ map.insert self.old.files name.now bytes.now) }
        ensures room { OnOk result (self.new.rooms ≡ map.insert self.old.rooms name.now
            (max (room_of self.old.rooms name.now) (length bytes.now))) }
        ensures err { OnErr result (self.new ≡ self.old) }
        ensures calls { self.new.calls ≡ self.old.calls }
    {
        self.prepare(name, bytes.len())?;
        match place_of(&self.rooms, name) {
            Some(at) => {
                let room = &mut self.rooms[at];
                room.create();
                room.append(bytes);
                Ok(())
            }
            None => unreachable!("it was prepared"),
        }
    }

    /// The bytes under a name, or `None` if it is not held.
    pub fn get(&self, name: &str) -> Option<&[u8]>
        ensures { MatchOption result (map.get self.now.files name.now ≡ None)
            (λ bytes. map.get self.now.files name.now ≡ Some bytes.now) }
    {
        match place_of(&self.rooms, name) {
            Some(at) => self.rooms[at].bytes(),
            None => None,
        }
    }

    /// Lists a call that reads, which fails then. The calls of `size` and `read_at` are numbered together, from 1. If
    /// memory is short, all is as before.
    pub fn fail_read(&mut self, call: u64) -> Result<(), AllocError>
        ensures ok { OnOk result (self.new ≡ record self.old {
          calls = record self.old.calls { failing_reads = self.old.calls.failing_reads ++ call ∷ [] };
        }) }
        ensures err { OnErr result (self.new ≡ self.old) }
    {
        self.calls.fail_read(call)
    }

    /// Lists a call that writes, which fails then. The calls of `create`, `append` and `patch` are numbered together,
    /// from 1. Of the bytes of the call the first `keep` are kept, if it has that many and they fit the room; of a call
    /// that is listed twice, the last `keep` counts. If memory is short, all is as before.
    pub fn fail_write(&mut self, call: u64, keep: usize) -> Result<(), AllocError>
        ensures ok { OnOk result (self.new ≡ record self.old {
          calls = record self.old.calls { failing_writes = (call, keep) ∷ self.old.calls.failing_writes };
        }) }
        ensures err { OnErr result (self.new ≡ self.old) }
    {
        self.calls.fail_write(call, keep)
    }

    /// How many bytes the calls of `read_at` have asked for.
    pub fn asked(&self) -> u64
        ensures { result ≡ self.now.calls.asked }
    {
        self.calls.asked()
    }

    // Makes the name hold no bytes, and says whether it has a room.
    fn make_empty(&mut self, name: &str) -> bool
        ensures room { IsTrue result ↔ IsSome (map.get self.old.rooms name.now) }
        ensures made { IsTrue result → (self.new.files ≡ map.insert self.old.files name.now []) }
        ensures none { (IsTrue result → ⊥) → (self.new.files ≡ self.old.files) }
        ensures rooms { self.new.rooms ≡ self.old.rooms }
        ensures calls { self.new.calls ≡ self.old.calls }
    {
        match place_of(&self.rooms, name) {
            Some(at) => {
                self.rooms[at].create();
                true
            }
            None => false,
        }
    }

    // Adds those of the bytes that fit the room at the end of a file, and says whether all did.
    fn add_what_fits(&mut self, name: &str, bytes: &[u8]) -> bool
        requires { IsSomeAnd (map.get self.old.files name.now) (λ _. Unit {0}) }
        ensures files { self.new.files ≡ map.insert self.old.files name.now
            (bytes_of (Some self.old.files) name.now
            ++ take (room_of self.old.rooms name.now - length (bytes_of (Some self.old.files) name.now)) bytes.now) }
        ensures all { IsTrue result ↔ (length (bytes_of (Some self.old.files) name.now) + length bytes.now
            ≤ room_of self.old.rooms name.now) }
        ensures rooms { self.new.rooms ≡ self.old.rooms }
        ensures calls { self.new.calls ≡ self.old.calls }
    {
        match place_of(&self.rooms, name) {
            Some(at) => self.rooms[at].append(bytes),
            None => unreachable!("it is held"),
        }
    }

    // Replaces the bytes of a file from a position on.
    fn replace(&mut self, name: &str, pos: usize, bytes: &[u8])
        requires { IsSomeAnd (map.get self.old.files name.now) (λ old. pos + length bytes.now ≤ length old) }
        ensures files { self.new.files ≡ map.insert self.old.files name.now
            (with_patch (bytes_of (Some self.old.files) name.now) pos bytes.now) }
        ensures rooms { self.new.rooms ≡ self.old.rooms }
        ensures calls { self.new.calls ≡ self.old.calls }
    {
        match place_of(&self.rooms, name) {
            Some(at) => self.rooms[at].patch(pos, bytes),
            None => unreachable!("it is held"),
        }
    }
}

impl Files for MemFiles {
    ghost seen = { outside_of };

    /// `Failed` exactly if the call is listed or the name is not held. A listed call raises the count of faults, unless
    /// the name is not held.
    fn size(&mut self, name: &str) -> Result<u64, Failed>
        ensures length { IfOk result
            (λ n. IsSomeAnd (map.get self.old.files name.now) (λ bytes. n ≡ length bytes)) }
        ensures exactly { IsErr result
            ↔ (IsTrue (next_read_fails self.old.calls) ⊎ (map.get self.old.files name.now ≡ None)) }
        ensures change { self.new ≡ record self.old {
          calls = after_read self.old.calls
              (next_read_fails self.old.calls && is_some (map.get self.old.files name.now));
        } }
        ensures later { Later (outside_of self.old) (outside_of self.new) }
    {
        let listed = self.calls.next_read();
        let Some(bytes) = self.get(name) else {
            return Err(Failed);
        };
        let size = bytes.len() as u64;
        if listed {
            self.calls.read_failed();
            return Err(Failed);
        }
        Ok(size)
    }

    /// `Failed` exactly if the call is listed.
    fn read_at(&mut self, name: &str, pos: u64, buf: &mut [u8]) -> Result<(), Failed>
        requires { IsSomeAnd (map.get self.old.files name.now) (λ bytes. pos + length buf.old ≤ length bytes) }
        ensures bytes { OnOk result
            (buf.new ≡ take (length buf.old) (drop pos (bytes_of (Some self.old.files) name.now))) }
        ensures exactly { IsErr result ↔ IsTrue (next_read_fails self.old.calls) }
        ensures change { self.new ≡ record self.old {
          calls = after_read (after_asking self.old.calls (length buf.old)) (is_err result);
        } }
        ensures later { Later (outside_of self.old) (outside_of self.new) }
    {
        self.calls.asks(buf.len());
        if self.calls.next_read() {
            self.calls.read_failed();
            return Err(Failed);
        }
        let from = pos as usize;
        match self.get(name) {
            Some(bytes) => {
                buf.copy_from_slice(&bytes[from..from + buf.len()]);
                Ok(())
            }
            None => unreachable!("it is held"),
        }
    }

    /// `Failed` exactly if the call is listed or no room is kept for the name, and then the name is as before.
    fn create(&mut self, name: &str) -> Result<(), Failed>
        ensures ok { OnOk result (self.new.files ≡ map.insert self.old.files name.now []) }
        ensures err { OnErr result (self.new.files ≡ self.old.files) }
        ensures exactly { IsErr result
            ↔ (IsSome (next_keep self.old.calls) ⊎ (map.get self.old.rooms name.now ≡ None)) }
        ensures rooms { self.new.rooms ≡ self.old.rooms }
        ensures calls { self.new.calls ≡ after_write self.old.calls (is_err result) }
        ensures later { Later (outside_of self.old) (outside_of self.new) }
    {
        let listed = self.calls.next_write();
        if listed.is_none() && self.make_empty(name) {
            return Ok(());
        }
        self.calls.write_failed();
        Err(Failed)
    }

    /// `Failed` exactly if the call is listed or the file with the bytes would pass the room. The bytes that fit were
    /// added then, and of a listed call at most those that it keeps.
    fn append(&mut self, name: &str, bytes: &[u8]) -> Result<(), Failed>
        requires { IsSomeAnd (map.get self.old.files name.now) (λ _. Unit {0}) }
        ensures ok { OnOk result (self.new.files
            ≡ map.insert self.old.files name.now (bytes_of (Some self.old.files) name.now ++ bytes.now)) }
        ensures err { OnErr result (self.new.files
            ≡ map.insert self.old.files name.now (bytes_of (Some self.old.files) name.now
            ++ take (kept_bytes (next_keep self.old.calls)
            (room_of self.old.rooms name.now - length (bytes_of (Some self.old.files) name.now))) bytes.now)) }
        ensures exactly { IsErr result ↔ (IsSome (next_keep self.old.calls)
            ⊎ (room_of self.old.rooms name.now < length (bytes_of (Some self.old.files) name.now) + length bytes.now)) }
        ensures rooms { self.new.rooms ≡ self.old.rooms }
        ensures calls { self.new.calls ≡ after_write self.old.calls (is_err result) }
        ensures later { Later (outside_of self.old) (outside_of self.new) }
    {
        let listed = self.calls.next_write();
        let all = self.add_what_fits(name, kept_bytes(listed, bytes));
        if listed.is_none() && all {
            return Ok(());
        }
        self.calls.write_failed();
        Err(Failed)
    }

    /// `Failed` exactly if the call is listed. The bytes that it keeps have replaced what stood there then.
    fn patch(&mut self, name: &str, pos: u64, bytes: &[u8]) -> Result<(), Failed>
        requires { IsSomeAnd (map.get self.old.files name.now) (λ old. pos + length bytes.now ≤ length old) }
        ensures files { self.new.files ≡ map.insert self.old.files name.now
            (with_patch (bytes_of (Some self.old.files) name.now) pos
            (take (kept_bytes (next_keep self.old.calls) (length bytes.now)) bytes.now)) }
        ensures exactly { IsErr result ↔ IsSome (next_keep self.old.calls) }
        ensures rooms { self.new.rooms ≡ self.old.rooms }
        ensures calls { self.new.calls ≡ after_write self.old.calls (is_err result) }
        ensures later { Later (outside_of self.old) (outside_of self.new) }
    {
        let listed = self.calls.next_write();
        self.replace(name, pos as usize, kept_bytes(listed, bytes));
        if listed.is_none() {
            return Ok(());
        }
        self.calls.write_failed();
        Err(Failed)
    }
}
