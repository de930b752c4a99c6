//! The job of unpacking chunks.
ghost use Rattle.std.specs.Prelude.{◌≡◌, ℕ, ◌<◌, ◌≤◌, true, false, List, length};
ghost use Rattle.laz_chunk.specs.Layouts.{layout, record_length as length_of};
ghost use Rattle.laz_reader.specs.Unpacking.{FitsUnpacked, HoldsNone, UnpackAnswer, may_hold};

use las_header::{size_of, u32_at};
use laz_chunk::{Workspace, room_for};
use laz_workers::Job;
use std::marker::Model;

/// Unpacks chunks of one point format, 0 to 3, with 0 to 192 extra bytes a record.
///
/// An input is the chunk's number of records as four bytes, then the chunk's bytes. Its answer is the block of records
/// that the bytes hold, the only one, or none if they hold no block of this many records.
#[derive(Drop)]
pub struct UnpackJob {
    format: u8,
    extra: u16,
}

impl Model for UnpackJob {
    ghost use Rattle.std.specs.Prelude.{◌<◌};
    ghost use Rattle.laz_chunk.specs.Layouts.{Format};

    ghost Value = { Format };

    ghost view = { λ j. record { format = j.format; extra = j.extra } };

    ghost invariant = { λ j. (j.format < 4) × (j.extra < 193) };
}

impl UnpackJob {
    /// The job for chunks of this format.
    pub fn new(format: u8, extra: u16) -> Self
        requires known { format < 4 }
        requires few { extra < 193 }
        ensures { result ≡ record { format = format; extra = extra } }
    {
        UnpackJob { format, extra }
    }

    /// How long a record is.
    pub fn record_length(&self) -> usize
        ensures length { result ≡ length_of (layout self.now) }
        ensures small { result ≤ 226 }
    {
        usize::from(size_of(self.format)) + usize::from(self.extra)
    }

    /// Whether a chunk of `size` bytes may hold `count` records: whether the number of bytes is one that a chunk of so
    /// many records can have. The bytes are not looked at.
    pub fn may_hold(&self, count: u32, size: u32) -> bool
        ensures exact { result ≡ may_hold (layout self.now) count size }
        ensures some { result ≡ true → 1 ≤ count }
        ensures none { result ≡ false → (bytes : List ℕ) → length bytes ≡ size
            → HoldsNone (layout self.now) count bytes }
    {
        if count == 0 {
            return false;
        }
        let size = u64::from(size);
        if size < self.record_length() as u64 + 4 {
            return false;
        }
        size <= room_for(self.format, self.extra, count)
    }
}

impl Job for UnpackJob {
    type Space = Workspace;

    ghost use Rattle.std.specs.Prelude.{◌≡◌};
    ghost use Rattle.laz_chunk.specs.Layouts.{layout};
    ghost use Rattle.laz_reader.specs.Unpacking.{FitsUnpacked, UnpackAnswer};

    ghost answer = { λ j input answer. UnpackAnswer (layout j) input answer };

    ghost fits = { λ j input room. FitsUnpacked (layout j) input room };

    ghost suits = { λ j space. space ≡ j };

    fn work(&self, input: &[u8], space: &mut Workspace, room: &mut Vec<u8>) -> Option<usize> {
        let (_, chunk) = input.split_at(4);
        let count = u32_at(input, 0);
        let length = self.record_length() * count as usize;
        let (block, _) = room.split_at_mut(length);
        match space.unpack(chunk, count, block) {
            Ok(()) => Some(length),
            Err(_) => None,
        }
    }
}
