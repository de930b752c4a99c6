//! The work of packing blocks of records into chunks.
ghost use Rattle.std.specs.Prelude.{◌≡◌, Some};

use laz_chunk::Workspace;
use laz_workers::Job;
use std::marker::Model;

/// Packs the records of a block, one at least, into a chunk. Contracts see it as the point format of the records, 0 to
/// 3, and their number of extra bytes, 0 to 192.
#[derive(Clone, Copy)]
pub(crate) struct PackJob {
    pub(crate) format: u8,
    pub(crate) extra: u16,
}

impl Model for PackJob {
    ghost use Rattle.laz_chunk.specs.Layouts.{Format};

    ghost Value = { Format };

    ghost view = { λ j. record { format = j.format; extra = j.extra } };

    ghost inverse = { λ f. record { format = f.format; extra = f.extra } };
}

impl Job for PackJob {
    ghost use Rattle.std.specs.Prelude.{◌≡◌};
    ghost use Rattle.laz_writer.specs.Writing.{FitsRoom, IsChunk};

    type Space = Workspace;

    ghost answer = { IsChunk };

    ghost fits = { FitsRoom };

    ghost suits = { λ job space. space ≡ job };

    fn work(&self, input: &[u8], space: &mut Workspace, room: &mut Vec<u8>) -> Option<usize> {
        Some(space.pack(input, room))
    }

    fn work_within(
        &self,
        input: &[u8],
        space: &mut Workspace,
        room: &mut Vec<u8>,
        size: usize,
    ) -> Option<usize> {
        Some(space.pack_within(input, room, size))
    }
}
