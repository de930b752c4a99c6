//! Crews of workers on chunks, and their buffers.
ghost use Rattle.std.specs.Prelude.{◌≡◌, ◌<◌, ◌≤◌, [], length, vec_capacity, All, IfOk};
ghost use Rattle.laz_workers.specs.Rooms.{lengths_of, rooms_of};

use laz_chunk::Workspace;
use laz_workers::Crew;
use std::alloc::{AllocError, Global};

/// A crew with this many hands, each with a workspace of this format and two rooms of `room` bytes.
pub fn crew_of(
    alloc: Global,
    format: u8,
    extra: u16,
    workers: u32,
    room: usize,
) -> Result<Crew<Workspace>, AllocError>
    requires known { format < 4 }
    requires few { extra < 193 }
    requires workers { workers ≤ 8 }
    ensures hands { IfOk result (λ crew. length crew ≡ workers) }
    ensures spaces { IfOk result (λ crew. All (λ hand. hand.space ≡ record { format = format; extra = extra }) crew) }
    ensures rooms { IfOk result (λ crew. All (λ n. n ≡ room) (lengths_of (rooms_of crew))) }
{
    let mut crew = Crew::new(alloc);
    for _hand in 0..workers {
        let space = Workspace::new(alloc, format, extra)?;
        match crew.add(space, room) {
            Ok(()) => {}
            Err(_) => return Err(AllocError),
        }
    }
    Ok(crew)
}

/// This many empty buffers, each with room for `room` bytes.
pub fn buffers_of(alloc: Global, count: u32, room: usize) -> Result<Vec<Vec<u8>>, AllocError>
    ensures count { IfOk result (λ buffers. length buffers.items ≡ count) }
    ensures empty { IfOk result (λ buffers. All (λ buffer. buffer.items ≡ []) buffers.items) }
    ensures room { IfOk result (λ buffers. All (λ buffer. room ≤ vec_capacity buffer) buffers.items) }
{
    let mut buffers = Vec::with_capacity(alloc, count as usize)?;
    for _buffer in 0..count {
        buffers.push(Vec::with_capacity(alloc, room)?)?;
    }
    Ok(buffers)
}
