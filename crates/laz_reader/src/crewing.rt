//! The crew of a reader, and its buffers.
ghost use Rattle.std.specs.Prelude.{◌≡◌, ◌*◌, ◌<◌, ◌≤◌, true, length, All, IfOk, OnErr, OnOk};
ghost use Rattle.las_outside.specs.Limits.{AreWorkers};
ghost use Rattle.laz_workers.specs.Rooms.{lengths_of, rooms_of};
ghost use Rattle.laz_reader.specs.Reading.{IsCrewOf};

use crate::reader::Reader;
use crate::unpack_job::UnpackJob;
use laz_chunk::Workspace;
use laz_forms::{PLAIN_BLOCK, buffers_of, crew_of};
use laz_workers::Crew;
use std::alloc::{AllocError, Global};

/// The greatest of some numbers, or 0.
pub(crate) fn greatest(numbers: &[u32]) -> u32
    ensures { All (λ n. n ≤ result) numbers.now }
{
    let mut most = 0;
    for number in numbers {
        most = most.max(*number);
    }
    most
}

/// The greatest number of bytes of a chunk that may hold records of its count, or 0.
pub(crate) fn greatest_size(job: &UnpackJob, points: &[u32], bytes: &[u32]) -> u32
    requires { length points.now ≡ length bytes.now }
{
    let mut most = 0;
    for i in 0..points.len() {
        if job.may_hold(points[i], bytes[i]) {
            most = most.max(bytes[i]);
        }
    }
    most
}

impl Reader {
    /// A crew of this reader: a hand for each worker, 1 to 8, with rooms for the greatest chunk. It takes the buffers
    /// of a batch's inputs into the reader, two for each hand, each with room for the greatest chunk that is read, and
    /// of a plain file the room of a block. `Err` means out of memory, and the reader has failed.
    pub fn crew(&mut self, alloc: Global, workers: u32) -> Result<Crew<Workspace>, AllocError>
        requires workers { AreWorkers workers }
        ensures crew { IfOk result (λ crew. IsCrewOf self.new crew) }
        ensures hands { IfOk result (λ crew. length crew ≡ workers) }
        ensures kept { OnOk result (self.new ≡ record self.old { buffers = 2 * workers }) }
        ensures failed { OnErr result (self.new.failed ≡ true) }
    {
        match self.prepare(alloc, workers) {
            Ok(crew) => Ok(crew),
            Err(_) => {
                self.failed = true;
                Err(AllocError)
            }
        }
    }

    fn prepare(&mut self, alloc: Global, workers: u32) -> Result<Crew<Workspace>, AllocError>
        requires workers { AreWorkers workers }
        ensures crew { IfOk result (λ crew. IsCrewOf self.new crew) }
        ensures hands { IfOk result (λ crew. length crew ≡ workers) }
        ensures kept { OnOk result (self.new ≡ record self.old { buffers = 2 * workers }) }
    {
        let (format, extra) = (self.head.format(), self.head.extra());
        let job = UnpackJob::new(format, extra);
        let room = job.record_length() * greatest(&self.points) as usize;
        let size = greatest_size(&job, &self.points, &self.bytes) as usize;
        self.inputs = buffers_of(alloc, 2 * workers, 4 + size)?;
        let most = self.records.min(PLAIN_BLOCK) as usize;
        self.block.reserve(job.record_length() * most)?;
        let crew = crew_of(alloc, format, extra, workers, room)?;
        Ok(crew)
    }
}
