//! A range of the records of a file.
ghost use Rattle.std.specs.Prelude.{◌≡◌, ℕ, ◌≤◌, false, List};
ghost use Rattle.las_header.specs.Fields.{points_of};
ghost use Rattle.laz_chunk.specs.Layouts.{Format};
ghost use Rattle.laz_workers.specs.Rooms.{HandSeen};
ghost use Rattle.laz_reader.specs.Reading.{AgreesWithHead, IsCrewOf, StandsFor, with_range};

use crate::reader::Reader;
use crate::seeking::seek;

impl Reader {
    /// From now on the records of the places from `start` on and before `stop` are read, places from 0, and no others.
    /// Of a packed file only the chunks that have some of them are asked for.
    pub fn seek_record(&mut self, start: u32, stop: u32)
        requires unread { self.old.next ≡ self.old.first }
        requires open { self.old.failed ≡ false }
        requires order { start ≤ stop }
        requires within { stop ≤ points_of self.old.head.bytes }

        // Nothing but the range, the pieces that are left, and the number of the first of them changes.
        ensures sought { self.new ≡ with_range self.old (record { start = start; stop = stop }) }
        ensures stands { (file : List ℕ) → StandsFor self.old file → StandsFor self.new file }
        ensures whole { AgreesWithHead self.old → AgreesWithHead self.new }
        ensures crew { (crew : List (HandSeen Format)) → IsCrewOf self.old crew → IsCrewOf self.new crew }
    {
        self.start = start;
        self.stop = stop;
        let offset = self.head.bytes().len() as u64;
        match self.chunk {
            None => {
                let size = u64::from(self.head.record_length());
                self.place = offset + size * u64::from(start);
                self.records = stop - start;
            }
            Some(_) => {
                let sought = seek(&self.points, &self.bytes, offset + 8, start, stop);
                self.ends = sought.ends;
                self.next = sought.ends.first;
                self.batch = sought.ends.first;
                self.place = sought.place;
                self.records = 0;
            }
        }
    }
}
