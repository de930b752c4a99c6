//! The next block of a plain file.
ghost use Rattle.std.specs.Prelude.{◌≡◌, ℕ, ◌+◌, ◌<◌, ◌≤◌, [], List, None, false, length, min, take, drop};
ghost use Rattle.std.specs.Prelude.{IfErr, IfOk, OnOk};
ghost use Rattle.std.specs.Prelude.{slice_index_or};
ghost use Rattle.las_header.specs.Fields.{record_length_of};
ghost use Rattle.las_outside.specs.Frames.{IsCalm, Reads};
ghost use Rattle.laz_reader.specs.Asking.{bytes_left};
ghost use Rattle.laz_reader.specs.Reading.{AreWholeBlocks, FailsReading, OfFile, StandsFor};
ghost use Rattle.laz_forms.specs.Records.{HoldOnly};

use crate::reader::Reader;
use crate::reading::read_part;
use las_outside::Files;
use laz_forms::{Fault, PLAIN_BLOCK};

impl Reader {
    // Reads the next block of a plain file into the reader, if there are records left, and answers how many blocks it
    // has read.
    pub(crate) fn next_plain<F: Files>(&mut self, files: &mut F) -> Result<u32, Fault>
        requires plain { self.old.chunk ≡ None }
        requires stands { OfFile self.old (F.seen files.old) (StandsFor self.old) }
        ensures blocks { IfOk result (λ n. (blocks : List (List ℕ)) × (length blocks ≡ n)
            × ((k : ℕ) → k < n → slice_index_or blocks k [] ≡ self.new.lent)
            × AreWholeBlocks (record_length_of self.old.head.bytes) (take n self.old.left) blocks
            × OfFile self.old (F.seen files.old)
            (λ file. HoldOnly file (take n self.old.left) blocks)) }
        ensures whole { IfOk result (λ n. n ≡ min 1 (length self.old.left)) }
        ensures moved { IfOk result (λ n. self.new ≡ record self.old {
          next = self.old.next + n;
          left = drop n self.old.left;
          lent = self.new.lent;
        }) }
        ensures fine { self.new.bad ≡ false }
        ensures reads { Reads (bytes_left self.old) (F.seen files.old) (F.seen files.new) }
        ensures calm { OnOk result (IsCalm (F.seen files.old) (F.seen files.new)) }
        ensures ends { IfErr result (FailsReading (F.seen files.old) (F.seen files.new)) }
        ensures asked { OnOk result ((F.seen files.new).asked + bytes_left self.new
            ≤ (F.seen files.old).asked + bytes_left self.old) }
    {
        if self.records == 0 {
            return Ok(0);
        }
        let count = self.records.min(PLAIN_BLOCK);
        let size = usize::from(self.head.record_length()) * count as usize;
        read_part(files, &self.name, self.place, size, &mut self.block)?;
        self.place += size as u64;
        self.records -= count;
        self.blocks += 1;
        Ok(1)
    }
}
