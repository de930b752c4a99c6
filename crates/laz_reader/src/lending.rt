//! The blocks that a reader and its crew lend.
ghost use Rattle.std.specs.Prelude.{◌≡◌, ℕ, ◌+◌, ◌-◌, ◌*◌, ◌^◌, ◌<◌, ◌≤◌, [], List, length, take, drop};
ghost use Rattle.std.specs.Prelude.{slice_index_or};
ghost use Rattle.las_header.specs.Fields.{record_length_of};
ghost use Rattle.laz_reader.specs.Keeping.{skip_at, taken_at};
ghost use Rattle.laz_reader.specs.Reading.{Lends};

use crate::reader::Reader;
use crate::seeking::Ends;
use laz_chunk::Workspace;
use laz_workers::Crew;
use std::mem;

// How many records are left out at the front of the chunk of this number, which has `count` records, and how many are
// taken then.
fn cut_at(ends: Ends, number: u32, count: u32) -> (u32, u32)
    requires { number < 2 ^ 32 - 1 }
    ensures { result ≡ (skip_at ends number, taken_at ends number count) }
{
    let skip = if number == ends.first { ends.skip } else { 0 };
    let tail = if number + 1 == ends.last {
        ends.tail
    } else {
        0
    };
    (skip, count.saturating_sub(skip).saturating_sub(tail))
}

// The part of a block from the record of place `skip` on, with `taken` records of this many bytes.
fn part_of(block: &[u8], size: usize, skip: u32, taken: u32) -> &[u8]
    requires size { size < 2 ^ 16 }
    requires within { size * (skip + taken) ≤ length block.now }
    ensures { result.now ≡ take (size * taken) (drop (size * skip) block.now) }
{
    let (_, rest) = block.split_at(size * skip as usize);
    let (part, _) = rest.split_at(size * taken as usize);
    part
}

impl Reader {
    /// Lends block i of the last batch: of a packed file that part of the answer under its number in the crew's rooms
    /// which lies in the range, and of a plain one the block in the reader.
    pub fn block<'a>(&'a self, crew: &'a Crew<Workspace>, i: u32) -> &'a [u8]
        requires { (blocks : List (List ℕ)) × Lends self.now crew.now blocks × (i < length blocks) }
        ensures { (blocks : List (List ℕ)) → Lends self.now crew.now blocks → i < length blocks
            → result.now ≡ slice_index_or blocks i [] }
    {
        match self.chunk {
            None => &self.block,
            Some(_) => match crew.result(i) {
                Some(block) => self.part(block, i),
                None => unreachable!(),
            },
        }
    }

    /// Exchanges the block of a plain file that was read last with another buffer, so that the block can be kept without
    /// a copy.
    pub fn swap_block(&mut self, buffer: &mut Vec<u8>)
        ensures given { buffer.new.items ≡ self.old.lent }
        ensures kept { self.new ≡ record self.old { lent = buffer.old.items } }
    {
        mem::swap(&mut self.block, buffer);
    }

    // The part of the answer for chunk i of the last batch that lies in the range.
    fn part<'a>(&self, block: &'a [u8], i: u32) -> &'a [u8]
        requires within { i < length self.now.cuts }
        requires long { (d : ℕ × ℕ) → let cut = slice_index_or self.now.cuts i d in
            record_length_of self.now.head.bytes * (cut.0 + cut.1) ≤ length block.now }
        ensures { (d : ℕ × ℕ) → let cut = slice_index_or self.now.cuts i d in
            let size = record_length_of self.now.head.bytes in
            result.now ≡ take (size * cut.1) (drop (size * cut.0) block.now) }
    {
        let number = self.batch + i;
        let (skip, taken) = cut_at(self.ends, number, self.points[number as usize]);
        part_of(block, usize::from(self.head.record_length()), skip, taken)
    }
}
