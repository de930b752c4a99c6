//! The packing of an output: records that become chunks.
ghost use Rattle.std.specs.Prelude.{◌≡◌, ◌+◌, ◌*◌, ◌<◌, ◌≤◌, ◌++◌, ◌∷◌, [], ℕ, List, length, map, take, All, OnOk};
ghost use Rattle.std.specs.Prelude.{IfOk, IfErr, IsTrue};
ghost use Rattle.las_outside.specs.Frames.{OnlyWrites};
ghost use Rattle.las_outside.specs.Outside.{Outside, with_bytes};
ghost use Rattle.laz_writer.specs.Writing.{PlanHasRoom, HasText, IsBlock, OfPacked, OfText, PackedStands, StopsAfter};
ghost use Rattle.laz_writer.specs.Writing.{AddsPacked};
ghost use Rattle.laz_writer.specs.Writing.{StopsIn, Took};
ghost use Rattle.laz_writer.specs.Writing.{all_chunks, block_size, chunks, full_chunks};

use crate::pack_job::PackJob;
use crate::put::put_chunks;
use las_outside::{Files, Gate};
use laz_chunk::Workspace;
use laz_forms::Fault;
use laz_workers::{Crew, work_batch};
use std::alloc::{AllocError, Global};
use std::marker::Model;
use std::mem;
use std::thread::Threads;

/// What packs the records of an output, block by block.
pub(crate) struct Packing {
    pub(crate) job: PackJob,
    // How many points a chunk has, and how many there are at most in all.
    pub(crate) chunk: u32,
    pub(crate) most: u32,
    // Where the pointer to the chunk table stands.
    pub(crate) pointer: u64,
    // The length of a full block, in bytes.
    pub(crate) block: usize,
    pub(crate) crew: Crew<Workspace>,
    // The lengths of the chunks that were appended.
    pub(crate) lengths: Vec<u32>,
    // Full blocks that are kept back, in order.
    pub(crate) kept: Vec<Vec<u8>>,
    // The records after them.
    pub(crate) rest: Vec<u8>,
    // Buffers that held blocks, or will.
    pub(crate) spare: Vec<Vec<u8>>,
}

// By hand, so that each caller drops a packing by one call.
impl Drop for Packing {
    fn drop(self) {
        let Packing {
            job: _,
            chunk: _,
            most: _,
            pointer: _,
            block: _,
            crew,
            lengths,
            kept,
            rest,
            spare,
        } = self;
        drop(crew);
        drop(lengths);
        drop(kept);
        drop(rest);
        drop(spare);
    }
}

impl Model for Packing {
    ghost use Rattle.std.specs.Prelude.{◌≡◌, length, map};
    ghost use Rattle.laz_workers.specs.Rooms.{lengths_of, rooms_of};
    ghost use Rattle.laz_workers.specs.Work.{texts};
    ghost use Rattle.laz_writer.specs.Writing.{CanPack, PackingSeen, Plan, block_size};

    ghost Value = { PackingSeen };

    ghost view = { λ p. record {
      plan = record { format = p.job; chunk = p.chunk; most = p.most; pointer = p.pointer; workers = length p.crew };
      lengths = p.lengths.items;
      kept = texts p.kept.items;
      rest = p.rest.items;
    } };

    ghost invariant = { λ p. let plan : Plan =
        record { format = p.job; chunk = p.chunk; most = p.most; pointer = p.pointer; workers = length p.crew } in
        CanPack plan (map (λ hand. hand.space) p.crew) (lengths_of (rooms_of p.crew)) × (p.block ≡ block_size plan) };
}

impl Packing {
    // Gives an empty block a buffer that is spare, if there is one.
    fn renew(&mut self)
        ensures { self.new ≡ self.old }
    {
        if !self.rest.is_empty() {
            return;
        }
        if let Some(mut buffer) = self.spare.pop() {
            buffer.clear();
            self.rest = buffer;
        }
    }

    // Keeps back the block that is being filled, and begins another.
    pub(crate) fn keep(&mut self) -> Result<(), AllocError>
        ensures kept { OnOk result
            (self.new ≡ record self.old { kept = self.old.kept ++ self.old.rest ∷ []; rest = [] }) }
        ensures plan { self.new.plan ≡ self.old.plan }
    {
        let alloc = *self.rest.allocator();
        let block = mem::replace(&mut self.rest, Vec::new(alloc));
        match self.kept.push(block) {
            Ok(()) => Ok(()),
            Err(_) => Err(AllocError),
        }
    }

    // Takes what fits the block that is being filled, and keeps the block back if it is full then.
    fn take_in(&mut self, records: &[u8]) -> Result<usize, AllocError>
        requires some { 0 < length records.now }
        requires short { length self.old.rest < block_size self.old.plan }
        ensures taken { IfOk result
            (λ n. (0 < n) × (n ≤ length records.now) × Took self.old self.new (take n records.now)) }
        ensures plan { self.new.plan ≡ self.old.plan }
    {
        self.renew();
        let n = (self.block - self.rest.len()).min(records.len());
        self.rest.extend_from_slice(&records[..n])?;
        if self.rest.len() < self.block {
            return Ok(n);
        }
        self.keep()?;
        Ok(n)
    }

    // Whether a buffer has as much room as the one that would be filled next.
    fn is_as_large(&self, block: &Vec<u8>) -> bool {
        match self.spare.last() {
            Some(buffer) => buffer.capacity() <= block.capacity(),
            None => false,
        }
    }

    // Whether the records of a block are the next ones of a block that is empty, so that they may be taken as they stand:
    // all of it, or its front, if more may follow.
    fn takes_whole(&self, block: &Vec<u8>) -> bool
        ensures { IsTrue result → (self.now.rest ≡ []) × (length block.now.items ≤ block_size self.now.plan) }
    {
        if !self.rest.is_empty() || block.len() > self.block {
            return false;
        }
        block.len() == self.block || self.is_as_large(block)
    }

    // Takes the records of a block as they stand, and keeps the block back if it is full. Its place is taken by a buffer
    // that is spare, whatever that holds.
    fn take_block(&mut self, block: &mut Vec<u8>) -> Result<(), AllocError>
        requires within { length block.old.items ≤ block_size self.old.plan }
        requires next { self.old.rest ≡ [] }
        requires some { 0 < block_size self.old.plan }
        ensures taken { OnOk result (Took self.old self.new block.old.items) }
        ensures plan { self.new.plan ≡ self.old.plan }
    {
        if let Some(buffer) = self.spare.pop() {
            self.rest = buffer;
        }
        mem::swap(&mut self.rest, block);
        if self.rest.len() < self.block {
            return Ok(());
        }
        self.keep()
    }

    // If all blocks were packed, exchanges a buffer with the one that held the last of them, whose memory was in use
    // already.
    fn exchange(&mut self, buffer: &mut Vec<u8>)
        ensures { self.new ≡ self.old }
    {
        if !self.kept.is_empty() {
            return;
        }
        if let Some(last) = self.spare.last_mut() {
            mem::swap(last, buffer);
        }
    }

    /// Packs the blocks that are kept back, all together, and appends their chunks in order.
    pub(crate) fn append_kept<R: Threads + Sync, F: Files, G: Gate>(
        &mut self,
        rt: &R,
        alloc: Global,
        files: &mut F,
        gate: &G,
        name: &str,
    ) -> Result<(), Fault>
        requires blocks { All (IsBlock self.old.plan) self.old.kept }
        requires few { length self.old.kept ≤ 2 * self.old.plan.workers }
        requires held { HasText (F.seen files.old) name.now }
        ensures added { OfText (F.seen files.old) name.now
            (λ before text. OnOk result (F.seen files.new ≡ with_bytes before name.now
            (text ++ all_chunks self.old.plan.format self.old.kept))) }
        ensures stopped { OfText (F.seen files.old) name.now
            (λ before text. IfErr result (StopsAfter before (F.seen files.new) name.now text
            (all_chunks self.old.plan.format self.old.kept))) }
        ensures packing { OnOk result (self.new ≡ record self.old {
          lengths = self.old.lengths ++ map (λ chunk. length chunk) (chunks self.old.plan.format self.old.kept);
          kept = [];
        }) }
        ensures plan { self.new.plan ≡ self.old.plan }
        ensures writes { OnlyWrites (F.seen files.old) (F.seen files.new) }
    {
        work_batch(
            rt,
            alloc,
            &self.job,
            gate,
            self.kept.as_slice(),
            &mut self.crew,
        )?;
        put_chunks(
            files,
            name,
            self.job,
            self.kept.as_slice(),
            &self.crew,
            &mut self.lengths,
        )?;
        mem::swap(&mut self.kept, &mut self.spare);
        self.kept.clear();
        Ok(())
    }

    /// Where the pointer to the chunk table stands.
    pub(crate) fn pointer(&self) -> u64
        ensures { result ≡ self.now.plan.pointer }
    {
        self.pointer
    }

    // Whether as many full blocks are kept back as the workers pack together: two for each of them. One alone packs each
    // by itself, so that no more buffers are in use.
    fn is_full(&self) -> bool
        ensures { (length self.now.kept ≡ 2 * self.now.plan.workers) → IsTrue result }
    {
        let hands = self.crew.hands();
        self.kept.len() == 2 * hands || (hands == 1 && !self.kept.is_empty())
    }

    // Packs and appends the blocks that are kept back, if these are as many as the workers pack together.
    fn append_batch<R: Threads + Sync, F: Files, G: Gate>(
        &mut self,
        rt: &R,
        alloc: Global,
        files: &mut F,
        gate: &G,
        name: &str,
    ) -> Result<(), Fault>
        requires hands { 0 < self.old.plan.workers }
        requires few { length self.old.kept ≤ 2 * self.old.plan.workers }
        requires stands { (before : Outside) × (front : List ℕ) × (bytes : List ℕ)
            × PackedStands before (F.seen files.old) name.now front self.old bytes }
        ensures stands { OfPacked (F.seen files.old) name.now self.old
            (λ before front bytes. OnOk result
            (PackedStands before (F.seen files.new) name.now front self.new bytes)) }
        ensures stopped { OfPacked (F.seen files.old) name.now self.old
            (λ before front bytes. IfErr result (StopsIn before (F.seen files.new) name.now
            (front ++ full_chunks self.old.plan bytes))) }
        ensures few { OnOk result (length self.new.kept < 2 * self.new.plan.workers) }
        ensures plan { self.new.plan ≡ self.old.plan }
        ensures writes { OnlyWrites (F.seen files.old) (F.seen files.new) }
    {
        if self.is_full() {
            return self.append_kept(rt, alloc, files, gate, name);
        }
        Ok(())
    }

    /// Adds records. Full blocks are packed and their chunks appended in order, or they are kept back.
    pub(crate) fn add<R: Threads + Sync, F: Files, G: Gate>(
        &mut self,
        rt: &R,
        alloc: Global,
        files: &mut F,
        gate: &G,
        name: &str,
        records: &[u8],
    ) -> Result<(), Fault>
        requires few { length self.old.kept < 2 * self.old.plan.workers }
        requires stands { (before : Outside) × (front : List ℕ) × (bytes : List ℕ)
            × PackedStands before (F.seen files.old) name.now front self.old bytes
            × PlanHasRoom self.old.plan bytes records.now }
        ensures adds { AddsPacked result (F.seen files.old) (F.seen files.new) name.now self.old self.new
            records.now }
        ensures few { OnOk result (length self.new.kept < 2 * self.new.plan.workers) }
        ensures plan { self.new.plan ≡ self.old.plan }
        ensures writes { OnlyWrites (F.seen files.old) (F.seen files.new) }
    {
        let mut at = 0;
        while at < records.len() {
            at += self.take_in(&records[at..])?;
            self.append_batch(rt, alloc, files, gate, name)?;
        }
        Ok(())
    }

    /// Adds the records of a block, of which nothing is known then. A full block at the front of the next chunk is kept
    /// back as it stands.
    pub(crate) fn add_block<R: Threads + Sync, F: Files, G: Gate>(
        &mut self,
        rt: &R,
        alloc: Global,
        files: &mut F,
        gate: &G,
        name: &str,
        block: &mut Vec<u8>,
    ) -> Result<(), Fault>
        requires few { length self.old.kept < 2 * self.old.plan.workers }
        requires stands { (before : Outside) × (front : List ℕ) × (bytes : List ℕ)
            × PackedStands before (F.seen files.old) name.now front self.old bytes
            × PlanHasRoom self.old.plan bytes block.old.items }
        ensures adds { AddsPacked result (F.seen files.old) (F.seen files.new) name.now self.old self.new
            block.old.items }
        ensures few { OnOk result (length self.new.kept < 2 * self.new.plan.workers) }
        ensures plan { self.new.plan ≡ self.old.plan }
        ensures writes { OnlyWrites (F.seen files.old) (F.seen files.new) }
    {
        if !self.takes_whole(block) {
            return self.add(rt, alloc, files, gate, name, block);
        }
        self.take_block(block)?;
        let appended = self.append_batch(rt, alloc, files, gate, name);
        self.exchange(block);
        appended
    }
}
