//! The blocks of a reader, one after another.
ghost use Rattle.std.specs.Prelude.{◌≡◌, ◌+◌, ◌<◌, ◌≤◌, ℕ, List, Option, IsSome, None};
ghost use Rattle.std.specs.Prelude.{IfErr, IfOk, IsErrOf, OnErr, OnOk, Some, true};
ghost use Rattle.las_header.specs.declared.refusal.Refusal.{Refusal};
ghost use Rattle.las_outside.specs.Files.{FileMap};
ghost use Rattle.las_outside.specs.Frames.{IsCalm, Reads};
ghost use Rattle.laz_forms.specs.declared.fault.Fault.TheVariants.{Refused};
ghost use Rattle.laz_reader.specs.Asking.{bytes_left};
ghost use Rattle.laz_reader.specs.Reading.{EndsReading, ReaderSeen};
ghost use Rattle.laz_reader.specs.Turns.{ComesTo, EndsAfter, HasComeTo, OfReached, blocks_left, file_at};

use crate::reader::Reader;
use las_outside::{Files, Gate};
use laz_chunk::Workspace;
use laz_forms::Fault;
use laz_workers::{Crew, Machine};
use std::thread::Threads;

/// Which blocks of a reader's last batch were reached.
#[derive(Clone, Copy)]
pub struct Turn {
    // The number of the next one, and how many there are.
    next: u32,
    count: u32,
}

impl Turn {
    /// Before the first batch.
    pub fn first() -> Turn
        ensures next { result.next ≡ 0 }
        ensures count { result.count ≡ 0 }
    {
        Turn { next: 0, count: 0 }
    }
}

impl Reader {
    /// Goes to the next block: the answer is the number under which [`block`](Reader::block) lends it, or none at the
    /// end of the records. When all blocks of a batch were reached, the next batch is read.
    ///
    /// A chunk that holds no records of its count is `BadChunk` with its number in the file. The answer is `Read` if a
    /// read failed, and never `Write`. After any `Err` the reader has failed.
    pub fn next_block<R: Threads + Sync, F: Files, G: Gate>(
        &mut self,
        machine: &Machine<'_, R, G>,
        files: &mut F,
        crew: &mut Crew<Workspace>,
        turn: &mut Turn,
    ) -> Result<Option<u32>, Fault>
        requires come { (held : Option FileMap) × (first : ReaderSeen) × (n : ℕ) × (blocks : List (List ℕ))
            × HasComeTo held first self.old crew.old turn.old n blocks
            × (file_at (F.seen files.old).held first.name ≡ file_at held first.name) }
        ensures next { OfReached (F.seen files.old).held self.old crew.old turn.old (λ held first n blocks.
            IfOk result (ComesTo held first self.new crew.new turn.new n blocks)) }
        ensures bad { OfReached (F.seen files.old).held self.old crew.old turn.old (λ held first n blocks.
            (cause : Refusal) → IsErrOf result (Refused cause) → EndsAfter held first n (Some cause)) }
        ensures failed { OnErr result (self.new.failed ≡ true) }
        ensures head { OnOk result (self.new.head ≡ self.old.head) }
        ensures less { IfOk result (λ number. IsSome number
            → blocks_left self.new turn.new < blocks_left self.old turn.old) }
        ensures ends { IfErr result (EndsReading ⊥ (F.seen files.old) (F.seen files.new)) }
        ensures reads { Reads (bytes_left self.old) (F.seen files.old) (F.seen files.new) }
        ensures calm { OnOk result (IsCalm (F.seen files.old) (F.seen files.new)) }
        ensures asked { OnOk result ((F.seen files.new).asked + bytes_left self.new
            ≤ (F.seen files.old).asked + bytes_left self.old) }
    {
        if turn.next == turn.count {
            let count = match self.next_batch(
                machine.rt,
                machine.alloc,
                files,
                machine.gate,
                crew,
            ) {
                Ok(count) => count,
                Err(fault) => return Err(fault),
            };
            if count == 0 {
                return Ok(None);
            }
            turn.next = 1;
            turn.count = count;
            return Ok(Some(0));
        }
        let number = turn.next;
        turn.next = number + 1;
        Ok(Some(number))
    }
}
