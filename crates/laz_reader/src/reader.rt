//! A reader of a file, plain or packed, block by block.
ghost use Rattle.std.specs.Prelude.{◌≡◌, ℕ, ◌+◌, ◌^◌, ◌<◌, [], false, All, None, Some, length, sum, string_bytes};
ghost use Rattle.std.specs.Prelude.{IfErr, IfOk, IsErrOf, OnOk, map};
ghost use Rattle.las_header.specs.declared.refusal.Refusal.{Refusal};
ghost use Rattle.las_header.specs.Fields.{points_of, record_length_of};
ghost use Rattle.las_outside.specs.Files.{IsMissing, WhereKnown};
ghost use Rattle.las_outside.specs.Frames.{IsCalm, OnlyReads};
ghost use Rattle.laz_reader.specs.Asking.{AsksAtMost, asked_for_list, asked_to_open};
ghost use Rattle.laz_forms.specs.declared.fault.Fault.TheVariants.{Refused};
ghost use Rattle.laz_reader.specs.Reading.{AgreesWithHead, AreChunkLists, EndsReading, IsNewReader, StandsFor};
ghost use Rattle.laz_reader.specs.Reading.{new_reader};
ghost use Rattle.laz_forms.specs.Refusing.{IsRefusal};

use crate::listing::{Listing, read_list};
use crate::opening::read_head;
use crate::seeking::Ends;
use las_header::Head;
use las_outside::Files;
use laz_forms::Fault;
use std::alloc::Global;
use std::marker::Model;

/// A file that is read block by block: a packed one chunk by chunk, and a plain one 50,000 records at a time.
///
/// Contracts see it as its head, the chunks of a packed file, the pieces of the file that are left to read, and the
/// number of the first of them.
pub struct Reader {
    pub(crate) name: String,
    pub(crate) head: Head,
    pub(crate) chunk: Option<u32>,
    // The places of the records that are read.
    pub(crate) start: u32,
    pub(crate) stop: u32,
    // Of a packed file: the numbers of points and of bytes of its chunks; which of them are read; the number of the
    // next one, of the first one of the last batch, and whether the next one is known to be bad.
    pub(crate) points: Vec<u32>,
    pub(crate) bytes: Vec<u32>,
    pub(crate) ends: Ends,
    pub(crate) next: u32,
    pub(crate) batch: u32,
    pub(crate) bad: bool,
    // Of a plain file: how many blocks were read, and how many records are left.
    pub(crate) blocks: u32,
    pub(crate) records: u32,
    // Where the next piece begins.
    pub(crate) place: u64,
    // Buffers of a batch's inputs, sized once.
    pub(crate) inputs: Vec<Vec<u8>>,
    // The block of a plain file that was read last.
    pub(crate) block: Vec<u8>,
    pub(crate) failed: bool,
}

// By hand, so that each caller drops a reader by one call.
impl Drop for Reader {
    fn drop(self) {
        let Reader {
            name,
            head,
            chunk: _,
            start: _,
            stop: _,
            points,
            bytes,
            ends: _,
            next: _,
            batch: _,
            bad: _,
            blocks: _,
            records: _,
            place: _,
            inputs,
            block,
            failed: _,
        } = self;
        drop(name);
        drop(head);
        drop(points);
        drop(bytes);
        drop(inputs);
        drop(block);
    }
}

impl Model for Reader {
    ghost use Rattle.std.specs.Prelude.{◌+◌, ◌-◌, drop, length, string_bytes, take};
    ghost use Rattle.las_header.specs.Fields.{points_of, record_length_of};
    ghost use Rattle.laz_forms.specs.Pieces.{pieces_from};
    ghost use Rattle.laz_reader.specs.Keeping.{cuts_from};
    ghost use Rattle.laz_reader.specs.Reading.{AreListed, IsInPlace, ReaderSeen, pieces_left};

    ghost Value = { ReaderSeen };

    ghost view = { λ r. record {
      name = string_bytes r.name;
      head = r.head;
      chunk = r.chunk;
      pieces = pieces_from (length r.head.bytes + 8) r.points.items r.bytes.items;
      range = record { start = r.start; stop = r.stop };
      first = r.ends.first;
      next = r.next + r.blocks;
      left = pieces_left r.chunk (record_length_of r.head.bytes) (record {
        at = r.place;
        blocks = r.blocks;
        records = r.records;
        ends = r.ends;
        next = r.next;
        batch = r.batch;
        bad = r.bad;
      }) r.points.items r.bytes.items;
      bad = r.bad;
      failed = r.failed;
      buffers = length r.inputs.items;
      cuts = cuts_from r.ends r.batch (take (r.next - r.batch) (drop r.batch r.points.items));
      lent = r.block.items;
    } };

    ghost invariant = { λ r. AreListed r.chunk (length r.head.bytes) (points_of r.head.bytes)
        r.points.items r.bytes.items
        × IsInPlace (record_length_of r.head.bytes) (record {
          at = r.place;
          blocks = r.blocks;
          records = r.records;
          ends = r.ends;
          next = r.next;
          batch = r.batch;
          bad = r.bad;
        }) r.points.items r.bytes.items };
}

impl Reader {
    /// Opens a file: reads its head, and of a packed file its laszip VLR and its chunk table.
    ///
    /// The file is refused by the first cause that holds of its bytes. The answer is `Read` if a read failed, or if it
    /// is known that there is no file of this name, and never `Write`. No file changes.
    pub fn open<F: Files>(alloc: Global, files: &mut F, name: &str) -> Result<Reader, Fault>
        // If the files are known: the reader stands for the file, or the cause is the file's.
        ensures stands { IfOk result (λ reader. WhereKnown (F.seen files.old).held name.now (StandsFor reader)) }
        ensures refused { (cause : Refusal) → IsErrOf result (Refused cause)
            → WhereKnown (F.seen files.old).held name.now (λ file. IsRefusal file (Some cause)) }
        ensures fresh { IfOk result (IsNewReader name.now) }
        // The reader agrees with its head, also if the files are not known.
        ensures whole { IfOk result AgreesWithHead }
        // Nothing but reads is done, and a fault has its cause.
        ensures reads { OnlyReads (F.seen files.old) (F.seen files.new) }
        ensures calm { OnOk result (IsCalm (F.seen files.old) (F.seen files.new)) }
        ensures ends { IfErr result
            (EndsReading (IsMissing (F.seen files.old).held name.now) (F.seen files.old) (F.seen files.new)) }
        // At most this many bytes are asked for: the head, and of a packed file two pointers and the table.
        ensures asked { IfOk result (λ reader. AsksAtMost
            (length reader.head.bytes + asked_for_list reader.chunk (length reader.pieces))
            (F.seen files.old) (F.seen files.new)) }
        // If the files are known, and however the call ends: at most this much of the file, and nothing if there is
        // none.
        ensures asked_of { (IsMissing (F.seen files.old).held name.now → ⊥)
            → WhereKnown (F.seen files.old).held name.now
            (λ file. AsksAtMost (asked_to_open file) (F.seen files.old) (F.seen files.new)) }
        ensures missing { IsMissing (F.seen files.old).held name.now
            → (F.seen files.new).asked ≡ (F.seen files.old).asked }
    {
        let own = String::from_str(alloc, name)?;
        let (head, size) = read_head(alloc, files, name)?;
        let list = read_list(alloc, files, name, &head, size)?;
        Ok(Reader::of(alloc, own, head, list))
    }

    // A new reader of a file with this head and these chunks.
    fn of(alloc: Global, name: String, head: Head, list: Listing) -> Reader
        requires lists { AreChunkLists list.points.items list.bytes.items (sum list.bytes.items) }
        requires near { (chunk : ℕ) → list.chunk ≡ Some chunk → length head.bytes + 8 + sum list.bytes.items < 2 ^ 64 }
        requires some { All (λ n. 0 < n) list.points.items }
        requires points { (chunk : ℕ) → list.chunk ≡ Some chunk → sum list.points.items ≡ points_of head.bytes }
        requires plain { list.chunk ≡ None → list.points.items ≡ [] }
        ensures { result ≡ new_reader (string_bytes name) head list.chunk list.points.items list.bytes.items }
    {
        let offset = head.bytes().len() as u64;
        let points = head.points();
        let (place, records) = match list.chunk {
            None => (offset, points),
            Some(_) => (offset + 8, 0),
        };
        let ends = Ends::all(&list.points);
        Reader {
            name,
            head,
            chunk: list.chunk,
            start: 0,
            stop: points,
            points: list.points,
            bytes: list.bytes,
            ends,
            next: 0,
            batch: 0,
            bad: false,
            blocks: 0,
            records,
            place,
            inputs: Vec::new(alloc),
            block: Vec::new(alloc),
            failed: false,
        }
    }

    /// The head of the file.
    pub fn head(&self) -> &Head
        ensures { result.now ≡ self.now.head }
    {
        &self.head
    }

    /// The head alone: what is known of the chunks is dropped.
    pub fn into_head(self) -> Head
        ensures { result ≡ self.head }
    {
        let (head, _points, _bytes) = self.into_chunks();
        head
    }

    /// The head, and the numbers of points and of bytes of all chunks: no chunks, if the file is plain.
    pub fn into_chunks(self) -> (Head, Vec<u32>, Vec<u32>)
        ensures head { result.0 ≡ self.head }
        ensures points { result.1.items ≡ map (λ piece. piece.count) self.pieces }
        ensures bytes { result.2.items ≡ map (λ piece. piece.size) self.pieces }
    {
        let Reader {
            name: _,
            head,
            chunk: _,
            start: _,
            stop: _,
            points,
            bytes,
            ends: _,
            next: _,
            batch: _,
            bad: _,
            blocks: _,
            records: _,
            place: _,
            inputs: _,
            block: _,
            failed: _,
        } = self;
        (head, points, bytes)
    }

    /// The chunk size: `None` exactly if the file is plain, and 2^32 - 1 if each chunk has a number of points of its
    /// own.
    pub fn chunk(&self) -> Option<u32>
        ensures { result ≡ self.now.chunk }
    {
        self.chunk
    }

    /// How many chunks the file has: 0 if it is plain.
    pub fn chunks(&self) -> u32
        ensures { result ≡ length self.now.pieces }
    {
        self.points.len() as u32
    }

    /// Whether a call has failed. A reader that has failed is not asked for more.
    pub fn failed(&self) -> bool
        ensures { result ≡ self.now.failed }
    {
        self.failed
    }
}
