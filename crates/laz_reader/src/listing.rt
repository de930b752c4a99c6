//! The chunks of a file, as a reader lists them.
ghost use Rattle.std.specs.Prelude.{◌≡◌, ℕ, ◌+◌, ◌-◌, ◌^◌, ◌<◌, true, [], None, Some, length, sum};
ghost use Rattle.std.specs.Prelude.{All, if◌then◌else◌};
ghost use Rattle.std.specs.Prelude.{IfErr, IfOk, IsErrOf, OnOk};
ghost use Rattle.las_header.specs.declared.refusal.Refusal.{Refusal};
ghost use Rattle.las_header.specs.Fields.{is_packed, points_of};
ghost use Rattle.las_header.specs.Refusals.{first_cause};
ghost use Rattle.las_header.specs.Vlrs.{laszip_vlrs_of};
ghost use Rattle.las_outside.specs.Files.{WhereKnown};
ghost use Rattle.las_outside.specs.Frames.{IsCalm, OnlyReads};
ghost use Rattle.laz_table.specs.declared.chunks.Blocks.TheVariants.{Fixed, Counted};
ghost use Rattle.laz_table.specs.VlrCauses.{chunk_size_of, is_counted, vlr_causes};
ghost use Rattle.laz_reader.specs.Asking.{AsksAtMost, asked_for_chunks, asked_for_list, asked_for_table};
ghost use Rattle.laz_forms.specs.declared.fault.Fault.TheVariants.{Refused};
ghost use Rattle.laz_reader.specs.Reading.{AreChunkLists, EndsReading, IsHeadOf, ListsPieces, chunk_of};
ghost use Rattle.laz_forms.specs.Refusing.{IsRefusal};

use crate::opening::{find_table, read_chunks};
use las_header::Head;
use las_outside::Files;
use laz_forms::Fault;
use laz_table::{Blocks, COUNTED_CHUNKS, ChunkList, read_vlr};
use std::alloc::Global;

/// The chunk size of a packed file, and for each chunk its number of points and its number of bytes. A plain file has
/// none.
#[derive(Drop)]
pub(crate) struct Listing {
    pub(crate) chunk: Option<u32>,
    pub(crate) points: Vec<u32>,
    pub(crate) bytes: Vec<u32>,
}

/// Reads what a file with this head lists of its chunks.
pub(crate) fn read_list<F: Files>(
    alloc: Global,
    files: &mut F,
    name: &str,
    head: &Head,
    size: u64,
) -> Result<Listing, Fault>
    requires size { head.now.size ≡ size }
    requires head { WhereKnown (F.seen files.old).held name.now (λ file. IsHeadOf file head.now) }
    ensures chunk { IfOk result (λ list. list.chunk ≡ chunk_of head.now.bytes) }
    ensures vlr { IfOk result (λ _. is_packed head.now.bytes ≡ true → length (laszip_vlrs_of head.now.bytes) ≡ 1) }
    ensures points { IfOk result
        (λ list. (chunk : ℕ) → list.chunk ≡ Some chunk → sum list.points.items ≡ points_of head.now.bytes) }
    ensures lists { IfOk result (λ list. AreChunkLists list.points.items list.bytes.items (sum list.bytes.items)) }
    ensures some { IfOk result (λ list. All (λ n. 0 < n) list.points.items) }
    ensures near { IfOk result
        (λ list. (chunk : ℕ) → list.chunk ≡ Some chunk → length head.now.bytes + 8 + sum list.bytes.items < 2 ^ 64) }
    ensures plain { IfOk result (λ list. list.chunk ≡ None → list.points.items ≡ []) }
    ensures stands { IfOk result (λ list. WhereKnown (F.seen files.old).held name.now
        (λ file. ListsPieces file list.chunk head.now.bytes list.points.items list.bytes.items)) }
    ensures refused { (cause : Refusal) → IsErrOf result (Refused cause)
        → WhereKnown (F.seen files.old).held name.now (λ file. IsRefusal file (Some cause)) }
    ensures reads { OnlyReads (F.seen files.old) (F.seen files.new) }
    ensures calm { OnOk result (IsCalm (F.seen files.old) (F.seen files.new)) }
    ensures ends { IfErr result (EndsReading ⊥ (F.seen files.old) (F.seen files.new)) }
    ensures asked { IfOk result (λ list. AsksAtMost (asked_for_list list.chunk (length list.points.items))
        (F.seen files.old) (F.seen files.new)) }
    ensures asked_of { WhereKnown (F.seen files.old).held name.now
        (λ file. AsksAtMost (asked_for_table file) (F.seen files.old) (F.seen files.new)) }
{
    if !head.packed() {
        return Ok(Listing {
            chunk: None,
            points: Vec::new(alloc),
            bytes: Vec::new(alloc),
        });
    }
    match read_vlr(head) {
        Ok(chunk) => read_packed(alloc, files, name, head, size, chunk),
        Err(cause) => Err(Fault::Refused(cause)),
    }
}

// Reads what a packed file lists, with this chunk size in its laszip VLR.
fn read_packed<F: Files>(
    alloc: Global,
    files: &mut F,
    name: &str,
    head: &Head,
    size: u64,
    chunk: u32,
) -> Result<Listing, Fault>
    requires size { head.now.size ≡ size }
    requires packed { is_packed head.now.bytes ≡ true }
    requires vlr { first_cause (vlr_causes head.now.bytes) ≡ None }
    requires chunk { chunk ≡ chunk_size_of head.now.bytes }
    requires head { WhereKnown (F.seen files.old).held name.now (λ file. IsHeadOf file head.now) }
    ensures chunk { IfOk result (λ list. list.chunk ≡ chunk_of head.now.bytes) }
    ensures points { IfOk result (λ list. sum list.points.items ≡ points_of head.now.bytes) }
    ensures some { IfOk result (λ list. All (λ n. 0 < n) list.points.items) }
    ensures lists { IfOk result (λ list. AreChunkLists list.points.items list.bytes.items (sum list.bytes.items)) }
    ensures near { IfOk result
        (λ list. (chunk : ℕ) → list.chunk ≡ Some chunk → length head.now.bytes + 8 + sum list.bytes.items < 2 ^ 64) }
    ensures stands { IfOk result (λ list. WhereKnown (F.seen files.old).held name.now
        (λ file. ListsPieces file list.chunk head.now.bytes list.points.items list.bytes.items)) }
    ensures refused { (cause : Refusal) → IsErrOf result (Refused cause)
        → WhereKnown (F.seen files.old).held name.now (λ file. IsRefusal file (Some cause)) }
    ensures reads { OnlyReads (F.seen files.old) (F.seen files.new) }
    ensures calm { OnOk result (IsCalm (F.seen files.old) (F.seen files.new)) }
    ensures ends { IfErr result (EndsReading ⊥ (F.seen files.old) (F.seen files.new)) }
    ensures asked { IfOk result (λ list. AsksAtMost (asked_for_chunks (length list.points.items))
        (F.seen files.old) (F.seen files.new)) }
    ensures asked_of { WhereKnown (F.seen files.old).held name.now
        (λ file. AsksAtMost (asked_for_table file) (F.seen files.old) (F.seen files.new)) }
{
    let offset = u64::from(head.offset());
    let place = find_table(files, name, offset, size)?;
    let blocks = blocks_of(chunk, head.points());
    let total = place.start - (offset + 8);
    let ChunkList { sizes, counts } = read_chunks(alloc, files, name, place, blocks, total)?;
    Ok(Listing {
        chunk: Some(chunk),
        points: sizes,
        bytes: counts,
    })
}

// What a head says of the chunks that a table may have.
fn blocks_of(chunk: u32, points: u32) -> Blocks
    ensures { result ≡ (if is_counted chunk then Counted points else Fixed chunk points) }
{
    if chunk == COUNTED_CHUNKS {
        Blocks::Counted { points }
    } else {
        Blocks::Fixed { chunk, points }
    }
}
