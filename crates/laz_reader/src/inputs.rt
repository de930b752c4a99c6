//! The inputs of a batch of chunks.
ghost use Rattle.std.specs.Prelude.{◌≡◌, ℕ, ◌+◌, ◌^◌, ◌<◌, ◌≤◌, [], List, length, take, drop, min, sum, All};
ghost use Rattle.std.specs.Prelude.{slice_index, slice_index_or, IfErr, OnOk, false, true};
ghost use Rattle.las_outside.specs.Files.{WhereKnown};
ghost use Rattle.las_outside.specs.Frames.{IsCalm, Reads};
ghost use Rattle.laz_chunk.specs.Layouts.{layout};
ghost use Rattle.laz_workers.specs.Work.{texts};
ghost use Rattle.laz_forms.specs.Pieces.{Piece, piece_bytes, pieces_from};
ghost use Rattle.laz_reader.specs.Reading.{FailsReading, LiesIn};
ghost use Rattle.laz_reader.specs.Unpacking.{HoldsNone, IsInput, may_hold, unpack_input};

use crate::reading::read_exactly;
use crate::unpack_job::UnpackJob;
use byteorder::{ByteOrder, LittleEndian};
use las_outside::Files;
use laz_forms::Fault;

/// How many of the next chunks are read together: at most `most`, and none from the first on whose number of bytes no
/// chunk of its number of records can have.
pub(crate) fn batch_of(job: &UnpackJob, points: &[u32], bytes: &[u32], most: usize) -> usize
    requires same { length points.now ≡ length bytes.now }
    ensures within { result ≤ min most (length points.now) }
    ensures some { (k : ℕ) → k < result → 1 ≤ slice_index points.now k }
    ensures may { (k : ℕ) → k < result
        → may_hold (layout job.now) (slice_index points.now k) (slice_index bytes.now k) ≡ true }
    ensures may_not { result < min most (length points.now)
        → may_hold (layout job.now) (slice_index points.now result) (slice_index bytes.now result) ≡ false }
    ensures cut { result < min most (length points.now) → (chunk : List ℕ)
        → length chunk ≡ slice_index bytes.now result
        → HoldsNone (layout job.now) (slice_index points.now result) chunk }
{
    let end = most.min(points.len());
    for i in 0..end {
        if !job.may_hold(points[i], bytes[i]) {
            return i;
        }
    }
    end
}

/// Reads the inputs for chunks, the first of which begins at `place`.
pub(crate) fn read_inputs<F: Files>(
    files: &mut F,
    name: &str,
    place: u64,
    points: &[u32],
    bytes: &[u32],
    inputs: &mut [Vec<u8>],
) -> Result<(), Fault>
    requires same { (length points.now ≡ length bytes.now) × (length inputs.old ≡ length points.now) }
    requires near { place + sum bytes.now < 2 ^ 64 }
    requires lie { WhereKnown (F.seen files.old).held name.now
        (λ file. All (LiesIn file) (pieces_from place points.now bytes.now)) }
    ensures shape { OnOk result ((k : ℕ) → k < length points.now
        → IsInput (slice_index points.now k) (slice_index_or (texts inputs.new) k [])) }
    ensures known { OnOk result (WhereKnown (F.seen files.old).held name.now (λ file. (k : ℕ) (d : Piece)
        → k < length points.now → slice_index_or (texts inputs.new) k []
        ≡ unpack_input (slice_index points.now k)
        (piece_bytes file (slice_index_or (pieces_from place points.now bytes.now) k d)))) }
    ensures reads { Reads (sum bytes.now) (F.seen files.old) (F.seen files.new) }
    ensures calm { OnOk result (IsCalm (F.seen files.old) (F.seen files.new)) }
    ensures ends { IfErr result (FailsReading (F.seen files.old) (F.seen files.new)) }
{
    let mut at = place;
    for i in 0..points.len() {
        read_input(files, name, at, points[i], bytes[i], &mut inputs[i])?;
        at += u64::from(bytes[i]);
    }
    Ok(())
}

// Reads the input for a chunk.
fn read_input<F: Files>(
    files: &mut F,
    name: &str,
    at: u64,
    count: u32,
    size: u32,
    input: &mut Vec<u8>,
) -> Result<(), Fault>
    requires lies { WhereKnown (F.seen files.old).held name.now (λ file. at + size ≤ length file) }
    ensures shape { OnOk result (IsInput count input.new.items) }
    ensures known { OnOk result (WhereKnown (F.seen files.old).held name.now
        (λ file. input.new.items ≡ unpack_input count (take size (drop at file)))) }
    ensures reads { Reads size (F.seen files.old) (F.seen files.new) }
    ensures calm { OnOk result (IsCalm (F.seen files.old) (F.seen files.new)) }
    ensures ends { IfErr result (FailsReading (F.seen files.old) (F.seen files.new)) }
{
    input.resize(4 + size as usize, 0)?;
    fill_input(files, name, at, count, size, input)
}

// Writes the number of records, and reads the chunk's bytes after it.
fn fill_input<F: Files>(
    files: &mut F,
    name: &str,
    at: u64,
    count: u32,
    size: u32,
    input: &mut [u8],
) -> Result<(), Fault>
    requires size { length input.old ≡ 4 + size }
    requires lies { WhereKnown (F.seen files.old).held name.now (λ file. at + size ≤ length file) }
    ensures shape { OnOk result (IsInput count input.new) }
    ensures known { OnOk result (WhereKnown (F.seen files.old).held name.now
        (λ file. input.new ≡ unpack_input count (take size (drop at file)))) }
    ensures reads { Reads size (F.seen files.old) (F.seen files.new) }
    ensures calm { OnOk result (IsCalm (F.seen files.old) (F.seen files.new)) }
    ensures ends { IfErr result (FailsReading (F.seen files.old) (F.seen files.new)) }
{
    let (front, chunk) = input.split_at_mut(4);
    LittleEndian::write_u32(front, count);
    read_exactly(files, name, at, chunk)
}
