//! Packed files that are merged by copying their chunks.
ghost use Rattle.std.specs.Prelude.{◌≡◌, ◌≢◌, ◌+◌, ◌++◌, ◌<◌, ◌≤◌, ℕ, List, All, true, length, sum};
ghost use Rattle.std.specs.Prelude.{IfErr, IfOk, OnErr, OnOk, string_bytes, sum_by};
ghost use Rattle.byteorder.specs.Endian.{little_bytes};
ghost use Rattle.las_header.specs.Fields.{is_packed};
ghost use Rattle.las_header.specs.Vlrs.{laszip_vlrs_of};
ghost use Rattle.las_outside.specs.Faults.{Rose};
ghost use Rattle.las_outside.specs.Frames.{IsCalm, OnlyWrites};
ghost use Rattle.las_outside.specs.Outside.{with_bytes};
ghost use Rattle.laz_table.specs.declared.limits.TheConstants.{COUNTED_CHUNKS, MAX_CHUNKS};
ghost use Rattle.laz_table.specs.Table.{table_bytes};
ghost use Rattle.laz_reader.specs.Asking.{AsksAtMost, ReadsAndWrites};
ghost use Rattle.laz_forms.specs.Packing.{packed_head};
ghost use Rattle.laz_copied.specs.Copied.{Chunk};
ghost use Rattle.laz_file.specs.Copying.{with_reads, LeavesPrefix};
ghost use Rattle.las_merge.specs.declared.fault.MergeFault.{MergeFault};
ghost use Rattle.las_merge.specs.declared.fault.MergeFault.TheVariants.{Write};
ghost use Rattle.las_merge.specs.Appending.{IsCopyFault, PartLiesIn};
ghost use Rattle.las_merge.specs.Asking.{asked_of_all, asked_with_chunks};
ghost use Rattle.las_merge.specs.Inputs.{IfKnown, names_of};
ghost use Rattle.las_merge.specs.Opening.{first_read, points_read};
ghost use Rattle.las_merge.specs.Outcomes.{SaysCopying};
ghost use Rattle.las_merge.specs.Packed.{CanCopyFrom, IsNoFault, asked_to_copy};
ghost use Rattle.las_merge.specs.Summing.{copied_text, summed_head};

use crate::MergeFault;
use crate::appending::{PIECE, append_all, copy_all};
use crate::input::Input;
use crate::listing::{Listed, list_inputs, total};
use crate::opening::count_points;
use crate::source::Source;
use crate::summing::{long_returns_in, returns_in};
use byteorder::{ByteOrder, LittleEndian};
use las_header::Head;
use las_outside::{Failed, Files};
use laz_table::{COUNTED_CHUNKS, counted_table_of, vlr_of};
use std::alloc::{AllocError, Global};

/// What is written before the chunks and after them, and a buffer for these.
struct Frame {
    head: Head,
    // Where the table stands.
    place: u64,
    table: Vec<u8>,
    buffer: Vec<u8>,
}

// By hand, so that each caller drops them by one call.
impl Drop for Frame {
    fn drop(self) {
        let Frame {
            head,
            place: _,
            table,
            buffer,
        } = self;
        drop(head);
        drop(table);
        drop(buffer);
    }
}

// The head of the output: the first input's, for chunks that each have a number of points of their own, with the sums
// of the counts of all inputs.
fn head_of(alloc: Global, inputs: &[Input], points: u32) -> Result<Head, AllocError>
    requires some { 1 ≤ length inputs.now }
    requires packed { is_packed (first_read inputs.now) ≡ true }
    requires one { length (laszip_vlrs_of (first_read inputs.now)) ≡ 1 }
    requires points { points ≡ points_read inputs.now }
    ensures { IfOk result (λ head. head.bytes ≡ packed_head (summed_head inputs.now) COUNTED_CHUNKS) }
{
    let plain = inputs[0].head().without_vlr(alloc)?;
    let summed = plain.with_sums(points, returns_in(inputs), long_returns_in(inputs));
    let payload = vlr_of(summed.format(), summed.extra(), COUNTED_CHUNKS);
    summed.with_vlr(alloc, &payload)
}

// Makes all that is written but the chunks themselves.
fn frame_of(alloc: Global, listed: &Listed, points: u32) -> Result<Frame, AllocError>
    requires some { 1 ≤ length listed.now.inputs.items }
    requires packed { is_packed (first_read listed.now.inputs.items) ≡ true }
    requires one { length (laszip_vlrs_of (first_read listed.now.inputs.items)) ≡ 1 }
    requires points { points ≡ points_read listed.now.inputs.items }
    requires same { length listed.now.lists.points.items ≡ length listed.now.lists.bytes.items }
    requires few { length listed.now.lists.bytes.items ≤ MAX_CHUNKS }
    ensures head { IfOk result (λ frame. frame.head.bytes
        ≡ packed_head (summed_head listed.now.inputs.items) COUNTED_CHUNKS) }
    ensures place { IfOk result (λ frame. frame.place
        ≡ length frame.head.bytes + 8 + sum listed.now.lists.bytes.items) }
    ensures table { IfOk result (λ frame. frame.table.items
        ≡ table_bytes listed.now.lists.points.items listed.now.lists.bytes.items) }
    ensures buffer { IfOk result (λ frame. length frame.buffer.items ≡ PIECE) }
{
    let head = head_of(alloc, &listed.inputs, points)?;
    let place = head.bytes().len() as u64 + 8 + total(&listed.lists.bytes);
    let table = counted_table_of(alloc, &listed.lists.points, &listed.lists.bytes)?;
    let buffer = vec![in alloc; 0; PIECE]?;
    Ok(Frame {
        head,
        place,
        table,
        buffer,
    })
}

// The eight bytes of a pointer.
fn pointer_bytes(place: u64) -> [u8; 8]
    ensures bytes { result ≡ little_bytes 8 place }
    ensures len { length result ≡ 8 }
{
    let mut bytes = [0; 8];
    LittleEndian::write_u64(&mut bytes, place);
    bytes
}

// Creates the output and appends its head and its pointer.
fn begin<F: Files>(files: &mut F, output: &str, head: &[u8], place: u64) -> Result<(), Failed>
    ensures begun { OnOk result (F.seen files.new
        ≡ with_bytes (F.seen files.old) output.now (head.now ++ little_bytes 8 place)) }
    ensures left { OnErr result (LeavesPrefix (F.seen files.old).held (F.seen files.new).held output.now
        (head.now ++ little_bytes 8 place)) }
    ensures rose { OnErr result (Rose (F.seen files.old).write_faults (F.seen files.new).write_faults) }
    ensures writes { OnlyWrites (F.seen files.old) (F.seen files.new) }
{
    files.create(output)?;
    append_all(files, output, head)?;
    let pointer = pointer_bytes(place);
    append_all(files, output, &pointer)
}

// Writes the output: its head and its pointer, the chunks of all inputs, and the table.
fn write<F: Files>(
    files: &mut F,
    sources: &[Source],
    output: &str,
    frame: &mut Frame,
) -> Result<(), MergeFault>
    requires few { length sources.now ≤ 32 }
    requires names { All (λ source. source.name ≢ output.now) sources.now }
    requires lie { All (PartLiesIn (F.seen files.old).held) sources.now }
    requires buffer { 0 < length frame.old.buffer.items }
    ensures written { OnOk result (F.seen files.new
        ≡ with_bytes (with_reads (F.seen files.old) (F.seen files.new)) output.now
        (copied_text (F.seen files.old).held frame.old.head.bytes frame.old.place sources.now frame.old.table.items)) }
    ensures left { OnErr result (LeavesPrefix (F.seen files.old).held (F.seen files.new).held output.now
        (copied_text (F.seen files.old).held frame.old.head.bytes frame.old.place sources.now frame.old.table.items)) }
    ensures cause { IfErr result
        (IsCopyFault (λ n. n < length sources.now) (F.seen files.old) (F.seen files.new)) }
    ensures calm { OnOk result (IsCalm (F.seen files.old) (F.seen files.new)) }
    ensures frame { ReadsAndWrites (sum_by (λ source. source.size) sources.now)
        (F.seen files.old) (F.seen files.new) }
{
    match begin(files, output, frame.head.bytes(), frame.place) {
        Ok(()) => {}
        Err(_) => return Err(MergeFault::Write),
    }
    copy_all(files, sources, output, &mut frame.buffer)?;
    match append_all(files, output, &frame.table) {
        Ok(()) => Ok(()),
        Err(_) => Err(MergeFault::Write),
    }
}

/// Merges 1 to 32 packed files by copying their chunks, of which none is decoded: the output, another name than any
/// input's, has the chunks of all inputs as they stand, in their order, each with its own number of points. Its head is
/// the plain head of the first input with the sums of the counts of all heads; a sum that its field can't hold is the
/// greatest number that the field can. An input may be given more than once.
///
/// The inputs are opened in order. One that is plain is `At` with `NotPacked`; else it is compared with the first as by
/// [`merge`](crate::merge). Then the answer is `TooManyPoints` if the inputs have 2^32 records or more, and then
/// `TooManyChunks` if they have more than 2^24 chunks. An input is opened only if all before it were opened, are packed
/// and are like the first, and the output is created after all of this: until then no file changes. Each is closed when
/// it was compared; the chunk list of one input alone is in memory, beside those of all inputs together.
///
/// The output is appended to in pieces of at most 2^20 bytes, and nothing is patched: after any fault what stands is a
/// prefix of it. Each input is asked for its head, its table and its chunks once. `Write` means that the output could
/// not be written, and a read or a write that failed has raised its count. No chunk is looked into: a bad one is
/// copied, and found when the output is read.
pub fn merge_copied<F: Files>(
    alloc: Global,
    files: &mut F,
    inputs: &[String],
    output: &str,
) -> Result<(), MergeFault>
    requires some { 1 ≤ length inputs.now }
    requires few { length inputs.now ≤ 32 }
    requires names { All (λ name. string_bytes name ≢ output.now) inputs.now }

    ensures says { SaysCopying (names_of inputs.now) output.now (F.seen files.old) (F.seen files.new) result }
    // No call has failed if the inputs are refused or can't be copied.
    ensures calm_kept { IfErr result (λ fault. IsNoFault fault
        → IsCalm (F.seen files.old) (F.seen files.new)) }
    // However the call ends, no more is asked for than what opening each input once and reading it once takes,
    ensures asked_always { IfKnown (F.seen files.old).held (λ known.
        AsksAtMost (asked_of_all asked_with_chunks known (names_of inputs.now)) (F.seen files.old) (F.seen files.new)) }
    // and no more of its head, its table and its chunks if all is done.
    ensures asked { OnOk result (IfKnown (F.seen files.old).held (λ known.
        (merged : List (List ℕ)) (parts : List (List Chunk)) → CanCopyFrom known (names_of inputs.now) merged parts
        → AsksAtMost (asked_to_copy merged parts) (F.seen files.old) (F.seen files.new))) }
{
    let listed = list_inputs(alloc, files, inputs)?;
    let points = count_points(&listed.inputs)?;
    if listed.lists.many {
        return Err(MergeFault::TooManyChunks);
    }
    let mut frame = match frame_of(alloc, &listed, points) {
        Ok(frame) => frame,
        Err(_) => return Err(MergeFault::Memory),
    };
    write(files, &listed.sources, output, &mut frame)
}
