//! The beginning of an output: its packing and its front.
ghost use Rattle.std.specs.Prelude.{◌≡◌, ◌+◌, ◌*◌, ◌<◌, ◌++◌, [], length, min};
ghost use Rattle.std.specs.Prelude.{false};
ghost use Rattle.std.specs.Prelude.{OnOk, IfOk, IfErr, if◌then◌else◌};
ghost use Rattle.byteorder.specs.Endian.{little_bytes};
ghost use Rattle.las_header.specs.Counting.{with_counts};
ghost use Rattle.las_header.specs.Fields.{is_packed};
ghost use Rattle.las_header.specs.Vlrs.{laszip_vlrs_of};
ghost use Rattle.las_header.specs.Limits.{IsChunkSize};
ghost use Rattle.las_outside.specs.Limits.{AreWorkers};
ghost use Rattle.las_outside.specs.Frames.{OnlyWrites};
ghost use Rattle.las_outside.specs.Outside.{with_bytes};
ghost use Rattle.las_points.specs.Tally.{counts_of};
ghost use Rattle.laz_chunk.specs.Layouts.{room_for};
ghost use Rattle.laz_forms.specs.declared.fault.Fault.TheVariants.{Write};
ghost use Rattle.laz_writer.specs.Writing.{IsTally, StopsBeginning, pointer_part, written_head};
ghost use Rattle.laz_forms.specs.Packing.{format_in};

use crate::pack_job::PackJob;
use crate::packing::Packing;
use crate::put::put;
use byteorder::{ByteOrder, LittleEndian};
use las_header::{Counts, Head};
use las_outside::Files;
use laz_chunk::room_for;
use laz_forms::{Fault, buffers_of, crew_of};
use laz_table::{chunk_count, vlr_of};
use std::alloc::{AllocError, Global};

// No point record.
const NO_COUNTS: Counts = Counts {
    points: 0,
    returns: [0, 0, 0, 0, 0, 0, 0],
};

/// The counts of no record, if records are counted.
pub(crate) fn no_tally(counted: bool) -> Option<Counts>
    ensures { IsTally counted result [] }
{
    if counted {
        return Some(NO_COUNTS);
    }
    None
}

/// The eight bytes of a pointer.
pub(crate) fn pointer_bytes(place: u64) -> [u8; 8]
    ensures bytes { result ≡ little_bytes 8 place }
    ensures len { length result ≡ 8 }
{
    let mut bytes = [0; 8];
    LittleEndian::write_u64(&mut bytes, place);
    bytes
}

// A copy of a plain head: a laszip VLR is added and taken away again.
fn copy_of(alloc: Global, head: &Head) -> Result<Head, AllocError>
    requires plain { is_packed head.now.bytes ≡ false }
    requires none { laszip_vlrs_of head.now.bytes ≡ [] }
    ensures { IfOk result (λ copy. copy.bytes ≡ head.now.bytes) }
{
    let packed = head.with_vlr(alloc, &[])?;
    packed.without_vlr(alloc)
}

// A head in the form in which it is written: with a laszip VLR, if the points are packed.
fn formed(alloc: Global, head: &Head, chunk: Option<u32>) -> Result<Head, AllocError>
    requires plain { is_packed head.now.bytes ≡ false }
    requires none { laszip_vlrs_of head.now.bytes ≡ [] }
    ensures { IfOk result (λ written. written.bytes ≡ written_head chunk head.now.bytes) }
{
    let Some(chunk) = chunk else {
        return copy_of(alloc, head);
    };
    let payload = vlr_of(head.format(), head.extra(), chunk);
    head.with_vlr(alloc, &payload)
}

/// A head as it is first written: with a laszip VLR, if the points are packed, and with counts of zero, if they are
/// counted.
pub(crate) fn first_form(
    alloc: Global,
    head: &Head,
    chunk: Option<u32>,
    counted: bool,
) -> Result<Head, AllocError>
    requires plain { is_packed head.now.bytes ≡ false }
    requires none { laszip_vlrs_of head.now.bytes ≡ [] }
    ensures { IfOk result (λ written. written.bytes
        ≡ written_head chunk (if counted then with_counts (counts_of []) head.now.bytes else head.now.bytes)) }
{
    // Its contract says what holds of every head.
    let _ = head.bytes();
    let written = formed(alloc, head, chunk)?;
    if counted {
        return Ok(written.with_counts(NO_COUNTS));
    }
    Ok(written)
}

/// Creates an output and appends a head, and a pointer if the output is packed, which holds the place of the points for
/// the time being.
pub(crate) fn put_front<F: Files>(
    files: &mut F,
    name: &str,
    head: &[u8],
    packed: bool,
) -> Result<(), Fault>
    ensures begun { OnOk result (F.seen files.new
        ≡ with_bytes (F.seen files.old) name.now (head.now ++ pointer_part packed head.now)) }
    ensures stopped { IfErr result (StopsBeginning (F.seen files.old) (F.seen files.new) name.now
        (head.now ++ pointer_part packed head.now)) }
    ensures fault { IfErr result (λ fault. fault ≡ Write) }
    ensures writes { OnlyWrites (F.seen files.old) (F.seen files.new) }
{
    match files.create(name) {
        Ok(()) => {}
        Err(_) => return Err(Fault::Write),
    }
    put(files, name, head)?;
    if packed {
        let pointer = pointer_bytes(head.len() as u64);
        return put(files, name, &pointer);
    }
    Ok(())
}

/// The packing of an output for at most `most` records that follow a head, in chunks of `chunk` points: all of its
/// rooms and buffers.
pub(crate) fn new_packing(
    alloc: Global,
    head: &Head,
    chunk: u32,
    most: u32,
    workers: u32,
    pointer: u32,
) -> Result<Packing, AllocError>
    requires chunk { IsChunkSize chunk }
    requires workers { AreWorkers workers }
    ensures { IfOk result (λ p. p ≡ record {
      plan = record
          { format = format_in head.now.bytes; chunk = chunk; most = most; pointer = pointer; workers = workers };
      lengths = [];
      kept = [];
      rest = [];
    }) }
{
    // Its contract says what holds of every head.
    let _ = head.bytes();
    let (format, extra) = (head.format(), head.extra());
    let points = chunk.min(most);
    let room = room_for(format, extra, points) as usize;
    let crew = crew_of(alloc, format, extra, workers, room)?;
    let size = usize::from(head.record_length());
    let spare = buffers_of(alloc, 2 * workers, size * points as usize)?;
    let kept = Vec::with_capacity(alloc, 2 * workers as usize)?;
    let lengths = Vec::with_capacity(alloc, chunk_count(most, chunk) as usize)?;
    Ok(Packing {
        job: PackJob { format, extra },
        chunk,
        most,
        pointer: u64::from(pointer),
        block: size * chunk as usize,
        crew,
        lengths,
        kept,
        rest: Vec::new(alloc),
        spare,
    })
}
