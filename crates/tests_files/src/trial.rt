//! Whole files, read and written by the calls of readers and writers.
ghost use Rattle.std.specs.Prelude.{◌≡◌, ℕ, ◌≤◌, [], List, true, false, length};
ghost use Rattle.std.specs.Option.{ForSome};
ghost use Rattle.las_header.specs.Fields.{is_packed};
ghost use Rattle.las_header.specs.Vlrs.{laszip_vlrs_of};
ghost use Rattle.las_outside.specs.Files.{WhereKnown};
ghost use Rattle.las_outside.specs.Outside.{Outside};
ghost use Rattle.laz_forms.specs.Outputs.{Output};
ghost use Rattle.laz_reader.specs.Reading.{IsCrewOf, Lends, StandsFor};
ghost use Rattle.laz_writer.specs.Writing.{Stands};

use las_header::Head;
use las_outside::{Files, Gate, OpenGate};
use laz_chunk::Workspace;
use laz_file::{Fault, Reader, Writer};
use laz_workers::Crew;
use std::alloc::{AllocError, Global};
use std::thread::Threads;

// Copies the blocks that a reader and its crew lend.
fn take_blocks(
    reader: &Reader,
    crew: &Crew<Workspace>,
    n: u32,
    records: &mut Vec<u8>,
) -> Result<(), AllocError>
    requires { (blocks : List (List ℕ)) × Lends reader.now crew.now blocks × (n ≤ length blocks) }
{
    for i in 0..n {
        records.extend_from_slice(reader.block(crew, i))?;
    }
    Ok(())
}

// Reads on to the end of the records.
fn read_on<R: Threads + Sync, F: Files, G: Gate>(
    rt: &R,
    alloc: Global,
    files: &mut F,
    gate: &G,
    reader: &mut Reader,
    crew: &mut Crew<Workspace>,
    records: &mut Vec<u8>,
) -> Result<(), Fault>
    requires open { reader.old.failed ≡ false }
    requires crew { IsCrewOf reader.old crew.old }
    requires stands { WhereKnown (F.seen files.old).held reader.old.name (StandsFor reader.old) }
{
    for _batch in 0..u32::MAX {
        let n = reader.next_batch(rt, alloc, files, gate, crew)?;
        if n == 0 {
            return Ok(());
        }
        take_blocks(reader, crew, n, records)?;
    }
    Ok(())
}

// Reads the records that a reader has left, with 1 to 8 workers.
fn read_by<R: Threads + Sync, F: Files>(
    rt: &R,
    alloc: Global,
    files: &mut F,
    reader: &mut Reader,
    workers: u32,
    records: &mut Vec<u8>,
) -> Result<(), Fault>
    requires open { reader.old.failed ≡ false }
    requires stands { WhereKnown (F.seen files.old).held reader.old.name (StandsFor reader.old) }
{
    let mut crew = reader.crew(alloc, workers.min(8).max(1))?;
    read_on(rt, alloc, files, &OpenGate, reader, &mut crew, records)
}

/// Reads all records of a file, with 1 to 8 workers. If a fault ends it, the records before it stand in `records`.
pub(crate) fn read_file<R: Threads + Sync, F: Files>(
    rt: &R,
    alloc: Global,
    files: &mut F,
    name: &str,
    workers: u32,
    records: &mut Vec<u8>,
) -> Result<(), Fault> {
    let mut reader = Reader::open(alloc, files, name)?;
    read_by(rt, alloc, files, &mut reader, workers, records)
}

/// Reads the records of a range of a file, with 1 to 8 workers: places past the end are cut. If a fault ends it, the
/// records before it stand in `records`.
pub(crate) fn read_range<R: Threads + Sync, F: Files>(
    rt: &R,
    alloc: Global,
    files: &mut F,
    name: &str,
    workers: u32,
    range: (u32, u32),
    records: &mut Vec<u8>,
) -> Result<(), Fault> {
    let mut reader = Reader::open(alloc, files, name)?;
    let stop = range.1.min(reader.head().points());
    reader.seek_record(range.0.min(stop), stop);
    read_by(rt, alloc, files, &mut reader, workers, records)
}

/// How a file is written: the chunk size, 256 to 250,000, or 0 for a plain file; whether its records are counted; how
/// many workers there are, 1 to 8; and how many records each push has but the last, which has the rest.
#[derive(Clone, Copy)]
pub(crate) struct Form<'a> {
    pub(crate) chunk: u32,
    pub(crate) counted: bool,
    pub(crate) workers: u32,
    pub(crate) cuts: &'a [u32],
}

// Pushes records of `size` bytes in parts, and finishes the output.
fn push_all<R: Threads + Sync, F: Files>(
    rt: &R,
    alloc: Global,
    files: &mut F,
    writer: Writer,
    size: u16,
    most: u32,
    records: &[u8],
    cuts: &[u32],
) -> Result<u64, Fault>
    requires open { writer.failed ≡ false }
    requires size { writer.size ≡ size }
    requires some { 1 ≤ size }
    requires most { writer.most ≡ most }
    requires stands { (before : Outside) × (out : Output) × Stands before (F.seen files.old) writer out [] }
{
    let mut writer = writer;
    let size = usize::from(size);
    let mut taken = 0;
    for i in 0..cuts.len() + 1 {
        let rest = &records[taken..];
        let count = if i < cuts.len() {
            cuts[i] as usize
        } else {
            rest.len()
        };
        let part = &rest[..count.saturating_mul(size).min(rest.len())];
        if part.len() % size != 0 {
            return Err(Fault::Memory);
        }
        if taken + part.len() > size * most as usize {
            return Err(Fault::Memory);
        }
        writer.push(rt, alloc, files, &OpenGate, part)?;
        taken += part.len();
    }
    writer.finish(rt, alloc, files, &OpenGate)
}

// Writes a file of this plain head and these records.
fn write_as<R: Threads + Sync, F: Files>(
    rt: &R,
    alloc: Global,
    files: &mut F,
    name: &str,
    head: &Head,
    chunk: Option<u32>,
    records: &[u8],
    form: Form,
) -> Result<u64, Fault>
    requires plain { is_packed head.now.bytes ≡ false }
    requires none { laszip_vlrs_of head.now.bytes ≡ [] }
    requires chunk { ForSome chunk (λ n. (256 ≤ n) × (n ≤ 250000)) }
{
    let size = head.record_length();
    let most = head.points();
    let workers = form.workers.min(8).max(1);
    let writer = Writer::create(alloc, files, name, head, chunk, form.counted, most, workers)?;
    push_all(rt, alloc, files, writer, size, most, records, form.cuts)
}

// A chunk size, and none for 0.
fn chunk_of(chunk: u32) -> Option<u32>
    ensures { ForSome result (λ n. (256 ≤ n) × (n ≤ 250000)) }
{
    if chunk == 0 {
        return None;
    }
    Some(chunk.min(250_000).max(256))
}

/// Writes a file of this plain head and these records, at most as many as the head counts, and gives its length.
pub(crate) fn write_file<R: Threads + Sync, F: Files>(
    rt: &R,
    alloc: Global,
    files: &mut F,
    name: &str,
    head: &Head,
    records: &[u8],
    form: Form,
) -> Result<u64, Fault>
    requires plain { is_packed head.now.bytes ≡ false }
    requires none { laszip_vlrs_of head.now.bytes ≡ [] }
{
    let chunk = chunk_of(form.chunk);
    write_as(rt, alloc, files, name, head, chunk, records, form)
}

// Writes a file of the plain form of this head and these records.
fn write_under<R: Threads + Sync, F: Files>(
    rt: &R,
    alloc: Global,
    files: &mut F,
    name: &str,
    head: &Head,
    records: &[u8],
    form: Form,
) -> Result<u64, Fault>
    requires none { is_packed head.now.bytes ≡ false → laszip_vlrs_of head.now.bytes ≡ [] }
    requires one { is_packed head.now.bytes ≡ true → length (laszip_vlrs_of head.now.bytes) ≡ 1 }
{
    if head.packed() {
        let plain = head.without_vlr(alloc)?;
        return write_file(rt, alloc, files, name, &plain, records, form);
    }
    write_file(rt, alloc, files, name, head, records, form)
}

// Writes these records of a file to another one, under its plain head.
fn write_again<R: Threads + Sync, F: Files>(
    rt: &R,
    alloc: Global,
    files: &mut F,
    from: &str,
    to: &str,
    records: &[u8],
    form: Form,
) -> Result<u64, Fault> {
    let reader = Reader::open(alloc, files, from)?;
    write_under(rt, alloc, files, to, reader.head(), records, form)
}

/// Writes the records of a file to another one, under its plain head.
pub(crate) fn rewrite<R: Threads + Sync, F: Files>(
    rt: &R,
    alloc: Global,
    files: &mut F,
    from: &str,
    to: &str,
    form: Form,
) -> Result<u64, Fault> {
    let mut records = Vec::new(alloc);
    read_file(rt, alloc, files, from, form.workers, &mut records)?;
    write_again(rt, alloc, files, from, to, &records, form)
}
