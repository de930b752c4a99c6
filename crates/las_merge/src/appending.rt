//! Bytes, and parts of other files, that are appended to an output in pieces.
ghost use Rattle.std.specs.Prelude.{◌≡◌, ◌≢◌, ◌+◌, ◌++◌, ◌^◌, ◌<◌, ◌≤◌, ℕ, List, All, length, map, take, sum_by};
ghost use Rattle.std.specs.Prelude.{IfErr, OnErr, OnOk};
ghost use Rattle.std.specs.List.{concat};
ghost use Rattle.las_outside.specs.Files.{WhereKnown, with_file};
ghost use Rattle.las_outside.specs.Frames.{IsCalm, OnlyWrites};
ghost use Rattle.las_outside.specs.Outside.{Outside, with_bytes, with_write_fault};
ghost use Rattle.laz_reader.specs.Asking.{ReadsAndWrites};
ghost use Rattle.laz_file.specs.Copying.{with_reads};
ghost use Rattle.las_merge.specs.Appending.{IsCopyFault, PartLiesIn, source_bytes, part_of};

use crate::MergeFault;
use crate::source::Source;
use las_outside::{Failed, Files};
use laz_file::Fault;

/// The most bytes of one read or one append: 2^20.
pub(crate) const PIECE: usize = 1_048_576;

/// Appends bytes to an output, in pieces of at most 2^20 bytes. After `Failed` a prefix of them was appended.
pub(crate) fn append_all<F: Files>(files: &mut F, name: &str, bytes: &[u8]) -> Result<(), Failed>
    requires held { (before : Outside) × (text : List ℕ) × (F.seen files.old ≡ with_bytes before name.now text) }
    ensures added { (before : Outside) (text : List ℕ) → F.seen files.old ≡ with_bytes before name.now text
        → OnOk result (F.seen files.new ≡ with_bytes before name.now (text ++ bytes.now)) }
    ensures stopped { (before : Outside) (text : List ℕ) → F.seen files.old ≡ with_bytes before name.now text
        → OnErr result ((n : ℕ) × (F.seen files.new
        ≡ with_write_fault (with_bytes before name.now (text ++ take n bytes.now)))) }
    ensures writes { OnlyWrites (F.seen files.old) (F.seen files.new) }
{
    let mut done = 0;
    'pieces: while done < bytes.len() {
        let size = (bytes.len() - done).min(PIECE);
        files.append(name, &bytes[done..done + size])?;
        done += size;
    }
    Ok(())
}

// Appends a full buffer of bytes of an input to an output, in one read and one append.
fn copy_piece<F: Files>(
    files: &mut F,
    number: u32,
    input: &str,
    place: u64,
    output: &str,
    buffer: &mut [u8],
) -> Result<(), MergeFault>
    requires names { input.now ≢ output.now }
    requires lies { WhereKnown (F.seen files.old).held input.now (λ file. place + length buffer.old ≤ length file) }
    requires held { (before : Outside) × (text : List ℕ) × (F.seen files.old ≡ with_bytes before output.now text) }
    ensures copied { (before : Outside) (text : List ℕ) → F.seen files.old ≡ with_bytes before output.now text
        → OnOk result (F.seen files.new ≡ with_bytes (with_reads before (F.seen files.new)) output.now
        (text ++ source_bytes (F.seen files.old).held input.now place (length buffer.old))) }
    ensures left { (before : Outside) (text : List ℕ) → F.seen files.old ≡ with_bytes before output.now text
        → OnErr result ((n : ℕ) × ((F.seen files.new).held ≡ with_file before.held output.now
        (text ++ take n (source_bytes (F.seen files.old).held input.now place (length buffer.old))))) }
    ensures cause { IfErr result (IsCopyFault (λ n. n ≡ number) (F.seen files.old) (F.seen files.new)) }
    ensures room { length buffer.new ≡ length buffer.old }
    ensures calm { OnOk result (IsCalm (F.seen files.old) (F.seen files.new)) }
    ensures frame { ReadsAndWrites (length buffer.old) (F.seen files.old) (F.seen files.new) }
{
    match files.read_at(input, place, buffer) {
        Ok(()) => {}
        Err(_) => return Err(MergeFault::At(number, Fault::Read)),
    }
    match files.append(output, buffer) {
        Ok(()) => Ok(()),
        Err(_) => Err(MergeFault::Write),
    }
}

// Appends the `size` bytes of the input of this number that stand from `place` on to an output, through a buffer.
fn copy_part<F: Files>(
    files: &mut F,
    number: u32,
    input: &str,
    place: u64,
    size: u64,
    output: &str,
    buffer: &mut [u8],
) -> Result<(), MergeFault>
    requires some { 0 < length buffer.old }
    requires near { place + size < 2 ^ 64 }
    requires names { input.now ≢ output.now }
    requires lies { WhereKnown (F.seen files.old).held input.now (λ file. place + size ≤ length file) }
    requires held { (before : Outside) × (text : List ℕ) × (F.seen files.old ≡ with_bytes before output.now text) }
    ensures copied { (before : Outside) (text : List ℕ) → F.seen files.old ≡ with_bytes before output.now text
        → OnOk result (F.seen files.new ≡ with_bytes (with_reads before (F.seen files.new)) output.now
        (text ++ source_bytes (F.seen files.old).held input.now place size)) }
    ensures left { (before : Outside) (text : List ℕ) → F.seen files.old ≡ with_bytes before output.now text
        → OnErr result ((n : ℕ) × ((F.seen files.new).held ≡ with_file before.held output.now
        (text ++ take n (source_bytes (F.seen files.old).held input.now place size)))) }
    ensures cause { IfErr result (IsCopyFault (λ n. n ≡ number) (F.seen files.old) (F.seen files.new)) }
    ensures room { length buffer.new ≡ length buffer.old }
    ensures calm { OnOk result (IsCalm (F.seen files.old) (F.seen files.new)) }
    ensures frame { ReadsAndWrites size (F.seen files.old) (F.seen files.new) }
{
    let mut done = 0;
    'pieces: while done < size {
        let piece = (size - done).min(buffer.len() as u64) as usize;
        let (part, _) = buffer.split_at_mut(piece);
        copy_piece(files, number, input, place + done, output, part)?;
        done += piece as u64;
    }
    Ok(())
}

/// Appends parts of the inputs to an output, one after another. A read that failed is the part's input's.
pub(crate) fn copy_all<F: Files>(
    files: &mut F,
    sources: &[Source],
    output: &str,
    buffer: &mut [u8],
) -> Result<(), MergeFault>
    requires some { 0 < length buffer.old }
    requires few { length sources.now ≤ 32 }
    requires names { All (λ source. source.name ≢ output.now) sources.now }
    requires lie { All (PartLiesIn (F.seen files.old).held) sources.now }
    requires held { (before : Outside) × (text : List ℕ) × (F.seen files.old ≡ with_bytes before output.now text) }
    ensures copied { (before : Outside) (text : List ℕ) → F.seen files.old ≡ with_bytes before output.now text
        → OnOk result (F.seen files.new ≡ with_bytes (with_reads before (F.seen files.new)) output.now
        (text ++ concat (map (part_of (F.seen files.old).held) sources.now))) }
    ensures left { (before : Outside) (text : List ℕ) → F.seen files.old ≡ with_bytes before output.now text
        → OnErr result ((n : ℕ) × ((F.seen files.new).held ≡ with_file before.held output.now
        (text ++ take n (concat (map (part_of (F.seen files.old).held) sources.now))))) }
    ensures cause { IfErr result
        (IsCopyFault (λ n. n < length sources.now) (F.seen files.old) (F.seen files.new)) }
    ensures calm { OnOk result (IsCalm (F.seen files.old) (F.seen files.new)) }
    ensures frame { ReadsAndWrites (sum_by (λ source. source.size) sources.now)
        (F.seen files.old) (F.seen files.new) }
{
    'sources: for i in 0..sources.len() {
        let source = &sources[i];
        let (place, size) = source.span();
        copy_part(files, i as u32, source.name(), place, size, output, buffer)?;
    }
    Ok(())
}
