//! Bytes at the end of an output.
ghost use Rattle.std.specs.Prelude.{◌≡◌, ◌^◌, ◌<◌, ◌≤◌, ◌++◌, ℕ, length, map, All, Contains, OnOk};
ghost use Rattle.std.specs.Prelude.{IfErr};
ghost use Rattle.las_outside.specs.Frames.{OnlyWrites};
ghost use Rattle.las_outside.specs.Outside.{with_bytes};
ghost use Rattle.laz_forms.specs.declared.fault.Fault.TheVariants.{Write};
ghost use Rattle.laz_writer.specs.Writing.{HasText, IsChunk, OfText, StopsAfter, all_chunks, chunks};
ghost use Rattle.laz_workers.specs.Rooms.{lengths_of, numbers_in, rooms_of};
ghost use Rattle.laz_workers.specs.Work.{HoldsAnswer, texts};

use crate::pack_job::PackJob;
use las_outside::Files;
use laz_chunk::Workspace;
use laz_forms::Fault;
use laz_workers::Crew;

/// Appends bytes to an output, in one call.
pub(crate) fn put<F: Files>(files: &mut F, name: &str, bytes: &[u8]) -> Result<(), Fault>
    requires held { HasText (F.seen files.old) name.now }
    ensures added { OfText (F.seen files.old) name.now
        (λ before text. OnOk result (F.seen files.new ≡ with_bytes before name.now (text ++ bytes.now))) }
    ensures stopped { OfText (F.seen files.old) name.now
        (λ before text. IfErr result (StopsAfter before (F.seen files.new) name.now text bytes.now)) }
    ensures fault { IfErr result (λ fault. fault ≡ Write) }
    ensures writes { OnlyWrites (F.seen files.old) (F.seen files.new) }
{
    match files.append(name, bytes) {
        Ok(()) => Ok(()),
        Err(_) => Err(Fault::Write),
    }
}

/// Appends the chunks of blocks that a crew has packed, in the order of the blocks, in one call each. The lengths of
/// the chunks are added to a list.
pub(crate) fn put_chunks<F: Files>(
    files: &mut F,
    name: &str,
    job: PackJob,
    blocks: &[Vec<u8>],
    crew: &Crew<Workspace>,
    lengths: &mut Vec<u32>,
) -> Result<(), Fault>
    requires held { HasText (F.seen files.old) name.now }
    requires few { length blocks.now ≤ 16 }
    requires stand { (number : ℕ) → number < length blocks.now → Contains (numbers_in (rooms_of crew.now)) number }
    requires answers { All (HoldsAnswer (IsChunk job) (texts blocks.now)) (rooms_of crew.now) }
    requires small { All (λ n. n < 2 ^ 32) (lengths_of (rooms_of crew.now)) }
    ensures added { OfText (F.seen files.old) name.now
        (λ before text. OnOk result (F.seen files.new ≡ with_bytes before name.now (text ++ all_chunks job
        (texts blocks.now)))) }
    ensures stopped { OfText (F.seen files.old) name.now
        (λ before text. IfErr result (StopsAfter before (F.seen files.new) name.now text (all_chunks job
        (texts blocks.now)))) }
    ensures lengths { OnOk result (lengths.new.items
        ≡ lengths.old.items ++ map (λ chunk. length chunk) (chunks job (texts blocks.now))) }
    ensures writes { OnlyWrites (F.seen files.old) (F.seen files.new) }
{
    for i in 0..blocks.len() {
        let Some(chunk) = crew.result(i as u32) else {
            unreachable!()
        };
        match lengths.push(chunk.len() as u32) {
            Ok(()) => {}
            Err(_) => return Err(Fault::Memory),
        }
        put(files, name, chunk)?;
    }
    Ok(())
}
