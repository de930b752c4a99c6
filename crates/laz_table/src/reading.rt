//! Chunk tables, as they are read.

ghost use Rattle.std.specs.Prelude.{◌≡◌, ◌*◌, ◌+◌, ◌++◌, ◌<◌, ◌≤◌, [], ◌∷◌, false, true, length, IfOk};
ghost use Rattle.std.specs.Prelude.{MatchResult, OnOk};
ghost use Rattle.laz_integer.specs.Integer.{IsInts};
ghost use Rattle.laz_table.specs.Entries.{context_of, entries_of};
ghost use Rattle.laz_table.specs.Steps.{IsFault, ReadsNumber, table_start, NoNumber, ReadsList};

use crate::chunks::{ChunkList, TableFault};
use crate::entries::context_of;
use laz_integer::IntModel;
use laz_range::{Bad, Decoder};
use std::alloc::Global;

// Reads a number after one before it of its kind.
fn take_number(
    decoder: &mut Decoder<'_>,
    model: &mut IntModel,
    counts_points: bool,
    before: u32,
) -> Result<u32, Bad>
    requires good { decoder.old.failed ≡ false }
    requires models { IsInts 32 2 model.old }
    ensures models { IsInts 32 2 model.new }
    ensures reads { MatchResult result
        (λ number. ReadsNumber counts_points before number model.old model.new decoder.old decoder.new)
        (λ _. NoNumber counts_points model.old decoder.old decoder.new) }
    ensures good { OnOk result (decoder.new.failed ≡ false) }
{
    let context = context_of(counts_points);
    let (number, _) = model.read(decoder, before.cast_signed(), context)?;
    Ok(number.cast_unsigned())
}

// Reads a number after one before it of its kind, and appends it to those of its kind.
fn take_next(
    decoder: &mut Decoder<'_>,
    model: &mut IntModel,
    counts_points: bool,
    before: u32,
    numbers: &mut Vec<u32>,
) -> Result<u32, TableFault>
    requires good { decoder.old.failed ≡ false }
    requires models { IsInts 32 2 model.old }
    ensures models { IsInts 32 2 model.new }
    ensures reads { MatchResult result
        (λ n. ReadsNumber counts_points before n model.old model.new decoder.old decoder.new)
        (λ fault. IsFault fault (NoNumber counts_points model.old decoder.old decoder.new)) }
    ensures good { OnOk result (decoder.new.failed ≡ false) }
    ensures items { IfOk result (λ number. numbers.new.items ≡ numbers.old.items ++ number ∷ []) }
{
    let Ok(number) = take_number(decoder, model, counts_points, before) else {
        return Err(TableFault::Table);
    };
    match numbers.push(number) {
        Ok(()) => Ok(number),
        Err(_) => Err(TableFault::Memory),
    }
}

/// Reads the sizes of chunks in bytes.
pub fn take_counts(
    alloc: Global,
    decoder: &mut Decoder<'_>,
    model: &mut IntModel,
    chunks: u32,
) -> Result<Vec<u32>, TableFault>
    requires good { decoder.old.failed ≡ false }
    requires within { decoder.old.taken ≤ length decoder.old.bytes }
    requires models { IsInts 32 2 model.old }
    ensures len { IfOk result (λ counts. length counts.items ≡ chunks) }
    ensures reads { ReadsList result (λ counts. entries_of [] counts.items) (table_start model.old false) chunks
        decoder.old decoder.new }
{
    let mut counts = Vec::new(alloc);
    let mut before = 0;
    for _chunk in 0..chunks {
        before = take_next(decoder, model, false, before, &mut counts)?;
    }
    Ok(counts)
}

/// Reads the numbers of points and the sizes of chunks, in turn.
pub fn take_chunks(
    alloc: Global,
    decoder: &mut Decoder<'_>,
    model: &mut IntModel,
    chunks: u32,
) -> Result<ChunkList, TableFault>
    requires good { decoder.old.failed ≡ false }
    requires within { decoder.old.taken ≤ length decoder.old.bytes }
    requires models { IsInts 32 2 model.old }
    ensures counts { IfOk result (λ list. length list.counts.items ≡ chunks) }
    ensures sizes { IfOk result (λ list. length list.sizes.items ≡ chunks) }
    ensures reads { ReadsList result (λ list. entries_of list.sizes.items list.counts.items)
        (table_start model.old true) (2 * chunks) decoder.old decoder.new }
{
    let mut sizes = Vec::new(alloc);
    let mut counts = Vec::new(alloc);
    let mut size_before = 0;
    let mut count_before = 0;
    for _chunk in 0..chunks {
        size_before = take_next(decoder, model, true, size_before, &mut sizes)?;
        count_before = take_next(decoder, model, false, count_before, &mut counts)?;
    }
    Ok(ChunkList { sizes, counts })
}
