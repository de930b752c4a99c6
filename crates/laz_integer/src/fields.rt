//! Fields of a record that are coded only if they are marked as changed: bytes, and numbers of 16 bits.
ghost use Rattle.std.specs.Prelude.{◌≡◌, ◌+◌, ◌<◌, ◌≤◌, false, length, IfOk, MatchResult, OnErr};
ghost use Rattle.laz_range.specs.Coding.{Codes};
ghost use Rattle.laz_range.specs.Decoding.{Reads, TakesNone};
ghost use Rattle.laz_models.specs.Bank.{model_at, alphabet_sizes};
ghost use Rattle.laz_models.specs.Dist.{alphabet_size};
ghost use Rattle.laz_integer.specs.Integer.{IsInts};
ghost use Rattle.laz_integer.specs.Fields.{IsByte, IsWord, ReadsWord, byte_cuts, byte_next, word_cuts, word_next};
ghost use Rattle.laz_integer.specs.Fields.{word_corrector};

use crate::int_model::IntModel;
use crate::limits::{MAX_INT_BYTES, MAX_SHORT_INT_BYTES};
use crate::symbols::{put_symbol_of, take_symbol_of};
use laz_models::ModelBank;
use laz_range::{Bad, Decoder, Encoder};

/// Codes a byte under model `m` of a bank, which has 256 symbols, if the byte is marked.
#[inline(always)]
pub fn put_byte(encoder: &mut Encoder, bank: &mut ModelBank, marked: bool, m: u32, byte: u8)
    requires model { m < length bank.old }
    requires size { alphabet_size (model_at bank.old m) ≡ 256 }
    requires left { 3 ≤ encoder.old.left }
    ensures codes { Codes encoder.old encoder.new (byte_cuts marked bank.old m byte) }
    ensures next { bank.new ≡ byte_next marked bank.old m byte }
    ensures sizes { alphabet_sizes bank.new ≡ alphabet_sizes bank.old }
    ensures used { encoder.old.left ≤ encoder.new.left + 3 }
{
    if marked {
        put_symbol_of(encoder, bank, m, byte as u32);
    }
}

/// Reads a byte under model `m` of a bank, which has 256 symbols, if the byte is marked. A byte without its mark is the
/// expected one. [`Bad`] means that the bytes end too early: no symbol begins those left.
#[inline(always)]
pub fn take_byte(
    decoder: &mut Decoder<'_>,
    bank: &mut ModelBank,
    marked: bool,
    m: u32,
    expected: u8,
) -> Result<u8, Bad>
    requires good { decoder.old.failed ≡ false }
    requires within { decoder.old.taken ≤ length decoder.old.bytes }
    requires model { m < length bank.old }
    requires size { alphabet_size (model_at bank.old m) ≡ 256 }
    ensures reads { Reads result (IsByte marked expected) (byte_cuts marked bank.old m) decoder.old decoder.new }
    ensures next { IfOk result (λ byte. bank.new ≡ byte_next marked bank.old m byte) }
    ensures kept { OnErr result (bank.new ≡ bank.old) }
    ensures sizes { alphabet_sizes bank.new ≡ alphabet_sizes bank.old }
{
    if marked {
        let byte = take_symbol_of(decoder, bank, m)?;
        return Ok(byte as u8);
    }
    Ok(expected)
}

/// Codes a number of 16 bits with the prediction `pred`, if the number is marked. It takes at most 9 bytes of the
/// encoder's room.
#[inline(always)]
pub fn put_word(
    encoder: &mut Encoder,
    model: &mut IntModel,
    marked: bool,
    pred: u16,
    real: u16,
    ctx: u32,
)
    requires ints { IsInts 16 model.old.contexts model.old }
    requires context { ctx < model.old.contexts }
    requires left { MAX_INT_BYTES ≤ encoder.old.left }
    ensures codes { Codes encoder.old encoder.new (word_cuts marked model.old ctx (word_corrector pred real)) }
    ensures next { model.new ≡ word_next marked model.old ctx (word_corrector pred real) }
    ensures ints { IsInts 16 model.old.contexts model.new }
    ensures used { encoder.old.left ≤ encoder.new.left + MAX_SHORT_INT_BYTES }
{
    if marked {
        model.code_of(16, encoder, pred as i32, real as i32, ctx);
    }
}

/// Reads a number of 16 bits with the prediction `pred`, if the number is marked. A number without its mark is the
/// prediction. [`Bad`] means that no spelling with this prediction and context begins the bytes that are left.
#[inline(always)]
pub fn take_word(
    decoder: &mut Decoder<'_>,
    model: &mut IntModel,
    marked: bool,
    pred: u16,
    ctx: u32,
) -> Result<u16, Bad>
    requires good { decoder.old.failed ≡ false }
    requires within { decoder.old.taken ≤ length decoder.old.bytes }
    requires ints { IsInts 16 model.old.contexts model.old }
    requires context { ctx < model.old.contexts }
    ensures reads { MatchResult result
        (λ value. ReadsWord marked model.old ctx pred value decoder.old decoder.new model.new)
        (λ _. TakesNone (IsWord marked) (word_cuts marked model.old ctx) decoder.old decoder.new) }
    ensures ints { IsInts 16 model.old.contexts model.new }
{
    if marked {
        let (value, _) = model.read(decoder, pred as i32, ctx)?;
        return Ok(value as u16);
    }
    Ok(pred)
}
