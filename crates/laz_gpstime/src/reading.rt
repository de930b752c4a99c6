//! A time read.
ghost use Rattle.std.specs.Prelude.{◌≡◌, ◌≢◌, ◌<◌, ◌≤◌, ◌+◌, ◌*◌, false, length, IfOk};
ghost use Rattle.laz_range.specs.Decoding.{Reads};
ghost use Rattle.laz_gpstime.specs.Choices.{ReadsChoice, ReadsFront, ReadsLastSymbol, ReadsRest, ReadsWordAt};
ghost use Rattle.laz_gpstime.specs.Choices.{time_symbol_cuts, symbol_next};
ghost use Rattle.laz_gpstime.specs.Spelling.{time_plus};
ghost use Rattle.laz_gpstime.specs.State.{state_of};
ghost use Rattle.laz_gpstime.specs.Slots.{IsTimeState, difference_of};
ghost use Rattle.laz_gpstime.specs.Times.{context, model_of, new_symbol, predicted, same_symbol, symbols_of};

use crate::coding::high;
use crate::sequences::{add_point, current, open_sequence, switch_by};
use crate::symbols::{context, model_of, new_symbol, predicted, same_symbol};
use crate::times::Times;
use laz_integer::take_frequent_symbol_of;
use laz_range::{Bad, Decoder};

// Takes a symbol of the latest point's sequence.
#[inline(always)]
fn take_time_symbol(times: &mut Times, decoder: &mut Decoder<'_>) -> Result<u32, Bad>
    requires good { decoder.old.failed ≡ false }
    requires state { IsTimeState (state_of times.old) }
    ensures reads { Reads result
        (λ s. s < symbols_of (difference_of (state_of times.old))) (time_symbol_cuts (state_of times.old))
        decoder.old decoder.new }
    ensures next { IfOk result (λ s. state_of times.new ≡ symbol_next (state_of times.old) s) }
    ensures state { IsTimeState (state_of times.new) }
{
    let difference = current(&times.sequences).difference;
    take_frequent_symbol_of(decoder, &mut times.symbols, model_of(difference))
}

// Takes a symbol of the latest point's sequence that is no switch.
#[inline(always)]
fn take_last_symbol(times: &mut Times, decoder: &mut Decoder<'_>) -> Result<u32, Bad>
    requires good { decoder.old.failed ≡ false }
    requires state { IsTimeState (state_of times.old) }
    ensures reads { ReadsLastSymbol result (state_of times.old) decoder.old decoder.new }
    ensures next { IfOk result (λ s. state_of times.new ≡ symbol_next (state_of times.old) s) }
    ensures state { IsTimeState (state_of times.new) }
{
    let new = new_symbol(current(&times.sequences).difference);
    let symbol = take_time_symbol(times, decoder)?;
    if symbol > new {
        return Err(Bad);
    }
    Ok(symbol)
}

// Takes a symbol that is no switch, after one switch at most.
#[inline(always)]
fn take_symbols(times: &mut Times, decoder: &mut Decoder<'_>) -> Result<u32, Bad>
    requires good { decoder.old.failed ≡ false }
    requires state { IsTimeState (state_of times.old) }
    ensures reads { ReadsFront result (state_of times.old) decoder.old decoder.new (state_of times.new) }
    ensures state { IsTimeState (state_of times.new) }
{
    let new = new_symbol(current(&times.sequences).difference);
    let symbol = take_time_symbol(times, decoder)?;
    if symbol <= new {
        return Ok(symbol);
    }
    switch_by(&mut times.sequences, (symbol - new) as usize);
    take_last_symbol(times, decoder)
}

// Takes a word with a prediction.
#[inline(always)]
fn take_word(times: &mut Times, decoder: &mut Decoder<'_>, pred: u32, ctx: u32) -> Result<u32, Bad>
    requires good { decoder.old.failed ≡ false }
    requires state { IsTimeState (state_of times.old) }
    requires context { ctx < 9 }
    ensures reads { ReadsWordAt result times.old.integers ctx pred decoder.old decoder.new times.new.integers }
    ensures sequences { times.new.sequences ≡ times.old.sequences }
    ensures symbols { times.new.symbols ≡ times.old.symbols }
    ensures state { IsTimeState (state_of times.new) }
{
    let (word, _) = times.integers.read(decoder, pred.cast_signed(), ctx)?;
    Ok(word.cast_unsigned())
}

// A time and a signed word, modulo 2^64.
#[inline(always)]
fn time_plus(from: u64, word: u32) -> u64
    ensures { result ≡ time_plus from word }
{
    if word < 0x8000_0000 {
        from.wrapping_add(word as u64)
    } else {
        from.wrapping_add(0xffff_ffff_0000_0000 + word as u64)
    }
}

// Takes what follows the symbol of a difference.
#[inline(always)]
fn take_near(times: &mut Times, decoder: &mut Decoder<'_>, symbol: u32) -> Result<u64, Bad>
    requires good { decoder.old.failed ≡ false }
    requires state { IsTimeState (state_of times.old) }
    requires below { symbol < new_symbol (difference_of (state_of times.old)) }
    requires differs { symbol ≢ same_symbol (difference_of (state_of times.old)) }
    ensures reads { ReadsRest result (state_of times.old) symbol decoder.old decoder.new (state_of times.new) }
    ensures state { IsTimeState (state_of times.new) }
{
    let slot = current(&times.sequences);
    let pred = predicted(slot.difference, symbol);
    let word = take_word(times, decoder, pred, context(slot.difference, symbol))?;
    let time = time_plus(slot.time, word);
    add_point(&mut times.sequences, symbol, time);
    Ok(time)
}

// Takes what follows the symbol of a new sequence.
#[inline(always)]
fn take_new(times: &mut Times, decoder: &mut Decoder<'_>) -> Result<u64, Bad>
    requires good { decoder.old.failed ≡ false }
    requires state { IsTimeState (state_of times.old) }
    ensures reads { let st = state_of times.old in
        ReadsRest result st (new_symbol (difference_of st)) decoder.old decoder.new (state_of times.new) }
    ensures state { IsTimeState (state_of times.new) }
{
    let from = current(&times.sequences).time;
    let word = take_word(times, decoder, high(from), 8)?;
    let low = decoder.take_raw(32)?;
    let time = word as u64 * 0x1_0000_0000 + low as u64;
    open_sequence(&mut times.sequences, time);
    Ok(time)
}

// Takes what follows a symbol that is no switch.
#[inline(always)]
fn take_rest<M>(times: &mut Times, decoder: &mut Decoder<'_>, symbol: u32) -> Result<u64, Bad>
    requires good { decoder.old.failed ≡ false }
    requires within { decoder.old.taken ≤ length decoder.old.bytes }
    requires state { IsTimeState (state_of times.old) }
    requires symbol { symbol ≤ new_symbol (difference_of (state_of times.old)) }
    ensures reads { ReadsRest result (state_of times.old) symbol decoder.old decoder.new (state_of times.new) }
    ensures state { IsTimeState (state_of times.new) }
{
    let slot = current(&times.sequences);
    if symbol == new_symbol(slot.difference) {
        return take_new(times, decoder);
    }
    if symbol != same_symbol(slot.difference) {
        return take_near(times, decoder, symbol);
    }
    add_point(&mut times.sequences, symbol, slot.time);
    Ok(slot.time)
}

// Takes a time.
#[inline(always)]
pub(crate) fn take_time<M>(times: &mut Times, decoder: &mut Decoder<'_>) -> Result<u64, Bad>
    requires good { decoder.old.failed ≡ false }
    requires state { IsTimeState (state_of times.old) }
    ensures reads { ReadsChoice result (state_of times.old) decoder.old decoder.new (state_of times.new) }
    ensures word { IfOk result (λ time. time < 18446744073709551616) }
    ensures state { IsTimeState (state_of times.new) }
{
    let symbol = take_symbols(times, decoder)?;
    take_rest::<M>(times, decoder, symbol)
}
