//! What is kept of times, and a symbol or a word coded.
ghost use Rattle.std.specs.Prelude.{◌≡◌, ◌<◌, ◌≤◌, ◌+◌, [], ◌∷◌};
ghost use Rattle.laz_models.specs.Counting.{after_symbol};
ghost use Rattle.laz_integer.specs.Integer.{IntEvents};
ghost use Rattle.std.specs.Int.{w32, cast_signed};
ghost use Rattle.laz_gpstime.specs.Meanings.{time_kind};
ghost use Rattle.laz_gpstime.specs.State.{state_of};
ghost use Rattle.laz_gpstime.specs.Slots.{CodesHere, IsTimeState, StandWith, difference_of, symbols_after};
ghost use Rattle.laz_gpstime.specs.Times.{model_of, symbols_of, time_symbol};

use crate::sequences::{Sequences, current};
use crate::symbols::model_of;
use laz_integer::{IntModel, put_symbol_of, take_symbol_of};
use laz_models::ModelBank;
use laz_range::{Bad, Decoder, Encoder};

/// The slots of the sequences, the models of 6 and of 516 symbols, and those of differences and high words.
#[derive(Drop)]
pub struct Times {
    pub sequences: Sequences,
    pub symbols: ModelBank,
    pub integers: IntModel,
}

// Codes a symbol of the latest point's sequence.
#[inline(always)]
pub(crate) fn put_time_symbol(times: &mut Times, encoder: &mut Encoder, symbol: u32)
    requires state { IsTimeState (state_of times.old) }
    requires symbol { symbol < symbols_of (difference_of (state_of times.old)) }
    requires left { 3 ≤ encoder.old.left }
    ensures sequences { times.new.sequences ≡ times.old.sequences }
    ensures after_symbol { times.new.symbols ≡ symbols_after (state_of times.old) symbol }
    ensures integers { times.new.integers ≡ times.old.integers }
    ensures state { IsTimeState (state_of times.new) }
    ensures used { encoder.old.left ≤ encoder.new.left + 3 }
    ensures codes { CodesHere (state_of times.old) (time_symbol (difference_of (state_of times.old)) symbol ∷ [])
        encoder.old encoder.new }
    ensures stands { StandWith (state_of times.old) (time_symbol (difference_of (state_of times.old)) symbol ∷ [])
        (state_of times.new) }
{
    let difference = current(&times.sequences).difference;
    put_symbol_of(encoder, &mut times.symbols, model_of(difference), symbol);
}

// Codes a word with a prediction.
#[inline(always)]
pub(crate) fn put_word(times: &mut Times, encoder: &mut Encoder, pred: u32, real: u32, ctx: u32)
    requires state { IsTimeState (state_of times.old) }
    requires context { ctx < 9 }
    requires left { 12 ≤ encoder.old.left }
    ensures sequences { times.new.sequences ≡ times.old.sequences }
    ensures symbols { times.new.symbols ≡ times.old.symbols }
    ensures state { IsTimeState (state_of times.new) }
    ensures used { encoder.old.left ≤ encoder.new.left + 12 }
    ensures codes { CodesHere (state_of times.old)
        (IntEvents time_kind 32 ctx (cast_signed w32 pred) (cast_signed w32 real)) encoder.old encoder.new }
    ensures stands { StandWith (state_of times.old)
        (IntEvents time_kind 32 ctx (cast_signed w32 pred) (cast_signed w32 real)) (state_of times.new) }
{
    times
        .integers
        .code_of(32, encoder, pred.cast_signed(), real.cast_signed(), ctx);
}
