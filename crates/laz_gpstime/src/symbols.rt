//! The symbols of a sequence, by its difference.
ghost use Rattle.std.specs.Prelude.{◌≡◌, ◌≢◌, ◌<◌, ◌≤◌};
ghost use Rattle.laz_gpstime.specs.Times.{context, difference_symbol, model_of, new_symbol, predicted, same_symbol};
ghost use Rattle.laz_gpstime.specs.Times.{signs_differ, size_of_word, times_in};

use crate::limits::{FULL, MULTI, MULTI_MINUS, UNCHANGED};

// Which model has the symbols of a sequence.
#[inline(always)]
pub(crate) fn model_of(difference: u32) -> u32
    ensures { result ≡ model_of difference }
{
    if difference == 0 { 0 } else { 1 }
}

// The symbol of the same time.
#[inline(always)]
pub(crate) fn same_symbol(difference: u32) -> u32
    ensures { result ≡ same_symbol difference }
{
    if difference == 0 { 0 } else { UNCHANGED }
}

// The symbol of a new sequence.
#[inline(always)]
pub(crate) fn new_symbol(difference: u32) -> u32
    ensures { result ≡ new_symbol difference }
{
    if difference == 0 { 2 } else { FULL }
}

// The size of a word, signed, without its sign.
#[inline(always)]
fn size_of_word(word: u32) -> u32
    ensures size { result ≡ size_of_word word }
    ensures most { result ≤ 2147483648 }
    ensures some { word ≢ 0 → 1 ≤ result }
{
    if word < 0x8000_0000 {
        word
    } else {
        word.wrapping_neg()
    }
}

// The quotient of `word` and `difference`, without signs, rounded to the nearest number, halves up.
#[inline(always)]
fn times_in(difference: u32, word: u32) -> u64
    requires { difference ≢ 0 }
    ensures { result ≡ times_in difference word }
{
    let size = size_of_word(difference) as u64;
    let twice = 2 * size_of_word(word) as u64;
    // Most differences are about as large as the last one, and then nothing is divided.
    if size <= twice && twice < 3 * size {
        return 1;
    }
    (twice + size) / (2 * size)
}

// Whether one of two words, signed, is below 0 and the other is not.
#[inline(always)]
fn signs_differ(difference: u32, word: u32) -> bool
    ensures { result ≡ signs_differ difference word }
{
    (difference >= 0x8000_0000) != (word >= 0x8000_0000)
}

// The symbol of the difference `word`.
#[inline(always)]
pub(crate) fn difference_symbol(difference: u32, word: u32) -> u32
    ensures symbol { result ≡ difference_symbol difference word }
    ensures below { result < new_symbol difference }
    ensures differs { result ≢ same_symbol difference }
{
    if difference == 0 {
        return 1;
    }
    let times = times_in(difference, word);
    if times == 0 {
        return 0;
    }
    if signs_differ(difference, word) {
        return MULTI + times.min(MULTI_MINUS as u64) as u32;
    }
    times.min(MULTI as u64) as u32
}

// The multiple of `difference` that a symbol stands for.
#[inline(always)]
pub(crate) fn predicted(difference: u32, symbol: u32) -> u32
    ensures { result ≡ predicted difference symbol }
{
    if symbol <= MULTI {
        symbol.wrapping_mul(difference)
    } else {
        (symbol - MULTI).wrapping_mul(difference.wrapping_neg())
    }
}

// The context of a difference, by its symbol.
#[inline(always)]
pub(crate) fn context(difference: u32, symbol: u32) -> u32
    ensures context { result ≡ context difference symbol }
    ensures few { result < 8 }
{
    if difference == 0 {
        return 0;
    }
    match symbol {
        0 => 7,
        1 => 1,
        2..=9 => 2,
        _ if symbol < MULTI => 3,
        MULTI => 4,
        _ if symbol < MULTI + MULTI_MINUS => 5,
        _ => 6,
    }
}
