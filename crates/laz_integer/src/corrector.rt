//! Differences of integers and their correctors: a corrector has a width and an index in that width.
ghost use Rattle.std.specs.Prelude.{◌≡◌, ℕ, ◌+◌, ◌-◌, ◌*◌, ◌%◌, ◌<◌, ◌≤◌, ◌^◌};
ghost use Rattle.laz_integer.specs.Corrector.{choices, corrected, corrector, difference, digits_of, corrector_index};
ghost use Rattle.laz_integer.specs.Corrector.{width_of};

use crate::limits::MAX_BITS;

/// The lowest `bits` bits of a word.
#[inline(always)]
fn low_bits(bits: u32, word: u32) -> u32
    requires some { 1 ≤ bits }
    requires few { bits ≤ MAX_BITS }
    ensures { result ≡ word % 2 ^ bits }
{
    word & (u32::MAX >> (32 - bits))
}

/// The difference of two integers of `bits` bits, modulo 2^bits.
#[inline(always)]
pub fn between(bits: u32, pred: i32, real: i32) -> u32
    requires some { 1 ≤ bits }
    requires few { bits ≤ MAX_BITS }
    ensures difference { result ≡ difference bits pred real }
    ensures fits { result < 2 ^ bits }
{
    let difference = real.cast_unsigned().wrapping_sub(pred.cast_unsigned());
    low_bits(bits, difference)
}

/// The width of a difference's corrector, and its index in that width.
#[inline(always)]
pub fn split(bits: u32, difference: u32) -> (u32, u32)
    requires some { 1 ≤ bits }
    requires few { bits ≤ MAX_BITS }
    requires fits { difference < 2 ^ bits }
    ensures width { result.0 ≡ width_of bits difference }
    ensures index { result.1 ≡ corrector_index bits difference result.0 }
    ensures digits { result.0 ≤ bits }
    ensures value { result.1 < choices result.0 }
    ensures makes { corrector bits result.0 result.1 ≡ difference }
{
    let half = 1 << (bits - 1);
    let size = magnitude(half, difference);
    let width = binary_digits(size);
    if width == MAX_BITS {
        return (MAX_BITS, 0);
    }
    (width, index_in_width(half, difference, width, size))
}

/// The corrector minus 1 if the corrector is above 0, else its distance below 0.
// Neither this nor `index_in_width` branches, since a corrector's sign is not predictable: both values are computed and
// then one is selected.
#[inline(always)]
fn magnitude(half: u32, difference: u32) -> u32
    requires some { 1 ≤ half }
    requires half { half ≤ 2147483648 }
    requires fits { difference < 2 * half }
    ensures up { difference < half → result ≡ difference - 1 }
    ensures down { half ≤ difference → result ≡ half - (difference - half) }
{
    let up = difference.wrapping_sub(1);
    let down = fold_amount(half, difference).wrapping_sub(difference);
    if up < half - 1 { up } else { down }
}

/// The amount by which folding lowers a difference: 0, or 2^bits.
#[inline(always)]
fn fold_amount(half: u32, difference: u32) -> u32
    requires { half ≤ 2147483648 }
    ensures up { difference < half → result ≡ 0 }
    ensures down { half ≤ difference → result ≡ 2 * half % 2 ^ 32 }
{
    if difference < half {
        0
    } else {
        half.wrapping_add(half)
    }
}

/// The index of a corrector in its width.
#[inline(always)]
fn index_in_width(half: u32, difference: u32, width: u32, size: u32) -> u32
    requires small { width < MAX_BITS }
    requires above { size < 2 ^ width }
    ensures bit { difference < half → width ≡ 0 → result ≡ difference }
    ensures up { difference < half → 0 < width → 0 < difference → result ≡ difference - 1 }
    ensures down { half ≤ difference → result ≡ 2 ^ width - 1 - size }
{
    let up = difference.wrapping_sub(width.min(1));
    let down = (1 << width) - 1 - size;
    if difference < half { up } else { down }
}

/// The number of binary digits of a number.
#[inline(always)]
fn binary_digits(size: u32) -> u32
    ensures digits { result ≡ digits_of size }
    ensures few { result ≤ MAX_BITS }
    ensures none { result ≡ 0 → size ≡ 0 }
    ensures least { 0 < result → 2 ^ result ≤ 2 * size }
    ensures above { size < 2 ^ result }
{
    32 - size.leading_zeros()
}

/// Corrector `v` of width `k` as a word, up to a multiple of 2^bits.
// Its sign is not predictable: both values are computed, and one is selected.
#[inline(always)]
fn corrector_word(bits: u32, k: u32, v: u32) -> u32
    requires few { bits ≤ MAX_BITS }
    requires width { k ≤ bits }
    requires value { v < choices k }
    ensures { (p : ℕ) → (p + result) % 2 ^ bits ≡ (p + corrector bits k v) % 2 ^ bits }
{
    if k == 0 {
        return v;
    }
    if k == MAX_BITS {
        return 0x8000_0000;
    }
    let up = v + 1;
    let down = v.wrapping_sub((1 << k) - 1);
    if v >= 1 << (k - 1) { up } else { down }
}

/// The integer that corrector `v` of width `k` makes of a prediction.
#[inline(always)]
pub fn correct(bits: u32, pred: i32, k: u32, v: u32) -> i32
    requires some { 1 ≤ bits }
    requires few { bits ≤ MAX_BITS }
    requires width { k ≤ bits }
    requires value { v < choices k }
    ensures { result ≡ corrected bits pred k v }
{
    low_bits(
        bits,
        pred.cast_unsigned()
            .wrapping_add(corrector_word(bits, k, v)),
    )
    .cast_signed()
}
