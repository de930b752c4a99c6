//! The bytes of a decoder, and how far it has come in them.
ghost use Rattle.std.specs.Prelude.{◌≡◌, ℕ, ◌+◌, ◌-◌, ◌*◌, ◌/◌, ◌^◌, ◌<◌, ◌≤◌, OnOk, length, take, drop};
ghost use Rattle.laz_range.specs.Reading.{reading_after_part};
ghost use Rattle.laz_range.specs.Span.{number, IsBytes};
ghost use Rattle.laz_range.specs.Input.{input_reading, Gives};
ghost use Rattle.laz_range.specs.Search.{top_bits};

use crate::lacking::bytes_lacking;
use crate::limits::MIN_LENGTH;
use crate::number::number_of;
use crate::reciprocal::top_of;

/// No event of the kind asked for begins the rest of the bytes: they run out, or they spell no such raw value.
#[derive(Clone, Copy, Debug, PartialEq, Eq)]
pub struct Bad;

/// `taken` bytes are taken. Their number lies `value` above the low end of the interval, whose length is `length`. `top`
/// has the top bits of the length, so that an estimate need not wait for them.
// `value` and `length` are not neighbours: written one by one and read as one word, they would stall the store buffer.
#[derive(Clone, Copy)]
pub struct Input<'a> {
    pub bytes: &'a [u8],
    pub value: u32,
    pub taken: usize,
    pub length: u32,
    pub top: u32,
}

/// The word whose first bytes are those from `at` on, fewer than four, and whose other bytes are 0.
#[cold]
#[inline(never)]
fn last_word(bytes: &[u8], at: usize) -> u32
    requires within { at ≤ length bytes.now }
    requires few { length bytes.now < at + 4 }
    ensures { (n : ℕ) → at + n ≤ length bytes.now → result / 256 ^ (4 - n) ≡ number (take n (drop at bytes.now)) }
{
    let rest = &bytes[at..];
    ((number_of(rest) as u64) << (32 - 8 * rest.len() as u32)) as u32
}

/// The number of the four bytes from `at` on.
#[inline(always)]
fn four_at(bytes: &[u8], at: usize) -> u32
    requires { at + 4 ≤ length bytes.now }
    ensures number { result ≡ number (take 4 (drop at bytes.now)) }
    ensures bytes { IsBytes bytes.now }
{
    u32::from_be_bytes([bytes[at], bytes[at + 1], bytes[at + 2], bytes[at + 3]])
}

/// A value with the first `more` bytes of a word after it.
#[inline(always)]
fn with_bytes_of(word: u32, value: u32, more: u32) -> u32
    requires few { more < 4 }
    requires fits { (value + 1) * 256 ^ more ≤ 2 ^ 32 }
    ensures { result ≡ value * 256 ^ more + word / 256 ^ (4 - more) }
{
    let both = ((value as u64) << 32) + word as u64;
    ((both << (8 * more)) >> 32) as u32
}

/// Goes on after the part that begins at `from` and has length `width`, which the value lies in.
// Four bytes are read ahead, so that nothing branches on how many of them the part needs.
#[inline(always)]
pub fn advance(input: &mut Input<'_>, from: u32, width: u32) -> Result<(), Bad>
    requires within { input.old.taken ≤ length input.old.bytes.now }
    requires above { from ≤ input.old.value }
    requires below { input.old.value < from + width }
    ensures reads { Gives result (reading_after_part (input_reading input.old) from width) (input_reading input.new) }
    ensures bytes { input.new.bytes.now ≡ input.old.bytes.now }
    ensures within { input.new.taken ≤ length input.new.bytes.now }
    ensures below { OnOk result (input.new.value < input.new.length) }
    ensures long { OnOk result (MIN_LENGTH ≤ input.new.length) }
    ensures top { OnOk result (input.new.top ≡ top_bits input.new.length) }
{
    let more = bytes_lacking(width);
    let left = input.bytes.len() - input.taken;
    let ahead = if left < 4 {
        if left < more as usize {
            return Err(Bad);
        }
        last_word(input.bytes, input.taken)
    } else {
        four_at(input.bytes, input.taken)
    };
    input.value = with_bytes_of(ahead, input.value - from, more);
    input.taken += more as usize;
    input.length = width << (8 * more);
    input.top = top_of(width);
    Ok(())
}
