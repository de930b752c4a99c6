//! The bytes of an encoder, and its present interval.
ghost use Rattle.std.specs.Prelude.{◌≡◌, ℕ, ◌+◌, ◌*◌, ◌/◌, ◌%◌, ◌^◌, ◌<◌, ◌≤◌, ◌-◌, length, take, drop, vec_capacity};
ghost use Rattle.laz_range.specs.Span.{Span, subspan, IsSpan, number, bytes_of, final_number, IsBytes};
ghost use Rattle.laz_range.specs.Output.{low_of, span_of, HasRoom, IsWindow, Spells, Widens, Writes};

use crate::carry::carry_into;
use crate::lacking::bytes_lacking;
use crate::limits::MIN_LENGTH;
use crate::window::put_window;

/// The bytes from `at` up to `next` are written. They and the lower half of `low` spell the low end of the interval,
/// whose length is `length`. The upper half of `low` is the last four bytes before `next`, so that a carry runs into
/// them by itself. The bytes may be lengthened up to `size` bytes: there is capacity for that many.
// `low` and `length` are not neighbours: written one by one and read as one word, they would stall the store buffer.
#[derive(Drop)]
pub struct Output {
    pub bytes: Vec<u8>,
    pub low: u64,
    pub at: usize,
    pub next: usize,
    pub length: u32,
    pub size: usize,
}

/// By how many bytes a room is lengthened at a time, if it may be.
const STEP: usize = 0x8000;

/// Adds to the low end, with a carry into the bytes before the last four. Returns the sum, which takes the place of
/// `low`.
#[inline(always)]
fn add(bytes: &mut [u8], at: usize, next: usize, low: u64, from: u32) -> u64
    requires order { at ≤ next }
    requires within { next + 4 ≤ length bytes.old }
    requires bytes { IsBytes bytes.old }
    requires window { IsWindow low next bytes.old }
    requires fits { low_of at next low bytes.old + from < 256 ^ (next - at + 4) }
    ensures sum { number (take (next - 4) bytes.new) * 2 ^ 64 + result
        ≡ number (take next bytes.old) * 2 ^ 32 + low % 2 ^ 32 + from }
    ensures below { next < 4 → result < 256 ^ (next + 4) }
{
    let sum = low.wrapping_add(from as u64);
    if sum < low {
        carry_into(bytes, next - 4);
    }
    sum
}

/// Adds to the low end, and writes the eight bytes around `next`. Returns the sum, which takes the place of `low`.
#[inline(always)]
fn write(bytes: &mut [u8], at: usize, next: usize, low: u64, from: u32) -> u64
    requires order { at ≤ next }
    requires within { next + 4 ≤ length bytes.old }
    requires bytes { IsBytes bytes.old }
    requires window { IsWindow low next bytes.old }
    requires fits { low_of at next low bytes.old + from < 256 ^ (next - at + 4) }
    ensures spells { Spells at next (low_of at next low bytes.old + from) bytes.old bytes.new }
    ensures window { result ≡ number (take (next + 4) bytes.new) % 2 ^ 64 }
    ensures bytes { IsBytes bytes.new }
{
    let sum = add(bytes, at, next, low, from);
    put_window(bytes, next, sum);
    sum
}

/// Cuts out the part that begins at `from` and has length `width`.
// Eight bytes are written, so that nothing branches on how many of them stay.
#[inline(always)]
pub fn narrow(output: &mut Output, from: u32, width: u32)
    requires placed { HasRoom output.old }
    requires left { output.old.next + 6 ≤ length output.old.bytes.items }
    requires short { width < 256 → output.old.next + 7 ≤ length output.old.bytes.items }
    requires reached { IsSpan (span_of output.old) }
    requires some { 0 < width }
    requires part { from + width ≤ output.old.length }
    ensures span { span_of output.new ≡ subspan (span_of output.old) from width }
    ensures rest { Writes 3 output.old output.new }
    ensures placed { HasRoom output.new }
    ensures reached { IsSpan (span_of output.new) }
{
    let sum = write(&mut output.bytes, output.at, output.next, output.low, from);
    let more = bytes_lacking(width);
    output.next += more as usize;
    output.low = sum << (8 * more);
    output.length = width << (8 * more);
}

/// Lengthens the bytes, so that `least` of them are left. There is capacity for them.
// Rare, so it is kept out of line.
#[cold]
#[inline(never)]
pub fn widen(output: &mut Output, least: usize)
    requires placed { HasRoom output.old }
    requires enough { output.old.next + 4 + least ≤ output.old.size }
    ensures left { output.new.next + 4 + least ≤ length output.new.bytes.items }
    ensures widens { Widens output.old output.new }
    ensures placed { HasRoom output.new }
{
    let step = output.bytes.len().saturating_add(STEP).min(output.size);
    let size = step.max(output.next + 4 + least);
    match output.bytes.resize(size, 0) {
        Ok(()) => {}
        Err(_) => unreachable!(),
    }
}

/// Writes the last bytes of a stream.
fn write_last(bytes: &mut [u8], at: usize, next: usize, low: u64, len: u32)
    requires order { at ≤ next }
    requires within { next + 4 ≤ length bytes.old }
    requires bytes { IsBytes bytes.old }
    requires window { IsWindow low next bytes.old }
    requires long { MIN_LENGTH ≤ len }
    requires fits { low_of at next low bytes.old + len ≤ 256 ^ (next - at + 4) }
    ensures spells { let span : Span = record { low = low_of at next low bytes.old; len = len; shifts = next - at }
        in Spells at next (final_number span) bytes.old bytes.new }
    ensures bytes { IsBytes bytes.new }
{
    if len > 0x200_0000 {
        let sum = add(bytes, at, next, low, MIN_LENGTH);
        put_window(bytes, next, sum >> 24 << 24);
        return;
    }
    let sum = add(bytes, at, next, low, 0x80_0000);
    put_window(bytes, next, sum >> 16 << 16);
}

/// Ends the stream. Returns the bytes and how many of them were written from `at` on.
pub fn end(output: Output) -> (Vec<u8>, usize)
    requires placed { HasRoom output }
    requires reached { IsSpan (span_of output) }
    ensures count { result.1 ≡ (span_of output).shifts + 4 }
    ensures bytes { drop output.at (take (output.at + result.1) result.0.items) ≡ bytes_of (span_of output) }
    ensures before { take output.at result.0.items ≡ take output.at output.bytes.items }
    ensures length { length result.0.items ≡ length output.bytes.items }
    ensures capacity { output.size ≤ vec_capacity result.0 }
{
    let Output {
        mut bytes,
        low,
        at,
        next,
        length,
        size: _,
    } = output;
    write_last(&mut bytes, at, next, low, length);
    (bytes, next - at + 4)
}
