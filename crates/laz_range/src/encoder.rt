//! The encoder.
ghost use Rattle.std.specs.Prelude.{◌≡◌, ◌+◌, ◌<◌, ◌≤◌, ◌^◌, min, [], ◌∷◌, ◌++◌, length, take, slice_range};
ghost use Rattle.std.specs.Prelude.{vec_capacity};
ghost use Rattle.laz_range.specs.Cut.{Part, Bit, Raw, raw_cuts};
ghost use Rattle.laz_range.specs.Span.{initial_span, bytes_of, Fits};
ghost use Rattle.laz_range.specs.Coding.{Codes, CodesInSteps};
ghost use Rattle.laz_range.specs.declared.limits.TheConstants.{GUARD};

use crate::limits::{BIT_PARTS, MAX_LENGTH, MAX_RAW_BITS, SYMBOL_PARTS};
use crate::output::{Output, end, narrow, widen};
use crate::search::{bit_part, part_to};
use crate::window::last_four;
use std::marker::Model;

/// Writes events into a vector that it is given, its room.
///
/// Contracts see it as the bytes before the place where it began to write, as the span of its events (low, len and
/// shifts; low has no upper bound), and as `left`: how many more bytes its room has, besides the four that end the
/// stream. An event takes at most three bytes. A raw value of more than 19 bits is two events and takes at most four.
/// `more` is by how many bytes `keep_left` may lengthen the room. Events never do.
#[derive(Drop)]
pub struct Encoder {
    output: Output,
}

impl Model for Encoder {
    ghost use Rattle.laz_range.specs.Coding.{Coding};
    ghost use Rattle.laz_range.specs.Span.{IsSpan};
    ghost use Rattle.laz_range.specs.Output.{coding_of, span_of, HasRoom};

    ghost Value = { Coding };

    ghost view = { λ e. coding_of e.output };

    ghost invariant = { λ e. HasRoom e.output × IsSpan (span_of e.output) };
}

impl Encoder {
    /// Makes an encoder without events that writes into `room` from `at` on.
    pub fn with_room(room: Vec<u8>, at: usize) -> Self
        requires { at + 4 ≤ length room.items }
        ensures span { result.span ≡ initial_span }
        ensures before { result.before ≡ take at room.items }
        ensures left { result.left + at + 4 ≡ length room.items }
        ensures more { result.more ≡ 0 }
    {
        let size = room.len();
        Encoder::within(room, at, size)
    }

    /// The same as [`with_room`](Self::with_room), but [`keep_left`](Self::keep_left) may lengthen the room, up to `size`
    /// bytes. There is capacity for that many.
    pub fn within(room: Vec<u8>, at: usize, size: usize) -> Self
        requires start { at + 4 ≤ length room.items }
        requires size { length room.items ≤ size }
        requires capacity { size ≤ vec_capacity room }
        ensures span { result.span ≡ initial_span }
        ensures before { result.before ≡ take at room.items }
        ensures left { result.left + at + 4 ≡ length room.items }
        ensures more { result.more + length room.items ≡ size }
    {
        Encoder {
            output: Output {
                low: (last_four(&room, at) as u64) << 32,
                bytes: room,
                at,
                next: at,
                length: MAX_LENGTH,
                size,
            },
        }
    }

    /// Lengthens the room if fewer than `least` bytes are left.
    #[inline(always)]
    pub fn keep_left(&mut self, least: usize)
        requires { least ≤ self.old.left + self.old.more }
        ensures left { least ≤ self.new.left }
        ensures codes { CodesInSteps self.old self.new [] }
    {
        if self.output.bytes.len() - self.output.next < least + 4 {
            widen(&mut self.output, least);
        }
    }

    /// Codes a symbol whose part is from `lo` up to `hi` of 2^15 parts. The last symbol of a distribution has a `hi` of
    /// 32,768 and also gets what the division of the interval by 2^15 leaves.
    #[inline(always)]
    pub fn cut15(&mut self, lo: u32, hi: u32)
        requires part { lo < hi }
        requires whole { hi ≤ SYMBOL_PARTS }
        requires left { 3 ≤ self.old.left }
        ensures { Codes self.old self.new (Part lo hi ∷ []) }
    {
        let unit = self.output.length >> 15;
        let from = lo * unit;
        let width = if hi == SYMBOL_PARTS {
            self.output.length - from
        } else {
            hi * unit - from
        };
        narrow(&mut self.output, from, width);
    }

    /// The same as [`cut15`](Self::cut15), with a guard as the end of the last symbol of a distribution. So nothing
    /// asks whether a symbol is the last one.
    #[inline(always)]
    pub fn cut_to(&mut self, start: u32, next: u32)
        requires start { start < SYMBOL_PARTS }
        requires order { start < next }
        requires guard { SYMBOL_PARTS ≤ next → GUARD ≤ next }
        requires left { 3 ≤ self.old.left }
        ensures { Codes self.old self.new (Part start (min next SYMBOL_PARTS) ∷ []) }
    {
        let (from, width) = part_to(start, next, self.output.length);
        narrow(&mut self.output, from, width);
    }

    /// Codes a bit, where 0 has the first `p0` of 2^13 parts.
    #[inline(always)]
    pub fn cut13(&mut self, p0: u32, bit: bool)
        requires some { 0 < p0 }
        requires part { p0 < BIT_PARTS }
        requires left { 3 ≤ self.old.left }
        ensures { Codes self.old self.new (Bit p0 bit ∷ []) }
    {
        let (from, width) = bit_part(p0, self.output.length, bit);
        narrow(&mut self.output, from, width);
    }

    /// Codes the raw value `v` of `bits` bits, 1 to 32. A value of more than 19 bits is coded as its low 16 bits and
    /// then the rest.
    #[inline(always)]
    pub fn raw(&mut self, bits: u32, v: u32)
        requires some { 0 < bits }
        requires few { bits ≤ 32 }
        requires value { v < 2 ^ bits }
        requires left { 3 ≤ self.old.left }
        requires wide { MAX_RAW_BITS < bits → 4 ≤ self.old.left }
        ensures { Codes self.old self.new (raw_cuts bits v) }
    {
        let (mut more, mut rest) = (bits, v);
        if bits > MAX_RAW_BITS {
            self.raw_part(16, v & 0xffff);
            more = bits - 16;
            rest = v >> 16;
        }
        self.raw_part(more, rest);
    }

    /// Codes a raw value of at most 19 bits, which is one event. One of at most 16 bits takes at most two bytes.
    #[inline(always)]
    fn raw_part(&mut self, bits: u32, v: u32)
        requires some { 0 < bits }
        requires few { bits ≤ MAX_RAW_BITS }
        requires value { v < 2 ^ bits }
        requires left { 2 ≤ self.old.left }
        requires wide { 16 < bits → 3 ≤ self.old.left }
        ensures codes { Codes self.old self.new (Raw bits v ∷ []) }
        ensures short { bits ≤ 16 → self.old.left ≤ self.new.left + 2 }
    {
        let unit = self.output.length >> bits;
        narrow(&mut self.output, v * unit, unit);
    }

    /// Ends the stream. Returns the room and how many bytes were written from `at` on.
    pub fn finish(self) -> (Vec<u8>, usize)
        ensures count { result.1 ≡ self.span.shifts + 4 }
        ensures bytes { let at = length self.before
            in slice_range result.0.items at (at + result.1) ≡ bytes_of self.span }
        ensures fits { Fits self.span (bytes_of self.span) }
        ensures front { take (length self.before + result.1) result.0.items ≡ self.before ++ bytes_of self.span }
        ensures before { take (length self.before) result.0.items ≡ self.before }
        ensures length { length result.0.items ≡ length self.before + result.1 + self.left }
        ensures capacity { length self.before + result.1 + self.left + self.more ≤ vec_capacity result.0 }
    {
        let Encoder { output } = self;
        end(output)
    }
}
