//! The decoder.
ghost use Rattle.std.specs.Prelude.{◌≡◌, ℕ, Bool, true, false, ◌+◌, ◌*◌, ◌/◌, ◌<◌, ◌≤◌, ◌^◌, ◌↔◌, ◌⊎◌, ⊤, [], ◌∷◌};
ghost use Rattle.std.specs.Prelude.{List, IsTrue, IsErr, IfOk, OnOk, OnErr, MatchResult, Option, length, min, take, nat_le};
ghost use Rattle.laz_range.specs.Cut.{Cut, Part, Bit, Raw, AreCuts, IsLike, one_event, raw_cuts};
ghost use Rattle.laz_range.specs.Search.{AreTwo, estimated_place, part_of_two};
ghost use Rattle.laz_range.specs.Span.{Begins, number, span};
ghost use Rattle.laz_range.specs.Reading.{quotient, reading_after_part, RefusesPart, RefusesRaw};
ghost use Rattle.laz_range.specs.Decoding.{HasRead, ReadsOn, NoneBegins, Reads, RunsOut, Takes, TakesNone, bit_of};
ghost use Rattle.laz_range.specs.Decoding.{symbol_place, reading_of};
ghost use Rattle.laz_range.specs.Input.{Advances, Stops};
ghost use Rattle.laz_range.specs.declared.limits.TheConstants.{GUARD};

pub use crate::input::Bad;
use crate::input::{Input, advance};
use crate::limits::{BIT_PARTS, MAX_LENGTH, MAX_RAW_BITS, MIN_LENGTH, SYMBOL_PARTS};
use crate::reciprocal::{estimate, top_of};
use crate::search::{bit_part, either, part_to, parts};
use std::marker::Model;

/// Reads events from borrowed bytes.
///
/// Contracts see it as its bytes, how many of them were taken, its value, its length, and whether it has answered
/// [`Bad`]. The value is the number of the bytes taken less the low end of the span of the events read, and it is below
/// the length. After a [`Bad`] no further call is allowed.
#[derive(Drop)]
pub struct Decoder<'a> {
    input: Input<'a>,
    failed: bool,
}

impl<'a> Model for Decoder<'a> {
    ghost use Rattle.laz_range.specs.Decoding.{Decoding};
    ghost use Rattle.laz_range.specs.Input.{IsInput, decoding_of};

    ghost Value = { Decoding };

    ghost view = { λ d. decoding_of d.input d.failed };

    ghost invariant = { λ d. IsInput d.input d.failed };
}

impl<'a> Decoder<'a> {
    /// Makes a decoder and takes the first four bytes. Bad means that no list of events begins the bytes: there are
    /// fewer than four, or the first four are all 255.
    pub fn new(bytes: &'a [u8]) -> Result<Self, Bad>
        ensures bad { IsErr result ↔ ((length bytes.now < 4) ⊎ (take 4 bytes.now ≡ 255 ∷ 255 ∷ 255 ∷ 255 ∷ [])) }
        ensures none { OnErr result ((events : List Cut) → AreCuts events → Begins (span events) bytes.now → ⊥) }
        ensures bytes { IfOk result (λ d. d.bytes ≡ bytes.now) }
        ensures taken { IfOk result (λ d. d.taken ≡ 4) }
        ensures value { IfOk result (λ d. d.value ≡ number (take 4 bytes.now)) }
        ensures len { IfOk result (λ d. d.len ≡ MAX_LENGTH) }
        ensures good { IfOk result (λ d. d.failed ≡ false) }
        ensures read { IfOk result (λ d. HasRead [] d) }
    {
        if bytes.len() < 4 {
            return Err(Bad);
        }
        let value = u32::from_be_bytes([bytes[0], bytes[1], bytes[2], bytes[3]]);
        if value == MAX_LENGTH {
            return Err(Bad);
        }
        Ok(Decoder {
            input: Input {
                bytes,
                value,
                taken: 4,
                length: MAX_LENGTH,
                top: top_of(MAX_LENGTH),
            },
            failed: false,
        })
    }

    /// The part that the value lies in, of 2^15 parts. The next symbol of a distribution is the last one whose part
    /// begins there or below.
    #[inline(always)]
    pub fn at15(&self) -> u32
        requires { self.now.failed ≡ false }
        ensures place { result ≡ symbol_place self.now }
        ensures below { self.now.value < self.now.len }
        ensures long { MIN_LENGTH ≤ self.now.len }
    {
        self.input.value / (self.input.length >> 15)
    }

    /// Takes the symbol whose part is from `lo` up to `hi` of 2^15 parts, which the value lies in. Bad means that the
    /// bytes run out: no symbol of any distribution with this part begins the rest of them.
    #[inline(always)]
    pub fn take15(&mut self, lo: u32, hi: u32) -> Result<(), Bad>
        requires good { self.old.failed ≡ false }
        requires part { lo < hi }
        requires whole { hi ≤ SYMBOL_PARTS }
        requires above { lo ≤ symbol_place self.old }
        requires below { hi < SYMBOL_PARTS → symbol_place self.old < hi }
        ensures reads { MatchResult result
            (λ _. Takes (IsLike (Part lo hi)) one_event self.old self.new (Part lo hi))
            (λ _. TakesNone (IsLike (Part lo hi)) one_event self.old self.new) }
        ensures bad { IsErr result ↔ RunsOut self.old (Part lo hi) }
        ensures read { OnOk result (ReadsOn (one_event (Part lo hi)) self.old self.new) }
        ensures none { OnErr result (NoneBegins (IsLike (Part lo hi)) one_event self.old) }
    {
        let unit = self.input.length >> 15;
        let from = lo * unit;
        let width = if hi == SYMBOL_PARTS {
            self.input.length - from
        } else {
            hi * unit - from
        };
        self.take_part(from, width)
    }

    /// A place of 2^15 parts that is at or below the one that the value lies in, and seldom far from it, without its low
    /// `bits` bits, at most 15. It takes no division: a search for the next symbol begins there.
    #[inline(always)]
    pub fn estimate(&self, bits: u32) -> u64
        requires good { self.now.failed ≡ false }
        requires few { bits < 16 }
        ensures is { result ≡ estimated_place self.now.value self.now.len / 2 ^ bits }
        ensures below { result * 2 ^ bits ≤ symbol_place self.now }
        ensures within { result * 2 ^ bits < SYMBOL_PARTS }
        ensures guard { symbol_place self.now < GUARD }
    {
        estimate(self.input.value, self.input.length, self.input.top, bits)
    }

    /// Whether the value lies at a place of 2^15 parts or above.
    #[inline(always)]
    pub fn is_from(&self, place: u32) -> bool
        requires { self.now.failed ≡ false }
        ensures { IsTrue result ↔ (place ≤ symbol_place self.now) }
    {
        parts(place, self.input.length >> 15) <= self.input.value as u64
    }

    /// Whether the value lies in the part from `start` up to `next` of 2^15 parts. A part that ends with the interval
    /// ends at a guard.
    #[inline(always)]
    pub fn is_in(&self, start: u32, next: u32) -> bool
        requires { self.now.failed ≡ false }
        ensures { IsTrue result ↔ ((start ≤ symbol_place self.now) × (symbol_place self.now < next)) }
    {
        self.is_from(start) && !self.is_from(next)
    }

    /// Takes the symbol whose part is from `start` up to `next` of 2^15 parts, which the value lies in. A part that ends
    /// with the interval ends at a guard. Bad means that the bytes run out: no symbol of any distribution with this part
    /// begins the rest of them.
    #[inline(always)]
    pub fn take_to(&mut self, start: u32, next: u32) -> Result<(), Bad>
        requires good { self.old.failed ≡ false }
        requires start { start < SYMBOL_PARTS }
        requires guard { SYMBOL_PARTS ≤ next → GUARD ≤ next }
        requires above { start ≤ symbol_place self.old }
        requires below { symbol_place self.old < next }
        ensures reads { let part = Part start (min next SYMBOL_PARTS)
            in MatchResult result
            (λ _. Takes (IsLike part) one_event self.old self.new part)
            (λ _. TakesNone (IsLike part) one_event self.old self.new) }
        ensures bad { IsErr result ↔ RunsOut self.old (Part start (min next SYMBOL_PARTS)) }
    {
        let (from, width) = part_to(start, next, self.input.length);
        self.take_part(from, width)
    }

    /// Takes one of two symbols that follow each other, and answers whether it is the second one. Their parts begin at
    /// `start` and `next` of 2^15 parts, and the second one ends at `after`. The value lies in one of them. A part that
    /// ends with the interval ends at a guard. Bad means that the bytes run out: no symbol of any distribution with
    /// this part begins the rest of them.
    #[inline(always)]
    pub fn take_either(&mut self, start: u32, next: u32, after: u32) -> Result<bool, Bad>
        requires good { self.old.failed ≡ false }
        requires two { AreTwo start next after }
        requires above { start ≤ symbol_place self.old }
        requires below { symbol_place self.old < after }
        ensures choice { IfOk result (λ second. second ≡ nat_le next (symbol_place self.old)) }
        ensures reads { let part = part_of_two start next after (nat_le next (symbol_place self.old))
            in MatchResult result
            (λ _. Takes (IsLike part) one_event self.old self.new part)
            (λ _. TakesNone (IsLike part) one_event self.old self.new) }
        ensures bad { let part = part_of_two start next after (nat_le next (symbol_place self.old))
            in IsErr result ↔ RunsOut self.old part }
    {
        let (second, from, width) = either(start, next, after, self.input.length, self.input.value);
        self.take_part(from, width)?;
        Ok(second)
    }

    /// Takes a bit, where 0 has the first `p0` of 2^13 parts. Bad means that the bytes run out: neither bit begins the
    /// rest of them.
    #[inline(always)]
    pub fn take13(&mut self, p0: u32) -> Result<bool, Bad>
        requires good { self.old.failed ≡ false }
        requires some { 0 < p0 }
        requires part { p0 < BIT_PARTS }
        ensures reads { Reads result (λ _. ⊤) (λ bit. Bit p0 bit ∷ []) self.old self.new }
        ensures bit { IfOk result (λ bit. bit ≡ bit_of self.old p0) }
        ensures bad { IsErr result ↔ RunsOut self.old (Bit p0 (bit_of self.old p0)) }
        ensures read { IfOk result (λ bit. ReadsOn (Bit p0 bit ∷ []) self.old self.new) }
        ensures none { OnErr result (NoneBegins {X = Bool} (λ _. ⊤) (λ bit. Bit p0 bit ∷ []) self.old) }
    {
        let bit = p0 * (self.input.length >> 13) <= self.input.value;
        let (from, width) = bit_part(p0, self.input.length, bit);
        self.take_part(from, width)?;
        Ok(bit)
    }

    /// Takes a raw value of `bits` bits, 1 to 32. Bad means that the bytes run out or spell no such value: none begins
    /// the rest of them.
    #[inline(always)]
    pub fn take_raw(&mut self, bits: u32) -> Result<u32, Bad>
        requires good { self.old.failed ≡ false }
        requires some { 0 < bits }
        requires few { bits ≤ 32 }
        ensures reads { Reads result (λ v. v < 2 ^ bits) (raw_cuts bits) self.old self.new }
        ensures bad { IsErr result ↔ RefusesRaw (reading_of self.old) bits }
        ensures read { IfOk result (λ v. ReadsOn (raw_cuts bits v) self.old self.new) }
        ensures none { OnErr result (NoneBegins (λ v. v < 2 ^ bits) (raw_cuts bits) self.old) }
    {
        let (mut low, mut more) = (0, bits);
        if bits > MAX_RAW_BITS {
            low = self.take_raw_part(16)?;
            more = bits - 16;
        }
        let high = self.take_raw_part(more)?;
        if bits > MAX_RAW_BITS {
            return Ok((high << 16) + low);
        }
        Ok(high)
    }

    /// Takes a raw value of at most 19 bits, which is one event.
    #[inline(always)]
    fn take_raw_part(&mut self, bits: u32) -> Result<u32, Bad>
        requires good { self.old.failed ≡ false }
        requires some { 0 < bits }
        requires few { bits ≤ MAX_RAW_BITS }
        ensures reads { Reads result (λ v. v < 2 ^ bits) (λ v. Raw bits v ∷ []) self.old self.new }
        ensures bad { IsErr result ↔ RefusesPart (reading_of self.old) bits }
        ensures quotient { IfOk result (λ v. v ≡ quotient (reading_of self.old) bits) }
    {
        let unit = self.input.length >> bits;
        let v = self.input.value / unit;
        if v >= 1 << bits {
            self.failed = true;
            return Err(Bad);
        }
        self.take_part(v * unit, unit)?;
        Ok(v)
    }

    /// Goes on after a part that the value lies in.
    #[inline(always)]
    fn take_part(&mut self, from: u32, width: u32) -> Result<(), Bad>
        requires good { self.old.failed ≡ false }
        requires above { from ≤ self.old.value }
        requires below { self.old.value < from + width }
        ensures { let reading = reading_after_part (reading_of self.old) from width
            in MatchResult result (λ _. Advances reading self.old self.new) (λ _. Stops reading self.old self.new) }
    {
        match advance(&mut self.input, from, width) {
            Ok(()) => Ok(()),
            Err(bad) => {
                self.failed = true;
                Err(bad)
            }
        }
    }

    /// Whether all bytes are taken.
    #[inline(always)]
    pub fn at_end(&self) -> bool
        requires { self.now.failed ≡ false }
        ensures { IsTrue result ↔ (self.now.taken ≡ length self.now.bytes) }
    {
        self.input.taken == self.input.bytes.len()
    }
}
