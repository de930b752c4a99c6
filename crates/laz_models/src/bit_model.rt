//! A model of bits.
ghost use Rattle.std.specs.Prelude.{◌≡◌, ◌+◌, ◌<◌, ◌≤◌, Bool, List, [], ◌∷◌, ◌++◌};
ghost use Rattle.laz_models.specs.BitCounting.{BitCounting, IsBitCounting, new_bit_model, after_bit, new_bit_cycle};
ghost use Rattle.laz_models.specs.BitCounting.{small_bit_counts};
ghost use Rattle.laz_models.specs.BitDist.{p0_of, BitStandsFor};

use crate::limits::{BIT_PARTS, MAX_BIT_COUNT};
use std::marker::Model;

/// A model of bits, which gives the bit 0 some of 2^13 parts, and the bit 1 the rest.
///
/// It stands for the list of bits that it has counted since it was made or reset, and answers the part of 0 that they
/// give. No call takes memory.
#[derive(Drop)]
pub struct BitModel {
    zeros: u32,
    count: u32,
    p0: u32,
    cycle: u32,
    remaining: u32,
}

impl Model for BitModel {
    ghost use Rattle.laz_models.specs.BitCounting.{BitCounting, IsBitCounting};

    ghost Value = { BitCounting };

    ghost view = { λ m. record {
      zeros = m.zeros;
      count = m.count;
      p0 = m.p0;
      cycle = m.cycle;
      remaining = m.remaining;
    } };

    ghost invariant = { λ m. IsBitCounting (record {
      zeros = m.zeros;
      count = m.count;
      p0 = m.p0;
      cycle = m.cycle;
      remaining = m.remaining;
    }) };
}

impl BitModel {
    /// Makes a model of bits.
    pub fn new() -> Self
        ensures new_model { result ≡ new_bit_model }
        ensures stands { BitStandsFor [] result }
        ensures sound { IsBitCounting result }
    {
        BitModel {
            zeros: 1,
            count: 2,
            p0: 4096,
            cycle: 4,
            remaining: 4,
        }
    }

    /// Resets the model to a new one.
    pub fn reset(&mut self)
        ensures new_model { self.new ≡ new_bit_model }
        ensures stands { BitStandsFor [] self.new }
        ensures sound { IsBitCounting self.new }
    {
        *self = BitModel::new();
    }

    /// The part of 0, of 2^13 parts: 1 to 8,191.
    #[inline]
    pub fn p0(&self) -> u32
        ensures value { result ≡ self.now.p0 }
        ensures some { 0 < result }
        ensures below { result < BIT_PARTS }
        ensures dist { (h : List Bool) → BitStandsFor h self.now → result ≡ p0_of h }
    {
        self.p0
    }

    /// Counts a bit.
    #[inline(always)]
    pub fn count(&mut self, bit: bool)
        ensures after_symbol { self.new ≡ after_bit self.old bit }
        ensures stands { (h : List Bool) → BitStandsFor h self.old → BitStandsFor (h ++ bit ∷ []) self.new }
        ensures sound { IsBitCounting self.new }
    {
        let zeros = if bit { self.zeros } else { self.zeros + 1 };
        if self.remaining == 1 {
            *self = new_bit_cycle(zeros, self.count + self.cycle, self.cycle);
        } else {
            self.zeros = zeros;
            self.remaining -= 1;
        }
    }
}

/// The model at the beginning of a cycle, after one of `cycle` bits, if `zeros` of `count` bits are zeros.
#[inline(never)]
#[tactic(auto, using(crate::proofs::BitParts::p0_bounds))]
fn new_bit_cycle(zeros: u32, count: u32, cycle: u32) -> BitModel
    requires some { 1 ≤ zeros }
    requires fewer { zeros < count }
    requires count { count ≤ MAX_BIT_COUNT + 64 }
    requires four { 4 ≤ cycle }
    requires cycle { cycle ≤ 64 }
    ensures { result ≡ new_bit_cycle zeros count cycle }
{
    let (zeros, count) = small_bit_counts(zeros, count);
    let p0 = (zeros * (0x8000_0000 / count)) >> 18;
    let cycle = 64u32.min((5 * cycle) >> 2);
    BitModel {
        zeros,
        count,
        p0,
        cycle,
        remaining: cycle,
    }
}

/// The zeros and the bits, both halved if there are more than 2^13 bits.
fn small_bit_counts(zeros: u32, count: u32) -> (u32, u32)
    requires some { 1 ≤ zeros }
    requires fewer { zeros < count }
    requires count { count ≤ MAX_BIT_COUNT + 64 }
    ensures small_bit_counts { (result.0, result.1) ≡ small_bit_counts zeros count }
    ensures some { 1 ≤ result.0 }
    ensures fewer { result.0 < result.1 }
    ensures count { result.1 ≤ MAX_BIT_COUNT }
{
    if count <= MAX_BIT_COUNT {
        return (zeros, count);
    }
    let zeros = (zeros + 1) >> 1;
    let half = (count + 1) >> 1;
    if zeros == half {
        return (zeros, half + 1);
    }
    (zeros, half)
}
