//! Laws of the definitions, as contracts of functions that do nothing.
ghost use Rattle.std.specs.Prelude.{◌≡◌, ◌+◌, ◌<◌, ◌≤◌, ℕ, Bool, List, [], ◌∷◌, ◌++◌};
ghost use Rattle.laz_models.specs.BitCounting.{BitCounting, IsBitCounting, new_bit_model, after_bit};
ghost use Rattle.laz_models.specs.BitDist.{BitStandsFor, bit_cycle, p0_of};
ghost use Rattle.laz_models.specs.Counting.{AreStarts, Counting, new_model, after_symbol};
ghost use Rattle.laz_models.specs.Cycles.{cycle_in, due};
ghost use Rattle.laz_models.specs.Dist.{AreSymbols, Stands, alphabet_size, cycle, dist};
ghost use Rattle.laz_models.specs.Sound.{IsSound};

use crate::limits::{BIT_PARTS, MAX_SYMBOLS};

/// The starts of the distribution of every list of symbols rise strictly, from 0 on, and stay below 2^15.
pub fn starts_rise()
    ensures { (n : ℕ) (h : List ℕ) → 2 ≤ n → n ≤ MAX_SYMBOLS → AreSymbols n h → AreStarts n (dist n h) }
{}

/// For every list of bits the part of 0 is neither empty nor all.
pub fn zero_has_a_part()
    ensures some { (h : List Bool) → 0 < p0_of h }
    ensures below { (h : List Bool) → p0_of h < BIT_PARTS }
{}

/// The cycle after a list of symbols, or bits, is the greatest that is due at the list's length.
pub fn cycles_are_due()
    ensures symbols { (n len : ℕ) → 2 ≤ n → due (cycle n) (cycle_in (cycle n) len) ≤ len }
    ensures greatest { (n len j : ℕ) → 2 ≤ n → due (cycle n) j ≤ len → j ≤ cycle_in (cycle n) len }
    ensures bits { (len : ℕ) → due bit_cycle (cycle_in bit_cycle len) ≤ len }
    ensures greatest_of_bits { (len j : ℕ) → due bit_cycle j ≤ len → j ≤ cycle_in bit_cycle len }
{}

/// A model that stands for a list stands for the longer list after one symbol more.
pub fn models_stand()
    ensures first { (n : ℕ) → 2 ≤ n → Stands n [] (new_model n) }
    ensures more { (n : ℕ) (h : List ℕ) (s : ℕ) (m : Counting) → 2 ≤ n → s < n → Stands n h m
        → Stands n (h ++ s ∷ []) (after_symbol m s) }
    ensures first_of_bits { BitStandsFor [] new_bit_model }
    ensures more_bits { (h : List Bool) (bit : Bool) (m : BitCounting) → BitStandsFor h m
        → BitStandsFor (h ++ bit ∷ []) (after_bit m bit) }
{}

/// A new model is sound, and stays so with each symbol, or bit, that it counts.
pub fn models_are_sound()
    ensures first { (n : ℕ) → 2 ≤ n → n ≤ MAX_SYMBOLS → IsSound (new_model n) }
    ensures more { (m : Counting) (s : ℕ) → IsSound m → s < alphabet_size m → IsSound (after_symbol m s) }
    ensures first_of_bits { IsBitCounting new_bit_model }
    ensures more_bits { (m : BitCounting) (bit : Bool) → IsBitCounting m → IsBitCounting (after_bit m bit) }
{}
