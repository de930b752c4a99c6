//! A model of symbols.
ghost use Rattle.std.specs.Prelude.{◌≡◌, ℕ, ◌<◌, ◌≤◌, List, [], ◌∷◌, ◌++◌, IfOk, slice_index};

use crate::bank::ModelBank;
use crate::limits::{MAX_SYMBOLS, SYMBOL_PARTS};
use std::alloc::{AllocError, Global};
use std::marker::Model;

/// A model of symbols, which gives each of them some of 2^15 parts.
///
/// It stands for the list of symbols that it has counted since it was made or reset, and answers the distribution of
/// that list. No part is empty, and the last one begins below 32,768. Only `new` takes memory.
#[derive(Drop)]
pub struct SymbolModel {
    /// The bank.
    pub bank: ModelBank,
}

impl Model for SymbolModel {
    ghost use Rattle.std.specs.Prelude.{◌≡◌, length};
    ghost use Rattle.laz_models.specs.Counting.{Counting};
    ghost use Rattle.laz_models.specs.Bank.{model_at};

    ghost Value = { Counting };

    ghost view = { λ m. model_at m.bank 0 };

    ghost invariant = { λ m. length m.bank ≡ 1 };
}

impl SymbolModel {
    ghost use Rattle.laz_models.specs.Counting.{after_symbol, new_model, part_end, AreStarts};
    ghost use Rattle.laz_models.specs.Dist.{dist, alphabet_size, StandsFor};
    ghost use Rattle.laz_models.specs.Lookup.{IsLastAt};
    ghost use Rattle.laz_models.specs.Sound.{IsSound};

    /// Makes a model of `n` symbols, 2 to 2,048.
    pub fn new(alloc: Global, n: u32) -> Result<Self, AllocError>
        requires many { 2 ≤ n }
        requires few { n ≤ MAX_SYMBOLS }
        ensures new_model { IfOk result (λ model. model ≡ new_model n) }
        ensures size { IfOk result (λ model. alphabet_size model ≡ n) }
        ensures sound { IfOk result (λ model. IsSound model) }
        ensures stands { IfOk result (λ model. StandsFor [] model) }
    {
        let bank = ModelBank::new(alloc, &[n])?;
        Ok(SymbolModel { bank })
    }

    /// Resets the model to a new one.
    pub fn reset(&mut self)
        ensures new_model { self.new ≡ new_model (alphabet_size self.old) }
        ensures size { alphabet_size self.new ≡ alphabet_size self.old }
        ensures sound { IsSound self.new }
        ensures stands { StandsFor [] self.new }
    {
        self.bank.reset();
    }

    /// The start and the end of the part of symbol `s`, of 2^15 parts. The last part ends at 32,768.
    #[inline]
    pub fn part(&self, s: u32) -> (u32, u32)
        requires { s < alphabet_size self.now }
        ensures start { result.0 ≡ slice_index self.now.starts s }
        ensures end { result.1 ≡ part_end self.now.starts s }
        ensures some { result.0 < result.1 }
        ensures whole { result.1 ≤ SYMBOL_PARTS }
        ensures dist { (h : List ℕ) → StandsFor h self.now
            → let starts = dist (alphabet_size self.now) h
            in (result.0 ≡ slice_index starts s) × (result.1 ≡ part_end starts s) }
    {
        self.bank.part(0, s)
    }

    /// The greatest symbol whose part begins at `v` or below. For `v` of 32,768 or more it is the last one.
    #[inline]
    pub fn find(&self, v: u32) -> u32
        ensures last { IsLastAt self.now.starts v result }
        ensures starts { AreStarts (alphabet_size self.now) self.now.starts }
        ensures dist { (h : List ℕ) → StandsFor h self.now → IsLastAt (dist (alphabet_size self.now) h) v result }
    {
        self.bank.find(0, v)
    }

    /// Counts symbol `s`.
    #[inline]
    pub fn count(&mut self, s: u32)
        requires { s < alphabet_size self.old }
        ensures after_symbol { self.new ≡ after_symbol self.old s }
        ensures stands { (h : List ℕ) → StandsFor h self.old → StandsFor (h ++ s ∷ []) self.new }
        ensures size { alphabet_size self.new ≡ alphabet_size self.old }
        ensures sound { IsSound self.new }
    {
        self.bank.count(0, s);
    }
}
