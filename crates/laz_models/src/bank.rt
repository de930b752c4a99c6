//! A bank of models of symbols.
ghost use Rattle.std.specs.Prelude.{◌≡◌, ◌≢◌, ℕ, ◌+◌, ◌-◌, ◌*◌, ◌/◌, ◌^◌, ◌<◌, ◌≤◌, List, [], ◌∷◌, ◌++◌, length, map, min};
ghost use Rattle.std.specs.Prelude.{All};
ghost use Rattle.laz_models.specs.declared.limits.TheConstants.{GUARD};
ghost use Rattle.std.specs.Prelude.{IfOk, slice_index, slice_set};

use crate::bank_cells::Layout;
use crate::limits::{MAX_MODELS, MAX_SYMBOLS, SYMBOL_PARTS};
use crate::near::Near;
use crate::place::Place;
use crate::{bank_cells, lookup};
use std::alloc::{AllocError, Global};
use std::marker::Model;

/// Models of symbols whose counts, distributions and look-up tables lie in one vector. Between them lie the
/// distributions of new models, one for each run of models of the same size, which are written when the bank is made.
/// The cells after the last of them are set aside then, and are written as far as models are used.
///
/// Each model stands for the list of symbols that it has counted since the bank was made or reset, and answers the
/// distribution of that list. Only `new` takes memory.
#[derive(Drop)]
pub struct ModelBank {
    cells: Vec<u16>,
    places: Vec<Place>,
}

impl Model for ModelBank {
    ghost use Rattle.std.specs.Prelude.{List, map, vec_capacity};
    ghost use Rattle.laz_models.specs.Counting.{Counting};
    ghost use Rattle.laz_models.specs.Place.{AreFirst, EndWithin, IsBank, counting_in};

    ghost Value = { List Counting };

    ghost view = { λ b. map (counting_in b.cells.items) b.places.items };

    ghost invariant = { λ b. IsBank b.places.items b.cells.items × AreFirst b.places.items b.cells.items
        × EndWithin b.places.items (vec_capacity b.cells) };
}

impl ModelBank {
    ghost use Rattle.laz_models.specs.Counting.{after_symbol, new_model, part_end, AreStarts};
    ghost use Rattle.laz_models.specs.Dist.{dist, alphabet_size, StandsFor};
    ghost use Rattle.laz_models.specs.Lookup.{IsLastAt, start_or_guard, table_bits, search_bits};
    ghost use Rattle.laz_models.specs.Near.{IsNear};
    ghost use Rattle.laz_models.specs.Bank.{model_at, alphabet_sizes};
    ghost use Rattle.laz_models.specs.Sound.{AreSound};

    /// Makes 1 to 1,024 models. `sizes` says how many symbols each has: 2 to 2,048.
    pub fn new(alloc: Global, sizes: &[u32]) -> Result<Self, AllocError>
        requires some { 1 ≤ length sizes.now }
        requires few { length sizes.now ≤ MAX_MODELS }
        requires range { All (λ n. (2 ≤ n) × (n ≤ MAX_SYMBOLS)) sizes.now }
        ensures new_model { IfOk result (λ bank. bank ≡ map new_model sizes.now) }
        ensures sizes { IfOk result (λ bank. alphabet_sizes bank ≡ sizes.now) }
        ensures sound { IfOk result (λ bank. AreSound bank) }
        ensures stands { IfOk result (λ bank. (m : ℕ) → m < length sizes.now → StandsFor [] (model_at bank m)) }
    {
        let Layout { places, cells } = bank_cells::lay_out(alloc, sizes)?;
        Ok(ModelBank { cells, places })
    }

    /// Resets all models to new ones. It costs a few writes a model, and not one for each of its symbols.
    pub fn reset(&mut self)
        ensures new_model { self.new ≡ map (λ m. new_model (alphabet_size m)) self.old }
        ensures sizes { alphabet_sizes self.new ≡ alphabet_sizes self.old }
        ensures sound { AreSound self.new }
        ensures stands { (m : ℕ) → m < length self.old → StandsFor [] (model_at self.new m) }
    {
        bank_cells::reset_all(&mut self.places);
    }

    /// The start and the end of the part of symbol `s` of model `m`, of 2^15 parts. The last part ends at 32,768.
    #[inline]
    pub fn part(&self, m: u32, s: u32) -> (u32, u32)
        requires model { m < length self.now }
        requires symbol { s < alphabet_size (model_at self.now m) }
        ensures start { result.0 ≡ slice_index (model_at self.now m).starts s }
        ensures end { result.1 ≡ part_end (model_at self.now m).starts s }
        ensures some { result.0 < result.1 }
        ensures whole { result.1 ≤ SYMBOL_PARTS }
        ensures dist { (h : List ℕ) → StandsFor h (model_at self.now m)
            → let starts = dist (alphabet_size (model_at self.now m)) h
            in (result.0 ≡ slice_index starts s) × (result.1 ≡ part_end starts s) }
    {
        let place = &self.places[m as usize];
        lookup::part(&self.cells, place, s)
    }

    /// The greatest symbol of model `m` whose part begins at `v` or below. For `v` of 32,768 or more it is the last
    /// one.
    #[inline]
    pub fn find(&self, m: u32, v: u32) -> u32
        requires { m < length self.now }
        ensures last { IsLastAt (model_at self.now m).starts v result }
        ensures starts { AreStarts (alphabet_size (model_at self.now m)) (model_at self.now m).starts }
        ensures dist { (h : List ℕ) → StandsFor h (model_at self.now m)
            → IsLastAt (dist (alphabet_size (model_at self.now m)) h) v result }
    {
        let place = &self.places[m as usize];
        lookup::find(&self.cells, place, v)
    }

    /// Entry `t` of the look-up table that LASzip has for model `m`, of more than 16 symbols: the greatest symbol whose
    /// part begins at `t · 2^(15 - b)` or below. For a model of n symbols, b is the least number from 3 on with
    /// n ≤ 2^(b + 2). The table that is kept is finer, and has this entry, too.
    #[inline]
    pub fn entry(&self, m: u32, t: u32) -> u32
        requires model { m < length self.now }
        requires many { 16 < alphabet_size (model_at self.now m) }
        requires entry { t ≤ 2 ^ table_bits (alphabet_size (model_at self.now m)) }
        ensures last { let n = alphabet_size (model_at self.now m)
            in IsLastAt (model_at self.now m).starts (t * 2 ^ (15 - table_bits n)) result }
        ensures dist { (h : List ℕ) → StandsFor h (model_at self.now m)
            → let n = alphabet_size (model_at self.now m)
            in IsLastAt (dist n h) (t * 2 ^ (15 - table_bits n)) result }
    {
        let place = &self.places[m as usize];
        lookup::entry(&self.cells, place, t)
    }

    /// How many low bits of a place, at most 12, a search for a symbol of model `m` leaves out.
    #[inline(always)]
    pub fn step_bits(&self, m: u32) -> u32
        requires { m < length self.now }
        ensures is { result ≡ 15 - search_bits (alphabet_size (model_at self.now m)) }
        ensures few { result ≤ 12 }
    {
        self.places[m as usize].shift
    }

    /// Where a decoder's search for a symbol of model `m` begins: the last symbol whose part begins at place `step · 2^b`
    /// or below, with the starts of its part and of the next two. Here b is what [`step_bits`](Self::step_bits) answers.
    #[inline(always)]
    pub fn near(&self, m: u32, step: u64) -> Near
        requires model { m < length self.now }
        requires below { step < 2 ^ search_bits (alphabet_size (model_at self.now m)) }
        ensures near { let bits = 15 - search_bits (alphabet_size (model_at self.now m))
            in IsNear (model_at self.now m).starts (step * 2 ^ bits) result }
        ensures starts { AreStarts (alphabet_size (model_at self.now m)) (model_at self.now m).starts }
    {
        lookup::near(&self.cells, &self.places[m as usize], step)
    }

    /// Symbol `s` of model `m`, with the starts that [`near`](Self::near) answers.
    #[inline(always)]
    pub fn near_symbol(&self, m: u32, s: u32) -> Near
        requires model { m < length self.now }
        requires symbol { s < alphabet_size (model_at self.now m) }
        ensures symbol { result.symbol ≡ s }
        ensures near { let starts = (model_at self.now m).starts in IsNear starts (slice_index starts s) result }
        ensures starts { AreStarts (alphabet_size (model_at self.now m)) (model_at self.now m).starts }
    {
        lookup::near_symbol(&self.cells, &self.places[m as usize], s)
    }

    /// Counts symbol `s` of model `m`.
    #[inline(always)]
    pub fn count(&mut self, m: u32, s: u32)
        requires model { m < length self.old }
        requires symbol { s < alphabet_size (model_at self.old m) }
        ensures after_symbol { self.new ≡ slice_set self.old m (after_symbol (model_at self.old m) s) }
        ensures stands { (h : List ℕ) → StandsFor h (model_at self.old m)
            → StandsFor (h ++ s ∷ []) (model_at self.new m) }
        ensures others { (k : ℕ) → k ≢ m → model_at self.new k ≡ model_at self.old k }
        ensures sizes { alphabet_sizes self.new ≡ alphabet_sizes self.old }
        ensures sound { AreSound self.new }
    {
        bank_cells::count_at(&mut self.cells, &mut self.places[m as usize], s, false);
    }

    /// The start of the part of symbol `s` of model `m`, and the start of the next part. After the last one it is the
    /// guard, 65,535.
    #[inline(always)]
    pub fn bounds(&self, m: u32, s: u32) -> (u32, u32)
        requires model { m < length self.now }
        requires symbol { s < alphabet_size (model_at self.now m) }
        ensures start { result.0 ≡ slice_index (model_at self.now m).starts s }
        ensures next { result.1 ≡ start_or_guard (model_at self.now m).starts (s + 1) }
        ensures end { min result.1 SYMBOL_PARTS ≡ part_end (model_at self.now m).starts s }
        ensures first { result.0 < SYMBOL_PARTS }
        ensures some { result.0 < result.1 }
        ensures guard { SYMBOL_PARTS ≤ result.1 → GUARD ≤ result.1 }
        ensures dist { (h : List ℕ) → StandsFor h (model_at self.now m)
            → let starts = dist (alphabet_size (model_at self.now m)) h
            in (result.0 ≡ slice_index starts s) × (min result.1 SYMBOL_PARTS ≡ part_end starts s) }
    {
        lookup::bounds(&self.cells, &self.places[m as usize], s)
    }

    /// The bounds of symbol `s` of model `m`, as [`bounds`](Self::bounds) answers them. The symbol is then counted.
    // If the model is new or its cycle ends, both are done out of line. So neither tests that again.
    #[inline(always)]
    pub fn bounds_and_count(&mut self, m: u32, s: u32) -> (u32, u32)
        requires model { m < length self.old }
        requires symbol { s < alphabet_size (model_at self.old m) }
        ensures start { result.0 ≡ slice_index (model_at self.old m).starts s }
        ensures next { result.1 ≡ start_or_guard (model_at self.old m).starts (s + 1) }
        ensures end { min result.1 SYMBOL_PARTS ≡ part_end (model_at self.old m).starts s }
        ensures first { result.0 < SYMBOL_PARTS }
        ensures some { result.0 < result.1 }
        ensures guard { SYMBOL_PARTS ≤ result.1 → GUARD ≤ result.1 }
        ensures dist { (h : List ℕ) → StandsFor h (model_at self.old m)
            → let starts = dist (alphabet_size (model_at self.old m)) h
            in (result.0 ≡ slice_index starts s) × (min result.1 SYMBOL_PARTS ≡ part_end starts s) }
        ensures after_symbol { self.new ≡ slice_set self.old m (after_symbol (model_at self.old m) s) }
        ensures stands { (h : List ℕ) → StandsFor h (model_at self.old m)
            → StandsFor (h ++ s ∷ []) (model_at self.new m) }
        ensures others { (k : ℕ) → k ≢ m → model_at self.new k ≡ model_at self.old k }
        ensures sizes { alphabet_sizes self.new ≡ alphabet_sizes self.old }
        ensures sound { AreSound self.new }
    {
        if self.places[m as usize].remaining <= 1 {
            return self.bounds_and_count_at_cycle_end(m, s);
        }
        let bounds = self.bounds(m, s);
        self.count(m, s);
        bounds
    }

    /// The same, if the model is new or the symbol is the last of its cycle.
    #[cold]
    #[inline(never)]
    fn bounds_and_count_at_cycle_end(&mut self, m: u32, s: u32) -> (u32, u32)
        requires model { m < length self.old }
        requires symbol { s < alphabet_size (model_at self.old m) }
        ensures start { result.0 ≡ slice_index (model_at self.old m).starts s }
        ensures next { result.1 ≡ start_or_guard (model_at self.old m).starts (s + 1) }
        ensures end { min result.1 SYMBOL_PARTS ≡ part_end (model_at self.old m).starts s }
        ensures first { result.0 < SYMBOL_PARTS }
        ensures some { result.0 < result.1 }
        ensures guard { SYMBOL_PARTS ≤ result.1 → GUARD ≤ result.1 }
        ensures dist { (h : List ℕ) → StandsFor h (model_at self.old m)
            → let starts = dist (alphabet_size (model_at self.old m)) h
            in (result.0 ≡ slice_index starts s) × (min result.1 SYMBOL_PARTS ≡ part_end starts s) }
        ensures after_symbol { self.new ≡ slice_set self.old m (after_symbol (model_at self.old m) s) }
        ensures stands { (h : List ℕ) → StandsFor h (model_at self.old m)
            → StandsFor (h ++ s ∷ []) (model_at self.new m) }
        ensures others { (k : ℕ) → k ≢ m → model_at self.new k ≡ model_at self.old k }
        ensures sizes { alphabet_sizes self.new ≡ alphabet_sizes self.old }
        ensures sound { AreSound self.new }
    {
        let bounds = self.bounds(m, s);
        self.count(m, s);
        bounds
    }

    /// The same as [`count`](Self::count), for a reader: where a cycle begins, a look-up table is written, from which
    /// [`near`](Self::near) answers.
    #[inline(always)]
    pub fn count_read(&mut self, m: u32, s: u32)
        requires model { m < length self.old }
        requires symbol { s < alphabet_size (model_at self.old m) }
        ensures after_symbol { self.new ≡ slice_set self.old m (after_symbol (model_at self.old m) s) }
        ensures stands { (h : List ℕ) → StandsFor h (model_at self.old m)
            → StandsFor (h ++ s ∷ []) (model_at self.new m) }
        ensures others { (k : ℕ) → k ≢ m → model_at self.new k ≡ model_at self.old k }
        ensures sizes { alphabet_sizes self.new ≡ alphabet_sizes self.old }
        ensures sound { AreSound self.new }
    {
        bank_cells::count_at(&mut self.cells, &mut self.places[m as usize], s, true);
    }
}
