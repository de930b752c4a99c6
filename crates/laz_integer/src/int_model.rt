//! Integers, coded as correctors of their predictions.
ghost use Rattle.std.specs.Prelude.{◌≡◌, ◌+◌, ◌<◌, ◌≤◌, ◌^◌, ◌++◌, ℕ, List, [], false, map, IfOk, OnErr, OnOk};
ghost use Rattle.std.specs.Prelude.{MatchResult};
ghost use Rattle.laz_range.specs.Coding.{Codes};
ghost use Rattle.laz_range.specs.Decoding.{TakesNone};
ghost use Rattle.laz_models.specs.BitCounting.{new_bit_model};
ghost use Rattle.laz_models.specs.Counting.{new_model};
ghost use Rattle.laz_integer.specs.Corrector.{HasBits, difference, corrector_index};
ghost use Rattle.laz_integer.specs.Events.{Event, cuts_after};
ghost use Rattle.laz_integer.specs.Integer.{IntEvents, IntSpell, IntStands, IsCorrector, IsIntState, NoInt};
ghost use Rattle.laz_integer.specs.Integer.{ReadsCorrector, ReadsInt, int_cuts, int_next, int_sizes, int_width};

use crate::corrector::{between, correct, split};
use crate::limits::{MAX_BITS, MAX_CONTEXTS, MAX_INT_BYTES, MAX_SHORT_INT_BYTES, SHORT_BITS};
use crate::models::{Models, new_models, put, reset_models, take};
use laz_models::BitModel;
use laz_range::{Bad, Decoder, Encoder};
use std::alloc::{AllocError, Global};
use std::marker::Model;

/// Codes and reads integers of a fixed number of bits, each with a prediction and a context.
///
/// It stands for the events that it has coded or read since it was made or reset: each of its models for the events
/// under the model's name. Only `new` allocates.
pub struct IntModel {
    models: Models,
}

// By hand, so that each caller drops models by one call.
impl Drop for IntModel {
    fn drop(self) {
        let IntModel { models } = self;
        drop(models);
    }
}

impl Model for IntModel {
    ghost use Rattle.laz_integer.specs.Integer.{IntState, IsIntState};

    ghost Value = { IntState };

    ghost use Rattle.laz_integer.specs.Models.{state_of};

    ghost view = { λ m. state_of m.models };

    ghost invariant = { λ m. IsIntState (state_of m.models) };
}

impl IntModel {
    /// Models of integers of `bits` bits, 1 to 32, with 1 to 32 contexts.
    pub fn new(alloc: Global, bits: u32, contexts: u32) -> Result<Self, AllocError>
        requires some { 1 ≤ bits }
        requires few { bits ≤ MAX_BITS }
        requires context { 1 ≤ contexts }
        requires contexts { contexts ≤ MAX_CONTEXTS }
        ensures bits { IfOk result (λ m. m.bits ≡ bits) }
        ensures contexts { IfOk result (λ m. m.contexts ≡ contexts) }
        ensures bit { IfOk result (λ m. m.zero_or_one ≡ new_bit_model) }
        ensures bank { IfOk result (λ m. m.bank ≡ map new_model (int_sizes bits contexts)) }
        ensures stands { IfOk result (λ m. (kind : List ℕ) → IntStands kind [] m) }
        ensures state { IfOk result IsIntState }
    {
        let models = new_models(alloc, bits, contexts)?;
        Ok(IntModel { models })
    }

    /// Returns all models to their initial state.
    pub fn reset(&mut self)
        ensures bits { self.new.bits ≡ self.old.bits }
        ensures contexts { self.new.contexts ≡ self.old.contexts }
        ensures bit { self.new.zero_or_one ≡ new_bit_model }
        ensures bank { self.new.bank ≡ map new_model (int_sizes self.old.bits self.old.contexts) }
        ensures stands { (kind : List ℕ) → IntStands kind [] self.new }
        ensures state { IsIntState self.new }
    {
        reset_models(&mut self.models);
    }

    /// Codes `real` with the prediction `pred` and returns the width k of its corrector. Below 32 bits, `pred` and
    /// `real` are from 0 to 2^bits - 1. It takes at most 12 bytes of the encoder's room, and at most 9 up to 27 bits.
    #[inline(always)]
    pub fn code(&mut self, encoder: &mut Encoder, pred: i32, real: i32, ctx: u32) -> u32
        requires context { ctx < self.old.contexts }
        requires pred { HasBits self.old.bits pred }
        requires real { HasBits self.old.bits real }
        requires left { MAX_INT_BYTES ≤ encoder.old.left }
        ensures width { result ≡ int_width self.old.bits pred real }
        ensures codes { let d = difference self.old.bits pred real
            in Codes encoder.old encoder.new (int_cuts self.old ctx result (corrector_index self.old.bits d result)) }
        ensures next { let d = difference self.old.bits pred real
            in self.new ≡ int_next self.old ctx result (corrector_index self.old.bits d result) }
        ensures events { (kind : List ℕ) (earlier : List Event) → IntStands kind earlier self.old
            → Codes encoder.old encoder.new (cuts_after earlier (IntEvents kind self.old.bits ctx pred real)) }
        ensures stands { (kind : List ℕ) (earlier : List Event) → IntStands kind earlier self.old
            → IntStands kind (earlier ++ IntEvents kind self.old.bits ctx pred real) self.new }
        ensures spells { (kind : List ℕ)
            → IntSpell kind self.old.bits ctx pred (IntEvents kind self.old.bits ctx pred real) real result }
        ensures used { encoder.old.left ≤ encoder.new.left + MAX_INT_BYTES }
        ensures short { self.old.bits ≤ SHORT_BITS → encoder.old.left ≤ encoder.new.left + MAX_SHORT_INT_BYTES }
        ensures range { result ≤ self.old.bits }
        ensures bits { self.new.bits ≡ self.old.bits }
        ensures contexts { self.new.contexts ≡ self.old.contexts }
        ensures state { IsIntState self.new }
    {
        let bits = self.models.bits;
        self.code_of(bits, encoder, pred, real, ctx)
    }

    /// The same as [`code`](Self::code), with the number of bits that the integers have. If the caller gives a constant,
    /// what depends on it is computed when the program is compiled.
    #[inline(always)]
    pub fn code_of(
        &mut self,
        bits: u32,
        encoder: &mut Encoder,
        pred: i32,
        real: i32,
        ctx: u32,
    ) -> u32
        requires bits { bits ≡ self.old.bits }
        requires context { ctx < self.old.contexts }
        requires pred { HasBits self.old.bits pred }
        requires real { HasBits self.old.bits real }
        requires left { MAX_INT_BYTES ≤ encoder.old.left }
        ensures width { result ≡ int_width self.old.bits pred real }
        ensures codes { let d = difference self.old.bits pred real
            in Codes encoder.old encoder.new (int_cuts self.old ctx result (corrector_index self.old.bits d result)) }
        ensures next { let d = difference self.old.bits pred real
            in self.new ≡ int_next self.old ctx result (corrector_index self.old.bits d result) }
        ensures events { (kind : List ℕ) (earlier : List Event) → IntStands kind earlier self.old
            → Codes encoder.old encoder.new (cuts_after earlier (IntEvents kind self.old.bits ctx pred real)) }
        ensures stands { (kind : List ℕ) (earlier : List Event) → IntStands kind earlier self.old
            → IntStands kind (earlier ++ IntEvents kind self.old.bits ctx pred real) self.new }
        ensures spells { (kind : List ℕ)
            → IntSpell kind self.old.bits ctx pred (IntEvents kind self.old.bits ctx pred real) real result }
        ensures used { encoder.old.left ≤ encoder.new.left + MAX_INT_BYTES }
        ensures short { self.old.bits ≤ SHORT_BITS → encoder.old.left ≤ encoder.new.left + MAX_SHORT_INT_BYTES }
        ensures range { result ≤ self.old.bits }
        ensures bits { self.new.bits ≡ self.old.bits }
        ensures contexts { self.new.contexts ≡ self.old.contexts }
        ensures state { IsIntState self.new }
    {
        let models = &mut self.models;
        let (k, v) = split(bits, between(bits, pred, real));
        put(models, encoder, ctx, k, v);
        k
    }

    /// Reads an integer with the prediction `pred` and the width k of its corrector. Below 32 bits, `pred` and the
    /// integer are from 0 to 2^bits - 1.
    ///
    /// [`Bad`] means that no spelling with this prediction and context begins the bytes that are left. Reset the models
    /// before they are used again.
    #[inline(always)]
    pub fn read(
        &mut self,
        decoder: &mut Decoder<'_>,
        pred: i32,
        ctx: u32,
    ) -> Result<(i32, u32), Bad>
        requires good { decoder.old.failed ≡ false }
        requires context { ctx < self.old.contexts }
        requires pred { HasBits self.old.bits pred }
        ensures reads { MatchResult result
            (λ x. ReadsCorrector self.old.bits self.old ctx pred x.0 x.1 decoder.old decoder.new self.new)
            (λ _. TakesNone (IsCorrector self.old.bits) (λ y. int_cuts self.old ctx y.0 y.1) decoder.old decoder.new) }
        ensures spelled { (kind : List ℕ) (earlier : List Event) → IntStands kind earlier self.old
            → IfOk result (λ x. ReadsInt kind earlier self.old.bits ctx pred x.0 x.1 decoder.old decoder.new self.new) }
        ensures none { (kind : List ℕ) (earlier : List Event) → IntStands kind earlier self.old
            → OnErr result (NoInt kind earlier self.old.bits ctx pred decoder.old) }
        ensures good { OnOk result (decoder.new.failed ≡ false) }
        ensures range { IfOk result (λ x. HasBits self.old.bits x.0) }
        ensures width { IfOk result (λ x. x.1 ≤ self.old.bits) }
        ensures bits { self.new.bits ≡ self.old.bits }
        ensures contexts { self.new.contexts ≡ self.old.contexts }
        ensures state { IsIntState self.new }
    {
        let bits = self.models.bits;
        let (k, v) = take(&mut self.models, decoder, ctx)?;
        Ok((correct(bits, pred, k, v), k))
    }
}
