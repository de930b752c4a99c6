//! The models of an integer, and the coding of correctors under them.
ghost use Rattle.std.specs.Prelude.{◌≡◌, ◌+◌, ◌-◌, ◌/◌, ◌%◌, ◌^◌, ◌<◌, ◌≤◌, min, [], ◌∷◌, false, length, map, IfOk};
ghost use Rattle.std.specs.Prelude.{OnErr};
ghost use Rattle.laz_range.specs.Cut.{raw_cuts};
ghost use Rattle.laz_range.specs.Coding.{Codes};
ghost use Rattle.laz_range.specs.Decoding.{Reads};
ghost use Rattle.laz_models.specs.Bank.{model_at};
ghost use Rattle.laz_models.specs.BitCounting.{new_bit_model};
ghost use Rattle.laz_models.specs.Counting.{new_model};
ghost use Rattle.laz_integer.specs.Corrector.{choices};
ghost use Rattle.laz_integer.specs.Integer.{IsIntState, SameShape, IsCorrector, symbol_cut, high_at, symbol_next};
ghost use Rattle.laz_integer.specs.Integer.{digit_cuts, digit_next, int_cuts, int_next, int_sizes};
ghost use Rattle.laz_integer.specs.Models.{state_of};

use crate::limits::{HIGH_BITS, MAX_BITS, MAX_CONTEXTS};
use crate::symbols::{put_bit, put_symbol_of, take_bit, take_symbol_of};
use laz_models::{BitModel, ModelBank};
use laz_range::{Bad, Decoder, Encoder};
use std::alloc::{AllocError, Global};

/// The bank holds a model of the width for each context, then a model of the high digits for each width from 1 on.
#[derive(Drop)]
pub struct Models {
    pub bits: u32,
    pub contexts: u32,
    pub zero_or_one: BitModel,
    pub bank: ModelBank,
}

/// The number of symbols of each model of the bank.
fn sizes(alloc: Global, bits: u32, contexts: u32) -> Result<Vec<u32>, AllocError>
    requires some { 1 ≤ bits }
    requires few { bits ≤ MAX_BITS }
    requires context { 1 ≤ contexts }
    requires contexts { contexts ≤ MAX_CONTEXTS }
    ensures { IfOk result (λ sizes. sizes.items ≡ int_sizes bits contexts) }
{
    let mut sizes = vec![in alloc; bits + 1; contexts as usize]?;
    for k in 1..bits + 1 {
        sizes.push(1 << k.min(HIGH_BITS))?;
    }
    Ok(sizes)
}

/// New models of integers of `bits` bits.
pub fn new_models(alloc: Global, bits: u32, contexts: u32) -> Result<Models, AllocError>
    requires some { 1 ≤ bits }
    requires few { bits ≤ MAX_BITS }
    requires context { 1 ≤ contexts }
    requires contexts { contexts ≤ MAX_CONTEXTS }
    ensures state { IfOk result
        (λ models. state_of models
        ≡ record {
          bits = bits;
          contexts = contexts;
          zero_or_one = new_bit_model;
          bank = map new_model (int_sizes bits contexts);
        }) }
{
    let bank = ModelBank::new(alloc, &sizes(alloc, bits, contexts)?)?;
    Ok(Models {
        bits,
        contexts,
        zero_or_one: BitModel::new(),
        bank,
    })
}

/// Returns all models to their initial state.
pub fn reset_models(models: &mut Models)
    requires { IsIntState (state_of models.old) }
    ensures { state_of models.new
        ≡ record {
          bits = models.old.bits;
          contexts = models.old.contexts;
          zero_or_one = new_bit_model;
          bank = map new_model (int_sizes models.old.bits models.old.contexts);
        } }
{
    models.bank.reset();
    models.zero_or_one.reset();
}

/// Reads the width of a corrector.
#[inline(always)]
fn take_width(models: &mut Models, decoder: &mut Decoder<'_>, ctx: u32) -> Result<u32, Bad>
    requires good { decoder.old.failed ≡ false }
    requires state { IsIntState (state_of models.old) }
    requires context { ctx < models.old.contexts }
    ensures reads { Reads result (λ k. k ≤ models.old.bits)
        (λ k. symbol_cut (model_at models.old.bank ctx) k ∷ []) decoder.old decoder.new }
    ensures next { IfOk result (λ k. state_of models.new ≡ symbol_next (state_of models.old) ctx k) }
    ensures kept { OnErr result (state_of models.new ≡ state_of models.old) }
    ensures shape { SameShape (state_of models.old) (state_of models.new) }
    ensures state { IsIntState (state_of models.new) }
{
    take_symbol_of(decoder, &mut models.bank, ctx)
}

/// Reads the high digits of a corrector of width `k`.
#[inline(always)]
fn take_high(models: &mut Models, decoder: &mut Decoder<'_>, k: u32) -> Result<u32, Bad>
    requires good { decoder.old.failed ≡ false }
    requires state { IsIntState (state_of models.old) }
    requires some { 0 < k }
    requires range { k ≤ models.old.bits }
    ensures reads { Reads result (λ s. s < 2 ^ min k HIGH_BITS)
        (λ s. symbol_cut (high_at (state_of models.old) k) s ∷ []) decoder.old decoder.new }
    ensures next { IfOk result
        (λ s. state_of models.new ≡ symbol_next (state_of models.old) (models.old.contexts + (k - 1)) s) }
    ensures kept { OnErr result (state_of models.new ≡ state_of models.old) }
    ensures shape { SameShape (state_of models.old) (state_of models.new) }
    ensures state { IsIntState (state_of models.new) }
{
    take_symbol_of(decoder, &mut models.bank, models.contexts + (k - 1))
}

/// Reads the index of a corrector of width `k`, which is no bit: its high digits, and the rest raw.
#[inline(always)]
fn take_digits(models: &mut Models, decoder: &mut Decoder<'_>, k: u32) -> Result<u32, Bad>
    requires good { decoder.old.failed ≡ false }
    requires state { IsIntState (state_of models.old) }
    requires some { 0 < k }
    requires small { k < MAX_BITS }
    requires range { k ≤ models.old.bits }
    ensures reads { Reads result (λ v. v < 2 ^ k)
        (λ v. digit_cuts (state_of models.old) k v) decoder.old decoder.new }
    ensures next { IfOk result (λ v. state_of models.new ≡ digit_next (state_of models.old) k v) }
    ensures shape { SameShape (state_of models.old) (state_of models.new) }
    ensures state { IsIntState (state_of models.new) }
{
    let high = take_high(models, decoder, k)?;
    if k <= HIGH_BITS {
        return Ok(high);
    }
    let low = decoder.take_raw(k - HIGH_BITS)?;
    Ok((high << (k - HIGH_BITS)) + low)
}

/// Reads the index of a corrector of width `k`.
#[inline(always)]
fn take_rest(models: &mut Models, decoder: &mut Decoder<'_>, k: u32) -> Result<u32, Bad>
    requires good { decoder.old.failed ≡ false }
    requires within { decoder.old.taken ≤ length decoder.old.bytes }
    requires state { IsIntState (state_of models.old) }
    requires range { k ≤ models.old.bits }
    ensures reads { Reads result (λ v. v < choices k)
        (λ v. digit_cuts (state_of models.old) k v) decoder.old decoder.new }
    ensures next { IfOk result (λ v. state_of models.new ≡ digit_next (state_of models.old) k v) }
    ensures shape { SameShape (state_of models.old) (state_of models.new) }
    ensures state { IsIntState (state_of models.new) }
{
    if k == 0 {
        let bit = take_bit(decoder, &mut models.zero_or_one)?;
        return Ok(bit as u32);
    }
    if k == MAX_BITS {
        return Ok(0);
    }
    take_digits(models, decoder, k)
}

/// Reads a corrector: its width, and its index in that width.
#[inline(always)]
pub fn take(models: &mut Models, decoder: &mut Decoder<'_>, ctx: u32) -> Result<(u32, u32), Bad>
    requires good { decoder.old.failed ≡ false }
    requires state { IsIntState (state_of models.old) }
    requires context { ctx < models.old.contexts }
    ensures reads { Reads result (λ x. IsCorrector models.old.bits (x.0, x.1))
        (λ x. int_cuts (state_of models.old) ctx x.0 x.1) decoder.old decoder.new }
    ensures next { IfOk result (λ x. state_of models.new ≡ int_next (state_of models.old) ctx x.0 x.1) }
    ensures shape { SameShape (state_of models.old) (state_of models.new) }
    ensures state { IsIntState (state_of models.new) }
{
    let k = take_width(models, decoder, ctx)?;
    let v = take_rest(models, decoder, k)?;
    Ok((k, v))
}

/// The high digits of the index `v` of a corrector of width `k`: all of them up to 8, and else the first 8.
#[inline(always)]
fn high_digits(k: u32, v: u32) -> u32
    requires small { k < MAX_BITS }
    requires value { v < 2 ^ k }
    ensures narrow { k ≤ HIGH_BITS → result ≡ v }
    ensures wide { HIGH_BITS < k → result ≡ v / 2 ^ (k - HIGH_BITS) }
    ensures below { result < 2 ^ min k HIGH_BITS }
{
    if k <= HIGH_BITS {
        return v;
    }
    v >> (k - HIGH_BITS)
}

/// Codes the high digits of a corrector of width `k`.
#[inline(always)]
fn put_high(models: &mut Models, encoder: &mut Encoder, k: u32, s: u32)
    requires state { IsIntState (state_of models.old) }
    requires some { 0 < k }
    requires range { k ≤ models.old.bits }
    requires symbol { s < 2 ^ min k HIGH_BITS }
    requires left { 3 ≤ encoder.old.left }
    ensures codes { Codes encoder.old encoder.new (symbol_cut (high_at (state_of models.old) k) s ∷ []) }
    ensures next { state_of models.new ≡ symbol_next (state_of models.old) (models.old.contexts + (k - 1)) s }
    ensures shape { SameShape (state_of models.old) (state_of models.new) }
    ensures state { IsIntState (state_of models.new) }
{
    put_symbol_of(encoder, &mut models.bank, models.contexts + (k - 1), s);
}

/// Codes the index `v` of a corrector of width `k`, which is no bit: its high digits, and the rest raw.
#[inline(always)]
fn put_digits(models: &mut Models, encoder: &mut Encoder, k: u32, v: u32)
    requires state { IsIntState (state_of models.old) }
    requires some { 0 < k }
    requires small { k < MAX_BITS }
    requires range { k ≤ models.old.bits }
    requires value { v < 2 ^ k }
    requires left { 7 ≤ encoder.old.left }
    ensures codes { Codes encoder.old encoder.new (digit_cuts (state_of models.old) k v) }
    ensures next { state_of models.new ≡ digit_next (state_of models.old) k v }
    ensures shape { SameShape (state_of models.old) (state_of models.new) }
    ensures state { IsIntState (state_of models.new) }
{
    put_high(models, encoder, k, high_digits(k, v));
    if k <= HIGH_BITS {
        return;
    }
    encoder.raw(k - HIGH_BITS, v & ((1 << (k - HIGH_BITS)) - 1));
}

/// Codes the index `v` of a corrector of width `k`.
#[inline(always)]
fn put_rest(models: &mut Models, encoder: &mut Encoder, k: u32, v: u32)
    requires state { IsIntState (state_of models.old) }
    requires range { k ≤ models.old.bits }
    requires value { v < choices k }
    requires left { 7 ≤ encoder.old.left }
    ensures codes { Codes encoder.old encoder.new (digit_cuts (state_of models.old) k v) }
    ensures next { state_of models.new ≡ digit_next (state_of models.old) k v }
    ensures shape { SameShape (state_of models.old) (state_of models.new) }
    ensures state { IsIntState (state_of models.new) }
{
    if k == 0 {
        put_bit(encoder, &mut models.zero_or_one, v == 1);
        return;
    }
    if k == MAX_BITS {
        return;
    }
    put_digits(models, encoder, k, v);
}

/// Codes a corrector: its width `k`, and its index `v` in that width.
#[inline(always)]
pub fn put(models: &mut Models, encoder: &mut Encoder, ctx: u32, k: u32, v: u32)
    requires state { IsIntState (state_of models.old) }
    requires context { ctx < models.old.contexts }
    requires range { k ≤ models.old.bits }
    requires value { v < choices k }
    requires left { 10 ≤ encoder.old.left }
    ensures codes { Codes encoder.old encoder.new (int_cuts (state_of models.old) ctx k v) }
    ensures next { state_of models.new ≡ int_next (state_of models.old) ctx k v }
    ensures shape { SameShape (state_of models.old) (state_of models.new) }
    ensures state { IsIntState (state_of models.new) }
{
    put_symbol_of(encoder, &mut models.bank, ctx, k);
    put_rest(models, encoder, k, v);
}
