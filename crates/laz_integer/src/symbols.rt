//! Symbols and bits, each coded under a model that counts it.
//!
//! Where a symbol or bit is coded, the model counts it before the encoder writes: the encoder's stores may alias the
//! model, whose fields would be loaded again after them.
ghost use Rattle.std.specs.Prelude.{◌≡◌, ◌≢◌, ◌<◌, ◌≤◌, ◌↔◌, ℕ, Bool, List, [], ◌∷◌, ◌++◌, ⊤, false, length, slice_set};
ghost use Rattle.std.specs.Prelude.{IfOk, OnErr, IsErr};
ghost use Rattle.laz_range.specs.Cut.{Bit, symbol};
ghost use Rattle.laz_range.specs.Coding.{Codes};
ghost use Rattle.laz_range.specs.Decoding.{Reads, ReadsOn, NoneBegins, RunsOut, bit_of, symbol_place};
ghost use Rattle.laz_models.specs.Bank.{model_at, alphabet_sizes};
ghost use Rattle.laz_models.specs.BitCounting.{after_bit};
ghost use Rattle.laz_models.specs.BitDist.{BitStandsFor, p0_of};
ghost use Rattle.laz_models.specs.Counting.{after_symbol, AreStarts};
ghost use Rattle.laz_models.specs.Dist.{StandsFor, dist, alphabet_size};
ghost use Rattle.laz_integer.specs.Integer.{HasPlace, symbol_at, symbol_cut};

use crate::limits::MIDDLE;
use laz_models::{BitModel, ModelBank, Near, SymbolModel};
use laz_range::{Bad, Decoder, Encoder};

/// Codes symbol `s` of a model, and counts it.
#[inline(always)]
pub fn put_symbol(encoder: &mut Encoder, model: &mut SymbolModel, s: u32)
    requires symbol { s < alphabet_size model.old }
    requires left { 3 ≤ encoder.old.left }
    ensures codes { Codes encoder.old encoder.new (symbol_cut model.old s ∷ []) }
    ensures after_symbol { model.new ≡ after_symbol model.old s }
    ensures size { alphabet_size model.new ≡ alphabet_size model.old }
    ensures dist { (h : List ℕ) → StandsFor h model.old
        → Codes encoder.old encoder.new (symbol (dist (alphabet_size model.old) h) s ∷ []) }
    ensures stands { (h : List ℕ) → StandsFor h model.old → StandsFor (h ++ s ∷ []) model.new }
{
    put_symbol_of(encoder, &mut model.bank, 0, s);
}

/// Reads a symbol of a model, and counts it. [`Bad`] means that the bytes end too early: no symbol begins those left.
#[inline(always)]
pub fn take_symbol(decoder: &mut Decoder<'_>, model: &mut SymbolModel) -> Result<u32, Bad>
    requires { decoder.old.failed ≡ false }
    ensures reads { Reads result (λ s. s < alphabet_size model.old)
        (λ s. symbol_cut model.old s ∷ []) decoder.old decoder.new }
    ensures bad { IsErr result
        ↔ RunsOut decoder.old (symbol_cut model.old (symbol_at model.old.starts (symbol_place decoder.old))) }
    ensures after_symbol { IfOk result (λ s. model.new ≡ after_symbol model.old s) }
    ensures kept { OnErr result (model.new ≡ model.old) }
    ensures size { alphabet_size model.new ≡ alphabet_size model.old }
    ensures read { (h : List ℕ) → StandsFor h model.old
        → IfOk result (λ s. ReadsOn (symbol (dist (alphabet_size model.old) h) s ∷ []) decoder.old decoder.new) }
    ensures stands { (h : List ℕ) → StandsFor h model.old → IfOk result (λ s. StandsFor (h ++ s ∷ []) model.new) }
    ensures none { (h : List ℕ) → StandsFor h model.old
        → OnErr result (NoneBegins (λ s. s < alphabet_size model.old)
        (λ s. symbol (dist (alphabet_size model.old) h) s ∷ []) decoder.old) }
{
    take_symbol_of(decoder, &mut model.bank, 0)
}

/// Codes symbol `s` of model `m` of a bank, and counts it.
#[inline(always)]
pub fn put_symbol_of(encoder: &mut Encoder, bank: &mut ModelBank, m: u32, s: u32)
    requires model { m < length bank.old }
    requires symbol { s < alphabet_size (model_at bank.old m) }
    requires left { 3 ≤ encoder.old.left }
    ensures codes { Codes encoder.old encoder.new (symbol_cut (model_at bank.old m) s ∷ []) }
    ensures after_symbol { bank.new ≡ slice_set bank.old m (after_symbol (model_at bank.old m) s) }
    ensures dist { (h : List ℕ) → StandsFor h (model_at bank.old m)
        → Codes encoder.old encoder.new (symbol (dist (alphabet_size (model_at bank.old m)) h) s ∷ []) }
    ensures stands { (h : List ℕ) → StandsFor h (model_at bank.old m) → StandsFor (h ++ s ∷ []) (model_at bank.new m) }
    ensures others { (k : ℕ) → k ≢ m → model_at bank.new k ≡ model_at bank.old k }
    ensures sizes { alphabet_sizes bank.new ≡ alphabet_sizes bank.old }
{
    let (start, next) = bank.bounds_and_count(m, s);
    encoder.cut_to(start, next);
}

/// Where the search for the next symbol of model `m` of a bank begins: at that symbol, or at the one before it.
// Nearly always a table gives it. Else the symbols after it are tried in turn.
#[inline(always)]
fn near_next_of(decoder: &Decoder<'_>, bank: &ModelBank, m: u32) -> Near
    requires good { decoder.now.failed ≡ false }
    requires model { m < length bank.now }
    ensures near { HasPlace (model_at bank.now m).starts (symbol_place decoder.now) result }
    ensures starts { AreStarts (alphabet_size (model_at bank.now m)) (model_at bank.now m).starts }
{
    let mut near = bank.near(m, decoder.estimate(bank.step_bits(m)));
    while decoder.is_from(near.after) {
        near = bank.near_symbol(m, near.symbol + 1);
    }
    near
}

/// Reads the next symbol of model `m` of a bank.
// It is the symbol that the search begins at, or the next one: which of the two is decided without a branch.
#[inline(always)]
fn take_next_of(decoder: &mut Decoder<'_>, bank: &ModelBank, m: u32) -> Result<u32, Bad>
    requires good { decoder.old.failed ≡ false }
    requires model { m < length bank.now }
    ensures reads { Reads result (λ s. s < alphabet_size (model_at bank.now m))
        (λ s. symbol_cut (model_at bank.now m) s ∷ []) decoder.old decoder.new }
    ensures bad { let model = model_at bank.now m
        in IsErr result ↔ RunsOut decoder.old (symbol_cut model (symbol_at model.starts (symbol_place decoder.old))) }
    ensures starts { AreStarts (alphabet_size (model_at bank.now m)) (model_at bank.now m).starts }
{
    let near = near_next_of(decoder, bank, m);
    let second = decoder.take_either(near.start, near.next, near.after)?;
    Ok(near.symbol + second as u32)
}

/// Reads a symbol of model `m` of a bank, and counts it. [`Bad`] means that the bytes end too early: no symbol begins
/// those left.
#[inline(always)]
pub fn take_symbol_of(decoder: &mut Decoder<'_>, bank: &mut ModelBank, m: u32) -> Result<u32, Bad>
    requires good { decoder.old.failed ≡ false }
    requires model { m < length bank.old }
    ensures reads { Reads result (λ s. s < alphabet_size (model_at bank.old m))
        (λ s. symbol_cut (model_at bank.old m) s ∷ []) decoder.old decoder.new }
    ensures bad { let model = model_at bank.old m
        in IsErr result ↔ RunsOut decoder.old (symbol_cut model (symbol_at model.starts (symbol_place decoder.old))) }
    ensures after_symbol { IfOk result (λ s. bank.new ≡ slice_set bank.old m (after_symbol (model_at bank.old m) s)) }
    ensures kept { OnErr result (bank.new ≡ bank.old) }
    ensures read { (h : List ℕ) → StandsFor h (model_at bank.old m)
        → IfOk result
        (λ s. ReadsOn (symbol (dist (alphabet_size (model_at bank.old m)) h) s ∷ []) decoder.old decoder.new) }
    ensures stands { (h : List ℕ) → StandsFor h (model_at bank.old m)
        → IfOk result (λ s. StandsFor (h ++ s ∷ []) (model_at bank.new m)) }
    ensures none { (h : List ℕ) → StandsFor h (model_at bank.old m)
        → OnErr result (NoneBegins (λ s. s < alphabet_size (model_at bank.old m))
        (λ s. symbol (dist (alphabet_size (model_at bank.old m)) h) s ∷ []) decoder.old) }
    ensures others { (k : ℕ) → k ≢ m → model_at bank.new k ≡ model_at bank.old k }
    ensures sizes { alphabet_sizes bank.new ≡ alphabet_sizes bank.old }
{
    let symbol = take_next_of(decoder, bank, m)?;
    bank.count_read(m, symbol);
    Ok(symbol)
}

/// Reads the next symbol of model `m` of a bank, which is most often the symbol in the middle of all parts.
// A symbol that has more than half of the parts lies there. It is tried before the search, so that a processor that
// foresees the outcome need not wait for it.
#[inline(always)]
fn take_next_by_guess(decoder: &mut Decoder<'_>, bank: &ModelBank, m: u32) -> Result<u32, Bad>
    requires good { decoder.old.failed ≡ false }
    requires model { m < length bank.now }
    ensures reads { Reads result (λ s. s < alphabet_size (model_at bank.now m))
        (λ s. symbol_cut (model_at bank.now m) s ∷ []) decoder.old decoder.new }
    ensures bad { let model = model_at bank.now m
        in IsErr result ↔ RunsOut decoder.old (symbol_cut model (symbol_at model.starts (symbol_place decoder.old))) }
    ensures starts { AreStarts (alphabet_size (model_at bank.now m)) (model_at bank.now m).starts }
{
    let guess = bank.near(m, MIDDLE >> bank.step_bits(m));
    if decoder.is_in(guess.start, guess.next) {
        decoder.take_to(guess.start, guess.next)?;
        return Ok(guess.symbol);
    }
    take_next_of(decoder, bank, m)
}

/// The same as [`take_symbol_of`], for a model one of whose symbols has mostly more than half of the parts.
#[inline(always)]
pub fn take_frequent_symbol_of(
    decoder: &mut Decoder<'_>,
    bank: &mut ModelBank,
    m: u32,
) -> Result<u32, Bad>
    requires good { decoder.old.failed ≡ false }
    requires model { m < length bank.old }
    ensures reads { Reads result (λ s. s < alphabet_size (model_at bank.old m))
        (λ s. symbol_cut (model_at bank.old m) s ∷ []) decoder.old decoder.new }
    ensures bad { let model = model_at bank.old m
        in IsErr result ↔ RunsOut decoder.old (symbol_cut model (symbol_at model.starts (symbol_place decoder.old))) }
    ensures after_symbol { IfOk result (λ s. bank.new ≡ slice_set bank.old m (after_symbol (model_at bank.old m) s)) }
    ensures kept { OnErr result (bank.new ≡ bank.old) }
    ensures sizes { alphabet_sizes bank.new ≡ alphabet_sizes bank.old }
{
    let symbol = take_next_by_guess(decoder, bank, m)?;
    bank.count_read(m, symbol);
    Ok(symbol)
}

/// Codes a bit under a model, and counts it.
#[inline(always)]
pub fn put_bit(encoder: &mut Encoder, model: &mut BitModel, bit: bool)
    requires { 3 ≤ encoder.old.left }
    ensures codes { Codes encoder.old encoder.new (Bit model.old.p0 bit ∷ []) }
    ensures after_symbol { model.new ≡ after_bit model.old bit }
    ensures dist { (h : List Bool) → BitStandsFor h model.old → Codes encoder.old encoder.new (Bit (p0_of h) bit ∷ []) }
    ensures stands { (h : List Bool) → BitStandsFor h model.old → BitStandsFor (h ++ bit ∷ []) model.new }
{
    let p0 = model.p0();
    model.count(bit);
    encoder.cut13(p0, bit);
}

/// Reads a bit under a model, and counts it. [`Bad`] means that the bytes end too early: neither bit begins those left.
#[inline(always)]
pub fn take_bit(decoder: &mut Decoder<'_>, model: &mut BitModel) -> Result<bool, Bad>
    requires { decoder.old.failed ≡ false }
    ensures reads { Reads result (λ _. ⊤) (λ bit. Bit model.old.p0 bit ∷ []) decoder.old decoder.new }
    ensures bad { IsErr result ↔ RunsOut decoder.old (Bit model.old.p0 (bit_of decoder.old model.old.p0)) }
    ensures after_symbol { IfOk result (λ bit. model.new ≡ after_bit model.old bit) }
    ensures kept { OnErr result (model.new ≡ model.old) }
    ensures read { (h : List Bool) → BitStandsFor h model.old
        → IfOk result (λ bit. ReadsOn (Bit (p0_of h) bit ∷ []) decoder.old decoder.new) }
    ensures stands { (h : List Bool) → BitStandsFor h model.old
        → IfOk result (λ bit. BitStandsFor (h ++ bit ∷ []) model.new) }
    ensures none { (h : List Bool) → BitStandsFor h model.old
        → OnErr result (NoneBegins {X = Bool} (λ _. ⊤) (λ bit. Bit (p0_of h) bit ∷ []) decoder.old) }
{
    let p0 = model.p0();
    let bit = decoder.take13(p0)?;
    model.count(bit);
    Ok(bit)
}
