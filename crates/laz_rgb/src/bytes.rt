//! The item BYTE.
ghost use Rattle.std.specs.Prelude.{◌≡◌, ◌<◌, ◌≤◌, ◌+◌, ◌*◌, [], ◌∷◌, length, false, true};
ghost use Rattle.std.specs.Prelude.{IfOk, OnOk};
ghost use Rattle.laz_range.specs.Coding.{Codes};
ghost use Rattle.laz_range.specs.Choice.{all_cuts, state_after};
ghost use Rattle.laz_models.specs.Bank.{alphabet_sizes};
ghost use Rattle.laz_rgb.specs.Rows.{AreRowModels, byte_of, next_cuts, next_row, row_at};
ghost use Rattle.laz_rgb.specs.Extra.{all_marked, extra_symbols, ReadsRow};
ghost use Rattle.laz_rgb.specs.Items.{ExtraStands, CodesExtra, NoExtraBegins, OnlyExtraBegins, ReadsNextExtra};
ghost use Rattle.laz_rgb.specs.Items.{StandsWithExtra};

use crate::writing::byte_difference;
use laz_integer::{put_byte, take_byte, take_symbol_of};
use laz_models::ModelBank;
use laz_range::{Bad, Decoder, Encoder};
use std::alloc::{AllocError, Global};
use std::marker::Model;

/// Codes and reads the extra bytes of a chunk's points, as LASzip's BYTE, version 2.
///
/// Every record has the same number of extra bytes. After `start` the item stands for the chunk's first ones, and each
/// call adds those of a point to those that it stands for. Only `new` takes memory.
#[derive(Drop)]
pub struct Bytes {
    bank: ModelBank,
    last: Vec<u8>,
}

impl Model for Bytes {
    ghost use Rattle.laz_rgb.specs.Items.{ExtraState, IsExtraState};

    ghost Value = { ExtraState };

    ghost view = { λ b. record { bank = b.bank; last = b.last.items } };

    ghost invariant = { λ b. IsExtraState (record { bank = b.bank; last = b.last.items }) };
}

// Codes the difference of each byte to the one before.
#[inline(always)]
fn put_bytes(encoder: &mut Encoder, bank: &mut ModelBank, last: &[u8], part: &[u8])
    requires part { length part.now ≡ length last.now }
    requires few { length last.now < 193 }
    requires models { AreRowModels (length last.now) 0 bank.old }
    requires left { 3 * length last.now ≤ encoder.old.left }
    ensures codes { Codes encoder.old encoder.new
        (all_cuts next_row next_cuts (row_at (all_marked (length last.now)) 0 bank.old)
        (extra_symbols last.now part.now)) }
    ensures next { bank.new ≡
        (state_after next_row (row_at (all_marked (length last.now)) 0 bank.old)
        (extra_symbols last.now part.now)).bank }
    ensures sizes { alphabet_sizes bank.new ≡ alphabet_sizes bank.old }
    ensures used { encoder.old.left ≤ encoder.new.left + 3 * length last.now }
{
    for (i, byte) in part.iter().enumerate() {
        put_byte(
            encoder,
            bank,
            true,
            i as u32,
            byte_difference(last[i], *byte),
        );
    }
}

// The byte that a symbol makes of the one before.
#[inline(always)]
fn byte_of(previous: u8, symbol: u8) -> u8
    ensures { result ≡ byte_of true previous previous symbol }
{
    previous.wrapping_add(symbol)
}

// Takes the difference of each byte to the one before.
#[inline(always)]
fn take_bytes(
    decoder: &mut Decoder<'_>,
    bank: &mut ModelBank,
    last: &[u8],
    part: &mut [u8],
) -> Result<(), Bad>
    requires good { decoder.old.failed ≡ false }
    requires some { 0 < length last.now }
    requires part { length part.old ≡ length last.now }
    requires few { length last.now < 193 }
    requires models { AreRowModels (length last.now) 0 bank.old }
    ensures reads { ReadsRow result last.now part.new bank.old decoder.old decoder.new bank.new }
    ensures good { OnOk result (decoder.new.failed ≡ false) }
    ensures sizes { alphabet_sizes bank.new ≡ alphabet_sizes bank.old }
{
    let first = take_symbol_of(decoder, bank, 0)?;
    part[0] = byte_of(last[0], first as u8);
    for i in 1..part.len() {
        let symbol = take_byte(decoder, bank, true, i as u32, 0)?;
        part[i] = byte_of(last[i], symbol);
    }
    Ok(())
}

impl Bytes {
    /// Initial models for `extra` bytes a record, 1 to 192, of no chunk yet. `Err` means out of memory.
    pub fn new(alloc: Global, extra: u16) -> Result<Self, AllocError>
        requires some { 0 < extra }
        requires few { extra < 193 }
        ensures { IfOk result (λ bytes. length bytes.last ≡ extra) }
    {
        let sizes = vec![in alloc; 256; extra as usize]?;
        let bank = ModelBank::new(alloc, &sizes)?;
        let last = vec![in alloc; 0; extra as usize]?;
        Ok(Bytes { bank, last })
    }

    /// Begins a chunk, whose first extra bytes are given. All models are initial again.
    pub fn start(&mut self, first: &[u8])
        requires { length first.now ≡ length self.old.last }
        ensures { ExtraStands [] (first.now ∷ []) self.new }
    {
        self.last.copy_from_slice(first);
        self.bank.reset();
    }

    /// Codes the extra bytes of a record.
    #[inline(always)]
    pub fn code(&mut self, encoder: &mut Encoder, part: &[u8])
        requires part { length part.now ≡ length self.old.last }
        requires left { 3 * length self.old.last ≤ encoder.old.left }
        ensures extra { length self.new.last ≡ length self.old.last }
        ensures used { encoder.old.left ≤ encoder.new.left + 3 * length self.old.last }
        ensures events { CodesExtra self.old part.now encoder.old encoder.new }
        ensures stands { StandsWithExtra self.old part.now self.new }
    {
        put_bytes(encoder, &mut self.bank, &self.last, part);
        self.last.copy_from_slice(part);
    }

    /// Reads the extra bytes of a record. `Bad` means that no spelling of them begins the rest of the bytes; the part
    /// is then unspecified, and the item serves again only after `start`.
    #[inline(always)]
    pub fn read(&mut self, decoder: &mut Decoder<'_>, part: &mut [u8]) -> Result<(), Bad>
        requires good { decoder.old.failed ≡ false }
        requires part { length part.old ≡ length self.old.last }
        ensures part { length part.new ≡ length part.old }
        ensures extra { length self.new.last ≡ length self.old.last }
        ensures good { OnOk result (decoder.new.failed ≡ false) }
        ensures reads { ReadsNextExtra result self.old part.new decoder.old decoder.new self.new }
        ensures only { OnlyExtraBegins result self.old (length part.old) part.new decoder.old }
        ensures none { NoExtraBegins result self.old (length part.old) decoder.old }
    {
        take_bytes(decoder, &mut self.bank, &self.last, part)?;
        self.last.copy_from_slice(part);
        Ok(())
    }
}
