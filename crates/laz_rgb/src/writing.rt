//! A colour written: the symbol of changes, and a row of bytes.
ghost use Rattle.std.specs.Prelude.{◌≡◌, ◌+◌, ◌*◌, ◌<◌, ◌≤◌, ◌∷◌, ◌++◌, [], ℕ, length, replicate};
ghost use Rattle.laz_range.specs.Choice.{all_cuts, state_after};
ghost use Rattle.laz_range.specs.Coding.{Codes};
ghost use Rattle.laz_models.specs.Bank.{model_at, alphabet_sizes};
ghost use Rattle.laz_integer.specs.Integer.{symbol_cut};
ghost use Rattle.laz_rgb.specs.Rows.{AreRowModels, next_cuts, next_row, row_at};
ghost use Rattle.laz_integer.specs.Bytes.{byte_difference};
ghost use Rattle.laz_rgb.specs.Colours.{changes, colour_marks, colour_symbols, half_moved, moved, symbol_if};
ghost use Rattle.laz_rgb.specs.Coded.{colour_cuts, colour_next};

use crate::colour::Colour;
use laz_integer::{has_bit, put_byte, put_symbol_of};
use laz_models::ModelBank;
use laz_range::Encoder;

// Which bytes are coded, in the order of their coding.
#[inline(always)]
pub(crate) fn colour_marks(symbol: u32) -> [bool; 6]
    ensures { result ≡ colour_marks symbol }
{
    let colours = has_bit(symbol, 64);
    [
        has_bit(symbol, 1),
        has_bit(symbol, 2),
        colours & has_bit(symbol, 4),
        colours & has_bit(symbol, 16),
        colours & has_bit(symbol, 8),
        colours & has_bit(symbol, 32),
    ]
}

// A byte moved as far as from one byte to another, and kept within 0 to 255.
#[inline(always)]
pub(crate) fn moved(from: u8, to: u8, byte: u8) -> u8
    ensures { result ≡ moved from to byte }
{
    let sum = u32::from(byte) + u32::from(to);
    sum.saturating_sub(u32::from(from)).min(255) as u8
}

// A byte moved half as far as from one number to another, halves cut towards 0, and kept within 0 to 255.
#[inline(always)]
pub(crate) fn half_moved(from: u32, to: u32, byte: u8) -> u8
    requires { (from < 512) × (to < 512) }
    ensures { result ≡ half_moved from to byte }
{
    let up = u32::from(byte) + to.saturating_sub(from) / 2;
    up.saturating_sub(from.saturating_sub(to) / 2).min(255) as u8
}

// The prediction of blue, which moved as red and green moved together.
#[inline(always)]
pub(crate) fn predicted_blue(
    red_from: u8,
    red_to: u8,
    green_from: u8,
    green_to: u8,
    blue_from: u8,
) -> u8
    ensures { result ≡ half_moved (red_from + green_from) (red_to + green_to) blue_from }
{
    half_moved(
        red_from as u32 + green_from as u32,
        red_to as u32 + green_to as u32,
        blue_from,
    )
}

// The symbol of a byte with this prediction: their difference, modulo 256.
#[inline(always)]
pub(crate) fn byte_difference(predicted: u8, byte: u8) -> u8
    ensures { result ≡ byte_difference predicted byte }
{
    byte.wrapping_sub(predicted)
}

// The symbol of a byte that is marked, else 0.
#[inline(always)]
fn symbol_if(marked: bool, predicted: u8, byte: u8) -> u8
    ensures { result ≡ symbol_if marked predicted byte }
{
    if marked {
        byte_difference(predicted, byte)
    } else {
        0
    }
}

// The symbols of the six bytes of a colour after another, in the order of their coding.
#[inline(always)]
fn colour_symbols(marks: &[bool; 6], last: &Colour, now: &Colour, symbol: u32) -> [u8; 6]
    requires { marks.now ≡ colour_marks symbol }
    ensures { result ≡ colour_symbols symbol last.now now.now }
{
    let green_low = moved(last.red_low, now.red_low, last.green_low);
    let green_high = moved(last.red_high, now.red_high, last.green_high);
    let blue_low = predicted_blue(
        last.red_low,
        now.red_low,
        last.green_low,
        now.green_low,
        last.blue_low,
    );
    let blue_high = predicted_blue(
        last.red_high,
        now.red_high,
        last.green_high,
        now.green_high,
        last.blue_high,
    );
    [
        symbol_if(marks[0], last.red_low, now.red_low),
        symbol_if(marks[1], last.red_high, now.red_high),
        symbol_if(marks[2], green_low, now.green_low),
        symbol_if(marks[3], blue_low, now.blue_low),
        symbol_if(marks[4], green_high, now.green_high),
        symbol_if(marks[5], blue_high, now.blue_high),
    ]
}

// Codes a row of bytes, whose first model is `m`.
#[inline(always)]
pub(crate) fn put_row(
    encoder: &mut Encoder,
    bank: &mut ModelBank,
    m: u32,
    marks: &[bool],
    symbols: &[u8],
)
    requires marks { length marks.now ≡ length symbols.now }
    requires models { AreRowModels (length symbols.now) m bank.old }
    requires few { m + length symbols.now < 1024 }
    requires left { 3 * length symbols.now ≤ encoder.old.left }
    ensures codes { Codes encoder.old encoder.new
        (all_cuts next_row next_cuts (row_at marks.now m bank.old) symbols.now) }
    ensures next { bank.new ≡ (state_after next_row (row_at marks.now m bank.old) symbols.now).bank }
    ensures sizes { alphabet_sizes bank.new ≡ alphabet_sizes bank.old }
    ensures used { encoder.old.left ≤ encoder.new.left + 3 * length symbols.now }
{
    for (i, symbol) in symbols.iter().enumerate() {
        put_byte(encoder, bank, marks[i], m + i as u32, *symbol);
    }
}

// Codes a colour after another.
#[inline(always)]
pub(crate) fn put_colour(encoder: &mut Encoder, bank: &mut ModelBank, last: &Colour, now: &Colour)
    requires sizes { alphabet_sizes bank.old ≡ 128 ∷ replicate 6 256 }
    requires left { 21 ≤ encoder.old.left }
    ensures codes { let s = changes last.now now.now in
        Codes encoder.old encoder.new (colour_cuts bank.old s (colour_symbols s last.now now.now)) }
    ensures next { let s = changes last.now now.now in
        bank.new ≡ colour_next bank.old s (colour_symbols s last.now now.now) }
    ensures sizes { alphabet_sizes bank.new ≡ alphabet_sizes bank.old }
    ensures used { encoder.old.left ≤ encoder.new.left + 21 }
    ensures few { changes last.now now.now < 128 }
{
    let symbol = last.changes(now);
    let marks = colour_marks(symbol);
    let symbols = colour_symbols(&marks, last, now, symbol);
    put_symbol_of(encoder, bank, 0, symbol);
    put_row(encoder, bank, 1, &marks, &symbols);
}
