//! A colour read: the symbol of changes, and the bytes that it marks.
ghost use Rattle.std.specs.Prelude.{◌≡◌, ◌+◌, ◌<◌, ◌≤◌, ◌∷◌, false, length, replicate};
ghost use Rattle.laz_models.specs.Bank.{alphabet_sizes};
ghost use Rattle.laz_rgb.specs.Rows.{AreRowModels};
ghost use Rattle.laz_rgb.specs.Colours.{predicted_blue};
ghost use Rattle.laz_rgb.specs.Coded.{colour_with, MakesGreenBlue, MakesRed, ReadsByte, ReadsColourAfter, ReadsTwo};

use crate::colour::Colour;
use crate::writing::{colour_marks, moved, predicted_blue};
use laz_integer::{has_bit, take_byte, take_frequent_symbol_of};
use laz_models::ModelBank;
use laz_range::{Bad, Decoder};

// Takes a byte under model `m`: if it is marked, what its symbol makes of the prediction, else the previous byte.
#[inline(always)]
fn take_next(
    decoder: &mut Decoder<'_>,
    bank: &mut ModelBank,
    m: u32,
    marked: bool,
    predicted: u8,
    previous: u8,
) -> Result<u8, Bad>
    requires good { decoder.old.failed ≡ false }
    requires within { decoder.old.taken ≤ length decoder.old.bytes }
    requires models { AreRowModels 1 m bank.old }
    ensures reads { ReadsByte result bank.old m marked predicted previous decoder.old decoder.new bank.new }
    ensures sizes { alphabet_sizes bank.new ≡ alphabet_sizes bank.old }
{
    let symbol = take_byte(decoder, bank, marked, m, 0)?;
    if marked {
        return Ok(predicted.wrapping_add(symbol));
    }
    Ok(previous)
}

// Takes the two bytes of red under models 1 and 2.
#[inline(always)]
fn take_red(
    decoder: &mut Decoder<'_>,
    bank: &mut ModelBank,
    low: bool,
    high: bool,
    last: &Colour,
) -> Result<(u8, u8), Bad>
    requires good { decoder.old.failed ≡ false }
    requires within { decoder.old.taken ≤ length decoder.old.bytes }
    requires sizes { alphabet_sizes bank.old ≡ 128 ∷ replicate 6 256 }
    ensures reads { ReadsTwo result bank.old 1 low high (MakesRed low high last.now) decoder.old decoder.new bank.new }
    ensures sizes { alphabet_sizes bank.new ≡ alphabet_sizes bank.old }
{
    let first = take_next(decoder, bank, 1, low, last.red_low, last.red_low)?;
    let second = take_next(decoder, bank, 2, high, last.red_high, last.red_high)?;
    Ok((first, second))
}

// A byte of green and one of blue, both low or both high: whether they are marked, those of the colour before, and how
// the byte of red went, which predicts them.
#[derive(Clone, Copy)]
struct GreenBlue {
    green_marked: bool,
    blue_marked: bool,
    red_from: u8,
    red_to: u8,
    green_from: u8,
    blue_from: u8,
}

// Takes a byte of green and one of blue under models `m` and `m + 1`.
#[inline(always)]
fn take_green_blue(
    decoder: &mut Decoder<'_>,
    bank: &mut ModelBank,
    m: u32,
    q: GreenBlue,
) -> Result<(u8, u8), Bad>
    requires good { decoder.old.failed ≡ false }
    requires within { decoder.old.taken ≤ length decoder.old.bytes }
    requires models { AreRowModels 2 m bank.old }
    requires few { m < 1024 }
    ensures reads { ReadsTwo result bank.old m q.green_marked q.blue_marked (MakesGreenBlue q)
        decoder.old decoder.new bank.new }
    ensures sizes { alphabet_sizes bank.new ≡ alphabet_sizes bank.old }
{
    let predicted = moved(q.red_from, q.red_to, q.green_from);
    let green = take_next(decoder, bank, m, q.green_marked, predicted, q.green_from)?;
    let predicted = predicted_blue(q.red_from, q.red_to, q.green_from, green, q.blue_from);
    let blue = take_next(decoder, bank, m + 1, q.blue_marked, predicted, q.blue_from)?;
    Ok((green, blue))
}

// The colour of these bytes: without bit 64 of the symbol of changes, green and blue equal red.
#[inline(always)]
fn colour_with(symbol: u32, red: (u8, u8), low: (u8, u8), high: (u8, u8)) -> Colour
    ensures { result ≡ colour_with symbol red low high }
{
    let colours = has_bit(symbol, 64);
    Colour {
        red_low: red.0,
        red_high: red.1,
        green_low: if colours { low.0 } else { red.0 },
        green_high: if colours { high.0 } else { red.1 },
        blue_low: if colours { low.1 } else { red.0 },
        blue_high: if colours { high.1 } else { red.1 },
    }
}

// Takes a colour after another.
#[inline(always)]
pub(crate) fn take_colour<M>(
    decoder: &mut Decoder<'_>,
    bank: &mut ModelBank,
    last: &Colour,
) -> Result<Colour, Bad>
    requires good { decoder.old.failed ≡ false }
    requires sizes { alphabet_sizes bank.old ≡ 128 ∷ replicate 6 256 }
    ensures reads { ReadsColourAfter result last.now bank.old decoder.old decoder.new bank.new }
    ensures sizes { alphabet_sizes bank.new ≡ alphabet_sizes bank.old }
{
    let symbol = take_frequent_symbol_of(decoder, bank, 0)?;
    let marks = colour_marks(symbol);
    let red = take_red(decoder, bank, marks[0], marks[1], last)?;
    let low = GreenBlue {
        green_marked: marks[2],
        blue_marked: marks[3],
        red_from: last.red_low,
        red_to: red.0,
        green_from: last.green_low,
        blue_from: last.blue_low,
    };
    let low = take_green_blue(decoder, bank, 3, low)?;
    let high = GreenBlue {
        green_marked: marks[4],
        blue_marked: marks[5],
        red_from: last.red_high,
        red_to: red.1,
        green_from: last.green_high,
        blue_from: last.blue_high,
    };
    let high = take_green_blue(decoder, bank, 5, high)?;
    Ok(colour_with(symbol, red, low, high))
}
