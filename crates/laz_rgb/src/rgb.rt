//! The item RGB12.
ghost use Rattle.std.specs.Prelude.{◌≡◌, ◌<◌, ◌≤◌, ◌+◌, [], ◌∷◌, length, false};
ghost use Rattle.std.specs.Prelude.{OnOk};
ghost use Rattle.laz_rgb.specs.Colours.{colour_at};
ghost use Rattle.laz_rgb.specs.Items.{RgbStands, CodesColour, NoColourBegins, OnlyColourBegins, ReadsNextColour};
ghost use Rattle.laz_rgb.specs.Items.{StandsWithColour};

use crate::colour::Colour;
use crate::reading::take_colour;
use crate::writing::put_colour;
use laz_models::ModelBank;
use laz_range::{Bad, Decoder, Encoder};
use std::alloc::{AllocError, Global};
use std::marker::Model;

/// Codes and reads the colours of a chunk's points, as LASzip's RGB12, version 2.
///
/// A colour is six bytes: red, green and blue, each with its low byte first. After `start` the item stands for the
/// chunk's first colour, and each call adds one to those that it stands for. Only `new` takes memory.
#[derive(Drop)]
pub struct Rgb {
    bank: ModelBank,
    last: Colour,
}

impl Model for Rgb {
    ghost use Rattle.laz_rgb.specs.Items.{IsRgbState, RgbState};

    ghost Value = { RgbState };

    ghost view = { λ r. record { bank = r.bank; last = r.last } };

    ghost invariant = { λ r. IsRgbState (record { bank = r.bank; last = r.last }) };
}

const BLACK: Colour = Colour {
    red_low: 0,
    red_high: 0,
    green_low: 0,
    green_high: 0,
    blue_low: 0,
    blue_high: 0,
};

impl Rgb {
    /// An item of no chunk yet: `start` begins one. `Err` means out of memory.
    pub fn new(alloc: Global) -> Result<Self, AllocError> {
        let bank = ModelBank::new(alloc, &[128, 256, 256, 256, 256, 256, 256])?;
        Ok(Rgb { bank, last: BLACK })
    }

    /// Begins a chunk, whose first colour is given. All models are initial again.
    pub fn start(&mut self, first: &[u8])
        requires { length first.now ≡ 6 }
        ensures { RgbStands [] (colour_at first.now ∷ []) self.new }
    {
        self.last = Colour::of(first);
        self.bank.reset();
    }

    /// Codes a colour.
    #[inline(always)]
    pub fn code(&mut self, encoder: &mut Encoder, part: &[u8])
        requires part { length part.now ≡ 6 }
        requires left { 21 ≤ encoder.old.left }
        ensures used { encoder.old.left ≤ encoder.new.left + 21 }
        ensures events { CodesColour self.old (colour_at part.now) encoder.old encoder.new }
        ensures stands { StandsWithColour self.old (colour_at part.now) self.new }
    {
        let now = Colour::of(part);
        put_colour(encoder, &mut self.bank, &self.last, &now);
        self.last = now;
    }

    /// Reads a colour. `Bad` means that no spelling of a colour begins the rest of the bytes; the part is then
    /// unspecified, and the item serves again only after `start`.
    #[inline(always)]
    pub fn read(&mut self, decoder: &mut Decoder<'_>, part: &mut [u8]) -> Result<(), Bad>
        requires good { decoder.old.failed ≡ false }
        requires part { length part.old ≡ 6 }
        ensures part { length part.new ≡ 6 }
        ensures good { OnOk result (decoder.new.failed ≡ false) }
        ensures reads { ReadsNextColour result self.old (colour_at part.new) decoder.old decoder.new self.new }
        ensures only { OnlyColourBegins result self.old (colour_at part.new) decoder.old }
        ensures none { NoColourBegins result self.old decoder.old }
    {
        self.read_for::<()>(decoder, part)
    }

    /// The same as [`read`](Self::read), once in the program for each `M`: what a single loop calls is inlined into it.
    #[inline(always)]
    pub fn read_for<M>(&mut self, decoder: &mut Decoder<'_>, part: &mut [u8]) -> Result<(), Bad>
        requires good { decoder.old.failed ≡ false }
        requires part { length part.old ≡ 6 }
        ensures part { length part.new ≡ 6 }
        ensures good { OnOk result (decoder.new.failed ≡ false) }
        ensures reads { ReadsNextColour result self.old (colour_at part.new) decoder.old decoder.new self.new }
        ensures only { OnlyColourBegins result self.old (colour_at part.new) decoder.old }
        ensures none { NoColourBegins result self.old decoder.old }
    {
        let colour = take_colour::<M>(decoder, &mut self.bank, &self.last)?;
        self.last = colour;
        colour.put(part);
        Ok(())
    }
}
