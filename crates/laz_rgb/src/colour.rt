//! Colours as six bytes, and the symbols of one after another.
ghost use Rattle.std.specs.Prelude.{◌≡◌, ◌<◌, ℕ, length};
ghost use Rattle.laz_rgb.specs.Colours.{bit_if, changes, colour_at, colour_bytes, is_grey};

/// Red, green and blue of a point record, each as its low and its high byte.
#[derive(Clone, Copy, PartialEq, Eq)]
pub struct Colour {
    pub red_low: u8,
    pub red_high: u8,
    pub green_low: u8,
    pub green_high: u8,
    pub blue_low: u8,
    pub blue_high: u8,
}

impl Colour {
    // The colour in the six bytes of a record.
    #[inline(always)]
    pub(crate) fn of(part: &[u8]) -> Colour
        requires { length part.now ≡ 6 }
        ensures { result ≡ colour_at part.now }
    {
        Colour {
            red_low: part[0],
            red_high: part[1],
            green_low: part[2],
            green_high: part[3],
            blue_low: part[4],
            blue_high: part[5],
        }
    }

    // Writes the colour into the six bytes of a record.
    #[inline(always)]
    pub(crate) fn put(self, part: &mut [u8])
        requires { length part.old ≡ 6 }
        ensures { part.new ≡ colour_bytes self }
    {
        part[0] = self.red_low;
        part[1] = self.red_high;
        part[2] = self.green_low;
        part[3] = self.green_high;
        part[4] = self.blue_low;
        part[5] = self.blue_high;
    }

    // Whether red, green and blue are equal.
    #[inline(always)]
    fn is_grey(&self) -> bool
        ensures { result ≡ is_grey self.now }
    {
        self.green_low == self.red_low
            && self.green_high == self.red_high
            && self.blue_low == self.red_low
            && self.blue_high == self.red_high
    }

    // The symbol of changes of a colour after this one.
    #[inline(always)]
    pub(crate) fn changes(&self, now: &Colour) -> u32
        ensures same { result ≡ changes self.now now.now }
        ensures few { result < 128 }
    {
        let red = bit_if(now.red_low != self.red_low, 1) + bit_if(now.red_high != self.red_high, 2);
        let green = bit_if(now.green_low != self.green_low, 4)
            + bit_if(now.green_high != self.green_high, 8);
        let blue = bit_if(now.blue_low != self.blue_low, 16)
            + bit_if(now.blue_high != self.blue_high, 32);
        red + green + blue + bit_if(!now.is_grey(), 64)
    }
}

#[inline(always)]
fn bit_if(set: bool, bit: u32) -> u32
    ensures { result ≡ bit_if set bit }
{
    if set { bit } else { 0 }
}
