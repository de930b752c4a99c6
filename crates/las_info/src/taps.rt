//! The four taps of the program.
ghost use Rattle.std.specs.Prelude.{◌≡◌};
ghost use Rattle.std.specs.FinMap as map;

use crate::bins::{Classes, Field, Intensities, ReturnNumbers, Sources};
use crate::tally::Counted;
use crate::tap::Tap;
use std::alloc::{AllocError, Global};
use std::marker::{Model, PhantomData};

/// Tallies records by a field that they all have. Contracts see its tally.
#[derive(Drop)]
pub struct FieldTap<B: Field> {
    counted: Counted,
    field: PhantomData<B>,
}

/// Tallies records by class, 0 to 31.
pub type ClassTap = FieldTap<Classes>;

/// Tallies records by return number, 0 to 7.
pub type ReturnTap = FieldTap<ReturnNumbers>;

/// Tallies records by intensity, 256 intensities to a bin: 0 to 255.
pub type IntensityTap = FieldTap<Intensities>;

/// Tallies records by point source, 0 to 65,535.
pub type SourceTap = FieldTap<Sources>;

impl<B: Field> Model for FieldTap<B> {
    ghost use Rattle.std.specs.FinMap as map;
    ghost use Rattle.std.specs.Coded.{coded_ℕ};
    ghost use Rattle.las_info.specs.Tallies.{Tally};

    ghost Value = { Tally };

    ghost coded = { map.code coded_ℕ coded_ℕ };

    ghost view = { λ t. t.counted };
}

impl<B: Field> FieldTap<B> {
    /// A tap that has counted nothing.
    pub fn new(alloc: Global) -> Self
        ensures { result ≡ map.empty }
    {
        FieldTap {
            counted: Counted::new(alloc),
            field: PhantomData,
        }
    }
}

impl<B: Field> Tap for FieldTap<B> {
    ghost tap_seen = { λ t. record { name = B.name; bin = λ point. B.bin_of point; tally = t } };

    fn named(&self) -> &str {
        B::name()
    }

    fn bin(&self, point: &[u8]) -> u32 {
        B::of(point)
    }

    fn see(&mut self, point: &[u8]) -> Result<(), AllocError> {
        let bin = self.bin(point);
        self.counted.add(bin)
    }

    fn see_block(&mut self, size: usize, block: &[u8]) -> Result<(), AllocError> {
        B::count(&mut self.counted, size, block)
    }

    fn rows(&self) -> Result<Vec<(u32, u64)>, AllocError> {
        self.counted.rows()
    }
}
