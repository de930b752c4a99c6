//! The bins of a record: one rule for each tap of the program.
ghost use Rattle.std.specs.Prelude.{◌≡◌, ◌%◌, ◌/◌, ◌≤◌, List, ℕ, length, take, OnErr, OnOk};
ghost use Rattle.las_header.specs.declared.limits.TheConstants.{POINT_RECORD};
ghost use Rattle.las_header.specs.Plain.{cut_records};
ghost use Rattle.las_info.specs.Tallies.{HasRoomToCount, tally_after};

use crate::block_count::count_block;
use crate::runs::count_runs;
use crate::tally::Counted;
use las_points::{class, intensity, return_number, source};
use std::alloc::AllocError;

/// A rule by which a record has a bin.
pub trait Bins: Drop {
    /// The bin of a record.
    ghost bin_of: { List ℕ → ℕ };

    /// The bin of a record.
    fn of(point: &[u8]) -> u32
        requires { POINT_RECORD ≤ length point.now }
        ensures { result ≡ bin_of point.now };
}

/// What a tap counts by: a rule, under a name.
pub trait Field: Bins {
    /// The name of the tap.
    ghost name: { List ℕ };

    /// The name of the tap.
    fn name() -> &'static str
        ensures { result.now ≡ name };

    /// Counts whole records of one size, which stand one after another, each in its bin. `Err` means out of memory:
    /// then the records from the first on were counted, perhaps not all of them.
    fn count(counted: &mut Counted, size: usize, block: &[u8]) -> Result<(), AllocError>
        requires size { POINT_RECORD ≤ size }
        requires whole { length block.now % size ≡ 0 }
        requires room { HasRoomToCount (length block.now / size) counted.old }
        ensures ok { OnOk result (counted.new
            ≡ tally_after Self.bin_of counted.old (cut_records size (length block.now / size) block.now)) }
        ensures err { OnErr result ((n : ℕ) × (counted.new
            ≡ tally_after Self.bin_of counted.old (take n (cut_records size (length block.now / size) block.now)))) };
}

/// Classes, 0 to 31.
#[derive(Drop)]
pub struct Classes;

/// Return numbers, 0 to 7.
#[derive(Drop)]
pub struct ReturnNumbers;

/// Intensities, 256 of them to a bin: 0 to 255.
#[derive(Drop)]
pub struct Intensities;

/// Point sources, 0 to 65,535.
#[derive(Drop)]
pub struct Sources;

impl Bins for Classes {
    ghost use Rattle.las_points.specs.Record.{class_of};

    ghost bin_of = { λ point. class_of point };

    #[inline(always)]
    fn of(point: &[u8]) -> u32 {
        u32::from(class(point))
    }
}

impl Field for Classes {
    ghost use Rattle.std.specs.Prelude.{codes};

    ghost name = { codes "class" };

    fn name() -> &'static str {
        "class"
    }

    fn count(counted: &mut Counted, size: usize, block: &[u8]) -> Result<(), AllocError> {
        count_block::<Self>(counted, size, block)
    }
}

impl Bins for ReturnNumbers {
    ghost use Rattle.las_points.specs.Record.{return_number_of};

    ghost bin_of = { λ point. return_number_of point };

    #[inline(always)]
    fn of(point: &[u8]) -> u32 {
        u32::from(return_number(point))
    }
}

impl Field for ReturnNumbers {
    ghost use Rattle.std.specs.Prelude.{codes};

    ghost name = { codes "return" };

    fn name() -> &'static str {
        "return"
    }

    fn count(counted: &mut Counted, size: usize, block: &[u8]) -> Result<(), AllocError> {
        count_block::<Self>(counted, size, block)
    }
}

impl Bins for Intensities {
    ghost use Rattle.las_info.specs.Bins.{intensity_bin};

    ghost bin_of = { λ point. intensity_bin point };

    #[inline(always)]
    fn of(point: &[u8]) -> u32 {
        u32::from(intensity(point) / 256)
    }
}

impl Field for Intensities {
    ghost use Rattle.std.specs.Prelude.{codes};

    ghost name = { codes "intensity" };

    fn name() -> &'static str {
        "intensity"
    }

    fn count(counted: &mut Counted, size: usize, block: &[u8]) -> Result<(), AllocError> {
        count_block::<Self>(counted, size, block)
    }
}

impl Bins for Sources {
    ghost use Rattle.las_points.specs.Record.{source_of};

    ghost bin_of = { λ point. source_of point };

    #[inline(always)]
    fn of(point: &[u8]) -> u32 {
        u32::from(source(point))
    }
}

impl Field for Sources {
    ghost use Rattle.std.specs.Prelude.{codes};

    ghost name = { codes "source" };

    fn name() -> &'static str {
        "source"
    }

    fn count(counted: &mut Counted, size: usize, block: &[u8]) -> Result<(), AllocError> {
        count_runs::<Self>(counted, size, block)
    }
}
