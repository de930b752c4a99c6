//! Records of a block, counted in their bins.
ghost use Rattle.std.specs.Prelude.{◌≡◌, ◌/◌, ◌%◌, ◌≤◌, ℕ, length, take, OnErr, OnOk};
ghost use Rattle.las_header.specs.declared.limits.TheConstants.{POINT_RECORD};
ghost use Rattle.las_header.specs.Plain.{cut_records};
ghost use Rattle.las_info.specs.Tallies.{HasRoomToCount, tally_after};

use crate::bins::Bins;
use crate::tally::Counted;
use std::alloc::AllocError;

/// Counts whole records of one size, which stand one after another, each in its bin. Each turn of the loop takes two of
/// them. `Err` means out of memory: then the records from the first on were counted, perhaps not all of them.
pub(crate) fn count_block<B: Bins>(
    counted: &mut Counted,
    size: usize,
    block: &[u8],
) -> Result<(), AllocError>
    requires size { POINT_RECORD ≤ size }
    requires whole { length block.now % size ≡ 0 }
    requires room { HasRoomToCount (length block.now / size) counted.old }
    ensures ok { OnOk result (counted.new
        ≡ tally_after B.bin_of counted.old (cut_records size (length block.now / size) block.now)) }
    ensures err { OnErr result ((n : ℕ) × (counted.new
        ≡ tally_after B.bin_of counted.old (take n (cut_records size (length block.now / size) block.now)))) }
{
    let count = block.len() / size;
    let mut rest = block;
    for _pair in 0..count / 2 {
        let (first, others) = rest.split_at(size);
        let (second, further) = others.split_at(size);
        counted.add_two(B::of(first), B::of(second))?;
        rest = further;
    }
    if count % 2 == 0 {
        return Ok(());
    }
    counted.add(B::of(rest))
}
