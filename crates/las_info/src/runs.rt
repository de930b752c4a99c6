//! Records of a block, counted in their bins, where most of them have the bin of the one before.
ghost use Rattle.std.specs.Prelude.{◌≡◌, ◌*◌, ◌/◌, ◌%◌, ◌≤◌, ℕ, All, length, take, true, OnErr, OnOk};
ghost use Rattle.las_header.specs.declared.limits.TheConstants.{POINT_RECORD};
ghost use Rattle.las_header.specs.Plain.{cut_records};
ghost use Rattle.las_info.specs.Tallies.{HasRoomToCount, tally_after};

use crate::bins::Bins;
use crate::block_count::count_block;
use crate::limits::GROUP;
use crate::tally::Counted;
use std::alloc::AllocError;

// Whether all records of a group, which stand one after another, have a bin.
#[inline(always)]
fn all_have<B: Bins>(size: usize, count: usize, group: &[u8], bin: u32) -> bool
    requires size { POINT_RECORD ≤ size }
    requires group { length group.now ≡ size * count }
    ensures { result ≡ true → All (λ point. B.bin_of point ≡ bin) (cut_records size count group.now) }
{
    let mut rest = group;
    for _turn in 0..count {
        let (point, further) = rest.split_at(size);
        if B::of(point) != bin {
            return false;
        }
        rest = further;
    }
    true
}

// Counts the records of a group, which stand one after another, each in its bin: at once, if all have one bin.
#[inline(always)]
fn count_group<B: Bins>(
    counted: &mut Counted,
    size: usize,
    count: usize,
    group: &[u8],
) -> Result<(), AllocError>
    requires size { POINT_RECORD ≤ size }
    requires some { 1 ≤ count }
    requires group { length group.now ≡ size * count }
    requires room { HasRoomToCount count counted.old }
    ensures ok { OnOk result (counted.new
        ≡ tally_after B.bin_of counted.old (cut_records size count group.now)) }
    ensures err { OnErr result ((n : ℕ) × (counted.new
        ≡ tally_after B.bin_of counted.old (take n (cut_records size count group.now)))) }
{
    let bin = B::of(group);
    if all_have::<B>(size, count, group, bin) {
        return counted.add_more(bin, count as u64);
    }
    count_block::<B>(counted, size, group)
}

// Counts whole records of one size, which stand one after another, in groups of this many.
#[inline(always)]
fn count_groups<B: Bins>(
    counted: &mut Counted,
    size: usize,
    each: usize,
    block: &[u8],
) -> Result<(), AllocError>
    requires size { POINT_RECORD ≤ size }
    requires some { 1 ≤ each }
    requires whole { length block.now % size ≡ 0 }
    requires room { HasRoomToCount (length block.now / size) counted.old }
    ensures ok { OnOk result (counted.new
        ≡ tally_after B.bin_of counted.old (cut_records size (length block.now / size) block.now)) }
    ensures err { OnErr result ((n : ℕ) × (counted.new
        ≡ tally_after B.bin_of counted.old (take n (cut_records size (length block.now / size) block.now)))) }
{
    let count = block.len() / size;
    let mut rest = block;
    for _group in 0..count / each {
        let (group, further) = rest.split_at(size * each);
        count_group::<B>(counted, size, each, group)?;
        rest = further;
    }
    count_block::<B>(counted, size, rest)
}

/// Counts whole records of one size, which stand one after another, each in its bin. `Err` means out of memory: then the
/// records from the first on were counted, perhaps not all of them.
pub(crate) fn count_runs<B: Bins>(
    counted: &mut Counted,
    size: usize,
    block: &[u8],
) -> Result<(), AllocError>
    requires size { POINT_RECORD ≤ size }
    requires whole { length block.now % size ≡ 0 }
    requires room { HasRoomToCount (length block.now / size) counted.old }
    ensures ok { OnOk result (counted.new
        ≡ tally_after B.bin_of counted.old (cut_records size (length block.now / size) block.now)) }
    ensures err { OnErr result ((n : ℕ) × (counted.new
        ≡ tally_after B.bin_of counted.old (take n (cut_records size (length block.now / size) block.now)))) }
{
    count_groups::<B>(counted, size, GROUP, block)
}
