//! The counts of records that are handed over as their bytes.
ghost use Rattle.std.specs.Prelude.{◌≡◌, ◌+◌, ◌/◌, ◌%◌, ◌^◌, ◌<◌, ◌≤◌, ◌++◌, ℕ, List, length};
ghost use Rattle.las_header.specs.Plain.{cut_records};
ghost use Rattle.las_points.specs.Tally.{IsWithinPoints, counts_of};

use las_header::{Counts, POINT_RECORD};
use las_points::count_in;

/// Counts whole records of one size, which stand one after another.
pub(crate) fn count_all(counts: &mut Counts, records: &[u8], size: usize)
    requires size { POINT_RECORD ≤ size }
    requires whole { length records.now % size ≡ 0 }
    requires room { counts.old.points + length records.now / size < 2 ^ 32 }
    requires within { IsWithinPoints counts.old }
    ensures counts { (before : List (List ℕ)) → counts.old ≡ counts_of before
        → counts.new ≡ counts_of (before ++ cut_records size (length records.now / size) records.now) }
    ensures within { IsWithinPoints counts.new }
{
    let mut rest = records;
    for _turn in 0..records.len() / size {
        let (record, further) = rest.split_at(size);
        count_in(counts, record);
        rest = further;
    }
}
