//! Counting records, as a header counts them.

ghost use Rattle.std.specs.Prelude.{◌≡◌, ◌≤◌, ◌<◌, ◌-◌, ◌^◌, ◌++◌, [], ◌∷◌, ℕ, List, length};
ghost use Rattle.las_points.specs.Tally.{IsWithinPoints, counted_in, counts_of};

use crate::read::return_number;
use las_header::{Counts, POINT_RECORD};

/// Counts one record more: in `points`, and in the number of its return if that is 1 to 7. A record with return number
/// 0 is counted in `points` alone.
///
/// There are fewer than 2^32 - 1 points so far, and no return was counted more often than they. No memory is taken.
pub fn count_in(counts: &mut Counts, point: &[u8])
    requires long { POINT_RECORD ≤ length point.now }
    requires room { counts.old.points < 2 ^ 32 - 1 }
    requires within { IsWithinPoints counts.old }
    ensures counts { counts.new ≡ counted_in counts.old point.now }
    ensures list { (records : List (List ℕ)) → counts.old ≡ counts_of records
        → counts.new ≡ counts_of (records ++ point.now ∷ []) }
    ensures within { IsWithinPoints counts.new }
{
    counts.points += 1;
    let number = return_number(point);
    if number >= 1 {
        counts.returns[usize::from(number) - 1] += 1;
    }
}
