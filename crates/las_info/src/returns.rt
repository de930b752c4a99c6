//! Numbers of records by return number, in a form that is fast to count.
ghost use Rattle.std.specs.Prelude.{◌≡◌, ◌<◌, ◌≤◌, ◌+◌, ◌-◌, ◌^◌, ◌∷◌, ◌++◌, [], ℕ, List, All, drop, length, slice_index, slice_set};
ghost use Rattle.las_header.specs.declared.limits.TheConstants.{POINT_RECORD};
ghost use Rattle.las_points.specs.Record.{return_number_of};

use las_header::POINT_RECORD;
use las_points::return_number;
use std::marker::Model;
use std::simd::prelude::*;

/// How many records have each return number, 0 to 7. Each number is the sum of two parts. Records that follow one another
/// are counted in different parts, since they often have the same return number, and an addition to a number in memory
/// waits for the one before it.
#[derive(Drop)]
pub(crate) struct Returns {
    first: [u32; 8],
    second: [u32; 8],
}

impl Model for Returns {
    ghost use Rattle.std.specs.Prelude.{ℕ, List, ◌+◌};
    ghost use Rattle.std.specs.Simd.Lanes.{zip2};

    ghost Value = { List ℕ };

    ghost view = { λ r. zip2 (λ a b. a + b) r.first r.second };
}

impl Returns {
    /// These numbers of the returns 1 to 7, and 0 of return 0.
    pub(crate) fn of(returns: [u32; 7]) -> Returns
        ensures { result ≡ 0 ∷ returns }
    {
        let [a, b, c, d, e, f, g] = returns;
        Returns {
            first: [0; 8],
            second: [0, a, b, c, d, e, f, g],
        }
    }

    /// Counts a record in the first part.
    pub(crate) fn count_first(&mut self, point: &[u8])
        requires long { POINT_RECORD ≤ length point.now }
        requires room { All (λ n. n < 2 ^ 32 - 1) self.old }
        ensures { let number = return_number_of point.now in
            self.new ≡ slice_set self.old number (slice_index self.old number + 1) }
    {
        self.first[usize::from(return_number(point))] += 1;
    }

    /// Counts a record in the second part.
    pub(crate) fn count_second(&mut self, point: &[u8])
        requires long { POINT_RECORD ≤ length point.now }
        requires room { All (λ n. n < 2 ^ 32 - 1) self.old }
        ensures { let number = return_number_of point.now in
            self.new ≡ slice_set self.old number (slice_index self.old number + 1) }
    {
        self.second[usize::from(return_number(point))] += 1;
    }

    /// The numbers of the returns 1 to 7.
    pub(crate) fn total(&self) -> [u32; 7]
        requires { All (λ n. n < 2 ^ 32) self.now }
        ensures { result ≡ drop 1 self.now }
    {
        let (first, second) = (
            u32x8::from_array(self.first),
            u32x8::from_array(self.second),
        );
        let [_, a, b, c, d, e, f, g] = first.strict_add(second).to_array();
        [a, b, c, d, e, f, g]
    }
}
