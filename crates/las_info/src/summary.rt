//! Counts of records, and the ranges of their raw coordinates.
ghost use Rattle.std.specs.Prelude.{◌≡◌, ◌+◌, ◌-◌, ◌/◌, ◌%◌, ◌^◌, ◌<◌, ◌≤◌, ◌++◌, ◌∷◌, [], ℕ, List, Some, length};
ghost use Rattle.las_header.specs.Plain.{cut_records, cut_all};
ghost use Rattle.las_points.specs.Tally.{IsWithinPoints, counts_of};
ghost use Rattle.las_info.specs.Extents.{extents_of};
ghost use Rattle.las_info.specs.Summaries.{summary_of};

use crate::bounds::Bounds;
use crate::extents::{Extents, extended};
use crate::returns::Returns;
use las_header::{Counts, POINT_RECORD};
use las_points::count_in;
use std::marker::Model;

/// Counts of records, and the least and the greatest of each of their raw coordinates.
#[derive(Drop)]
pub(crate) struct Summary {
    counts: Counts,
    extents: Option<Extents>,
}

impl Model for Summary {
    ghost use Rattle.las_points.specs.Tally.{IsWithinPoints};
    ghost use Rattle.las_info.specs.Summaries.{SummarySeen};

    ghost Value = { SummarySeen };

    ghost view = { λ s. record { counts = s.counts; extents = s.extents } };

    ghost invariant = { λ s. IsWithinPoints s.counts };
}

// The counts and the extents of some records together with those of a block: whole records of one size, which stand one
// after another. Each turn of the loop takes two of them.
fn summed(counts: Counts, extents: Extents, size: usize, block: &[u8]) -> (Counts, Extents)
    requires size { POINT_RECORD ≤ size }
    requires whole { length block.now % size ≡ 0 }
    requires within { IsWithinPoints counts }
    requires fewer { counts.points + length block.now / size < 2 ^ 32 }
    ensures within { IsWithinPoints result.0 }
    ensures list { (records : List (List ℕ)) → counts ≡ counts_of records → Some extents ≡ extents_of records
        → summary_of (records ++ cut_all size block.now)
        ≡ record { counts = result.0; extents = Some result.1 } }
{
    let count = block.len() / size;
    let mut returns = Returns::of(counts.returns);
    let mut bounds = Bounds::of(extents);
    let mut rest = block;
    for _pair in 0..count / 2 {
        let (point, further) = rest.split_at(size);
        let (other, further) = further.split_at(size);
        returns.count_first(point);
        returns.count_second(other);
        bounds.widen(point);
        bounds.widen(other);
        rest = further;
    }
    if count % 2 == 1 {
        returns.count_first(rest);
        bounds.widen(rest);
    }
    let counts = Counts {
        points: counts.points + count as u32,
        returns: returns.total(),
    };
    (counts, bounds.extents())
}

impl Summary {
    /// That of no record.
    pub(crate) fn new() -> Summary
        ensures { result ≡ summary_of [] }
    {
        Summary {
            counts: Counts {
                points: 0,
                returns: [0; 7],
            },
            extents: None,
        }
    }

    /// Adds a record.
    pub(crate) fn add(&mut self, point: &[u8])
        requires long { POINT_RECORD ≤ length point.now }
        requires fewer { self.old.counts.points < 2 ^ 32 - 1 }
        ensures { (records : List (List ℕ)) → self.old ≡ summary_of records
            → self.new ≡ summary_of (records ++ point.now ∷ []) }
    {
        count_in(&mut self.counts, point);
        self.extents = Some(extended(self.extents, point));
    }

    /// Adds whole records of one size, which stand one after another.
    pub(crate) fn add_all(&mut self, size: usize, block: &[u8])
        requires size { POINT_RECORD ≤ size }
        requires whole { length block.now % size ≡ 0 }
        requires fewer { self.old.counts.points + length block.now / size < 2 ^ 32 }
        ensures { (records : List (List ℕ)) → self.old ≡ summary_of records
            → self.new ≡ summary_of (records ++ cut_records size (length block.now / size) block.now) }
    {
        if block.len() < size {
            return;
        }
        let (first, others) = block.split_at(size);
        let mut counts = self.counts;
        count_in(&mut counts, first);
        let (counts, extents) = summed(counts, extended(self.extents, first), size, others);
        self.counts = counts;
        self.extents = Some(extents);
    }

    /// The counts.
    pub(crate) fn counts(&self) -> Counts
        ensures { result ≡ self.now.counts }
    {
        self.counts
    }

    /// The ranges, if there is a record.
    pub(crate) fn extents(&self) -> Option<Extents>
        ensures { result ≡ self.now.extents }
    {
        self.extents
    }
}
