//! What is counted of the records of a file.
ghost use Rattle.std.specs.Prelude.{◌≡◌, ℕ, ◌+◌, ◌-◌, ◌/◌, ◌%◌, ◌^◌, ◌<◌, ◌≤◌, ◌++◌, ◌∷◌, [], List, OnErr, OnOk};
ghost use Rattle.std.specs.Prelude.{length, map, All};
ghost use Rattle.std.specs.List.{AllZip};
ghost use Rattle.las_header.specs.declared.limits.TheConstants.{POINT_RECORD};
ghost use Rattle.las_info.specs.Summaries.{summary_of};
ghost use Rattle.las_info.specs.Tallies.{HasRoomToCount, IsShownSome, count_at, shown_one, shown_all};
ghost use Rattle.las_info.specs.Surveys.{HasRoomForMore, survey_of, ShowsBlock};
ghost use Rattle.las_header.specs.Plain.{cut_records};

use crate::limits::PIECE;
use crate::summary::Summary;
use crate::tap::Tap;
use std::alloc::AllocError;

// Shows a record to a tap.
fn show_one(tap: &mut Box<dyn Tap>, point: &[u8]) -> Result<(), AllocError>
    requires long { POINT_RECORD ≤ length point.now }
    requires room { count_at (tap_seen tap.old).tally ((tap_seen tap.old).bin point.now) < 2 ^ 64 - 1 }
    ensures shown { OnOk result (tap_seen tap.new ≡ shown_one (tap_seen tap.old) point.now) }
    ensures err { OnErr result (tap_seen tap.new ≡ tap_seen tap.old) }
{
    tap.see(point)
}

/// Shows a record to taps, one after another.
pub(crate) fn show_all(taps: &mut [Box<dyn Tap>], point: &[u8]) -> Result<(), AllocError>
    requires long { POINT_RECORD ≤ length point.now }
    requires room { All (λ tap. count_at (tap_seen tap).tally ((tap_seen tap).bin point.now) < 2 ^ 64 - 1) taps.old }
    ensures shown { OnOk result (map (λ tap. tap_seen tap) taps.new
        ≡ map (λ tap. shown_one (tap_seen tap) point.now) taps.old) }
{
    for i in 0..taps.len() {
        show_one(&mut taps[i], point)?;
    }
    Ok(())
}

// Shows whole records of one size, which stand one after another, to a tap.
fn show_through(tap: &mut Box<dyn Tap>, size: usize, block: &[u8]) -> Result<(), AllocError>
    requires size { POINT_RECORD ≤ size }
    requires whole { length block.now % size ≡ 0 }
    requires room { HasRoomToCount (length block.now / size) (tap_seen tap.old).tally }
    ensures shown { OnOk result (tap_seen tap.new
        ≡ shown_all (tap_seen tap.old) (cut_records size (length block.now / size) block.now)) }
    ensures err { OnErr result (IsShownSome (cut_records size (length block.now / size) block.now)
        (tap_seen tap.old) (tap_seen tap.new)) }
{
    tap.see_block(size, block)
}

/// Shows whole records of one size, 20 bytes or more, which stand one after another, to taps: all of them in their
/// order to one tap, then to the next. `Err` means out of memory. Then each tap was shown records from the first on,
/// perhaps not all of them.
///
/// No tap comes to a count of 2^64 in a bin, if all of them had its bin.
pub fn show_block(taps: &mut [Box<dyn Tap>], size: usize, block: &[u8]) -> Result<(), AllocError>
    requires size { POINT_RECORD ≤ size }
    requires whole { length block.now % size ≡ 0 }
    requires room { All (λ tap. (bin : ℕ) → count_at (tap_seen tap).tally bin + length block.now / size < 2 ^ 64)
        taps.old }
    ensures shown { OnOk result (map (λ tap. tap_seen tap) taps.new
        ≡ map (λ tap. shown_all (tap_seen tap) (cut_records size (length block.now / size) block.now)) taps.old) }
    ensures err { OnErr result (AllZip (IsShownSome (cut_records size (length block.now / size) block.now))
        (map (λ tap. tap_seen tap) taps.old) (map (λ tap. tap_seen tap) taps.new)) }
{
    for i in 0..taps.len() {
        show_through(&mut taps[i], size, block)?;
    }
    Ok(())
}

/// What a file has, as far as its records were shown: their counts, the ranges of their raw coordinates, and the
/// tallies of its taps.
#[derive(Drop)]
pub struct Survey {
    pub(crate) summary: Summary,
    pub(crate) taps: Vec<Box<dyn Tap>>,
}

impl Survey {
    /// A survey that was shown no record, with these taps.
    pub fn new(taps: Vec<Box<dyn Tap>>) -> Survey
        ensures none { result.summary ≡ summary_of [] }
        ensures taps { result.taps.items ≡ taps.items }
    {
        Survey {
            summary: Summary::new(),
            taps,
        }
    }

    /// Counts a record and shows it to each tap in order. `Err` means out of memory, and the survey is of no use.
    ///
    /// The record has at least 20 bytes, fewer than 2^32 - 1 were counted, and each tap has counted fewer than 2^64 - 1
    /// in the record's bin.
    pub fn see(&mut self, point: &[u8]) -> Result<(), AllocError>
        requires long { POINT_RECORD ≤ length point.now }
        requires fewer { self.old.summary.counts.points < 2 ^ 32 - 1 }
        requires room { All (λ tap. count_at (tap_seen tap).tally ((tap_seen tap).bin point.now) < 2 ^ 64 - 1) self.old.taps.items }
        ensures counted { OnOk result ((records : List (List ℕ)) → self.old.summary ≡ summary_of records
            → self.new.summary ≡ summary_of (records ++ point.now ∷ [])) }
        ensures shown { OnOk result (map (λ tap. tap_seen tap) self.new.taps.items
            ≡ map (λ tap. shown_one (tap_seen tap) point.now) self.old.taps.items) }
    {
        self.summary.add(point);
        show_all(&mut self.taps, point)
    }

    /// Counts whole records of one size, 20 bytes or more, which stand one after another, and shows each to the taps.
    /// `Err` means out of memory, and the survey is of no use.
    ///
    /// With them the survey counts fewer than 2^32, and no tap had counted more than 2^63 in a bin before the first.
    pub fn see_all(&mut self, size: usize, block: &[u8]) -> Result<(), AllocError>
        requires size { POINT_RECORD ≤ size }
        requires whole { length block.now % size ≡ 0 }
        requires shown { HasRoomForMore (survey_of self.old.summary (map (λ tap. tap_seen tap) self.old.taps.items))
            (length block.now / size) }
        ensures { ShowsBlock result (survey_of self.old.summary (map (λ tap. tap_seen tap) self.old.taps.items))
            (survey_of self.new.summary (map (λ tap. tap_seen tap) self.new.taps.items)) size block.now }
    {
        self.see_pieces(size, PIECE, block)
    }

    // The same in pieces of this many records, so that each stays in a cache until the last tap has seen it.
    fn see_pieces(&mut self, size: usize, each: usize, block: &[u8]) -> Result<(), AllocError>
        requires some { 1 ≤ each }
        requires size { POINT_RECORD ≤ size }
        requires whole { length block.now % size ≡ 0 }
        requires shown { HasRoomForMore (survey_of self.old.summary (map (λ tap. tap_seen tap) self.old.taps.items))
            (length block.now / size) }
        ensures { ShowsBlock result (survey_of self.old.summary (map (λ tap. tap_seen tap) self.old.taps.items))
            (survey_of self.new.summary (map (λ tap. tap_seen tap) self.new.taps.items)) size block.now }
    {
        let count = block.len() / size;
        let mut rest = block;
        for _piece in 0..count / each {
            let (piece, further) = rest.split_at(size * each);
            self.see_piece(size, piece)?;
            rest = further;
        }
        self.see_piece(size, rest)
    }

    // The same for a piece.
    fn see_piece(&mut self, size: usize, block: &[u8]) -> Result<(), AllocError>
        requires size { POINT_RECORD ≤ size }
        requires whole { length block.now % size ≡ 0 }
        requires shown { HasRoomForMore (survey_of self.old.summary (map (λ tap. tap_seen tap) self.old.taps.items))
            (length block.now / size) }
        ensures { ShowsBlock result (survey_of self.old.summary (map (λ tap. tap_seen tap) self.old.taps.items))
            (survey_of self.new.summary (map (λ tap. tap_seen tap) self.new.taps.items)) size block.now }
    {
        self.summary.add_all(size, block);
        self.show_taps(size, block)?;
        Ok(())
    }

    // Shows whole records of one size, which stand one after another, to the taps.
    fn show_taps(&mut self, size: usize, block: &[u8]) -> Result<(), AllocError>
        requires size { POINT_RECORD ≤ size }
        requires whole { length block.now % size ≡ 0 }
        requires room { All (λ tap. (bin : ℕ) → count_at (tap_seen tap).tally bin + length block.now / size < 2 ^ 64) self.old.taps.items }
        ensures summary { self.new.summary ≡ self.old.summary }
        ensures shown { OnOk result (map (λ tap. tap_seen tap) self.new.taps.items
            ≡ map (λ tap. shown_all (tap_seen tap) (cut_records size (length block.now / size) block.now)) self.old.taps.items) }
    {
        show_block(&mut self.taps, size, block)
    }
}
