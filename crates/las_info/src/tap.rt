//! What tallies records.
ghost use Rattle.std.specs.Prelude.{◌≡◌, ◌-◌, ◌/◌, ◌%◌, ◌^◌, ◌<◌, ◌≤◌, ℕ, List, length, IfOk, OnErr, OnOk};
ghost use Rattle.std.specs.FinMap as map;
ghost use Rattle.las_info.specs.Tallies.{HasRoomToCount, IsShownSome, TapSeen, count_at, shown_all, with_one};
ghost use Rattle.las_header.specs.declared.limits.TheConstants.{POINT_RECORD};
ghost use Rattle.las_header.specs.Plain.{cut_records};

use std::alloc::AllocError;

/// Tallies records: each has a bin, by a rule of the tap's own, and the tap counts the records of each bin.
///
/// A record that is handed in has at least 20 bytes.
pub trait Tap: Drop {
    /// The tap's name, as `-tally` asks for it; the bin of a record; and the records that were counted for each bin.
    ghost tap_seen: { Self → TapSeen };

    /// The tap's name.
    fn named(&self) -> &str
        ensures { result.now ≡ (tap_seen self.now).name };

    /// The bin of a record.
    fn bin(&self, point: &[u8]) -> u32
        requires { POINT_RECORD ≤ length point.now }
        ensures { result ≡ (tap_seen self.now).bin point.now };

    /// Counts a record in its bin. `Err` means out of memory, and the tally is as before.
    fn see(&mut self, point: &[u8]) -> Result<(), AllocError>
        requires long { POINT_RECORD ≤ length point.now }
        requires room { count_at (tap_seen self.old).tally ((tap_seen self.old).bin point.now) < 2 ^ 64 - 1 }
        ensures ok { OnOk result ((tap_seen self.new).tally ≡ with_one (tap_seen self.old).tally ((tap_seen self.old).bin point.now)) }
        ensures err { OnErr result ((tap_seen self.new).tally ≡ (tap_seen self.old).tally) }
        ensures name { (tap_seen self.new).name ≡ (tap_seen self.old).name }
        ensures rule { (other : List ℕ) → (tap_seen self.new).bin other ≡ (tap_seen self.old).bin other };

    /// Counts whole records of one size, 20 bytes or more, which stand one after another, each in its bin. `Err` means out
    /// of memory: then the records from the first on were counted, perhaps not all of them.
    ///
    /// No bin comes to a count of 2^64, if all records have it. A tap that does not write this call sees the records one
    /// by one.
    fn see_block(&mut self, size: usize, block: &[u8]) -> Result<(), AllocError>
        requires size { POINT_RECORD ≤ size }
        requires whole { length block.now % size ≡ 0 }
        requires room { HasRoomToCount (length block.now / size) (tap_seen self.old).tally }
        ensures ok { OnOk result (tap_seen self.new
            ≡ shown_all (tap_seen self.old) (cut_records size (length block.now / size) block.now)) }
        ensures err { OnErr result (IsShownSome (cut_records size (length block.now / size) block.now)
            (tap_seen self.old) (tap_seen self.new)) }
    {
        let mut rest = block;
        for _turn in 0..block.len() / size {
            let (point, further) = rest.split_at(size);
            self.see(point)?;
            rest = further;
        }
        Ok(())
    }

    /// The bins that were counted, each with its count, by ascending bin. `Err` means out of memory.
    fn rows(&self) -> Result<Vec<(u32, u64)>, AllocError>
        ensures { IfOk result (λ rows. rows.items ≡ map.entries ((tap_seen self.now).tally)) };
}
