//! How many hands an output keeps busy.
ghost use Rattle.std.specs.Prelude.{◌≡◌, ◌<◌, ◌≤◌};
ghost use Rattle.std.specs.Option.{ForSome};
ghost use Rattle.laz_forms.specs.Hands.{chunks_packed, hands_for};

use crate::writer::Writer;
use laz_forms::hands_for;
use laz_table::chunk_count;

impl Writer {
    /// How many workers an output of at most `most` records is begun with when there are this many, at least 1: one
    /// for each chunk of `chunk` points, as long as there are workers, and one alone if it is plain.
    pub fn hands(chunk: Option<u32>, most: u32, workers: u32) -> u32
        requires chunk { ForSome chunk (λ n. 0 < n) }
        requires workers { 1 ≤ workers }
        ensures hands { result ≡ hands_for (chunks_packed chunk most) workers }
        ensures within { (1 ≤ result) × (result ≤ workers) }
    {
        match chunk {
            None => 1,
            Some(chunk) => hands_for(chunk_count(most, chunk), workers),
        }
    }
}
