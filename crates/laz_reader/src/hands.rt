//! How many hands a reader keeps busy.
ghost use Rattle.std.specs.Prelude.{◌≡◌, ◌≤◌, length};
ghost use Rattle.laz_forms.specs.Hands.{hands_for};

use crate::reader::Reader;
use laz_forms::hands_for;

impl Reader {
    /// How many hands a crew of this reader is asked for when there are this many workers, at least 1: one for each
    /// chunk, as long as there are workers, and one alone if the file is plain. Each hand has rooms for the greatest
    /// chunk, and more hands than chunks would have nothing to do.
    pub fn hands(&self, workers: u32) -> u32
        requires { 1 ≤ workers }
        ensures hands { result ≡ hands_for (length self.now.pieces) workers }
        ensures within { (1 ≤ result) × (result ≤ workers) }
    {
        hands_for(self.chunks(), workers)
    }
}
