//! How many hands a crew is asked for: no more than there are chunks to come.
ghost use Rattle.std.specs.Prelude.{◌≡◌, ◌≤◌};
ghost use Rattle.laz_forms.specs.Hands.{hands_for};

/// How many of some workers this many pieces of work keep busy: one a piece, and at least one.
pub fn hands_for(pieces: u32, workers: u32) -> u32
    ensures hands { result ≡ hands_for pieces workers }
    ensures some { 1 ≤ result }
    ensures within { 1 ≤ workers → result ≤ workers }
{
    pieces.min(workers).max(1)
}
