//! Laws of what bytes hold, as contracts of functions that do nothing.
ghost use Rattle.std.specs.Prelude.{◌≡◌, ◌<◌, ◌≤◌, ◌*◌, ◌+◌, ℕ, List, length};
ghost use Rattle.laz_range.specs.Span.{IsBytes};
ghost use Rattle.laz_chunk.specs.Layouts.{HasFormatLength, Layout, record_length, room_for};
ghost use Rattle.laz_integer.specs.Events.{Event};
ghost use Rattle.laz_rgb.specs.Items.{latest_extra};
ghost use Rattle.laz_chunk.specs.Records.{ChunkPoint, Record, SpellsRecord, extras_of};
ghost use Rattle.laz_chunk.specs.Chunks.{AreRecords, Holds, chunk_bytes};

use laz_integer::{event_fronts_begin, one_event_begins};
use laz_range::fronts_fit;

/// The records of a point format, 0 to 3, have its length and their extra bytes'.
pub fn records_have_the_length_of_their_format()
    ensures { (format extra : ℕ) → format < 4 → HasFormatLength format extra }
{}

/// What is packed holds the records.
pub fn chunks_hold()
    ensures { (l : Layout) (count : ℕ) (records : List ℕ) → 1 ≤ count → AreRecords l count records
        → Holds l (chunk_bytes l records) records }
{}

/// A chunk has its first record and four bytes at least, and at most as many bytes as `room_for`.
pub fn chunks_are_bounded()
    ensures least { (l : Layout) (bytes records : List ℕ) → Holds l bytes records → record_length l + 4 ≤ length bytes }
    ensures most { (l : Layout) (count : ℕ) (bytes records : List ℕ) → 1 ≤ count
        → length records ≡ record_length l * count → Holds l bytes records → length bytes ≤ room_for l count }
{}

/// Bytes hold at most one list of this many records.
pub fn one_is_held()
    ensures { (l : Layout) (count : ℕ) (bytes one other : List ℕ) → 1 ≤ count → IsBytes bytes
        → AreRecords l count one → AreRecords l count other → Holds l bytes one → Holds l bytes other → one ≡ other }
{
    fronts_fit();
    event_fronts_begin();
    one_event_begins();
}

/// A record is spelled by at most 38 events, and one more for each extra byte.
pub fn records_have_few_events()
    ensures { (l : Layout) (points : List ChunkPoint) (events : List Event) (now : Record)
        → length (latest_extra (extras_of points)) ≡ l.extra → SpellsRecord l points events now
        → length events ≤ 38 + l.extra }
{}
