//! The number of a record by a rule.
ghost use Rattle.std.specs.Prelude.{◌≡◌, ◌^◌, ◌<◌, ◌≤◌, length};
ghost use Rattle.las_filter.specs.Parts.{IsRule};
ghost use Rattle.las_split.specs.Parts.{number_by};

use las_filter::Rule;
use las_header::POINT_RECORD;
use las_points::{class, return_number, source};

/// The number of the part that a record belongs to. `index` is the record's place in its file, counted from 0 and below
/// 2^32, and the record has at least 20 bytes. For `Every(n)` it is the index divided by n, which is at least 1; else
/// it is the class, the point source ID or the return number.
#[inline]
pub fn part_of(rule: &Rule, index: u64, point: &[u8]) -> u32
    requires rule { IsRule rule.now }
    requires index { index < 2 ^ 32 }
    requires long { POINT_RECORD ≤ length point.now }
    ensures { result ≡ number_by rule.now index point.now }
{
    match *rule {
        Rule::Every(n) => (index / u64::from(n)) as u32,
        Rule::Class => u32::from(class(point)),
        Rule::Source => u32::from(source(point)),
        Rule::Return => u32::from(return_number(point)),
    }
}
