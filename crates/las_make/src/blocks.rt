//! The records of the file, block by block.
ghost use Rattle.std.specs.Prelude.{◌≡◌, ◌+◌, ◌*◌, ◌≤◌, length};
ghost use Rattle.std.specs.List.{concat};
ghost use Rattle.las_make.specs.Made.{IsBefore, IsInRange, made_length, records_from};

use crate::drawing::Generator;
use crate::records::put_record;
use crate::settings::{Settings, record_length};

/// Fills a place with as many records, one after another, from this number on. The generator has drawn for all records
/// before them. No memory is taken.
pub(crate) fn put_records(
    place: &mut [u8],
    settings: Settings,
    from: u32,
    count: u32,
    generator: &mut Generator,
)
    requires range { IsInRange settings }
    requires within { from + count ≤ settings.points }
    requires room { length place.old ≡ made_length settings * count }
    requires before { IsBefore settings from generator.old.state }
    ensures records { place.new ≡ concat (records_from settings from count) }
    ensures after { IsBefore settings (from + count) generator.new.state }
{
    let size = record_length(settings);
    for i in 0..count {
        let draws = generator.draws(settings.format);
        let at = size * i as usize;
        put_record(&mut place[at..at + size], settings.format, from + i, draws);
    }
}
