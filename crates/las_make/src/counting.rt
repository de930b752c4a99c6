//! The counts of the records, which stand in the head before any of them is written.
ghost use Rattle.std.specs.Prelude.{◌≡◌};
ghost use Rattle.las_points.specs.Tally.{counts_of};
ghost use Rattle.las_make.specs.Made.{IsInRange, made_records};

use crate::drawing::Generator;
use crate::records::flags;
use crate::settings::Settings;
use las_header::{Counts, POINT_RECORD};
use las_points::count_in;

/// Counts the records that will be made, by what is drawn for them. No memory is taken.
pub(crate) fn count_records(settings: Settings) -> Counts
    requires { IsInRange settings }
    ensures { result ≡ counts_of (made_records settings) }
{
    let mut generator = Generator::new(settings.seed);
    let mut counts = Counts {
        points: 0,
        returns: [0; 7],
    };
    let mut point = [0; POINT_RECORD];
    for k in 0..settings.points {
        point[14] = flags(k, generator.draws(settings.format));
        count_in(&mut counts, &point);
    }
    counts
}
