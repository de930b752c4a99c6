//! What the earlier points of a chunk predict.
ghost use Rattle.std.specs.Prelude.{◌≡◌, [], ◌∷◌, List};
ghost use Rattle.laz_point10.specs.Coded.{AreSorted, HistoryStands, IsHistory, predicted, with_point};

use crate::median::Median;
use crate::point::Point;
use crate::returns::{return_level, return_map};

// What is predicted of a point with some flag byte.
#[derive(Clone, Copy)]
pub struct Predictions {
    pub previous: Point,
    pub intensity: u16,
    pub dx: i32,
    pub dy: i32,
    pub z: i32,
}

// What the code keeps of the earlier points: the last one, and of those after the first the last intensity and the
// medians for each number of the map of returns, and the last height for each level.
#[derive(Drop)]
pub struct History {
    pub last: Point,
    pub intensities: [u16; 16],
    pub heights: [i32; 8],
    pub dx: [Median; 16],
    pub dy: [Median; 16],
}

impl History {
    // The history of a chunk's first point.
    pub fn of(first: Point) -> History
        ensures { HistoryStands (first ∷ []) result }
    {
        History {
            last: first,
            intensities: [0; 16],
            heights: [0; 8],
            dx: [Median::new(); 16],
            dy: [Median::new(); 16],
        }
    }

    // The last point.
    #[inline(always)]
    pub fn last(&self) -> Point
        ensures last { result ≡ self.now.last }
        ensures bytes { IsHistory self.now }
    {
        self.predictions(0).previous
    }

    // What is predicted of a point with this flag byte.
    #[inline(always)]
    pub fn predictions(&self, flags: u8) -> Predictions
        ensures predicted { result ≡ predicted self.now flags }
        ensures bytes { IsHistory self.now }
    {
        let m = return_map(flags);
        Predictions {
            previous: self.last,
            intensity: self.intensities[m],
            dx: self.dx[m].middle(),
            dy: self.dy[m].middle(),
            z: self.heights[return_level(flags)],
        }
    }

    // Adds a point.
    #[inline(always)]
    pub fn add(&mut self, point: &Point)
        ensures next { AreSorted self.old.dx → AreSorted self.old.dy → self.new ≡ with_point self.old point.now }
        ensures stands { (points : List Point) → HistoryStands points self.old
            → HistoryStands (point.now ∷ points) self.new }
    {
        let m = return_map(point.flags);
        self.dx[m].add(point.x.wrapping_sub(self.last.x));
        self.dy[m].add(point.y.wrapping_sub(self.last.y));
        self.intensities[m] = point.intensity;
        self.heights[return_level(point.flags)] = point.z;
        self.last = *point;
    }
}
