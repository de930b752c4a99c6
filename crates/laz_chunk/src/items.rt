//! The items of a record.

use laz_gpstime::GpsTime;
use laz_point10::Point10;
use laz_rgb::{Bytes, Rgb};

// The items that the records of a layout have.
pub struct Items {
    pub point10: Point10,
    pub gps_time: Option<GpsTime>,
    pub rgb: Option<Rgb>,
    pub extra: Option<Bytes>,
}

// By hand, so that each caller drops a workspace by one call. What a derive writes stands in the caller, with all lists
// of all models on each path, and the size of that code decides what its proof costs.
impl Drop for Items {
    fn drop(self) {
        let Items {
            point10,
            gps_time,
            rgb,
            extra,
        } = self;
        drop(point10);
        drop(gps_time);
        drop(rgb);
        drop(extra);
    }
}
