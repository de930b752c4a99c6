//! A point, as the fields of its record.
ghost use Rattle.std.specs.Prelude.{◌≡◌, length};
ghost use Rattle.laz_point10.specs.Points.{IsPoint, point_at};

use las_points::{class_byte, flags, intensity, source, user, x, y, z};

/// The fields of a point record's first 20 bytes.
#[derive(Clone, Copy)]
pub struct Point {
    pub x: i32,
    pub y: i32,
    pub z: i32,
    pub intensity: u16,
    /// The byte of return number, number of returns, scan direction and edge of flight line.
    pub flags: u8,
    pub classification: u8,
    /// The scan angle rank, modulo 256.
    pub scan_angle: u8,
    pub user_data: u8,
    pub point_source: u16,
}

impl Point {
    // The point in the 20 bytes of a record.
    #[inline(always)]
    pub(crate) fn of(part: &[u8]) -> Point
        requires { length part.now ≡ 20 }
        ensures point { result ≡ point_at part.now }
        ensures fits { IsPoint result }
    {
        Point {
            x: x(part),
            y: y(part),
            z: z(part),
            intensity: intensity(part),
            flags: flags(part),
            classification: class_byte(part),
            scan_angle: part[16],
            user_data: user(part),
            point_source: source(part),
        }
    }

    // Writes the point into the 20 bytes of a record.
    #[inline(always)]
    pub(crate) fn put(self, part: &mut [u8])
        requires { length part.old ≡ 20 }
        ensures { point_at part.new ≡ self }
    {
        let [x0, x1, x2, x3] = self.x.to_le_bytes();
        let [y0, y1, y2, y3] = self.y.to_le_bytes();
        let [z0, z1, z2, z3] = self.z.to_le_bytes();
        let [i0, i1] = self.intensity.to_le_bytes();
        let [s0, s1] = self.point_source.to_le_bytes();
        part.copy_from_slice(&[
            x0,
            x1,
            x2,
            x3,
            y0,
            y1,
            y2,
            y3,
            z0,
            z1,
            z2,
            z3,
            i0,
            i1,
            self.flags,
            self.classification,
            self.scan_angle,
            self.user_data,
            s0,
            s1,
        ]);
    }
}
