//! The counts that a header keeps of the point records.

ghost use Rattle.std.specs.Prelude.{◌≡◌, length};
ghost use Rattle.las_header.specs.Counting.{short_bytes, long_bytes};

use byteorder::{ByteOrder, LittleEndian};

/// The number of point records of a file, and the numbers of those with return number 1 to 7.
///
/// A header has the numbers of returns 1 to 5 as `u32`, after the number of points at byte 107. A header of
/// LAS 1.4 has those of returns 1 to 15 as `u64` too, after the number of points at byte 247. A record of the
/// point data formats 0 to 3 has a return number of at most 7.
#[derive(Clone, Copy, Debug, PartialEq, Eq)]
pub struct Counts {
    /// All point records.
    pub points: u32,
    /// The point records of the returns 1 to 7, in this order.
    pub returns: [u32; 7],
}

impl Counts {
    ghost use Rattle.las_header.specs.Counting.{counts_bytes, long_counts_bytes, long_returns as returns_to_15};

    /// The 24 bytes of the counts at byte 107 of a header.
    pub fn to_bytes(&self) -> [u8; 24]
        ensures bytes { result ≡ counts_bytes self.now }
        ensures len { length result ≡ 24 }
    {
        let [first, second, third, fourth, fifth, _, _] = self.returns;
        short_bytes(self.points, [first, second, third, fourth, fifth])
    }

    /// The 128 bytes of the counts at byte 247 of a header of LAS 1.4. The numbers of the returns 8 to 15 are 0.
    pub fn to_long_bytes(&self) -> [u8; 128]
        ensures bytes { result ≡ long_counts_bytes self.now }
        ensures len { length result ≡ 128 }
    {
        long_bytes(self.points, self.long_returns())
    }

    // The numbers of the returns 1 to 15.
    pub(crate) fn long_returns(&self) -> [u64; 15]
        ensures { result ≡ returns_to_15 self.now }
    {
        let [first, second, third, fourth, fifth, sixth, seventh] = self.returns;
        [
            u64::from(first),
            u64::from(second),
            u64::from(third),
            u64::from(fourth),
            u64::from(fifth),
            u64::from(sixth),
            u64::from(seventh),
            0,
            0,
            0,
            0,
            0,
            0,
            0,
            0,
        ]
    }
}

/// The 24 bytes of a number of points and the numbers of points of the returns 1 to 5.
#[tactic(auto, unfolding(crate::specs::Counting::short_bytes))]
pub fn short_bytes(points: u32, returns: [u32; 5]) -> [u8; 24]
    ensures bytes { result ≡ short_bytes points returns }
    ensures len { length result ≡ 24 }
{
    let [first, second, third, fourth, fifth] = returns;
    let mut bytes = [0; 24];
    LittleEndian::write_u32_into(&[points, first, second, third, fourth, fifth], &mut bytes);
    bytes
}

/// The 128 bytes of a number of points and the numbers of points of the returns 1 to 15.
#[tactic(auto, unfolding(crate::specs::Counting::long_bytes))]
pub fn long_bytes(points: u32, returns: [u64; 15]) -> [u8; 128]
    ensures bytes { result ≡ long_bytes points returns }
    ensures len { length result ≡ 128 }
{
    let mut numbers = [0; 16];
    numbers[0] = u64::from(points);
    numbers[1..].copy_from_slice(&returns);
    let mut bytes = [0; 128];
    LittleEndian::write_u64_into(&numbers, &mut bytes);
    bytes
}
