//! Where the chunks of a packed file are.
ghost use Rattle.std.specs.Prelude.{◌≡◌, ◌^◌, ◌<◌, length, slice_index_or, sum};
ghost use Rattle.laz_forms.specs.Pieces.{Piece};

use crate::reader::Reader;

/// How many bytes some chunks have, in all.
pub(crate) fn total(bytes: &[u32]) -> u64
    requires { sum bytes.now < 2 ^ 64 }
    ensures { result ≡ sum bytes.now }
{
    let mut total = 0;
    for count in bytes {
        total += u64::from(*count);
    }
    total
}

impl Reader {
    /// How many points chunk `i` of a packed file has, from 0.
    pub fn chunk_points(&self, i: u32) -> u32
        requires within { i < length self.now.pieces }
        ensures { (d : Piece) → result ≡ (slice_index_or self.now.pieces i d).count }
    {
        self.points[i as usize]
    }

    /// Where chunk `i` of a packed file begins, from 0, and its number of bytes. It adds up the bytes of the chunks
    /// before it.
    pub fn chunk_span(&self, i: u32) -> (u64, u32)
        requires within { i < length self.now.pieces }
        ensures start { (d : Piece) → result.0 ≡ (slice_index_or self.now.pieces i d).start }
        ensures size { (d : Piece) → result.1 ≡ (slice_index_or self.now.pieces i d).size }
    {
        let i = i as usize;
        let offset = self.head.bytes().len() as u64;
        (offset + 8 + total(&self.bytes[..i]), self.bytes[i])
    }
}
