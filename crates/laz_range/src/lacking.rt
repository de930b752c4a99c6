//! How many bytes a renormalisation takes.
ghost use Rattle.std.specs.Prelude.{◌≡◌, ◌*◌, ◌^◌, ◌<◌};
ghost use Rattle.laz_range.specs.Span.{bytes_for};

/// How many bytes a length lacks to reach 2^24.
#[inline(always)]
pub fn bytes_lacking(len: u32) -> u32
    requires { 0 < len }
    ensures lacking { result ≡ bytes_for len }
    ensures few { result < 4 }
    ensures fits { len * 256 ^ result < 2 ^ 32 }
{
    len.leading_zeros() / 8
}
