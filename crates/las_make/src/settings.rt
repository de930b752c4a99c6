//! What decides the bytes of a made file.
ghost use Rattle.std.specs.Prelude.{◌≡◌};
ghost use Rattle.las_make.specs.Made.{IsInRange, made_length};

use las_header::size_of;

/// The most records that a file is made of: 10,000,000.
pub const MAX_POINTS: u32 = 10_000_000;

/// What decides the bytes of a made file.
#[derive(Clone, Copy, Debug, PartialEq, Eq)]
pub struct Settings {
    /// The number of point records: at most [`MAX_POINTS`].
    pub points: u32,
    /// The number that the generator of random numbers starts with.
    pub seed: u32,
    /// The point data format: 0 to 3.
    pub format: u8,
    /// The number of extra bytes of a record: at most 192.
    pub extra: u16,
}

// The length of a record of the file, in bytes.
pub(crate) fn record_length(settings: Settings) -> usize
    requires { IsInRange settings }
    ensures { result ≡ made_length settings }
{
    usize::from(size_of(settings.format)) + usize::from(settings.extra)
}
