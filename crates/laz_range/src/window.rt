//! The last eight bytes that an encoder has written, as a number: four that are final but for a carry, and four that
//! its next events may change.
ghost use Rattle.std.specs.Prelude.{◌≡◌, ◌+◌, ◌-◌, ◌*◌, ◌%◌, ◌<◌, ◌≤◌, ◌^◌, length, take};
ghost use Rattle.laz_range.specs.Span.{number, IsBytes};

use crate::number::number_of;

/// The number of the last four of the first `next` bytes, or of all of them if they are fewer.
pub fn last_four(bytes: &[u8], next: usize) -> u32
    requires { next ≤ length bytes.now }
    ensures number { result ≡ number (take next bytes.now) % 2 ^ 32 }
    ensures bytes { IsBytes bytes.now }
{
    number_of(&bytes[next.saturating_sub(4)..next])
}

/// Writes a number, most significant byte first.
#[cold]
#[inline(never)]
fn put_bytes(bytes: &mut [u8], value: u64)
    requires { value < 256 ^ length bytes.old }
    ensures { number bytes.new ≡ value }
{
    let mut rest = value;
    let mut i = bytes.len();
    while i > 0 {
        i -= 1;
        bytes[i] = (rest & 0xff) as u8;
        rest >>= 8;
    }
}

/// Writes a number of eight bytes.
#[inline(always)]
fn put_eight(bytes: &mut [u8], value: u64)
    requires { length bytes.old ≡ 8 }
    ensures { number bytes.new ≡ value }
{
    bytes[0] = (value >> 56) as u8;
    bytes[1] = (value >> 48 & 0xff) as u8;
    bytes[2] = (value >> 40 & 0xff) as u8;
    bytes[3] = (value >> 32 & 0xff) as u8;
    bytes[4] = (value >> 24 & 0xff) as u8;
    bytes[5] = (value >> 16 & 0xff) as u8;
    bytes[6] = (value >> 8 & 0xff) as u8;
    bytes[7] = (value & 0xff) as u8;
}

/// Writes the eight bytes around `next`: the four before it, or as many as there are, and the four from it on.
#[inline(always)]
pub fn put_window(bytes: &mut [u8], next: usize, window: u64)
    requires within { next + 4 ≤ length bytes.old }
    requires fits { next < 4 → window < 256 ^ (next + 4) }
    ensures number { number (take (next + 4) bytes.new) ≡ number (take (next - 4) bytes.old) * 2 ^ 64 + window }
    ensures bytes { IsBytes bytes.new }
{
    if next < 4 {
        put_bytes(&mut bytes[..next + 4], window);
        return;
    }
    put_eight(&mut bytes[next - 4..next + 4], window);
}
