//! Numbers by their place in a list of bytes.

ghost use Rattle.std.specs.Prelude.{◌≡◌, ◌≤◌, ◌+◌, length};
ghost use Rattle.byteorder.specs.Endian.{little_bytes, little_number};
ghost use Rattle.las_header.specs.Numbers.{number_at, with_number_at};

use byteorder::{ByteOrder, LittleEndian};

/// The number in the two bytes from `at` on.
#[tactic(auto, unfolding(crate::specs::Numbers::number_at))]
pub fn u16_at(bytes: &[u8], at: usize) -> u16
    requires { at + 2 ≤ length bytes.now }
    ensures { result ≡ number_at 2 at bytes.now }
{
    LittleEndian::read_u16(&bytes[at..at + 2])
}

/// The number in the four bytes from `at` on.
#[tactic(auto, unfolding(crate::specs::Numbers::number_at))]
pub fn u32_at(bytes: &[u8], at: usize) -> u32
    requires { at + 4 ≤ length bytes.now }
    ensures { result ≡ number_at 4 at bytes.now }
{
    LittleEndian::read_u32(&bytes[at..at + 4])
}

/// The number in the eight bytes from `at` on.
#[tactic(auto, unfolding(crate::specs::Numbers::number_at))]
pub fn u64_at(bytes: &[u8], at: usize) -> u64
    requires { at + 8 ≤ length bytes.now }
    ensures { result ≡ number_at 8 at bytes.now }
{
    LittleEndian::read_u64(&bytes[at..at + 8])
}

/// Writes a number into the two bytes from `at` on.
pub fn set_u16_at(bytes: &mut [u8], at: usize, value: u16)
    requires { at + 2 ≤ length bytes.old }
    ensures { bytes.new ≡ with_number_at 2 at value bytes.old }
{
    LittleEndian::write_u16(&mut bytes[at..at + 2], value);
}

/// Writes a number into the four bytes from `at` on.
pub fn set_u32_at(bytes: &mut [u8], at: usize, value: u32)
    requires { at + 4 ≤ length bytes.old }
    ensures { bytes.new ≡ with_number_at 4 at value bytes.old }
{
    LittleEndian::write_u32(&mut bytes[at..at + 4], value);
}

/// Writes a number into the eight bytes from `at` on.
pub fn set_u64_at(bytes: &mut [u8], at: usize, value: u64)
    requires { at + 8 ≤ length bytes.old }
    ensures { bytes.new ≡ with_number_at 8 at value bytes.old }
{
    LittleEndian::write_u64(&mut bytes[at..at + 8], value);
}

/// A law: bytes that are read as one number and written again are the same bytes, however many they
/// are. `byteorder` states the other way, that a number which was written is read back.
pub fn read_again(bytes: &[u8])
    ensures { little_bytes (length bytes.now) (little_number (length bytes.now) bytes.now) ≡ bytes.now }
{}
