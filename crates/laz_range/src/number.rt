//! The number that bytes spell.
ghost use Rattle.std.specs.Prelude.{◌≡◌, ◌≤◌, length};
ghost use Rattle.laz_range.specs.Span.{number};

/// The number that at most four bytes spell, most significant byte first.
pub fn number_of(bytes: &[u8]) -> u32
    requires { length bytes.now ≤ 4 }
    ensures { result ≡ number bytes.now }
{
    let mut value: u32 = 0;
    for byte in bytes {
        value = (value << 8) + *byte as u32;
    }
    value
}
