//! One added to the number that bytes spell.
ghost use Rattle.std.specs.Prelude.{◌≡◌, ◌+◌, ◌-◌, ◌<◌, ◌≤◌, ◌^◌, length, take};
ghost use Rattle.laz_range.specs.Span.{number};

/// Adds one to the number that the bytes spell, most significant byte first.
// Carries that run so far are rare, so they are kept out of line.
#[cold]
#[inline(never)]
fn carry(written: &mut [u8])
    requires { number written.old + 1 < 256 ^ length written.old }
    ensures { number written.new ≡ number written.old + 1 }
{
    let mut i = written.len() - 1;
    while written[i] == 255 {
        written[i] = 0;
        i -= 1;
    }
    written[i] += 1;
}

/// Adds one to the number that the first `end` bytes spell.
#[inline(always)]
pub fn carry_into(bytes: &mut [u8], end: usize)
    requires within { end ≤ length bytes.old }
    requires fits { number (take end bytes.old) + 1 < 256 ^ end }
    ensures { number (take end bytes.new) ≡ number (take end bytes.old) + 1 }
{
    carry(&mut bytes[..end]);
}
