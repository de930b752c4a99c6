//! What a caller gets bytes by.

ghost use Rattle.std.specs.Prelude.{◌≡◌, ◌≤◌, length, take, drop};

/// Writes bytes to the front of `out`, and their number to `written`.
pub fn put(bytes: &[u8], out: &mut [u8], written: &mut usize)
    requires { length bytes.now ≤ length out.old }
    ensures bytes { take (length bytes.now) out.new ≡ bytes.now }
    ensures rest { drop (length bytes.now) out.new ≡ drop (length bytes.now) out.old }
    ensures count { written.new ≡ length bytes.now }
{
    let (front, _) = out.split_at_mut(bytes.len());
    front.copy_from_slice(bytes);
    *written = bytes.len();
}
