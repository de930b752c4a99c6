//! Symbols of changes, whose bits mark the fields that are coded.
ghost use Rattle.std.specs.Prelude.{◌≡◌, ◌<◌};
ghost use Rattle.laz_integer.specs.Bytes.{has_bit};

/// Whether a bit of a symbol of changes is set. `bit` is its power of 2.
#[inline(always)]
#[tactic(auto, unfolding(crate::specs::Bytes::has_bit))]
pub fn has_bit(symbol: u32, bit: u32) -> bool
    requires { 0 < bit }
    ensures { result ≡ has_bit bit symbol }
{
    symbol / bit % 2 == 1
}
