//! The version of the library.

ghost use Rattle.std.specs.Prelude.{◌≡◌};

const VERSION: u32 = 10_200;

/// The version of the library: ten thousand times the major number, a hundred times the minor number, and the number of
/// the patch. 10,200 is 1.2.0. A program compares it with `LAZ_LIBRARY_VERSION_NUMBER` of the header that it was compiled
/// with. No memory is taken.
#[unsafe(no_mangle)]
pub extern "C" fn laz_c_version() -> u32
    ensures { result ≡ 10200 }
{
    VERSION
}
