//! Laws of conditions, for crates that join theirs to those of this crate.

ghost use Rattle.las_header.specs.Heads.{FrontIsFine, PackedIsFine};
ghost use Rattle.las_header.specs.Refusals.{FirstOfBoth, FrontDecides};

/// Laws: the first cause of two joined lists of conditions is that of the first list, or else that of the second; the
/// first 227 bytes of a file decide the conditions of its front; no condition of the front holds of a head within its
/// limits; and none of the others that this crate decides holds of the head of a packed file.
pub fn causes_by_steps()
    ensures first_of_both { FirstOfBoth }
    ensures front { FrontDecides }
    ensures front_is_fine { FrontIsFine }
    ensures packed_is_fine { PackedIsFine }
{}
