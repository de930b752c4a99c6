//! What one thread works with.
ghost use Rattle.std.specs.Prelude.{◌≡◌, Option};
ghost use Rattle.laz_workers.specs.Rooms.{emptied};

use crate::pass::Pass;
use crate::room::Room;

/// What one thread works with: a space of its own and two rooms.
#[derive(Drop)]
pub struct Hand<S> {
    pub(crate) space: S,
    pub(crate) first: Room,
    pub(crate) second: Room,
    // Set while inputs are worked, and at no other time.
    pub(crate) pass: Option<Pass>,
}
