//! The answers to a batch of chunks.
ghost use Rattle.std.specs.Prelude.{◌≡◌, ℕ, ◌<◌, ◌≤◌, None, IsSome};
ghost use Rattle.laz_workers.specs.Numbers.{HoldsBelow};
ghost use Rattle.laz_workers.specs.Rooms.{RoomSeen, StandsIn, answer_in, numbers_in, rooms_of};

use laz_chunk::Workspace;
use laz_workers::Crew;

/// How many of the first numbers below `batch` have an answer in the crew's rooms, up to the first that was refused.
pub(crate) fn good_answers(crew: &Crew<Workspace>, batch: usize) -> usize
    requires few { batch ≤ 16 }
    requires numbers { HoldsBelow batch (numbers_in (rooms_of crew.now)) }
    ensures within { result ≤ batch }
    ensures good { (k : ℕ) → k < result → (room : RoomSeen) × StandsIn (rooms_of crew.now) k room
        × IsSome (answer_in room.bytes room.held) }
    ensures bad { result < batch → (room : RoomSeen) × StandsIn (rooms_of crew.now) result room
        × (answer_in room.bytes room.held ≡ None) }
{
    for i in 0..batch {
        match crew.result(i as u32) {
            Some(_) => {}
            None => return i,
        }
    }
    batch
}
