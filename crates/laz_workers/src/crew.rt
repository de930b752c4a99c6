//! The hands of a crew.
ghost use Rattle.std.specs.Prelude.{◌≡◌, ◌+◌, ◌<◌, [], ◌∷◌, ◌++◌, length, ℕ, ◌≤◌, Option, List, All, Contains};
ghost use Rattle.std.specs.Prelude.{slice_index_or, IfOk, IfErr, option_copied};
ghost use Rattle.laz_workers.specs.Rooms.{RoomSeen, HandSeen, IsEmptyRoom, IsNew, StandsIn, answer_in, numbers_in};
ghost use Rattle.laz_workers.specs.Rooms.{rooms_of, lengths_of};

use crate::hand::Hand;
use crate::room::Room;
use std::alloc::{AllocError, Global};
use std::marker::Model;

/// Up to eight hands that work inputs, and what stands in their rooms.
#[derive(Drop)]
pub struct Crew<S> {
    pub(crate) hands: Vec<Hand<S>>,
}

impl<S> Model for Crew<S> {
    ghost use Rattle.std.specs.Prelude.{List};
    ghost use Rattle.laz_workers.specs.Rooms.{HandSeen};

    ghost Value = { List (HandSeen S) };

    ghost use Rattle.std.specs.Prelude.{◌≤◌, map, length};
    ghost use Rattle.laz_workers.specs.Shown.{shown};

    ghost view = { λ c. map shown c.hands.items };

    ghost invariant = { λ c. length c.hands.items ≤ 8 };
}

impl<S> Crew<S> {
    /// A crew with no hand.
    pub fn new(alloc: Global) -> Crew<S>
        ensures { result ≡ [] }
    {
        Crew {
            hands: Vec::new(alloc),
        }
    }

    /// Adds a hand with this space and two empty rooms of `room` bytes each. `Err` means out of memory: it gives the
    /// space back, and the crew is as before.
    pub fn add(&mut self, space: S, room: usize) -> Result<(), (S, AllocError)>
        requires { length self.old < 8 }
        ensures ok { IfOk result
            (λ _. (hand : HandSeen S) × (self.new ≡ self.old ++ hand ∷ []) × IsNew space room hand) }
        ensures lengths { IfOk result
            (λ _. lengths_of (rooms_of self.new) ≡ lengths_of (rooms_of self.old) ++ room ∷ room ∷ []) }
        ensures err { IfErr result (λ e. (self.new ≡ self.old) × (e.0 ≡ space)) }
    {
        let alloc = *self.hands.allocator();
        let Ok((first, second)) = two_rooms(alloc, room) else {
            return Err((space, AllocError));
        };
        if self.hands.reserve(1).is_err() {
            return Err((space, AllocError));
        }
        self.hands.push_reserved(Hand {
            space,
            first,
            second,
            pass: None,
        });
        Ok(())
    }

    /// How many hands there are: at most eight.
    pub fn hands(&self) -> usize
        ensures count { result ≡ length self.now }
        ensures few { length self.now ≤ 8 }
    {
        self.hands.len()
    }

    /// Lends the answer to the input of a number that stands in a room. `None` means that the job refused the input.
    ///
    /// After `run_all`, whose `answers` clause says what each room holds, it is the job's own answer to that input.
    pub fn result(&self, number: u32) -> Option<&[u8]>
        requires { Contains (numbers_in (rooms_of self.now)) number }
        ensures { (room : RoomSeen) × StandsIn (rooms_of self.now) number room
            × (option_copied result ≡ answer_in room.bytes room.held) }
    {
        for hand in &self.hands {
            if hand.first.holds(number) {
                return hand.first.answer();
            }
            if hand.second.holds(number) {
                return hand.second.answer();
            }
        }
        unreachable!()
    }
}

fn two_rooms(alloc: Global, size: usize) -> Result<(Room, Room), AllocError>
    ensures { IfOk result (λ r. IsEmptyRoom size r.0 × IsEmptyRoom size r.1) }
{
    Ok((Room::new(alloc, size)?, Room::new(alloc, size)?))
}
