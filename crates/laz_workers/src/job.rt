//! The work that hands do on inputs.
ghost use Rattle.std.specs.Prelude.{◌≡◌, ℕ, List, Option, ◌≤◌, vec_capacity, vec_len};
ghost use Rattle.laz_workers.specs.Work.{Answers};

use crate::room::lengthen;

/// The work that hands do on inputs, each by itself.
///
/// A job has three meanings: which answers an input may have, as a relation; which inputs fit a room of which length;
/// and which spaces suit the job. A relation serves a job that decodes: that bytes hold something is "some spelling
/// exists", which no function of the bytes says.
pub trait Job: Sync {
    /// What a hand keeps from one input to the next.
    type Space: Send;

    /// Whether this is an answer to the input. `None` as an answer refuses the input.
    ghost answer: { Self → List ℕ → Option (List ℕ) → Type 0 };

    /// Whether an input's answer fits a room of this many bytes.
    ghost fits: { Self → List ℕ → ℕ → Type 0 };

    /// Whether the job can work with the space.
    ghost suits: { Self → Self.Space → Type 0 };

    /// Works one input. `Some(n)` leaves an answer of n bytes at the front of the room, and `None` refuses the input.
    /// The room keeps its length; its other bytes are unspecified.
    fn work(&self, input: &[u8], space: &mut Self::Space, room: &mut Vec<u8>) -> Option<usize>
        requires fits { fits self.now input.now (vec_len room.old) }
        requires suits { suits self.now space.old }
        ensures answer { Answers (answer self.now input.now) result room.new.items }
        ensures room { vec_len room.new ≡ vec_len room.old }
        ensures suits { suits self.now space.new };

    /// The same as [`work`](Self::work), in a room that may be shorter at first. It is lengthened as far as is needed,
    /// and to no more than `size` bytes. There is capacity for that many.
    fn work_within(
        &self,
        input: &[u8],
        space: &mut Self::Space,
        room: &mut Vec<u8>,
        size: usize,
    ) -> Option<usize>
        requires fits { fits self.now input.now size }
        requires suits { suits self.now space.old }
        requires within { vec_len room.old ≤ size }
        requires capacity { size ≤ vec_capacity room.old }
        ensures answer { Answers (answer self.now input.now) result room.new.items }
        ensures within { vec_len room.new ≤ size }
        ensures capacity { size ≤ vec_capacity room.new }
        ensures suits { suits self.now space.new }
    {
        lengthen(room, size);
        self.work(input, space, room)
    }
}
