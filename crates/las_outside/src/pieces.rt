//! Texts that are put on a stream in pieces.
ghost use Rattle.std.specs.Prelude.{◌≡◌, map, OnOk, OnErr, ℕ, take};
ghost use Rattle.std.specs.List.{concat};
ghost use Rattle.las_outside.specs.Sinks.{PutLater, Puts, with_more, with_fault};

use crate::{Failed, Sink};

/// Puts pieces of a text one after another, up to the first that fails. It takes no memory.
///
/// After `Failed` a prefix of the text was put, and the count of faults is greater by one.
pub fn put_all<S: Sink>(sink: &mut S, pieces: &[&[u8]]) -> Result<(), Failed>
    ensures ok { OnOk result (S.seen sink.new
        ≡ with_more (S.seen sink.old) (concat (map (λ piece. piece.now) pieces.now))) }
    ensures err { OnErr result ((n : ℕ) × (S.seen sink.new
        ≡ with_fault (with_more (S.seen sink.old) (take n (concat (map (λ piece. piece.now) pieces.now)))))) }
    ensures puts { Puts (concat (map (λ piece. piece.now) pieces.now)) (S.seen sink.old) (S.seen sink.new) }
    ensures later { PutLater (S.seen sink.old) (S.seen sink.new) }
{
    for piece in pieces {
        sink.put(piece)?;
    }
    Ok(())
}
