//! What work is done with.
ghost use Rattle.std.specs.Prelude.{◌≡◌, ⊤};

use las_outside::Gate;
use std::alloc::{AllocError, Global};
use std::thread::Threads;

/// What a call that works in threads is given besides its work: the threads, the memory, the gate that workers pass,
/// and how many workers there are, 1 to 8.
pub struct Machine<'a, R: Threads + Sync, G: Gate> {
    pub rt: &'a R,
    pub alloc: Global,
    pub gate: &'a G,
    pub workers: u32,
}

impl<'a, R: Threads + Sync, G: Gate> Clone for Machine<'a, R, G> {
    ghost is_clone = { λ machine copy. copy ≡ machine };

    ghost is_infallible = { λ _. ⊤ };

    fn clone(&self) -> Result<Machine<'a, R, G>, AllocError> {
        Ok(*self)
    }
}

impl<'a, R: Threads + Sync, G: Gate> Copy for Machine<'a, R, G> {}
