//! Inputs that a crew works together.
ghost use Rattle.std.specs.Prelude.{◌≡◌, ℕ, ◌*◌, ◌<◌, ◌≤◌, length, All, Contains, OnErr, OnOk};
ghost use Rattle.laz_workers.specs.Numbers.{HoldsBelow};
ghost use Rattle.laz_workers.specs.Rooms.{lengths_of, numbers_in, rooms_of};
ghost use Rattle.laz_workers.specs.Run.{EveryInputFits};
ghost use Rattle.laz_workers.specs.Work.{HoldsAnswer, texts};

use crate::claims::Claims;
use crate::crew::Crew;
use crate::job::Job;
use crate::run::run_all;
use las_outside::Gate;
use std::alloc::{AllocError, Global};
use std::thread::Threads;

/// Works inputs by the whole crew, at most two for each hand, in one `run_all`. `Err` means out of memory: no input was
/// worked.
pub fn work_batch<R: Threads + Sync, J: Job, G: Gate>(
    rt: &R,
    alloc: Global,
    job: &J,
    gate: &G,
    inputs: &[Vec<u8>],
    crew: &mut Crew<J::Space>,
) -> Result<(), AllocError>
    requires hands { 0 < length crew.old }
    requires fits { EveryInputFits (J.fits job.now) (texts inputs.now) (lengths_of (rooms_of crew.old)) }
    requires suits { All (λ hand. J.suits job.now hand.space) crew.old }
    requires inputs { length inputs.now ≤ 2 * length crew.old }
    ensures numbers { OnOk result (HoldsBelow (length inputs.now) (numbers_in (rooms_of crew.new))) }
    ensures stand { OnOk result
        ((number : ℕ) → number < length inputs.now → Contains (numbers_in (rooms_of crew.new)) number) }
    ensures answers { OnOk result (All (HoldsAnswer (J.answer job.now) (texts inputs.now)) (rooms_of crew.new)) }
    // No input was worked.
    ensures unworked { OnErr result (crew.new ≡ crew.old) }
    ensures few { length inputs.now ≤ 16 }
    ensures hands { length crew.new ≡ length crew.old }
    ensures lengths { lengths_of (rooms_of crew.new) ≡ lengths_of (rooms_of crew.old) }
    ensures suits { All (λ hand. J.suits job.now hand.space) crew.new }
{
    let workers = crew.hands() as u32;
    let (claims, opening) = Claims::new(alloc, inputs.len() as u32, workers)?;
    let mut passes = Vec::new(alloc);
    claims.deal(opening, &mut passes)?;
    run_all(rt, job, gate, inputs, crew, &claims, &mut passes);
    Ok(())
}
