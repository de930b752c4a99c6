//! Two chunks are worked side by side.
use crate::cases::{World, holds};
use las_outside::Gate;
use std::alloc::AllocError;
use std::hint::spin_loop;
use std::process::Abort;
use std::sync::atomic::{AtomicU64, Ordering};
use std::thread::Threads;

// Holds number 0 until number 1 has entered, for 200,000,000 turns at most.
#[derive(Drop)]
struct Meeting {
    entered: AtomicU64,
    missed: AtomicU64,
}

impl Gate for Meeting {
    fn enter(&self, number: u32) {
        if number == 1 {
            self.entered.store(1, Ordering::SeqCst);
        }
        if number == 0 {
            for _ in 0..200_000_000 {
                if self.entered.load(Ordering::SeqCst) == 1 {
                    return;
                }
                spin_loop();
            }
            self.missed.store(1, Ordering::SeqCst);
        }
    }

    fn leave(&self, _number: u32) {}
}

// Two chunks meet in a run, which is done.
fn meet<R: Threads + Sync + AllocGlobal + Abort>(
    rt: &R,
    world: &mut World,
    line: &str,
) -> Result<(), AllocError> {
    let gate = Meeting {
        entered: AtomicU64::new(0),
        missed: AtomicU64::new(0),
    };
    let status = world.obey(rt, line, "", &gate)?;
    let is_met = status == 0 && gate.missed.load(Ordering::SeqCst) == 0;
    holds(is_met, "two chunks meet", line, rt);
    Ok(())
}

const INPUTS: &str = "\
head 2 0 0 512
records 2 0 0 0 512
put a
packed
put w
room b c d e f g m n
room p_0000000.las p_0000001.las
";

// Runs whose chunks are packed, or unpacked, by two workers: of each command, and both ways if it does both. `a` is plain,
// and `w` is packed in two chunks.
const RUNS: &str = "\
laszip -i a -o b -chunk_size 256 -cores 2
laszip -i w -o c -cores 2
las2las -i a -o d -olaz -chunk_size 256 -cores 2
las2las -i w -o e -cores 2
lasinfo -i w -cores 2
lassplit -i w -o p.las -split 256 -cores 2
lasmerge -i a -o f -olaz -chunk_size 256 -cores 2
lasmerge -i w -o g -cores 2
make -o m -z n -points 512 -seed 1 -chunk_size 256 -cores 2
";

// Two chunks meet in each run.
fn all_meet<R: Threads + Sync + AllocGlobal + Abort>(
    rt: &R,
    world: &mut World,
) -> Result<(), AllocError> {
    world.play(rt, "inputs", INPUTS, "")?;
    for line in RUNS.lines() {
        meet(rt, world, line)?;
    }
    world.play(
        rt,
        "outputs",
        "same b w\nsame c a\nsame d w\nsame e a\nsame g a",
        "",
    )
}

// The same in a world of its own.
fn meet_alone<R: Threads + Sync + AllocGlobal + Abort>(rt: &R) -> Result<(), AllocError> {
    let mut world = World::new(rt.alloc())?;
    all_meet(rt, &mut world)
}

#[test]
fn two_chunks_meet(rt: HostRuntime) {
    holds(
        meet_alone(&rt).is_ok(),
        "two chunks meet",
        "out of memory",
        &rt,
    );
}
