//! Crews that work a few inputs while a gate watches them and holds some of them.

ghost use Rattle.std.specs.Prelude.{◌≡◌, ℕ, ◌*◌, ◌<◌, ◌≤◌, IfOk, length, vec_len, Contains};
ghost use Rattle.laz_workers.specs.Rooms.{rooms_of, numbers_in};

use crate::samples::{none_is, numbers};
use las_outside::Gate;
use laz_workers::{Crew, Job, work_batch};
use std::alloc::{AllocError, Global};
use std::hint::spin_loop;
use std::sync::atomic::{AtomicU64, Ordering};
use std::thread::Threads;

// Which numbers a gate holds: those below `below`, each until so many have entered and so many have left, for so many
// turns at most.
#[derive(Clone, Copy)]
struct Hold {
    below: u32,
    entered: u64,
    left: u64,
    turns: u32,
}

// A gate that holds some numbers, and counts the steps of each: it enters, is worked and leaves.
#[derive(Drop)]
struct Watch {
    hold: Hold,
    steps: Vec<AtomicU64>,
    entered: AtomicU64,
    left: AtomicU64,
    // Steps out of order.
    wrong: AtomicU64,
    // Numbers that were held to the last turn.
    missed: AtomicU64,
}

fn watch_of(alloc: Global, numbers: usize, hold: Hold) -> Result<Watch, AllocError> {
    let mut steps = Vec::new(alloc);
    for _ in 0..numbers {
        steps.push(AtomicU64::new(0))?;
    }
    Ok(Watch {
        hold,
        steps,
        entered: AtomicU64::new(0),
        left: AtomicU64::new(0),
        wrong: AtomicU64::new(0),
        missed: AtomicU64::new(0),
    })
}

impl Watch {
    // Counts a step of a number, before which it had made so many.
    fn step(&self, number: u32, before: u64) {
        match self.steps.get(number as usize) {
            Some(steps) if steps.fetch_add(1, Ordering::SeqCst) == before => {}
            _ => {
                self.wrong.fetch_add(1, Ordering::SeqCst);
            }
        }
    }

    fn wait(&self) {
        for _ in 0..self.hold.turns {
            if self.entered.load(Ordering::SeqCst) >= self.hold.entered
                && self.left.load(Ordering::SeqCst) >= self.hold.left
            {
                return;
            }
            spin_loop();
        }
        self.missed.fetch_add(1, Ordering::SeqCst);
    }

    // Whether each number entered once, was worked once and then left once.
    fn saw_each_once(&self) -> bool {
        for steps in &self.steps {
            if steps.load(Ordering::SeqCst) != 3 {
                return false;
            }
        }
        self.wrong.load(Ordering::SeqCst) == 0
    }
}

impl Gate for Watch {
    fn enter(&self, number: u32) {
        self.step(number, 0);
        self.entered.fetch_add(1, Ordering::SeqCst);
        if number < self.hold.below {
            self.wait();
        }
    }

    fn leave(&self, number: u32) {
        self.step(number, 2);
        self.left.fetch_add(1, Ordering::SeqCst);
    }
}

// An input is its number and a byte. A byte below 200 is answered with the next byte, and others are refused.
#[derive(Drop)]
struct Next<'a> {
    watch: &'a Watch,
}

impl<'a> Job for Next<'a> {
    type Space = ();

    ghost answer = { λ _ _ _. Unit {0} };

    ghost fits = { λ _ _ _. Unit {0} };

    ghost suits = { λ _ _. Unit {0} };

    fn work(&self, input: &[u8], _space: &mut (), room: &mut Vec<u8>) -> Option<usize> {
        let [number, byte] = input else {
            return None;
        };
        self.watch.step(u32::from(*number), 1);
        if *byte >= 200 || room.is_empty() {
            return None;
        }
        room[0] = byte.wrapping_add(1);
        Some(1)
    }
}

// A crew of `hands` hands, each room of one byte.
fn crew_of(alloc: Global, hands: u32) -> Result<Crew<()>, AllocError>
    requires { hands ≤ 8 }
    ensures { IfOk result (λ c. length c ≡ hands) }
{
    let mut crew = Crew::new(alloc);
    for _hand in 0..hands {
        if crew.add((), 1).is_err() {
            return Err(AllocError);
        }
    }
    Ok(crew)
}

fn inputs_of(alloc: Global, bytes: &[u32]) -> Result<Vec<Vec<u8>>, AllocError>
    ensures { IfOk result (λ v. vec_len v ≡ length bytes.now) }
{
    let mut inputs = Vec::new(alloc);
    let mut number = 0u8;
    for byte in bytes {
        inputs.push(vec![in alloc; number, (*byte).min(255) as u8]?)?;
        number = number.wrapping_add(1);
    }
    Ok(inputs)
}

// Whether each input's answer stands under its number.
fn stands_by_number(crew: &Crew<()>, bytes: &[u32]) -> bool
    requires stands { (n : ℕ) → n < length bytes.now → Contains (numbers_in (rooms_of crew.now)) n }
    requires few { length bytes.now ≤ 16 }
{
    for i in 0..bytes.len() {
        let right = match crew.result(i as u32) {
            Some(answer) => bytes[i] < 200
                && answer == [(bytes[i] as u8).wrapping_add(1)].as_slice(),
            None => bytes[i] >= 200,
        };
        if !right {
            return false;
        }
    }
    true
}

// Whether a crew works each byte once inside the gate, and its answer stands under its number.
fn works<R: Threads + Sync>(
    rt: &R,
    alloc: Global,
    watch: &Watch,
    crew: &mut Crew<()>,
    inputs: &[Vec<u8>],
    bytes: &[u32],
) -> Result<bool, AllocError>
    requires hands { 0 < length crew.old }
    requires inputs { length inputs.now ≤ 2 * length crew.old }
    requires bytes { length bytes.now ≡ length inputs.now }
{
    work_batch(rt, alloc, &Next { watch }, watch, inputs, crew)?;
    Ok(stands_by_number(crew, bytes) && watch.saw_each_once())
}

// The same of a crew of so many hands.
fn is_worked<R: Threads + Sync>(
    rt: &R,
    alloc: Global,
    watch: &Watch,
    hands: u32,
    bytes: &[u32],
) -> Result<bool, AllocError>
    requires hands { (0 < hands) × (hands ≤ 8) }
    requires few { length bytes.now ≤ 2 * hands }
{
    let inputs = inputs_of(alloc, bytes)?;
    let mut crew = crew_of(alloc, hands)?;
    works(rt, alloc, watch, &mut crew, &inputs, bytes)
}

// `NAME = HANDS BELOW ENTERED LEFT TURNS MISSED BYTES`: a crew of 1 to 8 hands works at most two bytes for each, while a
// gate holds the numbers below BELOW, each until ENTERED have entered and LEFT have left, for TURNS turns at most. MISSED
// of them are held to the last turn.
//
// In the first row number 0 is held for a thousand turns, since no input leaves twice, and some inputs are refused. In
// the one of a free hand, one hand is held at number 0, and the other works both other inputs: numbers that were dealt to
// hands before the fan-out would leave one of them with the held hand.
const ROWS: &str = "\
sixteen inputs stand by number = 8 1 0 17 1000 1 3 250 5 199 200 0 1 2 77 255 100 9 8 7 6 5
one hand works two inputs = 1 0 0 0 200000000 0 201 41
0 inputs and 1 hands = 1 0 0 0 200000000 0
1 inputs and 2 hands = 2 0 0 0 200000000 0 1
2 inputs and 3 hands = 3 0 0 0 200000000 0 1 2
3 inputs and 4 hands = 4 0 0 0 200000000 0 1 2 3
4 inputs and 5 hands = 5 0 0 0 200000000 0 1 2 3 204
5 inputs and 6 hands = 6 0 0 0 200000000 0 1 2 3 204 5
6 inputs and 7 hands = 7 0 0 0 200000000 0 1 2 3 204 5 6
7 inputs and 8 hands = 8 0 0 0 200000000 0 1 2 3 204 5 6 7
a free hand goes on = 2 1 0 2 200000000 0 10 20 30
four inputs meet by four hands = 4 4 4 0 200000000 0 1 2 3 4
four inputs meet by eight hands = 8 4 4 0 200000000 0 1 2 3 4
";

// Whether a crew works bytes, while a gate watches it.
fn crew_is_watched<R: Threads + Sync>(
    rt: &R,
    alloc: Global,
    watch: &Watch,
    hands: u32,
    bytes: &[u32],
) -> Result<bool, AllocError> {
    if hands == 0 || hands > 8 || bytes.len() > 2 * hands as usize {
        return Ok(false);
    }
    is_worked(rt, alloc, watch, hands, bytes)
}

// Whether a crew works as the numbers of a row say.
fn crew_works<R: Threads + Sync>(
    rt: &R,
    alloc: Global,
    numbers: &[u32],
) -> Result<bool, AllocError> {
    let [hands, below, entered, left, turns, missed, bytes @ ..] = numbers else {
        return Ok(false);
    };
    let hold = Hold {
        below: *below,
        entered: u64::from(*entered),
        left: u64::from(*left),
        turns: *turns,
    };
    let watch = watch_of(alloc, bytes.len(), hold)?;
    let is_right = crew_is_watched(rt, alloc, &watch, *hands, bytes).unwrap_or(false);
    Ok(is_right && watch.missed.load(Ordering::SeqCst) == u64::from(*missed))
}

// Whether a crew works as its row says.
fn row_is_so<R: Threads + Sync>(rt: &R, alloc: Global, row: &str) -> bool {
    let (_name, said) = row.split_once(" = ").unwrap_or((row, ""));
    let mut room = [0; 24];
    crew_works(rt, alloc, numbers(&mut room, said)).unwrap_or(false)
}

// The first row whose crew does not, or none.
fn first_wrong<R: Threads + Sync>(rt: &R, alloc: Global) -> &'static str {
    for row in ROWS.lines() {
        if !row_is_so(rt, alloc, row) {
            return row;
        }
    }
    ""
}

// Two hands work side by side: number 0 is held until both have entered.
#[test]
fn two_hands_meet(rt: HostRuntime) {
    let row = "two hands meet = 2 1 2 0 200000000 0 10 20";
    none_is(
        if row_is_so(&rt, rt.alloc(), row) {
            ""
        } else {
            row
        },
        &rt,
    );
}

#[test]
fn crews_work(rt: HostRuntime) {
    none_is(first_wrong(&rt, rt.alloc()), &rt);
}
