//! A crew that works inputs by claimed number, each hand in a thread of its own.
ghost use Rattle.std.specs.Prelude.{◌≡◌, ℕ, ◌+◌, ◌-◌, ◌*◌, ◌<◌, ◌≤◌, false, true, option_to_list, [], ◌∷◌, All, length};
ghost use Rattle.std.specs.Prelude.{vec_len, vec_capacity, slice_index_or, map, flat_map, IsSome, Some, Contains};
ghost use Rattle.laz_workers.specs.Numbers.{HoldsBelow};
ghost use Rattle.laz_workers.specs.Shown.{shown};
ghost use Rattle.laz_workers.specs.declared.held.Held.TheVariants.{Empty};
ghost use Rattle.laz_workers.specs.declared.hand.Hand.{Hand};
ghost use Rattle.laz_workers.specs.Seen.{PassSeen, Drew};
ghost use Rattle.laz_workers.specs.Rooms.{number_of, numbers_in, rooms_of, lengths_of};
ghost use Rattle.laz_workers.specs.Run.{under, IsReady, Worked, HoldsPass, Dealt, EveryInputFits, IsJoined, equipped};
ghost use Rattle.laz_workers.specs.Run.{drawn_by};
ghost use Rattle.laz_workers.specs.Work.{HoldsAnswer, texts};

use crate::claims::Claims;
use crate::crew::Crew;
use crate::hand::Hand;
use crate::held::Held;
use crate::job::Job;
use crate::pass::Pass;
use crate::room::Room;
use las_outside::Gate;
use std::thread;
use std::thread::Threads;

// Works the input of this number into the room, between the gate's two calls.
fn work_number<J: Job, G: Gate>(
    job: &J,
    gate: &G,
    inputs: &[Vec<u8>],
    number: u32,
    space: &mut J::Space,
    room: &mut Room,
)
    requires number { number < length inputs.now }
    requires fits { All (λ input. J.fits job.now input (length room.old.bytes)) (texts inputs.now) }
    requires suits { J.suits job.now space.old }
    ensures stands { number_of room.new.held ≡ Some number }
    ensures answered { HoldsAnswer (J.answer job.now) (texts inputs.now) room.new }
    ensures size { length room.new.bytes ≡ length room.old.bytes }
    ensures suits { J.suits job.now space.new }
{
    gate.enter(number);
    let size = room.size;
    let answer = job.work_within(&inputs[number as usize], space, &mut room.bytes, size);
    room.held = match answer {
        Some(length) => Held::Full { number, length },
        None => Held::Refused { number },
    };
    gate.leave(number);
}

// Draws one number and, if it is below the total, works its input into the room.
fn fill<J: Job, G: Gate>(
    job: &J,
    gate: &G,
    inputs: &[Vec<u8>],
    claims: &Claims,
    pass: &mut Pass,
    space: &mut J::Space,
    room: &mut Room,
)
    requires pass { (pass.old.claims ≡ claims.now) × (pass.old.spent ≡ false) }
    requires inputs { length inputs.now ≡ claims.now.total }
    requires empty { room.old.held ≡ Empty }
    requires fits { All (λ input. J.fits job.now input (length room.old.bytes)) (texts inputs.now) }
    requires suits { J.suits job.now space.old }
    ensures drawn { (number : ℕ) × Drew pass.old pass.new number
        × (option_to_list (number_of room.new.held) ≡ under claims.now.total (number ∷ [])) }
    ensures answered { HoldsAnswer (J.answer job.now) (texts inputs.now) room.new }
    ensures size { length room.new.bytes ≡ length room.old.bytes }
    ensures suits { J.suits job.now space.new }
{
    let Some(number) = claims.claim(pass) else {
        return;
    };
    work_number(job, gate, inputs, number, space, room);
}

// The work of one hand: it claims while it has an empty room and its pass is not spent, and works the input of each
// number that it drew below the total. Its clause is all that the fan-out needs.
fn work_hand<J: Job, G: Gate>(
    job: &J,
    gate: &G,
    inputs: &[Vec<u8>],
    claims: &Claims,
    hand: &mut Hand<J::Space>,
)
    requires inputs { length inputs.now ≡ claims.now.total }
    requires ready { IsReady claims.now (J.fits job.now) (texts inputs.now) (J.suits job.now) hand.old }
    ensures { Worked claims.now (J.answer job.now) (texts inputs.now) (J.suits job.now) hand.old hand.new }
{
    let Some(mut pass) = hand.pass.take() else {
        return;
    };
    let Hand {
        space,
        first,
        second,
        ..
    } = hand;
    fill(job, gate, inputs, claims, &mut pass, space, first);
    if !pass.is_spent() {
        fill(job, gate, inputs, claims, &mut pass, space, second);
    }
    hand.pass = Some(pass);
}

// A hand with empty rooms and this pass.
fn equip<S>(hand: &mut Hand<S>, pass: Pass)
    ensures { hand.new ≡ equipped hand.old pass }
{
    hand.first.clear();
    hand.second.clear();
    hand.pass = Some(pass);
}

// Empties all rooms, and gives pass h to hand h.
fn equip_all<S>(hands: &mut [Hand<S>], passes: &mut Vec<Pass>)
    requires { vec_len passes.old ≡ length hands.old }
    ensures hands { (k : ℕ) (d : Hand S) (e : PassSeen) → k < length hands.old
        → slice_index_or hands.new k d ≡ equipped (slice_index_or hands.old k d) (slice_index_or passes.old.items k e) }
    ensures passes { (vec_len passes.new ≡ 0) × (vec_capacity passes.new ≡ vec_capacity passes.old) }
{
    while let Some(pass) = passes.pop() {
        equip(&mut hands[passes.len()], pass);
    }
}

// Works inputs by these hands, split among at most `threads` threads, one of them the caller's. Hands that share a
// thread, or that no thread can be started for, work one after another.
fn work_in_threads<R: Threads + Sync, J: Job, G: Gate>(
    rt: &R,
    job: &J,
    gate: &G,
    inputs: &[Vec<u8>],
    claims: &Claims,
    hands: &mut [Hand<J::Space>],
    threads: usize,
)
    requires threads { 0 < threads }
    requires inputs { length inputs.now ≡ claims.now.total }
    requires ready { All (IsReady claims.now (J.fits job.now) (texts inputs.now) (J.suits job.now)) hands.old }
    ensures { (k : ℕ) (d : Hand J.Space) → k < length hands.old
        → Worked claims.now (J.answer job.now) (texts inputs.now) (J.suits job.now) (slice_index_or hands.old k d)
        (slice_index_or hands.new k d) }
{
    thread::for_each_mut(
        rt,
        hands,
        threads,
        &|_, hand: &mut Hand<J::Space>|
            requires { (length inputs.now ≡ claims.now.total)
                × IsReady claims.now (J.fits job.now) (texts inputs.now) (J.suits job.now) hand.old }
        { work_hand(job, gate, inputs, claims, hand) },
    );
}

// Works the inputs by all hands: first by one a thread, as many as there are inputs and at least one, and then by the
// others in the caller's thread, which find no input left.
fn fan_out<R: Threads + Sync, J: Job, G: Gate>(
    rt: &R,
    job: &J,
    gate: &G,
    inputs: &[Vec<u8>],
    claims: &Claims,
    hands: &mut [Hand<J::Space>],
)
    requires hands { 0 < length hands.old }
    requires inputs { length inputs.now ≡ claims.now.total }
    requires ready { All (IsReady claims.now (J.fits job.now) (texts inputs.now) (J.suits job.now)) hands.old }
    ensures { (k : ℕ) (d : Hand J.Space) → k < length hands.old
        → Worked claims.now (J.answer job.now) (texts inputs.now) (J.suits job.now) (slice_index_or hands.old k d)
        (slice_index_or hands.new k d) }
{
    let threads = inputs.len().max(1).min(hands.len());
    let (busy, idle) = hands.split_at_mut(threads);
    work_in_threads(rt, job, gate, inputs, claims, busy, threads);
    work_in_threads(rt, job, gate, inputs, claims, idle, 1);
}

fn take_pass<S>(hand: &mut Hand<S>) -> Pass
    requires { IsSome hand.old.pass }
    ensures pass { hand.old.pass ≡ Some result }
    ensures hand { hand.new ≡ record hand.old { pass = None } }
{
    let Some(pass) = hand.pass.take() else {
        unreachable!()
    };
    pass
}

// Takes the passes out of the hands and joins them, in the order of the hands, to the first, which is the opening one.
fn join_all<S>(claims: &Claims, hands: &mut [Hand<S>]) -> Pass
    requires hands { 0 < length hands.old }
    requires passes { (k : ℕ) (d : Hand S) → k < length hands.old
        → HoldsPass claims.now (length hands.old) k (slice_index_or hands.old k d) }
    ensures opening { (result.claims ≡ claims.now) × (result.opens ≡ true) × (result.out ≡ 0) }
    ensures drawn { result.drawn ≡ flat_map drawn_by hands.old }
    ensures whole { (word : ℕ) × HoldsBelow word result.drawn }
    ensures hands { map shown hands.new ≡ map shown hands.old }
{
    let mut opening = take_pass(&mut hands[0]);
    for h in 1..hands.len() {
        let pass = take_pass(&mut hands[h]);
        claims.join(&mut opening, pass);
    }
    opening
}

// Works all inputs by these hands, and gives the opening pass, to which all others were joined.
fn work_all<R: Threads + Sync, J: Job, G: Gate>(
    rt: &R,
    job: &J,
    gate: &G,
    inputs: &[Vec<u8>],
    claims: &Claims,
    passes: &mut Vec<Pass>,
    hands: &mut [Hand<J::Space>],
) -> Pass
    requires hands { 0 < length hands.old }
    requires fits { EveryInputFits (J.fits job.now) (texts inputs.now) (lengths_of (rooms_of (map shown hands.old))) }
    requires suits { All (λ hand. J.suits job.now hand.space) (map shown hands.old) }
    requires passes { (vec_len passes.old ≡ length hands.old) × Dealt claims.now passes.old.items }
    requires inputs { (length inputs.now ≡ claims.now.total) × (length inputs.now ≤ 2 * length hands.old) }
    ensures lengths { lengths_of (rooms_of (map shown hands.new)) ≡ lengths_of (rooms_of (map shown hands.old)) }
    ensures suits { All (λ hand. J.suits job.now hand.space) (map shown hands.new) }
    ensures answers { All (HoldsAnswer (J.answer job.now) (texts inputs.now)) (rooms_of (map shown hands.new)) }
    ensures numbers { HoldsBelow claims.now.total (numbers_in (rooms_of (map shown hands.new))) }
    ensures joined { IsJoined claims.now (rooms_of (map shown hands.new)) result }
    ensures passes { (vec_len passes.new ≡ 0) × (vec_capacity passes.new ≡ vec_capacity passes.old) }
{
    equip_all(hands, passes);
    fan_out(rt, job, gate, inputs, claims, hands);
    join_all(claims, hands)
}

/// Works all inputs by the crew's hands, and joins their passes.
///
/// There are as many passes as hands and none has drawn, as `Claims::deal` leaves them. There are as many inputs as the
/// claims have numbers, at most two for each hand and so at most 16. Every input fits every room, and every hand's
/// space suits the job.
///
/// The rooms are emptied first, and pass h goes to hand h. Each hand then claims while it has an empty room and its
/// pass is not spent, and works the input of each number that it draws below the total, between the gate's `enter` and
/// `leave` of that number. Which hand works which input depends on the schedule; the answers stand by number all the
/// same. No more threads are started than there are inputs.
///
/// Nothing is refused, and there is no answer for out of memory: if a thread cannot be started, the caller's thread
/// does its work. At the end the threads have returned, and `passes` holds the opening pass alone, to which the others
/// were joined.
pub fn run_all<R: Threads + Sync, J: Job, G: Gate>(
    rt: &R,
    job: &J,
    gate: &G,
    inputs: &[Vec<u8>],
    crew: &mut Crew<J::Space>,
    claims: &Claims,
    passes: &mut Vec<Pass>,
)
    requires hands { 0 < length crew.old }
    requires fits { EveryInputFits (J.fits job.now) (texts inputs.now) (lengths_of (rooms_of crew.old)) }
    requires suits { All (λ hand. J.suits job.now hand.space) crew.old }
    requires passes { (vec_len passes.old ≡ length crew.old) × Dealt claims.now passes.old.items }
    requires inputs { (length inputs.now ≡ claims.now.total) × (length inputs.now ≤ 2 * length crew.old) }

    // Each number below the total stands in exactly one room, with the job's answer or as refused.
    ensures numbers { HoldsBelow claims.now.total (numbers_in (rooms_of crew.new)) }
    ensures stand { (number : ℕ) → number < claims.now.total → Contains (numbers_in (rooms_of crew.new)) number }
    ensures answers { All (HoldsAnswer (J.answer job.now) (texts inputs.now)) (rooms_of crew.new) }

    // `passes` holds the opening pass alone, to which the others were joined, and keeps its capacity.
    ensures passes { (pass : PassSeen) × (passes.new.items ≡ pass ∷ []) × IsJoined claims.now (rooms_of crew.new) pass }
    ensures capacity { vec_capacity passes.new ≡ vec_capacity passes.old }

    // The number of hands, at most eight, and the length of each room stay, so that at most 16 inputs are worked at
    // once.
    ensures hands { length crew.new ≡ length crew.old }
    ensures few { length inputs.now ≤ 16 }
    ensures lengths { lengths_of (rooms_of crew.new) ≡ lengths_of (rooms_of crew.old) }
    ensures suits { All (λ hand. J.suits job.now hand.space) crew.new }
{
    let opening = work_all(
        rt,
        job,
        gate,
        inputs,
        claims,
        passes,
        crew.hands.as_mut_slice(),
    );
    passes.push_reserved(opening);
}
