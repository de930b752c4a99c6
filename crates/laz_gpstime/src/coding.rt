//! A time coded.
ghost use Rattle.std.specs.Prelude.{◌≡◌, ◌<◌, ◌≤◌, ◌+◌, ◌%◌, ◌/◌, Option, IfSome};
ghost use Rattle.laz_gpstime.specs.Meanings.{New};
ghost use Rattle.laz_gpstime.specs.Sequences.{time_difference};
ghost use Rattle.laz_gpstime.specs.State.{state_of};
ghost use Rattle.laz_gpstime.specs.Slots.{CodesHere, IsTimeState, StandWith, after_coded, after_near, after_point};
ghost use Rattle.laz_gpstime.specs.Slots.{after_switch, difference_of, events_here, near_here, new_here, time_from};
ghost use Rattle.laz_gpstime.specs.Times.{is_near, nearest};
ghost use Rattle.laz_gpstime.specs.Times.{switch_events};

use crate::sequences::{Sequences, add_point, current, difference_word, open_sequence, switch_by};
use crate::symbols::{context, difference_symbol, new_symbol, predicted, same_symbol};
use crate::times::{Times, put_time_symbol, put_word};
use laz_range::Encoder;

// The high word of a time.
#[inline(always)]
pub(crate) fn high(time: u64) -> u32
    ensures { result ≡ time / 4294967296 }
{
    (time >> 32) as u32
}

// The low word of a time.
#[inline(always)]
pub(crate) fn low(time: u64) -> u32
    ensures { result ≡ time % 4294967296 }
{
    (time & 0xffff_ffff) as u32
}

// Codes a switch by `i`. A switch by 0 is none.
#[inline(always)]
fn put_switch(times: &mut Times, encoder: &mut Encoder, i: usize)
    requires state { IsTimeState (state_of times.old) }
    requires few { i < 4 }
    requires left { 3 ≤ encoder.old.left }
    ensures sequences { times.new.sequences ≡ after_switch times.old.sequences i }
    ensures state { IsTimeState (state_of times.new) }
    ensures used { encoder.old.left ≤ encoder.new.left + 3 }
    ensures codes { CodesHere (state_of times.old) (switch_events (difference_of (state_of times.old)) i)
        encoder.old encoder.new }
    ensures stands { StandWith (state_of times.old) (switch_events (difference_of (state_of times.old)) i)
        (state_of times.new) }
{
    if i == 0 {
        return;
    }
    let difference = current(&times.sequences).difference;
    put_time_symbol(times, encoder, new_symbol(difference) + i as u32);
    switch_by(&mut times.sequences, i);
}

// Codes a time that is near to the last one of its sequence.
#[inline(always)]
fn put_near(times: &mut Times, encoder: &mut Encoder, time: u64)
    requires state { IsTimeState (state_of times.old) }
    requires left { 15 ≤ encoder.old.left }
    ensures sequences { times.new.sequences ≡ after_near times.old.sequences time }
    ensures state { IsTimeState (state_of times.new) }
    ensures used { encoder.old.left ≤ encoder.new.left + 15 }
    ensures codes { CodesHere (state_of times.old) (near_here (state_of times.old) time) encoder.old encoder.new }
    ensures stands { StandWith (state_of times.old) (near_here (state_of times.old) time) (state_of times.new) }
{
    let slot = current(&times.sequences);
    let word = difference_word(slot.time, time);
    if word == 0 {
        let symbol = same_symbol(slot.difference);
        put_time_symbol(times, encoder, symbol);
        add_point(&mut times.sequences, symbol, time);
        return;
    }
    let symbol = difference_symbol(slot.difference, word);
    put_time_symbol(times, encoder, symbol);
    let pred = predicted(slot.difference, symbol);
    put_word(times, encoder, pred, word, context(slot.difference, symbol));
    add_point(&mut times.sequences, symbol, time);
}

// Codes a time that opens a sequence.
#[inline(always)]
fn put_new(times: &mut Times, encoder: &mut Encoder, time: u64)
    requires state { IsTimeState (state_of times.old) }
    requires left { 21 ≤ encoder.old.left }
    ensures sequences { times.new.sequences ≡ after_point times.old.sequences New time }
    ensures state { IsTimeState (state_of times.new) }
    ensures used { encoder.old.left ≤ encoder.new.left + 21 }
    ensures codes { CodesHere (state_of times.old) (new_here (state_of times.old) time) encoder.old encoder.new }
    ensures stands { StandWith (state_of times.old) (new_here (state_of times.old) time) (state_of times.new) }
{
    let slot = current(&times.sequences);
    put_time_symbol(times, encoder, new_symbol(slot.difference));
    put_word(times, encoder, high(slot.time), high(time), 8);
    encoder.raw(32, low(time));
    open_sequence(&mut times.sequences, time);
}

// Whether a time is near to the last one of the sequence `i` on.
#[inline(always)]
fn is_near(sequences: &Sequences, i: usize, time: u64) -> bool
    requires last { sequences.now.last < 4 }
    requires few { i < 4 }
    ensures { result ≡ is_near (time_difference (time_from sequences.now i) time) }
{
    let from = sequences.slots[(sequences.last + i) % 4].time;
    time.wrapping_sub(from).wrapping_add(0x8000_0000) < 0x1_0000_0000
}

// How many sequences on the first one is that a time is near to.
#[inline(always)]
fn nearest(sequences: &Sequences, time: u64) -> Option<usize>
    requires { sequences.now.last < 4 }
    ensures nearest { result ≡ nearest (time_from sequences.now) time }
    ensures few { IfSome result (λ i. i < 4) }
{
    for i in 0..4 {
        if is_near(sequences, i, time) {
            return Some(i);
        }
    }
    None
}

// Codes a time.
#[inline(always)]
pub(crate) fn put_time<M>(times: &mut Times, encoder: &mut Encoder, time: u64)
    requires state { IsTimeState (state_of times.old) }
    requires left { 21 ≤ encoder.old.left }
    ensures sequences { times.new.sequences
        ≡ after_coded times.old.sequences time (nearest (time_from times.old.sequences) time) }
    ensures state { IsTimeState (state_of times.new) }
    ensures used { encoder.old.left ≤ encoder.new.left + 21 }
    ensures codes { CodesHere (state_of times.old) (events_here (state_of times.old) time) encoder.old encoder.new }
    ensures stands { StandWith (state_of times.old) (events_here (state_of times.old) time) (state_of times.new) }
{
    match nearest(&times.sequences, time) {
        Some(i) => {
            put_switch(times, encoder, i);
            put_near(times, encoder, time);
        }
        None => put_new(times, encoder, time),
    }
}
