//! The four sequences of times.
ghost use Rattle.std.specs.Prelude.{◌≡◌, ◌+◌, ◌%◌, ◌<◌, ◌≤◌, length};
ghost use Rattle.laz_gpstime.specs.Meanings.{New, meaning};
ghost use Rattle.laz_gpstime.specs.Sequences.{time_difference};
ghost use Rattle.laz_gpstime.specs.Slots.{after_switch, next_slot, slot_at, after_point};
ghost use Rattle.laz_gpstime.specs.Times.{model_of, new_symbol};

use crate::limits::{MULTI, MULTI_MINUS};

/// What is kept of a sequence: its last time, its difference, and how many differences were extreme.
#[derive(Clone, Copy)]
pub struct Slot {
    pub time: u64,
    pub difference: u32,
    pub extremes: u32,
}

/// The slots, which of them is that of the latest point, and which one was opened last.
#[derive(Drop)]
pub struct Sequences {
    pub slots: [Slot; 4],
    pub last: usize,
    pub next: usize,
}

// The low word of the difference of two times.
#[inline(always)]
pub(crate) fn difference_word(from: u64, to: u64) -> u32
    ensures { result ≡ time_difference from to % 4294967296 }
{
    (to.wrapping_sub(from) & 0xffff_ffff) as u32
}

// Updates a slot by a point of its sequence that opens none.
#[inline(always)]
pub(crate) fn update_slot(slot: &mut Slot, symbol: u32, time: u64)
    requires symbol { symbol < new_symbol slot.old.difference }
    requires extremes { slot.old.extremes < 4 }
    ensures { slot.new ≡ next_slot slot.old (meaning (model_of slot.old.difference) symbol) time }
{
    let word = difference_word(slot.time, time);
    slot.time = time;
    if slot.difference == 0 {
        if symbol == 1 {
            slot.difference = word;
            slot.extremes = 0;
        }
        return;
    }
    if symbol == 1 {
        slot.extremes = 0;
    } else if symbol == 0 || symbol == MULTI || symbol == MULTI + MULTI_MINUS {
        slot.extremes += 1;
        if slot.extremes == 4 {
            slot.difference = word;
            slot.extremes = 0;
        }
    }
}

// The slot of the latest point's sequence.
#[inline(always)]
pub(crate) fn current(sequences: &Sequences) -> Slot
    requires { sequences.now.last < 4 }
    ensures { result ≡ slot_at sequences.now sequences.now.last }
{
    sequences.slots[sequences.last]
}

// Switches `i` sequences on.
#[inline(always)]
pub(crate) fn switch_by(sequences: &mut Sequences, i: usize)
    requires last { sequences.old.last < 4 }
    requires few { i < 4 }
    ensures { sequences.new ≡ after_switch sequences.old i }
{
    if i != 0 {
        sequences.last = (sequences.last + i) % 4;
    }
}

// Adds a point that opens no sequence.
#[inline(always)]
pub(crate) fn add_point(sequences: &mut Sequences, symbol: u32, time: u64)
    requires last { sequences.old.last < 4 }
    requires symbol { symbol < new_symbol (slot_at sequences.old sequences.old.last).difference }
    requires extremes { (slot_at sequences.old sequences.old.last).extremes < 4 }
    ensures { sequences.new ≡ after_point sequences.old
        (meaning (model_of (slot_at sequences.old sequences.old.last).difference) symbol) time }
{
    update_slot(&mut sequences.slots[sequences.last], symbol, time);
}

// Opens a sequence by a time.
#[inline(always)]
pub(crate) fn open_sequence(sequences: &mut Sequences, time: u64)
    requires next { sequences.old.next < 4 }
    ensures { sequences.new ≡ after_point sequences.old New time }
{
    sequences.next = (sequences.next + 1) % 4;
    sequences.last = sequences.next;
    sequences.slots[sequences.last] = Slot {
        time,
        difference: 0,
        extremes: 0,
    };
}
