//! What a pass knows, and how each atomic step changes it.
use atomic_table::{Join, Play, Split, TableRule};
use std::collections::LinkedList;

/// How many numbers there are, and how many passes there may be at once, the opening one included.
#[derive(Clone, Copy)]
pub struct Sizes {
    pub total: u32,
    pub workers: u32,
}

/// What a pass knows. It exists in proofs alone: no value of it is made.
pub struct View {
    /// Whether it is the pass that the claims began with.
    pub opens: bool,
    /// Whether it was joined to the opening one. Then it draws no further number.
    pub gone: bool,
    /// The numbers that it drew, and those of the passes that were joined to it.
    pub drawn: LinkedList<u64>,
    /// Whether it drew a number at or past the total.
    pub spent: bool,
    /// How many passes may still be split from it.
    pub rest: u32,
    /// How many passes were split from it and not joined.
    pub out: u32,
    /// How many passes were joined to it.
    pub joins: u32,
    pub total: u32,
    pub workers: u32,
}

// The table has one word, and no slot.
pub struct Claiming;

impl TableRule<(), View, Sizes> for Claiming {
    ghost use Rattle.laz_workers.specs.Claims.{opened, Holds};

    ghost holds = { Holds };

    ghost first = { opened };
}

// A `fetch_add` of 1.
pub struct Draws;

impl Play<(), View> for Draws {
    ghost use Rattle.laz_workers.specs.Claims.{Draw};

    ghost then = { Draw };
}

// A load, after a join.
pub struct Looks;

impl Play<(), View> for Looks {
    ghost use Rattle.laz_workers.specs.Claims.{Look};

    ghost then = { Look };
}

pub struct Splits;

impl Split<View> for Splits {
    ghost use Rattle.laz_workers.specs.Claims.{split_from, split_off};

    ghost left = { split_from };

    ghost right = { split_off };
}

pub struct Joins;

impl Join<View> for Joins {
    ghost use Rattle.laz_workers.specs.Claims.{joined, gone};

    ghost both = { joined };

    ghost spent = { gone };
}
