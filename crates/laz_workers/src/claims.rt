//! Numbers that passes claim from one shared word, each once.
ghost use Rattle.std.specs.Prelude.{◌≡◌, ℕ, ◌+◌, ◌-◌, ◌^◌, ◌<◌, ◌≤◌, IfOk, IfErr, IsOk, IfSome, true, false, ◌++◌};
ghost use Rattle.std.specs.Prelude.{vec_len, vec_capacity};
ghost use Rattle.laz_workers.specs.Numbers.{HoldsBelow};
ghost use Rattle.laz_workers.specs.Seen.{opening_pass, split_pass, answer_of, Drew};
ghost use Rattle.laz_workers.specs.Run.{Dealt};

use crate::pass::Pass;
use crate::view::{Claiming, Draws, Joins, Looks, Sizes, Splits, View};
use atomic_table::Table;
use std::alloc::{AllocError, Global};
use std::marker::Model;

/// The numbers below a total, which passes draw from one shared word, each number once in any schedule of threads.
///
/// A claim is one `fetch_add` on the word. Claims are shared by reference, and each thread draws with a pass of its
/// own. The steps and the rule that they keep are this project's own.
#[derive(Drop)]
pub struct Claims {
    table: Table<(), View, Sizes, Claiming, Global>,
    total: u32,
}

impl Model for Claims {
    ghost use Rattle.laz_workers.specs.Seen.{ClaimsSeen};

    ghost Value = { ClaimsSeen };

    ghost use Rattle.std.specs.Prelude.{◌≡◌, ◌<◌, ◌≤◌};

    ghost view = { λ c. record
        { word = c.table.shared.table_id; total = c.table.shared.key.total; workers = c.table.shared.key.workers } };

    ghost invariant = { λ c. (c.table.shared.table_id.words ≡ 1) × (c.table.shared.table_id.slots ≡ 0)
        × (c.total ≡ c.table.shared.key.total) × (0 < c.table.shared.key.workers) × (c.table.shared.key.workers ≤ 8) };
}

impl Claims {
    /// Claims on the numbers below `total`, which is at most 2^24, and the opening pass. There are at most `workers`
    /// passes at once, 1 to 8: the opening pass can have `workers - 1` others split from it. `Err` means out of memory.
    pub fn new(alloc: Global, total: u32, workers: u32) -> Result<(Claims, Pass), AllocError>
        requires total { total ≤ 2 ^ 24 }
        requires workers { (0 < workers) × (workers ≤ 8) }
        ensures { IfOk result (λ r. (r.0.total ≡ total) × (r.0.workers ≡ workers) × (r.1 ≡ opening_pass r.0)) }
    {
        let (table, seat) = Table::of_words(alloc, &[0], &Sizes { total, workers })?;
        let pass = Pass {
            seat,
            spent: false,
            rest: workers - 1,
            out: 0,
        };
        Ok((Claims { table, total }, pass))
    }

    /// Splits a pass from the opening one, with nothing drawn, for a thread of its own. Only the opening pass has a
    /// rest.
    pub fn split(&self, pass: &mut Pass) -> Pass
        requires own { pass.old.claims ≡ self.now }
        requires rest { 0 < pass.old.rest }
        ensures pass { pass.new ≡ record pass.old { rest = pass.old.rest - 1; out = pass.old.out + 1 } }
        ensures split { result ≡ split_pass pass.old }
    {
        let seat = self.table.shared.split_seat::<Splits>(&mut pass.seat);
        pass.rest -= 1;
        pass.out += 1;
        Pass {
            seat,
            spent: false,
            rest: 0,
            out: 0,
        }
    }

    /// Deals a pass to each worker: `passes` gets the opening pass and then the `workers - 1` others, which are split
    /// from it. None of them has drawn.
    ///
    /// `passes` is empty before. With a capacity of `workers`, as a list that was dealt to before has, no memory is
    /// taken and the answer is `Ok`. `Err` means out of memory: the list stays empty, and the opening pass is dropped.
    pub fn deal(&self, mut opening: Pass, passes: &mut Vec<Pass>) -> Result<(), AllocError>
        requires opening { opening ≡ opening_pass self.now }
        requires empty { vec_len passes.old ≡ 0 }
        ensures ok { IfOk result (λ _. (vec_len passes.new ≡ self.now.workers) × Dealt self.now passes.new.items) }
        ensures err { IfErr result (λ _. vec_len passes.new ≡ 0) }
        ensures room { self.now.workers ≤ vec_capacity passes.old → IsOk result }
        ensures capacity { vec_capacity passes.old ≤ vec_capacity passes.new }
    {
        passes.reserve(opening.rest() as usize + 1)?;
        for _ in 0..opening.rest() {
            passes.push_reserved(self.split(&mut opening));
        }
        let Ok(()) = passes.insert(0, opening) else {
            unreachable!()
        };
        Ok(())
    }

    /// Draws the next number, in one atomic step. `None` means that it is at or past the total: the pass is then spent,
    /// and draws no further number.
    pub fn claim(&self, pass: &mut Pass) -> Option<u32>
        requires own { pass.old.claims ≡ self.now }
        requires unspent { pass.old.spent ≡ false }
        ensures drew { (number : ℕ) × Drew pass.old pass.new number × (result ≡ answer_of self.now.total number) }
        ensures below { IfSome result (λ number. number < self.now.total) }
    {
        let number = self.table.shared.fetch_add::<Draws>(&mut pass.seat, 0, 1);
        if number < u64::from(self.total) {
            return Some(number as u32);
        }
        pass.spent = true;
        None
    }

    /// Joins a split pass to the opening one: its numbers follow those that the opening pass has.
    pub fn join(&self, pass: &mut Pass, other: Pass)
        requires own { (pass.old.claims ≡ self.now) × (other.claims ≡ self.now) }
        requires opening { pass.old.opens ≡ true }
        requires split { other.opens ≡ false }
        ensures pass { pass.new ≡ record pass.old { drawn = pass.old.drawn ++ other.drawn; out = pass.old.out - 1 } }
        ensures out { 0 < pass.old.out }
        // The last join leaves each number below the word in the opening pass, once, and no other.
        ensures whole { pass.new.out ≡ 0 → (word : ℕ) × HoldsBelow word pass.new.drawn }
    {
        let Pass { seat, .. } = other;
        self.table.shared.join_seat::<Joins>(&mut pass.seat, seat);
        // The table's join says nothing of the word. This load does, and it changes nothing.
        self.table.shared.load::<Looks>(&mut pass.seat, 0);
        pass.out -= 1;
    }

    /// Ends the claims, and gives the word: how many numbers were drawn in all, those at or past the total included.
    /// The opening pass holds each number below it once, in the order in which the passes drew and were joined.
    pub fn close(self, pass: Pass) -> u64
        requires own { pass.claims ≡ self }
        requires opening { pass.opens ≡ true }
        requires out { pass.out ≡ 0 }
        ensures word { HoldsBelow result pass.drawn }
        ensures bound { result ≤ self.total + self.workers }
    {
        let Claims { table, total: _ } = self;
        let Pass { seat, .. } = pass;
        let closed = table.close_with(seat);
        let word = closed.word(0);
        closed.free();
        word
    }

    /// How many numbers there are.
    pub fn total(&self) -> u32
        ensures { result ≡ self.now.total }
    {
        self.total
    }
}
