//! A sieve of records.
ghost use Rattle.std.specs.Prelude.{◌≡◌, ◌↔◌, ◌++◌, ◌∷◌, [], ◌≤◌, ◌<◌, List, Some, None, length, true};
ghost use Rattle.std.specs.Prelude.{IfOk, OnOk, OnErr, IfSome};

use crate::cell::{cell_of, position_of};
use crate::pick::Pick;
use crate::stored::{add_cell, add_position, is_winner, set_winner};
use crate::winner::Winner;
use las_header::POINT_RECORD;
use std::alloc::{AllocError, Global};
use std::collections::{HashMap, HashSet};
use std::marker::Model;

/// Lets one record of each cell pass, if it has a step; else the first record of each position, if positions are not to
/// repeat; else every record.
///
/// With [`Pick::First`] the records of a list are asked for in their order, and each is answered at once. With
/// [`Pick::Lowest`] or [`Pick::Highest`] all of them are looked at first, and then asked for.
///
/// What is kept: with a step, each cell that was met, with the place and the position of its record if the pick is not
/// the first; without one, each position that was met, if positions are not to repeat.
///
/// Contracts see a sieve as its settings, the last place looked at, the last place asked for, and what it keeps. It
/// stands for two lists: the records that it looked at and those that it was asked for, each with its place.
pub struct Sieve {
    step: Option<u32>,
    pick: Pick,
    unique: bool,
    looked: Option<u64>,
    asked: Option<u64>,
    cells: HashSet<(i32, i32)>,
    positions: HashSet<(i32, i32, i32)>,
    winners: HashMap<(i32, i32), Winner>,
}

// By hand, so that each caller drops a sieve by one call.
impl Drop for Sieve {
    fn drop(self) {
        let Sieve {
            step: _,
            pick: _,
            unique: _,
            looked: _,
            asked: _,
            cells,
            positions,
            winners,
        } = self;
        drop(cells);
        drop(positions);
        drop(winners);
    }
}

impl Model for Sieve {
    ghost use Rattle.las_thin.specs.Sieving.{Sieving, IsStep, HasItsStep};

    ghost Value = { Sieving };

    ghost view = { λ s. record {
      settings = record { step = s.step; pick = s.pick; unique = s.unique };
      looked = s.looked;
      asked = s.asked;
      cells = s.cells.keys;
      positions = s.positions.keys;
      winners = s.winners.entries;
    } };

    ghost invariant = { λ s. IsStep s.step × HasItsStep s.step s.pick };
}

impl Sieve {
    ghost use Rattle.las_thin.specs.Placed.{Placed, placed};
    ghost use Rattle.las_thin.specs.Sieving.{HasItsStep, PicksFirst, IsStep, Settings, Sieving, HasSifted};
    ghost use Rattle.las_thin.specs.Sieving.{all_pass, judged_by, stays};
    ghost use Rattle.las_thin.specs.Stored.{TakesPoint};

    /// A sieve that has looked at no record and was asked for none. `step` is a cell's side in units of X and Y, from 1
    /// to 2147483647; `unique` says that positions are not to repeat. The lowest and the highest need a step.
    pub fn new(alloc: Global, step: Option<u32>, pick: Pick, unique: bool) -> Sieve
        requires step { IsStep step }
        requires has_step { HasItsStep step pick }
        ensures settings { result.settings ≡ record { step = step; pick = pick; unique = unique } }
        ensures looked { result.looked ≡ None }
        ensures asked { result.asked ≡ None }
        ensures stands { HasSifted [] [] result }
    {
        Sieve {
            step,
            pick,
            unique,
            looked: None,
            asked: None,
            cells: HashSet::new(alloc),
            positions: HashSet::new(alloc),
            winners: HashMap::new(alloc),
        }
    }

    /// Whether every record passes: there is no step, and positions may repeat. Such a sieve need not be asked.
    pub fn passes_all(&self) -> bool
        ensures { (result ≡ true) ↔ (self.now.settings ≡ all_pass) }
    {
        self.step.is_none() && !self.unique
    }

    /// Looks at a record. `Err` means out of memory, and the sieve is as before.
    ///
    /// The pick is the lowest or the highest, the place is above all that were looked at, and none was asked for yet.
    pub fn look(&mut self, place: u64, point: &[u8]) -> Result<(), AllocError>
        requires long { POINT_RECORD ≤ length point.now }
        requires pick { ¬ PicksFirst self.old.settings.pick }
        requires above { IfSome self.old.looked (λ last. last < place) }
        requires before { self.old.asked ≡ None }
        ensures settings { self.new.settings ≡ self.old.settings }
        ensures looked { OnOk result (self.new.looked ≡ Some place) }
        ensures asked { self.new.asked ≡ None }
        ensures stands { (looked asked : List Placed) → HasSifted looked asked self.old
            → OnOk result (HasSifted (looked ++ placed place point.now ∷ []) asked self.new) }
        ensures memory { OnErr result (self.new ≡ self.old) }
    {
        let Some(step) = self.step else {
            return Ok(());
        };
        let winner = Winner {
            place,
            position: position_of(point),
        };
        set_winner(&mut self.winners, self.pick, cell_of(step, point), winner)?;
        self.looked = Some(place);
        Ok(())
    }

    /// Whether a record passes. `Err` means out of memory, and the sieve is as before.
    ///
    /// With the first of a cell: whether it stays in the list of the records that were asked for, this one at its end.
    /// Else: whether a record with its X, Y and Z was looked at under this place, and stays in the list of those that
    /// were looked at. The place is above all that were asked for.
    pub fn passes(&mut self, place: u64, point: &[u8]) -> Result<bool, AllocError>
        requires long { POINT_RECORD ≤ length point.now }
        requires above { IfSome self.old.asked (λ last. last < place) }
        ensures settings { self.new.settings ≡ self.old.settings }
        ensures looked { self.new.looked ≡ self.old.looked }
        ensures asked { OnOk result (self.new.asked ≡ Some place) }
        ensures answer { (looked asked : List Placed) → HasSifted looked asked self.old
            → let a = placed place point.now in let settings = self.old.settings in
            IfOk result (λ passes. passes ≡ stays settings (judged_by settings looked asked a) a) }
        ensures stands { (looked asked : List Placed) → HasSifted looked asked self.old
            → OnOk result (HasSifted looked (asked ++ placed place point.now ∷ []) self.new) }
        ensures memory { OnErr result (self.new ≡ self.old) }
    {
        let passes = self.take(place, point)?;
        self.asked = Some(place);
        Ok(passes)
    }

    // Whether a record passes. What is stored is that of the record too, but it does not count as asked yet.
    fn take(&mut self, place: u64, point: &[u8]) -> Result<bool, AllocError>
        requires long { POINT_RECORD ≤ length point.now }
        ensures settings { self.new.settings ≡ self.old.settings }
        ensures looked { self.new.looked ≡ self.old.looked }
        ensures asked { self.new.asked ≡ self.old.asked }
        ensures takes { IfOk result (λ passes.
            TakesPoint self.old.settings (placed place point.now) passes self.old self.new) }
        ensures step { HasItsStep self.old.settings.step self.old.settings.pick }
        ensures memory { OnErr result (self.new ≡ self.old) }
    {
        let Some(step) = self.step else {
            if !self.unique {
                return Ok(true);
            }
            return add_position(&mut self.positions, position_of(point));
        };
        let cell = cell_of(step, point);
        match self.pick {
            Pick::First => add_cell(&mut self.cells, cell),
            Pick::Lowest | Pick::Highest => {
                Ok(is_winner(&self.winners, cell, place, position_of(point)))
            }
        }
    }
}
