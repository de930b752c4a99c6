//! The right to draw numbers.
ghost use Rattle.std.specs.Prelude.{◌≡◌};

use crate::view::View;
use atomic_table::Seat;
use std::marker::Model;

/// The right to draw numbers of one `Claims`.
///
/// It draws nothing by itself: `Claims::claim` takes it. A pass may go to another thread. The opening pass, which
/// `Claims::new` gives, can have others split from it and joined to it again.
#[derive(Drop)]
pub struct Pass {
    pub(crate) seat: Seat<(), View>,
    pub(crate) spent: bool,
    pub(crate) rest: u32,
    pub(crate) out: u32,
}

impl Model for Pass {
    ghost use Rattle.laz_workers.specs.Seen.{PassSeen};

    ghost Value = { PassSeen };

    ghost use Rattle.std.specs.Prelude.{◌≡◌, []};
    ghost use Rattle.laz_workers.specs.Claims.{seen, IsLive};

    ghost view = { λ p. seen p.seat.table_id p.seat.me.0 };

    ghost invariant = { λ p. (p.seat.me.1 ≡ []) × IsLive p.seat.me.0 × (p.spent ≡ p.seat.me.0.spent)
        × (p.rest ≡ p.seat.me.0.rest) × (p.out ≡ p.seat.me.0.out) };
}

impl Pass {
    /// Whether it drew a number at or past the total itself. A pass that is spent draws no further number.
    pub fn is_spent(&self) -> bool
        ensures { result ≡ self.now.spent }
    {
        self.spent
    }

    /// How many passes may still be split from it.
    pub fn rest(&self) -> u32
        ensures { result ≡ self.now.rest }
    {
        self.rest
    }

    /// How many passes were split from it and are not joined to it.
    pub fn out(&self) -> u32
        ensures { result ≡ self.now.out }
    {
        self.out
    }
}
