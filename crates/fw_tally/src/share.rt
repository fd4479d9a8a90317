//! Shares of a tally.

ghost use Rattle.std.specs.Prelude.{◌≡◌};

use crate::rule::View;
use atomic_table::Seat;
use std::marker::Model;

/// What a thread has of a tally: its own marks, a count that it has seen, and how many marks are left to it. It has no lock, and one
/// thread has it at a time.
#[derive(Drop)]
pub struct Share {
    pub(crate) seat: Seat<(), View>,
    pub(crate) left: u64,
}

impl Model for Share {
    ghost use Rattle.std.specs.Prelude.{◌≡◌, []};
    ghost use Rattle.fw_tally.specs.Tally as tally;

    ghost Value = { tally.Share };

    ghost view = { λ s. record {
      tally = s.seat.table_id;
      own = s.seat.me.0.own;
      seen = s.seat.me.0.seen;
      allowance = s.left;
    } };

    ghost invariant = { λ s. (s.left ≡ s.seat.me.0.allowance) × (s.seat.me.1 ≡ []) };
}

impl Share {
    /// How many marks are left to it.
    pub fn allowance(&self) -> u64
        ensures { result ≡ self.now.allowance }
    {
        self.left
    }
}
