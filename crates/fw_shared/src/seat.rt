//! Seats at a board.

ghost use Rattle.std.specs.Prelude.{◌≡◌};

use fw_air::Receipt;
use fw_tally::Share;
use std::marker::Model;

/// A worker's place at a board: its share of the count, and its receipts. It has no lock, and one worker has it at a time.
#[derive(Drop)]
pub struct Seat {
    pub(crate) share: Share,
    pub(crate) receipts: Vec<Receipt>,
}

impl Model for Seat {
    ghost use Rattle.fw_shared.specs.Seat as seat;

    ghost Value = { seat.Seat };

    ghost view = { λ s. record {
      board = s.share.tally;
      own = s.share.own;
      seen = s.share.seen;
      allowance = s.share.allowance;
      receipts = s.receipts.items;
    } };
}

impl Seat {
    /// How many marks are left to it.
    pub fn allowance(&self) -> u64
        ensures { result ≡ self.now.allowance }
    {
        self.share.allowance()
    }
}
