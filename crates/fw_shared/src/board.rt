//! The board: a word that workers mark and see.

ghost use Rattle.std.specs.Prelude.{◌≡◌, ◌+◌, ◌-◌, ◌^◌, ◌<◌, ◌≤◌, [], max, IfOk, IsOkAnd};

use crate::error::OutOfMemory;
use crate::seat::Seat;
use fw_air::Receipt;
use fw_tally::Tally;
use std::alloc::Global;
use std::marker::Model;

/// A count that workers mark and see, each from a seat of its own and without a lock. Between any two steps it is the sum of the
/// marks of all seats, and no seat has seen more.
#[derive(Drop)]
pub struct Board {
    tally: Tally,
}

impl Model for Board {
    ghost use Rattle.fw_shared.specs.Seat as seat;

    ghost Value = { seat.Board };

    ghost view = { λ b. record { id = b.tally.id; start = b.tally.start } };
}

impl Board {
    /// A board that begins with this count, and its first seat. It asks for a count below 2^63; 2^63 marks are left to the seat.
    ///
    /// # Errors
    ///
    /// `OutOfMemory` alone.
    pub fn new(alloc: Global, marks: u64) -> Result<(Board, Seat), OutOfMemory>
        requires { marks < 2 ^ 63 }
        ensures board { IfOk result (λ made. made.0.start ≡ marks) }
        ensures seat { IfOk result (λ made. made.1
            ≡ record { board = made.0.id; own = marks; seen = marks; allowance = 2 ^ 63; receipts = [] }) }
    {
        let (tally, share) = Tally::new(alloc, marks)?;
        let seat = Seat {
            share,
            receipts: Vec::new(alloc),
        };
        Ok((Board { tally }, seat))
    }

    /// A second seat, with `marks` of the marks that are left to this one: at least this number must be left. The second seat has
    /// seen what this one has, and has no receipts.
    ///
    /// # Errors
    ///
    /// None: a seat without receipts takes no memory.
    pub fn split(&self, alloc: Global, seat: &mut Seat, marks: u64) -> Result<Seat, OutOfMemory>
        requires board { seat.old.board ≡ self.now.id }
        requires left { marks ≤ seat.old.allowance }
        ensures second { IsOkAnd result (λ second. second
            ≡ record { board = self.now.id; own = 0; seen = seat.old.seen; allowance = marks; receipts = [] }) }
        ensures first { seat.new ≡ record seat.old { allowance = seat.old.allowance - marks } }
    {
        let share = self.tally.split(&mut seat.share, marks);
        Ok(Seat {
            share,
            receipts: Vec::new(alloc),
        })
    }

    /// Marks the board, once. It asks that a mark is left to the seat.
    pub fn add(&self, seat: &mut Seat)
        requires board { seat.old.board ≡ self.now.id }
        requires left { 0 < seat.old.allowance }
        ensures mark { seat.new
            ≡ record seat.old { own = seat.old.own + 1; seen = seat.new.seen; allowance = seat.old.allowance - 1 } }
        ensures seen { (seat.old.seen < seat.new.seen) × (seat.new.own ≤ seat.new.seen) }
    {
        self.tally.add(&mut seat.share);
    }

    /// The count, as it is seen from this seat: never less than the seat saw before, and never less than its own marks.
    pub fn seen(&self, seat: &mut Seat) -> u64
        requires { seat.old.board ≡ self.now.id }
        ensures seat { seat.new ≡ record seat.old { seen = result } }
        ensures later { seat.old.seen ≤ result }
        ensures own { seat.old.own ≤ result }
        ensures fits { result + seat.old.allowance ≤ 2 ^ 64 - 1 }
    {
        self.tally.seen(&mut seat.share)
    }

    /// Joins another seat into this one, and returns its receipts. Its marks and what is left to it are this one's, and so is
    /// what it has seen.
    pub fn join(&self, seat: &mut Seat, other: Seat) -> Vec<Receipt>
        requires board { seat.old.board ≡ self.now.id }
        requires other { other.board ≡ self.now.id }
        ensures seat { seat.new ≡ record seat.old {
          own = seat.old.own + other.own;
          seen = max seat.old.seen other.seen;
          allowance = seat.old.allowance + other.allowance;
        } }
        ensures receipts { result.items ≡ other.receipts }
    {
        let Seat { share, receipts } = other;
        self.tally.join(&mut seat.share, share);
        receipts
    }

    /// Ends the board with a seat: the count, and the receipts of the seat. If all other seats were joined into this one, the
    /// count is the seat's own marks, which for the first seat begin with those of the start.
    pub fn close(self, seat: Seat) -> (u64, Vec<Receipt>)
        requires { seat.board ≡ self.id }
        ensures own { seat.own ≤ result.0 }
        ensures seen { seat.seen ≤ result.0 }
        ensures fits { result.0 + seat.allowance ≤ self.start + 2 ^ 63 }
        ensures all { seat.own + seat.allowance ≡ self.start + 2 ^ 63 → result.0 ≡ seat.own }
        ensures receipts { result.1.items ≡ seat.receipts }
    {
        let Board { tally } = self;
        let Seat { share, receipts } = seat;
        (tally.close(share), receipts)
    }
}
