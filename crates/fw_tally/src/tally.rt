//! The tally: a word that threads mark and see.

ghost use Rattle.std.specs.Prelude.{◌≡◌, ◌+◌, ◌-◌, ◌^◌, ◌<◌, ◌≤◌, max, IfOk};

use crate::error::OutOfMemory;
use crate::rule::{Counted, Fits, Joins, Looks, Marks, Parts, Portion, View};
use crate::share::Share;
use atomic_table::Table;
use std::alloc::Global;
use std::marker::{Brand, Model};

/// A count that threads mark and see, each from a share of its own and without a lock. Between any two steps it is the sum of the
/// marks of all shares, and no share has seen more.
#[derive(Drop)]
pub struct Tally {
    table: Table<(), View, u64, Counted, Global>,
}

impl Model for Tally {
    ghost use Rattle.std.specs.Prelude.{◌≡◌};
    ghost use Rattle.fw_tally.specs.Tally as tally;

    ghost Value = { tally.Tally };

    ghost view = { λ t. record { id = t.table.shared.table_id; start = t.table.shared.key } };

    ghost invariant = { λ t. (t.table.shared.table_id.words ≡ 1) × (t.table.shared.table_id.slots ≡ 0) };
}

impl Tally {
    /// A tally that begins with this count, and its first share. It asks for a count below 2^63; 2^63 marks are left to the share.
    ///
    /// # Errors
    ///
    /// `OutOfMemory` alone.
    pub fn new(alloc: Global, marks: u64) -> Result<(Tally, Share), OutOfMemory>
        requires { marks < 2 ^ 63 }
        ensures tally { IfOk result (λ made. made.0.start ≡ marks) }
        ensures share { IfOk result (λ made. made.1
            ≡ record { tally = made.0.id; own = marks; seen = marks; allowance = 2 ^ 63 }) }
    {
        let (table, seat) = Table::of_words(alloc, &[marks], &marks)?;
        let share = Share {
            seat,
            left: 1 << 63,
        };
        Ok((Tally { table }, share))
    }

    /// A second share, with `marks` of the marks that are left to this one: at least this number must be left. The second share has
    /// seen what this one has. It takes no memory.
    pub fn split(&self, share: &mut Share, marks: u64) -> Share
        requires tally { share.old.tally ≡ self.now.id }
        requires left { marks ≤ share.old.allowance }
        ensures second { result ≡ record { tally = self.now.id; own = 0; seen = share.old.seen; allowance = marks } }
        ensures first { share.new ≡ record share.old { allowance = share.old.allowance - marks } }
    {
        self.part::<Brand>(share, marks)
    }

    /// A second share, with a portion of the marks that are left to this one.
    fn part<M: Portion>(&self, share: &mut Share, marks: u64) -> Share
        requires portion { marks ≡ M.portion }
        requires tally { share.old.tally ≡ self.now.id }
        requires left { marks ≤ share.old.allowance }
        ensures second { result ≡ record { tally = self.now.id; own = 0; seen = share.old.seen; allowance = marks } }
        ensures first { share.new ≡ record share.old { allowance = share.old.allowance - marks } }
    {
        let seat = self.table.shared.split_seat::<Parts<M>>(&mut share.seat);
        share.left -= marks;
        Share { seat, left: marks }
    }

    /// Marks the tally, once. It asks that a mark is left to the share.
    pub fn add(&self, share: &mut Share)
        requires tally { share.old.tally ≡ self.now.id }
        requires left { 0 < share.old.allowance }
        ensures mark { share.new
            ≡ record share.old { own = share.old.own + 1; seen = share.new.seen; allowance = share.old.allowance - 1 } }
        ensures seen { (share.old.seen < share.new.seen) × (share.new.own ≤ share.new.seen) }
    {
        self.table.shared.fetch_add::<Marks>(&mut share.seat, 0, 1);
        share.left -= 1;
    }

    /// The count, as it is seen from this share: never less than the share saw before, and never less than its own marks.
    pub fn seen(&self, share: &mut Share) -> u64
        requires { share.old.tally ≡ self.now.id }
        ensures share { share.new ≡ record share.old { seen = result } }
        ensures later { share.old.seen ≤ result }
        ensures own { share.old.own ≤ result }
        ensures fits { result + share.old.allowance ≤ 2 ^ 64 - 1 }
    {
        self.table.shared.load::<Looks>(&mut share.seat, 0)
    }

    /// Joins another share into this one: its marks and what is left to it are this one's, and so is what it has seen.
    pub fn join(&self, share: &mut Share, other: Share)
        requires tally { share.old.tally ≡ self.now.id }
        requires other { other.tally ≡ self.now.id }
        ensures { share.new ≡ record share.old {
          own = share.old.own + other.own;
          seen = max share.old.seen other.seen;
          allowance = share.old.allowance + other.allowance;
        } }
    {
        let Share { seat, left } = other;
        self.table.shared.join_seat::<Joins>(&mut share.seat, seat);
        self.table.shared.load::<Fits>(&mut share.seat, 0);
        share.left += left;
    }

    /// Ends the tally with a share: the count. If all other shares were joined into this one, it is just the share's own marks,
    /// which for the first share begin with those of the start.
    pub fn close(self, share: Share) -> u64
        requires { share.tally ≡ self.id }
        ensures own { share.own ≤ result }
        ensures seen { share.seen ≤ result }
        ensures fits { result + share.allowance ≤ self.start + 2 ^ 63 }
        ensures all { share.own + share.allowance ≡ self.start + 2 ^ 63 → result ≡ share.own }
    {
        let Tally { table } = self;
        let Share { seat, .. } = share;
        let closed = table.close_with(seat);
        let count = closed.word(0);
        closed.free();
        count
    }
}
