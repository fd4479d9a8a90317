//! The meters that are live in a campaign of a book.

ghost use Rattle.std.specs.Prelude.{◌≡◌, ◌==◌, ◌&&◌, ◌||◌, ℕ, false, not, OnOk, OnErr, IfErr};
ghost use Rattle.fw_book.specs.Rows.{is_live_in};
ghost use Rattle.fw_book.specs.Private.{has_live_meter};

use crate::error::BookError;
use crate::row::Row;
use fw_names::MeterId;
use std::alloc::Global;
use std::collections::HashSet;

/// The numbers of the meters that are live in a campaign of a book, so that no row is looked at to tell that a meter is busy.
#[derive(Drop)]
pub(crate) struct LiveMeters {
    numbers: HashSet<u32>,
}

impl LiveMeters {
    /// No meter. It keeps the allocator, and takes no memory.
    pub(crate) fn none(alloc: Global) -> LiveMeters
        ensures { (meter : ℕ) → has_live_meter result meter ≡ false }
    {
        LiveMeters {
            numbers: HashSet::new(alloc),
        }
    }

    /// Whether the meter is one of them.
    pub(crate) fn has(&self, meter: MeterId) -> bool
        ensures { result ≡ has_live_meter self.now meter }
    {
        self.numbers.contains(&meter.number())
    }

    /// Adds the meters of the rows that are live. Room is made for all of them first.
    ///
    /// # Errors
    ///
    /// `OutOfMemory` alone. No meter is added then.
    pub(crate) fn add(&mut self, rows: &[Row]) -> Result<(), BookError>
        ensures added { OnOk result ((meter : ℕ) → has_live_meter self.new meter
            ≡ (has_live_meter self.old meter || is_live_in rows.now meter)) }
        ensures kept { OnErr result ((meter : ℕ) → has_live_meter self.new meter ≡ has_live_meter self.old meter) }
        ensures memory { IfErr result (λ e. e ≡ BookError.OutOfMemory) }
    {
        self.numbers.reserve(rows.len())?;
        for row in rows {
            if row.state.is_live() {
                self.numbers.insert(row.meter.number())?;
            }
        }
        Ok(())
    }

    /// Takes a meter out.
    pub(crate) fn remove(&mut self, meter: MeterId)
        ensures { (other : ℕ) → has_live_meter self.new other ≡ (has_live_meter self.old other && not (meter == other)) }
    {
        self.numbers.remove(&meter.number());
    }

    /// Takes out the meters of the rows that are live.
    pub(crate) fn remove_rows(&mut self, rows: &[Row])
        ensures { (meter : ℕ) → has_live_meter self.new meter
            ≡ (has_live_meter self.old meter && not (is_live_in rows.now meter)) }
    {
        for row in rows {
            if row.state.is_live() {
                self.remove(row.meter);
            }
        }
    }
}
