//! The live rows whose meter isn't in a list.

ghost use Rattle.std.specs.Prelude.{◌≡◌, ◌==◌, ◌++◌, ℕ, nat_eq, IfOk, OnOk};
ghost use Rattle.std.specs.HashSet.{contains};
ghost use Rattle.std.specs.List.{list_any};
ghost use Rattle.fw_plan.specs.Openings.{unlisted, unlisted_rows};

use fw_book::{Book, Row};
use fw_names::MeterId;
use std::alloc::{AllocError, Global};
use std::collections::HashSet;

/// A live row whose meter isn't in the list: it isn't led.
#[derive(Clone, Copy)]
pub struct UnlistedRow {
    /// The serial number of its campaign.
    pub serial: u32,
    /// Its meter.
    pub meter: MeterId,
}

/// The live rows of a book whose meter isn't in the list, in the order of the book.
pub fn unlisted(
    alloc: Global,
    book: &Book,
    meters: &[MeterId],
) -> Result<Vec<UnlistedRow>, AllocError>
    ensures { IfOk result (λ r. r.items ≡ unlisted meters.now book.now) }
{
    let listed = numbers_of(alloc, meters)?;
    let mut unlisted = Vec::new(alloc);
    for (serial, offer) in book.rows() {
        push_unlisted(&mut unlisted, &listed, *serial, offer.rows())?;
    }
    Ok(unlisted)
}

/// The numbers of these meters.
fn numbers_of(alloc: Global, meters: &[MeterId]) -> Result<HashSet<u32>, AllocError>
    ensures { IfOk result (λ numbers. (meter : ℕ) → contains nat_eq numbers meter ≡ list_any (λ other. other == meter) meters.now) }
{
    let mut numbers = HashSet::new(alloc);
    for meter in meters {
        numbers.insert(meter.number())?;
    }
    Ok(numbers)
}

/// Appends those of these rows, of the campaign of this serial number, that are live and whose meter isn't among the listed.
fn push_unlisted(
    unlisted: &mut Vec<UnlistedRow>,
    listed: &HashSet<u32>,
    serial: u32,
    rows: &[Row],
) -> Result<(), AllocError>
    ensures { OnOk result (unlisted.new.items ≡ unlisted.old.items ++ unlisted_rows (λ meter. contains nat_eq listed.now meter) serial rows.now) }
{
    for row in rows {
        if row.state.is_live() && !listed.contains(&row.meter.number()) {
            let meter = row.meter;
            unlisted.push(UnlistedRow { serial, meter })?;
        }
    }
    Ok(())
}
