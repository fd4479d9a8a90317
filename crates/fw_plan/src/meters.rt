//! The meters of a book that numbers and ranges of them name.

ghost use Rattle.std.specs.Prelude.{◌≡◌, ◌++◌, IfOk, OnOk};
ghost use Rattle.fw_plan.specs.Meters.{is_live_within, live_within, meters_named, meters_of};

use fw_book::{Book, Row};
use fw_names::MeterId;
use std::alloc::{AllocError, Global};

/// The meter of one number or those of a range.
#[derive(Clone, Copy)]
pub enum MeterRange {
    /// The meter of this number, whether it has a live row or not.
    One(MeterId),
    /// Those that have a live row, from the first number to the last.
    Span(MeterId, MeterId),
}

/// The meters that these name, in their order, and those of a range in the order of the book.
pub fn meters_of(
    alloc: Global,
    book: &Book,
    named: &[MeterRange],
) -> Result<Vec<MeterId>, AllocError>
    ensures { IfOk result (λ meters. meters.items ≡ meters_of book.now named.now) }
{
    let mut meters = Vec::new(alloc);
    for one in named {
        push_named(&mut meters, book, *one)?;
    }
    Ok(meters)
}

/// Appends the meters that this names.
fn push_named(meters: &mut Vec<MeterId>, book: &Book, named: MeterRange) -> Result<(), AllocError>
    ensures { OnOk result (meters.new.items ≡ meters.old.items ++ meters_named book.now named) }
{
    match named {
        MeterRange::One(meter) => Ok(meters.push(meter)?),
        MeterRange::Span(first, last) => push_range(meters, book, first, last),
    }
}

/// Appends the meters from `first` to `last` that have a live row.
fn push_range(
    meters: &mut Vec<MeterId>,
    book: &Book,
    first: MeterId,
    last: MeterId,
) -> Result<(), AllocError>
    ensures { OnOk result (meters.new.items ≡ meters.old.items ++ meters_named book.now (MeterRange.Span first last)) }
{
    for (_, offer) in book.rows() {
        push_live(meters, offer.rows(), first, last)?;
    }
    Ok(())
}

/// Appends the meters of those of these rows that are live, from `first` to `last`.
fn push_live(
    meters: &mut Vec<MeterId>,
    rows: &[Row],
    first: MeterId,
    last: MeterId,
) -> Result<(), AllocError>
    ensures { OnOk result (meters.new.items ≡ meters.old.items ++ live_within first last rows.now) }
{
    for row in rows {
        if is_live_within(row, first, last) {
            meters.push(row.meter)?;
        }
    }
    Ok(())
}

/// Whether a row is live, and that of a meter from `first` to `last`.
fn is_live_within(row: &Row, first: MeterId, last: MeterId) -> bool
    ensures { result ≡ is_live_within first last row.now }
{
    let number = row.meter.number();
    row.state.is_live() && first.number() <= number && number <= last.number()
}
