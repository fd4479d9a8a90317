//! Lists of meters, and of their rows.

ghost use Rattle.std.specs.Prelude.{◌≡◌, IfOk, IfErr, map};
ghost use Rattle.std.specs.List.{AllByRecursion};
ghost use Rattle.std.specs.Prelude.{◌<◌, ◌^◌};
ghost use Rattle.fw_book.specs.Rows.{live_row, repeats, meters_of};
ghost use Rattle.fw_book.specs.Private.{rows_in};

use crate::error::BookError;
use crate::reading::{ROW_SIZE, row_at};
use crate::row::{Row, RowState};
use fw_names::MeterId;
use std::alloc::Global;

/// Whether a meter stands twice. The cost grows with the square of the number of meters.
pub(crate) fn repeats(meters: &[MeterId]) -> bool
    ensures { result ≡ repeats meters.now }
{
    let mut rest = meters;
    while let Some((first, others)) = rest.split_first() {
        if others.contains(first) {
            return true;
        }
        rest = others;
    }
    false
}

/// A live row for each meter.
pub(crate) fn live_rows(alloc: Global, meters: &[MeterId]) -> Result<Vec<Row>, BookError>
    ensures rows { IfOk result (λ rows. rows.items ≡ map live_row meters.now) }
    ensures fit { IfOk result (λ rows. AllByRecursion (λ meter. meter < 2 ^ 32) (meters_of rows.items)) }
    ensures memory { IfErr result (λ e. e ≡ BookError.OutOfMemory) }
{
    let mut rows = Vec::with_capacity(alloc, meters.len())?;
    for meter in meters {
        rows.push(live_row(*meter))?;
    }
    Ok(rows)
}

/// The row of a meter whose campaign was just opened.
fn live_row(meter: MeterId) -> Row
    ensures row { result ≡ live_row meter }
    ensures fits { result.meter < 2 ^ 32 }
{
    let _number = meter.number();
    Row {
        meter,
        state: RowState::Live,
    }
}

/// The rows in these bytes.
pub(crate) fn rows_of(alloc: Global, bytes: &[u8]) -> Result<Vec<Row>, BookError>
    ensures rows { IfOk result (λ rows. rows.items ≡ rows_in bytes.now) }
    ensures memory { IfErr result (λ e. e ≡ BookError.OutOfMemory) }
{
    let mut rows = Vec::with_capacity(alloc, bytes.len() / ROW_SIZE)?;
    let mut rest = bytes;
    while let Some((row, after)) = row_at(rest) {
        rows.push(row)?;
        rest = after;
    }
    Ok(rows)
}
