//! A report as comma-separated values.

ghost use Rattle.std.specs.Prelude.{◌≡◌, ◌++◌, flat_map, OnOk, string_bytes};
ghost use Rattle.fw_inventory.specs.Cells.{csv_cell, csv_cells, csv_line, csv_of};

use crate::cell::{Column, append_cell};
use crate::verdict::Offer;
use fw_survey::Row;
use std::alloc::{AllocError, Global};

/// The headings.
const HEADINGS: &str =
    "meter,state,head,campaign,release,digest,status,enabled,block_size,round_trip_us,offer\n";

/// The columns behind that of the meter.
const COLUMNS: [Column; 10] = [
    Column::State,
    Column::Head,
    Column::Campaign,
    Column::Release,
    Column::Digest,
    Column::Status,
    Column::Enabled,
    Column::BlockSize,
    Column::RoundTrip,
    Column::Offer,
];

/// Appends the headings, and a line for each meter.
pub(crate) fn append_csv(
    alloc: Global,
    text: &mut String,
    rows: &[Row],
    offer: Option<Offer>,
) -> Result<(), AllocError>
    ensures { OnOk result (string_bytes text.new ≡ string_bytes text.old ++ csv_of rows.now offer) }
{
    text.push_str(HEADINGS)?;
    append_lines(alloc, text, rows, offer)
}

/// Appends a line for each meter.
fn append_lines(
    alloc: Global,
    text: &mut String,
    rows: &[Row],
    offer: Option<Offer>,
) -> Result<(), AllocError>
    ensures { OnOk result (string_bytes text.new ≡ string_bytes text.old ++ flat_map (λ row. csv_line offer row) rows.now) }
{
    for row in rows {
        append_line(alloc, text, row, offer)?;
    }
    Ok(())
}

/// Appends the line of a meter.
fn append_line(
    alloc: Global,
    text: &mut String,
    row: &Row,
    offer: Option<Offer>,
) -> Result<(), AllocError>
    ensures { OnOk result (string_bytes text.new ≡ string_bytes text.old ++ csv_line offer row.now) }
{
    append_cell(alloc, text, Column::Meter, row, offer)?;
    append_cells(alloc, text, &COLUMNS, row, offer)?;
    text.push_str("\n")
}

/// Appends cells of a meter, each behind a comma.
fn append_cells(
    alloc: Global,
    text: &mut String,
    columns: &[Column],
    row: &Row,
    offer: Option<Offer>,
) -> Result<(), AllocError>
    ensures { OnOk result (string_bytes text.new ≡ string_bytes text.old ++ csv_cells columns.now row.now offer) }
{
    for column in columns {
        append_next(alloc, text, *column, row, offer)?;
    }
    Ok(())
}

/// Appends a cell of a meter behind a comma.
fn append_next(
    alloc: Global,
    text: &mut String,
    column: Column,
    row: &Row,
    offer: Option<Offer>,
) -> Result<(), AllocError>
    ensures { OnOk result (string_bytes text.new ≡ string_bytes text.old ++ csv_cell column row.now offer) }
{
    text.push_str(",")?;
    append_cell(alloc, text, column, row, offer)
}
