//! A report as a table, with columns of equal width.

ghost use Rattle.std.specs.Prelude.{◌≡◌, ◌++◌, flat_map, replicate, OnOk, string_bytes};
ghost use Rattle.fw_inventory.specs.Cells.{cell_of, padded, shown, stroke_if, table_cells, table_line, table_of, width_of};

use crate::cell::{Column, append_cell};
use crate::verdict::Offer;
use fw_survey::Row;
use std::alloc::{AllocError, Global};

/// The headings. With ordinary values a line has 80 characters at most.
const HEADINGS: &str = "meter state  head camp release digest   stat on  block trip us offer\n";

/// The columns before the last.
const COLUMNS: [Column; 10] = [
    Column::Meter,
    Column::State,
    Column::Head,
    Column::Campaign,
    Column::Release,
    Column::DigestFront,
    Column::Status,
    Column::Enabled,
    Column::BlockSize,
    Column::RoundTrip,
];

/// Appends the headings, and a line for each meter.
pub(crate) fn append_table(
    alloc: Global,
    text: &mut String,
    rows: &[Row],
    offer: Option<Offer>,
) -> Result<(), AllocError>
    ensures { OnOk result (string_bytes text.new ≡ string_bytes text.old ++ table_of rows.now offer) }
{
    text.push_str(HEADINGS)?;
    append_lines(alloc, text, rows, offer)
}

/// Appends a line for each meter.
fn append_lines(
    alloc: Global,
    text: &mut String,
    rows: &[Row],
    offer: Option<Offer>,
) -> Result<(), AllocError>
    ensures { OnOk result (string_bytes text.new ≡ string_bytes text.old ++ flat_map (λ row. table_line offer row) rows.now) }
{
    for row in rows {
        append_line(alloc, text, row, offer)?;
    }
    Ok(())
}

/// Appends the line of a meter.
fn append_line(
    alloc: Global,
    text: &mut String,
    row: &Row,
    offer: Option<Offer>,
) -> Result<(), AllocError>
    ensures { OnOk result (string_bytes text.new ≡ string_bytes text.old ++ table_line offer row.now) }
{
    append_cells(alloc, text, &COLUMNS, row, offer)?;
    append_shown(alloc, text, Column::Offer, row, offer)?;
    text.push_str("\n")
}

/// Appends cells of a meter, each to the end of its column.
fn append_cells(
    alloc: Global,
    text: &mut String,
    columns: &[Column],
    row: &Row,
    offer: Option<Offer>,
) -> Result<(), AllocError>
    ensures { OnOk result (string_bytes text.new ≡ string_bytes text.old ++ table_cells columns.now row.now offer) }
{
    for column in columns {
        append_padded(alloc, text, *column, row, offer)?;
    }
    Ok(())
}

/// Appends a cell of a meter, spaces to the end of its column, and one more.
fn append_padded(
    alloc: Global,
    text: &mut String,
    column: Column,
    row: &Row,
    offer: Option<Offer>,
) -> Result<(), AllocError>
    ensures { OnOk result (string_bytes text.new ≡ string_bytes text.old ++ padded (width_of column) (shown (cell_of column row.now offer))) }
{
    let start = text.len();
    append_shown(alloc, text, column, row, offer)?;
    let filled = text.len() - start;
    append_spaces(text, width_of(column).saturating_sub(filled))?;
    text.push_str(" ")
}

/// Appends a cell of a meter, with a stroke if it is empty.
fn append_shown(
    alloc: Global,
    text: &mut String,
    column: Column,
    row: &Row,
    offer: Option<Offer>,
) -> Result<(), AllocError>
    ensures { OnOk result (string_bytes text.new ≡ string_bytes text.old ++ shown (cell_of column row.now offer)) }
{
    let start = text.len();
    append_cell(alloc, text, column, row, offer)?;
    let filled = text.len() - start;
    text.push_str(stroke_if(filled == 0))
}

/// What stands behind a cell that is empty, or isn't.
fn stroke_if(empty: bool) -> &'static str
    ensures { result.now ≡ stroke_if empty }
{
    if empty { "-" } else { "" }
}

/// How wide a column is: the last one is as wide as its cells.
fn width_of(column: Column) -> usize
    ensures { result ≡ width_of column }
{
    match column {
        Column::Offer => 0,
        Column::Enabled => 3,
        Column::Head | Column::Campaign | Column::Status => 4,
        Column::Meter | Column::BlockSize => 5,
        Column::State => 6,
        Column::Release | Column::RoundTrip => 7,
        Column::DigestFront => 8,
        Column::Digest => 64,
    }
}

/// Appends this number of spaces.
fn append_spaces(text: &mut String, count: usize) -> Result<(), AllocError>
    ensures { OnOk result (string_bytes text.new ≡ string_bytes text.old ++ replicate count 32) }
{
    for _ in 0..count {
        text.push_str(" ")?;
    }
    Ok(())
}
