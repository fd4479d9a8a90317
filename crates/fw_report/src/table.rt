//! A report as tables, with columns of equal width.

ghost use Rattle.std.specs.Prelude.{◌≡◌, ◌++◌, flat_map, OnOk, string_bytes};
ghost use Rattle.fw_report.specs.Table.{
  table_of,
  table_lines,
  table_ending,
  activated_words,
  meter_headings,
  row_cells,
  meter_cells,
  status_cell,
  refusal_words,
  refusal_words_if,
};

use crate::refusal::{Refusal, cause_name};
use crate::summary::{MeterEntry, Summary};
use fw_image::TransferStatus;
use fw_rows::table::ROW_HEADINGS;
use fw_rows::{RowEntry, append_number, state_word};
use std::alloc::AllocError;

/// The headings of the meters.
const METER_HEADINGS: &str =
    "meter       status                   head end    campaign    release     bytes\n";

/// Appends the tables of a world: its rows, its meters, how many images were switched to, and the event that was refused, if one was.
pub(crate) fn append_table(
    text: &mut String,
    summary: &Summary,
    refusal: Option<Refusal>,
) -> Result<(), AllocError>
    ensures { OnOk result (string_bytes text.new ≡ string_bytes text.old
        ++ table_of summary.now.rows.items summary.now.meters.items summary.now.activations refusal) }
{
    append_lines(text, &summary.rows, &summary.meters)?;
    append_ending(text, summary.activations, refusal)
}

/// Appends how many images were switched to, and the event that was refused, if one was.
fn append_ending(
    text: &mut String,
    activations: usize,
    refusal: Option<Refusal>,
) -> Result<(), AllocError>
    ensures { OnOk result (string_bytes text.new ≡ string_bytes text.old ++ table_ending activations refusal) }
{
    append_activated(text, activations)?;
    append_refused_if(text, refusal)
}

/// Appends how many images were switched to.
fn append_activated(text: &mut String, activations: usize) -> Result<(), AllocError>
    ensures { OnOk result (string_bytes text.new ≡ string_bytes text.old ++ activated_words activations) }
{
    write!(text, "\nimages activated: {activations}\n")
}

/// Appends which event was refused, and why, if one was.
fn append_refused_if(text: &mut String, refusal: Option<Refusal>) -> Result<(), AllocError>
    ensures { OnOk result (string_bytes text.new ≡ string_bytes text.old ++ refusal_words_if refusal) }
{
    match refusal {
        None => Ok(()),
        Some(refusal) => append_refused(text, refusal),
    }
}

/// Appends the tables of rows and of meters.
fn append_lines(
    text: &mut String,
    rows: &[RowEntry],
    meters: &[MeterEntry],
) -> Result<(), AllocError>
    ensures { OnOk result (string_bytes text.new ≡ string_bytes text.old ++ table_lines rows.now meters.now) }
{
    text.push_str(ROW_HEADINGS)?;
    append_rows(text, rows)?;
    text.push_str("\n")?;
    text.push_str(METER_HEADINGS)?;
    append_meters(text, meters)
}

/// Appends a line for each row.
fn append_rows(text: &mut String, rows: &[RowEntry]) -> Result<(), AllocError>
    ensures { OnOk result (string_bytes text.new ≡ string_bytes text.old ++ flat_map (λ row. row_cells row) rows.now) }
{
    for row in rows {
        append_row(text, row)?;
    }
    Ok(())
}

/// Appends the line of a row.
fn append_row(text: &mut String, row: &RowEntry) -> Result<(), AllocError>
    ensures { OnOk result (string_bytes text.new ≡ string_bytes text.old ++ row_cells row.now) }
{
    append_number(text, row.head)?;
    append_number(text, row.serial)?;
    append_number(text, row.meter)?;
    text.push_str(state_word(row.state))?;
    text.push_str("\n")
}

/// Appends a line for each meter.
fn append_meters(text: &mut String, meters: &[MeterEntry]) -> Result<(), AllocError>
    ensures { OnOk result (string_bytes text.new ≡ string_bytes text.old ++ flat_map (λ meter. meter_cells meter) meters.now) }
{
    for meter in meters {
        append_meter(text, meter)?;
    }
    Ok(())
}

/// Appends the line of a meter.
fn append_meter(text: &mut String, meter: &MeterEntry) -> Result<(), AllocError>
    ensures { OnOk result (string_bytes text.new ≡ string_bytes text.old ++ meter_cells meter.now) }
{
    append_number(text, meter.meter)?;
    text.push_str(status_cell(meter.status))?;
    append_number(text, meter.head)?;
    append_number(text, meter.serial)?;
    append_number(text, meter.release)?;
    let size = meter.size;
    write!(text, "{size}\n")
}

/// The status of a meter in words, and spaces to the end of their column.
fn status_cell(status: TransferStatus) -> &'static str
    ensures { result.now ≡ status_cell status }
{
    match status {
        TransferStatus::NotInitiated => "not initiated            ",
        TransferStatus::Initiated => "initiated                ",
        TransferStatus::VerificationInitiated => "verification initiated   ",
        TransferStatus::VerificationSuccessful => "verification successful  ",
        TransferStatus::VerificationFailed => "verification failed      ",
        TransferStatus::ActivationSuccessful => "activation successful    ",
    }
}

/// Appends which event was refused, and why.
fn append_refused(text: &mut String, refusal: Refusal) -> Result<(), AllocError>
    ensures { OnOk result (string_bytes text.new ≡ string_bytes text.old ++ refusal_words refusal) }
{
    let (at, name) = (refusal.at, cause_name(refusal.cause));
    write!(text, "event {at} refused: {name}\n")
}
