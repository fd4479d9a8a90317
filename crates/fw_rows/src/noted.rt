//! The rows of a book with what is known of them beside their states: when their campaigns were opened, when they ended, and why they failed.

ghost use Rattle.std.specs.Prelude.{◌≡◌, ◌≤◌, ◌∷◌, ◌++◌, [], flat_map, OnOk, string_bytes};
ghost use Rattle.fw_rows.specs.Noted.{
  csv_row,
  end_time,
  noted_entry,
  noted_fields,
  noted_of_book,
  reason_field,
  reason_of_end,
  row_cells,
  time_field,
};

use crate::failure::{append_failure, append_why};
use crate::row::{RowEntry, head_number, state_word};
use crate::table::append_number;
use fw_book::{Book, End, Notes, Reason, Row};
use fw_names::{CampaignId, HeadId};
use std::alloc::AllocError;
use std::marker::Model;

/// A row, and what is known of it.
#[derive(Drop)]
pub struct NotedRow {
    /// The row, and how far it is.
    pub row: RowEntry,
    /// When its campaign was opened, in seconds since 1970 began (UTC).
    pub opened: Option<u64>,
    /// When it ended, and why it failed.
    pub end: Option<End>,
}

impl Model for NotedRow {
    ghost use Rattle.fw_rows.specs.Noted.{Noted};

    ghost Value = { Noted };

    ghost view = { λ n. record { row = n.row; opened = n.opened; end = n.end } };
}

/// Adds the rows of a book, with what is known of them.
pub fn push_noted(rows: &mut Vec<NotedRow>, book: &Book, notes: &Notes) -> Result<(), AllocError>
    ensures { OnOk result (rows.new.items ≡ rows.old.items ++ noted_of_book notes.now book.now) }
{
    let head = book.head();
    for (serial, offer) in book.rows() {
        push_rows(rows, notes, campaign(head, *serial), offer.rows())?;
    }
    Ok(())
}

/// The campaign of a head end with this serial number.
fn campaign(head: HeadId, serial: u32) -> CampaignId
    requires { 1 ≤ serial }
    ensures { result ≡ record { head = head; serial = serial } }
{
    match CampaignId::new(head, serial) {
        Some(campaign) => campaign,
        None => unreachable!(),
    }
}

/// Adds the rows of a campaign.
fn push_rows(
    rows: &mut Vec<NotedRow>,
    notes: &Notes,
    campaign: CampaignId,
    offered: &[Row],
) -> Result<(), AllocError>
    ensures { OnOk result (rows.new.items
        ≡ rows.old.items ++ flat_map (λ row. noted_entry notes.now campaign row) offered.now) }
{
    for row in offered {
        rows.push(noted_row(notes, campaign, row))?;
    }
    Ok(())
}

/// A row of a campaign, with what is known of it.
fn noted_row(notes: &Notes, campaign: CampaignId, row: &Row) -> NotedRow
    ensures { noted_entry notes.now campaign row.now ≡ result ∷ [] }
{
    NotedRow {
        row: RowEntry {
            head: head_number(campaign),
            serial: campaign.serial(),
            meter: row.meter.number(),
            state: row.state,
        },
        opened: notes.opened_at(campaign),
        end: notes.end_of(campaign, row.meter),
    }
}

/// Appends a line of a table for each row.
pub fn append_noted(text: &mut String, rows: &[NotedRow]) -> Result<(), AllocError>
    ensures { OnOk result (string_bytes text.new ≡ string_bytes text.old ++ flat_map (λ row. row_cells row) rows.now) }
{
    for row in rows {
        append_row(text, row)?;
    }
    Ok(())
}

/// Appends the line of a row.
fn append_row(text: &mut String, noted: &NotedRow) -> Result<(), AllocError>
    ensures { OnOk result (string_bytes text.new ≡ string_bytes text.old ++ row_cells noted.now) }
{
    append_number(text, noted.row.head)?;
    append_number(text, noted.row.serial)?;
    append_number(text, noted.row.meter)?;
    text.push_str(state_word(noted.row.state))?;
    append_why(text, reason_of(noted.end))?;
    text.push_str("\n")
}

/// Appends a line of comma-separated values for each row. No number and no word needs quotes.
pub fn append_noted_csv(text: &mut String, rows: &[NotedRow]) -> Result<(), AllocError>
    ensures { OnOk result (string_bytes text.new ≡ string_bytes text.old ++ flat_map (λ row. csv_row row) rows.now) }
{
    for row in rows {
        append_csv_row(text, row)?;
    }
    Ok(())
}

/// Appends a row as comma-separated values: nothing stands for what isn't known.
fn append_csv_row(text: &mut String, noted: &NotedRow) -> Result<(), AllocError>
    ensures { OnOk result (string_bytes text.new ≡ string_bytes text.old ++ csv_row noted.now) }
{
    let (head, serial, meter) = (noted.row.head, noted.row.serial, noted.row.meter);
    let state = state_word(noted.row.state);
    write!(text, "{head},{serial},{meter},{state}")?;
    append_fields(text, noted)
}

/// Appends what is known of a row, and ends its line.
fn append_fields(text: &mut String, noted: &NotedRow) -> Result<(), AllocError>
    ensures { OnOk result (string_bytes text.new ≡ string_bytes text.old ++ noted_fields noted.now) }
{
    append_time(text, noted.opened)?;
    append_time(text, time_of(noted.end))?;
    append_reason(text, reason_of(noted.end))?;
    text.push_str("\n")
}

/// Appends a comma, and a time, if it is known.
fn append_time(text: &mut String, time: Option<u64>) -> Result<(), AllocError>
    ensures { OnOk result (string_bytes text.new ≡ string_bytes text.old ++ time_field time) }
{
    match time {
        Some(time) => write!(text, ",{time}"),
        None => text.push_str(","),
    }
}

/// Appends a comma, and why a row failed, if it is known.
fn append_reason(text: &mut String, reason: Option<Reason>) -> Result<(), AllocError>
    ensures { OnOk result (string_bytes text.new ≡ string_bytes text.old ++ reason_field reason) }
{
    text.push_str(",")?;
    match reason {
        Some(reason) => append_failure(text, reason),
        None => Ok(()),
    }
}

/// When a row ended, if that is known.
fn time_of(end: Option<End>) -> Option<u64>
    ensures { result ≡ end_time end }
{
    match end {
        Some(end) => Some(end.at),
        None => None,
    }
}

/// Why a row failed, if that is known.
fn reason_of(end: Option<End>) -> Option<Reason>
    ensures { result ≡ reason_of_end end }
{
    match end {
        Some(end) => end.reason,
        None => None,
    }
}
