//! The rows of a book as a table, as comma-separated values and as JSON.

ghost use Rattle.std.specs.Prelude.{◌≡◌, ◌++◌, map, IfOk, OnOk, string_bytes};
ghost use Rattle.serde_json.specs.View.{view};
ghost use Rattle.serde_json.specs.Written.{compact_text};
ghost use Rattle.fw_rows.specs.Noted.{end_time, noted_data, reason_data, reason_of_end};
ghost use Rattle.fw_status.specs.Rows.{count_of, counts_line, rows_csv, rows_data, rows_json, rows_table};

use crate::campaign::is_in;
use crate::campaigns::time_value;
use fw_book::{End, Reason, RowState};
use fw_rows::table::ROW_HEADINGS;
use fw_rows::{NotedRow, append_failure, append_noted, append_noted_csv, state_word};
use serde_json::{Value, json};
use std::alloc::{AllocError, Global};

/// The headings of comma-separated values.
const CSV_HEADINGS: &str = "head,campaign,meter,state,opened,ended,reason\n";

/// How many rows are in this state.
pub(crate) fn count_of(rows: &[NotedRow], state: RowState) -> usize
    ensures { result ≡ count_of state rows.now }
{
    rows.iter()
        .filter(|noted| is_in(state, noted.row.state))
        .count()
}

/// Appends a table of rows, and how many are in which state.
pub(crate) fn append_table(text: &mut String, rows: &[NotedRow]) -> Result<(), AllocError>
    ensures { OnOk result (string_bytes text.new ≡ string_bytes text.old ++ rows_table rows.now) }
{
    text.push_str(ROW_HEADINGS)?;
    append_noted(text, rows)?;
    append_counts(text, rows)
}

/// Appends how many rows are in which state.
fn append_counts(text: &mut String, rows: &[NotedRow]) -> Result<(), AllocError>
    ensures { OnOk result (string_bytes text.new ≡ string_bytes text.old ++ counts_line rows.now) }
{
    let live = count_of(rows, RowState::Live);
    let done = count_of(rows, RowState::Done);
    let failed = count_of(rows, RowState::Failed);
    let cancelled = count_of(rows, RowState::Cancelled);
    write!(
        text,
        "\nlive {live} done {done} failed {failed} cancelled {cancelled}\n"
    )
}

/// Appends rows as comma-separated values, behind their headings. No number and no word needs quotes.
pub(crate) fn append_csv(text: &mut String, rows: &[NotedRow]) -> Result<(), AllocError>
    ensures { OnOk result (string_bytes text.new ≡ string_bytes text.old ++ rows_csv rows.now) }
{
    text.push_str(CSV_HEADINGS)?;
    append_noted_csv(text, rows)?;
    Ok(())
}

/// Appends rows as JSON on a line, with how many are in which state.
pub(crate) fn append_json(
    alloc: Global,
    text: &mut String,
    rows: &[NotedRow],
) -> Result<(), AllocError>
    ensures { OnOk result (string_bytes text.new ≡ string_bytes text.old ++ rows_json rows.now) }
{
    let json = json_text(alloc, rows)?;
    text.push_str(json.as_str())?;
    text.push_str("\n")
}

/// The text of rows as JSON, without its line feed.
fn json_text(alloc: Global, rows: &[NotedRow]) -> Result<String, AllocError>
    ensures { IfOk result (λ text. string_bytes text ≡ compact_text (rows_data rows.now)) }
{
    let value = rows_value(alloc, rows)?;
    value.to_string(alloc)
}

/// Rows as a value of JSON.
fn rows_value(alloc: Global, rows: &[NotedRow]) -> Result<Value, AllocError>
    ensures { IfOk result (λ v. view v ≡ rows_data rows.now) }
{
    let mut values = Vec::new(alloc);
    push_noted_values(alloc, &mut values, rows)?;
    json!(in alloc; {
        "cancelled": count_of(rows, RowState::Cancelled),
        "done": count_of(rows, RowState::Done),
        "failed": count_of(rows, RowState::Failed),
        "live": count_of(rows, RowState::Live),
        "rows": Value::Array(values),
    })
}

/// Adds the value of each row.
fn push_noted_values(
    alloc: Global,
    values: &mut Vec<Value>,
    rows: &[NotedRow],
) -> Result<(), AllocError>
    ensures { OnOk result (map view values.new.items ≡ map view values.old.items ++ map (λ row. noted_data row) rows.now) }
{
    for row in rows {
        values.push(noted_value(alloc, row)?)?;
    }
    Ok(())
}

/// The value of a row: null stands for what isn't known.
fn noted_value(alloc: Global, noted: &NotedRow) -> Result<Value, AllocError>
    ensures { IfOk result (λ v. view v ≡ noted_data noted.now) }
{
    let ended = time_value(alloc, time_of(noted.end))?;
    let opened = time_value(alloc, noted.opened)?;
    let reason = reason_value(alloc, reason_of(noted.end))?;
    json!(in alloc; {
        "campaign": noted.row.serial,
        "ended": ended,
        "head": noted.row.head,
        "meter": noted.row.meter,
        "opened": opened,
        "reason": reason,
        "state": state_word(noted.row.state),
    })
}

/// The value of a reason, and null for one that isn't known.
fn reason_value(alloc: Global, reason: Option<Reason>) -> Result<Value, AllocError>
    ensures { IfOk result (λ v. view v ≡ reason_data reason) }
{
    let Some(reason) = reason else {
        return Ok(Value::Null);
    };
    let mut text = String::new(alloc);
    append_failure(&mut text, reason)?;
    json!(in alloc; text.as_str())
}

/// When a row ended, if that is known.
pub(crate) fn time_of(end: Option<End>) -> Option<u64>
    ensures { result ≡ end_time end }
{
    match end {
        Some(end) => Some(end.at),
        None => None,
    }
}

/// Why a row failed, if that is known.
pub(crate) fn reason_of(end: Option<End>) -> Option<Reason>
    ensures { result ≡ reason_of_end end }
{
    match end {
        Some(end) => end.reason,
        None => None,
    }
}
