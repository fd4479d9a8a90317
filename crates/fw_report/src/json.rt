//! A report as JSON.

ghost use Rattle.std.specs.Prelude.{◌≡◌, ◌++◌, map, codes, take, IfOk, OnOk, string_bytes};
ghost use Rattle.serde_json.specs.Data.{array};
ghost use Rattle.serde_json.specs.View.{items_of, view};
ghost use Rattle.serde_json.specs.Written.{compact_text};
ghost use Rattle.fw_report.specs.Json.{json_of, report_data, row_data, meter_data, active_data, refusal_data};

use crate::refusal::{Refusal, cause_name};
use crate::summary::{MeterEntry, Summary};
use fw_rows::{RowEntry, state_word};
use serde_json::{Value, json};
use std::alloc::{AllocError, Global};

/// Appends the JSON of a world, on a line: its rows, its meters, how many images were switched to, and the event that was refused, or null.
pub(crate) fn append_json(
    alloc: Global,
    text: &mut String,
    summary: &Summary,
    refusal: Option<Refusal>,
) -> Result<(), AllocError>
    ensures { OnOk result (string_bytes text.new ≡ string_bytes text.old
        ++ json_of summary.now.rows.items summary.now.meters.items summary.now.activations refusal) }
{
    let json = json_text(alloc, summary, refusal)?;
    text.push_str(json.as_str())?;
    text.push_str("\n")
}

/// The text of the report.
fn json_text(
    alloc: Global,
    summary: &Summary,
    refusal: Option<Refusal>,
) -> Result<String, AllocError>
    ensures { IfOk result (λ text. string_bytes text
        ≡ compact_text (report_data summary.now.rows.items summary.now.meters.items summary.now.activations refusal)) }
{
    let value = report_value(alloc, summary, refusal)?;
    value.to_string(alloc)
}

/// The report as a value of JSON.
fn report_value(
    alloc: Global,
    summary: &Summary,
    refusal: Option<Refusal>,
) -> Result<Value, AllocError>
    ensures { IfOk result (λ v. view v
        ≡ report_data summary.now.rows.items summary.now.meters.items summary.now.activations refusal) }
{
    let rows = rows_value(alloc, &summary.rows)?;
    let meters = meters_value(alloc, &summary.meters)?;
    let refused = refusal_value(alloc, refusal)?;
    json!(in alloc; {
        "activations": summary.activations,
        "meters": meters,
        "refused": refused,
        "rows": rows,
    })
}

/// The rows as an array.
fn rows_value(alloc: Global, rows: &[RowEntry]) -> Result<Value, AllocError>
    ensures { IfOk result (λ v. view v ≡ array (items_of (map (λ row. row_data row) rows.now))) }
{
    let mut values = Vec::new(alloc);
    push_rows(alloc, &mut values, rows)?;
    Ok(Value::Array(values))
}

/// Adds the value of each row.
fn push_rows(alloc: Global, values: &mut Vec<Value>, rows: &[RowEntry]) -> Result<(), AllocError>
    ensures { OnOk result (map view values.new.items ≡ map view values.old.items ++ map (λ row. row_data row) rows.now) }
{
    for row in rows {
        values.push(row_value(alloc, row)?)?;
    }
    Ok(())
}

/// The value of a row.
fn row_value(alloc: Global, row: &RowEntry) -> Result<Value, AllocError>
    ensures { IfOk result (λ v. view v ≡ row_data row.now) }
{
    json!(in alloc; {
        "campaign": row.serial,
        "head": row.head,
        "meter": row.meter,
        "state": state_word(row.state),
    })
}

/// The meters as an array.
fn meters_value(alloc: Global, meters: &[MeterEntry]) -> Result<Value, AllocError>
    ensures { IfOk result (λ v. view v ≡ array (items_of (map (λ meter. meter_data meter) meters.now))) }
{
    let mut values = Vec::new(alloc);
    push_meters(alloc, &mut values, meters)?;
    Ok(Value::Array(values))
}

/// Adds the value of each meter.
fn push_meters(
    alloc: Global,
    values: &mut Vec<Value>,
    meters: &[MeterEntry],
) -> Result<(), AllocError>
    ensures { OnOk result (map view values.new.items ≡ map view values.old.items ++ map (λ meter. meter_data meter) meters.now) }
{
    for meter in meters {
        values.push(meter_value(alloc, meter)?)?;
    }
    Ok(())
}

/// The value of a meter.
fn meter_value(alloc: Global, meter: &MeterEntry) -> Result<Value, AllocError>
    ensures { IfOk result (λ v. view v ≡ meter_data meter.now) }
{
    let active = active_value(alloc, meter)?;
    json!(in alloc; {"active": active, "meter": meter.meter, "status": meter.status.number()})
}

/// The value of the image that a meter runs.
fn active_value(alloc: Global, meter: &MeterEntry) -> Result<Value, AllocError>
    ensures { IfOk result (λ v. view v ≡ active_data meter.now) }
{
    json!(in alloc; {
        "campaign": meter.serial,
        "head": meter.head,
        "release": meter.release,
        "size": meter.size,
    })
}

/// The value of an event that was refused, and null if none was.
fn refusal_value(alloc: Global, refusal: Option<Refusal>) -> Result<Value, AllocError>
    ensures { IfOk result (λ v. view v ≡ refusal_data refusal) }
{
    match refusal {
        None => Ok(Value::Null),
        Some(Refusal { at, cause }) => {
            json!(in alloc; {"cause": cause_name(cause), "event": at})
        }
    }
}
