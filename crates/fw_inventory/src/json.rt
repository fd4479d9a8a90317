//! A report as JSON.

ghost use Rattle.std.specs.Prelude.{◌≡◌, ◌++◌, map, IfOk, OnOk, string_bytes};
ghost use Rattle.serde_json.specs.View.{view};
ghost use Rattle.serde_json.specs.Written.{compact_text};
ghost use Rattle.fw_inventory.specs.Cells.{verdict_words};
ghost use Rattle.fw_inventory.specs.Json.{
  answer_data,
  answered_data,
  image_data,
  inventory_data,
  json_of,
  name_data,
  number_data_if,
  offer_data,
  row_data,
  transfer_data,
};

use crate::cell::{append_verdict, head_number, state_word};
use crate::verdict::{Offer, Verdict, name_in, verdict_of};
use fw_names::ImageName;
use fw_survey::{Answer, Row};
use serde_json::{Value, json};
use std::alloc::{AllocError, Global};

/// Appends what is known of each meter as JSON, on a line.
pub(crate) fn append_json(
    alloc: Global,
    text: &mut String,
    rows: &[Row],
    offer: Option<Offer>,
) -> Result<(), AllocError>
    ensures { OnOk result (string_bytes text.new ≡ string_bytes text.old ++ json_of rows.now offer) }
{
    let json = json_text(alloc, rows, offer)?;
    text.push_str(json.as_str())?;
    text.push_str("\n")
}

/// The text of it, without its line feed.
fn json_text(alloc: Global, rows: &[Row], offer: Option<Offer>) -> Result<String, AllocError>
    ensures { IfOk result (λ text. string_bytes text ≡ compact_text (inventory_data rows.now offer)) }
{
    let value = inventory_value(alloc, rows, offer)?;
    value.to_string(alloc)
}

/// What is known of the meters as a value of JSON.
fn inventory_value(alloc: Global, rows: &[Row], offer: Option<Offer>) -> Result<Value, AllocError>
    ensures { IfOk result (λ v. view v ≡ inventory_data rows.now offer) }
{
    let mut values = Vec::new(alloc);
    push_values(alloc, &mut values, rows, offer)?;
    json!(in alloc; {"meters": Value::Array(values)})
}

/// Adds the value of each meter.
fn push_values(
    alloc: Global,
    values: &mut Vec<Value>,
    rows: &[Row],
    offer: Option<Offer>,
) -> Result<(), AllocError>
    ensures { OnOk result (map view values.new.items ≡ map view values.old.items ++ map (λ row. row_data offer row) rows.now) }
{
    for row in rows {
        values.push(row_value(alloc, row, offer)?)?;
    }
    Ok(())
}

/// The value of a meter.
fn row_value(alloc: Global, row: &Row, offer: Option<Offer>) -> Result<Value, AllocError>
    ensures { IfOk result (λ v. view v ≡ row_data offer row.now) }
{
    let image = image_value(alloc, row.active.answer)?;
    let verdict = offer_value(alloc, row, offer)?;
    let transfer = transfer_value(alloc, row)?;
    json!(in alloc; {
        "image": image,
        "meter": row.meter.number(),
        "offer": verdict,
        "state": state_word(row),
        "transfer": transfer,
    })
}

/// The value of the image that a meter runs, or of what else it answered.
fn image_value(alloc: Global, answer: Option<Answer>) -> Result<Value, AllocError>
    ensures { IfOk result (λ v. view v ≡ image_data answer) }
{
    match name_in(&answer) {
        Some(name) => name_value(alloc, &name),
        None => answer_value(alloc, answer),
    }
}

/// The value of a name.
fn name_value(alloc: Global, name: &ImageName) -> Result<Value, AllocError>
    ensures { IfOk result (λ v. view v ≡ name_data name.now) }
{
    let digest = hex::encode(alloc, name.digest)?;
    json!(in alloc; {
        "campaign": name.campaign.serial(),
        "digest": digest.as_str(),
        "head": head_number(name.campaign),
        "release": name.release,
    })
}

/// The value of what a meter answered of its Image transfer.
fn transfer_value(alloc: Global, row: &Row) -> Result<Value, AllocError>
    ensures { IfOk result (λ v. view v ≡ transfer_data row.now) }
{
    let block_size = answer_value(alloc, row.block_size.answer)?;
    let enabled = answer_value(alloc, row.enabled.answer)?;
    let trip = number_value_if(alloc, row.active.trip)?;
    let status = answer_value(alloc, row.status.answer)?;
    json!(in alloc; {
        "block_size": block_size,
        "enabled": enabled,
        "round_trip_us": trip,
        "status": status,
    })
}

/// The value of an answer that is no name: null if there is none.
fn answer_value(alloc: Global, answer: Option<Answer>) -> Result<Value, AllocError>
    ensures { IfOk result (λ v. view v ≡ answer_data answer) }
{
    match answer {
        Some(answer) => answered_value(alloc, answer),
        None => Ok(Value::Null),
    }
}

/// The value of an answer that is no name.
fn answered_value(alloc: Global, answer: Answer) -> Result<Value, AllocError>
    ensures { IfOk result (λ v. view v ≡ answered_data answer) }
{
    match answer {
        Answer::Active(_) => Ok(Value::Null),
        Answer::BlockSize(size) => json!(in alloc; size),
        Answer::Enabled(enabled) => json!(in alloc; enabled),
        Answer::Status(status) => json!(in alloc; status),
        Answer::Refused(code) => json!(in alloc; {"code": code}),
        Answer::Other => json!(in alloc; "other"),
    }
}

/// The value of a number, and null if there is none.
fn number_value_if(alloc: Global, number: Option<u64>) -> Result<Value, AllocError>
    ensures { IfOk result (λ v. view v ≡ number_data_if number) }
{
    match number {
        Some(number) => json!(in alloc; number),
        None => Ok(Value::Null),
    }
}

/// The value of what a meter would do with an image, and null if none is offered.
fn offer_value(alloc: Global, row: &Row, offer: Option<Offer>) -> Result<Value, AllocError>
    ensures { IfOk result (λ v. view v ≡ offer_data row.now offer) }
{
    let Some(offer) = offer else {
        return Ok(Value::Null);
    };
    let words = words_of(alloc, verdict_of(row, &offer))?;
    json!(in alloc; words.as_str())
}

/// What a meter would do with an image, in words.
fn words_of(alloc: Global, verdict: Verdict) -> Result<String, AllocError>
    ensures { IfOk result (λ words. string_bytes words ≡ verdict_words verdict) }
{
    let mut words = String::new(alloc);
    append_verdict(&mut words, verdict)?;
    Ok(words)
}
