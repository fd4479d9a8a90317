//! What the events of a file tell of rows, for who goes on with it: a row that ended and isn't told has its event to come.

ghost use Rattle.std.specs.Prelude.{◌≡◌, ◌++◌, ◌||◌, ℕ, Some, false, option_and_then, option_map, IfOk, OnOk};
ghost use Rattle.serde_json.specs.Find.{as_str, get};
ghost use Rattle.serde_json.specs.View.{view};
ghost use Rattle.fw_book.specs.Notes.{place};
ghost use Rattle.fw_events.specs.Told.{
  is_number,
  is_of_head,
  is_row,
  number_at,
  place_if,
  row_in,
  row_of,
  tells_of,
  untold_event,
  untold_events,
};

use crate::event::Event;
use fw_book::{Notes, Row};
use fw_names::{CampaignId, HeadId};
use serde_json::Value;
use std::alloc::{AllocError, Global};
use std::collections::HashSet;

/// How many serial numbers and how many meters there are at most: their numbers have four bytes.
const NUMBERS: u64 = 4_294_967_296;

/// The rows of a head end of which events tell.
#[derive(Drop)]
pub struct ToldRows {
    head: HeadId,
    /// The places of the rows: each has one of its own.
    places: HashSet<u64>,
}

impl ToldRows {
    /// None is told yet. It keeps the allocator, and takes no memory.
    pub fn none(alloc: Global, head: HeadId) -> ToldRows
        ensures head { result.head ≡ head }
        ensures none { (place : ℕ) → tells_of result place ≡ false }
    {
        ToldRows {
            head,
            places: HashSet::new(alloc),
        }
    }

    /// Takes a line of a file of events, without its line feed. One that isn't the event of a row of the head end tells nothing.
    ///
    /// # Errors
    ///
    /// `AllocError` alone.
    pub fn take(&mut self, alloc: Global, line: &str) -> Result<(), AllocError>
        ensures head { self.new.head ≡ self.old.head }
        ensures taken { OnOk result ((place : ℕ) → tells_of self.new place
            ≡ (tells_of self.old place || is_number place (row_of self.old.head line.now))) }
    {
        if let Some(place) = row_of(alloc, self.head, line)? {
            self.places.insert(place)?;
        }
        Ok(())
    }

    /// Whether an event tells of the row of this meter in the campaign of this serial number.
    fn has(&self, serial: u32, meter: u32) -> bool
        ensures { result ≡ tells_of self.now (place serial meter) }
    {
        let place = u64::from(serial) * NUMBERS + u64::from(meter);
        self.places.contains(&place)
    }
}

/// The events of those of these rows of a campaign that ended and of which no event tells, in their order.
///
/// # Errors
///
/// `AllocError` alone.
pub fn untold_events(
    alloc: Global,
    told: &ToldRows,
    notes: &Notes,
    campaign: CampaignId,
    rows: &[Row],
) -> Result<Vec<Event>, AllocError>
    ensures { IfOk result (λ events. events.items ≡ untold_events told.now notes.now campaign rows.now) }
{
    let mut events = Vec::new(alloc);
    for row in rows {
        push_untold(&mut events, told, notes, campaign, row)?;
    }
    Ok(events)
}

/// Adds the event of a row of a campaign, if it ended and no event tells of it.
fn push_untold(
    events: &mut Vec<Event>,
    told: &ToldRows,
    notes: &Notes,
    campaign: CampaignId,
    row: &Row,
) -> Result<(), AllocError>
    ensures { OnOk result (events.new.items ≡ events.old.items ++ untold_event told.now notes.now campaign row.now) }
{
    let serial = campaign.serial();
    let meter = row.meter.number();
    if row.state.is_live() || told.has(serial, meter) {
        return Ok(());
    }
    events.push(Event::Row {
        serial,
        meter,
        state: row.state,
        end: notes.end_of(campaign, row.meter),
    })?;
    Ok(())
}

/// The place of the row of a head end of which a line tells, if it is the event of one.
fn row_of(alloc: Global, head: HeadId, line: &str) -> Result<Option<u64>, AllocError>
    ensures { IfOk result (λ place. place ≡ row_of head line.now) }
{
    match Value::from_str(alloc, line) {
        Ok(value) => Ok(row_in(head, &value)),
        Err(error) if error.is_memory() => Err(AllocError),
        Err(_) => Ok(None),
    }
}

/// The place of the row of a head end of which an object tells, if it is the event of one.
fn row_in(head: HeadId, value: &Value) -> Option<u64>
    ensures { result ≡ row_in head (view value.now) }
{
    if !is_row(value) || !is_of_head(head, value) {
        return None;
    }
    let serial = number_at(value, "campaign")?;
    let meter = number_at(value, "meter")?;
    place_if(serial, meter)
}

/// Whether an object is the event of a row.
fn is_row(value: &Value) -> bool
    ensures { result ≡ is_row (view value.now) }
{
    match text_at(value, "event") {
        Some(word) => word == "row",
        None => false,
    }
}

/// Whether an object is of this head end.
fn is_of_head(head: HeadId, value: &Value) -> bool
    ensures { result ≡ is_of_head head (view value.now) }
{
    match number_at(value, "head") {
        Some(number) => number == u64::from(head.number()),
        None => false,
    }
}

/// The place of a row, if its numbers are such as there are.
fn place_if(serial: u64, meter: u64) -> Option<u64>
    ensures { result ≡ place_if (Some serial) (Some meter) }
{
    if serial < NUMBERS && meter < NUMBERS {
        Some(serial * NUMBERS + meter)
    } else {
        None
    }
}

/// The text that a member of an object has.
fn text_at<'a>(value: &'a Value, key: &str) -> Option<&'a str>
    ensures { option_map (λ text. text.now) result ≡ option_and_then as_str (get key.now (view value.now)) }
{
    value.get(key)?.as_str()
}

/// The number that a member of an object has.
fn number_at(value: &Value, key: &str) -> Option<u64>
    ensures { result ≡ number_at key.now (view value.now) }
{
    value.get(key)?.as_u64()
}
