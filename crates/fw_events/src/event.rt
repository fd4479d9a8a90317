//! Events: what happened to a head end and when, each as an object of JSON (RFC 8259) on a line of its own.

ghost use Rattle.std.specs.Prelude.{◌≡◌, IfOk, Some, string_bytes};
ghost use Rattle.serde_json.specs.Read.{read};
ghost use Rattle.serde_json.specs.Written.{compact_text};
ghost use Rattle.fw_calendar.specs.Times.{IsTime};
ghost use Rattle.fw_events.specs.Events.{IsEvent, IsFault, event_data, fault_data};

use crate::figures::Figures;
use crate::values::{event_value, fault_value};
use fw_book::{End, Phase, RowState};
use fw_calendar::append_time;
use fw_names::{HeadId, ImageName};
use std::alloc::{AllocError, Global};

/// What happened to a head end.
#[derive(Clone, Copy)]
pub enum Event {
    /// It began: it receives datagrams.
    Started,
    /// It goes on with a campaign that has live rows from an earlier run.
    GoingOn {
        /// The serial number of the campaign.
        serial: u32,
        /// The rows that are live.
        live: u64,
        /// Those that are done.
        done: u64,
        /// Those that failed.
        failed: u64,
    },
    /// A campaign was opened, which offers the image of this name.
    Opened {
        /// The name of the image, which has the campaign.
        name: ImageName,
    },
    /// A campaign was cancelled.
    Cancelled {
        /// The serial number of the campaign.
        serial: u32,
    },
    /// A row ended.
    Row {
        /// The serial number of its campaign.
        serial: u32,
        /// The number of its meter.
        meter: u32,
        /// How it ended.
        state: RowState,
        /// When that was, and why it failed, as far as that is known.
        end: Option<End>,
    },
    /// A row got nowhere in a lap, and rests.
    Stuck {
        /// The serial number of its campaign.
        serial: u32,
        /// The number of its meter.
        meter: u32,
        /// From which phase it came to ask again whether its meter has all blocks.
        from: Phase,
    },
    /// So far it is.
    Progress {
        /// What it counted.
        figures: Figures,
    },
    /// No row is live any more that it leads.
    Over {
        /// The rows that were done in this run.
        done: u64,
        /// Those that failed in it.
        failed: u64,
    },
}

/// The line of an event of a head end, so many nanoseconds after 1970 began (UTC).
///
/// # Errors
///
/// `AllocError` alone.
pub fn event_line(
    alloc: Global,
    nanoseconds: u64,
    head: HeadId,
    event: Event,
) -> Result<String, AllocError>
    ensures { IfOk result (λ line. IsEvent nanoseconds head event (string_bytes line)) }
{
    let time = time_text(alloc, nanoseconds)?;
    let mut line = event_json(alloc, time.as_str(), head, event)?;
    line.push_str("\n")?;
    Ok(line)
}

/// The line of a fault that ended a head end, by its name, so many nanoseconds after 1970 began (UTC).
///
/// # Errors
///
/// `AllocError` alone.
pub fn fault_line(
    alloc: Global,
    nanoseconds: u64,
    head: HeadId,
    name: &str,
) -> Result<String, AllocError>
    ensures { IfOk result (λ line. IsFault nanoseconds head name.now (string_bytes line)) }
{
    let time = time_text(alloc, nanoseconds)?;
    let mut line = fault_json(alloc, time.as_str(), head, name)?;
    line.push_str("\n")?;
    Ok(line)
}

/// A time that is so many nanoseconds after the start of 1970.
fn time_text(alloc: Global, nanoseconds: u64) -> Result<String, AllocError>
    ensures { IfOk result (λ text. IsTime nanoseconds (string_bytes text)) }
{
    let mut text = String::new(alloc);
    append_time(&mut text, nanoseconds)?;
    Ok(text)
}

/// The object of an event at this time.
fn event_json(alloc: Global, time: &str, head: HeadId, event: Event) -> Result<String, AllocError>
    ensures compact { IfOk result (λ text. string_bytes text ≡ compact_text (event_data time.now head event)) }
    ensures reads { IfOk result (λ text. read (string_bytes text) ≡ Some (event_data time.now head event)) }
{
    let value = event_value(alloc, time, head, event)?;
    value.to_string(alloc)
}

/// The object of a fault at this time.
fn fault_json(alloc: Global, time: &str, head: HeadId, name: &str) -> Result<String, AllocError>
    ensures compact { IfOk result (λ text. string_bytes text ≡ compact_text (fault_data time.now head name.now)) }
    ensures reads { IfOk result (λ text. read (string_bytes text) ≡ Some (fault_data time.now head name.now)) }
{
    let value = fault_value(alloc, time, head, name)?;
    value.to_string(alloc)
}
