//! Events as values of JSON.

ghost use Rattle.std.specs.Prelude.{◌≡◌, IfOk};
ghost use Rattle.serde_json.specs.View.{view};
ghost use Rattle.fw_rows.specs.Noted.{end_time, reason_data, reason_of_end, time_data};
ghost use Rattle.fw_events.specs.Events.{cancelled_data, event_data, fault_data, going_on_data, opened_data, over_data, progress_data, row_data, started_data, stuck_data};

use crate::event::Event;
use crate::figures::Figures;
use crate::met::met_after;
use fw_book::{End, Phase, Reason, RowState};
use fw_names::{HeadId, ImageName};
use fw_rows::{append_failure, state_word};
use serde_json::{Value, json};
use std::alloc::{AllocError, Global};

/// What happened to a head end, and when.
pub(crate) fn event_value(
    alloc: Global,
    time: &str,
    head: HeadId,
    event: Event,
) -> Result<Value, AllocError>
    ensures { IfOk result (λ v. view v ≡ event_data time.now head event) }
{
    match event {
        Event::Started => started_value(alloc, time, head),
        Event::GoingOn {
            serial,
            live,
            done,
            failed,
        } => going_on_value(alloc, time, head, serial, live, done, failed),
        Event::Opened { name } => opened_value(alloc, time, head, name),
        Event::Cancelled { serial } => cancelled_value(alloc, time, head, serial),
        Event::Row {
            serial,
            meter,
            state,
            end,
        } => row_value(alloc, time, head, serial, meter, state, end),
        Event::Stuck {
            serial,
            meter,
            from,
        } => stuck_value(alloc, time, head, serial, meter, from),
        Event::Progress { figures } => progress_value(alloc, time, head, figures),
        Event::Over { done, failed } => over_value(alloc, time, head, done, failed),
    }
}

/// It began.
fn started_value(alloc: Global, time: &str, head: HeadId) -> Result<Value, AllocError>
    ensures { IfOk result (λ v. view v ≡ started_data time.now head) }
{
    json!(in alloc; {"event": "started", "head": head.number(), "time": time})
}

/// It goes on with a campaign that has so many live rows, so many that are done, and so many that failed.
fn going_on_value(
    alloc: Global,
    time: &str,
    head: HeadId,
    serial: u32,
    live: u64,
    done: u64,
    failed: u64,
) -> Result<Value, AllocError>
    ensures { IfOk result (λ v. view v ≡ going_on_data time.now head serial live done failed) }
{
    json!(in alloc; {
        "campaign": serial,
        "done": done,
        "event": "going_on",
        "failed": failed,
        "head": head.number(),
        "live": live,
        "time": time,
    })
}

/// A campaign was opened, which offers the image of this name.
fn opened_value(
    alloc: Global,
    time: &str,
    head: HeadId,
    name: ImageName,
) -> Result<Value, AllocError>
    ensures { IfOk result (λ v. view v ≡ opened_data time.now head name) }
{
    let digest = hex::encode(alloc, name.digest)?;
    json!(in alloc; {
        "campaign": name.campaign.serial(),
        "digest": digest.as_str(),
        "event": "opened",
        "head": head.number(),
        "release": name.release,
        "time": time,
    })
}

/// A campaign was cancelled.
fn cancelled_value(
    alloc: Global,
    time: &str,
    head: HeadId,
    serial: u32,
) -> Result<Value, AllocError>
    ensures { IfOk result (λ v. view v ≡ cancelled_data time.now head serial) }
{
    json!(in alloc; {"campaign": serial, "event": "cancelled", "head": head.number(), "time": time})
}

/// A row ended.
fn row_value(
    alloc: Global,
    time: &str,
    head: HeadId,
    serial: u32,
    meter: u32,
    state: RowState,
    end: Option<End>,
) -> Result<Value, AllocError>
    ensures { IfOk result (λ v. view v ≡ row_data time.now head serial meter state end) }
{
    let ended = time_value(alloc, time_of(end))?;
    let reason = reason_value(alloc, reason_of(end))?;
    json!(in alloc; {
        "campaign": serial,
        "ended": ended,
        "event": "row",
        "head": head.number(),
        "meter": meter,
        "reason": reason,
        "state": state_word(state),
        "time": time,
    })
}

/// A row got nowhere that came from this phase.
fn stuck_value(
    alloc: Global,
    time: &str,
    head: HeadId,
    serial: u32,
    meter: u32,
    from: Phase,
) -> Result<Value, AllocError>
    ensures { IfOk result (λ v. view v ≡ stuck_data time.now head serial meter from) }
{
    json!(in alloc; {
        "campaign": serial,
        "event": "no_progress",
        "head": head.number(),
        "met": met_after(from),
        "meter": meter,
        "time": time,
    })
}

/// So far it is.
fn progress_value(
    alloc: Global,
    time: &str,
    head: HeadId,
    figures: Figures,
) -> Result<Value, AllocError>
    ensures { IfOk result (λ v. view v ≡ progress_data time.now head figures) }
{
    json!(in alloc; {
        "done": figures.done,
        "event": "progress",
        "failed": figures.failed,
        "faults": figures.faults,
        "head": head.number(),
        "live": figures.live,
        "received": figures.received,
        "resends": figures.resends,
        "sent": figures.sent,
        "strangers": figures.strangers,
        "time": time,
        "unopened": figures.unopened,
    })
}

/// No row is live any more that it leads.
fn over_value(
    alloc: Global,
    time: &str,
    head: HeadId,
    done: u64,
    failed: u64,
) -> Result<Value, AllocError>
    ensures { IfOk result (λ v. view v ≡ over_data time.now head done failed) }
{
    json!(in alloc; {
        "done": done,
        "event": "over",
        "failed": failed,
        "head": head.number(),
        "time": time,
    })
}

/// A fault of this name ended it.
pub(crate) fn fault_value(
    alloc: Global,
    time: &str,
    head: HeadId,
    name: &str,
) -> Result<Value, AllocError>
    ensures { IfOk result (λ v. view v ≡ fault_data time.now head name.now) }
{
    json!(in alloc; {"event": "fault", "fault": name, "head": head.number(), "time": time})
}

/// When a row ended, if that is known.
fn time_of(end: Option<End>) -> Option<u64>
    ensures { result ≡ end_time end }
{
    match end {
        Some(end) => Some(end.at),
        None => None,
    }
}

/// Why a row failed, if that is known.
fn reason_of(end: Option<End>) -> Option<Reason>
    ensures { result ≡ reason_of_end end }
{
    match end {
        Some(end) => end.reason,
        None => None,
    }
}

/// The value of a time in seconds, and null for one that isn't known.
fn time_value(alloc: Global, time: Option<u64>) -> Result<Value, AllocError>
    ensures { IfOk result (λ v. view v ≡ time_data time) }
{
    match time {
        Some(time) => json!(in alloc; time),
        None => Ok(Value::Null),
    }
}

/// The value of a reason, and null for one that isn't known.
fn reason_value(alloc: Global, reason: Option<Reason>) -> Result<Value, AllocError>
    ensures { IfOk result (λ v. view v ≡ reason_data reason) }
{
    let Some(reason) = reason else {
        return Ok(Value::Null);
    };
    let mut text = String::new(alloc);
    append_failure(&mut text, reason)?;
    json!(in alloc; text.as_str())
}
