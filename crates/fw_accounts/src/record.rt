//! The record of a run of workers, read from their receipts.

ghost use Rattle.std.specs.Prelude.{◌≡◌, ◌≤◌, ◌+◌, ◌++◌, IfOk, OnOk, OnErr, length, map};
ghost use Rattle.fw_world.specs.Runs.{events_of};
ghost use Rattle.fw_accounts.specs.Accounts.{IsRecordOf, all_of};

use crate::accounts::{copied, in_order};
use crate::receipts::Receipts;
use fw_air::Receipt;
use fw_world::Event;
use std::alloc::{AllocError, Global};

/// All events of a run of workers: the given ones, and after them those of the workers' receipts, in the order of their numbers.
///
/// # Errors
///
/// Out of memory, and only if there is an event or a receipt.
pub fn recorded_events(
    alloc: Global,
    given: &[Event],
    receipts: &[Receipts],
) -> Result<Vec<Event>, AllocError>
    ensures record { IfOk result (λ v. IsRecordOf (events_of given.now) receipts.now (events_of v.items)) }
    ensures memory { OnErr result (1 ≤ length given.now + length (all_of receipts.now)) }
{
    let made = in_order(alloc, receipts)?;
    let mut events = copied(alloc, given)?;
    push_events(&mut events, &made)?;
    Ok(events)
}

/// Appends the events of these receipts.
fn push_events(events: &mut Vec<Event>, receipts: &[Receipt]) -> Result<(), AllocError>
    ensures pushed { OnOk result (events_of events.new.items ≡ events_of events.old.items ++ map (λ receipt. receipt.event) receipts.now) }
    ensures memory { OnErr result (1 ≤ length receipts.now) }
{
    for receipt in receipts {
        events.push(receipt.event.event())?;
    }
    Ok(())
}
