//! The given events, which stand before all that workers make.

ghost use Rattle.std.specs.Prelude.{◌≡◌, ◌≢◌, IfOk, IfErr, OnOk, IsErrOf, map};
ghost use Rattle.fw_air.specs.Logs.{IsCounted};
ghost use Rattle.fw_world.specs.Runs.{events_of};
ghost use Rattle.fw_world.specs.Setup.{IsSetup, opening_state};
ghost use Rattle.fw_world.specs.State.{StateRun};
ghost use Rattle.fw_workers.specs.Beginnings.{BeginsFor};
ghost use Rattle.fw_workers.specs.Recorded.{AreEntered};
ghost use Rattle.fw_workers.specs.Refusals.{IsOfRounds, TellsOfEvent, of_event};

use crate::error::RehearseError;
use fw_air::Entry;
use fw_world::{Event, Setup, StepError, World};
use std::alloc::Global;

/// The greatest worker count of a rehearsal or a live rollout.
pub const MAX_WORKERS: u32 = 8;

/// The world after the given events, and an entry for each of them.
#[derive(Drop)]
pub struct Beginning {
    pub world: World,
    pub entries: Vec<Entry>,
    ghost counted: { IsCounted (record { sent = world.sent; entries = entries.items }) },
}

/// What the workers begin with. There have to be 1 to 8 of them: nine workers are refused.
///
/// # Errors
///
/// `BadSetup` first. Then those of the given events: `OutOfMemory`, or `Event` for any other cause.
pub fn begin(
    alloc: Global,
    setup: &Setup,
    events: &[Event],
    workers: u32,
) -> Result<Beginning, RehearseError>
    ensures runs { IfOk result (λ made. StateRun (opening_state setup.now) (events_of events.now) made.world) }
    ensures entries { IfOk result (λ made. map (λ entry. entry.event) made.entries.items ≡ events_of events.now) }
    ensures counts { IfOk result (λ made. AreEntered (opening_state setup.now) made.entries.items made.world) }
    ensures setup { OnOk result (IsSetup setup.now) }
    ensures begins { BeginsFor setup.now events.now workers result }
    ensures wireless { IfErr result (λ e. e ≢ RehearseError.Socket) }
    ensures roundless { IfErr result (λ e. ¬ IsOfRounds e) }
{
    if (1..=MAX_WORKERS).contains(&workers) {
        play(alloc, setup, events)
    } else {
        Err(RehearseError::BadSetup)
    }
}

/// The opening after the given events.
fn play(alloc: Global, setup: &Setup, events: &[Event]) -> Result<Beginning, RehearseError>
    ensures runs { IfOk result (λ made. StateRun (opening_state setup.now) (events_of events.now) made.world) }
    ensures entries { IfOk result (λ made. map (λ entry. entry.event) made.entries.items ≡ events_of events.now) }
    ensures counts { IfOk result (λ made. AreEntered (opening_state setup.now) made.entries.items made.world) }
    ensures bad_setup { IsErrOf result RehearseError.BadSetup → ¬ IsSetup setup.now }
    ensures event { IfErr result (TellsOfEvent setup.now events.now) }
    ensures setup { OnOk result (IsSetup setup.now) }
    ensures made { IfErr result (λ e. e ≢ RehearseError.BadSetup → IsSetup setup.now) }
    ensures wireless { IfErr result (λ e. e ≢ RehearseError.Socket) }
    ensures roundless { IfErr result (λ e. ¬ IsOfRounds e) }
{
    fw_world::laws::run_goes_on();
    fw_air::laws::sent_grows();
    let mut world = World::new(alloc, setup)?;
    let mut entries = Vec::new(alloc);
    for at in 0..events.len() {
        let event = &events[at];
        let before = world.sent().len();
        if let Err(cause) = world.step(alloc, event) {
            return Err(barred(at, cause));
        }
        let count = world.sent().len() - before;
        let event = event.clone()?;
        entries.push(Entry { event, count })?;
    }
    Ok(Beginning { world, entries })
}

/// Why no world was made, where the event of this number is refused for this cause.
fn barred(at: usize, cause: StepError) -> RehearseError
    ensures { result ≡ of_event at cause }
{
    match cause {
        StepError::OutOfMemory => RehearseError::OutOfMemory,
        _ => RehearseError::Event(at),
    }
}
