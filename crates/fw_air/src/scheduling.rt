//! The events of a run over the air.

ghost use Rattle.std.specs.Prelude.{◌≡◌, IfErr, IfOk, OnOk};
ghost use Rattle.fw_world.specs.Runs.{events_of};
ghost use Rattle.fw_world.specs.Setup.{IsSetup, opening_state};
ghost use Rattle.fw_world.specs.declared.error.StepError.TheVariants.{OutOfMemory};
ghost use Rattle.fw_air.specs.Private.{GoesOn, MakesRounds};
ghost use Rattle.fw_air.specs.Rounds.{AdmittedRun};
ghost use Rattle.fw_air.specs.Schedules.{IsOfWorld, IsUnscheduled, Runs, ScheduleHasFates, Schedules};

use crate::fates::Fates;
use crate::links::links_of;
use crate::record::Record;
use crate::watch::{Nobody, Watch};
use fw_world::{Event, RunError, Setup, StepError, World};
use std::alloc::Global;

/// The given events, and after them those of `rounds` rounds of each link: round follows round, and in each the links go by head
/// ends and then by meters, in the order of the setup. A link is a head end and a meter that stands in its book after the given
/// events, also if its rows have all ended. `run` over the list is refused at no event, except if it is out of memory, and
/// ends in the world of these rounds: `laws::none_refused` and `laws::one_world` say so. After the given events each link has as
/// many ticks as there are rounds, and any other two numbers have none: `laws::ticks_each`. In a round of a link each datagram that
/// is sent has the next of the fates, in the order of sending.
///
/// # Errors
///
/// As for `run` of the given events. After them out of memory alone, with the world there and the number of events that made it.
pub fn schedule(
    alloc: Global,
    setup: &Setup,
    events: &[Event],
    rounds: u32,
    fates: &Fates<'_>,
) -> Result<Vec<Event>, RunError>
    ensures schedule { IfOk result (λ list. Schedules setup.now (events_of events.now) rounds (events_of list.items)) }
    ensures fates { IfOk result (λ list. ScheduleHasFates setup.now (events_of events.now) rounds fates.now (events_of list.items)) }
    ensures runs { IfOk result (λ list. Runs setup.now (events_of list.items)) }
    ensures refused { IfErr result (IsUnscheduled setup.now (events_of events.now)) }
    ensures made { IfErr result (IsOfWorld setup.now) }
{
    schedule_watched(alloc, setup, events, rounds, fates, &Nobody)
}

/// `schedule`, of which each round is seen once it is made.
///
/// # Errors
///
/// As of `schedule`.
pub fn schedule_watched<W: Watch>(
    alloc: Global,
    setup: &Setup,
    events: &[Event],
    rounds: u32,
    fates: &Fates<'_>,
    watch: &W,
) -> Result<Vec<Event>, RunError>
    ensures schedule { IfOk result (λ list. Schedules setup.now (events_of events.now) rounds (events_of list.items)) }
    ensures fates { IfOk result (λ list. ScheduleHasFates setup.now (events_of events.now) rounds fates.now (events_of list.items)) }
    ensures runs { IfOk result (λ list. Runs setup.now (events_of list.items)) }
    ensures refused { IfErr result (IsUnscheduled setup.now (events_of events.now)) }
    ensures made { IfErr result (IsOfWorld setup.now) }
{
    fw_world::laws::sent_stays_addressed();
    let world = world_behind(alloc, setup, events)?;
    let Ok(list) = events.to_vec(alloc) else {
        return Err(RunError::Event {
            at: events.len(),
            world,
            cause: StepError::OutOfMemory,
        });
    };
    let mut made = Record::new(world, list);
    match make_rounds(alloc, &mut made, setup, rounds, fates, watch) {
        Ok(()) => Ok(made.into_events()),
        Err(cause) => Err(made.refused(cause)),
    }
}

/// The world that the given events lead to.
fn world_behind(alloc: Global, setup: &Setup, events: &[Event]) -> Result<World, RunError>
    ensures run { IfOk result (λ world. AdmittedRun (opening_state setup.now) (events_of events.now) world) }
    ensures setup { OnOk result (IsSetup setup.now) }
    ensures refused { IfErr result (IsUnscheduled setup.now (events_of events.now)) }
    ensures made { IfErr result (IsOfWorld setup.now) }
{
    let mut world = match World::new(alloc, setup) {
        Ok(world) => world,
        Err(error) => return Err(RunError::Setup(error)),
    };
    for at in 0..events.len() {
        if let Err(cause) = world.step(alloc, &events[at]) {
            return Err(RunError::Event { at, world, cause });
        }
    }
    Ok(world)
}

/// `rounds` rounds of all links, each of which is seen once it is made.
fn make_rounds<W: Watch>(
    alloc: Global,
    made: &mut Record,
    setup: &Setup,
    rounds: u32,
    fates: &Fates<'_>,
    watch: &W,
) -> Result<(), StepError>
    ensures all { OnOk result (MakesRounds setup.now rounds fates.now made.old made.new) }
    ensures memory { IfErr result (λ e. e ≡ OutOfMemory) }
    ensures goes_on { GoesOn made.old made.new }
{
    let mut links = links_of(alloc, setup, made.world())?;
    made.rounds(alloc, &mut links, rounds, fates, watch)
}
